// Kinds of telegram as the numbers that the C interface has of them.
ghost use Rattle.std.specs.Prelude.{◌≡◌};
ghost use Rattle.fields.specs.Kinds.{format_number, kind_of};

use fdl::Format;

// The telegrams that numbers name.
#[derive(Drop)]
pub enum Kind {
    Confirmation,
    Token,
    Telegram(Format),
}

pub fn format_number(format: Format) -> u8
    ensures { result ≡ format_number format }
{
    match format {
        Format::Sd1 => 2,
        Format::Sd2 => 3,
        Format::Sd3 => 4,
    }
}

// Which telegram a number names, if it names one.
pub fn kind_of(number: u8) -> Option<Kind>
    ensures { result ≡ kind_of number }
{
    match number {
        0 => Some(Kind::Confirmation),
        1 => Some(Kind::Token),
        2 => Some(Kind::Telegram(Format::Sd1)),
        3 => Some(Kind::Telegram(Format::Sd2)),
        4 => Some(Kind::Telegram(Format::Sd3)),
        _ => None,
    }
}
