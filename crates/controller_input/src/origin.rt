// Whether a telegram is the printer's reply to this controller.
ghost use Rattle.std.specs.Prelude.{◌≡◌};
ghost use Rattle.protocol.specs.Controller.{is_sd2, is_printers};

use fdl::{Format, Header};
use protocol::Settings;

fn is_sd2(format: Format) -> bool
    ensures { result ≡ is_sd2 format }
{
    matches!(format, Format::Sd2)
}

// The printer's: SD2 with function code 08, from the printer address set to the controller address set.
pub(crate) fn is_printers(settings: Settings, format: Format, header: Header) -> bool
    ensures { result ≡ is_printers settings format header }
{
    if !is_sd2(format) {
        return false;
    }
    if header.fc != 0x08 {
        return false;
    }
    if header.sa != settings.printer {
        return false;
    }
    header.da == settings.controller
}
