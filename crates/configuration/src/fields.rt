// The fields of a module, and how many bytes of process data they stand for.
ghost use Rattle.std.specs.Prelude.{◌≡◌};
ghost use Rattle.configuration.specs.Fields.{length_of};

// What a module has on one side: nothing, or so many units (1 to 64, in the general format 1 to 16),
// each a byte or a word of two, with or without consistency over all of them.
#[derive(Clone, Copy)]
pub enum Side {
    Absent,
    Present {
        units: u8,
        words: bool,
        consistent: bool,
    },
}

// The format of the identifier that a module begins with. The general one is a single byte; the
// special one has a length byte for each side and vendor bytes.
#[derive(Clone, Copy)]
pub enum Identifier {
    General,
    Special,
}

// A module, but for the vendor bytes of the special format. With them the fields are complete: no two
// modules that differ in a byte have the same.
#[derive(Clone, Copy)]
pub struct Module {
    pub identifier: Identifier,
    pub input: Side,
    pub output: Side,
}

// How many bytes of process data a side has.
pub fn side_length(side: Side) -> usize
    ensures { result ≡ length_of side }
{
    match side {
        Side::Absent => 0,
        Side::Present {
            units,
            words,
            consistent: _,
        } => {
            if words {
                2 * units as usize
            } else {
                units as usize
            }
        }
    }
}
