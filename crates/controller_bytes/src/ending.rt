// How a download stands, as four bytes: its kind, the template, and both codes.
ghost use Rattle.std.specs.Prelude.{◌≡◌};
ghost use Rattle.controller_bytes.specs.Endings.{ending_bytes, going_on};

use protocol::Ending;

// Stores how a download ended.
pub fn put_ending(how: Ending, ending: &mut [u8; 4])
    ensures { ending.new ≡ ending_bytes how }
{
    match how {
        Ending::Done => {
            *ending = [1, 0, 0, 0];
        }
        Ending::NoOpening => {
            *ending = [2, 0, 0, 0];
        }
        Ending::NoAnswer { template } => {
            *ending = [3, template, 0, 0];
        }
        Ending::NotReady { template } => {
            *ending = [4, template, 0, 0];
        }
        Ending::Refused {
            template,
            code1,
            code2,
        } => {
            *ending = [5, template, code1, code2];
        }
        Ending::Strange { template } => {
            *ending = [6, template, 0, 0];
        }
    }
}

// Stores that it has not ended.
pub fn put_going_on(ending: &mut [u8; 4])
    ensures { ending.new ≡ going_on }
{
    *ending = [0, 0, 0, 0];
}
