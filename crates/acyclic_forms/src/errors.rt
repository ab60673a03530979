// The error bytes of a negative answer.
ghost use Rattle.std.specs.Prelude.{◌≡◌};
ghost use Rattle.acyclic.specs.Errors.{good_decode, named_in, good_code1};

// Whose errors they are: 128 PROFIBUS DP, 254 PROFIBUS FMS, 255 HART.
pub(crate) fn good_decode(decode: u8) -> bool
    ensures { result ≡ good_decode decode }
{
    if decode == 128 {
        return true;
    }
    if decode == 254 {
        return true;
    }
    decode == 255
}

// Whether an error class of PROFIBUS DP has an error code.
#[tactic(auto, unfolding(acyclic::specs::Errors::named_in))]
fn named_in(class: u8, code: u8) -> bool
    ensures { result ≡ named_in class code }
{
    match class {
        10 => {
            if code <= 2 {
                return true;
            }
            8 <= code
        }
        11 => true,
        12 => {
            if code <= 3 {
                return true;
            }
            8 <= code
        }
        _ => 13 <= class,
    }
}

// Error code 1 has a class and a code under PROFIBUS DP; under the others it is free.
#[tactic(auto, unfolding(acyclic::specs::Errors::good_code1))]
pub(crate) fn good_code1(decode: u8, code1: u8) -> bool
    ensures { result ≡ good_code1 decode code1 }
{
    if decode != 128 {
        return true;
    }
    named_in(code1 / 16, code1 % 16)
}
