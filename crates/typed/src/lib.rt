// Typed values: a code byte and the bytes of a value, high byte first (document 01, "Typed values"): what they are, and the
// definitions and laws of both ways.
#![tactic(auto)]

mod value;

pub use value::{
    BOOLEAN, FLOATING_POINT, SIGNED_8, SIGNED_16, SIGNED_32, UNSIGNED_8, UNSIGNED_16, UNSIGNED_32,
    Value,
};
