// What every format of the library shares: why something is refused, a test as a byte, numbers high byte
// first, storing at the front of a lent slice, and handing back a part of one. A reader answers what it read or a
// refusal; a writer answers how many bytes it stored at the front of the lent slice, or a refusal, with nothing stored.
#![tactic(auto)]

mod refusal;

ghost use Rattle.std.specs.Prelude.{◌≡◌, ◌≤◌, ◌∷◌, [], ◌++◌, length, take, drop};
ghost use Rattle.octets.specs.Bits.{bit_of};
ghost use Rattle.octets.specs.Number.{number_of, bytes_of};
ghost use Rattle.octets.specs.Front.{count_of, front_of, count_behind, held_behind};
ghost use Rattle.octets.specs.Part.{part_of};

pub use refusal::Refusal;

// Which of the two versions of DP the caller speaks.
#[derive(Clone, Copy, PartialEq, Eq)]
pub enum Mode {
    Dpv0,
    Dpv1,
}

// The fields of a format with user bytes behind them: the fields, and where the len user bytes start, which `part` hands back.
#[derive(Clone, Copy)]
pub struct Read<T> {
    pub fields: T,
    pub start: usize,
    pub len: usize,
}

impl<T: Drop> Read<T> {
    // The same bytes, behind these fields.
    pub fn with<U>(self, fields: U) -> Read<U>
        ensures fields { result.fields ≡ fields }
        ensures bytes { (result.start ≡ self.start) × (result.len ≡ self.len) }
    {
        Read {
            fields,
            start: self.start,
            len: self.len,
        }
    }
}

// A test as a byte.
pub fn bit_of(test: bool) -> u8
    ensures { result ≡ bit_of test }
{
    u8::from(test)
}

// The number of two bytes, high byte first.
pub fn join16(high: u8, low: u8) -> u16
    ensures { result ≡ number_of (high ∷ low ∷ []) }
{
    high as u16 * 256 + low as u16
}

// The number of four bytes, high byte first.
pub fn join32(first: u8, second: u8, third: u8, last: u8) -> u32
    ensures { result ≡ number_of (first ∷ second ∷ third ∷ last ∷ []) }
{
    ((first as u32 * 256 + second as u32) * 256 + third as u32) * 256 + last as u32
}

// Stores the two bytes of a number, high byte first, at the front of out, and answers how many
// bytes it stored: both, or none where they do not fit.
pub fn store16(n: u16, out: &mut [u8]) -> usize
    ensures count { result ≡ count_of (bytes_of 2 n) out.old }
    ensures bytes { out.new ≡ front_of (bytes_of 2 n) out.old }
{
    if out.len() < 2 {
        return 0;
    }
    out[0] = (n / 256 % 256) as u8;
    out[1] = (n % 256) as u8;
    2
}

// Stores the four bytes of a number, high byte first, at the front of out, and answers how many
// bytes it stored: all, or none where they do not fit.
pub fn store32(n: u32, out: &mut [u8]) -> usize
    ensures count { result ≡ count_of (bytes_of 4 n) out.old }
    ensures bytes { out.new ≡ front_of (bytes_of 4 n) out.old }
{
    if out.len() < 4 {
        return 0;
    }
    out[0] = (n / 256 / 256 / 256 % 256) as u8;
    out[1] = (n / 256 / 256 % 256) as u8;
    out[2] = (n / 256 % 256) as u8;
    out[3] = (n % 256) as u8;
    4
}

// Copies source to the front of out, in which it fits, and answers how many bytes that is. A byte at a time: std's copy
// of a slice would have the archive need memmove of a C library.
fn copy(source: &[u8], out: &mut [u8]) -> usize
    requires { length source.now ≤ length out.old }
    ensures count { result ≡ length source.now }
    ensures bytes { out.new ≡ take (length source.now) source.now ++ drop (length source.now) out.old }
{
    for (i, byte) in source.iter().enumerate() {
        out[i] = *byte;
    }
    source.len()
}

// Stores source at the front of out, and answers how many bytes it stored: all, or none where they
// do not fit.
pub fn store(source: &[u8], out: &mut [u8]) -> usize
    ensures count { result ≡ count_of source.now out.old }
    ensures bytes { out.new ≡ front_of source.now out.old }
{
    if out.len() < source.len() {
        return 0;
    }
    copy(source, out)
}

// Stores source behind the n bytes in front of out, and answers how many bytes then stand in front:
// those and all of source, or none where they do not fit.
pub fn store_behind(n: usize, source: &[u8], out: &mut [u8]) -> usize
    ensures count { result ≡ count_behind n source.now out.old }
    ensures bytes { out.new ≡ held_behind n source.now out.old }
{
    if out.len() < n {
        return 0;
    }
    if out.len() - n < source.len() {
        return 0;
    }
    n + copy(source, &mut out[n..])
}

// The part of bytes with len bytes from start, or the empty part where that does not lie inside.
pub fn part(bytes: &[u8], start: usize, len: usize) -> &[u8]
    ensures { result.now ≡ part_of bytes.now start len }
{
    let total = bytes.len();
    if total < start {
        return &bytes[..0];
    }
    if total - start < len {
        return &bytes[..0];
    }
    &bytes[start..start + len]
}
