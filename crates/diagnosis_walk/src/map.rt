// The map of a module block: a bit a module, module 0 in bit 0 of the first byte.
ghost use Rattle.std.specs.Prelude.{◌≡◌, ◌≤◌, length};
ghost use Rattle.diagnosis.specs.Map.{set_of, lowest_of};

// The number of modules that report. It has 16 bits, and not as many as the answer, so that the compiler counts
// eight bytes at once.
pub(crate) fn set_bits(map: &[u8]) -> usize
    requires { length map.now ≤ 62 }
    ensures { result ≡ set_of map.now }
{
    let mut set: u16 = 0;
    for &byte in map {
        set += byte.count_ones() as u16;
    }
    set as usize
}

// The lowest module that reports. A byte without a set bit has eight trailing zeros, so the sum of
// those is the module's number at the first byte that has one.
pub(crate) fn lowest_module(map: &[u8]) -> Option<usize>
    requires { length map.now ≤ 62 }
    ensures { result ≡ lowest_of map.now }
{
    let mut zeros: usize = 0;
    for &byte in map {
        zeros += byte.trailing_zeros() as usize;
        if byte != 0 {
            return Some(zeros);
        }
    }
    None
}
