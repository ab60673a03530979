// The table of a book: a slot and a length for each template.
ghost use Rattle.std.specs.Prelude.{◌≡◌};
ghost use Rattle.book.specs.Table.{good_pair};

// Judges a slot, which is at least `least`, and its length.
pub fn good_pair(least: u8, slot: u8, len: u8) -> bool
    ensures { result ≡ good_pair least slot len }
{
    if slot < least {
        return false;
    }
    if 15 < slot {
        return false;
    }
    if len < 1 {
        return false;
    }
    len <= 200
}
