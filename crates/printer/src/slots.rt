// A write's body into its slot.
ghost use Rattle.std.specs.Prelude.{◌≡◌, ◌≤◌, length};
ghost use Rattle.protocol.specs.Slots.{written};
ghost use Rattle.printer_rules.specs.Meaning.{slots_after, Fits};
ghost use Rattle.printer.specs.Meaning.{slots_of};

// Slot index: its length, and that many of its 200 bytes from the front.
fn fill(index: u8, body: &[u8], lengths: &mut [u8; 16], bodies: &mut [u8; 3200])
    requires { (index ≤ 15) × (length body.now ≤ 200) }
    ensures { slots_of lengths.new bodies.new ≡ written index body.now (slots_of lengths.old bodies.old) }
{
    let at = index as usize;
    lengths[at] = body.len() as u8;
    octets::store_behind(200 * at, body, bodies);
}

// What a deed does to the slots.
pub(crate) fn keep(target: Option<u8>, body: &[u8], lengths: &mut [u8; 16], bodies: &mut [u8; 3200])
    requires { Fits target (length body.now) }
    ensures { slots_of lengths.new bodies.new ≡ slots_after target body.now (slots_of lengths.old bodies.old) }
{
    if let Some(index) = target {
        fill(index, body, lengths, bodies);
    }
}
