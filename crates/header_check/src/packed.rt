// Values of a few bits each, cut from runs that are packed highest bit first.
ghost use Rattle.std.specs.Prelude.{◌≡◌, ◌*◌, ◌≤◌, length};
ghost use Rattle.bits.specs.Fields.{run, cut};

// Cuts values of `width` bits from `part`, as many as `values` has.
pub(crate) fn read_run(values: &mut [u8], part: &[u8], width: u32)
    requires width_bound { width ≤ 8 }
    requires width_in_bounds { length values.old * width ≤ length part.now * 8 }
    ensures { values.new ≡ cut width (length values.old) (run 8 part.now) }
{
    let limit = 1u32 << width;
    let mut held: u32 = 0;
    let mut bits: u32 = 0;
    let mut at = 0;
    for value in values.iter_mut() {
        if bits < width {
            // Parts of a register, no bytes of a number: the bits that were cut go out, and the next byte comes in.
            held = (held % 256) * 256 + u32::from(part[at]);
            bits += 8;
            at += 1;
        }
        bits -= width;
        *value = ((held >> bits) % limit) as u8;
    }
}
