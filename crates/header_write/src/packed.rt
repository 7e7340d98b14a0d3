// Values of a few bits each, packed highest bit first.
ghost use Rattle.std.specs.Prelude.{◌≡◌, ◌++◌, ◌*◌, ◌/◌, ◌%◌, ◌≤◌, length};
ghost use Rattle.bits.specs.Fields.{bits_of, run};
ghost use Rattle.header_layout.specs.Bytes.{quarters};

// A byte of the low 2 bits of four values.
pub(crate) fn four(a: u8, b: u8, c: u8, d: u8) -> u8
    ensures { result ≡ quarters a b c d }
{
    a % 4 * 64 + b % 4 * 16 + c % 4 * 4 + d % 4
}

// Packs the low `width` bits of each value into `part`, which has room for their whole bytes. Answers what is left: bits that do
// not fill a byte, in the answer's low end.
pub(crate) fn write_run(part: &mut [u8], values: &[u8], width: u32) -> u32
    requires width_bound { width ≤ 8 }
    requires part_len { length part.old ≡ length values.now * width / 8 }
    ensures { run 8 part.new ++ bits_of (length values.now * width % 8) result ≡ run width values.now }
{
    let limit = 1u32 << width;
    let mut held: u32 = 0;
    let mut bits: u32 = 0;
    let mut at = 0;
    for &value in values {
        // Parts of a register, no bytes of a number: the bits that went out are dropped, and the value's bits come in.
        held = ((held % 256) << width) + u32::from(value) % limit;
        bits += width;
        if 8 <= bits {
            bits -= 8;
            // Eight bits of the register, from wherever its next byte starts.
            part[at] = ((held >> bits) % 256) as u8;
            at += 1;
        }
    }
    held
}
