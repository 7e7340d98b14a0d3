// Packed fields: what bits, runs of fields and cut fields are, and their laws over the width; numbers made from bytes; bytes packed
// from values of 4 bits.
#![tactic(auto)]

ghost use Rattle.std.specs.Prelude.{◌≡◌, ◌+◌, ◌*◌, ◌%◌, ◌^◌, ◌≤◌};
ghost use Rattle.bits.specs.Fields.{number, run};
ghost use Rattle.bits.specs.Halves.{halves_into};

// A byte as a wider number, of which it is known that it was a byte.
pub fn wide(byte: u8) -> u64
    ensures { (result ≡ byte) × (result ≤ 255) }
{
    u64::from(byte)
}

// A number of 16 bits from its two bytes.
pub fn word(high: u8, low: u8) -> u16
    ensures { result ≡ high * 256 + low }
{
    u16::from_be_bytes([high, low])
}

// A number of 64 bits from its bytes, the first of them the highest; of more than eight bytes, that of the last eight, and of fewer, that of
// eight with zeros in front. A caller cuts the bytes out where it calls, as `&bytes[i..i + 8]`: so the compiler knows how many there are, and
// makes one load.
pub fn long(bytes: &[u8]) -> u64
    ensures { result ≡ number (run 8 bytes.now) % 2 ^ 64 }
{
    if let Some(&eight) = bytes.last_chunk::<8>() {
        return u64::from_be_bytes(eight);
    }
    let mut eight = [0u8; 8];
    eight[8 - bytes.len()..].copy_from_slice(bytes);
    u64::from_be_bytes(eight)
}

// Packs the low 4 bits of each value, two values to a byte. If there are not two values for each byte of the part, it stays as it was.
pub fn pack_halves(part: &mut [u8], values: &[u8])
    ensures { part.new ≡ halves_into part.old values.now }
{
    if values.len() / 2 != part.len() || values.len() % 2 != 0 {
        return;
    }
    for (k, byte) in part.iter_mut().enumerate() {
        *byte = values[2 * k] % 16 * 16 + values[2 * k + 1] % 16;
    }
}
