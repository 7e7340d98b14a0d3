// Text put into a lent buffer: each function answers the place behind it, and leaves all other bytes. Buffer and place go on as two
// arguments: in a struct with methods over `&mut self` the proof no longer knew that it is the lent buffer which was written.
ghost use Rattle.std.specs.Prelude.{◌≡◌, ◌+◌, ◌≤◌, ◌<◌, length};
ghost use Rattle.listing.specs.Text.{decimal, hexadecimal, field, Puts};

// A field and the byte behind it.
pub(crate) fn put_field(out: &mut [u8], at: usize, text: &[u8], end: u8) -> usize
    requires { at + length text.now < length out.old }
    ensures puts { Puts out.old at (field text.now end) out.new result }
    ensures value { result ≡ at + length text.now + 1 }
{
    let e = at + text.len();
    slices::copy(&mut out[at..e], text);
    out[e] = end;
    e + 1
}

// A number in decimal and the byte behind it.
pub(crate) fn put_number(out: &mut [u8], at: usize, n: u64, end: u8) -> usize
    requires { at + 21 ≤ length out.old }
    ensures puts { Puts out.old at (field (decimal n) end) out.new result }
    ensures upper_bound { result ≤ at + 21 }
{
    let mut digits = [0u8; 20];
    let count = io::decimal(n, &mut digits);
    put_field(out, at, &digits[..count], end)
}

// A number in hexadecimal, eight digits, and the byte behind it.
pub(crate) fn put_hex(out: &mut [u8], at: usize, n: u32, end: u8) -> usize
    requires { at + 9 ≤ length out.old }
    ensures puts { Puts out.old at (field (hexadecimal n) end) out.new result }
    ensures upper_bound { result ≤ at + 9 }
{
    let mut digits = [0u8; 16];
    let count = io::hex(n as u64, 8, &mut digits);
    put_field(out, at, &digits[..count], end)
}
