// The CRC of H.222.0 over bytes.
#![tactic(auto)]

ghost use Rattle.std.specs.Prelude.{◌+◌, ◌%◌, ◌≤◌, ◌≡◌, length};
ghost use Rattle.bits.specs.Fields.{bits_of, run};
ghost use Rattle.crc.specs.Crc.{register_from, register_of, shifts};
ghost use Rattle.crc.specs.Words.{Ahead, Tabled, held, reduced};

const POLY: u32 = 0x04C1_1DB7;

// The register `x` after `n` shifts. Where `n` is known, the compiler turns the loop into lookups in a table of its own, eight shifts at a
// time.
fn shifted(x: u32, n: u32) -> u32
    ensures { result ≡ shifts n x }
{
    let mut r = x;
    for _ in 0..n {
        if r >> 31 == 1 {
            r = (r << 1) ^ POLY;
        } else {
            r <<= 1;
        }
    }
    r
}

// The register `s` after the eight bits of `b`.
fn byte_in(s: u32, b: u8) -> u32
    ensures { result ≡ register_from s (bits_of 8 b) }
{
    shifted(s ^ (u32::from(b) << 24), 8)
}

// The register `s` after `bytes`, one by one.
fn bytes_in(s: u32, bytes: &[u8]) -> u32
    ensures { result ≡ register_from s (run 8 bytes.now) }
{
    let mut r = s;
    for &byte in bytes {
        r = byte_in(r, byte);
    }
    r
}

// How far bits go on: one of the distances that are in use.
#[derive(Clone, Copy)]
struct Distance {
    shifts: u32,
    ghost tabled: { Tabled shifts },
}

impl Distance {
    // The register 1 after so many shifts.
    fn one(self) -> u64
        ensures { Ahead self.shifts 1 1 result }
    {
        match self.shifts {
            32 => u64::from(POLY),
            64 => 0x490D_678D,
            96 => 0xF200_AA66,
            128 => 0xE8A4_5605,
            _ => 0x17D3_315D,
        }
    }
}

// The lowest byte of `x`, `n` shifts on. The register has 64 bits, so that nothing falls out of it. For each
// distance the compiler makes a loop of its own, and then a look into a table in place of the loop. It does so only where `one` stands in the loop and
// `r` is shifted in one place. With the number of `one` as an argument there would be no table, and all would take five times as long.
fn byte_on(x: u64, n: Distance) -> u64
    ensures { Ahead n.shifts 8 x result }
{
    let mut r: u64 = 0;
    let mut d = x << 56;
    for _ in 0..8u32 {
        let top = (r ^ d) >> 63;
        r <<= 1;
        if top == 1 {
            r ^= n.one();
        }
        d <<= 1;
    }
    r
}

// The lowest 32 bits of `x`, `n` shifts on. The four bytes are looked up side by side: none waits for the one before it. What `r << 8` moves is a
// register, not a number that is put together from its bytes.
fn low_on(x: u64, n: Distance) -> u64
    ensures { Ahead n.shifts 32 x result }
{
    let mut r: u64 = 0;
    for i in 0..4u32 {
        r = (r << 8) ^ byte_on(x >> (24 - 8 * i), n);
    }
    r
}

// The 64 bits of `x`, `n` shifts on. The high half stands 32 bits before the low one, so it goes 32 shifts further. Both distances are made here from
// one number, so here a clause says that they are in use. Elsewhere `Distance` says it.
fn long_on(x: u64, n: u32) -> u64
    requires { Tabled n × Tabled (n + 32) }
    ensures { reduced result ≡ shifts n (reduced x) }
{
    low_on(x >> 32, Distance { shifts: n + 32 }) ^ low_on(x, Distance { shifts: n })
}

// The register that the sixteen bytes of `r` and `s` leave, from zero on: `s` goes on by the 32 bits of the register, and `r` by the 64
// of `s` besides.
fn left_by(r: u64, s: u64) -> u32
    ensures { result ≡ held r s }
{
    let u = long_on(r, 96) ^ long_on(s, 32);
    shifted((u >> 32) as u32, 32) ^ (u % 0x1_0000_0000) as u32
}

// The register that `bytes` leave, eight bytes a turn. The sixteen bytes `r` and `s`, started from zero, leave the same register as all
// bytes so far. Each turn carries eight bytes over to the next eight, so that no turn waits for the one before it.
fn longs_in(bytes: &[u8]) -> u32
    requires { (16 ≤ length bytes.now) × (length bytes.now % 8 ≡ 0) }
    ensures { result ≡ register_of bytes.now }
{
    let mut r = bits::long(&bytes[0..8]) ^ 0xFFFF_FFFF_0000_0000;
    let mut s = bits::long(&bytes[8..16]);
    for k in 2..bytes.len() / 8 {
        let t = long_on(r, 128) ^ bits::long(&bytes[8 * k..8 * k + 8]);
        r = s;
        s = t;
    }
    left_by(r, s)
}

// The register that `message` leaves: zero where the message ends in the CRC of what stands before it.
pub fn register(message: &[u8]) -> u32
    ensures { result ≡ register_of message.now }
{
    let n = message.len();
    if n < 16 {
        return bytes_in(0xFFFF_FFFF, message);
    }
    let longs = n - n % 8;
    let r = longs_in(&message[0..longs]);
    bytes_in(r, &message[longs..])
}

// The CRC register that the bytes leave.
#[unsafe(no_mangle)]
pub extern "C" fn niranbok_crc(bytes: &[u8]) -> u32
    ensures { result ≡ register_of bytes.now }
{
    register(bytes)
}
