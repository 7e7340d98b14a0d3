// Slices of bytes: copied, filled, tested.
#![tactic(auto)]

ghost use Rattle.std.specs.Prelude.{◌≡◌, false, ◌≤◌, ◌<◌, length, replicate};
ghost use Rattle.slices.specs.Slices.{copied, some_at_least, some_differ, unlike};

// How many bytes are copied at a time.
const AT_A_TIME: usize = 16;

// Copies sixteen bytes by way of an array: the compiler makes one load and one store of that, and does not ask whether the slices overlap.
fn copy_sixteen(dst: &mut [u8], src: &[u8])
    requires { (length dst.old ≡ 16) × (length src.now ≡ 16) }
    ensures { dst.new ≡ src.now }
{
    if let Some(&held) = src.first_chunk::<AT_A_TIME>() {
        dst.copy_from_slice(&held);
    }
}

// Copies sixteen bytes or more, sixteen at a time; the last sixteen may have been copied in part.
fn copy_long(dst: &mut [u8], src: &[u8])
    requires { (length dst.old ≡ length src.now) × (16 ≤ length src.now) }
    ensures { dst.new ≡ src.now }
{
    let last = src.len() - AT_A_TIME;
    for k in 0..(src.len() - 1) / AT_A_TIME {
        let at = AT_A_TIME * k;
        copy_sixteen(&mut dst[at..at + AT_A_TIME], &src[at..at + AT_A_TIME]);
    }
    copy_sixteen(
        &mut dst[last..last + AT_A_TIME],
        &src[last..last + AT_A_TIME],
    );
}

// Copies src over the front of dst, as many elements as there is room for. The library's copy of a long part would take up to two thirds longer.
pub fn copy(dst: &mut [u8], src: &[u8])
    ensures { dst.new ≡ copied dst.old src.now }
{
    let n = src.len().min(dst.len());
    if n < AT_A_TIME {
        dst[..n].copy_from_slice(&src[..n]);
        return;
    }
    copy_long(&mut dst[..n], &src[..n]);
}

// Sets each element of dst to v: the library's method, with a clause in the definitions' words.
pub fn fill(dst: &mut [u8], v: u8)
    ensures { dst.new ≡ replicate (length dst.old) v }
{
    dst.fill(v);
}

// Whether some element of xs is `limit` or more. Looks for the largest and does not stop early, so that many elements are
// compared at a time. It keeps the largest by an `if`: with a flag for each element header write took a tenth longer.
pub fn some_at_least(xs: &[u8], limit: u8) -> bool
    ensures { result ≡ some_at_least limit xs.now }
{
    if limit == 0 {
        return 0 < xs.len();
    }
    let mut most = 0;
    for &x in xs {
        if most < x {
            most = x;
        }
    }
    limit <= most
}

// Whether some element of xs is not v. Does not stop early, so that many elements are compared at a time.
pub fn some_other(xs: &[u8], v: u8) -> bool
    ensures { result ≡ some_differ xs.now (replicate (length xs.now) v) }
{
    let mut other = false;
    for &x in xs {
        other |= x != v;
    }
    other
}

// Whether two slices differ, in their lengths or somewhere.
pub fn differ(xs: &[u8], ys: &[u8]) -> bool
    ensures { result ≡ unlike xs.now ys.now }
{
    xs != ys
}

// A byte is below 256.
fn is_byte(x: u8)
    ensures { x < 256 }
{}

// Does nothing when it runs: the compiler leaves it out. It states for a caller's proof that each element of a slice is a byte.
pub fn are_bytes(xs: &[u8])
    ensures { some_at_least 256 xs.now ≡ false }
{
    for at in 0..xs.len() {
        is_byte(xs[at]);
    }
}
