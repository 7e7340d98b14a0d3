// The rule of 10: two available streams with equal identifiers. They are read where they stand, in a setting or in a header, so that none
// has to be copied.
#![tactic(auto)]

ghost use Rattle.std.specs.Prelude.{◌≡◌, ℕ, ◌≤◌, ◌<◌, false, ◌&&◌, List, length, get_or};
ghost use Rattle.slices.specs.Slices.{any_below};
ghost use Rattle.counters.specs.Counters.{last_stream};
ghost use Rattle.setting.specs.Rules.{same_pair, pair_twice};
ghost use Rattle.setting_pairs.specs.Identifiers.{ids_apart, ids_length, holds_ids};

use counters::{RelativeNumber, STREAMS};

// The identifiers of the fifteen streams, where they stand: each is two bytes, and `step` bytes behind the one before it.
#[derive(Clone, Copy)]
struct Identifiers<'a> {
    bytes: &'a [u8],
    step: usize,
    ghost all_inside: { ids_length step ≤ length bytes.now },
}

impl Identifiers<'_> {
    // The identifier of stream k + 1.
    fn id(&self, k: usize) -> u16
        requires { k < last_stream }
        ensures { result ≡ get_or (ids_apart self.now.step last_stream self.now.bytes.now) k 0 }
    {
        let at = self.step * k;
        bits::word(self.bytes[at], self.bytes[at + 1])
    }

    // Whether two available streams have the same low six bits in their identifiers. `met` has a bit for each of the 64 values met so far. If the
    // answer is no, no two pairs are equal, and nothing more has to be compared.
    fn some_alike(&self, availability: u16) -> bool
        ensures { (os : List ℕ) → result ≡ false → pair_twice availability (ids_apart self.now.step last_stream self.now.bytes.now) os ≡ false }
    {
        let mut met = 0u64;
        let mut alike = false;
        for j in 0..STREAMS {
            if RelativeNumber((j + 1) as u8).is_available(availability) {
                let k = u32::from(self.id(j) % 64);
                alike |= (met >> k) % 2 == 1;
                met |= 1u64 << k;
            }
        }
        alike
    }
}

// What the rule compares: of each stream, whether it is available, its ts_id and its original_network_id. Its methods take it by value: by a
// reference LLVM would ask in each turn of the inner loop whether stream j + 1 is available, and the check would take 16 bytes more of stack.
#[derive(Clone, Copy)]
struct Streams<'a, 'b> {
    availability: u16,
    ts: Identifiers<'a>,
    os: Identifiers<'b>,
}

impl Streams<'_, '_> {
    // Whether streams i + 1 and j + 1 have equal identifier pairs and are both available.
    fn is_same(self, i: usize, j: usize) -> bool
        requires { (i < last_stream) × (j < last_stream) }
        ensures { let s = self.entry in result ≡ same_pair s.availability (ids_apart s.ts.step last_stream s.ts.bytes.now) (ids_apart s.os.step last_stream s.os.bytes.now) i j }
    {
        if self.ts.id(i) != self.ts.id(j) {
            return false;
        }
        if self.os.id(i) != self.os.id(j) {
            return false;
        }
        if !RelativeNumber((i + 1) as u8).is_available(self.availability) {
            return false;
        }
        RelativeNumber((j + 1) as u8).is_available(self.availability)
    }

    // Whether a stream before stream j + 1 makes such a pair with it. Here and below loops stand in place of `any`: with its closures the check took
    // 32 bytes more of stack, and composer_begin does not have them.
    fn has_before(self, j: usize) -> bool
        requires { j < last_stream }
        ensures { let s = self.entry in result ≡ any_below j (λ i. same_pair s.availability (ids_apart s.ts.step last_stream s.ts.bytes.now) (ids_apart s.os.step last_stream s.os.bytes.now) i j) }
    {
        for i in 0..j {
            if self.is_same(i, j) {
                return true;
            }
        }
        false
    }

    // Whether some stream makes such a pair with one before it.
    fn has_some(self) -> bool
        ensures { let s = self.entry in result ≡ pair_twice s.availability (ids_apart s.ts.step last_stream s.ts.bytes.now) (ids_apart s.os.step last_stream s.os.bytes.now) }
    {
        for j in 0..STREAMS {
            if self.has_before(j) {
                return true;
            }
        }
        false
    }
}

// Whether two available streams have equal identifier pairs. Each identifier is two bytes, and `step` bytes behind the one before it. In bytes
// that are too few there are no pairs. Pairs are compared only where two ts_ids could be equal.
pub fn has_pair_twice(availability: u16, ts: &[u8], os: &[u8], step: u8) -> bool
    ensures { result ≡ holds_ids step (length ts.now) && (holds_ids step (length os.now) && pair_twice availability (ids_apart step last_stream ts.now) (ids_apart step last_stream os.now)) }
{
    let step = usize::from(step);
    let needed = step * (STREAMS - 1) + 2;
    if ts.len() < needed {
        return false;
    }
    if os.len() < needed {
        return false;
    }
    let ts = Identifiers { bytes: ts, step };
    if !ts.some_alike(availability) {
        return false;
    }
    let os = Identifiers { bytes: os, step };
    let streams = Streams {
        availability,
        ts,
        os,
    };
    streams.has_some()
}
