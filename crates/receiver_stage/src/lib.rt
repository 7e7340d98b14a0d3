// What every call checks of a receiver's state, how long a store is, and how the stage is read from the state's 58 bytes and written to them.
#![tactic(auto)]

ghost use Rattle.std.specs.Prelude.{◌≡◌, cond, ◌++◌, ◌*◌, eqb, length};
ghost use Rattle.bits.specs.Fields.{run, cut};
ghost use Rattle.slices.specs.Slices.{copied, some_at_least};
ghost use Rattle.refusals.specs.Refusals.{answer};
ghost use Rattle.setting.specs.Refusal.{first_of};
ghost use Rattle.setting.specs.Rules.{number_checks};
ghost use Rattle.setting.specs.Size.{size_of, slots_of};
ghost use Rattle.receiver.specs.Packed.{packed_length, unpacked};
ghost use Rattle.receiver.specs.Store.{store_length};
ghost use Rattle.receiver.specs.Table.{stage_checks};
ghost use Rattle.receiver.specs.Bytes.{receiver_length, stage_bytes, no_stage, stage_of, stage_in, receiver_of};
ghost use Rattle.receiver.specs.Calls.{state_refused};

use counters::{RelativeNumber, SHORT_SLOTS};
use packet::PACKET_BYTES;
use receiver::{
    BEFORE, COUNTER, KIND, NUMBERS, PACKED_BYTES, PID, PID_LOW, RECEIVER_BYTES, STAGE, STORED,
    Stage,
};
use refusals::Refusal;
use setting::{Kind, limits};
use setting_bytes::LAST_KIND;

// Bytes that code no stage are read as this one, which every call refuses with 17. It is no `Option`: the definition of a saved state gives each
// one a stage, whatever its bytes.
fn no_stage() -> Stage
    ensures { result ≡ no_stage }
{
    Stage::Open(255, 0)
}

fn stage_of(tag: u8, from: u8, k: u8) -> Stage
    ensures { result ≡ stage_of tag from k }
{
    match (tag, from, k) {
        (0, 0, 0) => Stage::Waiting,
        (1, from, k) => Stage::Open(from, k),
        (2, from, 0) => Stage::Ready(from),
        _ => no_stage(),
    }
}

// The stage in a state's bytes. If the length is wrong or the kind's byte is no kind, it is the one that is refused.
pub fn stage_in(bytes: &[u8]) -> Stage
    ensures { result ≡ cond (eqb (length bytes.now) receiver_length) (stage_in bytes.now) no_stage }
{
    if bytes.len() != RECEIVER_BYTES {
        return no_stage();
    }
    if LAST_KIND < bytes[KIND] {
        return no_stage();
    }
    stage_of(bytes[STAGE], bytes[COUNTER], bytes[STORED])
}

fn stage_bytes(stage: Stage) -> [u8; 3]
    ensures { result ≡ stage_bytes stage }
{
    match stage {
        Stage::Waiting => [0, 0, 0],
        Stage::Open(from, k) => [1, from, k],
        Stage::Ready(from) => [2, from, 0],
    }
}

// Writes a stage, as much of it as there is room for, and leaves the rest.
pub fn write_stage(bytes: &mut [u8], stage: Stage)
    ensures { bytes.new ≡ copied bytes.old (stage_bytes stage) }
{
    let three = stage_bytes(stage);
    slices::copy(bytes, &three);
}

// 17: a counter that no header has, or more packets stored than there are slots. The stage of three bytes that code none has such a counter.
fn stage_refusal(slots: u8, stage: Stage) -> Result<(), Refusal>
    ensures { answer result ≡ first_of (stage_checks slots stage) }
{
    match stage {
        Stage::Waiting => Ok(()),
        Stage::Open(from, k) if from < limits::COUNTERS && k <= slots => Ok(()),
        Stage::Ready(from) if from < limits::COUNTERS => Ok(()),
        _ => Err(Refusal::OutOfRange),
    }
}

// The bytes of a store: a packet for each slot of the kind.
pub fn store_bytes(kind: Kind) -> usize
    ensures { result ≡ store_length (slots_of kind) }
{
    let size = setting::size_of(kind);
    PACKET_BYTES * (size.slots as usize)
}

// Whether some half of a byte is `limit` or more. The loop does not stop early, so that many bytes are compared at a time.
fn some_half_at_least(bytes: &[u8], limit: u8) -> bool
    ensures { result ≡ some_at_least limit (cut 4 (2 * length bytes.now) (run 8 bytes.now)) }
{
    let mut found = false;
    for byte in bytes {
        found |= (limit <= *byte / 16) | (limit <= *byte % 16);
    }
    found
}

// 17: one list of numbers in a short receiver's state: a slot has a number that a short frame does not have, or there is a number behind its last
// slot. No byte is asked by both tests: the compiler would load such bytes one at a time.
// It is put into its caller, which asks both lists: as calls of their own they took 3 % more instructions for a short frame, and hand out 16 bytes of stack.
#[inline(always)]
fn list_refusal(list: &[u8]) -> Result<(), Refusal>
    requires { length list.now ≡ packed_length }
    ensures { answer result ≡ first_of (number_checks (size_of Kind.Short) (unpacked list.now)) }
{
    if some_half_at_least(&list[0..SHORT_SLOTS / 2], RelativeNumber::LAST_SHORT + 1) {
        return Err(Refusal::OutOfRange);
    }
    if some_half_at_least(&list[SHORT_SLOTS / 2..PACKED_BYTES], 1) {
        return Err(Refusal::OutOfRange);
    }
    Ok(())
}

// 17: the slots' numbers, by the open frame's header and by the header before it. Those of a plain or an extended frame are not looked at,
// since every number of four bits is in range.
fn numbers_refusal(kind: Kind, state: &[u8; RECEIVER_BYTES]) -> Result<(), Refusal>
    ensures { answer result ≡ first_of (number_checks (size_of kind) (receiver_of state.now).numbers ++ number_checks (size_of kind) (receiver_of state.now).before) }
{
    match kind {
        Kind::Plain | Kind::Extended => Ok(()),
        Kind::Short => {
            list_refusal(&state[NUMBERS..BEFORE])?;
            list_refusal(&state[BEFORE..RECEIVER_BYTES])
        }
    }
}

// 1, 2 and 17, which every call checks of a state: its length, its PID, its kind, its stage and its slots' numbers.
pub fn state_refusal(state: &[u8]) -> Result<(), Refusal>
    ensures { answer result ≡ state_refused state.now }
{
    let state: &[u8; RECEIVER_BYTES] = state.as_array().ok_or(Refusal::Length)?;
    if !setting::pid_allowed(bits::word(state[PID], state[PID_LOW])) {
        return Err(Refusal::HeaderPid);
    }
    if LAST_KIND < state[KIND] {
        return Err(Refusal::OutOfRange);
    }
    let kind = setting_bytes::kind_of(state[KIND]);
    let size = setting::size_of(kind);
    let stage = stage_of(state[STAGE], state[COUNTER], state[STORED]);
    stage_refusal(size.slots, stage)?;
    numbers_refusal(kind, state)
}
