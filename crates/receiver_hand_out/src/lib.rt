// The call that hands out a ready frame's packets with one number, in slot order.
#![tactic(auto)]

mod numbered;

ghost use Rattle.std.specs.Prelude.{◌≡◌};
ghost use Rattle.setting.specs.Refusal.{first_of};
ghost use Rattle.receiver.specs.Bytes.{receiver_of};
ghost use Rattle.receiver.specs.Calls.{lent_refusal, hand_out_refused, hand_out_packets, hand_out_memory};
ghost use Rattle.refusals.specs.Refusals.{answer};
ghost use Rattle.receiver_hand_out.specs.Handing.{handed};
ghost use Rattle.receiver_hand_out.specs.Ready.{ready_checks};

use counters::RelativeNumber;
use receiver::{BEFORE, KIND, PACKED_BYTES, RECEIVER_BYTES, STAGE};
use refusals::Refusal;

// All checks but 15, in the table's order: the lengths, the state, the stream's number, and whether a frame is ready. For 15 the packets
// have to be counted first.
fn ready_refusal(state: &[u8], r: RelativeNumber, store: usize) -> Result<(), Refusal>
    ensures { answer result ≡ lent_refusal state.now (first_of (ready_checks (receiver_of state.now) r.0 store)) }
{
    if state.len() != RECEIVER_BYTES {
        return Err(Refusal::Length);
    }
    let kind = setting_bytes::kind_of(state[KIND]);
    if store != receiver_stage::store_bytes(kind) {
        return Err(Refusal::Length);
    }
    receiver_stage::state_refusal(state)?;
    RelativeNumber::new(r.0)?;
    let size = setting::size_of(kind);
    if size.streams < r.0 {
        return Err(Refusal::OutOfRange);
    }
    if state[STAGE] != 2 {
        return Err(Refusal::NoFrame);
    }
    Ok(())
}

// Copies the ready frame's packets with number r, in slot order, to the front of `out`. Answers how many. A refusal leaves `out` as it was.
pub fn hand_out(
    state: &[u8],
    store: &[u8],
    out: &mut [u8],
    r: RelativeNumber,
) -> Result<usize, Refusal>
    ensures value { answer result ≡ hand_out_refused state.now r.0 store.now out.old }
    ensures packets { (handed result).packets ≡ hand_out_packets state.now r.0 store.now out.old }
    ensures out_after { out.new ≡ hand_out_memory state.now r.0 store.now out.old }
{
    ready_refusal(state, r, store.len())?;
    // So many bytes are an array, which is proved: `unwrap` asks nothing when it runs.
    let numbers: &[u8; PACKED_BYTES] = state[BEFORE..RECEIVER_BYTES].as_array().unwrap();
    numbered::hand_out(out, store, numbers, r)
}

// The same for C.
#[unsafe(no_mangle)]
pub extern "C" fn niranbok_receiver_hand_out(
    state: &[u8],
    store: &[u8],
    out: &mut [u8],
    r: u8,
    packets: &mut usize,
) -> u8
    ensures value { result ≡ hand_out_refused state.now r store.now out.old }
    ensures packets_after { packets.new ≡ hand_out_packets state.now r store.now out.old }
    ensures out_after { out.new ≡ hand_out_memory state.now r store.now out.old }
{
    match hand_out(state, store, out, RelativeNumber(r)) {
        Ok(handed) => {
            *packets = handed;
            0
        }
        Err(refusal) => {
            *packets = 0;
            refusal.number()
        }
    }
}
