// The calls that put a stream's packets into the slots of an open frame: one hands back the rest, one is for C.
// In the state only the filled marks change.
#![tactic(auto)]

mod checks;
mod slots;

ghost use Rattle.std.specs.Prelude.{◌≡◌};
ghost use Rattle.packet.specs.Packets.{rest_of};
ghost use Rattle.refusals.specs.Refusals.{answer};
ghost use Rattle.composer.specs.Calls.{put_refused, put_placed, put_state, put_memory};
ghost use Rattle.composer_put.specs.Placing.{placed_in, rest_in};

use composer::{COMPOSER_BYTES, FILLED, PLAN};
use counters::{RelativeNumber, SLOTS};
use packet::PACKET_BYTES;
use refusals::Refusal;

// What a put did: how many packets it placed, and the rest of the stream.
#[derive(Clone, Copy)]
pub struct Placed<'a> {
    pub packets: usize,
    pub rest: &'a [u8],
}

// Fills the still empty slots planned for stream r, in rising order, from the front of the stream, until slots or packets run out.
// Hands back the rest of the stream. A refusal places nothing, so the rest is then the whole stream.
pub fn put<'a>(
    state: &mut [u8],
    frame: &mut [u8],
    stream: &'a [u8],
    r: RelativeNumber,
) -> Result<Placed<'a>, Refusal>
    ensures value { answer result ≡ put_refused state.old r.0 stream.now frame.old }
    ensures placed { placed_in result ≡ put_placed state.old r.0 stream.now frame.old }
    ensures rest { rest_in stream.now result ≡ rest_of stream.now (put_placed state.old r.0 stream.now frame.old) }
    ensures state_after { state.new ≡ put_state state.old r.0 stream.now frame.old }
    ensures frame_after { frame.new ≡ put_memory state.old r.0 stream.now frame.old }
{
    let bytes: &[u8; COMPOSER_BYTES] = state.as_array().ok_or(Refusal::Length)?;
    checks::frame_refusal(bytes, stream, r, frame.len())?;
    // Behind the checks, so that the set is not held while they run: that takes less stack.
    let empty = slots::empty_slots(
        &bytes[PLAN..PLAN + SLOTS],
        &bytes[FILLED..COMPOSER_BYTES],
        r,
    );
    checks::stream_refusal(bytes, stream, r, empty)?;
    slices::are_bytes(bytes);
    let rest = slots::place(frame, stream, &mut state[FILLED..COMPOSER_BYTES], empty);
    Ok(Placed {
        packets: (stream.len() - rest.len()) / PACKET_BYTES,
        rest,
    })
}

// The same for C, which has no slice to be handed back: `niranbok_composer_rest` answers how many bytes are left.
#[unsafe(no_mangle)]
pub extern "C" fn niranbok_composer_put(
    state: &mut [u8],
    frame: &mut [u8],
    stream: &[u8],
    r: u8,
    placed: &mut usize,
) -> u8
    ensures value { result ≡ put_refused state.old r stream.now frame.old }
    ensures placed_after { placed.new ≡ put_placed state.old r stream.now frame.old }
    ensures state_after { state.new ≡ put_state state.old r stream.now frame.old }
    ensures frame_after { frame.new ≡ put_memory state.old r stream.now frame.old }
{
    match put(state, frame, stream, RelativeNumber(r)) {
        Ok(done) => {
            *placed = done.packets;
            0
        }
        Err(refusal) => {
            *placed = 0;
            refusal.number()
        }
    }
}
