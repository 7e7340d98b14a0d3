// The call that closes a frame: it writes the header, which says which slots were filled.
#![tactic(auto)]

mod header;

ghost use Rattle.std.specs.Prelude.{◌≡◌, ◌++◌, take, replicate};
ghost use Rattle.slices.specs.Slices.{over};
ghost use Rattle.setting_bytes.specs.Settings.{part, numbers_at};
ghost use Rattle.refusals.specs.Refusals.{answer};
ghost use Rattle.composer.specs.Composing.{close_refusal};
ghost use Rattle.composer.specs.States.{counter_at, setting_at, open_length, composer_of};
ghost use Rattle.composer.specs.Calls.{close_refused, close_state, close_memory};

use composer::{COMPOSER_BYTES, COUNTER, FILLED, KIND, OPEN, PID, PID_LOW, SETTING};
use packet::PACKET_BYTES;
use refusals::Refusal;
use setting_bytes::NUMBERS;

fn close_refusal(state: &[u8; COMPOSER_BYTES], lent: usize) -> Result<(), Refusal>
    ensures { answer result ≡ close_refusal (composer_of state.now) lent }
{
    if lent != packet::frame_bytes(setting_bytes::kind_of(state[KIND])) {
        return Err(Refusal::Length);
    }
    composer_checks::state_refusal(state)?;
    composer_checks::open_refusal(state)
}

// Copies what the header said of counter, version and announcement to where the last header's stand.
fn keep(state: &mut [u8; COMPOSER_BYTES])
    ensures { state.new ≡ over counter_at (part setting_at numbers_at state.old) state.old }
{
    state.copy_within(SETTING..SETTING + NUMBERS, COUNTER);
}

// Ends the open frame in the state, once its setting is what the header says: that is now what the last header said, and zeros follow it.
fn end_frame(state: &mut [u8; COMPOSER_BYTES])
    ensures { state.new ≡ take counter_at state.old ++ (part setting_at numbers_at state.old ++ replicate open_length 0) }
{
    keep(state);
    state[OPEN..COMPOSER_BYTES].fill(0);
}

// Closes the open frame: writes its header into slot 0 and nothing else. Filled slots carry their number, empty ones 0.
pub fn close(state: &mut [u8], frame: &mut [u8]) -> Result<(), Refusal>
    ensures value { answer result ≡ close_refused state.old frame.old }
    ensures state_after { state.new ≡ close_state state.old frame.old }
    ensures frame_after { frame.new ≡ close_memory state.old frame.old }
{
    let state: &mut [u8; COMPOSER_BYTES] = state.as_mut_array().ok_or(Refusal::Length)?;
    close_refusal(state, frame.len())?;
    slices::are_bytes(state);
    let pid = bits::word(state[PID], state[PID_LOW]);
    let kind = setting_bytes::kind_of(state[KIND]);
    let counter = (state[COUNTER] + 1) % 16;
    let version = header::next_version(state);
    // The checks have made sure that this setting obeys the rules. The parts that go on from here are cut from the slice: the prover does not
    // follow a part with a start of an array that was lent.
    header::say(&mut state.as_mut_slice()[SETTING..], counter, version);
    header_write::write_header(
        &mut frame[0..PACKET_BYTES],
        pid,
        kind,
        &state.as_slice()[SETTING..FILLED],
    );
    end_frame(state);
    Ok(())
}

// The same for C.
#[unsafe(no_mangle)]
pub extern "C" fn niranbok_composer_close(state: &mut [u8], frame: &mut [u8]) -> u8
    ensures value { result ≡ close_refused state.old frame.old }
    ensures state_after { state.new ≡ close_state state.old frame.old }
    ensures frame_after { frame.new ≡ close_memory state.old frame.old }
{
    refusals::answer(close(state, frame))
}
