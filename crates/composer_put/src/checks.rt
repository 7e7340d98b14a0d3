// What put checks of its state and its other buffers, in the order of the table of refusals.
ghost use Rattle.std.specs.Prelude.{◌≡◌, cond, eqb};
ghost use Rattle.refusals.specs.Refusals.{answer};
ghost use Rattle.setting.specs.Refusal.{first_of};
ghost use Rattle.composer.specs.Slots.{empty_for};
ghost use Rattle.composer.specs.Composing.{stream_checks, put_refusal};
ghost use Rattle.setting_bytes.specs.Settings.{part};
ghost use Rattle.counters.specs.Counters.{last_slot};
ghost use Rattle.composer.specs.States.{plan_at, filled_at, composer_of, marks_of};
ghost use Rattle.slot_bits.specs.Bits.{slots_as_bits};

use crate::slots;
use composer::{AVAILABILITY, AVAILABILITY_LOW, COMPOSER_BYTES, KIND, PID, PID_LOW};
use counters::RelativeNumber;
use packet::PACKET_BYTES;
use refusals::Refusal;

// 13 and 12: the checks of the stream, and of the packets that would be placed.
pub(crate) fn stream_refusal(
    state: &[u8; COMPOSER_BYTES],
    stream: &[u8],
    r: RelativeNumber,
    empty: u64,
) -> Result<(), Refusal>
    requires { empty ≡ slots_as_bits (empty_for r.0 (part plan_at last_slot state.now) (marks_of (part filled_at last_slot state.now))) }
    ensures { answer result ≡ first_of (stream_checks (composer_of state.now) r.0 stream.now) }
{
    if !r.is_available(bits::word(state[AVAILABILITY], state[AVAILABILITY_LOW])) {
        return Err(Refusal::UnavailableStream);
    }
    let pid = bits::word(state[PID], state[PID_LOW]);
    let packets = slots::packets_for(empty, stream.len());
    if packet::has_unfit(&stream[0..PACKET_BYTES * packets], pid) {
        return Err(Refusal::UnfitPacket);
    }
    Ok(())
}

// What is asked before the stream itself: 1, 2, 17, 16, and the checks of the open frame. Where this lets pass, the put's refusal is what
// `stream_refusal` answers.
pub(crate) fn frame_refusal(
    state: &[u8; COMPOSER_BYTES],
    stream: &[u8],
    r: RelativeNumber,
    lent: usize,
) -> Result<(), Refusal>
    ensures { put_refusal (composer_of state.now) r.0 stream.now lent ≡ cond (eqb (answer result) 0) (first_of (stream_checks (composer_of state.now) r.0 stream.now)) (answer result) }
{
    let kind = setting_bytes::kind_of(state[KIND]);
    if lent != packet::frame_bytes(kind) {
        return Err(Refusal::Length);
    }
    if stream.len() % PACKET_BYTES != 0 {
        return Err(Refusal::Length);
    }
    composer_checks::state_refusal(state)?;
    let number = RelativeNumber::new(r.0)?;
    let size = setting::size_of(kind);
    if size.streams < number.0 {
        return Err(Refusal::OutOfRange);
    }
    composer_checks::open_refusal(state)
}
