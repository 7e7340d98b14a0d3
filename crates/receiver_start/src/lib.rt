// The calls that start a receiver. One answers the state as a value, the other writes it into the caller's bytes.
#![tactic(auto)]

ghost use lib.Dec.{lit<};
ghost use Rattle.std.specs.Prelude.{◌≡◌};
ghost use Rattle.refusals.specs.Refusals.{answer};
ghost use Rattle.receiver.specs.Receiving.{waiting, start_of};
ghost use Rattle.receiver.specs.Bytes.{receiver_bytes};
ghost use Rattle.receiver.specs.Calls.{start_refused, start_state};

use receiver::RECEIVER_BYTES;
use setting::Kind;
use starting::Fresh;

// What a start by value answers.
pub type Started = starting::Started<RECEIVER_BYTES>;

struct Receiving;

impl Fresh<RECEIVER_BYTES> for Receiving {
    ghost fresh = { λ kind pid. receiver_bytes (waiting kind pid) };

    ghost short = { lit< tt };

    // The PID and the kind, then zeros, which say that the receiver waits and that no slot has a number.
    fn write(state: &mut [u8; RECEIVER_BYTES], pid: u16, kind: u8) {
        let [high, low] = pid.to_be_bytes();
        let front = [high, low, kind];
        slices::fill(state, 0);
        slices::copy(state, &front);
    }
}

// Starts a receiver for this header PID and kind. Answers the state as a value.
pub fn start(pid: u16, kind: Kind) -> Started
    ensures refusal_value { answer result.checked ≡ (start_of kind pid).refusal }
    ensures state_value { result.state ≡ receiver_bytes (start_of kind pid).state }
{
    starting::start::<RECEIVER_BYTES, Receiving>(pid, kind)
}

// The same, written into the caller's bytes. A refusal leaves them as they were.
#[unsafe(no_mangle)]
pub extern "C" fn niranbok_receiver_start(state: &mut [u8], pid: u16, kind: u8) -> u8
    ensures value { result ≡ start_refused state.old pid kind }
    ensures state_after { state.new ≡ start_state state.old pid kind }
{
    refusals::answer(starting::write_start::<RECEIVER_BYTES, Receiving>(state, pid, kind))
}
