// The calls that start a run of frames. One answers the state as a value, the other writes it into the caller's bytes.
#![tactic(auto)]

ghost use lib.Dec.{lit<};
ghost use Rattle.std.specs.Prelude.{◌≡◌};
ghost use Rattle.refusals.specs.Refusals.{answer};
ghost use Rattle.composer.specs.Composing.{fresh, start_of};
ghost use Rattle.composer.specs.States.{composer_bytes};
ghost use Rattle.composer.specs.Calls.{start_refused, start_state};

use composer::{COMPOSER_BYTES, COUNTER, KIND, PID, PID_LOW, VERSION};
use setting::Kind;
use starting::Fresh;

// What a start by value answers.
pub type Started = starting::Started<COMPOSER_BYTES>;

struct Run;

impl Fresh<COMPOSER_BYTES> for Run {
    ghost fresh = { λ kind pid. composer_bytes (fresh kind pid) };

    ghost short = { lit< tt };

    // The counter and the version are the ones before those of the first header.
    fn write(state: &mut [u8; COMPOSER_BYTES], pid: u16, kind: u8) {
        slices::fill(state, 0);
        let [high, low] = pid.to_be_bytes();
        state[PID] = high;
        state[PID_LOW] = low;
        state[KIND] = kind;
        state[COUNTER] = 15;
        state[VERSION] = 7;
    }
}

// Starts a run with this header PID and kind. Answers the state as a value.
pub fn start(pid: u16, kind: Kind) -> Started
    ensures refusal_value { answer result.checked ≡ (start_of kind pid).refusal }
    ensures state_value { result.state ≡ composer_bytes (start_of kind pid).state }
{
    starting::start::<COMPOSER_BYTES, Run>(pid, kind)
}

// The same, written into the caller's bytes. A refusal leaves them as they were.
#[unsafe(no_mangle)]
pub extern "C" fn niranbok_composer_start(state: &mut [u8], pid: u16, kind: u8) -> u8
    ensures value { result ≡ start_refused state.old pid kind }
    ensures state_after { state.new ≡ start_state state.old pid kind }
{
    refusals::answer(starting::write_start::<COMPOSER_BYTES, Run>(state, pid, kind))
}
