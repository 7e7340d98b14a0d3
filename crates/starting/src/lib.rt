// The calls that start a run of frames or a receiver, one code for both: only their fresh states differ.
#![tactic(auto)]

ghost use Rattle.std.specs.Prelude.{ℕ, ◌^◌, List, ◌≡◌, ◌<◌};
ghost use Rattle.refusals.specs.Refusals.{answer};
ghost use Rattle.setting.specs.declared.Kind.{Kind};
ghost use Rattle.setting_bytes.specs.Kinds.{kinds, kind_of};
ghost use Rattle.starting.specs.Starts.{value_refused, value_state, lent_refused, lent_state};

use refusals::Refusal;
use setting::Kind;
use setting_bytes::LAST_KIND;

// What is started: the bytes of its fresh state, by kind and PID, and how they are written.
pub trait Fresh<const N: usize> {
    ghost fresh: { Kind → ℕ → List ℕ };

    fn write(state: &mut [u8; N], pid: u16, kind: u8)
        requires { kind < kinds }
        ensures { state.new ≡ fresh (kind_of kind) pid };

    // No state is longer than an array may be.
    ghost short: { N < 2 ^ 63 };
}

// What a start by value answers. A refused start has a state too, the fresh plain one of PID 0, so this is no Result: that state is
// promised, and the wrong programs `refused_start_that_keeps_the_pid` break it.
#[derive(Clone, Copy)]
pub struct Started<const N: usize> {
    pub checked: Result<(), Refusal>,
    pub state: [u8; N],
}

// Starts with this header PID and kind. Answers the state as a value.
pub fn start<const N: usize, F: Fresh<N>>(pid: u16, kind: Kind) -> Started<N>
    ensures refusal_value { answer result.checked ≡ value_refused pid }
    ensures state_value { result.state ≡ value_state F.fresh kind pid }
{
    let mut state = [0u8; N];
    if !setting::pid_allowed(pid) {
        F::write(&mut state, 0, 0);
        return Started {
            checked: Err(Refusal::HeaderPid),
            state,
        };
    }
    F::write(&mut state, pid, setting_bytes::kind_number(kind));
    Started {
        checked: Ok(()),
        state,
    }
}

// The same, written into the caller's bytes. A refusal leaves them as they were.
pub fn write_start<const N: usize, F: Fresh<N>>(
    state: &mut [u8],
    pid: u16,
    kind: u8,
) -> Result<(), Refusal>
    ensures value { answer result ≡ lent_refused N state.old pid kind }
    ensures state_after { state.new ≡ lent_state N F.fresh state.old pid kind }
{
    let state: &mut [u8; N] = state.as_mut_array().ok_or(Refusal::Length)?;
    if !setting::pid_allowed(pid) {
        return Err(Refusal::HeaderPid);
    }
    if LAST_KIND < kind {
        return Err(Refusal::OutOfRange);
    }
    F::write(state, pid, kind);
    Ok(())
}
