// The call that begins a frame: it puts null packets into the slots, and the setting into the state.
#![tactic(auto)]

mod checks;
mod slots;

ghost use Rattle.std.specs.Prelude.{◌≡◌, ◌∷◌, ◌++◌, take, replicate};
ghost use Rattle.counters.specs.Counters.{last_slot};
ghost use Rattle.composer.specs.States.{open_at};
ghost use Rattle.refusals.specs.Refusals.{answer};
ghost use Rattle.composer.specs.Calls.{begin_refused, begin_state, begin_memory};

use composer::{COMPOSER_BYTES, FILLED, KIND, OPEN, SETTING};
use refusals::Refusal;
use setting_bytes::SETTING_BYTES;

// Opens a frame in the state, with the setting's bytes and no slot filled.
fn open(state: &mut [u8; COMPOSER_BYTES], setting: &[u8; SETTING_BYTES])
    ensures { state.new ≡ take open_at state.old ++ (1 ∷ (setting.now ++ replicate last_slot 0)) }
{
    state[OPEN] = 1;
    // By `slices::copy`: `copy_from_slice` takes 16 bytes more of stack, and the call's limit does not allow them.
    slices::copy(&mut state[SETTING..FILLED], setting);
    state[FILLED..COMPOSER_BYTES].fill(0);
}

// Opens a frame: puts null packets into its slots and leaves slot 0 as it was. A frame that is still open is abandoned.
pub fn begin(state: &mut [u8], frame: &mut [u8], setting: &[u8]) -> Result<(), Refusal>
    ensures value { answer result ≡ begin_refused state.old setting.now frame.old }
    ensures state_after { state.new ≡ begin_state state.old setting.now frame.old }
    ensures frame_after { frame.new ≡ begin_memory state.old setting.now frame.old }
{
    let state: &mut [u8; COMPOSER_BYTES] = state.as_mut_array().ok_or(Refusal::Length)?;
    let setting: &[u8; SETTING_BYTES] = setting.as_array().ok_or(Refusal::Length)?;
    checks::begin_refusal(state, setting, frame.len())?;
    slices::are_bytes(state);
    slices::are_bytes(setting);
    let size = setting::size_of(setting_bytes::kind_of(state[KIND]));
    slots::clear(frame, size.slots as usize);
    open(state, setting);
    Ok(())
}

// The same for C.
#[unsafe(no_mangle)]
pub extern "C" fn niranbok_composer_begin(state: &mut [u8], frame: &mut [u8], setting: &[u8]) -> u8
    ensures value { result ≡ begin_refused state.old setting.now frame.old }
    ensures state_after { state.new ≡ begin_state state.old setting.now frame.old }
    ensures frame_after { frame.new ≡ begin_memory state.old setting.now frame.old }
{
    refusals::answer(begin(state, frame, setting))
}
