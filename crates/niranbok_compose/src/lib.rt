// The calls of include/niranbok.h that compose frames, as C has them: each calls the library's function of the same name, and has its
// clauses, word for word.
#![tactic(auto)]

ghost use Rattle.std.specs.Prelude.{◌≡◌};
ghost use Rattle.composer.specs.Calls.{start_refused, start_state, begin_refused, begin_state, begin_memory, put_refused, put_placed, put_state, put_memory, close_refused, close_state, close_memory};

// Writes the state of a composer that has no frame yet.
#[unsafe(no_mangle)]
pub extern "C" fn niranbok_composer_start(state: &mut [u8], pid: u16, kind: u8) -> u8
    ensures value { result ≡ start_refused state.old pid kind }
    ensures state_after { state.new ≡ start_state state.old pid kind }
{
    composer_start::niranbok_composer_start(state, pid, kind)
}

// Opens a frame: puts null packets into its slots and leaves slot 0 as it was. A frame that is still open is abandoned.
#[unsafe(no_mangle)]
pub extern "C" fn niranbok_composer_begin(state: &mut [u8], frame: &mut [u8], setting: &[u8]) -> u8
    ensures value { result ≡ begin_refused state.old setting.now frame.old }
    ensures state_after { state.new ≡ begin_state state.old setting.now frame.old }
    ensures frame_after { frame.new ≡ begin_memory state.old setting.now frame.old }
{
    composer_begin::niranbok_composer_begin(state, frame, setting)
}

// Puts packets of a stream into the open frame's next free slots.
#[unsafe(no_mangle)]
pub extern "C" fn niranbok_composer_put(
    state: &mut [u8],
    frame: &mut [u8],
    stream: &[u8],
    r: u8,
    placed: &mut usize,
) -> u8
    ensures value { result ≡ put_refused state.old r stream.now frame.old }
    ensures placed_after { placed.new ≡ put_placed state.old r stream.now frame.old }
    ensures state_after { state.new ≡ put_state state.old r stream.now frame.old }
    ensures frame_after { frame.new ≡ put_memory state.old r stream.now frame.old }
{
    composer_put::niranbok_composer_put(state, frame, stream, r, placed)
}

// Closes the open frame: writes its header into slot 0 and nothing else. Filled slots carry their number, empty ones 0.
#[unsafe(no_mangle)]
pub extern "C" fn niranbok_composer_close(state: &mut [u8], frame: &mut [u8]) -> u8
    ensures value { result ≡ close_refused state.old frame.old }
    ensures state_after { state.new ≡ close_state state.old frame.old }
    ensures frame_after { frame.new ≡ close_memory state.old frame.old }
{
    composer_close::niranbok_composer_close(state, frame)
}
