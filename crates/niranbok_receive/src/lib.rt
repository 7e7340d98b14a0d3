// The calls of include/niranbok.h that receive frames, as C has them: each calls the library's function of the same name, and has its
// clauses, word for word.
#![tactic(auto)]

ghost use Rattle.std.specs.Prelude.{◌≡◌};
ghost use Rattle.receiver.specs.Calls.{start_refused, start_state, receive_refused, receive_event, receive_remainder, receive_state, receive_memory, hand_out_refused, hand_out_packets, hand_out_memory};

// Writes the state of a receiver that waits for a header.
#[unsafe(no_mangle)]
pub extern "C" fn niranbok_receiver_start(state: &mut [u8], pid: u16, kind: u8) -> u8
    ensures value { result ≡ start_refused state.old pid kind }
    ensures state_after { state.new ≡ start_state state.old pid kind }
{
    receiver_start::niranbok_receiver_start(state, pid, kind)
}

// Takes one packet.
#[unsafe(no_mangle)]
pub extern "C" fn niranbok_receiver_receive(
    state: &mut [u8],
    packet: &[u8],
    store: &mut [u8],
    event: &mut u8,
    remainder: &mut u32,
) -> u8
    ensures value { result ≡ receive_refused state.old packet.now store.old }
    ensures event_after { event.new ≡ receive_event state.old packet.now store.old }
    ensures remainder_after { remainder.new ≡ receive_remainder state.old packet.now store.old }
    ensures state_after { state.new ≡ receive_state state.old packet.now store.old }
    ensures store_after { store.new ≡ receive_memory state.old packet.now store.old }
{
    receiver_receive::niranbok_receiver_receive(state, packet, store, event, remainder)
}

// Copies the ready frame's packets with number r to the front of `out`.
#[unsafe(no_mangle)]
pub extern "C" fn niranbok_receiver_hand_out(
    state: &[u8],
    store: &[u8],
    out: &mut [u8],
    r: u8,
    packets: &mut usize,
) -> u8
    ensures value { result ≡ hand_out_refused state.now r store.now out.old }
    ensures packets_after { packets.new ≡ hand_out_packets state.now r store.now out.old }
    ensures out_after { out.new ≡ hand_out_memory state.now r store.now out.old }
{
    receiver_hand_out::niranbok_receiver_hand_out(state, store, out, r, packets)
}
