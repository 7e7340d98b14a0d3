// The receiver's calls, as the programs make them: with a state, a packet and room that no call refuses.
ghost use Rattle.std.specs.Prelude.{◌≡◌, ◌≤◌, replicate};
ghost use Rattle.counters.specs.Counters.{last_slot};
ghost use Rattle.setting_bytes.specs.Kinds.{kind_number};
ghost use Rattle.receiver.specs.Bytes.{receiver_length};
ghost use Rattle.receiver.specs.Calls.{start_state};

use counters::{RelativeNumber, SLOTS};
use receiver::{Event, RECEIVER_BYTES};
use setting::Kind;

// The state of a receiver that waits for headers of this PID and kind. By the call for C, since the theorems on receivers begin with what it
// leaves.
pub(crate) fn start(pid: u16, kind: Kind) -> [u8; RECEIVER_BYTES]
    ensures { result ≡ start_state (replicate receiver_length 0) pid (kind_number kind) }
{
    let mut state = [0u8; RECEIVER_BYTES];
    receiver_start::niranbok_receiver_start(&mut state, pid, setting_bytes::kind_number(kind));
    state
}

// Receives a packet. Answers what it did.
pub(crate) fn receive(state: &mut [u8], packet: &[u8], store: &mut [u8]) -> Event {
    receiver_receive::receive(state, packet, store).unwrap_or(Event::Nothing)
}

// Hands out the packets of stream r of the frame that just became ready. Answers how many: no more than a frame has slots.
pub(crate) fn hand_out(state: &[u8], store: &[u8], out: &mut [u8], r: RelativeNumber) -> usize
    ensures { result ≤ last_slot }
{
    let packets = receiver_hand_out::hand_out(state, store, out, r);
    packets.unwrap_or(0).min(SLOTS)
}

// Whether the packet opened a frame, and so is a good header.
pub(crate) fn opens(event: Event) -> bool {
    match event {
        Event::Opened | Event::Ready | Event::Short | Event::Jump => true,
        Event::Nothing | Event::Stored | Event::Long | Event::Broken(_) => false,
    }
}
