// The call that takes a packet. A frame is ready when the header behind it has vouched for it. What a packet does not change of the state
// stays where it is.
#![tactic(auto)]

ghost use Rattle.std.specs.Prelude.{◌≡◌, true, false, ◌++◌, ◌+◌, ◌*◌, ◌^◌, ◌<◌, ◌≤◌, length, get_or, set, take};
ghost use Rattle.slices.specs.Slices.{over, some_at_least};
ghost use Rattle.counters.specs.Counters.{last_slot};
ghost use Rattle.setting.specs.Size.{slots_of};
ghost use Rattle.packet.specs.Packets.{packet_length, unfit};
ghost use Rattle.header_layout.specs.Header.{reading};
ghost use Rattle.receiver.specs.Packed.{packed_length, packed};
ghost use Rattle.receiver.specs.Store.{store_length};
ghost use Rattle.receiver.specs.Receiving.{receive_refusal, receive_of, receive_store};
ghost use Rattle.receiver.specs.Bytes.{stage_at, stored_at, receiver_length, stage_bytes, receiver_of, receiver_bytes, told};
ghost use Rattle.refusals.specs.Refusals.{answer};
ghost use Rattle.receiver_receive.specs.Usual.{Usual};
ghost use Rattle.receiver_receive.specs.Receive.{told_in};
ghost use Rattle.receiver.specs.Calls.{lent_refusal, receive_refused, receive_event, receive_remainder, receive_state, receive_memory};

use counters::{SLOTS, Slot};
use packet::PACKET_BYTES;
use receiver::{
    COUNTER, Event, KIND, NUMBERS, PACKED_BYTES, PID, PID_LOW, RECEIVER_BYTES, Row, STAGE,
    STORE_BYTES, STORED,
};
use refusals::Refusal;
use setting::{Kind, limits};
use setting_bytes::LAST_KIND;

// 1, 2 and 17: the lengths of what is lent, then what the state is refused for.
fn receive_refusal(state: &[u8; RECEIVER_BYTES], packet: usize, store: usize) -> Result<(), Refusal>
    ensures { answer result ≡ lent_refusal state.now (receive_refusal (receiver_of state.now) packet store) }
{
    if packet != PACKET_BYTES {
        return Err(Refusal::Length);
    }
    if store != receiver_stage::store_bytes(setting_bytes::kind_of(state[KIND])) {
        return Err(Refusal::Length);
    }
    receiver_stage::state_refusal(state)
}

// Puts the packet into the next slot of the open frame, and counts it. From then on the frame before it is no longer ready.
fn store_next(state: &mut [u8], packet: &[u8], store: &mut [u8])
    requires state_len { (length state.old ≡ receiver_length) × (get_or state.old stored_at 0 < last_slot) }
    requires packet_len { (length packet.now ≡ packet_length) × (packet_length * (get_or state.old stored_at 0 + 1) ≤ length store.old) }
    ensures state_after { state.new ≡ set (set state.old stage_at 1) stored_at (get_or state.old stored_at 0 + 1) }
    ensures store_after { store.new ≡ over (packet_length * get_or state.old stored_at 0) packet.now store.old }
{
    let k = state[STORED];
    let at = PACKET_BYTES * (k as usize);
    slices::copy(&mut store[at..at + PACKET_BYTES], packet);
    state[STAGE] = 1;
    state[STORED] = k + 1;
}

// Whether a packet is the usual one: nothing is refused, a frame of 52 slots is open and has room, and the packet may stand in a slot. This is asked
// first, since most packets are so, and the compiler makes far fewer steps of it than of the checks for every kind and stage. It is asked of the slice
// as it is lent: with the array made first, receiving a frame took 5 % longer.
fn is_usual(state: &[u8], packet: &[u8], store: usize) -> bool
    ensures { result ≡ true → Usual state.now packet.now store }
{
    if packet.len() != PACKET_BYTES {
        return false;
    }
    if state.len() != RECEIVER_BYTES {
        return false;
    }
    if store != STORE_BYTES {
        return false;
    }
    let pid = bits::word(state[PID], state[PID_LOW]);
    if !setting::pid_allowed(pid) {
        return false;
    }
    // The last kind is the short one.
    if LAST_KIND <= state[KIND] {
        return false;
    }
    if state[STAGE] != 1 {
        return false;
    }
    if limits::COUNTERS <= state[COUNTER] {
        return false;
    }
    if Slot::LAST <= state[STORED] {
        return false;
    }
    packet::place_refusal(packet, pid).is_ok()
}

// Takes a packet that may stand in a slot: stores it if a frame is open and has room. Answers what it did.
fn take_packet(state: &mut [u8; RECEIVER_BYTES], packet: &[u8], store: &mut [u8]) -> Event
    requires bytes { some_at_least (2 ^ 8) state.old ≡ false }
    requires packet_value { (unfit (receiver_of state.old).pid packet.now ≡ false) × (receive_refusal (receiver_of state.old) (length packet.now) (length store.old) ≡ 0) }
    ensures value { told result ≡ told (receive_of (receiver_of state.old) packet.now (length store.old)).event }
    ensures state_after { state.new ≡ receiver_bytes (receive_of (receiver_of state.old) packet.now (length store.old)).state }
    ensures store_after { store.new ≡ receive_store (receiver_of state.old) packet.now store.old }
{
    if state[STAGE] == 0 {
        return Event::Nothing;
    }
    let size = setting::size_of(setting_bytes::kind_of(state[KIND]));
    if size.slots <= state[STORED] {
        slices::fill(&mut state[STAGE..NUMBERS], 0);
        return Event::Long;
    }
    store_next(state, packet, store);
    Event::Stored
}

// Writes the slots' numbers after a good header: first its own, then those of the frame that was open until now. `are_bytes` tells the proof
// that its own are bytes, so that they can be unpacked and packed again.
fn renew(numbers: &mut [u8], own: &[u8])
    requires { (length numbers.old ≡ packed_length + packed_length) × (length own.now ≡ packed_length) }
    ensures numbers_after { numbers.new ≡ own.now ++ take packed_length numbers.old }
    ensures own_value { some_at_least (2 ^ 8) own.now ≡ false }
{
    slices::are_bytes(own);
    let (current, before) = numbers.split_at_mut(PACKED_BYTES);
    // By `slices::copy`: with `copy_from_slice` a frame is received 3 % slower.
    slices::copy(before, current);
    slices::copy(current, own);
}

// Writes the slots' numbers after a good header of this kind. A plain or an extended header has them in the state's form; those of a short one
// are packed.
fn renumber(numbers: &mut [u8], packet: &[u8], kind: Kind)
    requires { (length numbers.old ≡ packed_length + packed_length) × (length packet.now ≡ packet_length) }
    ensures { numbers.new ≡ packed (reading kind packet.now).relative_ts_number ++ take packed_length numbers.old }
{
    match kind {
        Kind::Plain | Kind::Extended => {
            renew(
                numbers,
                &packet[header_layout::NUMBERS..header_layout::PRIVATE],
            );
        }
        Kind::Short => {
            let mut said = [0u8; SLOTS];
            header_check::read_numbers(&mut said, packet, Kind::Short);
            let mut own = [0u8; PACKED_BYTES];
            bits::pack_halves(&mut own, &said);
            renew(numbers, &own);
        }
    }
}

// Writes the stage that a row of the table gives. Answers what happened.
fn move_on(state: &mut [u8; RECEIVER_BYTES], row: Row) -> Event
    ensures value { result ≡ row.event }
    ensures state_after { state.new ≡ over stage_at (stage_bytes row.stage) state.old }
{
    receiver_stage::write_stage(&mut state[STAGE..NUMBERS], row.stage);
    row.event
}

// Takes a packet that may not stand in a slot: a good header, which opens a frame, or a broken packet. Answers what it did.
fn take_header(state: &mut [u8; RECEIVER_BYTES], packet: &[u8]) -> Event
    requires bytes { some_at_least (2 ^ 8) state.old ≡ false }
    requires packet_value { (unfit (receiver_of state.old).pid packet.now ≡ true) × (receive_refusal (receiver_of state.old) (length packet.now) (store_length (slots_of (receiver_of state.old).kind)) ≡ 0) }
    ensures value { told result ≡ told (receive_of (receiver_of state.old) packet.now (store_length (slots_of (receiver_of state.old).kind))).event }
    ensures state_after { state.new ≡ receiver_bytes (receive_of (receiver_of state.old) packet.now (store_length (slots_of (receiver_of state.old).kind))).state }
{
    let pid = bits::word(state[PID], state[PID_LOW]);
    let kind = setting_bytes::kind_of(state[KIND]);
    let stage = receiver_stage::stage_in(state);
    match header_check::check(packet, pid, kind) {
        Err(why) => move_on(state, receiver_table::broken_row(stage, why.remainder)),
        Ok(said) => {
            let size = setting::size_of(kind);
            renumber(&mut state[NUMBERS..RECEIVER_BYTES], packet, kind);
            move_on(
                state,
                receiver_table::header_row(size.slots, stage, said.continuity_counter),
            )
        }
    }
}

// Takes one packet, and answers what it did. A refusal leaves state and store as they were. `are_bytes` tells the proof that the state holds
// bytes; with that, those that this call leaves alone are the new state's.
pub fn receive(state: &mut [u8], packet: &[u8], store: &mut [u8]) -> Result<Event, Refusal>
    ensures value { answer result ≡ receive_refused state.old packet.now store.old }
    ensures event { (told_in result).event ≡ receive_event state.old packet.now store.old }
    ensures remainder { (told_in result).remainder ≡ receive_remainder state.old packet.now store.old }
    ensures state_after { state.new ≡ receive_state state.old packet.now store.old }
    ensures store_after { store.new ≡ receive_memory state.old packet.now store.old }
{
    slices::are_bytes(state);
    if is_usual(state, packet, store.len()) {
        store_next(state, packet, store);
        return Ok(Event::Stored);
    }
    let state: &mut [u8; RECEIVER_BYTES] = state.as_mut_array().ok_or(Refusal::Length)?;
    receive_refusal(state, packet.len(), store.len())?;
    if packet::place_refusal(packet, bits::word(state[PID], state[PID_LOW])).is_ok() {
        return Ok(take_packet(state, packet, store));
    }
    Ok(take_header(state, packet))
}

// The same for C: the event as a number, and the remainder, which is 0 unless a header with a wrong CRC broke the open frame.
#[unsafe(no_mangle)]
pub extern "C" fn niranbok_receiver_receive(
    state: &mut [u8],
    packet: &[u8],
    store: &mut [u8],
    event: &mut u8,
    remainder: &mut u32,
) -> u8
    ensures value { result ≡ receive_refused state.old packet.now store.old }
    ensures event_after { event.new ≡ receive_event state.old packet.now store.old }
    ensures remainder_after { remainder.new ≡ receive_remainder state.old packet.now store.old }
    ensures state_after { state.new ≡ receive_state state.old packet.now store.old }
    ensures store_after { store.new ≡ receive_memory state.old packet.now store.old }
{
    match receive(state, packet, store) {
        Ok(happened) => {
            *event = happened.number();
            *remainder = happened.remainder();
            0
        }
        Err(refusal) => {
            *event = Event::Nothing.number();
            *remainder = 0;
            refusal.number()
        }
    }
}
