// The parts of the check: what a packet of 188 bytes shows and says, as far as the check needs it. A packet and its kind go on as two, as the definition
// `reading kind packet` has them: a struct of both would be taken apart in each function.
ghost use Rattle.std.specs.Prelude.{◌≡◌, ◌+◌, ◌*◌, ◌/◌, ◌<◌, length, get_or, replicate, IfOk, Ok};
ghost use Rattle.bits.specs.Fields.{run, cut};
ghost use Rattle.setting.specs.Refusal.{first_of};
ghost use Rattle.counters.specs.Counters.{last_slot};
ghost use Rattle.setting.specs.Rules.{some_unavailable, pair_twice, bonding_checks, rule_checks};
ghost use Rattle.header_layout.specs.Header.{remainder_of, packet_checks, reading};
ghost use Rattle.refusals.specs.Refusals.{answer};
ghost use Rattle.header_check.specs.OnPaper.{refusal_in, on_paper};
ghost use Rattle.header_check.specs.Checking.{bare, refusal_by, parts_of};

use crate::{Refused, Said, packed};
use counters::{FramePosition, RelativeNumber, SHORT_SLOTS, SLOTS, STREAMS};
use header_layout::HEADER_LENGTH;
use refusals::Refusal;
use setting::Kind;

// The number of 16 bits that starts at byte `at`.
fn word_at(part: &[u8], at: usize) -> u16
    requires { at + 1 < length part.now }
    ensures { result ≡ get_or part.now at 0 * 256 + get_or part.now (at + 1) 0 }
{
    bits::word(part[at], part[at + 1])
}

// The check of the CRC itself: what bytes 4 to 187 leave in the register, 0 if it is right.
fn remainder_of(packet: &[u8; HEADER_LENGTH]) -> u32
    ensures { result ≡ remainder_of packet.now }
{
    crc::register(&packet[header_layout::TSMF_SYNC..header_layout::HEADER_LENGTH])
}

// 3 to 7: what the packet itself shows.
pub(crate) fn packet_refusal(packet: &[u8; HEADER_LENGTH], pid: u16) -> Result<(), Refused>
    ensures { refusal_in result ≡ refusal_by (first_of (packet_checks pid packet.now)) packet.now }
{
    if packet[0] != 0x47 {
        return Err(Refused::from(Refusal::SyncByte));
    }
    if word_at(packet, 1) % 8192 != pid {
        return Err(Refused::from(Refusal::OtherPid));
    }
    if packet[1] / 32 != 0 {
        return Err(Refused::from(Refusal::FixedBits));
    }
    if packet[3] / 16 != 1 {
        return Err(Refused::from(Refusal::FixedBits));
    }
    if word_at(packet, 4) % 8192 != 0x1A86 {
        return Err(Refused::from(Refusal::SyncBits));
    }
    let remainder = remainder_of(packet);
    if remainder != 0 {
        return Err(Refused {
            refusal: Refusal::Crc,
            remainder,
        });
    }
    Ok(())
}

// The bytes of the slots' numbers in a header with fifteen streams.
const NUMBERS_BYTES: usize = header_layout::PRIVATE - header_layout::NUMBERS;

// The number of each slot: values of 4 bits, two from a byte.
fn read_halves(values: &mut [u8], part: &[u8; NUMBERS_BYTES])
    requires { length values.old ≡ last_slot }
    ensures { values.new ≡ cut 4 last_slot (run 8 part.now) }
{
    for (k, &byte) in part.iter().enumerate() {
        values[2 * k] = byte / 16;
        values[2 * k + 1] = byte % 16;
    }
}

// The availability, as a setting has it: stream 1 is bit 14 in every kind. In the header its bit is the highest of byte 7.
fn availability_of(packet: &[u8; HEADER_LENGTH], kind: Kind) -> u16
    ensures { result ≡ (reading kind packet.now).availability }
{
    let size = setting::size_of(kind);
    let own = word_at(packet, header_layout::AVAILABILITY) >> u32::from(16 - size.streams);
    own << u32::from(RelativeNumber::LAST - size.streams)
}

// The numbers of a header with fifteen streams. They are read by way of an array of their bytes, since the compiler then need not ask whether
// packet and numbers overlap, and reads many at a time.
fn read_long(numbers: &mut [u8], packet: &[u8; HEADER_LENGTH])
    requires { length numbers.old ≡ last_slot }
    ensures numbers_after { numbers.new ≡ (reading Kind.Plain packet.now).relative_ts_number }
    ensures numbers_after_2 { numbers.new ≡ (reading Kind.Extended packet.now).relative_ts_number }
{
    let part = &packet[header_layout::NUMBERS..header_layout::PRIVATE];
    if let Some(&held) = part.first_chunk::<NUMBERS_BYTES>() {
        read_halves(numbers, &held);
    }
}

// The number of each slot that the kind has; those behind stay zeros.
pub(crate) fn read_numbers(numbers: &mut [u8], packet: &[u8; HEADER_LENGTH], kind: Kind)
    requires { numbers.old ≡ replicate last_slot 0 }
    ensures { numbers.new ≡ (reading kind packet.now).relative_ts_number }
{
    match kind {
        Kind::Plain | Kind::Extended => read_long(numbers, packet),
        Kind::Short => {
            packed::read_run(
                &mut numbers[0..SHORT_SLOTS],
                &packet[header_layout::SHORT_NUMBERS..header_layout::SHORT_PRIVATE],
                3,
            );
        }
    }
}

// Whether a slot has the number of an unavailable stream. Numbers that stand two to a byte are asked where they stand.
fn has_unavailable(packet: &[u8; HEADER_LENGTH], kind: Kind, availability: u16) -> bool
    ensures { result ≡ some_unavailable availability (reading kind packet.now).relative_ts_number }
{
    match kind {
        Kind::Plain | Kind::Extended => setting_slots::has_unavailable_half(
            availability,
            &packet[header_layout::NUMBERS..header_layout::PRIVATE],
        ),
        Kind::Short => {
            let mut numbers = [0u8; SLOTS];
            read_numbers(&mut numbers, packet, Kind::Short);
            setting_slots::has_unavailable(availability, &numbers)
        }
    }
}

// The bytes of the identifiers of fifteen streams.
const IDENTIFIERS_BYTES: usize = header_layout::STREAM_BYTES as usize * STREAMS;

// Whether two available streams have equal identifier pairs. A stream that the kind does not have is not available, so what stands behind
// the identifiers is not compared.
fn has_pair_twice(packet: &[u8; HEADER_LENGTH], kind: Kind, availability: u16) -> bool
    requires { availability ≡ (reading kind packet.now).availability }
    ensures { result ≡ pair_twice availability (reading kind packet.now).ts_id (reading kind packet.now).original_network_id }
{
    let at = header_layout::places_of(kind);
    let start = at.identifiers;
    let end = start + IDENTIFIERS_BYTES;
    setting_pairs::has_pair_twice(
        availability,
        &packet[start..end],
        &packet[start + 2..end],
        header_layout::STREAM_BYTES,
    )
}

// The bonding fields: those of the packet for an extended header, zeros for any other. Bytes that are not checked yet, so no part of `Said`.
#[derive(Clone, Copy)]
struct Bonding {
    group_id: u8,
    number_of_carriers: u8,
    carrier_sequence: u8,
    number_of_frames: u8,
    frame_position: u8,
}

fn no_bonding() -> Bonding
    ensures { result ≡ record { group_id = 0; number_of_carriers = 0; carrier_sequence = 0; number_of_frames = 0; frame_position = 0 } }
{
    Bonding {
        group_id: 0,
        number_of_carriers: 0,
        carrier_sequence: 0,
        number_of_frames: 0,
        frame_position: 0,
    }
}

fn bonding_of(packet: &[u8; HEADER_LENGTH], kind: Kind) -> Bonding
    ensures group_id_value { result.group_id ≡ (reading kind packet.now).group_id }
    ensures number_of_carriers_value { result.number_of_carriers ≡ (reading kind packet.now).number_of_carriers }
    ensures carrier_sequence_value { result.carrier_sequence ≡ (reading kind packet.now).carrier_sequence }
    ensures number_of_frames_value { result.number_of_frames ≡ (reading kind packet.now).number_of_frames }
    ensures frame_position_value { result.frame_position ≡ (reading kind packet.now).frame_position.0 }
{
    match kind {
        Kind::Plain | Kind::Short => no_bonding(),
        Kind::Extended => {
            let frames = packet[header_layout::BONDING + 3];
            Bonding {
                group_id: packet[header_layout::BONDING],
                number_of_carriers: packet[header_layout::BONDING + 1],
                carrier_sequence: packet[header_layout::BONDING + 2],
                number_of_frames: frames / 16,
                frame_position: frames % 16,
            }
        }
    }
}

// 11: the bonding fields of an extended header.
fn bonding_refusal(bonding: Bonding, kind: Kind) -> Result<(), Refusal>
    ensures { answer result ≡ first_of (bonding_checks kind bonding.number_of_carriers bonding.carrier_sequence bonding.number_of_frames bonding.frame_position) }
{
    setting_rules::bonding_refusal(
        kind,
        bonding.number_of_carriers,
        bonding.carrier_sequence,
        bonding.number_of_frames,
        FramePosition(bonding.frame_position),
    )
}

// 8 to 11, and what the packet says if none of them applies. Each part is read when it is first needed.
pub(crate) fn said_by(packet: &[u8; HEADER_LENGTH], kind: Kind) -> Result<Said, Refusal>
    ensures value { answer result ≡ first_of (rule_checks kind (reading kind packet.now)) }
    ensures said { IfOk result (λ said. on_paper (Ok said) ≡ parts_of (bare 0) (reading kind packet.now)) }
{
    if !setting_rules::frame_type_allowed(kind, packet[6] % 16) {
        return Err(Refusal::FrameType);
    }
    let availability = availability_of(packet, kind);
    if has_unavailable(packet, kind, availability) {
        return Err(Refusal::UnavailableNumber);
    }
    if has_pair_twice(packet, kind, availability) {
        return Err(Refusal::EqualIdentifiers);
    }
    let bonding = bonding_of(packet, kind);
    bonding_refusal(bonding, kind)?;
    Ok(Said {
        continuity_counter: packet[3] % 16,
        availability,
        group_id: bonding.group_id,
        number_of_carriers: bonding.number_of_carriers,
        carrier_sequence: bonding.carrier_sequence,
        number_of_frames: bonding.number_of_frames,
        frame_position: FramePosition(bonding.frame_position),
    })
}
