// The parts of the reader: each writes the bytes of its part of a setting straight from the packet. How many streams a header knows goes on as a plain
// count, bounded by a clause: a type for it would be unwrapped at each place that it helps to find.
ghost use Rattle.std.specs.Prelude.{◌≡◌, ◌+◌, ◌*◌, ◌≤◌, length, Ok};
ghost use Rattle.counters.specs.Counters.{last_stream};
ghost use Rattle.setting.specs.Setting.{private_bytes, auxiliary_bytes};
ghost use Rattle.setting.specs.Announcing.{announced};
ghost use Rattle.setting.specs.Size.{resized};
ghost use Rattle.bits.specs.Fields.{run, cut};
ghost use Rattle.setting_bytes.specs.Words.{word_bytes};
ghost use Rattle.setting_bytes.specs.Settings.{announced_length, announced_bytes, setting_length, setting_bytes};
ghost use Rattle.setting_pairs.specs.Identifiers.{ids_apart};
ghost use Rattle.header_layout.specs.Header.{reading};
ghost use Rattle.header_check.specs.OnPaper.{on_paper};
ghost use Rattle.header_check.specs.Checking.{bare, parts_of};

use counters::STREAMS;
use header_check::Said;
use header_layout::HEADER_LENGTH;
use setting::{Kind, PRIVATE_BYTES};
use setting_bytes::{
    ANNOUNCED, AUXILIARY, AVAILABILITY, AVAILABILITY_LOW, BONDING, CARRIERS, COUNTER, EMERGENCY,
    FRAME_TYPE, FRAMES, NUMBERS, ORIGINAL_NETWORK_ID, POSITION, PRIVATE, RECEIVE_STATUS, SEQUENCE,
    SLOT_ALLOCATION_TYPE, TS_ID, VERSION,
};

// One identifier of each of so many streams: two bytes of every four.
fn read_words(part: &mut [u8], ids: &[u8], streams: usize)
    requires { (length part.old ≡ 2 * streams) × (4 * streams ≤ length ids.now + 2) }
    ensures { part.new ≡ word_bytes (ids_apart 4 streams ids.now) }
{
    for k in 0..streams {
        part[2 * k] = ids[4 * k];
        part[2 * k + 1] = ids[4 * k + 1];
    }
}

// The same with zeros for the streams that the header does not have.
fn read_ids(part: &mut [u8], ids: &[u8], streams: usize)
    requires { (length part.old ≡ 2 * last_stream) × (streams ≤ last_stream) × (4 * streams ≤ length ids.now + 2) }
    ensures { part.new ≡ word_bytes (resized last_stream (ids_apart 4 streams ids.now)) }
{
    let own = 2 * streams;
    read_words(&mut part[0..own], ids, streams);
    slices::fill(&mut part[own..2 * STREAMS], 0);
}

// The status of each stream, with zeros for those that the header does not have.
fn cut_statuses(part: &mut [u8], control: &[u8], streams: usize)
    requires { (length part.old ≡ last_stream) × (streams ≤ last_stream) × (streams * 2 ≤ length control.now * 8) }
    ensures { part.new ≡ resized last_stream (cut 2 streams (run 8 control.now)) }
{
    header_check::cut_run(&mut part[0..streams], control, 2);
    slices::fill(&mut part[streams..STREAMS], 0);
}

// The same. The compiler makes code of its own for fifteen streams, since it knows their number: that is faster.
fn read_statuses(part: &mut [u8], control: &[u8], streams: usize)
    requires { (length part.old ≡ last_stream) × (streams ≤ last_stream) × (streams * 2 ≤ length control.now * 8) }
    ensures { part.new ≡ resized last_stream (cut 2 streams (run 8 control.now)) }
{
    if streams == STREAMS {
        cut_statuses(part, control, STREAMS);
        return;
    }
    cut_statuses(part, control, streams);
}

// What the header announces. The check has already read the availability.
fn read_announced(part: &mut [u8], packet: &[u8; HEADER_LENGTH], kind: Kind, availability: u16)
    requires part_len { length part.old ≡ announced_length }
    requires availability_value { availability ≡ (reading kind packet.now).availability }
    ensures { part.new ≡ announced_bytes (announced (reading kind packet.now)) }
{
    let size = setting::size_of(kind);
    let streams = usize::from(size.streams);
    let at = header_layout::places_of(kind);
    let identifiers = at.identifiers;
    let control = at.control;
    let numbers = at.numbers;
    let types = packet[6];
    part[SLOT_ALLOCATION_TYPE] = types / 16 % 2;
    part[FRAME_TYPE] = types % 16;
    let [high, low] = availability.to_be_bytes();
    part[AVAILABILITY] = high;
    part[AVAILABILITY_LOW] = low;
    read_ids(
        &mut part[TS_ID..ORIGINAL_NETWORK_ID],
        &packet[identifiers..control],
        streams,
    );
    read_ids(
        &mut part[ORIGINAL_NETWORK_ID..RECEIVE_STATUS],
        &packet[identifiers + 2..control],
        streams,
    );
    read_statuses(
        &mut part[RECEIVE_STATUS..EMERGENCY],
        &packet[control..numbers],
        streams,
    );
    part[EMERGENCY] = packet[numbers - 1] % 2;
}

// The private data of the kind, with zeros behind them.
fn read_private(part: &mut [u8], packet: &[u8; HEADER_LENGTH], kind: Kind)
    requires { length part.old ≡ private_bytes }
    ensures { part.new ≡ (reading kind packet.now).private_data }
{
    let size = setting::size_of(kind);
    let own = usize::from(size.private_bytes);
    let at = header_layout::places_of(kind);
    let start = at.private;
    slices::copy(&mut part[0..own], &packet[start..start + own]);
    slices::fill(&mut part[own..PRIVATE_BYTES], 0);
}

// The auxiliary information of an extended header; zeros for any other.
fn read_auxiliary(part: &mut [u8], packet: &[u8; HEADER_LENGTH], kind: Kind)
    requires { length part.old ≡ auxiliary_bytes }
    ensures { part.new ≡ (reading kind packet.now).auxiliary }
{
    match kind {
        Kind::Plain | Kind::Short => slices::fill(part, 0),
        Kind::Extended => slices::copy(
            part,
            &packet[header_layout::PRIVATE..header_layout::BONDING],
        ),
    }
}

// What the packet says, field by field, as the bytes of a setting. `said` has the parts that the check has already read.
pub(crate) fn read_setting(setting: &mut [u8], packet: &[u8; HEADER_LENGTH], kind: Kind, said: Said)
    requires setting_len { length setting.old ≡ setting_length }
    requires said_of_packet { on_paper (Ok said) ≡ parts_of (bare 0) (reading kind packet.now) }
    ensures { setting.new ≡ setting_bytes (reading kind packet.now) }
{
    read_announced(
        &mut setting[ANNOUNCED..NUMBERS],
        packet,
        kind,
        said.availability,
    );
    header_check::read_numbers(&mut setting[NUMBERS..PRIVATE], packet, kind);
    read_private(&mut setting[PRIVATE..AUXILIARY], packet, kind);
    read_auxiliary(&mut setting[AUXILIARY..BONDING], packet, kind);
    let position = said.frame_position;
    setting[BONDING] = said.group_id;
    setting[CARRIERS] = said.number_of_carriers;
    setting[SEQUENCE] = said.carrier_sequence;
    setting[FRAMES] = said.number_of_frames;
    setting[POSITION] = position.0;
    setting[COUNTER] = said.continuity_counter;
    setting[VERSION] = packet[6] / 32;
}
