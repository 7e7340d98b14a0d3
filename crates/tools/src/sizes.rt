// The size of a run's frames, by the kind of its headers, with the bounds that the programs' buffers have.
ghost use Rattle.std.specs.Prelude.{◌≤◌};
ghost use Rattle.counters.specs.Counters.{last_slot, last_stream};
ghost use Rattle.packet.specs.Packets.{packet_length, frame_length};

use setting::Kind;

// How many slots of a frame carry packets.
pub(crate) fn slots_of(kind: Kind) -> u8
    ensures { result ≤ last_slot }
{
    let size = setting::size_of(kind);
    size.slots
}

// How many streams a header knows.
pub(crate) fn streams_of(kind: Kind) -> u8
    ensures { result ≤ last_stream }
{
    let size = setting::size_of(kind);
    size.streams
}

// How many bytes a frame has.
pub(crate) fn frame_bytes(kind: Kind) -> usize
    ensures { (packet_length ≤ result) × (result ≤ frame_length last_slot) }
{
    packet::frame_bytes(kind)
}
