// Streams, and the settings of the headers that the programs write.
ghost use Rattle.std.specs.Prelude.{◌≡◌, ◌+◌, ◌<◌, ◌≤◌};
ghost use Rattle.counters.specs.Counters.{last_stream};

use counters::RelativeNumber;
use setting::Setting;

// The number of stream i, counted from 0.
pub(crate) fn stream_at(i: usize) -> RelativeNumber
    requires { i < last_stream }
    ensures { result.0 ≡ i + 1 }
{
    RelativeNumber(i as u8 + RelativeNumber::FIRST)
}

// Stream r made available, with these identifiers.
pub(crate) fn with_stream(
    mut s: Setting,
    r: RelativeNumber,
    ts_id: u16,
    original_network_id: u16,
) -> Setting
    requires { (1 ≤ r.0) × (r.0 ≤ last_stream) }
{
    let before = r.0 - RelativeNumber::FIRST;
    let i = usize::from(before);
    s.availability |= 16384u16 >> u32::from(before);
    s.ts_id[i] = ts_id;
    s.original_network_id[i] = original_network_id;
    s
}
