// The calls of include/niranbok.h on numbers and the CRC, as C has them: each calls the library's function of the same name, and has its
// clauses, word for word.
#![tactic(auto)]

ghost use Rattle.std.specs.Prelude.{◌≡◌};
ghost use Rattle.counters.specs.Counters.{first_slot, last_slot, checked, first_stream, last_stream, first_position, last_position, available, count_available};
ghost use Rattle.crc.specs.Crc.{register_of};

// Whether a number is a slot's.
#[unsafe(no_mangle)]
pub extern "C" fn niranbok_slot(n: u8) -> u8
    ensures { result ≡ (checked first_slot last_slot n).0 }
{
    counters::niranbok_slot(n)
}

// Whether a number is a stream's.
#[unsafe(no_mangle)]
pub extern "C" fn niranbok_relative_number(n: u8) -> u8
    ensures { result ≡ (checked first_stream last_stream n).0 }
{
    counters::niranbok_relative_number(n)
}

// Whether a number is a frame's position.
#[unsafe(no_mangle)]
pub extern "C" fn niranbok_frame_position(n: u8) -> u8
    ensures { result ≡ (checked first_position last_position n).0 }
{
    counters::niranbok_frame_position(n)
}

// Whether stream r is available.
#[unsafe(no_mangle)]
pub extern "C" fn niranbok_is_available(r: u8, availability: u16) -> bool
    ensures { result ≡ available availability r }
{
    counters::niranbok_is_available(r, availability)
}

// How many of the fifteen streams are available.
#[unsafe(no_mangle)]
pub extern "C" fn niranbok_count_available(availability: u16) -> u32
    ensures { result ≡ count_available availability }
{
    counters::niranbok_count_available(availability)
}

// The CRC register that the bytes leave.
#[unsafe(no_mangle)]
pub extern "C" fn niranbok_crc(bytes: &[u8]) -> u32
    ensures { result ≡ register_of bytes.now }
{
    crc::niranbok_crc(bytes)
}
