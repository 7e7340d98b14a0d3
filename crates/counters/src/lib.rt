// The counts of J.183: slots, streams, positions, each with its first and last value and a checked constructor, and which streams are
// available. They stand here and nowhere else in the code.
#![tactic(auto)]

ghost use Rattle.std.specs.Prelude.{◌≡◌};
ghost use Rattle.counters.specs.Counters.{first_slot, last_slot, first_stream, last_stream, first_position, last_position, within, checked, answered, available, count_available};

use refusals::Refusal;

// A slot of a frame. Slot 0 is the header's and is no value of this type.
#[derive(Clone, Copy, Debug, PartialEq, Eq)]
pub struct Slot(pub u8);

// The number by which a frame's header knows a stream.
#[derive(Clone, Copy, Debug, PartialEq, Eq)]
pub struct RelativeNumber(pub u8);

// The place of a frame in its super frame: a count, and no offset.
#[derive(Clone, Copy, Debug, PartialEq, Eq)]
pub struct FramePosition(pub u8);

// Whether n lies between the first and the last value, both of them included.
pub fn is_within(first: u8, last: u8, n: u8) -> bool
    ensures { result ≡ within first last n }
{
    first <= n && n <= last
}

// The number itself, if it is within its range. Each of the three types has a constructor of its own over this, since none of
// them is ever passed for another.
fn checked(first: u8, last: u8, n: u8) -> Result<u8, Refusal>
    ensures { answered (λ v. v) result ≡ checked first last n }
{
    if is_within(first, last, n) {
        Ok(n)
    } else {
        Err(Refusal::OutOfRange)
    }
}

impl Slot {
    pub const FIRST: u8 = 1;

    pub const LAST: u8 = 52;

    // The last one of a short frame.
    pub const LAST_SHORT: u8 = 40;

    pub fn new(n: u8) -> Result<Slot, Refusal>
        ensures { answered (λ v. v.0) result ≡ checked first_slot last_slot n }
    {
        Ok(Slot(checked(Slot::FIRST, Slot::LAST, n)?))
    }
}

impl RelativeNumber {
    pub const FIRST: u8 = 1;

    pub const LAST: u8 = 15;

    // The last one of a short frame.
    pub const LAST_SHORT: u8 = 7;

    pub fn new(n: u8) -> Result<RelativeNumber, Refusal>
        ensures { answered (λ v. v.0) result ≡ checked first_stream last_stream n }
    {
        Ok(RelativeNumber(checked(RelativeNumber::FIRST, RelativeNumber::LAST, n)?))
    }

    // Whether the stream is available by a setting's fifteen bits, of which stream 1 has the highest.
    pub fn is_available(self, availability: u16) -> bool
        ensures { result ≡ available availability self.0 }
    {
        let n = self.0;
        is_within(RelativeNumber::FIRST, RelativeNumber::LAST, n)
            && (availability >> u32::from(RelativeNumber::LAST - n)) % 2 == 1
    }
}

impl FramePosition {
    pub const FIRST: u8 = 1;

    pub const LAST: u8 = 4;

    pub fn new(n: u8) -> Result<FramePosition, Refusal>
        ensures { answered (λ v. v.0) result ≡ checked first_position last_position n }
    {
        Ok(FramePosition(checked(FramePosition::FIRST, FramePosition::LAST, n)?))
    }
}

// How many slots carry packets, and how many streams a header knows.
pub const SLOTS: usize = Slot::LAST as usize;

pub const STREAMS: usize = RelativeNumber::LAST as usize;

// The same of a short frame.
pub const SHORT_SLOTS: usize = Slot::LAST_SHORT as usize;

pub const SHORT_STREAMS: usize = RelativeNumber::LAST_SHORT as usize;

// How many values the availability field has: there is a bit for each stream.
pub const AVAILABILITIES: u16 = 1 << RelativeNumber::LAST;

// How many of the fifteen streams are available: the ones of the field.
pub fn count_available(availability: u16) -> u32
    ensures { result ≡ count_available availability }
{
    (availability % AVAILABILITIES).count_ones()
}

// Whether a number is a slot's.
#[unsafe(no_mangle)]
pub extern "C" fn niranbok_slot(n: u8) -> u8
    ensures { result ≡ (checked first_slot last_slot n).0 }
{
    refusals::answer(Slot::new(n))
}

// Whether a number is a stream's.
#[unsafe(no_mangle)]
pub extern "C" fn niranbok_relative_number(n: u8) -> u8
    ensures { result ≡ (checked first_stream last_stream n).0 }
{
    refusals::answer(RelativeNumber::new(n))
}

// Whether a number is a frame's position.
#[unsafe(no_mangle)]
pub extern "C" fn niranbok_frame_position(n: u8) -> u8
    ensures { result ≡ (checked first_position last_position n).0 }
{
    refusals::answer(FramePosition::new(n))
}

// Whether stream r is available.
#[unsafe(no_mangle)]
pub extern "C" fn niranbok_is_available(r: u8, availability: u16) -> bool
    ensures { result ≡ available availability r }
{
    RelativeNumber(r).is_available(availability)
}

// How many of the fifteen streams are available.
#[unsafe(no_mangle)]
pub extern "C" fn niranbok_count_available(availability: u16) -> u32
    ensures { result ≡ count_available availability }
{
    count_available(availability)
}
