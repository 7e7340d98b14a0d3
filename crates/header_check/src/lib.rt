// A packet checked as a header: its refusal, and the fields that receiving and gathering use. The reader of whole headers is built on
// this check.
#![tactic(auto)]

ghost use Rattle.std.specs.Prelude.{◌≡◌};
ghost use Rattle.header_check.specs.OnPaper.{refusal_in, on_paper};
ghost use Rattle.header_check.specs.Checking.{checked_of, numbers_into};
ghost use Rattle.header_check.specs.Cutting.{cut_into};

use counters::{FramePosition, SLOTS};
use header_layout::HEADER_LENGTH;
use refusals::Refusal;
use setting::Kind;

mod packed;
mod parts;
mod reserved;

// Why a header is refused. Beside a wrong CRC stands the remainder, which is what bytes 4 to 187 leave in the CRC register. Beside any other
// refusal it is 0. Callers pass it up as it is.
#[derive(Clone, Copy, Debug, PartialEq, Eq)]
pub struct Refused {
    pub refusal: Refusal,
    pub remainder: u32,
}

impl From<Refusal> for Refused {
    ghost from_gives = { λ refusal why. why ≡ record { refusal = refusal; remainder = 0 } };

    fn from(refusal: Refusal) -> Refused {
        Refused {
            refusal,
            remainder: 0,
        }
    }
}

// What a call for C answers: 0, or the refusal's number. Beside it the remainder is written.
pub fn answer<T: Drop>(checked: Result<T, Refused>, remainder: &mut u32) -> u8
    ensures value { result ≡ (refusal_in checked).number }
    ensures remainder_after { remainder.new ≡ (refusal_in checked).remainder }
{
    match checked {
        Ok(_) => {
            *remainder = 0;
            0
        }
        Err(why) => {
            *remainder = why.remainder;
            why.refusal.number()
        }
    }
}

// What a good header says, as far as receiving and gathering use it. The slots' numbers are read apart, by `read_numbers`.
#[derive(Clone, Copy)]
pub struct Said {
    pub continuity_counter: u8,
    pub availability: u16,
    pub group_id: u8,
    pub number_of_carriers: u8,
    pub carrier_sequence: u8,
    pub number_of_frames: u8,
    pub frame_position: FramePosition,
}

// Checks the packet as a header, for refusals 1 to 7, then 20, then 8 to 11.
pub fn check(packet: &[u8], pid: u16, kind: Kind) -> Result<Said, Refused>
    ensures { on_paper result ≡ checked_of kind pid packet.now }
{
    let packet: &[u8; HEADER_LENGTH] = packet.as_array().ok_or(Refusal::Length)?;
    if !setting::pid_allowed(pid) {
        return Err(Refused::from(Refusal::HeaderPid));
    }
    parts::packet_refusal(packet, pid)?;
    reserved::refusal(packet, kind)?;
    Ok(parts::said_by(packet, kind)?)
}

// Reads the numbers of the slots from a packet into 52 bytes, with zeros behind the kind's last slot. A packet or bytes of any other length change
// nothing.
pub fn read_numbers(numbers: &mut [u8], packet: &[u8], kind: Kind)
    ensures { numbers.new ≡ numbers_into kind packet.now numbers.old }
{
    if numbers.len() != SLOTS {
        return;
    }
    let Some(packet) = packet.as_array::<HEADER_LENGTH>() else {
        return;
    };
    slices::fill(numbers, 0);
    parts::read_numbers(numbers, packet, kind);
}

// The most values that one call cuts.
const MOST_VALUES: usize = 255;

// Cuts values of `width` bits from `part`, as many as `values` has. Nothing is written where the part has not enough bits, a value has more
// than eight, or there are more than 255 values.
pub fn cut_run(values: &mut [u8], part: &[u8], width: u8)
    ensures { values.new ≡ cut_into width values.old part.now }
{
    if 8 < width {
        return;
    }
    if MOST_VALUES < values.len() {
        return;
    }
    if part.len() < (values.len() * usize::from(width) + 7) / 8 {
        return;
    }
    packed::read_run(values, part, u32::from(width));
}
