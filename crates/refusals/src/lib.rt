// Why a call refuses: the table of refusals, each with its number.
#![tactic(auto)]

ghost use Rattle.std.specs.Prelude.{◌≡◌};
ghost use Rattle.refusals.specs.Refusals.{number, answer};

// A refusal, in the order in which calls check.
#[derive(Clone, Copy, Debug, PartialEq, Eq)]
pub enum Refusal {
    // The length of what is lent.
    Length,
    HeaderPid,
    // A field, a number or a count out of its range.
    OutOfRange,
    // No frame is open, or none is ready.
    NoFrame,
    SyncByte,
    OtherPid,
    FixedBits,
    SyncBits,
    Crc,
    ReservedBits,
    FrameType,
    UnavailableNumber,
    EqualIdentifiers,
    BondingFields,
    // The headers are not those of the group's carriers.
    Group,
    UnavailableStream,
    // The room for what is written, or the length of what is read.
    Room,
    UnfitPacket,
}

impl Refusal {
    // The number by which C knows the refusal.
    pub fn number(self) -> u8
        ensures { result ≡ number self }
    {
        match self {
            Refusal::Length => 1,
            Refusal::HeaderPid => 2,
            Refusal::OutOfRange => 17,
            Refusal::NoFrame => 16,
            Refusal::SyncByte => 3,
            Refusal::OtherPid => 4,
            Refusal::FixedBits => 5,
            Refusal::SyncBits => 6,
            Refusal::Crc => 7,
            Refusal::ReservedBits => 20,
            Refusal::FrameType => 8,
            Refusal::UnavailableNumber => 9,
            Refusal::EqualIdentifiers => 10,
            Refusal::BondingFields => 11,
            Refusal::Group => 14,
            Refusal::UnavailableStream => 13,
            Refusal::Room => 15,
            Refusal::UnfitPacket => 12,
        }
    }
}

// What a call for C answers: 0, or the refusal's number.
pub fn answer<T: Drop>(checked: Result<T, Refusal>) -> u8
    ensures { result ≡ answer checked }
{
    match checked {
        Ok(_) => 0,
        Err(refusal) => refusal.number(),
    }
}
