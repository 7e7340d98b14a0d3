// The rules of 8 and 11. Those of 9 and 10 are in setting_slots and setting_pairs.
#![tactic(auto)]

ghost use Rattle.std.specs.Prelude.{◌≡◌};
ghost use Rattle.refusals.specs.Refusals.{answer};
ghost use Rattle.setting.specs.Refusal.{first_of};
ghost use Rattle.setting.specs.Rules.{type_allowed, bonding_checks};

use counters::{FramePosition, is_within};
use refusals::Refusal;
use setting::{Kind, limits};

// 11: the bonding fields of an extended header.
pub fn bonding_refusal(
    kind: Kind,
    number_of_carriers: u8,
    carrier_sequence: u8,
    number_of_frames: u8,
    frame_position: FramePosition,
) -> Result<(), Refusal>
    ensures { answer result ≡ first_of (bonding_checks kind number_of_carriers carrier_sequence number_of_frames frame_position.0) }
{
    match kind {
        Kind::Plain | Kind::Short => Ok(()),
        Kind::Extended => {
            if is_within(
                limits::FIRST_CARRIER,
                limits::LAST_CARRIER,
                number_of_carriers,
            ) && is_within(limits::FIRST_CARRIER, number_of_carriers, carrier_sequence)
                && is_within(limits::FEWEST_FRAMES, limits::MOST_FRAMES, number_of_frames)
                && is_within(FramePosition::FIRST, number_of_frames, frame_position.0)
            {
                Ok(())
            } else {
                Err(Refusal::BondingFields)
            }
        }
    }
}

// 8: whether a header of this kind may have the frame type.
pub fn frame_type_allowed(kind: Kind, frame_type: u8) -> bool
    ensures { result ≡ type_allowed kind frame_type }
{
    match kind {
        Kind::Plain => frame_type == limits::FIRST_FRAME_TYPE,
        Kind::Extended => is_within(
            limits::FIRST_FRAME_TYPE,
            limits::LAST_FRAME_TYPE,
            frame_type,
        ),
        Kind::Short => frame_type == limits::SHORT_FRAME_TYPE,
    }
}
