// The reserved bits of a header: the three bits before the sync, the bit behind the availability, the bit before the emergency bit, and in an
// extended header the bytes before the CRC.
ghost use Rattle.std.specs.Prelude.{◌≡◌, drop};
ghost use Rattle.refusals.specs.Refusals.{answer};
ghost use Rattle.setting.specs.Refusal.{first_of};
ghost use Rattle.header_layout.specs.Header.{reserved_checks};

use header_layout::HEADER_LENGTH;
use refusals::Refusal;
use setting::Kind;

// 20 of the reserved bytes.
fn bytes_refusal(packet: &[u8; HEADER_LENGTH], kind: Kind) -> Result<(), Refusal>
    ensures { answer result ≡ first_of (drop 3 (reserved_checks kind packet.now)) }
{
    match kind {
        Kind::Plain | Kind::Short => Ok(()),
        Kind::Extended => {
            if slices::some_other(&packet[header_layout::RESERVED..header_layout::CRC], 255) {
                return Err(Refusal::ReservedBits);
            }
            Ok(())
        }
    }
}

// 20: a reserved bit is 0.
pub(crate) fn refusal(packet: &[u8; HEADER_LENGTH], kind: Kind) -> Result<(), Refusal>
    ensures { answer result ≡ first_of (reserved_checks kind packet.now) }
{
    if packet[header_layout::TSMF_SYNC] / 32 != 7 {
        return Err(Refusal::ReservedBits);
    }
    let at = header_layout::places_of(kind);
    if packet[at.identifiers - 1] % 2 != 1 {
        return Err(Refusal::ReservedBits);
    }
    if packet[at.numbers - 1] / 2 % 2 != 1 {
        return Err(Refusal::ReservedBits);
    }
    bytes_refusal(packet, kind)
}
