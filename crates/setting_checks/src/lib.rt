// The checks of a setting's widths and rules, made on its bytes as they lie.
#![tactic(auto)]

ghost use Rattle.std.specs.Prelude.{◌≤◌, ◌≡◌, cond, length};
ghost use Rattle.refusals.specs.Refusals.{answer};
ghost use Rattle.setting.specs.Refusal.{first_of, of_length};
ghost use Rattle.setting.specs.Rules.{some_behind, behind_checks, width_checks, rule_checks};
ghost use Rattle.setting.specs.Announcing.{announced_checks};
ghost use Rattle.counters.specs.Counters.{last_stream};
ghost use Rattle.setting_bytes.specs.Settings.{private_at, auxiliary_at, announced_length, setting_length, setting_from, announced_of, setting_of};
ghost use Rattle.setting_checks.specs.Absent.{bonding_absent_in, absent_in};

use counters::{FramePosition, RelativeNumber};
use refusals::Refusal;
use setting::{Kind, PRIVATE_BYTES, limits};
use setting_bytes::in_setting::{
    AVAILABILITY, AVAILABILITY_LOW, FRAME_TYPE, NETWORK_IDS, STATUSES, STREAM_IDS,
};
use setting_bytes::{
    ANNOUNCED, ANNOUNCED_BYTES, CARRIERS, COUNTER, EMERGENCY, FRAMES, NUMBERS, ORIGINAL_NETWORK_ID,
    POSITION, PRIVATE, RECEIVE_STATUS, SEQUENCE, SETTING_BYTES, TS_ID, VERSION,
};

// An identifier is two bytes, and the next one stands directly behind it.
const ID_BYTES: u8 = 2;

// 17 of what a header announced, and 1 where it is not 80 bytes. The statuses and the emergency bit behind them are sixteen bytes, which the
// compiler compares at once: an emergency bit that is too large for a status is too large for itself too.
// It is put into its callers: a call more would take stack that the composer's calls do not have.
#[inline(always)]
pub fn announced_refusal(kind: Kind, bytes: &[u8]) -> Result<(), Refusal>
    ensures { answer result ≡ of_length announced_length (length bytes.now) (first_of (announced_checks kind (announced_of bytes.now))) }
{
    if bytes.len() != ANNOUNCED_BYTES {
        return Err(Refusal::Length);
    }
    if limits::SLOT_ALLOCATION_TYPES <= bytes[setting_bytes::SLOT_ALLOCATION_TYPE] {
        return Err(Refusal::OutOfRange);
    }
    if limits::FRAME_TYPES <= bytes[setting_bytes::FRAME_TYPE] {
        return Err(Refusal::OutOfRange);
    }
    let availability = bits::word(
        bytes[setting_bytes::AVAILABILITY],
        bytes[setting_bytes::AVAILABILITY_LOW],
    );
    if limits::AVAILABILITIES <= availability {
        return Err(Refusal::OutOfRange);
    }
    if slices::some_at_least(
        &bytes[RECEIVE_STATUS..ANNOUNCED_BYTES],
        limits::RECEIVE_STATUSES,
    ) {
        return Err(Refusal::OutOfRange);
    }
    if limits::EMERGENCY_INDICATORS <= bytes[EMERGENCY] {
        return Err(Refusal::OutOfRange);
    }
    // A header with fifteen streams has none behind the last one.
    let size = setting::size_of(kind);
    if size.streams == RelativeNumber::LAST {
        return Ok(());
    }
    if has_more_streams(size.streams, bytes) {
        return Err(Refusal::OutOfRange);
    }
    Ok(())
}

// Whether a part has more than zeros behind its first n bytes.
fn some_behind(part: &[u8], n: usize) -> bool
    ensures { result ≡ some_behind n part.now }
{
    if part.len() <= n {
        return false;
    }
    slices::some_at_least(&part[n..], 1)
}

// 17: whether streams stand behind the last one that the header knows: in their bits, identifiers or statuses is something other than 0. A call of
// its own: within its callers it took up to 24 bytes of stack more.
#[inline(never)]
fn has_more_streams(streams: u8, bytes: &[u8]) -> bool
    requires { (length bytes.now ≡ announced_length) × (streams ≤ last_stream) }
    ensures { cond result 17 0 ≡ first_of (behind_checks streams (announced_of bytes.now).availability (announced_of bytes.now).ts_id (announced_of bytes.now).original_network_id (announced_of bytes.now).receive_status) }
{
    let availability = bits::word(
        bytes[setting_bytes::AVAILABILITY],
        bytes[setting_bytes::AVAILABILITY_LOW],
    );
    if availability % (1u16 << ((RelativeNumber::LAST - streams) as u32)) != 0 {
        return true;
    }
    let known = streams as usize;
    if some_behind(&bytes[TS_ID..ORIGINAL_NETWORK_ID], 2 * known) {
        return true;
    }
    if some_behind(&bytes[ORIGINAL_NETWORK_ID..RECEIVE_STATUS], 2 * known) {
        return true;
    }
    some_behind(&bytes[RECEIVE_STATUS..EMERGENCY], known)
}

// 17: what only an extended header has, from the auxiliary information to the frame's position, is zeros in any other.
fn bonding_absent_refusal(bonding: &[u8]) -> Result<(), Refusal>
    requires { length bonding.now ≡ setting_from auxiliary_at }
    ensures { answer result ≡ first_of (bonding_absent_in bonding.now) }
{
    if slices::some_at_least(bonding, 1) {
        return Err(Refusal::OutOfRange);
    }
    Ok(())
}

// 17: a part that the kind does not have holds zeros alone. Private data behind its last byte, and what only an extended header has.
fn absent_refusal(kind: Kind, rest: &[u8]) -> Result<(), Refusal>
    requires { length rest.now ≡ setting_from private_at }
    ensures { answer result ≡ first_of (absent_in kind rest.now) }
{
    let size = setting::size_of(kind);
    if some_behind(&rest[0..PRIVATE_BYTES], size.private_bytes as usize) {
        return Err(Refusal::OutOfRange);
    }
    match kind {
        Kind::Plain | Kind::Short => {
            bonding_absent_refusal(&rest[PRIVATE_BYTES..SETTING_BYTES - PRIVATE])
        }
        Kind::Extended => Ok(()),
    }
}

// 17 of a setting, and 1 where it is not 298 bytes.
pub fn width_refusal(kind: Kind, bytes: &[u8]) -> Result<(), Refusal>
    ensures { answer result ≡ of_length setting_length (length bytes.now) (first_of (width_checks kind (setting_of bytes.now))) }
{
    if bytes.len() != SETTING_BYTES {
        return Err(Refusal::Length);
    }
    if limits::COUNTERS <= bytes[COUNTER] {
        return Err(Refusal::OutOfRange);
    }
    if limits::VERSIONS <= bytes[VERSION] {
        return Err(Refusal::OutOfRange);
    }
    announced_refusal(kind, &bytes[ANNOUNCED..NUMBERS])?;
    let size = setting::size_of(kind);
    if slices::some_at_least(&bytes[NUMBERS..PRIVATE], size.streams + 1) {
        return Err(Refusal::OutOfRange);
    }
    if some_behind(&bytes[NUMBERS..PRIVATE], size.slots as usize) {
        return Err(Refusal::OutOfRange);
    }
    absent_refusal(kind, &bytes[PRIVATE..SETTING_BYTES])
}

// 8 to 11 of a setting, and 1 where it is not 298 bytes.
pub fn rule_refusal(kind: Kind, bytes: &[u8]) -> Result<(), Refusal>
    ensures { answer result ≡ of_length setting_length (length bytes.now) (first_of (rule_checks kind (setting_of bytes.now))) }
{
    if bytes.len() != SETTING_BYTES {
        return Err(Refusal::Length);
    }
    if !setting_rules::frame_type_allowed(kind, bytes[FRAME_TYPE]) {
        return Err(Refusal::FrameType);
    }
    let availability = bits::word(bytes[AVAILABILITY], bytes[AVAILABILITY_LOW]);
    if setting_slots::has_unavailable(availability, &bytes[NUMBERS..PRIVATE]) {
        return Err(Refusal::UnavailableNumber);
    }
    if setting_pairs::has_pair_twice(
        availability,
        &bytes[STREAM_IDS..NETWORK_IDS],
        &bytes[NETWORK_IDS..STATUSES],
        ID_BYTES,
    ) {
        return Err(Refusal::EqualIdentifiers);
    }
    setting_rules::bonding_refusal(
        kind,
        bytes[CARRIERS],
        bytes[SEQUENCE],
        bytes[FRAMES],
        FramePosition(bytes[POSITION]),
    )
}
