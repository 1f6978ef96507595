#![tactic(auto)]
// The value taken out of a decoded V2 reply (document 01, "The master's side"): a reply of another kind never yields one. Each function
// takes its case by let .. else, the form that document 01 names here.
ghost use Rattle.std.specs.Prelude.{◌≡◌};
ghost use Rattle.reply_kinds_v2.specs.Kind.{no_value, no_pressure, expected, as_measured, as_degrees, as_filament, as_status, as_setting};

use refusals::Refusal;
use replies_v2_values::ReplyV2;

// Why a reply that is not of the expected kind has no value: an error's text is none of the command's form. (V1 and V2 have each their own: a trait
// over both kinds of reply would be longer than the four arms.)
#[tactic(auto, unfolding(crate::specs::Kind::no_value, replies_v2::specs::ReplyV2::read_shown_v2, buffer::specs::First::pick))]
fn no_value(reply: ReplyV2) -> Refusal
    ensures { result ≡ no_value reply }
{
    match reply {
        ReplyV2::Error(_) => Refusal::Syntax,
        _ => Refusal::Mismatch,
    }
}

// The same where a number of MV is expected: under and over range no number is told.
#[tactic(auto, unfolding(crate::specs::Kind::no_pressure, replies_v2::specs::ReplyV2::read_shown_v2, buffer::specs::First::pick))]
fn no_pressure(reply: ReplyV2) -> Refusal
    ensures { result ≡ no_pressure reply }
{
    match reply {
        ReplyV2::UnderRange | ReplyV2::OverRange => Refusal::Range,
        _ => no_value(reply),
    }
}

#[tactic(auto, unfolding(crate::specs::Kind::as_measured, crate::specs::Kind::expected, replies_v2::specs::ReplyV2::read_shown_v2, buffer::specs::First::pick))]
pub fn pressure_of(reply: ReplyV2) -> Result<decimal::Number, Refusal>
    ensures { as_measured result ≡ expected 1 reply }
{
    let ReplyV2::Measured(n) = reply else {
        return Err(no_pressure(reply));
    };
    Ok(n)
}

#[tactic(auto, unfolding(crate::specs::Kind::as_degrees, crate::specs::Kind::expected, replies_v2::specs::ReplyV2::read_shown_v2, buffer::specs::First::pick))]
pub fn degrees_of(reply: ReplyV2) -> Result<(bool, u16), Refusal>
    ensures { as_degrees result ≡ expected 4 reply }
{
    let ReplyV2::Degrees(negative, size) = reply else {
        return Err(no_value(reply));
    };
    Ok((negative, size))
}

#[tactic(auto, unfolding(crate::specs::Kind::as_filament, crate::specs::Kind::expected, replies_v2::specs::ReplyV2::read_shown_v2, buffer::specs::First::pick))]
pub fn filament_of(reply: ReplyV2) -> Result<u8, Refusal>
    ensures { as_filament result ≡ expected 5 reply }
{
    let ReplyV2::FilamentNumber(d) = reply else {
        return Err(no_value(reply));
    };
    Ok(d)
}

#[tactic(auto, unfolding(crate::specs::Kind::as_status, crate::specs::Kind::expected, replies_v2::specs::ReplyV2::read_shown_v2, buffer::specs::First::pick))]
pub fn status_of(reply: ReplyV2) -> Result<u8, Refusal>
    ensures { as_status result ≡ expected 6 reply }
{
    let ReplyV2::StatusNumber(d) = reply else {
        return Err(no_value(reply));
    };
    Ok(d)
}

#[tactic(auto, unfolding(crate::specs::Kind::as_setting, crate::specs::Kind::expected, replies_v2::specs::ReplyV2::read_shown_v2, buffer::specs::First::pick))]
pub fn setting_of(reply: ReplyV2) -> Result<settings::Setting, Refusal>
    ensures { as_setting result ≡ expected 7 reply }
{
    let ReplyV2::Holds(x) = reply else {
        return Err(no_value(reply));
    };
    Ok(x)
}
