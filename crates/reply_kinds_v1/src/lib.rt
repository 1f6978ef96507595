#![tactic(auto)]
// The value taken out of a decoded V1 reply (document 01, "The master's side"): a reply of another kind never yields one. Each function
// takes its case by let .. else, the form that document 01 names here.
ghost use Rattle.std.specs.Prelude.{◌≡◌};
ghost use Rattle.reply_kinds_v1.specs.Kind.{no_value, no_pressure, expected, as_measured, as_factor, as_unit};

use refusals::Refusal;
use replies_v1::ReplyV1;

// Why a reply that is not of the expected kind has no value: an error's text is none of the request's form. (V1 and V2 have each their own: a trait
// over both kinds of reply would be longer than the four arms.)
#[tactic(auto, unfolding(crate::specs::Kind::no_value, replies_v1::specs::ReplyV1::read_shown_v1, buffer::specs::First::pick))]
fn no_value(reply: ReplyV1) -> Refusal
    ensures { result ≡ no_value reply }
{
    match reply {
        ReplyV1::Error(_) => Refusal::Syntax,
        _ => Refusal::Mismatch,
    }
}

// The same where a reading is expected: under and over range no number is told.
#[tactic(auto, unfolding(crate::specs::Kind::no_pressure, replies_v1::specs::ReplyV1::read_shown_v1, buffer::specs::First::pick))]
fn no_pressure(reply: ReplyV1) -> Refusal
    ensures { result ≡ no_pressure reply }
{
    match reply {
        ReplyV1::UnderRange | ReplyV1::OverRange => Refusal::Range,
        _ => no_value(reply),
    }
}

#[tactic(auto, unfolding(crate::specs::Kind::as_measured, crate::specs::Kind::expected, replies_v1::specs::ReplyV1::read_shown_v1, buffer::specs::First::pick))]
pub fn measured_of(reply: ReplyV1) -> Result<(u16, u8), Refusal>
    ensures { as_measured result ≡ expected 1 reply }
{
    let ReplyV1::Reads(mantissa, exponent) = reply else {
        return Err(no_pressure(reply));
    };
    Ok((mantissa, exponent))
}

#[tactic(auto, unfolding(crate::specs::Kind::as_factor, crate::specs::Kind::expected, replies_v1::specs::ReplyV1::read_shown_v1, buffer::specs::First::pick))]
pub fn factor_of(reply: ReplyV1) -> Result<u16, Refusal>
    ensures { as_factor result ≡ expected 4 reply }
{
    let ReplyV1::Factor(n) = reply else {
        return Err(no_value(reply));
    };
    Ok(n)
}

#[tactic(auto, unfolding(crate::specs::Kind::as_unit, crate::specs::Kind::expected, replies_v1::specs::ReplyV1::read_shown_v1, buffer::specs::First::pick))]
pub fn unit_of(reply: ReplyV1) -> Result<settings::PressureUnit, Refusal>
    ensures { as_unit result ≡ expected 5 reply }
{
    let ReplyV1::Unit(u) = reply else {
        return Err(no_value(reply));
    };
    Ok(u)
}
