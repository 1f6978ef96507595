#![tactic(auto)]
// The value taken out of a decoded reply of an OPG (document 01, "The master's side"): a reply of another kind never yields one. Each function
// takes its case by let .. else, the form that document 01 names here.
ghost use Rattle.std.specs.Prelude.{◌≡◌};
ghost use Rattle.opg_reply_kinds.specs.Kind.{no_value, no_value_number, expected, as_measured, as_unit};

use opg_frames::Refusal;
use opg_replies::Reply;

// Why a reply has no value of the kind that was asked for.
#[derive(Clone, Copy)]
pub enum NoValue {
    // a reply of another kind
    OtherKind,
    // an error, with its byte
    Error(u8),
}

impl NoValue {
    // Document 01's number: an error has its own.
    #[tactic(auto, unfolding(crate::specs::Kind::no_value_number, opg_frames::specs::Number::refusal_number))]
    pub fn number(self) -> u16
        ensures { result ≡ no_value_number self }
    {
        match self {
            NoValue::OtherKind => Refusal::Other.number() as u16,
            NoValue::Error(e) => 1000 + e as u16,
        }
    }
}

// Why a reply that is not of the expected kind has no value.
#[tactic(auto, unfolding(crate::specs::Kind::no_value, opg_replies::specs::Reply::read_shown, buffer::specs::First::pick))]
fn no_value(reply: Reply) -> NoValue
    ensures { result ≡ no_value reply }
{
    let Reply::Error(e) = reply else {
        return NoValue::OtherKind;
    };
    NoValue::Error(e)
}

#[tactic(auto, unfolding(crate::specs::Kind::as_measured, crate::specs::Kind::expected, opg_replies::specs::Reply::read_shown, buffer::specs::First::pick))]
pub fn pressure_of(reply: Reply) -> Result<f32, NoValue>
    ensures { as_measured result ≡ expected 1 reply }
{
    let Reply::Pressure(p) = reply else {
        return Err(no_value(reply));
    };
    Ok(p)
}

#[tactic(auto, unfolding(crate::specs::Kind::as_unit, crate::specs::Kind::expected, opg_replies::specs::Reply::read_shown, buffer::specs::First::pick))]
pub fn unit_of(reply: Reply) -> Result<u8, NoValue>
    ensures { as_unit result ≡ expected 2 reply }
{
    let Reply::Unit(u) = reply else {
        return Err(no_value(reply));
    };
    Ok(u)
}
