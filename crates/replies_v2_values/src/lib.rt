#![tactic(auto)]
// Values in V2 replies (document 01, "The master's side"): the data of a reply to a read.
ghost use Rattle.std.specs.Prelude.{◌≡◌};
ghost use Rattle.settings.specs.Limits.{limits_of};
ghost use Rattle.requests.specs.declared.Command.{Command};
ghost use Rattle.replies_v2_values.specs.Value.{measured_reply, pressure_reply, degrees_reply, temperature_reply, filament_reply, status_reply, held_reply, both_ends, transition_reply, Values};

use decimal::{Number, NumberError};
use forms::Ends;
use readings::{Pressure, Readings};
use refusals::Refusal;
use requests::Command;
use settings::{Key, Setting, Transition};
use sources::WithSources;

// A decoded reply.
#[derive(Clone, Copy)]
pub enum ReplyV2 {
    // MV: a number, `UR` or `OR`
    Measured(Number),
    UnderRange,
    OverRange,
    // T2: whether it is below zero, and its size in hundredths of a degree
    Degrees(bool, u16),
    // FN
    FilamentNumber(u8),
    // FS
    StatusNumber(u8),
    // a setting's value; SM's list stands beside it
    Holds(Setting),
    // a write or a restore was done
    Done,
    // the request was refused with this text
    Error(error_texts::ErrorText),
}

// A number that source 0 can have.
#[tactic(auto, unfolding(crate::specs::Value::measured_reply, readings::specs::Bench::takes, buffer::specs::First::pick))]
fn measured_in(p: Result<Number, NumberError>) -> Result<ReplyV2, Refusal>
    ensures { result ≡ measured_reply p }
{
    let n = p?;
    if !Number::ZERO.is_below(n) {
        return Err(Refusal::Range);
    }
    Ok(ReplyV2::Measured(n))
}

// MV.
#[tactic(auto, unfolding(crate::specs::Value::pressure_reply, buffer::specs::First::pick))]
fn read_pressure(s: &[u8]) -> Result<ReplyV2, Refusal>
    ensures { result ≡ pressure_reply s.now }
{
    if buffer::is_same(s, &Pressure::UNDER_RANGE) {
        return Ok(ReplyV2::UnderRange);
    }
    if buffer::is_same(s, &Pressure::OVER_RANGE) {
        return Ok(ReplyV2::OverRange);
    }
    measured_in(decimal::read_number(s))
}

// A size in hundredths of a degree, within the limits of a temperature.
#[tactic(auto, using(readings::proofs::Laws::outside_small), unfolding(crate::specs::Value::degrees_reply, buffer::specs::First::pick))]
fn degrees_in(negative: bool, h: Option<u32>) -> Result<ReplyV2, Refusal>
    ensures { result ≡ degrees_reply negative h }
{
    match h {
        Some(size) if !Readings::is_outside(negative, size) => Ok(ReplyV2::Degrees(
            negative,
            size as u16,
        )),
        _ => Err(Refusal::Range),
    }
}

// T2.
#[tactic(auto, unfolding(crate::specs::Value::temperature_reply))]
fn temperature_in(p: Result<Number, NumberError>) -> Result<ReplyV2, Refusal>
    ensures { result ≡ temperature_reply p }
{
    let n = p?;
    degrees_in(n.negative, decimal::in_hundredths(n))
}

// FN.
#[tactic(auto, unfolding(crate::specs::Value::filament_reply, buffer::specs::First::pick))]
fn filament_in(digit: Result<u8, Refusal>) -> Result<ReplyV2, Refusal>
    ensures { result ≡ filament_reply digit }
{
    let d = digit?;
    if d < Readings::FILAMENT_MIN {
        return Err(Refusal::Range);
    }
    Ok(ReplyV2::FilamentNumber(d))
}

// FS.
#[tactic(auto, unfolding(crate::specs::Value::status_reply))]
fn status_in(digit: Result<u8, Refusal>) -> Result<ReplyV2, Refusal>
    ensures { result ≡ status_reply digit }
{
    digit.map(ReplyV2::StatusNumber)
}

// A setting, as its data are judged.
#[tactic(auto, unfolding(crate::specs::Value::held_reply))]
fn held_in(verdict: Result<Setting, Refusal>) -> Result<ReplyV2, Refusal>
    ensures { result ≡ held_reply verdict }
{
    verdict.map(ReplyV2::Holds)
}

// F and T, in any order: where one is refused, a write of them is refused with the same number.
#[tactic(auto, unfolding(crate::specs::Value::both_ends))]
fn both_ends(
    low: Result<Number, Refusal>,
    high: Result<Number, Refusal>,
) -> Result<ReplyV2, Refusal>
    ensures { result ≡ both_ends low high }
{
    match (low, high) {
        (Ok(a), Ok(b)) => Ok(ReplyV2::Holds(Setting::Switch(Transition::Between(a, b)))),
        _ => held_in(forms::judge_ends(Ends::Two(low, high))),
    }
}

// ST.
#[tactic(auto, using(forms::proofs::Told::by_name_is), unfolding(crate::specs::Value::transition_reply, crate::specs::Value::held_reply, forms::specs::Forms::transition_of))]
fn transition_in(ends: Ends) -> Result<ReplyV2, Refusal>
    ensures { result ≡ transition_reply ends }
{
    match ends {
        Ends::Two(low, high) => both_ends(low, high),
        Ends::None | Ends::One(_) => held_in(forms::judge_ends(ends)),
    }
}

// A setting's value: every setting but ST is read as a write of it.
#[tactic(auto, unfolding(crate::specs::Value::value_reply, crate::specs::Value::value_list, crate::specs::Value::setting_reply, forms::specs::Judged::list_in))]
fn read_setting(
    profile: sources::Profile,
    key: Key,
    s: &[u8],
) -> WithSources<Result<ReplyV2, Refusal>>
    ensures { Values (limits_of profile) (Command.Of key) s.now result }
{
    match key {
        Key::ST => WithSources::alone(transition_in(forms::read_ends(profile, s))),
        _ => {
            let judged = forms::judge(profile, key, s);
            WithSources {
                value: held_in(judged.value),
                sources: judged.sources,
            }
        }
    }
}

// The data of the reply to a read, from a gauge of this profile, and beside it the sources of an accepted read of SM.
#[tactic(auto, unfolding(crate::specs::Value::value_reply, crate::specs::Value::value_list))]
pub fn read_value(
    profile: sources::Profile,
    command: Command,
    s: &[u8],
) -> WithSources<Result<ReplyV2, Refusal>>
    ensures { Values (limits_of profile) command s.now result }
{
    let read = match command {
        Command::MV => read_pressure(s),
        Command::T2 => temperature_in(decimal::read_number(s)),
        Command::FN => filament_in(forms::judge_digit(s, Readings::FILAMENT_MAX)),
        Command::FS => status_in(forms::judge_digit(s, Readings::STATUS_MAX)),
        Command::Of(key) => return read_setting(profile, key, s),
    };
    WithSources::alone(read)
}
