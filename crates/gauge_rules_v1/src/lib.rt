#![tactic(auto)]
// The rules by which typed V1 requests are decided, with what they change (document 01, "V1 on the same settings").
ghost use Rattle.std.specs.Prelude.{◌≡◌, List, [], ◌∷◌, ℕ, eqb};
ghost use Rattle.buffer.specs.First.{◌⇒◌, first};
ghost use Rattle.buffer.specs.Text.{text_of};
ghost use Rattle.refusals.specs.Number.{number_in};
ghost use Rattle.sources.specs.Source.{Counted};
ghost use Rattle.settings.specs.Settings.{Held, held, put_of, changed_by};
ghost use Rattle.settings.specs.declared.Setting.{Setting};
ghost use Rattle.gauge_rules.specs.State.{state_of};
ghost use Rattle.gauge_rules_v1.specs.RulesV1.{factor_number, grant_v1, text_v1, repeats, unlocks, settings_v1};

use gauge_rules::Gauge;
use refusals::Refusal;
use requests::RequestV1;
use settings::{Setting, Settings};
use sources::WithSources;

// Whether a `c` with six digits is accepted: LOGIC, RANGE or neither.
#[tactic(auto, unfolding(crate::specs::RulesV1::factor_number, buffer::specs::First::pick))]
fn grant_factor(unlocked: bool, n: u32) -> Result<(), Refusal>
    ensures { number_in result ≡ factor_number unlocked n }
{
    if !unlocked {
        return Err(Refusal::Logic);
    }
    if !Settings::is_factor(n) {
        return Err(Refusal::Range);
    }
    Ok(())
}

// Whether a V1 request is accepted: RANGE, LOGIC, FAULT or neither.
#[tactic(auto, unfolding(crate::specs::RulesV1::grant_v1, buffer::specs::First::pick))]
pub fn grant_v1(g: Gauge, request: RequestV1) -> Result<(), Refusal>
    ensures { number_in result ≡ grant_v1 (state_of g) request }
{
    match request {
        RequestV1::Measure if readings::is_faulty_pressure(g.readings.p0) => Err(Refusal::Fault),
        RequestV1::SetFactor(n) => grant_factor(g.unlocked, n),
        RequestV1::Measure
        | RequestV1::ReadFactor
        | RequestV1::Unlock
        | RequestV1::ReadUnit
        | RequestV1::SetUnit(_) => Ok(()),
    }
}

// The data of the reply to an accepted V1 request that reads.
#[tactic(auto, unfolding(crate::specs::RulesV1::text_v1, buffer::specs::Text::text_of))]
pub fn text_v1(g: Gauge, request: RequestV1) -> buffer::Text
    ensures { text_of result ≡ text_v1 (state_of g) request }
{
    match request {
        RequestV1::Measure => readings::measure_text(g.readings.p0),
        RequestV1::ReadFactor => request_texts::six_digits(g.settings.factor as u32),
        RequestV1::ReadUnit => request_texts::six_digits(settings::unit_number(g.settings.unit)),
        RequestV1::SetFactor(_) | RequestV1::SetUnit(_) | RequestV1::Unlock => buffer::Text::EMPTY,
    }
}

// Whether the reply repeats the request.
#[tactic(auto, unfolding(crate::specs::RulesV1::repeats))]
pub fn repeats_request(request: RequestV1) -> bool
    ensures { result ≡ repeats request }
{
    matches!(
        request,
        RequestV1::Unlock | RequestV1::SetFactor(_) | RequestV1::SetUnit(_)
    )
}

// Whether an accepted request unlocks.
#[tactic(auto, unfolding(crate::specs::RulesV1::unlocks))]
pub fn unlocks_gauge(request: RequestV1) -> bool
    ensures { result ≡ unlocks request }
{
    matches!(request, RequestV1::Unlock)
}

// What a `c` with six digits puts.
#[tactic(auto, unfolding(settings::specs::Settings::put_of, settings::specs::Settings::changed_by, buffer::specs::First::pick))]
fn put_factor(unlocked: bool, n: u32) -> Option<Setting>
    ensures { (h : Held) (list : List ℕ) → changed_by h result list ≡ first (eqb (factor_number unlocked n) 0 ⇒ put_of h (Setting.Factor n) [] ∷ []) h }
{
    match grant_factor(unlocked, n) {
        Ok(()) => Some(Setting::Factor(n as u16)),
        Err(_) => None,
    }
}

// What a V1 request puts. A refused one puts nothing.
#[tactic(auto, unfolding(crate::specs::RulesV1::settings_v1, crate::specs::RulesV1::grant_v1, crate::specs::RulesV1::enter_v1, settings::specs::Settings::put_of, settings::specs::Settings::changed_by, buffer::specs::First::pick))]
pub fn put_v1(g: Gauge, request: RequestV1) -> Option<Setting>
    ensures { (list : List ℕ) → changed_by (held g.settings) result list ≡ settings_v1 (state_of g) request }
{
    match request {
        RequestV1::SetFactor(n) => put_factor(g.unlocked, n),
        RequestV1::SetUnit(unit) => Some(Setting::PressureIn(unit)),
        RequestV1::Measure | RequestV1::ReadFactor | RequestV1::ReadUnit | RequestV1::Unlock =>
            None,
    }
}

// The settings after a V1 request: an accepted one enters, a refused one changes nothing.
#[tactic(auto, unfolding(sources::specs::Source::list_of, sources::specs::Source::Counted))]
pub fn enter_v1(g: Gauge, request: RequestV1) -> Settings
    ensures result_value { held result ≡ settings_v1 (state_of g) request }
    ensures counted { Counted g.settings.sources → Counted result.sources }
{
    g.settings.changed(WithSources::alone(put_v1(g, request)))
}
