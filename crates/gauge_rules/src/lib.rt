#![tactic(auto)]
// The text gauge's state and its bench, and the rules by which typed V2 requests are decided, with what they change (document 01, "Settings and
// readings, V2").
ghost use Rattle.std.specs.Prelude.{◌≡◌, ◌&&◌, eqb};
ghost use Rattle.buffer.specs.Text.{text_of};
ghost use Rattle.sources.specs.Source.{list_of, Counted};
ghost use Rattle.settings.specs.Limits.{limits_of};
ghost use Rattle.settings.specs.Settings.{Held, held, changed_by};
ghost use Rattle.refusals.specs.Number.{number_in};
ghost use Rattle.gauge_rules.specs.State.{state_of, settled, measured, unlocked_as, fresh};
ghost use Rattle.readings.specs.There.{names};
ghost use Rattle.gauge_rules.specs.BenchIn.{lacked, bench_in};
ghost use Rattle.gauge_rules.specs.RulesV2.{filament_of, changes_cathode, reads_faulty, grant_v2, sent_text, text_v2, answer_code, enter_v2};

use readings::{Bench, Reading, Readings};
use refusals::Refusal;
use requests::{Command, RequestV2};
use settings::{Key, Setting, Settings};
use sources::{Profile, Sources, WithSources};

// A gauge: its profile, which no call changes, its settings, its readings with FS, and whether it is unlocked.
#[derive(Clone, Copy)]
pub struct Gauge {
    pub profile: Profile,
    pub settings: Settings,
    pub readings: Readings,
    pub unlocked: bool,
}

impl Gauge {
    // A gauge of this profile, at factory settings and the bench's start, locked.
    pub fn at_start(profile: Profile) -> Gauge
        ensures result_value { (state_of result ≡ fresh (limits_of profile)) × (result.profile ≡ profile) }
        ensures counted { Counted result.settings.sources }
    {
        Gauge {
            profile,
            settings: Settings::at_factory(profile),
            readings: Readings::at_start(),
            unlocked: false,
        }
    }

    // The gauge with these settings, and nothing else changed.
    pub fn with_settings(self, settings: Settings) -> Gauge
        ensures result_value { state_of result ≡ settled (state_of self) (held settings) }
        ensures settings_value { (result.settings ≡ settings) × (result.profile ≡ self.profile) }
    {
        Gauge { settings, ..self }
    }

    // The gauge with these readings, and nothing else changed.
    pub fn with_readings(self, readings: Readings) -> Gauge
        ensures result_value { state_of result ≡ measured (state_of self) readings }
        ensures settings_value { (result.settings ≡ self.settings) × (result.profile ≡ self.profile) }
    {
        Gauge { readings, ..self }
    }

    // The gauge unlocked or locked, and nothing else changed.
    pub fn with_unlock(self, unlocked: bool) -> Gauge
        ensures result_value { state_of result ≡ unlocked_as (state_of self) unlocked }
        ensures settings_value { (result.settings ≡ self.settings) × (result.profile ≡ self.profile) }
    {
        Gauge { unlocked, ..self }
    }
}

// ---- V2

// FN, from FC and FS.
#[tactic(auto, unfolding(crate::specs::RulesV2::filament_of, buffer::specs::First::pick))]
pub fn filament_number(filament: u8, status: u8) -> u8
    ensures { result ≡ filament_of filament status }
{
    if buffer::is_within(filament, 1, 2) {
        return filament;
    }
    if status == 1 || status == 3 { 2 } else { 1 }
}

// Whether a request writes or restores CC.
#[tactic(auto, unfolding(crate::specs::RulesV2::changes_cathode))]
fn changes_cathode(request: RequestV2) -> bool
    ensures { result ≡ changes_cathode request }
{
    matches!(
        request,
        RequestV2::Set(Setting::Cathode(_)) | RequestV2::Restore(Command::Of(Key::CC))
    )
}

// Whether a request breaks the rule between CC and CM.
fn breaks_rule(control: u8, request: RequestV2) -> bool
    ensures { result ≡ (changes_cathode request && eqb control 1) }
{
    changes_cathode(request) && control == 1
}

// Whether a request reads a sensor that is faulty.
#[tactic(auto, unfolding(crate::specs::RulesV2::reads_faulty))]
fn reads_faulty(r: Readings, request: RequestV2) -> bool
    ensures { result ≡ reads_faulty r request }
{
    match request {
        RequestV2::Read(Command::MV) => readings::is_faulty_pressure(r.p0),
        RequestV2::Read(Command::T2) => readings::is_faulty_temperature(r.t2),
        _ => false,
    }
}

// Whether a V2 request is accepted: LOGIC, FAULT or neither.
#[tactic(auto, unfolding(crate::specs::RulesV2::grant_v2, buffer::specs::First::pick))]
pub fn grant_v2(g: Gauge, request: RequestV2) -> Result<(), Refusal>
    ensures { number_in result ≡ grant_v2 (state_of g) request }
{
    if breaks_rule(g.settings.control, request) {
        return Err(Refusal::Logic);
    }
    if reads_faulty(g.readings, request) {
        return Err(Refusal::Fault);
    }
    Ok(())
}

// The text that a read of a command sends.
#[tactic(auto, unfolding(crate::specs::RulesV2::sent_text))]
fn sent_text(g: Gauge, command: Command) -> buffer::Text
    ensures { text_of result ≡ sent_text (state_of g) command }
{
    let r = g.readings;
    match command {
        Command::MV => readings::pressure_text(r.p0),
        Command::T2 => readings::temperature_text(r.t2),
        Command::FN => settings::digit_text(filament_number(g.settings.filament, r.status)),
        Command::FS => settings::digit_text(r.status),
        Command::Of(key) => g.settings.text(key),
    }
}

// The data of the reply to an accepted V2 request.
#[tactic(auto, unfolding(crate::specs::RulesV2::text_v2, buffer::specs::Text::text_of))]
pub fn text_v2(g: Gauge, request: RequestV2) -> buffer::Text
    ensures { text_of result ≡ text_v2 (state_of g) request }
{
    match request {
        RequestV2::Read(command) => sent_text(g, command),
        RequestV2::Restore(_) | RequestV2::Set(_) => buffer::Text::EMPTY,
    }
}

// The access code of the reply to an accepted V2 request.
#[tactic(auto, unfolding(crate::specs::RulesV2::answer_code))]
pub fn answer_code(request: RequestV2) -> u8
    ensures { result ≡ answer_code request }
{
    match request {
        RequestV2::Read(_) => b'1',
        RequestV2::Set(_) => b'3',
        RequestV2::Restore(_) => b'5',
    }
}

// What an accepted V2 request changes at a gauge of this profile.
#[tactic(auto, unfolding(crate::specs::RulesV2::enter_v2, settings::specs::Settings::changed_by, settings::specs::Settings::restore_of, sources::specs::Source::list_of, sources::specs::Source::Counted))]
pub fn change_v2(
    profile: Profile,
    request: RequestV2,
    list: Sources,
) -> WithSources<Option<Setting>>
    ensures sources_value { (h : Held) → changed_by h result.value (list_of result.sources) ≡ enter_v2 (limits_of profile) h request (list_of list) }
    ensures counted { Counted list → Counted result.sources }
{
    match request {
        RequestV2::Restore(Command::Of(key)) => {
            WithSources::alone(Some(Settings::factory_value(profile, key)))
        }
        RequestV2::Read(_) | RequestV2::Restore(_) => WithSources::alone(None),
        RequestV2::Set(setting) => WithSources {
            value: Some(setting),
            sources: list,
        },
    }
}

// The settings after an accepted V2 request.
pub fn enter_v2(profile: Profile, s: Settings, request: RequestV2, list: Sources) -> Settings
    ensures result_value { held result ≡ enter_v2 (limits_of profile) (held s) request (list_of list) }
    ensures counted { Counted s.sources → Counted list → Counted result.sources }
{
    s.changed(change_v2(profile, request, list))
}

// ---- the bench

// Whether a bench setting names a source that the profile lacks. FS is no source.
#[tactic(auto, using(settings::proofs::Laws::codes_are), unfolding(crate::specs::BenchIn::lacked, readings::specs::There::names))]
fn names_lacked(profile: Profile, b: Bench) -> bool
    ensures { result ≡ lacked (limits_of profile) (names b) }
{
    match b {
        Bench::Reads(code, _)
        | Bench::UnderRange(code)
        | Bench::OverRange(code)
        | Bench::Faulty(code) => !sources::offers(profile, code),
        Bench::Status(_) => false,
    }
}

// A bench setting of a gauge of this profile, as a reading, or refused.
#[tactic(auto, unfolding(crate::specs::BenchIn::bench_in, buffer::specs::First::pick))]
pub fn judge_bench(profile: Profile, b: Bench) -> Option<Reading>
    ensures { result ≡ bench_in (limits_of profile) b }
{
    if names_lacked(profile, b) {
        return None;
    }
    readings::judge_bench(b)
}
