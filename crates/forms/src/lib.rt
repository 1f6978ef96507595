#![tactic(auto)]
// The data of the settings (document 01, "Settings and readings, V2", the column "Data"), judged for slices of any length and
// apart from frames.
ghost use Rattle.std.specs.Prelude.{◌≡◌, eqb, min};
ghost use Rattle.buffer.specs.Byte.{within};
ghost use Rattle.decimal.specs.Form.{number_of};
ghost use Rattle.settings.specs.Limits.{standard, limits_of};
ghost use Rattle.settings.specs.declared.Key.{Key};
ghost use Rattle.refusals.specs.Number.{number_in, refusal_number};
ghost use Rattle.refusals.specs.declared.Refusal.{Refusal};
ghost use Rattle.forms.specs.Forms.{address_data, unit_data, factor_in, factor_of, digit_data, limited_of, earlier, ends_of, transition_data, idle_list, known_mode};
ghost use Rattle.forms.specs.Told.{by_name, between_by, transition_by};
ghost use Rattle.forms.specs.Judged.{Judges};
ghost use Rattle.forms.specs.Inner.{StreamRead};

use decimal::{Number, NumberError};
use refusals::Refusal;
use settings::{Key, PressureUnit, Setting, Settings, Transition};
use sources::{Profile, Sources, WithSources};

// The numbers of ST's data: neither form, one number, or two. (Three cases, so no Option.) A number may be refused, by name or, as `Ends<u8>`, with any number.
#[derive(Clone, Copy)]
pub enum Ends<E = Refusal> {
    None,
    One(Result<Number, E>),
    Two(Result<Number, E>, Result<Number, E>),
}

// What tells a refusal: its name, or document 01's number.
pub trait TellsRefusal: Copy {
    // how a refusal of document 01 is told
    ghost told: { Refusal → Self };

    // which of two refusals is told
    ghost of_two: { Self → Self → Self };

    fn told(k: Refusal) -> Self
        ensures { result ≡ told k };

    fn of_two(self, other: Self) -> Self
        ensures { result ≡ of_two self other };
}

// By its name; of two the one with the lesser number.
#[tactic(auto, unfolding(crate::specs::Told::by_name))]
impl TellsRefusal for Refusal {
    ghost told = { by_name };

    ghost of_two = { earlier };

    fn told(k: Refusal) -> Refusal {
        k
    }

    fn of_two(self, other: Refusal) -> Refusal {
        earlier(self, other)
    }
}

// By its number; of two the lesser one.
impl TellsRefusal for u8 {
    ghost told = { refusal_number };

    ghost of_two = { min };

    fn told(k: Refusal) -> u8 {
        k.number()
    }

    fn of_two(self, other: u8) -> u8 {
        if self < other { self } else { other }
    }
}

// Whether an address lies within its limits.
#[tactic(auto, unfolding(buffer::specs::Byte::within))]
fn is_address(n: u32) -> bool
    ensures { result ≡ within standard.address_low standard.address_high n }
{
    (u32::from(Settings::ADDRESS_MIN)..=u32::from(Settings::ADDRESS_MAX)).contains(&n)
}

// DA.
#[tactic(auto, unfolding(crate::specs::Forms::address_data, buffer::specs::First::pick))]
pub fn judge_address(s: &[u8]) -> Result<Setting, Refusal>
    ensures { result ≡ address_data s.now }
{
    if s.len() != 3 || !buffer::all_within(s, b'0', b'9') {
        return Err(Refusal::Syntax);
    }
    let n = buffer::numeral_of(s);
    if !is_address(n) {
        return Err(Refusal::Range);
    }
    Ok(Setting::Address(n as u8))
}

// DU. (No `match` on the texts: its proof would go byte by byte.)
#[tactic(auto, unfolding(crate::specs::Forms::unit_data, settings::specs::Sent::unit_text, buffer::specs::First::pick))]
pub fn judge_unit(s: &[u8]) -> Result<Setting, Refusal>
    ensures { result ≡ unit_data s.now }
{
    if buffer::is_same(s, b"mbar") {
        return Ok(Setting::PressureIn(PressureUnit::Mbar));
    }
    if buffer::is_same(s, b"Torr") {
        return Ok(Setting::PressureIn(PressureUnit::Torr));
    }
    if buffer::is_same(s, b"hPa") {
        return Ok(Setting::PressureIn(PressureUnit::HPa));
    }
    Err(Refusal::Syntax)
}

// Hundredths as a factor, within its limits.
#[tactic(auto, using(settings::proofs::Laws::factor_small), unfolding(crate::specs::Forms::factor_in))]
pub fn factor_in(h: Option<u32>) -> Result<Setting, Refusal>
    ensures { result ≡ factor_in h }
{
    match h {
        Some(n) if Settings::is_factor(n) => Ok(Setting::Factor(n as u16)),
        _ => Err(Refusal::Range),
    }
}

// C1.
#[tactic(auto, unfolding(crate::specs::Forms::factor_of, buffer::specs::First::pick))]
pub fn judge_factor(s: &[u8]) -> Result<Setting, Refusal>
    ensures { result ≡ factor_of (number_of s.now) }
{
    let n = decimal::read_number(s)?;
    if n.negative {
        return Err(Refusal::Range);
    }
    factor_in(decimal::in_hundredths(n))
}

// One digit up to `most`.
#[tactic(auto, unfolding(crate::specs::Forms::digit_data, buffer::specs::Byte::within, buffer::specs::First::pick))]
pub fn judge_digit(s: &[u8], most: u8) -> Result<u8, Refusal>
    ensures { result ≡ digit_data most s.now }
{
    match s {
        [b @ b'0'..=b'9'] => {
            let d = b - b'0';
            if most < d {
                return Err(Refusal::Range);
            }
            Ok(d)
        }
        _ => Err(Refusal::Syntax),
    }
}

// A number of ST, within the limits of the profile.
#[tactic(auto, unfolding(crate::specs::Forms::limited_of, buffer::specs::First::pick))]
pub fn in_limits(profile: Profile, p: Result<Number, NumberError>) -> Result<Number, Refusal>
    ensures { result ≡ limited_of (limits_of profile) p }
{
    let n = p?;
    if n.is_below(Settings::transition_min(profile)) {
        return Err(Refusal::Range);
    }
    if Settings::transition_max(profile).is_below(n) {
        return Err(Refusal::Range);
    }
    Ok(n)
}

// The refusal with the lesser number.
#[tactic(auto, unfolding(crate::specs::Forms::earlier, buffer::specs::First::pick))]
fn earlier(j: Refusal, k: Refusal) -> Refusal
    ensures { result ≡ earlier j k }
{
    if j.number() < k.number() { j } else { k }
}

// F and T: the first refusal of either, and then F below T.
#[tactic(auto, unfolding(crate::specs::Told::between_by, buffer::specs::First::pick))]
fn between<E: TellsRefusal>(low: Result<Number, E>, high: Result<Number, E>) -> Result<Setting, E>
    ensures { result ≡ between_by E.told E.of_two low high }
{
    match (low, high) {
        (Ok(a), Ok(b)) => {
            if !a.is_below(b) {
                return Err(E::told(Refusal::Logic));
            }
            Ok(Setting::Switch(Transition::Between(a, b)))
        }
        (Ok(_), Err(k)) | (Err(k), Ok(_)) => Err(k),
        (Err(j), Err(k)) => Err(j.of_two(k)),
    }
}

// The numbers of ST's data. The form with F is one of the profile's, or none.
#[tactic(auto, unfolding(crate::specs::Forms::ends_of, buffer::specs::First::pick))]
pub fn read_ends(profile: Profile, s: &[u8]) -> Ends
    ensures { result ≡ ends_of (limits_of profile) s.now }
{
    let t = buffer::rest(s, 1);
    if buffer::starts_with(s, b'D') {
        return Ends::One(in_limits(profile, decimal::read_number(t)));
    }
    if !buffer::starts_with(s, b'F') || !Settings::has_between(profile) {
        return Ends::None;
    }
    let k = buffer::until(t, b'T');
    if t.len() <= k {
        return Ends::None;
    }
    Ends::Two(
        in_limits(profile, decimal::read_number(&t[..k])),
        in_limits(profile, decimal::read_number(buffer::rest(t, k + 1))),
    )
}

// The numbers of ST as a setting. It is refused as its numbers are, by name or with a number.
#[tactic(auto, unfolding(crate::specs::Told::transition_by, crate::specs::Told::direct_by))]
pub fn judge_ends<E: TellsRefusal>(ends: Ends<E>) -> Result<Setting, E>
    ensures { result ≡ transition_by E.told E.of_two ends }
{
    match ends {
        Ends::None => Err(E::told(Refusal::Syntax)),
        Ends::One(n) => Ok(Setting::Switch(Transition::Direct(n?))),
        Ends::Two(low, high) => between(low, high),
    }
}

// ST.
#[tactic(auto, using(crate::proofs::Told::by_name_is), unfolding(crate::specs::Forms::transition_data))]
pub fn judge_transition(profile: Profile, s: &[u8]) -> Result<Setting, Refusal>
    ensures { result ≡ transition_data (limits_of profile) s.now }
{
    judge_ends(read_ends(profile, s))
}

// Whether the mode is 0 and a list follows.
#[tactic(auto, unfolding(crate::specs::Forms::idle_list))]
fn has_idle_list(s: &[u8]) -> bool
    ensures { result ≡ idle_list s.now }
{
    buffer::starts_with(s, b'0') && 2 <= s.len()
}

// Whether the mode is 0 or 4.
#[tactic(auto, unfolding(crate::specs::Forms::known_mode))]
fn has_mode(s: &[u8]) -> bool
    ensures { result ≡ known_mode s.now }
{
    buffer::starts_with(s, b'0') || buffer::starts_with(s, b'4')
}

// Whether a text of entries is not of the form.
fn is_malformed(listed: Result<Sources, Refusal>) -> bool
    ensures { result ≡ eqb (number_in listed) 10 }
{
    matches!(listed, Err(Refusal::Syntax))
}

// SM: whether lines are sent, and the sources that are listed.
#[tactic(auto, unfolding(crate::specs::Forms::stream_data, crate::specs::Forms::stream_of, buffer::specs::First::pick))]
fn read_stream(profile: Profile, s: &[u8]) -> Result<(bool, Sources), Refusal>
    ensures { StreamRead (limits_of profile) s.now result }
{
    let listed = sources::read_entries(profile, buffer::rest(s, 1));
    if buffer::count_digits(s) == 0 || is_malformed(listed) || has_idle_list(s) {
        return Err(Refusal::Syntax);
    }
    if !has_mode(s) {
        return Err(Refusal::Range);
    }
    let list = listed?;
    Ok((buffer::starts_with(s, b'4'), list))
}

// SM. The list is never filled past its end, whatever the text.
#[tactic(auto, unfolding(crate::specs::Judged::verdict_of, crate::specs::Judged::list_in, crate::specs::Judged::if_set))]
pub fn judge_stream(profile: Profile, s: &[u8]) -> WithSources<Result<Setting, Refusal>>
    ensures { Judges (limits_of profile) Key.SM s.now result }
{
    match read_stream(profile, s) {
        Ok((on, list)) => WithSources {
            value: Ok(Setting::Stream(on)),
            sources: list,
        },
        Err(k) => WithSources::alone(Err(k)),
    }
}

// The data of a write to one setting of a gauge of this profile, and the sources that an accepted write of SM lists.
#[tactic(auto, unfolding(crate::specs::Judged::verdict_of, crate::specs::Judged::list_in, crate::specs::Forms::digit_of))]
pub fn judge(profile: Profile, key: Key, s: &[u8]) -> WithSources<Result<Setting, Refusal>>
    ensures { Judges (limits_of profile) key s.now result }
{
    let verdict = match key {
        Key::DA => judge_address(s),
        Key::DU => judge_unit(s),
        Key::C1 => judge_factor(s),
        Key::CM => judge_digit(s, Settings::CONTROL_MAX).map(Setting::Control),
        Key::CC => judge_digit(s, Settings::CATHODE_MAX).map(Setting::Cathode),
        Key::FC => judge_digit(s, Settings::FILAMENT_MAX).map(Setting::Filament),
        Key::ST => judge_transition(profile, s),
        Key::SM => return judge_stream(profile, s),
    };
    WithSources::alone(verdict)
}
