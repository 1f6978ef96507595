#![tactic(auto)]
// The master's requests to a text gauge, written into lent memory (document 01, "The master's side").
ghost use Rattle.std.specs.Prelude.{◌≡◌, Ok, length};
ghost use Rattle.refusals.specs.Number.{refusal_number};
ghost use Rattle.buffer.specs.Answer.{Sent};
ghost use Rattle.sources.specs.Source.{list_of};
ghost use Rattle.settings.specs.Limits.{limits_of};
ghost use Rattle.request_writer.specs.Typed.{limited_number, ends_in, typed_digit, typed_address, typed_stream, judged_digit, typed_verdict, formed_v2, formed_v1};
ghost use Rattle.request_writer.specs.Written.{request_written_v2, request_written_v1};
ghost use Rattle.request_writer.specs.Inner.{once_lent};

use forms::Ends;
use refusals::Refusal;
use requests::{RequestV1, RequestV2};
use settings::{Setting, Settings, Transition};

// The lent memory that a request asks for.
pub const ROOM: usize = 109;

// ---- values

// A number of ST, judged by its value.
#[tactic(auto, unfolding(crate::specs::Typed::limited_number))]
fn limited_number(profile: sources::Profile, n: decimal::Number) -> Result<decimal::Number, Refusal>
    ensures { result ≡ limited_number (limits_of profile) n }
{
    let exact = decimal::Exact {
        negative: n.negative,
        digits: n.mantissa,
        up: n.place,
        down: 14,
    };
    forms::in_limits(profile, decimal::normal(exact))
}

// The numbers of a typed transition. The form of two numbers is one of the profile's, or none.
#[tactic(auto, unfolding(crate::specs::Typed::ends_in, buffer::specs::First::pick))]
fn ends_in(profile: sources::Profile, t: Transition) -> Ends
    ensures { result ≡ ends_in (limits_of profile) t }
{
    match t {
        Transition::Direct(n) => Ends::One(limited_number(profile, n)),
        Transition::Between(low, high) if Settings::has_between(profile) => Ends::Two(
            limited_number(profile, low),
            limited_number(profile, high),
        ),
        Transition::Between(_, _) => Ends::None,
    }
}

// A one-digit setting, up to `most`.
#[tactic(auto, unfolding(crate::specs::Typed::typed_digit, buffer::specs::First::pick))]
fn typed_digit(most: u8, d: u8) -> Result<u8, Refusal>
    ensures { result ≡ typed_digit most d }
{
    if 10 <= d {
        return Err(Refusal::Syntax);
    }
    if most < d {
        return Err(Refusal::Range);
    }
    Ok(d)
}

#[tactic(auto, unfolding(crate::specs::Typed::typed_address, buffer::specs::First::pick))]
fn typed_address(a: u8) -> Result<Setting, Refusal>
    ensures { result ≡ typed_address a }
{
    if !buffer::is_within(a, Settings::ADDRESS_MIN, Settings::ADDRESS_MAX) {
        return Err(Refusal::Range);
    }
    Ok(Setting::Address(a))
}

// SM: off and no list, or on and a list of the profile's sources, each once.
#[tactic(auto, using(settings::proofs::Laws::codes_are), unfolding(crate::specs::Typed::typed_stream, buffer::specs::First::pick))]
fn typed_stream(
    profile: sources::Profile,
    on: bool,
    q: sources::Sources,
) -> Result<Setting, Refusal>
    ensures { result ≡ typed_stream (limits_of profile) on (list_of q) }
{
    if !on && q.size() != 0 {
        return Err(Refusal::Syntax);
    }
    if !sources::all_known(profile, q) {
        return Err(Refusal::Range);
    }
    if !sources::stand_once(q) {
        return Err(Refusal::Logic);
    }
    Ok(Setting::Stream(on))
}

#[tactic(auto, unfolding(crate::specs::Typed::judged_digit))]
fn digit_verdict(x: Setting, d: Result<u8, Refusal>) -> Result<Setting, Refusal>
    ensures { result ≡ judged_digit x d }
{
    d.map(|_| x)
}

// A typed write to a gauge of this profile: the setting with its numbers canonical, or the first refusal that applies.
#[tactic(auto, using(forms::proofs::Told::by_name_is), unfolding(crate::specs::Typed::typed_verdict))]
pub fn judge_setting(
    profile: sources::Profile,
    x: Setting,
    q: sources::Sources,
) -> Result<Setting, Refusal>
    ensures { result ≡ typed_verdict (limits_of profile) x q }
{
    match x {
        Setting::Address(a) => typed_address(a),
        Setting::PressureIn(_) => Ok(x),
        Setting::Factor(h) => forms::factor_in(Some(h as u32)),
        Setting::Control(d) => digit_verdict(x, typed_digit(Settings::CONTROL_MAX, d)),
        Setting::Cathode(d) => digit_verdict(x, typed_digit(Settings::CATHODE_MAX, d)),
        Setting::Filament(d) => digit_verdict(x, typed_digit(Settings::FILAMENT_MAX, d)),
        Setting::Switch(t) => forms::judge_ends(ends_in(profile, t)),
        Setting::Stream(on) => typed_stream(profile, on, q),
    }
}

// ---- requests

// Refuses where less than 109 bytes are lent, and then where the address is outside 1 to 999.
#[tactic(auto, unfolding(crate::specs::Inner::once_lent, buffer::specs::First::pick))]
fn lent(room: usize, address: u16) -> Result<(), Refusal>
    ensures { result ≡ once_lent room address (Ok tt) }
{
    if room < ROOM {
        return Err(Refusal::Room);
    }
    if !frame_writer::is_address(address) {
        return Err(Refusal::Address);
    }
    Ok(())
}

// A typed V2 request with its numbers canonical, or the first refusal that applies.
#[tactic(auto, unfolding(crate::specs::Inner::once_lent, crate::specs::Typed::formed_v2, requests::specs::AskV2::set_of, buffer::specs::First::pick))]
fn formed_v2(
    room: usize,
    profile: sources::Profile,
    address: u16,
    request: RequestV2,
    q: sources::Sources,
) -> Result<RequestV2, Refusal>
    ensures { result ≡ once_lent room address (formed_v2 (limits_of profile) request q) }
{
    lent(room, address)?;
    match request {
        RequestV2::Restore(c) if requests::lacks_access(b'4', c) => Err(Refusal::Access),
        RequestV2::Read(_) | RequestV2::Restore(_) => Ok(request),
        RequestV2::Set(x) => judge_setting(profile, x, q).map(RequestV2::Set),
    }
}

// A typed V1 request, or the first refusal that applies.
#[tactic(auto, unfolding(crate::specs::Inner::once_lent, crate::specs::Typed::formed_v1, buffer::specs::First::pick))]
fn formed_v1(room: usize, address: u16, request: RequestV1) -> Result<RequestV1, Refusal>
    ensures { result ≡ once_lent room address (formed_v1 request) }
{
    lent(room, address)?;
    match request {
        RequestV1::SetFactor(n) if 1000000 <= n => Err(Refusal::Syntax),
        RequestV1::SetFactor(n) if !Settings::is_factor(n) => Err(Refusal::Range),
        _ => Ok(request),
    }
}

// ---- frames

fn refused(k: Refusal) -> buffer::Written
    ensures { result ≡ record { number = refusal_number k; len = 0 } }
{
    buffer::Written {
        number: k.number() as u16,
        len: 0,
    }
}

// Writes a V2 request to a gauge of this profile. Refuses with 1 where less than 109 bytes are lent, 4 where the address is outside 1 to 999, then
// with 9, 10, 11 or 12; then out stays as it was. (The list is a parameter of its own: callers have it apart, and a pair made for the call is no plainer.)
pub fn write_request_v2(
    out: &mut [u8],
    profile: sources::Profile,
    address: u16,
    request: RequestV2,
    q: sources::Sources,
) -> buffer::Written
    ensures { Sent out.old (request_written_v2 (limits_of profile) (length out.old) address request q) out.new result }
{
    match formed_v2(out.len(), profile, address, request, q) {
        Ok(r) => {
            let head = request_texts::head_for(address, r);
            frame_writer::write_text(out, head, request_texts::data_v2(r, q))
        }
        Err(k) => refused(k),
    }
}

// Writes a V1 request. Refuses as write_request_v2 does. (What the two writers share is in `lent`: a trait over both kinds of request is longer.)
pub fn write_request_v1(out: &mut [u8], address: u16, request: RequestV1) -> buffer::Written
    ensures { Sent out.old (request_written_v1 (length out.old) address request) out.new result }
{
    match formed_v1(out.len(), address, request) {
        Ok(r) => {
            let letter = request_texts::letter_v1(r);
            let head = frames::HeadV1 { address, letter };
            frame_writer::write_text(out, head, request_texts::data_v1(r))
        }
        Err(k) => refused(k),
    }
}
