#![tactic(auto)]
// The simulated text gauge: any bytes answered in lent memory, V1 and V2 from one set of settings; its bench and its stream line.
ghost use Rattle.std.specs.Prelude.{◌≡◌, [], ◌∷◌, ◌≤◌, length, Ok, None, IfOk};
ghost use Rattle.buffer.specs.Answer.{Sent};
ghost use Rattle.refusals.specs.Number.{refusal_number, number_in};
ghost use Rattle.sources.specs.Source.{list_of, Counted};
ghost use Rattle.settings.specs.Limits.{limits_of};
ghost use Rattle.settings.specs.Settings.{held};
ghost use Rattle.frame_writer.specs.Written.{frame_v1, frame_v2};
ghost use Rattle.frame_writer.specs.Sendable.{SendableV1, SendableV2};
ghost use Rattle.buffer.specs.First.{◌⇒◌, first};
ghost use Rattle.gauge_rules.specs.State.{state_of};
ghost use Rattle.gauge_rules.specs.RulesV2.{answer_code, text_v2};
ghost use Rattle.gauge_rules_v1.specs.RulesV1.{text_v1, repeats};
ghost use Rattle.line.specs.Line.{line_answer};
ghost use Rattle.gauge_table.specs.Decided.{decided_v1, decided_v2};
ghost use Rattle.gauge_table.specs.Reply.{answer_head};
ghost use Rattle.text_gauge.specs.Answer.{Answers, Decides, Benches};
ghost use Rattle.text_gauge.specs.Inner.{Fits, with_number, DecidesV2, DecidesV1};

use buffer::{Answered, BenchAnswer, Written};
use frame_writer::ShortError;
use frames::{Frame, HeadV1, HeadV2};
use gauge_rules::Gauge;
use readings::Bench;
use refusals::Refusal;
use requests::{RequestV1, RequestV2};
use settings::Setting;
use sources::WithSources;

// What a request does: what was answered, what it changes, and whether the gauge is unlocked afterwards.
#[derive(Clone, Copy)]
pub struct Decided {
    pub written: Written,
    pub change: WithSources<Option<Setting>>,
    pub unlocked: bool,
}

// The lent memory that an answer asks for.
pub const ROOM: usize = 64;

// ---- replies

// Writes the error frame that answers a request with this head.
fn refuse<H: ShortError>(out: &mut [u8], head: H, refusal: Refusal) -> Written
    ensures { Sent out.old (with_number (refusal_number refusal) (H.written (length out.old) (H.error_head (refusal_number refusal) head) (H.error_data (refusal_number refusal)))) out.new result }
{
    let number = refusal.number();
    Written {
        number: number as u16,
        ..frame_writer::write_short_error(out, head, number)
    }
}

// Writes the reply to an accepted V2 request. (V1's below may repeat the request instead: what the two share is `frame_writer::write_text`.)
fn reply_v2(g: Gauge, head: HeadV2, request: RequestV2, out: &mut [u8]) -> Written
    requires fits { Fits (SendableV2 head []) out.old }
    requires address_value { head.address ≡ g.settings.address }
    ensures { Sent out.old (record { number = 0; reply = frame_v2 (answer_head head (answer_code request)) (text_v2 (state_of g) request) }) out.new result }
{
    // "A DA write or restore is answered from the old address."
    let answer = HeadV2 {
        address: g.settings.address as u16,
        access: gauge_rules::answer_code(request),
        ..head
    };
    frame_writer::write_text(out, answer, gauge_rules::text_v2(g, request))
}

// Writes the request again.
fn repeat(out: &mut [u8], request: &[u8]) -> Written
    requires { length request.now ≤ length out.old }
    ensures { Sent out.old (record { number = 0; reply = request.now }) out.new result }
{
    buffer::put(out, 0, request);
    Written {
        number: 0,
        len: request.len(),
    }
}

// Writes the reply to an accepted V1 request.
fn reply_v1(g: Gauge, request: &[u8], head: HeadV1, asks: RequestV1, out: &mut [u8]) -> Written
    requires fits { Fits (SendableV1 head []) out.old }
    requires request_len_bound { length request.now ≤ 12 }
    ensures { Sent out.old (record { number = 0; reply = first (repeats asks ⇒ request.now ∷ []) (frame_v1 head (text_v1 (state_of g) asks)) }) out.new result }
{
    if gauge_rules_v1::repeats_request(asks) {
        return repeat(out, request);
    }
    frame_writer::write_text(out, head, gauge_rules_v1::text_v1(g, asks))
}

// ---- requests

// Nothing changes but, where it is said so, the unlock.
#[tactic(auto, unfolding(sources::specs::Source::list_of, sources::specs::Source::Counted))]
fn same(unlocked: bool, written: Written) -> Decided
    ensures put_value { (result.change.value ≡ None) × (result.unlocked ≡ unlocked) × (result.written ≡ written) }
    ensures counted { Counted result.change.sources }
{
    Decided {
        written,
        change: WithSources::alone(None),
        unlocked,
    }
}

// What a V2 request asks, where the gauge's state allows it.
#[tactic(auto, unfolding(gauge_table::specs::Decided::decided_v2))]
fn granted_v2(g: Gauge, asked: Result<RequestV2, Refusal>) -> Result<RequestV2, Refusal>
    ensures number { number_in result ≡ decided_v2 (state_of g) asked }
    ensures ok { IfOk result (λ request. asked ≡ Ok request) }
{
    let request = asked?;
    gauge_rules::grant_v2(g, request)?;
    Ok(request)
}

// A V2 request to this gauge's address, and the sources beside it.
fn decide_v2(
    g: Gauge,
    head: HeadV2,
    asked: WithSources<Result<RequestV2, Refusal>>,
    out: &mut [u8],
) -> Decided
    requires fits { Fits (SendableV2 head []) out.old }
    requires address_value { head.address ≡ g.settings.address }
    ensures decides_v2 { DecidesV2 (state_of g) head asked.value (list_of asked.sources) out.old out.new result }
    ensures counted { Counted asked.sources → Counted result.change.sources }
{
    match granted_v2(g, asked.value) {
        Err(k) => same(g.unlocked, refuse(out, head, k)),
        Ok(request) => Decided {
            written: reply_v2(g, head, request, out),
            change: gauge_rules::change_v2(g.profile, request, asked.sources),
            unlocked: g.unlocked,
        },
    }
}

// What a V1 request asks, where the gauge's state allows it.
#[tactic(auto, unfolding(gauge_table::specs::Decided::decided_v1))]
fn granted_v1(g: Gauge, asked: Result<RequestV1, Refusal>) -> Result<RequestV1, Refusal>
    ensures number { number_in result ≡ decided_v1 (state_of g) asked }
    ensures ok { IfOk result (λ request. asked ≡ Ok request) }
{
    let request = asked?;
    gauge_rules_v1::grant_v1(g, request)?;
    Ok(request)
}

// A V1 request. It ends the unlock, unless it is an accepted unlock.
fn decide_v1(
    g: Gauge,
    request: &[u8],
    head: HeadV1,
    asked: Result<RequestV1, Refusal>,
    out: &mut [u8],
) -> Decided
    requires fits { Fits (SendableV1 head []) out.old }
    requires request_len_bound { length request.now ≤ 12 }
    ensures decides_v1 { DecidesV1 (state_of g) request.now head asked out.old out.new result }
    ensures counted { Counted result.change.sources }
{
    match granted_v1(g, asked) {
        Err(k) => same(false, refuse(out, head, k)),
        Ok(asks) => Decided {
            written: reply_v1(g, request, head, asks, out),
            change: WithSources::alone(gauge_rules_v1::put_v1(g, asks)),
            unlocked: gauge_rules_v1::unlocks_gauge(asks),
        },
    }
}

// Neither a reply nor a change.
fn silent(g: Gauge, refusal: Refusal) -> Decided
    ensures put_value { (result.change.value ≡ None) × (result.unlocked ≡ g.unlocked) × (result.written ≡ record { number = refusal_number refusal; len = 0 }) }
    ensures counted { Counted result.change.sources }
{
    same(
        g.unlocked,
        Written {
            number: refusal.number() as u16,
            len: 0,
        },
    )
}

// Answers any bytes, in any memory lent, and says what they change. So the gauge goes into the code that makes the reply, and only a change
// comes out of it.
pub fn decide(g: Gauge, request: &[u8], out: &mut [u8]) -> Decided
    ensures decides { Decides (state_of g) request.now out.old out.new result }
    ensures counted { Counted result.change.sources }
{
    if out.len() < ROOM {
        return silent(g, Refusal::Room);
    }
    let address = g.settings.address as u16;
    match frames::read_frame(request) {
        Err(k) => silent(g, k),
        Ok(Frame::V1(head)) => {
            if head.address != address {
                return silent(g, Refusal::Other);
            }
            let asked = requests::read_v1(head.letter, frames::data_v1(request));
            decide_v1(g, request, head, asked, out)
        }
        Ok(Frame::Length(head)) => {
            if head.address != address {
                return silent(g, Refusal::Other);
            }
            same(g.unlocked, refuse(out, head, Refusal::Length))
        }
        Ok(Frame::V2(head)) => {
            if head.address != address {
                return silent(g, Refusal::Other);
            }
            let asked = requests::read_v2(g.profile, head, frames::data_v2(request));
            decide_v2(g, head, asked, out)
        }
    }
}

// Answers any bytes, in any memory lent.
pub fn answer(g: Gauge, request: &[u8], out: &mut [u8]) -> Answered<Gauge>
    ensures answers { Answers (state_of g) request.now out.old out.new result }
    ensures counted { Counted g.settings.sources → Counted result.gauge.settings.sources }
{
    let d = decide(g, request, out);
    let settings = g.settings.changed(d.change);
    Answered {
        gauge: g.with_settings(settings).with_unlock(d.unlocked),
        written: d.written,
    }
}

// ---- the bench and the stream line

// Sets a reading of the profile's sources or FS, or refuses with 15 and changes nothing.
#[tactic(auto, unfolding(gauge_table::specs::After::benched))]
pub fn set_bench(g: Gauge, b: Bench) -> BenchAnswer<Gauge>
    ensures benches { Benches (state_of g) b result }
    ensures counted { Counted g.settings.sources → Counted result.gauge.settings.sources }
{
    match gauge_rules::judge_bench(g.profile, b) {
        None => BenchAnswer {
            gauge: g,
            number: Refusal::Bench.number() as u16,
        },
        Some(x) => BenchAnswer {
            gauge: g.with_readings(g.readings.with(x)),
            number: 0,
        },
    }
}

// Writes the stream line. The gauge stays as it is.
pub fn stream_line(g: Gauge, out: &mut [u8]) -> Written
    ensures { Sent out.old (line_answer (limits_of g.profile) (length out.old) (held g.settings) g.readings) out.new result }
{
    line::stream_line(g.profile, g.settings, g.readings, out)
}
