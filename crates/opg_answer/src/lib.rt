#![tactic(auto)]
// The simulated OPG's answer to any bytes, written into lent memory (document 01, "OPG frames").
ghost use Rattle.std.specs.Prelude.{◌≡◌, length};
ghost use Rattle.buffer.specs.Answer.{Sent};
ghost use Rattle.opg_answer.specs.Reply.{bits_of, unit_of, answer_of, after_of};
ghost use Rattle.opg_answer.specs.Inner.{reply_bytes, sent_error, sent_reply, replied};

use buffer::{Answered, Written};
use opg_commands::Request;
use opg_frames::ErrorByte;
use opg_gauge::{Gauge, Pressure};
use opg_request_reader::Denied;

#[tactic(auto, unfolding(crate::specs::Reply::bits_of))]
fn bits(p: Pressure) -> u32
    ensures { result ≡ bits_of p }
{
    match p {
        Pressure::Bits(w) => w,
        Pressure::Unavailable => 0,
    }
}

// Writes the error reply to a request with this CMD byte.
#[tactic(auto, unfolding(crate::specs::Inner::sent_error, crate::specs::Reply::error_cmd, buffer::specs::First::pick))]
fn send_error(out: &mut [u8], cmd: u8, e: ErrorByte) -> Written
    ensures { Sent out.old (sent_error (length out.old) cmd e) out.new result }
{
    let cmd = if cmd == 3 { 4 } else { 2 };
    let bytes = [e.byte()];
    opg_frame_writer::write_reply_frame(out, e.number(), cmd, 0xffff, &bytes)
}

// The unit of a pressure's read: 0 is the master unit.
#[tactic(auto, unfolding(crate::specs::Reply::unit_of, buffer::specs::First::pick))]
fn unit_for(g: Gauge, u: u8) -> u8
    ensures { result ≡ unit_of g u }
{
    if u == 0 { g.settings.unit } else { u }
}

// The data of an accepted reply, filled up with zeros. (A fixed array, and beside it how many count: no heap.)
#[tactic(auto, unfolding(crate::specs::Inner::reply_bytes, crate::specs::Reply::reply_data))]
fn reply_bytes(g: Gauge, r: Request) -> [u8; 4]
    ensures { result ≡ reply_bytes g r }
{
    match r {
        Request::ReadPressure(u) => {
            opg_units::in_unit(unit_for(g, u), bits(g.pressure)).to_be_bytes()
        }
        Request::ReadUnit => [g.settings.unit, 0, 0, 0],
        Request::WriteUnit(_) | Request::DetectionOff | Request::DetectionOn(..) => [0; 4],
    }
}

#[tactic(auto, unfolding(crate::specs::Inner::sent_reply))]
fn send_reply(out: &mut [u8], g: Gauge, r: Request) -> Written
    ensures { Sent out.old (sent_reply (length out.old) g r) out.new result }
{
    let bytes = reply_bytes(g, r);
    let n = r.reply_count();
    opg_frame_writer::write_reply_frame(out, 20, r.reply_cmd(), r.pid(), &bytes[..n])
}

// Writes the answer to a request with this CMD byte.
#[tactic(auto, unfolding(crate::specs::Inner::replied))]
fn reply(out: &mut [u8], g: Gauge, cmd: u8, a: Result<Request, Denied>) -> Written
    ensures { Sent out.old (replied (length out.old) g cmd a) out.new result }
{
    match a {
        Ok(r) => send_reply(out, g, r),
        Err(denied) => match denied {
            Denied::Silent(refusal) => refusal.answer(),
            Denied::Error(e) => send_error(out, cmd, e),
        },
    }
}

// The answer to any bytes, whatever memory is lent.
#[tactic(auto, unfolding(crate::specs::Reply::after_of))]
pub fn answer(g: Gauge, s: &[u8], out: &mut [u8]) -> Answered<Gauge>
    ensures sent { Sent out.old (answer_of (length out.old) g s.now) out.new result.written }
    ensures gauge_value { result.gauge ≡ after_of (length out.old) g s.now }
{
    let a = g.judge(out.len(), s);
    let cmd = opg_frames::cmd_of(s);
    let written = reply(out, g, cmd, a);
    Answered {
        gauge: g.entered(a),
        written,
    }
}
