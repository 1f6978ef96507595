#![tactic(auto)]
// Replies of an OPG as the master reads them (document 01, "The master's side").
ghost use Rattle.std.specs.Prelude.{◌≡◌};
ghost use Rattle.opg_replies.specs.Reply.{is_error, other_reply, needed_of, wrong_count, reply_value, read_of};

use opg_commands::{Request, Settings};
use opg_frames::Refusal;

// A decoded reply: a pressure, a unit, a done or an error.
#[derive(Clone, Copy)]
pub enum Reply {
    Pressure(f32),
    Unit(u8),
    Done,
    // any byte: a gauge may send one that no list has
    Error(u8),
}

#[tactic(auto, unfolding(crate::specs::Reply::is_error))]
fn is_error(s: &[u8]) -> bool
    ensures { result ≡ is_error s.now }
{
    opg_frames::pid_of(s) == 0xffff
}

// Whether CMD, IDX or PID are not those of a reply to the request.
#[tactic(auto, unfolding(crate::specs::Reply::other_reply))]
fn is_other_reply(r: Request, s: &[u8]) -> bool
    ensures { result ≡ other_reply r s.now }
{
    opg_frames::cmd_of(s) != r.reply_cmd()
        || opg_frames::is_indexed(s)
        || !is_error(s) && opg_frames::pid_of(s) != r.pid()
}

// How many data bytes the reply has to have.
#[tactic(auto, unfolding(crate::specs::Reply::needed_of, buffer::specs::First::pick))]
fn needed(r: Request, s: &[u8]) -> usize
    ensures { result ≡ needed_of r s.now }
{
    if is_error(s) { 1 } else { r.reply_count() }
}

#[tactic(auto, unfolding(crate::specs::Reply::wrong_count))]
fn has_wrong_count(r: Request, s: &[u8]) -> bool
    ensures { result ≡ wrong_count r s.now }
{
    opg_frames::count_of(s) != needed(r, s)
}

// The value that answers a request.
#[tactic(auto, using(opg_units::proofs::Laws::bits_no_nan), unfolding(crate::specs::Reply::reply_value, buffer::specs::First::pick))]
fn read_value(r: Request, s: &[u8]) -> Result<Reply, Refusal>
    ensures { result ≡ reply_value r s.now }
{
    match r {
        Request::ReadPressure(_) => {
            let w = opg_frames::word_at(s, 10);
            if !opg_units::is_finite(w) {
                return Err(Refusal::Value);
            }
            Ok(Reply::Pressure(f32::from_bits(w)))
        }
        Request::ReadUnit => {
            let u = buffer::byte_at(s, 10);
            if !buffer::is_within(u, Settings::UNIT_MIN, Settings::UNIT_MAX) {
                return Err(Refusal::Value);
            }
            Ok(Reply::Unit(u))
        }
        Request::WriteUnit(_) | Request::DetectionOff | Request::DetectionOn(..) => Ok(Reply::Done),
    }
}

// Any bytes as the reply to a request, or the first refusal that applies.
#[tactic(auto, unfolding(crate::specs::Reply::read_of, buffer::specs::First::pick))]
pub fn read_reply(r: Request, s: &[u8]) -> Result<Reply, Refusal>
    ensures { result ≡ read_of r s.now }
{
    if opg_frames::is_misshapen(s) {
        return Err(Refusal::Shape);
    }
    if opg_frames::is_foreign(s, 0x0b) {
        return Err(Refusal::Address);
    }
    if opg_frames::has_wrong_crc(s) {
        return Err(Refusal::Crc);
    }
    if opg_frames::has_wrong_version(s) || !opg_frames::is_acknowledge(s) {
        return Err(Refusal::Header);
    }
    if is_other_reply(r, s) {
        return Err(Refusal::Other);
    }
    if has_wrong_count(r, s) {
        return Err(Refusal::Length);
    }
    if is_error(s) {
        return Ok(Reply::Error(buffer::byte_at(s, 10)));
    }
    read_value(r, s)
}
