#![tactic(auto)]
// Calls written as bytes: the call that stands at a place of a script.
//
// A script is calls of a text gauge and of an OPG, one after another. A number of two or four bytes has its high byte first.
//   0, bytes lent (2), bytes of the request (2), the request: a request to the text gauge
//   1, bytes lent (2): the text gauge's stream line
//   2, which, code, sign, digits (4), up, down: a bench setting of the text gauge. Which is 0 for a value, 1 for under range, 2 for over range,
//      3 for a fault, 4 for FS; code is the source's code or FS; a sign other than 0 is minus.
//   3, bytes lent (2), bytes of the request (2), the request: a request to the OPG
//   4, which, bits (4): a bench setting of the OPG. Which is 0 for a pressure of these bits, 1 for unavailable, whatever the bits.
// Anything else is no call.
ghost use Rattle.std.specs.Prelude.{◌≡◌, ◌<◌, ◌≤◌, length};
ghost use Rattle.buffer.specs.Byte.{pair_of};
ghost use Rattle.script.specs.Script.{request_of, line_of, exact_at, setting_of, pressure_of, call_of, call_at, Fits};

use decimal::Exact;
use opg_gauge::Pressure;
use readings::Bench;

// The gauge that a request is for.
#[derive(Clone, Copy)]
pub enum To {
    Text,
    Opg,
}

// A call of a script.
#[derive(Clone, Copy)]
pub enum Call {
    // how many bytes are lent, and how many the request has
    Request(To, usize, usize),
    // how many bytes are lent
    Line(usize),
    SetBench(Bench),
    SetOpgBench(Pressure),
}

// The number of two bytes.
fn pair(high: u8, low: u8) -> usize
    ensures value { result ≡ pair_of high low }
    ensures upper_bound { result < 65536 }
{
    usize::from(u16::from_be_bytes([high, low]))
}

#[tactic(auto, unfolding(crate::specs::Script::request_of, buffer::specs::First::pick))]
fn request_of(to: To, s: &[u8]) -> Option<Call>
    ensures value { result ≡ request_of to s.now }
    ensures fits { Fits (length s.now) 0 result }
{
    if s.len() < 5 {
        return None;
    }
    let room = pair(s[1], s[2]);
    let len = pair(s[3], s[4]);
    if s.len() - 5 < len {
        return None;
    }
    Some(Call::Request(to, room, len))
}

#[tactic(auto, unfolding(crate::specs::Script::line_of, buffer::specs::First::pick))]
fn line_of(s: &[u8]) -> Option<Call>
    ensures value { result ≡ line_of s.now }
    ensures fits { Fits (length s.now) 0 result }
{
    if s.len() < 3 {
        return None;
    }
    Some(Call::Line(pair(s[1], s[2])))
}

#[tactic(auto, unfolding(crate::specs::Script::exact_at))]
fn value_of(s: &[u8]) -> Exact
    requires { 10 ≤ length s.now }
    ensures { result ≡ exact_at s.now }
{
    Exact {
        negative: s[3] != 0,
        digits: buffer::word(s[4], s[5], s[6], s[7]),
        up: s[8],
        down: s[9],
    }
}

#[tactic(auto, unfolding(crate::specs::Script::setting_of, buffer::specs::First::pick))]
fn setting_of(s: &[u8]) -> Option<Call>
    ensures value { result ≡ setting_of s.now }
    ensures fits { Fits (length s.now) 0 result }
{
    if s.len() < 10 {
        return None;
    }
    let code = s[2];
    let bench = match s[1] {
        0 => Bench::Reads(code, value_of(s)),
        1 => Bench::UnderRange(code),
        2 => Bench::OverRange(code),
        3 => Bench::Faulty(code),
        4 => Bench::Status(code),
        _ => return None,
    };
    Some(Call::SetBench(bench))
}

#[tactic(auto, unfolding(crate::specs::Script::pressure_of, buffer::specs::First::pick))]
fn pressure_of(s: &[u8]) -> Option<Call>
    ensures value { result ≡ pressure_of s.now }
    ensures fits { Fits (length s.now) 0 result }
{
    if s.len() < 6 {
        return None;
    }
    let pressure = match s[1] {
        0 => Pressure::Bits(buffer::word(s[2], s[3], s[4], s[5])),
        1 => Pressure::Unavailable,
        _ => return None,
    };
    Some(Call::SetOpgBench(pressure))
}

// The call at the front of s.
#[tactic(auto, unfolding(crate::specs::Script::call_of, buffer::specs::First::pick))]
fn call_of(s: &[u8]) -> Option<Call>
    ensures value { result ≡ call_of s.now }
    ensures fits { Fits (length s.now) 0 result }
{
    match *s.first()? {
        0 => request_of(To::Text, s),
        1 => line_of(s),
        2 => setting_of(s),
        3 => request_of(To::Opg, s),
        4 => pressure_of(s),
        _ => None,
    }
}

// The call at place `at` of the script, if a whole one stands there.
pub fn call_at(script: &[u8], at: usize) -> Option<Call>
    ensures value { result ≡ call_at script.now at }
    ensures fits { Fits (length script.now) at result }
{
    call_of(buffer::rest(script, at))
}
