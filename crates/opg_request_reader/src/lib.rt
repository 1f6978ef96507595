#![tactic(auto)]
// The requests of the OPG protocol (document 01, "OPG frames"): any bytes read as one.
ghost use Rattle.std.specs.Prelude.{◌≡◌};
ghost use Rattle.opg_request_reader.specs.Asked.{wrong_shape, unknown_cmd, unknown_pid, lacks_access, needed_of, wrong_count, meaning, wrong_mode, asked_of, denied_number};

use opg_commands::{Request, Settings};
use opg_frames::{ErrorByte, Refusal};

// Why bytes are no request: refused with no reply, or answered with an error byte.
#[derive(Clone, Copy)]
pub enum Denied {
    Silent(Refusal),
    Error(ErrorByte),
}

impl Denied {
    // Document 01's number.
    #[tactic(auto, unfolding(crate::specs::Asked::denied_number))]
    pub fn number(self) -> u16
        ensures { result ≡ denied_number self }
    {
        match self {
            Denied::Silent(refusal) => refusal.number() as u16,
            Denied::Error(error) => error.number(),
        }
    }
}

#[tactic(auto, unfolding(crate::specs::Asked::wrong_shape))]
fn has_wrong_shape(s: &[u8]) -> bool
    ensures { result ≡ wrong_shape s.now }
{
    129 <= s.len() || opg_frames::is_misshapen(s)
}

#[tactic(auto, unfolding(crate::specs::Asked::unknown_cmd))]
fn has_unknown_cmd(s: &[u8]) -> bool
    ensures { result ≡ unknown_cmd s.now }
{
    !matches!(opg_frames::cmd_of(s), 1 | 3)
}

#[tactic(auto, unfolding(crate::specs::Asked::unknown_pid))]
fn has_unknown_pid(s: &[u8]) -> bool
    ensures { result ≡ unknown_pid s.now }
{
    !matches!(opg_frames::pid_of(s), 14000 | 14001 | 22000)
}

#[tactic(auto, unfolding(crate::specs::Asked::lacks_access))]
fn has_no_access(s: &[u8]) -> bool
    ensures { result ≡ lacks_access s.now }
{
    matches!(
        (opg_frames::pid_of(s), opg_frames::cmd_of(s)),
        (14000, 3) | (22000, 1)
    )
}

// How many data bytes the request has to have.
#[tactic(auto, unfolding(crate::specs::Asked::needed_of, buffer::specs::First::pick))]
fn needed(s: &[u8]) -> usize
    ensures { result ≡ needed_of s.now }
{
    match (opg_frames::pid_of(s), opg_frames::cmd_of(s)) {
        (14000, _) => 1,
        (22000, _) => 6,
        (_, 3) => 1,
        _ => 0,
    }
}

#[tactic(auto, unfolding(crate::specs::Asked::wrong_count))]
fn has_wrong_count(s: &[u8]) -> bool
    ensures { result ≡ wrong_count s.now }
{
    opg_frames::count_of(s) != needed(s)
}

// What a request means that passed the tests up to its data length.
#[tactic(auto, unfolding(crate::specs::Asked::meaning, buffer::specs::First::pick))]
fn meaning_of(s: &[u8]) -> Request
    ensures { result ≡ meaning s.now }
{
    let b = buffer::byte_at(s, 10);
    match (opg_frames::pid_of(s), opg_frames::cmd_of(s), b) {
        (14000, _, _) => Request::ReadPressure(b),
        (14001, 1, _) => Request::ReadUnit,
        (14001, _, _) => Request::WriteUnit(b),
        (_, _, 0) => Request::DetectionOff,
        _ => Request::DetectionOn(opg_frames::word_at(s, 11), buffer::byte_at(s, 15)),
    }
}

#[tactic(auto, unfolding(crate::specs::Asked::wrong_mode))]
fn has_wrong_mode(s: &[u8]) -> bool
    ensures { result ≡ wrong_mode s.now }
{
    opg_frames::pid_of(s) == 22000
        && !buffer::is_within(buffer::byte_at(s, 10), 0, Settings::MODE_MAX)
}

// Any bytes as a request, or the first refusal that applies.
#[tactic(auto, unfolding(crate::specs::Asked::asked_of, crate::specs::Asked::outside, buffer::specs::First::pick))]
pub fn read_request(s: &[u8]) -> Result<Request, Denied>
    ensures { result ≡ asked_of s.now }
{
    if has_wrong_shape(s) {
        return Err(Denied::Silent(Refusal::Shape));
    }
    if opg_frames::is_foreign(s, 0) {
        return Err(Denied::Silent(Refusal::Address));
    }
    if opg_frames::has_wrong_crc(s) {
        return Err(Denied::Error(ErrorByte::Crc));
    }
    if opg_frames::has_wrong_version(s) {
        return Err(Denied::Error(ErrorByte::Version));
    }
    if opg_frames::is_acknowledge(s) {
        return Err(Denied::Error(ErrorByte::Acknowledge));
    }
    if has_unknown_cmd(s) {
        return Err(Denied::Error(ErrorByte::Cmd));
    }
    if has_unknown_pid(s) {
        return Err(Denied::Error(ErrorByte::Pid));
    }
    if has_no_access(s) {
        return Err(Denied::Error(ErrorByte::Access));
    }
    if opg_frames::is_indexed(s) {
        return Err(Denied::Error(ErrorByte::Value));
    }
    if has_wrong_count(s) {
        return Err(Denied::Error(ErrorByte::Length));
    }
    let r = meaning_of(s);
    if has_wrong_mode(s) || r.is_outside() {
        return Err(Denied::Error(ErrorByte::Value));
    }
    Ok(r)
}
