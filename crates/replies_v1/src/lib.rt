#![tactic(auto)]
// V1 replies as the master reads them (document 01, "The master's side").
ghost use Rattle.std.specs.Prelude.{◌≡◌};
ghost use Rattle.buffer.specs.Byte.{at};
ghost use Rattle.frames.specs.Frame.{is_letter};
ghost use Rattle.replies_v1.specs.Inner.{body_v1};
ghost use Rattle.replies_v1.specs.ReplyV1.{error_at, pressure_v1, measure_v1, factor_v1, unit_at, unit_v1, echo_v1, value_v1, read_v1};

use error_texts::ErrorText;
use frames::{Frame, HeadV1};
use refusals::Refusal;
use requests::RequestV1;
use settings::{PressureUnit, Settings};

// A decoded reply. Reads carries the mantissa and the exponent plus 20, Factor hundredths.
#[derive(Clone, Copy)]
pub enum ReplyV1 {
    Reads(u16, u8),
    UnderRange,
    OverRange,
    Factor(u16),
    Unit(PressureUnit),
    Done,
    Error(ErrorText),
}

// Whether byte 3 is a letter, as in every V1 frame and no other.
#[tactic(auto, unfolding(frames::specs::Frame::is_letter, buffer::specs::Byte::within))]
fn has_letter(s: &[u8]) -> bool
    ensures { result ≡ is_letter (at s.now 3) }
{
    matches!(s, [_, _, _, b, ..] if frames::is_letter(*b))
}

// Whether the bytes from `start` to before the checksum are this error text.
#[tactic(auto, unfolding(crate::specs::ReplyV1::error_at))]
fn is_error(s: &[u8], start: usize, e: ErrorText) -> bool
    ensures { result ≡ error_at start e s.now }
{
    error_texts::is_error_text(frames::data_from(s, start), e)
}

// A pressure: four digits of mantissa, and two of the exponent plus 20.
#[tactic(auto, using(requests::proofs::Laws::six_told, frames::proofs::Laws::numeral_part, crate::proofs::Laws::four_low, crate::proofs::Laws::two_whole), unfolding(crate::specs::ReplyV1::pressure_v1, buffer::specs::First::pick))]
fn read_pressure(d: &[u8]) -> Result<ReplyV1, Refusal>
    ensures { result ≡ pressure_v1 d.now }
{
    if !requests::has_six_digits(d) {
        return Err(Refusal::Syntax);
    }
    let mantissa = buffer::numeral_of(&d[..4]);
    if mantissa < 1000 {
        return Err(Refusal::Syntax);
    }
    let exponent = buffer::numeral_of(buffer::rest(d, 4));
    if exponent < 11 || 30 < exponent {
        return Err(Refusal::Range);
    }
    Ok(ReplyV1::Reads(mantissa as u16, exponent as u8))
}

// The data of an `M` reply.
#[tactic(auto, unfolding(crate::specs::ReplyV1::measure_v1, buffer::specs::First::pick))]
fn read_measure(d: &[u8]) -> Result<ReplyV1, Refusal>
    ensures { result ≡ measure_v1 d.now }
{
    if buffer::is_same(d, b"1") {
        return Ok(ReplyV1::Error(ErrorText::Error1));
    }
    if buffer::is_same(d, b"000000") {
        return Ok(ReplyV1::UnderRange);
    }
    if buffer::is_same(d, b"999999") {
        return Ok(ReplyV1::OverRange);
    }
    read_pressure(d)
}

// The data of a `C` reply.
#[tactic(auto, using(requests::proofs::Laws::six_whole, settings::proofs::Laws::factor_small), unfolding(crate::specs::ReplyV1::factor_v1, buffer::specs::First::pick))]
fn read_factor(d: &[u8]) -> Result<ReplyV1, Refusal>
    ensures { result ≡ factor_v1 d.now }
{
    if !requests::has_six_digits(d) {
        return Err(Refusal::Syntax);
    }
    let n = buffer::numeral_of(d);
    if !Settings::is_factor(n) {
        return Err(Refusal::Range);
    }
    Ok(ReplyV1::Factor(n as u16))
}

// The unit that a number names.
fn unit_at(n: u32) -> Result<ReplyV1, Refusal>
    ensures { result ≡ unit_at n }
{
    match settings::unit_named(n) {
        Some(unit) => Ok(ReplyV1::Unit(unit)),
        None => Err(Refusal::Range),
    }
}

// The data of a `U` reply.
#[tactic(auto, using(requests::proofs::Laws::six_whole), unfolding(crate::specs::ReplyV1::unit_v1, buffer::specs::First::pick))]
fn read_unit(d: &[u8]) -> Result<ReplyV1, Refusal>
    ensures { result ≡ unit_v1 d.now }
{
    if !requests::has_six_digits(d) {
        return Err(Refusal::Syntax);
    }
    unit_at(buffer::numeral_of(d))
}

// The data of a set reply: the request's own.
#[tactic(auto, unfolding(crate::specs::ReplyV1::echo_v1, buffer::specs::First::pick))]
fn read_echo(request: RequestV1, d: &[u8]) -> Result<ReplyV1, Refusal>
    ensures { result ≡ echo_v1 request d.now }
{
    let text = request_texts::data_v1(request);
    if !buffer::is_same(d, text.as_slice()) {
        return Err(Refusal::Syntax);
    }
    Ok(ReplyV1::Done)
}

// The data that answer a request.
#[tactic(auto, unfolding(crate::specs::ReplyV1::value_v1))]
fn read_value(request: RequestV1, d: &[u8]) -> Result<ReplyV1, Refusal>
    ensures { result ≡ value_v1 request d.now }
{
    match request {
        RequestV1::Measure => read_measure(d),
        RequestV1::ReadFactor => read_factor(d),
        RequestV1::ReadUnit => read_unit(d),
        RequestV1::Unlock | RequestV1::SetFactor(_) | RequestV1::SetUnit(_) => read_echo(
            request, d,
        ),
    }
}

// A V1 frame with this head.
#[tactic(auto, unfolding(crate::specs::Inner::body_v1, buffer::specs::First::pick))]
fn read_body(address: u16, request: RequestV1, head: HeadV1, s: &[u8]) -> Result<ReplyV1, Refusal>
    ensures { result ≡ body_v1 address request head s.now }
{
    if head.address != address {
        return Err(Refusal::Other);
    }
    if is_error(s, 3, ErrorText::NoDef) {
        return Ok(ReplyV1::Error(ErrorText::NoDef));
    }
    if head.letter != request_texts::letter_v1(request) {
        return Err(Refusal::Mismatch);
    }
    if is_error(s, 4, ErrorText::Logic) {
        return Ok(ReplyV1::Error(ErrorText::Logic));
    }
    if is_error(s, 4, ErrorText::Range) {
        return Ok(ReplyV1::Error(ErrorText::Range));
    }
    read_value(request, frames::data_v1(s))
}

// Any bytes as the reply to a request that was sent to this address, or the first refusal that applies.
#[tactic(auto, using(crate::proofs::Laws::no_letter))]
pub fn read_reply_v1(address: u16, request: RequestV1, s: &[u8]) -> Result<ReplyV1, Refusal>
    ensures { result ≡ read_v1 address request s.now }
{
    if !has_letter(s) {
        return Err(Refusal::Shape);
    }
    match frames::read_frame(s)? {
        Frame::V1(head) => read_body(address, request, head, s),
        Frame::Length(_) | Frame::V2(_) => Err(Refusal::Shape),
    }
}
