#![tactic(auto)]
// Replies of the text gauge in V2, as the master reads them (document 01, "The master's side").
ghost use Rattle.std.specs.Prelude.{◌≡◌};
ghost use Rattle.std.specs.List.{find};
ghost use Rattle.buffer.specs.Byte.{at, is_digit, same_text};
ghost use Rattle.error_texts.specs.Texts.{error_bytes};
ghost use Rattle.settings.specs.Limits.{limits_of};
ghost use Rattle.replies_v2.specs.ReplyV2.{errors, other_access, other_command, mismatched, error_reply, done_reply, DataReads, BodyReads, ReadsV2};

use error_texts::ErrorText;
use frames::{Frame, HeadV2};
use refusals::Refusal;
use replies_v2_values::ReplyV2;
use requests::RequestV2;
use sources::WithSources;

// The six error texts of the table.
const ERRORS: [ErrorText; 6] = [
    ErrorText::Length,
    ErrorText::Logic,
    ErrorText::NoDef,
    ErrorText::Syntax,
    ErrorText::Range,
    ErrorText::Error1,
];

// The reply to a write or a restore has no data.
#[tactic(auto, unfolding(crate::specs::ReplyV2::done_reply, buffer::specs::First::pick))]
fn read_done(s: &[u8]) -> Result<ReplyV2, Refusal>
    ensures { result ≡ done_reply s.now }
{
    match s {
        [] => Ok(ReplyV2::Done),
        _ => Err(Refusal::Syntax),
    }
}

// The data of a reply that does not refuse.
#[tactic(auto, unfolding(crate::specs::ReplyV2::data_reply, crate::specs::ReplyV2::data_list))]
fn read_data(
    profile: sources::Profile,
    request: RequestV2,
    s: &[u8],
) -> WithSources<Result<ReplyV2, Refusal>>
    ensures { DataReads (limits_of profile) request s.now result }
{
    match request {
        RequestV2::Read(command) => replies_v2_values::read_value(profile, command, s),
        RequestV2::Restore(_) | RequestV2::Set(_) => WithSources::alone(read_done(s)),
    }
}

// The error whose text it is.
fn error_in(s: &[u8]) -> Option<ErrorText>
    ensures { result ≡ find (λ e. same_text s.now (error_bytes e)) errors }
{
    ERRORS
        .iter()
        .copied()
        .find(|e| error_texts::is_error_text(s, *e))
}

// The data of a reply that refuses: one of the six error texts.
#[tactic(auto, using(crate::proofs::Laws::error_read))]
fn read_error(s: &[u8]) -> Result<ReplyV2, Refusal>
    ensures { result ≡ error_reply s.now }
{
    match error_in(s) {
        Some(e) => Ok(ReplyV2::Error(e)),
        None => Err(Refusal::Syntax),
    }
}

// Whether an access code is neither the request's plus 1 nor `7`.
#[tactic(auto, unfolding(crate::specs::ReplyV2::other_access, request_texts::specs::RequestText::access_of))]
fn is_other_access(request: RequestV2, access: u8) -> bool
    ensures { result ≡ other_access request access }
{
    access != request_texts::access_code(request) + 1 && access != b'7'
}

// Whether the command is not the request's.
#[tactic(auto, unfolding(crate::specs::ReplyV2::other_command))]
fn is_other_command(request: RequestV2, head: HeadV2) -> bool
    ensures { result ≡ other_command request head }
{
    let [first, second] = requests::command_bytes(request_texts::command_in(request));
    head.first != first || head.second != second
}

// Whether the access code or the command is not that of a reply to the request.
#[tactic(auto, unfolding(crate::specs::ReplyV2::mismatched))]
fn is_mismatched(request: RequestV2, head: HeadV2) -> bool
    ensures { result ≡ mismatched request head }
{
    is_other_access(request, head.access) || is_other_command(request, head)
}

// A V2 frame with this head and these data.
fn read_body(
    profile: sources::Profile,
    request: RequestV2,
    head: HeadV2,
    s: &[u8],
) -> WithSources<Result<ReplyV2, Refusal>>
    ensures { BodyReads (limits_of profile) request head s.now result }
{
    if is_mismatched(request, head) {
        return WithSources::alone(Err(Refusal::Mismatch));
    }
    if head.access == b'7' {
        return WithSources::alone(read_error(s));
    }
    read_data(profile, request, s)
}

// Whether byte 3 is a digit.
#[tactic(auto, unfolding(buffer::specs::Byte::within))]
fn has_digit(s: &[u8]) -> bool
    ensures { result ≡ is_digit (at s.now 3) }
{
    matches!(s, [_, _, _, b'0'..=b'9', ..])
}

// Any bytes as the reply to a request that was sent to a gauge of this profile at this address, or the first refusal that applies. Beside it
// stand the sources of an accepted read of SM.
pub fn read_reply_v2(
    profile: sources::Profile,
    address: u16,
    request: RequestV2,
    s: &[u8],
) -> WithSources<Result<ReplyV2, Refusal>>
    ensures { ReadsV2 (limits_of profile) address request s.now result }
{
    if !has_digit(s) {
        return WithSources::alone(Err(Refusal::Shape));
    }
    match frames::read_frame(s) {
        Err(k) => WithSources::alone(Err(k)),
        Ok(Frame::V1(_)) => WithSources::alone(Err(Refusal::Shape)),
        Ok(Frame::Length(head)) => {
            if head.address != address {
                return WithSources::alone(Err(Refusal::Other));
            }
            WithSources::alone(Err(Refusal::Length))
        }
        Ok(Frame::V2(head)) => {
            if head.address != address {
                return WithSources::alone(Err(Refusal::Other));
            }
            read_body(profile, request, head, frames::data_v2(s))
        }
    }
}
