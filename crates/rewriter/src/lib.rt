#![tactic(auto)]
// Requests read and written again: any bytes to the one form in which the master sends what they ask.
ghost use Rattle.std.specs.Prelude.{length};
ghost use Rattle.buffer.specs.Answer.{Sent};
ghost use Rattle.opg_request_reader.specs.Asked.{asked_of};
ghost use Rattle.settings.specs.Limits.{limits_of};
ghost use Rattle.rewriter.specs.Again.{text_again, opg_again, Rewritten};

use opg_request_reader::Denied;
use refusals::Refusal;
use request_reader::Request;
use sources::WithSources;

// Writes a request that was read, or hands on the refusal.
#[tactic(auto, unfolding(crate::specs::Again::text_again))]
fn write_text_again(
    profile: sources::Profile,
    out: &mut [u8],
    d: WithSources<Result<Request, Refusal>>,
) -> buffer::Written
    ensures { Sent out.old (text_again (limits_of profile) (length out.old) d.value d.sources) out.new result }
{
    match d.value {
        Ok(Request::V1(address, r)) => request_writer::write_request_v1(out, address, r),
        Ok(Request::V2(address, r)) => request_writer::write_request_v2(
            out, profile, address, r, d.sources,
        ),
        Err(k) => buffer::Written {
            number: k.number() as u16,
            len: 0,
        },
    }
}

// Reads any bytes as a text request to a gauge of this profile and writes the request again: 0 and the frame's length, or the number of the
// first refusal.
pub fn rewrite_text(profile: sources::Profile, request: &[u8], out: &mut [u8]) -> buffer::Written
    ensures { Rewritten (limits_of profile) request.now out.old out.new result }
{
    write_text_again(profile, out, request_reader::read_request(profile, request))
}

// Writes an OPG request that was read, or hands on the refusal.
#[tactic(auto, unfolding(crate::specs::Again::opg_again))]
fn write_opg_again(out: &mut [u8], asked: Result<opg_commands::Request, Denied>) -> buffer::Written
    ensures { Sent out.old (opg_again (length out.old) asked) out.new result }
{
    match asked {
        Ok(r) => opg_request_writer::write_request(out, r),
        Err(denied) => buffer::Written {
            number: denied.number(),
            len: 0,
        },
    }
}

// Reads any bytes as an OPG request and writes the request again: 20 and the frame's length, or the number of the first refusal.
pub fn rewrite_opg(request: &[u8], out: &mut [u8]) -> buffer::Written
    ensures { Sent out.old (opg_again (length out.old) (asked_of request.now)) out.new result }
{
    write_opg_again(out, opg_request_reader::read_request(request))
}
