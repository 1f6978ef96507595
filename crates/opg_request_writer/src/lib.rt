#![tactic(auto)]
// The master's requests to an OPG, written into lent memory (document 01, "The master's side").
ghost use Rattle.std.specs.Prelude.{◌≡◌, length};
ghost use Rattle.buffer.specs.Answer.{Sent};
ghost use Rattle.opg_request_writer.specs.Written.{request_written};
ghost use Rattle.opg_request_writer.specs.Inner.{request_count, request_bytes};

use opg_commands::Request;
use opg_frames::{ErrorByte, Refusal};

#[tactic(auto, unfolding(crate::specs::Inner::request_count))]
fn request_count(r: Request) -> usize
    ensures { result ≡ request_count r }
{
    match r {
        Request::ReadUnit => 0,
        Request::ReadPressure(_) | Request::WriteUnit(_) => 1,
        Request::DetectionOff | Request::DetectionOn(..) => 6,
    }
}

// The data of a request, filled up with zeros. (A fixed array, and beside it how many count: no heap.)
#[tactic(auto, unfolding(crate::specs::Inner::request_bytes, opg_commands::specs::Request::request_data))]
fn request_bytes(r: Request) -> [u8; 6]
    ensures { result ≡ request_bytes r }
{
    match r {
        Request::ReadPressure(u) | Request::WriteUnit(u) => [u, 0, 0, 0, 0, 0],
        Request::ReadUnit | Request::DetectionOff => [0; 6],
        Request::DetectionOn(n, gas) => {
            let [a, b, c, d] = n.to_be_bytes();
            [1, a, b, c, d, gas]
        }
    }
}

// Writes a request. Refuses with 21 where less than 32 bytes are lent, then with 1002 for a value outside; then out stays as it was.
pub fn write_request(out: &mut [u8], r: Request) -> buffer::Written
    ensures { Sent out.old (request_written (length out.old) r) out.new result }
{
    if out.len() < 32 {
        return Refusal::Room.answer();
    }
    if r.is_outside() {
        return buffer::Written {
            number: ErrorByte::Value.number(),
            len: 0,
        };
    }
    let bytes = request_bytes(r);
    let n = request_count(r);
    opg_frame_writer::write_request_frame(out, 20, r.cmd(), r.pid(), &bytes[..n])
}
