#![tactic(auto)]
// OPG frames written into lent memory (document 01, "OPG frames").
ghost use Rattle.std.specs.Prelude.{length, take};
ghost use Rattle.buffer.specs.Answer.{Stored, Sent};
ghost use Rattle.opg_frames.specs.Frame.{crc_bytes};
ghost use Rattle.opg_frame_writer.specs.Written.{frame, written, request_frame, reply_frame};

use opg_frames::Refusal;

// Stores the CRC of all that stands before `at`, low byte first.
#[tactic(auto, unfolding(opg_frames::specs::Frame::crc_bytes))]
fn put_crc(out: &mut [u8], at: usize)
    ensures { Stored out.old at (crc_bytes (take at out.old)) out.new }
{
    if out.len() < at {
        return;
    }
    let end = opg_crc::crc(&out[..at]).to_le_bytes();
    buffer::put(out, at, &end);
}

// Writes a whole frame at the front of out, and answers `number`, which document 01 gives the answer. (The parameters are the frame's fields in their
// order: a struct of them would be made for this one call.) Refuses with 21 where less than 32 bytes are lent or the frame does
// not fit, with 22 where LEN cannot count the data; then out stays as it was.
fn write_frame(
    out: &mut [u8],
    number: u16,
    id: u8,
    header: u8,
    cmd: u8,
    pid: u16,
    bytes: &[u8],
) -> buffer::Written
    ensures { Sent out.old (written (length out.old) number bytes.now (frame id header cmd pid bytes.now)) out.new result }
{
    let n = bytes.len();
    let room = out.len();
    if room < 32 || room - 12 < n {
        return Refusal::Room.answer();
    }
    if 65530 < n {
        return Refusal::Shape.answer();
    }
    let [len_high, len_low] = (n as u16 + 5).to_be_bytes();
    let [pid_high, pid_low] = pid.to_be_bytes();
    let head = [
        0, id, header, len_high, len_low, cmd, pid_high, pid_low, 0, 0,
    ];
    buffer::put(out, 0, &head);
    buffer::put(out, 10, bytes);
    put_crc(out, n + 10);
    buffer::Written {
        number,
        len: n + 12,
    }
}

// Writes a request with this CMD, this PID and these data. (This and the next give `write_frame` the ID and the header of their side.)
pub fn write_request_frame(
    out: &mut [u8],
    number: u16,
    cmd: u8,
    pid: u16,
    bytes: &[u8],
) -> buffer::Written
    ensures { Sent out.old (written (length out.old) number bytes.now (request_frame cmd pid bytes.now)) out.new result }
{
    write_frame(out, number, 0, 0x20, cmd, pid, bytes)
}

// Writes a reply with this CMD, this PID and these data.
pub fn write_reply_frame(
    out: &mut [u8],
    number: u16,
    cmd: u8,
    pid: u16,
    bytes: &[u8],
) -> buffer::Written
    ensures { Sent out.old (written (length out.old) number bytes.now (reply_frame cmd pid bytes.now)) out.new result }
{
    write_frame(out, number, 0x0b, 0x21, cmd, pid, bytes)
}
