#![tactic(auto)]
// OPG frames (document 01, "OPG frames"): the parts of any bytes as a frame, and what refuses one.
ghost use Rattle.std.specs.Prelude.{◌≡◌};
ghost use Rattle.buffer.specs.Byte.{pair_at, word_at};
ghost use Rattle.opg_frames.specs.Frame.{len_of, cmd_of, pid_of, count_of, misshapen, foreign, wrong_crc, wrong_version, acknowledges, indexed};
ghost use Rattle.opg_frames.specs.Number.{refusal_number, error_byte, error_number};

// Why a frame is refused, with document 01's numbers.
#[derive(Clone, Copy)]
pub enum Refusal {
    // less than 32 bytes lent
    Room = 21,
    // length or reserved bits
    Shape = 22,
    // ADDR or ID
    Address = 23,
    Crc = 24,
    // version, or acknowledge clear
    Header = 25,
    // a reply to another request: its CMD, IDX or PID
    Other = 26,
    // data length
    Length = 27,
    // a unit outside, or a pressure that is not finite
    Value = 28,
}

impl Refusal {
    #[tactic(auto, unfolding(crate::specs::Number::refusal_number))]
    pub fn number(self) -> u8
        ensures { result ≡ refusal_number self }
    {
        self as u8
    }

    // The refusal as an answer, with no reply.
    pub fn answer(self) -> buffer::Written
        ensures { result ≡ record { number = refusal_number self; len = 0 } }
    {
        buffer::Written {
            number: self.number() as u16,
            len: 0,
        }
    }
}

// The error byte of a gauge's error reply.
#[derive(Clone, Copy)]
pub enum ErrorByte {
    // pressure unavailable
    Unavailable = 0,
    Access = 1,
    // IDX not 0, or a value outside
    Value = 2,
    // PID unknown
    Pid = 3,
    // data length
    Length = 4,
    Crc = 100,
    // CMD not 1 or 3
    Cmd = 101,
    // acknowledge set
    Acknowledge = 102,
    Version = 104,
}

impl ErrorByte {
    #[tactic(auto, unfolding(crate::specs::Number::error_byte))]
    pub fn byte(self) -> u8
        ensures { result ≡ error_byte self }
    {
        self as u8
    }

    // Document 01's number of the error.
    #[tactic(auto, unfolding(crate::specs::Number::error_byte))]
    pub fn number(self) -> u16
        ensures { result ≡ error_number self }
    {
        1000 + self.byte() as u16
    }
}

// The number of the two bytes at place i, high byte first.
fn pair_at(s: &[u8], i: u8) -> u16
    ensures { result ≡ pair_at s.now i }
{
    let i = i as usize;
    u16::from_be_bytes([buffer::byte_at(s, i), buffer::byte_at(s, i + 1)])
}

// The number of the four bytes at place i, high byte first.
pub fn word_at(s: &[u8], i: u8) -> u32
    ensures { result ≡ word_at s.now i }
{
    let i = i as usize;
    u32::from_be_bytes([
        buffer::byte_at(s, i),
        buffer::byte_at(s, i + 1),
        buffer::byte_at(s, i + 2),
        buffer::byte_at(s, i + 3),
    ])
}

#[tactic(auto, unfolding(crate::specs::Frame::len_of))]
fn len_of(s: &[u8]) -> u16
    ensures { result ≡ len_of s.now }
{
    pair_at(s, 3)
}

#[tactic(auto, unfolding(crate::specs::Frame::cmd_of))]
pub fn cmd_of(s: &[u8]) -> u8
    ensures { result ≡ cmd_of s.now }
{
    buffer::byte_at(s, 5)
}

#[tactic(auto, unfolding(crate::specs::Frame::pid_of))]
pub fn pid_of(s: &[u8]) -> u16
    ensures { result ≡ pid_of s.now }
{
    pair_at(s, 6)
}

// How many data bytes a frame has.
#[tactic(auto, unfolding(crate::specs::Frame::count_of))]
pub fn count_of(s: &[u8]) -> usize
    ensures { result ≡ count_of s.now }
{
    s.len().saturating_sub(12)
}

// Whether the bytes are no frame: LEN, the number of bytes, or a reserved bit.
#[tactic(auto, unfolding(crate::specs::Frame::misshapen, crate::specs::Frame::reserved_of))]
pub fn is_misshapen(s: &[u8]) -> bool
    ensures { result ≡ misshapen s.now }
{
    let len = len_of(s) as usize;
    len < 5 || s.len() != len + 7 || buffer::byte_at(s, 2) / 2 % 8 != 0
}

// Whether ADDR is not 0, or ID is not the one given.
#[tactic(auto, unfolding(crate::specs::Frame::foreign, crate::specs::Frame::address_of, crate::specs::Frame::id_of))]
pub fn is_foreign(s: &[u8], id: u8) -> bool
    ensures { result ≡ foreign id s.now }
{
    buffer::byte_at(s, 0) != 0 || buffer::byte_at(s, 1) != id
}

#[tactic(auto, unfolding(crate::specs::Frame::wrong_crc, crate::specs::Frame::crc_bytes))]
pub fn has_wrong_crc(s: &[u8]) -> bool
    ensures { result ≡ wrong_crc s.now }
{
    let n = s.len();
    if n < 2 {
        return true;
    }
    let (body, end) = s.split_at(n - 2);
    let crc = opg_crc::crc(body).to_le_bytes();
    !buffer::is_same(end, &crc)
}

#[tactic(auto, unfolding(crate::specs::Frame::wrong_version, crate::specs::Frame::version_of))]
pub fn has_wrong_version(s: &[u8]) -> bool
    ensures { result ≡ wrong_version s.now }
{
    buffer::byte_at(s, 2) / 16 != 2
}

#[tactic(auto, unfolding(crate::specs::Frame::acknowledges, crate::specs::Frame::acknowledge_of))]
pub fn is_acknowledge(s: &[u8]) -> bool
    ensures { result ≡ acknowledges s.now }
{
    buffer::byte_at(s, 2) % 2 == 1
}

// Whether IDX is not 0.
#[tactic(auto, unfolding(crate::specs::Frame::indexed, crate::specs::Frame::idx_of))]
pub fn is_indexed(s: &[u8]) -> bool
    ensures { result ≡ indexed s.now }
{
    pair_at(s, 8) != 0
}
