#![tactic(auto)]
// Text frames of the protocols V1 and V2 (document 01, "Text frames" and the reply column of "Answer numbers of the text gauge"): frames and
// error frames written into lent memory, and the end of a frameless line.
ghost use Rattle.std.specs.Prelude.{◌≡◌, ◌++◌, ◌≤◌, Bool, ℕ, List, length, take};
ghost use Rattle.std.proofs.Common.{lit≤};
ghost use Rattle.buffer.specs.Answer.{Answer, Stored, Sent};
ghost use Rattle.buffer.specs.Byte.{digit};
ghost use Rattle.buffer.specs.Text.{text_of};
ghost use Rattle.refusals.specs.Number.{refusal_number};
ghost use Rattle.frames.specs.Checksum.{end_of, closed};
ghost use Rattle.frame_writer.specs.Written.{data_fit, is_address, carries_v2, carries_v1, frame_written, written_v2, written_v1};
ghost use Rattle.frame_writer.specs.Start.{start_v2, start_v1, size_is_v2, size_is_v1, written_is_v2, written_is_v1};
ghost use Rattle.error_texts.specs.Texts.{error_bytes, error_of};
ghost use Rattle.frame_writer.specs.Error.{error_head_v2, error_head_v1, error_data_v1};

use refusals::Refusal;

// Stores the checksum of all that stands before `at`, and CR: the end of a frame and of a frameless line.
pub fn put_end(out: &mut [u8], at: usize)
    ensures { Stored out.old at (end_of (take at out.old)) out.new }
{
    if out.len() < at {
        return;
    }
    let end = [frames::checksum(&out[..at]), 13];
    buffer::put(out, at, &end);
}

// An address that a frame can hold: 1 to 999.
#[tactic(auto, unfolding(buffer::specs::Byte::within))]
pub fn is_address(address: u16) -> bool
    ensures { result ≡ is_address address }
{
    1 <= address && address <= 999
}

// Whether a frame can carry these data: at most `most` bytes of 32 to 126.
#[tactic(auto, unfolding(crate::specs::Written::data_fit))]
fn data_fit(bytes: &[u8], most: usize) -> bool
    ensures { result ≡ data_fit most bytes.now }
{
    bytes.len() <= most && buffer::all_within(bytes, 32, 126)
}

// What stands before the data of a frame of V1 or of V2.
pub trait Head: Copy {
    ghost address: { Self → ℕ };

    // whether a frame can carry a head and these data
    ghost carries: { Self → List ℕ → Bool };

    // the bytes before the data, told how many data there are: SIZE of them
    ghost start: { Self → ℕ → List ℕ };

    ghost SIZE: { ℕ };

    // what a writer answers that is lent so much room
    ghost written: { ℕ → Self → List ℕ → Answer };

    // the head and the data of the error frame with this number
    ghost error_head: { ℕ → Self → Self };

    ghost error_data: { ℕ → List ℕ };

    const SIZE: usize;

    fn address(self) -> u16
        ensures { result ≡ address self };

    fn carries(self, bytes: &[u8]) -> bool
        ensures { result ≡ carries self bytes.now };

    // The first SIZE of these stand before the data.
    fn start(self, count: usize) -> [u8; 8]
        ensures { take SIZE result ≡ start self count };

    // The head and the data of the error frame that answers a request with this head.
    fn error(self, number: u8) -> (Self, buffer::Text)
        ensures head { result.0 ≡ error_head number self }
        ensures data { text_of result.1 ≡ error_data number };

    ghost few: { SIZE ≤ 8 };

    ghost size_is: { (h : Self) (count : ℕ) → length (start h count) ≡ SIZE };

    ghost written_is: { (room : ℕ) (h : Self) (bytes : List ℕ) → written room h bytes ≡ frame_written room (carries h bytes) (address h) (closed (start h (length bytes) ++ bytes)) };
}

// A head whose error data have at most six bytes, as those of V2 and V1.
pub trait ShortError: Head {
    // The head of the error frame that answers a request with this head, and its data: the first so many of six bytes. (No `Text`: where it is known
    // that they are six, the frame is written without loops.)
    fn short_error(self, number: u8) -> (Self, [u8; 6], usize)
        ensures head { result.0 ≡ Self.error_head number self }
        ensures data { take result.2 result.1 ≡ Self.error_data number }
        ensures count { result.2 ≤ 6 };
}

// The last digit of n.
fn digit(n: usize) -> u8
    ensures { result ≡ digit n }
{
    (n % 10) as u8 + b'0'
}

#[tactic(auto, unfolding(crate::specs::Start::start_v2, crate::specs::Written::carries_v2, crate::specs::Error::error_head_v2, error_texts::specs::Texts::error_bytes, buffer::specs::Text::text_of, buffer::specs::Text::cut, buffer::specs::Byte::within))]
impl Head for frames::HeadV2 {
    ghost address = { λ h. h.address };

    ghost carries = { carries_v2 };

    ghost start = { start_v2 };

    ghost SIZE = { 8 };

    ghost written = { written_v2 };

    ghost error_head = { λ _ h. error_head_v2 h };

    ghost error_data = { λ number. error_bytes (error_of number) };

    const SIZE: usize = 8;

    fn address(self) -> u16 {
        self.address
    }

    // The access code is a digit, the command is of 32 to 126, and the data fit.
    fn carries(self, bytes: &[u8]) -> bool {
        self.access.is_ascii_digit()
            && buffer::is_within(self.first, 32, 126)
            && buffer::is_within(self.second, 32, 126)
            && data_fit(bytes, 99)
    }

    fn start(self, count: usize) -> [u8; 8] {
        let address = self.address as usize;
        [
            digit(address / 100),
            digit(address / 10),
            digit(address),
            self.access,
            self.first,
            self.second,
            digit(count / 10),
            digit(count),
        ]
    }

    // (V1's is the same two lines: one function for both, over `ShortError`, would lead back to this block.)
    fn error(self, number: u8) -> (frames::HeadV2, buffer::Text) {
        let (head, bytes, count) = self.short_error(number);
        (head, buffer::Text::EMPTY.add(&bytes[..count]))
    }

    ghost few = { lit≤ tt };

    ghost size_is = { size_is_v2 };

    ghost written_is = { written_is_v2 };
}

#[tactic(auto, unfolding(crate::specs::Error::error_head_v2))]
impl ShortError for frames::HeadV2 {
    fn short_error(self, number: u8) -> (frames::HeadV2, [u8; 6], usize) {
        let head = frames::HeadV2 {
            access: b'7',
            ..self
        };
        (
            head,
            error_texts::error_bytes(error_texts::error_of(number)),
            6,
        )
    }
}

#[tactic(auto, unfolding(crate::specs::Start::start_v1, crate::specs::Written::carries_v1, crate::specs::Error::error_head_v1, crate::specs::Error::error_letter_v1, crate::specs::Error::error_data_v1, error_texts::specs::Texts::error_bytes, buffer::specs::First::pick, buffer::specs::Text::text_of, buffer::specs::Text::cut))]
impl Head for frames::HeadV1 {
    ghost address = { λ h. h.address };

    ghost carries = { carries_v1 };

    ghost start = { start_v1 };

    ghost SIZE = { 4 };

    ghost written = { written_v1 };

    ghost error_head = { error_head_v1 };

    ghost error_data = { error_data_v1 };

    const SIZE: usize = 4;

    fn address(self) -> u16 {
        self.address
    }

    fn carries(self, bytes: &[u8]) -> bool {
        frames::is_letter(self.letter) && data_fit(bytes, 6)
    }

    fn start(self, _count: usize) -> [u8; 8] {
        let address = self.address as usize;
        [
            digit(address / 100),
            digit(address / 10),
            digit(address),
            self.letter,
            0,
            0,
            0,
            0,
        ]
    }

    fn error(self, number: u8) -> (frames::HeadV1, buffer::Text) {
        let (head, bytes, count) = self.short_error(number);
        (head, buffer::Text::EMPTY.add(&bytes[..count]))
    }

    ghost few = { lit≤ tt };

    ghost size_is = { size_is_v1 };

    ghost written_is = { written_is_v1 };
}

#[tactic(auto, unfolding(crate::specs::Error::error_head_v1, crate::specs::Error::error_letter_v1, crate::specs::Error::error_data_v1, error_texts::specs::Texts::error_bytes, buffer::specs::First::pick))]
impl ShortError for frames::HeadV1 {
    fn short_error(self, number: u8) -> (frames::HeadV1, [u8; 6], usize) {
        let (letter, text, count) = match number {
            8 => (b'N', *b"O_DEF ", 5),
            11 => (self.letter, *b"_RANGE", 6),
            13 => (b'M', *b"1     ", 1),
            _ => (self.letter, *b"_LOGIC", 6),
        };
        (frames::HeadV1 { letter, ..self }, text, count)
    }
}

// The answer of a refusal: its number, and nothing written.
fn refused(k: Refusal) -> buffer::Written
    ensures number { result.number ≡ refusal_number k }
    ensures len { result.len ≡ 0 }
{
    buffer::Written {
        number: k.number() as u16,
        len: 0,
    }
}

// Writes a frame at the front of out: its head, the data and the end. Refuses with 1 where it does not fit, with 2 where a frame cannot carry them, with
// 4 where the address lies outside 1 to 999; then out stays as it was. (Always inlined, so that a short error frame is written without loops: docs/PERFORMANCE.md.)
#[inline(always)]
pub fn write<H: Head>(out: &mut [u8], head: H, bytes: &[u8]) -> buffer::Written
    ensures { Sent out.old (H.written (length out.old) head bytes.now) out.new result }
{
    let k = H::SIZE;
    let n = bytes.len();
    if out.len() < k + n + 2 {
        return refused(Refusal::Room);
    }
    if !head.carries(bytes) {
        return refused(Refusal::Shape);
    }
    if !is_address(head.address()) {
        return refused(Refusal::Address);
    }
    let start = head.start(n);
    buffer::put(out, 0, &start[..k]);
    buffer::put(out, k, bytes);
    put_end(out, k + n);
    buffer::Written {
        number: 0,
        len: k + n + 2,
    }
}

// Writes a frame whose data are a short text.
pub fn write_text<H: Head>(out: &mut [u8], head: H, text: buffer::Text) -> buffer::Written
    ensures sent { Sent out.old (H.written (length out.old) head (text_of text)) out.new result }
    ensures text_len_bound { length (text_of text) ≤ 24 }
{
    write(out, head, text.as_slice())
}

// Writes the error frame that answers a request with this head.
pub fn write_error<H: Head>(out: &mut [u8], head: H, number: u8) -> buffer::Written
    ensures { Sent out.old (H.written (length out.old) (H.error_head number head) (H.error_data number)) out.new result }
{
    let (answer, text) = head.error(number);
    write_text(out, answer, text)
}

// The same for a head whose error data are short, without a `Text` between. The gauge writes its error frames so.
pub fn write_short_error<H: ShortError>(out: &mut [u8], head: H, number: u8) -> buffer::Written
    ensures { Sent out.old (H.written (length out.old) (H.error_head number head) (H.error_data number)) out.new result }
{
    let (answer, text, count) = head.short_error(number);
    write(out, answer, &text[..count])
}

#[cfg(test)]
mod tests {
    use super::*;

    // The error frames of document 01, "Answer numbers of the text gauge", their checksums added up apart from this code; the memory behind a frame
    // keeps its bytes.
    #[test]
    fn error_frames_v2(rt: HostRuntime) {
        let head = frames::HeadV2 {
            address: 1,
            access: b'0',
            first: b'M',
            second: b'V',
        };
        for (number, frame) in [
            (6, b"0017MV06LENGTHS\r"),
            (7, b"0017MV06_LOGIC^\r"),
            (8, b"0017MV06NO_DEF\\\r"),
            (9, b"0017MV06_LOGIC^\r"),
            (10, b"0017MV06SYNTAXx\r"),
            (11, b"0017MV06_RANGE]\r"),
            (12, b"0017MV06_LOGIC^\r"),
            (13, b"0017MV06ERROR1L\r"),
        ] {
            let mut out = [170; 18];
            let written = write_error(&mut out, head, number);
            assert_eq!(rt; written.number, 0, "number {number}");
            assert_eq!(rt; written.len, 16, "number {number}");
            assert_eq!(rt; out[..16], frame[..], "number {number}");
            assert_eq!(rt; out[16..], [170, 170][..], "number {number}");
        }
        let (answer, data) = head.error(13);
        assert_eq!(rt; answer.access, b'7');
        assert_eq!(rt; data.as_slice(), b"ERROR1".as_slice());
    }

    #[test]
    fn error_frames_v1(rt: HostRuntime) {
        let head = frames::HeadV1 {
            address: 42,
            letter: b'C',
        };
        for (number, frame) in [
            (8, b"042NO_DEFa\r".as_slice()),
            (10, b"042C_LOGICf\r".as_slice()),
            (11, b"042C_RANGEe\r".as_slice()),
            (12, b"042C_LOGICf\r".as_slice()),
            (13, b"042M1T\r".as_slice()),
        ] {
            let mut out = [170; 14];
            let written = write_error(&mut out, head, number);
            assert_eq!(rt; written.number, 0, "number {number}");
            assert_eq!(rt; written.len, frame.len(), "number {number}");
            let (front, rest) = out.split_at(frame.len().min(14));
            assert_eq!(rt; front, frame, "number {number}");
            assert_eq!(rt; rest[0], 170, "number {number}");
        }
        let (answer, data) = head.error(13);
        assert_eq!(rt; answer.letter, b'M');
        assert_eq!(rt; data.as_slice(), b"1".as_slice());
    }
}
