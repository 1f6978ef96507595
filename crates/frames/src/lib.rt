#![tactic(auto)]
// Text frames of the protocols V1 and V2 (document 01, "Text frames"): the checksum, and any bytes read as a
// frame.
ghost use Rattle.std.specs.Prelude.{◌≡◌, ◌≤◌, [], ◌∷◌, length, None, Some, Ok, Err};
ghost use Rattle.buffer.specs.First.{◌⇒◌, first};
ghost use Rattle.buffer.specs.Byte.{within, every};
ghost use Rattle.refusals.specs.declared.Refusal.{Refusal};
ghost use Rattle.frames.specs.Checksum.{checksum_of};
ghost use Rattle.frames.specs.Frame.{is_letter, data_from, length_fits, misshapen, wrong_sum, wrong_address, wrong_length, frame_of};

use refusals::Refusal;

// ---- the checksum

// The sum of all bytes of s, mod 64, plus 64.
pub fn checksum(s: &[u8]) -> u8
    ensures { result ≡ checksum_of s.now }
{
    let mut sum: u8 = 0;
    for b in s {
        sum = (sum + *b % 64) % 64;
    }
    sum + 64
}

// ---- reading

// What a V1 frame says before its data.
#[derive(Clone, Copy)]
pub struct HeadV1 {
    pub address: u16,
    pub letter: u8,
}

// What a V2 frame says before its data: first and second are the two bytes of the command.
#[derive(Clone, Copy)]
pub struct HeadV2 {
    pub address: u16,
    pub access: u8,
    pub first: u8,
    pub second: u8,
}

// Bytes that are a frame: a V1 frame, a V2 frame whose LEN is wrong (6), or a V2 frame.
#[derive(Clone, Copy)]
pub enum Frame {
    V1(HeadV1),
    Length(HeadV2),
    V2(HeadV2),
}

// Whether a byte is a letter A-Z or a-z.
#[tactic(auto, using(std::proofs::lemmas::Bool::Decides::nat_tests), unfolding(crate::specs::Frame::is_letter, buffer::specs::Byte::within))]
pub fn is_letter(b: u8) -> bool
    ensures { result ≡ is_letter b }
{
    matches!(b, b'A'..=b'Z' | b'a'..=b'z')
}

fn length_fits(s: &[u8]) -> bool
    ensures { result ≡ length_fits s.now }
{
    let n = s.len();
    match s.get(3) {
        Some(b) if b.is_ascii_digit() => 10 <= n && n <= 109,
        Some(b) if is_letter(*b) => 6 <= n && n <= 12,
        _ => false,
    }
}

// The data of a frame of the form: from byte `start` to before the checksum. Empty where the bytes are too few.
pub fn data_from(s: &[u8], start: usize) -> &[u8]
    ensures { result.now ≡ data_from start s.now }
{
    let end = s.len().saturating_sub(2);
    s.get(start..end).unwrap_or(&[])
}

// The data of a V1 frame: after the address and the letter. (This and `data_v2` name the two places that `data_from` is told.)
pub fn data_v1(s: &[u8]) -> &[u8]
    ensures { result.now ≡ data_from 4 s.now }
{
    data_from(s, 4)
}

// The data of a V2 frame: after the address, the access code, the command and LEN.
pub fn data_v2(s: &[u8]) -> &[u8]
    ensures { result.now ≡ data_from 8 s.now }
{
    data_from(s, 8)
}

// The checksum of s, unless a byte of s lies outside 32 to 126. The sum wraps at 256, a multiple of 64: beside the test of each byte this is
// the faster form, in `checksum` the other one is.
fn printed_sum(s: &[u8]) -> Option<u8>
    ensures { result ≡ first (every (within 32 126) s.now ⇒ Some (checksum_of s.now) ∷ []) None }
{
    let mut sum: u8 = 0;
    for b in s {
        if !buffer::is_within(*b, 32, 126) {
            return None;
        }
        sum = sum.wrapping_add(*b);
    }
    Some(sum % 64 + 64)
}

fn has_wrong_address(s: &[u8]) -> bool
    requires { 3 ≤ length s.now }
    ensures { result ≡ wrong_address s.now }
{
    let digits = &s[..3];
    !buffer::all_within(digits, b'0', b'9') || buffer::numeral_of(digits) == 0
}

// SHAPE, CHECKSUM or ADDRESS: the first that applies. The bytes before the checksum are read once.
fn check(s: &[u8]) -> Result<(), Refusal>
    ensures { result ≡ first (misshapen s.now ⇒ Err Refusal.Shape ∷ wrong_sum s.now ⇒ Err Refusal.Checksum ∷ wrong_address s.now ⇒ Err Refusal.Address ∷ []) (Ok tt) }
{
    if !length_fits(s) {
        return Err(Refusal::Shape);
    }
    let [body @ .., given, b'\r'] = s else {
        return Err(Refusal::Shape);
    };
    let given = *given;
    if given == b'\r' {
        return Err(Refusal::Shape);
    }
    let Some(sum) = printed_sum(body) else {
        return Err(Refusal::Shape);
    };
    if given != sum {
        return Err(Refusal::Checksum);
    }
    if has_wrong_address(s) {
        return Err(Refusal::Address);
    }
    Ok(())
}

fn has_wrong_length(s: &[u8]) -> bool
    requires { 10 ≤ length s.now }
    ensures { result ≡ wrong_length s.now }
{
    let digits = &s[6..8];
    !buffer::all_within(digits, b'0', b'9') || buffer::numeral_of(digits) as usize != s.len() - 10
}

// Any bytes as a frame, or the first refusal that applies.
pub fn read_frame(s: &[u8]) -> Result<Frame, Refusal>
    ensures { result ≡ frame_of s.now }
{
    check(s)?;
    let address = buffer::numeral_of(&s[..3]) as u16;
    let letter = s[3];
    if is_letter(letter) {
        return Ok(Frame::V1(HeadV1 { address, letter }));
    }
    let head = HeadV2 {
        address,
        access: letter,
        first: s[4],
        second: s[5],
    };
    if has_wrong_length(s) {
        return Ok(Frame::Length(head));
    }
    Ok(Frame::V2(head))
}
