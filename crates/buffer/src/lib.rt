#![tactic(auto)]
// Bytes written into lent memory, and short texts by value. Every writer of the project uses these functions.
ghost use Rattle.std.specs.Prelude.{◌≡◌, [], ◌∷◌, ◌++◌, length, take, drop, ◌+◌, ◌-◌, ◌≤◌};
ghost use Rattle.buffer.specs.Answer.{Stored};
ghost use Rattle.buffer.specs.Byte.{at, within, every, leading, starts_with, same_text, until_of, numeral, word_of};
ghost use Rattle.buffer.specs.Text.{text_of, cut};

// An answer's number, and the length of its reply. (No Result: document 01 answers both, a refusal that is answered has a reply too, and the theorems
// over sequences speak of both.)
#[derive(Clone, Copy)]
pub struct Written {
    pub number: u16,
    pub len: usize,
}

// A gauge after a request, and what it answered.
#[derive(Clone, Copy)]
pub struct Answered<G> {
    pub gauge: G,
    pub written: Written,
}

// A gauge after a setting of its bench, document 01's term for what sets its readings from outside, and the answer's number.
#[derive(Clone, Copy)]
pub struct BenchAnswer<G> {
    pub gauge: G,
    pub number: u16,
}

// Stores src from place `at` on. What would fall past the end is left out.
#[tactic(auto, using(crate::proofs::Laws::sets_out))]
pub fn put(out: &mut [u8], at: usize, src: &[u8])
    ensures { Stored out.old at src.now out.new }
{
    for (i, b) in src.iter().enumerate() {
        if out.len() - i <= at {
            return;
        }
        out[at + i] = *b;
    }
}

// A short text: the first len of its bytes, in fixed memory, since nothing here uses a heap.
#[derive(Clone, Copy)]
pub struct Text {
    pub bytes: [u8; 24],
    pub len: usize,
}

impl Text {
    // how many characters a text holds
    pub const MOST: usize = 24;

    pub const EMPTY: Text = Text {
        bytes: [0; 24],
        len: 0,
    };

    // The text and one character more. A full text stays as it is.
    pub fn push(self, b: u8) -> Text
        ensures { text_of result ≡ cut (text_of self ++ (b ∷ [])) }
    {
        let Text { mut bytes, mut len } = self;
        if len < Text::MOST {
            bytes[len] = b;
            len += 1;
        }
        Text { bytes, len }
    }

    // The text and then all of src, as far as it holds them.
    pub fn add(self, src: &[u8]) -> Text
        ensures { text_of result ≡ cut (text_of self ++ src.now) }
    {
        let Text { mut bytes, mut len } = self;
        for b in src {
            if len < Text::MOST {
                bytes[len] = *b;
                len += 1;
            }
        }
        Text { bytes, len }
    }

    // The text and then another, as far as it holds them.
    pub fn join(self, other: Text) -> Text
        ensures { text_of result ≡ cut (text_of self ++ text_of other) }
    {
        self.add(other.as_slice())
    }

    // How many characters the text has.
    #[tactic(auto, unfolding(crate::specs::Text::text_of))]
    pub fn size(self) -> usize
        ensures { result ≡ length (text_of self) }
    {
        self.len.min(Text::MOST)
    }

    // The text's characters.
    #[tactic(auto, using(crate::proofs::Laws::shown, crate::proofs::Laws::shown_le))]
    pub fn as_slice(&self) -> &[u8]
        ensures { result.now ≡ text_of self.now }
    {
        &self.bytes[..self.size()]
    }
}

// Stores a text from place `at` on.
pub fn put_text(out: &mut [u8], at: usize, t: Text)
    ensures { Stored out.old at (text_of t) out.new }
{
    put(out, at, t.as_slice());
}

// Whether low <= b <= high.
#[tactic(auto, unfolding(crate::specs::Byte::within))]
pub fn is_within(b: u8, low: u8, high: u8) -> bool
    ensures { result ≡ within low high b }
{
    (low..=high).contains(&b)
}

// Whether each byte of s is from low to high.
pub fn all_within(s: &[u8], low: u8, high: u8) -> bool
    ensures { result ≡ every (within low high) s.now }
{
    s.iter().all(|b| is_within(*b, low, high))
}

// What a digit stands for. Below `0` it is 0.
pub fn value(b: u8) -> u32
    ensures { result ≡ b - 48 }
{
    u32::from(b.saturating_sub(b'0'))
}

// The number that the first six characters of s spell.
pub fn numeral_of(s: &[u8]) -> u32
    ensures { result ≡ numeral (take 6 s.now) }
{
    let first = &s[..s.len().min(6)];
    let mut v = 0;
    for b in first {
        v = v * 10 + value(*b);
    }
    v
}

// Whether two texts are the same.
#[tactic(auto, using(crate::proofs::Laws::same_pointwise, crate::proofs::Laws::same_lengths))]
pub fn is_same(s: &[u8], t: &[u8]) -> bool
    ensures { result ≡ same_text s.now t.now }
{
    s == t
}

// The byte at place i, and 0 past the end.
pub fn byte_at(s: &[u8], i: usize) -> u8
    ensures { result ≡ at s.now i }
{
    s.get(i).copied().unwrap_or(0)
}

// The number of four bytes, the high byte first.
pub fn word(a: u8, b: u8, c: u8, d: u8) -> u32
    ensures { result ≡ word_of a b c d }
{
    u32::from_be_bytes([a, b, c, d])
}

// How many digits stand at the front of s.
pub fn count_digits(s: &[u8]) -> usize
    ensures { result ≡ leading s.now }
{
    s.iter().take_while(|b| b.is_ascii_digit()).count()
}

// Whether s starts with the character b.
#[tactic(auto, unfolding(crate::specs::Byte::starts_with))]
pub fn starts_with(s: &[u8], b: u8) -> bool
    ensures { result ≡ starts_with b s.now }
{
    byte_at(s, 0) == b
}

// A place that has no b before it: the first b, or where fewer than four bytes are left.
// Four bytes at a time: a byte at a time costs 15 to 18 instructions more a request (docs/PERFORMANCE.md).
fn passed_by_fours(s: &[u8], b: u8) -> usize
    ensures { (result ≤ length s.now) × (result + until_of b (drop result s.now) ≡ until_of b s.now) }
{
    let mut i: usize = 0;
    while 4 <= s.len() - i {
        if s[i] == b {
            return i;
        }
        if s[i + 1] == b {
            return i + 1;
        }
        if s[i + 2] == b {
            return i + 2;
        }
        if s[i + 3] == b {
            return i + 3;
        }
        i += 4;
    }
    i
}

// How many bytes stand before the first b, or the end.
pub fn until(s: &[u8], b: u8) -> usize
    ensures { result ≡ until_of b s.now }
{
    for i in passed_by_fours(s, b)..s.len() {
        if s[i] == b {
            return i;
        }
    }
    s.len()
}

// What is left of s from place a on.
pub fn rest(s: &[u8], a: usize) -> &[u8]
    ensures { result.now ≡ drop a s.now }
{
    &s[a.min(s.len())..]
}
