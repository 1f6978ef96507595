// What a call prints: a value, and the line of it.
use arrayvec::ArrayVec;
use buffer::{Text, Written};
use itoa::Buffer;
use script_words::word;
use std::io;

// The byte that fills the answer memory before a call.
pub const FILL: u8 = 0xa5;

// More than a call prints.
const ROOM: usize = 1024;

// The words that a line begins with.
#[derive(Clone, Copy)]
pub enum Word {
    Done,
    Value,
    Error,
    Refused,
    Unit,
    Pressure,
}

impl Word {
    // The word, and a space where a text follows it.
    fn bytes(self) -> &'static [u8] {
        match self {
            Word::Done => b"done",
            Word::Value => b"value ",
            Word::Error => b"error ",
            Word::Refused => b"refused ",
            Word::Unit => b"unit ",
            Word::Pressure => b"pressure ",
        }
    }
}

// A line.
#[derive(Clone, Copy)]
pub enum Shown {
    // a line that is no call
    Unknown,
    // a number alone
    Number(u16),
    // a word and a text
    Said(Word, Text),
    // an answer, whose bytes are at the front of the memory lent: its number, its length and its bytes
    Answered(Written),
}

// A word alone.
pub fn word_alone(word: Word) -> Shown {
    Shown::Said(word, Text::EMPTY)
}

// A word and a number.
pub fn numbered(word: Word, n: u16) -> Shown {
    let mut digits = Buffer::new();
    Shown::Said(word, Text::EMPTY.add(digits.format(n).as_bytes()))
}

// The two digits of a byte in hex.
fn hex(b: u8) -> [u8; 2] {
    let digits = b"0123456789abcdef";
    [digits[usize::from(b / 16)], digits[usize::from(b % 16)]]
}

// A word and 32 bits in hex.
pub fn bits(word: Word, w: u32) -> Shown {
    let mut text = Text::EMPTY;
    for b in w.to_be_bytes() {
        text = text.add(&hex(b));
    }
    Shown::Said(word, text)
}

// A line's characters, in fixed memory. What has no room is left out.
type Row = ArrayVec<u8, ROOM>;

fn put(row: &mut Row, src: &[u8]) {
    let _ = row.try_extend_from_slice(src);
}

fn put_number(row: &mut Row, n: usize) {
    let mut digits = Buffer::new();
    put(row, digits.format(n).as_bytes());
}

fn put_text(row: &mut Row, text: Text) {
    let bytes = text.bytes;
    put(row, word::front(&bytes, text.size()));
}

// Bytes in hex, `-` where there are none.
fn put_bytes(row: &mut Row, src: &[u8]) {
    if src.is_empty() {
        put(row, b"-");
    }
    for b in src {
        put(row, &hex(*b));
    }
}

// An answer, and `changed` where a byte after it is not as it was before the call.
fn put_answer(row: &mut Row, w: Written, memory: &[u8]) {
    put_number(row, usize::from(w.number));
    put(row, b" ");
    put_number(row, w.len);
    put(row, b" ");
    put_bytes(row, word::front(memory, w.len));
    if !buffer::all_within(buffer::rest(memory, w.len), FILL, FILL) {
        put(row, b" changed");
    }
}

// Prints a line by one write. A write that failed is the error.
pub fn line(rt: &impl Print, shown: Shown, memory: &[u8]) -> io::Result<()> {
    let mut row = ArrayVec::new();
    match shown {
        Shown::Unknown => put(&mut row, b"?"),
        Shown::Number(n) => put_number(&mut row, usize::from(n)),
        Shown::Said(word, text) => {
            put(&mut row, word.bytes());
            put_text(&mut row, text);
        }
        Shown::Answered(w) => put_answer(&mut row, w, memory),
    }
    put(&mut row, b"\n");
    rt.write_all(row.as_slice())
}
