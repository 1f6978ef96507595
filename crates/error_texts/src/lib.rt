#![tactic(auto)]
// The six error texts of V2, and the reply column of "Answer numbers of the text gauge" (document 01).
ghost use Rattle.std.specs.Prelude.{◌≡◌};
ghost use Rattle.buffer.specs.Byte.{same_text};
ghost use Rattle.error_texts.specs.Texts.{error_bytes, error_of};

// The six error texts of V2.
#[derive(Clone, Copy)]
pub enum ErrorText {
    Length,
    Logic,
    NoDef,
    Syntax,
    Range,
    Error1,
}

// The six bytes of an error text. (No Display: they are sent as bytes.)
#[tactic(auto, unfolding(crate::specs::Texts::error_bytes))]
pub fn error_bytes(e: ErrorText) -> [u8; 6]
    ensures { result ≡ error_bytes e }
{
    match e {
        ErrorText::Length => *b"LENGTH",
        ErrorText::Logic => *b"_LOGIC",
        ErrorText::NoDef => *b"NO_DEF",
        ErrorText::Syntax => *b"SYNTAX",
        ErrorText::Range => *b"_RANGE",
        ErrorText::Error1 => *b"ERROR1",
    }
}

// Whether a text is this error text.
pub fn is_error_text(s: &[u8], e: ErrorText) -> bool
    ensures { result ≡ same_text s.now (error_bytes e) }
{
    buffer::is_same(s, &error_bytes(e))
}

// The error text of an answer number from 6 to 13. (No TryFrom: it is total, and any other number has the last text.)
#[tactic(auto, unfolding(crate::specs::Texts::error_of, buffer::specs::First::pick))]
pub fn error_of(number: u8) -> ErrorText
    ensures { result ≡ error_of number }
{
    match number {
        6 => ErrorText::Length,
        7 | 9 | 12 => ErrorText::Logic,
        8 => ErrorText::NoDef,
        10 => ErrorText::Syntax,
        11 => ErrorText::Range,
        _ => ErrorText::Error1,
    }
}
