// The words of a line, which one space separates, and what they say.
ghost use Rattle.std.specs.Prelude.{◌≡◌, ◌-◌, ◌<◌, length, All, IfSome};
ghost use Rattle.buffer.specs.Byte.{numeral};

use arrayvec::ArrayVec;

// The most words of a line.
const MOST: usize = 16;

// The words of a line, in fixed memory.
pub type Words<'a> = ArrayVec<&'a [u8], MOST>;

// The first n bytes, or all of them where there are fewer.
pub fn front(s: &[u8], n: usize) -> &[u8] {
    s.get(..n).unwrap_or(s)
}

// The same of memory that is lent on. (A function over `&` hands on no `&mut`.)
pub fn front_mut(s: &mut [u8], n: usize) -> &mut [u8] {
    let end = n.min(s.len());
    &mut s[..end]
}

fn is_space(b: &u8) -> bool {
    *b == b' '
}

// The words of a line, or none where one is empty or there are more than MOST.
pub fn split<'a>(line: &'a [u8]) -> Option<Words<'a>>
    ensures { IfSome result (λ w. All (λ x. 0 < length x.now) w.items) }
{
    let mut words = ArrayVec::new();
    for word in line.split(is_space) {
        if word.is_empty() {
            return None;
        }
        words.try_push(word).ok()?;
    }
    Some(words)
}

// What a decimal digit stands for.
fn digit(b: u8) -> Option<u8>
    ensures value { IfSome result (λ d. d ≡ b - 48) }
    ensures below { IfSome result (λ d. d < 10) }
{
    match b {
        b'0'..=b'9' => Some(b - b'0'),
        _ => None,
    }
}

// A decimal number of up to so many digits.
pub fn number(word: &[u8], digits: usize) -> Option<usize>
    ensures { IfSome result (λ n. n ≡ numeral word.now) }
{
    if word.is_empty() || digits < word.len() {
        return None;
    }
    let mut n: usize = 0;
    for b in word {
        n = n.checked_mul(10)?.checked_add(usize::from(digit(*b)?))?;
    }
    Some(n)
}

// What a hex digit stands for.
fn nibble(b: u8) -> Option<u8>
    ensures { IfSome result (λ d. d < 16) }
{
    match b {
        b'a'..=b'f' => Some(b - b'a' + 10),
        _ => digit(b),
    }
}

// Puts the bytes of HEX at the front of memory, and parts it there. None where the word is no HEX, or memory is too short.
pub fn bytes<'a>(word: &[u8], memory: &'a mut [u8]) -> Option<(&'a [u8], &'a mut [u8])> {
    let digits: &[u8] = match word {
        b"-" => b"",
        b"" => return None,
        _ => word,
    };
    if digits.len() % 2 != 0 {
        return None;
    }
    let (read, left) = memory.split_at_mut_checked(digits.len() / 2)?;
    for (b, pair) in read.iter_mut().zip(digits.chunks_exact(2)) {
        *b = nibble(pair[0])? * 16 + nibble(pair[1])?;
    }
    Some((read, left))
}
