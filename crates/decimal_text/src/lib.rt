#![tactic(auto)]
// Decimal numbers as they are sent (document 01, "Decimal numbers"): the written form, and the form with two decimals.
ghost use Rattle.std.specs.Prelude.{◌≡◌, [], ◌∷◌, ◌++◌, ◌/◌, cond, eqb};
ghost use Rattle.buffer.specs.Byte.{digit};
ghost use Rattle.buffer.specs.Text.{text_of, cut};
ghost use Rattle.decimal_text.specs.Written.{sign_text, trimmed, pointed, digits5, exponent_text, written_of, whole_text, two_decimals};

// The last digit of n as a character.
fn digit(n: u32) -> u8
    ensures { result ≡ digit n }
{
    (n % 10) as u8 + b'0'
}

// A text of one character.
#[tactic(auto, unfolding(buffer::specs::Text::text_of, buffer::specs::Text::cut))]
fn one(b: u8) -> buffer::Text
    ensures { text_of result ≡ b ∷ [] }
{
    buffer::Text::EMPTY.push(b)
}

#[tactic(auto, unfolding(buffer::specs::Text::text_of, crate::specs::Written::sign_text))]
fn sign(negative: bool) -> buffer::Text
    ensures { text_of result ≡ sign_text negative }
{
    if negative {
        one(b'-')
    } else {
        buffer::Text::EMPTY
    }
}

// The text t, then the first digit of a mantissa, and the point and the further digits, if any are left after trailing zeros go. (This one and the
// next are never inlined: their texts would be handed on byte by byte. docs/PERFORMANCE.md)
#[tactic(auto, using(crate::proofs::Laws::fraction), unfolding(crate::specs::Written::pointed))]
#[inline(never)]
fn with_mantissa(t: buffer::Text, m: u32) -> buffer::Text
    ensures { text_of result ≡ cut (text_of t ++ ((digit (m / 100000) ∷ []) ++ pointed (trimmed (digits5 m)))) }
{
    let first = digit(m / 100000);
    if m % 100000 == 0 {
        return t.push(first);
    }
    let digits = [
        first,
        b'.',
        digit(m / 10000),
        digit(m / 1000),
        digit(m / 100),
        digit(m / 10),
        digit(m),
    ];
    let k = decimal::count_significant(&digits[2..]);
    t.add(&digits[..k + 2])
}

// The text t, then `e` and the exponent of a place.
#[tactic(auto, using(crate::proofs::Laws::grown), unfolding(crate::specs::Written::exponent_text))]
#[inline(never)]
fn with_exponent(t: buffer::Text, place: u8) -> buffer::Text
    ensures { text_of result ≡ cut (text_of t ++ ((101 ∷ []) ++ exponent_text place)) }
{
    let place = place as u32;
    if place < 9 {
        return t.add(&[b'e', b'-', digit(9 - place)]);
    }
    t.add(&[b'e', digit(place - 9)])
}

// A number as it is sent: 0 has no sign and no exponent.
#[tactic(auto, using(crate::proofs::Laws::grown, crate::proofs::Laws::written_fits, crate::proofs::Laws::zero_sent), unfolding(crate::specs::Written::written_of, crate::specs::Written::sign_text, buffer::specs::First::pick))]
pub fn written(n: decimal::Number) -> buffer::Text
    ensures { text_of result ≡ written_of n }
{
    let m = n.mantissa;
    let t = with_mantissa(sign(n.negative && m != 0), m);
    if m == 0 {
        return t;
    }
    with_exponent(t, n.place)
}

// The text t, then a number below 1000 with no needless leading zero.
#[tactic(auto, using(crate::proofs::Laws::grown), unfolding(crate::specs::Written::whole_text, buffer::specs::First::pick))]
fn with_whole(t: buffer::Text, n: u32) -> buffer::Text
    ensures { text_of result ≡ cut (text_of t ++ whole_text n) }
{
    if n < 10 {
        t.push(digit(n))
    } else if n < 100 {
        t.push(digit(n / 10)).push(digit(n))
    } else {
        t.push(digit(n / 100)).push(digit(n / 10)).push(digit(n))
    }
}

// The sign of a count of hundredths: none of zero.
#[tactic(auto, using(crate::proofs::Laws::grown), unfolding(crate::specs::Written::sign_text))]
fn signed(negative: bool, hundredths: u32) -> buffer::Text
    ensures { text_of result ≡ cond (eqb hundredths 0) [] (sign_text negative) }
{
    sign(negative && hundredths != 0)
}

// Hundredths with two decimals and no needless leading zero.
#[tactic(auto, using(crate::proofs::Laws::grown, crate::proofs::Laws::two_le), unfolding(crate::specs::Written::two_decimals))]
pub fn two_decimals(negative: bool, hundredths: u16) -> buffer::Text
    ensures { text_of result ≡ two_decimals negative hundredths }
{
    let h = hundredths as u32;
    with_whole(signed(negative, h), h / 100)
        .push(b'.')
        .push(digit(h / 10))
        .push(digit(h))
}
