#![tactic(auto)]
// Decimal numbers (document 01, "Decimal numbers"): exact values, their reader, and comparison by value.
ghost use Rattle.std.specs.Prelude.{◌≡◌, ◌||◌, ◌+◌, ◌*◌, ◌^◌, ◌≤◌, ◌<◌, take, ltb};
ghost use Rattle.buffer.specs.Byte.{leading, starts_with, numeral};
ghost use Rattle.decimal.specs.Exact.{units, size_of, normal_of};
ghost use Rattle.decimal.specs.Form.{whole, power_of, exponent_of, fraction_of, unsigned_of, scan_of, refusal_of, number_of};
ghost use Rattle.decimal.specs.Number.{below_of, counted_of, hundredths_of};
ghost use Rattle.decimal.specs.Digits.{significant};
ghost use Rattle.decimal.specs.Inner.{Scaled};

use refusals::Refusal;

// A number: mantissa * 10 ^ place, in 10^-14. A reader gives the canonical one of each value: a mantissa of six digits, the first not
// zero, and place 0 to 18; zero is ZERO.
#[derive(Clone, Copy)]
pub struct Number {
    pub mantissa: u32,
    pub place: u8,
    pub negative: bool,
}

impl Number {
    pub const ZERO: Number = Number {
        negative: false,
        mantissa: 0,
        place: 0,
    };
}

// An exact value: digits * 10 ^ up / 10 ^ down.
#[derive(Clone, Copy)]
pub struct Exact {
    pub negative: bool,
    pub digits: u32,
    pub up: u8,
    pub down: u8,
}

// Why a text or a value is no number.
#[derive(Clone, Copy)]
pub enum NumberError {
    Syntax,
    Range,
}

impl From<NumberError> for Refusal {
    ghost from_gives = { λ e r. r ≡ refusal_of e };

    fn from(e: NumberError) -> Refusal {
        match e {
            NumberError::Syntax => Refusal::Syntax,
            NumberError::Range => Refusal::Range,
        }
    }
}

// The canonical number of a value, or SYNTAX where it needs over six digits, or RANGE.
#[tactic(auto, using(std::proofs::lemmas::Bool::Decides::nat_tests, crate::proofs::Sizes::size_is), unfolding(crate::specs::Exact::normal_of, buffer::specs::First::pick))]
pub fn normal(x: Exact) -> Result<Number, NumberError>
    ensures { result ≡ normal_of x }
{
    if x.digits == 0 {
        return Ok(Number::ZERO);
    }
    let z = x.digits.ilog10() + 1;
    let p = 10u64.pow(z);
    let m = x.digits as u64 * 1000000;
    if m % p != 0 {
        return Err(NumberError::Syntax);
    }
    let top = z + 8 + x.up as u32;
    let down = x.down as u32;
    if top < down || down + 19 <= top {
        return Err(NumberError::Range);
    }
    Ok(Number {
        negative: x.negative,
        mantissa: (m / p) as u32,
        place: (top - down) as u8,
    })
}

// ---- the reader

// The number that the first n characters spell, which are digits.
#[tactic(auto, using(crate::proofs::Laws::front_digits))]
fn spelled(s: &[u8], n: usize) -> u32
    requires { (n ≤ 6) × (n ≤ leading s.now) }
    ensures value { result ≡ numeral (take n s.now) }
    ensures upper_bound { result < 10 ^ n }
{
    let (front, _) = s.split_at(n);
    buffer::numeral_of(front)
}

// The one or two digits of an exponent, to the end of the text.
#[tactic(auto, using(std::proofs::lemmas::Bool::Decides::nat_tests), unfolding(crate::specs::Form::power_of, buffer::specs::First::pick))]
fn power(s: &[u8], x: Exact, below: bool) -> Option<Exact>
    requires { x.down ≤ 6 }
    ensures { result ≡ power_of s.now x below }
{
    let n = buffer::count_digits(s);
    if n < 1 || 3 <= n || n < s.len() {
        return None;
    }
    let p = spelled(s, n) as u8;
    Some(if below {
        Exact {
            up: 0,
            down: x.down + p,
            ..x
        }
    } else {
        Exact { up: p, ..x }
    })
}

// What follows the digits: nothing, or an exponent.
#[tactic(auto, using(crate::proofs::Fronts::fronts), unfolding(crate::specs::Form::exponent_of, buffer::specs::First::pick, buffer::specs::Byte::starts_with))]
fn exponent(s: &[u8], x: Exact) -> Option<Exact>
    requires { x.down ≤ 6 }
    ensures { result ≡ exponent_of s.now x }
{
    match s {
        [] => Some(x),
        [b'e' | b'E', t @ ..] => match t {
            [b'-', t @ ..] => power(t, x, true),
            _ => power(t, x, false),
        },
        _ => None,
    }
}

// The value of a whole number with what follows it: nothing, or an exponent.
pub fn read_exponent(negative: bool, digits: u32, s: &[u8]) -> Option<Exact>
    ensures { result ≡ exponent_of s.now (whole negative digits) }
{
    let x = Exact {
        negative,
        digits,
        up: 0,
        down: 0,
    };
    exponent(s, x)
}

// What follows the point: x has the n digits that stand before it.
#[tactic(auto, using(std::proofs::lemmas::Bool::Decides::nat_tests, crate::proofs::Sizes::joined_six, buffer::proofs::Laws::leading_le), unfolding(crate::specs::Form::fraction_of, buffer::specs::First::pick))]
fn fraction(s: &[u8], x: Exact, n: usize) -> Option<Exact>
    requires { (n ≤ 6) × (x.digits < 10 ^ n) }
    ensures { result ≡ fraction_of s.now x n }
{
    let k = buffer::count_digits(s);
    if k < 1 || 7 <= n + k {
        return None;
    }
    let all = Exact {
        digits: x.digits * 10u32.pow(k as u32) + spelled(s, k),
        up: 0,
        down: k as u8,
        ..x
    };
    exponent(buffer::rest(s, k), all)
}

#[tactic(auto, using(crate::proofs::Fronts::fronts), unfolding(crate::specs::Form::unsigned_of, buffer::specs::First::pick, buffer::specs::Byte::starts_with))]
fn unsigned(s: &[u8], negative: bool) -> Option<Exact>
    ensures { result ≡ unsigned_of s.now negative }
{
    let n = buffer::count_digits(s);
    if n < 1 || 7 <= n {
        return None;
    }
    let x = Exact {
        negative,
        digits: spelled(s, n),
        up: 0,
        down: 0,
    };
    let t = buffer::rest(s, n);
    match t {
        [b'.', f @ ..] => fraction(f, x, n),
        _ => exponent(t, x),
    }
}

// The exact value of a text of the form.
#[tactic(auto, using(crate::proofs::Fronts::fronts), unfolding(crate::specs::Form::scan_of, buffer::specs::First::pick, buffer::specs::Byte::starts_with))]
pub fn read_exact(s: &[u8]) -> Option<Exact>
    ensures { result ≡ scan_of s.now }
{
    match s {
        [b'-', t @ ..] => unsigned(t, true),
        _ => unsigned(s, false),
    }
}

// A text as a number, SYNTAX or RANGE.
#[tactic(auto, unfolding(crate::specs::Form::number_of, crate::specs::Form::parsed_of))]
pub fn read_number(s: &[u8]) -> Result<Number, NumberError>
    ensures { result ≡ number_of s.now }
{
    normal(read_exact(s).ok_or(NumberError::Syntax)?)
}

// How many characters there are up to the last that is not `0`.
pub fn count_significant(s: &[u8]) -> usize
    ensures { result ≡ significant s.now }
{
    match s.iter().rposition(|b| *b != b'0') {
        Some(i) => i + 1,
        None => 0,
    }
}

// ---- by value

// m * 10 ^ d, or where that is beyond a u32 some number that is too.
#[tactic(auto, using(crate::proofs::Sizes::saturates))]
fn scaled(m: u32, d: u8) -> u64
    ensures { Scaled m d result }
{
    (m as u64).saturating_mul(10u64.saturating_pow(d as u32))
}

// Whether a's size is below b's: both are taken at the smaller place.
#[tactic(auto, using(crate::proofs::Sizes::less_at_min), unfolding(crate::specs::Exact::units))]
fn is_less(a: Number, b: Number) -> bool
    ensures { result ≡ ltb (units a) (units b) }
{
    let p = a.place.min(b.place);
    scaled(a.mantissa, a.place - p) < scaled(b.mantissa, b.place - p)
}

impl Number {
    // Whether this value is below the other. (No derived order: it goes by value, and two numbers that are not canonical may have one value.)
    #[tactic(auto, using(crate::proofs::Sizes::some_units), unfolding(crate::specs::Number::below_of, crate::specs::Number::plus, crate::specs::Number::minus, crate::specs::Exact::units))]
    pub fn is_below(self, other: Number) -> bool
        ensures { result ≡ below_of self other }
    {
        match (self.negative, other.negative) {
            (false, false) => is_less(self, other),
            (false, true) => false,
            (true, false) => self.mantissa != 0 || other.mantissa != 0,
            (true, true) => is_less(other, self),
        }
    }
}

// How many hundredths a number's size is, where they are whole and fit a u32.
#[tactic(auto, using(crate::proofs::Sizes::hundredths), unfolding(crate::specs::Number::hundredths_of, crate::specs::Exact::units, buffer::specs::First::pick))]
pub fn in_hundredths(n: Number) -> Option<u32>
    ensures { result ≡ hundredths_of n }
{
    if 12 <= n.place {
        return u32::try_from(scaled(n.mantissa, n.place - 12)).ok();
    }
    let q = 10u64.pow((12 - n.place) as u32);
    let m = n.mantissa as u64;
    if m % q != 0 {
        return None;
    }
    u32::try_from(m / q).ok()
}
