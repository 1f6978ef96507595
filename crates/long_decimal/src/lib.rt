#![tactic(auto)]
// Decimals as people write them: document 01's form without its limit of six digits, by their value (`1013.2500`, `0.0000001`, `1000000`).
ghost use Rattle.std.specs.Prelude.{◌≡◌, ◌≤◌, min};
ghost use Rattle.buffer.specs.Byte.{numeral_from};
ghost use Rattle.long_decimal.specs.Long.{decimal_value, spelled_of, pointed_of, unsigned_of, decimal_of};

use decimal::Exact;

// The number that digits spell after another number, or a million where it is more.
#[tactic(auto, using(crate::proofs::Laws::spells))]
fn spell_after(v: u32, s: &[u8]) -> u32
    ensures { result ≡ min 1000000 (numeral_from v s.now) }
{
    let mut n = v;
    for b in s {
        if 1000000 <= n {
            return 1000000;
        }
        n = n * 10 + buffer::value(*b);
    }
    n.min(1000000)
}

// A number, moved up and down by powers of ten, with what follows its digits.
#[tactic(auto, using(std::proofs::lemmas::Bool::Decides::nat_tests, crate::proofs::Laws::exponent_small), unfolding(crate::specs::Long::decimal_value, crate::specs::Long::moved_of, buffer::specs::First::pick))]
fn value_of(negative: bool, n: u32, up: u8, down: u8, e: &[u8]) -> Option<Exact>
    requires { (up ≤ 100) × (down ≤ 100) }
    ensures { result ≡ decimal_value negative n up down e.now }
{
    if 1000000 <= n {
        return None;
    }
    let x = decimal::read_exponent(negative, n, e)?;
    Some(Exact {
        up: x.up + up,
        down: x.down + down,
        ..x
    })
}

// The digits before the point, those after it, and what follows them.
#[tactic(auto, using(crate::proofs::Laws::parts), unfolding(crate::specs::Long::spelled_of, buffer::specs::First::pick))]
fn spell(negative: bool, w: &[u8], f: &[u8], e: &[u8]) -> Option<Exact>
    ensures { result ≡ spelled_of negative w.now f.now e.now }
{
    if 101 <= w.len() || 101 <= f.len() {
        return None;
    }
    let k = decimal::count_significant(f);
    if k == 0 {
        let m = decimal::count_significant(w);
        let up = (w.len() - m) as u8;
        return value_of(negative, spell_after(0, &w[..m]), up, 0, e);
    }
    let v = spell_after(0, w);
    value_of(negative, spell_after(v, &f[..k]), 0, k as u8, e)
}

// What follows the point.
#[tactic(auto, using(std::proofs::lemmas::Bool::Decides::nat_tests, buffer::proofs::Laws::leading_le), unfolding(crate::specs::Long::pointed_of, buffer::specs::First::pick))]
fn pointed(negative: bool, w: &[u8], s: &[u8]) -> Option<Exact>
    ensures { result ≡ pointed_of negative w.now s.now }
{
    let k = buffer::count_digits(s);
    if k < 1 {
        return None;
    }
    let (f, e) = s.split_at(k);
    spell(negative, w, f, e)
}

#[tactic(auto, using(decimal::proofs::Fronts::fronts, buffer::proofs::Laws::leading_le), unfolding(crate::specs::Long::unsigned_of, buffer::specs::First::pick, buffer::specs::Byte::starts_with))]
fn unsigned(negative: bool, s: &[u8]) -> Option<Exact>
    ensures { result ≡ unsigned_of negative s.now }
{
    let n = buffer::count_digits(s);
    if n < 1 {
        return None;
    }
    let (w, t) = s.split_at(n);
    match t {
        [b'.', f @ ..] => pointed(negative, w, f),
        _ => spell(negative, w, &[], t),
    }
}

// The exact value of a decimal, or none.
#[tactic(auto, using(decimal::proofs::Fronts::fronts), unfolding(crate::specs::Long::decimal_of, buffer::specs::First::pick, buffer::specs::Byte::starts_with))]
pub fn read_decimal(s: &[u8]) -> Option<Exact>
    ensures { result ≡ decimal_of s.now }
{
    match s {
        [b'-', t @ ..] => unsigned(true, t),
        _ => unsigned(false, s),
    }
}
