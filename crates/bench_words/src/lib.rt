#![tactic(auto)]
// A bench setting in words (document 01, "Settings and readings, V2"): the text of a source and the text of a value.
ghost use Rattle.std.specs.Prelude.{◌≡◌};
ghost use Rattle.bench_words.specs.Words.{value_at, status_of, worded_of};

use readings::{Bench, Pressure};

// The value of a source, by its code.
#[tactic(auto, unfolding(crate::specs::Words::value_at, crate::specs::Words::number_at, buffer::specs::First::pick))]
fn value_at(code: u8, value: &[u8]) -> Option<Bench>
    ensures { result ≡ value_at code value.now }
{
    if buffer::is_same(value, &Pressure::UNDER_RANGE) {
        return Some(Bench::UnderRange(code));
    }
    if buffer::is_same(value, &Pressure::OVER_RANGE) {
        return Some(Bench::OverRange(code));
    }
    if error_texts::is_error_text(value, error_texts::ErrorText::Error1) {
        return Some(Bench::Faulty(code));
    }
    let x = long_decimal::read_decimal(value)?;
    Some(Bench::Reads(code, x))
}

// FS.
#[tactic(auto, unfolding(crate::specs::Words::status_of, buffer::specs::First::pick))]
fn status_of(p: Result<decimal::Number, decimal::NumberError>) -> Option<Bench>
    ensures { result ≡ status_of p }
{
    let n = p.ok()?;
    if n.negative {
        return None;
    }
    let h = decimal::in_hundredths(n)?;
    if h % 100 != 0 {
        return None;
    }
    let status = u8::try_from(h / 100).ok()?;
    Some(Bench::Status(status))
}

// Any two texts as a bench setting.
#[tactic(auto, unfolding(crate::specs::Words::worded_of, crate::specs::Words::source_at, decimal::specs::Form::parsed_of, buffer::specs::First::pick))]
pub fn read_setting(source: &[u8], value: &[u8]) -> Option<Bench>
    ensures { result ≡ worded_of source.now value.now }
{
    if buffer::is_same(source, b"FS") {
        let x = long_decimal::read_decimal(value)?;
        return status_of(decimal::normal(x));
    }
    let code = sources::source_of(source).ok()?;
    value_at(code, value)
}
