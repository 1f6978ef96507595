#![tactic(auto)]
// A typed request in words, written (document 01, "The master's side"). Each value is any that its type has, so that the writers' refusals show.
use call::Typed;
use call_words::{call, print};
use opg_commands::Request;
use print::Shown;
use requests::{RequestV1, RequestV2};
use script_words::word;
use settings::{PressureUnit, Setting, Transition};
use sources::{Profile, Sources};

// ---- what a word stands for

// N up to 255.
fn byte(word: &[u8]) -> Option<u8> {
    u8::try_from(word::number(word, 3)?).ok()
}

// N up to 65535.
fn half(word: &[u8]) -> Option<u16> {
    u16::try_from(word::number(word, 5)?).ok()
}

// N up to 4294967295.
fn wide(word: &[u8]) -> Option<u32> {
    u32::try_from(word::number(word, 10)?).ok()
}

// UNIT.
fn unit(word: &[u8]) -> Option<PressureUnit> {
    match word {
        b"0" => Some(PressureUnit::Mbar),
        b"1" => Some(PressureUnit::Torr),
        b"2" => Some(PressureUnit::HPa),
        _ => None,
    }
}

// MODE: whether a stream line is sent.
fn mode(word: &[u8]) -> Option<bool> {
    match word {
        b"0" => Some(false),
        b"4" => Some(true),
        _ => None,
    }
}

// SIGN MANTISSA PLACE.
fn number(sign: &[u8], mantissa: &[u8], place: &[u8]) -> Option<decimal::Number> {
    let negative = match sign {
        b"+" => false,
        b"-" => true,
        _ => return None,
    };
    Some(decimal::Number {
        negative,
        mantissa: wide(mantissa)?,
        place: byte(place)?,
    })
}

// ---- V2

// COMMAND.
fn command(name: &[u8]) -> Option<requests::Command> {
    let &[first, second] = name else {
        return None;
    };
    requests::command_of(first, second)
}

// COUNT and seven codes.
fn list(count: &[u8], codes: &[&[u8]]) -> Option<Sources> {
    let count = wide(count)? as usize;
    match codes {
        [a, b, c, d, e, f, g] => Some(Sources {
            codes: [
                byte(a)?,
                byte(b)?,
                byte(c)?,
                byte(d)?,
                byte(e)?,
                byte(f)?,
                byte(g)?,
            ],
            count,
        }),
        _ => None,
    }
}

// A setting, but SM.
fn setting(words: &[&[u8]]) -> Option<Setting> {
    match words {
        [b"DA", n] => Some(Setting::Address(byte(n)?)),
        [b"DU", u] => Some(Setting::PressureIn(unit(u)?)),
        [b"C1", n] => Some(Setting::Factor(half(n)?)),
        [b"CM", n] => Some(Setting::Control(byte(n)?)),
        [b"CC", n] => Some(Setting::Cathode(byte(n)?)),
        [b"FC", n] => Some(Setting::Filament(byte(n)?)),
        [b"ST", b"D", sign, mantissa, place] => {
            let end = number(sign, mantissa, place)?;
            Some(Setting::Switch(Transition::Direct(end)))
        }
        [
            b"ST",
            b"F",
            sign,
            mantissa,
            place,
            b"T",
            sign_2,
            mantissa_2,
            place_2,
        ] => {
            let low = number(sign, mantissa, place)?;
            let high = number(sign_2, mantissa_2, place_2)?;
            Some(Setting::Switch(Transition::Between(low, high)))
        }
        _ => None,
    }
}

// A request, and the list that stands beside it, which counts for SM alone.
fn read_v2(words: &[&[u8]]) -> Option<(RequestV2, Sources)> {
    match words {
        [b"read", name] => Some((RequestV2::Read(command(name)?), Sources::NONE)),
        [b"restore", name] => Some((RequestV2::Restore(command(name)?), Sources::NONE)),
        [b"SM", on, count, codes @ ..] => {
            let x = Setting::Stream(mode(on)?);
            Some((RequestV2::Set(x), list(count, codes)?))
        }
        _ => Some((RequestV2::Set(setting(words)?), Sources::NONE)),
    }
}

// Writes the V2 request of these words to a gauge of a profile.
fn write_v2(profile: Profile, to: u16, words: &[&[u8]], out: &mut [u8]) -> Shown {
    match read_v2(words) {
        Some((r, q)) => Shown::Answered(request_writer::write_request_v2(out, profile, to, r, q)),
        None => Shown::Unknown,
    }
}

// ---- V1

fn read_v1(words: &[&[u8]]) -> Option<RequestV1> {
    match words {
        [b"M"] => Some(RequestV1::Measure),
        [b"C1"] => Some(RequestV1::ReadFactor),
        [b"c1"] => Some(RequestV1::Unlock),
        [b"c", n] => Some(RequestV1::SetFactor(wide(n)?)),
        [b"U"] => Some(RequestV1::ReadUnit),
        [b"u", u] => Some(RequestV1::SetUnit(unit(u)?)),
        _ => None,
    }
}

// Writes the V1 request of these words.
fn write_v1(to: u16, words: &[&[u8]], out: &mut [u8]) -> Shown {
    match read_v1(words) {
        Some(r) => Shown::Answered(request_writer::write_request_v1(out, to, r)),
        None => Shown::Unknown,
    }
}

// ---- OPG

fn read_opg(words: &[&[u8]]) -> Option<Request> {
    match words {
        [b"pressure", n] => Some(Request::ReadPressure(byte(n)?)),
        [b"unit"] => Some(Request::ReadUnit),
        [b"unit", n] => Some(Request::WriteUnit(byte(n)?)),
        [b"off"] => Some(Request::DetectionOff),
        [b"on", spectra, gas] => Some(Request::DetectionOn(wide(spectra)?, byte(gas)?)),
        _ => None,
    }
}

// Writes the OPG request of these words.
fn write_opg(words: &[&[u8]], out: &mut [u8]) -> Shown {
    match read_opg(words) {
        Some(r) => Shown::Answered(opg_request_writer::write_request(out, r)),
        None => Shown::Unknown,
    }
}

// Writes a typed request.
pub fn write(request: Typed, out: &mut [u8]) -> Shown {
    match request {
        Typed::V2(profile, to, words) => write_v2(profile, to, words, out),
        Typed::V1(to, words) => write_v1(to, words, out),
        Typed::Opg(words) => write_opg(words, out),
    }
}
