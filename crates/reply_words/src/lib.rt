#![tactic(auto)]
// A reply in words: read by the reader of its request's kind (document 01, "The master's side").
use buffer::Text;
use call_words::print;
use error_texts::ErrorText;
use opg_replies::Reply;
use opg_reply_kinds::NoValue;
use print::{Shown, Word};
use readings::Pressure;
use refusals::Refusal;
use replies_v1::ReplyV1;
use replies_v2_values::ReplyV2;
use request_reader::Request;
use requests::{Command, RequestV1, RequestV2};
use sources::{Profile, Sources};

fn error(e: ErrorText) -> Shown {
    Shown::Said(Word::Error, Text::EMPTY.add(&error_texts::error_bytes(e)))
}

fn value(text: Text) -> Shown {
    Shown::Said(Word::Value, text)
}

fn pressure(p: Pressure) -> Shown {
    value(readings::pressure_text(p))
}

// The written form of a V1 reading, of which the exponent is 20 too large: 11 to 30.
fn reading_text(mantissa: u16, exponent: u8) -> Text {
    let mantissa = u32::from(mantissa) * 100;
    if exponent == 30 {
        // 10^10: the text of 10^1, and a digit more of the exponent
        return decimal_text::written(decimal::Number {
            negative: false,
            mantissa,
            place: 10,
        })
        .push(b'0');
    }
    decimal_text::written(decimal::Number {
        negative: false,
        mantissa,
        place: ((u16::from(exponent) + 9) % 20) as u8,
    })
}

// The value that a V1 request asks for. A set request has none.
fn value_v1(request: RequestV1, reply: ReplyV1) -> Result<Text, Refusal> {
    match request {
        RequestV1::Measure => {
            let (mantissa, exponent) = reply_kinds_v1::measured_of(reply)?;
            Ok(reading_text(mantissa, exponent))
        }
        RequestV1::ReadFactor => {
            let hundredths = reply_kinds_v1::factor_of(reply)?;
            Ok(decimal_text::two_decimals(false, hundredths))
        }
        RequestV1::ReadUnit => {
            let unit = reply_kinds_v1::unit_of(reply)?;
            Ok(settings::unit_text(unit))
        }
        _ => Err(Refusal::Mismatch),
    }
}

fn read_v1(address: u16, request: RequestV1, bytes: &[u8]) -> Result<Shown, Refusal> {
    let reply = replies_v1::read_reply_v1(address, request, bytes)?;
    match reply {
        ReplyV1::UnderRange => Ok(pressure(Pressure::UnderRange)),
        ReplyV1::OverRange => Ok(pressure(Pressure::OverRange)),
        ReplyV1::Done => Ok(print::word_alone(Word::Done)),
        ReplyV1::Error(e) => Ok(error(e)),
        _ => {
            let text = value_v1(request, reply)?;
            Ok(value(text))
        }
    }
}

// The value of a command. SM's list stands beside the reply.
fn value_of(command: Command, reply: ReplyV2, list: Sources) -> Result<Text, Refusal> {
    match command {
        Command::MV => {
            let n = reply_kinds_v2::pressure_of(reply)?;
            Ok(readings::pressure_text(Pressure::Measured(n)))
        }
        Command::T2 => {
            let (negative, hundredths) = reply_kinds_v2::degrees_of(reply)?;
            Ok(decimal_text::two_decimals(negative, hundredths))
        }
        Command::FN => {
            let digit = reply_kinds_v2::filament_of(reply)?;
            Ok(settings::digit_text(digit))
        }
        Command::FS => {
            let digit = reply_kinds_v2::status_of(reply)?;
            Ok(settings::digit_text(digit))
        }
        Command::Of(_) => {
            let setting = reply_kinds_v2::setting_of(reply)?;
            Ok(request_texts::data_v2(RequestV2::Set(setting), list))
        }
    }
}

// The value that a V2 request asks for. A write or a restore has none.
fn value_v2(request: RequestV2, reply: ReplyV2, list: Sources) -> Result<Text, Refusal> {
    let RequestV2::Read(command) = request else {
        return Err(Refusal::Mismatch);
    };
    value_of(command, reply, list)
}

fn read_v2(
    profile: Profile,
    address: u16,
    request: RequestV2,
    bytes: &[u8],
) -> Result<Shown, Refusal> {
    let answer = replies_v2::read_reply_v2(profile, address, request, bytes);
    let list = answer.sources;
    let reply = answer.value?;
    match reply {
        ReplyV2::UnderRange => Ok(pressure(Pressure::UnderRange)),
        ReplyV2::OverRange => Ok(pressure(Pressure::OverRange)),
        ReplyV2::Done => Ok(print::word_alone(Word::Done)),
        ReplyV2::Error(e) => Ok(error(e)),
        _ => {
            let text = value_v2(request, reply, list)?;
            Ok(value(text))
        }
    }
}

fn read_text(profile: Profile, from: u16, request: &[u8], reply: &[u8]) -> Result<Shown, Refusal> {
    let decoded = request_reader::read_request(profile, request);
    match decoded.value? {
        Request::V1(_, asks) => read_v1(from, asks, reply),
        Request::V2(_, asks) => read_v2(profile, from, asks, reply),
    }
}

fn refused(number: u16) -> Shown {
    print::numbered(Word::Refused, number)
}

// A text gauge's reply to a request, which came from this address. Both are read as a profile's.
pub fn read(profile: Profile, from: usize, request: &[u8], reply: &[u8]) -> Shown {
    let address = (from % 65536) as u16;
    match read_text(profile, address, request, reply) {
        Ok(shown) => shown,
        Err(k) => refused(u16::from(k.number())),
    }
}

// The bits of a pressure. A pressure that was read is no NaN.
fn show_bits(p: f32) -> Shown {
    if p != p {
        return Shown::Unknown;
    }
    print::bits(Word::Pressure, f32::to_bits(p))
}

// The value that a request to an OPG asks for. A write has none.
fn value_opg(request: opg_commands::Request, reply: Reply) -> Result<Shown, NoValue> {
    match request {
        opg_commands::Request::ReadPressure(_) => {
            let p = opg_reply_kinds::pressure_of(reply)?;
            Ok(show_bits(p))
        }
        opg_commands::Request::ReadUnit => {
            let unit = opg_reply_kinds::unit_of(reply)?;
            Ok(print::numbered(Word::Unit, u16::from(unit)))
        }
        _ => Err(NoValue::OtherKind),
    }
}

fn show_opg(request: opg_commands::Request, reply: Reply) -> Shown {
    match reply {
        Reply::Done => print::word_alone(Word::Done),
        Reply::Error(e) => print::numbered(Word::Error, u16::from(e)),
        _ => match value_opg(request, reply) {
            Ok(shown) => shown,
            Err(why) => refused(why.number()),
        },
    }
}

// An OPG's reply to a request.
pub fn read_opg(request: &[u8], reply: &[u8]) -> Shown {
    let asks = match opg_request_reader::read_request(request) {
        Ok(asks) => asks,
        Err(denied) => return refused(denied.number()),
    };
    match opg_replies::read_reply(asks, reply) {
        Ok(read) => show_opg(asks, read),
        Err(k) => refused(u16::from(k.number())),
    }
}
