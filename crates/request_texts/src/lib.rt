#![tactic(auto)]
// What typed requests are sent as (document 01, "Settings and readings, V2" and "V1 on the same settings"): the head and the data of their
// frames.
ghost use Rattle.std.specs.Prelude.{◌≡◌};
ghost use Rattle.buffer.specs.Text.{text_of};
ghost use Rattle.sources.specs.Source.{list_of};
ghost use Rattle.request_texts.specs.RequestText.{access_of, command_in, head_for, data_v2, digits6, letter_v1, data_v1};

use requests::{Command, RequestV1, RequestV2};

// ---- V2

// The access code of a request.
#[tactic(auto, unfolding(crate::specs::RequestText::access_of))]
pub fn access_code(request: RequestV2) -> u8
    ensures { result ≡ access_of request }
{
    match request {
        RequestV2::Read(_) => b'0',
        RequestV2::Restore(_) => b'4',
        RequestV2::Set(_) => b'2',
    }
}

// The command of a request.
#[tactic(auto, unfolding(crate::specs::RequestText::command_in))]
pub fn command_in(request: RequestV2) -> Command
    ensures { result ≡ command_in request }
{
    match request {
        RequestV2::Read(c) | RequestV2::Restore(c) => c,
        RequestV2::Set(x) => Command::Of(settings::key_of(x)),
    }
}

// The head of a request's frame.
#[tactic(auto, unfolding(crate::specs::RequestText::head_for))]
pub fn head_for(address: u16, request: RequestV2) -> frames::HeadV2
    ensures { result ≡ head_for address request }
{
    let [first, second] = requests::command_bytes(command_in(request));
    frames::HeadV2 {
        address,
        access: access_code(request),
        first,
        second,
    }
}

// The data of a request: a write sends what a read of the setting sends after it, whatever else is held. (The list is a parameter of its own, as of the
// writer: callers have it apart.)
#[tactic(auto, unfolding(crate::specs::RequestText::data_v2, buffer::specs::Text::text_of))]
pub fn data_v2(request: RequestV2, list: sources::Sources) -> buffer::Text
    ensures { text_of result ≡ data_v2 request (list_of list) }
{
    match request {
        RequestV2::Read(_) | RequestV2::Restore(_) => buffer::Text::EMPTY,
        RequestV2::Set(x) => settings::Settings::at_factory(sources::Profile::Standard)
            .with(x, list)
            .text(settings::key_of(x)),
    }
}

// ---- V1

// The last six digits of a number. (Leading zeros stand, so no printing of the library's serves.)
#[tactic(auto, unfolding(buffer::specs::Text::text_of, buffer::specs::Text::cut))]
pub fn six_digits(n: u32) -> buffer::Text
    ensures { text_of result ≡ digits6 n }
{
    let digits = [
        (n / 1000 / 100 % 10) as u8 + 48,
        (n / 1000 / 10 % 10) as u8 + 48,
        (n / 1000 % 10) as u8 + 48,
        (n / 100 % 10) as u8 + 48,
        (n / 10 % 10) as u8 + 48,
        (n % 10) as u8 + 48,
    ];
    buffer::Text::EMPTY.add(&digits)
}

// The letter of a request.
#[tactic(auto, unfolding(crate::specs::RequestText::letter_v1))]
pub fn letter_v1(request: RequestV1) -> u8
    ensures { result ≡ letter_v1 request }
{
    match request {
        RequestV1::Measure => b'M',
        RequestV1::ReadFactor => b'C',
        RequestV1::Unlock | RequestV1::SetFactor(_) => b'c',
        RequestV1::ReadUnit => b'U',
        RequestV1::SetUnit(_) => b'u',
    }
}

// The data of a request.
#[tactic(auto, unfolding(crate::specs::RequestText::data_v1, buffer::specs::Text::text_of, buffer::specs::Text::cut))]
pub fn data_v1(request: RequestV1) -> buffer::Text
    ensures { text_of result ≡ data_v1 request }
{
    match request {
        RequestV1::Measure | RequestV1::ReadUnit => buffer::Text::EMPTY,
        RequestV1::ReadFactor | RequestV1::Unlock => buffer::Text::EMPTY.push(b'1'),
        RequestV1::SetFactor(n) => six_digits(n),
        RequestV1::SetUnit(unit) => six_digits(settings::unit_number(unit)),
    }
}
