#![tactic(auto)]
// Any bytes read as a typed request to a text gauge, whatever the gauge's state (document 01, "The master's side").
ghost use Rattle.std.specs.Prelude.{◌≡◌};
ghost use Rattle.settings.specs.Limits.{limits_of};
ghost use Rattle.request_reader.specs.Decoded.{from_v2, judged_v1, from_v1, Decodes};

use frames::Frame;
use refusals::Refusal;
use requests::{RequestV1, RequestV2};
use settings::Settings;
use sources::WithSources;

// A typed request and its address.
#[derive(Clone, Copy)]
pub enum Request {
    V1(u16, RequestV1),
    V2(u16, RequestV2),
}

#[tactic(auto, unfolding(crate::specs::Decoded::from_v2))]
fn from_v2(address: u16, ask: Result<RequestV2, Refusal>) -> Result<Request, Refusal>
    ensures { result ≡ from_v2 address ask }
{
    Ok(Request::V2(address, ask?))
}

// A V1 request; the number of a factor is judged.
#[tactic(auto, unfolding(crate::specs::Decoded::judged_v1, buffer::specs::First::pick))]
fn judged_v1(address: u16, request: RequestV1) -> Result<Request, Refusal>
    ensures { result ≡ judged_v1 address request }
{
    match request {
        RequestV1::SetFactor(n) if !Settings::is_factor(n) => Err(Refusal::Range),
        _ => Ok(Request::V1(address, request)),
    }
}

#[tactic(auto, unfolding(crate::specs::Decoded::from_v1))]
fn from_v1(address: u16, ask: Result<RequestV1, Refusal>) -> Result<Request, Refusal>
    ensures { result ≡ from_v1 address ask }
{
    judged_v1(address, ask?)
}

// Any bytes as a typed request to a gauge of this profile, or the first refusal that applies. Beside it stand the sources of an accepted write
// of SM.
#[tactic(auto, unfolding(crate::specs::Decoded::request_of, crate::specs::Decoded::from_frame, crate::specs::Decoded::request_list, crate::specs::Decoded::list_from, crate::specs::Decoded::from_v2))]
pub fn read_request(profile: sources::Profile, s: &[u8]) -> WithSources<Result<Request, Refusal>>
    ensures { Decodes (limits_of profile) s.now result }
{
    match frames::read_frame(s) {
        Err(k) => WithSources::alone(Err(k)),
        Ok(Frame::Length(_)) => WithSources::alone(Err(Refusal::Length)),
        Ok(Frame::V1(h)) => WithSources::alone(from_v1(
            h.address,
            requests::read_v1(h.letter, frames::data_v1(s)),
        )),
        Ok(Frame::V2(h)) => {
            let asked = requests::read_v2(profile, h, frames::data_v2(s));
            WithSources {
                value: from_v2(h.address, asked.value),
                sources: asked.sources,
            }
        }
    }
}
