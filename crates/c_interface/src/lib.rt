#![tactic(auto)]
// The C boundary of the proved gauges: functions of numbers and slices. include/perrezkun.h declares them for C.
ghost use Rattle.std.specs.Prelude.{◌≡◌, length};
ghost use Rattle.opg_crc.specs.Crc.{crc_of};
ghost use Rattle.buffer.specs.Answer.{Sent};
ghost use Rattle.opg_request_reader.specs.Asked.{asked_of};
ghost use Rattle.rewriter.specs.Again.{opg_again, Rewritten};
ghost use Rattle.sources.specs.declared.Profile.{Profile};
ghost use Rattle.settings.specs.Limits.{limits_of};
ghost use Rattle.c_interface.specs.Boundary.{profile_at, RanTo, PlayedOn};

use sources::Profile;

// Plays a script of calls on a text gauge of the third profile and an OPG at factory settings (player::play): how many calls were made.
#[unsafe(no_mangle)]
pub extern "C" fn perrezkun_play(
    script: &[u8],
    memory: &mut [u8],
    numbers: &mut [u16],
    lens: &mut [u16],
) -> usize
    ensures { RanTo Profile.Standard script.now memory.old numbers.old lens.old result memory.new numbers.new lens.new }
{
    player::play(Profile::Standard, script, memory, numbers, lens).calls
}

// The profile that a number names: 0 the third, 1 VSH, 2 VSM.
#[tactic(auto, unfolding(crate::specs::Boundary::profile_at, buffer::specs::First::pick))]
fn profile_at(n: u8) -> Option<Profile>
    ensures { result ≡ profile_at n }
{
    match n {
        0 => Some(Profile::Standard),
        1 => Some(Profile::Vsh),
        2 => Some(Profile::Vsm),
        _ => None,
    }
}

// The same on a text gauge of the profile that a number names. Where it names none, no call is made.
#[unsafe(no_mangle)]
pub extern "C" fn perrezkun_play_on(
    profile: u8,
    script: &[u8],
    memory: &mut [u8],
    numbers: &mut [u16],
    lens: &mut [u16],
) -> usize
    ensures { PlayedOn profile script.now memory.old numbers.old lens.old result memory.new numbers.new lens.new }
{
    match profile_at(profile) {
        Some(named) => player::play(named, script, memory, numbers, lens).calls,
        None => 0,
    }
}

// The CRC of OPG frames, over any bytes.
#[unsafe(no_mangle)]
pub extern "C" fn perrezkun_opg_crc(bytes: &[u8]) -> u16
    ensures { result ≡ crc_of bytes.now }
{
    opg_crc::crc(bytes)
}

// Reads any bytes as a text request to a gauge of the third profile and writes the request again: the number of the first refusal, or 0. len is the
// frame's length.
#[unsafe(no_mangle)]
pub extern "C" fn perrezkun_rewrite_text(request: &[u8], out: &mut [u8], len: &mut usize) -> u16
    ensures { Rewritten (limits_of Profile.Standard) request.now out.old out.new (record { number = result; len = len.new }) }
{
    let w = rewriter::rewrite_text(Profile::Standard, request, out);
    *len = w.len;
    w.number
}

// Reads any bytes as an OPG request and writes the request again: the number of the first refusal, or 20. len is the frame's length.
#[unsafe(no_mangle)]
pub extern "C" fn perrezkun_rewrite_opg(request: &[u8], out: &mut [u8], len: &mut usize) -> u16
    ensures { Sent out.old (opg_again (length out.old) (asked_of request.now)) out.new (record { number = result; len = len.new }) }
{
    let written = rewriter::rewrite_opg(request, out);
    *len = written.len;
    written.number
}
