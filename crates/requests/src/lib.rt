#![tactic(auto)]
// Requests to the text gauge (document 01, "Settings and readings, V2" and "V1 on the same settings"): what a frame asks, whatever the
// gauge's state.
ghost use Rattle.std.specs.Prelude.{◌≡◌};
ghost use Rattle.settings.specs.Limits.{limits_of};
ghost use Rattle.requests.specs.Command.{command_of, command_text, is_access, can_write, can_restore, lacks_access};
ghost use Rattle.requests.specs.AskV2.{set_of, AsksV2, Writes};
ghost use Rattle.requests.specs.AskV1.{six_digits, bare_of, one_of, unit_at, ask_v1};
ghost use Rattle.requests.specs.declared.Command.{Command};

use refusals::Refusal;
use settings::{Key, Setting};
use sources::WithSources;

// ---- V2

// The commands of V2: four that are only read, and the settings.
#[derive(Clone, Copy)]
pub enum Command {
    MV,
    T2,
    FN,
    FS,
    Of(Key),
}

// A V2 request. SM's list of sources stands beside it.
#[derive(Clone, Copy)]
pub enum RequestV2 {
    Read(Command),
    Restore(Command),
    Set(Setting),
}

// The command that two bytes name.
#[tactic(auto, unfolding(crate::specs::Command::command_of, crate::specs::Command::find_command, crate::specs::Command::command_text, buffer::specs::Byte::same_text, buffer::specs::First::pick))]
pub fn command_of(first: u8, second: u8) -> Option<Command>
    ensures { result ≡ command_of first second }
{
    match &[first, second] {
        b"MV" => Some(Command::MV),
        b"T2" => Some(Command::T2),
        b"FN" => Some(Command::FN),
        b"FS" => Some(Command::FS),
        b"DA" => Some(Command::Of(Key::DA)),
        b"DU" => Some(Command::Of(Key::DU)),
        b"C1" => Some(Command::Of(Key::C1)),
        b"CM" => Some(Command::Of(Key::CM)),
        b"CC" => Some(Command::Of(Key::CC)),
        b"FC" => Some(Command::Of(Key::FC)),
        b"ST" => Some(Command::Of(Key::ST)),
        b"SM" => Some(Command::Of(Key::SM)),
        _ => None,
    }
}

// The two characters of a command.
#[tactic(auto, unfolding(crate::specs::Command::command_text))]
pub fn command_bytes(command: Command) -> [u8; 2]
    ensures { result ≡ command_text command }
{
    match command {
        Command::MV => *b"MV",
        Command::T2 => *b"T2",
        Command::FN => *b"FN",
        Command::FS => *b"FS",
        Command::Of(Key::DA) => *b"DA",
        Command::Of(Key::DU) => *b"DU",
        Command::Of(Key::C1) => *b"C1",
        Command::Of(Key::CM) => *b"CM",
        Command::Of(Key::CC) => *b"CC",
        Command::Of(Key::FC) => *b"FC",
        Command::Of(Key::ST) => *b"ST",
        Command::Of(Key::SM) => *b"SM",
    }
}

// Whether an access code is read, write or factory default.
#[tactic(auto, unfolding(crate::specs::Command::is_access))]
fn is_access(access: u8) -> bool
    ensures { result ≡ is_access access }
{
    matches!(access, b'0' | b'2' | b'4')
}

#[tactic(auto, unfolding(crate::specs::Command::can_write))]
fn can_write(command: Command) -> bool
    ensures { result ≡ can_write command }
{
    matches!(command, Command::Of(_))
}

#[tactic(auto, unfolding(crate::specs::Command::can_restore))]
fn can_restore(command: Command) -> bool
    ensures { result ≡ can_restore command }
{
    match command {
        Command::MV | Command::T2 | Command::FN | Command::FS | Command::Of(Key::SM) => false,
        Command::Of(_) => true,
    }
}

// Whether a command lacks an access.
#[tactic(auto, unfolding(crate::specs::Command::lacks_access, buffer::specs::First::pick))]
pub fn lacks_access(access: u8, command: Command) -> bool
    ensures { result ≡ lacks_access access command }
{
    match access {
        b'2' => !can_write(command),
        b'4' => !can_restore(command),
        _ => false,
    }
}

// A write of a command.
#[tactic(auto, unfolding(crate::specs::AskV2::write_of, crate::specs::AskV2::write_list, crate::specs::AskV2::set_of))]
fn write_of(
    profile: sources::Profile,
    command: Command,
    bytes: &[u8],
) -> WithSources<Result<RequestV2, Refusal>>
    ensures { Writes (limits_of profile) command bytes.now result }
{
    let Command::Of(key) = command else {
        return WithSources::alone(Err(Refusal::Access));
    };
    let judged = forms::judge(profile, key, bytes);
    WithSources {
        value: judged.value.map(RequestV2::Set),
        sources: judged.sources,
    }
}

// What a V2 frame with this head and these data asks of a gauge of this profile, and beside it the sources of an accepted write of SM.
#[tactic(auto, unfolding(crate::specs::AskV2::ask_v2, crate::specs::AskV2::ask_list, crate::specs::AskV2::ask_named, crate::specs::AskV2::ask_known, crate::specs::AskV2::named_list, buffer::specs::First::pick))]
pub fn read_v2(
    profile: sources::Profile,
    head: frames::HeadV2,
    bytes: &[u8],
) -> WithSources<Result<RequestV2, Refusal>>
    ensures { AsksV2 (limits_of profile) head bytes.now result }
{
    let access = head.access;
    if !is_access(access) {
        return WithSources::alone(Err(Refusal::Code));
    }
    let Some(command) = command_of(head.first, head.second) else {
        return WithSources::alone(Err(Refusal::NoDef));
    };
    if lacks_access(access, command) {
        return WithSources::alone(Err(Refusal::Access));
    }
    if access == b'2' {
        return write_of(profile, command, bytes);
    }
    if bytes.len() != 0 {
        return WithSources::alone(Err(Refusal::Syntax));
    }
    if access == b'4' {
        return WithSources::alone(Ok(RequestV2::Restore(command)));
    }
    WithSources::alone(Ok(RequestV2::Read(command)))
}

// ---- V1

// A V1 request. SetFactor carries the number that its six digits spell.
#[derive(Clone, Copy)]
pub enum RequestV1 {
    // M
    Measure,
    // C
    ReadFactor,
    // c1
    Unlock,
    // c
    SetFactor(u32),
    // U
    ReadUnit,
    // u
    SetUnit(settings::PressureUnit),
}

// Whether a text is six digits.
#[tactic(auto, unfolding(crate::specs::AskV1::six_digits))]
pub fn has_six_digits(s: &[u8]) -> bool
    ensures { result ≡ six_digits s.now }
{
    if s.len() != 6 {
        return false;
    }
    buffer::all_within(s, 48, 57)
}

// A request that has no data.
#[tactic(auto, unfolding(crate::specs::AskV1::bare_of, buffer::specs::First::pick))]
fn bare(s: &[u8], request: RequestV1) -> Result<RequestV1, Refusal>
    ensures { result ≡ bare_of s.now request }
{
    if s.len() != 0 {
        return Err(Refusal::Syntax);
    }
    Ok(request)
}

// A request whose data are the digit 1.
#[tactic(auto, unfolding(crate::specs::AskV1::one_of, crate::specs::AskV1::digit_one, buffer::specs::First::pick))]
fn with_one(s: &[u8], request: RequestV1) -> Result<RequestV1, Refusal>
    ensures { result ≡ one_of s.now request }
{
    let d = forms::judge_digit(s, 9)?;
    if d != 1 {
        return Err(Refusal::Range);
    }
    Ok(request)
}

// `u`: the unit that a number names.
fn unit_at(n: u32) -> Result<RequestV1, Refusal>
    ensures { result ≡ unit_at n }
{
    match settings::unit_named(n) {
        Some(unit) => Ok(RequestV1::SetUnit(unit)),
        None => Err(Refusal::Range),
    }
}

// What a V1 frame with this letter and these data asks.
#[tactic(auto, using(crate::proofs::Laws::six_whole), unfolding(crate::specs::AskV1::ask_v1, buffer::specs::First::pick))]
pub fn read_v1(letter: u8, bytes: &[u8]) -> Result<RequestV1, Refusal>
    ensures { result ≡ ask_v1 letter bytes.now }
{
    match letter {
        b'M' => bare(bytes, RequestV1::Measure),
        b'C' => with_one(bytes, RequestV1::ReadFactor),
        b'c' if has_six_digits(bytes) => Ok(RequestV1::SetFactor(buffer::numeral_of(bytes))),
        b'c' => with_one(bytes, RequestV1::Unlock),
        b'U' => bare(bytes, RequestV1::ReadUnit),
        b'u' if has_six_digits(bytes) => unit_at(buffer::numeral_of(bytes)),
        b'u' => Err(Refusal::Syntax),
        _ => Err(Refusal::NoDef),
    }
}
