#![tactic(auto)]
// The simulated text gauge as a program: text requests from standard input, each up to its CR, are answered on standard output. Arguments are
// bench settings for the start, each SOURCE=VALUE, and profile=vsh or profile=vsm for a gauge of that profile.
use gauge_rules::Gauge;
use sources::Profile;
use std::env::{Env, FillError};
use std::io;
use std::io::Read;

// The most bytes of an argument that can be a setting.
const WORD_MAX: usize = 256;

// The size of the two buffers, of what is read at once and of its replies.
const LARGE: usize = 65536;

// ---- arguments

// What is wrong with an argument.
#[derive(Clone, Copy)]
enum Wrong {
    Malformed,
    Refused,
    Profile,
}

impl Wrong {
    fn why(self) -> &'static [u8] {
        match self {
            Wrong::Malformed => {
                b"' is not SOURCE=VALUE: a source is 0, 1, 2, 6, 7, T2, T6 or FS, a value a decimal, UR, OR or ERROR1\n"
            }
            Wrong::Refused => b"' is refused by the bench (15)\n",
            Wrong::Profile => {
                b"' names no profile, or a second one: profile=vsh or profile=vsm\n"
            }
        }
    }
}

// The line that says what is wrong with an argument.
fn complain(err: &impl Print, word: &[u8], wrong: Wrong) {
    let _ = err.write_all(b"gauge: argument '");
    let _ = err.write_all(word);
    let _ = err.write_all(wrong.why());
}

// The gauge with one setting more.
fn set(g: Gauge, b: readings::Bench) -> Result<Gauge, Wrong> {
    let a = text_gauge::set_bench(g, b);
    if a.number != 0 {
        return Err(Wrong::Refused);
    }
    Ok(a.gauge)
}

// The profile that an argument names. The third has no word.
fn profile_of(word: &[u8]) -> Option<Profile> {
    match word {
        b"profile=vsh" => Some(Profile::Vsh),
        b"profile=vsm" => Some(Profile::Vsm),
        _ => None,
    }
}

// The gauge, where an argument names its profile.
fn with_profile(g: Gauge, word: &[u8]) -> Result<Gauge, Wrong> {
    match (profile_of(word), g.profile) {
        (Some(Profile::Vsh), Profile::Vsh) | (Some(Profile::Vsm), Profile::Vsm) => Ok(g),
        _ => Err(Wrong::Profile),
    }
}

// The gauge with the setting of one argument.
fn with_word(g: Gauge, word: &[u8]) -> Result<Gauge, Wrong> {
    let n = word
        .iter()
        .position(|b| *b == b'=')
        .ok_or(Wrong::Malformed)?;
    match (&word[..n], &word[n + 1..]) {
        (b"profile", _) => with_profile(g, word),
        (source, value) => match bench_words::read_setting(source, value) {
            Some(b) => set(g, b),
            None => Err(Wrong::Malformed),
        },
    }
}

// The gauge with the setting of argument i, or none where it is wrong. One that is too long for any setting is named by its first bytes.
fn with_argument(args: &impl Env, err: &impl Print, g: Gauge, i: usize) -> Option<Gauge> {
    let mut buf = [0u8; WORD_MAX];
    let (word, set): (&[u8], Result<Gauge, Wrong>) = match args.arg(i, &mut buf) {
        Ok(n) => (&buf[..n], with_word(g, &buf[..n])),
        Err(_) => (&buf, Err(Wrong::Malformed)),
    };
    match set {
        Ok(h) => Some(h),
        Err(wrong) => {
            complain(err, word, wrong);
            None
        }
    }
}

// The profile that argument i names.
fn profile_at(args: &impl Env, i: usize) -> Option<Profile> {
    let mut buf = [0u8; WORD_MAX];
    let n = args.arg(i, &mut buf).ok()?;
    profile_of(&buf[..n])
}

// How many arguments the program was started with, its own name among them.
fn arg_count(args: &impl Env) -> usize {
    let mut word = [0u8; WORD_MAX];
    for i in 0..usize::MAX {
        if let Err(FillError::NotPresent) = args.arg(i, &mut word) {
            return i;
        }
    }
    usize::MAX
}

// The profile that the arguments name first, or the third.
fn chosen(args: &impl Env, count: usize) -> Profile {
    (1..count)
        .find_map(|i| profile_at(args, i))
        .unwrap_or(Profile::Standard)
}

// The gauge at its start, with the profile and the settings of all arguments, or none where one is wrong.
fn start(args: &impl Env, err: &impl Print) -> Option<Gauge> {
    let count = arg_count(args);
    let g = Gauge::at_start(chosen(args, count));
    (1..count).try_fold(g, |h, i| with_argument(args, err, h, i))
}

// ---- requests

// A stream that failed, and why. `replay` has the same lines: what they print has no contract, which a library's function needs.
struct Failed {
    stream: &'static str,
    why: io::Error,
}

fn no_input(why: io::Error) -> Failed {
    Failed {
        stream: "standard input",
        why,
    }
}

fn no_output(why: io::Error) -> Failed {
    Failed {
        stream: "standard output",
        why,
    }
}

// An error's words without the system's number.
fn without_number(text: &str) -> &str {
    match text.split_once(" (os error ") {
        Some((words, _)) => words,
        None => text,
    }
}

// The line that says which stream failed, and why.
fn fail(rt: &(impl Eprint + AllocGlobal), failed: Failed) {
    let Failed { stream, why } = failed;
    let _ = match format!(in rt.alloc(); "{why}") {
        Ok(text) => {
            let words = without_number(text.as_str());
            rt.eprintln(format_args!("gauge: {stream}: {words}"))
        }
        Err(_) => rt.eprintln(format_args!("gauge: {stream}: {why}")),
    };
}

// Answers the whole requests of the input, and says how many bytes they have. (No index is counted: each turn goes on behind what the last one served.)
fn answer_all(rt: &impl Print, g: &mut Gauge, input: &[u8], out: &mut [u8]) -> io::Result<usize> {
    let mut at: usize = 0;
    loop {
        let served = service::serve(*g, &input[at..], out);
        *g = served.gauge;
        rt.write_all(&out[..served.len])?;
        if served.taken == 0 {
            return Ok(at);
        }
        at += served.taken;
    }
}

// Reads to the end of the input, answers what can be read at once, and keeps the unfinished end. A proved loop has to end, so it counts its
// turns, up to a number that no run reaches.
fn run<R: Print + Input>(rt: &R, start: Gauge) -> Result<(), Failed> {
    let mut reader = rt.reader();
    let mut g = start;
    let mut input = [0u8; LARGE];
    let mut output = [0u8; LARGE];
    let mut kept: usize = 0;
    for _ in 0..u64::MAX {
        let got = reader.read(&mut input[kept..]).map_err(no_input)?;
        if got == 0 {
            return Ok(());
        }
        let end = kept + got;
        let taken = answer_all(rt, &mut g, &input[..end], &mut output).map_err(no_output)?;
        kept = service::keep(&mut input, taken, end);
    }
    Ok(())
}

fn main(rt: HostRuntime) {
    let Some(g) = start(&rt, &rt.stderr()) else {
        return;
    };
    if let Err(failed) = run(&rt, g) {
        fail(&rt, failed);
    }
}
