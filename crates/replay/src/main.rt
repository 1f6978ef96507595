#![tactic(auto)]
// Plays a script from standard input on one text gauge and one OPG, from factory settings and the bench's start on, and prints one line
// for each call. A call is a line: words separated by one space, and LF; the last line may end without LF. HEX is an even number of
// digits 0-9 and a-f, or `-` for no bytes. LENT is the length of the answer memory, 0 to 256, which holds a5 before each call. PROFILE is `vsh` or
// `vsm`; where none is named, it is the third profile.
//   restart [PROFILE]                  both gauges start again, the text gauge of a profile; prints 0
//   text LENT HEX                      a request to the text gauge
//   line LENT                          the text gauge's stream line
//   opg LENT HEX                       a request to the OPG
//     each prints NUMBER LENGTH HEX, the reply, and `changed` where a byte after it is not as it was
//   bench SOURCE VALUE                 a setting of the text gauge's bench; prints its number
//   opgbench BITS                      the OPG's pressure, eight hex digits of an f32, or `none`; prints its number
//   request HEX [PROFILE]              reads a request and writes it again; prints NUMBER LENGTH HEX
//   opgrequest HEX                     the same for an OPG
//   reply ADDRESS HEX HEX [PROFILE]    reads a request, and then a reply to it that came from this address
//   opgreply HEX HEX                   the same for an OPG
//     these print `value TEXT`, `pressure BITS`, `unit N`, `done`, `error TEXT` or `refused N`
//   write2 LENT ADDRESS REQUEST [PROFILE]
//                                      writes a typed V2 request:
//     read COMMAND, restore COMMAND, DA N, DU UNIT, C1 HUNDREDTHS, CM N, CC N, FC N, ST D NUMBER, ST F NUMBER T NUMBER,
//     SM MODE COUNT CODE CODE CODE CODE CODE CODE CODE
//     where NUMBER is SIGN MANTISSA PLACE, + or - and the value MANTISSA * 10^(PLACE - 14); UNIT is 0 mbar, 1 Torr, 2 hPa; MODE 0 or 4;
//     CODE a source's digit, 8 for T2, 9 for T6. The first COUNT of the seven codes count
//   write1 LENT ADDRESS REQUEST        a typed V1 request: M, C1, c1, c HUNDREDTHS, U, u UNIT
//   writeopg LENT REQUEST              a typed OPG request: pressure N, unit, unit N, off, on SPECTRA GAS
//     these print NUMBER LENGTH HEX, and `changed`, as `text` does. A number is any that its type has: N, PLACE, CODE and GAS up to 255,
//     C1 up to 65535, the others up to 4294967295, with as many digits at most
// Any other line, and one of more than 65536 bytes, changes nothing and prints `?`. What was played is printed before more input is waited for.
// A failed read or write is named on standard error, and nothing more is played.
use call_words::lines;
use lines::Met;
use std::io;

mod calls;

// The size of the two buffers, of what is read at once and of a line.
const LARGE: usize = 65536;

// A stream that failed, and why. `gauge` has the same lines: what they print has no contract, which a library's function needs.
struct Failed {
    stream: &'static str,
    why: io::Error,
}

fn no_input(why: io::Error) -> Failed {
    Failed {
        stream: "standard input",
        why,
    }
}

fn no_output(why: io::Error) -> Failed {
    Failed {
        stream: "standard output",
        why,
    }
}

// An error's words without the system's number.
fn without_number(text: &str) -> &str {
    match text.split_once(" (os error ") {
        Some((words, _)) => words,
        None => text,
    }
}

// The line that says which stream failed, and why.
fn complain(rt: &(impl Eprint + AllocGlobal), failed: Failed) {
    let Failed { stream, why } = failed;
    let _ = match format!(in rt.alloc(); "{why}") {
        Ok(text) => {
            let words = without_number(text.as_str());
            rt.eprintln(format_args!("replay: {stream}: {words}"))
        }
        Err(_) => rt.eprintln(format_args!("replay: {stream}: {why}")),
    };
}

// Plays the whole input. A proved loop has to end, so it counts its turns, up to a number that no run reaches.
fn play<R: Print + Input>(rt: &R, input: &mut [u8], line: &mut [u8]) -> Result<(), Failed> {
    let mut reader = rt.reader();
    let mut world = calls::at_start(sources::Profile::Standard);
    let mut c = lines::START;
    for _ in 0..u64::MAX {
        match lines::step(&mut reader, &mut c, input, line).map_err(no_input)? {
            Met::Part => (),
            Met::Line(words) => calls::run(rt, &mut world, words).map_err(no_output)?,
            Met::Last(words) => return calls::run(rt, &mut world, words).map_err(no_output),
            Met::End => return Ok(()),
        }
    }
    Ok(())
}

fn main(rt: HostRuntime) {
    let mut input = [0u8; LARGE];
    let mut line = [0u8; LARGE];
    if let Err(failed) = play(&rt, &mut input, &mut line) {
        complain(&rt, failed);
    }
}
