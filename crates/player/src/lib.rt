#![tactic(auto)]
// Plays a sequence of calls, written as bytes (a script), on one text gauge and one OPG from factory settings on, and keeps each answer.
ghost use Rattle.std.specs.Prelude.{◌≡◌, [], ◌<◌, ◌≤◌, length};
ghost use Rattle.player.specs.Played.{asked, lined, bench_set, opg_bench_set, Ran};
ghost use Rattle.player.specs.Inner.{Traces, Made, One};

use opg_gauge::Pressure;
use readings::Bench;
use script::{Call, To};
use sources::Profile;

// The two gauges.
#[derive(Clone, Copy)]
pub struct Gauges {
    pub text: gauge_rules::Gauge,
    pub opg: opg_gauge::Gauge,
}

// The gauges after a call, and the answer's number and length, as C takes them.
#[derive(Clone, Copy)]
struct Answered {
    pub gauges: Gauges,
    pub number: u16,
    pub len: u16,
}

// A call that was made, and where the next call and the memory not yet lent begin.
#[derive(Clone, Copy)]
struct Turn {
    pub answered: Answered,
    pub at: usize,
    pub used: usize,
}

// The gauges that the calls left, and how many calls there were.
#[derive(Clone, Copy)]
pub struct Played {
    pub gauges: Gauges,
    pub calls: usize,
}

// ---- one call

// A request.
fn ask(g: Gauges, to: To, request: &[u8], part: &mut [u8]) -> Answered
    requires { length part.old < 65536 }
    ensures { Made g (asked to request.now part.old result.number result.len part.new) result }
{
    match to {
        To::Text => {
            let a = text_gauge::answer(g.text, request, part);
            Answered {
                gauges: Gauges { text: a.gauge, ..g },
                number: a.written.number,
                len: a.written.len as u16,
            }
        }
        To::Opg => {
            let a = opg_answer::answer(g.opg, request, part);
            Answered {
                gauges: Gauges { opg: a.gauge, ..g },
                number: a.written.number,
                len: a.written.len as u16,
            }
        }
    }
}

// The stream line.
fn show(g: Gauges, part: &mut [u8]) -> Answered
    requires { length part.old < 65536 }
    ensures { Made g (lined part.old result.number result.len part.new) result }
{
    let w = text_gauge::stream_line(g.text, part);
    Answered {
        gauges: g,
        number: w.number,
        len: w.len as u16,
    }
}

// A bench setting of the text gauge, which has no reply.
fn set_bench(g: Gauges, b: Bench) -> Answered
    ensures { Made g (bench_set b result.number) result }
{
    let a = text_gauge::set_bench(g.text, b);
    Answered {
        gauges: Gauges { text: a.gauge, ..g },
        number: a.number,
        len: 0,
    }
}

// A bench setting of the OPG, which has no reply. (The two gauges' benches take different settings: one function would take the call as a closure, and
// be longer.)
fn set_opg_bench(g: Gauges, p: Pressure) -> Answered
    ensures { Made g (opg_bench_set p result.number) result }
{
    let a = g.opg.bench(p);
    Answered {
        gauges: Gauges { opg: a.gauge, ..g },
        number: a.number,
        len: 0,
    }
}

// The call at place `at` of the script, with the memory from `used` on, if a whole call stands there and there is memory for it.
fn one(g: Gauges, script: &[u8], at: usize, memory: &mut [u8], used: usize) -> Option<Turn>
    requires { (at ≤ length script.now) × (used ≤ length memory.old) }
    ensures { One script.now memory.old g at used result memory.new }
{
    match script::call_at(script, at)? {
        Call::Request(to, room, len) => {
            if memory.len() - used < room {
                return None;
            }
            let start = at + 5;
            let next = start + len;
            let end = used + room;
            Some(Turn {
                answered: ask(g, to, &script[start..next], &mut memory[used..end]),
                at: next,
                used: end,
            })
        }
        Call::Line(room) => {
            if memory.len() - used < room {
                return None;
            }
            let end = used + room;
            Some(Turn {
                answered: show(g, &mut memory[used..end]),
                at: at + 3,
                used: end,
            })
        }
        Call::SetBench(b) => Some(Turn {
            answered: set_bench(g, b),
            at: at + 10,
            used,
        }),
        Call::SetOpgBench(p) => Some(Turn {
            answered: set_opg_bench(g, p),
            at: at + 6,
            used,
        }),
    }
}

// ---- the play

fn at_start(profile: Profile) -> Gauges
    ensures { Traces profile [] result × (result.text.profile ≡ profile) }
{
    Gauges {
        text: gauge_rules::Gauge::at_start(profile),
        opg: opg_gauge::Gauge::at_start(),
    }
}

// Plays the calls of the script on a text gauge of this profile and an OPG at factory settings. Each call gets the gauge that the last one left, and
// the next part of the memory. Each answer's number and its reply's length are kept. The play ends where no whole call is left, or too little memory
// for it, or no place for its answer. (`numbers` and `lens` are two arrays, as C lends them.)
pub fn play(
    profile: Profile,
    script: &[u8],
    memory: &mut [u8],
    numbers: &mut [u16],
    lens: &mut [u16],
) -> Played
    ensures { Ran profile script.now memory.old numbers.old lens.old result.gauges result.calls memory.new numbers.new lens.new }
{
    let mut gauges = at_start(profile);
    let mut at: usize = 0;
    let mut used: usize = 0;
    let places = numbers.len().min(lens.len());
    for i in 0..places {
        let Some(turn) = one(gauges, script, at, memory, used) else {
            return Played { gauges, calls: i };
        };
        numbers[i] = turn.answered.number;
        lens[i] = turn.answered.len;
        gauges = turn.answered.gauges;
        at = turn.at;
        used = turn.used;
    }
    Played {
        gauges,
        calls: places,
    }
}
