// What the calls of a script do, each with what it prints.
use call::Call;
use call_words::{call, print};
use print::Shown;
use script_words::word;
use sources::Profile;
use std::io;

// The most bytes that HEX has in a line.
const BYTES_MAX: usize = 32768;

// The gauges.
#[derive(Clone, Copy)]
pub struct World {
    pub text: gauge_rules::Gauge,
    pub opg: opg_gauge::Gauge,
}

// Both gauges at their start, the text gauge of a profile.
pub fn at_start(profile: Profile) -> World {
    World {
        text: gauge_rules::Gauge::at_start(profile),
        opg: opg_gauge::Gauge::at_start(),
    }
}

// ---- calls that change a gauge: two functions for each gauge, whose types and calls differ; one over both would take the call as a closure

fn restart(world: &mut World, profile: Profile) -> Shown {
    *world = at_start(profile);
    Shown::Number(0)
}

fn ask_text(world: &mut World, request: &[u8], memory: &mut [u8]) -> Shown {
    let answered = text_gauge::answer(world.text, request, memory);
    world.text = answered.gauge;
    Shown::Answered(answered.written)
}

fn ask_opg(world: &mut World, request: &[u8], memory: &mut [u8]) -> Shown {
    let answered = opg_answer::answer(world.opg, request, memory);
    world.opg = answered.gauge;
    Shown::Answered(answered.written)
}

fn set_bench(world: &mut World, source: &[u8], value: &[u8]) -> Shown {
    let Some(setting) = bench_words::read_setting(source, value) else {
        return Shown::Number(15);
    };
    let answered = text_gauge::set_bench(world.text, setting);
    world.text = answered.gauge;
    Shown::Number(answered.number)
}

fn set_opg(world: &mut World, pressure: Option<u32>) -> Shown {
    let answered = world.opg.bench(match pressure {
        Some(bits) => opg_gauge::Pressure::Bits(bits),
        None => opg_gauge::Pressure::Unavailable,
    });
    world.opg = answered.gauge;
    Shown::Number(answered.number)
}

// ---- all calls

fn perform(world: &mut World, call: Call, memory: &mut [u8]) -> Shown {
    match call {
        Call::Restart(profile) => restart(world, profile),
        Call::Text { request, .. } => ask_text(world, request, memory),
        Call::Line { .. } => Shown::Answered(text_gauge::stream_line(world.text, memory)),
        Call::Opg { request, .. } => ask_opg(world, request, memory),
        Call::Bench { source, value } => set_bench(world, source, value),
        Call::OpgBench(pressure) => set_opg(world, pressure),
        Call::Request(profile, request) => {
            Shown::Answered(rewriter::rewrite_text(profile, request, memory))
        }
        Call::OpgRequest(request) => Shown::Answered(rewriter::rewrite_opg(request, memory)),
        Call::Reply {
            profile,
            from,
            request,
            reply,
        } => reply_words::read(profile, usize::from(from), request, reply),
        Call::OpgReply { request, reply } => reply_words::read_opg(request, reply),
        Call::Write { request, .. } => request_words::write(request, memory),
    }
}

// Plays a line, and prints what it says.
pub fn run(rt: &impl Print, world: &mut World, line: &[u8]) -> io::Result<()> {
    let Some(words) = word::split(line) else {
        return print::line(rt, Shown::Unknown, &[]);
    };
    let mut hex = [0u8; BYTES_MAX];
    let Some(call) = call::read(words.as_slice(), &mut hex) else {
        return print::line(rt, Shown::Unknown, &[]);
    };
    let mut answer = [print::FILL; call::LENT_MAX];
    let memory = word::front_mut(&mut answer, call.lent());
    let shown = perform(world, call, memory);
    print::line(rt, shown, memory)
}
