#![tactic(auto)]
// A stream of text requests served by one gauge: the whole requests that stand in lent bytes are answered in order, and an unfinished end is
// kept for the bytes that follow it.
ghost use Rattle.std.specs.Prelude.{◌≡◌, ◌≤◌, length};
ghost use Rattle.sources.specs.Source.{Counted};
ghost use Rattle.gauge_rules.specs.State.{state_of};
ghost use Rattle.service.specs.Served.{most_kept, Serves, Keeps};

use gauge_rules::Gauge;
use settings::Settings;

// The gauge after the requests, how many bytes they have, and how many bytes their replies have.
#[derive(Clone, Copy)]
pub struct Served {
    pub gauge: Gauge,
    pub taken: usize,
    pub len: usize,
}

// How many bytes of an unfinished end are kept.
pub const KEPT_MAX: usize = 110;

// What was served, where serving stops.
fn stopped(g: Gauge, settings: Settings, unlocked: bool, taken: usize, len: usize) -> Served
    ensures { result ≡ record { gauge = record { profile = g.profile; settings = settings; readings = g.readings; unlocked = unlocked }; taken = taken; len = len } }
{
    Served {
        gauge: Gauge {
            settings,
            unlocked,
            ..g
        },
        taken,
        len,
    }
}

// Answers the whole requests of the input, each up to and with its CR. Their replies stand one after another at the front of the memory lent.
// Serving stops where no whole request is left, or less memory than an answer asks for. Only what a request changes is stored anew. (No `for`: the two
// places go on by what was taken and by what was written, and no iterator of the library gives both.)
pub fn serve(g: Gauge, input: &[u8], out: &mut [u8]) -> Served
    ensures serves { Serves (state_of g) input.now out.old out.new result }
    ensures taken_in_bounds { (result.taken ≤ length input.now) × (result.len ≤ length out.old) }
    ensures counted { Counted g.settings.sources → Counted result.gauge.settings.sources }
{
    let mut settings = g.settings;
    let mut unlocked = g.unlocked;
    let mut at: usize = 0;
    let mut used: usize = 0;
    while text_gauge::ROOM <= out.len() - used {
        let n = buffer::until(&input[at..], 13);
        if input.len() - at <= n {
            return stopped(g, settings, unlocked, at, used);
        }
        let end = at + n + 1;
        let h = Gauge {
            settings,
            unlocked,
            ..g
        };
        let d = text_gauge::decide(h, &input[at..end], &mut out[used..]);
        // `Settings::changed`, written out: where nothing changes, nothing is moved (docs/PERFORMANCE.md)
        if let Some(setting) = d.change.value {
            settings = settings.with(setting, d.change.sources);
        }
        unlocked = d.unlocked;
        at = end;
        used += d.written.len;
    }
    stopped(g, settings, unlocked, at, used)
}

// Moves the bytes from `from` up to `to` to the front, at most the first 110 of them, and says how many. A `to` past the memory's end counts as
// its end. Where `to` is not past `from`, nothing moves.
pub fn keep(buf: &mut [u8], from: usize, to: usize) -> usize
    ensures keeps { Keeps buf.old from to buf.new result }
    ensures upper_bound { result ≤ most_kept }
{
    let end = to.min(buf.len());
    if end <= from {
        return 0;
    }
    let n = (end - from).min(KEPT_MAX);
    buf.copy_within(from..from + n, 0);
    n
}
