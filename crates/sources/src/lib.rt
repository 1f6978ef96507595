#![tactic(auto)]
// The profiles of a text gauge, the sources that each offers for the stream line, and lists of them (document 01, "Settings and readings, V2";
// document 02, "No repeated sources", "Hot cathode gauges").
ghost use Rattle.std.specs.Prelude.{◌≡◌, [], ◌∷◌, ◌++◌, length, map};
ghost use Rattle.buffer.specs.Byte.{every};
ghost use Rattle.buffer.specs.Text.{text_of, cut};
ghost use Rattle.sources.specs.Source.{known_sources, hot_sources, sources_of, among, all_differ, stand_once, listable, source_of, source_text, list_of, Counted, Pushed, list_text};
ghost use Rattle.sources.specs.Entries.{parts, refusal_of, Lists};
ghost use Rattle.sources.specs.Beside.{Beside};
ghost use Rattle.sources.specs.Inner.{Ran};

use refusals::Refusal;

// The profiles: VSH and VSM, the hot cathode gauges, and the gauge of document 01. Where none is named, it is Standard.
#[derive(Clone, Copy)]
pub enum Profile {
    Standard,
    Vsh,
    Vsm,
}

// A list of sources by their codes: a source's digit, 8 for `T2`, 9 for `T6`. The first `count` of the codes. (A fixed array: no heap. That
// `count` is within it is no invariant of the type: the program `replay` hands the writer lists of any count.)
#[derive(Clone, Copy)]
pub struct Sources {
    pub codes: [u8; 7],
    pub count: usize,
}

// Why a text is no source here: of the form but unknown, or not of the form.
#[derive(Clone, Copy)]
pub enum SourceError {
    Unknown,
    Malformed,
}

impl From<SourceError> for Refusal {
    ghost from_gives = { λ e r. r ≡ refusal_of e };

    fn from(e: SourceError) -> Refusal {
        match e {
            SourceError::Unknown => Refusal::Range,
            SourceError::Malformed => Refusal::Syntax,
        }
    }
}

// A value, and beside it the sources that go with it: of a write or a read of SM its list, and of any other none.
#[derive(Clone, Copy)]
pub struct WithSources<T> {
    pub value: T,
    pub sources: Sources,
}

impl<T> WithSources<T> {
    // A value with no sources beside it.
    pub fn alone(value: T) -> WithSources<T>
        ensures { Beside value [] result }
    {
        WithSources {
            value,
            sources: Sources::NONE,
        }
    }
}

impl Sources {
    // The places of the array. An accepted list fills six at most.
    pub const CAPACITY: usize = 7;

    pub const NONE: Sources = Sources {
        codes: [0, 0, 0, 0, 0, 0, 0],
        count: 0,
    };

    // The list and one source more. A full list stays as it is.
    pub fn push(mut self, code: u8) -> Sources
        ensures { Pushed self code result }
    {
        let at = self.count;
        if Sources::CAPACITY <= at {
            self.count = Sources::CAPACITY;
            return self;
        }
        self.codes[at] = code;
        self.count = at + 1;
        self
    }

    // The sources of the list.
    pub fn as_slice(&self) -> &[u8]
        ensures { result.now ≡ list_of self.now }
    {
        &self.codes[..self.count.min(Sources::CAPACITY)]
    }

    // How many sources the list has.
    pub fn size(self) -> usize
        ensures { result ≡ length (list_of self) }
    {
        self.as_slice().len()
    }
}

// The codes of document 01's sources, and of a hot cathode gauge's.
const KNOWN: [u8; 7] = [0, 1, 2, 6, 7, 8, 9];

const HOT: [u8; 3] = [0, 1, 8];

// Whether gauges of this profile have the source of a code.
pub fn offers(profile: Profile, c: u8) -> bool
    ensures { result ≡ among (sources_of profile) c }
{
    match profile {
        Profile::Standard => KNOWN.contains(&c),
        Profile::Vsh => HOT.contains(&c),
        Profile::Vsm => HOT.contains(&c),
    }
}

// Whether each source of a list is one of the profile's.
pub fn all_known(profile: Profile, q: Sources) -> bool
    ensures { result ≡ every (among (sources_of profile)) (list_of q) }
{
    for c in q.as_slice() {
        if !offers(profile, *c) {
            return false;
        }
    }
    true
}

// Whether no code stands twice.
fn all_differ(codes: &[u8]) -> bool
    ensures { result ≡ all_differ codes.now }
{
    for (i, c) in codes.iter().enumerate() {
        if codes[i + 1..].contains(c) {
            return false;
        }
    }
    true
}

// Whether no source stands twice on the line of a list: `0`, which is always first, and then the list.
pub fn stand_once(q: Sources) -> bool
    ensures { result ≡ stand_once (list_of q) }
{
    let codes = q.as_slice();
    !codes.contains(&0) && all_differ(codes)
}

// Whether SM of a gauge of this profile can have a list.
pub fn is_listable(profile: Profile, q: Sources) -> bool
    ensures { result ≡ listable (sources_of profile) (list_of q) }
{
    all_known(profile, q) && stand_once(q)
}

// What a text is as the name of a source, whatever the profile.
pub fn source_of(t: &[u8]) -> Result<u8, SourceError>
    ensures { result ≡ source_of known_sources t.now }
{
    match t {
        [b'0'] => Ok(0),
        [b'1'] => Ok(1),
        [b'2'] => Ok(2),
        [b'6'] => Ok(6),
        [b'7'] => Ok(7),
        [b'T', b'2'] => Ok(8),
        [b'T', b'6'] => Ok(9),
        [b'0'..=b'9'] | [b'T', b'0'..=b'9'] => Err(SourceError::Unknown),
        [b'0'..=b'9', b'0'..=b'9'] => Err(SourceError::Unknown),
        _ => Err(SourceError::Malformed),
    }
}

// The source that a text names to gauges of this profile: one that the profile lacks is unknown.
fn source_here(profile: Profile, t: &[u8]) -> Result<u8, SourceError>
    ensures { result ≡ source_of (sources_of profile) t.now }
{
    let c = source_of(t)?;
    if offers(profile, c) {
        return Ok(c);
    }
    Err(SourceError::Unknown)
}

// The sources of all entries, as many as find a place, or the worst of their errors: Malformed before Unknown. The first entry has no `D` before it.
fn run_of(profile: Profile, s: &[u8]) -> Result<Sources, SourceError>
    ensures { Ran (map (source_of (sources_of profile)) (parts s.now)) result }
{
    let mut read = Ok(Sources::NONE);
    for t in s.split(|b| *b == b'D') {
        match source_here(profile, t) {
            Ok(c) => read = read.map(|list| list.push(c)),
            Err(SourceError::Unknown) => read = Err(SourceError::Unknown),
            Err(SourceError::Malformed) => return Err(SourceError::Malformed),
        }
    }
    read
}

// Reads a text of entries, of any length, for gauges of this profile: its list, or SYNTAX, RANGE or LOGIC. The list is never filled past its end;
// seven known sources hold a repeat or a `0`, so that an entry without a place changes no answer.
pub fn read_entries(profile: Profile, s: &[u8]) -> Result<Sources, Refusal>
    ensures { Lists (sources_of profile) s.now result }
{
    let entries = match s {
        [] => return Ok(Sources::NONE),
        [b'D', entries @ ..] => entries,
        _ => return Err(Refusal::Syntax),
    };
    let sources = run_of(profile, entries)?;
    if !stand_once(sources) {
        return Err(Refusal::Logic);
    }
    Ok(sources)
}

// The text t, then the text of a source.
fn with_source(t: buffer::Text, code: u8) -> buffer::Text
    ensures { text_of result ≡ cut (text_of t ++ ((68 ∷ []) ++ source_text code)) }
{
    match code {
        8 => t.add(b"DT2"),
        9 => t.add(b"DT6"),
        _ => t.add(&[b'D', code % 10 + b'0']),
    }
}

// The text t, then the text of a list.
pub fn with_list(t: buffer::Text, list: Sources) -> buffer::Text
    ensures { text_of result ≡ cut (text_of t ++ list_text (list_of list)) }
{
    let mut r = t.add(&[]);
    for code in list.as_slice() {
        r = with_source(r, *code);
    }
    r
}
