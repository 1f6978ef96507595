#![tactic(auto)]
// The stream line (document 01, "Settings and readings, V2"): source 0, then the list in order, joined by `;`, and the end of a
// frameless line.
ghost use Rattle.std.specs.Prelude.{◌≡◌, ◌+◌, ◌≤◌, length, take, drop};
ghost use Rattle.buffer.specs.Text.{text_of};
ghost use Rattle.buffer.specs.Answer.{Stored, Sent};
ghost use Rattle.sources.specs.Source.{list_of};
ghost use Rattle.settings.specs.Limits.{limits_of, width_of, longest_line};
ghost use Rattle.settings.specs.Settings.{held};
ghost use Rattle.line.specs.Line.{values_of, shown_list, line_answer};
ghost use Rattle.line.specs.Rows.{row_of, rows_of, row_text, tail_rows, line_of};

use refusals::Refusal;

// The longest line: seven values, or three of a hot cathode gauge.
pub const ROOM: usize = 71;

pub const HOT_ROOM: usize = 30;

// How many bytes the line of a profile asks for: as many as its longest line has.
#[tactic(auto, unfolding(settings::specs::Limits::limits_of, settings::specs::Limits::longest_line, settings::specs::Limits::width_of, sources::specs::Source::total, buffer::specs::First::pick))]
pub fn room(profile: sources::Profile) -> usize
    ensures { result ≡ longest_line (limits_of profile).source_codes }
{
    match profile {
        sources::Profile::Standard => ROOM,
        sources::Profile::Vsh | sources::Profile::Vsm => HOT_ROOM,
    }
}

// The widest value of a source, by its code.
#[tactic(auto, unfolding(settings::specs::Limits::width_of, buffer::specs::First::pick))]
fn width(code: u8) -> usize
    ensures { result ≡ width_of code }
{
    match code {
        7 => 11,
        8.. => 6,
        _ => 10,
    }
}

// A text as a row: at most so many of its characters, and zeros after them.
#[tactic(auto, unfolding(crate::specs::Rows::row_of, buffer::specs::Text::text_of))]
fn row_of(t: buffer::Text, most: usize) -> [u8; 11]
    ensures { result ≡ row_of (take most (text_of t)) }
{
    let n = t.size().min(most);
    let mut row = [0; 11];
    buffer::put(&mut row, 0, &t.bytes[..n]);
    row
}

// The rows of the line: source 0, then the listed sources; the rest are zeros.
fn rows_of(list: sources::Sources, r: readings::Readings) -> [[u8; 11]; 8]
    ensures { result ≡ rows_of (values_of (list_of list) r) }
{
    let mut rows = [[0u8; 11]; 8];
    rows[0] = row_of(r.text(0), width(0));
    let listed = &list.codes[..list.size()];
    for (i, code) in listed.iter().enumerate() {
        rows[i + 1] = row_of(r.text(*code), width(*code));
    }
    rows
}

// Stores the text of a row, and returns the place after it.
fn put_row(out: &mut [u8], at: usize, row: [u8; 11]) -> usize
    requires { at ≤ 200 }
    ensures stored { Stored out.old at (row_text row) out.new }
    ensures value { result ≡ at + length (row_text row) }
    ensures upper_bound { result ≤ at + 11 }
{
    let n = buffer::until(&row, 0);
    buffer::put(out, at, &row[..n]);
    at + n
}

// Stores `;` and the text of each row from the second on, up to the first that is empty, and returns the place after them.
fn put_tail(out: &mut [u8], at: usize, rows: [[u8; 11]; 8]) -> usize
    requires { at ≤ 11 }
    ensures stored { Stored out.old at (tail_rows (drop 1 rows)) out.new }
    ensures value { result ≡ at + length (tail_rows (drop 1 rows)) }
{
    let mut p = at;
    for row in &rows[1..] {
        if row[0] == 0 {
            return p;
        }
        buffer::put(out, p, b";");
        p = put_row(out, p + 1, *row);
    }
    p
}

// The list that the line shows: none where SM could not have it, which no call makes.
#[tactic(auto, using(settings::proofs::Laws::codes_are), unfolding(crate::specs::Line::shown_list, sources::specs::Source::list_of, buffer::specs::First::pick))]
fn shown_list(profile: sources::Profile, q: sources::Sources) -> sources::Sources
    ensures { list_of result ≡ shown_list (limits_of profile).source_codes (list_of q) }
{
    if sources::is_listable(profile, q) {
        q
    } else {
        sources::Sources::NONE
    }
}

// Writes the line of these rows at the front of out, and returns its length.
fn write_line(out: &mut [u8], rows: [[u8; 11]; 8]) -> usize
    requires { length (line_of rows) ≤ length out.old }
    ensures stored { Stored out.old 0 (line_of rows) out.new }
    ensures value { result ≡ length (line_of rows) }
{
    let p = put_row(out, 0, rows[0]);
    let q = put_tail(out, p, rows);
    frame_writer::put_end(out, q);
    q + 2
}

// The stream line of these settings and readings, at a gauge of this profile.
pub fn stream_line(
    profile: sources::Profile,
    s: settings::Settings,
    r: readings::Readings,
    out: &mut [u8],
) -> buffer::Written
    ensures { Sent out.old (line_answer (limits_of profile) (length out.old) (held s) r) out.new result }
{
    if out.len() < room(profile) {
        return buffer::Written {
            number: Refusal::Room.number() as u16,
            len: 0,
        };
    }
    if !s.streaming {
        return buffer::Written { number: 0, len: 0 };
    }
    let rows = rows_of(shown_list(profile, s.sources), r);
    let len = write_line(out, rows);
    buffer::Written { number: 0, len }
}
