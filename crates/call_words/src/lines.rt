// The lines of the input.
use script_words::word;
use std::io;
use std::io::Read;

// What a step meets: a part of a line, a line, the last line, or the end of the input. A line that is too long is empty here.
#[derive(Clone, Copy)]
pub enum Met<'a> {
    Part,
    Line(&'a [u8]),
    Last(&'a [u8]),
    End,
}

// Where the input stands: its bytes from `from` to `to` are still to be taken, and the line has `len` bytes so far, or is too long.
#[derive(Clone, Copy)]
pub struct Cursor {
    pub from: usize,
    pub to: usize,
    pub len: Option<usize>,
}

pub const START: Cursor = Cursor {
    from: 0,
    to: 0,
    len: Some(0),
};

// Adds bytes to a line of so many, and says how many it then has; none for one that is too long.
fn add(line: &mut [u8], len: Option<usize>, bytes: &[u8]) -> Option<usize> {
    let at = len?;
    let end = at.checked_add(bytes.len())?;
    line.get_mut(at..end)?.copy_from_slice(bytes);
    Some(end)
}

// The line of so many bytes.
fn line_of(line: &[u8], len: Option<usize>) -> &[u8] {
    word::front(line, len.unwrap_or(0))
}

// Takes the line on, up to its LF or the end of what was read, and then reads on, once. A read that failed is the error; the input's end ends a line.
pub fn step<'a>(
    reader: &mut impl Read,
    c: &mut Cursor,
    input: &mut [u8],
    line: &'a mut [u8],
) -> io::Result<Met<'a>> {
    let rest = buffer::rest(word::front(input, c.to), c.from);
    let k = buffer::until(rest, b'\n');
    let ends = k < rest.len();
    let len = add(line, c.len, word::front(rest, k));
    if ends {
        c.from = c.from.saturating_add(k).saturating_add(1);
        c.len = Some(0);
        return Ok(Met::Line(line_of(line, len)));
    }
    c.from = 0;
    c.to = reader.read(input)?;
    c.len = len;
    if 0 < c.to {
        return Ok(Met::Part);
    }
    match len {
        Some(0) => Ok(Met::End),
        _ => Ok(Met::Last(line_of(line, len))),
    }
}
