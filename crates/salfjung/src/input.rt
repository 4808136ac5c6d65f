//! Cuts the input into lines, and tells what a line says: nothing, or an edit.
ghost use Rattle.std.specs.Prelude.{◌≡◌, ◌<◌, length};
ghost use Rattle.std.specs.Iterator.{YieldsFirstRef, item_count};
ghost use Rattle.salfjung.specs.Input.{first_line, other_lines, lines_of, lines_left, says_nothing};

use edit_lines::read::{Change, read_edit};
use edit_lines::unreadable::Unreadable;
use outbox::edit::Edit;

/// The first line, without its end, and what follows it.
pub(crate) fn next_line(text: &[u8]) -> (&[u8], &[u8])
    ensures line { result.0.now ≡ first_line text.now }
    ensures rest { result.1.now ≡ other_lines text.now }
    ensures less { 0 < length text.now → length result.1.now < length text.now }
{
    match text.iter().position(|b| *b == b'\n') {
        Some(end) => (&text[..end], &text[end + 1..]),
        None => (text, &[]),
    }
}

/// The lines of a text, one after the other.
#[derive(Clone, Copy)]
pub(crate) struct Lines<'a> {
    rest: &'a [u8],
}

impl<'a> Lines<'a> {
    /// Those of `text`.
    pub(crate) fn new(text: &'a [u8]) -> Lines<'a>
        ensures { lines_left result ≡ lines_of text.now }
    {
        Lines { rest: text }
    }
}

impl<'a> Iterator for Lines<'a> {
    type Item = &'a [u8];

    ghost next_gives = { YieldsFirstRef lines_left };

    ghost remaining = { item_count lines_left };

    fn next(&mut self) -> Option<&'a [u8]> {
        if self.rest.is_empty() {
            return None;
        }
        let (line, rest) = next_line(self.rest);
        self.rest = rest;
        Some(line)
    }
}

/// Whether a line says nothing: it is blank, or a comment, which begins with `#`.
pub(crate) fn says_nothing(line: &[u8]) -> bool
    ensures { result ≡ says_nothing line.now }
{
    matches!(line, [] | [b'#', ..])
}

/// The edit that a line says, or why it says none.
// The reader of lines knows no outbox, so the edit is put together here.
pub(crate) fn edit_of(line: &[u8]) -> Result<Edit<'_>, Unreadable> {
    let (row, Change { was, becomes }) = read_edit(line)?;
    Ok(Edit { row, was, becomes })
}
