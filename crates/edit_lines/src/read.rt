//! The whole line of an edit: which row it edits, and how the row's value changes.
ghost use Rattle.std.specs.Prelude.{◌≡◌};
ghost use Rattle.lines.specs.Words.{later_words};
ghost use Rattle.rows.specs.Keys.{key_of};
ghost use Rattle.edit_lines.specs.Reading.{change_in, change_of, edit_in, mapped_ok, row_in};

use crate::fields::{link_of, tag_of, value_of};
use crate::unreadable::{Field, Unreadable};
use lines::Line;
use rows::row::Row;

/// A value before and after an edit.
// Not the outbox's `Edit`, which has the same two texts: the reader of lines knows no outbox.
#[derive(Clone, Copy)]
pub struct Change<'a> {
    pub was: &'a [u8],
    pub becomes: &'a [u8],
}

/// The row that a line edits, or why the line is no edit.
pub fn read_row(text: &[u8]) -> Result<Row, Unreadable>
    ensures { mapped_ok key_of result ≡ row_in text.now }
{
    let line = Line::new(text);
    if line.verb() != b"edit".as_slice() {
        return Err(Unreadable::UnknownVerb);
    }
    if line.stray(b"edit link= tag= was= now=").is_some() {
        return Err(Unreadable::StrayWord);
    }
    let link = link_of(&line)?;
    let tag = tag_of(&line)?;
    Row::new(link, tag).ok_or(Unreadable::BadValue(Field::Tag))
}

/// How the row's value changes, or why that cannot be read.
pub fn read_change(text: &[u8]) -> Result<Change<'_>, Unreadable>
    ensures { mapped_ok change_of result ≡ change_in (later_words text.now) }
{
    let line = Line::new(text);
    let was = value_of(&line, Field::Was)?;
    let becomes = value_of(&line, Field::Now)?;
    Ok(Change { was, becomes })
}

/// The row that a line edits and how its value changes, or why the line is no edit.
pub fn read_edit(text: &[u8]) -> Result<(Row, Change<'_>), Unreadable>
    ensures { mapped_ok (λ edit. (key_of edit.0, change_of edit.1)) result ≡ edit_in text.now }
{
    Ok((read_row(text)?, read_change(text)?))
}
