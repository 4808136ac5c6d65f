//! Why a line is no edit.
ghost use Rattle.std.specs.Prelude.{◌≡◌, Some};
ghost use Rattle.edit_lines.specs.Reading.{field_key, text_of};

use std::error::Error;
use std::fmt;

/// A field of an edit.
#[derive(Clone, Copy, PartialEq, Eq, Debug)]
pub enum Field {
    /// The link's number, `link`.
    Link,
    /// The delivery tag, `tag`.
    Tag,
    /// The value before, `was`.
    Was,
    /// The value after, `now`.
    Now,
}

impl Field {
    /// The key under which a line has the field.
    pub fn key(self) -> &'static str
        ensures { result.now ≡ field_key self }
    {
        match self {
            Field::Link => "link",
            Field::Tag => "tag",
            Field::Was => "was",
            Field::Now => "now",
        }
    }
}

impl fmt::Display for Field {
    ghost output = { λ field. Some (field_key field) };

    fn fmt<W: fmt::Write>(&self, f: &mut fmt::Formatter<W>) -> fmt::Result {
        f.write_str(self.key())
    }
}

/// Why a line cannot be read.
#[derive(Clone, Copy, PartialEq, Eq, Debug)]
pub enum Unreadable {
    /// It does not begin with `edit`.
    UnknownVerb,
    /// It has a word that an edit does not have, or has twice.
    StrayWord,
    /// It lacks the field.
    Missing(Field),
    /// The field cannot hold what the line gives it.
    BadValue(Field),
}

impl fmt::Display for Unreadable {
    ghost output = { λ why. Some (text_of why) };

    fn fmt<W: fmt::Write>(&self, f: &mut fmt::Formatter<W>) -> fmt::Result {
        match self {
            Unreadable::UnknownVerb => f.write_str("the verb is not edit"),
            Unreadable::StrayWord => f.write_str("a word is unknown or stands twice"),
            Unreadable::Missing(field) => write!(f, "{field} is missing"),
            Unreadable::BadValue(field) => write!(f, "{field} cannot hold that value"),
        }
    }
}

impl Error for Unreadable {}
