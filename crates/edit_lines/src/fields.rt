//! The fields of an edit, each by its key.
ghost use Rattle.std.specs.Prelude.{◌≡◌, ◌≤◌, IfSome, IfOk};
ghost use Rattle.std.specs.Option.{option_map, ok_or};
ghost use Rattle.digits.specs.Numbers.{hexadecimal};
ghost use Rattle.definitions.specs.LinkNumbers.{number_of};
ghost use Rattle.lines.specs.Words.{words_after, value_in};
ghost use Rattle.names.specs.Octets.{bytes_in};
ghost use Rattle.edit_lines.specs.declared.unreadable.Unreadable.TheVariants.{Missing};
ghost use Rattle.edit_lines.specs.Reading.{mapped_ok, field_key, link_in, tag_in, text_in, all_printable, short};

use crate::unreadable::{Field, Unreadable};
use definitions::link_number::LinkNumber;
use digits::numbers::{decimal, hexadecimal};
use lines::Line;
use names::octets::DeliveryTag;

/// The text of a field.
fn text_of<'a>(line: &Line<'a>, field: Field) -> Result<&'a [u8], Unreadable>
    ensures { mapped_ok (λ x. x.now) result ≡ ok_or (value_in (field_key field) (words_after line.now)) (Missing field) }
{
    let key = field.key().as_bytes();
    line.value(key).ok_or(Unreadable::Missing(field))
}

/// The link's number: decimal, at most 63.
pub(crate) fn link_of(line: &Line<'_>) -> Result<LinkNumber, Unreadable>
    ensures { mapped_ok number_of result ≡ link_in (words_after line.now) }
{
    let text = text_of(line, Field::Link)?;
    decimal(text, 63)
        .and_then(|n| LinkNumber::new(n as u32))
        .ok_or(Unreadable::BadValue(Field::Link))
}

/// The delivery tag: hexadecimal, at most 32 bytes.
pub(crate) fn tag_of(line: &Line<'_>) -> Result<DeliveryTag, Unreadable>
    ensures tag { mapped_ok bytes_in result ≡ tag_in (words_after line.now) }
    ensures fits { IfOk result (λ tag. tag.len ≤ 32) }
{
    let text = text_of(line, Field::Tag)?;
    tag_from(text).ok_or(Unreadable::BadValue(Field::Tag))
}

/// The tag whose bytes a text writes in hexadecimal, if it is one of at most 32 bytes.
fn tag_from(text: &[u8]) -> Option<DeliveryTag>
    ensures tag { option_map bytes_in result ≡ short 32 (hexadecimal text.now) }
    ensures fits { IfSome result (λ tag. tag.len ≤ 32) }
{
    let mut bytes = [0u8; 32];
    let len = hexadecimal(text, &mut bytes)?;
    let bytes = bytes.get(..len)?;
    Some(DeliveryTag::new(bytes))
}

/// A value: printable ASCII without spaces and quotes; it may be empty.
pub(crate) fn value_of<'a>(line: &Line<'a>, field: Field) -> Result<&'a [u8], Unreadable>
    ensures { mapped_ok (λ x. x.now) result ≡ text_in field (words_after line.now) }
{
    let text = text_of(line, field)?;
    all_printable(text)
        .then_some(text)
        .ok_or(Unreadable::BadValue(field))
}

/// Whether each byte can stand in a value.
fn all_printable(text: &[u8]) -> bool
    ensures { result ≡ all_printable text.now }
{
    text.iter()
        .all(|byte| byte.is_ascii_graphic() && *byte != b'"')
}
