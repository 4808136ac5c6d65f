//! How things look in print: frames with Part 2's fields in its order, absent fields left out.
use frames::performatives::Transfer;
use frames::session::Payload;
use std::fmt;

/// Bytes in hexadecimal.
#[derive(Drop)]
pub(crate) struct Hex<'a>(pub &'a [u8]);

impl fmt::Display for Hex<'_> {
    fn fmt<W: fmt::Write>(&self, f: &mut fmt::Formatter<W>) -> fmt::Result {
        for byte in self.0 {
            write!(f, "{byte:02x}")?;
        }
        Ok(())
    }
}

/// Text in quotes.
#[derive(Drop)]
pub(crate) struct Quoted<'a>(pub &'a [u8]);

impl fmt::Display for Quoted<'_> {
    fn fmt<W: fmt::Write>(&self, f: &mut fmt::Formatter<W>) -> fmt::Result {
        f.write_str("\"")?;
        for byte in self.0 {
            f.write_char(char::from(*byte))?;
        }
        f.write_str("\"")
    }
}

/// A transfer and what it carries.
#[derive(Drop)]
pub(crate) struct TransferLine<'a> {
    pub channel: u16,
    pub transfer: Transfer,
    pub payload: Payload,
    pub text: &'a [u8],
}

impl fmt::Display for TransferLine<'_> {
    fn fmt<W: fmt::Write>(&self, f: &mut fmt::Formatter<W>) -> fmt::Result {
        let Transfer {
            handle,
            delivery_id,
            delivery_tag,
            settled,
            more,
            ..
        } = self.transfer;
        write!(
            f,
            "wire transfer channel={} handle={}",
            self.channel, handle.0
        )?;
        if let Some(id) = delivery_id {
            write!(f, " delivery-id={id}")?;
        }
        if let Some(tag) = delivery_tag {
            write!(f, " tag={}", Hex(tag.as_slice()))?;
        }
        if let Some(settled) = settled {
            write!(f, " settled={}", yes_no(settled))?;
        }
        let Payload { place, len } = self.payload;
        let text = Quoted(self.text);
        write!(f, " more={} payload={place}+{len} {text}", yes_no(more))
    }
}

/// How a flag is printed.
// A function and no type with a `Display`, since two words need none.
fn yes_no(flag: bool) -> &'static str {
    if flag { "yes" } else { "no" }
}
