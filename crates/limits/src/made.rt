//! Rows and link numbers for the examples.
use definitions::link_number::LinkNumber;
use names::octets::DeliveryTag;
use rows::row::Row;
use std::test::Fail;

pub(crate) fn link(number: u32) -> Result<LinkNumber, Fail> {
    let Some(link) = LinkNumber::new(number) else {
        return Err(Fail::new("the link number is above 63"));
    };
    Ok(link)
}

pub(crate) fn row(number: u32, tag: &[u8]) -> Result<Row, Fail> {
    let Some(row) = Row::new(link(number)?, DeliveryTag::new(tag)) else {
        return Err(Fail::new("the tag is too long"));
    };
    Ok(row)
}
