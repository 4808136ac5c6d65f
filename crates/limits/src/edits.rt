//! Lines that are edits, and lines that are none.
use edit_lines::read::read_edit;
use edit_lines::unreadable::{Field, Unreadable};

fn why(text: &[u8]) -> Option<Unreadable> {
    read_edit(text).err()
}

#[test]
fn reads_edits(rt: HostRuntime) {
    let edits = [
        why(b"edit link=3 tag=7231 was=12 now=10"),
        why(b"edit now= was=a=b tag= link=63"),
    ];
    assert_eq!(rt; edits, [None, None]);
}

#[test]
fn tells_why_a_line_is_no_edit(rt: HostRuntime) {
    let told = [
        why(b""),
        why(b"edit link=3 tag=7231 was=12"),
        why(b"edit link=64 tag= was= now="),
        why(b"edit link=3 tag=723 was= now="),
        why(b"edit link=3 tag= was= now=\xff"),
        why(b"edit link=3 link=3 tag= was= now="),
        why(b"edit  link=3 tag= was= now="),
    ];
    let reasons = [
        Some(Unreadable::UnknownVerb),
        Some(Unreadable::Missing(Field::Now)),
        Some(Unreadable::BadValue(Field::Link)),
        Some(Unreadable::BadValue(Field::Tag)),
        Some(Unreadable::BadValue(Field::Now)),
        Some(Unreadable::StrayWord),
        Some(Unreadable::StrayWord),
    ];
    assert_eq!(rt; told, reasons);
}
