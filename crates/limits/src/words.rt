//! Examples, at the limits above all: each table's rows are a text and what is read of it.

use digits::numbers::{decimal, hexadecimal};
use lines::Line;

const VALUES: [(&[u8], &[u8], Option<&[u8]>); 9] = [
    (b"edit link=3 tag=7231 was=12 now=10", b"link", Some(b"3")),
    (b"edit link=3 tag=7231 was=12 now=10", b"now", Some(b"10")),
    (b"edit link=3 tag=7231 was=12 now=10", b"no", None),
    (b"edit tag=", b"tag", Some(b"")),
    (b"edit tag", b"tag", None),
    (b"edit  tag=a=b tag=c", b"tag", Some(b"a=b")),
    (b"tag=1 link=2", b"tag", None),
    (b"\x00\xff \xfe=\x00", b"\xfe", Some(b"\x00")),
    (b"", b"", None),
];

#[test]
fn values(rt: HostRuntime) {
    for (text, key, value) in VALUES.iter() {
        assert!(rt; Line::new(text).value(key) == *value);
    }
}

const STRAYS: [(&[u8], bool, Option<&[u8]>); 10] = [
    (b"edit link=3 tag=7231", false, None),
    (b"edit force tag= link=3", true, None),
    (b"edit", false, None),
    (b"edit ", false, Some(b"")),
    (b"edit link=3  force", true, Some(b"")),
    (b"edit link=3 tag= link=4", false, Some(b"link=3")),
    (b"edit force force", true, Some(b"force")),
    (b"edit tag=1 was=12", false, Some(b"was=12")),
    (b"edit link", false, Some(b"link")),
    (b"edit force=yes", false, Some(b"force=yes")),
];

#[test]
fn flags_and_strays(rt: HostRuntime) {
    for (text, forced, stray) in STRAYS.iter() {
        let line = Line::new(text);
        assert!(rt; line.verb() == b"edit".as_slice() && line.flag(b"force") == *forced);
        assert!(rt; line.stray(b"edit link= tag= force") == *stray);
    }
}

const DECIMALS: [(&[u8], u64, Option<u64>); 9] = [
    (b"0012", 12, Some(12)),
    (b"0012", 11, None),
    (b"0", 0, Some(0)),
    (b"18446744073709551615", u64::MAX, Some(u64::MAX)),
    (b"18446744073709551616", u64::MAX, None),
    (b"99999999999999999999999", u64::MAX, None),
    (b"", 9, None),
    (b"+5", 9, None),
    (b"5a", 9, None),
];

#[test]
fn decimals(rt: HostRuntime) {
    for (text, most, number) in DECIMALS.iter() {
        assert!(rt; decimal(text, *most) == *number);
    }
}

const HEXADECIMALS: [(&[u8], Option<usize>, [u8; 2]); 7] = [
    (b"7231", Some(2), [0x72, 0x31]),
    (b"aF", Some(1), [0xaf, 9]),
    (b"", Some(0), [9, 9]),
    (b"7", None, [9, 9]),
    (b"zz", None, [9, 9]),
    (b"72317", None, [9, 9]),
    (
        b"000102030405060708090a0b0c0d0e0f101112131415161718191a1b1c1d1e1f20",
        Some(33),
        [0, 1],
    ),
];

#[test]
fn hexadecimals(rt: HostRuntime) {
    for (text, count, held) in HEXADECIMALS.iter() {
        let mut out = [9; 2];
        assert!(rt; hexadecimal(text, &mut out) == *count);
        assert!(rt; out == *held);
    }
}
