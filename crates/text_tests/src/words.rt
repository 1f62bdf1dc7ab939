use std::alloc::Global;
use std::process::Abort;
use text_lines::{Number, add_words, is_long_name, is_name, split_line};

// Texts, with the first line of each and what follows it.
static LINES: [(&[u8], &[u8], Option<&[u8]>); 4] = [
    (b"a b\n\n a", b"a b", Some(b"\n a")),
    (b"\n a", b"", Some(b" a")),
    (b" a", b" a", None),
    (b"", b"", None),
];

#[test]
fn lines_end_at_line_feeds(rt: HostRuntime) {
    for (text, line, rest) in LINES {
        assert_eq!(rt; split_line(text), (line, rest), "{text:?}");
    }
}

// Whether the line has just these words.
fn has_just(rt: &impl Abort, alloc: Global, line: &str, want: &[&str]) -> bool {
    let mut words = Vec::new(alloc);
    let left = add_words(line, 16, &mut words).expect(rt, "no words");
    left.is_none() && words.as_slice() == want
}

// Lines, with the words of each.
static SPLIT: [(&str, &[&str]); 3] = [
    (" a  b ", &["", "a", "", "b", ""]),
    ("a", &["a"]),
    ("", &[""]),
];

#[test]
fn words_stand_between_spaces(rt: HostRuntime) {
    for (line, want) in SPLIT {
        assert!(rt; has_just(&rt, rt.alloc(), line, want), "{line}");
    }
}

// Words, and whether each is a name.
static NAMES: [(&str, bool); 12] = [
    ("a", true),
    ("Z", true),
    ("w-1_x.y", true),
    ("abcdefghijklmnopqrstuvwxyz012345", true),
    ("abcdefghijklmnopqrstuvwxyz0123456", false),
    ("", false),
    ("1a", false),
    ("-a", false),
    ("_a", false),
    (".a", false),
    ("a b", false),
    ("a/b", false),
];

#[test]
fn names(rt: HostRuntime) {
    for (word, is) in NAMES {
        assert_eq!(rt; is_name(word), is, "{word}");
    }
}

const LONGEST: &str = "abcdefghijklmnopqrstuvwxyz012345abcdefghijklmnopqrstuvwxyz012345";

const LONGER: &str = "abcdefghijklmnopqrstuvwxyz012345abcdefghijklmnopqrstuvwxyz0123456";

// Words, and whether each is a long name.
static LONG_NAMES: [(&str, bool); 10] = [
    ("a", true),
    ("/west/r1", true),
    ("10.0.0.1:9866", true),
    ("::1", true),
    ("-_.", true),
    (LONGEST, true),
    (LONGER, false),
    ("", false),
    ("a b", false),
    ("a*", false),
];

#[test]
fn long_names(rt: HostRuntime) {
    for (word, is) in LONG_NAMES {
        assert_eq!(rt; is_long_name(word), is, "{word}");
    }
}

// Words, with the number that each is.
static NUMBERS: [(&str, Option<u64>); 6] = [
    ("0", Some(0)),
    ("7", Some(7)),
    ("10", Some(10)),
    ("18446744073709551615", Some(u64::MAX)),
    ("18446744073709551616", None),
    ("9999999999999999999999999999999999999999", None),
];

#[test]
fn numbers(rt: HostRuntime) {
    for (word, want) in NUMBERS {
        let value = Number::of(word).map(|number| number.value());
        assert_eq!(rt; value, Some(want), "{word}");
    }
    for word in ["", "00", "01", "-1", "+1", "1a", "1 ", "0x1"] {
        assert!(rt; Number::of(word).is_none(), "{word}");
    }
}
