use line_rules::{KnownLines, Purpose, ReadingError, read_lines};
use std::alloc::Global;
use std::process::Abort;

/// The line and the number of a text's fault, None where it has none or memory ran out.
pub fn fault_in(alloc: Global, purpose: Purpose, text: &[u8]) -> Option<(u32, u8)> {
    let read: Result<KnownLines<'_>, ReadingError> = read_lines(alloc, purpose, text);
    match read {
        Ok(_) => None,
        Err(ReadingError::Text(fault)) => Some((fault.line, fault.number.number())),
        Err(ReadingError::Memory) => None,
    }
}

/// The same of a text of characters.
pub fn fault_of(alloc: Global, purpose: Purpose, text: &str) -> Option<(u32, u8)> {
    fault_in(alloc, purpose, text.as_bytes())
}

/// What follows a head, with the fault of the whole text.
pub type Row = (&'static str, Option<(u32, u8)>);

/// The texts of this head have these faults.
pub fn have_faults(rt: &impl Abort, alloc: Global, purpose: Purpose, head: &str, rows: &[Row]) {
    for (rest, fault) in rows {
        let text = format!(in alloc; "{head}{rest}").expect(rt, "no text");
        let told = fault_of(alloc, purpose, &text);
        assert_eq!(rt; told, *fault, "{text}");
    }
}

// Texts to plan from.
static TO_PLAN: [Row; 38] = [
    ("problem 1\nend\n", None),
    (
        "problem 1\nrack r\nworker a r 16\nsplit s 67108864 a\nend\n",
        None,
    ),
    ("problem 1\nrock r\nend\n", Some((2, 1))),
    ("problem 1\n\nend\n", Some((2, 1))),
    ("problem 1\nrack\nend\n", Some((2, 1))),
    ("problem 1\n rack r\nend\n", Some((2, 1))),
    ("problem 1\nworker a r 01\nend\n", Some((2, 1))),
    ("problem 1\nbusy\nend\n", Some((2, 1))),
    ("problem 1\nend b\n", Some((2, 1))),
    ("problem 1\nrack r \nend\n", Some((2, 1))),
    ("problem 1\nrack 1r\nend\n", Some((2, 2))),
    ("problem 1\nworker 1a r 17\nend\n", Some((2, 2))),
    ("problem 1\nworker a r 1\nend\n", Some((2, 3))),
    ("problem 1\nrack r\nsplit s 5 r\nend\n", Some((3, 3))),
    ("problem 1\nrack r\nworker r r 1\nend\n", Some((3, 4))),
    (
        "problem 1\nrack r\nworker a r 1\ndead a\ndead a\nend\n",
        Some((5, 4)),
    ),
    (
        "problem 1\nrack r\nworker a r 1\nsplit s 1\nbarred s a\nbarred s a\nend\n",
        Some((6, 4)),
    ),
    ("problem 3\nend\n", None),
    ("problem 4\nend\n", Some((1, 5))),
    ("problem 1\nrack r\nworker a r 17\nend\n", Some((3, 5))),
    ("problem 1\nsplit s 67108865\nend\n", Some((2, 5))),
    ("problem 2\nsplit s 67108865\nend\n", Some((2, 5))),
    ("problem 3\nsplit s 8589934592\nend\n", None),
    ("problem 3\nsplit s 8589934593\nend\n", Some((2, 5))),
    (
        "problem 3\ncentre c\nrack /r1 c\nworker 10.0.0.1:9866 /r1 1\nend\n",
        None,
    ),
    ("problem 2\ncentre c\nrack /r1 c\nend\n", Some((3, 2))),
    ("problem 3\ncentre c\nrack r c\nworker a r 255\nend\n", None),
    (
        "problem 3\ncentre c\nrack r c\nworker a r 256\nend\n",
        Some((4, 5)),
    ),
    (
        "problem 2\ncentre c\nrack r c\nworker a r 17\nend\n",
        Some((4, 5)),
    ),
    ("problem 3\nrack r\nend\n", Some((2, 1))),
    ("rack r\nend\n", Some((1, 7))),
    ("problem 1\nplan\nend\n", Some((2, 7))),
    ("problem 1\n", Some((2, 7))),
    ("", Some((1, 7))),
    (
        "problem 1\nrack r\nworker a r 1\nsplit s 1 a a\nend\n",
        Some((4, 8)),
    ),
    ("problem 1\nend", Some((2, 12))),
    ("problem 1\nrack \t\nend\n", Some((2, 13))),
    ("problem 1\nend\nend\n", Some((3, 14))),
];

#[test]
fn texts_to_plan_from(rt: HostRuntime) {
    have_faults(&rt, rt.alloc(), Purpose::Planning, "", &TO_PLAN);
}

// What stands after the head of a text to check, whose first line is the fifth.
static PLANS: [Row; 9] = [
    (
        "plan\nstart s a\nprice s 0\nprice a 18446744073709551615\nend\n",
        None,
    ),
    ("plan\nstart s a\nprice s 0\nend\n", Some((8, 10))),
    ("plan\nstart s a\nprice a 0\nend\n", Some((8, 10))),
    ("plan\nstart s a\nstart s a\nend\n", Some((7, 9))),
    ("plan\nprice a 1\nprice a 2\nend\n", Some((7, 9))),
    ("plan\nprice a 18446744073709551616\nend\n", Some((6, 5))),
    ("plan\nprice r 1\nend\n", Some((6, 3))),
    ("plan\nbusy s\nend\n", Some((6, 7))),
    ("end\n", Some((5, 7))),
];

#[test]
fn texts_to_check(rt: HostRuntime) {
    let head = "problem 1\nrack r\nworker a r 1\nsplit s 1 a\n";
    have_faults(&rt, rt.alloc(), Purpose::Checking, head, &PLANS);
}

// What stands after the head of a text to check of version 3, whose first line is the sixth.
static PLACES: [Row; 17] = [
    ("places a 0\nplan\nprice s 0\nprice a 0\nend\n", None),
    (
        "places a 0 7 7 68719476736\nplan\nprice s 0\nprice a 0\nend\n",
        None,
    ),
    ("places\n", Some((6, 1))),
    ("places a\n", Some((6, 1))),
    ("places a 01\n", Some((6, 1))),
    ("places a 1 x\n", Some((6, 1))),
    ("places a! 1\n", Some((6, 2))),
    ("places b 2 1\n", Some((6, 3))),
    ("places s 1\n", Some((6, 3))),
    ("places a 1\nplaces a 1\n", Some((7, 4))),
    ("places a 1\nplaces a 2 1\n", Some((7, 4))),
    ("places a 68719476737\n", Some((6, 5))),
    ("places a 1 0\n", Some((6, 5))),
    ("places a 0 2 1\n", Some((6, 5))),
    ("places a 0 3 1 2\n", Some((6, 5))),
    ("plan\nplaces a 1\n", Some((7, 7))),
    ("places a 1\nend\n", Some((7, 7))),
];

const THIRD: &str = "problem 3\ncentre c\nrack r c\nworker a r 2\nsplit s 1 a\n";

#[test]
fn prices_of_places(rt: HostRuntime) {
    have_faults(&rt, rt.alloc(), Purpose::Checking, THIRD, &PLACES);
}

#[test]
fn places_stand_in_problems_of_version_3_alone(rt: HostRuntime) {
    for (purpose, first) in [
        (Purpose::Checking, "problem 2"),
        (Purpose::Planning, "problem 2"),
        (Purpose::Playing, "script 3"),
        (Purpose::Running, "job 3"),
    ] {
        let head = format!(in rt.alloc(); "{first}\ncentre c\nrack r c\nworker a r 2\n").expect(
            &rt, "no text",
        );
        let rows = [("places a 1\n", Some((5, 7)))];
        have_faults(&rt, rt.alloc(), purpose, &head, &rows);
    }
}

// The fault of a line of places with so many prices.
fn fault_of_prices(rt: &impl Abort, alloc: Global, prices: u32, last: &str) -> Option<(u32, u8)> {
    let mut text = format!(in alloc; "{THIRD}places a").expect(rt, "no text");
    for _ in 0..prices {
        text.push_str(" 1").expect(rt, "no text");
    }
    text.push_str(last).expect(rt, "no text");
    text.push_str("\n").expect(rt, "no text");
    fault_of(alloc, Purpose::Checking, &text)
}

#[test]
fn no_more_prices_than_a_worker_has_slots(rt: HostRuntime) {
    for (prices, last, fault) in [
        (255, "", (7, 7)),
        (254, " 0", (6, 5)),
        (256, "", (6, 1)),
        (255, " 0", (6, 1)),
        (300, " 68719476737", (6, 1)),
    ] {
        let told = fault_of_prices(&rt, rt.alloc(), prices, last);
        assert_eq!(rt; told, Some(fault), "{prices}{last}");
    }
}

// Seventeen workers, and the first eight, nine, sixteen and seventeen of them as holders.
const WORKERS: &str =
    "worker a r 0\nworker b r 0\nworker c r 0\nworker d r 0\nworker e r 0\nworker f r 0\n\
worker g r 0\nworker h r 0\nworker i r 0\nworker j r 0\nworker k r 0\nworker l r 0\n\
worker m r 0\nworker n r 0\nworker o r 0\nworker p r 0\nworker q r 0\n";

const EIGHT: &str = "a b c d e f g h";

const NINE: &str = "a b c d e f g h i";

const SIXTEEN: &str = "a b c d e f g h i j k l m n o p";

const ALL: &str = "a b c d e f g h i j k l m n o p q";

// The rack of a first version, and of a later one.
const RACK: &str = "rack r";

const CENTRE: &str = "centre z\nrack r z";

// What a text is read for, its first line, its racks, the holders of its one split, and the line that names
// too many.
static HELD: [(Purpose, &str, &str, &str, Option<u32>); 11] = [
    (Purpose::Planning, "problem 1", RACK, EIGHT, None),
    (Purpose::Planning, "problem 1", RACK, NINE, Some(20)),
    (Purpose::Planning, "problem 3", CENTRE, SIXTEEN, None),
    (Purpose::Planning, "problem 3", CENTRE, ALL, Some(21)),
    (Purpose::Checking, "problem 3", CENTRE, ALL, Some(21)),
    (Purpose::Playing, "script 1", RACK, EIGHT, None),
    (Purpose::Playing, "script 1", RACK, NINE, Some(20)),
    (Purpose::Playing, "script 3", CENTRE, SIXTEEN, None),
    (Purpose::Playing, "script 3", CENTRE, ALL, Some(21)),
    (Purpose::Running, "job 3", CENTRE, SIXTEEN, None),
    (Purpose::Running, "job 3", CENTRE, ALL, Some(21)),
];

// How a text ends that is read for this.
fn last_lines(purpose: Purpose) -> &'static str {
    match purpose {
        Purpose::Playing => "begin\nend\n",
        Purpose::Checking | Purpose::Planning | Purpose::Running => "end\n",
    }
}

#[test]
fn holders_past_the_most(rt: HostRuntime) {
    for (purpose, first, racks, holders, line) in HELD {
        let end = last_lines(purpose);
        let head = format!(in rt.alloc(); "{first}\n{racks}\n{WORKERS}").expect(&rt, "no text");
        let text = format!(in rt.alloc(); "{head}split s 1 {holders}\n{end}").expect(
            &rt, "no text",
        );
        let told = fault_of(rt.alloc(), purpose, &text);
        assert_eq!(rt; told, line.map(|line| (line, 6)), "{text}");
    }
}
