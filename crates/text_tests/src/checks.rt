use std::alloc::Global;
use tools::{CheckEnd, check};

// The problem of two splits on one worker.
const HEAD: &str = "problem 1\nrack r\nworker a r 1\nworker b r 1\nsplit s 10 a\nsplit t 20 a\n";

// The same in version 3, with a slot more.
const HEAD_OF_3: &str = "problem 3\ncentre c\nrack r c\nworker a r 2\nworker b r 1\n\
split s 10 a\nsplit t 20 a\n";

// A head, and what follows it.
fn checked(alloc: Global, head: &str, after: &str) -> Option<(bool, Vec<u8>)> {
    let text = format!(in alloc; "{head}{after}").ok()?;
    let mut reader = text.as_bytes();
    let mut lines = Vec::new(alloc);
    let end = check(alloc, &mut reader, &mut lines);
    Some((matches!(end, Ok(CheckEnd::Certified)), lines))
}

// Prices that certify the plan which starts s on b and t on a.
const SWAPPED: &str = "price s 101\nprice t 91\nprice a 30\nprice b 0\nend\n";

// Plans with their prices, whether each is certified, and the answer.
static PLANS: [(&str, &str, bool, &str); 5] = [
    (
        "plan\nstart s b\nstart t a\n",
        SWAPPED,
        true,
        "certified 2 20\n",
    ),
    (
        "plan\nstart s a\nstart t b\n",
        SWAPPED,
        false,
        "refused C6 s a\n",
    ),
    (
        "dead b\nplan\nstart s b\nstart t a\n",
        SWAPPED,
        false,
        "refused C2 s b\n",
    ),
    (
        "plan\nprice s 0\nprice t 0\n",
        "price a 0\nprice b 0\nend\n",
        false,
        "refused C5 s a\n",
    ),
    (
        "plan\nstart s b\n",
        "start s a\n",
        false,
        "line 9: fault 9\n",
    ),
];

#[test]
fn a_check_on_one_thread(rt: HostRuntime) {
    for (after, prices, certified, line) in PLANS {
        let after = format!(in rt.alloc(); "{after}{prices}").expect(&rt, "no memory");
        let (end, lines) = checked(rt.alloc(), HEAD, after.as_str()).expect(&rt, "no memory");
        assert_eq!(rt; end, certified, "{after}");
        assert_eq!(rt; lines.as_slice(), line.as_bytes(), "{after}");
    }
}

// Prices of places, the starts and the prices of a plan, and the answer.
static PLACES: [(&str, &str, &str, &str); 6] = [
    (
        "places a 5 30\n",
        "start s b\nstart t a\n",
        "price s 136\nprice t 136\nprice a 20\nprice b 0\n",
        "certified 2 20 5\n",
    ),
    (
        "places a 5 7\n",
        "start s a\nstart t a\n",
        "price s 126\nprice t 126\nprice a 7\nprice b 0\n",
        "certified 2 0 12\n",
    ),
    (
        "places b 0\n",
        "start s a\nstart t a\n",
        "price s 121\nprice t 121\nprice a 0\nprice b 0\n",
        "certified 2 0 0\n",
    ),
    (
        "places a 5 30\n",
        "start s b\nstart t a\n",
        "price s 136\nprice t 125\nprice a 31\nprice b 0\n",
        "refused C8 a\n",
    ),
    (
        "places a 5 30\n",
        "start s a\nstart t a\n",
        "price s 127\nprice t 127\nprice a 29\nprice b 9\n",
        "refused C8 a\n",
    ),
    (
        "places a 5 30\n",
        "start s b\nstart t a\n",
        "price s 101\nprice t 101\nprice a 20\nprice b 0\n",
        "refused C5 s a\n",
    ),
];

#[test]
fn a_check_where_places_have_prices(rt: HostRuntime) {
    for (places, starts, prices, line) in PLACES {
        let after = format!(in rt.alloc(); "{places}plan\n{starts}{prices}end\n").expect(
            &rt,
            "no memory",
        );
        let (_, lines) = checked(rt.alloc(), HEAD_OF_3, after.as_str()).expect(&rt, "no memory");
        assert_eq!(rt; lines.as_slice(), line.as_bytes(), "{after}");
    }
}
