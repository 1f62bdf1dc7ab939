use command_line::ask;
use command_line::asked::{Ask, AskError, PlanOptions};
use explanations::said;
use std::alloc::Global;
use std::process::Abort;
use tools::Ending;
use wave_planner::NetworkKind;

// The options of the plan that the words ask for.
fn options_in(alloc: Global, words: &[&str]) -> Option<PlanOptions> {
    match ask(alloc, words) {
        Ok(Ask::Plan(options)) => Some(options),
        Ok(Ask::Check(_) | Ask::Play(_) | Ask::Serve(_) | Ask::Run(_) | Ask::Explain(_)) | Err(_) =>
            None,
    }
}

// The status with which the program ends after words that ask for no command, and the text that is shown.
fn shown(alloc: Global, words: &[&str]) -> Option<(u8, String)> {
    match ask(alloc, words) {
        Ok(_) | Err(AskError::Memory) => None,
        Err(AskError::Fault(fault)) => {
            let text = format!(in alloc; "{fault}").ok()?;
            Some((Ending::of_asking(&AskError::Fault(fault)).status(), text))
        }
    }
}

// The words are answered with this status and a text that has this part.
fn shows(rt: &impl Abort, alloc: Global, words: &[&str], status: u8, part: &str) {
    match shown(alloc, words) {
        Some((told, text)) => {
            assert!(rt;
                told == status && text.contains(part),
                "{words:?}: {told} {text}"
            );
        }
        None => panic!(rt; "{words:?}"),
    }
}

// Words that ask for a plan, whether they ask for its prices, and over which network.
static PLANS: [(&[&str], bool, NetworkKind); 4] = [
    (&["mrjob", "plan"], false, NetworkKind::Racks),
    (&["mrjob", "plan", "--prices"], true, NetworkKind::Racks),
    (
        &["mrjob", "plan", "--network=direct", "--prices"],
        true,
        NetworkKind::Direct,
    ),
    (
        &["mrjob", "plan", "--network", "racks"],
        false,
        NetworkKind::Racks,
    ),
];

#[test]
fn plan_is_asked_for(rt: HostRuntime) {
    for (words, prices, network) in PLANS {
        let wanted = PlanOptions {
            prices,
            network,
            explain: false,
        };
        assert_eq!(&rt; options_in(rt.alloc(), words), Some(wanted), "{words:?}");
    }
}

// Whether the live master that the words ask for keeps waves for audits.
fn keeps_waves(alloc: Global, words: &[&str]) -> Option<bool> {
    match ask(alloc, words) {
        Ok(Ask::Serve(options)) => Some(!options.no_audit),
        Ok(Ask::Check(_) | Ask::Plan(_) | Ask::Play(_) | Ask::Run(_) | Ask::Explain(_)) | Err(_) =>
            None,
    }
}

// Words that ask for a live master, and whether it keeps waves for audits.
static MASTERS: [(&[&str], bool); 2] = [
    (&["mrjob", "serve"], true),
    (&["mrjob", "serve", "--no-audit"], false),
];

#[test]
fn serve_is_asked_for(rt: HostRuntime) {
    for (words, kept) in MASTERS {
        assert_eq!(&rt; keeps_waves(rt.alloc(), words), Some(kept), "{words:?}");
    }
}

// What the table says of the words that are asked for.
fn said_of(alloc: Global, words: &[&str]) -> Option<String> {
    match ask(alloc, words) {
        Ok(Ask::Explain(entry)) => said(alloc, entry).ok(),
        Ok(Ask::Check(_) | Ask::Plan(_) | Ask::Play(_) | Ask::Serve(_) | Ask::Run(_)) | Err(_) =>
            None,
    }
}

// Words that ask for a row of the table, and what it says.
static EXPLAINED: [(&[&str], &str); 3] = [
    (
        &["mrjob", "explain", "fault", "5"],
        "fault 5: a number is out of its range, or prices of places fall\n",
    ),
    (
        &["mrjob", "explain", "C3"],
        "condition C3: no worker has more starts than free slots\n",
    ),
    (
        &["mrjob", "explain", "ignored", "13"],
        "ignored 13: the pair is barred\n",
    ),
];

#[test]
fn rows_are_asked_for(rt: HostRuntime) {
    for (words, line) in EXPLAINED {
        let said = said_of(rt.alloc(), words).expect(&rt, "nothing");
        assert_eq!(rt; said.as_str(), line);
    }
    let all = said_of(rt.alloc(), &["mrjob", "explain"]).expect(&rt, "nothing");
    assert!(rt;
        all.as_str()
            .ends_with("status 141: the reader of the answer has gone\n")
    );
}

// Words that are wrong, with a part of the answer.
static WRONG: [(&[&str], &str); 11] = [
    (&["mrjob"], "requires a subcommand"),
    (&["mrjob", "fly"], "unrecognized subcommand 'fly'"),
    (
        &["mrjob", "check", "--version"],
        "unexpected argument '--version'",
    ),
    (&["mrjob", "explain", "fault", "15"], "nothing is said"),
    (&["mrjob", "explain", "fault"], "nothing is said"),
    (&["mrjob", "check", "x"], "unexpected argument 'x'"),
    (&["mrjob", "play", "-p"], "unexpected argument '-p'"),
    (
        &["mrjob", "plan", "--price"],
        "unexpected argument '--price'",
    ),
    (
        &["mrjob", "plan", "--network"],
        "a value is required for '--network <NETWORK>'",
    ),
    (
        &["mrjob", "plan", "--network", "ring"],
        "[possible values: direct, racks]",
    ),
    (
        &["mrjob", "check", "--network", "direct"],
        "unexpected argument '--network'",
    ),
];

#[test]
fn wrong_words_are_usage(rt: HostRuntime) {
    for (words, part) in WRONG {
        shows(&rt, rt.alloc(), words, 64, part);
    }
}

// Words that ask for help, with a part of the answer.
static HELPS: [(&[&str], &str); 8] = [
    (&["mrjob", "--help"], "Statuses:"),
    (&["mrjob", "--version"], "mrjob 1.1.0\n"),
    (&["mrjob", "help", "explain"], "mrjob explain C6"),
    (&["mrjob", "help", "check"], "Input:"),
    (&["mrjob", "plan", "--help"], "[default: racks]"),
    (&["mrjob", "help", "plan"], "price a 0"),
    (&["mrjob", "help", "play"], "word the d"),
    (&["mrjob", "help", "run"], "word the d e"),
];

#[test]
fn help_is_no_usage(rt: HostRuntime) {
    for (words, part) in HELPS {
        shows(&rt, rt.alloc(), words, 0, part);
    }
}
