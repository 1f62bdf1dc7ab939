//! Jobs whose index is so long that threads make its lines, and shorter ones.
use crate::told::add_number;
use job_run::{PlainGate, RunEnd, run_text};
use std::alloc::Global;
use std::process::Abort;
use std::rt::Clock;
use std::sync::Wait;
use std::thread::Threads;

const OPENING: &str =
    "job 1\nsilence 1000\nrack r\nworker a r 1\nworker b r 1\nsplit s 3 a\nsplit t 3 b\ndoc d s";

fn push(rt: &impl Abort, text: &mut String, words: &str) {
    text.push_str(words).expect(rt, "no memory");
}

// Adds a word of four letters, another one for each number below 26^4, in the order of the numbers.
fn push_word(rt: &impl Abort, text: &mut String, number: u32) {
    push(rt, text, " ");
    for letter in [number / 17_576, number / 676, number / 26, number] {
        text.push(char::from(b'a' + (letter % 26) as u8))
            .expect(rt, "no memory");
    }
}

// A job of two documents: the first has so many words, the second each third of them.
fn job_text(rt: &impl Abort, alloc: Global, words: u32) -> String {
    let mut text = String::new(alloc);
    push(rt, &mut text, OPENING);
    for number in 0..words {
        push_word(rt, &mut text, number);
    }
    push(rt, &mut text, "\ndoc e t");
    for number in 0..words {
        if number % 3 == 0 {
            push_word(rt, &mut text, number);
        }
    }
    push(rt, &mut text, "\nend\n");
    text
}

// Its index.
fn index_lines(rt: &impl Abort, alloc: Global, words: u32) -> String {
    let mut lines = String::new(alloc);
    add_number(rt, alloc, &mut lines, "index ", words as usize);
    for number in 0..words {
        push(rt, &mut lines, "\nword");
        push_word(rt, &mut lines, number);
        push(rt, &mut lines, if number % 3 == 0 { " d e" } else { " d" });
    }
    push(rt, &mut lines, "\n");
    lines
}

// Whether a run of the job writes its index.
fn writes_its_index<T: Threads + Wait + Clock + Abort + Sync>(
    rt: &T,
    alloc: Global,
    words: u32,
) -> bool {
    let text = job_text(rt, alloc, words);
    let mut reader = text.as_bytes();
    let mut lines = Vec::new(alloc);
    let end = run_text(rt, alloc, &mut reader, &mut lines, &PlainGate);
    end == Ok(RunEnd::Done) && lines.as_slice() == index_lines(rt, alloc, words).as_bytes()
}

// From 4,096 words on threads make the lines, in parts that may differ by a word.
#[test]
fn an_index_is_whole_whoever_makes_its_lines(rt: HostRuntime) {
    for words in [4_095, 4_096, 4_097, 4_098, 4_099, 30_000] {
        assert!(rt; writes_its_index(&rt, rt.alloc(), words), "{words}");
    }
}
