use job_play::ScriptObserver;
use job_run::{Observer, Progress};
use std::io::IsTerminal;
use std::sync::atomic::{AtomicU64, Ordering};
use std::time::Instant;

// At each so manieth call the clock is asked.
const CALLS_A_LOOK: u64 = 256;

// What a terminal is told of work that lasts: how far it is, in one line that is written anew each second.
#[derive(Drop)]
pub(crate) struct Terminal<'a> {
    rt: &'a HostRuntime,
    // none where nothing is to be told
    begun: Option<Instant>,
    calls: AtomicU64,
    // in which second a line was written last, 0 for none
    told: AtomicU64,
}

impl<'a> Terminal<'a> {
    pub(crate) fn new(rt: &'a HostRuntime, quiet: bool) -> Terminal<'a> {
        let begun = if quiet || !rt.stderr().is_terminal() {
            None
        } else {
            Instant::now(rt).ok()
        };
        Terminal {
            rt,
            begun,
            calls: AtomicU64::new(0),
            told: AtomicU64::new(0),
        }
    }

    // Takes the line away.
    pub(crate) fn clear(&self) {
        if self.told.load(Ordering::SeqCst) > 0 {
            let _ = eprint!(self.rt; "\r\u{1b}[K");
        }
    }

    // Whether a second has passed since the last line.
    fn is_due(&self) -> bool {
        let Some(begun) = self.begun else {
            return false;
        };
        let calls = self.calls.load(Ordering::SeqCst).wrapping_add(1);
        self.calls.store(calls, Ordering::SeqCst);
        if calls % CALLS_A_LOOK != 0 {
            return false;
        }
        let Ok(elapsed) = begun.elapsed(self.rt) else {
            return false;
        };
        let second = elapsed.as_secs();
        if second <= self.told.load(Ordering::SeqCst) {
            return false;
        }
        self.told.store(second, Ordering::SeqCst);
        true
    }
}

impl<'a> Observer for Terminal<'a> {
    fn seen(&self, progress: &Progress) {
        if !self.is_due() {
            return;
        }
        let (splits, parts) = (progress.splits, progress.parts);
        let maps = splits.saturating_sub(progress.open_splits as usize);
        let done = parts.saturating_sub(progress.open_parts as usize);
        let (waves, deaths) = (progress.waves, progress.deaths);
        let _ = eprint!(self.rt;
            "\r\u{1b}[Kmaps {maps} of {splits}, parts {done} of {parts}, waves {waves}, deaths {deaths}"
        );
    }
}

impl<'a> ScriptObserver for Terminal<'a> {
    fn performed(&self, commands: usize, all: usize) {
        if self.is_due() {
            let _ = eprint!(self.rt; "\r\u{1b}[Kcommand {commands} of {all}");
        }
    }
}
