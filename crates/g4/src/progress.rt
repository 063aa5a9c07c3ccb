// A line on the terminal that says how many files a long run has parsed. It is outside the report.
use g4_ports::{Failed, Gate, Sink};
use std::io::{IsTerminal, Write};
use std::sync::atomic::{AtomicBool, AtomicU32, AtomicU64, Ordering};
use std::time::Instant;

/// The milliseconds after which a run is long.
const LONG: u64 = 1000;

/// The milliseconds between two lines.
const BETWEEN: u64 = 100;

/// Counts the files that workers have ended. Where err is a terminal and the run is long, it shows the count there, on one line.
#[derive(Drop)]
pub struct Progress<'a> {
    rt: &'a HostRuntime,
    /// When the run began; None where nothing is to be shown.
    begun: Option<Instant>,
    ended: AtomicU32,
    /// The millisecond of the run from which the next line may be shown.
    due: AtomicU64,
    /// A line is on the terminal.
    shown: AtomicBool,
}

impl<'a> Progress<'a> {
    /// The progress of a run that begins now.
    pub fn new(rt: &'a HostRuntime) -> Self {
        let begun = if rt.stderr().is_terminal() {
            Instant::now(rt).ok()
        } else {
            None
        };
        Progress {
            rt,
            begun,
            ended: AtomicU32::new(0),
            due: AtomicU64::new(LONG),
            shown: AtomicBool::new(false),
        }
    }

    /// Whether a line is due now. It is then not due to anyone else until later.
    fn is_due(&self) -> bool {
        let Some(begun) = &self.begun else {
            return false;
        };
        let Ok(past) = begun.elapsed(self.rt) else {
            return false;
        };
        let now = past
            .as_secs()
            .saturating_mul(1000)
            .saturating_add(u64::from(past.subsec_millis()));
        let due = self.due.load(Ordering::SeqCst);
        now >= due
            && self
                .due
                .compare_exchange(
                    due,
                    now.saturating_add(BETWEEN),
                    Ordering::SeqCst,
                    Ordering::SeqCst,
                )
                .is_ok()
    }

    /// Takes the line away, if there is one.
    pub fn clear(&self) {
        if self.shown.swap(false, Ordering::SeqCst) {
            let _taken = eprint!(self.rt; "\r\x1b[K");
        }
    }
}

impl<'a> Gate for Progress<'a> {
    fn enter(&self, _worker: u32, _file: u32) {}

    fn leave(&self, _worker: u32, _file: u32) {
        let before = self.ended.fetch_add(1, Ordering::SeqCst);
        if self.is_due() {
            let ended = before.saturating_add(1);
            self.shown.store(true, Ordering::SeqCst);
            let _said = eprint!(self.rt; "\rg4: {ended} files parsed\x1b[K");
        }
    }
}

/// An output before whose first byte the line of progress is taken away.
#[derive(Drop)]
pub struct AfterProgress<'a, O: Sink + Drop> {
    inner: O,
    progress: &'a Progress<'a>,
}

impl<'a, O: Sink + Drop> AfterProgress<'a, O> {
    /// The output behind this progress.
    pub fn new(inner: O, progress: &'a Progress<'a>) -> Self {
        AfterProgress { inner, progress }
    }

    /// The output itself.
    pub fn inner(&self) -> &O {
        &self.inner
    }
}

impl<'a, O: Sink + Drop> Sink for AfterProgress<'a, O> {
    ghost taken = { λ s. O.taken s.inner };

    ghost faults = { λ s. O.faults s.inner };

    fn put(&mut self, piece: &[u8]) -> Result<usize, Failed> {
        self.progress.clear();
        self.inner.put(piece)
    }
}
