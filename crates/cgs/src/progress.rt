//! What is shown of a long run where a person looks on.

use cgs_worker::Gate;
use std::fmt::{self, Display, Formatter};
use std::io::{self, Write};
use std::sync::atomic::{AtomicBool, AtomicU64, Ordering};
use std::time::{Clock, Instant};

// The milliseconds from one line to the next.
const INTERVAL: u64 = 500;

// How many numbers of a path are shown: the last ones.
const NUMBERS: usize = 12;

/// A gate that shows on standard error how far a run is, in one line that is renewed at most twice a second. Like each
/// gate it promises nothing: a line that cannot be written, or a clock that cannot be read, is passed over.
#[derive(Drop)]
pub(crate) struct Progress<'a, R> {
    rt: &'a R,
    // nothing is shown without it
    start: Option<Instant>,
    branches: AtomicU64,
    // the milliseconds from the start to the next line
    due: AtomicU64,
    // whether a line stands there
    stands: AtomicBool,
}

impl<'a, R: Clock + Eprint> Progress<'a, R> {
    /// A gate that shows nothing before the first interval has passed, and nothing at all unless it is asked to.
    pub(crate) fn new(rt: &'a R, is_shown: bool) -> Progress<'a, R> {
        let start = if is_shown {
            Instant::now(rt).ok()
        } else {
            None
        };
        Progress {
            rt,
            start,
            branches: AtomicU64::new(0),
            due: AtomicU64::new(INTERVAL),
            stands: AtomicBool::new(false),
        }
    }

    /// Takes the line away, if there is one.
    pub(crate) fn clear(&self) {
        if self.stands.swap(false, Ordering::Relaxed) {
            let _ = eprint!(self.rt; "\r\x1b[K");
        }
    }

    // Whether the next line is due, which it is for one worker alone.
    fn is_due(&self, milliseconds: u64) -> bool {
        let due = self.due.load(Ordering::Relaxed);
        let next = milliseconds.saturating_add(INTERVAL);
        due <= milliseconds
            && self
                .due
                .compare_exchange(due, next, Ordering::Relaxed, Ordering::Relaxed)
                .is_ok()
    }
}

impl<R: Clock + Eprint> Gate for Progress<'_, R> {
    fn enter(&self, _worker: u32, path: &[usize]) {
        let Some(start) = self.start else {
            return;
        };
        let before = self.branches.fetch_add(1, Ordering::Relaxed);
        let Ok(elapsed) = start.elapsed(self.rt) else {
            return;
        };
        let milliseconds = u64::try_from(elapsed.as_millis()).unwrap_or(u64::MAX);
        if self.is_due(milliseconds) {
            let line = Line {
                branches: before.saturating_add(1),
                path,
                seconds: elapsed.as_secs(),
            };
            self.stands.store(true, Ordering::Relaxed);
            let _ = eprint!(self.rt; "\r{line}\x1b[K");
        }
    }
}

/// A stream before whose bytes the line is taken away, so that a terminal which has both shows them on lines of their own.
#[derive(Drop)]
pub(crate) struct Output<'a, R, W> {
    pub(crate) progress: &'a Progress<'a, R>,
    pub(crate) stream: W,
}

impl<R: Clock + Eprint, W: Write> Write for Output<'_, R, W> {
    fn write(&mut self, buf: &[u8]) -> io::Result<usize> {
        self.progress.clear();
        self.stream.write(buf)
    }

    fn flush(&mut self) -> io::Result<()> {
        self.stream.flush()
    }
}

/// The branches that were taken, the depth and the path of the last, and the seconds since the start.
#[derive(Drop)]
pub(crate) struct Line<'a> {
    pub(crate) branches: u64,
    pub(crate) path: &'a [usize],
    pub(crate) seconds: u64,
}

impl Display for Line<'_> {
    fn fmt<W: fmt::Write>(&self, f: &mut Formatter<W>) -> fmt::Result {
        let depth = self.path.len();
        write!(f, "cgs: branches {}, depth {depth}, path ", self.branches)?;
        let (before, last) = self.path.split_at(depth.saturating_sub(NUMBERS));
        if !before.is_empty() {
            f.write_str("...")?;
        }
        write_path(f, last)?;
        write!(f, ", {} s", self.seconds)
    }
}

// The numbers of a path, and a dash where there is none.
fn write_path<W: fmt::Write>(f: &mut Formatter<W>, path: &[usize]) -> fmt::Result {
    let Some((first, rest)) = path.split_first() else {
        return f.write_str("-");
    };
    write!(f, "{first}")?;
    for number in rest {
        write!(f, ".{number}")?;
    }
    Ok(())
}
