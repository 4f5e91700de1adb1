// One line on standard error that tells how far long work has come. It stands there only where standard error is a terminal, and it is written over.
ghost use Rattle.std.specs.Prelude.{◌≡◌, ◌++◌, IfOk, codes};
ghost use Rattle.std.specs.Fmt.{decimal};
ghost use Rattle.std.specs.String.{string_bytes};

use bfs_run::Watcher;
use std::alloc::{AllocError, Global};
use std::cell::Cell;
use std::io::IsTerminal;
use std::time;
use std::time::{Duration, Instant};

/// So many milliseconds at least lie between two lines.
const PAUSE: u64 = 100;

/// Tells whether standard error is a terminal.
pub trait Terminal {
    fn is_terminal(&self) -> bool;
}

impl Terminal for HostRuntime {
    fn is_terminal(&self) -> bool {
        self.stderr().is_terminal()
    }
}

/// The line of a run: how many of its lines are done, how many entries they have, and how many groups are durable.
pub fn lines_text(
    alloc: Global,
    done: u64,
    all: u64,
    entries: u64,
    groups: u64,
) -> Result<String, AllocError>
    ensures { IfOk result (λ t. string_bytes t ≡ codes "lines " ++ (decimal done ++ (codes " of " ++ (decimal all ++ (codes ", entries " ++ (decimal entries ++ (codes ", groups " ++ decimal groups))))))) }
{
    format!(in alloc; "lines {done} of {all}, entries {entries}, groups {groups}")
}

/// The line of a check: how many blocks were read, each as often as it was, and how many the volume has.
pub fn blocks_text(alloc: Global, read: u64, all: u64) -> Result<String, AllocError>
    ensures { IfOk result (λ t. string_bytes t ≡ codes "blocks read " ++ (decimal read ++ (codes ", of the volume " ++ decimal all))) }
{
    format!(in alloc; "blocks read {read}, of the volume {all}")
}

/// The line on standard error. What it shows changes no answer: where it can't be written, or where no memory is found for it, it is left out.
#[derive(Drop)]
pub struct Progress<'a, X> {
    rt: &'a X,
    /// Is it shown at all?
    shows: bool,
    /// When it was written last.
    last: Cell<Option<Instant>>,
    /// How many bytes long the line is that stands there.
    width: Cell<usize>,
}

impl<'a, X: AllocGlobal + Eprint + time::Clock> Progress<'a, X> {
    /// A line that hasn't been written yet.
    pub fn over(rt: &'a X, shows: bool) -> Progress<'a, X>
        ensures { result.shows ≡ shows }
    {
        Progress {
            rt,
            shows,
            last: Cell::new(None),
            width: Cell::new(0),
        }
    }

    /// Whether the line is to be written now. Then it isn't again for a while.
    fn is_due(&self) -> bool {
        if !self.shows {
            return false;
        }
        let Ok(now) = Instant::now(self.rt) else {
            return false;
        };
        if let Some(last) = self.last.get() {
            if now.duration_since(last) < Duration::from_millis(PAUSE) {
                return false;
            }
        }
        self.last.set(Some(now));
        true
    }

    /// Writes the line over the one that stands there, which isn't longer.
    fn show(&self, text: Result<String, AllocError>) {
        let Ok(text) = text else {
            return;
        };
        let _ = eprint!(self.rt; "\r{text}");
        self.width.set(text.len());
    }

    /// So many blocks were read, of a volume with so many.
    pub fn blocks(&self, read: u64, all: u64) {
        if self.is_due() {
            self.show(blocks_text(self.rt.alloc(), read, all));
        }
    }

    /// Wipes the line, so that what is printed next stands alone.
    pub fn end(&self) {
        let width = self.width.replace(0);
        if width == 0 {
            return;
        }
        let _ = eprint!(self.rt; "\r{:width$}\r", "");
    }
}

impl<X: AllocGlobal + Eprint + time::Clock> Watcher for Progress<'_, X> {
    fn lines(&self, done: u64, all: u64, entries: u64, groups: u64) {
        if self.is_due() {
            self.show(lines_text(self.rt.alloc(), done, all, entries, groups));
        }
    }
}
