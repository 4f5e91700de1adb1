// Ports over std's readers and writers and the system's clock.
ghost use Rattle.std.specs.Prelude.{◌≡◌, ◌≢◌, ◌≤◌, length, None, IfOk, IfErr};
ghost use Rattle.std.specs.IoError.{error_kind};

use crate::{Clock, Failed, Sink, Source};
use std::io::{ErrorKind, Read, Write};
use std::time::{SystemTime, UNIX_EPOCH};
use std::{io, time};

// Nothing says that the signals end, and a loop has to, so it counts. Nobody waits for this number.
const TRIES: u64 = u64::MAX;

// One read, made again where a signal interrupts it.
fn read_retrying<R: Read>(reader: &mut R, into: &mut [u8]) -> io::Result<usize>
    ensures bound { IfOk result (λ n. n ≤ length into.old) }
    ensures tried { IfErr result (λ e. error_kind e ≢ ErrorKind.Interrupted) }
{
    for _ in 0..TRIES {
        match reader.read(into) {
            Ok(n) => return Ok(n),
            Err(error) if error.kind() == ErrorKind::Interrupted => {}
            Err(error) => return Err(error),
        }
    }
    Err(ErrorKind::TimedOut.into())
}

// One write, made again where a signal interrupts it.
fn write_retrying<W: Write>(writer: &mut W, from: &[u8]) -> io::Result<usize>
    ensures bound { IfOk result (λ n. n ≤ length from.now) }
    ensures tried { IfErr result (λ e. error_kind e ≢ ErrorKind.Interrupted) }
{
    for _ in 0..TRIES {
        match writer.write(from) {
            Ok(n) => return Ok(n),
            Err(error) if error.kind() == ErrorKind::Interrupted => {}
            Err(error) => return Err(error),
        }
    }
    Err(ErrorKind::TimedOut.into())
}

/// A source over a reader. It tells no bytes. A call that a signal interrupts is made again.
#[derive(Drop)]
pub struct Input<R> {
    reader: R,
    faults: u64,
}

impl<R: Read> Input<R> {
    /// A source over this reader.
    pub fn over(reader: R) -> Input<R>
        ensures { ⟦<Input<R> as Source>⟧.faults result ≡ 0 }
    {
        Input { reader, faults: 0 }
    }
}

impl<R: Read> Source for Input<R> {
    ghost left = { λ _. None };

    ghost faults = { λ s. s.faults };

    fn take(&mut self, into: &mut [u8]) -> Result<usize, Failed> {
        match read_retrying(&mut self.reader, into) {
            Ok(n) => Ok(n),
            Err(_) => {
                self.faults = self.faults.saturating_add(1);
                Err(Failed)
            }
        }
    }
}

/// A sink over a writer. It tells no bytes. A call that a signal interrupts is made again.
#[derive(Drop)]
pub struct Output<W> {
    writer: W,
    faults: u64,
}

impl<W: Write> Output<W> {
    /// A sink over this writer.
    pub fn over(writer: W) -> Output<W>
        ensures { ⟦<Output<W> as Sink>⟧.faults result ≡ 0 }
    {
        Output { writer, faults: 0 }
    }
}

impl<W: Write> Sink for Output<W> {
    ghost written = { λ _. None };

    ghost faults = { λ s. s.faults };

    fn put(&mut self, from: &[u8]) -> Result<usize, Failed> {
        match write_retrying(&mut self.writer, from) {
            Ok(n) => {
                if n == 0 {
                    self.faults = self.faults.saturating_add(1);
                }
                Ok(n)
            }
            Err(_) => {
                self.faults = self.faults.saturating_add(1);
                Err(Failed)
            }
        }
    }
}

/// The system's clock, in seconds since the beginning of 1970 (UTC). It tells no second.
#[derive(Drop)]
pub struct SystemClock<R> {
    rt: R,
}

impl<R: time::Clock> SystemClock<R> {
    /// The clock of this runtime.
    pub fn over(rt: R) -> SystemClock<R>
        ensures { ⟦<SystemClock<R> as Clock>⟧.stands result ≡ None }
    {
        SystemClock { rt }
    }
}

impl<R: time::Clock> Clock for SystemClock<R> {
    ghost stands = { λ _. None };

    /// A second past 2^40 - 1 is cut to it. It is 0 where the clock can't be read or stands before 1970.
    fn seconds(&mut self) -> u64 {
        let Ok(now) = SystemTime::now(&self.rt) else {
            return 0;
        };
        match now.duration_since(UNIX_EPOCH) {
            Ok(since) => since.as_secs().min((1 << 40) - 1),
            Err(_) => 0,
        }
    }
}
