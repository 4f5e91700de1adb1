// A disk over a file.
ghost use Rattle.std.specs.Prelude.{◌≡◌, ◌≤◌, ◌<◌, ◌+◌, ◌-◌, ◌*◌, ◌^◌, min, ℕ, length, None, Some, IfOk, option_copied};
ghost use Rattle.std.specs.Option.{ForSome};
ghost use Rattle.std.specs.String.{string_bytes};

use crate::{Disk, Failed};
use std::alloc::{AllocError, Global};
use std::fs::{OpenFile, OpenOptions};
use std::io;
use std::io::{Read, Seek, SeekFrom, Write};
use std::rt::Files;
use thiserror::Error;

/// Which call of a file failed, and what the system said of it.
#[derive(Debug, Drop, Error)]
pub enum FileFailure {
    #[error("it can't be opened as an image: {0}")]
    Open(io::Error),
    #[error("a read of it failed: {0}")]
    Read(io::Error),
    #[error("a write to it failed, and it may be changed: {0}")]
    Write(io::Error),
    #[error("it could not be brought to its medium, and it may be changed: {0}")]
    Barrier(io::Error),
}

// How many bytes are gathered before they are written.
const GATHERED: usize = 65536;

/// Sectors that were written one behind the other, and aren't in the file yet.
#[derive(Drop)]
struct Gathered {
    /// The number of the first sector.
    at: u64,
    /// How many bytes they have.
    filled: usize,
    /// Room for them, and nothing where no memory was found.
    room: Vec<u8>,
    ghost within: { filled ≤ length room.items },
    ghost small: { 512 * at < 2 ^ 64 },
}

impl Gathered {
    // No sectors, with room where there is memory.
    fn new(alloc: Global) -> Gathered {
        let room = match vec![in alloc; 0; GATHERED] {
            Ok(room) => room,
            Err(_) => Vec::new(alloc),
        };
        Gathered {
            at: 0,
            filled: 0,
            room,
        }
    }

    // The number of the sector behind them.
    fn end(&self) -> u64 {
        self.at.saturating_add(self.filled as u64 / 512)
    }

    // Have they a sector of so many bytes from this one on?
    fn meets(&self, at: u64, length: usize) -> bool {
        self.filled > 0 && at < self.end() && self.at < at.saturating_add(length as u64 / 512)
    }

    // Takes sectors that stand right behind them, or the first ones. Is there room?
    fn take(&mut self, at: u64, from: &[u8]) -> bool
        requires small { 512 * at < 2 ^ 64 }
    {
        if from.len() > self.room.len() - self.filled || (self.filled > 0 && at != self.end()) {
            return false;
        }
        if self.filled == 0 {
            self.at = at;
        }
        let end = self.filled + from.len();
        self.room[self.filled..end].copy_from_slice(from);
        self.filled = end;
        true
    }

    // Writes them. Where that fails they stay, so that no barrier succeeds without them.
    fn write_to<F: Write + Seek>(&mut self, file: &mut F) -> io::Result<()> {
        if self.filled > 0 {
            write_at(file, 512 * self.at, &self.room[..self.filled])?;
            self.filled = 0;
        }
        Ok(())
    }
}

/// A file, opened at its first call. It tells no content. Its sectors are the file's length divided by 512,
/// rounded down. A barrier brings the file to its medium. Each call that a signal interrupts is made again.
///
/// Sectors that are written one behind the other are gathered, up to 64 KiB, and go into the file together: once others are written, at a
/// barrier, or before one of them is read. A stop before loses them, as it may lose all that was written behind the last barrier.
#[derive(Drop)]
pub struct FileDisk<R: Files + Drop> {
    rt: R,
    path: String,
    file: Option<R::File>,
    gathered: Gathered,
    sectors: Option<u64>,
    faults: u64,
    stops: u64,
    failure: Option<FileFailure>,
    ghost small: { ForSome sectors (λ n. 512 * n < 2 ^ 64) },
}

impl<R: Files + AllocGlobal + Drop> FileDisk<R> {
    /// The disk over the file with this path, which is opened, for reading and writing, at the first call of
    /// `sectors`.
    pub fn named(rt: R, path: &str) -> Result<FileDisk<R>, AllocError>
        ensures size { IfOk result (λ d. ⟦<FileDisk<R> as Disk>⟧.size d ≡ None) }
        ensures faults { IfOk result (λ d. ⟦<FileDisk<R> as Disk>⟧.faults d ≡ 0) }
        ensures stops { IfOk result (λ d. ⟦<FileDisk<R> as Disk>⟧.stops d ≡ 0) }
        ensures path { IfOk result (λ d. string_bytes d.path ≡ path.now) }
    {
        let path = String::from_str(rt.alloc(), path)?;
        let gathered = Gathered::new(rt.alloc());
        Ok(FileDisk {
            rt,
            path,
            file: None,
            gathered,
            sectors: None,
            faults: 0,
            stops: 0,
            failure: None,
        })
    }
}

impl<R: Files + Drop> FileDisk<R> {
    /// The last call of the file that failed, for a message to who runs the program.
    pub fn failure(&self) -> Option<&FileFailure>
        ensures { option_copied result ≡ self.now.failure }
    {
        self.failure.as_ref()
    }
}

// Opens the file, and tells its length by the place of its end, which a block device has too.
fn open<R: Files>(rt: &R, path: &str) -> io::Result<(R::File, u64)> {
    let mut file = OpenOptions::new().read(true).write(true).open(rt, path)?;
    let length = file.seek(SeekFrom::End(0))?;
    Ok((file, length))
}

fn read_at<F: Read + Seek>(file: &mut F, place: u64, into: &mut [u8]) -> io::Result<()> {
    file.seek(SeekFrom::Start(place))?;
    file.read_exact(into)
}

fn write_at<F: Write + Seek>(file: &mut F, place: u64, from: &[u8]) -> io::Result<()> {
    file.seek(SeekFrom::Start(place))?;
    file.write_all(from)?;
    file.flush()
}

// Reads from a file, behind what was gathered where it is asked for.
fn read_behind<F: Read + Write + Seek>(
    file: &mut F,
    gathered: &mut Gathered,
    at: u64,
    into: &mut [u8],
) -> io::Result<()>
    requires small { 512 * at < 2 ^ 64 }
{
    if gathered.meets(at, into.len()) {
        gathered.write_to(file)?;
    }
    read_at(file, 512 * at, into)
}

// Gathers sectors, or writes them behind what was gathered.
fn write_behind<F: Write + Seek>(
    file: &mut F,
    gathered: &mut Gathered,
    at: u64,
    from: &[u8],
) -> io::Result<()>
    requires small { 512 * at < 2 ^ 64 }
{
    if gathered.take(at, from) {
        return Ok(());
    }
    gathered.write_to(file)?;
    if gathered.take(at, from) {
        return Ok(());
    }
    write_at(file, 512 * at, from)
}

// Writes what was gathered, and brings a file to its medium.
fn sync<F: Write + Seek + OpenFile>(
    file: &mut F,
    gathered: &mut Gathered,
) -> Result<(), FileFailure> {
    match gathered.write_to(file) {
        Ok(()) => {}
        Err(error) => return Err(FileFailure::Write(error)),
    }
    match file.sync_all() {
        Ok(()) => Ok(()),
        Err(error) => Err(FileFailure::Barrier(error)),
    }
}

impl<R: Files + Drop> Disk for FileDisk<R> {
    ghost state = { λ _. None };

    ghost size = { λ d. d.sectors };

    ghost clock = { λ _. 0 };

    ghost since = { λ _ _ _. Unit {0} };

    ghost faults = { λ d. d.faults };

    ghost stops = { λ d. d.stops };

    ghost counts_now = { λ _ _ _ _ _. tt };

    ghost fewer = { λ _ _ _ _ _ _. tt };

    ghost begun = { λ _. tt };

    ghost only_now = { λ _ _ _. tt };

    ghost sized = { λ _. tt };

    ghost filled = { λ _. tt };

    fn sectors(&mut self) -> Result<u64, Failed> {
        if let Some(sectors) = self.sectors {
            return Ok(sectors);
        }
        match open(&self.rt, self.path.as_str()) {
            Ok((file, length)) => {
                let sectors = length / 512;
                self.file = Some(file);
                self.sectors = Some(sectors);
                Ok(sectors)
            }
            Err(error) => {
                self.failure = Some(FileFailure::Open(error));
                self.faults = self.faults.saturating_add(1);
                Err(Failed)
            }
        }
    }

    fn read(&mut self, at: u64, into: &mut [u8]) -> Result<(), Failed> {
        if let Some(file) = &mut self.file {
            match read_behind(file, &mut self.gathered, at, into) {
                Ok(()) => return Ok(()),
                Err(error) => self.failure = Some(FileFailure::Read(error)),
            }
        }
        self.faults = self.faults.saturating_add(1);
        Err(Failed)
    }

    fn write(&mut self, at: u64, from: &[u8]) -> Result<(), Failed> {
        if let Some(file) = &mut self.file {
            match write_behind(file, &mut self.gathered, at, from) {
                Ok(()) => return Ok(()),
                Err(error) => self.failure = Some(FileFailure::Write(error)),
            }
        }
        self.faults = self.faults.saturating_add(1);
        self.stops = self.stops.saturating_add(1);
        Err(Failed)
    }

    fn barrier(&mut self) -> Result<(), Failed> {
        if let Some(file) = &mut self.file {
            match sync(file, &mut self.gathered) {
                Ok(()) => return Ok(()),
                Err(failure) => self.failure = Some(failure),
            }
        }
        self.faults = self.faults.saturating_add(1);
        self.stops = self.stops.saturating_add(1);
        Err(Failed)
    }

    fn faults(&self) -> u64 {
        self.faults
    }
}
