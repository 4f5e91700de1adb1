// A disk that tells how much of it is read.
ghost use Rattle.std.specs.Prelude.{◌≡◌};

use crate::progress::Progress;
use bfs_disk::{Disk, Failed};
use bfs_super::Super;
use std::time;

/// A disk whose reads are told, in blocks of the volume on it, once its superblock was read.
pub struct WatchedDisk<'a, D, X> {
    pub disk: D,
    pub progress: &'a Progress<'a, X>,
    /// How many bytes were read.
    pub read: u64,
    /// The bytes of a block and the number of blocks, of the volume whose superblock was read.
    pub volume: Option<(u32, u64)>,
}

impl<D: Disk, X: AllocGlobal + Eprint + time::Clock> WatchedDisk<'_, D, X> {
    // Takes note of the superblock, where these are its bytes.
    fn note_super(&mut self, at: u64, bytes: &[u8])
        ensures { self.new.disk ≡ self.old.disk }
    {
        if at != 1 || bytes.len() != 512 {
            return;
        }
        let mut sector = [0; 512];
        sector.copy_from_slice(bytes);
        if let Ok(sup) = Super::parse(&sector) {
            self.volume = Some((sup.block_size, sup.geometry().blocks));
        }
    }

    // Tells that so many bytes more were read.
    fn tell(&mut self, bytes: usize)
        ensures { self.new.disk ≡ self.old.disk }
    {
        self.read = self.read.saturating_add(bytes as u64);
        if let Some((block_size, blocks)) = self.volume {
            if block_size > 0 {
                self.progress
                    .blocks(self.read / u64::from(block_size), blocks);
            }
        }
    }
}

impl<D: Disk, X: AllocGlobal + Eprint + time::Clock> Disk for WatchedDisk<'_, D, X> {
    ghost state = { λ w. D.state w.disk };

    ghost size = { λ w. D.size w.disk };

    ghost clock = { λ w. D.clock w.disk };

    ghost since = { λ w. D.since w.disk };

    ghost faults = { λ w. D.faults w.disk };

    ghost stops = { λ w. D.stops w.disk };

    ghost counts_now = { λ w. D.counts_now w.disk };

    ghost fewer = { λ w. D.fewer w.disk };

    ghost begun = { λ w. D.begun w.disk };

    ghost only_now = { λ w. D.only_now w.disk };

    ghost sized = { λ w. D.sized w.disk };

    ghost filled = { λ w. D.filled w.disk };

    fn sectors(&mut self) -> Result<u64, Failed> {
        self.disk.sectors()
    }

    fn read(&mut self, at: u64, into: &mut [u8]) -> Result<(), Failed> {
        match self.disk.read(at, into) {
            Ok(()) => {
                self.tell(into.len());
                self.note_super(at, into);
                Ok(())
            }
            Err(fault) => Err(fault),
        }
    }

    fn write(&mut self, at: u64, from: &[u8]) -> Result<(), Failed> {
        self.disk.write(at, from)
    }

    fn barrier(&mut self) -> Result<(), Failed> {
        self.disk.barrier()
    }

    fn faults(&self) -> u64 {
        self.disk.faults()
    }
}
