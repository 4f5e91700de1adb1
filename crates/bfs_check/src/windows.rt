// Windows of a disk that is only read.
ghost use Rattle.std.specs.Prelude.{◌≡◌, ◌≤◌, ◌<◌, ◌+◌, ◌*◌, ◌/◌, ◌%◌, ◌^◌, ℕ, List, Option, None, Some, length, take, drop, get_or, IsTrue, IfErr, OnOk};
ghost use Rattle.bfs_base.specs.Counts.{HasCause};
ghost use Rattle.bfs_base.specs.Moments.{Elapses, Passed};
ghost use Rattle.bfs_disk.specs.State.{State};
ghost use Rattle.bfs_disk.specs.Disk.{HasSectors, MayLeave, ReadsSectors};
ghost use Rattle.bfs_txn.specs.Faults.{Counts, IsCaused};
ghost use Rattle.bfs_check.specs.Slots.{AreKept};

use bfs_disk::{Disk, Failed};
use bfs_txn::BlockFault;
use std::alloc::Global;

// The bytes of a window, which is 64 sectors.
const WINDOW: usize = 32768;

// The bytes of 32 windows.
const ROOM: usize = 1048576;

/// Windows of a disk that were read: 64 sectors each, aligned to their length. Window w is kept in slot w modulo 32. A window is read whole once it, or
/// the one before it, was asked for: what is read here and there is read by itself.
#[derive(Drop)]
pub struct Windows {
    /// Of each slot the number of its window and one, or zero.
    pub tags: [u64; 32],
    /// Of each slot the number and one of the window that was asked for last, or zero.
    pub asked: [u64; 32],
    /// The slots one after another, 1 MiB, or nothing where no memory was found.
    pub bytes: Vec<u8>,
}

// So many zeros, or none where there is no memory.
fn zeros(alloc: Global, count: usize) -> Vec<u8> {
    match vec![in alloc; 0; count] {
        Ok(zeros) => zeros,
        Err(_) => Vec::new(alloc),
    }
}

// Reads a window into its slot.
fn keep<D: Disk>(
    disk: &mut D,
    window: u64,
    tags: &mut [u64],
    bytes: &mut [u8],
) -> Result<(), Failed>
    requires tags { length tags.old ≡ 32 }
    requires bytes { length bytes.old ≡ 1048576 }
    requires small { window < 2 ^ 57 }
    requires on_disk { HasSectors (D.size disk.old) (64 * window + 64) }
    requires kept { AreKept (D.state disk.old) tags.old bytes.old }
    ensures kept { AreKept (D.state disk.old) tags.new bytes.new }
    ensures there { OnOk result (get_or tags.new (window % 32) 0 ≡ window + 1) }
    ensures state { D.state disk.new ≡ D.state disk.old }
    ensures size { D.size disk.new ≡ D.size disk.old }
    ensures time { Elapses (D.state disk.old) result (D.clock disk.old) (D.clock disk.new) (D.since disk.old) (D.since disk.new) (MayLeave (D.state disk.old)) }
    ensures cause { HasCause (D.faults disk.old) (D.faults disk.new) result }
    ensures stops { D.stops disk.new ≡ D.stops disk.old }
{
    let slot = (window % 32) as usize;
    let start = WINDOW * slot;
    tags[slot] = 0;
    match disk.read(64 * window, &mut bytes[start..start + WINDOW]) {
        Ok(()) => {
            tags[slot] = window + 1;
            Ok(())
        }
        Err(fault) => Err(fault),
    }
}

// Copies sectors out of their window's slot, from the one with this number on the disk.
fn copy(first: u64, bytes: &[u8], into: &mut [u8])
    requires bytes { length bytes.now ≡ 1048576 }
    requires long { length into.old ≡ 512 * (length into.old / 512) }
    requires within { first % 64 + length into.old / 512 ≤ 64 }
    ensures { into.new ≡ take (length into.old) (drop (512 * (first % 2048)) bytes.now) }
{
    let start = 512 * (first % 2048) as usize;
    into.copy_from_slice(&bytes[start..start + into.len()]);
}

impl Windows {
    /// No windows, with room for 32 of them where there is memory.
    pub fn new(alloc: Global) -> Windows
        ensures { (told : Option State) → AreKept told result.tags result.bytes.items }
    {
        Windows {
            tags: [0; 32],
            asked: [0; 32],
            bytes: zeros(alloc, ROOM),
        }
    }

    // Notes that a window is asked for. Was it before, or the one in front of it, last in its slot?
    fn ask(&mut self, window: u64) -> bool
        requires small { window < 2 ^ 57 }
        ensures tags { self.new.tags ≡ self.old.tags }
        ensures bytes { self.new.bytes ≡ self.old.bytes }
    {
        let slot = (window % 32) as usize;
        let again = self.asked[slot] == window + 1;
        let behind = self.asked[(slot + 31) % 32] == window;
        self.asked[slot] = window + 1;
        again || behind
    }

    // Is the window kept, or is it to be read whole and can be, where the disk's sectors are read up to an end?
    fn fetch<D: Disk>(&mut self, disk: &mut D, window: u64, end: u64) -> bool
        requires small { window < 2 ^ 57 }
        requires on_disk { HasSectors (D.size disk.old) end }
        requires kept { AreKept (D.state disk.old) self.old.tags self.old.bytes.items }
        ensures kept { AreKept (D.state disk.old) self.new.tags self.new.bytes.items }
        ensures room { IsTrue result → length self.new.bytes.items ≡ 1048576 }
        ensures there { IsTrue result → get_or self.new.tags (window % 32) 0 ≡ window + 1 }
        ensures state { D.state disk.new ≡ D.state disk.old }
        ensures size { D.size disk.new ≡ D.size disk.old }
        ensures time { Passed (D.clock disk.old) (D.clock disk.new) (D.since disk.old) (D.since disk.new) (MayLeave (D.state disk.old)) }
        ensures later { D.faults disk.old ≤ D.faults disk.new }
        ensures stops { D.stops disk.new ≡ D.stops disk.old }
    {
        if self.bytes.len() != ROOM {
            return false;
        }
        let near = self.ask(window);
        let slot = (window % 32) as usize;
        if self.tags[slot] == window + 1 {
            return true;
        }
        if !near || 64 * window + 64 > end {
            return false;
        }
        match keep(disk, window, &mut self.tags, &mut self.bytes) {
            Ok(()) => true,
            Err(_) => false,
        }
    }

    /// Reads sectors that lie in one window, out of that window where it is kept, or where it or the one before it was asked for and it lies whole before
    /// the end and can be read; and else by themselves.
    pub fn read<D: Disk>(
        &mut self,
        disk: &mut D,
        end: u64,
        first: u64,
        into: &mut [u8],
    ) -> Result<(), BlockFault>
        requires small { end < 2 ^ 63 }
        requires on_disk { HasSectors (D.size disk.old) end }
        requires long { length into.old ≡ 512 * (length into.old / 512) }
        requires inside { first + length into.old / 512 ≤ end }
        requires within { first % 64 + length into.old / 512 ≤ 64 }
        requires kept { AreKept (D.state disk.old) self.old.tags self.old.bytes.items }
        ensures bytes { OnOk result (ReadsSectors (D.state disk.old) first into.new) }
        ensures kept { AreKept (D.state disk.old) self.new.tags self.new.bytes.items }
        ensures state { D.state disk.new ≡ D.state disk.old }
        ensures size { D.size disk.new ≡ D.size disk.old }
        ensures time { Passed (D.clock disk.old) (D.clock disk.new) (D.since disk.old) (D.since disk.new) (MayLeave (D.state disk.old)) }
        ensures cause { IsCaused (record { faults = D.faults disk.old; stops = D.stops disk.old; stop = None }) (record { faults = D.faults disk.new; stops = D.stops disk.new; stop = None }) result }
    {
        if self.fetch(disk, first / 64, end) {
            copy(first, &self.bytes, into);
            return Ok(());
        }
        let before = disk.faults();
        match disk.read(first, into) {
            Ok(()) => Ok(()),
            Err(_) => Err(BlockFault::Disk {
                before,
                after: disk.faults(),
            }),
        }
    }
}
