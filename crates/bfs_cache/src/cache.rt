// The cache.
ghost use Rattle.std.specs.Prelude.{◌≡◌, ◌≢◌, ◌⊎◌, ◌≤◌, ◌<◌, ◌*◌, ◌/◌, ◌+◌, ◌^◌, ◌==◌, ℕ, List, [], length, max, nat_eq, Option, Some, None, IfOk, IfSome, IsOk, OnOk, OnErr, is_some};
ghost use Rattle.std.specs.List.{IsDistinct};
ghost use Rattle.std.specs.Map.{keys_of};
ghost use Rattle.std.specs.NonZero.{non_zero_usize_get};
ghost use Rattle.bfs_base.specs.Counts.{HasCause};
ghost use Rattle.bfs_base.specs.Moments.{Elapses};
ghost use Rattle.bfs_disk.specs.State.{State};
ghost use Rattle.bfs_disk.specs.Disk.{MayLeave, ReadsSectors, InRange};
ghost use Rattle.bfs_cache.specs.Kept.{View, kept_of, without, with_first, counted};
ghost use Rattle.bfs_cache.specs.Agreement.{Agrees, AgreesAt};

use crate::kept_bytes::KeptBytes;
use bfs_disk::{Disk, Failed};
use lru::LruCache;
use std::alloc::{AllocError, Global};
use std::marker::Model;
use std::num::NonZeroUsize;

/// Blocks of a disk that were read, with their bytes, at most so many. The one that was read last stands first, and where there
/// is no place the last one goes. Who writes a block takes it out.
#[derive(Drop)]
pub struct Cache {
    alloc: Global,
    blocks: LruCache<u64, KeptBytes>,
    bound: u32,
    unkept: u64,
}

impl Model for Cache {
    ghost use Rattle.std.specs.Prelude.{◌≡◌, ◌≤◌, length, max};
    ghost use Rattle.bfs_cache.specs.Kept.{View};

    ghost Value = { View };

    ghost view = { λ c. record { bound = c.bound; kept = c.blocks.entries; unkept = c.unkept } };

    ghost invariant = { λ c. (c.blocks.cap ≡ max c.bound 1) × (length c.blocks.entries ≤ c.bound) };
}

// The room of the map behind a cache, which is never without room.
fn room(blocks: u32) -> NonZeroUsize
    ensures { non_zero_usize_get result ≡ max blocks 1 }
{
    match NonZeroUsize::new(blocks as usize) {
        Some(room) => room,
        None => NonZeroUsize::MIN,
    }
}

impl Cache {
    /// An empty cache, for so many blocks. One for none keeps none. Room for a block is taken when it is read.
    pub fn new(alloc: Global, blocks: u32) -> Result<Cache, AllocError>
        ensures { IfOk result (λ c. c ≡ record { bound = blocks; kept = []; unkept = 0 }) }
    {
        let map = LruCache::sparse(alloc, room(blocks))?;
        Ok(Cache {
            alloc,
            blocks: map,
            bound: blocks,
            unkept: 0,
        })
    }

    /// Whether a block is kept, so that its read takes no disk call.
    pub fn has(&self, block: u64) -> bool
        ensures { result ≡ is_some (kept_of self.now.kept block) }
    {
        self.blocks.contains(&block)
    }

    /// The number of blocks that are kept.
    pub fn len(&self) -> usize
        ensures len { result ≡ length self.now.kept }
        ensures within { length self.now.kept ≤ self.now.bound }
        ensures once { IsDistinct nat_eq (keys_of self.now.kept) }
    {
        self.blocks.len()
    }

    pub fn is_empty(&self) -> bool
        ensures { result ≡ (length self.now.kept == 0) }
    {
        self.blocks.is_empty()
    }

    /// How often a block that was read found no memory to be kept.
    pub fn unkept(&self) -> u64
        ensures { result ≡ self.now.unkept }
    {
        self.unkept
    }

    /// Takes a block out, before it is written or after. Takes no memory.
    pub fn forget(&mut self, block: u64)
        ensures kept { self.new ≡ record self.old { kept = without block self.old.kept } }
        ensures gone { kept_of self.new.kept block ≡ None }
        ensures others { (k : ℕ) → k ≢ block → kept_of self.new.kept k ≡ kept_of self.old.kept k }
        // If what is kept of every other block agreed with the disk, all does now.
        ensures agrees { (told : Option State) (r : ℕ) → ((k : ℕ) → k ≢ block → AgreesAt told r self.old.kept k) → Agrees told r self.new.kept }
    {
        let _many = self.blocks.len();
        let _ = self.blocks.pop(&block);
    }

    /// Reads a block of the disk, whose length is that of the slice, the same in every call. A block that is kept is given as it
    /// is kept, with no disk call. One that is read is kept then, in front of the others, where memory is found for it: want of
    /// memory changes no answer. A read that failed leaves the cache as it was; what is in the slice then has no meaning.
    pub fn read<D: Disk>(&mut self, disk: &mut D, block: u64, into: &mut [u8]) -> Result<(), Failed>
        requires whole { length into.old ≡ 512 * (length into.old / 512) }
        requires small { length into.old / 512 * block < 2 ^ 64 }
        requires range { InRange (D.size disk.old) (length into.old / 512 * block) into.old }
        requires agrees { Agrees (D.state disk.old) (length into.old / 512) self.old.kept }
        ensures bytes { OnOk result (ReadsSectors (D.state disk.old) (length into.old / 512 * block) into.new) }
        ensures agrees { Agrees (D.state disk.new) (length into.old / 512) self.new.kept }
        // A block that is kept takes no disk call. One that isn't takes at most one, as the disk's own read, and only that can fail.
        ensures there { IfSome (kept_of self.old.kept block) (λ bytes. IsOk result × (into.new ≡ bytes) × (disk.new ≡ disk.old)) }
        ensures time { kept_of self.old.kept block ≡ None → Elapses (D.state disk.old) result (D.clock disk.old) (D.clock disk.new) (D.since disk.old) (D.since disk.new) (MayLeave (D.state disk.old)) }
        ensures cause { HasCause (D.faults disk.old) (D.faults disk.new) result }
        // The block stands first, or it wasn't kept and no memory was found to keep it.
        ensures first { OnOk result ((self.new ≡ with_first block into.new self.old) ⊎ ((kept_of self.old.kept block ≡ None) × (self.new ≡ counted self.old))) }
        ensures failed { OnErr result (self.new ≡ self.old) }
        ensures state { D.state disk.new ≡ D.state disk.old }
        ensures size { D.size disk.new ≡ D.size disk.old }
        ensures stops { D.stops disk.new ≡ D.stops disk.old }
    {
        match self.blocks.get(&block) {
            Some(bytes) => {
                into.copy_from_slice(bytes.as_slice());
                Ok(())
            }
            None => self.read_new(disk, block, into),
        }
    }

    // Reads a block that isn't kept.
    fn read_new<D: Disk>(&mut self, disk: &mut D, block: u64, into: &mut [u8]) -> Result<(), Failed>
        requires whole { length into.old ≡ 512 * (length into.old / 512) }
        requires small { length into.old / 512 * block < 2 ^ 64 }
        requires range { InRange (D.size disk.old) (length into.old / 512 * block) into.old }
        requires new { kept_of self.old.kept block ≡ None }
        ensures bytes { OnOk result (ReadsSectors (D.state disk.old) (length into.old / 512 * block) into.new) }
        ensures time { Elapses (D.state disk.old) result (D.clock disk.old) (D.clock disk.new) (D.since disk.old) (D.since disk.new) (MayLeave (D.state disk.old)) }
        ensures cause { HasCause (D.faults disk.old) (D.faults disk.new) result }
        ensures first { OnOk result ((self.new ≡ with_first block into.new self.old) ⊎ (self.new ≡ counted self.old)) }
        ensures failed { OnErr result (self.new ≡ self.old) }
        ensures state { D.state disk.new ≡ D.state disk.old }
        ensures size { D.size disk.new ≡ D.size disk.old }
        ensures stops { D.stops disk.new ≡ D.stops disk.old }
    {
        let sectors = (into.len() / 512) as u64;
        match disk.read(sectors * block, into) {
            Ok(()) => {
                self.keep(block, into);
                Ok(())
            }
            Err(failed) => Err(failed),
        }
    }

    // Puts a block that isn't kept in front of the others, or counts that it can't.
    fn keep(&mut self, block: u64, from: &[u8])
        requires new { kept_of self.old.kept block ≡ None }
        ensures { (self.new ≡ with_first block from.now self.old) ⊎ (self.new ≡ counted self.old) }
    {
        match self.put(block, from) {
            Ok(()) => {}
            Err(_) => self.unkept = self.unkept.saturating_add(1),
        }
    }

    // Puts a block that isn't kept in front of the others.
    fn put(&mut self, block: u64, from: &[u8]) -> Result<(), AllocError>
        requires new { kept_of self.old.kept block ≡ None }
        ensures ok { OnOk result (self.new ≡ with_first block from.now self.old) }
        ensures err { OnErr result (self.new ≡ self.old) }
    {
        if self.bound == 0 {
            return Ok(());
        }
        let Ok(bytes) = KeptBytes::of(self.alloc, from) else {
            return Err(AllocError);
        };
        match self.blocks.put(block, bytes) {
            Ok(_) => Ok(()),
            Err(_) => Err(AllocError),
        }
    }
}
