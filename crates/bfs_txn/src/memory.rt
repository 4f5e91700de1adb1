// Blocks in memory.
ghost use Rattle.std.specs.Prelude.{◌≡◌, ◌≤◌, ◌<◌, ◌+◌, ◌*◌, ℕ, length, None};
ghost use Rattle.std.specs.Option.{option_map};
ghost use Rattle.bfs_txn.specs.Changed.{over, number_at, AreOfSize};
ghost use Rattle.bfs_txn.specs.Told.{blocks_of};
ghost use Rattle.bfs_bytes.specs.Fields.{Puts};

use crate::{BlockFault, Blocks, Group};
use bfs_bytes::put_bytes;
use std::marker::Model;
use std::snapshot::Snapshot;

/// Blocks in memory, which tell what they hold.
#[derive(Drop)]
pub struct MemBlocks {
    bytes: Vec<u8>,
    block_size: u32,
    read: Snapshot<Option<u64>>,
}

impl Model for MemBlocks {
    ghost use Rattle.bfs_txn.specs.Told.{Memory};

    ghost Value = { Memory };

    ghost view = { λ m. record { block_size = m.block_size; bytes = m.bytes.items; read = m.read.value } };
}

impl Blocks for MemBlocks {
    ghost use Rattle.std.specs.Prelude.{Some, None, [], false};
    ghost use Rattle.bfs_txn.specs.Told.{blocks_of, read_last};
    ghost use Rattle.bfs_txn.specs.Laws.{memory_sized};

    ghost told = { λ m. Some (blocks_of m.block_size m.bytes) };

    ghost size = { λ m. m.block_size };

    ghost counts = { λ m. record { faults = 0; stops = 0; stop = None } };

    ghost changed = { λ m k. false };

    ghost pairs = { λ m. 0 };

    ghost last = { λ m. read_last m };

    ghost Note = { Unit {0} };

    ghost frame = { λ m. record { note = tt; names = []; kept = []; below = None } };

    ghost sized = { λ m. memory_sized m.block_size m.bytes };

    fn get(&mut self, block: u64, into: &mut [u8]) -> Result<(), BlockFault> {
        match block_at(&self.bytes, self.block_size, block) {
            Some(bytes) => into.copy_from_slice(bytes),
            None => into.fill(0),
        }
        self.read = Snapshot::of(&Some(block));
        Ok(())
    }
}

impl MemBlocks {
    /// Blocks of so many bytes, one after another. Takes no memory.
    pub fn new(bytes: Vec<u8>, block_size: u32) -> MemBlocks
        requires { (n : ℕ) × (length bytes.items ≡ block_size * n) }
        ensures { result ≡ record { block_size = block_size; bytes = bytes.items; read = None } }
    {
        MemBlocks {
            bytes,
            block_size,
            read: Snapshot::of(&None),
        }
    }

    /// The bytes of all blocks, one after another.
    pub fn bytes(&self) -> &[u8]
        ensures { result.now ≡ self.now.bytes }
    {
        self.bytes.as_slice()
    }

    /// Writes a group's blocks to their places. Takes no memory.
    pub fn apply(&mut self, group: &Group)
        requires sized { AreOfSize self.old.block_size group.now.blocks }
        requires inside { (i : ℕ) → i < length group.now.blocks → self.old.block_size * number_at group.now.blocks i + self.old.block_size ≤ length self.old.bytes }
        ensures told { (k : ℕ) → blocks_of self.new.block_size self.new.bytes k ≡ over group.now.blocks (blocks_of self.old.block_size self.old.bytes) k }
        ensures size { self.new.block_size ≡ self.old.block_size }
        ensures length { length self.new.bytes ≡ length self.old.bytes }
    {
        self.read = Snapshot::of(&None);
        for i in 0..group.blocks.len() {
            let block = group.blocks.block(i);
            let bytes = group.blocks.bytes(i);
            put_block(&mut self.bytes, block, bytes);
        }
    }
}

/// Writes a block to its place.
fn put_block(bytes: &mut Vec<u8>, block: u64, from: &[u8])
    requires { length from.now * block + length from.now ≤ length bytes.old.items }
    ensures { Puts (length from.now * block) from.now bytes.old.items bytes.new.items }
{
    put_bytes(bytes, from.len() * block as usize, from);
}

/// A block's bytes, where it lies inside.
fn block_at(bytes: &[u8], block_size: u32, block: u64) -> Option<&[u8]>
    ensures { option_map (λ r. r.now) result ≡ blocks_of block_size bytes.now block }
{
    let size = block_size as usize;
    let start = (block as usize).checked_mul(size)?;
    let end = start.checked_add(size)?;
    bytes.get(start..end)
}
