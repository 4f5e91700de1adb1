// Blocks in memory.
ghost use Rattle.std.specs.Prelude.{◌≡◌, length};

use bfs_txn::{BlockFault, Blocks, MemBlocks};

/// Blocks in memory, which tell nothing of what they hold, so that a test need not prove what stands there.
#[derive(Drop)]
pub struct Silent {
    pub blocks: MemBlocks,
}

impl Blocks for Silent {
    ghost use Rattle.std.specs.Prelude.{None, [], false};
    ghost use Rattle.bfs_txn.specs.Told.{read_last};

    ghost told = { λ s. None };

    ghost size = { λ s. s.blocks.block_size };

    ghost counts = { λ s. record { faults = 0; stops = 0; stop = None } };

    ghost changed = { λ s k. false };

    ghost pairs = { λ s. 0 };

    ghost last = { λ s. read_last s.blocks };

    ghost Note = { Unit {0} };

    ghost frame = { λ s. record { note = tt; names = []; kept = []; below = None } };

    ghost sized = { λ s. tt };

    fn get(&mut self, block: u64, into: &mut [u8]) -> Result<(), BlockFault> {
        self.blocks.get(block, into)
    }
}

/// The blocks of 1,024 bytes of the image of a new volume.
pub fn blocks_of(bytes: Vec<u8>) -> Silent
    requires { length bytes.items ≡ 4194304 }
    ensures { result.blocks.block_size ≡ 1024 }
{
    Silent {
        blocks: MemBlocks::new(bytes, 1024),
    }
}
