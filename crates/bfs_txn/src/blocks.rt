// A volume's blocks, to be read and changed.
ghost use Rattle.std.specs.Prelude.{◌≡◌, ◌≤◌, ◌+◌, ℕ, Bool, List, Option, Some, OnOk, OnErr, length};
ghost use Rattle.std.specs.Option.{option_map};
ghost use Rattle.bfs_txn.specs.Told.{AreOfBlock, AreSized, Frame, TellsOver, with_block, with_number};
ghost use Rattle.bfs_txn.specs.Faults.{Counts, IsCaused};

use crate::BlockFault;
use std::alloc::AllocError;

/// Blocks that can be read.
pub trait Blocks {
    /// What is told of the blocks, where anything is.
    ghost told: { Self → Option (ℕ → Option (List ℕ)) };

    /// The length of a block.
    ghost size: { Self → ℕ };

    /// The counts of what lies below.
    ghost counts: { Self → Counts };

    /// The blocks that have been changed, which is none where nothing can be changed.
    ghost changed: { Self → ℕ → Bool };

    /// At most so many blocks have been changed.
    ghost pairs: { Self → ℕ };

    /// The block that was read last, with the bytes that were read. After a read that failed nothing is said of it.
    ghost last: { Self → Option (ℕ × List ℕ) };

    /// What its owner notes.
    ghost Note: { Type 0 };

    /// What stays.
    ghost frame: { Self → Frame Note };

    /// Reads a block: the bytes told of it, or any where none are told.
    fn get(&mut self, block: u64, into: &mut [u8]) -> Result<(), BlockFault>
        requires { length into.old ≡ size self.old }
        ensures bytes { OnOk result (AreOfBlock (told self.old) block into.new) }
        ensures last { OnOk result (last self.new ≡ Some (block, into.new)) }
        ensures told { told self.new ≡ told self.old }
        ensures size { size self.new ≡ size self.old }
        ensures changed { changed self.new ≡ changed self.old }
        ensures pairs { pairs self.new ≡ pairs self.old }
        ensures frame { frame self.new ≡ frame self.old }
        ensures cause { IsCaused (counts self.old) (counts self.new) result };

    /// What is told of a block has a block's length.
    ghost sized: { (b : Self) → AreSized (size b) (told b) };
}

/// Blocks that can be changed.
pub trait Edits: Blocks {
    /// Changes a block.
    fn set(&mut self, block: u64, from: &[u8]) -> Result<(), AllocError>
        requires { length from.now ≡ Self.size self.old }
        ensures told { OnOk result (Self.told self.new ≡ option_map (with_block block from.now) (Self.told self.old)) }
        ensures kept { OnErr result (Self.told self.new ≡ Self.told self.old) }
        ensures changed { OnOk result ((k : ℕ) → Self.changed self.new k ≡ with_number block (Self.changed self.old) k) }
        ensures same { OnErr result (Self.changed self.new ≡ Self.changed self.old) }
        ensures pairs { Self.pairs self.new ≤ Self.pairs self.old + 1 }
        ensures last { Self.last self.new ≡ Self.last self.old }
        ensures size { Self.size self.new ≡ Self.size self.old }
        ensures frame { Self.frame self.new ≡ Self.frame self.old }
        ensures counts { Self.counts self.new ≡ Self.counts self.old };

    /// Blocks are told just where they are told of what lies below, which the frame keeps: what was told nothing of
    /// stays so.
    ghost tells: { (b : Self) → TellsOver (Self.told b) (Self.frame b).below };
}
