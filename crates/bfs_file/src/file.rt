// The bytes of a file, as places in blocks.
ghost use Rattle.std.specs.Prelude.{◌≡◌, ◌<◌, ◌/◌, ℕ, List, Option, Some, IsSome, IfOk, IfErr, slice_get};
ghost use Rattle.bfs_super.specs.Conditions.{IsValid, natural};
ghost use Rattle.bfs_txn.specs.Faults.{AreLater};
ghost use Rattle.bfs_stream.specs.Faults.{HasNoBlock, IsDamagedAt, IsBlamedAt, IsStreamCause};
ghost use Rattle.bfs_stream.specs.Places.{places_at};
ghost use Rattle.bfs_stream.specs.Sizes.{sizes_of};
ghost use Rattle.bfs_stream.specs.Told.{Stands, contents};

use bfs_stream::{Stream, StreamFault};
use bfs_super::Super;
use bfs_txn::Blocks;
use std::alloc::Global;
use std::marker::Model;

/// The file whose inode is at a block. Nothing of it is kept in memory.
#[derive(Drop)]
pub struct File {
    alloc: Global,
    inode: u64,
    sup: Super,
}

impl Model for File {
    ghost use Rattle.std.specs.Prelude.{◌<◌};
    ghost use Rattle.bfs_super.specs.Conditions.{IsValid, natural};
    ghost use Rattle.bfs_stream.specs.Sizes.{Origin, sizes_of};

    ghost Value = { Origin };

    ghost view = { λ f. record { id = f.inode; sizes = sizes_of f.sup } };

    ghost invariant = { λ f. IsValid f.sup × (f.inode < natural f.sup.num_blocks) };
}

impl File {
    ghost use Rattle.bfs_stream.specs.Sizes.{Origin};

    /// The file whose inode is at this block. Takes no memory.
    pub fn at(alloc: Global, inode: u64, sup: &Super) -> File
        requires valid { IsValid sup.now }
        requires inside { inode < natural sup.now.num_blocks }
        ensures { result ≡ record { id = inode; sizes = sizes_of sup.now } }
    {
        File {
            alloc,
            inode,
            sup: *sup,
        }
    }

    /// The block that has a byte of the file, counted from 0; its place in the block is what is left of the byte's number
    /// there. Whether the byte is below the file's size isn't looked at. It reads the inode and, beside it, one table of
    /// runs, or two under double indirect.
    pub fn place<B: Blocks>(&mut self, under: &mut B, at: u64) -> Result<u64, StreamFault>
        requires { B.size under.old ≡ self.old.sizes.block_size }
        ensures found { (m : ℕ → Option (List ℕ)) → B.told under.old ≡ Some m → Stands self.old m → IfOk result (λ block. slice_get (places_at self.old.sizes (contents m) self.old.id) (at / self.old.sizes.block_size) ≡ Some block) }
        ensures none { (m : ℕ → Option (List ℕ)) → B.told under.old ≡ Some m → Stands self.old m → IfErr result (HasNoBlock (places_at self.old.sizes (contents m) self.old.id) (at / self.old.sizes.block_size)) }
        ensures damaged { (m : ℕ → Option (List ℕ)) → B.told under.old ≡ Some m → IsSome (m self.old.id) → IfErr result (IsDamagedAt self.old m (at / self.old.sizes.block_size)) }
        ensures blamed { IfErr result (IsBlamedAt self.old (B.last under.new) (at / self.old.sizes.block_size)) }
        ensures below { IfOk result (λ block. block < self.old.sizes.blocks) }
        ensures same { self.new ≡ self.old }
        ensures told { B.told under.new ≡ B.told under.old }
        ensures changed { B.changed under.new ≡ B.changed under.old }
        ensures pairs { B.pairs under.new ≡ B.pairs under.old }
        ensures size { B.size under.new ≡ B.size under.old }
        ensures frame { B.frame under.new ≡ B.frame under.old }
        ensures later { AreLater (B.counts under.old) (B.counts under.new) }
        ensures cause { IfErr result (IsStreamCause (B.counts under.old) (B.counts under.new)) }
    {
        let index = index_of(at, self.sup.block_size);
        let mut stream = Stream::at(self.alloc, self.inode, &self.sup);
        stream.block(under, index)
    }
}

/// The place of the block of a stream that has a byte.
fn index_of(at: u64, block_size: u32) -> u64
    requires { 0 < block_size }
    ensures { result ≡ at / block_size }
{
    at / u64::from(block_size)
}
