// What a bitmap keeps beside the disk.
ghost use Rattle.std.specs.Prelude.{◌≡◌, ◌≤◌, [], ◌*◌, ◌^◌, min, ◌≢◌, ◌↔◌, IsTrue};
ghost use Rattle.bfs_super.specs.Conditions.{IsValid, natural, group_blocks};
ghost use Rattle.bfs_bitmap.specs.Tallies.{first_tally};

use crate::tally::first;
use crate::{Given, Tally};
use bfs_super::Super;
use std::alloc::Global;
use std::marker::Model;

/// The free space of a volume: where its bitmap lies, and the runs that were given back and aren't free yet.
#[derive(Drop)]
pub struct Bitmap {
    pub(crate) alloc: Global,
    pub(crate) block_size: u32,
    pub(crate) blocks: u64,
    pub(crate) group_blocks: u64,
    pub(crate) given: Vec<Given>,
    /// A bit for each block, set where it is reserved; no bytes before a run is given back.
    pub(crate) reserved: Vec<u8>,
    pub(crate) last: u64,
    /// The group of none of the runs has left the log by this number.
    pub(crate) left: u64,
    /// What is known now, and what was when a call was last kept or dropped.
    pub(crate) tally: Tally,
    pub(crate) tally_kept: Tally,
}

impl Model for Bitmap {
    ghost use Rattle.bfs_bitmap.specs.Runs.{Room, HasSizes};
    ghost use Rattle.bfs_bitmap.specs.Left.{HasNoneLeft};
    ghost use Rattle.bfs_bitmap.specs.Reserved.{HasReserved};

    ghost Value = { Room };

    ghost view = { λ b. record { block_size = b.block_size; blocks = b.blocks; group_blocks = b.group_blocks; given = b.given.items; last = b.last; tally = b.tally; tally_kept = b.tally_kept } };

    ghost invariant = { λ b. HasSizes (record { block_size = b.block_size; blocks = b.blocks; group_blocks = b.group_blocks; given = b.given.items; last = b.last; tally = b.tally; tally_kept = b.tally_kept }) × HasReserved b.blocks b.given.items b.reserved.items × HasNoneLeft b.left b.last b.given.items };
}

impl Bitmap {
    ghost use Rattle.bfs_bitmap.specs.Runs.{Room, HasSizes};

    /// The bitmap of a volume, with nothing reserved and as many used blocks as the superblock says, if it has
    /// so many. Takes no memory.
    pub fn of(alloc: Global, sup: &Super) -> Bitmap
        requires { IsValid sup.now }
        ensures { result ≡ record { block_size = sup.now.block_size; blocks = natural sup.now.num_blocks; group_blocks = group_blocks sup.now; given = []; last = 0; tally = first_tally (min (natural sup.now.used_blocks) (natural sup.now.num_blocks)); tally_kept = first_tally (min (natural sup.now.used_blocks) (natural sup.now.num_blocks)) } }
    {
        let blocks = natural_long(sup.num_blocks);
        let tally = first(natural_long(sup.used_blocks).min(blocks));
        Bitmap {
            alloc,
            block_size: sup.block_size,
            blocks,
            group_blocks: power(natural_int(sup.ag_shift)),
            given: Vec::new(alloc),
            reserved: Vec::new(alloc),
            last: 0,
            left: 0,
            tally,
            tally_kept: tally,
        }
    }

    /// The sizes are those of a volume.
    pub(crate) fn sizes(&self)
        ensures { HasSizes self.now }
    {
        let _ = &self.alloc;
    }

    /// The number of used blocks.
    pub fn used(&self) -> u64
        ensures value { result ≡ self.now.tally.used }
        ensures few { result ≤ self.now.blocks }
    {
        self.sizes();
        self.tally.used
    }

    /// Whether runs were given back that aren't released yet.
    pub fn has_given(&self) -> bool
        ensures { IsTrue result ↔ (self.now.given ≢ []) }
    {
        !self.given.is_empty()
    }

    /// What is known of the free space beside the bits.
    pub(crate) fn tally(&self) -> Tally
        ensures tally { result ≡ self.now.tally }
        ensures sizes { HasSizes self.now }
    {
        self.tally
    }

    /// The number of bits in a block.
    pub(crate) fn per_block(&self) -> u64
        ensures value { result ≡ 8 * self.now.block_size }
        ensures sizes { HasSizes self.now }
    {
        8 * u64::from(self.block_size)
    }
}

/// A number that isn't negative, or 0.
fn natural_long(value: i64) -> u64
    ensures { result ≡ natural value }
{
    if value < 0 { 0 } else { value as u64 }
}

/// The same of 32 bits.
fn natural_int(value: i32) -> u32
    ensures { result ≡ natural value }
{
    if value < 0 { 0 } else { value as u32 }
}

/// Two to this power.
fn power(shift: u32) -> u64
    requires { shift ≤ 16 }
    ensures { result ≡ 2 ^ shift }
{
    1 << shift
}
