// The blocks of a volume as its disk has them, read in windows.
ghost use Rattle.std.specs.Prelude.{◌≡◌, ◌≤◌, ◌<◌, ◌*◌, ◌/◌, ◌^◌, ℕ, length, take, true, OnOk, None};
ghost use Rattle.bfs_base.specs.Moments.{Passed};
ghost use Rattle.bfs_disk.specs.Blocks.{AreRead};
ghost use Rattle.bfs_disk.specs.Disk.{MayLeave, HasSectors};
ghost use Rattle.bfs_super.specs.Conditions.{natural, IsValid};
ghost use Rattle.bfs_device.specs.Books.{IsOnDisk};
ghost use Rattle.bfs_device.specs.Plain.{has_sectors};
ghost use Rattle.bfs_txn.specs.Faults.{Counts, IsCaused};
ghost use Rattle.bfs_check.specs.Slots.{AreKept};

use crate::windows::Windows;
use bfs_disk::Disk;
use bfs_super::Super;
use bfs_txn::{BlockFault, Blocks};
use std::snapshot::Snapshot;

/// A disk that is lent, as the blocks of a volume, which are read with their neighbours where some of those were read before: 32 KiB in one disk call, and
/// the last windows of that length are kept. Where such a read fails, where the window does not lie whole in the volume, or where there was
/// no memory to keep any, the block is read by itself. What it notes for its owner is the disk as it was lent, and the name of the
/// reference to it: no read changes them.
pub struct AheadBlocks<'a, 'b, D: Disk> {
    disk: &'a mut D,
    windows: &'b mut Windows,
    /// The disk as it was lent.
    start: Snapshot<D>,
    /// In bytes: 1,024, 2,048, 4,096 or 8,192.
    block_size: u32,
    blocks: u64,
    /// The block that was read last, and its bytes, which are the first ones here.
    read: Snapshot<Option<u64>>,
    bytes: Snapshot<[u8; 8192]>,
    ghost fits: { block_size ≤ 8192 },
    ghost even: { block_size ≡ 512 * (block_size / 512) },
    ghost parts: { 64 ≡ block_size / 512 * (64 / (block_size / 512)) },
    ghost small: { block_size / 512 * blocks < 2 ^ 63 },
    ghost on_disk: { has_sectors (D.size disk.now) (block_size / 512 * blocks) ≡ true },
    ghost same: { D.state disk.now ≡ D.state start.value },
    ghost long: { D.size disk.now ≡ D.size start.value },
    ghost risen: { D.faults start.value ≤ D.faults disk.now },
    ghost unstopped: { D.stops disk.now ≡ D.stops start.value },
    ghost reads: { ∥ Passed (D.clock start.value) (D.clock disk.now) (D.since start.value) (D.since disk.now) (MayLeave (D.state start.value)) ∥₁ },
    ghost kept: { AreKept (D.state start.value) windows.now.tags windows.now.bytes.items },
}

impl<'a, 'b, D: Disk> AheadBlocks<'a, 'b, D> {
    /// The blocks of the volume with this superblock. Takes no memory.
    pub fn over(disk: &'a mut D, windows: &'b mut Windows, sup: &Super) -> AheadBlocks<'a, 'b, D>
        requires valid { IsValid sup.now }
        requires on_disk { IsOnDisk (D.size disk.old) sup.now }
        requires kept { AreKept (D.state disk.old) windows.old.tags windows.old.bytes.items }
        ensures disk { result.disk.ghost_name ≡ disk.entry.ghost_name }
        ensures disk_now { result.disk.now ≡ disk.old }
        ensures start { result.start.value ≡ disk.old }
        ensures size { result.block_size ≡ sup.now.block_size }
        ensures blocks { result.blocks ≡ natural sup.now.num_blocks }
        ensures unread { result.read.value ≡ None }
    {
        let start = Snapshot::of(disk);
        let blocks = sup.geometry().blocks;
        AheadBlocks {
            disk,
            windows,
            start,
            block_size: sup.block_size,
            blocks,
            read: Snapshot::of(&None),
            bytes: Snapshot::of(&[0; 8192]),
        }
    }

    /// Gives the disk back: it holds what it held, and it was only read meanwhile.
    pub fn done(self)
        ensures disk { self.exit.0.now ≡ self.entry.disk.now }
        ensures state { D.state self.entry.disk.now ≡ D.state self.entry.start.value }
        ensures size { D.size self.entry.disk.now ≡ D.size self.entry.start.value }
        ensures faults { D.faults self.entry.start.value ≤ D.faults self.entry.disk.now }
        ensures stops { D.stops self.entry.disk.now ≡ D.stops self.entry.start.value }
        ensures reads { ∥ Passed (D.clock self.entry.start.value) (D.clock self.entry.disk.now) (D.since self.entry.start.value) (D.since self.entry.disk.now) (MayLeave (D.state self.entry.start.value)) ∥₁ }
    {
        let AheadBlocks {
            disk: _,
            windows: _,
            start: _,
            block_size: _,
            blocks: _,
            read: _,
            bytes: _,
        } = self;
    }
}

// Reads one of so many blocks.
fn read_block<D: Disk>(
    disk: &mut D,
    windows: &mut Windows,
    block_size: u32,
    blocks: u64,
    block: u64,
    into: &mut [u8],
) -> Result<(), BlockFault>
    requires even { block_size ≡ 512 * (block_size / 512) }
    requires parts { 64 ≡ block_size / 512 * (64 / (block_size / 512)) }
    requires small { block_size / 512 * blocks < 2 ^ 63 }
    requires on_disk { HasSectors (D.size disk.old) (block_size / 512 * blocks) }
    requires place { block < blocks }
    requires long { length into.old ≡ block_size }
    requires kept { AreKept (D.state disk.old) windows.old.tags windows.old.bytes.items }
    ensures bytes { OnOk result (AreRead (D.state disk.old) (block_size / 512) block into.new) }
    ensures kept { AreKept (D.state disk.old) windows.new.tags windows.new.bytes.items }
    ensures state { D.state disk.new ≡ D.state disk.old }
    ensures size { D.size disk.new ≡ D.size disk.old }
    ensures time { Passed (D.clock disk.old) (D.clock disk.new) (D.since disk.old) (D.since disk.new) (MayLeave (D.state disk.old)) }
    ensures cause { IsCaused (record { faults = D.faults disk.old; stops = D.stops disk.old; stop = None }) (record { faults = D.faults disk.new; stops = D.stops disk.new; stop = None }) result }
{
    let sectors = u64::from(block_size / 512);
    windows.read(disk, sectors * blocks, sectors * block, into)
}

// Bytes that were read, for contracts alone.
fn seen(bytes: &[u8]) -> Snapshot<[u8; 8192]>
    requires { length bytes.now ≤ 8192 }
    ensures { take (length bytes.now) result.value ≡ bytes.now }
{
    let mut copy = [0; 8192];
    copy[..bytes.len()].copy_from_slice(bytes);
    Snapshot::of(&copy)
}

impl<D: Disk> Blocks for AheadBlocks<'_, '_, D> {
    ghost use Rattle.std.specs.Prelude.{None, [], ◌∷◌, false, take};
    ghost use Rattle.std.specs.Option.{option_map};
    ghost use Rattle.bfs_device.specs.Plain.{plain, plain_sized, LentDisk};

    ghost told = { λ b. option_map (plain (b.block_size / 512) b.blocks) (D.state b.disk.now) };

    ghost size = { λ b. b.block_size };

    ghost counts = { λ b. record { faults = D.faults b.disk.now; stops = D.stops b.disk.now; stop = None } };

    ghost changed = { λ b k. false };

    ghost pairs = { λ b. 0 };

    ghost last = { λ b. option_map (λ k. (k, take b.block_size b.bytes.value)) b.read.value };

    ghost Note = { LentDisk D };

    ghost frame = { λ b. record { note = record { start = b.start.value; name = b.disk.ghost_name }; names = b.disk.ghost_name ∷ []; kept = []; below = None } };

    ghost sized = { λ b. plain_sized b.block_size b.blocks b.even (D.state b.disk.now) (D.size b.disk.now) (D.filled b.disk.now) (D.sized b.disk.now) b.on_disk };

    fn get(&mut self, block: u64, into: &mut [u8]) -> Result<(), BlockFault> {
        if block >= self.blocks {
            self.read = Snapshot::of(&Some(block));
            self.bytes = seen(into);
            return Ok(());
        }
        match read_block(
            self.disk,
            self.windows,
            self.block_size,
            self.blocks,
            block,
            into,
        ) {
            Ok(()) => {
                self.read = Snapshot::of(&Some(block));
                self.bytes = seen(into);
                Ok(())
            }
            Err(fault) => Err(fault),
        }
    }
}
