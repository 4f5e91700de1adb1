// A device that is lent as blocks to be read.
ghost use Rattle.std.specs.Prelude.{◌≡◌, ◌≤◌, ℕ, Bool, List, None, length, take};
ghost use Rattle.std.specs.Option.{option_map};
ghost use Rattle.bfs_tree.specs.Histories.{Mounted};
ghost use Rattle.bfs_txn.specs.Told.{AreSized};
ghost use Rattle.bfs_device.specs.Data.{IsRested};
ghost use Rattle.bfs_core.specs.Spaces.{SpaceView};
ghost use Rattle.bfs_core.specs.Cores.{newest_map};
ghost use Rattle.bfs_core.specs.Moments.{Adoption};
ghost use Rattle.bfs_device_blocks.specs.Lent.{HasBeenRead, HasCore};

use bfs_device::{Device, DeviceFault};
use bfs_disk::Disk;
use bfs_txn::{BlockFault, Blocks};
use std::snapshot::Snapshot;

/// A device that is lent to be read. It tells the newest version, but for block 0 and the log, of which it reads zeros. What it
/// notes for its owner is the device as it was lent, and the name of the reference to it: no read changes them.
pub struct DeviceBlocks<'a, D: Disk> {
    device: &'a mut Device<D>,
    /// The device as it was lent.
    start: Snapshot<Device<D>>,
    /// The block that was read last, and its bytes, which are the first ones here.
    read: Snapshot<Option<u64>>,
    bytes: Snapshot<[u8; 8192]>,
    ghost rests: { IsRested start.value.books device.now.books },
    ghost same: { D.state device.now.disk ≡ D.state start.value.disk },
    ghost risen: { D.faults start.value.disk ≤ D.faults device.now.disk },
    ghost waited: { D.clock start.value.disk ≤ D.clock device.now.disk },
    ghost unstopped: { D.stops device.now.disk ≡ D.stops start.value.disk },
    ghost fits: { device.now.books.sup.block_size ≤ 8192 },
    ghost sized: { ∥ AreSized device.now.books.sup.block_size (option_map (newest_map device.now.books) (D.state device.now.disk)) ∥₁ },
    ghost reads: { ∥ HasBeenRead start.value.books device.now.books (D.state start.value.disk) (D.state device.now.disk) (D.clock start.value.disk) (D.clock device.now.disk) (D.since start.value.disk) (D.since device.now.disk) ∥₁ },
}

impl<'a, D: Disk> DeviceBlocks<'a, D> {
    /// Lends the device. Takes no memory.
    pub fn over(device: &'a mut Device<D>) -> DeviceBlocks<'a, D>
        ensures device { result.device.ghost_name ≡ device.entry.ghost_name }
        ensures device_now { result.device.now ≡ device.old }
        ensures start { result.start.value ≡ device.old }
        ensures unread { result.read.value ≡ None }
    {
        let start = Snapshot::of(device);
        device.steady();
        let _durable = device.durable();
        DeviceBlocks {
            device,
            start,
            read: Snapshot::of(&None),
            bytes: Snapshot::of(&[0; 8192]),
        }
    }

    /// Gives the device back: its books have only rested, its disk holds what it held, and Core holds again.
    pub fn done(self)
        ensures device { self.exit.0.now ≡ self.entry.device.now }
        ensures rests { IsRested self.entry.start.value.books self.entry.device.now.books }
        ensures state { D.state self.entry.device.now.disk ≡ D.state self.entry.start.value.disk }
        ensures faults { D.faults self.entry.start.value.disk ≤ D.faults self.entry.device.now.disk }
        ensures disk_clock { D.clock self.entry.start.value.disk ≤ D.clock self.entry.device.now.disk }
        ensures stops { D.stops self.entry.device.now.disk ≡ D.stops self.entry.start.value.disk }
        ensures reads { ∥ HasBeenRead self.entry.start.value.books self.entry.device.now.books (D.state self.entry.start.value.disk) (D.state self.entry.device.now.disk) (D.clock self.entry.start.value.disk) (D.clock self.entry.device.now.disk) (D.since self.entry.start.value.disk) (D.since self.entry.device.now.disk) ∥₁ }
        ensures core { (t0 : Mounted) (adopted : Adoption) (sp : SpaceView) → HasCore t0 adopted sp self.entry.start.value.books (D.state self.entry.start.value.disk) (D.clock self.entry.start.value.disk) (D.since self.entry.start.value.disk)
            → HasCore t0 adopted sp self.entry.device.now.books (D.state self.entry.device.now.disk) (D.clock self.entry.device.now.disk) (D.since self.entry.device.now.disk) }
    {
        let DeviceBlocks {
            device: _,
            start: _,
            read: _,
            bytes: _,
        } = self;
    }
}

// A fault of a device's read as one of a block.
fn as_block_fault(fault: DeviceFault) -> BlockFault
    ensures disk { (before after : ℕ) (stopped : Bool) → fault ≡ DeviceFault.Disk before after stopped → result ≡ BlockFault.Disk before after }
    ensures stopped { (durable faults : ℕ) → fault ≡ DeviceFault.Stopped durable faults → result ≡ BlockFault.Stopped durable faults }
{
    match fault {
        DeviceFault::Disk { before, after, .. } => BlockFault::Disk { before, after },
        DeviceFault::Stopped { durable, faults } => BlockFault::Stopped { durable, faults },
    }
}

// Bytes that were read, for contracts alone.
fn seen(bytes: &[u8]) -> Snapshot<[u8; 8192]>
    requires { length bytes.now ≤ 8192 }
    ensures { take (length bytes.now) result.value ≡ bytes.now }
{
    let mut copy = [0; 8192];
    copy[..bytes.len()].copy_from_slice(bytes);
    Snapshot::of(&copy)
}

impl<D: Disk> Blocks for DeviceBlocks<'_, D> {
    ghost use Rattle.std.specs.Prelude.{None, [], ◌∷◌, false, take};
    ghost use Rattle.std.specs.Option.{option_map};
    ghost use Rattle.bfs_core.specs.Cores.{newest_map};
    ghost use Rattle.bfs_device_blocks.specs.Lent.{Lent};
    ghost use Rattle.bfs_device_blocks.specs.LentLaws.{sized_of};

    ghost told = { λ u. option_map (newest_map u.device.now.books) (D.state u.device.now.disk) };

    ghost size = { λ u. u.device.now.books.sup.block_size };

    ghost counts = { λ u. record { faults = D.faults u.device.now.disk; stops = D.stops u.device.now.disk; stop = option_map (λ s. (s.durable, s.faults)) u.device.now.books.stop } };

    ghost changed = { λ u k. false };

    ghost pairs = { λ u. 0 };

    ghost last = { λ u. option_map (λ k. (k, take u.device.now.books.sup.block_size u.bytes.value)) u.read.value };

    ghost Note = { Lent D };

    ghost frame = { λ u. record { note = record { start = u.start.value; name = u.device.ghost_name }; names = u.device.ghost_name ∷ []; kept = []; below = None } };

    ghost sized = { λ u. sized_of u.device.now.books.sup.block_size (option_map (newest_map u.device.now.books) (D.state u.device.now.disk)) u.sized };

    fn get(&mut self, block: u64, into: &mut [u8]) -> Result<(), BlockFault> {
        self.read = Snapshot::of(&Some(block));
        if !self.device.is_data(block) {
            into.fill(0);
            self.bytes = seen(into);
            return Ok(());
        }
        let result = self.device.block(block, into);
        self.bytes = seen(into);
        match result {
            Ok(()) => Ok(()),
            Err(fault) => Err(as_block_fault(fault)),
        }
    }
}
