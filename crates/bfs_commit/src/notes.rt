// Entries whose reply the device tells.
ghost use Rattle.std.specs.Prelude.{◌≡◌, ◌≢◌, ◌<◌, ◌^◌, ℕ, false};
ghost use Rattle.bfs_base.specs.Lists.{Has};
ghost use Rattle.bfs_tree.specs.Histories.{Mounted};
ghost use Rattle.bfs_device.specs.Books.{durable_of};
ghost use Rattle.bfs_device_blocks.specs.Lent.{HasCore};
ghost use Rattle.bfs_core.specs.Moments.{Adoption};
ghost use Rattle.bfs_space.specs.Books.{entry_noted, with_note};
ghost use Rattle.bfs_space.specs.Files.{lets_go};
ghost use Rattle.bfs_commit.specs.Open.{IsOpen, OpenView};
ghost use Rattle.bfs_commit.specs.Volumes.{AreJoined};
ghost use Rattle.bfs_commit.specs.Entries.{IsToldBy, reply_of};

use bfs_device::{Device, DeviceFault};
use bfs_disk::Disk;
use bfs_space::{Space, note_keeps_files};
use bfs_tree::{Call, Reply};

/// The reply to a fault of the device.
pub fn as_reply(fault: DeviceFault) -> Reply
    ensures { result ≡ reply_of fault }
{
    match fault {
        DeviceFault::Disk {
            before,
            after,
            stops,
        } => Reply::DiskFault {
            before,
            after,
            stops,
        },
        DeviceFault::Stopped { durable, faults } => Reply::Stopped { durable, faults },
    }
}

/// Appends an entry whose reply the device tells, by the session's promise, which ends. Takes no memory.
pub fn note<D: Disk>(
    space: &mut Space,
    device: &Device<D>,
    session: u32,
    tag: u32,
    now: u64,
    call: Call,
    reply: Reply,
)
    requires joined { AreJoined space.old device.now.books (D.state device.now.disk) }
    requires promised { Has space.old.promised session }
    requires now { now < 2 ^ 40 }
    requires session { session ≢ 0 }
    requires goes { lets_go call ≡ false }
    requires told { IsToldBy device.now.books space.old.view.history call reply }
    ensures joined { AreJoined space.new device.now.books (D.state device.now.disk) }
    ensures noted { space.new ≡ with_note space.old session (entry_noted space.old session tag now call reply) (durable_of device.now.books) }
    ensures open { (p : OpenView) → p.hold.session ≢ session → IsOpen p space.old.view device.now.books (D.state device.now.disk) → IsOpen p space.new.view device.now.books (D.state device.now.disk) }
    ensures core { (t0 : Mounted) (adopted : Adoption) → HasCore t0 adopted space.old.view device.now.books (D.state device.now.disk) (D.clock device.now.disk) (D.since device.now.disk)
        → HasCore t0 adopted space.new.view device.now.books (D.state device.now.disk) (D.clock device.now.disk) (D.since device.now.disk) }
{
    note_keeps_files();
    device.steady();
    space.note(session, tag, now, call, reply, device.durable());
}
