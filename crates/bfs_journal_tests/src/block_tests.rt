// Devices over disks in memory, lent to be read. The volume is made here by hand.
ghost use Rattle.std.specs.Prelude.{◌≡◌, ℕ, List, length, Option, Some, IfOk};
ghost use Rattle.bfs_super.specs.Conditions.{IsValid};
ghost use Rattle.bfs_tree.specs.Histories.{Mounted};
ghost use Rattle.bfs_txn.specs.Changed.{Ascends, AreOfSize};
ghost use Rattle.bfs_device.specs.Layouts.{IsSameVolume};
ghost use Rattle.bfs_device.specs.Data.{IsRested};
ghost use Rattle.bfs_device.specs.Seals.{adopted};
ghost use Rattle.bfs_core.specs.Spaces.{SpaceView, IsSoundOver};
ghost use Rattle.bfs_core.specs.Moments.{Adoption};
ghost use Rattle.bfs_device_blocks.specs.Lent.{HasCore};

use crate::devices::{disk_of, opened_on};
use crate::groups::{group_with, is_next};
use bfs_device::Device;
use bfs_device_blocks::{
    DeviceBlocks, core_is_held, core_is_read, core_stands_over, entry_is_held, fit_is_read,
    move_is_held, newest_is_sealed, newest_is_written, newest_stays, release_is_held, seal_is_held,
    write_is_held,
};
use bfs_disk::{Disk, MemDisk};
use bfs_super::Super;
use bfs_txn::{BlockFault, Blocks, Changed, Edits, Group};
use std::alloc::{AllocError, Global};
use std::test::Fail;

// A group of block 17, which is filled with ones.
fn ones(alloc: Global) -> Result<Group, AllocError>
    ensures ascends { IfOk result (λ g. Ascends g.blocks) }
    ensures sized { IfOk result (λ g. AreOfSize 1024 g.blocks) }
{
    group_with(alloc, [1, 2, 21], &[17], 1024, 1)
}

// Seals a group, where it may be sealed first.
fn seal_one(device: &mut Device<MemDisk>, sup: &Super, group: Group) -> bool
    requires books { device.old.books ≡ adopted sup.now }
    requires valid { IsValid sup.now }
    requires size { sup.now.block_size ≡ 1024 }
    requires ascends { Ascends group.blocks }
    requires sized { AreOfSize 1024 group.blocks }
    ensures { IsSameVolume device.old.books.sup device.new.books.sup }
{
    if !is_next(sup, 0, sup.geometry().used, &group) {
        return false;
    }
    device.seal(group);
    true
}

// Makes so many steps.
fn step_on(device: &mut Device<MemDisk>, steps: usize)
    ensures { IsSameVolume device.old.books.sup device.new.books.sup }
{
    for _ in 0..steps {
        let _ = device.step();
    }
}

// What reads blocks knows nothing of a device. That the note stays is all that its owner has to know.
fn read_one<B: Blocks>(blocks: &mut B, block: u64, into: &mut [u8]) -> Result<(), BlockFault>
    requires long { length into.old ≡ B.size blocks.old }
    ensures note { (B.frame blocks.new).note ≡ (B.frame blocks.old).note }
{
    blocks.get(block, into)
}

// And whoever lends the device to it has it back, with Core.
fn read_of<D: Disk>(
    device: &mut Device<D>,
    block: u64,
    into: &mut [u8; 1024],
) -> Result<(), BlockFault>
    requires size { device.old.books.sup.block_size ≡ 1024 }
    ensures rests { IsRested device.old.books device.new.books }
    ensures core { (t0 : Mounted) (adopted : Adoption) (sp : SpaceView) → HasCore t0 adopted sp device.old.books (D.state device.old.disk) (D.clock device.old.disk) (D.since device.old.disk)
        → HasCore t0 adopted sp device.new.books (D.state device.new.disk) (D.clock device.new.disk) (D.since device.new.disk) }
{
    let mut blocks = DeviceBlocks::over(device);
    let result = read_one(&mut blocks, block, into);
    blocks.done();
    result
}

// What asks that a space stands over what is told, as a call of a space does.
fn read_standing<B: Blocks>(blocks: &mut B, block: u64, into: &mut [u8]) -> Result<(), BlockFault>
    requires long { length into.old ≡ B.size blocks.old }
    requires stands { (m : ℕ → Option (List ℕ)) → B.told blocks.old ≡ Some m → (t0 : Mounted) × (sp : SpaceView) × IsSoundOver t0 sp m }
    ensures note { (B.frame blocks.new).note ≡ (B.frame blocks.old).note }
{
    blocks.get(block, into)
}

// With Core of any space that is met.
fn read_with_core<D: Disk>(
    device: &mut Device<D>,
    block: u64,
    into: &mut [u8; 1024],
) -> Result<(), BlockFault>
    requires size { device.old.books.sup.block_size ≡ 1024 }
    requires core { (t0 : Mounted) × (adopted : Adoption) × (sp : SpaceView) × HasCore t0 adopted sp device.old.books (D.state device.old.disk) (D.clock device.old.disk) (D.since device.old.disk) }
{
    let mut blocks = DeviceBlocks::over(device);
    let result = read_standing(&mut blocks, block, into);
    blocks.done();
    result
}

// The first and the last byte that are read of a block of a device over this disk, on which the group of ones was sealed and so many
// steps were made; or why none are read. Nothing where there is no device.
fn answer_of(
    alloc: Global,
    disk: MemDisk,
    steps: usize,
    block: u64,
) -> Option<Result<[u8; 2], BlockFault>> {
    let Some((sup, mut device)) = opened_on(alloc, disk) else {
        return None;
    };
    let Ok(group) = ones(alloc) else {
        return None;
    };
    if !seal_one(&mut device, &sup, group) {
        return None;
    }
    step_on(&mut device, steps);
    let mut into = [9; 1024];
    match read_of(&mut device, block, &mut into) {
        Ok(()) => Some(Ok([into[0], into[1023]])),
        Err(fault) => Some(Err(fault)),
    }
}

#[test]
fn a_lent_device_reads_the_newest_version(rt: HostRuntime) -> Result<(), Fail> {
    let alloc = rt.alloc();
    // Block 0, a block of the log, one of the disk, the group's, one of the disk that is zeros, and one past the end.
    for (block, byte) in [(0, 0), (2, 0), (16, 5), (17, 1), (18, 0), (32, 0)] {
        let disk = disk_of(alloc, 0, 32_768)?;
        assert_eq!(rt;
            answer_of(alloc, disk, 0, block),
            Some(Ok([byte, byte])),
            "{block}"
        );
    }
    Ok(())
}

#[test]
fn faults_of_a_lent_device_tell_their_counts(rt: HostRuntime) -> Result<(), Fail> {
    let alloc = rt.alloc();
    // The first call asks for the sectors, the next one reads; a block of the group takes none.
    let failed = BlockFault::Disk {
        before: 0,
        after: 1,
    };
    assert_eq!(rt;
        answer_of(alloc, disk_of(alloc, 2, 32_768)?, 0, 16),
        Some(Err(failed))
    );
    assert_eq!(rt;
        answer_of(alloc, disk_of(alloc, 2, 32_768)?, 0, 17),
        Some(Ok([1, 1]))
    );
    // With a step the second call is a write, which stops the device.
    let stopped = BlockFault::Stopped {
        durable: 0,
        faults: 1,
    };
    assert_eq!(rt;
        answer_of(alloc, disk_of(alloc, 2, 32_768)?, 1, 16),
        Some(Err(stopped))
    );
    // The sixth call makes the group durable, and the seventh writes its block home.
    let later = BlockFault::Stopped {
        durable: 2,
        faults: 1,
    };
    assert_eq!(rt;
        answer_of(alloc, disk_of(alloc, 7, 32_768)?, 6, 17),
        Some(Err(later))
    );
    Ok(())
}

#[test]
fn the_laws_hold_of_a_disk_in_memory(rt: HostRuntime) -> Result<(), Fail> {
    let alloc = rt.alloc();
    let disk = disk_of(alloc, 0, 32_768)?;
    core_is_read(&disk, &disk);
    fit_is_read(&disk, &disk);
    core_stands_over();
    newest_stays();
    newest_is_sealed();
    newest_is_written();
    core_is_held(&disk);
    move_is_held(&disk, &disk);
    write_is_held(&disk, &disk);
    entry_is_held(&disk);
    release_is_held(&disk);
    seal_is_held(&disk);
    Ok(())
}
