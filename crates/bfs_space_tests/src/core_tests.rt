// The calls of a device say what Core asks of them: each is proved here at every disk. And the laws over a disk, at a disk in
// memory.
ghost use Rattle.std.specs.Prelude.{◌≡◌, ◌<◌, length, None};
ghost use Rattle.bfs_device.specs.Layouts.{IsData, layout_of};
ghost use Rattle.bfs_device.specs.Data.{newest_in};
ghost use Rattle.bfs_core.specs.Moments.{DeviceMoves, DeviceWrites};

use bfs_core::{
    entry_is_kept, mount_is_kept, move_is_kept, release_is_kept, seal_is_kept, write_is_kept,
};
use bfs_device::{Device, DeviceFault, Progress};
use bfs_disk::{Disk, MemDisk};
use std::alloc::AllocError;
use std::test::Fail;

fn step_of<D: Disk>(device: &mut Device<D>) -> Result<Progress, DeviceFault>
    ensures { DeviceMoves device.old.books device.new.books (D.state device.old.disk) (D.state device.new.disk) (D.clock device.old.disk) (D.clock device.new.disk) (D.since device.old.disk) (D.since device.new.disk) }
{
    let result = device.step();
    device.steady();
    let _durable = device.durable();
    result
}

fn read_of<D: Disk>(device: &mut Device<D>, block: u64, into: &mut [u8]) -> Result<(), DeviceFault>
    requires below { block < (layout_of device.old.books.sup).blocks }
    requires long { length into.old ≡ device.old.books.sup.block_size }
    ensures { DeviceMoves device.old.books device.new.books (D.state device.old.disk) (D.state device.new.disk) (D.clock device.old.disk) (D.clock device.new.disk) (D.since device.old.disk) (D.since device.new.disk) }
{
    let result = device.block(block, into);
    device.steady();
    let _durable = device.durable();
    result
}

fn room_of<D: Disk>(device: &mut Device<D>) -> Result<(), AllocError>
    ensures { DeviceMoves device.old.books device.new.books (D.state device.old.disk) (D.state device.new.disk) (D.clock device.old.disk) (D.clock device.new.disk) (D.since device.old.disk) (D.since device.new.disk) }
{
    let result = device.room();
    device.steady();
    let _durable = device.durable();
    result
}

fn write_of<D: Disk>(device: &mut Device<D>, block: u64, from: &[u8]) -> Result<(), DeviceFault>
    requires place { IsData (layout_of device.old.books.sup) block }
    requires apart { newest_in device.old.books.groups block ≡ None }
    requires long { length from.now ≡ device.old.books.sup.block_size }
    ensures { DeviceWrites block device.old.books device.new.books (D.state device.old.disk) (D.state device.new.disk) (D.clock device.old.disk) (D.clock device.new.disk) (D.since device.old.disk) (D.since device.new.disk) }
{
    let result = device.data_write(block, from);
    let _durable = device.durable();
    result
}

#[test]
fn the_laws_over_a_disk_hold_of_one_in_memory(rt: HostRuntime) -> Result<(), Fail> {
    let alloc = rt.alloc();
    let disk = MemDisk::new(alloc, vec![in alloc; 0u8; 1024]?);
    mount_is_kept(&disk);
    move_is_kept(&disk, &disk);
    write_is_kept(&disk, &disk);
    entry_is_kept(&disk);
    release_is_kept(&disk);
    seal_is_kept(&disk);
    Ok(())
}
