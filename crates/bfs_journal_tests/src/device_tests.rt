// Devices over disks in memory. Each volume is made here by hand, and what a crash leaves is replayed by hand.
ghost use Rattle.std.specs.Prelude.{◌≡◌, ◌≤◌, ◌<◌, ◌+◌, ◌*◌, ◌/◌, ◌%◌, [], length, IfSome, Some, None, if◌then◌else◌};
ghost use Rattle.bfs_super.specs.Conditions.{IsValid};
ghost use Rattle.bfs_txn.specs.Changed.{Ascends, AreOfSize};
ghost use Rattle.bfs_device.specs.Layouts.{IsData, layout_of};
ghost use Rattle.bfs_device.specs.Data.{IsRested};
ghost use Rattle.bfs_device.specs.Books.{sealed_of};
ghost use Rattle.bfs_device.specs.Seals.{adopted, last_used};

use crate::devices::{fields, opened_on};
use crate::groups::{crash_after, group_with, is_next, step_on, three_sealed};
use bfs_cache::Cache;
use bfs_device::{Device, DeviceFault, Mark, Progress};
use bfs_disk::{Disk, MemDisk};
use bfs_super::Super;
use bfs_txn::{Changed, Edits, Group};
use std::alloc::{AllocError, Global};
use std::test::Fail;

// A volume of zeros with this superblock.
fn volume(alloc: Global, sup: &Super, length: usize) -> Result<Vec<u8>, AllocError> {
    let mut bytes = vec![in alloc; 0u8; length]?;
    let sector = sup.print();
    if bytes.len() >= 1024 {
        bytes[512..1024].copy_from_slice(&sector);
    }
    Ok(bytes)
}

// The superblock that a volume has.
fn found(bytes: &[u8]) -> Option<Super>
    ensures { IfSome result IsValid }
{
    if bytes.len() < 1024 {
        return None;
    }
    let mut sector = [0u8; 512];
    sector.copy_from_slice(&bytes[512..1024]);
    match Super::parse(&sector) {
        Ok(sup) => Some(sup),
        Err(_) => None,
    }
}

// The three groups of the tests: blocks 16 and 17 with ones, none, and blocks 17 and 18 with threes, on a log of 12 blocks that
// begins at its block 10. So the array block of the first stands in block 12 of the volume, and its bytes in 13 and 2.
fn three<D: Disk + Drop>(alloc: Global, disk: D, shift: u32) -> Option<Device<D>>
    requires { shift ≤ 13 }
{
    three_sealed(
        alloc,
        disk,
        &fields(shift, 32, 12, 10),
        [[1, 2, 22], [3, 3, 22], [4, 6, 23]],
        [&[16, 17], &[], &[18, 17]],
        [1, 1, 3],
    )
}

// A number of two bytes.
fn word(image: &[u8], at: usize) -> usize {
    let low = image.get(at).copied().unwrap_or(0);
    let high = image.get(at.wrapping_add(1)).copied().unwrap_or(0);
    usize::from(low) + 256 * usize::from(high)
}

// The first byte of a block once the log behind block 2 is replayed.
fn replayed(image: &[u8], size: usize, block: usize) -> u8 {
    let mut value = image.get(block.wrapping_mul(size)).copied().unwrap_or(0);
    let ring = word(image, 606);
    if ring == 0 {
        return value;
    }
    let mut at = word(image, 608) % ring;
    let end = word(image, 616) % ring;
    for _ in 0..ring {
        if at == end {
            break;
        }
        let array = at.wrapping_add(2).wrapping_mul(size);
        let count = word(image, array);
        for i in 0..count {
            at = at.wrapping_add(1) % ring;
            if word(
                image,
                array.wrapping_add(i.wrapping_mul(8)).wrapping_add(12),
            ) == block
            {
                let place = at.wrapping_add(2).wrapping_mul(size);
                value = image.get(place).copied().unwrap_or(0);
            }
        }
        at = at.wrapping_add(1) % ring;
    }
    value
}

// What replay gives of blocks 16, 17, 18 and of the used blocks.
fn seen(image: &[u8], size: usize) -> [usize; 4] {
    [
        usize::from(replayed(image, size, 16)),
        usize::from(replayed(image, size, 17)),
        usize::from(replayed(image, size, 18)),
        word(image, 568),
    ]
}

// The image that a crash leaves after so many steps, each sector old or new by the pick.
fn crashed(alloc: Global, shift: u32, steps: usize, pick: u64) -> Result<Vec<u8>, AllocError>
    requires { shift ≤ 13 }
{
    let sup = fields(shift, 32, 12, 10);
    let bytes = volume(alloc, &sup, 32 << shift)?;
    if bytes.len() != 512 * (bytes.len() / 512) {
        return Err(AllocError);
    }
    match three(alloc, MemDisk::new(alloc, bytes), shift) {
        Some(device) => crash_after(device, steps as u64, pick),
        None => Err(AllocError),
    }
}

// What stands after so many steps: the first group from its gate on, the third from its own. While a gate is written and not
// yet safe, the superblock's sector decides.
fn expected(steps: usize, newest: bool) -> [usize; 4] {
    if steps < 5 || (steps == 5 && !newest) {
        [0, 0, 0, 20]
    } else if steps < 17 || (steps == 17 && !newest) {
        [1, 1, 0, 22]
    } else {
        [1, 3, 3, 23]
    }
}

#[test]
fn a_crash_after_each_step_leaves_the_durable_groups(rt: HostRuntime) -> Result<(), Fail> {
    let alloc = rt.alloc();
    for steps in 0..24usize {
        for pick in [0, u64::MAX, 0x5555_5555_5555_5555, 0xaaaa_aaaa_aaaa_aaaa] {
            let image = crashed(alloc, 10, steps, pick)?;
            assert_eq!(rt; seen(&image, 1024), expected(steps, pick & 2 == 2));
        }
    }
    Ok(())
}

#[test]
fn blocks_of_sixteen_sectors_go_the_same_way(rt: HostRuntime) -> Result<(), Fail> {
    let alloc = rt.alloc();
    for steps in [4usize, 5, 6, 8, 11, 17, 18, 23] {
        for pick in [0, u64::MAX] {
            let image = crashed(alloc, 13, steps, pick)?;
            assert_eq!(rt; seen(&image, 8192), expected(steps, pick == u64::MAX));
        }
    }
    Ok(())
}

// A disk in memory with the volume of the tests, which fails at one of its calls, or at none.
fn failing(alloc: Global, call: u64) -> Result<MemDisk, AllocError> {
    let bytes = volume(alloc, &fields(10, 32, 12, 10), 32_768)?;
    if bytes.len() != 512 * (bytes.len() / 512) {
        return Err(AllocError);
    }
    Ok(MemDisk::failing(alloc, bytes, Vec::from_slice(alloc, &[call])?))
}

// How many steps tell these, before the first that tells another.
fn steps_told(device: &mut Device<MemDisk>, told: &[Progress]) -> usize {
    for (i, progress) in told.iter().enumerate() {
        if device.step() != Ok(*progress) {
            return i;
        }
    }
    told.len()
}

#[test]
fn each_step_tells_its_call_and_stores_its_mark(rt: HostRuntime) -> Result<(), Fail> {
    let alloc = rt.alloc();
    let mut device = three(alloc, failing(alloc, 0)?, 10).ok_or("no device")?;
    let told = [
        Progress::Logged,
        Progress::Logged,
        Progress::Logged,
        Progress::LogSafe,
        Progress::Opened,
        Progress::Durable(2),
        Progress::Home(16),
        Progress::Home(17),
        Progress::HomeSafe,
        Progress::TailMoved,
        Progress::TailSafe,
        Progress::Durable(3),
        Progress::Logged,
        Progress::Logged,
        Progress::Logged,
        Progress::LogSafe,
        Progress::Opened,
        Progress::Durable(6),
        Progress::Home(17),
        Progress::Home(18),
        Progress::HomeSafe,
        Progress::TailMoved,
        Progress::TailSafe,
        Progress::Idle,
    ];
    assert_eq!(rt; steps_told(&mut device, &told), 24);
    let marks = [(6, 2), (12, 3), (18, 6)].map(|(moment, number)| Mark { moment, number });
    assert_eq!(rt; device.marks(), marks.as_slice());
    assert_eq!(rt;
        (device.durable(), device.left(), device.faults()),
        (6, 6, 0)
    );
    Ok(())
}

// The last entry that is durable after so many steps.
fn durable_after(steps: u64) -> u64 {
    if steps < 6 {
        0
    } else if steps < 12 {
        2
    } else if steps < 18 {
        3
    } else {
        6
    }
}

// Of a device whose disk stops behind so many steps: whether these are made, the next one fails, the one behind it is told the stop, and
// as much is durable as before.
fn stops_behind(device: &mut Device<MemDisk>, steps: u64) -> [bool; 4] {
    let failed = DeviceFault::Disk {
        before: 0,
        after: 1,
        stops: true,
    };
    let stopped = DeviceFault::Stopped {
        durable: durable_after(steps),
        faults: 1,
    };
    [
        step_on(device, steps),
        device.step() == Err(failed),
        device.step() == Err(stopped),
        device.durable() == durable_after(steps),
    ]
}

// The same of the device of the tests, and what a crash leaves then.
fn stopped_behind(alloc: Global, steps: u64) -> Result<([bool; 4], [usize; 4]), Fail> {
    // The first disk call asks for the sectors.
    let disk = failing(alloc, steps.wrapping_add(2))?;
    let mut device = three(alloc, disk, 10).ok_or("no device")?;
    let told = stops_behind(&mut device, steps);
    let image = device.into_disk().crash(u64::MAX)?;
    Ok((told, seen(&image, 1024)))
}

#[test]
fn a_stop_at_each_disk_call_is_for_good(rt: HostRuntime) -> Result<(), Fail> {
    let alloc = rt.alloc();
    for step in 1..24u64 {
        let (told, found) = stopped_behind(alloc, step - 1)?;
        assert_eq!(rt; told, [true; 4]);
        let before = expected(step as usize - 1, false);
        assert!(rt; found == before || found == expected(step as usize, true));
    }
    Ok(())
}

// The image that a crash leaves after so many steps of a group of 130 blocks, on a log of 140 that it wraps round.
fn wide(alloc: Global, steps: usize, pick: u64) -> Result<Vec<u8>, AllocError> {
    let mut blocks = [0u64; 130];
    let mut block = 144u64;
    for place in &mut blocks {
        *place = block;
        block = block.wrapping_add(1);
    }
    let bytes = volume(alloc, &fields(10, 280, 140, 100), 286_720)?;
    if bytes.len() != 512 * (bytes.len() / 512) {
        return Err(AllocError);
    }
    let sealed = three_sealed(
        alloc,
        MemDisk::new(alloc, bytes),
        &fields(10, 280, 140, 100),
        [[1, 2, 150], [3, 3, 150], [4, 4, 150]],
        [&blocks, &[], &[]],
        [5, 0, 0],
    );
    match sealed {
        Some(device) => crash_after(device, steps as u64, pick),
        None => Err(AllocError),
    }
}

#[test]
fn a_group_of_130_blocks_takes_two_array_blocks(rt: HostRuntime) -> Result<(), Fail> {
    let alloc = rt.alloc();
    // 132 blocks of the log, the barrier behind them, the gate and its barrier; then 130 blocks, and three calls more.
    for (steps, pick, byte, start, end) in [
        (134, 0, 0, 100, 100),
        (134, u64::MAX, 5, 100, 92),
        (135, 0, 5, 100, 92),
        (200, 0, 5, 100, 92),
        (268, 0, 5, 92, 92),
    ] {
        let image = wide(alloc, steps, pick)?;
        for block in [144, 269, 270, 273] {
            assert_eq!(rt; replayed(&image, 1024, block), byte);
        }
        assert_eq!(rt; (word(&image, 608), word(&image, 616)), (start, end));
    }
    Ok(())
}

// The first byte of a block.
fn first_of<D: Disk>(device: &mut Device<D>, block: u64, into: &mut [u8]) -> Option<u8>
    requires below { block < (layout_of device.old.books.sup).blocks }
    requires long { length into.old ≡ device.old.books.sup.block_size }
    ensures rests { IsRested device.old.books device.new.books }
    ensures sup { device.new.books.sup ≡ device.old.books.sup }
    ensures long { length into.new ≡ length into.old }
{
    match device.block(block, into) {
        Ok(()) => into.first().copied(),
        Err(_) => None,
    }
}

// The first bytes of block 16, which is read, read again, and written between two reads more. One read by the disk may fail.
fn read_twice<D: Disk>(
    device: &mut Device<D>,
    from: &[u8; 1024],
    into: &mut [u8; 1024],
) -> Option<[u8; 4]>
    requires place { IsData (layout_of device.old.books.sup) 16 }
    requires size { device.old.books.sup.block_size ≡ 1024 }
    requires none { device.old.books.groups ≡ [] }
{
    let first = first_of(device, 16, into)?;
    let again = first_of(device, 16, into)?;
    let _ = device.data_read(16, into);
    let kept = first_of(device, 16, into)?;
    let Ok(()) = device.data_write(16, from) else {
        return None;
    };
    let written = first_of(device, 16, into)?;
    Some([first, again, kept, written])
}

// What `read_twice` answers on a device over this disk; nothing where there is no device.
fn twice_on(alloc: Global, disk: MemDisk) -> Option<Option<[u8; 4]>> {
    match opened_on(alloc, disk) {
        Some((_, mut device)) => Some(read_twice(&mut device, &[7; 1024], &mut [1; 1024])),
        None => None,
    }
}

#[test]
fn a_block_that_was_read_takes_no_disk_call_again(rt: HostRuntime) -> Result<(), Fail> {
    let alloc = rt.alloc();
    // The calls: the sectors, the first read, the read by the disk, the write, and the read behind it.
    for (call, want) in [
        (0, Some([0, 0, 0, 7])),
        (2, None),
        (3, Some([0, 0, 0, 7])),
        (4, None),
        (5, None),
        (6, Some([0, 0, 0, 7])),
    ] {
        assert_eq!(rt;
            twice_on(alloc, failing(alloc, call)?),
            Some(want),
            "{call}"
        );
    }
    Ok(())
}

// Gives each byte of blocks 14 to 16 the block's number.
fn number_blocks(bytes: &mut [u8]) {
    if bytes.len() >= 17_408 {
        bytes[14_336..15_360].fill(14);
        bytes[15_360..16_384].fill(15);
        bytes[16_384..17_408].fill(16);
    }
}

// A disk with the volume of the tests and such blocks, which fails at one of its calls, or at none.
fn numbered(alloc: Global, call: u64) -> Result<MemDisk, AllocError> {
    let mut bytes = volume(alloc, &fields(10, 32, 12, 10), 32_768)?;
    number_blocks(bytes.as_mut_slice());
    if bytes.len() != 512 * (bytes.len() / 512) {
        return Err(AllocError);
    }
    Ok(MemDisk::failing(alloc, bytes, Vec::from_slice(alloc, &[call])?))
}

// The first bytes of blocks 14, 15, 14, 16, 14 and 15, read in this order.
fn read_in_turn<D: Disk>(device: &mut Device<D>, into: &mut [u8; 1024]) -> Option<[u8; 6]>
    requires below { 16 < (layout_of device.old.books.sup).blocks }
    requires size { device.old.books.sup.block_size ≡ 1024 }
{
    let first = first_of(device, 14, into)?;
    let second = first_of(device, 15, into)?;
    let third = first_of(device, 14, into)?;
    let fourth = first_of(device, 16, into)?;
    let fifth = first_of(device, 14, into)?;
    let sixth = first_of(device, 15, into)?;
    Some([first, second, third, fourth, fifth, sixth])
}

// What `read_in_turn` answers on a device over this disk, with a cache for so many blocks; nothing where there is no device.
fn in_turn_on(alloc: Global, disk: MemDisk, blocks: u32) -> Option<Option<[u8; 6]>> {
    let Ok(cache) = Cache::new(alloc, blocks) else {
        return None;
    };
    match opened_on(alloc, disk) {
        Some((_, device)) => Some(read_in_turn(&mut device.cached(cache), &mut [9; 1024])),
        None => None,
    }
}

#[test]
fn a_cache_for_few_blocks_lets_one_go_and_reads_it_again(rt: HostRuntime) -> Result<(), Fail> {
    let alloc = rt.alloc();
    let all = Some([14, 15, 14, 16, 14, 15]);
    // The calls: the sectors, then a read for each block that isn't there. Of three blocks all stay; of two the second goes for
    // the third, and is read again; none stays of none.
    for (blocks, call, want) in [
        (3, 2, None),
        (3, 4, None),
        (3, 5, all),
        (2, 4, None),
        (2, 5, None),
        (2, 6, all),
        (0, 7, None),
        (0, 8, all),
    ] {
        assert_eq!(rt;
            in_turn_on(alloc, numbered(alloc, call)?, blocks),
            Some(want),
            "{blocks} {call}"
        );
    }
    Ok(())
}

// The first bytes of block 16: before its group is sealed, from the group, and twice once it is home.
fn read_around<D: Disk>(
    device: &mut Device<D>,
    sup: &Super,
    group: Group,
    into: &mut [u8; 1024],
) -> Option<[u8; 4]>
    requires books { device.old.books ≡ adopted sup.now }
    requires valid { IsValid sup.now }
    requires size { sup.now.block_size ≡ 1024 }
    requires below { 16 < (layout_of sup.now).blocks }
    requires ascends { Ascends group.blocks }
    requires sized { AreOfSize 1024 group.blocks }
{
    if !is_next(sup, 0, sup.geometry().used, &group) {
        return None;
    }
    let before = first_of(device, 16, into)?;
    device.seal(group);
    let sealed = first_of(device, 16, into)?;
    if !step_on(device, 11) {
        return None;
    }
    let home = first_of(device, 16, into)?;
    let again = first_of(device, 16, into)?;
    Some([before, sealed, home, again])
}

// What `read_around` answers on a device over this disk; nothing where there is no device.
fn around_on(alloc: Global, disk: MemDisk, group: Group) -> Option<Option<[u8; 4]>>
    requires ascends { Ascends group.blocks }
    requires sized { AreOfSize 1024 group.blocks }
{
    match opened_on(alloc, disk) {
        Some((sup, mut device)) => Some(read_around(&mut device, &sup, group, &mut [9; 1024])),
        None => None,
    }
}

#[test]
fn a_block_that_came_home_is_read_anew(rt: HostRuntime) -> Result<(), Fail> {
    let alloc = rt.alloc();
    // The calls: the sectors, the first read, eleven steps, and one read behind them.
    for (call, want) in [
        (0, Some([0, 1, 1, 1])),
        (14, None),
        (15, Some([0, 1, 1, 1])),
    ] {
        let group = group_with(alloc, [1, 2, 22], &[16, 17], 1024, 1)?;
        assert_eq!(rt;
            around_on(alloc, failing(alloc, call)?, group),
            Some(want),
            "{call}"
        );
    }
    Ok(())
}

// Seals a group of one entry without blocks, where one may be sealed.
fn seal_empty<D: Disk>(alloc: Global, device: &mut Device<D>, number: u64, used: u64) -> bool
    requires next { number ≡ sealed_of device.old.books + 1 }
    requires used { last_used device.old.books ≡ used }
    requires low { used ≤ (layout_of device.old.books.sup).blocks }
    requires ring { 0 < (layout_of device.old.books.sup).len }
    ensures sup { device.new.books.sup ≡ device.old.books.sup }
    ensures used { last_used device.new.books ≡ used }
    ensures sealed { sealed_of device.new.books ≡ (if result then number else sealed_of device.old.books) }
{
    if !device.may_seal() {
        return false;
    }
    let Ok(()) = device.room() else {
        return false;
    };
    device.seal(Group {
        first: number,
        last: number,
        used,
        blocks: Changed::new(alloc),
    });
    true
}

// Tries to seal twenty groups without blocks. Tells how many were sealed.
fn seal_twenty<D: Disk>(alloc: Global, device: &mut Device<D>, used: u64) -> u64
    requires first { sealed_of device.old.books ≡ 0 }
    requires used { last_used device.old.books ≡ used }
    requires low { used ≤ (layout_of device.old.books.sup).blocks }
    requires ring { 0 < (layout_of device.old.books.sup).len }
{
    let mut count = 0;
    for i in 0..20u64 {
        if seal_empty(alloc, device, count + 1, used) {
            count += 1;
        }
    }
    count
}

// How many of twenty groups may wait, whether one more may, what the first step tells, and whether one more may then.
fn waiting<D: Disk>(
    alloc: Global,
    device: &mut Device<D>,
    sup: &Super,
) -> Option<(u64, bool, Progress, bool)>
    requires books { device.old.books ≡ adopted sup.now }
    requires valid { IsValid sup.now }
{
    let geometry = sup.geometry();
    if geometry.used > geometry.blocks || sup.log_blocks.len == 0 {
        return None;
    }
    let count = seal_twenty(alloc, device, geometry.used);
    let full = device.may_seal();
    match device.step() {
        Ok(progress) => Some((count, full, progress, device.may_seal())),
        Err(_) => None,
    }
}

// What `waiting` answers on a device over this disk; nothing where there is no device.
fn waiting_on(alloc: Global, disk: MemDisk) -> Option<Option<(u64, bool, Progress, bool)>> {
    match opened_on(alloc, disk) {
        Some((sup, mut device)) => Some(waiting(alloc, &mut device, &sup)),
        None => None,
    }
}

#[test]
fn sixteen_groups_may_wait(rt: HostRuntime) -> Result<(), Fail> {
    let alloc = rt.alloc();
    let want = Some((16, false, Progress::Durable(1), true));
    assert_eq!(rt; waiting_on(alloc, failing(alloc, 0)?), Some(want));
    Ok(())
}

// Writes block 16 beside the groups, and reads it in both ways: its first bytes, and whether a group may be sealed.
fn write_and_read<D: Disk>(
    device: &mut Device<D>,
    from: &[u8; 1024],
    into: &mut [u8; 1024],
) -> Option<(u8, u8, bool)>
    requires place { IsData (layout_of device.old.books.sup) 16 }
    requires size { device.old.books.sup.block_size ≡ 1024 }
    requires none { device.old.books.groups ≡ [] }
{
    let Ok(()) = device.data_write(16, from) else {
        return None;
    };
    let Ok(()) = device.data_read(16, into) else {
        return None;
    };
    let read = into.first().copied()?;
    let block = first_of(device, 16, into)?;
    Some((read, block, device.may_seal()))
}

// What `write_and_read` answers on a device over this disk; nothing where there is no device.
fn written_on(alloc: Global, disk: MemDisk) -> Option<Option<(u8, u8, bool)>> {
    match opened_on(alloc, disk) {
        Some((_, mut device)) => Some(write_and_read(&mut device, &[7; 1024], &mut [0; 1024])),
        None => None,
    }
}

#[test]
fn a_block_that_was_written_is_read(rt: HostRuntime) -> Result<(), Fail> {
    let alloc = rt.alloc();
    assert_eq!(rt;
        written_on(alloc, failing(alloc, 0)?),
        Some(Some((7, 7, true)))
    );
    assert_eq!(rt; written_on(alloc, failing(alloc, 2)?), Some(None));
    Ok(())
}
