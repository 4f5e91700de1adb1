// Volumes on disks in memory: what a sync has acknowledged is there after a mount of what a stop at any disk call has left.
ghost use Rattle.std.specs.Prelude.{ℕ, List, IsTrue, IfOk, IfSome};
ghost use Rattle.bfs_disk.specs.State.{Tells, Holds, ReadsAs};
ghost use Rattle.bfs_tree.specs.Histories.{Mounted};
ghost use Rattle.bfs_device_blocks.specs.Lent.{HasCore};
ghost use Rattle.bfs_core.specs.Moments.{Adoption};
ghost use Rattle.bfs_volume.specs.Volumes.{HasTree};
ghost use Rattle.bfs_volume.specs.Events.{MayHappen};

use bfs_disk::{Disk, MemDisk};
use bfs_finding::Finding;
use bfs_mkfs::{format, layout_with_log};
use bfs_ports::Fixed;
use bfs_replay::MountFault;
use bfs_super::SuperFault;
use bfs_tree::{Bytes, Call, MakeKind, Reply};
use bfs_volume::{Event, Happened, Unmounted, Volume};
use std::alloc::{AllocError, Global};
use std::test::Fail;

/// The blocks of the volumes here, and those of their logs.
const BLOCKS: u64 = 600;

pub(crate) const LOG: u16 = 64;

/// Formats a disk of zeros, and tells whether it worked.
fn formats(alloc: Global, disk: &mut MemDisk) -> bool
    requires { (image : List ℕ) × Tells (⟦<MemDisk as Disk>⟧.state disk.old) (Holds image) }
    ensures { IsTrue result → Tells (⟦<MemDisk as Disk>⟧.state disk.new) (λ s. (image : List ℕ) → ReadsAs s image → HasTree image) }
{
    let Ok(geometry) = layout_with_log(BLOCKS, 1024, LOG) else {
        return false;
    };
    let Ok(sectors) = disk.sectors() else {
        return false;
    };
    if sectors < geometry.blocks * u64::from(geometry.block_size / 512) {
        return false;
    }
    match format(alloc, disk, &geometry, b"untitled", 65_536_000) {
        Ok(()) => true,
        Err(_) => false,
    }
}

/// The image of a new volume; none where it can't be had.
pub(crate) fn new_image(alloc: Global) -> Result<Option<Vec<u8>>, AllocError>
    ensures { IfOk result (λ o. IfSome o (λ image. HasTree image.items)) }
{
    let bytes = vec![in alloc; 0u8; 1024 * BLOCKS as usize]?;
    let mut disk = MemDisk::new(alloc, bytes);
    if !formats(alloc, &mut disk) {
        return Ok(None);
    }
    Ok(Some(disk.bytes()))
}

/// Mounts an image on a disk that fails at one of its calls, where that isn't 0.
pub(crate) fn mounts(
    alloc: Global,
    image: Vec<u8>,
    failing: u64,
) -> Result<Volume<MemDisk, Fixed>, AllocError>
    requires { HasTree image.items }
    ensures { IfOk result (λ v. (t0 : Mounted) × (adopted : Adoption) × HasCore t0 adopted v.space.view v.device.books (⟦<MemDisk as Disk>⟧.state v.device.disk) (⟦<MemDisk as Disk>⟧.clock v.device.disk) (⟦<MemDisk as Disk>⟧.since v.device.disk)) }
{
    if image.len() % 512 != 0 {
        return Err(AllocError);
    }
    let mut plan = Vec::new(alloc);
    plan.push(failing)?;
    let disk = MemDisk::failing(alloc, image, plan);
    match Volume::mount(alloc, disk, Fixed::clock(1000), 8) {
        Ok(volume) => Ok(volume),
        Err(_) => Err(AllocError),
    }
}

/// A name of one letter.
pub(crate) fn letter(alloc: Global, name: u8) -> Result<Bytes, AllocError> {
    let mut letters = Vec::new(alloc);
    letters.push(name)?;
    Ok(Bytes::new(letters))
}

/// Makes a file with a name of one letter in a directory.
fn make_file(
    alloc: Global,
    volume: &mut Volume<MemDisk, Fixed>,
    dir: u64,
    name: u8,
) -> Result<(), AllocError>
    ensures core { (t0 : Mounted) (adopted : Adoption) → HasCore t0 adopted volume.old.space.view volume.old.device.books (⟦<MemDisk as Disk>⟧.state volume.old.device.disk) (⟦<MemDisk as Disk>⟧.clock volume.old.device.disk) (⟦<MemDisk as Disk>⟧.since volume.old.device.disk)
        → HasCore t0 adopted volume.new.space.view volume.new.device.books (⟦<MemDisk as Disk>⟧.state volume.new.device.disk) (⟦<MemDisk as Disk>⟧.clock volume.new.device.disk) (⟦<MemDisk as Disk>⟧.since volume.new.device.disk) }
{
    let name = letter(alloc, name)?;
    let call = Call::Make {
        dir,
        name,
        kind: MakeKind::File,
        mode: 0o644,
    };
    volume.call(1, 1, call)
}

/// Whether the last entry says that a node was made.
pub(crate) fn is_made<D: Disk>(volume: &Volume<D, Fixed>) -> bool {
    match volume.history().last() {
        Some(entry) => matches!(entry.reply, Reply::Made { .. }),
        None => false,
    }
}

/// Whether the last entry says that a name was found.
fn is_found<D: Disk>(volume: &Volume<D, Fixed>) -> bool {
    match volume.history().last() {
        Some(entry) => matches!(entry.reply, Reply::Found { .. }),
        None => false,
    }
}

/// Makes a file with a name of one letter in a directory, and a sync behind it. Whether it was made, and whether the sync went well.
fn makes_synced(
    alloc: Global,
    volume: &mut Volume<MemDisk, Fixed>,
    dir: u64,
    name: u8,
) -> Result<(bool, bool), AllocError>
    ensures core { (t0 : Mounted) (adopted : Adoption) → HasCore t0 adopted volume.old.space.view volume.old.device.books (⟦<MemDisk as Disk>⟧.state volume.old.device.disk) (⟦<MemDisk as Disk>⟧.clock volume.old.device.disk) (⟦<MemDisk as Disk>⟧.since volume.old.device.disk)
        → HasCore t0 adopted volume.new.space.view volume.new.device.books (⟦<MemDisk as Disk>⟧.state volume.new.device.disk) (⟦<MemDisk as Disk>⟧.clock volume.new.device.disk) (⟦<MemDisk as Disk>⟧.since volume.new.device.disk) }
{
    make_file(alloc, volume, dir, name)?;
    let made = is_made(volume);
    let synced = volume.sync(1, 2).is_ok();
    Ok((made, synced))
}

/// Does so with the names `a` and `b`.
fn makes_two(
    alloc: Global,
    volume: &mut Volume<MemDisk, Fixed>,
    dir: u64,
) -> Result<[(bool, bool); 2], AllocError>
    ensures core { (t0 : Mounted) (adopted : Adoption) → HasCore t0 adopted volume.old.space.view volume.old.device.books (⟦<MemDisk as Disk>⟧.state volume.old.device.disk) (⟦<MemDisk as Disk>⟧.clock volume.old.device.disk) (⟦<MemDisk as Disk>⟧.since volume.old.device.disk)
        → HasCore t0 adopted volume.new.space.view volume.new.device.books (⟦<MemDisk as Disk>⟧.state volume.new.device.disk) (⟦<MemDisk as Disk>⟧.clock volume.new.device.disk) (⟦<MemDisk as Disk>⟧.since volume.new.device.disk) }
{
    let first = makes_synced(alloc, volume, dir, b'a')?;
    let second = makes_synced(alloc, volume, dir, b'b')?;
    Ok([first, second])
}

/// Makes two files in a directory of a volume whose disk fails at one call, each with a sync behind it, and then stops. For each file whether it
/// was made and acknowledged by a sync; and what a crash leaves: sector k is new where bit k mod 64 of the pick is set.
fn two_files(
    alloc: Global,
    image: Vec<u8>,
    dir: u64,
    failing: u64,
    pick: u64,
) -> Result<Option<(bool, bool, Vec<u8>)>, AllocError>
    requires { HasTree image.items }
    ensures { IfOk result (λ o. IfSome o (λ r. HasTree r.2.items)) }
{
    let mut volume = match mounts(alloc, image, failing) {
        Ok(volume) => volume,
        Err(_) => return Ok(None),
    };
    let [(made, first), (also, second)] = makes_two(alloc, &mut volume, dir)?;
    let (disk, _clock, _history, _ended) = volume.close();
    let left = disk.crash(pick)?;
    Ok(Some((made && (first || second), also && second, left)))
}

/// Whether a name of one letter is in a directory.
fn finds<D: Disk>(
    alloc: Global,
    volume: &mut Volume<D, Fixed>,
    dir: u64,
    name: u8,
) -> Result<bool, AllocError> {
    let name = letter(alloc, name)?;
    volume.call(1, 1, Call::Lookup { dir, name })?;
    Ok(is_found(volume))
}

/// Which of the names `a` and `b` are in a directory.
fn finds_two(
    alloc: Global,
    volume: &mut Volume<MemDisk, Fixed>,
    dir: u64,
) -> Result<(bool, bool), AllocError> {
    let first = finds(alloc, volume, dir, b'a')?;
    Ok((first, finds(alloc, volume, dir, b'b')?))
}

/// Which of the two names are there.
fn names_there(alloc: Global, image: Vec<u8>, dir: u64) -> Result<(bool, bool), AllocError>
    requires { HasTree image.items }
{
    let mut volume = mounts(alloc, image, 0)?;
    finds_two(alloc, &mut volume, dir)
}

/// Whether a mount of what a stop at a disk call has left finds each file that a sync has acknowledged; and whether both were.
fn keeps_acknowledged(
    alloc: Global,
    dir: u64,
    failing: u64,
    pick: u64,
) -> Result<Option<(bool, bool)>, AllocError> {
    let Some(image) = new_image(alloc)? else {
        return Ok(None);
    };
    let Some((first, second, left)) = two_files(alloc, image, dir, failing, pick)? else {
        return Ok(None);
    };
    let (there, also) = names_there(alloc, left, dir)?;
    let kept = (there || !first) && (also || !second);
    Ok(Some((kept, first && second)))
}

#[test]
fn two_files_are_there_after_syncs_and_a_stop(rt: HostRuntime) -> Result<(), Fail> {
    let alloc = rt.alloc();
    // (the root directory's inode stands behind the bitmap and the log)
    assert_eq!(rt;
        keeps_acknowledged(alloc, 66, 0, u64::MAX)?,
        Some((true, true))
    );
    Ok(())
}

#[test]
fn what_a_sync_acknowledged_is_there_after_a_stop_at_each_disk_call(
    rt: HostRuntime,
) -> Result<(), Fail> {
    let alloc = rt.alloc();
    for failing in 1..240 {
        for pick in [0, u64::MAX, 0x5555_5555_5555_5555] {
            if let Some((kept, _)) = keeps_acknowledged(alloc, 66, failing, pick)? {
                assert!(rt; kept);
            }
        }
    }
    Ok(())
}

/// The next of numbers that come in no order which shows.
pub(crate) fn next_number(number: u64) -> u64 {
    number
        .wrapping_mul(6_364_136_223_846_793_005)
        .wrapping_add(1_442_695_040_888_963_407)
}

/// An event by a number: a file is made whose name is a letter, what is open is sealed, or the device makes a step.
fn event_by(alloc: Global, dir: u64, name: u8, number: u64) -> Result<Event, AllocError>
    ensures { IfOk result MayHappen }
{
    let choice = number / 65536 % 8;
    if choice == 0 {
        return Ok(Event::Seal);
    }
    if choice < 6 {
        return Ok(Event::Step);
    }
    let name = letter(alloc, name)?;
    Ok(Event::Call {
        session: 1,
        tag: 1,
        call: Call::Make {
            dir,
            name,
            kind: MakeKind::File,
            mode: 0o644,
        },
    })
}

/// Makes an event, and tells whether a file was made.
fn makes_one<D: Disk>(volume: &mut Volume<D, Fixed>, event: Event) -> Result<bool, AllocError>
    requires { MayHappen event }
    ensures core { (t0 : Mounted) (adopted : Adoption) → HasCore t0 adopted volume.old.space.view volume.old.device.books (D.state volume.old.device.disk) (D.clock volume.old.device.disk) (D.since volume.old.device.disk)
        → HasCore t0 adopted volume.new.space.view volume.new.device.books (D.state volume.new.device.disk) (D.clock volume.new.device.disk) (D.since volume.new.device.disk) }
{
    match volume.event(event) {
        Ok(Happened::Replied) => Ok(is_made(volume)),
        Ok(_) => Ok(false),
        Err(fault) => Err(fault),
    }
}

/// A sync in each 32nd turn, and whether it went well.
fn syncs_at<D: Disk>(volume: &mut Volume<D, Fixed>, turn: u64) -> bool
    ensures core { (t0 : Mounted) (adopted : Adoption) → HasCore t0 adopted volume.old.space.view volume.old.device.books (D.state volume.old.device.disk) (D.clock volume.old.device.disk) (D.since volume.old.device.disk)
        → HasCore t0 adopted volume.new.space.view volume.new.device.books (D.state volume.new.device.disk) (D.clock volume.new.device.disk) (D.since volume.new.device.disk) }
{
    if turn % 32 != 31 {
        return false;
    }
    volume.sync(1, 1).is_ok()
}

/// Makes so many events on a volume, by numbers from a seed on, and a sync behind each 32nd. How many files were made, their names the letters in
/// their order, and how many of them a sync has acknowledged.
fn by_events<D: Disk>(
    alloc: Global,
    volume: &mut Volume<D, Fixed>,
    dir: u64,
    seed: u64,
    events: u64,
) -> Result<(u8, u8), AllocError>
    ensures core { (t0 : Mounted) (adopted : Adoption) → HasCore t0 adopted volume.old.space.view volume.old.device.books (D.state volume.old.device.disk) (D.clock volume.old.device.disk) (D.since volume.old.device.disk)
        → HasCore t0 adopted volume.new.space.view volume.new.device.books (D.state volume.new.device.disk) (D.clock volume.new.device.disk) (D.since volume.new.device.disk) }
{
    let mut number = seed;
    let mut made = 0u8;
    let mut acknowledged = 0u8;
    for i in 0..events {
        number = next_number(number);
        let event = event_by(alloc, dir, b'a' + made % 26, number)?;
        if makes_one(volume, event)? {
            made = (made + 1) % 128;
        }
        let synced = syncs_at(volume, i);
        if synced {
            acknowledged = made;
        }
    }
    Ok((made, acknowledged))
}

/// What a crash leaves after so many events: with it how many files were made, and how many a sync has acknowledged.
fn left_by_events(
    alloc: Global,
    dir: u64,
    seed: u64,
    events: u64,
    pick: u64,
) -> Result<Option<(u8, u8, Vec<u8>)>, AllocError>
    ensures { IfOk result (λ o. IfSome o (λ r. HasTree r.2.items)) }
{
    let Some(image) = new_image(alloc)? else {
        return Ok(None);
    };
    let mut volume = mounts(alloc, image, 0)?;
    let (made, acknowledged) = by_events(alloc, &mut volume, dir, seed, events)?;
    let (disk, _clock, _history) = volume.abandon();
    let left = disk.crash(pick)?;
    Ok(Some((made, acknowledged, left)))
}

/// How many letters from a on are names of a directory, where those are all of the first 26.
pub(crate) fn letters_in<D: Disk>(
    alloc: Global,
    volume: &mut Volume<D, Fixed>,
    dir: u64,
) -> Result<Option<u8>, AllocError> {
    let mut count = 0u8;
    for i in 0..26u8 {
        if finds(alloc, volume, dir, b'a' + i)? {
            if count != i {
                return Ok(None);
            }
            count = i + 1;
        }
    }
    Ok(Some(count))
}

/// The same of the volume of an image.
fn letters_there(alloc: Global, image: Vec<u8>, dir: u64) -> Result<Option<u8>, AllocError>
    requires { HasTree image.items }
{
    let mut volume = mounts(alloc, image, 0)?;
    letters_in(alloc, &mut volume, dir)
}

#[test]
fn what_a_crash_leaves_after_events_is_a_prefix_of_what_was_made(
    rt: HostRuntime,
) -> Result<(), Fail> {
    let alloc = rt.alloc();
    let mut most = 0u8;
    for seed in 1..4 {
        for turns in 1..9 {
            let pick = 0x5555_5555_5555_5555 * (seed % 2);
            let left = left_by_events(alloc, 66, seed, 20 * turns, pick)?;
            let Some((made, acknowledged, left)) = left else {
                return Err(Fail::from("no volume"));
            };
            most = most.max(acknowledged);
            let there = letters_there(alloc, left, 66)?;
            assert!(rt; there.is_some());
            let there = there.unwrap_or(0);
            assert!(rt; acknowledged.min(26) <= there && there <= made.min(26));
        }
    }
    // (and so not of volumes on which nothing was acknowledged)
    assert!(rt; most > 4);
    Ok(())
}

/// What came of a piece of a file.
#[derive(Clone, Copy, Debug, PartialEq, Eq)]
enum Came {
    Whole,
    Broken,
    Past,
    Other,
}

/// What came of the last piece, by the last entry.
fn what_came(volume: &Volume<MemDisk, Fixed>) -> Came {
    let Some(entry) = volume.history().last() else {
        return Came::Other;
    };
    match (&entry.call, &entry.reply) {
        (Call::Release { whole: true, .. }, _) => Came::Whole,
        (Call::Release { .. }, _) => Came::Broken,
        (_, Reply::PastEnd { .. }) => Came::Past,
        _ => Came::Other,
    }
}

/// The bytes of a file from a place on: each is told by its place.
pub(crate) fn bytes_from(alloc: Global, at: u64, count: usize) -> Result<Vec<u8>, AllocError> {
    let mut bytes = Vec::new(alloc);
    for i in 0..count {
        bytes.push((at.wrapping_add(i as u64) % 251) as u8)?;
    }
    Ok(bytes)
}

/// Makes a file of 3,000 bytes, and tells its id.
pub(crate) fn make_sized(
    alloc: Global,
    volume: &mut Volume<MemDisk, Fixed>,
    dir: u64,
) -> Result<u64, AllocError> {
    make_file(alloc, volume, dir, b'a')?;
    let id = match volume.history().last() {
        Some(entry) => match entry.reply {
            Reply::Made { id } => id,
            _ => return Err(AllocError),
        },
        None => return Err(AllocError),
    };
    volume.call(1, 1, Call::SetSize { id, size: 3000 })?;
    Ok(id)
}

/// Writes a piece of a file.
fn writes_at(
    alloc: Global,
    volume: &mut Volume<MemDisk, Fixed>,
    id: u64,
    at: u64,
    count: usize,
) -> Result<Came, AllocError> {
    let bytes = bytes_from(alloc, at, count)?;
    volume.write(1, 1, id, at, bytes.as_slice())?;
    Ok(what_came(volume))
}

/// Reads a piece of a file, and tells whether it has the bytes that were written.
fn reads_at(
    alloc: Global,
    volume: &mut Volume<MemDisk, Fixed>,
    id: u64,
    at: u64,
    count: usize,
) -> Result<(Came, bool), AllocError> {
    let mut into = vec![in alloc; 0u8; count]?;
    volume.read(1, 1, id, at, into.as_mut_slice())?;
    let wanted = bytes_from(alloc, at, count)?;
    Ok((what_came(volume), into.as_slice() == wanted.as_slice()))
}

/// Whether each piece of a table is read whole, with the bytes that were written.
fn reads_all(
    alloc: Global,
    volume: &mut Volume<MemDisk, Fixed>,
    id: u64,
) -> Result<bool, AllocError> {
    let table: [(u64, usize); 6] = [
        (0, 3000),
        (100, 1000),
        (1023, 2),
        (1024, 1024),
        (2999, 1),
        (3000, 0),
    ];
    for (at, count) in table {
        if reads_at(alloc, volume, id, at, count)? != (Came::Whole, true) {
            return Ok(false);
        }
    }
    Ok(true)
}

/// Writes a file in two pieces, and once more past its end, and makes a sync. What came of the three pieces; and whether the file is read whole
/// behind the first two, whether the sync went well, and whether the file is read whole behind that.
fn writes_and_reads(
    alloc: Global,
    volume: &mut Volume<MemDisk, Fixed>,
) -> Result<([Came; 3], [bool; 3]), AllocError> {
    let id = make_sized(alloc, volume, 66)?;
    let first = writes_at(alloc, volume, id, 0, 1700)?;
    let second = writes_at(alloc, volume, id, 1700, 1300)?;
    let read = reads_all(alloc, volume, id)?;
    let past = writes_at(alloc, volume, id, 2990, 11)?;
    let synced = volume.sync(1, 1).is_ok();
    let again = reads_all(alloc, volume, id)?;
    Ok(([first, second, past], [read, synced, again]))
}

#[test]
fn a_file_is_written_and_read_in_pieces(rt: HostRuntime) -> Result<(), Fail> {
    let alloc = rt.alloc();
    let Some(image) = new_image(alloc)? else {
        return Err(Fail::from("no volume"));
    };
    let mut volume = mounts(alloc, image, 0)?;
    let (came, good) = writes_and_reads(alloc, &mut volume)?;
    assert_eq!(rt; came, [Came::Whole, Came::Whole, Came::Past]);
    assert_eq!(rt; good, [true, true, true]);
    Ok(())
}

/// Makes a file, writes it and reads it twice. Where the first read is broken, whether the second one has all its bytes.
fn reads_twice(
    alloc: Global,
    volume: &mut Volume<MemDisk, Fixed>,
) -> Result<Option<bool>, AllocError> {
    let id = match make_sized(alloc, volume, 66) {
        Ok(id) => id,
        Err(_) => return Ok(None),
    };
    if writes_at(alloc, volume, id, 0, 3000)? != Came::Whole {
        return Ok(None);
    }
    let (first, _) = reads_at(alloc, volume, id, 0, 3000)?;
    if first != Came::Broken {
        return Ok(None);
    }
    let again = reads_at(alloc, volume, id, 0, 3000)?;
    Ok(Some(again == (Came::Whole, true)))
}

/// Reads a file of a volume whose disk fails at one call. Where that call was one of the piece, whether the next read has all its bytes.
fn reads_after_fault(alloc: Global, failing: u64) -> Result<Option<bool>, AllocError> {
    let Some(image) = new_image(alloc)? else {
        return Err(AllocError);
    };
    let Ok(mut volume) = mounts(alloc, image, failing) else {
        return Ok(None);
    };
    reads_twice(alloc, &mut volume)
}

#[test]
fn a_read_that_fails_lets_its_piece_go_and_the_next_one_has_its_bytes(
    rt: HostRuntime,
) -> Result<(), Fail> {
    let alloc = rt.alloc();
    let mut broken = 0u64;
    for failing in 1..240 {
        if let Some(whole) = reads_after_fault(alloc, failing)? {
            assert!(rt; whole);
            broken = broken.wrapping_add(1);
        }
    }
    assert!(rt; broken > 0);
    Ok(())
}

/// What came of a mount behind a check.
#[derive(Clone, Copy, Debug, PartialEq, Eq)]
enum Mounting {
    Mounted(usize),
    Short(u64, u64),
    Refused(SuperFault),
    Extra(u64),
    Inode(u64),
    Other,
}

/// Why a volume wasn't mounted.
fn told_by(refusal: &Unmounted) -> Mounting {
    match refusal {
        Unmounted::Unread(MountFault::Short { sectors, needed }) => {
            Mounting::Short(*sectors, *needed)
        }
        Unmounted::Unread(MountFault::Super(fault)) => Mounting::Refused(*fault),
        Unmounted::Wrong(Finding::BitExtra { block }) => Mounting::Extra(*block),
        Unmounted::Wrong(Finding::Inode { block, .. }) => Mounting::Inode(*block),
        _ => Mounting::Other,
    }
}

/// Mounts the image of a new volume behind a check, with another byte at a place, and so many bytes long.
fn mounts_with(alloc: Global, at: usize, byte: u8, length: usize) -> Result<Mounting, AllocError> {
    let Some(mut image) = new_image(alloc)? else {
        return Err(AllocError);
    };
    if at < image.len() {
        image[at] = byte;
    }
    image.truncate(length);
    if image.len() % 512 != 0 {
        return Err(AllocError);
    }
    let disk = MemDisk::failing(alloc, image, Vec::new(alloc));
    match Volume::mount(alloc, disk, Fixed::clock(1000), 8) {
        Ok(volume) => Ok(Mounting::Mounted(volume.history().len())),
        Err((refusal, _, _)) => Ok(told_by(&refusal)),
    }
}

#[test]
fn a_volume_is_mounted_only_where_it_is_whole(rt: HostRuntime) -> Result<(), Fail> {
    let alloc = rt.alloc();
    // (the root is at block 66, behind the log, and 81 blocks are in use)
    let magic = SuperFault::Magic {
        which: 1,
        found: 0x4246_5300,
    };
    let table: [(usize, u8, usize, Mounting); 5] = [
        (0, 0, 614_400, Mounting::Mounted(0)),
        (0, 0, 1024, Mounting::Short(2, 1200)),
        (544, 0, 614_400, Mounting::Refused(magic)),
        (1036, 0x10, 614_400, Mounting::Extra(100)),
        (67_584, 0, 614_400, Mounting::Inode(66)),
    ];
    for (at, byte, length, wanted) in table {
        assert_eq!(rt; mounts_with(alloc, at, byte, length)?, wanted);
    }
    Ok(())
}
