// Volumes by events: what a stop leaves of a log that wraps, also where mounts of it are stopped; and a long run beside the plain tree's program.
ghost use Rattle.std.specs.Prelude.{IfOk};
ghost use Rattle.bfs_volume.specs.declared.event.Event.TheVariants as events;
ghost use Rattle.bfs_volume.specs.Events.{MayHappen};

use crate::volume_tests::{LOG, is_made, letter, letters_in, new_image, next_number};
use bfs_disk::{Disk, MemDisk, Stopping};
use bfs_model::Model;
use bfs_ports::Fixed;
use bfs_replay::MountFault;
use bfs_tree::{Call, Entry, MakeKind, Reply};
use bfs_volume::{Event, Unmounted, Volume};
use std::alloc::{AllocError, Global};
use std::test::Fail;

/// Where in an image the low bytes of the log's start and end are, in the superblock's sector.
const START: usize = 608;

const END: usize = 616;

/// What came of a mount: a volume; or the disk, one of whose calls failed; or the image was refused.
#[derive(Drop)]
enum Opened {
    Mounted(Volume<Stopping<MemDisk>, Fixed>),
    Failed(MemDisk),
    Refused,
}

/// A disk call failed.
fn is_by_disk(refusal: &Unmounted) -> bool {
    matches!(refusal, Unmounted::Unread(MountFault::Disk { .. }))
}

/// Mounts an image on a disk that passes so many calls, and then none.
fn opens(alloc: Global, image: Vec<u8>, passes: u64) -> Opened {
    if image.len() % 512 != 0 {
        return Opened::Refused;
    }
    let disk = Stopping::after(MemDisk::new(alloc, image), passes);
    match Volume::mount(alloc, disk, Fixed::clock(1000), 8) {
        Ok(volume) => Opened::Mounted(volume),
        Err((refusal, disk, _)) => {
            if is_by_disk(&refusal) {
                Opened::Failed(disk.inner())
            } else {
                Opened::Refused
            }
        }
    }
}

/// The image of a new volume whose empty log stands at its last block: the first group begins there, and goes on at the log's first block.
fn image_at_the_end_of_its_log(alloc: Global) -> Result<Vec<u8>, AllocError> {
    let Some(mut image) = new_image(alloc)? else {
        return Err(AllocError);
    };
    for at in [START, END] {
        if at < image.len() {
            image[at] = (LOG - 1) as u8;
        }
    }
    Ok(image)
}

/// Makes a directory with a name of one letter, and tells whether it was made.
fn makes_dir<D: Disk>(
    alloc: Global,
    volume: &mut Volume<D, Fixed>,
    name: u8,
) -> Result<bool, AllocError> {
    let dir = volume.root();
    let call = Call::Make {
        dir,
        name: letter(alloc, name)?,
        kind: MakeKind::Dir,
        mode: 0o755,
    };
    volume.call(1, 1, call)?;
    Ok(is_made(volume))
}

/// Makes a, b and c, and tells whether each was made.
fn makes_three<D: Disk>(alloc: Global, volume: &mut Volume<D, Fixed>) -> Result<bool, AllocError> {
    let mut all = true;
    for i in 0..3u8 {
        if !makes_dir(alloc, volume, b'a' + i)? {
            all = false;
        }
    }
    Ok(all)
}

/// Makes a, b and c, a sync, and d. Whether the sync acknowledged the three, and whether d was made.
fn makes_four<D: Disk>(
    alloc: Global,
    volume: &mut Volume<D, Fixed>,
) -> Result<(bool, bool), AllocError> {
    let three = makes_three(alloc, volume)?;
    let synced = volume.sync(1, 1).is_ok();
    let fourth = makes_dir(alloc, volume, b'd')?;
    Ok((three && synced, fourth))
}

/// Makes four directories on a volume whose disk passes so many calls, and closes it. How many of them are acknowledged, all where it was closed
/// well; and the disk as it is left.
fn left_by_four(
    alloc: Global,
    image: Vec<u8>,
    passes: u64,
) -> Result<Option<(u8, MemDisk)>, AllocError> {
    let mut volume = match opens(alloc, image, passes) {
        Opened::Mounted(volume) => volume,
        Opened::Failed(disk) => return Ok(Some((0, disk))),
        Opened::Refused => return Ok(None),
    };
    let (three, fourth) = makes_four(alloc, &mut volume)?;
    let (disk, _clock, _history, ended) = volume.close();
    let acknowledged = match (three, fourth && ended.is_ok()) {
        (true, true) => 4,
        (true, false) => 3,
        _ => 0,
    };
    Ok(Some((acknowledged, disk.inner())))
}

/// How many letters from a on are names of the root of an image; none where it is refused, or where others are.
fn letters_of(alloc: Global, image: Vec<u8>) -> Result<Option<u8>, AllocError> {
    let mut volume = match opens(alloc, image, u64::MAX) {
        Opened::Mounted(volume) => volume,
        _ => return Ok(None),
    };
    let dir = volume.root();
    letters_in(alloc, &mut volume, dir)
}

/// What a crash leaves of an image whose mount is stopped after so many disk calls.
fn left_by_mount(
    alloc: Global,
    image: Vec<u8>,
    passes: u64,
    pick: u64,
) -> Result<Option<Vec<u8>>, AllocError> {
    let disk = match opens(alloc, image, passes) {
        Opened::Mounted(volume) => {
            let (disk, _clock, _history) = volume.abandon();
            disk.inner()
        }
        Opened::Failed(disk) => disk,
        Opened::Refused => return Ok(None),
    };
    Ok(Some(disk.crash(pick)?))
}

/// Whether an image has so many letters after each of three mounts in a row that are stopped and crash, each a call later than the one before.
fn stays(
    alloc: Global,
    image: Vec<u8>,
    letters: u8,
    passes: u64,
    pick: u64,
) -> Result<bool, AllocError> {
    let mut image = image;
    for turn in 0..3 {
        let Some(left) = left_by_mount(alloc, image, passes.wrapping_add(turn), pick)? else {
            return Ok(false);
        };
        if letters_of(alloc, left.clone()?)? != Some(letters) {
            return Ok(false);
        }
        image = left;
    }
    Ok(true)
}

/// Where a mount is stopped last: its replay of what is made here has ended by then.
const STOPS: u64 = 33;

/// Whether there is something in the log of an image, by its superblock: only then a mount writes.
fn has_log(image: &Vec<u8>) -> bool {
    image.len() > END && image[START] != image[END]
}

/// Whether an image has so many letters after mounts that are stopped at each call of their replay.
fn stays_at_each(
    alloc: Global,
    image: &Vec<u8>,
    letters: u8,
    pick: u64,
) -> Result<bool, AllocError> {
    for passes in 0..STOPS {
        if !stays(alloc, image.clone()?, letters, passes, pick)? {
            return Ok(false);
        }
    }
    Ok(true)
}

/// Whether an image has at least so many letters, and as many after mounts that are stopped.
fn has_and_keeps(
    alloc: Global,
    image: &Vec<u8>,
    acknowledged: u8,
    pick: u64,
) -> Result<bool, AllocError> {
    let Some(letters) = letters_of(alloc, image.clone()?)? else {
        return Ok(false);
    };
    if letters < acknowledged || 4 < letters {
        return Ok(false);
    }
    if !has_log(image) {
        return Ok(true);
    }
    stays_at_each(alloc, image, letters, pick)
}

/// The sectors that a crash may leave old or new with another content.
fn open_sectors(alloc: Global, disk: &MemDisk) -> Result<Vec<u64>, AllocError> {
    let old = disk.crash(0)?;
    let new = disk.crash(u64::MAX)?;
    let mut open = Vec::new(alloc);
    if old.len() != new.len() {
        return Ok(open);
    }
    for sector in 0..old.len() / 512 {
        let at = sector * 512;
        if old[at..at + 512] != new[at..at + 512] {
            open.push(sector as u64)?;
        }
    }
    Ok(open)
}

/// The pick that has the sectors new whose places are set in a number.
fn pick_of(open: &[u64], number: u64) -> u64 {
    let mut pick = 0u64;
    for i in 0..open.len() {
        if number.wrapping_shr((i % 64) as u32) % 2 == 1 {
            pick |= 1u64.wrapping_shl((open[i] % 64) as u32);
        }
    }
    pick
}

/// Whether what a crash leaves has at least so many letters, for each pick of old and new sectors among a few that are open.
fn has_for_each(
    alloc: Global,
    disk: &MemDisk,
    open: &[u64],
    acknowledged: u8,
) -> Result<bool, AllocError> {
    for number in 0..16u64 {
        let pick = pick_of(open, number);
        match letters_of(alloc, disk.crash(pick)?)? {
            Some(letters) => {
                if letters < acknowledged || 4 < letters {
                    return Ok(false);
                }
            }
            None => return Ok(false),
        }
    }
    Ok(true)
}

/// Whether what a crash leaves is as it must be for five picks of sectors, also after mounts that are stopped.
fn keeps_for_some(alloc: Global, disk: &MemDisk, acknowledged: u8) -> Result<bool, AllocError> {
    let picks: [u64; 5] = [
        0,
        u64::MAX,
        0x5555_5555_5555_5555,
        0xaaaa_aaaa_aaaa_aaaa,
        0x0f3c_5a96_0f3c_5a96,
    ];
    for pick in picks {
        let left = disk.crash(pick)?;
        if !has_and_keeps(alloc, &left, acknowledged, !pick)? {
            return Ok(false);
        }
    }
    Ok(true)
}

/// What is seen of a volume whose disk passes so many calls.
#[derive(Clone, Copy, Debug)]
struct Stopped {
    /// Whether what a crash leaves is as it must be.
    right: bool,
    /// How many directories were acknowledged.
    acknowledged: u8,
    /// Whether one to four sectors were open, so that each pick of them was tried.
    few: bool,
}

/// Makes four directories on a volume whose disk passes so many calls, and tries what a crash leaves: each pick where at most four sectors are open.
fn seen_after(alloc: Global, passes: u64) -> Result<Stopped, AllocError> {
    let image = image_at_the_end_of_its_log(alloc)?;
    let Some((acknowledged, disk)) = left_by_four(alloc, image, passes)? else {
        return Ok(Stopped {
            right: false,
            acknowledged: 0,
            few: false,
        });
    };
    let open = open_sectors(alloc, &disk)?;
    let few = 1 <= open.len() && open.len() <= 4;
    let mut right = keeps_for_some(alloc, &disk, acknowledged)?;
    if few {
        right = has_for_each(alloc, &disk, &open, acknowledged)? && right;
    }
    Ok(Stopped {
        right,
        acknowledged,
        few,
    })
}

#[test]
fn a_stop_at_each_call_leaves_a_wrapped_log_that_mounts_to_what_was_acknowledged(
    rt: HostRuntime,
) -> Result<(), Fail> {
    let alloc = rt.alloc();
    let mut few = 0u64;
    for passes in 0..400 {
        let seen = seen_after(alloc, passes)?;
        assert!(rt; seen.right, "{passes}");
        if seen.few {
            few = few.wrapping_add(1);
        }
        if seen.acknowledged == 4 {
            assert!(rt; few > 0);
            return Ok(());
        }
    }
    Err(Fail::from("not all were acknowledged"))
}

/// An event that makes a node: a file or a directory.
fn making(alloc: Global, dir: u64, name: u8, number: u64) -> Result<Event, AllocError>
    ensures { IfOk result MayHappen }
{
    let name = letter(alloc, name)?;
    let kind = if number % 4 == 0 {
        MakeKind::Dir
    } else {
        MakeKind::File
    };
    let call = Call::Make {
        dir,
        name,
        kind,
        mode: 0o644,
    };
    Ok(Event::Call {
        session: 1,
        tag: 1,
        call,
    })
}

/// An event that removes a name.
fn removing(alloc: Global, dir: u64, name: u8) -> Result<Event, AllocError>
    ensures { IfOk result MayHappen }
{
    let name = letter(alloc, name)?;
    Ok(Event::Call {
        session: 1,
        tag: 1,
        call: Call::Remove { dir, name },
    })
}

/// An event that gives a name of a directory to another one.
fn renaming(
    alloc: Global,
    dir: u64,
    name: u8,
    to_dir: u64,
    to_name: u8,
) -> Result<Event, AllocError>
    ensures { IfOk result MayHappen }
{
    let name = letter(alloc, name)?;
    let to_name = letter(alloc, to_name)?;
    Ok(Event::Call {
        session: 1,
        tag: 1,
        call: Call::Rename {
            dir,
            name,
            to_dir,
            to_name,
        },
    })
}

/// An event that writes an attribute: its bytes are its name.
fn writing(alloc: Global, id: u64, name: u8) -> Result<Event, AllocError>
    ensures { IfOk result MayHappen }
{
    let name = letter(alloc, name)?;
    let bytes = name.copy()?;
    Ok(Event::Call {
        session: 1,
        tag: 1,
        call: Call::AttrWrite {
            id,
            name,
            kind: 0x4353_5452,
            bytes,
        },
    })
}

/// An event that sets the size of a file.
fn sizing(id: u64, size: u64) -> Event
    ensures { MayHappen result }
{
    Event::Call {
        session: 1,
        tag: 1,
        call: Call::SetSize { id, size },
    }
}

/// One of twelve letters.
fn letter_by(number: u64) -> u8 {
    let letters = *b"abcdefghijkl";
    letters[(number % 12) as usize]
}

/// An event by a number, with the id of a node: a call at the root or there, a seal, or a step.
fn event_with(alloc: Global, root: u64, id: u64, number: u64) -> Result<Event, AllocError>
    ensures { IfOk result MayHappen }
{
    let name = letter_by(number >> 40);
    let other = letter_by(number >> 46);
    let dir = if (number >> 36) % 4 == 0 { id } else { root };
    match (number >> 52) % 16 {
        0 => making(alloc, dir, name, number >> 30),
        1 => making(alloc, root, name, number >> 30),
        2 => removing(alloc, dir, name),
        3 => renaming(alloc, root, name, dir, other),
        4 => writing(alloc, id, name),
        5 => Ok(sizing(id, (number >> 24) % 6000)),
        6 => Ok(Event::Seal),
        _ => Ok(Event::Step),
    }
}

/// The next id that a history gave from some entry on, or the root's where it gave none.
fn id_by(history: &[Entry], root: u64, number: u64) -> u64 {
    let count = history.len() as u64;
    if count == 0 {
        return root;
    }
    for at in (number % count) as usize..history.len() {
        if let Reply::Made { id } = history[at].reply {
            return id;
        }
    }
    root
}

/// Makes one event by a number.
fn makes_event<D: Disk>(
    alloc: Global,
    volume: &mut Volume<D, Fixed>,
    number: u64,
) -> Result<(), AllocError> {
    let root = volume.root();
    let id = id_by(volume.history(), root, number >> 20);
    let event = event_with(alloc, root, id, number)?;
    let _happened = volume.event(event)?;
    Ok(())
}

/// A sync in each 64th turn, and how many entries it has acknowledged.
fn acknowledged_at<D: Disk>(volume: &mut Volume<D, Fixed>, turn: u64) -> u64 {
    if turn % 64 != 63 {
        return 0;
    }
    volume.sync(1, 1).unwrap_or(0)
}

/// Makes so many events on a volume, by numbers from a seed on, and tells how many entries the last sync has acknowledged.
fn makes_events<D: Disk>(
    alloc: Global,
    volume: &mut Volume<D, Fixed>,
    seed: u64,
    events: u64,
) -> Result<u64, AllocError> {
    let mut number = seed;
    let mut acknowledged = 0u64;
    for turn in 0..events {
        number = next_number(number);
        makes_event(alloc, volume, number)?;
        let upto = acknowledged_at(volume, turn);
        acknowledged = acknowledged.max(upto);
    }
    Ok(acknowledged)
}

/// The history of so many events on a new volume, how many entries of it were acknowledged, and what a crash leaves then.
fn left_by_run(
    alloc: Global,
    seed: u64,
    events: u64,
    pick: u64,
) -> Result<(Vec<Entry>, u64, Vec<u8>), AllocError> {
    let Some(image) = new_image(alloc)? else {
        return Err(AllocError);
    };
    let mut volume = match opens(alloc, image, u64::MAX) {
        Opened::Mounted(volume) => volume,
        _ => return Err(AllocError),
    };
    let acknowledged = makes_events(alloc, &mut volume, seed, events)?;
    let (disk, _clock, history) = volume.abandon();
    let left = disk.inner().crash(pick)?;
    Ok((history, acknowledged, left))
}

/// What is asked of a volume: the names of its root, the root's record, and a node's record and attributes.
fn question(root: u64, id: u64, at: u64) -> Call
    ensures { MayHappen (events.Call 1 1 result) }
{
    match at {
        0 => Call::List { dir: root },
        1 => Call::Stat { id: root },
        2 => Call::Stat { id },
        _ => Call::AttrList { id },
    }
}

/// Asks these four questions.
fn asks<D: Disk>(volume: &mut Volume<D, Fixed>, id: u64) -> Result<(), AllocError> {
    let root = volume.root();
    for at in 0..4 {
        volume.call(1, 1, question(root, id, at))?;
    }
    Ok(())
}

/// The answers of an image to these questions; none where it isn't mounted.
fn answers_of(alloc: Global, image: Vec<u8>, id: u64) -> Result<Vec<Entry>, AllocError> {
    let mut volume = match opens(alloc, image, u64::MAX) {
        Opened::Mounted(volume) => volume,
        _ => return Ok(Vec::new(alloc)),
    };
    asks(&mut volume, id)?;
    let (_disk, _clock, history) = volume.abandon();
    Ok(history)
}

/// Whether the plain tree's program answers so, each entry after the one before.
fn follows(model: &mut Model, entries: &[Entry]) -> Result<bool, AllocError> {
    for at in 0..entries.len() {
        if !model.follow(&entries[at])? {
            return Ok(false);
        }
    }
    Ok(true)
}

/// Whether the plain tree's program follows a history; and the first prefix of it with at least so many entries after which it gives these answers.
fn meets(
    model: &mut Model,
    history: &[Entry],
    least: u64,
    answers: &[Entry],
) -> Result<(bool, Option<u64>), AllocError> {
    let mut met = None;
    for at in 0..history.len() {
        if met.is_none() && least <= at as u64 && follows(model, answers)? {
            met = Some(at as u64);
        }
        if !model.follow(&history[at])? {
            return Ok((false, met));
        }
    }
    if met.is_none() && follows(model, answers)? {
        met = Some(history.len() as u64);
    }
    Ok((true, met))
}

/// What came of a run beside the plain tree's program.
#[derive(Clone, Copy)]
struct Ran {
    /// Each entry is a step, and what a crash left is as it is after a prefix with all that was acknowledged.
    good: bool,
    /// How many entries were acknowledged.
    acknowledged: u64,
    /// More was left than what was acknowledged.
    beyond: bool,
}

/// What came of a run, by its history, how many entries of it were acknowledged, and the answers of what a crash left.
fn compares(
    alloc: Global,
    history: &[Entry],
    acknowledged: u64,
    answers: &[Entry],
) -> Result<Ran, AllocError> {
    let mut model = Model::new(alloc, 66, 65_536_000)?;
    let (steps, met) = meets(&mut model, history, acknowledged, answers)?;
    Ok(Ran {
        good: steps && met.is_some() && answers.len() == 4,
        acknowledged,
        beyond: acknowledged < met.unwrap_or(0),
    })
}

/// Runs so many events beside the plain tree's program, and mounts what a crash leaves then.
fn runs_beside(alloc: Global, seed: u64, events: u64) -> Result<Ran, AllocError> {
    let pick = next_number(events);
    let (history, acknowledged, left) = left_by_run(alloc, seed, events, pick)?;
    let id = id_by(&history, 66, pick >> 20);
    let answers = answers_of(alloc, left, id)?;
    compares(alloc, &history, acknowledged, &answers)
}

#[test]
fn a_long_run_and_what_crashes_in_it_leave_are_as_the_plain_tree_says(
    rt: HostRuntime,
) -> Result<(), Fail> {
    let alloc = rt.alloc();
    let mut all = true;
    let mut most = 0u64;
    let mut beyond = false;
    for turn in 1..=100u64 {
        let ran = runs_beside(alloc, 7, 20 * turn)?;
        all = all && ran.good;
        most = most.max(ran.acknowledged);
        beyond = beyond || ran.beyond;
    }
    assert!(rt; all && 500 < most && beyond);
    Ok(())
}
