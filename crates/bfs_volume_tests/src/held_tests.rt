// Pieces of files that sessions hold while others go on, by events of a volume on a disk in memory.
ghost use Rattle.std.specs.Prelude.{◌≢◌, IfOk};
ghost use Rattle.bfs_volume.specs.Events.{MayHappen};

use crate::volume_tests::{bytes_from, letter, make_sized, mounts, new_image};
use bfs_disk::MemDisk;
use bfs_ports::Fixed;
use bfs_tree::{Bytes, Call, MakeKind, Reply};
use bfs_volume::{Event, Happened, Volume};
use std::alloc::{AllocError, Global};
use std::test::Fail;

/// What came of an event: the last entry's reply, or how many disk calls of a piece are left.
#[derive(Clone, Copy, Debug, PartialEq, Eq)]
enum Came {
    Done,
    Held(u32),
    Left(u64),
    Fault,
    NoMemory,
    Other,
}

fn last_reply(volume: &Volume<MemDisk, Fixed>) -> Came {
    let Some(entry) = volume.history().last() else {
        return Came::Other;
    };
    match entry.reply {
        Reply::Done | Reply::Made { .. } => Came::Done,
        Reply::Held { session } => Came::Held(session),
        _ => Came::Other,
    }
}

/// Makes an event.
fn makes(volume: &mut Volume<MemDisk, Fixed>, event: Event) -> Came
    requires { MayHappen event }
{
    match volume.event(event) {
        Ok(Happened::Replied) => last_reply(volume),
        Ok(Happened::Pieced { left }) => Came::Left(left),
        Ok(Happened::Fault(_)) => Came::Fault,
        Ok(_) => Came::Other,
        Err(_) => Came::NoMemory,
    }
}

/// What sessions do here, each with a number of its own.
#[derive(Clone, Copy)]
enum Act {
    Write { at: u64, count: usize },
    Read { at: u64, length: u64 },
    GoOn,
    LetGo,
    Make(u8),
    Seal,
    Step,
}

/// The event of a session's act on a file, or on its directory.
fn event_of(alloc: Global, dir: u64, id: u64, session: u32, act: Act) -> Result<Event, AllocError>
    requires { session ≢ 0 }
    ensures { IfOk result MayHappen }
{
    match act {
        Act::Write { at, count } => {
            let bytes = Bytes::new(bytes_from(alloc, at, count)?);
            Ok(Event::HoldWrite {
                session,
                tag: 1,
                id,
                at,
                bytes,
            })
        }
        Act::Read { at, length } => Ok(Event::HoldRead {
            session,
            tag: 1,
            id,
            at,
            length,
        }),
        Act::GoOn => Ok(Event::Piece { session }),
        Act::LetGo => Ok(Event::Release { session, tag: 1 }),
        Act::Make(name) => {
            let name = letter(alloc, name)?;
            Ok(Event::Call {
                session,
                tag: 1,
                call: Call::Make {
                    dir,
                    name,
                    kind: MakeKind::File,
                    mode: 0o644,
                },
            })
        }
        Act::Seal => Ok(Event::Seal),
        Act::Step => Ok(Event::Step),
    }
}

/// Does a session's act come to this?
fn comes(
    alloc: Global,
    volume: &mut Volume<MemDisk, Fixed>,
    id: u64,
    session: u32,
    act: Act,
    want: Came,
) -> Result<bool, AllocError>
    requires { session ≢ 0 }
{
    let dir = volume.root();
    let event = event_of(alloc, dir, id, session, act)?;
    Ok(makes(volume, event) == want)
}

/// A session's turn: which session, what it does, and what comes of it.
type Turn = (u32, Act, Came);

/// The first turn, counted from 1, that comes to something else; 0 where none does.
fn first_wrong(
    alloc: Global,
    volume: &mut Volume<MemDisk, Fixed>,
    id: u64,
    turns: &[Turn],
) -> Result<usize, AllocError> {
    for (i, (session, act, want)) in turns.iter().enumerate() {
        if *session == 0 {
            return Ok(i + 1);
        }
        if !comes(alloc, volume, id, *session, *act, *want)? {
            return Ok(i + 1);
        }
    }
    Ok(0)
}

/// Whether the last entry lets go a whole piece with the bytes of these places.
fn gave(
    alloc: Global,
    volume: &Volume<MemDisk, Fixed>,
    at: u64,
    count: usize,
) -> Result<bool, AllocError> {
    let want = bytes_from(alloc, at, count)?;
    let Some(entry) = volume.history().last() else {
        return Ok(false);
    };
    match &entry.call {
        Call::Release { bytes, whole, .. } => Ok(*whole && bytes.as_slice() == want.as_slice()),
        _ => Ok(false),
    }
}

/// A volume with a file of 3,000 bytes in blocks of 1,024, on a disk that fails at one of its calls, and the file's id.
fn with_file(alloc: Global, failing: u64) -> Result<(Volume<MemDisk, Fixed>, u64), AllocError> {
    let Some(image) = new_image(alloc)? else {
        return Err(AllocError);
    };
    let mut volume = mounts(alloc, image, failing)?;
    let root = volume.root();
    let id = make_sized(alloc, &mut volume, root)?;
    Ok((volume, id))
}

#[test]
fn a_piece_is_held_while_others_go_on(rt: HostRuntime) -> Result<(), Fail> {
    let alloc = rt.alloc();
    let (mut volume, id) = with_file(alloc, 0)?;
    let write = Act::Write {
        at: 100,
        count: 2000,
    };
    let all = Act::Read {
        at: 0,
        length: 3000,
    };
    let written = [
        (1, write, Came::Done),
        (2, all, Came::Held(1)),
        (1, all, Came::NoMemory),
        (2, Act::Make(b'b'), Came::Done),
        (1, Act::Make(b'c'), Came::NoMemory),
        (1, Act::LetGo, Came::Left(5)),
        (1, Act::GoOn, Came::Left(4)),
        (2, Act::Seal, Came::Other),
        (1, Act::GoOn, Came::Left(3)),
        (2, Act::Step, Came::Other),
        (1, Act::GoOn, Came::Left(2)),
        (1, Act::GoOn, Came::Left(1)),
        (2, Act::Make(b'd'), Came::Done),
        (2, Act::Step, Came::Other),
        (1, Act::GoOn, Came::Left(0)),
        (1, Act::GoOn, Came::Left(0)),
        (3, Act::GoOn, Came::Left(0)),
        (3, Act::LetGo, Came::Left(0)),
        (1, Act::LetGo, Came::Done),
    ];
    assert_eq!(rt; first_wrong(alloc, &mut volume, id, &written)?, 0);
    assert!(rt; gave(alloc, &volume, 100, 2000)?);
    Ok(())
}

#[test]
fn two_sessions_read_by_turns_what_was_written(rt: HostRuntime) -> Result<(), Fail> {
    let alloc = rt.alloc();
    let (mut volume, id) = with_file(alloc, 0)?;
    let bytes = bytes_from(alloc, 0, 3000)?;
    volume.write(1, 1, id, 0, bytes.as_slice())?;
    let some = Act::Read {
        at: 1000,
        length: 1100,
    };
    let all = Act::Read {
        at: 0,
        length: 3000,
    };
    let part = Act::Write {
        at: 1500,
        count: 100,
    };
    let again = [
        (3, part, Came::Done),
        (3, Act::GoOn, Came::Left(1)),
        (3, Act::GoOn, Came::Left(0)),
        (3, Act::LetGo, Came::Done),
    ];
    assert_eq!(rt; first_wrong(alloc, &mut volume, id, &again)?, 0);
    let read = [
        (1, some, Came::Done),
        (2, all, Came::Done),
        (3, Act::Write { at: 0, count: 1 }, Came::Held(1)),
        (2, Act::GoOn, Came::Left(2)),
        (1, Act::GoOn, Came::Left(2)),
        (3, Act::Seal, Came::Other),
        (2, Act::GoOn, Came::Left(1)),
        (1, Act::GoOn, Came::Left(1)),
        (2, Act::GoOn, Came::Left(0)),
        (2, Act::LetGo, Came::Done),
    ];
    assert_eq!(rt; first_wrong(alloc, &mut volume, id, &read)?, 0);
    assert!(rt; gave(alloc, &volume, 0, 3000)?);
    let rest = [
        (3, Act::Write { at: 0, count: 1 }, Came::Held(1)),
        (1, Act::GoOn, Came::Left(0)),
        (1, Act::LetGo, Came::Done),
    ];
    assert_eq!(rt; first_wrong(alloc, &mut volume, id, &rest)?, 0);
    assert!(rt; gave(alloc, &volume, 1000, 1100)?);
    Ok(())
}

/// Whether the last entry lets go a piece that isn't whole, with no byte and a count of faults that rose.
fn gave_up(volume: &Volume<MemDisk, Fixed>) -> bool {
    let Some(entry) = volume.history().last() else {
        return false;
    };
    match &entry.call {
        Call::Release {
            bytes,
            whole,
            before,
            after,
            ..
        } => !*whole && bytes.as_slice().is_empty() && *before < *after,
        _ => false,
    }
}

/// A piece on a disk that fails at one of its calls: nothing where no fault was met, else whether it was let go so.
fn meets_fault(alloc: Global, failing: u64) -> Result<Option<bool>, AllocError> {
    let Ok((mut volume, id)) = with_file(alloc, failing) else {
        return Ok(None);
    };
    let write = Act::Write { at: 0, count: 3000 };
    if !comes(alloc, &mut volume, id, 1, write, Came::Done)? {
        return Ok(None);
    }
    for _ in 0..4 {
        if comes(alloc, &mut volume, id, 1, Act::GoOn, Came::Fault)? {
            let nothing = comes(alloc, &mut volume, id, 1, Act::GoOn, Came::Left(0))?;
            let gone = comes(alloc, &mut volume, id, 1, Act::LetGo, Came::Done)?;
            return Ok(Some(nothing && gone && gave_up(&volume)));
        }
    }
    Ok(None)
}

#[test]
fn a_piece_that_meets_a_fault_is_let_go_with_its_counts(rt: HostRuntime) -> Result<(), Fail> {
    let alloc = rt.alloc();
    let mut met = false;
    for failing in 1..120 {
        if let Some(right) = meets_fault(alloc, failing)? {
            assert!(rt; right);
            met = true;
        }
    }
    assert!(rt; met);
    Ok(())
}
