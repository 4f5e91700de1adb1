// A space without calls: what it is promised, what is noted and what is sealed; a call that fails over an open group; calls of a
// space, over blocks that tell nothing; the holds that entries leave, and those of pieces of a file. The volume is the one that `mk --blocks 4096` makes, with 529 used
// blocks.
ghost use Rattle.std.specs.Prelude.{◌≡◌, ◌≢◌, ◌≤◌, ◌<◌, ◌+◌, ◌*◌, ◌^◌, ℕ, length, true, IsTrue, IfOk};
ghost use Rattle.std.specs.Vec.{vec_capacity};
ghost use Rattle.bfs_txn.specs.Changed.{number_at};
ghost use Rattle.bfs_base.specs.Lists.{times};
ghost use Rattle.bfs_super.specs.Conditions.{IsValid};
ghost use Rattle.bfs_tree.specs.Answers.{KeepsRanges};
ghost use Rattle.bfs_tree.specs.declared.call.Call.TheVariants.{Sync};
ghost use Rattle.bfs_space.specs.Holds.{keeps_holds};
ghost use Rattle.bfs_space.specs.Looks.{is_served};

use bfs_bitmap::Bitmap;
use bfs_node::TreeFault;
use bfs_space::{
    Allowance, Answers, CallFault, Calls, Looked, Outcome, Space, answer_call, note_holds,
};
use bfs_stream_pages::MapFault;
use bfs_super::{Super, SuperFault};
use bfs_tree::{Bytes, Call, Entry, FoundRow, Hold, Key, KeyKind, MakeKind, Reply};
use bfs_txn::{Blocks, Changed, Edits, MemBlocks};
use bfs_volume_fixtures::{Shape, Silent, new_volume, run};
use std::alloc::{AllocError, Global};
use std::test::Fail;

/// The volume's superblock.
fn superblock() -> Result<Super, SuperFault>
    ensures valid { IfOk result IsValid }
{
    let shape = Shape {
        size: 1024,
        shift: 10,
        blocks: 4096,
        groups: 1,
        used: 529,
        start: 0,
        log: run(2, 512),
        root: run(514, 1),
        indices: run(517, 1),
    };
    shape.superblock()
}

/// Notes an entry of session 1 for which it is promised room first.
fn notes(
    space: &mut Space,
    tag: u32,
    now: u64,
    reply: Reply,
    durable: u64,
) -> Result<(), AllocError>
    requires none { times 1 space.old.promised ≡ 0 }
    requires now { now < 2 ^ 40 }
    ensures none { times 1 space.new.promised ≡ 0 }
{
    space.promise(1)?;
    space.note(1, tag, now, Call::Sync, reply, durable);
    Ok(())
}

/// The first and the last entry of the group that is sealed, its used blocks and how many blocks it has; zeros where there is
/// none.
fn seals(space: &mut Space) -> (u64, u64, u64, usize)
    ensures promised { space.new.promised ≡ space.old.promised }
{
    match space.seal() {
        Some(group) => (group.first, group.last, group.used, group.blocks.len()),
        None => (0, 0, 0, 0),
    }
}

/// Seals four times: before any entry, after two, again, and after two more once the first two have left the log. What is told of each.
fn seals_between(space: &mut Space) -> Result<[(u64, u64, u64, usize); 4], AllocError>
    requires none { times 1 space.old.promised ≡ 0 }
{
    let before = seals(space);
    notes(space, 7, 1000, Reply::Synced { upto: 0 }, 0)?;
    notes(space, 8, 1000, Reply::Synced { upto: 1 }, 1)?;
    let first = seals(space);
    let again = seals(space);
    space.released(2);
    notes(space, 9, 999, Reply::Synced { upto: 2 }, 2)?;
    notes(space, 10, 1001, Reply::Synced { upto: 3 }, 3)?;
    Ok([before, first, again, seals(space)])
}

/// How many entries there are, and the stamps of the first four.
fn stamps_of(history: &[Entry]) -> (usize, [i64; 4]) {
    let mut stamps = [0i64; 4];
    for i in 0..history.len().min(4) {
        stamps[i] = history[i].stamp;
    }
    (history.len(), stamps)
}

#[test]
fn what_is_promised_is_noted_with_rising_stamps_and_sealed_once(
    rt: HostRuntime,
) -> Result<(), Fail> {
    let sup = superblock()?;
    assert_eq!(rt; sup.log_start, 0);
    assert_eq!(rt; sup.log_end, 0);
    assert_eq!(rt; sup.used_blocks, 529);
    assert_eq!(rt; sup.num_blocks, 4096);
    let mut space = Space::open(rt.alloc(), sup, 1)?;
    let sealed = seals_between(&mut space)?;
    let (count, stamps) = stamps_of(&space.into_history());
    assert_eq!(rt;
        sealed,
        [(0, 0, 0, 0), (1, 2, 529, 0), (0, 0, 0, 0), (3, 4, 529, 0)]
    );
    assert_eq!(rt; count, 4);
    assert_eq!(rt; stamps, [65536000, 65536001, 65536002, 65601536]);
    Ok(())
}

/// Changes one block, and has no answer, as if it wanted memory.
#[derive(Drop)]
struct Failing {
    block: u64,
}

impl Answers for Failing {
    ghost use Rattle.bfs_space.specs.Holds.{keeps_holds};

    ghost serves = { keeps_holds };

    ghost may = { λ sup call. Unit {0} };

    fn look<E: Edits>(
        &self,
        _alloc: Global,
        _sup: &Super,
        _bitmap: &mut Bitmap,
        _edits: &mut E,
        _holds: &[Hold],
        _call: &Call,
    ) -> Result<Looked, MapFault> {
        Err(TreeFault::NoMemory)
    }

    fn answer<E: Edits>(
        &self,
        alloc: Global,
        sup: &Super,
        _bitmap: &mut Bitmap,
        edits: &mut E,
        _holds: &[Hold],
        _call: &Call,
        _stamp: i64,
    ) -> Result<Reply, MapFault> {
        let Ok(bytes) = vec![in alloc; 7u8; sup.block_size as usize] else {
            return Err(TreeFault::NoMemory);
        };
        match edits.set(self.block, &bytes) {
            Ok(()) => Err(TreeFault::NoMemory),
            Err(_) => Err(TreeFault::NoMemory),
        }
    }
}

/// Whether a call was refused for the reason that `Failing` has.
fn is_refused(answer: &Result<Reply, CallFault>) -> bool {
    matches!(answer, Err(CallFault::Map(TreeFault::NoMemory)))
}

/// A hold of another session.
const HELD: Hold = Hold {
    session: 2,
    id: 600,
    at: 0,
    length: 1,
    write: true,
};

#[test]
fn what_a_failed_call_changed_is_given_up(rt: HostRuntime) -> Result<(), Fail> {
    let alloc = rt.alloc();
    let sup = superblock()?;
    let size = sup.block_size;
    assert_eq!(rt; size, 1024);
    assert_eq!(rt; sup.log_blocks.len, 512);
    let answers = Failing { block: 600 };
    let holds = [HELD];
    let (refused, changed, used) = {
        let mut under = Silent {
            blocks: MemBlocks::new(vec![in alloc; 0u8; 8192]?, size),
        };
        let mut bitmap = Bitmap::of(alloc, &sup);
        let mut group = Changed::new(alloc);
        let answer = answer_call(
            alloc,
            &sup,
            &answers,
            &mut bitmap,
            &mut group,
            &mut under,
            &holds,
            &Call::IndexList,
            0,
            Allowance {
                logged: 1,
                taken: 1,
            },
        );
        (is_refused(&answer), group.len(), bitmap.used())
    };
    assert!(rt; refused);
    assert_eq!(rt; changed, 0);
    assert_eq!(rt; used, 529);
    Ok(())
}

/// A new volume, mounted over its blocks.
#[derive(Drop)]
struct Mount {
    space: Space,
    under: Silent,
    ghost size: { under.blocks.block_size ≡ space.view.sup.block_size },
    ghost kilo: { under.blocks.block_size ≡ 1024 },
}

/// Mounts a volume by its bytes.
fn mounts(alloc: Global, bytes: Vec<u8>, blocks: usize) -> Result<Option<Mount>, Fail>
    requires some { 1 ≤ blocks }
    requires few { blocks ≤ 4096 }
{
    if bytes.len() != 1024 * blocks {
        return Ok(None);
    }
    let mut sector = [0u8; 512];
    sector.copy_from_slice(&bytes[512..1024]);
    let Ok(sup) = Super::parse(&sector) else {
        return Ok(None);
    };
    let geometry = sup.geometry();
    if sup.block_size != 1024 || sup.log_start != sup.log_end || geometry.used > geometry.blocks {
        return Ok(None);
    }
    let space = Space::open(alloc, sup, 1)?;
    let under = Silent {
        blocks: MemBlocks::new(bytes, 1024),
    };
    Ok(Some(Mount { space, under }))
}

/// The id in the first of some rows, or 0.
fn first_id(rows: &[FoundRow]) -> u64 {
    match rows.first() {
        Some(row) => row.id,
        None => 0,
    }
}

/// What a reply says in three numbers.
fn told_by(reply: &Reply) -> (u8, u64, u64) {
    match reply {
        Reply::Made { id } => (1, *id, 0),
        Reply::Exists => (2, 0, 0),
        Reply::NoSpace { free, needed } => (3, *free, *needed),
        Reply::NoLogRoom { blocks, room } => (4, *blocks, *room),
        Reply::Done => (6, 0, 0),
        Reply::Info { info } => (7, u64::from(info.mode), info.parent),
        Reply::Names { names } => (8, names.as_slice().len() as u64, 0),
        Reply::NotLink => (10, 0, 0),
        Reply::NotFound => (11, 0, 0),
        Reply::Attr { kind, bytes } => (12, u64::from(*kind), bytes.as_slice().len() as u64),
        Reply::Attrs { rows } => (13, rows.as_slice().len() as u64, 0),
        Reply::NoAttr => (14, 0, 0),
        Reply::Indices { rows } => (15, rows.as_slice().len() as u64, 0),
        Reply::Rows { rows } => (16, rows.as_slice().len() as u64, first_id(rows.as_slice())),
        Reply::KeyKind => (17, 0, 0),
        Reply::NoIndex => (18, 0, 0),
        Reply::NotEmpty => (19, 0, 0),
        Reply::BuiltIn => (20, 0, 0),
        Reply::NotDir => (21, 0, 0),
        Reply::TooBig => (22, 0, 0),
        Reply::NotFile => (23, 0, 0),
        Reply::Held { session } => (24, u64::from(*session), 0),
        Reply::NameBad => (25, 0, 0),
        Reply::FloatIndex => (26, 0, 0),
        Reply::IndexCount => (27, 0, 0),
        Reply::Inside => (28, 0, 0),
        Reply::PastEnd { size } => (29, *size, 0),
        _ => (0, 0, 0),
    }
}

/// What the last reply says.
fn last_told(space: &Space) -> (u8, u64, u64) {
    match space.history().last() {
        Some(entry) => told_by(&entry.reply),
        None => (0, 0, 0),
    }
}

/// The reply to a call; or that it is put off.
fn replies(mount: &mut Mount, tag: u32, call: Call) -> Result<(u8, u64, u64), AllocError>
    requires serves { is_served call ≡ true }
    requires stays { keeps_holds call ≡ true }
    requires ranges { KeepsRanges call }
    requires other { call ≢ Sync }
{
    let answers = Calls {};
    match mount
        .space
        .call(&answers, &mut mount.under, 1, tag, 1000, call)?
    {
        Outcome::Replied => Ok(last_told(&mount.space)),
        Outcome::Drain(_) => Ok((5, 0, 0)),
    }
}

/// What becomes of the call for a node with a name of one letter in a directory: its reply, or that it is put off.
fn asks(
    alloc: Global,
    mount: &mut Mount,
    dir: u64,
    name: u8,
    kind: MakeKind,
) -> Result<(u8, u64, u64), AllocError> {
    let mut letters = Vec::new(alloc);
    letters.push(name)?;
    let call = Call::Make {
        dir,
        name: Bytes::new(letters),
        kind,
        mode: 0o755,
    };
    replies(mount, 1, call)
}

/// The reply to a call that is answered in any case: a mode is set, a record is read, or a directory's list, or a link's target.
fn asks_of(mount: &mut Mount, which: u8, id: u64) -> Result<(u8, u64, u64), AllocError> {
    let call = match which {
        0 => Call::SetMode {
            id,
            mode: 0o600,
            uid: 1,
            gid: 2,
        },
        1 => Call::Stat { id },
        2 => Call::List { dir: id },
        _ => Call::ReadLink { id },
    };
    replies(mount, 2, call)
}

/// Do all of these blocks lie in a memory of so many bytes?
fn lie_inside(blocks: &Changed, size: usize) -> bool
    requires { size < 2 ^ 40 }
    ensures { IsTrue result → (i : ℕ) → i < length blocks.now → 1024 * number_at blocks.now i + 1024 ≤ size }
{
    for i in 0..blocks.len() {
        let block = blocks.block(i);
        if block >= 4096 || 1024 * block + 1024 > size as u64 {
            return false;
        }
    }
    true
}

/// Seals what is open and lets it leave the log: its blocks go home. The used blocks that the seal tells of; or 0 where that didn't go well, or
/// nothing was open.
fn drains(mount: &mut Mount) -> u64 {
    let Some(group) = mount.space.seal() else {
        return 0;
    };
    let length = mount.under.blocks.bytes().len();
    if length >= 1 << 30 || !lie_inside(&group.blocks, length) {
        return 0;
    }
    mount.under.blocks.apply(&group);
    mount.space.released(group.last);
    group.used
}

/// A new volume of so many blocks of 1,024 bytes, with a log of so many, mounted.
fn new_mount(alloc: Global, blocks: u64, log: u16) -> Result<Mount, Fail>
    requires some { 1 ≤ blocks }
    requires few { blocks ≤ 4096 }
    requires low { 2 ≤ log }
    requires high { log ≤ 2048 }
{
    let Some(bytes) = new_volume(alloc, blocks, log)? else {
        return Err(Fail::from("no volume"));
    };
    match mounts(alloc, bytes, blocks as usize)? {
        Some(mount) => Ok(mount),
        None => Err(Fail::from("no mount")),
    }
}

/// Four calls for nodes in a directory, two of them after a drain: what has become of each. Nothing is told where the drain didn't go well.
fn makes_twice(
    alloc: Global,
    mount: &mut Mount,
    dir: u64,
) -> Result<[(u8, u64, u64); 4], AllocError> {
    let first = asks(alloc, mount, dir, b'a', MakeKind::File)?;
    let second = asks(alloc, mount, dir, b'b', MakeKind::Dir)?;
    if drains(mount) == 0 {
        return Ok([(9, 0, 0); 4]);
    }
    let third = asks(alloc, mount, dir, b'b', MakeKind::Dir)?;
    let fourth = asks(alloc, mount, dir, b'a', MakeKind::File)?;
    Ok([first, second, third, fourth])
}

/// These calls in the root of a new volume.
fn two_calls(alloc: Global, blocks: u64, log: u16, root: u64) -> Result<[(u8, u64, u64); 4], Fail>
    requires some { 1 ≤ blocks }
    requires few { blocks ≤ 4096 }
    requires low { 2 ≤ log }
    requires high { log ≤ 2048 }
{
    let mut mount = new_mount(alloc, blocks, log)?;
    Ok(makes_twice(alloc, &mut mount, root)?)
}

#[test]
fn a_node_is_made_refused_put_off_or_turned_away_for_want_of_space(
    rt: HostRuntime,
) -> Result<(), Fail> {
    let alloc = rt.alloc();
    // With two blocks free there is room for a file, and none for a directory, which takes three. What is needed is 28 for each of four rows, and 8.
    let few = two_calls(alloc, 531, 512, 514)?;
    assert_eq!(rt; few, [(1, 529, 0), (5, 0, 0), (3, 1, 120), (2, 0, 0)]);
    let many = two_calls(alloc, 4096, 512, 514)?;
    assert_eq!(rt; many, [(1, 529, 0), (1, 530, 0), (2, 0, 0), (2, 0, 0)]);
    Ok(())
}

/// The replies to a file that is made, what is read of it before and after its mode is set, and of the root.
fn set_and_read(alloc: Global, mount: &mut Mount) -> Result<[(u8, u64, u64); 7], AllocError> {
    Ok([
        asks(alloc, mount, 514, b'a', MakeKind::File)?,
        asks_of(mount, 1, 529)?,
        asks_of(mount, 0, 529)?,
        asks_of(mount, 1, 529)?,
        asks_of(mount, 2, 514)?,
        asks_of(mount, 3, 529)?,
        asks_of(mount, 0, 4000)?,
    ])
}

#[test]
fn a_mode_is_set_and_read_back(rt: HostRuntime) -> Result<(), Fail> {
    let alloc = rt.alloc();
    let mut mount = new_mount(alloc, 4096, 512)?;
    let told = set_and_read(alloc, &mut mount)?;
    assert_eq!(rt;
        told,
        [
            (1, 529, 0),
            (7, 0o755, 514),
            (6, 0, 0),
            (7, 0o600, 514),
            (8, 1, 0),
            (10, 0, 0),
            (11, 0, 0),
        ]
    );
    Ok(())
}

#[test]
fn a_directory_does_not_fit_a_log_of_four_blocks(rt: HostRuntime) -> Result<(), Fail> {
    let alloc = rt.alloc();
    let mut mount = new_mount(alloc, 4096, 4)?;
    // The root's inode stands behind block 0, the bitmap and the log.
    let made = asks(alloc, &mut mount, 6, b'a', MakeKind::Dir)?;
    assert_eq!(rt; made, (4, 7, 3));
    Ok(())
}

/// Puts an attribute of four bytes with the name `k` into the small data of the inode whose block begins at this byte. There are no
/// other items.
fn put_attribute(bytes: &mut [u8], at: usize) -> bool {
    if bytes.len() < 1024 || at > bytes.len() - 1024 {
        return false;
    }
    // Type, length of the name, length of the bytes, the name, three zeros, the bytes, a zero.
    let item = [
        0x52, 0x54, 0x53, 0x43, 1, 0, 4, 0, b'k', 0, 0, 0, b'a', b'b', b'c', b'd', 0,
    ];
    for i in 0..item.len() {
        bytes[at + 232 + i] = item[i];
    }
    true
}

/// A new volume whose root has the attribute, mounted.
fn mount_with_attribute(alloc: Global) -> Result<Mount, Fail> {
    let Some(mut bytes) = new_volume(alloc, 4096, 512)? else {
        return Err(Fail::from("no volume"));
    };
    if !put_attribute(&mut bytes, 514 * 1024) {
        return Err(Fail::from("no attribute"));
    }
    match mounts(alloc, bytes, 4096)? {
        Some(mount) => Ok(mount),
        None => Err(Fail::from("no mount")),
    }
}

/// The key of a text.
fn key_of(alloc: Global, text: &[u8]) -> Result<Key, AllocError> {
    Ok(Key::Text(Bytes::from_slice(alloc, text)?))
}

/// A search of an index for the key `a`.
fn search(alloc: Global, name: &[u8]) -> Result<Call, AllocError>
    ensures serves { IfOk result (λ call. is_served call ≡ true) }
    ensures stays { IfOk result (λ call. keeps_holds call ≡ true) }
    ensures ranges { IfOk result KeepsRanges }
    ensures other { IfOk result (λ call. call ≢ Sync) }
{
    Ok(Call::IndexFind {
        name: Bytes::from_slice(alloc, name)?,
        low: key_of(alloc, b"a")?,
        high: key_of(alloc, b"a")?,
    })
}

/// A search of the index `k` for the number whose four bytes are 7 each.
fn number_search(alloc: Global) -> Result<Call, AllocError>
    ensures serves { IfOk result (λ call. is_served call ≡ true) }
    ensures stays { IfOk result (λ call. keeps_holds call ≡ true) }
    ensures ranges { IfOk result KeepsRanges }
    ensures other { IfOk result (λ call. call ≢ Sync) }
{
    Ok(Call::IndexFind {
        name: Bytes::from_slice(alloc, b"k")?,
        low: Key::I32(0x07070707),
        high: Key::I32(0x07070707),
    })
}

/// A call that reads the root's attributes, or indices, or an attribute of the first file.
fn read_call(alloc: Global, which: u8) -> Result<Call, AllocError>
    ensures serves { IfOk result (λ call. is_served call ≡ true) }
    ensures stays { IfOk result (λ call. keeps_holds call ≡ true) }
    ensures ranges { IfOk result KeepsRanges }
    ensures other { IfOk result (λ call. call ≢ Sync) }
{
    Ok(match which {
        0 => Call::AttrList { id: 514 },
        1 => Call::AttrRead {
            id: 514,
            name: Bytes::from_slice(alloc, b"k")?,
        },
        2 => Call::AttrRead {
            id: 514,
            name: Bytes::from_slice(alloc, b"l")?,
        },
        3 => Call::AttrList { id: 515 },
        4 => Call::IndexList,
        5 => search(alloc, b"name")?,
        6 => search(alloc, b"size")?,
        7 => search(alloc, b"none")?,
        8 => number_search(alloc)?,
        _ => Call::AttrRead {
            id: 529,
            name: Bytes::from_slice(alloc, b"k")?,
        },
    })
}

/// A call that takes something out: a node with a name of one letter leaves a directory, or an index goes.
fn taking_call(alloc: Global, dir: u64, name: &[u8], index: bool) -> Result<Call, AllocError>
    ensures serves { IfOk result (λ call. is_served call ≡ true) }
    ensures stays { IfOk result (λ call. keeps_holds call ≡ true) }
    ensures ranges { IfOk result KeepsRanges }
    ensures other { IfOk result (λ call. call ≢ Sync) }
{
    let name = Bytes::from_slice(alloc, name)?;
    if index {
        return Ok(Call::IndexRemove { name });
    }
    Ok(Call::Remove { dir, name })
}

/// The reply to a call that takes something out.
fn takes(
    alloc: Global,
    mount: &mut Mount,
    dir: u64,
    name: &[u8],
    index: bool,
) -> Result<(u8, u64, u64), AllocError> {
    let call = taking_call(alloc, dir, name, index)?;
    replies(mount, 4, call)
}

/// The replies around a file that is made in the root and removed.
fn makes_and_removes_file(
    alloc: Global,
    mount: &mut Mount,
) -> Result<[(u8, u64, u64); 7], AllocError> {
    Ok([
        asks(alloc, mount, 514, b'a', MakeKind::File)?,
        reads(alloc, mount, 5)?,
        takes(alloc, mount, 514, b"a", false)?,
        takes(alloc, mount, 514, b"a", false)?,
        takes(alloc, mount, 529, b"a", false)?,
        reads(alloc, mount, 5)?,
        asks_of(mount, 2, 514)?,
    ])
}

/// The replies to a directory that is made with a file in it, and that can't be removed so. Of the file's making it is told only whether it was made.
fn makes_full_directory(
    alloc: Global,
    mount: &mut Mount,
) -> Result<[(u8, u64, u64); 4], AllocError> {
    let directory = asks(alloc, mount, 514, b'b', MakeKind::Dir)?;
    let inner = asks(alloc, mount, 530, b'c', MakeKind::File)?;
    Ok([
        directory,
        (inner.0, 0, 0),
        takes(alloc, mount, 514, b"b", false)?,
        takes(alloc, mount, inner.1, b"x", false)?,
    ])
}

/// The replies once the group has left the log: a file is made again, and the directory goes; the indices that are built in stay.
fn makes_again(alloc: Global, mount: &mut Mount) -> Result<[(u8, u64, u64); 6], AllocError> {
    Ok([
        asks(alloc, mount, 514, b'a', MakeKind::File)?,
        takes(alloc, mount, 530, b"c", false)?,
        takes(alloc, mount, 514, b"b", false)?,
        asks_of(mount, 2, 514)?,
        takes(alloc, mount, 0, b"name", true)?,
        takes(alloc, mount, 0, b"none", true)?,
    ])
}

#[test]
fn what_is_removed_is_gone_and_its_blocks_serve_again(rt: HostRuntime) -> Result<(), Fail> {
    let alloc = rt.alloc();
    let mut mount = new_mount(alloc, 4096, 512)?;
    let first = makes_and_removes_file(alloc, &mut mount)?;
    assert_eq!(rt;
        first,
        [
            (1, 529, 0),
            (16, 1, 529),
            (6, 0, 0),
            (11, 0, 0),
            (11, 0, 0),
            (16, 0, 0),
            (8, 0, 0)
        ]
    );
    // Its block waits for the group to leave the log.
    let full = makes_full_directory(alloc, &mut mount)?;
    assert_eq!(rt; full, [(1, 530, 0), (1, 0, 0), (19, 0, 0), (21, 0, 0)]);
    assert!(rt; drains(&mut mount) > 0);
    let again = makes_again(alloc, &mut mount)?;
    assert_eq!(rt;
        again,
        [
            (1, 529, 0),
            (6, 0, 0),
            (6, 0, 0),
            (8, 1, 0),
            (20, 0, 0),
            (18, 0, 0)
        ]
    );
    Ok(())
}

/// The reply to a call that gives a file a size.
fn sizes(mount: &mut Mount, id: u64, size: u64) -> Result<(u8, u64, u64), AllocError> {
    let call = Call::SetSize { id, size };
    replies(mount, 5, call)
}

/// The size that is read of a node, or the largest number where none is.
fn size_of(mount: &mut Mount, id: u64) -> Result<u64, AllocError> {
    let _ = asks_of(mount, 1, id)?;
    Ok(match mount.space.history().last() {
        Some(entry) => size_in(&entry.reply),
        None => u64::MAX,
    })
}

/// The size in a reply, or the largest number.
fn size_in(reply: &Reply) -> u64 {
    match reply {
        Reply::Info { info } => info.size,
        _ => u64::MAX,
    }
}

/// One thing that is done with a volume whose first file is the node 529.
#[derive(Clone, Copy)]
enum Step {
    /// A file with a name of one letter is made in the root.
    Make(u8),
    /// The file 529 is given a size.
    Resize(u64),
    /// The size of the file 529 is read.
    Size,
    /// What is open leaves the log: the used blocks.
    Drain,
}

/// What came of a step: the reply to a call, and of a number 0, that number and 0.
fn comes_of(alloc: Global, mount: &mut Mount, step: Step) -> Result<(u8, u64, u64), AllocError> {
    match step {
        Step::Make(name) => asks(alloc, mount, 514, name, MakeKind::File),
        Step::Resize(size) => sizes(mount, 529, size),
        Step::Size => Ok((0, size_of(mount, 529)?, 0)),
        Step::Drain => Ok((0, drains(mount), 0)),
    }
}

/// How many of the steps come to what is said, one after another, before the first that doesn't.
fn come_to(
    alloc: Global,
    mount: &mut Mount,
    table: &[(Step, (u8, u64, u64))],
) -> Result<usize, AllocError> {
    for (i, row) in table.iter().enumerate() {
        if comes_of(alloc, mount, row.0)? != row.1 {
            return Ok(i);
        }
    }
    Ok(table.len())
}

#[test]
fn a_file_grows_and_the_blocks_of_what_is_cut_serve_again(rt: HostRuntime) -> Result<(), Fail> {
    let alloc = rt.alloc();
    let table: [(Step, (u8, u64, u64)); 12] = [
        (Step::Make(b'a'), (1, 529, 0)),
        // 5,000 bytes have five blocks, those behind the inode: with it six are used beside the 529 of the new volume.
        (Step::Resize(5000), (6, 0, 0)),
        (Step::Size, (0, 5000, 0)),
        (Step::Drain, (0, 535, 0)),
        // Two of them hold 1,025 bytes, and the others wait for the group to leave the log.
        (Step::Resize(1025), (6, 0, 0)),
        (Step::Size, (0, 1025, 0)),
        (Step::Make(b'b'), (1, 535, 0)),
        (Step::Drain, (0, 533, 0)),
        (Step::Make(b'c'), (1, 532, 0)),
        (Step::Resize(0), (6, 0, 0)),
        (Step::Size, (0, 0, 0)),
        // Three inodes, and a page of the index of sizes for the files of one size.
        (Step::Drain, (0, 533, 0)),
    ];
    let mut mount = new_mount(alloc, 4096, 512)?;
    let right = come_to(alloc, &mut mount, &table)?;
    assert_eq!(rt; right, 12);
    Ok(())
}

#[test]
fn a_size_is_put_off_or_turned_away_for_want_of_space(rt: HostRuntime) -> Result<(), Fail> {
    let alloc = rt.alloc();
    let table: [(Step, (u8, u64, u64)); 11] = [
        (Step::Make(b'a'), (1, 529, 0)),
        // Three blocks are free, and 5,000 bytes want five; as an array has four, eight count. What the log holds: 28 for each of two rows in
        // the indices of sizes and of stamps, 1 + 3 * 4 blocks of arrays, 1 of the bitmap, and 8. So 112 + 13 + 1 + 8 = 134, and with the
        // eight 142.
        (Step::Resize(5000), (5, 0, 0)),
        (Step::Drain, (0, 530, 0)),
        (Step::Resize(5000), (3, 3, 142)),
        (Step::Size, (0, 0, 0)),
        // 3,000 bytes take all three; once they are given back they wait for the group to leave the log.
        (Step::Resize(3000), (6, 0, 0)),
        (Step::Resize(0), (6, 0, 0)),
        (Step::Resize(3000), (5, 0, 0)),
        (Step::Drain, (0, 530, 0)),
        (Step::Resize(3000), (6, 0, 0)),
        (Step::Drain, (0, 533, 0)),
    ];
    let mut mount = new_mount(alloc, 533, 512)?;
    let right = come_to(alloc, &mut mount, &table)?;
    assert_eq!(rt; right, 11);
    Ok(())
}

/// Notes a call of session 2 that is done, for which it is promised room first.
fn notes_done(space: &mut Space, call: Call) -> Result<(), AllocError>
    ensures sup { space.new.view.sup ≡ space.old.view.sup }
{
    space.unpromise(2);
    space.promise(2)?;
    space.note(2, 9, 1000, call, Reply::Done, 0);
    Ok(())
}

/// The replies to a file that is made, and to sizes that it, a directory and no node at all don't get.
fn refuses_sizes(alloc: Global, mount: &mut Mount) -> Result<[(u8, u64, u64); 4], AllocError> {
    Ok([
        asks(alloc, mount, 514, b'a', MakeKind::File)?,
        sizes(mount, 529, 1073741825)?,
        sizes(mount, 514, 1)?,
        sizes(mount, 4000, 1)?,
    ])
}

/// The replies to a size while a file is held, and behind that, and the size that it has then.
fn sizes_held(alloc: Global, mount: &mut Mount) -> Result<[(u8, u64, u64); 3], AllocError> {
    notes_done(&mut mount.space, hold_of(529, 0))?;
    let held = sizes(mount, 529, 1000)?;
    notes_done(&mut mount.space, release_of(alloc, 529))?;
    let free = sizes(mount, 529, 1000)?;
    Ok([held, free, (0, size_of(mount, 529)?, 0)])
}

#[test]
fn a_size_is_refused_where_it_is_too_big_or_the_file_is_held(rt: HostRuntime) -> Result<(), Fail> {
    let alloc = rt.alloc();
    let mut mount = new_mount(alloc, 4096, 512)?;
    let refused = refuses_sizes(alloc, &mut mount)?;
    assert_eq!(rt; refused, [(1, 529, 0), (22, 0, 0), (23, 0, 0), (11, 0, 0)]);
    let held = sizes_held(alloc, &mut mount)?;
    assert_eq!(rt; held, [(24, 2, 0), (6, 0, 0), (0, 1000, 0)]);
    Ok(())
}

/// The reply to one of the calls that read attributes or indices.
fn reads(alloc: Global, mount: &mut Mount, which: u8) -> Result<(u8, u64, u64), AllocError> {
    let call = read_call(alloc, which)?;
    replies(mount, 3, call)
}

/// The reply to a file that is made, and those to each of the first eight of these calls.
fn makes_and_reads(alloc: Global, mount: &mut Mount) -> Result<[(u8, u64, u64); 9], AllocError> {
    let made = asks(alloc, mount, 514, b'a', MakeKind::File)?;
    let mut told = [made; 9];
    for which in 0..8u8 {
        told[which as usize + 1] = reads(alloc, mount, which)?;
    }
    Ok(told)
}

#[test]
fn attributes_and_indices_are_read(rt: HostRuntime) -> Result<(), Fail> {
    let alloc = rt.alloc();
    let mut mount = mount_with_attribute(alloc)?;
    let wanted: [(u8, u64, u64); 9] = [
        (1, 529, 0),
        (13, 1, 0),
        (12, 0x43535452, 4),
        (14, 0, 0),
        (11, 0, 0),
        (15, 3, 0),
        (16, 1, 529),
        (17, 0, 0),
        (18, 0, 0),
    ];
    assert_eq!(rt; makes_and_reads(alloc, &mut mount)?, wanted);
    Ok(())
}

/// A call that removes the attribute of a name of one letter.
fn dropping_call(alloc: Global, id: u64, name: &[u8]) -> Result<Call, AllocError>
    ensures serves { IfOk result (λ call. is_served call ≡ true) }
    ensures stays { IfOk result (λ call. keeps_holds call ≡ true) }
    ensures ranges { IfOk result KeepsRanges }
    ensures other { IfOk result (λ call. call ≢ Sync) }
{
    let name = Bytes::from_slice(alloc, name)?;
    Ok(Call::AttrRemove { id, name })
}

/// The reply to a call that removes the attribute of a name of one letter.
fn drops(
    alloc: Global,
    mount: &mut Mount,
    id: u64,
    name: &[u8],
) -> Result<(u8, u64, u64), AllocError> {
    let call = dropping_call(alloc, id, name)?;
    replies(mount, 5, call)
}

/// The replies around an attribute that is removed.
fn drops_and_reads(alloc: Global, mount: &mut Mount) -> Result<[(u8, u64, u64); 7], AllocError> {
    Ok([
        drops(alloc, mount, 4000, b"k")?,
        drops(alloc, mount, 514, b"l")?,
        reads(alloc, mount, 0)?,
        drops(alloc, mount, 514, b"k")?,
        reads(alloc, mount, 0)?,
        reads(alloc, mount, 1)?,
        drops(alloc, mount, 514, b"k")?,
    ])
}

#[test]
fn an_attribute_that_is_removed_is_gone(rt: HostRuntime) -> Result<(), Fail> {
    let alloc = rt.alloc();
    let mut mount = mount_with_attribute(alloc)?;
    let told = drops_and_reads(alloc, &mut mount)?;
    assert_eq!(rt;
        told,
        [
            (11, 0, 0),
            (14, 0, 0),
            (13, 1, 0),
            (6, 0, 0),
            (13, 0, 0),
            (14, 0, 0),
            (14, 0, 0)
        ]
    );
    Ok(())
}

/// A call that writes an attribute of so many bytes.
fn writing_call(alloc: Global, id: u64, name: &[u8], length: usize) -> Result<Call, AllocError>
    requires few { length ≤ 65537 }
    ensures serves { IfOk result (λ call. is_served call ≡ true) }
    ensures stays { IfOk result (λ call. keeps_holds call ≡ true) }
    ensures ranges { IfOk result KeepsRanges }
    ensures other { IfOk result (λ call. call ≢ Sync) }
{
    let name = Bytes::from_slice(alloc, name)?;
    let bytes = Bytes::new(vec![in alloc; 7u8; length]?);
    Ok(Call::AttrWrite {
        id,
        name,
        kind: 0x4c4f4e47,
        bytes,
    })
}

/// The reply to a call that writes an attribute of so many bytes.
fn writes(
    alloc: Global,
    mount: &mut Mount,
    id: u64,
    name: &[u8],
    length: usize,
) -> Result<(u8, u64, u64), AllocError>
    requires few { length ≤ 65537 }
{
    let call = writing_call(alloc, id, name, length)?;
    replies(mount, 6, call)
}

/// Writes the attribute `k` of the root with so many bytes, reads it, and lets the group leave the log: the reply, what is read, and the used
/// blocks.
fn writes_and_drains(
    alloc: Global,
    mount: &mut Mount,
    length: usize,
) -> Result<[(u8, u64, u64); 3], AllocError>
    requires few { length ≤ 65537 }
{
    let reply = writes(alloc, mount, 514, b"k", length)?;
    let read = reads(alloc, mount, 1)?;
    Ok([reply, read, (0, drains(mount), 0)])
}

/// How many of these lengths are written and read, and leave so many used blocks, one after another, before the first that doesn't.
fn are_written(
    alloc: Global,
    mount: &mut Mount,
    table: &[(usize, u64)],
) -> Result<usize, AllocError> {
    for (i, row) in table.iter().enumerate() {
        let (length, used) = *row;
        if length > 65536 {
            return Ok(i);
        }
        let wanted = [(6, 0, 0), (12, 0x4c4f4e47, length as u64), (0, used, 0)];
        if writes_and_drains(alloc, mount, length)? != wanted {
            return Ok(i);
        }
    }
    Ok(table.len())
}

/// How many lengths are written so; and the replies where there is no node, where the name is bad, and where there are too many bytes.
fn exchanges(
    alloc: Global,
    mount: &mut Mount,
    table: &[(usize, u64)],
) -> Result<[(u8, u64, u64); 4], AllocError> {
    let written = are_written(alloc, mount, table)? as u64;
    Ok([
        (0, written, 0),
        writes(alloc, mount, 4000, b"k", 1)?,
        writes(alloc, mount, 514, b"", 1)?,
        writes(alloc, mount, 514, b"k", 65537)?,
    ])
}

#[test]
fn an_attribute_is_written_read_and_exchanged(rt: HostRuntime) -> Result<(), Fail> {
    let alloc = rt.alloc();
    // In small data it takes no block. With 3,000 bytes it has an inode and three blocks, and the attribute directory an inode and two.
    let table: [(usize, u64); 3] = [(5, 529), (3000, 536), (4, 529)];
    let told = {
        let mut mount = new_mount(alloc, 4096, 512)?;
        exchanges(alloc, &mut mount, &table)?
    };
    assert_eq!(rt; told, [(0, 3, 0), (11, 0, 0), (25, 0, 0), (22, 0, 0)]);
    Ok(())
}

/// A call that renames a node.
fn renaming_call(
    alloc: Global,
    dir: u64,
    name: &[u8],
    to_dir: u64,
    to_name: &[u8],
) -> Result<Call, AllocError>
    ensures serves { IfOk result (λ call. is_served call ≡ true) }
    ensures stays { IfOk result (λ call. keeps_holds call ≡ true) }
    ensures ranges { IfOk result KeepsRanges }
    ensures other { IfOk result (λ call. call ≢ Sync) }
{
    let name = Bytes::from_slice(alloc, name)?;
    let to_name = Bytes::from_slice(alloc, to_name)?;
    Ok(Call::Rename {
        dir,
        name,
        to_dir,
        to_name,
    })
}

/// The reply to a call that renames a node.
fn renames(
    alloc: Global,
    mount: &mut Mount,
    dir: u64,
    name: &[u8],
    to_dir: u64,
    to_name: &[u8],
) -> Result<(u8, u64, u64), AllocError> {
    let call = renaming_call(alloc, dir, name, to_dir, to_name)?;
    replies(mount, 8, call)
}

/// What is read of the file and of both directories after a rename: the file's parent, how many names the directories have, and the file that the
/// index of names lists under `a`.
fn places(alloc: Global, mount: &mut Mount) -> Result<[(u8, u64, u64); 4], AllocError> {
    let file = asks_of(mount, 1, 529)?;
    let root = asks_of(mount, 2, 514)?;
    let dir = asks_of(mount, 2, 530)?;
    let listed = reads(alloc, mount, 5)?;
    Ok([file, root, dir, listed])
}

/// Makes the file `a` and the directory `d` in the root: 529 and 530.
fn makes_two(alloc: Global, mount: &mut Mount) -> Result<bool, AllocError> {
    let file = asks(alloc, mount, 514, b'a', MakeKind::File)?;
    let dir = asks(alloc, mount, 514, b'd', MakeKind::Dir)?;
    Ok(file == (1, 529, 0) && dir == (1, 530, 0))
}

/// A mount of a new volume with these two.
fn mount_of_two(alloc: Global) -> Result<Mount, Fail> {
    let mut mount = new_mount(alloc, 4096, 512)?;
    if !makes_two(alloc, &mut mount)? {
        return Err(Fail::from("no nodes"));
    }
    Ok(mount)
}

/// A directory and a name of one letter in it.
type Place = (u64, u8);

/// A renaming, and what is read then: the file's parent, the names in the root and in the other directory, and what is listed under `a`.
type Moved = (Place, Place, u64, u64, u64, (u64, u64));

/// Whether a renaming is done, and leaves what is said.
fn moves_as_told(alloc: Global, mount: &mut Mount, row: Moved) -> Result<bool, AllocError> {
    let (from, to, parent, root, dir, (rows, first)) = row;
    let reply = renames(alloc, mount, from.0, &[from.1], to.0, &[to.1])?;
    let wanted = [
        (7, 0o755, parent),
        (8, root, 0),
        (8, dir, 0),
        (16, rows, first),
    ];
    Ok(reply == (6, 0, 0) && places(alloc, mount)? == wanted)
}

/// How many renamings leave what is said, one after another, before the first that doesn't.
fn move_as_told(alloc: Global, mount: &mut Mount, table: &[Moved]) -> Result<usize, AllocError> {
    for (i, row) in table.iter().enumerate() {
        if !moves_as_told(alloc, mount, *row)? {
            return Ok(i);
        }
    }
    Ok(table.len())
}

#[test]
fn a_node_is_renamed_in_its_directory_and_into_another(rt: HostRuntime) -> Result<(), Fail> {
    let alloc = rt.alloc();
    // From, to, the parent then, the names in the root and in the other directory, and what is listed under `a`.
    let table: [Moved; 4] = [
        ((514, b'a'), (530, b'b'), 530, 1, 1, (0, 0)),
        ((530, b'b'), (530, b'a'), 530, 1, 1, (1, 529)),
        ((530, b'a'), (530, b'a'), 530, 1, 1, (1, 529)),
        ((530, b'a'), (514, b'a'), 514, 2, 0, (1, 529)),
    ];
    let mut mount = mount_of_two(alloc)?;
    let right = move_as_told(alloc, &mut mount, &table)?;
    assert_eq!(rt; right, 4);
    Ok(())
}

/// A mount of a new volume with these two, and the file `b` in the directory.
fn mount_of_three(alloc: Global) -> Result<Mount, Fail> {
    let mut mount = mount_of_two(alloc)?;
    if asks(alloc, &mut mount, 530, b'b', MakeKind::File)? != (1, 533, 0) {
        return Err(Fail::from("no file"));
    }
    Ok(mount)
}

/// How many renamings have the reply that is said, one after another, before the first that hasn't.
fn are_answered(
    alloc: Global,
    mount: &mut Mount,
    table: &[(Place, Place, u8)],
) -> Result<usize, AllocError> {
    for (i, row) in table.iter().enumerate() {
        let (from, to, reply) = *row;
        if renames(alloc, mount, from.0, &[from.1], to.0, &[to.1])? != (reply, 0, 0) {
            return Ok(i);
        }
    }
    Ok(table.len())
}

/// How many renamings are answered so; what is read of the places then; and how many nodes there are.
fn renames_each(
    alloc: Global,
    mount: &mut Mount,
    table: &[(Place, Place, u8)],
) -> Result<[(u8, u64, u64); 6], AllocError> {
    let answered = are_answered(alloc, mount, table)? as u64;
    let [file, root, dir, listed] = places(alloc, mount)?;
    let nodes = mount.space.nodes();
    Ok([(0, answered, 0), file, root, dir, listed, (0, nodes, 0)])
}

#[test]
fn a_node_takes_the_place_of_another_or_its_name_is_refused(rt: HostRuntime) -> Result<(), Fail> {
    let alloc = rt.alloc();
    // No such name, no directory to leave or to come to, a bad name, a directory into itself, one over a file and the other way round, and
    // at last a file over a file.
    let table: [(Place, Place, u8); 8] = [
        ((514, b'x'), (514, b'y'), 11),
        ((529, b'x'), (514, b'y'), 21),
        ((514, b'a'), (529, b'y'), 21),
        ((514, b'a'), (514, b'/'), 25),
        ((514, b'd'), (530, b'e'), 28),
        ((514, b'd'), (514, b'a'), 2),
        ((514, b'a'), (514, b'd'), 2),
        ((530, b'b'), (514, b'a'), 6),
    ];
    let mut mount = mount_of_three(alloc)?;
    let told = renames_each(alloc, &mut mount, &table)?;
    assert_eq!(rt;
        told,
        [
            (0, 8, 0),
            (11, 0, 0),
            (8, 2, 0),
            (8, 0, 0),
            (16, 1, 533),
            // The root, the directory and one file: three were made, and one has gone.
            (0, 3, 0)
        ]
    );
    Ok(())
}

/// Renames the file in the root, reads its attribute, and lets the group leave the log: the reply, what is read, and the used blocks.
fn renames_and_drains(
    alloc: Global,
    mount: &mut Mount,
    name: &[u8],
    to_name: &[u8],
) -> Result<[(u8, u64, u64); 3], AllocError> {
    let reply = renames(alloc, mount, 514, name, 514, to_name)?;
    let read = reads(alloc, mount, 9)?;
    Ok([reply, read, (0, drains(mount), 0)])
}

/// Writes an attribute of 600 bytes, gives its file a long name, and then a short one: of each the reply, what is read, and the used blocks.
fn moves_out(alloc: Global, mount: &mut Mount) -> Result<[(u8, u64, u64); 9], AllocError> {
    let long = [b'n'; 255];
    let reply = writes(alloc, mount, 529, b"k", 600)?;
    let read = reads(alloc, mount, 9)?;
    let used = drains(mount);
    let far = renames_and_drains(alloc, mount, b"a", &long)?;
    let near = renames_and_drains(alloc, mount, &long, b"a")?;
    Ok([
        reply,
        read,
        (0, used, 0),
        far[0],
        far[1],
        far[2],
        near[0],
        near[1],
        near[2],
    ])
}

#[test]
fn an_attribute_moves_out_of_small_data_for_a_longer_name(rt: HostRuntime) -> Result<(), Fail> {
    let alloc = rt.alloc();
    let mut mount = mount_of_two(alloc)?;
    let told = moves_out(alloc, &mut mount)?;
    let done = (6, 0, 0);
    let read = (12, 0x4c4f4e47, 600);
    // Of 792 bytes the attribute takes 613, and a name 13 more than its bytes. With the long name the attribute has an inode and a block, and the
    // attribute directory an inode and two.
    let near = (0, 533, 0);
    let far = (0, 538, 0);
    assert_eq!(rt; told, [done, read, near, done, read, far, done, read, far]);
    Ok(())
}

/// A call that makes an index.
fn indexing_call(alloc: Global, name: &[u8], kind: KeyKind) -> Result<Call, AllocError>
    ensures serves { IfOk result (λ call. is_served call ≡ true) }
    ensures stays { IfOk result (λ call. keeps_holds call ≡ true) }
    ensures ranges { IfOk result KeepsRanges }
    ensures other { IfOk result (λ call. call ≢ Sync) }
{
    let name = Bytes::from_slice(alloc, name)?;
    Ok(Call::IndexMake { name, kind })
}

/// The reply to a call that makes an index.
fn indexes(
    alloc: Global,
    mount: &mut Mount,
    name: &[u8],
    kind: KeyKind,
) -> Result<(u8, u64, u64), AllocError> {
    let call = indexing_call(alloc, name, kind)?;
    replies(mount, 7, call)
}

/// The replies to an index that is made over three nodes with an attribute. Five bytes are no number, so that the third node has no row.
fn makes_index_of_attribute(
    alloc: Global,
    mount: &mut Mount,
) -> Result<[(u8, u64, u64); 9], AllocError> {
    Ok([
        asks(alloc, mount, 514, b'a', MakeKind::File)?,
        asks(alloc, mount, 514, b'b', MakeKind::File)?,
        writes(alloc, mount, 514, b"k", 4)?,
        writes(alloc, mount, 529, b"k", 4)?,
        writes(alloc, mount, 530, b"k", 5)?,
        reads(alloc, mount, 8)?,
        indexes(alloc, mount, b"k", KeyKind::I32)?,
        reads(alloc, mount, 4)?,
        reads(alloc, mount, 8)?,
    ])
}

/// The replies to calls after it, which keep it, until it is removed.
fn keeps_index_of_attribute(
    alloc: Global,
    mount: &mut Mount,
) -> Result<[(u8, u64, u64); 6], AllocError> {
    Ok([
        drops(alloc, mount, 514, b"k")?,
        reads(alloc, mount, 8)?,
        writes(alloc, mount, 530, b"k", 4)?,
        reads(alloc, mount, 8)?,
        takes(alloc, mount, 0, b"k", true)?,
        reads(alloc, mount, 8)?,
    ])
}

#[test]
fn an_index_lists_the_nodes_that_have_its_attribute(rt: HostRuntime) -> Result<(), Fail> {
    let alloc = rt.alloc();
    let mut mount = new_mount(alloc, 4096, 512)?;
    let done = (6, 0, 0);
    let made = makes_index_of_attribute(alloc, &mut mount)?;
    assert_eq!(rt;
        made,
        [
            (1, 529, 0),
            (1, 530, 0),
            done,
            done,
            done,
            (18, 0, 0),
            done,
            (15, 4, 0),
            (16, 2, 514)
        ]
    );
    let kept = keeps_index_of_attribute(alloc, &mut mount)?;
    assert_eq!(rt;
        kept,
        [done, (16, 1, 529), done, (16, 2, 529), done, (18, 0, 0)]
    );
    Ok(())
}

/// Makes indices without rows, their names the letters from `A`, each in a group of its own, and tells whether all were made.
fn make_letters(alloc: Global, mount: &mut Mount, letters: u8) -> Result<bool, AllocError>
    requires few { letters ≤ 64 }
{
    for i in 0..letters {
        let reply = indexes(alloc, mount, &[b'A' + i], KeyKind::Text)?;
        if reply.0 != 6 || drains(mount) == 0 {
            return Ok(false);
        }
    }
    Ok(true)
}

/// Takes the index directory out of the superblock of a volume.
fn without_indices(bytes: &mut [u8]) -> bool {
    if bytes.len() < 1024 {
        return false;
    }
    for i in 636..644 {
        bytes[i] = 0;
    }
    true
}

/// The replies to an index that is there, to two of floating-point numbers, and to one with a bad name; and once 29 more are made how many there
/// are, and the replies to one that is there and to a new one. Nothing is told where they aren't made.
fn refuses_indices(alloc: Global, mount: &mut Mount) -> Result<[(u8, u64, u64); 7], AllocError> {
    let there = indexes(alloc, mount, b"name", KeyKind::F32)?;
    let float = indexes(alloc, mount, b"k", KeyKind::F32)?;
    let double = indexes(alloc, mount, b"k", KeyKind::F64)?;
    let unnamed = indexes(alloc, mount, b"", KeyKind::I32)?;
    if !make_letters(alloc, mount, 29)? {
        return Ok([(9, 0, 0); 7]);
    }
    let count = reads(alloc, mount, 4)?;
    let letter = indexes(alloc, mount, b"A", KeyKind::I32)?;
    let more = indexes(alloc, mount, b"k", KeyKind::I32)?;
    Ok([there, float, double, unnamed, count, letter, more])
}

#[test]
fn an_index_is_refused(rt: HostRuntime) -> Result<(), Fail> {
    let alloc = rt.alloc();
    let mut mount = new_mount(alloc, 4096, 512)?;
    let told = refuses_indices(alloc, &mut mount)?;
    assert_eq!(rt;
        told,
        [
            (2, 0, 0),
            (26, 0, 0),
            (26, 0, 0),
            (25, 0, 0),
            (15, 32, 0),
            (2, 0, 0),
            (27, 0, 0)
        ]
    );
    Ok(())
}

/// A new volume without an index directory, mounted.
fn mount_without_indices(alloc: Global) -> Result<Mount, Fail> {
    let Some(mut bytes) = new_volume(alloc, 4096, 512)? else {
        return Err(Fail::from("no volume"));
    };
    if !without_indices(&mut bytes) {
        return Err(Fail::from("no superblock"));
    }
    match mounts(alloc, bytes, 4096)? {
        Some(mount) => Ok(mount),
        None => Err(Fail::from("no mount")),
    }
}

#[test]
fn no_index_is_made_where_there_is_no_index_directory(rt: HostRuntime) -> Result<(), Fail> {
    let alloc = rt.alloc();
    let mut mount = mount_without_indices(alloc)?;
    let number = indexes(alloc, &mut mount, b"k", KeyKind::I32)?;
    let float = indexes(alloc, &mut mount, b"k", KeyKind::F32)?;
    assert_eq!(rt; [number, float], [(18, 0, 0), (18, 0, 0)]);
    Ok(())
}

/// Notes a call of a session in the holds, for which there is room.
fn holds_since(holds: &mut Vec<Hold>, session: u32, call: Call, reply: Reply)
    requires { length holds.old.items < vec_capacity holds.old }
    ensures few { length holds.new.items ≤ length holds.old.items + 1 }
    ensures room { vec_capacity holds.old ≤ vec_capacity holds.new }
{
    let entry = Entry {
        session,
        tag: 0,
        stamp: 0,
        call,
        reply,
    };
    note_holds(holds, &entry);
}

/// A Hold for reading.
fn hold_of(id: u64, at: u64) -> Call {
    Call::Hold {
        id,
        at,
        length: 4,
        write: false,
    }
}

/// A Release that says nothing of the bytes.
fn release_of(alloc: Global, id: u64) -> Call {
    Call::Release {
        id,
        bytes: Bytes::new(Vec::new(alloc)),
        whole: false,
        before: 0,
        after: 0,
    }
}

/// The session and the place of the hold at an index, or zeros.
fn held_at(holds: &[Hold], i: usize) -> (u32, u64) {
    match holds.get(i) {
        Some(hold) => (hold.session, hold.at),
        None => (0, 0),
    }
}

#[test]
fn holds_are_those_that_done_entries_leave(rt: HostRuntime) -> Result<(), Fail> {
    let alloc = rt.alloc();
    let (counts, held) = {
        let mut holds = Vec::with_capacity(alloc, 8)?;
        holds_since(&mut holds, 1, hold_of(600, 0), Reply::Done);
        holds_since(&mut holds, 2, hold_of(600, 8), Reply::Done);
        holds_since(&mut holds, 1, hold_of(600, 16), Reply::Done);
        holds_since(&mut holds, 1, hold_of(601, 24), Reply::NotFound);
        let all = holds.len();
        holds_since(&mut holds, 1, release_of(alloc, 600), Reply::Done);
        let two = holds.len();
        let first = held_at(&holds, 0);
        let second = held_at(&holds, 1);
        holds_since(&mut holds, 1, release_of(alloc, 601), Reply::Done);
        let same = holds.len();
        holds_since(&mut holds, 1, release_of(alloc, 600), Reply::Done);
        let last = held_at(&holds, 0);
        ([all, two, same, holds.len()], [first, second, last])
    };
    assert_eq!(rt; counts, [3, 2, 2, 1]);
    assert_eq!(rt; held, [(1, 0), (2, 8), (2, 8)]);
    Ok(())
}

/// A piece of a file that is to be held, to be read or written.
#[derive(Clone, Copy)]
struct Piece {
    id: u64,
    at: u64,
    length: u64,
    write: bool,
}

/// A piece of a file.
fn make_piece(id: u64, at: u64, length: u64, write: bool) -> Piece {
    Piece {
        id,
        at,
        length,
        write,
    }
}

/// How many blocks were found, and the first of them.
fn found_in(places: &[u64]) -> (u64, u64) {
    match places.first() {
        Some(place) => (places.len() as u64, *place),
        None => (0, 0),
    }
}

/// The reply to a call of a session that holds a piece of a file, and what blocks were found. The session's promise ends first.
fn takes_hold(
    mount: &mut Mount,
    session: u32,
    piece: Piece,
    places: &mut Vec<u64>,
) -> Result<((u8, u64, u64), (u64, u64)), AllocError>
    requires session { session ≢ 0 }
{
    places.clear();
    mount.space.unpromise(session);
    match mount.space.hold(
        &mut mount.under,
        session,
        6,
        1000,
        piece.id,
        piece.at,
        piece.length,
        piece.write,
        places,
    )? {
        Outcome::Replied => match mount.space.history().last() {
            Some(entry) => Ok((told_by(&entry.reply), found_in(places.as_slice()))),
            None => Ok(((0, 0, 0), (0, 0))),
        },
        Outcome::Drain(_) => Ok(((5, 0, 0), (0, 0))),
    }
}

/// Makes the file `a` of 5,000 bytes in the root, whose inode is block 529, and whose blocks are those behind it.
fn makes_file(alloc: Global, mount: &mut Mount) -> Result<bool, AllocError> {
    let made = asks(alloc, mount, 514, b'a', MakeKind::File)?;
    let sized = sizes(mount, 529, 5000)?;
    Ok(made == (1, 529, 0) && sized == (6, 0, 0))
}

/// A mount of a new volume with this file.
fn mount_of_file(alloc: Global) -> Result<Mount, Fail> {
    let mut mount = new_mount(alloc, 4096, 512)?;
    if !makes_file(alloc, &mut mount)? {
        return Err(Fail::from("no file"));
    }
    Ok(mount)
}

/// A session, a piece that it holds, the reply, and how many blocks have the piece, with the first.
type Held = (u32, Piece, (u8, u64, u64), (u64, u64));

/// How many holds have the reply and the blocks that are said, one after another, before the first that hasn't.
fn are_held(mount: &mut Mount, table: &[Held], places: &mut Vec<u64>) -> Result<usize, AllocError> {
    for (i, row) in table.iter().enumerate() {
        let (session, piece, reply, found) = *row;
        if session == 0 {
            return Ok(i);
        }
        if takes_hold(mount, session, piece, places)? != (reply, found) {
            return Ok(i);
        }
    }
    Ok(table.len())
}

#[test]
fn a_piece_of_a_file_is_held_or_refused(rt: HostRuntime) -> Result<(), Fail> {
    let alloc = rt.alloc();
    // The session, the piece, the reply, and how many blocks have it, with the first.
    let table: [Held; 8] = [
        (1, make_piece(529, 0, 1000, false), (6, 0, 0), (1, 530)),
        (2, make_piece(529, 1000, 100, false), (6, 0, 0), (2, 530)),
        (1, make_piece(529, 1024, 3976, false), (6, 0, 0), (4, 531)),
        (3, make_piece(529, 0, 10, true), (24, 1, 0), (0, 0)),
        (1, make_piece(529, 4990, 11, false), (29, 5000, 0), (0, 0)),
        (1, make_piece(514, 0, 1, false), (23, 0, 0), (0, 0)),
        (1, make_piece(4000, 0, 1, false), (11, 0, 0), (0, 0)),
        (1, make_piece(529, 0, 65537, false), (22, 0, 0), (0, 0)),
    ];
    let mut mount = mount_of_file(alloc)?;
    let mut places = Vec::new(alloc);
    let right = are_held(&mut mount, &table, &mut places)?;
    assert_eq!(rt; right, 8);
    Ok(())
}

/// The replies to a size and a removal of the file with the name `a`.
fn changes_file(alloc: Global, mount: &mut Mount) -> Result<[(u8, u64, u64); 2], AllocError> {
    Ok([
        sizes(mount, 529, 3000)?,
        takes(alloc, mount, 514, b"a", false)?,
    ])
}

/// Holds a piece of the file to be written, changes the file, lets the piece go, and changes it once more: the reply to the hold, how many blocks
/// were found and the first of them, and the replies to the changes.
fn holds_and_changes(
    alloc: Global,
    mount: &mut Mount,
    places: &mut Vec<u64>,
) -> Result<[(u8, u64, u64); 6], AllocError> {
    let (reply, found) = takes_hold(mount, 2, make_piece(529, 1024, 2000, true), places)?;
    let held = changes_file(alloc, mount)?;
    notes_done(&mut mount.space, release_of(alloc, 529))?;
    let free = changes_file(alloc, mount)?;
    Ok([
        reply,
        (0, found.0, found.1),
        held[0],
        held[1],
        free[0],
        free[1],
    ])
}

#[test]
fn a_file_that_is_held_keeps_its_size_and_its_place(rt: HostRuntime) -> Result<(), Fail> {
    let alloc = rt.alloc();
    let mut mount = mount_of_file(alloc)?;
    let mut places = Vec::new(alloc);
    let told = holds_and_changes(alloc, &mut mount, &mut places)?;
    assert_eq!(rt;
        told,
        [
            (6, 0, 0),
            (0, 2, 531),
            (24, 2, 0),
            (24, 2, 0),
            (6, 0, 0),
            (6, 0, 0)
        ]
    );
    Ok(())
}
