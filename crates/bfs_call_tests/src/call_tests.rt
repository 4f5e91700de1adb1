// Nodes are made on the volume that `mk --blocks 4096` makes at 1,000 seconds, whose root is at block 514 and whose first 529 blocks are
// used, and one is given another mode: what the calls that read answer then.
ghost use Rattle.std.specs.Prelude.{◌≡◌, ◌≤◌, length};
ghost use Rattle.bfs_super.specs.Conditions.{IsValid};
ghost use Rattle.bfs_stream.specs.Sizes.{sizes_of};
ghost use Rattle.bfs_stream.specs.Grown.{IsOfVolume};

use bfs_bitmap::Bitmap;
use bfs_calls::{make, set_mode, set_mode_refusal};
use bfs_look::{list, lookup, read_link, stat};
use bfs_stream_pages::MapFault;
use bfs_super::Super;
use bfs_tree::{Bytes, Kind, MakeKind, Reply};
use bfs_txn::{Blocks, Changed, Overlay};
use bfs_volume_fixtures::{Silent, blocks_of, new_image, superblock_of};
use std::alloc::{AllocError, Global};
use std::test::Fail;

const ROOT: u64 = 514;

/// The stamp of the calls: 2,000 seconds.
const STAMP: i64 = 131_072_000;

/// The stamp of the call that sets a mode: 3,000 seconds.
const LATER: i64 = 196_608_000;

/// What is made, and where.
struct Want<'a> {
    dir: u64,
    name: &'a [u8],
    kind: &'a MakeKind,
    mode: u32,
}

/// Makes a node, and answers its id; 0 where that is refused.
fn made(
    alloc: Global,
    sup: &Super,
    bitmap: &mut Bitmap,
    edits: &mut Overlay<'_, Silent>,
    want: Want<'_>,
) -> Result<u64, MapFault>
    requires valid { IsValid sup.now }
    requires size { edits.old.under.now.blocks.block_size ≡ sup.now.block_size }
    requires volume { IsOfVolume (sizes_of sup.now) bitmap.old }
    requires mode { want.mode ≤ 4095 }
    ensures size { edits.new.under.now.blocks.block_size ≡ sup.now.block_size }
    ensures volume { IsOfVolume (sizes_of sup.now) bitmap.new }
{
    let Want {
        dir,
        name,
        kind,
        mode,
    } = want;
    match make(alloc, sup, bitmap, edits, dir, name, kind, mode, STAMP) {
        Ok(Reply::Made { id }) => Ok(id),
        Ok(_) => Ok(0),
        Err(fault) => Err(fault),
    }
}

/// A file of this name, readable by its owner.
fn file_in<'a>(dir: u64, name: &'a [u8], kind: &'a MakeKind) -> Want<'a>
    ensures { result.mode ≤ 4095 }
{
    Want {
        dir,
        name,
        kind,
        mode: 0o600,
    }
}

/// Makes a file `a`, a directory `d` with a file `b` in it, and links `l` and `long`, and answers their ids. A directory takes two blocks
/// for its tree, and the long link one for its target. The second file has the size and the stamp of the first, so that the indices of
/// both take a page for their two ids.
fn makes(
    alloc: Global,
    sup: &Super,
    bitmap: &mut Bitmap,
    edits: &mut Overlay<'_, Silent>,
    link: &MakeKind,
    long: &MakeKind,
) -> Result<[u64; 5], MapFault>
    requires valid { IsValid sup.now }
    requires size { edits.old.under.now.blocks.block_size ≡ sup.now.block_size }
    requires volume { IsOfVolume (sizes_of sup.now) bitmap.old }
    ensures size { edits.new.under.now.blocks.block_size ≡ sup.now.block_size }
    ensures volume { IsOfVolume (sizes_of sup.now) bitmap.new }
{
    let file = &MakeKind::File;
    let dir = &MakeKind::Dir;
    let a = made(alloc, sup, bitmap, edits, file_in(ROOT, b"a", file))?;
    let d = made(alloc, sup, bitmap, edits, file_in(ROOT, b"d", dir))?;
    let b = made(alloc, sup, bitmap, edits, file_in(d, b"b", file))?;
    let l = made(alloc, sup, bitmap, edits, file_in(ROOT, b"l", link))?;
    let far = made(alloc, sup, bitmap, edits, file_in(ROOT, b"long", long))?;
    Ok([a, d, b, l, far])
}

/// Are the names of a directory these, each followed by a space?
fn lists(
    alloc: Global,
    sup: &Super,
    bitmap: &mut Bitmap,
    edits: &mut Overlay<'_, Silent>,
    dir: u64,
    want: &[u8],
) -> Result<bool, MapFault>
    requires valid { IsValid sup.now }
    requires size { edits.old.under.now.blocks.block_size ≡ sup.now.block_size }
    ensures size { edits.new.under.now.blocks.block_size ≡ sup.now.block_size }
    ensures bitmap { bitmap.new ≡ bitmap.old }
{
    let reply = list(alloc, sup, bitmap, edits, dir)?;
    Ok(is_list(&reply, want))
}

/// Is it the list of these names, each followed by a space?
fn is_list(reply: &Reply, want: &[u8]) -> bool {
    match reply {
        Reply::Names { names } => are_names(names.as_slice(), want),
        _ => false,
    }
}

/// Are they these names, each followed by a space?
fn are_names(names: &[Bytes], want: &[u8]) -> bool {
    let mut rest = want;
    for name in names {
        let name = name.as_slice();
        if !rest.starts_with(name) {
            return false;
        }
        rest = &rest[name.len()..];
        if rest.first() != Some(&b' ') {
            return false;
        }
        rest = &rest[1..];
    }
    rest.is_empty()
}

/// Is this name in the root's directory, with this id and kind?
fn finds(
    alloc: Global,
    sup: &Super,
    bitmap: &mut Bitmap,
    edits: &mut Overlay<'_, Silent>,
    name: &[u8],
    want: (u64, Kind),
) -> Result<bool, MapFault>
    requires valid { IsValid sup.now }
    requires size { edits.old.under.now.blocks.block_size ≡ sup.now.block_size }
    ensures size { edits.new.under.now.blocks.block_size ≡ sup.now.block_size }
    ensures bitmap { bitmap.new ≡ bitmap.old }
{
    match lookup(alloc, sup, bitmap, edits, ROOT, name) {
        Ok(Reply::Found { id, kind }) => Ok((id, kind) == want),
        Ok(_) => Ok(false),
        Err(fault) => Err(fault),
    }
}

/// Has a node this directory and size, and the stamp of the calls?
fn has_record(
    alloc: Global,
    sup: &Super,
    bitmap: &mut Bitmap,
    edits: &mut Overlay<'_, Silent>,
    id: u64,
    want: (u64, u64),
) -> Result<bool, MapFault>
    requires valid { IsValid sup.now }
    requires size { edits.old.under.now.blocks.block_size ≡ sup.now.block_size }
    ensures size { edits.new.under.now.blocks.block_size ≡ sup.now.block_size }
    ensures bitmap { bitmap.new ≡ bitmap.old }
{
    let reply = stat(alloc, sup, bitmap, edits, id)?;
    Ok(is_record(&reply, want))
}

/// Is it a record with this directory and size, and the stamp of the calls?
fn is_record(reply: &Reply, want: (u64, u64)) -> bool {
    match reply {
        Reply::Info { info } => {
            (info.parent, info.size) == want
                && info.mode == 0o600
                && info.created == STAMP
                && info.modified == STAMP
        }
        _ => false,
    }
}

/// What is answered once the five nodes are there: the lists of both directories, a look-up of each kind, and records.
fn answers(
    alloc: Global,
    sup: &Super,
    bitmap: &mut Bitmap,
    edits: &mut Overlay<'_, Silent>,
) -> Result<[bool; 6], MapFault>
    requires valid { IsValid sup.now }
    requires size { edits.old.under.now.blocks.block_size ≡ sup.now.block_size }
    ensures size { edits.new.under.now.blocks.block_size ≡ sup.now.block_size }
    ensures bitmap { bitmap.new ≡ bitmap.old }
{
    Ok([
        lists(alloc, sup, bitmap, edits, ROOT, b"a d l long ")?,
        lists(alloc, sup, bitmap, edits, 530, b"b ")?,
        finds(alloc, sup, bitmap, edits, b"d", (530, Kind::Dir))?,
        finds(alloc, sup, bitmap, edits, b"l", (536, Kind::Link))?,
        has_record(alloc, sup, bitmap, edits, 533, (530, 0))?,
        has_record(alloc, sup, bitmap, edits, 537, (ROOT, 200))?,
    ])
}

/// Which refusal a reply is: 1 where the directory isn't there, 2 where it is none, 3 where the name is bad, 4 where it is taken, 0 where it is none of these.
fn number_of(reply: &Reply) -> u32 {
    match reply {
        Reply::NotFound => 1,
        Reply::NotDir => 2,
        Reply::NameBad => 3,
        Reply::Exists => 4,
        _ => 0,
    }
}

/// Which refusal a call has that makes a file.
fn refusal(
    alloc: Global,
    sup: &Super,
    bitmap: &mut Bitmap,
    edits: &mut Overlay<'_, Silent>,
    dir: u64,
    name: &[u8],
) -> Result<u32, MapFault>
    requires valid { IsValid sup.now }
    requires size { edits.old.under.now.blocks.block_size ≡ sup.now.block_size }
    requires volume { IsOfVolume (sizes_of sup.now) bitmap.old }
    ensures size { edits.new.under.now.blocks.block_size ≡ sup.now.block_size }
    ensures volume { IsOfVolume (sizes_of sup.now) bitmap.new }
{
    let kind = &MakeKind::File;
    match make(alloc, sup, bitmap, edits, dir, name, kind, 0o644, STAMP) {
        Ok(reply) => Ok(number_of(&reply)),
        Err(fault) => Err(fault),
    }
}

/// What makes a node is refused where there is no directory, under a file, by a bad name, and where the name is taken.
fn refusals(
    alloc: Global,
    sup: &Super,
    bitmap: &mut Bitmap,
    edits: &mut Overlay<'_, Silent>,
) -> Result<[u32; 4], MapFault>
    requires valid { IsValid sup.now }
    requires size { edits.old.under.now.blocks.block_size ≡ sup.now.block_size }
    requires volume { IsOfVolume (sizes_of sup.now) bitmap.old }
{
    Ok([
        refusal(alloc, sup, bitmap, edits, 517, b"x")?,
        refusal(alloc, sup, bitmap, edits, 529, b"x")?,
        refusal(alloc, sup, bitmap, edits, ROOT, b"x/y")?,
        refusal(alloc, sup, bitmap, edits, ROOT, b"a")?,
    ])
}

/// Sets a node's mode to 04711, its user to 7 and its group to 8, and tells whether it was there.
fn sets(
    alloc: Global,
    sup: &Super,
    bitmap: &mut Bitmap,
    edits: &mut Overlay<'_, Silent>,
    id: u64,
) -> Result<bool, MapFault>
    requires valid { IsValid sup.now }
    requires size { edits.old.under.now.blocks.block_size ≡ sup.now.block_size }
    ensures size { edits.new.under.now.blocks.block_size ≡ sup.now.block_size }
    ensures bitmap { bitmap.new ≡ bitmap.old }
{
    match set_mode_refusal(alloc, sup, bitmap, edits, id) {
        Ok(None) => {}
        Ok(Some(_)) => return Ok(false),
        Err(fault) => return Err(fault),
    }
    match set_mode(alloc, sup, edits, id, 0o4711, 7, 8, LATER) {
        Ok(()) => Ok(true),
        Err(fault) => Err(fault),
    }
}

/// Has a file that mode, user and group, and the stamp of their change beside those of its making?
fn has_status(
    alloc: Global,
    sup: &Super,
    bitmap: &mut Bitmap,
    edits: &mut Overlay<'_, Silent>,
    id: u64,
) -> Result<bool, MapFault>
    requires valid { IsValid sup.now }
    requires size { edits.old.under.now.blocks.block_size ≡ sup.now.block_size }
    ensures size { edits.new.under.now.blocks.block_size ≡ sup.now.block_size }
    ensures bitmap { bitmap.new ≡ bitmap.old }
{
    let reply = stat(alloc, sup, bitmap, edits, id)?;
    Ok(is_status(&reply))
}

/// Is it a file's record with that mode, user, group and stamps?
fn is_status(reply: &Reply) -> bool {
    match reply {
        Reply::Info { info } => {
            (info.kind, info.mode) == (Kind::File, 0o4711)
                && (info.uid, info.gid) == (7, 8)
                && (info.created, info.modified, info.changed) == (STAMP, STAMP, LATER)
        }
        _ => false,
    }
}

/// Is this the target of a link?
fn leads_to(
    alloc: Global,
    sup: &Super,
    bitmap: &mut Bitmap,
    edits: &mut Overlay<'_, Silent>,
    id: u64,
    want: &[u8],
) -> Result<bool, MapFault>
    requires valid { IsValid sup.now }
    requires size { edits.old.under.now.blocks.block_size ≡ sup.now.block_size }
    ensures size { edits.new.under.now.blocks.block_size ≡ sup.now.block_size }
    ensures bitmap { bitmap.new ≡ bitmap.old }
{
    let reply = read_link(alloc, sup, bitmap, edits, id)?;
    Ok(is_target(&reply, want))
}

/// Is it this target?
fn is_target(reply: &Reply, want: &[u8]) -> bool {
    match reply {
        Reply::Target { bytes } => bytes.as_slice() == want,
        _ => false,
    }
}

/// The first file is given another status, and a block that is no node's is not; both links tell their targets, and the file is none.
fn changes(
    alloc: Global,
    sup: &Super,
    bitmap: &mut Bitmap,
    edits: &mut Overlay<'_, Silent>,
) -> Result<[bool; 6], MapFault>
    requires valid { IsValid sup.now }
    requires size { edits.old.under.now.blocks.block_size ≡ sup.now.block_size }
    ensures size { edits.new.under.now.blocks.block_size ≡ sup.now.block_size }
    ensures bitmap { bitmap.new ≡ bitmap.old }
{
    let set = sets(alloc, sup, bitmap, edits, 529)?;
    let none = sets(alloc, sup, bitmap, edits, 517)?;
    let status = has_status(alloc, sup, bitmap, edits, 529)?;
    let short = leads_to(alloc, sup, bitmap, edits, 536, b"d/b")?;
    let long = leads_to(alloc, sup, bitmap, edits, 537, &[b'x'; 200])?;
    let file = read_link(alloc, sup, bitmap, edits, 529)?;
    let refused = matches!(file, Reply::NotLink);
    Ok([set, !none, status, short, long, refused])
}

/// A link with this target.
fn link_to(alloc: Global, target: &[u8]) -> Result<MakeKind, AllocError> {
    let target = Bytes::from_slice(alloc, target)?;
    Ok(MakeKind::Link { target })
}

/// What the calls on a volume tell: the ids of the five nodes, how many blocks are used then, what is found, what is changed, that no
/// block is written by what changes nothing, and which calls are refused.
fn told(
    alloc: Global,
    sup: &Super,
    bitmap: &mut Bitmap,
    edits: &mut Overlay<'_, Silent>,
    link: &MakeKind,
    long: &MakeKind,
) -> Result<[bool; 7], MapFault>
    requires valid { IsValid sup.now }
    requires size { edits.old.under.now.blocks.block_size ≡ sup.now.block_size }
    requires volume { IsOfVolume (sizes_of sup.now) bitmap.old }
{
    let made = makes(alloc, sup, bitmap, edits, link, long)?;
    let found = answers(alloc, sup, bitmap, edits)?;
    let before = edits.pairs();
    let changed = changes(alloc, sup, bitmap, edits)?;
    let written = edits.pairs();
    let refused = refusals(alloc, sup, bitmap, edits)?;
    let since = edits.pairs();
    Ok([
        made == [529, 530, 533, 536, 537],
        bitmap.used() == 539,
        found == [true; 6],
        changed == [true; 6],
        written == before,
        refused == [1, 2, 3, 4],
        since == written,
    ])
}

/// The same on a new volume; nothing where this is none.
fn told_of(
    alloc: Global,
    bytes: Vec<u8>,
    link: &MakeKind,
    long: &MakeKind,
) -> Option<Result<[bool; 7], MapFault>>
    requires { length bytes.items ≡ 4194304 }
{
    let sup = superblock_of(&bytes)?;
    if sup.block_size != 1024 {
        return None;
    }
    let mut under = blocks_of(bytes);
    let mut bitmap = Bitmap::of(alloc, &sup);
    let mut open = Changed::new(alloc);
    let mut edits = Overlay::begin(&mut open, &mut under);
    let told = told(alloc, &sup, &mut bitmap, &mut edits, link, long);
    edits.drop_call();
    Some(told)
}

#[test]
fn nodes_are_made_at_the_lowest_free_blocks_and_found(rt: HostRuntime) -> Result<(), Fail> {
    let alloc = rt.alloc();
    let link = link_to(alloc, b"d/b")?;
    let long = link_to(alloc, &[b'x'; 200])?;
    let told = told_of(alloc, new_image(alloc)?, &link, &long);
    assert_eq!(rt; told.ok_or("no volume")??, [true; 7]);
    Ok(())
}
