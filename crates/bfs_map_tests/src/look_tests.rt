// The calls that read, over the volume that `mk --blocks 4096` makes at 1,000 seconds: the root alone, at block 514. Behind it
// stand its two pages, and from block 517 on the index directory and the indices, none of which is a node.
ghost use Rattle.std.specs.Prelude.{◌≡◌, length};
ghost use Rattle.bfs_super.specs.Conditions.{IsValid};

use bfs_bitmap::Bitmap;
use bfs_look::{list, lookup, node_at, read_link, stat};
use bfs_stream_pages::MapFault;
use bfs_super::Super;
use bfs_tree::{Kind, Reply};
use bfs_txn::{Blocks, Changed, Overlay};
use bfs_volume_fixtures::{Silent, blocks_of, new_image, superblock_of};
use std::alloc::Global;
use std::test::Fail;

const ROOT: u64 = 514;

/// Which of some numbers are nodes: a directory, or none.
fn are_nodes(
    alloc: Global,
    sup: &Super,
    bitmap: &mut Bitmap,
    edits: &mut Overlay<'_, Silent>,
) -> Result<[bool; 5], MapFault>
    requires valid { IsValid sup.now }
    requires size { edits.old.under.now.blocks.block_size ≡ sup.now.block_size }
    ensures size { edits.new.under.now.blocks.block_size ≡ sup.now.block_size }
{
    let root = node_at(alloc, sup, bitmap, edits, ROOT)? == Some(Kind::Dir);
    let page = node_at(alloc, sup, bitmap, edits, ROOT + 1)?.is_none();
    let index = node_at(alloc, sup, bitmap, edits, 517)?.is_none();
    let log = node_at(alloc, sup, bitmap, edits, 2)?.is_none();
    let past = node_at(alloc, sup, bitmap, edits, u64::MAX)?.is_none();
    Ok([root, page, index, log, past])
}

/// A reply is an empty list of names.
fn is_empty_list(reply: &Reply) -> bool {
    match reply {
        Reply::Names { names } => names.as_slice().is_empty(),
        _ => false,
    }
}

/// A reply is the record of the root.
fn is_root(reply: &Reply) -> bool {
    match reply {
        Reply::Info { info } => {
            info.kind == Kind::Dir
                && info.parent == ROOT
                && info.mode == 0o755
                && info.created == 65_536_000
                && info.size == 0
                && info.name.as_slice().is_empty()
        }
        _ => false,
    }
}

/// Does the list of the root answer no name?
fn lists_nothing(
    alloc: Global,
    sup: &Super,
    bitmap: &mut Bitmap,
    edits: &mut Overlay<'_, Silent>,
) -> Result<bool, MapFault>
    requires valid { IsValid sup.now }
    requires size { edits.old.under.now.blocks.block_size ≡ sup.now.block_size }
    ensures size { edits.new.under.now.blocks.block_size ≡ edits.old.under.now.blocks.block_size }
{
    match list(alloc, sup, bitmap, edits, ROOT) {
        Ok(names) => Ok(is_empty_list(&names)),
        Err(fault) => Err(fault),
    }
}

/// Is there no such name in a directory, or no such directory?
fn is_absent(
    alloc: Global,
    sup: &Super,
    bitmap: &mut Bitmap,
    edits: &mut Overlay<'_, Silent>,
    dir: u64,
    name: &[u8],
) -> Result<bool, MapFault>
    requires valid { IsValid sup.now }
    requires size { edits.old.under.now.blocks.block_size ≡ sup.now.block_size }
    ensures size { edits.new.under.now.blocks.block_size ≡ edits.old.under.now.blocks.block_size }
{
    match lookup(alloc, sup, bitmap, edits, dir, name) {
        Ok(reply) => Ok(matches!(reply, Reply::NotFound)),
        Err(fault) => Err(fault),
    }
}

/// Is the record of the root that of an empty directory?
fn has_root(
    alloc: Global,
    sup: &Super,
    bitmap: &mut Bitmap,
    edits: &mut Overlay<'_, Silent>,
) -> Result<bool, MapFault>
    requires valid { IsValid sup.now }
    requires size { edits.old.under.now.blocks.block_size ≡ sup.now.block_size }
    ensures size { edits.new.under.now.blocks.block_size ≡ edits.old.under.now.blocks.block_size }
{
    match stat(alloc, sup, bitmap, edits, ROOT) {
        Ok(record) => Ok(is_root(&record)),
        Err(fault) => Err(fault),
    }
}

/// Is the root said to be no link?
fn is_no_link(
    alloc: Global,
    sup: &Super,
    bitmap: &mut Bitmap,
    edits: &mut Overlay<'_, Silent>,
) -> Result<bool, MapFault>
    requires valid { IsValid sup.now }
    requires size { edits.old.under.now.blocks.block_size ≡ sup.now.block_size }
{
    match read_link(alloc, sup, bitmap, edits, ROOT) {
        Ok(reply) => Ok(matches!(reply, Reply::NotLink)),
        Err(fault) => Err(fault),
    }
}

/// What is answered: the list of the root, a name that it hasn't, a directory that is none, the record of the root, and that it is no
/// link.
fn answers(
    alloc: Global,
    sup: &Super,
    bitmap: &mut Bitmap,
    edits: &mut Overlay<'_, Silent>,
) -> Result<[bool; 5], MapFault>
    requires valid { IsValid sup.now }
    requires size { edits.old.under.now.blocks.block_size ≡ sup.now.block_size }
{
    let empty = lists_nothing(alloc, sup, bitmap, edits)?;
    let absent = is_absent(alloc, sup, bitmap, edits, ROOT, b"a")?;
    let nowhere = is_absent(alloc, sup, bitmap, edits, 517, b"name")?;
    let root = has_root(alloc, sup, bitmap, edits)?;
    let file = is_no_link(alloc, sup, bitmap, edits)?;
    Ok([empty, absent, nowhere, root, file])
}

/// Whether the nodes are those, and the answers.
fn told(
    alloc: Global,
    sup: &Super,
    bitmap: &mut Bitmap,
    edits: &mut Overlay<'_, Silent>,
) -> Result<[bool; 2], MapFault>
    requires valid { IsValid sup.now }
    requires size { edits.old.under.now.blocks.block_size ≡ sup.now.block_size }
{
    let nodes = are_nodes(alloc, sup, bitmap, edits)?;
    let replies = answers(alloc, sup, bitmap, edits)?;
    Ok([nodes == [true; 5], replies == [true; 5]])
}

/// The same on a new volume; nothing where this is none.
fn told_of(alloc: Global, bytes: Vec<u8>) -> Option<Result<[bool; 2], MapFault>>
    requires { length bytes.items ≡ 4194304 }
{
    let sup = superblock_of(&bytes)?;
    if sup.block_size != 1024 {
        return None;
    }
    let mut under = blocks_of(bytes);
    let mut bitmap = Bitmap::of(alloc, &sup);
    let mut open = Changed::new(alloc);
    let mut edits = Overlay::begin(&mut open, &mut under);
    let told = told(alloc, &sup, &mut bitmap, &mut edits);
    edits.drop_call();
    Some(told)
}

#[test]
fn the_root_of_a_new_volume_is_its_one_node(rt: HostRuntime) -> Result<(), Fail> {
    let alloc = rt.alloc();
    let told = told_of(alloc, new_image(alloc)?);
    assert_eq!(rt; told.ok_or("no volume")??, [true; 2]);
    Ok(())
}
