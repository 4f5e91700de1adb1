// Changes of the small data in the block of an inode, as changes of its attributes.
ghost use Rattle.std.specs.Prelude.{◌≡◌, ◌≤◌, ◌<◌, ◌↔◌, List, length, take, drop, IsTrue, IsSome};
ghost use Rattle.std.specs.Bool.{OnFalse};
ghost use Rattle.std.specs.Option.{option_map};
ghost use Rattle.bfs_smalldata.specs.Items.{items_of};
ghost use Rattle.bfs_smalldata.specs.Edits.{without, with_item, IsFitting};
ghost use Rattle.bfs_attr.specs.Laws.{PutsAttribute, TakesAttribute};
ghost use Rattle.bfs_attr.specs.SmallData.{HasSmall};

use crate::small::is_own_name;
use bfs_inode::SMALL_DATA;
use bfs_smalldata::{find, fits, put, take};

/// Puts an attribute into the small data of an inode's block, in place of the first of its name or behind the others, where it
/// fits there. Did it fit? The bytes before the small data stay.
pub(crate) fn put_small(block: &mut [u8], kind: u32, name: &[u8], bytes: &[u8]) -> bool
    requires long { 232 ≤ length block.old }
    requires area { IsSome (items_of (drop 232 block.old)) }
    requires some { 1 ≤ length name.now }
    requires short { length name.now ≤ 255 }
    ensures fits { IsTrue result ↔ IsFitting (drop 232 block.old) name.now (length bytes.now) }
    ensures put { IsTrue result → items_of (drop 232 block.new) ≡ option_map (with_item (record { kind = kind; name = name.now; bytes = bytes.now })) (items_of (drop 232 block.old)) }
    ensures before { take 232 block.new ≡ take 232 block.old }
    ensures length { length block.new ≡ length block.old }
    ensures same { OnFalse result (block.new ≡ block.old) }
{
    if !fits(&block[SMALL_DATA..], name, bytes.len()) {
        return false;
    }
    put(&mut block[SMALL_DATA..], kind, name, bytes);
    true
}

/// Is the first item of a name in an area of small data an attribute? A node's own name is none.
fn has_attribute(area: &[u8], name: &[u8]) -> bool
    requires { IsSome (items_of area.now) }
    ensures { IsTrue result ↔ HasSmall area.now name.now }
{
    match find(area, name) {
        None => false,
        Some(place) => !is_own_name(place.kind, name),
    }
}

/// Takes the attribute of a name out of the small data of an inode's block. Was it there? The bytes before the small data stay.
pub(crate) fn take_small(block: &mut [u8], name: &[u8]) -> bool
    requires long { 232 ≤ length block.old }
    requires area { IsSome (items_of (drop 232 block.old)) }
    ensures there { IsTrue result ↔ HasSmall (drop 232 block.old) name.now }
    ensures taken { IsTrue result → items_of (drop 232 block.new) ≡ option_map (without name.now) (items_of (drop 232 block.old)) }
    ensures before { take 232 block.new ≡ take 232 block.old }
    ensures length { length block.new ≡ length block.old }
    ensures same { OnFalse result (block.new ≡ block.old) }
{
    if !has_attribute(&block[SMALL_DATA..], name) {
        return false;
    }
    take(&mut block[SMALL_DATA..], name);
    true
}

/// An item whose name isn't that of a node's own name puts an attribute into the map, where it is put among items.
pub fn puts_attribute()
    ensures { PutsAttribute }
{}

/// An attribute that is taken from items with distinct names is taken out of the map, where the attribute directory has none of its
/// name.
pub fn takes_attribute()
    ensures { TakesAttribute }
{}
