// The names of a node's attributes: its items, and the rows of its attribute directory.
ghost use Rattle.std.specs.Prelude.{◌≡◌, ◌≤◌, ◌↔◌, ◌==◌, ◌&&◌, List, [], ◌∷◌, length, drop, Some, IsTrue, IsSome, OnOk, IfErr, true};
ghost use Rattle.std.specs.Str.{bytes_eq};
ghost use Rattle.bfs_smalldata.specs.Items.{items_of};
ghost use Rattle.bfs_smalldata.specs.Items.{Item as Content};
ghost use Rattle.bfs_smalldata.specs.Edits.{AreDistinct};
ghost use Rattle.bfs_sound.specs.Volumes.{Volume};
ghost use Rattle.bfs_sound.specs.Attributes.{own_name, attribute_directory, HasDirectory};
ghost use Rattle.bfs_sound.specs.Inodes.{is_proper, rows_of};
ghost use Rattle.bfs_sound.specs.Owners.{In};
ghost use Rattle.bfs_finding.specs.NodeFaults.{area_of};
ghost use Rattle.bfs_finding.specs.Ways.{IsReached};
ghost use Rattle.bfs_node_check.specs.Names.{IsNodeFault};
ghost use Rattle.bfs_nodes_walk.specs.Walks.{HasAttributes};
ghost use Rattle.bfs_nodes_walk.specs.Attributes.{HasItem, AreOthers, AreRowsIn};

use crate::items::{check_items, check_list, repeated};
use bfs_attr_walk::is_proper_name;
use bfs_inode::SMALL_DATA;
use bfs_names_walk::NameRow;
use bfs_node_check::NodeFault;
use bfs_smalldata::find;
use std::alloc::Global;

const TEXT: u32 = 0x43535452;

const OWN_NAME: &[u8] = &[0x13];

/// Are these the type and the name of the item with a node's own name?
fn is_own(kind: u32, name: &[u8]) -> bool
    ensures { result ≡ (kind == 0x43535452 && bytes_eq name.now own_name) }
{
    kind == TEXT && name == OWN_NAME
}

/// Has an attribute among the items this name?
fn has_item(area: &[u8], name: &[u8]) -> bool
    requires { IsSome (items_of area.now) }
    ensures { (items : List Content) → items_of area.now ≡ Some items → IsTrue result ↔ HasItem items name.now }
{
    match find(area, name) {
        Some(item) => !is_own(item.kind, name),
        None => false,
    }
}

/// Has no attribute among the items the name of the row, unless that is `.` or `..`?
fn check_row(alloc: Global, area: &[u8], id: u64, row: &NameRow) -> Result<(), NodeFault>
    requires { IsSome (items_of area.now) }
    ensures apart { (items : List Content) → items_of area.now ≡ Some items → OnOk result (AreOthers items (row.now ∷ [])) }
    ensures wrong { (v : Volume) → area_of v id ≡ area.now → IsReached v id → (is_proper row.now.name ≡ true → In (row.now.name, row.now.value) (rows_of v (attribute_directory v id))) → IfErr result (IsNodeFault v) }
{
    let name = row.name.as_slice();
    let proper = is_proper_name(name);
    if !proper {
        return Ok(());
    }
    let there = has_item(area, name);
    if there {
        return Err(repeated(alloc, id, name));
    }
    Ok(())
}

/// Has no attribute among the items the name of one of the rows?
fn check_rows(alloc: Global, area: &[u8], id: u64, rows: &[NameRow]) -> Result<(), NodeFault>
    requires { IsSome (items_of area.now) }
    ensures apart { (items : List Content) → items_of area.now ≡ Some items → OnOk result (AreOthers items rows.now) }
    ensures wrong { (v : Volume) → area_of v id ≡ area.now → IsReached v id → AreRowsIn v (attribute_directory v id) rows.now → IfErr result (IsNodeFault v) }
{
    for i in 0..rows.len() {
        match check_row(alloc, area, id, &rows[i]) {
            Ok(()) => {}
            Err(fault) => return Err(fault),
        }
    }
    Ok(())
}

/// Have no two items one name, and no attribute among them that of a row?
fn check_area(alloc: Global, area: &[u8], id: u64, rows: &[NameRow]) -> Result<(), NodeFault>
    requires few { length area.now ≤ 8192 }
    ensures some { OnOk result (IsSome (items_of area.now)) }
    ensures distinct { (items : List Content) → items_of area.now ≡ Some items → OnOk result (AreDistinct items) }
    ensures apart { (items : List Content) → items_of area.now ≡ Some items → OnOk result (AreOthers items rows.now) }
    ensures wrong { (v : Volume) → area_of v id ≡ area.now → IsReached v id → AreRowsIn v (attribute_directory v id) rows.now → IfErr result (IsNodeFault v) }
{
    match check_list(area, id) {
        Ok(()) => {}
        Err(fault) => return Err(fault),
    }
    match check_items(alloc, area, id) {
        Ok(()) => {}
        Err(fault) => return Err(fault),
    }
    match check_rows(alloc, area, id, rows) {
        Ok(()) => Ok(()),
        Err(fault) => Err(fault),
    }
}

/// Do the items in a node's block differ in name, and its attributes, which are items and these rows of its attribute directory? The
/// rows themselves do, as those of a whole tree.
pub fn check_names(alloc: Global, bytes: &[u8], id: u64, rows: &[NameRow]) -> Result<(), NodeFault>
    requires long { 1024 ≤ length bytes.now }
    requires few { length bytes.now ≤ 8192 }
    ensures right { (v : Volume) → v.blocks id ≡ bytes.now → HasDirectory v id (attribute_directory v id) → AreRowsIn v (attribute_directory v id) rows.now → OnOk result (HasAttributes v id) }
    ensures wrong { (v : Volume) → v.blocks id ≡ bytes.now → IsReached v id → AreRowsIn v (attribute_directory v id) rows.now → IfErr result (IsNodeFault v) }
{
    match check_area(alloc, &bytes[SMALL_DATA..], id, rows) {
        Ok(()) => Ok(()),
        Err(fault) => Err(fault),
    }
}
