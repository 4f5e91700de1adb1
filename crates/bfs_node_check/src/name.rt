// A node's own name against the row that names it.
ghost use Rattle.std.specs.Prelude.{◌≡◌, ◌≤◌, ◌↔◌, ℕ, List, length, drop, Some, IsTrue, IsSome, OnOk, IfOk, IfErr, false};
ghost use Rattle.std.specs.Option.{option_map};
ghost use Rattle.bfs_smalldata.specs.Items.{items_of};
ghost use Rattle.bfs_smalldata.specs.Items.{Item as Content};
ghost use Rattle.bfs_smalldata.specs.Edits.{named};
ghost use Rattle.bfs_tree.specs.Names.{is_bad_name};
ghost use Rattle.bfs_sound.specs.Volumes.{Volume};
ghost use Rattle.bfs_sound.specs.Attributes.{own_name};
ghost use Rattle.bfs_finding.specs.NodeFaults.{own_bytes};
ghost use Rattle.bfs_finding.specs.Ways.{Arrives, to_child};
ghost use Rattle.bfs_node_check.specs.Names.{HasOwnName, IsNodeFault};

use crate::NodeFault;
use bfs_finding::Finding;
use bfs_inode::SMALL_DATA;
use bfs_smalldata::find;
use bfs_tree::{Bytes, is_bad_name};
use std::alloc::{AllocError, Global};

const TEXT: u32 = 0x43535452;

const OWN_NAME: &[u8] = &[0x13];

/// The bytes of the item with a node's own name.
fn own_name_in(area: &[u8]) -> Option<&[u8]>
    requires { IsSome (items_of area.now) }
    ensures { (items : List Content) → items_of area.now ≡ Some items → option_map (λ b. b.now) result ≡ own_bytes (named own_name items) }
{
    match find(area, OWN_NAME) {
        Some(item) => {
            if item.kind == TEXT {
                Some(&area[item.at..item.at + item.len])
            } else {
                None
            }
        }
        None => None,
    }
}

/// Is this the name of the row?
fn is_row(own: Option<&[u8]>, row: &[u8]) -> bool
    ensures { IsTrue result ↔ (option_map (λ b. b.now) own.entry ≡ Some row.now) }
{
    match own {
        Some(name) => name == row,
        None => false,
    }
}

/// Is it, and is this no bad name?
fn is_right(own: Option<&[u8]>, row: &[u8]) -> bool
    ensures { IsTrue result ↔ ((option_map (λ b. b.now) own.entry ≡ Some row.now) × (is_bad_name row.now ≡ false)) }
{
    is_row(own, row) && !is_bad_name(row)
}

/// The finding on a row and a node's own name that differ, or of which the name is bad.
fn name_finding(
    alloc: Global,
    id: u64,
    row: &[u8],
    own: Option<&[u8]>,
) -> Result<Finding, AllocError>
    ensures { IfOk result (λ f. f ≡ Finding.Name id row.now (option_map (λ b. b.now) own.entry)) }
{
    let row = Bytes::from_slice(alloc, row)?;
    match own {
        Some(name) => {
            let item = Bytes::from_slice(alloc, name)?;
            Ok(Finding::Name {
                id,
                row,
                item: Some(item),
            })
        }
        None => Ok(Finding::Name {
            id,
            row,
            item: None,
        }),
    }
}

/// Is a node's own name that of the row which names it, and no bad one?
pub fn check_name(alloc: Global, bytes: &[u8], id: u64, row: &[u8]) -> Result<(), NodeFault>
    requires long { 1024 ≤ length bytes.now }
    requires area { IsSome (items_of (drop 232 bytes.now)) }
    ensures named { (items : List Content) → items_of (drop 232 bytes.now) ≡ Some items → OnOk result (HasOwnName items row.now) }
    ensures good { OnOk result (is_bad_name row.now ≡ false) }
    ensures wrong { (v : Volume) (d : ℕ) → v.blocks id ≡ bytes.now → Arrives v (to_child d row.now) id → IfErr result (IsNodeFault v) }
{
    let own = own_name_in(&bytes[SMALL_DATA..]);
    if is_right(own, row) {
        return Ok(());
    }
    match name_finding(alloc, id, row, own) {
        Ok(finding) => Err(NodeFault::Wrong(finding)),
        Err(_) => Err(NodeFault::NoMemory),
    }
}
