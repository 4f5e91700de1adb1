// The block of an inode.
ghost use Rattle.std.specs.Prelude.{◌≡◌, ◌≤◌, ◌<◌, ℕ, length, drop, pos, Some, OnOk, IfErr, true};
ghost use Rattle.bfs_bytes.specs.Fields.{unsigned_at};
ghost use Rattle.bfs_inode.specs.Block.{IsBlock};
ghost use Rattle.bfs_inode.specs.Refusals.{IsInode};
ghost use Rattle.bfs_sound.specs.Volumes.{Volume};
ghost use Rattle.bfs_finding.specs.NodeFaults.{IsFieldOf};
ghost use Rattle.bfs_finding.specs.Ways.{Way, Arrives};
ghost use Rattle.bfs_finding.specs.Findings.{IsBroken};
ghost use Rattle.bfs_node_check.specs.Roles.{IsGoodMode, is_node, role_of};
ghost use Rattle.bfs_node_check.specs.Areas.{HasShortNames, HasShortTarget};
ghost use Rattle.bfs_node_check.specs.Inodes.{IsWrongInode, IsGoodNode};

use crate::Role;
use crate::area::check_area;
use crate::mode::{is_good_mode, is_node};
use crate::target::{is_short_link, target_length};
use bfs_bytes::{i32_at, u32_at};
use bfs_finding::{Finding, InodePart};
use bfs_inode::{InodeFault, SMALL_DATA, check};
use thiserror::Error;

/// What is wrong with an inode, and what was found there.
#[derive(Clone, Copy, Debug, PartialEq, Eq, Error)]
#[error("a part of the inode is wrong, where {found} was found")]
pub struct InodeWrong {
    pub part: InodePart,
    pub found: i64,
}

/// The field that a block is refused for.
fn field_of(fault: InodeFault) -> InodeWrong
    ensures { IsFieldOf fault result.part result.found }
{
    match fault {
        InodeFault::Magic { found } => InodeWrong {
            part: InodePart::Magic,
            found: i64::from(found),
        },
        InodeFault::Number { found } => InodeWrong {
            part: InodePart::Number,
            found,
        },
        InodeFault::NotInUse { flags } => InodeWrong {
            part: InodePart::Flags,
            found: i64::from(flags),
        },
        InodeFault::Size { found } => InodeWrong {
            part: InodePart::Size,
            found: i64::from(found),
        },
    }
}

/// Are the fields of an inode right, and its mode one for its place?
fn check_fields(bytes: &[u8], block: u64, ag_shift: u32, role: Role) -> Result<(), InodeWrong>
    requires block { IsBlock bytes.now }
    requires shift { ag_shift ≤ 16 }
    ensures inode { OnOk result (IsInode bytes.now block ag_shift) }
    ensures mode { OnOk result (IsGoodMode role (unsigned_at 4 bytes.now 20)) }
    ensures wrong { IfErr result (IsWrongInode bytes.now block ag_shift role) }
{
    match check(bytes, block, ag_shift) {
        Ok(()) => {}
        Err(fault) => return Err(field_of(fault)),
    }
    if is_good_mode(u32_at(bytes, 20), role) {
        return Ok(());
    }
    Err(InodeWrong {
        part: InodePart::Mode,
        found: i64::from(i32_at(bytes, 20)),
    })
}

/// An item at this place is wrong.
fn area_wrong(at: usize) -> InodeWrong
    requires { at ≤ 8192 }
    ensures part { result.part ≡ InodePart.SmallData }
    ensures found { result.found ≡ pos at }
{
    InodeWrong {
        part: InodePart::SmallData,
        found: at as i64,
    }
}

/// Are the items and the target of a node right?
fn check_node(bytes: &[u8]) -> Result<(), InodeWrong>
    requires long { 1024 ≤ length bytes.now }
    requires few { length bytes.now ≤ 8192 }
    ensures area { OnOk result (HasShortNames (drop 232 bytes.now)) }
    ensures target { OnOk result (HasShortTarget bytes.now) }
    ensures wrong { (block shift : ℕ) (role : Role) → is_node role ≡ true → IfErr result (IsWrongInode bytes.now block shift role) }
{
    match check_area(&bytes[SMALL_DATA..]) {
        Ok(()) => {}
        Err(at) => return Err(area_wrong(at)),
    }
    if is_short_link(bytes) && target_length(bytes) >= 144 {
        return Err(InodeWrong {
            part: InodePart::Target,
            found: 144,
        });
    }
    Ok(())
}

/// Is a block the inode of its number, and right for the place in which it is reached? For a node its items and its target are looked
/// at too.
pub fn check_inode(bytes: &[u8], block: u64, ag_shift: u32, role: Role) -> Result<(), Finding>
    requires block { IsBlock bytes.now }
    requires shift { ag_shift ≤ 16 }
    ensures inode { OnOk result (IsInode bytes.now block ag_shift) }
    ensures mode { OnOk result (IsGoodMode role (unsigned_at 4 bytes.now 20)) }
    ensures node { is_node role ≡ true → (v : Volume) → v.blocks block ≡ bytes.now → OnOk result (IsGoodNode v block) }
    ensures wrong { (v : Volume) (way : Way) → v.blocks block ≡ bytes.now → v.geometry.shift ≡ ag_shift → role_of way ≡ Some role → Arrives v way block → IfErr result (IsBroken v) }
{
    match check_fields(bytes, block, ag_shift, role) {
        Ok(()) => {}
        Err(wrong) => return Err(finding_of(block, wrong)),
    }
    if !is_node(role) {
        return Ok(());
    }
    match check_node(bytes) {
        Ok(()) => Ok(()),
        Err(wrong) => Err(finding_of(block, wrong)),
    }
}

/// The finding on an inode.
fn finding_of(block: u64, wrong: InodeWrong) -> Finding
    ensures { result ≡ Finding.Inode block wrong.part wrong.found }
{
    Finding::Inode {
        block,
        part: wrong.part,
        found: wrong.found,
    }
}
