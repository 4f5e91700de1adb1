// The address of a node's parent.
ghost use Rattle.std.specs.Prelude.{◌≡◌, ◌≤◌, ◌<◌, ◌^◌, ◌↔◌, List, ℕ, length, pos, IsTrue, OnOk, IfErr};
ghost use Rattle.bfs_bytes.specs.Fields.{run_in};
ghost use Rattle.bfs_inode.specs.Refusals.{Names, number_of};
ghost use Rattle.bfs_sound.specs.Volumes.{Volume};
ghost use Rattle.bfs_finding.specs.Ways.{Arrives, to_child};
ghost use Rattle.bfs_finding.specs.Findings.{IsBroken};

use bfs_bytes::{Run, run_at};
use bfs_finding::Finding;

/// How many blocks a group has.
fn group_blocks(ag_shift: u32) -> u32
    requires { ag_shift ≤ 16 }
    ensures value { result ≡ 2 ^ ag_shift }
    ensures few { result ≤ 65536 }
{
    1u32 << ag_shift
}

/// The number of an address: `(group << ag_shift) + start`.
fn number_of(run: Run, ag_shift: u32) -> i64
    requires { ag_shift ≤ 16 }
    ensures { result ≡ number_of run ag_shift }
{
    let blocks = group_blocks(ag_shift);
    i64::from(run.group) * i64::from(blocks) + i64::from(run.start)
}

/// Is a signed number this one?
fn is_number(found: i64, wanted: u64) -> bool
    ensures { IsTrue result ↔ (found ≡ pos wanted) }
{
    found >= 0 && found as u64 == wanted
}

/// Is a run one block long, and does it begin in its group?
fn is_address(run: Run, ag_shift: u32) -> bool
    requires { ag_shift ≤ 16 }
    ensures { IsTrue result ↔ ((run.len ≡ 1) × (run.start < 2 ^ ag_shift)) }
{
    run.len == 1 && u32::from(run.start) < group_blocks(ag_shift)
}

/// Does a node name the directory whose row names it as its parent?
pub fn check_parent(bytes: &[u8], id: u64, ag_shift: u32, parent: u64) -> Result<(), Finding>
    requires long { 1024 ≤ length bytes.now }
    requires shift { ag_shift ≤ 16 }
    ensures names { OnOk result (Names (run_in bytes.now 44) parent ag_shift) }
    ensures wrong { (v : Volume) (name : List ℕ) → v.blocks id ≡ bytes.now → v.geometry.shift ≡ ag_shift → Arrives v (to_child parent name) id → IfErr result (IsBroken v) }
{
    let run = run_at(bytes, 44);
    let found = number_of(run, ag_shift);
    if is_number(found, parent) {
        if is_address(run, ag_shift) {
            return Ok(());
        }
        return Err(Finding::Parent {
            id,
            found: -1,
            wanted: parent,
        });
    }
    Err(Finding::Parent {
        id,
        found,
        wanted: parent,
    })
}
