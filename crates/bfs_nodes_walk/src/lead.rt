// Rows that lead on.
ghost use Rattle.std.specs.Prelude.{◌≡◌, ◌≤◌, ◌<◌, ◌++◌, ℕ, List, [], ◌∷◌, pos, OnOk, IfOk, IfErr};
ghost use Rattle.bfs_super.specs.Conditions.{natural};
ghost use Rattle.bfs_txn.specs.Faults.{Counts};
ghost use Rattle.bfs_sound.specs.Volumes.{Volume};
ghost use Rattle.bfs_inode_walk.specs.Visited.{IsTrueOf, IsUntaken, IsVisitCause};
ghost use Rattle.bfs_nodes_walk.specs.Leads.{leads_in, IsRowOf};

use bfs_attr_walk::is_proper_name;
use bfs_finding::Finding;
use bfs_inode_walk::VisitFault;
use bfs_node_walk::names_walk::NameRow;
use bfs_tree::Bytes;
use bfs_txn::BlockFault;
use std::alloc::Global;

/// A row of a directory, with the number of the directory.
#[derive(Debug, Drop)]
pub struct NodeLead {
    pub dir: u64,
    pub row: NameRow,
}

/// The number that a value is, where it is below this one; else the value.
fn number_below(value: i64, blocks: u64) -> Result<u64, i64>
    ensures is { IfOk result (λ id. (value ≡ pos id) × (id < blocks)) }
    ensures outside { IfErr result (λ found. (found ≡ value) × ((k : ℕ) → value ≡ pos k → blocks ≤ k)) }
{
    if value >= 0 && (value as u64) < blocks {
        Ok(value as u64)
    } else {
        Err(value)
    }
}

/// The block that a row names, in a volume of so many; else the finding on the row.
pub(crate) fn block_of(lead: &NodeLead, blocks: u64) -> Result<u64, VisitFault>
    ensures is { IfOk result (λ id. (lead.now.row.value ≡ pos id) × (id < blocks)) }
    ensures wrong { (v : Volume) → v.geometry.blocks ≡ blocks → IsRowOf v lead.now → IfErr result (IsTrueOf v) }
    ensures untaken { IfErr result IsUntaken }
    ensures cause { (old new : Counts) → IfErr result (IsVisitCause old new) }
{
    match number_below(lead.row.value, blocks) {
        Ok(id) => Ok(id),
        Err(value) => Err(VisitFault::Wrong(Finding::Row {
            owner: lead.dir,
            value,
        })),
    }
}

/// A copy of a row, with its directory.
fn lead_by(alloc: Global, dir: u64, row: &NameRow) -> Result<NodeLead, VisitFault>
    ensures lead { IfOk result (λ lead. lead ≡ record { dir = dir; row = row.now }) }
    ensures wrong { (v : Volume) → IfErr result (IsTrueOf v) }
    ensures untaken { IfErr result IsUntaken }
    ensures cause { (old new : Counts) → IfErr result (IsVisitCause old new) }
{
    match Bytes::from_slice(alloc, row.name.as_slice()) {
        Ok(name) => Ok(NodeLead {
            dir,
            row: NameRow {
                name,
                value: row.value,
            },
        }),
        Err(_) => Err(VisitFault::Block(BlockFault::NoMemory)),
    }
}

/// Puts a row of a directory behind others, unless it is `.` or `..`.
fn push_lead(
    alloc: Global,
    dir: u64,
    row: &NameRow,
    leads: &mut Vec<NodeLead>,
) -> Result<(), VisitFault>
    ensures pushed { OnOk result (leads.new.items ≡ leads.old.items ++ leads_in dir (row.now ∷ [])) }
    ensures wrong { (v : Volume) → IfErr result (IsTrueOf v) }
    ensures untaken { IfErr result IsUntaken }
    ensures cause { (old new : Counts) → IfErr result (IsVisitCause old new) }
{
    let proper = is_proper_name(row.name.as_slice());
    if !proper {
        return Ok(());
    }
    let lead = match lead_by(alloc, dir, row) {
        Ok(lead) => lead,
        Err(fault) => return Err(fault),
    };
    match leads.push(lead) {
        Ok(()) => Ok(()),
        Err(_) => Err(VisitFault::Block(BlockFault::NoMemory)),
    }
}

/// Puts the rows of a directory behind others, without `.` and `..`.
pub(crate) fn push_leads(
    alloc: Global,
    dir: u64,
    rows: &[NameRow],
    leads: &mut Vec<NodeLead>,
) -> Result<(), VisitFault>
    ensures pushed { OnOk result (leads.new.items ≡ leads.old.items ++ leads_in dir rows.now) }
    ensures wrong { (v : Volume) → IfErr result (IsTrueOf v) }
    ensures untaken { IfErr result IsUntaken }
    ensures cause { (old new : Counts) → IfErr result (IsVisitCause old new) }
{
    for i in 0..rows.len() {
        match push_lead(alloc, dir, &rows[i], leads) {
            Ok(()) => {}
            Err(fault) => return Err(fault),
        }
    }
    Ok(())
}
