// The rows of a directory.
ghost use Rattle.std.specs.Prelude.{◌≡◌, ◌↔◌, ℕ, pos, codes, IsTrue, Some, OnOk, IfErr, true};
ghost use Rattle.bfs_base.specs.declared.kind.KeyKind.TheVariants.{Text};
ghost use Rattle.bfs_pages.specs.Maps.{assoc};
ghost use Rattle.bfs_tree.specs.declared.call.Kind.TheVariants.{Dir};
ghost use Rattle.bfs_values.specs.Rows.{rows_in};
ghost use Rattle.bfs_sound.specs.Volumes.{Volume};
ghost use Rattle.bfs_sound.specs.Inodes.{content};
ghost use Rattle.bfs_finding.specs.Ways.{says};
ghost use Rattle.bfs_finding.specs.NodeFaults.{or_zero, ComesFrom};
ghost use Rattle.bfs_finding.specs.Findings.{IsBroken};
ghost use Rattle.bfs_names_walk.specs.Rows.{as_rows};
ghost use Rattle.bfs_node_walk.specs.Listed.{IsOtherParent, IsListing};

use crate::row::check_rows;
use bfs_finding::Finding;
use bfs_names_walk::NameRow;

/// Has the row this name?
fn is_named(row: &NameRow, name: &[u8]) -> bool
    ensures { IsTrue result ↔ (row.now.name ≡ name.now) }
{
    row.name.as_slice() == name
}

/// The value of a row.
fn value_of(row: &NameRow) -> i64
    ensures { result ≡ row.now.value }
{
    row.value
}

/// The value of the first row with a name.
fn value_at(rows: &[NameRow], name: &[u8]) -> Option<i64>
    ensures { result ≡ assoc Text (as_rows rows.now) name.now }
{
    for i in 0..rows.len() {
        let row = &rows[i];
        let here = is_named(row, name);
        if here {
            return Some(value_of(row));
        }
    }
    None
}

/// A value, or 0 where there is none.
fn or_zero(value: Option<i64>) -> i64
    ensures { result ≡ or_zero value }
{
    match value {
        Some(value) => value,
        None => 0,
    }
}

/// Is a value there, and this number?
fn is_number(value: Option<i64>, wanted: u64) -> bool
    ensures { IsTrue result ↔ (value ≡ Some (pos wanted)) }
{
    match value {
        Some(value) => value >= 0 && value as u64 == wanted,
        None => false,
    }
}

/// Has the row with a name this number? Else the finding on the directory.
fn check_dot(rows: &[NameRow], name: &[u8], id: u64, wanted: u64) -> Result<(), Finding>
    ensures there { OnOk result (assoc Text (as_rows rows.now) name.now ≡ Some (pos wanted)) }
    ensures wrong { IfErr result (IsOtherParent (as_rows rows.now) name.now id wanted) }
{
    let value = value_at(rows, name);
    let same = is_number(value, wanted);
    if same {
        return Ok(());
    }
    Err(Finding::Parent {
        id,
        found: or_zero(value),
        wanted,
    })
}

/// Has the row `.` the directory's own number?
fn check_own(rows: &[NameRow], id: u64) -> Result<(), Finding>
    ensures there { OnOk result (assoc Text (as_rows rows.now) (codes ".") ≡ Some (pos id)) }
    ensures wrong { IfErr result (IsOtherParent (as_rows rows.now) (codes ".") id id) }
{
    check_dot(rows, b".", id, id)
}

/// Has the row `..` the number of the directory's parent?
fn check_above(rows: &[NameRow], id: u64, parent: u64) -> Result<(), Finding>
    ensures there { OnOk result (assoc Text (as_rows rows.now) (codes "..") ≡ Some (pos parent)) }
    ensures wrong { IfErr result (IsOtherParent (as_rows rows.now) (codes "..") id parent) }
{
    check_dot(rows, b"..", id, parent)
}

/// Are the rows those of a directory with this parent, and does each name a block of a volume with so many?
pub fn check_listing(rows: &[NameRow], id: u64, parent: u64, blocks: u64) -> Result<(), Finding>
    ensures listed { (v : Volume) → as_rows rows.now ≡ rows_in Text (content v id) → v.geometry.blocks ≡ blocks → OnOk result (IsListing v id parent) }
    ensures wrong { (v : Volume) → as_rows rows.now ≡ rows_in Text (content v id) → v.geometry.blocks ≡ blocks → ComesFrom v id parent → says v id Dir ≡ true → IfErr result (IsBroken v) }
{
    match check_own(rows, id) {
        Ok(()) => {}
        Err(finding) => return Err(finding),
    }
    match check_above(rows, id, parent) {
        Ok(()) => {}
        Err(finding) => return Err(finding),
    }
    match check_rows(rows, blocks) {
        Ok(()) => Ok(()),
        Err(value) => Err(Finding::Row { owner: id, value }),
    }
}
