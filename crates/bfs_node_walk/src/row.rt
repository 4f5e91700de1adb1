// Rows that name blocks of the volume.
ghost use Rattle.std.specs.Prelude.{◌≡◌, ◌≤◌, ◌<◌, ℕ, pos, true, OnOk, IfErr};
ghost use Rattle.std.specs.List.{AllByRecursion};
ghost use Rattle.bfs_sound.specs.Inodes.{is_proper};
ghost use Rattle.bfs_names_walk.specs.Rows.{as_rows};
ghost use Rattle.bfs_node_walk.specs.Listed.{proper, NamesBlock, IsOutside};

use bfs_names_walk::NameRow;

/// Is it a name but `.` and `..`?
fn is_proper(name: &[u8]) -> bool
    ensures { result ≡ is_proper name.now }
{
    !(name == b".".as_slice() || name == b"..".as_slice())
}

/// Does a value name a block below this number?
fn check_value(value: i64, blocks: u64) -> Result<(), i64>
    ensures inside { OnOk result ((k : ℕ) × (value ≡ pos k) × (k < blocks)) }
    ensures outside { IfErr result (λ found. (found ≡ value) × ((k : ℕ) → value ≡ pos k → blocks ≤ k)) }
{
    if value >= 0 && (value as u64) < blocks {
        Ok(())
    } else {
        Err(value)
    }
}

/// Does a row, unless it is `.` or `..`, name a block?
fn check_row(row: &NameRow, blocks: u64) -> Result<(), i64>
    ensures inside { OnOk result (is_proper row.now.name ≡ true → NamesBlock blocks (row.now.name, row.now.value)) }
    ensures outside { IfErr result (λ found. (is_proper row.now.name ≡ true) × (found ≡ row.now.value) × ((k : ℕ) → row.now.value ≡ pos k → blocks ≤ k)) }
{
    let proper = is_proper(row.name.as_slice());
    if !proper {
        return Ok(());
    }
    match check_value(row.value, blocks) {
        Ok(()) => Ok(()),
        Err(value) => Err(value),
    }
}

/// Does each row but `.` and `..` name a block of a volume with so many? Else the value of the first that doesn't.
pub fn check_rows(rows: &[NameRow], blocks: u64) -> Result<(), i64>
    ensures inside { OnOk result (AllByRecursion (NamesBlock blocks) (proper (as_rows rows.now))) }
    ensures outside { IfErr result (IsOutside blocks (as_rows rows.now)) }
{
    for i in 0..rows.len() {
        match check_row(&rows[i], blocks) {
            Ok(()) => {}
            Err(value) => return Err(value),
        }
    }
    Ok(())
}
