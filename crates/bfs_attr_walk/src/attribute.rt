// The inodes of attributes, by the rows of their directory.
ghost use Rattle.std.specs.Prelude.{◌≡◌, ◌≤◌, ◌<◌, ◌++◌, ◌∷◌, [], ℕ, List, Option, Some, OnOk, IfErr, true};
ghost use Rattle.std.specs.List.{AllByRecursion};
ghost use Rattle.bfs_super.specs.Conditions.{IsValid, natural};
ghost use Rattle.bfs_txn.specs.Faults.{AreLater};
ghost use Rattle.bfs_stream.specs.Sizes.{sizes_of};
ghost use Rattle.bfs_stream.specs.Told.{contents};
ghost use Rattle.bfs_stream_check.specs.Known.{IsAllTold};
ghost use Rattle.bfs_sound.specs.Attributes.{attribute_directory};
ghost use Rattle.bfs_sound.specs.Inodes.{is_proper, rows_of, inode_blocks, content};
ghost use Rattle.bfs_sound.specs.Owners.{In};
ghost use Rattle.bfs_sound.specs.Whole.{volume_of};
ghost use Rattle.bfs_finding.specs.Ways.{IsReached};
ghost use Rattle.bfs_claims.specs.Claims.{AreClaimed};
ghost use Rattle.bfs_inode_walk.specs.Visited.{IsTrueOf, IsVisitCause};
ghost use Rattle.bfs_names_walk.specs.Rows.{as_rows, AreNames};
ghost use Rattle.bfs_node_walk.specs.Listed.{proper, NamesBlock};
ghost use Rattle.bfs_attr_walk.specs.Attributed.{row_blocks, AreSoundRows, IsTakenIn, IsTakenBy};

use crate::owner::tell_owner;
use bfs_claims::Claims;
use bfs_inode_walk::{VisitFault, visit_inode};
use bfs_names_walk::NameRow;
use bfs_node_check::Role;
use bfs_super::Super;
use bfs_txn::Blocks;
use std::alloc::Global;

/// Is it a name but `.` and `..`?
pub fn is_proper_name(name: &[u8]) -> bool
    ensures { result ≡ is_proper name.now }
{
    !(name == b".".as_slice() || name == b"..".as_slice())
}

/// The number of a row's inode.
pub fn number_of(value: i64) -> u64
    ensures { result ≡ natural value }
{
    if value < 0 { 0 } else { value as u64 }
}

/// Goes over the inode that a row names, unless the row is `.` or `..`.
fn visit_row<B: Blocks>(
    alloc: Global,
    under: &mut B,
    sup: &Super,
    row: &NameRow,
    claims: &mut Claims,
) -> Result<(), VisitFault>
    requires valid { IsValid sup.now }
    requires row { is_proper row.now.name ≡ true → NamesBlock (natural sup.now.num_blocks) (row.now.name, row.now.value) }
    requires size { B.size under.old ≡ sup.now.block_size }
    requires all { (m : ℕ → Option (List ℕ)) → B.told under.old ≡ Some m → IsAllTold (sizes_of sup.now) m }
    requires blocks { claims.old.blocks ≡ natural sup.now.num_blocks }
    ensures sound { (m : ℕ → Option (List ℕ)) → B.told under.old ≡ Some m → OnOk result (AreSoundRows (volume_of sup.now (contents m)) (row.now ∷ [])) }
    ensures claimed { (m : ℕ → Option (List ℕ)) (xs : List ℕ) → B.told under.old ≡ Some m → AreClaimed claims.old xs → OnOk result (AreClaimed claims.new (xs ++ row_blocks (volume_of sup.now (contents m)) (row.now ∷ []))) }
    ensures wrong { (m : ℕ → Option (List ℕ)) (id : ℕ) → B.told under.old ≡ Some m → IsReached (volume_of sup.now (contents m)) id → (is_proper row.now.name ≡ true → In (row.now.name, row.now.value) (rows_of (volume_of sup.now (contents m)) (attribute_directory (volume_of sup.now (contents m)) id))) → IfErr result (IsTrueOf (volume_of sup.now (contents m))) }
    ensures taken { (m : ℕ → Option (List ℕ)) (xs : List ℕ) → B.told under.old ≡ Some m → AreClaimed claims.old xs → IfErr result (IsTakenIn (volume_of sup.now (contents m)) xs row.now) }
    ensures blocks { claims.new.blocks ≡ claims.old.blocks }
    ensures told { B.told under.new ≡ B.told under.old }
    ensures changed { B.changed under.new ≡ B.changed under.old }
    ensures pairs { B.pairs under.new ≡ B.pairs under.old }
    ensures size { B.size under.new ≡ B.size under.old }
    ensures frame { B.frame under.new ≡ B.frame under.old }
    ensures later { AreLater (B.counts under.old) (B.counts under.new) }
    ensures cause { IfErr result (IsVisitCause (B.counts under.old) (B.counts under.new)) }
{
    let named = is_proper_name(row.name.as_slice());
    if !named {
        return Ok(());
    }
    let id = number_of(row.value);
    match visit_inode(alloc, under, sup, id, Role::Attribute, claims) {
        Ok(_) => Ok(()),
        Err(fault) => Err(fault),
    }
}

/// Goes over the inodes of the attributes that the rows of an attribute directory name, one after the other, and claims their blocks, where those of
/// the directory are claimed. Where one of their blocks is taken, the directory and the inodes before are looked at a second time.
pub fn visit_rows<B: Blocks>(
    alloc: Global,
    under: &mut B,
    sup: &Super,
    directory: u64,
    rows: &[NameRow],
    claims: &mut Claims,
) -> Result<(), VisitFault>
    requires valid { IsValid sup.now }
    requires directory { directory < natural sup.now.num_blocks }
    requires rows { AllByRecursion (NamesBlock (natural sup.now.num_blocks)) (proper (as_rows rows.now)) }
    requires size { B.size under.old ≡ sup.now.block_size }
    requires all { (m : ℕ → Option (List ℕ)) → B.told under.old ≡ Some m → IsAllTold (sizes_of sup.now) m }
    requires blocks { claims.old.blocks ≡ natural sup.now.num_blocks }
    ensures sound { (m : ℕ → Option (List ℕ)) → B.told under.old ≡ Some m → OnOk result (AreSoundRows (volume_of sup.now (contents m)) rows.now) }
    ensures claimed { (m : ℕ → Option (List ℕ)) (xs : List ℕ) → B.told under.old ≡ Some m → AreClaimed claims.old xs → OnOk result (AreClaimed claims.new (xs ++ row_blocks (volume_of sup.now (contents m)) rows.now)) }
    ensures wrong { (m : ℕ → Option (List ℕ)) (id : ℕ) (xs : List ℕ) → B.told under.old ≡ Some m → AreClaimed claims.old xs → IsReached (volume_of sup.now (contents m)) id → attribute_directory (volume_of sup.now (contents m)) id ≡ Some directory → AreNames (content (volume_of sup.now (contents m)) directory) rows.now → IfErr result (IsTrueOf (volume_of sup.now (contents m))) }
    ensures taken { (m : ℕ → Option (List ℕ)) (xs : List ℕ) → B.told under.old ≡ Some m → AreClaimed claims.old (xs ++ inode_blocks (volume_of sup.now (contents m)) directory) → IfErr result (IsTakenBy (volume_of sup.now (contents m)) xs rows.now) }
    ensures blocks { claims.new.blocks ≡ claims.old.blocks }
    ensures told { B.told under.new ≡ B.told under.old }
    ensures changed { B.changed under.new ≡ B.changed under.old }
    ensures pairs { B.pairs under.new ≡ B.pairs under.old }
    ensures size { B.size under.new ≡ B.size under.old }
    ensures frame { B.frame under.new ≡ B.frame under.old }
    ensures later { AreLater (B.counts under.old) (B.counts under.new) }
    ensures cause { IfErr result (IsVisitCause (B.counts under.old) (B.counts under.new)) }
{
    for i in 0..rows.len() {
        match visit_row(alloc, under, sup, &rows[i], claims) {
            Ok(()) => {}
            Err(fault) => {
                return Err(tell_owner(alloc, under, sup, directory, &rows[..i], fault));
            }
        }
    }
    Ok(())
}
