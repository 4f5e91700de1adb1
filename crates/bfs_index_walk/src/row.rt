// The indices that the rows of the index directory name.
ghost use Rattle.std.specs.Prelude.{◌≡◌, ◌<◌, ◌++◌, ◌∷◌, [], ℕ, List, Option, Some, OnOk, IfOk, IfErr, true};
ghost use Rattle.std.specs.List.{AllByRecursion};
ghost use Rattle.bfs_base.specs.Keys.{IsTreeKind};
ghost use Rattle.bfs_super.specs.Conditions.{IsValid, natural};
ghost use Rattle.bfs_txn.specs.Faults.{AreLater, Counts};
ghost use Rattle.bfs_stream.specs.Sizes.{sizes_of};
ghost use Rattle.bfs_stream.specs.Told.{contents};
ghost use Rattle.bfs_stream_check.specs.Known.{IsAllTold};
ghost use Rattle.bfs_sound.specs.Inodes.{is_proper, inode_blocks, content};
ghost use Rattle.bfs_sound.specs.Listings.{index_rows};
ghost use Rattle.bfs_sound.specs.Owners.{In};
ghost use Rattle.bfs_sound.specs.Volumes.{Volume};
ghost use Rattle.bfs_sound.specs.Whole.{volume_of};
ghost use Rattle.bfs_finding.specs.Ways.{to_indices, Arrives};
ghost use Rattle.bfs_claims.specs.Claims.{AreClaimed};
ghost use Rattle.bfs_inode_walk.specs.Visited.{IsTrueOf, IsUntaken, IsVisitCause};
ghost use Rattle.bfs_names_walk.specs.Rows.{as_rows, AreNames};
ghost use Rattle.bfs_names_walk.specs.declared.row.NameRow as names;
ghost use Rattle.bfs_node_walk.specs.Listed.{proper, NamesBlock};
ghost use Rattle.bfs_attrs_walk.specs.Attributed.{row_blocks, IsTakenIn, IsTakenBy};
ghost use Rattle.bfs_index_walk.specs.Indices.{AreFound, AreInside};

use crate::FoundIndex;
use crate::clash::refusal;
use crate::index::visit_index;
use bfs_attrs_walk::attr_walk::{is_proper_name, number_of};
use bfs_claims::Claims;
use bfs_inode_walk::VisitFault;
use bfs_names_walk::NameRow;
use bfs_node::KeyKind;
use bfs_super::Super;
use bfs_tree::Bytes;
use bfs_txn::{BlockFault, Blocks};
use std::alloc::Global;

/// Puts an index behind those that were found.
fn push_index(
    alloc: Global,
    name: &[u8],
    id: u64,
    kind: KeyKind,
    found: &mut Vec<FoundIndex>,
) -> Result<(), VisitFault>
    ensures pushed { OnOk result (found.new.items ≡ found.old.items ++ (record { name = name.now; id = id; kind = kind }) ∷ []) }
    ensures wrong { (v : Volume) → IfErr result (IsTrueOf v) }
    ensures untaken { IfErr result IsUntaken }
    ensures cause { (old new : Counts) → IfErr result (IsVisitCause old new) }
{
    let name = match Bytes::from_slice(alloc, name) {
        Ok(name) => name,
        Err(_) => return Err(VisitFault::Block(BlockFault::NoMemory)),
    };
    match found.push(FoundIndex { name, id, kind }) {
        Ok(()) => Ok(()),
        Err(_) => Err(VisitFault::Block(BlockFault::NoMemory)),
    }
}

/// Goes over the index that a row names, unless the row is `.` or `..`, and puts it behind those that were found.
fn visit_row<B: Blocks>(
    alloc: Global,
    under: &mut B,
    sup: &Super,
    row: &NameRow,
    found: &mut Vec<FoundIndex>,
    claims: &mut Claims,
) -> Result<(), VisitFault>
    requires valid { IsValid sup.now }
    requires row { is_proper row.now.name ≡ true → NamesBlock (natural sup.now.num_blocks) (row.now.name, row.now.value) }
    requires size { B.size under.old ≡ sup.now.block_size }
    requires all { (m : ℕ → Option (List ℕ)) → B.told under.old ≡ Some m → IsAllTold (sizes_of sup.now) m }
    requires blocks { claims.old.blocks ≡ natural sup.now.num_blocks }
    ensures found { (m : ℕ → Option (List ℕ)) (rows : List names.NameRow) → B.told under.old ≡ Some m → AreFound (volume_of sup.now (contents m)) (proper (as_rows rows)) found.old.items → OnOk result (AreFound (volume_of sup.now (contents m)) (proper (as_rows (rows ++ row.now ∷ []))) found.new.items) }
    ensures inside { AreInside (natural sup.now.num_blocks) found.old.items → OnOk result (AreInside (natural sup.now.num_blocks) found.new.items) }
    ensures claimed { (m : ℕ → Option (List ℕ)) (xs : List ℕ) → B.told under.old ≡ Some m → AreClaimed claims.old xs → OnOk result (AreClaimed claims.new (xs ++ row_blocks (volume_of sup.now (contents m)) (row.now ∷ []))) }
    ensures wrong { (m : ℕ → Option (List ℕ)) → B.told under.old ≡ Some m → (is_proper row.now.name ≡ true → In (row.now.name, row.now.value) (index_rows (volume_of sup.now (contents m)))) → IfErr result (IsTrueOf (volume_of sup.now (contents m))) }
    ensures taken { (m : ℕ → Option (List ℕ)) (xs : List ℕ) → B.told under.old ≡ Some m → AreClaimed claims.old xs → IfErr result (IsTakenIn (volume_of sup.now (contents m)) xs row.now) }
    ensures blocks { claims.new.blocks ≡ claims.old.blocks }
    ensures told { B.told under.new ≡ B.told under.old }
    ensures changed { B.changed under.new ≡ B.changed under.old }
    ensures pairs { B.pairs under.new ≡ B.pairs under.old }
    ensures size { B.size under.new ≡ B.size under.old }
    ensures frame { B.frame under.new ≡ B.frame under.old }
    ensures later { AreLater (B.counts under.old) (B.counts under.new) }
    ensures cause { IfErr result (IsVisitCause (B.counts under.old) (B.counts under.new)) }
{
    let named = is_proper_name(row.name.as_slice());
    if !named {
        return Ok(());
    }
    let id = number_of(row.value);
    let kind = match visit_index(alloc, under, sup, id, claims) {
        Ok(kind) => kind,
        Err(fault) => return Err(fault),
    };
    match push_index(alloc, row.name.as_slice(), id, kind, found) {
        Ok(()) => Ok(()),
        Err(fault) => Err(fault),
    }
}

/// Goes over the indices that the rows of the index directory name, one after the other, and claims their blocks, where those of the directory are
/// claimed. Where one of their blocks is taken, the directory and the indices before are looked at a second time.
pub(crate) fn visit_rows<B: Blocks>(
    alloc: Global,
    under: &mut B,
    sup: &Super,
    directory: u64,
    rows: &[NameRow],
    claims: &mut Claims,
) -> Result<Vec<FoundIndex>, VisitFault>
    requires valid { IsValid sup.now }
    requires directory { directory < natural sup.now.num_blocks }
    requires rows { AllByRecursion (NamesBlock (natural sup.now.num_blocks)) (proper (as_rows rows.now)) }
    requires size { B.size under.old ≡ sup.now.block_size }
    requires all { (m : ℕ → Option (List ℕ)) → B.told under.old ≡ Some m → IsAllTold (sizes_of sup.now) m }
    requires blocks { claims.old.blocks ≡ natural sup.now.num_blocks }
    ensures found { (m : ℕ → Option (List ℕ)) → B.told under.old ≡ Some m → IfOk result (λ found. AreFound (volume_of sup.now (contents m)) (proper (as_rows rows.now)) found.items) }
    ensures inside { IfOk result (λ found. AreInside (natural sup.now.num_blocks) found.items) }
    ensures claimed { (m : ℕ → Option (List ℕ)) (xs : List ℕ) → B.told under.old ≡ Some m → AreClaimed claims.old xs → OnOk result (AreClaimed claims.new (xs ++ row_blocks (volume_of sup.now (contents m)) rows.now)) }
    ensures wrong { (m : ℕ → Option (List ℕ)) (xs : List ℕ) → B.told under.old ≡ Some m → AreClaimed claims.old xs → Arrives (volume_of sup.now (contents m)) to_indices directory → AreNames (content (volume_of sup.now (contents m)) directory) rows.now → IfErr result (IsTrueOf (volume_of sup.now (contents m))) }
    ensures taken { (m : ℕ → Option (List ℕ)) (xs : List ℕ) → B.told under.old ≡ Some m → AreClaimed claims.old (xs ++ inode_blocks (volume_of sup.now (contents m)) directory) → IfErr result (IsTakenBy (volume_of sup.now (contents m)) xs rows.now) }
    ensures blocks { claims.new.blocks ≡ claims.old.blocks }
    ensures told { B.told under.new ≡ B.told under.old }
    ensures changed { B.changed under.new ≡ B.changed under.old }
    ensures pairs { B.pairs under.new ≡ B.pairs under.old }
    ensures size { B.size under.new ≡ B.size under.old }
    ensures frame { B.frame under.new ≡ B.frame under.old }
    ensures later { AreLater (B.counts under.old) (B.counts under.new) }
    ensures cause { IfErr result (IsVisitCause (B.counts under.old) (B.counts under.new)) }
{
    let mut found = Vec::new(alloc);
    for i in 0..rows.len() {
        match visit_row(alloc, under, sup, &rows[i], &mut found, claims) {
            Ok(()) => {}
            Err(fault) => return Err(refusal(alloc, under, sup, directory, &rows[..i], fault)),
        }
    }
    Ok(found)
}
