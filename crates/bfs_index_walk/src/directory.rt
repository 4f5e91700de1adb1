// The index directory with its rows.
ghost use Rattle.std.specs.Prelude.{◌≡◌, ◌≤◌, ◌<◌, ◌++◌, ℕ, List, Option, Some, OnOk, IfOk, IfErr};
ghost use Rattle.std.specs.List.{AllByRecursion};
ghost use Rattle.bfs_base.specs.declared.kind.KeyKind.TheVariants.{Text};
ghost use Rattle.bfs_super.specs.Conditions.{IsValid, natural};
ghost use Rattle.bfs_txn.specs.Faults.{AreLater};
ghost use Rattle.bfs_stream.specs.Sizes.{sizes_of};
ghost use Rattle.bfs_stream.specs.Told.{contents};
ghost use Rattle.bfs_stream_check.specs.Known.{IsAllTold};
ghost use Rattle.bfs_sound.specs.Inodes.{content, inode_blocks};
ghost use Rattle.bfs_sound.specs.Listings.{IsIndex};
ghost use Rattle.bfs_sound.specs.Whole.{volume_of};
ghost use Rattle.bfs_finding.specs.Ways.{Arrives, to_indices};
ghost use Rattle.bfs_claims.specs.Claims.{AreClaimed};
ghost use Rattle.bfs_inode_walk.specs.Visited.{IsTrueOf, IsTaken, IsVisitCause};
ghost use Rattle.bfs_names_walk.specs.Rows.{AreNames, as_rows};
ghost use Rattle.bfs_node_walk.specs.Listed.{proper, NamesBlock};

use bfs_attrs_walk::attr_walk::rows_in;
use bfs_claims::Claims;
use bfs_inode_walk::{VisitFault, visit_inode};
use bfs_names_walk::NameRow;
use bfs_node_check::Role;
use bfs_super::Super;
use bfs_txn::Blocks;
use std::alloc::Global;

/// Goes over the index directory, which is at this block: its inode, its stream and blocks, which are claimed, and its rows, of which each
/// but `.` and `..` names a block. The indices aren't looked at.
pub(crate) fn visit_directory<B: Blocks>(
    alloc: Global,
    under: &mut B,
    sup: &Super,
    directory: u64,
    claims: &mut Claims,
) -> Result<Vec<NameRow>, VisitFault>
    requires valid { IsValid sup.now }
    requires inside { directory < natural sup.now.num_blocks }
    requires size { B.size under.old ≡ sup.now.block_size }
    requires all { (m : ℕ → Option (List ℕ)) → B.told under.old ≡ Some m → IsAllTold (sizes_of sup.now) m }
    requires blocks { claims.old.blocks ≡ natural sup.now.num_blocks }
    ensures index { (m : ℕ → Option (List ℕ)) → B.told under.old ≡ Some m → OnOk result (IsIndex (volume_of sup.now (contents m)) directory Text) }
    ensures names { (m : ℕ → Option (List ℕ)) → B.told under.old ≡ Some m → IfOk result (λ rows. AreNames (content (volume_of sup.now (contents m)) directory) rows.items) }
    ensures inside { IfOk result (λ rows. AllByRecursion (NamesBlock (natural sup.now.num_blocks)) (proper (as_rows rows.items))) }
    ensures claimed { (m : ℕ → Option (List ℕ)) (xs : List ℕ) → B.told under.old ≡ Some m → AreClaimed claims.old xs → OnOk result (AreClaimed claims.new (xs ++ inode_blocks (volume_of sup.now (contents m)) directory)) }
    ensures wrong { (m : ℕ → Option (List ℕ)) → B.told under.old ≡ Some m → Arrives (volume_of sup.now (contents m)) to_indices directory → IfErr result (IsTrueOf (volume_of sup.now (contents m))) }
    ensures taken { (m : ℕ → Option (List ℕ)) (xs : List ℕ) → B.told under.old ≡ Some m → AreClaimed claims.old xs → IfErr result (IsTaken xs (inode_blocks (volume_of sup.now (contents m)) directory) directory) }
    ensures blocks { claims.new.blocks ≡ claims.old.blocks }
    ensures told { B.told under.new ≡ B.told under.old }
    ensures changed { B.changed under.new ≡ B.changed under.old }
    ensures pairs { B.pairs under.new ≡ B.pairs under.old }
    ensures size { B.size under.new ≡ B.size under.old }
    ensures frame { B.frame under.new ≡ B.frame under.old }
    ensures later { AreLater (B.counts under.old) (B.counts under.new) }
    ensures cause { IfErr result (IsVisitCause (B.counts under.old) (B.counts under.new)) }
{
    let bytes = match visit_inode(alloc, under, sup, directory, Role::Index, claims) {
        Ok(bytes) => bytes,
        Err(fault) => return Err(fault),
    };
    match rows_in(alloc, under, sup, directory, &bytes) {
        Ok(rows) => Ok(rows),
        Err(fault) => Err(fault),
    }
}
