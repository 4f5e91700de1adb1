// An attribute directory with all that it names.
ghost use Rattle.std.specs.Prelude.{◌≡◌, ◌<◌, ◌++◌, ℕ, List, Option, Some, OnOk, IfOk, IfErr};
ghost use Rattle.std.specs.List.{flat_map};
ghost use Rattle.bfs_bytes.specs.Fields.{run_in};
ghost use Rattle.bfs_inode.specs.Refusals.{Names};
ghost use Rattle.bfs_super.specs.Conditions.{IsValid, natural};
ghost use Rattle.bfs_txn.specs.Faults.{AreLater};
ghost use Rattle.bfs_stream.specs.Sizes.{sizes_of};
ghost use Rattle.bfs_stream.specs.Told.{contents};
ghost use Rattle.bfs_stream_check.specs.Known.{IsAllTold};
ghost use Rattle.bfs_sound.specs.Attributes.{attribute_directory, attribute_inodes, IsAttributeDirectory};
ghost use Rattle.bfs_sound.specs.Inodes.{content, inode_blocks};
ghost use Rattle.bfs_sound.specs.Whole.{volume_of};
ghost use Rattle.bfs_finding.specs.Ways.{IsReached};
ghost use Rattle.bfs_claims.specs.Claims.{AreClaimed};
ghost use Rattle.bfs_inode_walk.specs.Visited.{IsTrueOf, IsVisitCause};
ghost use Rattle.bfs_names_walk.specs.Rows.{AreNames};
ghost use Rattle.bfs_attr_walk.specs.Attributed.{IsTakenAt};

use crate::attribute::visit_rows;
use crate::directory::visit_directory;
use bfs_claims::Claims;
use bfs_inode_walk::VisitFault;
use bfs_names_walk::NameRow;
use bfs_super::Super;
use bfs_txn::Blocks;
use std::alloc::Global;

/// Goes over the attribute directory at this block, and over the inodes of the attributes that its rows name, and claims their blocks.
/// Answers the rows.
pub fn visit_stored<B: Blocks>(
    alloc: Global,
    under: &mut B,
    sup: &Super,
    directory: u64,
    claims: &mut Claims,
) -> Result<Vec<NameRow>, VisitFault>
    requires valid { IsValid sup.now }
    requires inside { directory < natural sup.now.num_blocks }
    requires size { B.size under.old ≡ sup.now.block_size }
    requires all { (m : ℕ → Option (List ℕ)) → B.told under.old ≡ Some m → IsAllTold (sizes_of sup.now) m }
    requires blocks { claims.old.blocks ≡ natural sup.now.num_blocks }
    ensures stands { (m : ℕ → Option (List ℕ)) (id : ℕ) → B.told under.old ≡ Some m → Names (run_in (contents m id) 52) directory (natural sup.now.ag_shift) → OnOk result (IsAttributeDirectory (volume_of sup.now (contents m)) id directory) }
    ensures names { (m : ℕ → Option (List ℕ)) → B.told under.old ≡ Some m → IfOk result (λ rows. AreNames (content (volume_of sup.now (contents m)) directory) rows.items) }
    ensures claimed { (m : ℕ → Option (List ℕ)) (xs : List ℕ) → B.told under.old ≡ Some m → AreClaimed claims.old xs → OnOk result (AreClaimed claims.new (xs ++ flat_map (inode_blocks (volume_of sup.now (contents m))) (attribute_inodes (volume_of sup.now (contents m)) (Some directory)))) }
    ensures wrong { (m : ℕ → Option (List ℕ)) (id : ℕ) → B.told under.old ≡ Some m → IsReached (volume_of sup.now (contents m)) id → attribute_directory (volume_of sup.now (contents m)) id ≡ Some directory → IfErr result (IsTrueOf (volume_of sup.now (contents m))) }
    ensures taken { (m : ℕ → Option (List ℕ)) (xs : List ℕ) → B.told under.old ≡ Some m → AreClaimed claims.old xs → IfErr result (IsTakenAt (volume_of sup.now (contents m)) xs directory) }
    ensures blocks { claims.new.blocks ≡ claims.old.blocks }
    ensures told { B.told under.new ≡ B.told under.old }
    ensures changed { B.changed under.new ≡ B.changed under.old }
    ensures pairs { B.pairs under.new ≡ B.pairs under.old }
    ensures size { B.size under.new ≡ B.size under.old }
    ensures frame { B.frame under.new ≡ B.frame under.old }
    ensures later { AreLater (B.counts under.old) (B.counts under.new) }
    ensures cause { IfErr result (IsVisitCause (B.counts under.old) (B.counts under.new)) }
{
    let _ = claims.count();
    let rows = match visit_directory(alloc, under, sup, directory, claims) {
        Ok(rows) => rows,
        Err(fault) => return Err(fault),
    };
    match visit_rows(alloc, under, sup, directory, &rows, claims) {
        Ok(()) => Ok(rows),
        Err(fault) => Err(fault),
    }
}
