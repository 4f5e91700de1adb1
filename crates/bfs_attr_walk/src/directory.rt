// The inode of an attribute directory, gone over with its rows.
ghost use Rattle.std.specs.Prelude.{◌≡◌, ◌≤◌, ◌<◌, ◌++◌, ℕ, List, length, Option, Some, OnOk, IfOk, IfErr};
ghost use Rattle.std.specs.List.{AllByRecursion};
ghost use Rattle.bfs_super.specs.Conditions.{IsValid, natural};
ghost use Rattle.bfs_txn.specs.Faults.{AreLater};
ghost use Rattle.bfs_stream.specs.Sizes.{sizes_of};
ghost use Rattle.bfs_stream.specs.Places.{HasStream};
ghost use Rattle.bfs_stream.specs.Told.{contents};
ghost use Rattle.bfs_stream_check.specs.Known.{IsAllTold};
ghost use Rattle.bfs_sound.specs.Inodes.{content};
ghost use Rattle.bfs_sound.specs.Whole.{volume_of};
ghost use Rattle.bfs_finding.specs.Ways.{Arrives, to_directory, HasNames};
ghost use Rattle.bfs_claims.specs.Claims.{AreClaimed};
ghost use Rattle.bfs_node_check.specs.declared.role.Role.TheVariants as roles;
ghost use Rattle.bfs_inode_walk.specs.Visited.{role_blocks, IsSoundIn, IsTrueOf, IsTaken, IsUntaken, IsVisitCause};
ghost use Rattle.bfs_names_walk.specs.Rows.{AreNames, as_rows};
ghost use Rattle.bfs_node_walk.specs.Listed.{proper, NamesBlock};

use bfs_claims::Claims;
use bfs_finding::Finding;
use bfs_inode_walk::{VisitFault, visit_inode};
use bfs_names_walk::NameRow;
use bfs_node_check::Role;
use bfs_node_walk::{check_rows, read_names};
use bfs_super::Super;
use bfs_txn::Blocks;
use std::alloc::Global;

/// The rows of the tree of names in the stream of an inode with these bytes, which was found to keep its format. Each but `.` and `..`
/// names a block.
pub fn rows_in<B: Blocks>(
    alloc: Global,
    under: &mut B,
    sup: &Super,
    id: u64,
    bytes: &[u8],
) -> Result<Vec<NameRow>, VisitFault>
    requires valid { IsValid sup.now }
    requires inside { id < natural sup.now.num_blocks }
    requires size { B.size under.old ≡ sup.now.block_size }
    requires all { (m : ℕ → Option (List ℕ)) → B.told under.old ≡ Some m → IsAllTold (sizes_of sup.now) m }
    requires long { 1024 ≤ length bytes.now }
    requires bytes { (m : ℕ → Option (List ℕ)) → B.told under.old ≡ Some m → bytes.now ≡ contents m id }
    requires stream { (m : ℕ → Option (List ℕ)) → B.told under.old ≡ Some m → HasStream (sizes_of sup.now) (contents m) id }
    ensures names { (m : ℕ → Option (List ℕ)) → B.told under.old ≡ Some m → IfOk result (λ rows. AreNames (content (volume_of sup.now (contents m)) id) rows.items) }
    ensures inside { IfOk result (λ rows. AllByRecursion (NamesBlock (natural sup.now.num_blocks)) (proper (as_rows rows.items))) }
    ensures wrong { (m : ℕ → Option (List ℕ)) → B.told under.old ≡ Some m → HasNames (volume_of sup.now (contents m)) id → IfErr result (IsTrueOf (volume_of sup.now (contents m))) }
    ensures untaken { IfErr result IsUntaken }
    ensures told { B.told under.new ≡ B.told under.old }
    ensures changed { B.changed under.new ≡ B.changed under.old }
    ensures pairs { B.pairs under.new ≡ B.pairs under.old }
    ensures size { B.size under.new ≡ B.size under.old }
    ensures frame { B.frame under.new ≡ B.frame under.old }
    ensures later { AreLater (B.counts under.old) (B.counts under.new) }
    ensures cause { IfErr result (IsVisitCause (B.counts under.old) (B.counts under.new)) }
{
    let rows = match read_names(alloc, under, sup, id, bytes) {
        Ok(rows) => rows,
        Err(fault) => return Err(fault),
    };
    match check_rows(&rows, sup.geometry().blocks) {
        Ok(()) => Ok(rows),
        Err(value) => Err(VisitFault::Wrong(Finding::Row { owner: id, value })),
    }
}

/// Goes over the inode of an attribute directory at this block: the inode, its stream and blocks, which are claimed, and its rows, of
/// which each but `.` and `..` names a block. The inodes of the attributes aren't looked at.
pub fn visit_directory<B: Blocks>(
    alloc: Global,
    under: &mut B,
    sup: &Super,
    directory: u64,
    claims: &mut Claims,
) -> Result<Vec<NameRow>, VisitFault>
    requires valid { IsValid sup.now }
    requires inside { directory < natural sup.now.num_blocks }
    requires size { B.size under.old ≡ sup.now.block_size }
    requires all { (m : ℕ → Option (List ℕ)) → B.told under.old ≡ Some m → IsAllTold (sizes_of sup.now) m }
    requires blocks { claims.old.blocks ≡ natural sup.now.num_blocks }
    ensures sound { (m : ℕ → Option (List ℕ)) → B.told under.old ≡ Some m → OnOk result (IsSoundIn (volume_of sup.now (contents m)) roles.AttributeDirectory directory) }
    ensures names { (m : ℕ → Option (List ℕ)) → B.told under.old ≡ Some m → IfOk result (λ rows. AreNames (content (volume_of sup.now (contents m)) directory) rows.items) }
    ensures inside { IfOk result (λ rows. AllByRecursion (NamesBlock (natural sup.now.num_blocks)) (proper (as_rows rows.items))) }
    ensures claimed { (m : ℕ → Option (List ℕ)) (xs : List ℕ) → B.told under.old ≡ Some m → AreClaimed claims.old xs → OnOk result (AreClaimed claims.new (xs ++ role_blocks (volume_of sup.now (contents m)) roles.AttributeDirectory directory)) }
    ensures wrong { (m : ℕ → Option (List ℕ)) (id : ℕ) → B.told under.old ≡ Some m → Arrives (volume_of sup.now (contents m)) (to_directory id) directory → IfErr result (IsTrueOf (volume_of sup.now (contents m))) }
    ensures taken { (m : ℕ → Option (List ℕ)) (xs : List ℕ) → B.told under.old ≡ Some m → AreClaimed claims.old xs → IfErr result (IsTaken xs (role_blocks (volume_of sup.now (contents m)) roles.AttributeDirectory directory) directory) }
    ensures more { OnOk result (claims.old.count < claims.new.count) }
    ensures blocks { claims.new.blocks ≡ claims.old.blocks }
    ensures told { B.told under.new ≡ B.told under.old }
    ensures changed { B.changed under.new ≡ B.changed under.old }
    ensures pairs { B.pairs under.new ≡ B.pairs under.old }
    ensures size { B.size under.new ≡ B.size under.old }
    ensures frame { B.frame under.new ≡ B.frame under.old }
    ensures later { AreLater (B.counts under.old) (B.counts under.new) }
    ensures cause { IfErr result (IsVisitCause (B.counts under.old) (B.counts under.new)) }
{
    let bytes = match visit_inode(
        alloc,
        under,
        sup,
        directory,
        Role::AttributeDirectory,
        claims,
    ) {
        Ok(bytes) => bytes,
        Err(fault) => return Err(fault),
    };
    match rows_in(alloc, under, sup, directory, &bytes) {
        Ok(rows) => Ok(rows),
        Err(fault) => Err(fault),
    }
}
