// One index.
ghost use Rattle.std.specs.Prelude.{◌≡◌, ◌≤◌, ◌<◌, ◌++◌, ℕ, List, length, Option, Some, OnOk, IfOk, IfErr};
ghost use Rattle.bfs_base.specs.Keys.{IsTreeKind};
ghost use Rattle.bfs_super.specs.Conditions.{IsValid, natural};
ghost use Rattle.bfs_txn.specs.Faults.{AreLater};
ghost use Rattle.bfs_stream.specs.Sizes.{sizes_of};
ghost use Rattle.bfs_stream.specs.Places.{HasStream};
ghost use Rattle.bfs_stream.specs.Told.{contents};
ghost use Rattle.bfs_stream_check.specs.Known.{IsAllTold};
ghost use Rattle.bfs_values.specs.Reached.{IsWholeTree};
ghost use Rattle.bfs_sound.specs.Inodes.{content, inode_blocks};
ghost use Rattle.bfs_sound.specs.Listings.{IsIndex};
ghost use Rattle.bfs_sound.specs.Whole.{volume_of};
ghost use Rattle.bfs_finding.specs.Ways.{Arrives, to_index, IsListed};
ghost use Rattle.bfs_claims.specs.Claims.{AreClaimed};
ghost use Rattle.bfs_inode_walk.specs.Visited.{IsTrueOf, IsTaken, IsUntaken, IsVisitCause};

use crate::header::find_kind;
use crate::values::read_rows;
use bfs_claims::Claims;
use bfs_inode_walk::{VisitFault, visit_inode};
use bfs_node::KeyKind;
use bfs_node_check::Role;
use bfs_super::Super;
use bfs_txn::Blocks;
use bfs_value_walk::NoRows;
use std::alloc::Global;

/// The kind of keys of the tree of an index, all of which is read.
fn read_tree<B: Blocks>(
    alloc: Global,
    under: &mut B,
    sup: &Super,
    id: u64,
    bytes: &[u8],
) -> Result<KeyKind, VisitFault>
    requires valid { IsValid sup.now }
    requires inside { id < natural sup.now.num_blocks }
    requires size { B.size under.old ≡ sup.now.block_size }
    requires all { (m : ℕ → Option (List ℕ)) → B.told under.old ≡ Some m → IsAllTold (sizes_of sup.now) m }
    requires long { 1024 ≤ length bytes.now }
    requires bytes { (m : ℕ → Option (List ℕ)) → B.told under.old ≡ Some m → bytes.now ≡ contents m id }
    requires stream { (m : ℕ → Option (List ℕ)) → B.told under.old ≡ Some m → HasStream (sizes_of sup.now) (contents m) id }
    ensures kind { IfOk result IsTreeKind }
    ensures whole { (m : ℕ → Option (List ℕ)) → B.told under.old ≡ Some m → IfOk result (λ kind. IsWholeTree kind (content (volume_of sup.now (contents m)) id)) }
    ensures wrong { (m : ℕ → Option (List ℕ)) → B.told under.old ≡ Some m → IsListed (volume_of sup.now (contents m)) id → IfErr result (IsTrueOf (volume_of sup.now (contents m))) }
    ensures untaken { IfErr result IsUntaken }
    ensures told { B.told under.new ≡ B.told under.old }
    ensures changed { B.changed under.new ≡ B.changed under.old }
    ensures pairs { B.pairs under.new ≡ B.pairs under.old }
    ensures size { B.size under.new ≡ B.size under.old }
    ensures frame { B.frame under.new ≡ B.frame under.old }
    ensures later { AreLater (B.counts under.old) (B.counts under.new) }
    ensures cause { IfErr result (IsVisitCause (B.counts under.old) (B.counts under.new)) }
{
    let kind = match find_kind(alloc, under, sup, id, bytes) {
        Ok(kind) => kind,
        Err(fault) => return Err(fault),
    };
    let mut none = NoRows {};
    match read_rows(alloc, under, sup, id, bytes, kind, &mut none) {
        Ok(()) => Ok(kind),
        Err(fault) => Err(fault),
    }
}

/// Goes over the index at this block: its inode, its stream and blocks, which are claimed, and its whole tree. Answers the kind of its keys.
pub fn visit_index<B: Blocks>(
    alloc: Global,
    under: &mut B,
    sup: &Super,
    id: u64,
    claims: &mut Claims,
) -> Result<KeyKind, VisitFault>
    requires valid { IsValid sup.now }
    requires inside { id < natural sup.now.num_blocks }
    requires size { B.size under.old ≡ sup.now.block_size }
    requires all { (m : ℕ → Option (List ℕ)) → B.told under.old ≡ Some m → IsAllTold (sizes_of sup.now) m }
    requires blocks { claims.old.blocks ≡ natural sup.now.num_blocks }
    ensures index { (m : ℕ → Option (List ℕ)) → B.told under.old ≡ Some m → IfOk result (IsIndex (volume_of sup.now (contents m)) id) }
    ensures claimed { (m : ℕ → Option (List ℕ)) (xs : List ℕ) → B.told under.old ≡ Some m → AreClaimed claims.old xs → OnOk result (AreClaimed claims.new (xs ++ inode_blocks (volume_of sup.now (contents m)) id)) }
    ensures wrong { (m : ℕ → Option (List ℕ)) (name : List ℕ) → B.told under.old ≡ Some m → Arrives (volume_of sup.now (contents m)) (to_index name) id → IfErr result (IsTrueOf (volume_of sup.now (contents m))) }
    ensures taken { (m : ℕ → Option (List ℕ)) (xs : List ℕ) → B.told under.old ≡ Some m → AreClaimed claims.old xs → IfErr result (IsTaken xs (inode_blocks (volume_of sup.now (contents m)) id) id) }
    ensures kind { IfOk result IsTreeKind }
    ensures more { OnOk result (claims.old.count < claims.new.count) }
    ensures blocks { claims.new.blocks ≡ claims.old.blocks }
    ensures told { B.told under.new ≡ B.told under.old }
    ensures changed { B.changed under.new ≡ B.changed under.old }
    ensures pairs { B.pairs under.new ≡ B.pairs under.old }
    ensures size { B.size under.new ≡ B.size under.old }
    ensures frame { B.frame under.new ≡ B.frame under.old }
    ensures later { AreLater (B.counts under.old) (B.counts under.new) }
    ensures cause { IfErr result (IsVisitCause (B.counts under.old) (B.counts under.new)) }
{
    let bytes = match visit_inode(alloc, under, sup, id, Role::Index, claims) {
        Ok(bytes) => bytes,
        Err(fault) => return Err(fault),
    };
    match read_tree(alloc, under, sup, id, &bytes) {
        Ok(kind) => Ok(kind),
        Err(fault) => Err(fault),
    }
}
