// Goes over one inode.
ghost use Rattle.std.specs.Prelude.{◌≡◌, ◌≤◌, ◌<◌, ◌++◌, ℕ, List, [], ◌∷◌, length, Option, Some, OnOk, IfOk, IfErr, true};
ghost use Rattle.bfs_super.specs.Conditions.{IsValid, natural};
ghost use Rattle.bfs_txn.specs.Faults.{Counts, AreLater};
ghost use Rattle.bfs_stream.specs.Sizes.{sizes_of};
ghost use Rattle.bfs_stream.specs.Told.{contents};
ghost use Rattle.bfs_stream_check.specs.Known.{IsAllTold};
ghost use Rattle.bfs_sound.specs.Volumes.{Volume};
ghost use Rattle.bfs_sound.specs.Whole.{volume_of};
ghost use Rattle.bfs_finding.specs.Ways.{Way, Arrives};
ghost use Rattle.bfs_claims.specs.Claims.{AreClaimed};
ghost use Rattle.bfs_node_check.specs.Roles.{is_node, role_of};
ghost use Rattle.bfs_node_check.specs.Inodes.{IsGoodNode};
ghost use Rattle.bfs_inode_walk.specs.Visited.{role_blocks, IsSoundIn, IsTrueOf, IsTaken, IsVisitCause};

use crate::VisitFault;
use crate::block::{has_no_stream, look_at_inode};
use crate::stream::take_stream;
use bfs_claims::Claims;
use bfs_node_check::Role;
use bfs_super::Super;
use bfs_txn::Blocks;
use std::alloc::Global;

/// Claims the block of an inode.
fn claim_own(claims: &mut Claims, id: u64) -> Result<(), VisitFault>
    requires inside { id < claims.old.blocks }
    ensures claimed { (xs : List ℕ) → AreClaimed claims.old xs → OnOk result (AreClaimed claims.new (xs ++ id ∷ [])) }
    ensures taken { (xs rest : List ℕ) → AreClaimed claims.old xs → IfErr result (IsTaken xs (id ∷ rest) id) }
    ensures wrong { (v : Volume) → IfErr result (IsTrueOf v) }
    ensures cause { (old new : Counts) → IfErr result (IsVisitCause old new) }
    ensures more { OnOk result (claims.old.count < claims.new.count) }
    ensures blocks { claims.new.blocks ≡ claims.old.blocks }
{
    match claims.claim(id, 1) {
        Ok(()) => Ok(()),
        Err(block) => Err(VisitFault::Taken { block, owner: id }),
    }
}

/// Goes over the inode at a block, which has this place, and claims its block, the array blocks and the blocks of its stream. Answers
/// the bytes of its block exactly where it is right for its place, has no block twice, and none of these blocks was claimed before; else what is
/// wrong with it, or the first of its blocks that was claimed before. More is claimed behind it than before, whatever the blocks tell. Beside its
/// block it takes the memory of a block and of the stream's runs.
pub fn visit_inode<B: Blocks>(
    alloc: Global,
    under: &mut B,
    sup: &Super,
    id: u64,
    role: Role,
    claims: &mut Claims,
) -> Result<Vec<u8>, VisitFault>
    requires valid { IsValid sup.now }
    requires inside { id < natural sup.now.num_blocks }
    requires size { B.size under.old ≡ sup.now.block_size }
    requires all { (m : ℕ → Option (List ℕ)) → B.told under.old ≡ Some m → IsAllTold (sizes_of sup.now) m }
    requires blocks { claims.old.blocks ≡ natural sup.now.num_blocks }
    ensures sound { (m : ℕ → Option (List ℕ)) → B.told under.old ≡ Some m → OnOk result (IsSoundIn (volume_of sup.now (contents m)) role id) }
    ensures read { (m : ℕ → Option (List ℕ)) → B.told under.old ≡ Some m → IfOk result (λ bytes. bytes.items ≡ contents m id) }
    ensures length { IfOk result (λ bytes. length bytes.items ≡ sup.now.block_size) }
    ensures long { IfOk result (λ bytes. 1024 ≤ length bytes.items) }
    ensures node { is_node role ≡ true → IfOk result (λ bytes. (v : Volume) → v.blocks id ≡ bytes.items → IsGoodNode v id) }
    ensures claimed { (m : ℕ → Option (List ℕ)) (xs : List ℕ) → B.told under.old ≡ Some m → AreClaimed claims.old xs → OnOk result (AreClaimed claims.new (xs ++ role_blocks (volume_of sup.now (contents m)) role id)) }
    ensures wrong { (m : ℕ → Option (List ℕ)) (way : Way) → B.told under.old ≡ Some m → role_of way ≡ Some role → Arrives (volume_of sup.now (contents m)) way id → IfErr result (IsTrueOf (volume_of sup.now (contents m))) }
    ensures taken { (m : ℕ → Option (List ℕ)) (xs : List ℕ) → B.told under.old ≡ Some m → AreClaimed claims.old xs → IfErr result (IsTaken xs (role_blocks (volume_of sup.now (contents m)) role id) id) }
    ensures more { OnOk result (claims.old.count < claims.new.count) }
    ensures blocks { claims.new.blocks ≡ claims.old.blocks }
    ensures told { B.told under.new ≡ B.told under.old }
    ensures changed { B.changed under.new ≡ B.changed under.old }
    ensures pairs { B.pairs under.new ≡ B.pairs under.old }
    ensures size { B.size under.new ≡ B.size under.old }
    ensures frame { B.frame under.new ≡ B.frame under.old }
    ensures later { AreLater (B.counts under.old) (B.counts under.new) }
    ensures cause { IfErr result (IsVisitCause (B.counts under.old) (B.counts under.new)) }
{
    let bytes = match look_at_inode(alloc, under, *sup, id, role) {
        Ok(bytes) => bytes,
        Err(fault) => return Err(fault),
    };
    match claim_own(claims, id) {
        Ok(()) => {}
        Err(fault) => return Err(fault),
    }
    let alone = has_no_stream(&bytes, role);
    if alone {
        return Ok(bytes);
    }
    match take_stream(alloc, under, sup, id, claims) {
        Ok(()) => Ok(bytes),
        Err(fault) => Err(fault),
    }
}
