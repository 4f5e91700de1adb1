// The stream of an inode: whether it keeps its format, and its blocks, which are claimed.
ghost use Rattle.std.specs.Prelude.{◌≡◌, ◌≤◌, ◌<◌, ◌++◌, ◌∷◌, [], ℕ, List, All, Option, Some, true, false, OnOk, IfOk, IfErr, ◌==◌, if◌then◌else◌};
ghost use Rattle.bfs_base.specs.Lists.{times};
ghost use Rattle.bfs_super.specs.Conditions.{IsValid, natural};
ghost use Rattle.bfs_txn.specs.Faults.{Counts, AreLater};
ghost use Rattle.bfs_stream.specs.Sizes.{sizes_of, IsInVolume};
ghost use Rattle.bfs_stream.specs.Places.{HasStream, blocks_of, arrays_at, places_at};
ghost use Rattle.bfs_stream.specs.Told.{contents};
ghost use Rattle.bfs_stream_check.specs.Known.{IsAllTold};
ghost use Rattle.bfs_sound.specs.Volumes.{Volume};
ghost use Rattle.bfs_sound.specs.Inodes.{inode_blocks};
ghost use Rattle.bfs_sound.specs.Whole.{volume_of};
ghost use Rattle.bfs_finding.specs.Ways.{IsStreamed};
ghost use Rattle.bfs_claims.specs.Claims.{AreClaimed};
ghost use Rattle.bfs_inode_walk.specs.Visited.{IsTrueOf, IsTaken, IsTwiceAmong, IsUntaken, IsVisitCause};

use crate::VisitFault;
use crate::runs::{claim_runs, count_in};
use bfs_bytes::Run;
use bfs_claims::Claims;
use bfs_finding::Finding;
use bfs_stream_check::{ReadFault, StreamRuns, Wrong, read_stream};
use bfs_super::Super;
use bfs_txn::Blocks;
use std::alloc::Global;

/// The finding on the stream of an inode.
fn finding_of(owner: u64, wrong: Wrong) -> Finding
    ensures { result ≡ Finding.Stream owner wrong.found wrong.wanted }
{
    Finding::Stream {
        owner,
        found: wrong.found,
        wanted: wrong.wanted,
    }
}

/// The runs of a stream that keeps its format.
pub(crate) fn look_at_stream<B: Blocks>(
    alloc: Global,
    under: &mut B,
    sup: &Super,
    id: u64,
) -> Result<StreamRuns, VisitFault>
    requires valid { IsValid sup.now }
    requires inside { id < natural sup.now.num_blocks }
    requires size { B.size under.old ≡ sup.now.block_size }
    requires all { (m : ℕ → Option (List ℕ)) → B.told under.old ≡ Some m → IsAllTold (sizes_of sup.now) m }
    ensures sound { (m : ℕ → Option (List ℕ)) → B.told under.old ≡ Some m → OnOk result (HasStream (sizes_of sup.now) (contents m) id) }
    ensures arrays { (m : ℕ → Option (List ℕ)) → B.told under.old ≡ Some m → IfOk result (λ all. blocks_of (sizes_of sup.now) all.arrays.items ≡ arrays_at (sizes_of sup.now) (contents m) id) }
    ensures places { (m : ℕ → Option (List ℕ)) → B.told under.old ≡ Some m → IfOk result (λ all. blocks_of (sizes_of sup.now) all.runs.items ≡ places_at (sizes_of sup.now) (contents m) id) }
    ensures arrays_inside { IfOk result (λ all. All (IsInVolume (sizes_of sup.now)) all.arrays.items) }
    ensures runs_inside { IfOk result (λ all. All (IsInVolume (sizes_of sup.now)) all.runs.items) }
    ensures wrong { (m : ℕ → Option (List ℕ)) → B.told under.old ≡ Some m → IsStreamed (volume_of sup.now (contents m)) id → IfErr result (IsTrueOf (volume_of sup.now (contents m))) }
    ensures untaken { IfErr result IsUntaken }
    ensures told { B.told under.new ≡ B.told under.old }
    ensures changed { B.changed under.new ≡ B.changed under.old }
    ensures pairs { B.pairs under.new ≡ B.pairs under.old }
    ensures size { B.size under.new ≡ B.size under.old }
    ensures frame { B.frame under.new ≡ B.frame under.old }
    ensures later { AreLater (B.counts under.old) (B.counts under.new) }
    ensures cause { IfErr result (IsVisitCause (B.counts under.old) (B.counts under.new)) }
{
    match read_stream(alloc, under, id, sup) {
        Ok(runs) => Ok(runs),
        Err(ReadFault::Wrong(wrong)) => Err(VisitFault::Wrong(finding_of(id, wrong))),
        Err(ReadFault::Block(fault)) => Err(VisitFault::Block(fault)),
    }
}

/// Claims the blocks of the arrays of a stream, and those of its runs. Else a block of these that is claimed already, before or by them.
fn claim_both(claims: &mut Claims, sup: Super, arrays: &[Run], runs: &[Run]) -> Result<(), u64>
    requires valid { IsValid sup }
    requires arrays { All (IsInVolume (sizes_of sup)) arrays.now }
    requires runs { All (IsInVolume (sizes_of sup)) runs.now }
    requires blocks { claims.old.blocks ≡ natural sup.num_blocks }
    ensures claimed { (xs : List ℕ) → AreClaimed claims.old xs → OnOk result (AreClaimed claims.new (xs ++ (blocks_of (sizes_of sup) arrays.now ++ blocks_of (sizes_of sup) runs.now))) }
    ensures twice { (xs : List ℕ) → AreClaimed claims.old xs → IfErr result (IsTwiceAmong xs (blocks_of (sizes_of sup) arrays.now ++ blocks_of (sizes_of sup) runs.now)) }
    ensures more { OnOk result (claims.old.count ≤ claims.new.count) }
    ensures blocks { claims.new.blocks ≡ claims.old.blocks }
{
    match claim_runs(claims, sup, arrays) {
        Ok(()) => {}
        Err(block) => return Err(block),
    }
    match claim_runs(claims, sup, runs) {
        Ok(()) => Ok(()),
        Err(block) => Err(block),
    }
}

/// How many times a block is an inode's own.
fn own_count(id: u64, block: u64) -> usize
    ensures { result ≡ (if id == block then 1 else 0) }
{
    if id == block { 1 } else { 0 }
}

/// Has an inode a block twice, by its own number, its arrays and its runs?
fn has_twice(sup: Super, id: u64, arrays: &[Run], runs: &[Run], block: u64) -> bool
    requires valid { IsValid sup }
    requires arrays { All (IsInVolume (sizes_of sup)) arrays.now }
    requires runs { All (IsInVolume (sizes_of sup)) runs.now }
    ensures twice { result ≡ true → 2 ≤ times block (id ∷ (blocks_of (sizes_of sup) arrays.now ++ blocks_of (sizes_of sup) runs.now)) }
    ensures once { result ≡ false → times block (id ∷ (blocks_of (sizes_of sup) arrays.now ++ blocks_of (sizes_of sup) runs.now)) ≤ 1 }
{
    let own = own_count(id, block);
    let in_arrays = count_in(sup, arrays, block);
    let in_runs = count_in(sup, runs, block);
    own + in_arrays.min(2) + in_runs.min(2) > 1
}

/// What is said of a block of an inode that is claimed already.
fn refusal(sup: Super, id: u64, arrays: &[Run], runs: &[Run], block: u64) -> VisitFault
    requires valid { IsValid sup }
    requires arrays { All (IsInVolume (sizes_of sup)) arrays.now }
    requires runs { All (IsInVolume (sizes_of sup)) runs.now }
    ensures taken { (xs : List ℕ) → IsTwiceAmong (xs ++ id ∷ []) (blocks_of (sizes_of sup) arrays.now ++ blocks_of (sizes_of sup) runs.now) block
        → IsTaken xs (id ∷ (blocks_of (sizes_of sup) arrays.now ++ blocks_of (sizes_of sup) runs.now)) id result }
    ensures wrong { (v : Volume) → IsStreamed v id → inode_blocks v id ≡ id ∷ (blocks_of (sizes_of sup) arrays.now ++ blocks_of (sizes_of sup) runs.now) → IsTrueOf v result }
    ensures cause { (old new : Counts) → IsVisitCause old new result }
{
    if has_twice(sup, id, arrays, runs, block) {
        return VisitFault::Wrong(Finding::Shared {
            block,
            first: id,
            second: id,
        });
    }
    VisitFault::Taken { block, owner: id }
}

/// Goes over the stream of an inode, and claims its blocks.
pub(crate) fn take_stream<B: Blocks>(
    alloc: Global,
    under: &mut B,
    sup: &Super,
    id: u64,
    claims: &mut Claims,
) -> Result<(), VisitFault>
    requires valid { IsValid sup.now }
    requires inside { id < natural sup.now.num_blocks }
    requires size { B.size under.old ≡ sup.now.block_size }
    requires all { (m : ℕ → Option (List ℕ)) → B.told under.old ≡ Some m → IsAllTold (sizes_of sup.now) m }
    requires blocks { claims.old.blocks ≡ natural sup.now.num_blocks }
    ensures sound { (m : ℕ → Option (List ℕ)) → B.told under.old ≡ Some m → OnOk result (HasStream (sizes_of sup.now) (contents m) id) }
    ensures claimed { (m : ℕ → Option (List ℕ)) (xs : List ℕ) → B.told under.old ≡ Some m → AreClaimed claims.old xs → OnOk result (AreClaimed claims.new (xs ++ (arrays_at (sizes_of sup.now) (contents m) id ++ places_at (sizes_of sup.now) (contents m) id))) }
    ensures wrong { (m : ℕ → Option (List ℕ)) → B.told under.old ≡ Some m → IsStreamed (volume_of sup.now (contents m)) id → IfErr result (IsTrueOf (volume_of sup.now (contents m))) }
    ensures taken { (m : ℕ → Option (List ℕ)) (xs : List ℕ) → B.told under.old ≡ Some m → AreClaimed claims.old (xs ++ id ∷ []) → IfErr result (IsTaken xs (id ∷ (arrays_at (sizes_of sup.now) (contents m) id ++ places_at (sizes_of sup.now) (contents m) id)) id) }
    ensures more { OnOk result (claims.old.count ≤ claims.new.count) }
    ensures blocks { claims.new.blocks ≡ claims.old.blocks }
    ensures told { B.told under.new ≡ B.told under.old }
    ensures changed { B.changed under.new ≡ B.changed under.old }
    ensures pairs { B.pairs under.new ≡ B.pairs under.old }
    ensures size { B.size under.new ≡ B.size under.old }
    ensures frame { B.frame under.new ≡ B.frame under.old }
    ensures later { AreLater (B.counts under.old) (B.counts under.new) }
    ensures cause { IfErr result (IsVisitCause (B.counts under.old) (B.counts under.new)) }
{
    let found = match look_at_stream(alloc, under, sup, id) {
        Ok(found) => found,
        Err(fault) => return Err(fault),
    };
    let arrays: &[Run] = &found.arrays;
    let runs: &[Run] = &found.runs;
    match claim_both(claims, *sup, arrays, runs) {
        Ok(()) => Ok(()),
        Err(block) => Err(refusal(*sup, id, arrays, runs, block)),
    }
}
