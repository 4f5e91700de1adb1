// Claims the blocks of runs, and counts one among them.
ghost use Rattle.std.specs.Prelude.{◌≡◌, ◌≤◌, ◌+◌, ◌++◌, ℕ, List, All, OnOk, IfErr};
ghost use Rattle.bfs_base.specs.Lists.{times, Has};
ghost use Rattle.bfs_super.specs.Conditions.{IsValid, natural};
ghost use Rattle.bfs_stream.specs.Sizes.{sizes_of, first_block, IsInVolume};
ghost use Rattle.bfs_stream.specs.Places.{run_blocks, blocks_of};
ghost use Rattle.bfs_claims.specs.Claims.{AreClaimed};
ghost use Rattle.bfs_inode_walk.specs.Visited.{IsTwiceAmong};

use bfs_bytes::Run;
use bfs_claims::Claims;
use bfs_super::Super;

/// The first block of a run.
fn start_of(sup: Super, run: Run) -> u64
    requires valid { IsValid sup }
    requires inside { IsInVolume (sizes_of sup) run }
    ensures value { result ≡ first_block (sizes_of sup) run }
    ensures inside { result + run.len ≤ natural sup.num_blocks }
{
    sup.block_of(run)
}

/// Claims the blocks of a run, if none of them is claimed; else the first of them that is.
fn claim_run(claims: &mut Claims, sup: Super, run: Run) -> Result<(), u64>
    requires valid { IsValid sup }
    requires inside { IsInVolume (sizes_of sup) run }
    requires blocks { claims.old.blocks ≡ natural sup.num_blocks }
    ensures claimed { (xs : List ℕ) → AreClaimed claims.old xs → OnOk result (AreClaimed claims.new (xs ++ run_blocks (sizes_of sup) run)) }
    ensures twice { (xs : List ℕ) → AreClaimed claims.old xs → IfErr result (λ block. Has xs block × Has (run_blocks (sizes_of sup) run) block) }
    ensures more { OnOk result (claims.old.count ≤ claims.new.count) }
    ensures blocks { claims.new.blocks ≡ claims.old.blocks }
{
    let first = start_of(sup, run);
    claims.claim(first, u64::from(run.len))
}

/// Claims the blocks of runs one after the other. Else the first block that is claimed already, before or by one of these runs.
pub(crate) fn claim_runs(claims: &mut Claims, sup: Super, runs: &[Run]) -> Result<(), u64>
    requires valid { IsValid sup }
    requires inside { All (IsInVolume (sizes_of sup)) runs.now }
    requires blocks { claims.old.blocks ≡ natural sup.num_blocks }
    ensures claimed { (xs : List ℕ) → AreClaimed claims.old xs → OnOk result (AreClaimed claims.new (xs ++ blocks_of (sizes_of sup) runs.now)) }
    ensures twice { (xs : List ℕ) → AreClaimed claims.old xs → IfErr result (IsTwiceAmong xs (blocks_of (sizes_of sup) runs.now)) }
    ensures more { OnOk result (claims.old.count ≤ claims.new.count) }
    ensures blocks { claims.new.blocks ≡ claims.old.blocks }
{
    for i in 0..runs.len() {
        let run = runs[i];
        match claim_run(claims, sup, run) {
            Ok(()) => {}
            Err(block) => return Err(block),
        }
    }
    Ok(())
}

/// How many times a block is among those of a run.
fn count_of(sup: Super, run: Run, block: u64) -> usize
    requires valid { IsValid sup }
    requires inside { IsInVolume (sizes_of sup) run }
    ensures count { result ≡ times block (run_blocks (sizes_of sup) run) }
    ensures once { result ≤ 1 }
{
    let first = start_of(sup, run);
    if block < first {
        return 0;
    }
    if block < first + u64::from(run.len) {
        1
    } else {
        0
    }
}

/// How many times a block is among those of runs.
pub(crate) fn count_in(sup: Super, runs: &[Run], block: u64) -> usize
    requires valid { IsValid sup }
    requires inside { All (IsInVolume (sizes_of sup)) runs.now }
    ensures { result ≡ times block (blocks_of (sizes_of sup) runs.now) }
{
    let mut count = 0;
    for i in 0..runs.len() {
        let run = runs[i];
        let more = count_of(sup, run, block);
        count += more;
    }
    count
}
