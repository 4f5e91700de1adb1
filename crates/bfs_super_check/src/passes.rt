// What is wrong with a superblock.
ghost use Rattle.std.specs.Prelude.{◌≡◌, ◌≤◌, ◌↔◌, ◌*◌, ℕ, List, length, pos, IsOk, IsTrue, OnOk, IfOk, IfErr};
ghost use Rattle.bfs_base.specs.Images.{sector};
ghost use Rattle.bfs_super.specs.Conditions.{IsValid};
ghost use Rattle.bfs_super.specs.Layout.{super_at};
ghost use Rattle.bfs_tree.specs.Trees.{Tree};
ghost use Rattle.bfs_sound.specs.Volumes.{Volume};
ghost use Rattle.bfs_sound.specs.Owners.{reach, Marks, Counts};
ghost use Rattle.bfs_sound.specs.Whole.{volume_of, HasSoundIndices};
ghost use Rattle.bfs_finding.specs.Findings.{IsFinding, IsFindingOf, Standing};

use bfs_finding::Finding;
use bfs_super::Super;

/// The superblock in a sector, if it meets its conditions; else the finding on an image whose second sector this is.
pub fn check_super(bytes: &[u8; 512]) -> Result<Super, Finding>
    ensures valid { IfOk result (λ s. (s ≡ super_at bytes.now) × IsValid s) }
    ensures good { IsValid (super_at bytes.now) → IsOk result }
    ensures wrong { (image : List ℕ) → 512 * 2 ≤ length image → sector 1 image ≡ bytes.now → IfErr result (IsFinding image) }
{
    match Super::parse(bytes) {
        Ok(sup) => Ok(sup),
        Err(fault) => Err(Finding::Super(fault)),
    }
}

/// Is the log empty?
pub fn check_log(sup: &Super) -> Result<(), Finding>
    ensures emptied { OnOk result (sup.now.log_start ≡ sup.now.log_end) }
    ensures good { sup.now.log_start ≡ sup.now.log_end → IsOk result }
    ensures wrong { (v : Volume) → IfErr result (IsFindingOf sup.now v) }
{
    if sup.log_start == sup.log_end {
        Ok(())
    } else {
        Err(Finding::Log {
            start: sup.log_start,
            end: sup.log_end,
        })
    }
}

/// Is a signed number this one?
fn is_number(found: i64, wanted: u64) -> bool
    ensures { IsTrue result ↔ (found ≡ pos wanted) }
{
    found >= 0 && found as u64 == wanted
}

/// Does the superblock count so many used blocks?
pub fn check_used(sup: &Super, count: u64) -> Result<(), Finding>
    ensures same { OnOk result (sup.now.used_blocks ≡ pos count) }
    ensures counts { (blocks : ℕ → List ℕ) (xs : List ℕ) → length xs ≡ count → OnOk result (Counts (volume_of sup.now blocks) xs) }
    ensures good { sup.now.used_blocks ≡ pos count → IsOk result }
    ensures wrong { (v : Volume) (tree : Tree) → sup.now.log_start ≡ sup.now.log_end → Standing v tree → HasSoundIndices v tree → Marks v (reach v tree) → length (reach v tree) ≡ count → IfErr result (IsFindingOf sup.now v) }
{
    let found = sup.used_blocks;
    if is_number(found, count) {
        Ok(())
    } else {
        Err(Finding::Used {
            found,
            wanted: count,
        })
    }
}
