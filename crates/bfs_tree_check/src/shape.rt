// The pages of a tree and of its free list, all but those that values reach.
ghost use Rattle.std.specs.Prelude.{◌≡◌, ◌<◌, ◌/◌, ℕ, List, [], ◌∷◌, length, Some, IfOk, IfErr};
ghost use Rattle.std.specs.List.{AllByRecursion};
ghost use Rattle.bfs_base.specs.Lists.{times};
ghost use Rattle.bfs_base.specs.Keys.{IsTreeKind};
ghost use Rattle.bfs_txn.specs.Faults.{AreLater};
ghost use Rattle.bfs_pages.specs.Answers.{IsChild, IsLink};
ghost use Rattle.bfs_pages.specs.Trees.{state_of};
ghost use Rattle.bfs_walk.specs.Wrong.{IsWrong, IsWalkCause};
ghost use Rattle.bfs_tree_check.specs.Levels.{AreInside};
ghost use Rattle.bfs_tree_check.specs.Shaped.{IsShaped};
ghost use Rattle.bfs_tree_check.specs.Marked.{marked};

use crate::{Survey, check_free_list, check_links, survey_tree};
use bfs_node::KeyKind;
use bfs_txn::{Pages, Steps};
use bfs_walk::WalkFault;
use std::alloc::Global;
use std::sync::ledger::Ledger;

/// Are the pages from the root down those of a tree, its leaves linked, and its free list one that ends? All these pages are marked.
pub fn check_shape<P: Pages, L: Ledger>(
    alloc: Global,
    pages: &mut P,
    kind: KeyKind,
    root: u64,
    levels: u32,
    free: u64,
    marks: &mut [bool],
    steps: &mut Steps<L>,
) -> Result<Survey, WalkFault<P::Fault>>
    requires kind { IsTreeKind kind }
    requires root { IsChild (P.size pages.old) root }
    requires free { IsLink (P.size pages.old) free }
    requires small { P.size pages.old < 9223372036854775808 }
    requires length { length marks.old ≡ P.size pages.old / 1024 }
    ensures shaped { (b : List ℕ) → P.told pages.old ≡ Some b → root ≡ (state_of kind b).root → levels ≡ (state_of kind b).levels → free ≡ (state_of kind b).free → ((x : ℕ) → marked (P.size pages.old) marks.old x ≡ times x (0 ∷ [])) → IfOk result (λ s. IsShaped kind b s.level.items s.leaves.items (marked (P.size pages.old) marks.new)) }
    ensures wrong { (b : List ℕ) → P.told pages.old ≡ Some b → root ≡ (state_of kind b).root → levels ≡ (state_of kind b).levels → free ≡ (state_of kind b).free → ((x : ℕ) → marked (P.size pages.old) marks.old x ≡ times x (0 ∷ [])) → IfErr result (IsWrong kind b) }
    ensures inside { IfOk result (λ s. AreInside (P.size pages.old) s.level.items) }
    ensures leaves { IfOk result (λ s. AllByRecursion (IsChild (P.size pages.old)) s.leaves.items) }
    ensures length { length marks.new ≡ length marks.old }
    ensures cause { IfErr result (IsWalkCause (P.is_cause pages.old pages.new)) }
    ensures told { P.told pages.new ≡ P.told pages.old }
    ensures size { P.size pages.new ≡ P.size pages.old }
    ensures counts { AreLater (P.counts pages.old) (P.counts pages.new) }
    ensures frame { P.frame pages.new ≡ P.frame pages.old }
    ensures goes_on { P.goes_on pages.old pages.new }
    ensures is_read { P.is_read pages.old pages.new }
{
    let found = match survey_tree(alloc, pages, kind, root, levels, marks, steps) {
        Ok(found) => found,
        Err(fault) => return Err(fault),
    };
    match check_links(pages, &found.leaves, steps) {
        Ok(()) => {}
        Err(fault) => return Err(fault),
    }
    match check_free_list(pages, free, marks, steps) {
        Ok(()) => Ok(found),
        Err(fault) => Err(fault),
    }
}
