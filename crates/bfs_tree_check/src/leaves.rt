// The leaves of a tree, from left to right.
ghost use Rattle.std.specs.Prelude.{◌≡◌, ◌<◌, ◌/◌, ◌+◌, ◌++◌, ℕ, List, [], ◌∷◌, length, drop, Some, OnOk, IfOk, IfErr};
ghost use Rattle.std.specs.List.{AllByRecursion};
ghost use Rattle.bfs_base.specs.Lists.{times};
ghost use Rattle.bfs_base.specs.Keys.{IsTreeKind};
ghost use Rattle.bfs_txn.specs.Faults.{AreLater};
ghost use Rattle.bfs_pages.specs.Answers.{IsChild};
ghost use Rattle.bfs_walk.specs.Wrong.{IsWrong, IsWalkCause};
ghost use Rattle.bfs_tree_check.specs.Levels.{IsLooking, places_in, places};
ghost use Rattle.bfs_tree_check.specs.Marked.{marked};

use crate::{Item, mark, met_twice};
use bfs_node::{KeyKind, PAGE};
use bfs_txn::{Pages, Steps};
use bfs_walk::{WalkFault, look_at_leaf};
use std::alloc::{AllocError, Global};
use std::sync::ledger::Ledger;

/// Appends the place of a page.
fn push_place(item: Item, found: &mut Vec<u64>) -> Result<(), AllocError>
    ensures { OnOk result (found.new.items ≡ found.old.items ++ places_in item) }
{
    match item {
        Item::Page { at } => {
            found.push(at)?;
            Ok(())
        }
        Item::Key { .. } => Ok(()),
    }
}

/// The pages of a level, from left to right.
pub fn places_of(alloc: Global, level: &[Item]) -> Result<Vec<u64>, AllocError>
    ensures { IfOk result (λ found. found.items ≡ places level.now) }
{
    let mut found = Vec::new(alloc);
    for item in level {
        match push_place(*item, &mut found) {
            Ok(()) => {}
            Err(fault) => return Err(fault),
        }
    }
    Ok(found)
}

/// Looks at a leaf, which comes next.
fn leaf_at<P: Pages, L: Ledger>(
    pages: &mut P,
    kind: KeyKind,
    at: u64,
    marks: &mut [bool],
    steps: &mut Steps<L>,
) -> Result<(), WalkFault<P::Fault>>
    requires kind { IsTreeKind kind }
    requires at { IsChild (P.size pages.old) at }
    requires small { P.size pages.old < 9223372036854775808 }
    requires length { length marks.old ≡ P.size pages.old / 1024 }
    ensures leaves { (b done rest : List ℕ) → P.told pages.old ≡ Some b → IsLooking kind b done (at ∷ rest) (marked (P.size pages.old) marks.old) → OnOk result (IsLooking kind b (done ++ at ∷ []) rest (marked (P.size pages.old) marks.new)) }
    ensures wrong { (b done rest : List ℕ) → P.told pages.old ≡ Some b → IsLooking kind b done (at ∷ rest) (marked (P.size pages.old) marks.old) → IfErr result (IsWrong kind b) }
    ensures length { length marks.new ≡ length marks.old }
    ensures cause { IfErr result (IsWalkCause (P.is_cause pages.old pages.new)) }
    ensures told { P.told pages.new ≡ P.told pages.old }
    ensures size { P.size pages.new ≡ P.size pages.old }
    ensures counts { AreLater (P.counts pages.old) (P.counts pages.new) }
    ensures frame { P.frame pages.new ≡ P.frame pages.old }
    ensures goes_on { P.goes_on pages.old pages.new }
    ensures is_read { P.is_read pages.old pages.new }
{
    let size = pages.length();
    let mut page = [0u8; PAGE];
    match look_at_leaf(pages, kind, at, &mut page, steps) {
        Ok(()) => {}
        Err(fault) => return Err(fault),
    }
    if mark(marks, at, size) {
        Ok(())
    } else {
        Err(WalkFault::Wrong(met_twice(at)))
    }
}

/// Looks at all leaves of a tree.
pub fn look_at_leaves<P: Pages, L: Ledger>(
    pages: &mut P,
    kind: KeyKind,
    leaves: &[u64],
    marks: &mut [bool],
    steps: &mut Steps<L>,
) -> Result<(), WalkFault<P::Fault>>
    requires kind { IsTreeKind kind }
    requires inside { AllByRecursion (IsChild (P.size pages.old)) leaves.now }
    requires small { P.size pages.old < 9223372036854775808 }
    requires length { length marks.old ≡ P.size pages.old / 1024 }
    ensures leaves { (b : List ℕ) → P.told pages.old ≡ Some b → IsLooking kind b [] leaves.now (marked (P.size pages.old) marks.old) → OnOk result (IsLooking kind b leaves.now [] (marked (P.size pages.old) marks.new)) }
    ensures wrong { (b : List ℕ) → P.told pages.old ≡ Some b → IsLooking kind b [] leaves.now (marked (P.size pages.old) marks.old) → IfErr result (IsWrong kind b) }
    ensures length { length marks.new ≡ length marks.old }
    ensures cause { IfErr result (IsWalkCause (P.is_cause pages.old pages.new)) }
    ensures told { P.told pages.new ≡ P.told pages.old }
    ensures size { P.size pages.new ≡ P.size pages.old }
    ensures counts { AreLater (P.counts pages.old) (P.counts pages.new) }
    ensures frame { P.frame pages.new ≡ P.frame pages.old }
    ensures goes_on { P.goes_on pages.old pages.new }
    ensures is_read { P.is_read pages.old pages.new }
{
    for at in leaves {
        match leaf_at(pages, kind, *at, marks, steps) {
            Ok(()) => {}
            Err(fault) => return Err(fault),
        }
    }
    Ok(())
}
