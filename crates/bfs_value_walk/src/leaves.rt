// The leaves of a tree, with the numbers of their rows' values.
ghost use Rattle.std.specs.Prelude.{◌≡◌, ◌<◌, ◌/◌, ◌++◌, ℕ, List, [], length, Some, OnOk, IfErr};
ghost use Rattle.std.specs.List.{AllByRecursion};
ghost use Rattle.bfs_base.specs.Keys.{IsTreeKind};
ghost use Rattle.bfs_base.specs.Lists.{Has};
ghost use Rattle.bfs_node.specs.Page.{Row};
ghost use Rattle.bfs_txn.specs.Faults.{AreLater};
ghost use Rattle.bfs_pages.specs.Answers.{IsChild};
ghost use Rattle.bfs_pages.specs.Trees.{state_of};
ghost use Rattle.bfs_values.specs.Rows.{rows_at, rows_in};
ghost use Rattle.bfs_finding.specs.Walks.{leaves_in};
ghost use Rattle.bfs_walk.specs.Wrong.{IsWrong, IsWalkCause};
ghost use Rattle.bfs_value_walk.specs.Taken.{AreTaken};

use crate::RowSink;
use crate::rows::take_rows;
use bfs_node::{KeyKind, PAGE};
use bfs_txn::{Pages, Steps};
use bfs_walk::{WalkFault, look_at_leaf};
use std::alloc::Global;
use std::sync::ledger::Ledger;

/// Takes the rows of the leaf at a place.
fn take_leaf<P: Pages, L: Ledger, T: RowSink>(
    alloc: Global,
    pages: &mut P,
    kind: KeyKind,
    at: u64,
    marks: &mut [bool],
    names: &mut [u16],
    taken: &mut T,
    steps: &mut Steps<L>,
) -> Result<(), WalkFault<P::Fault>>
    requires kind { IsTreeKind kind }
    requires at { IsChild (P.size pages.old) at }
    requires small { P.size pages.old < 9223372036854775808 }
    requires length { length marks.old ≡ P.size pages.old / 1024 }
    requires names { length names.old ≡ P.size pages.old / 1024 }
    ensures taken { (b : List ℕ) (done : List Row) (start : T) → P.told pages.old ≡ Some b → AreTaken kind b done (P.size pages.old) marks.old names.old (T.took start taken.old) → OnOk result (AreTaken kind b (done ++ rows_at ((state_of kind b).bodies at)) (P.size pages.old) marks.new names.new (T.took start taken.new)) }
    ensures wrong { (b : List ℕ) (done rest : List Row) (start : T) → P.told pages.old ≡ Some b → Has (leaves_in kind b) at → rows_in kind b ≡ done ++ (rows_at ((state_of kind b).bodies at) ++ rest) → AreTaken kind b done (P.size pages.old) marks.old names.old (T.took start taken.old) → IfErr result (IsWrong kind b) }
    ensures length { length marks.new ≡ length marks.old }
    ensures names { length names.new ≡ length names.old }
    ensures cause { IfErr result (IsWalkCause (P.is_cause pages.old pages.new)) }
    ensures told { P.told pages.new ≡ P.told pages.old }
    ensures size { P.size pages.new ≡ P.size pages.old }
    ensures counts { AreLater (P.counts pages.old) (P.counts pages.new) }
    ensures frame { P.frame pages.new ≡ P.frame pages.old }
    ensures goes_on { P.goes_on pages.old pages.new }
    ensures is_read { P.is_read pages.old pages.new }
{
    let mut page = [0u8; PAGE];
    match look_at_leaf(pages, kind, at, &mut page, steps) {
        Ok(()) => {}
        Err(fault) => return Err(fault),
    }
    take_rows(alloc, pages, at, &page, marks, names, taken, steps)
}

/// Takes the rows of all leaves of a tree.
pub fn take_leaves<P: Pages, L: Ledger, T: RowSink>(
    alloc: Global,
    pages: &mut P,
    kind: KeyKind,
    leaves: &[u64],
    marks: &mut [bool],
    names: &mut [u16],
    taken: &mut T,
    steps: &mut Steps<L>,
) -> Result<(), WalkFault<P::Fault>>
    requires kind { IsTreeKind kind }
    requires inside { AllByRecursion (IsChild (P.size pages.old)) leaves.now }
    requires small { P.size pages.old < 9223372036854775808 }
    requires length { length marks.old ≡ P.size pages.old / 1024 }
    requires names { length names.old ≡ P.size pages.old / 1024 }
    ensures taken { (b : List ℕ) (start : T) → P.told pages.old ≡ Some b → leaves_in kind b ≡ leaves.now → AreTaken kind b [] (P.size pages.old) marks.old names.old (T.took start taken.old) → OnOk result (AreTaken kind b (rows_in kind b) (P.size pages.old) marks.new names.new (T.took start taken.new)) }
    ensures wrong { (b : List ℕ) (start : T) → P.told pages.old ≡ Some b → leaves_in kind b ≡ leaves.now → AreTaken kind b [] (P.size pages.old) marks.old names.old (T.took start taken.old) → IfErr result (IsWrong kind b) }
    ensures length { length marks.new ≡ length marks.old }
    ensures names { length names.new ≡ length names.old }
    ensures cause { IfErr result (IsWalkCause (P.is_cause pages.old pages.new)) }
    ensures told { P.told pages.new ≡ P.told pages.old }
    ensures size { P.size pages.new ≡ P.size pages.old }
    ensures counts { AreLater (P.counts pages.old) (P.counts pages.new) }
    ensures frame { P.frame pages.new ≡ P.frame pages.old }
    ensures goes_on { P.goes_on pages.old pages.new }
    ensures is_read { P.is_read pages.old pages.new }
{
    for at in leaves {
        match take_leaf(alloc, pages, kind, *at, marks, names, taken, steps) {
            Ok(()) => {}
            Err(fault) => return Err(fault),
        }
    }
    Ok(())
}
