// The rows of a tree's leaves.
ghost use Rattle.std.specs.Prelude.{◌≡◌, ◌++◌, ℕ, List, Some, OnOk, IfOk, IfErr};
ghost use Rattle.std.specs.List.{AllByRecursion};
ghost use Rattle.bfs_base.specs.Lists.{Has};
ghost use Rattle.bfs_base.specs.declared.kind.KeyKind.TheVariants.{Text};
ghost use Rattle.bfs_txn.specs.Faults.{AreLater};
ghost use Rattle.bfs_pages.specs.Answers.{IsChild};
ghost use Rattle.bfs_pages.specs.Trees.{state_of};
ghost use Rattle.bfs_values.specs.Rows.{rows_at, rows_in};
ghost use Rattle.bfs_finding.specs.Walks.{leaves_in};
ghost use Rattle.bfs_walk.specs.Wrong.{IsWrong, IsWalkCause};
ghost use Rattle.bfs_names_walk.specs.Rows.{as_rows};

use crate::NameRow;
use crate::rows::take_rows;
use bfs_node::{KeyKind, PAGE};
use bfs_txn::{Pages, Steps};
use bfs_walk::{WalkFault, look_at_leaf};
use std::alloc::Global;
use std::sync::ledger::Ledger;

/// Puts the rows of the leaf at a place behind others.
fn take_leaf<P: Pages, L: Ledger>(
    alloc: Global,
    pages: &mut P,
    at: u64,
    rows: &mut Vec<NameRow>,
    steps: &mut Steps<L>,
) -> Result<(), WalkFault<P::Fault>>
    requires at { IsChild (P.size pages.old) at }
    ensures taken { (b : List ℕ) → P.told pages.old ≡ Some b → OnOk result (as_rows rows.new.items ≡ as_rows rows.old.items ++ rows_at ((state_of Text b).bodies at)) }
    ensures wrong { (b : List ℕ) → P.told pages.old ≡ Some b → Has (leaves_in Text b) at → IfErr result (IsWrong Text b) }
    ensures cause { IfErr result (IsWalkCause (P.is_cause pages.old pages.new)) }
    ensures told { P.told pages.new ≡ P.told pages.old }
    ensures size { P.size pages.new ≡ P.size pages.old }
    ensures counts { AreLater (P.counts pages.old) (P.counts pages.new) }
    ensures frame { P.frame pages.new ≡ P.frame pages.old }
    ensures goes_on { P.goes_on pages.old pages.new }
    ensures is_read { P.is_read pages.old pages.new }
{
    let mut page = [0u8; PAGE];
    match look_at_leaf(pages, KeyKind::Text, at, &mut page, steps) {
        Ok(()) => {}
        Err(fault) => return Err(fault),
    }
    match take_rows(alloc, &page, rows) {
        Ok(()) => Ok(()),
        Err(_) => Err(WalkFault::NoMemory),
    }
}

/// The rows of all leaves of a tree, from left to right.
pub fn take_leaves<P: Pages, L: Ledger>(
    alloc: Global,
    pages: &mut P,
    leaves: &[u64],
    steps: &mut Steps<L>,
) -> Result<Vec<NameRow>, WalkFault<P::Fault>>
    requires inside { AllByRecursion (IsChild (P.size pages.old)) leaves.now }
    ensures taken { (b : List ℕ) → P.told pages.old ≡ Some b → leaves_in Text b ≡ leaves.now → IfOk result (λ rows. as_rows rows.items ≡ rows_in Text b) }
    ensures wrong { (b : List ℕ) → P.told pages.old ≡ Some b → leaves_in Text b ≡ leaves.now → IfErr result (IsWrong Text b) }
    ensures cause { IfErr result (IsWalkCause (P.is_cause pages.old pages.new)) }
    ensures told { P.told pages.new ≡ P.told pages.old }
    ensures size { P.size pages.new ≡ P.size pages.old }
    ensures counts { AreLater (P.counts pages.old) (P.counts pages.new) }
    ensures frame { P.frame pages.new ≡ P.frame pages.old }
    ensures goes_on { P.goes_on pages.old pages.new }
    ensures is_read { P.is_read pages.old pages.new }
{
    let mut rows = Vec::new(alloc);
    for at in leaves {
        match take_leaf(alloc, pages, *at, &mut rows, steps) {
            Ok(()) => {}
            Err(fault) => return Err(fault),
        }
    }
    Ok(rows)
}
