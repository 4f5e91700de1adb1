// Reads one page of a tree.
ghost use Rattle.std.specs.Prelude.{◌≡◌, ◌≤◌, ◌+◌, ℕ, negsuc, List, length, Some, OnOk, IfErr, IfSome, true, false};
ghost use Rattle.bfs_base.specs.Lists.{Has};
ghost use Rattle.bfs_base.specs.Keys.{IsTreeKind};
ghost use Rattle.bfs_node.specs.Page.{IsPage, overflow_of};
ghost use Rattle.bfs_txn.specs.Faults.{AreLater};
ghost use Rattle.bfs_pages.specs.Answers.{IsChild, IsInteriorPage};
ghost use Rattle.bfs_pages.specs.Trees.{page_in, is_page};
ghost use Rattle.bfs_walk.specs.Wrong.{IsWrong, IsWalkCause, pages_at};

use crate::{WalkFault, check_children, check_page};
use bfs_node::KeyKind;
use bfs_txn::{Pages, Steps};
use std::sync::ledger::Ledger;

/// Reads a page that is to be a leaf.
pub fn look_at_leaf<P: Pages, L: Ledger>(
    pages: &mut P,
    kind: KeyKind,
    at: u64,
    page: &mut [u8],
    steps: &mut Steps<L>,
) -> Result<(), WalkFault<P::Fault>>
    requires kind { IsTreeKind kind }
    requires at { IsChild (P.size pages.old) at }
    requires page { length page.old ≡ 1024 }
    ensures page { OnOk result (IsPage kind page.new) }
    ensures good { OnOk result (is_page kind page.new ≡ true) }
    ensures leaf { OnOk result (overflow_of page.new ≡ negsuc 0) }
    ensures read { OnOk result (IfSome (P.told pages.old) (λ b. page.new ≡ page_in b at)) }
    ensures wrong { (b : List ℕ) → P.told pages.old ≡ Some b → Has (pages_at kind b true) at → IfErr result (IsWrong kind b) }
    ensures length { length page.new ≡ 1024 }
    ensures cause { IfErr result (IsWalkCause (P.is_cause pages.old pages.new)) }
    ensures steps { steps.new ≤ steps.old + 1 }
    ensures told { P.told pages.new ≡ P.told pages.old }
    ensures size { P.size pages.new ≡ P.size pages.old }
    ensures counts { AreLater (P.counts pages.old) (P.counts pages.new) }
    ensures frame { P.frame pages.new ≡ P.frame pages.old }
    ensures goes_on { P.goes_on pages.old pages.new }
    ensures is_read { P.is_read pages.old pages.new }
{
    match pages.get(at, page, steps) {
        Ok(()) => {}
        Err(fault) => return Err(WalkFault::Pages(fault)),
    }
    match check_page(page, kind, at, true) {
        Ok(()) => Ok(()),
        Err(wrong) => Err(WalkFault::Wrong(wrong)),
    }
}

/// Reads a page that is to be an interior page.
pub fn look_at_interior<P: Pages, L: Ledger>(
    pages: &mut P,
    kind: KeyKind,
    at: u64,
    page: &mut [u8],
    steps: &mut Steps<L>,
) -> Result<(), WalkFault<P::Fault>>
    requires kind { IsTreeKind kind }
    requires at { IsChild (P.size pages.old) at }
    requires page { length page.old ≡ 1024 }
    ensures page { OnOk result (IsPage kind page.new) }
    ensures interior { OnOk result (IsInteriorPage kind (P.size pages.old) page.new) }
    ensures read { OnOk result (IfSome (P.told pages.old) (λ b. page.new ≡ page_in b at)) }
    ensures wrong { (b : List ℕ) → P.told pages.old ≡ Some b → Has (pages_at kind b false) at → IfErr result (IsWrong kind b) }
    ensures length { length page.new ≡ 1024 }
    ensures cause { IfErr result (IsWalkCause (P.is_cause pages.old pages.new)) }
    ensures steps { steps.new ≤ steps.old + 1 }
    ensures told { P.told pages.new ≡ P.told pages.old }
    ensures size { P.size pages.new ≡ P.size pages.old }
    ensures counts { AreLater (P.counts pages.old) (P.counts pages.new) }
    ensures frame { P.frame pages.new ≡ P.frame pages.old }
    ensures goes_on { P.goes_on pages.old pages.new }
    ensures is_read { P.is_read pages.old pages.new }
{
    let size = pages.length();
    match pages.get(at, page, steps) {
        Ok(()) => {}
        Err(fault) => return Err(WalkFault::Pages(fault)),
    }
    match check_page(page, kind, at, false) {
        Ok(()) => {}
        Err(wrong) => return Err(WalkFault::Wrong(wrong)),
    }
    match check_children(page, kind, at, size) {
        Ok(()) => Ok(()),
        Err(wrong) => Err(WalkFault::Wrong(wrong)),
    }
}
