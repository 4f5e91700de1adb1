// The free list of a tree.
ghost use Rattle.std.specs.Prelude.{◌≡◌, ◌↔◌, ◌≢◌, ◌<◌, ◌/◌, ◌+◌, ◌++◌, ◌⊎◌, ℕ, suc, negsuc, List, [], ◌∷◌, length, Some, OnOk, IfOk, IfErr, IsTrue};
ghost use Rattle.bfs_base.specs.Lists.{times};
ghost use Rattle.bfs_base.specs.declared.kind.KeyKind.{KeyKind};
ghost use Rattle.bfs_node.specs.Page.{left_of, overflow_of};
ghost use Rattle.bfs_txn.specs.Faults.{AreLater};
ghost use Rattle.bfs_pages.specs.Answers.{IsChild, IsLink};
ghost use Rattle.bfs_pages.specs.Trees.{place_of, free_in, state_of};
ghost use Rattle.bfs_finding.specs.TreeFaults.{wanted_link};
ghost use Rattle.bfs_walk.specs.Wrong.{IsWrong, IsWalkCause};
ghost use Rattle.bfs_tree_check.specs.Freed.{IsFreeing, IsFreed, built_times};
ghost use Rattle.bfs_tree_check.specs.Marked.{marked};

use crate::{mark, met_twice};
use bfs_node::{PAGE, left_link, overflow_link};
use bfs_pages::{is_link, place};
use bfs_txn::{Pages, Steps};
use bfs_walk::{TreeWrong, WalkFault};
use std::sync::ledger::Ledger;

/// The link that is wanted where one leads to no page: none, or, where that was found, the first page.
pub fn wanted_for(link: i64) -> i64
    ensures { result ≡ wanted_link link }
{
    if link == -1 { 1024 } else { -1 }
}

/// Does the link of the page at a place to a free page lead to a page, or to none?
pub fn check_free(at: u64, link: i64, size: u64) -> Result<(), TreeWrong>
    ensures sound { OnOk result (IsLink size (place_of link)) }
    ensures wrong { IfErr result (λ wrong. (wrong ≡ TreeWrong.Link at link (wanted_link link)) × ¬ IsLink size (place_of link)) }
{
    if is_link(place(link), size) {
        Ok(())
    } else {
        Err(TreeWrong::Link {
            page: at,
            found: link,
            wanted: wanted_for(link),
        })
    }
}

/// Has a page the mark of a free one?
fn is_free(page: &[u8]) -> bool
    requires { length page.now ≡ 1024 }
    ensures { IsTrue result ↔ overflow_of page.now ≡ negsuc 1 }
{
    overflow_link(page) == -2
}

/// The page behind a free page, or 0 for none.
fn next_free(page: &[u8], at: u64, size: u64) -> Result<u64, TreeWrong>
    requires { length page.now ≡ 1024 }
    ensures next { IfOk result (λ next. free_in page.now ≡ Some next) }
    ensures link { IfOk result (IsLink size) }
    ensures wrong { IfErr result (λ wrong. ((wrong ≡ TreeWrong.Link at (overflow_of page.now) (negsuc 1)) × (overflow_of page.now ≢ negsuc 1)) ⊎ ((overflow_of page.now ≡ negsuc 1) × (wrong ≡ TreeWrong.Link at (left_of page.now) (wanted_link (left_of page.now))) × ¬ IsLink size (place_of (left_of page.now)))) }
{
    if !is_free(page) {
        return Err(TreeWrong::Link {
            page: at,
            found: overflow_link(page),
            wanted: -2,
        });
    }
    let link = left_link(page);
    match check_free(at, link, size) {
        Ok(()) => Ok(place(link)),
        Err(wrong) => Err(wrong),
    }
}

/// Looks at a free page, which comes next, and answers the one behind it, or 0 for none.
fn free_at<P: Pages, L: Ledger>(
    pages: &mut P,
    at: u64,
    marks: &mut [bool],
    steps: &mut Steps<L>,
) -> Result<u64, WalkFault<P::Fault>>
    requires at { IsChild (P.size pages.old) at }
    requires small { P.size pages.old < 9223372036854775808 }
    requires length { length marks.old ≡ P.size pages.old / 1024 }
    ensures freeing { (kind : KeyKind) (b done : List ℕ) (left : ℕ) → P.told pages.old ≡ Some b → IsFreeing kind b done (suc left) at (marked (P.size pages.old) marks.old) → IfOk result (λ next. IsFreeing kind b (done ++ at ∷ []) left next (marked (P.size pages.old) marks.new)) }
    ensures wrong { (kind : KeyKind) (b done : List ℕ) (left : ℕ) → P.told pages.old ≡ Some b → IsFreeing kind b done (suc left) at (marked (P.size pages.old) marks.old) → IfErr result (IsWrong kind b) }
    ensures link { IfOk result (IsLink (P.size pages.old)) }
    ensures length { length marks.new ≡ length marks.old }
    ensures cause { IfErr result (IsWalkCause (P.is_cause pages.old pages.new)) }
    ensures told { P.told pages.new ≡ P.told pages.old }
    ensures size { P.size pages.new ≡ P.size pages.old }
    ensures counts { AreLater (P.counts pages.old) (P.counts pages.new) }
    ensures frame { P.frame pages.new ≡ P.frame pages.old }
    ensures goes_on { P.goes_on pages.old pages.new }
    ensures is_read { P.is_read pages.old pages.new }
{
    let size = pages.length();
    let mut page = [0u8; PAGE];
    match pages.get(at, &mut page, steps) {
        Ok(()) => {}
        Err(fault) => return Err(WalkFault::Pages(fault)),
    }
    if !mark(marks, at, size) {
        return Err(WalkFault::Wrong(met_twice(at)));
    }
    match next_free(&page, at, size) {
        Ok(next) => Ok(next),
        Err(wrong) => Err(WalkFault::Wrong(wrong)),
    }
}

/// Looks at all pages of the free list, from the first one on; 0 stands for none.
pub fn check_free_list<P: Pages, L: Ledger>(
    pages: &mut P,
    first: u64,
    marks: &mut [bool],
    steps: &mut Steps<L>,
) -> Result<(), WalkFault<P::Fault>>
    requires first { IsLink (P.size pages.old) first }
    requires small { P.size pages.old < 9223372036854775808 }
    requires length { length marks.old ≡ P.size pages.old / 1024 }
    ensures freed { (kind : KeyKind) (b : List ℕ) → P.told pages.old ≡ Some b → first ≡ (state_of kind b).free → ((x : ℕ) → marked (P.size pages.old) marks.old x ≡ built_times kind b x) → OnOk result (IsFreed kind b (marked (P.size pages.old) marks.new)) }
    ensures wrong { (kind : KeyKind) (b : List ℕ) → P.told pages.old ≡ Some b → first ≡ (state_of kind b).free → ((x : ℕ) → marked (P.size pages.old) marks.old x ≡ built_times kind b x) → IfErr result (IsWrong kind b) }
    ensures length { length marks.new ≡ length marks.old }
    ensures cause { IfErr result (IsWalkCause (P.is_cause pages.old pages.new)) }
    ensures told { P.told pages.new ≡ P.told pages.old }
    ensures size { P.size pages.new ≡ P.size pages.old }
    ensures counts { AreLater (P.counts pages.old) (P.counts pages.new) }
    ensures frame { P.frame pages.new ≡ P.frame pages.old }
    ensures goes_on { P.goes_on pages.old pages.new }
    ensures is_read { P.is_read pages.old pages.new }
{
    let mut at = first;
    let mut left = pages.length() / 1024;
    while left > 0 {
        if at == 0 {
            return Ok(());
        }
        match free_at(pages, at, marks, steps) {
            Ok(next) => at = next,
            Err(fault) => return Err(fault),
        }
        left -= 1;
    }
    Ok(())
}
