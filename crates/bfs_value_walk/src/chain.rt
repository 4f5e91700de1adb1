// A chain of duplicate pages that may hold anything.
ghost use Rattle.std.specs.Prelude.{◌≡◌, ◌≢◌, ◌<◌, ◌/◌, ◌++◌, ℕ, suc, List, [], ◌∷◌, length, Some, OnOk, IfOk, IfErr};
ghost use Rattle.bfs_base.specs.Lists.{Has};
ghost use Rattle.bfs_base.specs.declared.kind.KeyKind.{KeyKind};
ghost use Rattle.bfs_txn.specs.Faults.{AreLater};
ghost use Rattle.bfs_pages.specs.Answers.{IsChild, IsLink};
ghost use Rattle.bfs_pages.specs.Trees.{page_in};
ghost use Rattle.bfs_values.specs.Values.{IsDuplicates, page_numbers, next_of};
ghost use Rattle.bfs_finding.specs.Walks.{chain_pages};
ghost use Rattle.bfs_walk.specs.Wrong.{IsWrong, IsWalkCause};
ghost use Rattle.bfs_tree_check.specs.Marked.{marked};
ghost use Rattle.bfs_value_walk.specs.Chained.{IsChaining, IsChained, IsOwn};

use bfs_finding::PagePart;
use bfs_node::{PAGE, right_link};
use bfs_pages::place;
use bfs_tree_check::{check_free, mark, met_twice};
use bfs_txn::{Pages, Steps};
use bfs_values::{add_numbers, duplicates_size};
use bfs_walk::{TreeWrong, WalkFault};
use std::sync::ledger::Ledger;

/// Reads a page of a chain, puts its numbers behind others, and answers the next page, or 0 for none.
fn look_at_duplicates<P: Pages, L: Ledger>(
    pages: &mut P,
    at: u64,
    numbers: &mut Vec<u64>,
    steps: &mut Steps<L>,
) -> Result<u64, WalkFault<P::Fault>>
    requires at { IsChild (P.size pages.old) at }
    ensures link { IfOk result (IsLink (P.size pages.old)) }
    ensures next { (b : List ℕ) → P.told pages.old ≡ Some b → IfOk result (λ next. next ≡ next_of b at) }
    ensures good { (b : List ℕ) → P.told pages.old ≡ Some b → OnOk result (IsDuplicates (page_in b at)) }
    ensures numbers { (b : List ℕ) → P.told pages.old ≡ Some b → OnOk result (numbers.new.items ≡ numbers.old.items ++ page_numbers (page_in b at)) }
    ensures wrong { (kind : KeyKind) (b : List ℕ) → P.told pages.old ≡ Some b → Has (chain_pages kind b) at → IfErr result (IsWrong kind b) }
    ensures cause { IfErr result (IsWalkCause (P.is_cause pages.old pages.new)) }
    ensures told { P.told pages.new ≡ P.told pages.old }
    ensures size { P.size pages.new ≡ P.size pages.old }
    ensures counts { AreLater (P.counts pages.old) (P.counts pages.new) }
    ensures frame { P.frame pages.new ≡ P.frame pages.old }
    ensures goes_on { P.goes_on pages.old pages.new }
    ensures is_read { P.is_read pages.old pages.new }
{
    let size = pages.length();
    let mut page = [0u8; PAGE];
    match pages.get(at, &mut page, steps) {
        Ok(()) => {}
        Err(fault) => return Err(WalkFault::Pages(fault)),
    }
    let Some(count) = duplicates_size(&page) else {
        return Err(WalkFault::Wrong(TreeWrong::Page {
            page: at,
            part: PagePart::Content,
        }));
    };
    let link = right_link(&page);
    match check_free(at, link, size) {
        Ok(()) => {}
        Err(wrong) => return Err(WalkFault::Wrong(wrong)),
    }
    match add_numbers(&page, 24, count, numbers) {
        Ok(()) => Ok(place(link)),
        Err(_) => Err(WalkFault::NoMemory),
    }
}

/// Looks at the page of a chain that comes next, and answers the one behind it, or 0 for none.
fn chain_at<P: Pages, L: Ledger>(
    pages: &mut P,
    at: u64,
    numbers: &mut Vec<u64>,
    marks: &mut [bool],
    steps: &mut Steps<L>,
) -> Result<u64, WalkFault<P::Fault>>
    requires at { IsChild (P.size pages.old) at }
    requires small { P.size pages.old < 9223372036854775808 }
    requires length { length marks.old ≡ P.size pages.old / 1024 }
    ensures chaining { (b : List ℕ) (first : ℕ) (done : List ℕ) (left : ℕ) (before : ℕ → ℕ) → P.told pages.old ≡ Some b → IsChaining b first done (suc left) at numbers.old.items before (marked (P.size pages.old) marks.old) → IfOk result (λ next. next ≢ 0 → IsChaining b first (done ++ at ∷ []) left next numbers.new.items before (marked (P.size pages.old) marks.new)) }
    ensures chained { (b : List ℕ) (first : ℕ) (done : List ℕ) (left : ℕ) (before : ℕ → ℕ) → P.told pages.old ≡ Some b → IsChaining b first done (suc left) at numbers.old.items before (marked (P.size pages.old) marks.old) → IfOk result (λ next. next ≡ 0 → IsChained b first numbers.new.items before (marked (P.size pages.old) marks.new)) }
    ensures wrong { (kind : KeyKind) (b : List ℕ) (first : ℕ) (done : List ℕ) (left : ℕ) (before : ℕ → ℕ) → P.told pages.old ≡ Some b → IsOwn kind b first before → IsChaining b first done (suc left) at numbers.old.items before (marked (P.size pages.old) marks.old) → IfErr result (IsWrong kind b) }
    ensures link { IfOk result (IsLink (P.size pages.old)) }
    ensures length { length marks.new ≡ length marks.old }
    ensures cause { IfErr result (IsWalkCause (P.is_cause pages.old pages.new)) }
    ensures told { P.told pages.new ≡ P.told pages.old }
    ensures size { P.size pages.new ≡ P.size pages.old }
    ensures counts { AreLater (P.counts pages.old) (P.counts pages.new) }
    ensures frame { P.frame pages.new ≡ P.frame pages.old }
    ensures goes_on { P.goes_on pages.old pages.new }
    ensures is_read { P.is_read pages.old pages.new }
{
    let size = pages.length();
    let next = match look_at_duplicates(pages, at, numbers, steps) {
        Ok(next) => next,
        Err(fault) => return Err(fault),
    };
    if !mark(marks, at, size) {
        return Err(WalkFault::Wrong(met_twice(at)));
    }
    Ok(next)
}

/// Reads a whole chain: its numbers as they stand in its pages. All these pages are marked.
pub fn claim_chain<P: Pages, L: Ledger>(
    pages: &mut P,
    first: u64,
    numbers: &mut Vec<u64>,
    marks: &mut [bool],
    steps: &mut Steps<L>,
) -> Result<(), WalkFault<P::Fault>>
    requires first { IsChild (P.size pages.old) first }
    requires none { numbers.old.items ≡ [] }
    requires small { P.size pages.old < 9223372036854775808 }
    requires length { length marks.old ≡ P.size pages.old / 1024 }
    ensures chained { (b : List ℕ) → P.told pages.old ≡ Some b → marked (P.size pages.old) marks.old 0 ≡ 1 → OnOk result (IsChained b first numbers.new.items (marked (P.size pages.old) marks.old) (marked (P.size pages.old) marks.new)) }
    ensures wrong { (kind : KeyKind) (b : List ℕ) → P.told pages.old ≡ Some b → IsOwn kind b first (marked (P.size pages.old) marks.old) → IfErr result (IsWrong kind b) }
    ensures length { length marks.new ≡ length marks.old }
    ensures cause { IfErr result (IsWalkCause (P.is_cause pages.old pages.new)) }
    ensures told { P.told pages.new ≡ P.told pages.old }
    ensures size { P.size pages.new ≡ P.size pages.old }
    ensures counts { AreLater (P.counts pages.old) (P.counts pages.new) }
    ensures frame { P.frame pages.new ≡ P.frame pages.old }
    ensures goes_on { P.goes_on pages.old pages.new }
    ensures is_read { P.is_read pages.old pages.new }
{
    let mut at = first;
    let mut left = pages.length() / 1024;
    while left > 0 {
        let next = match chain_at(pages, at, numbers, marks, steps) {
            Ok(next) => next,
            Err(fault) => return Err(fault),
        };
        if next == 0 {
            return Ok(());
        }
        at = next;
        left -= 1;
    }
    Ok(())
}
