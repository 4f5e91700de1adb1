// Reads a chain of duplicate pages.
ghost use Rattle.std.specs.Prelude.{◌≡◌, ◌≤◌, ◌+◌, ◌++◌, ℕ, List, Some, length, IfErr, IfOk, IfSome, OnOk, MatchResult};
ghost use Rattle.bfs_pages.specs.Answers.{IsChild, IsLink, IsJustRead};
ghost use Rattle.bfs_pages.specs.Trees.{page_in};
ghost use Rattle.bfs_values.specs.Kinds.{IsCut, IsLacking, Stays};
ghost use Rattle.bfs_values.specs.Values.{IsDuplicates, page_numbers, next_of, EndsAfter, AreDuplicates, chain_of, numbers_of_pages};

use crate::packed::{add_numbers, duplicates_size};
use bfs_node::{KeyKind, PAGE, PageKind, TreeFault, right_link};
use bfs_pages::txn::{Pages, Steps};
use bfs_pages::{is_link, place};
use std::sync::ledger::Ledger;

/// Adds the numbers of a duplicate page to a list, and answers the next page, or 0 for none.
fn add_page<P: Pages, L: Ledger>(
    pages: &mut P,
    kind: KeyKind,
    at: u64,
    numbers: &mut Vec<u64>,
    steps: &mut Steps<L>,
) -> Result<u64, TreeFault<P::Fault>>
    requires at { IsChild (P.size pages.old) at }
    ensures next { IfOk result (λ next. IsLink (P.size pages.old) next) }
    ensures is_next { IfOk result (λ next. IfSome (P.told pages.old) (λ b. next ≡ next_of b at)) }
    ensures numbers { OnOk result (IfSome (P.told pages.old) (λ b. numbers.new.items ≡ numbers.old.items ++ page_numbers (page_in b at))) }
    ensures spared { (b : List ℕ) → P.told pages.old ≡ Some b → IsDuplicates (page_in b at) → IsLink (length b) (next_of b at) → IfErr result IsLacking }
    ensures refused { IfErr result (IsCut kind (P.told pages.new) (P.is_cause pages.old pages.new)) }
    ensures good { OnOk result (IfSome (P.told pages.old) (λ b. IsDuplicates (page_in b at))) }
    ensures last { OnOk result (P.last pages.new ≡ at) }
    ensures just_read { IfErr result (IsJustRead (P.size pages.new) (P.last pages.new)) }
    ensures steps { steps.new ≤ steps.old + 1 }
    ensures stays { Stays (P.told pages.old) (P.told pages.new) (P.size pages.old) (P.size pages.new) (P.counts pages.old) (P.counts pages.new) (P.frame pages.old) (P.frame pages.new) (P.goes_on pages.old pages.new) (P.is_read pages.old pages.new) }
{
    let size = pages.length();
    let damaged = TreeFault::Damaged {
        page: at,
        kind: PageKind::Duplicates,
    };
    let mut page = [0u8; PAGE];
    match pages.get(at, &mut page, steps) {
        Ok(()) => {}
        Err(fault) => return Err(TreeFault::Pages(fault)),
    }
    let Some(count) = duplicates_size(&page) else {
        return Err(damaged);
    };
    let next = place(right_link(&page));
    if !is_link(next, size) {
        return Err(damaged);
    }
    match add_numbers(&page, 24, count, numbers) {
        Ok(()) => Ok(next),
        Err(_) => Err(TreeFault::NoMemory),
    }
}

/// Adds the numbers of all pages of a chain to a list.
pub fn add_chain<P: Pages, L: Ledger>(
    pages: &mut P,
    kind: KeyKind,
    first: u64,
    numbers: &mut Vec<u64>,
    steps: &mut Steps<L>,
) -> Result<(), TreeFault<P::Fault>>
    requires at { IsChild (P.size pages.old) first }
    ensures numbers { (b : List ℕ) → P.told pages.old ≡ Some b → ((n : ℕ) × EndsAfter b n first) → AreDuplicates b (chain_of b first) → MatchResult result (λ _. numbers.new.items ≡ numbers.old.items ++ numbers_of_pages b (chain_of b first)) IsLacking }
    ensures steps { (b : List ℕ) → P.told pages.old ≡ Some b → ((n : ℕ) × EndsAfter b n first) → AreDuplicates b (chain_of b first) → steps.new ≤ steps.old + length (chain_of b first) }
    ensures refused { IfErr result (IsCut kind (P.told pages.new) (P.is_cause pages.old pages.new)) }
    ensures sure { (b : List ℕ) → P.told pages.old ≡ Some b → OnOk result (((n : ℕ) × EndsAfter b n first) × AreDuplicates b (chain_of b first)) }
    ensures just_read { IfErr result (IsJustRead (P.size pages.new) (P.last pages.new)) }
    ensures stays { Stays (P.told pages.old) (P.told pages.new) (P.size pages.old) (P.size pages.new) (P.counts pages.old) (P.counts pages.new) (P.frame pages.old) (P.frame pages.new) (P.goes_on pages.old pages.new) (P.is_read pages.old pages.new) }
{
    let mut at = first;
    let mut left = pages.length() / 1024;
    loop {
        let next = match add_page(pages, kind, at, numbers, steps) {
            Ok(next) => next,
            Err(fault) => return Err(fault),
        };
        if next == 0 {
            return Ok(());
        }
        if left == 1 {
            return Err(TreeFault::Damaged {
                page: at,
                kind: PageKind::Duplicates,
            });
        }
        at = next;
        left -= 1;
    }
}
