// Looks for the page of a chain that has a number.
ghost use Rattle.std.specs.Prelude.{◌≡◌, ◌≤◌, ◌<◌, ℕ, List, Some, length, IfOk, IfErr, IfSome, MatchResult, MatchOption};
ghost use Rattle.bfs_base.specs.Lists.{times};
ghost use Rattle.bfs_pages.specs.Answers.{IsChild, IsLink, IsOfPages, IsJustRead};
ghost use Rattle.bfs_pages.specs.Trees.{page_in, neighbours_in};
ghost use Rattle.bfs_pages.specs.Writes.{Kept};
ghost use Rattle.bfs_values.specs.Kinds.{IsCut};
ghost use Rattle.bfs_values.specs.Values.{IsDuplicates, page_count, page_numbers, AreDuplicates, numbers_of_pages};
ghost use Rattle.bfs_values.specs.Chained.{Chained};
ghost use Rattle.bfs_dups_remove.specs.Shortened.{IsLocated};

use bfs_dups::look_at;
use bfs_node::{KeyKind, PageKind, TreeFault};
use bfs_txn::{Pages, Steps};
use std::sync::ledger::Ledger;

/// A page of a chain, the pages before it and behind it, or 0 for none, and how many numbers it has.
#[derive(Clone, Copy, Debug, PartialEq, Eq)]
pub struct Located {
    pub at: u64,
    pub before: u64,
    pub next: u64,
    pub count: usize,
}

/// Looks a number up in the chain from a page on, and tells its page, whose bytes are given.
pub fn locate<P: Pages, L: Ledger>(
    pages: &mut P,
    kind: KeyKind,
    first: u64,
    number: u64,
    page: &mut [u8],
    steps: &mut Steps<L>,
) -> Result<Option<Located>, TreeFault<P::Fault>>
    requires first { IsChild (P.size pages.old) first }
    requires page { length page.old ≡ 1024 }
    ensures found { (b xs : List ℕ) → P.told pages.old ≡ Some b → Chained b first xs → AreDuplicates b xs → MatchResult result (λ o. MatchOption o (times number (numbers_of_pages b xs) ≡ 0) (λ f. IsLocated xs f.at f.before)) IsOfPages }
    ensures at { IfOk result (λ o. IfSome o (λ f. IsChild (P.size pages.old) f.at)) }
    ensures before { IfOk result (λ o. IfSome o (λ f. IsLink (P.size pages.old) f.before)) }
    ensures next { IfOk result (λ o. IfSome o (λ f. IsLink (P.size pages.old) f.next × (f.next ≡ (neighbours_in page.new).1))) }
    ensures page { IfOk result (λ o. IfSome o (λ f. IsDuplicates page.new × (f.count ≡ page_count page.new) × (1 ≤ times number (page_numbers page.new)) × IfSome (P.told pages.old) (λ b. page.new ≡ page_in b f.at))) }
    ensures length { length page.new ≡ 1024 }
    ensures refused { IfErr result (IsCut kind (P.told pages.new) (P.is_cause pages.old pages.new)) }
    ensures just_read { IfErr result (IsJustRead (P.size pages.new) (P.last pages.new)) }
    ensures told { P.told pages.new ≡ P.told pages.old }
    ensures size { P.size pages.new ≡ P.size pages.old }
    ensures kept { Kept (P.counts pages.old) (P.counts pages.new) (P.frame pages.old) (P.frame pages.new) (P.goes_on pages.old pages.new) }
{
    let mut at = first;
    let mut before = 0u64;
    let mut left = pages.length() / 1024;
    loop {
        let seen = match look_at(pages, kind, at, number, page, steps) {
            Ok(seen) => seen,
            Err(fault) => return Err(fault),
        };
        if seen.there {
            return Ok(Some(Located {
                at,
                before,
                next: seen.next,
                count: seen.count,
            }));
        }
        if seen.next == 0 {
            return Ok(None);
        }
        if left == 1 {
            return Err(TreeFault::Damaged {
                page: at,
                kind: PageKind::Duplicates,
            });
        }
        before = at;
        at = seen.next;
        left -= 1;
    }
}
