// Looks a number up in a duplicate page.
ghost use Rattle.std.specs.Prelude.{◌≡◌, ◌≤◌, ◌<◌, ℕ, List, Some, length, true, false, OnOk, IfOk, IfErr, IfSome};
ghost use Rattle.bfs_base.specs.Lists.{times};
ghost use Rattle.bfs_pages.specs.Answers.{IsChild, IsLink, IsOfPages, IsJustRead};
ghost use Rattle.bfs_pages.specs.Trees.{page_in, neighbours_in};
ghost use Rattle.bfs_pages.specs.Writes.{Kept};
ghost use Rattle.bfs_values.specs.Kinds.{IsCut};
ghost use Rattle.bfs_values.specs.Values.{IsDuplicates, page_count, page_numbers, next_of};

use crate::lists::find_number;
use crate::paging::read_page;
use bfs_node::{KeyKind, PageKind, TreeFault, right_link};
use bfs_pages::{is_link, place};
use bfs_txn::{Pages, Steps};
use bfs_values::duplicates_size;
use std::sync::ledger::Ledger;

/// What a duplicate page says: the next page, or 0 for none, how many numbers it has, and whether a number is among them.
#[derive(Clone, Copy, Debug, PartialEq, Eq)]
pub struct Seen {
    pub next: u64,
    pub count: usize,
    pub there: bool,
}

/// Reads a duplicate page, and looks a number up there.
pub fn look_at<P: Pages, L: Ledger>(
    pages: &mut P,
    kind: KeyKind,
    at: u64,
    number: u64,
    page: &mut [u8],
    steps: &mut Steps<L>,
) -> Result<Seen, TreeFault<P::Fault>>
    requires at { IsChild (P.size pages.old) at }
    requires page { length page.old ≡ 1024 }
    ensures good { OnOk result (IsDuplicates page.new) }
    ensures read { OnOk result (IfSome (P.told pages.old) (λ b. page.new ≡ page_in b at)) }
    ensures last { OnOk result (P.last pages.new ≡ at) }
    ensures next { IfOk result (λ seen. seen.next ≡ (neighbours_in page.new).1) }
    ensures link { IfOk result (λ seen. IsLink (P.size pages.old) seen.next) }
    ensures count { IfOk result (λ seen. seen.count ≡ page_count page.new) }
    ensures there { IfOk result (λ seen. seen.there ≡ true → 1 ≤ times number (page_numbers page.new)) }
    ensures absent { IfOk result (λ seen. seen.there ≡ false → times number (page_numbers page.new) ≡ 0) }
    ensures spared { (b : List ℕ) → P.told pages.old ≡ Some b → IsDuplicates (page_in b at) → IsLink (length b) (next_of b at) → IfErr result IsOfPages }
    ensures refused { IfErr result (IsCut kind (P.told pages.new) (P.is_cause pages.old pages.new)) }
    ensures just_read { IfErr result (IsJustRead (P.size pages.new) (P.last pages.new)) }
    ensures length { length page.new ≡ 1024 }
    ensures told { P.told pages.new ≡ P.told pages.old }
    ensures size { P.size pages.new ≡ P.size pages.old }
    ensures kept { Kept (P.counts pages.old) (P.counts pages.new) (P.frame pages.old) (P.frame pages.new) (P.goes_on pages.old pages.new) }
{
    let damaged = TreeFault::Damaged {
        page: at,
        kind: PageKind::Duplicates,
    };
    match read_page(pages, at, page, steps) {
        Ok(()) => {}
        Err(fault) => return Err(fault),
    }
    let Some(count) = duplicates_size(page) else {
        return Err(damaged);
    };
    let next = place(right_link(page));
    if !is_link(next, pages.length()) {
        return Err(damaged);
    }
    match find_number(page, 24, count, number) {
        Ok(_) => Ok(Seen {
            next,
            count,
            there: true,
        }),
        Err(_) => Ok(Seen {
            next,
            count,
            there: false,
        }),
    }
}
