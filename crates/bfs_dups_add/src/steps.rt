// The steps of adding a number, each of which changes one or two pages.
ghost use Rattle.std.specs.Prelude.{◌≡◌, ◌<◌, ◌^◌, ◌++◌, ◌∷◌, ℕ, List, Some, length, OnOk, IfOk, IfErr, MatchResult};
ghost use Rattle.bfs_base.specs.Keys.{IsTreeKind};
ghost use Rattle.bfs_base.specs.Lists.{times};
ghost use Rattle.bfs_pages.specs.Answers.{IsChild, IsRefused, IsBlamed};
ghost use Rattle.bfs_pages.specs.Shapes.{Shape};
ghost use Rattle.bfs_pages.specs.Trees.{IsTree, page_in};
ghost use Rattle.bfs_pages.specs.Writes.{Kept, IsFailed, IsGrown};
ghost use Rattle.bfs_values.specs.Values.{IsDuplicates, page_count, page_numbers};
ghost use Rattle.bfs_node.specs.Page.{Row};
ghost use Rattle.bfs_values.specs.Links.{link_in};
ghost use Rattle.bfs_values.specs.declared.link.Link.TheVariants.{Fragment};
ghost use Rattle.bfs_values.specs.Stored.{Stored, IsScant};
ghost use Rattle.bfs_dups.specs.Written.{IsVacated};
ghost use Rattle.bfs_dups_add.specs.Written.{IsPut, IsWidened, IsExtended};

use crate::making::{page_of_number, set_next};
use crate::paging::put_page;
use bfs_dups::{find_number, vacate, widen_page};
use bfs_node::{KeyKind, PAGE, TreeFault};
use bfs_pages::write_page;
use bfs_txn::{Pages, Steps};
use bfs_values::number_at;
use std::sync::ledger::Ledger;

/// Adds a number to the duplicate page at a place, whose bytes are given.
pub fn widen<P: Pages>(
    pages: &mut P,
    at: u64,
    page: &mut [u8],
    number: u64,
) -> Result<(), TreeFault<P::Fault>>
    requires at { IsChild (P.size pages.old) at }
    requires page { length page.old ≡ 1024 }
    requires good { IsDuplicates page.old }
    requires room { page_count page.old < 125 }
    requires absent { times number (page_numbers page.old) ≡ 0 }
    ensures widened { OnOk result ((b : List ℕ) → P.told pages.old ≡ Some b → page.old ≡ page_in b at → (c : List ℕ) × (P.told pages.new ≡ Some c) × IsWidened b c at number) }
    ensures size { OnOk result (P.size pages.new ≡ P.size pages.old) }
    ensures failed { IfErr result (IsFailed (P.is_cause pages.old pages.new)) }
    ensures kept { Kept (P.counts pages.old) (P.counts pages.new) (P.frame pages.old) (P.frame pages.new) (P.goes_on pages.old pages.new) }
{
    let count = number_at(page, 16) as usize;
    match find_number(page, 24, count, number) {
        Ok(_) => Ok(()),
        Err(i) => {
            widen_page(page, i, number);
            match write_page(pages, at, page) {
                Ok(()) => Ok(()),
                Err(fault) => Err(fault),
            }
        }
    }
}

/// Takes a page for a number, and links it behind the last page of a chain, whose bytes are given.
pub fn extend<P: Pages, L: Ledger>(
    pages: &mut P,
    kind: KeyKind,
    last: u64,
    page: &mut [u8],
    number: u64,
    steps: &mut Steps<L>,
) -> Result<(), TreeFault<P::Fault>>
    requires kind { IsTreeKind kind }
    requires last { IsChild (P.size pages.old) last }
    requires page { length page.old ≡ 1024 }
    ensures extended { OnOk result ((b : List ℕ) → P.told pages.old ≡ Some b → page.old ≡ page_in b last → (c : List ℕ) × (P.told pages.new ≡ Some c) × (q : ℕ) × IsExtended kind b c last q number) }
    ensures size { OnOk result (IsGrown (P.size pages.old) (P.size pages.new)) }
    ensures refused { IfErr result (IsRefused kind (P.told pages.new) (P.is_cause pages.old pages.new)) }
    ensures blamed { IfErr result (IsBlamed (P.told pages.new) (P.size pages.new) (P.last pages.new)) }
    ensures spared { (b reached : List ℕ) (t : Shape) (fs : List ℕ) → P.told pages.old ≡ Some b → IsTree kind b reached t fs → IfErr result (IsScant (P.told pages.new)) }
    ensures kept { Kept (P.counts pages.old) (P.counts pages.new) (P.frame pages.old) (P.frame pages.new) (P.goes_on pages.old pages.new) }
{
    let mut fresh = [0u8; PAGE];
    page_of_number(last, number, &mut fresh);
    let at = match put_page(pages, kind, &fresh, steps) {
        Ok(at) => at,
        Err(fault) => return Err(fault),
    };
    set_next(page, at);
    match write_page(pages, last, page) {
        Ok(()) => Ok(()),
        Err(fault) => Err(fault),
    }
}

/// Frees the fragment of a page, whose bytes are given, and takes a page for other bytes.
pub fn raise<P: Pages, L: Ledger>(
    pages: &mut P,
    kind: KeyKind,
    slot: (u64, u64),
    page: &mut [u8],
    wide: &[u8],
    steps: &mut Steps<L>,
) -> Result<u64, TreeFault<P::Fault>>
    requires kind { IsTreeKind kind }
    requires at { IsChild (P.size pages.old) slot.0 }
    requires index { slot.1 < 16 }
    requires page { length page.old ≡ 1024 }
    requires wide { length wide.now ≡ 1024 }
    ensures page { IfOk result (IsChild (P.size pages.new)) }
    ensures link { IfOk result (λ q. q < 2 ^ 62) }
    ensures raised { (b : List ℕ) (t : Shape) (front back : List Row) (row : Row) → P.told pages.old ≡ Some b → page.old ≡ page_in b slot.0 → Stored kind b t (front ++ (row ∷ back)) → link_in row.1 ≡ Fragment slot.0 slot.1 → MatchResult result (λ q. (m : List ℕ) × (c : List ℕ) × (P.told pages.new ≡ Some c) × IsVacated b m slot.0 slot.1 × IsPut kind m c q wide.now) (IsScant (P.told pages.new)) }
    ensures size { OnOk result (IsGrown (P.size pages.old) (P.size pages.new)) }
    ensures refused { IfErr result (IsRefused kind (P.told pages.new) (P.is_cause pages.old pages.new)) }
    ensures blamed { IfErr result (IsBlamed (P.told pages.new) (P.size pages.new) (P.last pages.new)) }
    ensures kept { Kept (P.counts pages.old) (P.counts pages.new) (P.frame pages.old) (P.frame pages.new) (P.goes_on pages.old pages.new) }
{
    match vacate(pages, kind, slot.0, slot.1, page, steps) {
        Ok(()) => {}
        Err(fault) => return Err(fault),
    }
    match put_page(pages, kind, wide, steps) {
        Ok(at) => Ok(at),
        Err(fault) => Err(fault),
    }
}
