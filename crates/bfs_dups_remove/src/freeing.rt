// Pages of a chain that are given back, and the pages beside them.
ghost use Rattle.std.specs.Prelude.{◌≡◌, ◌≤◌, ◌<◌, ◌^◌, ℕ, List, Some, length, OnOk, IfOk, IfErr, IfSome, ◌≢◌};
ghost use Rattle.bfs_base.specs.Keys.{IsTreeKind};
ghost use Rattle.bfs_base.specs.Lists.{times};
ghost use Rattle.bfs_pages.specs.Answers.{IsChild, IsUnread, IsOfPages, IsJustRead};
ghost use Rattle.bfs_pages.specs.Shapes.{Shape};
ghost use Rattle.bfs_pages.specs.Trees.{IsTree, page_in, header_in, neighbours_in};
ghost use Rattle.bfs_pages.specs.Writes.{Kept, IsFailed};
ghost use Rattle.bfs_remove.specs.Removed.{IsGiven};
ghost use Rattle.bfs_values.specs.Values.{IsDuplicates, page_numbers};
ghost use Rattle.bfs_dups_remove.specs.Shortened.{IsRenumbered, IsPassed};

use crate::chains::{link_past, set_left};
use bfs_dups::read_page;
use bfs_node::{KeyKind, PAGE, TreeFault};
use bfs_pages::{read_header, write_page};
use bfs_remove::give_back;
use bfs_txn::{Pages, Steps};
use std::sync::ledger::Ledger;

/// Puts a page, which no value reaches any more, before the free list.
pub fn free_page<P: Pages, L: Ledger>(
    pages: &mut P,
    kind: KeyKind,
    at: u64,
    steps: &mut Steps<L>,
) -> Result<(), TreeFault<P::Fault>>
    requires kind { IsTreeKind kind }
    requires at { IsChild (P.size pages.old) at }
    ensures given { OnOk result ((b : List ℕ) → P.told pages.old ≡ Some b → (c : List ℕ) × (P.told pages.new ≡ Some c) × IsGiven b c at (header_in b)) }
    ensures size { OnOk result (P.size pages.new ≡ P.size pages.old) }
    ensures refused { IfErr result (IsUnread kind (P.told pages.new) (P.is_cause pages.old pages.new)) }
    ensures just_read { IfErr result (IsJustRead (P.size pages.new) (P.last pages.new)) }
    ensures spared { (b reached : List ℕ) (t : Shape) (fs : List ℕ) → P.told pages.old ≡ Some b → IsTree kind b reached t fs → IfErr result IsOfPages }
    ensures kept { Kept (P.counts pages.old) (P.counts pages.new) (P.frame pages.old) (P.frame pages.new) (P.goes_on pages.old pages.new) }
{
    let header = match read_header(pages, kind, steps) {
        Ok(header) => header,
        Err(fault) => return Err(fault),
    };
    match give_back(pages, header, at) {
        Ok(_) => Ok(()),
        Err(fault) => Err(fault),
    }
}

/// Takes the page behind a duplicate page out of their chain, and gives it back. The bytes of both are given: the first one's
/// are written with the right link of the other.
pub fn pass_by<P: Pages, L: Ledger>(
    pages: &mut P,
    kind: KeyKind,
    at: u64,
    page: &mut [u8],
    gone: u64,
    other: &[u8],
    steps: &mut Steps<L>,
) -> Result<(), TreeFault<P::Fault>>
    requires kind { IsTreeKind kind }
    requires at { IsChild (P.size pages.old) at }
    requires page { length page.old ≡ 1024 }
    requires gone { IsChild (P.size pages.old) gone }
    requires other { length other.now ≡ 1024 }
    ensures passed { OnOk result ((b : List ℕ) → P.told pages.old ≡ Some b → IsDuplicates page.old → other.now ≡ page_in b gone → (c : List ℕ) × (P.told pages.new ≡ Some c) × IsPassed b c at gone (page_numbers page.old)) }
    ensures size { OnOk result (P.size pages.new ≡ P.size pages.old) }
    ensures refused { IfErr result (IsUnread kind (P.told pages.new) (P.is_cause pages.old pages.new)) }
    ensures just_read { IfErr result (IsJustRead (P.size pages.new) (P.last pages.new)) }
    ensures spared { (b reached : List ℕ) (t : Shape) (fs : List ℕ) → P.told pages.old ≡ Some b → IsTree kind b reached t fs → 1 ≤ times at reached → IfErr result IsOfPages }
    ensures kept { Kept (P.counts pages.old) (P.counts pages.new) (P.frame pages.old) (P.frame pages.new) (P.goes_on pages.old pages.new) }
    ensures left { (b : List ℕ) → P.told pages.old ≡ Some b → at ≢ gone → OnOk result (IfSome (P.told pages.new) (λ c. (neighbours_in (page_in c at)).0 ≡ (neighbours_in page.old).0)) }
{
    link_past(page, other);
    match write_page(pages, at, page) {
        Ok(()) => {}
        Err(fault) => return Err(fault),
    }
    match free_page(pages, kind, gone, steps) {
        Ok(()) => Ok(()),
        Err(fault) => Err(fault),
    }
}

/// Writes the left link of the duplicate page at a place.
pub fn mend_left<P: Pages, L: Ledger>(
    pages: &mut P,
    at: u64,
    left: u64,
    steps: &mut Steps<L>,
) -> Result<(), TreeFault<P::Fault>>
    requires at { IsChild (P.size pages.old) at }
    ensures mended { OnOk result ((b : List ℕ) → P.told pages.old ≡ Some b → IsDuplicates (page_in b at) → (c : List ℕ) × (P.told pages.new ≡ Some c) × IsRenumbered b c at (page_numbers (page_in b at))) }
    ensures left { (b : List ℕ) → P.told pages.old ≡ Some b → 1 ≤ left → left < 2 ^ 63 → OnOk result (IfSome (P.told pages.new) (λ c. (neighbours_in (page_in c at)).0 ≡ left)) }
    ensures size { OnOk result (P.size pages.new ≡ P.size pages.old) }
    ensures failed { IfErr result (IsFailed (P.is_cause pages.old pages.new)) }
    ensures kept { Kept (P.counts pages.old) (P.counts pages.new) (P.frame pages.old) (P.frame pages.new) (P.goes_on pages.old pages.new) }
{
    let mut page = [0u8; PAGE];
    match read_page(pages, at, &mut page, steps) {
        Ok(()) => {}
        Err(fault) => return Err(fault),
    }
    set_left(&mut page, left);
    match write_page(pages, at, &page) {
        Ok(()) => Ok(()),
        Err(fault) => Err(fault),
    }
}
