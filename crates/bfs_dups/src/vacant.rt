// Looks for a free fragment in the pages that a leaf names.
ghost use Rattle.std.specs.Prelude.{◌≡◌, ◌≤◌, ◌<◌, ◌^◌, ℕ, List, Some, None, length, IfOk, IfErr, IfSome};
ghost use Rattle.bfs_base.specs.Keys.{IsTreeKind};
ghost use Rattle.bfs_base.specs.Lists.{times};
ghost use Rattle.bfs_pages.specs.Answers.{IsChild, IsUnread, IsOfPages, IsJustRead};
ghost use Rattle.bfs_pages.specs.Shapes.{Shape, leaves_of};
ghost use Rattle.bfs_pages.specs.Trees.{IsTree, page_in};
ghost use Rattle.bfs_pages.specs.Writes.{Kept, IsFailed};
ghost use Rattle.bfs_values.specs.Links.{link_in};
ghost use Rattle.bfs_values.specs.Values.{fragment_count};
ghost use Rattle.bfs_values.specs.declared.link.Link.TheVariants.{Fragment};
ghost use Rattle.bfs_values.specs.Named.{IsNamedIn, IsFull, IsCrowded};

use crate::fragments::free_fragment;
use crate::paging::read_page;
use bfs_node::{KeyKind, PAGE, PageKind, TreeFault, row_count, row_value};
use bfs_pages::{is_child, read_leaf};
use bfs_txn::{Pages, Steps};
use bfs_values::{Link, link_of};
use std::sync::ledger::Ledger;

/// A fragment of the page that begins at a byte of the stream.
#[derive(Clone, Copy, Debug, PartialEq, Eq)]
pub struct Slot {
    pub page: u64,
    pub index: u64,
}

/// A free fragment of the page that a value names, if it names a fragment; the page's bytes are given.
fn vacant_of<P: Pages, L: Ledger>(
    pages: &mut P,
    value: i64,
    page: &mut [u8],
    steps: &mut Steps<L>,
) -> Result<Option<Slot>, TreeFault<P::Fault>>
    requires page { length page.old ≡ 1024 }
    ensures named { IfOk result (λ o. IfSome o (λ slot. (i : ℕ) × (link_in value ≡ Fragment slot.page i))) }
    ensures place { IfOk result (λ o. IfSome o (λ slot. IsChild (P.size pages.old) slot.page × (slot.page < 2 ^ 62) × (slot.index < 16) × (fragment_count page.new slot.index ≡ 0) × IfSome (P.told pages.old) (λ b. page.new ≡ page_in b slot.page))) }
    ensures length { length page.new ≡ 1024 }
    ensures told { P.told pages.new ≡ P.told pages.old }
    ensures size { P.size pages.new ≡ P.size pages.old }
    ensures failed { IfErr result (IsFailed (P.is_cause pages.old pages.new)) }
    ensures kept { Kept (P.counts pages.old) (P.counts pages.new) (P.frame pages.old) (P.frame pages.new) (P.goes_on pages.old pages.new) }
    ensures crowded { IfOk result (λ o. o ≡ None → IfSome (P.told pages.old) (λ b. (at i : ℕ) → link_in value ≡ Fragment at i → IsChild (length b) at → IsFull (page_in b at))) }
{
    match link_of(value) {
        Link::Fragment { page: at, .. } => {
            if !is_child(at, pages.length()) {
                return Ok(None);
            }
            match read_page(pages, at, page, steps) {
                Ok(()) => {}
                Err(fault) => return Err(fault),
            }
            match free_fragment(page) {
                Some(index) => Ok(Some(Slot { page: at, index })),
                None => Ok(None),
            }
        }
        _ => Ok(None),
    }
}

/// A free fragment of a page that a value of this leaf names; the page's bytes are given.
pub fn find_vacant<P: Pages, L: Ledger>(
    pages: &mut P,
    kind: KeyKind,
    leaf: u64,
    page: &mut [u8],
    steps: &mut Steps<L>,
) -> Result<Option<Slot>, TreeFault<P::Fault>>
    requires kind { IsTreeKind kind }
    requires page { length page.old ≡ 1024 }
    ensures named { IfOk result (λ o. IfSome o (λ slot. IfSome (P.told pages.old) (λ b. IsNamedIn b leaf slot.page))) }
    ensures place { IfOk result (λ o. IfSome o (λ slot. IsChild (P.size pages.old) slot.page × (slot.page < 2 ^ 62) × (slot.index < 16) × (fragment_count page.new slot.index ≡ 0) × IfSome (P.told pages.old) (λ b. page.new ≡ page_in b slot.page))) }
    ensures length { length page.new ≡ 1024 }
    ensures told { P.told pages.new ≡ P.told pages.old }
    ensures size { P.size pages.new ≡ P.size pages.old }
    ensures refused { IfErr result (IsUnread kind (P.told pages.new) (P.is_cause pages.old pages.new)) }
    ensures just_read { IsChild (P.size pages.old) leaf → IfErr result (IsJustRead (P.size pages.new) (P.last pages.new)) }
    ensures spared { (b reached : List ℕ) (t : Shape) (fs : List ℕ) → P.told pages.old ≡ Some b → IsTree kind b reached t fs → 1 ≤ times leaf (leaves_of t) → IfErr result IsOfPages }
    ensures kept { Kept (P.counts pages.old) (P.counts pages.new) (P.frame pages.old) (P.frame pages.new) (P.goes_on pages.old pages.new) }
    ensures crowded { IfOk result (λ o. o ≡ None → IfSome (P.told pages.old) (λ b. IsCrowded b leaf)) }
{
    let mut rows = [0u8; PAGE];
    if !is_child(leaf, pages.length()) {
        return Err(TreeFault::Damaged {
            page: leaf,
            kind: PageKind::Leaf,
        });
    }
    match read_leaf(pages, kind, leaf, &mut rows, steps) {
        Ok(()) => {}
        Err(fault) => return Err(fault),
    }
    for i in 0..row_count(&rows) {
        match vacant_of(pages, row_value(&rows, i), page, steps) {
            Ok(Some(slot)) => return Ok(Some(slot)),
            Ok(None) => {}
            Err(fault) => return Err(fault),
        }
    }
    Ok(None)
}
