// Takes pages for a tree: the first free one, or where there is none, a new one at the end.
ghost use Rattle.std.specs.Prelude.{◌≡◌, ◌≢◌, ◌≤◌, ◌<◌, ◌+◌, ℕ, List, Some, length, OnOk, IfOk, IfErr, IfSome, MatchOption};
ghost use Rattle.bfs_node.specs.Keys.{IsTreeKind};
ghost use Rattle.bfs_pages.specs.Answers.{IsChild, IsLink, IsHeaderFor, IsRefused, IsBlamed, IsTurned, IsSpared};
ghost use Rattle.bfs_pages.specs.Shapes.{Shape};
ghost use Rattle.bfs_pages.specs.Trees.{IsTree, IsTreeHeader, header_in, page_in, place_of, free_in};
ghost use Rattle.bfs_pages.specs.Writes.{Makes, Kept, IsFailed, IsTaken, IsGrown};

use crate::places::{is_link, place};
use crate::read::read_header;
use crate::write::{add_page, write_header};
use bfs_node::{Header, KeyKind, PAGE, PageKind, TreeFault, left_link, overflow_link};
use bfs_txn::{Pages, Steps};
use std::sync::ledger::Ledger;

/// A page that was taken for a tree, and the header as it is since.
#[derive(Clone, Copy, Debug, PartialEq, Eq)]
pub struct Fresh {
    pub page: u64,
    pub header: Header,
}

/// The link to the next free page, where a page is free and the link leads to a page of a stream with so many bytes.
fn next_free(page: &[u8], size: u64) -> Option<i64>
    requires { length page.now ≡ 1024 }
    ensures { MatchOption result ((next : ℕ) → free_in page.now ≡ Some next → IsLink size next → ⊥) (λ link. (free_in page.now ≡ Some (place_of link)) × IsLink size (place_of link)) }
{
    let link = left_link(page);
    if overflow_link(page) == -2 && is_link(place(link), size) {
        Some(link)
    } else {
        None
    }
}

/// The largest stream that a page is added to, so that its size stands in the header.
const MOST: u64 = 0x7fff_ffff_ffff_f800;

/// Adds a page to the stream, whose header is this one.
fn take_new<P: Pages>(
    pages: &mut P,
    kind: KeyKind,
    header: Header,
) -> Result<Fresh, TreeFault<P::Fault>>
    requires header { IsHeaderFor kind (P.size pages.old) header }
    requires none { place_of header.free_pointer ≡ 0 }
    ensures page { IfOk result (λ f. IsChild (P.size pages.new) f.page) }
    ensures header { IfOk result (λ f. IsHeaderFor kind (P.size pages.new) f.header) }
    ensures taken { IfOk result (λ f. (b : List ℕ) → P.told pages.old ≡ Some b → header ≡ header_in b → (c : List ℕ) × (P.told pages.new ≡ Some c) × IsTaken kind b c f.page f.header) }
    ensures size { OnOk result (P.size pages.new ≡ P.size pages.old + 1024) }
    ensures refused { IfErr result (IsTurned (P.is_cause pages.old pages.new)) }
    ensures spared { IfErr result (IsSpared (P.told pages.new)) }
    ensures kept { Kept (P.counts pages.old) (P.counts pages.new) (P.frame pages.old) (P.frame pages.new) (P.goes_on pages.old pages.new) }
{
    let size = pages.length();
    if size > MOST {
        return Err(TreeFault::NoMemory);
    }
    let page = match add_page(pages) {
        Ok(page) => page,
        Err(fault) => return Err(fault),
    };
    let header = Header {
        maximum_size: (size + 1024) as i64,
        ..header
    };
    match write_header(pages, header) {
        Ok(()) => Ok(Fresh { page, header }),
        Err(fault) => Err(fault),
    }
}

/// Takes the first free page from a stream whose header is this one.
fn take_first<P: Pages, L: Ledger>(
    pages: &mut P,
    kind: KeyKind,
    header: Header,
    steps: &mut Steps<L>,
) -> Result<Fresh, TreeFault<P::Fault>>
    requires header { IsHeaderFor kind (P.size pages.old) header }
    requires some { IsChild (P.size pages.old) (place_of header.free_pointer) }
    ensures page { IfOk result (λ f. IsChild (P.size pages.new) f.page) }
    ensures header { IfOk result (λ f. IsHeaderFor kind (P.size pages.new) f.header) }
    ensures taken { IfOk result (λ f. (b : List ℕ) → P.told pages.old ≡ Some b → header ≡ header_in b → (c : List ℕ) × (P.told pages.new ≡ Some c) × IsTaken kind b c f.page f.header) }
    ensures size { OnOk result (P.size pages.new ≡ P.size pages.old) }
    ensures refused { IfSome (P.told pages.old) (λ b. header ≡ header_in b) → IfErr result (IsRefused kind (P.told pages.new) (P.is_cause pages.old pages.new)) }
    ensures blamed { IfSome (P.told pages.old) (λ b. header ≡ header_in b) → IfErr result (IsBlamed (P.told pages.new) (P.size pages.new) (P.last pages.new)) }
    ensures spared { (b reached : List ℕ) (t : Shape) (fs : List ℕ) → P.told pages.old ≡ Some b → header ≡ header_in b → IsTree kind b reached t fs → IfErr result (IsSpared (P.told pages.new)) }
    ensures kept { Kept (P.counts pages.old) (P.counts pages.new) (P.frame pages.old) (P.frame pages.new) (P.goes_on pages.old pages.new) }
{
    let at = place(header.free_pointer);
    let size = pages.length();
    let mut page = [0u8; PAGE];
    match pages.get(at, &mut page, steps) {
        Ok(()) => {}
        Err(fault) => return Err(TreeFault::Pages(fault)),
    }
    match next_free(&page, size) {
        Some(next) => {
            let header = Header {
                free_pointer: next,
                ..header
            };
            match write_header(pages, header) {
                Ok(()) => Ok(Fresh { page: at, header }),
                Err(fault) => Err(fault),
            }
        }
        None => Err(TreeFault::Damaged {
            page: 0,
            kind: PageKind::Header,
        }),
    }
}

/// Takes a page for a tree: the first free one, or where there is none, a new one at the end.
pub fn take_page<P: Pages, L: Ledger>(
    pages: &mut P,
    kind: KeyKind,
    steps: &mut Steps<L>,
) -> Result<Fresh, TreeFault<P::Fault>>
    requires kind { IsTreeKind kind }
    ensures page { IfOk result (λ f. IsChild (P.size pages.new) f.page) }
    ensures header { IfOk result (λ f. IsHeaderFor kind (P.size pages.new) f.header) }
    ensures taken { IfOk result (λ f. (b : List ℕ) → P.told pages.old ≡ Some b → (c : List ℕ) × (P.told pages.new ≡ Some c) × IsTaken kind b c f.page f.header) }
    ensures size { OnOk result (IsGrown (P.size pages.old) (P.size pages.new)) }
    ensures refused { IfErr result (IsRefused kind (P.told pages.new) (P.is_cause pages.old pages.new)) }
    ensures blamed { IfErr result (IsBlamed (P.told pages.new) (P.size pages.new) (P.last pages.new)) }
    ensures spared { (b reached : List ℕ) (t : Shape) (fs : List ℕ) → P.told pages.old ≡ Some b → IsTree kind b reached t fs → IfErr result (IsSpared (P.told pages.new)) }
    ensures kept { Kept (P.counts pages.old) (P.counts pages.new) (P.frame pages.old) (P.frame pages.new) (P.goes_on pages.old pages.new) }
{
    match read_header(pages, kind, steps) {
        Ok(header) => {
            if place(header.free_pointer) == 0 {
                match take_new(pages, kind, header) {
                    Ok(fresh) => Ok(fresh),
                    Err(fault) => Err(fault),
                }
            } else {
                match take_first(pages, kind, header, steps) {
                    Ok(fresh) => Ok(fresh),
                    Err(fault) => Err(fault),
                }
            }
        }
        Err(fault) => Err(fault),
    }
}
