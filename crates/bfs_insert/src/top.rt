// Where the way of a key begins: the root, or where that is full, a new page above it.
ghost use Rattle.std.specs.Prelude.{◌≡◌, ◌≤◌, ◌<◌, ◌+◌, ℕ, List, Some, length, OnOk, IfOk, IfErr, IfSome};
ghost use Rattle.bfs_base.specs.Keys.{IsTreeKind};
ghost use Rattle.bfs_node.specs.Page.{IsPage};
ghost use Rattle.bfs_pages.specs.Answers.{IsChild, IsHeaderFor, IsUnread, IsRefused, IsSpared, IsBlamed};
ghost use Rattle.bfs_pages.specs.Shapes.{Shape};
ghost use Rattle.bfs_pages.specs.Trees.{IsTree, header_in, page_in, place_of};
ghost use Rattle.bfs_pages.specs.Writes.{Makes, Kept, IsGrown};
ghost use Rattle.bfs_insert.specs.Puts.{IsTop, HasRisen};

use crate::descend::is_roomy;
use bfs_node::{Header, KeyKind, PAGE, TreeFault, blank, set_overflow_link};
use bfs_pages::{
    place, read_header, read_interior, read_leaf, take_page, write_header, write_page,
};
use bfs_txn::{Pages, Steps};
use std::sync::ledger::Ledger;

/// The root's byte in the stream, and the tree's levels.
#[derive(Clone, Copy, Debug, PartialEq, Eq)]
pub struct Top {
    pub root: u64,
    pub levels: u32,
}

/// Reads the root of a tree with this header.
fn read_root<P: Pages, L: Ledger>(
    pages: &mut P,
    kind: KeyKind,
    header: Header,
    page: &mut [u8],
    steps: &mut Steps<L>,
) -> Result<(), TreeFault<P::Fault>>
    requires kind { IsTreeKind kind }
    requires header { IsHeaderFor kind (P.size pages.old) header }
    requires page { length page.old ≡ 1024 }
    ensures page { OnOk result (IsPage kind page.new) }
    ensures read { OnOk result (IfSome (P.told pages.old) (λ b. page.new ≡ page_in b (place_of header.root_pointer))) }
    ensures length { length page.new ≡ 1024 }
    ensures refused { IfErr result (IsUnread kind (P.told pages.new) (P.is_cause pages.old pages.new)) }
    ensures blamed { IfErr result (IsBlamed (P.told pages.new) (P.size pages.new) (P.last pages.new)) }
    ensures spared { (b reached : List ℕ) (t : Shape) (fs : List ℕ) → P.told pages.old ≡ Some b → header ≡ header_in b → IsTree kind b reached t fs → IfErr result (IsSpared (P.told pages.new)) }
    ensures told { P.told pages.new ≡ P.told pages.old }
    ensures size { P.size pages.new ≡ P.size pages.old }
    ensures kept { Kept (P.counts pages.old) (P.counts pages.new) (P.frame pages.old) (P.frame pages.new) (P.goes_on pages.old pages.new) }
{
    let at = place(header.root_pointer);
    if header.levels == 1 {
        match read_leaf(pages, kind, at, page, steps) {
            Ok(()) => Ok(()),
            Err(fault) => Err(fault),
        }
    } else {
        match read_interior(pages, kind, at, page, steps) {
            Ok(()) => Ok(()),
            Err(fault) => Err(fault),
        }
    }
}

/// Puts a page with no rows above the root.
fn add_root<P: Pages, L: Ledger>(
    pages: &mut P,
    kind: KeyKind,
    steps: &mut Steps<L>,
) -> Result<Top, TreeFault<P::Fault>>
    requires kind { IsTreeKind kind }
    ensures root { IfOk result (λ t. IsChild (P.size pages.new) t.root) }
    ensures some { IfOk result (λ t. 1 ≤ t.levels) }
    ensures top { IfOk result (λ t. Makes (P.told pages.old) (P.told pages.new) (λ b c. IsTop kind b c t.root t.levels × (t.levels ≡ (header_in b).levels + 1))) }
    ensures refused { IfErr result (IsRefused kind (P.told pages.new) (P.is_cause pages.old pages.new)) }
    ensures blamed { IfErr result (IsBlamed (P.told pages.new) (P.size pages.new) (P.last pages.new)) }
    ensures spared { (b reached : List ℕ) (t : Shape) (fs : List ℕ) → P.told pages.old ≡ Some b → IsTree kind b reached t fs → IfErr result (IsSpared (P.told pages.new)) }
    ensures kept { Kept (P.counts pages.old) (P.counts pages.new) (P.frame pages.old) (P.frame pages.new) (P.goes_on pages.old pages.new) }
{
    let fresh = match take_page(pages, kind, steps) {
        Ok(fresh) => fresh,
        Err(fault) => return Err(fault),
    };
    let root = fresh.page;
    let header = fresh.header;
    if header.levels == u32::MAX {
        return Err(TreeFault::NoMemory);
    }
    let levels = header.levels + 1;
    let mut page = [0u8; PAGE];
    blank(&mut page);
    set_overflow_link(&mut page, header.root_pointer);
    match write_page(pages, root, &page) {
        Ok(()) => {}
        Err(fault) => return Err(fault),
    }
    let header = Header {
        root_pointer: root as i64,
        levels,
        ..header
    };
    match write_header(pages, header) {
        Ok(()) => Ok(Top { root, levels }),
        Err(fault) => Err(fault),
    }
}

/// Reads the root, and puts a page above it where it is full.
pub fn reach_top<P: Pages, L: Ledger>(
    pages: &mut P,
    kind: KeyKind,
    steps: &mut Steps<L>,
) -> Result<Top, TreeFault<P::Fault>>
    requires kind { IsTreeKind kind }
    ensures root { IfOk result (λ t. IsChild (P.size pages.new) t.root) }
    ensures some { IfOk result (λ t. 1 ≤ t.levels) }
    ensures top { IfOk result (λ t. Makes (P.told pages.old) (P.told pages.new) (λ b c. IsTop kind b c t.root t.levels × HasRisen b t.levels)) }
    ensures refused { IfErr result (IsRefused kind (P.told pages.new) (P.is_cause pages.old pages.new)) }
    ensures blamed { IfErr result (IsBlamed (P.told pages.new) (P.size pages.new) (P.last pages.new)) }
    ensures spared { (b reached : List ℕ) (t : Shape) (fs : List ℕ) → P.told pages.old ≡ Some b → IsTree kind b reached t fs → IfErr result (IsSpared (P.told pages.new)) }
    ensures kept { Kept (P.counts pages.old) (P.counts pages.new) (P.frame pages.old) (P.frame pages.new) (P.goes_on pages.old pages.new) }
{
    let header = match read_header(pages, kind, steps) {
        Ok(header) => header,
        Err(fault) => return Err(fault),
    };
    let mut page = [0u8; PAGE];
    match read_root(pages, kind, header, &mut page, steps) {
        Ok(()) => {}
        Err(fault) => return Err(fault),
    }
    if is_roomy(&page) {
        return Ok(Top {
            root: place(header.root_pointer),
            levels: header.levels,
        });
    }
    match add_root(pages, kind, steps) {
        Ok(top) => Ok(top),
        Err(fault) => Err(fault),
    }
}
