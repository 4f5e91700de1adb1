// Reads the pages of a tree.
ghost use Rattle.std.specs.Prelude.{◌≡◌, ◌≤◌, ◌<◌, ◌+◌, ◌↔◌, ℕ, pos, negsuc, length, OnOk, IfOk, IfErr, IfSome, IsTrue};
ghost use Rattle.bfs_node.specs.Keys.{IsTreeKind};
ghost use Rattle.bfs_node.specs.Header.{IsHeader};
ghost use Rattle.bfs_node.specs.Page.{IsPage, rows_of, row_in, value_of, links_of};
ghost use Rattle.bfs_txn.specs.Faults.{AreLater};
ghost use Rattle.bfs_node.specs.declared.fault.PageKind.TheVariants.{Header as HeaderKind, Leaf, Interior};
ghost use Rattle.bfs_pages.specs.Answers.{IsChild, IsLink, IsUnread, IsJustRead, IsBroken, IsHeaderFor, IsLeafPage, IsInteriorPage, IsAt};
ghost use Rattle.bfs_pages.specs.Trees.{header_in, IsTreeHeader, page_in, place_of, is_page};

use crate::places::{is_child, is_link, place};
use bfs_node::{
    Header, KeyKind, PAGE, PageKind, TreeFault, check, data_type, left_link, overflow_link,
    right_link, row_count, row_value,
};
use bfs_txn::{Pages, Steps};
use std::sync::ledger::Ledger;

/// Whether a header tells that the stream has so many bytes.
fn tells_size(header: Header, size: u64) -> bool
    ensures { IsTrue result ↔ header.maximum_size ≡ pos size }
{
    header.maximum_size >= 0 && header.maximum_size as u64 == size
}

/// Whether a header is that of a tree of this kind of keys in a stream with so many bytes, and its links lead to
/// pages.
fn is_header(header: Header, kind: KeyKind, size: u64) -> bool
    requires { IsHeader header }
    ensures found { IsTrue result → IsHeaderFor kind size header }
    ensures refused { IsHeaderFor kind size header → IsTrue result }
{
    if header.data_type != data_type(kind) {
        return false;
    }
    if header.levels == 0 {
        return false;
    }
    if !tells_size(header, size) {
        return false;
    }
    if !is_child(place(header.root_pointer), size) {
        return false;
    }
    is_link(place(header.free_pointer), size)
}

/// Reads the header of a tree of this kind of keys.
pub fn read_header<P: Pages, L: Ledger>(
    pages: &mut P,
    kind: KeyKind,
    steps: &mut Steps<L>,
) -> Result<Header, TreeFault<P::Fault>>
    requires kind { IsTreeKind kind }
    ensures good { IfOk result (λ h. IsHeaderFor kind (P.size pages.old) h) }
    ensures header { IfOk result (λ h. IfSome (P.told pages.old) (λ b. h ≡ header_in b)) }
    ensures refused { IfErr result (IsUnread kind (P.told pages.new) (P.is_cause pages.old pages.new)) }
    ensures just_read { IfErr result (IsJustRead (P.size pages.new) (P.last pages.new)) }
    ensures broken { IfErr result (IsBroken kind (P.size pages.new) (P.last pages.new) (P.page pages.new)) }
    ensures at { IfErr result (IsAt 0 HeaderKind) }
    ensures steps { steps.new ≤ steps.old + 1 }
    ensures told { P.told pages.new ≡ P.told pages.old }
    ensures size { P.size pages.new ≡ P.size pages.old }
    ensures counts { AreLater (P.counts pages.old) (P.counts pages.new) }
    ensures frame { P.frame pages.new ≡ P.frame pages.old }
    ensures goes_on { P.goes_on pages.old pages.new }
    ensures is_read { P.is_read pages.old pages.new }
{
    let damaged = TreeFault::Damaged {
        page: 0,
        kind: PageKind::Header,
    };
    let size = pages.length();
    if size == 0 {
        return Err(damaged);
    }
    let mut page = [0u8; PAGE];
    match pages.get(0, &mut page, steps) {
        Ok(()) => {}
        Err(fault) => return Err(TreeFault::Pages(fault)),
    }
    match Header::of(&page) {
        Ok(header) => {
            if is_header(header, kind, size) {
                Ok(header)
            } else {
                Err(damaged)
            }
        }
        Err(_) => Err(damaged),
    }
}

/// Whether the rows of a page can be read.
fn is_good(page: &[u8], kind: KeyKind) -> bool
    requires size { length page.now ≡ 1024 }
    requires kind { IsTreeKind kind }
    ensures good { result ≡ is_page kind page.now }
    ensures page { IsTrue result → IsPage kind page.now }
{
    match check(page, kind) {
        Ok(()) => true,
        Err(_) => false,
    }
}

/// Whether a page is a leaf, and its links lead to pages of a stream with so many bytes.
fn is_leaf(page: &[u8], kind: KeyKind, size: u64) -> bool
    requires size { length page.now ≡ 1024 }
    requires kind { IsTreeKind kind }
    ensures page { IsTrue result → IsPage kind page.now }
    ensures leaf { IsTrue result → IsLeafPage kind size page.now }
    ensures refused { IsLeafPage kind size page.now → IsTrue result }
{
    if !is_good(page, kind) {
        return false;
    }
    if overflow_link(page) != -1 {
        return false;
    }
    if !is_link(place(left_link(page)), size) {
        return false;
    }
    is_link(place(right_link(page)), size)
}

/// Whether the values of a page lead to pages of a stream with so many bytes.
fn has_children(page: &[u8], kind: KeyKind, size: u64) -> bool
    requires { IsPage kind page.now }
    ensures found { IsTrue result → (i : ℕ) → i < length (rows_of page.now) → IsChild size (place_of (value_of (row_in (rows_of page.now) i))) }
    ensures refused { ((i : ℕ) → i < length (rows_of page.now) → IsChild size (place_of (value_of (row_in (rows_of page.now) i)))) → IsTrue result }
{
    for i in 0..row_count(page) {
        if !is_child(place(row_value(page, i)), size) {
            return false;
        }
    }
    true
}

/// Whether a page is an interior page, and its links lead to pages of a stream with so many bytes.
fn is_interior(page: &[u8], kind: KeyKind, size: u64) -> bool
    requires size { length page.now ≡ 1024 }
    requires kind { IsTreeKind kind }
    ensures page { IsTrue result → IsPage kind page.now }
    ensures interior { IsTrue result → IsInteriorPage kind size page.now }
    ensures refused { IsInteriorPage kind size page.now → IsTrue result }
{
    if !is_good(page, kind) {
        return false;
    }
    if !is_child(place(overflow_link(page)), size) {
        return false;
    }
    has_children(page, kind, size)
}

/// Reads a page that is to be a leaf.
pub fn read_leaf<P: Pages, L: Ledger>(
    pages: &mut P,
    kind: KeyKind,
    at: u64,
    page: &mut [u8],
    steps: &mut Steps<L>,
) -> Result<(), TreeFault<P::Fault>>
    requires kind { IsTreeKind kind }
    requires at { IsChild (P.size pages.old) at }
    requires page { length page.old ≡ 1024 }
    ensures page { OnOk result (IsPage kind page.new) }
    ensures leaf { OnOk result (IsLeafPage kind (P.size pages.old) page.new) }
    ensures read { OnOk result (IfSome (P.told pages.old) (λ b. page.new ≡ page_in b at)) }
    ensures last { OnOk result (P.last pages.new ≡ at) }
    ensures bytes { OnOk result (P.page pages.new ≡ page.new) }
    ensures length { length page.new ≡ 1024 }
    ensures refused { IfErr result (IsUnread kind (P.told pages.new) (P.is_cause pages.old pages.new)) }
    ensures just_read { IfErr result (IsJustRead (P.size pages.new) (P.last pages.new)) }
    ensures broken { IfErr result (IsBroken kind (P.size pages.new) (P.last pages.new) (P.page pages.new)) }
    ensures at { IfErr result (IsAt at Leaf) }
    ensures steps { steps.new ≤ steps.old + 1 }
    ensures told { P.told pages.new ≡ P.told pages.old }
    ensures size { P.size pages.new ≡ P.size pages.old }
    ensures counts { AreLater (P.counts pages.old) (P.counts pages.new) }
    ensures frame { P.frame pages.new ≡ P.frame pages.old }
    ensures goes_on { P.goes_on pages.old pages.new }
    ensures is_read { P.is_read pages.old pages.new }
{
    let size = pages.length();
    match pages.get(at, page, steps) {
        Ok(()) => {}
        Err(fault) => return Err(TreeFault::Pages(fault)),
    }
    if is_leaf(page, kind, size) {
        Ok(())
    } else {
        Err(TreeFault::Damaged {
            page: at,
            kind: PageKind::Leaf,
        })
    }
}

/// Reads a page that is to be an interior page.
pub fn read_interior<P: Pages, L: Ledger>(
    pages: &mut P,
    kind: KeyKind,
    at: u64,
    page: &mut [u8],
    steps: &mut Steps<L>,
) -> Result<(), TreeFault<P::Fault>>
    requires kind { IsTreeKind kind }
    requires at { IsChild (P.size pages.old) at }
    requires page { length page.old ≡ 1024 }
    ensures page { OnOk result (IsPage kind page.new) }
    ensures interior { OnOk result (IsInteriorPage kind (P.size pages.old) page.new) }
    ensures read { OnOk result (IfSome (P.told pages.old) (λ b. page.new ≡ page_in b at)) }
    ensures length { length page.new ≡ 1024 }
    ensures refused { IfErr result (IsUnread kind (P.told pages.new) (P.is_cause pages.old pages.new)) }
    ensures just_read { IfErr result (IsJustRead (P.size pages.new) (P.last pages.new)) }
    ensures broken { IfErr result (IsBroken kind (P.size pages.new) (P.last pages.new) (P.page pages.new)) }
    ensures at { IfErr result (IsAt at Interior) }
    ensures steps { steps.new ≤ steps.old + 1 }
    ensures told { P.told pages.new ≡ P.told pages.old }
    ensures size { P.size pages.new ≡ P.size pages.old }
    ensures counts { AreLater (P.counts pages.old) (P.counts pages.new) }
    ensures frame { P.frame pages.new ≡ P.frame pages.old }
    ensures goes_on { P.goes_on pages.old pages.new }
    ensures is_read { P.is_read pages.old pages.new }
{
    let size = pages.length();
    match pages.get(at, page, steps) {
        Ok(()) => {}
        Err(fault) => return Err(TreeFault::Pages(fault)),
    }
    if is_interior(page, kind, size) {
        Ok(())
    } else {
        Err(TreeFault::Damaged {
            page: at,
            kind: PageKind::Interior,
        })
    }
}
