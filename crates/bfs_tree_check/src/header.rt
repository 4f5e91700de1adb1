// The header of a tree that may hold anything.
ghost use Rattle.std.specs.Prelude.{◌≡◌, ◌≤◌, ℕ, pos, List, length, Some, OnOk, IfOk, IfErr, IfSome, IsTrue, ◌↔◌};
ghost use Rattle.bfs_base.specs.Keys.{IsTreeKind};
ghost use Rattle.bfs_node.specs.Header.{code_of, IsHeader};
ghost use Rattle.bfs_txn.specs.Faults.{AreLater};
ghost use Rattle.bfs_node.specs.Faults.{IsHeaderRefusal};
ghost use Rattle.bfs_pages.specs.Answers.{IsChild, IsLink, IsHeaderFor};
ghost use Rattle.bfs_pages.specs.Trees.{header_in, place_of};
ghost use Rattle.bfs_finding.specs.TreeFaults.{wanted_link};
ghost use Rattle.bfs_walk.specs.Wrong.{IsWalkCause};
ghost use Rattle.bfs_tree_check.specs.Amiss.{IsTopFault, IsAmissIn, IsAmiss};

use crate::{check_free, wanted_for};
use bfs_finding::PagePart;
use bfs_node::{Header, KeyKind, PAGE, PageFault, data_type};
use bfs_pages::{is_child, place};
use bfs_txn::{Pages, Steps};
use bfs_walk::{TreeWrong, WalkFault};
use std::sync::ledger::Ledger;

/// Which part of a header is wrong, by why it is refused.
fn part_of(fault: PageFault, kind: KeyKind) -> PagePart
    requires kind { IsTreeKind kind }
    ensures { (b : List ℕ) → IsHeaderRefusal (header_in b) fault → IsTopFault kind b result }
{
    match fault {
        PageFault::Magic { .. } => PagePart::Magic,
        PageFault::Size { .. } => PagePart::Size,
        PageFault::Kind { .. } => PagePart::Kind,
        PageFault::Bounds { .. } => PagePart::Bounds,
        PageFault::Ends { .. } => PagePart::Ends,
    }
}

/// Does the header's link to the root lead to a page?
fn check_root(link: i64, size: u64) -> Result<(), TreeWrong>
    ensures sound { OnOk result (IsChild size (place_of link)) }
    ensures wrong { IfErr result (λ wrong. (wrong ≡ TreeWrong.Link 0 link (wanted_link link)) × ¬ IsChild size (place_of link)) }
{
    if is_child(place(link), size) {
        Ok(())
    } else {
        Err(TreeWrong::Link {
            page: 0,
            found: link,
            wanted: wanted_for(link),
        })
    }
}

/// Is a header that of a tree of this kind of keys?
fn has_kind(header: Header, kind: KeyKind) -> bool
    ensures { IsTrue result ↔ header.data_type ≡ code_of kind }
{
    header.data_type == data_type(kind)
}

/// Has a tree a level, by its header?
fn has_level(header: Header) -> bool
    ensures { IsTrue result ↔ 1 ≤ header.levels }
{
    1 <= header.levels
}

/// Does a header tell that the stream has so many bytes?
fn tells_size(header: Header, size: u64) -> bool
    ensures { IsTrue result ↔ header.maximum_size ≡ pos size }
{
    header.maximum_size >= 0 && header.maximum_size as u64 == size
}

/// Is a header that of a tree of this kind of keys in a stream with so many bytes, and do its links lead to pages?
fn check_header(header: Header, kind: KeyKind, size: u64) -> Result<(), TreeWrong>
    requires header { IsHeader header }
    ensures good { OnOk result (IsHeaderFor kind size header) }
    ensures wrong { (b : List ℕ) → header ≡ header_in b → size ≡ length b → IfErr result (IsAmissIn kind b) }
{
    if !has_kind(header, kind) {
        return Err(TreeWrong::Page {
            page: 0,
            part: PagePart::Kind,
        });
    }
    if !has_level(header) {
        return Err(TreeWrong::Link {
            page: 0,
            found: 0,
            wanted: 1,
        });
    }
    if !tells_size(header, size) {
        return Err(TreeWrong::Page {
            page: 0,
            part: PagePart::Size,
        });
    }
    match check_root(header.root_pointer, size) {
        Ok(()) => {}
        Err(wrong) => return Err(wrong),
    }
    check_free(0, header.free_pointer, size)
}

/// Reads the header of a tree of this kind of keys.
pub fn look_at_header<P: Pages, L: Ledger>(
    pages: &mut P,
    kind: KeyKind,
    steps: &mut Steps<L>,
) -> Result<Header, WalkFault<P::Fault>>
    requires kind { IsTreeKind kind }
    ensures good { IfOk result (IsHeaderFor kind (P.size pages.old)) }
    ensures header { IfOk result (λ h. IfSome (P.told pages.old) (λ b. h ≡ header_in b)) }
    ensures wrong { (b : List ℕ) → P.told pages.old ≡ Some b → IfErr result (IsAmiss kind b) }
    ensures cause { IfErr result (IsWalkCause (P.is_cause pages.old pages.new)) }
    ensures told { P.told pages.new ≡ P.told pages.old }
    ensures size { P.size pages.new ≡ P.size pages.old }
    ensures counts { AreLater (P.counts pages.old) (P.counts pages.new) }
    ensures frame { P.frame pages.new ≡ P.frame pages.old }
    ensures goes_on { P.goes_on pages.old pages.new }
    ensures is_read { P.is_read pages.old pages.new }
{
    let size = pages.length();
    if size == 0 {
        return Err(WalkFault::Wrong(TreeWrong::Page {
            page: 0,
            part: PagePart::Magic,
        }));
    }
    let mut page = [0u8; PAGE];
    match pages.get(0, &mut page, steps) {
        Ok(()) => {}
        Err(fault) => return Err(WalkFault::Pages(fault)),
    }
    let header = match Header::of(&page) {
        Ok(header) => header,
        Err(fault) => {
            return Err(WalkFault::Wrong(TreeWrong::Page {
                page: 0,
                part: part_of(fault, kind),
            }));
        }
    };
    match check_header(header, kind, size) {
        Ok(()) => Ok(header),
        Err(wrong) => Err(WalkFault::Wrong(wrong)),
    }
}
