// One page of a tree.
ghost use Rattle.std.specs.Prelude.{◌≡◌, ◌≢◌, ◌↔◌, ℕ, negsuc, List, length, OnOk, IfErr, IsTrue, true};
ghost use Rattle.bfs_base.specs.Lists.{Has};
ghost use Rattle.bfs_base.specs.Keys.{IsTreeKind};
ghost use Rattle.bfs_node.specs.Faults.{IsPageRefusal};
ghost use Rattle.bfs_node.specs.Page.{IsPage, overflow_of};
ghost use Rattle.bfs_pages.specs.Answers.{IsChild, IsInteriorPage};
ghost use Rattle.bfs_pages.specs.Trees.{page_in, place_of, is_page};
ghost use Rattle.bfs_finding.specs.Walks.{inners_in};
ghost use Rattle.bfs_finding.specs.TreeFaults.{IsBodyFault, wanted_link};
ghost use Rattle.bfs_walk.specs.Wrong.{IsWrongTree, pages_at};

use crate::TreeWrong;
use bfs_finding::PagePart;
use bfs_node::{KeyKind, PageFault, check, overflow_link, row_count, row_value};
use bfs_pages::{is_child, place};

/// Which part of a page is wrong, by why it is refused.
fn part_of(fault: PageFault) -> PagePart
    ensures { (kind : KeyKind) (b : List ℕ) (at : ℕ) → IsPageRefusal kind (page_in b at) fault → IsBodyFault kind b at result }
{
    match fault {
        PageFault::Magic { .. } => PagePart::Magic,
        PageFault::Size { .. } => PagePart::Size,
        PageFault::Kind { .. } => PagePart::Kind,
        PageFault::Bounds { .. } => PagePart::Bounds,
        PageFault::Ends { .. } => PagePart::Ends,
    }
}

/// Can the rows of the page at a place be read, and is it, where that is wanted, a leaf, and else an interior page?
pub fn check_page(page: &[u8], kind: KeyKind, at: u64, leaf: bool) -> Result<(), TreeWrong>
    requires size { length page.now ≡ 1024 }
    requires kind { IsTreeKind kind }
    ensures page { OnOk result (IsPage kind page.now) }
    ensures good { OnOk result (is_page kind page.now ≡ true) }
    ensures leaf { OnOk result (IsTrue leaf ↔ (overflow_of page.now ≡ negsuc 0)) }
    ensures wrong { (b : List ℕ) → page.now ≡ page_in b at → IsChild (length b) at → Has (pages_at kind b leaf) at → IfErr result (IsWrongTree kind b) }
{
    match check(page, kind) {
        Ok(()) => {}
        Err(fault) => {
            return Err(TreeWrong::Page {
                page: at,
                part: part_of(fault),
            });
        }
    }
    let found = overflow_link(page);
    if leaf && found != -1 {
        return Err(TreeWrong::Link {
            page: at,
            found,
            wanted: -1,
        });
    }
    if !leaf && found == -1 {
        return Err(TreeWrong::Link {
            page: at,
            found,
            wanted: 1024,
        });
    }
    Ok(())
}

/// The link that is wanted where one leads to no page: none, or, where that was found, the first page.
fn wanted_for(link: i64) -> i64
    ensures { result ≡ wanted_link link }
{
    if link == -1 { 1024 } else { -1 }
}

/// Does a link of the page at a place lead to a page of a stream with so many bytes?
fn check_link(at: u64, link: i64, size: u64) -> Result<(), TreeWrong>
    ensures sound { OnOk result (IsChild size (place_of link)) }
    ensures wrong { IfErr result (λ wrong. (wrong ≡ TreeWrong.Link at link (wanted_link link)) × ¬ IsChild size (place_of link)) }
{
    if is_child(place(link), size) {
        Ok(())
    } else {
        Err(TreeWrong::Link {
            page: at,
            found: link,
            wanted: wanted_for(link),
        })
    }
}

/// Do the links of an interior page at a place lead to pages of a stream with so many bytes?
pub fn check_children(page: &[u8], kind: KeyKind, at: u64, size: u64) -> Result<(), TreeWrong>
    requires page { IsPage kind page.now }
    requires good { is_page kind page.now ≡ true }
    requires interior { overflow_of page.now ≢ negsuc 0 }
    ensures sound { OnOk result (IsInteriorPage kind size page.now) }
    ensures wrong { (b : List ℕ) → page.now ≡ page_in b at → size ≡ length b → Has (inners_in kind b) at → IfErr result (IsWrongTree kind b) }
{
    for i in 0..row_count(page) {
        match check_link(at, row_value(page, i), size) {
            Ok(()) => {}
            Err(wrong) => return Err(wrong),
        }
    }
    check_link(at, overflow_link(page), size)
}
