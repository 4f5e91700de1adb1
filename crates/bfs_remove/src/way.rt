// Goes down the way of a key, and remembers the last page on it that has a key.
ghost use Rattle.std.specs.Prelude.{◌≡◌, ◌≤◌, ◌<◌, ◌+◌, ℕ, List, Some, length, OnOk, IfOk, IfErr, IfSome, MatchResult};
ghost use Rattle.bfs_base.specs.Keys.{IsTreeKind};
ghost use Rattle.bfs_node.specs.Page.{IsPage, HasLayout, rows_of};
ghost use Rattle.bfs_node.specs.Search.{IsSought};
ghost use Rattle.bfs_pages.specs.Answers.{IsChild, IsHeaderFor, IsLeafPage, IsUnread, IsOfPages, IsJustRead};
ghost use Rattle.bfs_pages.specs.Shapes.{Shape};
ghost use Rattle.bfs_pages.specs.Trees.{header_in, page_in, IsTree};
ghost use Rattle.bfs_pages.specs.Writes.{Kept};
ghost use Rattle.bfs_remove.specs.Removed.{IsBranch, IsWayTo};

use bfs_node::{Header, KeyKind, TreeFault, row_count};
use bfs_pages::txn::{Pages, Steps};
use bfs_pages::{child_for, place, read_header, read_interior, read_leaf};
use std::sync::ledger::Ledger;

/// An interior page with a key, its child on the way of a key, and how many interior pages there are from that child on.
#[derive(Clone, Copy, Debug, PartialEq, Eq)]
pub struct Branch {
    pub page: u64,
    pub child: u64,
    pub below: u32,
}

/// The tree's header, the leaf on the way of a key, and the last page on that way that has a key.
#[derive(Clone, Copy, Debug, PartialEq, Eq)]
pub struct Way {
    pub header: Header,
    pub leaf: u64,
    pub branch: Option<Branch>,
}

/// This branch, where the page has a key, else the one before.
fn last_branch(page: &[u8], this: Branch, before: Option<Branch>) -> Option<Branch>
    requires page { HasLayout page.now }
    ensures marked { 1 ≤ length (rows_of page.now) → result ≡ Some this }
    ensures kept { length (rows_of page.now) ≡ 0 → result ≡ before }
{
    if row_count(page) > 0 {
        Some(this)
    } else {
        before
    }
}

/// Reads the leaf on the way of a key, and tells where it is and where the way has a key last.
pub fn way_to<P: Pages, L: Ledger>(
    pages: &mut P,
    kind: KeyKind,
    key: &[u8],
    page: &mut [u8],
    steps: &mut Steps<L>,
) -> Result<Way, TreeFault<P::Fault>>
    requires kind { IsTreeKind kind }
    requires key { IsSought kind key.now }
    requires page { length page.old ≡ 1024 }
    ensures page { OnOk result (IsPage kind page.new) }
    ensures leaf_page { OnOk result (IsLeafPage kind (P.size pages.old) page.new) }
    ensures length { length page.new ≡ 1024 }
    ensures header { IfOk result (λ w. IsHeaderFor kind (P.size pages.old) w.header) }
    ensures leaf { IfOk result (λ w. IsChild (P.size pages.old) w.leaf) }
    ensures branch { IfOk result (λ w. IfSome w.branch (IsBranch (P.size pages.old) w.header.levels)) }
    ensures told_header { IfOk result (λ w. IfSome (P.told pages.old) (λ b. w.header ≡ header_in b)) }
    ensures told_page { IfOk result (λ w. IfSome (P.told pages.old) (λ b. page.new ≡ page_in b w.leaf)) }
    ensures way { (b reached : List ℕ) (t : Shape) (fs : List ℕ) → P.told pages.old ≡ Some b → IsTree kind b reached t fs → MatchResult result (IsWayTo kind b t key.now page.new) IsOfPages }
    ensures refused { IfErr result (IsUnread kind (P.told pages.new) (P.is_cause pages.old pages.new)) }
    ensures just_read { IfErr result (IsJustRead (P.size pages.new) (P.last pages.new)) }
    ensures steps { (b : List ℕ) → P.told pages.old ≡ Some b → steps.new ≤ steps.old + (header_in b).levels + 1 }
    ensures told { P.told pages.new ≡ P.told pages.old }
    ensures size { P.size pages.new ≡ P.size pages.old }
    ensures kept { Kept (P.counts pages.old) (P.counts pages.new) (P.frame pages.old) (P.frame pages.new) (P.goes_on pages.old pages.new) }
{
    let header = match read_header(pages, kind, steps) {
        Ok(header) => header,
        Err(fault) => return Err(fault),
    };
    let mut at = place(header.root_pointer);
    let mut left = header.levels;
    let mut branch = None;
    while left > 1 {
        match read_interior(pages, kind, at, page, steps) {
            Ok(()) => {}
            Err(fault) => return Err(fault),
        }
        let child = child_for(page, kind, key);
        let this = Branch {
            page: at,
            child,
            below: left - 2,
        };
        branch = last_branch(page, this, branch);
        at = child;
        left -= 1;
    }
    match read_leaf(pages, kind, at, page, steps) {
        Ok(()) => Ok(Way {
            header,
            leaf: at,
            branch,
        }),
        Err(fault) => Err(fault),
    }
}
