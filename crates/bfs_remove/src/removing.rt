// Takes a row out of a tree.
ghost use Rattle.std.specs.Prelude.{◌≡◌, ◌≤◌, ◌<◌, ◌+◌, ◌*◌, ℕ, ℤ, List, [], ◌∷◌, Some, None, length, OnOk, IfOk, IfErr, IfSome, MatchResult, MatchOption, ◌⊎◌, ◌≢◌};
ghost use Rattle.bfs_base.specs.Keys.{IsTreeKind};
ghost use Rattle.bfs_node.specs.Page.{IsPage, HasLayout, rows_of, key_of, row_in};
ghost use Rattle.bfs_node.specs.Search.{IsSought};
ghost use Rattle.bfs_pages.specs.Answers.{IsChild, IsHeaderFor, IsLeafPage, IsUnread, IsOfPages, IsJustRead};
ghost use Rattle.bfs_pages.specs.Maps.{assoc, without};
ghost use Rattle.bfs_pages.specs.Shapes.{Shape, tree_rows};
ghost use Rattle.bfs_pages.specs.Trees.{page_in, header_in, IsTree, HasRows};
ghost use Rattle.bfs_pages.specs.Writes.{Kept, SamePages};
ghost use Rattle.bfs_remove.specs.Cuts.{IsFilled};
ghost use Rattle.bfs_remove.specs.Removed.{IsBranch, IsWayTo, IsNotTaken, IsWithheld, IsLow};

use crate::collapsing::collapse;
use crate::cut::cut_row;
use crate::drop::drop_leaf;
use crate::way::{Branch, Way, way_to};
use bfs_node::{Header, KeyKind, PAGE, TreeFault, row_count, row_value, search};
use bfs_pages::txn::{Pages, Steps};
use std::sync::ledger::Ledger;

/// The branch, where a leaf has one row.
fn lone_branch(page: &[u8], branch: Option<Branch>) -> Option<Branch>
    requires { HasLayout page.now }
    ensures { MatchOption result ((branch ≡ None) ⊎ (length (rows_of page.now) ≢ 1)) (λ found. (branch ≡ Some found) × (length (rows_of page.now) ≡ 1)) }
{
    if row_count(page) == 1 { branch } else { None }
}

/// Takes the row at a place of its leaf out of a tree: the leaf with it, where it has no other row and there is another
/// leaf. Tells the header since.
fn take_out<P: Pages, L: Ledger>(
    pages: &mut P,
    kind: KeyKind,
    key: &[u8],
    way: Way,
    page: &mut [u8],
    i: usize,
    steps: &mut Steps<L>,
) -> Result<Header, TreeFault<P::Fault>>
    requires kind { IsTreeKind kind }
    requires key { IsSought kind key.now }
    requires header { IsHeaderFor kind (P.size pages.old) way.header }
    requires leaf { IsChild (P.size pages.old) way.leaf }
    requires branch { IfSome way.branch (IsBranch (P.size pages.old) way.header.levels) }
    requires page { IsPage kind page.old }
    requires leaf_page { IsLeafPage kind (P.size pages.old) page.old }
    requires row { i < length (rows_of page.old) }
    ensures header { IfOk result (λ h. IsHeaderFor kind (P.size pages.new) h) }
    ensures levels { IfOk result (λ h. h.levels ≡ way.header.levels) }
    ensures taken { (b reached : List ℕ) (t : Shape) (fs : List ℕ) → P.told pages.old ≡ Some b → IsTree kind b reached t fs → IsWayTo kind b t key.now page.old way → key_of (row_in (rows_of page.old) i) ≡ key.now
        → MatchResult result (λ h. (c : List ℕ) × (P.told pages.new ≡ Some c) × (h ≡ header_in c) × HasRows kind c reached (without kind (tree_rows t) key.now) × SamePages reached b c) IsOfPages }
    ensures filled { (b reached : List ℕ) (t : Shape) (fs : List ℕ) → P.told pages.old ≡ Some b → IsTree kind b reached t fs → IsWayTo kind b t key.now page.old way → key_of (row_in (rows_of page.old) i) ≡ key.now → IsFilled t
        → IfOk result (λ h. (c : List ℕ) × (t2 : Shape) × (fs2 : List ℕ) × (P.told pages.new ≡ Some c) × (h ≡ header_in c) × IsTree kind c reached t2 fs2 × IsFilled t2) }
    ensures size { OnOk result (P.size pages.new ≡ P.size pages.old) }
    ensures refused { IfErr result (IsUnread kind (P.told pages.new) (P.is_cause pages.old pages.new)) }
    ensures just_read { IfErr result (IsJustRead (P.size pages.new) (P.last pages.new)) }
    ensures steps { steps.new ≤ steps.old + way.header.levels + 1 }
    ensures kept { Kept (P.counts pages.old) (P.counts pages.new) (P.frame pages.old) (P.frame pages.new) (P.goes_on pages.old pages.new) }
{
    match lone_branch(page, way.branch) {
        Some(branch) => match drop_leaf(pages, kind, key, way.header, branch, page, steps) {
            Ok(since) => Ok(since),
            Err(fault) => Err(fault),
        },
        None => match cut_row(pages, way.leaf, page, i) {
            Ok(()) => Ok(way.header),
            Err(fault) => Err(fault),
        },
    }
}

/// Takes the row of a key out of a tree, and answers its value. Where the key isn't there, the answer is Absent and
/// nothing changes. A leaf that empties goes to the free list, unless it is the only one, and so do interior pages that are
/// left without a child, and a root with one child. No page is appended, and no memory is taken. After another failure the
/// stream may be half changed.
pub fn remove<P: Pages, L: Ledger>(
    pages: &mut P,
    kind: KeyKind,
    key: &[u8],
    steps: &mut Steps<L>,
) -> Result<i64, TreeFault<P::Fault>>
    requires kind { IsTreeKind kind }
    requires key { IsSought kind key.now }
    ensures removed { (b reached : List ℕ) (t : Shape) (fs : List ℕ) → P.told pages.old ≡ Some b → IsTree kind b reached t fs → MatchResult result (λ value. (c : List ℕ) × (P.told pages.new ≡ Some c) × HasRows kind c reached (without kind (tree_rows t) key.now) × SamePages reached b c × IsLow c) (IsNotTaken kind t key.now) }
    ensures value { (b reached : List ℕ) (t : Shape) (fs : List ℕ) → P.told pages.old ≡ Some b → IsTree kind b reached t fs → IfOk result (λ value. assoc kind (tree_rows t) key.now ≡ Some value) }
    ensures filled { (b reached : List ℕ) (t : Shape) (fs : List ℕ) → P.told pages.old ≡ Some b → IsTree kind b reached t fs → IsFilled t → OnOk result ((c : List ℕ) × (t2 : Shape) × (fs2 : List ℕ) × (P.told pages.new ≡ Some c) × IsTree kind c reached t2 fs2 × IsFilled t2) }
    ensures size { OnOk result (P.size pages.new ≡ P.size pages.old) }
    ensures refused { IfErr result (IsWithheld kind (P.told pages.old) (P.told pages.new) (P.is_cause pages.old pages.new)) }
    ensures just_read { IfErr result (IsJustRead (P.size pages.new) (P.last pages.new)) }
    ensures steps { (b : List ℕ) → P.told pages.old ≡ Some b → steps.new ≤ steps.old + 3 * (header_in b).levels + 1 }
    ensures kept { Kept (P.counts pages.old) (P.counts pages.new) (P.frame pages.old) (P.frame pages.new) (P.goes_on pages.old pages.new) }
{
    let mut page = [0u8; PAGE];
    let way = match way_to(pages, kind, key, &mut page, steps) {
        Ok(way) => way,
        Err(fault) => return Err(fault),
    };
    let i = match search(&page, kind, key) {
        Ok(i) => i,
        Err(_) => return Err(TreeFault::Absent),
    };
    let value = row_value(&page, i);
    let header = match take_out(pages, kind, key, way, &mut page, i, steps) {
        Ok(header) => header,
        Err(fault) => return Err(fault),
    };
    match collapse(pages, kind, header, steps) {
        Ok(()) => Ok(value),
        Err(fault) => Err(fault),
    }
}
