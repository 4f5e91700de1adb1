// Takes a leaf with one row out of a tree.
ghost use Rattle.std.specs.Prelude.{◌≡◌, ◌≤◌, ◌<◌, ◌+◌, ℕ, ℤ, List, [], ◌∷◌, Some, length, OnOk, IfOk, IfErr, IfSome, MatchResult};
ghost use Rattle.bfs_base.specs.Keys.{IsTreeKind};
ghost use Rattle.bfs_node.specs.Page.{IsPage, rows_of};
ghost use Rattle.bfs_node.specs.Search.{IsSought};
ghost use Rattle.bfs_pages.specs.Answers.{IsChild, IsHeaderFor, IsInteriorPage, IsLeafPage, IsUnread, IsOfPages, IsJustRead};
ghost use Rattle.bfs_pages.specs.Maps.{without};
ghost use Rattle.bfs_pages.specs.Shapes.{Shape, tree_rows};
ghost use Rattle.bfs_pages.specs.Trees.{page_in, header_in, IsTree, HasRows};
ghost use Rattle.bfs_pages.specs.Writes.{Makes, Kept, SamePages};
ghost use Rattle.bfs_remove.specs.Cuts.{IsFilled};
ghost use Rattle.bfs_remove.specs.Removed.{IsBranch, IsWayTo, IsDropped};

use crate::cut::drop_link;
use crate::give::release;
use crate::mend::{mend_left, mend_right};
use crate::way::Branch;
use bfs_node::{Header, KeyKind, PAGE, TreeFault, left_link, right_link};
use bfs_pages::txn::{Pages, Steps};
use bfs_pages::{place, place_for, read_interior, write_page};
use std::sync::ledger::Ledger;

/// Takes the child that a key leads to out of the interior page at this byte of the stream.
pub fn drop_child<P: Pages, L: Ledger>(
    pages: &mut P,
    kind: KeyKind,
    key: &[u8],
    at: u64,
    steps: &mut Steps<L>,
) -> Result<(), TreeFault<P::Fault>>
    requires kind { IsTreeKind kind }
    requires key { IsSought kind key.now }
    requires at { IsChild (P.size pages.old) at }
    ensures made { OnOk result (Makes (P.told pages.old) (P.told pages.new) (λ b c. IsDropped kind b c at key.now)) }
    ensures size { OnOk result (P.size pages.new ≡ P.size pages.old) }
    ensures refused { IfErr result (IsUnread kind (P.told pages.new) (P.is_cause pages.old pages.new)) }
    ensures just_read { IfErr result (IsJustRead (P.size pages.new) (P.last pages.new)) }
    ensures spared { (b : List ℕ) → P.told pages.old ≡ Some b → IsInteriorPage kind (length b) (page_in b at) → IfErr result IsOfPages }
    ensures steps { steps.new ≤ steps.old + 1 }
    ensures kept { Kept (P.counts pages.old) (P.counts pages.new) (P.frame pages.old) (P.frame pages.new) (P.goes_on pages.old pages.new) }
{
    let mut page = [0u8; PAGE];
    match read_interior(pages, kind, at, &mut page, steps) {
        Ok(()) => {}
        Err(fault) => return Err(fault),
    }
    let i = place_for(&page, kind, key);
    drop_link(&mut page, i);
    match write_page(pages, at, &page) {
        Ok(()) => Ok(()),
        Err(fault) => Err(fault),
    }
}

/// Takes the leaf with the only row of a key out of a tree, with the line of pages from the branch down to it, and gives
/// these pages back. Tells the header since.
pub fn drop_leaf<P: Pages, L: Ledger>(
    pages: &mut P,
    kind: KeyKind,
    key: &[u8],
    header: Header,
    branch: Branch,
    leaf: &[u8],
    steps: &mut Steps<L>,
) -> Result<Header, TreeFault<P::Fault>>
    requires kind { IsTreeKind kind }
    requires key { IsSought kind key.now }
    requires header { IsHeaderFor kind (P.size pages.old) header }
    requires branch { IsBranch (P.size pages.old) header.levels branch }
    requires leaf { IsLeafPage kind (P.size pages.old) leaf.now }
    requires length { length leaf.now ≡ 1024 }
    ensures header { IfOk result (λ h. IsHeaderFor kind (P.size pages.new) h) }
    ensures levels { IfOk result (λ h. h.levels ≡ header.levels) }
    ensures dropped { (b reached : List ℕ) (t : Shape) (fs : List ℕ) (at : ℕ) (v : ℤ) → P.told pages.old ≡ Some b → IsTree kind b reached t fs → IsWayTo kind b t key.now leaf.now (record { header = header; leaf = at; branch = Some branch }) → rows_of leaf.now ≡ (key.now, v) ∷ []
        → MatchResult result (λ h. (c : List ℕ) × (P.told pages.new ≡ Some c) × (h ≡ header_in c) × HasRows kind c reached (without kind (tree_rows t) key.now) × SamePages reached b c) IsOfPages }
    ensures filled { (b reached : List ℕ) (t : Shape) (fs : List ℕ) (at : ℕ) (v : ℤ) → P.told pages.old ≡ Some b → IsTree kind b reached t fs → IsWayTo kind b t key.now leaf.now (record { header = header; leaf = at; branch = Some branch }) → rows_of leaf.now ≡ (key.now, v) ∷ [] → IsFilled t
        → IfOk result (λ h. (c : List ℕ) × (t2 : Shape) × (fs2 : List ℕ) × (P.told pages.new ≡ Some c) × (h ≡ header_in c) × IsTree kind c reached t2 fs2 × IsFilled t2) }
    ensures size { OnOk result (P.size pages.new ≡ P.size pages.old) }
    ensures refused { IfErr result (IsUnread kind (P.told pages.new) (P.is_cause pages.old pages.new)) }
    ensures just_read { IfErr result (IsJustRead (P.size pages.new) (P.last pages.new)) }
    ensures steps { steps.new ≤ steps.old + branch.below + 3 }
    ensures kept { Kept (P.counts pages.old) (P.counts pages.new) (P.frame pages.old) (P.frame pages.new) (P.goes_on pages.old pages.new) }
{
    let left = left_link(leaf);
    let right = right_link(leaf);
    match drop_child(pages, kind, key, branch.page, steps) {
        Ok(()) => {}
        Err(fault) => return Err(fault),
    }
    match mend_right(pages, kind, place(left), right, steps) {
        Ok(()) => {}
        Err(fault) => return Err(fault),
    }
    match mend_left(pages, kind, place(right), left, steps) {
        Ok(()) => {}
        Err(fault) => return Err(fault),
    }
    match release(pages, kind, header, branch.child, branch.below, steps) {
        Ok(since) => Ok(since),
        Err(fault) => Err(fault),
    }
}
