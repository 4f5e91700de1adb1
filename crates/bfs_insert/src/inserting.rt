// Puts a row into a tree.
ghost use Rattle.std.specs.Prelude.{◌≡◌, ◌≤◌, ◌<◌, ◌+◌, ◌-◌, ℕ, ℤ, List, Some, None, length, OnOk, IfOk, IfErr, MatchResult};
ghost use Rattle.bfs_base.specs.Keys.{IsTreeKind, IsKey};
ghost use Rattle.bfs_node.specs.Search.{IsSought};
ghost use Rattle.bfs_pages.specs.Answers.{IsChild, IsRefused, IsSpared, IsBlamed};
ghost use Rattle.bfs_insert.specs.Puts.{IsNotPut, IsHindered};
ghost use Rattle.bfs_pages.specs.Maps.{assoc, put};
ghost use Rattle.bfs_pages.specs.Shapes.{Shape, tree_rows};
ghost use Rattle.bfs_pages.specs.Trees.{IsTree, HasRows, header_in};
ghost use Rattle.bfs_pages.specs.Writes.{Makes, Kept, SamePages};
ghost use Rattle.bfs_insert.specs.Puts.{IsWay, HasRisen};

use crate::descend::{is_roomy, step_down};
use crate::putting::{put_in_leaf, put_row};
use crate::top::reach_top;
use bfs_node::{KeyKind, PAGE, TreeFault};
use bfs_pages::{leaf_for, look_up};
use bfs_txn::{Pages, Steps};
use std::sync::ledger::Ledger;

/// Goes down the way of a key, splits the full pages on it, and tells where its leaf is.
fn reach_leaf<P: Pages, L: Ledger>(
    pages: &mut P,
    kind: KeyKind,
    key: &[u8],
    steps: &mut Steps<L>,
) -> Result<u64, TreeFault<P::Fault>>
    requires kind { IsTreeKind kind }
    requires key { IsSought kind key.now }
    ensures at { IfOk result (IsChild (P.size pages.new)) }
    ensures way { IfOk result (λ at. Makes (P.told pages.old) (P.told pages.new) (λ b c. IsWay kind b c key.now at 0)) }
    ensures refused { IfErr result (IsRefused kind (P.told pages.new) (P.is_cause pages.old pages.new)) }
    ensures blamed { IfErr result (IsBlamed (P.told pages.new) (P.size pages.new) (P.last pages.new)) }
    ensures spared { (b reached : List ℕ) (t : Shape) (fs : List ℕ) → P.told pages.old ≡ Some b → IsTree kind b reached t fs → IfErr result (IsSpared (P.told pages.new)) }
    ensures kept { Kept (P.counts pages.old) (P.counts pages.new) (P.frame pages.old) (P.frame pages.new) (P.goes_on pages.old pages.new) }
{
    let top = match reach_top(pages, kind, steps) {
        Ok(top) => top,
        Err(fault) => return Err(fault),
    };
    let mut at = top.root;
    let mut left = top.levels;
    while left > 1 {
        let to_leaf = left == 2;
        match step_down(pages, kind, key, at, to_leaf, steps) {
            Ok(next) => at = next,
            Err(fault) => return Err(fault),
        }
        left -= 1;
    }
    Ok(at)
}

/// Puts a row into a tree: a key of the tree's kind, and a plain number. Where the key is there already, the answer is
/// Exists, nothing changes and pages are only read. A leaf that has room for a row with any key gets the row at once. Else each full
/// page on the key's way is split before it is entered, so that a page above has room for the key between the halves. After
/// another failure the stream may be half changed.
pub fn insert<P: Pages, L: Ledger>(
    pages: &mut P,
    kind: KeyKind,
    key: &[u8],
    value: i64,
    steps: &mut Steps<L>,
) -> Result<(), TreeFault<P::Fault>>
    requires kind { IsTreeKind kind }
    requires key { IsKey kind key.now }
    ensures put { (b reached : List ℕ) (t : Shape) (fs : List ℕ) → P.told pages.old ≡ Some b → IsTree kind b reached t fs → MatchResult result (λ done. (c : List ℕ) × (P.told pages.new ≡ Some c) × HasRows kind c reached (put kind (tree_rows t) key.now value) × SamePages reached b c) (IsNotPut kind t key.now (P.told pages.new)) }
    ensures absent { (b reached : List ℕ) (t : Shape) (fs : List ℕ) → P.told pages.old ≡ Some b → IsTree kind b reached t fs → OnOk result (assoc kind (tree_rows t) key.now ≡ None) }
    ensures there { (b reached : List ℕ) (t : Shape) (fs : List ℕ) (v : ℤ) → P.told pages.old ≡ Some b → IsTree kind b reached t fs → assoc kind (tree_rows t) key.now ≡ Some v → P.is_read pages.old pages.new }
    ensures levels { OnOk result (Makes (P.told pages.old) (P.told pages.new) (λ b c. HasRisen b (header_in c).levels)) }
    ensures refused { IfErr result (IsHindered kind (P.told pages.old) (P.told pages.new) (P.is_cause pages.old pages.new)) }
    ensures blamed { IfErr result (IsBlamed (P.told pages.new) (P.size pages.new) (P.last pages.new)) }
    ensures kept { Kept (P.counts pages.old) (P.counts pages.new) (P.frame pages.old) (P.frame pages.new) (P.goes_on pages.old pages.new) }
{
    let mut page = [0u8; PAGE];
    let leaf = match leaf_for(pages, kind, key, &mut page, steps) {
        Ok(leaf) => leaf,
        Err(fault) => return Err(fault),
    };
    match look_up(&page, kind, key) {
        Some(_) => return Err(TreeFault::Exists),
        None => {}
    }
    if is_roomy(&page) {
        return match put_in_leaf(pages, kind, key, value, leaf, &mut page) {
            Ok(()) => Ok(()),
            Err(fault) => Err(fault),
        };
    }
    let at = match reach_leaf(pages, kind, key, steps) {
        Ok(at) => at,
        Err(fault) => return Err(fault),
    };
    match put_row(pages, kind, key, value, at, steps) {
        Ok(()) => Ok(()),
        Err(fault) => Err(fault),
    }
}
