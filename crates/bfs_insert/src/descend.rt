// Goes down the way of a key, where each full page is split before it is entered.
ghost use Rattle.std.specs.Prelude.{◌≡◌, ◌≤◌, ◌<◌, ◌+◌, ◌↔◌, ℕ, suc, List, Some, false, length, OnOk, IfOk, IfErr, IfSome, IsTrue};
ghost use Rattle.bfs_base.specs.Keys.{IsTreeKind};
ghost use Rattle.bfs_node.specs.Page.{IsPage, HasLayout};
ghost use Rattle.bfs_node.specs.Search.{IsSought};
ghost use Rattle.bfs_pages.specs.Answers.{IsChild, IsRefused, IsSpared, IsBlamed};
ghost use Rattle.bfs_insert.specs.Divided.{IsRoomy, IsFullPage};
ghost use Rattle.bfs_pages.specs.Shapes.{Shape, place as shape_place};
ghost use Rattle.bfs_pages.specs.Trees.{IsTree, page_in, state_of};
ghost use Rattle.bfs_pages.specs.Ways.{under};
ghost use Rattle.bfs_pages.specs.Writes.{Makes, Kept};
ghost use Rattle.bfs_insert.specs.Puts.{IsStep, IsDown};

use crate::grow::{split_interior, split_leaf};
use bfs_node::{KeyKind, PAGE, TreeFault, free_bytes};
use bfs_pages::{child_for, read_interior, read_leaf};
use bfs_txn::{Pages, Steps};
use std::sync::ledger::Ledger;

/// Whether a page has room for a row with any key, or for a key between two children.
pub fn is_roomy(page: &[u8]) -> bool
    requires { HasLayout page.now }
    ensures roomy { IsTrue result ↔ IsRoomy page.now }
    ensures full { result ≡ false → IsFullPage page.now }
{
    free_bytes(page) >= 272
}

/// Goes down to a leaf, which is split where it is full. On the way down a tree the page above always has room for one
/// more key; where it has none, the answer is NoMemory.
fn enter_leaf<P: Pages, L: Ledger>(
    pages: &mut P,
    kind: KeyKind,
    key: &[u8],
    at: (u64, u64),
    above: &mut [u8],
    steps: &mut Steps<L>,
) -> Result<u64, TreeFault<P::Fault>>
    requires kind { IsTreeKind kind }
    requires key { IsSought kind key.now }
    requires at { IsChild (P.size pages.old) at.0 }
    requires child { IsChild (P.size pages.old) at.1 }
    requires above { IsPage kind above.old }
    requires told_above { IfSome (P.told pages.old) (λ b. above.old ≡ page_in b at.0) }
    ensures next { IfOk result (IsChild (P.size pages.new)) }
    ensures step { IfOk result (λ next. Makes (P.told pages.old) (P.told pages.new) (λ b c. IsStep kind b c at.0 at.1 key.now next)) }
    ensures refused { IfErr result (IsRefused kind (P.told pages.new) (P.is_cause pages.old pages.new)) }
    ensures blamed { IfErr result (IsBlamed (P.told pages.new) (P.size pages.new) (P.last pages.new)) }
    ensures spared { (b reached : List ℕ) (t : Shape) (fs : List ℕ) (d : ℕ) → P.told pages.old ≡ Some b → IsTree kind b reached t fs → d ≡ (state_of kind b).levels → shape_place (under kind d t key.now) ≡ at.1 → IsRoomy above.old → IfErr result (IsSpared (P.told pages.new)) }
    ensures kept { Kept (P.counts pages.old) (P.counts pages.new) (P.frame pages.old) (P.frame pages.new) (P.goes_on pages.old pages.new) }
{
    let mut below = [0u8; PAGE];
    match read_leaf(pages, kind, at.1, &mut below, steps) {
        Ok(()) => {}
        Err(fault) => return Err(fault),
    }
    if is_roomy(&below) {
        return Ok(at.1);
    }
    if !is_roomy(above) {
        return Err(TreeFault::NoMemory);
    }
    match split_leaf(pages, kind, key, at, above, &mut below, steps) {
        Ok(next) => Ok(next),
        Err(fault) => Err(fault),
    }
}

/// Goes down to an interior page, which is split where it is full, as for a leaf.
fn enter_interior<P: Pages, L: Ledger>(
    pages: &mut P,
    kind: KeyKind,
    key: &[u8],
    at: (u64, u64),
    above: &mut [u8],
    steps: &mut Steps<L>,
) -> Result<u64, TreeFault<P::Fault>>
    requires kind { IsTreeKind kind }
    requires key { IsSought kind key.now }
    requires at { IsChild (P.size pages.old) at.0 }
    requires child { IsChild (P.size pages.old) at.1 }
    requires above { IsPage kind above.old }
    requires told_above { IfSome (P.told pages.old) (λ b. above.old ≡ page_in b at.0) }
    ensures next { IfOk result (IsChild (P.size pages.new)) }
    ensures step { IfOk result (λ next. Makes (P.told pages.old) (P.told pages.new) (λ b c. IsStep kind b c at.0 at.1 key.now next)) }
    ensures refused { IfErr result (IsRefused kind (P.told pages.new) (P.is_cause pages.old pages.new)) }
    ensures blamed { IfErr result (IsBlamed (P.told pages.new) (P.size pages.new) (P.last pages.new)) }
    ensures spared { (b reached : List ℕ) (t : Shape) (fs : List ℕ) (d : ℕ) → P.told pages.old ≡ Some b → IsTree kind b reached t fs → suc d ≤ (state_of kind b).levels → shape_place (under kind d t key.now) ≡ at.1 → IsRoomy above.old → IfErr result (IsSpared (P.told pages.new)) }
    ensures kept { Kept (P.counts pages.old) (P.counts pages.new) (P.frame pages.old) (P.frame pages.new) (P.goes_on pages.old pages.new) }
{
    let mut below = [0u8; PAGE];
    match read_interior(pages, kind, at.1, &mut below, steps) {
        Ok(()) => {}
        Err(fault) => return Err(fault),
    }
    if is_roomy(&below) {
        return Ok(at.1);
    }
    if !is_roomy(above) {
        return Err(TreeFault::NoMemory);
    }
    match split_interior(pages, kind, key, at, above, &mut below, steps) {
        Ok(next) => Ok(next),
        Err(fault) => Err(fault),
    }
}

/// Goes a step down the way of a key from an interior page, to a leaf or to another interior page.
pub fn step_down<P: Pages, L: Ledger>(
    pages: &mut P,
    kind: KeyKind,
    key: &[u8],
    at: u64,
    to_leaf: bool,
    steps: &mut Steps<L>,
) -> Result<u64, TreeFault<P::Fault>>
    requires kind { IsTreeKind kind }
    requires key { IsSought kind key.now }
    requires at { IsChild (P.size pages.old) at }
    ensures next { IfOk result (IsChild (P.size pages.new)) }
    ensures step { IfOk result (λ next. Makes (P.told pages.old) (P.told pages.new) (λ b c. IsDown kind b c at key.now next)) }
    ensures refused { IfErr result (IsRefused kind (P.told pages.new) (P.is_cause pages.old pages.new)) }
    ensures blamed { IfErr result (IsBlamed (P.told pages.new) (P.size pages.new) (P.last pages.new)) }
    ensures spared { (b reached : List ℕ) (t : Shape) (fs : List ℕ) (d : ℕ) → P.told pages.old ≡ Some b → IsTree kind b reached t fs → suc d ≤ (state_of kind b).levels → (IsTrue to_leaf ↔ suc d ≡ (state_of kind b).levels) → shape_place (under kind d t key.now) ≡ at → IsRoomy (page_in b at) → IfErr result (IsSpared (P.told pages.new)) }
    ensures kept { Kept (P.counts pages.old) (P.counts pages.new) (P.frame pages.old) (P.frame pages.new) (P.goes_on pages.old pages.new) }
{
    let mut above = [0u8; PAGE];
    match read_interior(pages, kind, at, &mut above, steps) {
        Ok(()) => {}
        Err(fault) => return Err(fault),
    }
    let child = child_for(&above, kind, key);
    if to_leaf {
        match enter_leaf(pages, kind, key, (at, child), &mut above, steps) {
            Ok(next) => Ok(next),
            Err(fault) => Err(fault),
        }
    } else {
        match enter_interior(pages, kind, key, (at, child), &mut above, steps) {
            Ok(next) => Ok(next),
            Err(fault) => Err(fault),
        }
    }
}
