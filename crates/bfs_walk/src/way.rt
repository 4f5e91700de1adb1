// Walks over the pages of a tree, from left to right: what is due after a step implies what was due before it, so that a walk with
// nothing due has met good pages alone. It is the caller who sees that no page is met twice.
ghost use Rattle.std.specs.Prelude.{◌≡◌, ◌<◌, ◌+◌, ℕ, List, [], length, take, Some, true, false, OnOk, IfOk, IfErr};
ghost use Rattle.bfs_base.specs.Keys.{IsTreeKind};
ghost use Rattle.bfs_node.specs.Page.{IsPage, rows_of, overflow_of};
ghost use Rattle.bfs_txn.specs.Faults.{AreLater};
ghost use Rattle.bfs_pages.specs.Answers.{IsChild};
ghost use Rattle.bfs_pages.specs.Trees.{state_of};
ghost use Rattle.bfs_walk.specs.Due.{AreDue, AreChildren, ArePart, IsPart, HasGoneOn, child_in};
ghost use Rattle.bfs_walk.specs.Walked.{IsGoodBelow};
ghost use Rattle.bfs_walk.specs.Wrong.{IsWrong, IsWalkCause};

use crate::{WalkFault, look_at_interior, look_at_leaf};
use bfs_node::{KeyKind, PAGE, overflow_link, row_count, row_value};
use bfs_pages::place;
use bfs_txn::{Pages, Steps};
use std::sync::ledger::Ledger;

/// An interior page on the way: the number of the child that comes next, and how many pages are below each child.
#[derive(Clone, Copy, Debug)]
pub struct Frame {
    pub at: u64,
    pub next: usize,
    pub deep: u32,
}

/// The child with this number of an interior page.
fn child_of(page: &[u8], kind: KeyKind, i: usize) -> Option<u64>
    requires { IsPage kind page.now }
    ensures { result ≡ child_in (rows_of page.now) (overflow_of page.now) i }
{
    let count = row_count(page);
    if i < count {
        Some(place(row_value(page, i)))
    } else if i == count {
        Some(place(overflow_link(page)))
    } else {
        None
    }
}

/// Looks at a page of the tree: a leaf, or an interior page, whose children are then to be walked over.
pub fn enter<P: Pages, L: Ledger>(
    pages: &mut P,
    kind: KeyKind,
    at: u64,
    deep: u32,
    frames: &mut Vec<Frame>,
    steps: &mut Steps<L>,
) -> Result<(), WalkFault<P::Fault>>
    requires kind { IsTreeKind kind }
    requires at { IsChild (P.size pages.old) at }
    ensures due { (b : List ℕ) → P.told pages.old ≡ Some b → OnOk result (AreDue (state_of kind b).bodies frames.new.items → AreDue (state_of kind b).bodies frames.old.items × IsGoodBelow (state_of kind b).bodies deep at) }
    ensures kept { OnOk result (take (length frames.old.items) frames.new.items ≡ frames.old.items) }
    ensures children { AreChildren (P.size pages.old) frames.old.items → OnOk result (AreChildren (P.size pages.old) frames.new.items) }
    ensures part { (b : List ℕ) → IsPart kind b deep at → ArePart kind b frames.old.items → OnOk result (ArePart kind b frames.new.items) }
    ensures wrong { (b : List ℕ) → P.told pages.old ≡ Some b → IsPart kind b deep at → IfErr result (IsWrong kind b) }
    ensures cause { IfErr result (IsWalkCause (P.is_cause pages.old pages.new)) }
    ensures told { P.told pages.new ≡ P.told pages.old }
    ensures size { P.size pages.new ≡ P.size pages.old }
    ensures counts { AreLater (P.counts pages.old) (P.counts pages.new) }
    ensures frame { P.frame pages.new ≡ P.frame pages.old }
    ensures goes_on { P.goes_on pages.old pages.new }
    ensures is_read { P.is_read pages.old pages.new }
{
    let mut page = [0u8; PAGE];
    if deep == 0 {
        match look_at_leaf(pages, kind, at, &mut page, steps) {
            Ok(()) => return Ok(()),
            Err(fault) => return Err(fault),
        }
    }
    match look_at_interior(pages, kind, at, &mut page, steps) {
        Ok(()) => {}
        Err(fault) => return Err(fault),
    }
    let frame = Frame {
        at,
        next: 0,
        deep: deep - 1,
    };
    match frames.push(frame) {
        Ok(()) => Ok(()),
        Err(_) => Err(WalkFault::NoMemory),
    }
}

/// Goes to the next child of the last page on the way; true where there is no page on the way.
pub fn step<P: Pages, L: Ledger>(
    pages: &mut P,
    kind: KeyKind,
    frames: &mut Vec<Frame>,
    steps: &mut Steps<L>,
) -> Result<bool, WalkFault<P::Fault>>
    requires kind { IsTreeKind kind }
    requires children { AreChildren (P.size pages.old) frames.old.items }
    ensures end { IfOk result (λ end. end ≡ true → frames.old.items ≡ []) }
    ensures on { IfOk result (λ end. end ≡ false → HasGoneOn frames.old.items frames.new.items) }
    ensures due { (b : List ℕ) → P.told pages.old ≡ Some b → OnOk result (AreDue (state_of kind b).bodies frames.new.items → AreDue (state_of kind b).bodies frames.old.items) }
    ensures children { OnOk result (AreChildren (P.size pages.old) frames.new.items) }
    ensures part { (b : List ℕ) → P.told pages.old ≡ Some b → ArePart kind b frames.old.items → OnOk result (ArePart kind b frames.new.items) }
    ensures wrong { (b : List ℕ) → P.told pages.old ≡ Some b → ArePart kind b frames.old.items → IfErr result (IsWrong kind b) }
    ensures cause { IfErr result (IsWalkCause (P.is_cause pages.old pages.new)) }
    ensures told { P.told pages.new ≡ P.told pages.old }
    ensures size { P.size pages.new ≡ P.size pages.old }
    ensures frame { P.frame pages.new ≡ P.frame pages.old }
    ensures goes_on { P.goes_on pages.old pages.new }
    ensures is_read { P.is_read pages.old pages.new }
{
    let Some(frame) = frames.pop() else {
        return Ok(true);
    };
    let mut page = [0u8; PAGE];
    match look_at_interior(pages, kind, frame.at, &mut page, steps) {
        Ok(()) => {}
        Err(fault) => return Err(fault),
    }
    let Some(child) = child_of(&page, kind, frame.next) else {
        return Ok(false);
    };
    if frame.next == usize::MAX {
        return Err(WalkFault::NoMemory);
    }
    let rest = Frame {
        at: frame.at,
        next: frame.next + 1,
        deep: frame.deep,
    };
    match frames.push(rest) {
        Ok(()) => {}
        Err(_) => return Err(WalkFault::NoMemory),
    }
    match enter(pages, kind, child, frame.deep, frames, steps) {
        Ok(()) => Ok(false),
        Err(fault) => Err(fault),
    }
}
