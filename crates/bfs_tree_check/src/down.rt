// From one level of a tree to the next.
ghost use Rattle.std.specs.Prelude.{◌≡◌, ◌<◌, ◌/◌, ℕ, suc, negsuc, pos, List, [], ◌∷◌, length, drop, Some, OnOk, IfOk, IfErr};
ghost use Rattle.bfs_base.specs.Keys.{IsTreeKind};
ghost use Rattle.bfs_txn.specs.Faults.{AreLater};
ghost use Rattle.bfs_pages.specs.Answers.{IsChild};
ghost use Rattle.bfs_walk.specs.Wrong.{IsWrong, IsWalkCause};
ghost use Rattle.bfs_tree_check.specs.Levels.{IsInside, AreInside, IsHalf, IsLevel};
ghost use Rattle.bfs_tree_check.specs.Marked.{marked};
ghost use Rattle.bfs_tree_check.specs.declared.item.Item.TheVariants.{Page};

use crate::{Item, mark, open_page};
use bfs_node::{KeyKind, PAGE};
use bfs_txn::{Pages, Steps};
use bfs_walk::{TreeWrong, WalkFault, look_at_interior};
use std::alloc::Global;
use std::sync::ledger::Ledger;

/// A page is met twice.
pub fn met_twice(at: u64) -> TreeWrong
    requires { at < 9223372036854775808 }
    ensures { result ≡ TreeWrong.Link at (pos at) (negsuc 0) }
{
    TreeWrong::Link {
        page: at,
        found: at as i64,
        wanted: -1,
    }
}

/// Opens the interior page at a place, which comes next on its level.
fn open_at<P: Pages, L: Ledger>(
    pages: &mut P,
    kind: KeyKind,
    at: u64,
    marks: &mut [bool],
    items: &mut Vec<Item>,
    steps: &mut Steps<L>,
) -> Result<(), WalkFault<P::Fault>>
    requires kind { IsTreeKind kind }
    requires at { IsChild (P.size pages.old) at }
    requires small { P.size pages.old < 9223372036854775808 }
    requires length { length marks.old ≡ P.size pages.old / 1024 }
    ensures level { (b : List ℕ) (n : ℕ) (rest : List Item) → P.told pages.old ≡ Some b → IsHalf kind b n items.old.items (Page at ∷ rest) (marked (P.size pages.old) marks.old) → OnOk result (IsHalf kind b n items.new.items rest (marked (P.size pages.old) marks.new)) }
    ensures wrong { (b : List ℕ) (n : ℕ) (rest : List Item) → P.told pages.old ≡ Some b → IsHalf kind b n items.old.items (Page at ∷ rest) (marked (P.size pages.old) marks.old) → IfErr result (IsWrong kind b) }
    ensures inside { AreInside (P.size pages.old) items.old.items → OnOk result (AreInside (P.size pages.old) items.new.items) }
    ensures length { length marks.new ≡ length marks.old }
    ensures cause { IfErr result (IsWalkCause (P.is_cause pages.old pages.new)) }
    ensures told { P.told pages.new ≡ P.told pages.old }
    ensures size { P.size pages.new ≡ P.size pages.old }
    ensures counts { AreLater (P.counts pages.old) (P.counts pages.new) }
    ensures frame { P.frame pages.new ≡ P.frame pages.old }
    ensures goes_on { P.goes_on pages.old pages.new }
    ensures is_read { P.is_read pages.old pages.new }
{
    let size = pages.length();
    let mut page = [0u8; PAGE];
    match look_at_interior(pages, kind, at, &mut page, steps) {
        Ok(()) => {}
        Err(fault) => return Err(fault),
    }
    if !mark(marks, at, size) {
        return Err(WalkFault::Wrong(met_twice(at)));
    }
    match open_page(&page, kind, at, items) {
        Ok(()) => Ok(()),
        Err(_) => Err(WalkFault::NoMemory),
    }
}

/// Passes over one thing on a level: a page is opened, and a key stays between the pages.
fn pass<P: Pages, L: Ledger>(
    pages: &mut P,
    kind: KeyKind,
    item: Item,
    marks: &mut [bool],
    items: &mut Vec<Item>,
    steps: &mut Steps<L>,
) -> Result<(), WalkFault<P::Fault>>
    requires kind { IsTreeKind kind }
    requires item { IsInside (P.size pages.old) item }
    requires small { P.size pages.old < 9223372036854775808 }
    requires length { length marks.old ≡ P.size pages.old / 1024 }
    ensures level { (b : List ℕ) (n : ℕ) (rest : List Item) → P.told pages.old ≡ Some b → IsHalf kind b n items.old.items (item ∷ rest) (marked (P.size pages.old) marks.old) → OnOk result (IsHalf kind b n items.new.items rest (marked (P.size pages.old) marks.new)) }
    ensures wrong { (b : List ℕ) (n : ℕ) (rest : List Item) → P.told pages.old ≡ Some b → IsHalf kind b n items.old.items (item ∷ rest) (marked (P.size pages.old) marks.old) → IfErr result (IsWrong kind b) }
    ensures inside { AreInside (P.size pages.old) items.old.items → OnOk result (AreInside (P.size pages.old) items.new.items) }
    ensures length { length marks.new ≡ length marks.old }
    ensures cause { IfErr result (IsWalkCause (P.is_cause pages.old pages.new)) }
    ensures told { P.told pages.new ≡ P.told pages.old }
    ensures size { P.size pages.new ≡ P.size pages.old }
    ensures counts { AreLater (P.counts pages.old) (P.counts pages.new) }
    ensures frame { P.frame pages.new ≡ P.frame pages.old }
    ensures goes_on { P.goes_on pages.old pages.new }
    ensures is_read { P.is_read pages.old pages.new }
{
    match item {
        Item::Page { at } => open_at(pages, kind, at, marks, items, steps),
        Item::Key { page, index } => match items.push(Item::Key { page, index }) {
            Ok(()) => Ok(()),
            Err(_) => Err(WalkFault::NoMemory),
        },
    }
}

/// Opens all pages of a level, and answers the next one.
pub fn go_down<P: Pages, L: Ledger>(
    alloc: Global,
    pages: &mut P,
    kind: KeyKind,
    level: &[Item],
    marks: &mut [bool],
    steps: &mut Steps<L>,
) -> Result<Vec<Item>, WalkFault<P::Fault>>
    requires kind { IsTreeKind kind }
    requires inside { AreInside (P.size pages.old) level.now }
    requires small { P.size pages.old < 9223372036854775808 }
    requires length { length marks.old ≡ P.size pages.old / 1024 }
    ensures level { (b : List ℕ) (n : ℕ) → P.told pages.old ≡ Some b → IsLevel kind b (suc n) level.now (marked (P.size pages.old) marks.old) → IfOk result (λ next. IsLevel kind b n next.items (marked (P.size pages.old) marks.new)) }
    ensures wrong { (b : List ℕ) (n : ℕ) → P.told pages.old ≡ Some b → IsLevel kind b (suc n) level.now (marked (P.size pages.old) marks.old) → IfErr result (IsWrong kind b) }
    ensures inside { IfOk result (λ next. AreInside (P.size pages.old) next.items) }
    ensures length { length marks.new ≡ length marks.old }
    ensures cause { IfErr result (IsWalkCause (P.is_cause pages.old pages.new)) }
    ensures told { P.told pages.new ≡ P.told pages.old }
    ensures size { P.size pages.new ≡ P.size pages.old }
    ensures counts { AreLater (P.counts pages.old) (P.counts pages.new) }
    ensures frame { P.frame pages.new ≡ P.frame pages.old }
    ensures goes_on { P.goes_on pages.old pages.new }
    ensures is_read { P.is_read pages.old pages.new }
{
    let mut next = Vec::new(alloc);
    for item in level {
        match pass(pages, kind, *item, marks, &mut next, steps) {
            Ok(()) => {}
            Err(fault) => return Err(fault),
        }
    }
    Ok(next)
}
