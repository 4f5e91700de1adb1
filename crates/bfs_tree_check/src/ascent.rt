// The order of all rows and keys of a tree, from left to right.
ghost use Rattle.std.specs.Prelude.{◌≡◌, ◌++◌, ℕ, List, ◌∷◌, [], Some, OnOk, IfErr};
ghost use Rattle.std.specs.List.{AllByRecursion, flat_map};
ghost use Rattle.bfs_base.specs.Keys.{IsTreeKind};
ghost use Rattle.bfs_txn.specs.Faults.{AreLater};
ghost use Rattle.bfs_pages.specs.Answers.{IsChild};
ghost use Rattle.bfs_pages.specs.Shapes.{AscendAll};
ghost use Rattle.bfs_pages.specs.Trees.{state_of};
ghost use Rattle.bfs_finding.specs.Walks.{Met, entries_met};
ghost use Rattle.bfs_walk.specs.Walked.{entries_alone};
ghost use Rattle.bfs_walk.specs.Wrong.{IsWrong, IsWalkCause};
ghost use Rattle.bfs_tree_check.specs.Levels.{IsInside, AreInside, met_in};
ghost use Rattle.bfs_tree_check.specs.Ordered.{IsLastKey, IsUpTo, IsKnown};
ghost use Rattle.bfs_tree_check.specs.declared.item.Item.TheVariants as item;

use crate::{Item, go_on, order_rows};
use bfs_node::{KeyKind, PAGE, row_count, row_key};
use bfs_txn::{Pages, Steps};
use bfs_walk::{TreeWrong, WalkFault, look_at_interior, look_at_leaf};
use std::alloc::Global;
use std::sync::ledger::Ledger;

/// Goes on over the rows of the leaf at a place.
fn order_leaf<P: Pages, L: Ledger>(
    pages: &mut P,
    kind: KeyKind,
    at: u64,
    last: &mut Vec<u8>,
    steps: &mut Steps<L>,
) -> Result<(), WalkFault<P::Fault>>
    requires kind { IsTreeKind kind }
    requires at { IsChild (P.size pages.old) at }
    requires last { IsLastKey kind last.old.items }
    ensures up { (b : List ℕ) (front back : List Met) → P.told pages.old ≡ Some b → IsKnown kind b (item.Page at) → entries_met kind b ≡ front ++ (met_in (state_of kind b).bodies 0 (item.Page at) ++ back) → IsUpTo kind front last.old.items → OnOk result (IsUpTo kind (front ++ met_in (state_of kind b).bodies 0 (item.Page at)) last.new.items) }
    ensures wrong { (b : List ℕ) (front back : List Met) → P.told pages.old ≡ Some b → IsKnown kind b (item.Page at) → entries_met kind b ≡ front ++ (met_in (state_of kind b).bodies 0 (item.Page at) ++ back) → IsUpTo kind front last.old.items → IfErr result (IsWrong kind b) }
    ensures last { OnOk result (IsLastKey kind last.new.items) }
    ensures cause { IfErr result (IsWalkCause (P.is_cause pages.old pages.new)) }
    ensures told { P.told pages.new ≡ P.told pages.old }
    ensures size { P.size pages.new ≡ P.size pages.old }
    ensures counts { AreLater (P.counts pages.old) (P.counts pages.new) }
    ensures frame { P.frame pages.new ≡ P.frame pages.old }
    ensures goes_on { P.goes_on pages.old pages.new }
    ensures is_read { P.is_read pages.old pages.new }
{
    let mut page = [0u8; PAGE];
    match look_at_leaf(pages, kind, at, &mut page, steps) {
        Ok(()) => {}
        Err(fault) => return Err(fault),
    }
    let found = match order_rows(&page, kind, last) {
        Ok(found) => found,
        Err(_) => return Err(WalkFault::NoMemory),
    };
    match found {
        None => Ok(()),
        Some(index) => Err(WalkFault::Wrong(TreeWrong::Order {
            page: at,
            index: index as u64,
        })),
    }
}

/// Goes on over the key at a place of an interior page.
fn order_key<P: Pages, L: Ledger>(
    pages: &mut P,
    kind: KeyKind,
    at: u64,
    index: usize,
    last: &mut Vec<u8>,
    steps: &mut Steps<L>,
) -> Result<(), WalkFault<P::Fault>>
    requires kind { IsTreeKind kind }
    requires at { IsChild (P.size pages.old) at }
    requires last { IsLastKey kind last.old.items }
    ensures up { (b : List ℕ) (front back : List Met) → P.told pages.old ≡ Some b → IsKnown kind b (item.Key at index) → entries_met kind b ≡ front ++ (met_in (state_of kind b).bodies 0 (item.Key at index) ++ back) → IsUpTo kind front last.old.items → OnOk result (IsUpTo kind (front ++ met_in (state_of kind b).bodies 0 (item.Key at index)) last.new.items) }
    ensures wrong { (b : List ℕ) (front back : List Met) → P.told pages.old ≡ Some b → IsKnown kind b (item.Key at index) → entries_met kind b ≡ front ++ (met_in (state_of kind b).bodies 0 (item.Key at index) ++ back) → IsUpTo kind front last.old.items → IfErr result (IsWrong kind b) }
    ensures last { OnOk result (IsLastKey kind last.new.items) }
    ensures cause { IfErr result (IsWalkCause (P.is_cause pages.old pages.new)) }
    ensures told { P.told pages.new ≡ P.told pages.old }
    ensures size { P.size pages.new ≡ P.size pages.old }
    ensures counts { AreLater (P.counts pages.old) (P.counts pages.new) }
    ensures frame { P.frame pages.new ≡ P.frame pages.old }
    ensures goes_on { P.goes_on pages.old pages.new }
    ensures is_read { P.is_read pages.old pages.new }
{
    let mut page = [0u8; PAGE];
    match look_at_interior(pages, kind, at, &mut page, steps) {
        Ok(()) => {}
        Err(fault) => return Err(fault),
    }
    let count = row_count(&page);
    if index >= count {
        // over pages that tell what they hold it is there
        return Err(WalkFault::NoMemory);
    }
    let on = match go_on(kind, last, row_key(&page, index), false) {
        Ok(on) => on,
        Err(_) => return Err(WalkFault::NoMemory),
    };
    if on {
        Ok(())
    } else {
        Err(WalkFault::Wrong(TreeWrong::Order {
            page: at,
            index: index as u64,
        }))
    }
}

/// Goes on over one thing on the lowest level.
fn order_item<P: Pages, L: Ledger>(
    pages: &mut P,
    kind: KeyKind,
    item: Item,
    last: &mut Vec<u8>,
    steps: &mut Steps<L>,
) -> Result<(), WalkFault<P::Fault>>
    requires kind { IsTreeKind kind }
    requires item { IsInside (P.size pages.old) item }
    requires last { IsLastKey kind last.old.items }
    ensures up { (b : List ℕ) (front back : List Met) → P.told pages.old ≡ Some b → IsKnown kind b item → entries_met kind b ≡ front ++ (met_in (state_of kind b).bodies 0 item ++ back) → IsUpTo kind front last.old.items → OnOk result (IsUpTo kind (front ++ met_in (state_of kind b).bodies 0 item) last.new.items) }
    ensures wrong { (b : List ℕ) (front back : List Met) → P.told pages.old ≡ Some b → IsKnown kind b item → entries_met kind b ≡ front ++ (met_in (state_of kind b).bodies 0 item ++ back) → IsUpTo kind front last.old.items → IfErr result (IsWrong kind b) }
    ensures last { OnOk result (IsLastKey kind last.new.items) }
    ensures cause { IfErr result (IsWalkCause (P.is_cause pages.old pages.new)) }
    ensures told { P.told pages.new ≡ P.told pages.old }
    ensures size { P.size pages.new ≡ P.size pages.old }
    ensures counts { AreLater (P.counts pages.old) (P.counts pages.new) }
    ensures frame { P.frame pages.new ≡ P.frame pages.old }
    ensures goes_on { P.goes_on pages.old pages.new }
    ensures is_read { P.is_read pages.old pages.new }
{
    match item {
        Item::Page { at } => order_leaf(pages, kind, at, last, steps),
        Item::Key { page, index } => order_key(pages, kind, page, index, last, steps),
    }
}

/// Do the rows and keys of a tree with this lowest level ascend?
pub fn check_order<P: Pages, L: Ledger>(
    alloc: Global,
    pages: &mut P,
    kind: KeyKind,
    level: &[Item],
    steps: &mut Steps<L>,
) -> Result<(), WalkFault<P::Fault>>
    requires kind { IsTreeKind kind }
    requires inside { AreInside (P.size pages.old) level.now }
    ensures ascends { (b : List ℕ) → P.told pages.old ≡ Some b → entries_met kind b ≡ flat_map (met_in (state_of kind b).bodies 0) level.now → AllByRecursion (IsKnown kind b) level.now → OnOk result (AscendAll kind (entries_alone (entries_met kind b))) }
    ensures wrong { (b : List ℕ) → P.told pages.old ≡ Some b → entries_met kind b ≡ flat_map (met_in (state_of kind b).bodies 0) level.now → AllByRecursion (IsKnown kind b) level.now → IfErr result (IsWrong kind b) }
    ensures cause { IfErr result (IsWalkCause (P.is_cause pages.old pages.new)) }
    ensures told { P.told pages.new ≡ P.told pages.old }
    ensures size { P.size pages.new ≡ P.size pages.old }
    ensures counts { AreLater (P.counts pages.old) (P.counts pages.new) }
    ensures frame { P.frame pages.new ≡ P.frame pages.old }
    ensures goes_on { P.goes_on pages.old pages.new }
    ensures is_read { P.is_read pages.old pages.new }
{
    let mut last = Vec::new(alloc);
    for item in level {
        match order_item(pages, kind, *item, &mut last, steps) {
            Ok(()) => {}
            Err(fault) => return Err(fault),
        }
    }
    Ok(())
}
