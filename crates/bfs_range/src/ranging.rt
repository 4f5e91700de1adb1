// The rows of a tree in a range of keys.
ghost use Rattle.std.specs.Prelude.{◌≡◌, ◌≤◌, ◌+◌, ℕ, List, Option, Some, IfOk, IfErr, IfSome, MatchResult, length};
ghost use Rattle.std.specs.Option.{option_copied};
ghost use Rattle.bfs_base.specs.Keys.{IsTreeKind};
ghost use Rattle.bfs_node.specs.Search.{IsSought};
ghost use Rattle.bfs_txn.specs.Faults.{AreLater};
ghost use Rattle.bfs_pages.specs.Answers.{IsJustRead};
ghost use Rattle.bfs_pages.specs.Shapes.{Shape, tree_rows};
ghost use Rattle.bfs_pages.specs.Trees.{header_in, IsTree, state_of};
ghost use Rattle.bfs_range.specs.Answers.{answer_of, AreAnswers};
ghost use Rattle.bfs_values.specs.Kinds.{IsCut, IsLacking, Stays};
ghost use Rattle.bfs_range.specs.Leaves.{leaf_list, first_leaf, right_of, leaves_upto};
ghost use Rattle.bfs_values.specs.Reached.{AllMean};
ghost use Rattle.bfs_range.specs.Meant.{pages_of};
ghost use Rattle.bfs_range.specs.Ranges.{rows_between};

use crate::ends::low_or_least;
use crate::rows::take_leaf;
use crate::{Ranged, RangedRow};
use bfs_node::{KeyKind, PAGE, PageKind, TreeFault, right_link};
use bfs_pages::{leaf_for, place, read_leaf};
use bfs_txn::{Pages, Steps};
use std::alloc::Global;
use std::sync::ledger::Ledger;

/// The rows of a tree whose keys aren't below the first key of `ends`, nor above the second.
pub fn range_from<P: Pages, L: Ledger>(
    alloc: Global,
    pages: &mut P,
    kind: KeyKind,
    ends: (&[u8], Option<&[u8]>),
    steps: &mut Steps<L>,
) -> Result<Vec<RangedRow>, TreeFault<P::Fault>>
    requires kind { IsTreeKind kind }
    requires low { IsSought kind ends.0.now }
    requires high { IfSome ends.1 (λ k. IsSought kind k.now) }
    ensures ranged { (b reached : List ℕ) (t : Shape) (fs : List ℕ) → P.told pages.old ≡ Some b → IsTree kind b reached t fs → AllMean b (rows_between kind (Some ends.entry.0.now) (option_copied ends.entry.1) (tree_rows t)) → MatchResult result (λ found. found.items ≡ answer_of b (rows_between kind (Some ends.entry.0.now) (option_copied ends.entry.1) (tree_rows t))) IsLacking }
    ensures steps { (b reached : List ℕ) (t : Shape) (fs : List ℕ) → P.told pages.old ≡ Some b → IsTree kind b reached t fs → AllMean b (rows_between kind (Some ends.entry.0.now) (option_copied ends.entry.1) (tree_rows t)) → steps.new ≤ steps.old + (header_in b).levels + 1 + leaves_upto kind (option_copied ends.entry.1) (right_of (first_leaf kind (state_of kind b).levels t (Some ends.entry.0.now)) (leaf_list t)) + pages_of b (rows_between kind (Some ends.entry.0.now) (option_copied ends.entry.1) (tree_rows t)) }
    ensures refused { IfErr result (IsCut kind (P.told pages.new) (P.is_cause pages.old pages.new)) }
    ensures sure { (b : List ℕ) → P.told pages.old ≡ Some b → IfOk result (λ rows. AreAnswers kind b rows.items) }
    ensures just_read { IfErr result (IsJustRead (P.size pages.new) (P.last pages.new)) }
    ensures stays { Stays (P.told pages.old) (P.told pages.new) (P.size pages.old) (P.size pages.new) (P.counts pages.old) (P.counts pages.new) (P.frame pages.old) (P.frame pages.new) (P.goes_on pages.old pages.new) (P.is_read pages.old pages.new) }
{
    let mut page = [0u8; PAGE];
    let mut rows = Vec::new(alloc);
    let mut at = match leaf_for(pages, kind, ends.0, &mut page, steps) {
        Ok(at) => at,
        Err(fault) => return Err(fault),
    };
    let mut left = pages.length() / 1024;
    while left > 0 {
        match take_leaf(alloc, pages, kind, ends, at, &page, &mut rows, steps) {
            Ok(true) => return Ok(rows),
            Ok(false) => {}
            Err(fault) => return Err(fault),
        }
        let next = place(right_link(&page));
        if next == 0 {
            return Ok(rows);
        }
        match read_leaf(pages, kind, next, &mut page, steps) {
            Ok(()) => {}
            Err(fault) => return Err(fault),
        }
        at = next;
        left -= 1;
    }
    Err(TreeFault::Damaged {
        page: at,
        kind: PageKind::Leaf,
    })
}

/// The rows of a tree from one key to another, both inclusive, by key; where an end is None, from the first row or to the
/// last. Reads the pages down to the first leaf, and further leaves up to the first that has a key above the upper end.
pub fn range<P: Pages, L: Ledger>(
    alloc: Global,
    pages: &mut P,
    kind: KeyKind,
    low: Option<&[u8]>,
    high: Option<&[u8]>,
    steps: &mut Steps<L>,
) -> Result<Ranged, TreeFault<P::Fault>>
    requires kind { IsTreeKind kind }
    requires low { IfSome low (λ k. IsSought kind k.now) }
    requires high { IfSome high (λ k. IsSought kind k.now) }
    ensures ranged { (b reached : List ℕ) (t : Shape) (fs : List ℕ) → P.told pages.old ≡ Some b → IsTree kind b reached t fs → AllMean b (rows_between kind (option_copied low.entry) (option_copied high.entry) (tree_rows t)) → MatchResult result (λ found. found ≡ answer_of b (rows_between kind (option_copied low.entry) (option_copied high.entry) (tree_rows t))) IsLacking }
    ensures steps { (b reached : List ℕ) (t : Shape) (fs : List ℕ) → P.told pages.old ≡ Some b → IsTree kind b reached t fs → AllMean b (rows_between kind (option_copied low.entry) (option_copied high.entry) (tree_rows t)) → steps.new ≤ steps.old + (header_in b).levels + 1 + leaves_upto kind (option_copied high.entry) (right_of (first_leaf kind (state_of kind b).levels t (option_copied low.entry)) (leaf_list t)) + pages_of b (rows_between kind (option_copied low.entry) (option_copied high.entry) (tree_rows t)) }
    ensures refused { IfErr result (IsCut kind (P.told pages.new) (P.is_cause pages.old pages.new)) }
    ensures sure { (b : List ℕ) → P.told pages.old ≡ Some b → IfOk result (λ rows. AreAnswers kind b rows) }
    ensures just_read { IfErr result (IsJustRead (P.size pages.new) (P.last pages.new)) }
    ensures told { P.told pages.new ≡ P.told pages.old }
    ensures size { P.size pages.new ≡ P.size pages.old }
    ensures counts { AreLater (P.counts pages.old) (P.counts pages.new) }
    ensures frame { P.frame pages.new ≡ P.frame pages.old }
    ensures goes_on { P.goes_on pages.old pages.new }
    ensures is_read { P.is_read pages.old pages.new }
{
    let from = low_or_least(kind, low);
    match range_from(alloc, pages, kind, (from, high), steps) {
        Ok(rows) => Ok(Ranged::new(rows)),
        Err(fault) => Err(fault),
    }
}
