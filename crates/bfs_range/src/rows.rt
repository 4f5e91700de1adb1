// The rows of a leaf that lie in a range.
ghost use Rattle.std.specs.Prelude.{◌≡◌, ◌≤◌, ◌+◌, ◌<◌, ◌-◌, [], ◌∷◌, ◌++◌, ℕ, List, Some, OnOk, IfErr, IfOk, IfSome, MatchResult, IsTrue, length, take, drop};
ghost use Rattle.std.specs.Option.{option_copied};
ghost use Rattle.bfs_base.specs.Keys.{IsTreeKind};
ghost use Rattle.bfs_node.specs.Page.{IsPage, HasLayout, rows_of, row_in, value_of};
ghost use Rattle.bfs_node.specs.Search.{IsSought};
ghost use Rattle.bfs_pages.specs.Answers.{IsJustRead};
ghost use Rattle.bfs_pages.specs.Ways.{KeysAscend};
ghost use Rattle.bfs_range.specs.declared.ranged.RangedRow.{RangedRow};
ghost use Rattle.bfs_range.specs.Answers.{answer_row, answer_of, IsRead, IsAnswerOf, AreAnswers};
ghost use Rattle.bfs_values.specs.Kinds.{IsNamed, IsCut, IsLacking, Stays};
ghost use Rattle.bfs_values.specs.Links.{link_in};
ghost use Rattle.bfs_values.specs.Values.{HasValues, pages_for};
ghost use Rattle.bfs_values.specs.Reached.{AllMean};
ghost use Rattle.bfs_range.specs.Meant.{AreNamed, pages_of};
ghost use Rattle.bfs_range.specs.Ranges.{rows_between, has_above};

use crate::ends::end_for;
use crate::{KeyBytes, RangedRow};
use bfs_node::{KeyKind, PageKind, TreeFault, row_count, row_key, row_value};
use bfs_pages::place_for;
use bfs_txn::{Pages, Steps};
use bfs_values::{is_named, numbers_of};
use std::alloc::Global;
use std::sync::ledger::Ledger;

/// Adds the row of a leaf at a place to an answer.
fn take_row<P: Pages, L: Ledger>(
    alloc: Global,
    pages: &mut P,
    kind: KeyKind,
    leaf: u64,
    page: &[u8],
    i: usize,
    rows: &mut Vec<RangedRow>,
    steps: &mut Steps<L>,
) -> Result<(), TreeFault<P::Fault>>
    requires page { HasLayout page.now }
    requires inside { i < length (rows_of page.now) }
    ensures rows { (b : List ℕ) → P.told pages.old ≡ Some b → HasValues b (value_of (row_in (rows_of page.now) i)) → MatchResult result (λ _. rows.new.items ≡ rows.old.items ++ answer_row b (row_in (rows_of page.now) i) ∷ []) IsLacking }
    ensures steps { (b : List ℕ) → P.told pages.old ≡ Some b → HasValues b (value_of (row_in (rows_of page.now) i)) → steps.new ≤ steps.old + pages_for b (value_of (row_in (rows_of page.now) i)) }
    ensures refused { IfSome (P.told pages.old) (λ b. IsRead kind b leaf page.now) → IfErr result (IsCut kind (P.told pages.new) (P.is_cause pages.old pages.new)) }
    ensures sure { (b : List ℕ) → P.told pages.old ≡ Some b → IsRead kind b leaf page.now → OnOk result ((x : RangedRow) × (rows.new.items ≡ rows.old.items ++ x ∷ []) × IsAnswerOf kind b x) }
    ensures just_read { IsNamed (P.size pages.old) (link_in (value_of (row_in (rows_of page.now) i))) → IfErr result (IsJustRead (P.size pages.new) (P.last pages.new)) }
    ensures stays { Stays (P.told pages.old) (P.told pages.new) (P.size pages.old) (P.size pages.new) (P.counts pages.old) (P.counts pages.new) (P.frame pages.old) (P.frame pages.new) (P.goes_on pages.old pages.new) (P.is_read pages.old pages.new) }
{
    let numbers = match numbers_of(alloc, pages, kind, leaf, row_value(page, i), steps) {
        Ok(numbers) => numbers,
        Err(fault) => return Err(fault),
    };
    let key = match KeyBytes::from_slice(alloc, row_key(page, i)) {
        Ok(key) => key,
        Err(_) => return Err(TreeFault::NoMemory),
    };
    match rows.push(RangedRow { key, numbers }) {
        Ok(()) => {}
        Err(_) => return Err(TreeFault::NoMemory),
    }
    Ok(())
}

/// Adds the rows of a leaf between two places to an answer.
pub fn take_rows<P: Pages, L: Ledger>(
    alloc: Global,
    pages: &mut P,
    kind: KeyKind,
    leaf: u64,
    page: &[u8],
    places: (usize, usize),
    rows: &mut Vec<RangedRow>,
    steps: &mut Steps<L>,
) -> Result<(), TreeFault<P::Fault>>
    requires page { HasLayout page.now }
    requires inside { places.1 ≤ length (rows_of page.now) }
    ensures rows { (b : List ℕ) → P.told pages.old ≡ Some b → AllMean b (take (places.1 - places.0) (drop places.0 (rows_of page.now))) → MatchResult result (λ _. rows.new.items ≡ rows.old.items ++ answer_of b (take (places.1 - places.0) (drop places.0 (rows_of page.now)))) IsLacking }
    ensures steps { (b : List ℕ) → P.told pages.old ≡ Some b → AllMean b (take (places.1 - places.0) (drop places.0 (rows_of page.now))) → steps.new ≤ steps.old + pages_of b (take (places.1 - places.0) (drop places.0 (rows_of page.now))) }
    ensures refused { IfSome (P.told pages.old) (λ b. IsRead kind b leaf page.now) → IfErr result (IsCut kind (P.told pages.new) (P.is_cause pages.old pages.new)) }
    ensures sure { (b : List ℕ) → P.told pages.old ≡ Some b → IsRead kind b leaf page.now → AreAnswers kind b rows.old.items → OnOk result (AreAnswers kind b rows.new.items) }
    ensures just_read { AreNamed (P.size pages.old) (rows_of page.now) places.0 places.1 → IfErr result (IsJustRead (P.size pages.new) (P.last pages.new)) }
    ensures stays { Stays (P.told pages.old) (P.told pages.new) (P.size pages.old) (P.size pages.new) (P.counts pages.old) (P.counts pages.new) (P.frame pages.old) (P.frame pages.new) (P.goes_on pages.old pages.new) (P.is_read pages.old pages.new) }
{
    for i in places.0..places.1 {
        match take_row(alloc, pages, kind, leaf, page, i, rows, steps) {
            Ok(()) => {}
            Err(fault) => return Err(fault),
        }
    }
    Ok(())
}

/// Whether the values of the rows between two places are plain numbers or lead to pages of a stream with so many bytes.
fn lead_on(page: &[u8], places: (usize, usize), size: u64) -> bool
    requires page { HasLayout page.now }
    requires inside { places.1 ≤ length (rows_of page.now) }
    ensures found { IsTrue result → AreNamed size (rows_of page.now) places.0 places.1 }
    ensures refused { AreNamed size (rows_of page.now) places.0 places.1 → IsTrue result }
{
    for at in places.0..places.1 {
        if !is_named(row_value(page, at), size) {
            return false;
        }
    }
    true
}

/// Adds the rows of a leaf that lie in a range to an answer, and tells whether the leaf has a key above the upper end.
pub fn take_leaf<P: Pages, L: Ledger>(
    alloc: Global,
    pages: &mut P,
    kind: KeyKind,
    ends: (&[u8], Option<&[u8]>),
    leaf: u64,
    page: &[u8],
    rows: &mut Vec<RangedRow>,
    steps: &mut Steps<L>,
) -> Result<bool, TreeFault<P::Fault>>
    requires page { IsPage kind page.now }
    requires low { IsSought kind ends.0.now }
    requires high { IfSome ends.1 (λ k. IsSought kind k.now) }
    ensures above { KeysAscend kind (rows_of page.now) → IfOk result (λ done. done ≡ has_above kind (option_copied ends.entry.1) (rows_of page.now)) }
    ensures rows { (b : List ℕ) → P.told pages.old ≡ Some b → KeysAscend kind (rows_of page.now) → AllMean b (rows_between kind (Some ends.entry.0.now) (option_copied ends.entry.1) (rows_of page.now)) → MatchResult result (λ _. rows.new.items ≡ rows.old.items ++ answer_of b (rows_between kind (Some ends.entry.0.now) (option_copied ends.entry.1) (rows_of page.now))) IsLacking }
    ensures steps { (b : List ℕ) → P.told pages.old ≡ Some b → KeysAscend kind (rows_of page.now) → AllMean b (rows_between kind (Some ends.entry.0.now) (option_copied ends.entry.1) (rows_of page.now)) → steps.new ≤ steps.old + pages_of b (rows_between kind (Some ends.entry.0.now) (option_copied ends.entry.1) (rows_of page.now)) }
    ensures refused { IfSome (P.told pages.old) (λ b. IsRead kind b leaf page.now) → IfErr result (IsCut kind (P.told pages.new) (P.is_cause pages.old pages.new)) }
    ensures sure { (b : List ℕ) → P.told pages.old ≡ Some b → IsRead kind b leaf page.now → AreAnswers kind b rows.old.items → OnOk result (AreAnswers kind b rows.new.items) }
    ensures just_read { P.last pages.old ≡ leaf → IfErr result (IsJustRead (P.size pages.new) (P.last pages.new)) }
    ensures stays { Stays (P.told pages.old) (P.told pages.new) (P.size pages.old) (P.size pages.new) (P.counts pages.old) (P.counts pages.new) (P.frame pages.old) (P.frame pages.new) (P.goes_on pages.old pages.new) (P.is_read pages.old pages.new) }
{
    let from = place_for(page, kind, ends.0);
    let to = end_for(page, kind, ends.1);
    if !lead_on(page, (from, to), pages.length()) {
        return Err(TreeFault::Damaged {
            page: leaf,
            kind: PageKind::Leaf,
        });
    }
    match take_rows(alloc, pages, kind, leaf, page, (from, to), rows, steps) {
        Ok(()) => Ok(to < row_count(page)),
        Err(fault) => Err(fault),
    }
}
