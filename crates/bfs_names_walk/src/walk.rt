// A whole tree of names with its rows.
ghost use Rattle.std.specs.Prelude.{◌≡◌, ℕ, List, Some, IfOk, IfErr, OnOk};
ghost use Rattle.bfs_base.specs.declared.kind.KeyKind.TheVariants.{Text};
ghost use Rattle.bfs_txn.specs.Faults.{AreLater};
ghost use Rattle.bfs_pages.specs.Answers.{IsHeaderFor};
ghost use Rattle.bfs_pages.specs.Trees.{header_in};
ghost use Rattle.bfs_values.specs.Reached.{IsWholeTree};
ghost use Rattle.bfs_walk.specs.Wrong.{IsWalkCause};
ghost use Rattle.bfs_tree_check.specs.Amiss.{IsAmiss};
ghost use Rattle.bfs_names_walk.specs.Rows.{AreNames};

use crate::NameRow;
use crate::leaves::take_leaves;
use crate::plain::are_plain;
use bfs_node::{Header, KeyKind};
use bfs_tree_check::{look_at_header, survey_below};
use bfs_txn::{Pages, Steps};
use bfs_value_walk::check_values;
use bfs_value_walk::tree_walk::check_met;
use bfs_walk::{WalkFault, walked_is_whole};
use std::alloc::Global;
use std::sync::ledger::Ledger;

/// Is a tree of names whole whose values aren't all plain numbers?
fn check_others<P: Pages, L: Ledger>(
    alloc: Global,
    pages: &mut P,
    steps: &mut Steps<L>,
) -> Result<(), WalkFault<P::Fault>>
    ensures whole { (b : List ℕ) → P.told pages.old ≡ Some b → OnOk result (IsWholeTree Text b) }
    ensures wrong { (b : List ℕ) → P.told pages.old ≡ Some b → IfErr result (IsAmiss Text b) }
    ensures cause { IfErr result (IsWalkCause (P.is_cause pages.old pages.new)) }
    ensures told { P.told pages.new ≡ P.told pages.old }
    ensures size { P.size pages.new ≡ P.size pages.old }
    ensures counts { AreLater (P.counts pages.old) (P.counts pages.new) }
    ensures frame { P.frame pages.new ≡ P.frame pages.old }
    ensures goes_on { P.goes_on pages.old pages.new }
    ensures is_read { P.is_read pages.old pages.new }
{
    match check_values(alloc, pages, KeyKind::Text, steps) {
        Ok(()) => Ok(()),
        Err(fault) => Err(fault),
    }
}

/// Reads all pages below a tree's header.
fn walk_below<P: Pages, L: Ledger>(
    alloc: Global,
    pages: &mut P,
    header: Header,
    steps: &mut Steps<L>,
) -> Result<Vec<NameRow>, WalkFault<P::Fault>>
    requires header { IsHeaderFor Text (P.size pages.old) header }
    ensures whole { (b : List ℕ) → P.told pages.old ≡ Some b → header ≡ header_in b → IfOk result (λ rows. AreNames b rows.items) }
    ensures wrong { (b : List ℕ) → P.told pages.old ≡ Some b → header ≡ header_in b → IfErr result (IsAmiss Text b) }
    ensures cause { IfErr result (IsWalkCause (P.is_cause pages.old pages.new)) }
    ensures told { P.told pages.new ≡ P.told pages.old }
    ensures size { P.size pages.new ≡ P.size pages.old }
    ensures counts { AreLater (P.counts pages.old) (P.counts pages.new) }
    ensures frame { P.frame pages.new ≡ P.frame pages.old }
    ensures goes_on { P.goes_on pages.old pages.new }
    ensures is_read { P.is_read pages.old pages.new }
{
    let size = pages.length();
    walked_is_whole();
    let below = match survey_below(alloc, pages, KeyKind::Text, header, steps) {
        Ok(below) => below,
        Err(fault) => return Err(fault),
    };
    let rows = match take_leaves(alloc, pages, &below.survey.leaves, steps) {
        Ok(rows) => rows,
        Err(fault) => return Err(fault),
    };
    let plain = are_plain(&rows);
    if !plain {
        match check_others(alloc, pages, steps) {
            Ok(()) => return Ok(rows),
            Err(fault) => return Err(fault),
        }
    }
    match check_met(&below.marks, size) {
        Ok(()) => Ok(rows),
        Err(wrong) => Err(WalkFault::Wrong(wrong)),
    }
}

/// Reads a whole tree of names. Where nothing is wrong with it, its rows in order. Where a value names a fragment or a chain the
/// tree is walked over again with all its values.
pub fn walk_rows<P: Pages, L: Ledger>(
    alloc: Global,
    pages: &mut P,
    steps: &mut Steps<L>,
) -> Result<Vec<NameRow>, WalkFault<P::Fault>>
    ensures whole { (b : List ℕ) → P.told pages.old ≡ Some b → IfOk result (λ rows. AreNames b rows.items) }
    ensures wrong { (b : List ℕ) → P.told pages.old ≡ Some b → IfErr result (IsAmiss Text b) }
    ensures cause { IfErr result (IsWalkCause (P.is_cause pages.old pages.new)) }
    ensures told { P.told pages.new ≡ P.told pages.old }
    ensures size { P.size pages.new ≡ P.size pages.old }
    ensures counts { AreLater (P.counts pages.old) (P.counts pages.new) }
    ensures frame { P.frame pages.new ≡ P.frame pages.old }
    ensures goes_on { P.goes_on pages.old pages.new }
    ensures is_read { P.is_read pages.old pages.new }
{
    let header = match look_at_header(pages, KeyKind::Text, steps) {
        Ok(header) => header,
        Err(fault) => return Err(fault),
    };
    walk_below(alloc, pages, header, steps)
}
