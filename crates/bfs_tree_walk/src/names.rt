// A whole tree of names.
ghost use Rattle.std.specs.Prelude.{◌≡◌, ◌<◌, ℕ, List, Some, IfOk, IfErr, IfSome};
ghost use Rattle.bfs_base.specs.declared.kind.KeyKind.TheVariants.{Text};
ghost use Rattle.bfs_txn.specs.Faults.{AreLater};
ghost use Rattle.bfs_pages.specs.Answers.{IsHeaderFor};
ghost use Rattle.bfs_pages.specs.Trees.{header_in};
ghost use Rattle.bfs_walk.specs.Wrong.{IsWrong, IsWalkCause};
ghost use Rattle.bfs_tree_check.specs.Amiss.{IsAmiss};
ghost use Rattle.bfs_tree_walk.specs.Plain.{IsNames};

use crate::{OtherRow, check_met, check_values};
use bfs_node::{Header, KeyKind};
use bfs_tree_check::{look_at_header, survey_below};
use bfs_txn::{Pages, Steps};
use bfs_walk::{WalkFault, walked_is_whole};
use std::alloc::Global;
use std::sync::ledger::Ledger;

/// Reads all pages below a tree's header.
fn walk_below<P: Pages, L: Ledger>(
    alloc: Global,
    pages: &mut P,
    header: Header,
    steps: &mut Steps<L>,
) -> Result<Option<OtherRow>, WalkFault<P::Fault>>
    requires header { IsHeaderFor Text (P.size pages.old) header }
    ensures whole { (b : List ℕ) → P.told pages.old ≡ Some b → header ≡ header_in b → IfOk result (IsNames b) }
    ensures wrong { (b : List ℕ) → P.told pages.old ≡ Some b → header ≡ header_in b → IfErr result (IsWrong Text b) }
    ensures cause { IfErr result (IsWalkCause (P.is_cause pages.old pages.new)) }
    ensures told { P.told pages.new ≡ P.told pages.old }
    ensures size { P.size pages.new ≡ P.size pages.old }
    ensures counts { AreLater (P.counts pages.old) (P.counts pages.new) }
    ensures frame { P.frame pages.new ≡ P.frame pages.old }
    ensures goes_on { P.goes_on pages.old pages.new }
    ensures is_read { P.is_read pages.old pages.new }
{
    let size = pages.length();
    walked_is_whole();
    let below = match survey_below(alloc, pages, KeyKind::Text, header, steps) {
        Ok(below) => below,
        Err(fault) => return Err(fault),
    };
    let found = match check_values(pages, KeyKind::Text, &below.survey.leaves, steps) {
        Ok(found) => found,
        Err(fault) => return Err(fault),
    };
    match found {
        None => {}
        Some(other) => return Ok(Some(other)),
    }
    match check_met(&below.marks, size) {
        Ok(()) => Ok(None),
        Err(wrong) => Err(WalkFault::Wrong(wrong)),
    }
}

/// Reads a whole tree of names. Where nothing is wrong with it, the first row whose value isn't a plain number but names a fragment or a
/// chain; none where the tree is whole and all its values are plain numbers.
pub fn walk_names<P: Pages, L: Ledger>(
    alloc: Global,
    pages: &mut P,
    steps: &mut Steps<L>,
) -> Result<Option<OtherRow>, WalkFault<P::Fault>>
    ensures whole { (b : List ℕ) → P.told pages.old ≡ Some b → IfOk result (IsNames b) }
    ensures wrong { (b : List ℕ) → P.told pages.old ≡ Some b → IfErr result (IsAmiss Text b) }
    ensures cause { IfErr result (IsWalkCause (P.is_cause pages.old pages.new)) }
    ensures told { P.told pages.new ≡ P.told pages.old }
    ensures size { P.size pages.new ≡ P.size pages.old }
    ensures counts { AreLater (P.counts pages.old) (P.counts pages.new) }
    ensures frame { P.frame pages.new ≡ P.frame pages.old }
    ensures goes_on { P.goes_on pages.old pages.new }
    ensures is_read { P.is_read pages.old pages.new }
{
    let header = match look_at_header(pages, KeyKind::Text, steps) {
        Ok(header) => header,
        Err(fault) => return Err(fault),
    };
    walk_below(alloc, pages, header, steps)
}
