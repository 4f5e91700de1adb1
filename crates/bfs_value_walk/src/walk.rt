// A whole tree with the numbers of its values.
ghost use Rattle.std.specs.Prelude.{◌≡◌, ◌<◌, ◌/◌, ℕ, List, [], ◌∷◌, length, Some, OnOk, IfOk, IfErr, IfSome};
ghost use Rattle.std.specs.List.{AllByRecursion};
ghost use Rattle.bfs_base.specs.Keys.{IsTreeKind};
ghost use Rattle.bfs_base.specs.Lists.{times};
ghost use Rattle.bfs_txn.specs.Faults.{AreLater};
ghost use Rattle.bfs_pages.specs.Answers.{IsChild, IsHeaderFor};
ghost use Rattle.bfs_pages.specs.Trees.{header_in};
ghost use Rattle.bfs_values.specs.Reached.{AreWritten, IsWholeTree};
ghost use Rattle.bfs_values.specs.Rows.{rows_in};
ghost use Rattle.bfs_finding.specs.Walks.{leaves_in};
ghost use Rattle.bfs_walk.specs.Wrong.{IsWrong, IsWalkCause};
ghost use Rattle.bfs_tree_check.specs.Amiss.{IsAmiss};
ghost use Rattle.bfs_tree_check.specs.Marked.{marked};
ghost use Rattle.bfs_value_walk.specs.Met.{shape_times};
ghost use Rattle.bfs_value_walk.specs.Taken.{AreTaken, IsReached, IsWholeTaken, IsWholeWith};
ghost use Rattle.bfs_value_walk.specs.Written.{pairs_by};

use crate::RowSink;
use crate::leaves::take_leaves;
use crate::naming::new_names;
use crate::parts::check_parts;
use crate::sink::{KeptRows, NoRows};
use bfs_node::{Header, KeyKind};
use bfs_pages::place;
use bfs_range::Ranged;
use bfs_tree_check::{check_tree, look_at_header, new_marks};
use bfs_tree_walk::check_met;
use bfs_txn::{Pages, Steps};
use bfs_walk::{WalkFault, walked_is_whole};
use std::alloc::Global;
use std::sync::ledger::Ledger;

/// Takes the rows of a tree whose pages are marked, and marks what their values reach. No fragment is named yet.
fn take_marked<P: Pages, L: Ledger, T: RowSink>(
    alloc: Global,
    pages: &mut P,
    kind: KeyKind,
    leaves: &[u64],
    marks: &mut [bool],
    names: &mut [u16],
    taken: &mut T,
    steps: &mut Steps<L>,
) -> Result<(), WalkFault<P::Fault>>
    requires kind { IsTreeKind kind }
    requires inside { AllByRecursion (IsChild (P.size pages.old)) leaves.now }
    requires small { P.size pages.old < 9223372036854775808 }
    requires length { length marks.old ≡ P.size pages.old / 1024 }
    requires names { length names.old ≡ P.size pages.old / 1024 }
    ensures reached { (b : List ℕ) → P.told pages.old ≡ Some b → leaves_in kind b ≡ leaves.now → AreTaken kind b [] (P.size pages.old) marks.old names.old (T.took taken.old taken.old) → OnOk result (IsReached kind b (marked (P.size pages.old) marks.new) (T.took taken.old taken.new)) }
    ensures wrong { (b : List ℕ) → P.told pages.old ≡ Some b → leaves_in kind b ≡ leaves.now → AreTaken kind b [] (P.size pages.old) marks.old names.old (T.took taken.old taken.old) → IfErr result (IsWrong kind b) }
    ensures length { length marks.new ≡ length marks.old }
    ensures cause { IfErr result (IsWalkCause (P.is_cause pages.old pages.new)) }
    ensures told { P.told pages.new ≡ P.told pages.old }
    ensures size { P.size pages.new ≡ P.size pages.old }
    ensures counts { AreLater (P.counts pages.old) (P.counts pages.new) }
    ensures frame { P.frame pages.new ≡ P.frame pages.old }
    ensures goes_on { P.goes_on pages.old pages.new }
    ensures is_read { P.is_read pages.old pages.new }
{
    match take_leaves(alloc, pages, kind, leaves, marks, names, taken, steps) {
        Ok(()) => {}
        Err(fault) => return Err(fault),
    }
    match check_parts(pages, names, steps) {
        Ok(()) => Ok(()),
        Err(fault) => Err(fault),
    }
}

/// Takes the rows of a tree whose pages are marked, and marks what their values reach.
fn take_values<P: Pages, L: Ledger, T: RowSink>(
    alloc: Global,
    pages: &mut P,
    kind: KeyKind,
    leaves: &[u64],
    marks: &mut [bool],
    taken: &mut T,
    steps: &mut Steps<L>,
) -> Result<(), WalkFault<P::Fault>>
    requires kind { IsTreeKind kind }
    requires inside { AllByRecursion (IsChild (P.size pages.old)) leaves.now }
    requires small { P.size pages.old < 9223372036854775808 }
    requires length { length marks.old ≡ P.size pages.old / 1024 }
    ensures reached { (b : List ℕ) → P.told pages.old ≡ Some b → leaves_in kind b ≡ leaves.now → ((x : ℕ) → shape_times kind b x ≡ marked (P.size pages.old) marks.old x) → OnOk result (IsReached kind b (marked (P.size pages.old) marks.new) (T.took taken.old taken.new)) }
    ensures wrong { (b : List ℕ) → P.told pages.old ≡ Some b → leaves_in kind b ≡ leaves.now → ((x : ℕ) → shape_times kind b x ≡ marked (P.size pages.old) marks.old x) → IfErr result (IsWrong kind b) }
    ensures length { length marks.new ≡ length marks.old }
    ensures cause { IfErr result (IsWalkCause (P.is_cause pages.old pages.new)) }
    ensures told { P.told pages.new ≡ P.told pages.old }
    ensures size { P.size pages.new ≡ P.size pages.old }
    ensures counts { AreLater (P.counts pages.old) (P.counts pages.new) }
    ensures frame { P.frame pages.new ≡ P.frame pages.old }
    ensures goes_on { P.goes_on pages.old pages.new }
    ensures is_read { P.is_read pages.old pages.new }
{
    let mut names = match new_names(alloc, marks.len()) {
        Ok(names) => names,
        Err(_) => return Err(WalkFault::NoMemory),
    };
    take_marked(alloc, pages, kind, leaves, marks, &mut names, taken, steps)
}

/// Reads all pages below a tree's header, which alone is marked.
fn walk_marked<P: Pages, L: Ledger, T: RowSink>(
    alloc: Global,
    pages: &mut P,
    kind: KeyKind,
    header: Header,
    marks: &mut [bool],
    taken: &mut T,
    steps: &mut Steps<L>,
) -> Result<(), WalkFault<P::Fault>>
    requires kind { IsTreeKind kind }
    requires header { IsHeaderFor kind (P.size pages.old) header }
    requires small { P.size pages.old < 9223372036854775808 }
    requires length { length marks.old ≡ P.size pages.old / 1024 }
    ensures whole { (b : List ℕ) → P.told pages.old ≡ Some b → header ≡ header_in b → ((x : ℕ) → marked (P.size pages.old) marks.old x ≡ times x (0 ∷ [])) → OnOk result (IsWholeTaken kind b (T.took taken.old taken.new)) }
    ensures wrong { (b : List ℕ) → P.told pages.old ≡ Some b → header ≡ header_in b → ((x : ℕ) → marked (P.size pages.old) marks.old x ≡ times x (0 ∷ [])) → IfErr result (IsWrong kind b) }
    ensures cause { IfErr result (IsWalkCause (P.is_cause pages.old pages.new)) }
    ensures told { P.told pages.new ≡ P.told pages.old }
    ensures size { P.size pages.new ≡ P.size pages.old }
    ensures counts { AreLater (P.counts pages.old) (P.counts pages.new) }
    ensures frame { P.frame pages.new ≡ P.frame pages.old }
    ensures goes_on { P.goes_on pages.old pages.new }
    ensures is_read { P.is_read pages.old pages.new }
{
    walked_is_whole();
    let root = place(header.root_pointer);
    let free = place(header.free_pointer);
    let levels = header.levels - 1;
    let survey = match check_tree(alloc, pages, kind, root, levels, free, marks, steps) {
        Ok(survey) => survey,
        Err(fault) => return Err(fault),
    };
    match take_values(alloc, pages, kind, &survey.leaves, marks, taken, steps) {
        Ok(()) => {}
        Err(fault) => return Err(fault),
    }
    match check_met(marks, pages.length()) {
        Ok(()) => Ok(()),
        Err(wrong) => Err(WalkFault::Wrong(wrong)),
    }
}

/// Reads all pages below a tree's header.
fn walk_below<P: Pages, L: Ledger, T: RowSink>(
    alloc: Global,
    pages: &mut P,
    kind: KeyKind,
    header: Header,
    taken: &mut T,
    steps: &mut Steps<L>,
) -> Result<(), WalkFault<P::Fault>>
    requires kind { IsTreeKind kind }
    requires header { IsHeaderFor kind (P.size pages.old) header }
    ensures whole { (b : List ℕ) → P.told pages.old ≡ Some b → header ≡ header_in b → OnOk result (IsWholeTaken kind b (T.took taken.old taken.new)) }
    ensures wrong { (b : List ℕ) → P.told pages.old ≡ Some b → header ≡ header_in b → IfErr result (IsWrong kind b) }
    ensures cause { IfErr result (IsWalkCause (P.is_cause pages.old pages.new)) }
    ensures told { P.told pages.new ≡ P.told pages.old }
    ensures size { P.size pages.new ≡ P.size pages.old }
    ensures counts { AreLater (P.counts pages.old) (P.counts pages.new) }
    ensures frame { P.frame pages.new ≡ P.frame pages.old }
    ensures goes_on { P.goes_on pages.old pages.new }
    ensures is_read { P.is_read pages.old pages.new }
{
    let size = pages.length();
    let mut marks = match new_marks(alloc, size / 1024) {
        Ok(marks) => marks,
        Err(_) => return Err(WalkFault::NoMemory),
    };
    walk_marked(alloc, pages, kind, header, &mut marks, taken, steps)
}

/// Reads a whole tree of this kind of keys, whose values may mean several numbers. Where nothing is wrong with it, all its keys in
/// order, each with its numbers, were given to a sink. Where something is, so were some that were read before.
pub fn walk_rows<P: Pages, L: Ledger, T: RowSink>(
    alloc: Global,
    pages: &mut P,
    kind: KeyKind,
    taken: &mut T,
    steps: &mut Steps<L>,
) -> Result<(), WalkFault<P::Fault>>
    requires kind { IsTreeKind kind }
    ensures whole { (b : List ℕ) → P.told pages.old ≡ Some b → OnOk result (IsWholeTaken kind b (T.took taken.old taken.new)) }
    ensures wrong { (b : List ℕ) → P.told pages.old ≡ Some b → IfErr result (IsAmiss kind b) }
    ensures cause { IfErr result (IsWalkCause (P.is_cause pages.old pages.new)) }
    ensures told { P.told pages.new ≡ P.told pages.old }
    ensures size { P.size pages.new ≡ P.size pages.old }
    ensures counts { AreLater (P.counts pages.old) (P.counts pages.new) }
    ensures frame { P.frame pages.new ≡ P.frame pages.old }
    ensures goes_on { P.goes_on pages.old pages.new }
    ensures is_read { P.is_read pages.old pages.new }
{
    let header = match look_at_header(pages, kind, steps) {
        Ok(header) => header,
        Err(fault) => return Err(fault),
    };
    walk_below(alloc, pages, kind, header, taken, steps)
}

/// Reads a whole tree of this kind of keys, whose values may mean several numbers, and keeps none of them.
pub fn check_values<P: Pages, L: Ledger>(
    alloc: Global,
    pages: &mut P,
    kind: KeyKind,
    steps: &mut Steps<L>,
) -> Result<(), WalkFault<P::Fault>>
    requires kind { IsTreeKind kind }
    ensures whole { (b : List ℕ) → P.told pages.old ≡ Some b → OnOk result (IsWholeTree kind b) }
    ensures wrong { (b : List ℕ) → P.told pages.old ≡ Some b → IfErr result (IsAmiss kind b) }
    ensures cause { IfErr result (IsWalkCause (P.is_cause pages.old pages.new)) }
    ensures told { P.told pages.new ≡ P.told pages.old }
    ensures size { P.size pages.new ≡ P.size pages.old }
    ensures counts { AreLater (P.counts pages.old) (P.counts pages.new) }
    ensures frame { P.frame pages.new ≡ P.frame pages.old }
    ensures goes_on { P.goes_on pages.old pages.new }
    ensures is_read { P.is_read pages.old pages.new }
{
    let mut none = NoRows {};
    match walk_rows(alloc, pages, kind, &mut none, steps) {
        Ok(()) => Ok(()),
        Err(fault) => Err(fault),
    }
}

/// Reads a whole tree of this kind of keys, whose values may mean several numbers. Where nothing is wrong with it, all its keys in
/// order, each with its numbers.
pub fn walk_values<P: Pages, L: Ledger>(
    alloc: Global,
    pages: &mut P,
    kind: KeyKind,
    steps: &mut Steps<L>,
) -> Result<Ranged, WalkFault<P::Fault>>
    requires kind { IsTreeKind kind }
    ensures whole { (b : List ℕ) → P.told pages.old ≡ Some b → IfOk result (IsWholeWith kind b) }
    ensures written { (b : List ℕ) → P.told pages.old ≡ Some b → IfOk result (λ rows. AreWritten b (rows_in kind b) (pairs_by rows)) }
    ensures wrong { (b : List ℕ) → P.told pages.old ≡ Some b → IfErr result (IsAmiss kind b) }
    ensures cause { IfErr result (IsWalkCause (P.is_cause pages.old pages.new)) }
    ensures told { P.told pages.new ≡ P.told pages.old }
    ensures size { P.size pages.new ≡ P.size pages.old }
    ensures counts { AreLater (P.counts pages.old) (P.counts pages.new) }
    ensures frame { P.frame pages.new ≡ P.frame pages.old }
    ensures goes_on { P.goes_on pages.old pages.new }
    ensures is_read { P.is_read pages.old pages.new }
{
    let mut kept = KeptRows::new(alloc);
    match walk_rows(alloc, pages, kind, &mut kept, steps) {
        Ok(()) => Ok(kept.into_ranged()),
        Err(fault) => Err(fault),
    }
}
