// The rows of a leaf, with the numbers of their values.
ghost use Rattle.std.specs.Prelude.{◌≡◌, ◌<◌, ◌+◌, ◌/◌, ◌++◌, ℕ, List, [], ◌∷◌, length, Some, OnOk, IfOk, IfErr};
ghost use Rattle.bfs_base.specs.declared.kind.KeyKind.{KeyKind};
ghost use Rattle.bfs_node.specs.Page.{Row, HasLayout, rows_of, row_in};
ghost use Rattle.bfs_txn.specs.Faults.{AreLater};
ghost use Rattle.bfs_values.specs.Rows.{rows_in};
ghost use Rattle.bfs_walk.specs.Wrong.{IsWrong, IsWalkCause};
ghost use Rattle.bfs_value_walk.specs.Met.{IsNext, AreNext};
ghost use Rattle.bfs_value_walk.specs.Taken.{AreTaken};

use crate::RowSink;
use crate::value::take_value;
use bfs_node::{row_count, row_key, row_value};
use bfs_txn::{Pages, Steps};
use bfs_walk::WalkFault;
use std::alloc::Global;
use std::sync::ledger::Ledger;

/// Takes the row of a leaf at a place.
fn take_row<P: Pages, L: Ledger, T: RowSink>(
    alloc: Global,
    pages: &mut P,
    leaf: u64,
    page: &[u8],
    i: usize,
    marks: &mut [bool],
    names: &mut [u16],
    taken: &mut T,
    steps: &mut Steps<L>,
) -> Result<(), WalkFault<P::Fault>>
    requires page { HasLayout page.now }
    requires inside { i < length (rows_of page.now) }
    requires small { P.size pages.old < 9223372036854775808 }
    requires length { length marks.old ≡ P.size pages.old / 1024 }
    requires names { length names.old ≡ P.size pages.old / 1024 }
    ensures taken { (kind : KeyKind) (b : List ℕ) (done : List Row) (start : T) → P.told pages.old ≡ Some b → AreTaken kind b done (P.size pages.old) marks.old names.old (T.took start taken.old) → OnOk result (AreTaken kind b (done ++ row_in (rows_of page.now) i ∷ []) (P.size pages.old) marks.new names.new (T.took start taken.new)) }
    ensures wrong { (kind : KeyKind) (b : List ℕ) (done rest : List Row) (start : T) → P.told pages.old ≡ Some b → IsNext kind b leaf done (row_in (rows_of page.now) i) rest → AreTaken kind b done (P.size pages.old) marks.old names.old (T.took start taken.old) → IfErr result (IsWrong kind b) }
    ensures length { length marks.new ≡ length marks.old }
    ensures names { length names.new ≡ length names.old }
    ensures cause { IfErr result (IsWalkCause (P.is_cause pages.old pages.new)) }
    ensures told { P.told pages.new ≡ P.told pages.old }
    ensures size { P.size pages.new ≡ P.size pages.old }
    ensures counts { AreLater (P.counts pages.old) (P.counts pages.new) }
    ensures frame { P.frame pages.new ≡ P.frame pages.old }
    ensures goes_on { P.goes_on pages.old pages.new }
    ensures is_read { P.is_read pages.old pages.new }
{
    let value = row_value(page, i);
    let numbers = match take_value(alloc, pages, leaf, value, marks, names, steps) {
        Ok(numbers) => numbers,
        Err(fault) => return Err(fault),
    };
    match taken.take(alloc, row_key(page, i), numbers) {
        Ok(()) => Ok(()),
        Err(_) => Err(WalkFault::NoMemory),
    }
}

/// Takes all rows of a leaf.
pub fn take_rows<P: Pages, L: Ledger, T: RowSink>(
    alloc: Global,
    pages: &mut P,
    leaf: u64,
    page: &[u8],
    marks: &mut [bool],
    names: &mut [u16],
    taken: &mut T,
    steps: &mut Steps<L>,
) -> Result<(), WalkFault<P::Fault>>
    requires page { HasLayout page.now }
    requires small { P.size pages.old < 9223372036854775808 }
    requires length { length marks.old ≡ P.size pages.old / 1024 }
    requires names { length names.old ≡ P.size pages.old / 1024 }
    ensures taken { (kind : KeyKind) (b : List ℕ) (done : List Row) (start : T) → P.told pages.old ≡ Some b → AreTaken kind b done (P.size pages.old) marks.old names.old (T.took start taken.old) → OnOk result (AreTaken kind b (done ++ rows_of page.now) (P.size pages.old) marks.new names.new (T.took start taken.new)) }
    ensures wrong { (kind : KeyKind) (b : List ℕ) (done rest : List Row) (start : T) → P.told pages.old ≡ Some b → AreNext kind b leaf done (rows_of page.now) rest → AreTaken kind b done (P.size pages.old) marks.old names.old (T.took start taken.old) → IfErr result (IsWrong kind b) }
    ensures length { length marks.new ≡ length marks.old }
    ensures names { length names.new ≡ length names.old }
    ensures cause { IfErr result (IsWalkCause (P.is_cause pages.old pages.new)) }
    ensures told { P.told pages.new ≡ P.told pages.old }
    ensures size { P.size pages.new ≡ P.size pages.old }
    ensures counts { AreLater (P.counts pages.old) (P.counts pages.new) }
    ensures frame { P.frame pages.new ≡ P.frame pages.old }
    ensures goes_on { P.goes_on pages.old pages.new }
    ensures is_read { P.is_read pages.old pages.new }
{
    for i in 0..row_count(page) {
        match take_row(alloc, pages, leaf, page, i, marks, names, taken, steps) {
            Ok(()) => {}
            Err(fault) => return Err(fault),
        }
    }
    Ok(())
}
