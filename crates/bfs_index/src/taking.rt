// A pair is taken out of an index, in a tree of pages.
ghost use Rattle.std.specs.Prelude.{◌≡◌, ◌≤◌, ◌<◌, ◌∷◌, ◌++◌, ℕ, pos, List, Some, IfErr, IfSome, MatchResult};
ghost use Rattle.bfs_base.specs.Lists.{times};
ghost use Rattle.bfs_base.specs.Keys.{IsTreeKind};
ghost use Rattle.bfs_node.specs.Page.{Row, rows_of};
ghost use Rattle.bfs_node.specs.Search.{IsSought};
ghost use Rattle.bfs_pages.specs.Answers.{IsChild, IsOfPages};
ghost use Rattle.bfs_pages.specs.Maps.{assoc};
ghost use Rattle.bfs_pages.specs.Shapes.{Shape, tree_rows, leaves_of};
ghost use Rattle.bfs_pages.specs.Trees.{page_in};
ghost use Rattle.bfs_pages.specs.Writes.{Kept};
ghost use Rattle.bfs_values.specs.Kinds.{IsValueOf};
ghost use Rattle.bfs_values.specs.Laws.{IsPlain};
ghost use Rattle.bfs_values.specs.Reached.{IsWholeTree};
ghost use Rattle.bfs_values.specs.Rows.{rows_in};
ghost use Rattle.bfs_values.specs.Stored.{Stored, SameNumbers};
ghost use Rattle.bfs_maps.specs.NumberTrees.{IsTold};
ghost use Rattle.bfs_index.specs.Indices.{HasWithout};
ghost use Rattle.bfs_index.specs.Refused.{IsUnpaired};

use crate::adding::write_value;
use bfs_dups_remove::dups_remove;
use bfs_node::{KeyKind, PAGE, TreeFault, row_value, search};
use bfs_pages::{Found, leaf_for};
use bfs_remove::remove;
use bfs_txn::{Pages, Steps};
use bfs_values::{Link, link_of};
use std::sync::ledger::Ledger;

/// The value with which a row is taken out: its own where that is a plain number, else 0.
fn plain_value(value: i64) -> i64
    ensures { IsPlain result }
{
    match link_of(value) {
        Link::Number(_) => value,
        _ => 0,
    }
}

/// Takes the row of a key out, which has no id any more. Where its value isn't a plain number, one is written first, so that no
/// page is the row's.
fn drop_row<P: Pages, L: Ledger>(
    pages: &mut P,
    kind: KeyKind,
    key: &[u8],
    row: Found,
    steps: &mut Steps<L>,
) -> Result<(), TreeFault<P::Fault>>
    requires kind { IsTreeKind kind }
    requires key { IsSought kind key.now }
    requires leaf { IsChild (P.size pages.old) row.leaf }
    ensures dropped { (b : List ℕ) (t : Shape) (front back : List Row) → P.told pages.old ≡ Some b → Stored kind b t (front ++ ((key.now, pos 0) ∷ back)) → tree_rows t ≡ front ++ ((key.now, row.value) ∷ back) → 1 ≤ times row.leaf (leaves_of t) → assoc kind (rows_of (page_in b row.leaf)) key.now ≡ Some row.value → MatchResult result (λ done. IsTold (P.told pages.new) (λ c. IsWholeTree kind c × (rows_in kind c ≡ front ++ back) × SameNumbers b c (front ++ back))) IsOfPages }
    ensures refused { IfErr result (IsUnpaired kind key.now (P.told pages.new) (P.is_cause pages.old pages.new)) }
    ensures kept { Kept (P.counts pages.old) (P.counts pages.new) (P.frame pages.old) (P.frame pages.new) (P.goes_on pages.old pages.new) }
{
    let plain = plain_value(row.value);
    match write_value(pages, kind, key, row, plain, steps) {
        Ok(()) => {}
        Err(fault) => return Err(fault),
    }
    match remove(pages, kind, key, steps) {
        Ok(_) => Ok(()),
        Err(fault) => match fault {
            TreeFault::Absent => Ok(()),
            other => Err(other),
        },
    }
}

/// Takes an id out of the ids of a key that a leaf has. A key that has none any more goes too.
fn take_from<P: Pages, L: Ledger>(
    pages: &mut P,
    kind: KeyKind,
    key: &[u8],
    row: Found,
    id: u64,
    steps: &mut Steps<L>,
) -> Result<(), TreeFault<P::Fault>>
    requires kind { IsTreeKind kind }
    requires key { IsSought kind key.now }
    requires leaf { IsChild (P.size pages.old) row.leaf }
    requires value { IfSome (P.told pages.old) (λ b. IsValueOf kind b row.leaf row.value) }
    ensures taken { (b : List ℕ) (t : Shape) (front back : List Row) → P.told pages.old ≡ Some b → Stored kind b t (front ++ ((key.now, row.value) ∷ back)) → tree_rows t ≡ front ++ ((key.now, row.value) ∷ back) → 1 ≤ times row.leaf (leaves_of t) → assoc kind (rows_of (page_in b row.leaf)) key.now ≡ Some row.value → MatchResult result (λ done. IsTold (P.told pages.new) (HasWithout kind b key.now id)) IsOfPages }
    ensures refused { IfErr result (IsUnpaired kind key.now (P.told pages.new) (P.is_cause pages.old pages.new)) }
    ensures kept { Kept (P.counts pages.old) (P.counts pages.new) (P.frame pages.old) (P.frame pages.new) (P.goes_on pages.old pages.new) }
{
    match dups_remove(pages, kind, row.leaf, row.value, id, steps) {
        Ok(Some(value)) => write_value(pages, kind, key, row, value, steps),
        Ok(None) => drop_row(pages, kind, key, row, steps),
        Err(fault) => Err(fault),
    }
}

/// Takes a pair out. Where it isn't there, nothing changes.
pub(crate) fn take_in<P: Pages, L: Ledger>(
    pages: &mut P,
    kind: KeyKind,
    key: &[u8],
    id: u64,
    steps: &mut Steps<L>,
) -> Result<(), TreeFault<P::Fault>>
    requires kind { IsTreeKind kind }
    requires key { IsSought kind key.now }
    ensures taken { (b : List ℕ) → P.told pages.old ≡ Some b → IsWholeTree kind b → MatchResult result (λ done. IsTold (P.told pages.new) (HasWithout kind b key.now id)) IsOfPages }
    ensures refused { IfErr result (IsUnpaired kind key.now (P.told pages.new) (P.is_cause pages.old pages.new)) }
    ensures kept { Kept (P.counts pages.old) (P.counts pages.new) (P.frame pages.old) (P.frame pages.new) (P.goes_on pages.old pages.new) }
{
    let mut page = [0u8; PAGE];
    let leaf = match leaf_for(pages, kind, key, &mut page, steps) {
        Ok(leaf) => leaf,
        Err(fault) => return Err(fault),
    };
    match search(&page, kind, key) {
        Ok(i) => {
            let value = row_value(&page, i);
            take_from(pages, kind, key, Found { leaf, value }, id, steps)
        }
        Err(_) => Ok(()),
    }
}
