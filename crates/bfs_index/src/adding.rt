// A pair is added to an index, in a tree of pages.
ghost use Rattle.std.specs.Prelude.{◌≡◌, ◌≤◌, ◌<◌, ◌^◌, ◌∷◌, ◌++◌, ℕ, ℤ, List, Some, OnOk, IfErr, IfSome, MatchResult};
ghost use Rattle.bfs_base.specs.Lists.{times};
ghost use Rattle.bfs_base.specs.Keys.{IsKey, IsTreeKind};
ghost use Rattle.bfs_node.specs.Page.{Row, rows_of};
ghost use Rattle.bfs_node.specs.Search.{IsSought};
ghost use Rattle.bfs_pages.specs.Answers.{IsChild, IsOfPages};
ghost use Rattle.bfs_pages.specs.Maps.{assoc};
ghost use Rattle.bfs_pages.specs.Shapes.{Shape, tree_rows, leaves_of};
ghost use Rattle.bfs_pages.specs.Trees.{page_in};
ghost use Rattle.bfs_pages.specs.Writes.{Kept};
ghost use Rattle.bfs_values.specs.Kinds.{IsLacking, IsValueOf};
ghost use Rattle.bfs_values.specs.Reached.{IsWholeTree};
ghost use Rattle.bfs_values.specs.Rows.{rows_in};
ghost use Rattle.bfs_values.specs.Stored.{Stored, SameNumbers};
ghost use Rattle.bfs_maps.specs.NumberTrees.{IsTold};
ghost use Rattle.bfs_index.specs.Indices.{HasWith};
ghost use Rattle.bfs_index.specs.Refused.{IsUnpaired};

use bfs_dups::number_value;
use bfs_dups_add::dups_add;
use bfs_insert::insert;
use bfs_node::{KeyKind, PAGE, PageKind, TreeFault, row_value, search};
use bfs_pages::{Found, leaf_for};
use bfs_txn::{Pages, Steps};
use bfs_values::set_value;
use std::sync::ledger::Ledger;

/// Writes the value of a key whose ids have changed into its leaf, where it is a new one.
pub(crate) fn write_value<P: Pages, L: Ledger>(
    pages: &mut P,
    kind: KeyKind,
    key: &[u8],
    row: Found,
    value: i64,
    steps: &mut Steps<L>,
) -> Result<(), TreeFault<P::Fault>>
    requires kind { IsTreeKind kind }
    requires key { IsSought kind key.now }
    requires leaf { IsChild (P.size pages.old) row.leaf }
    ensures written { (b : List ℕ) (t : Shape) (front back : List Row) → P.told pages.old ≡ Some b → Stored kind b t (front ++ ((key.now, value) ∷ back)) → tree_rows t ≡ front ++ ((key.now, row.value) ∷ back) → 1 ≤ times row.leaf (leaves_of t) → assoc kind (rows_of (page_in b row.leaf)) key.now ≡ Some row.value → MatchResult result (λ done. IsTold (P.told pages.new) (λ c. IsWholeTree kind c × (rows_in kind c ≡ front ++ ((key.now, value) ∷ back)) × SameNumbers b c (front ++ ((key.now, value) ∷ back)))) IsOfPages }
    ensures same { value ≡ row.value → OnOk result (P.told pages.new ≡ P.told pages.old) }
    ensures refused { IfErr result (IsUnpaired kind key.now (P.told pages.new) (P.is_cause pages.old pages.new)) }
    ensures kept { Kept (P.counts pages.old) (P.counts pages.new) (P.frame pages.old) (P.frame pages.new) (P.goes_on pages.old pages.new) }
{
    if value == row.value {
        return Ok(());
    }
    match set_value(pages, kind, row.leaf, key, value, steps) {
        Ok(()) => Ok(()),
        Err(fault) => match fault {
            TreeFault::Absent => Err(TreeFault::Damaged {
                page: row.leaf,
                kind: PageKind::Leaf,
            }),
            other => Err(other),
        },
    }
}

/// Adds an id to the ids of a key that a leaf has.
fn add_to<P: Pages, L: Ledger>(
    pages: &mut P,
    kind: KeyKind,
    key: &[u8],
    row: Found,
    id: u64,
    steps: &mut Steps<L>,
) -> Result<(), TreeFault<P::Fault>>
    requires kind { IsTreeKind kind }
    requires key { IsSought kind key.now }
    requires leaf { IsChild (P.size pages.old) row.leaf }
    requires value { IfSome (P.told pages.old) (λ b. IsValueOf kind b row.leaf row.value) }
    requires id { id < 2 ^ 62 }
    ensures added { (b : List ℕ) (t : Shape) (front back : List Row) → P.told pages.old ≡ Some b → Stored kind b t (front ++ ((key.now, row.value) ∷ back)) → tree_rows t ≡ front ++ ((key.now, row.value) ∷ back) → 1 ≤ times row.leaf (leaves_of t) → assoc kind (rows_of (page_in b row.leaf)) key.now ≡ Some row.value → MatchResult result (λ done. IsTold (P.told pages.new) (HasWith kind b key.now id)) IsLacking }
    ensures refused { IfErr result (IsUnpaired kind key.now (P.told pages.new) (P.is_cause pages.old pages.new)) }
    ensures kept { Kept (P.counts pages.old) (P.counts pages.new) (P.frame pages.old) (P.frame pages.new) (P.goes_on pages.old pages.new) }
{
    match dups_add(pages, kind, row.leaf, row.value, id, steps) {
        Ok(value) => write_value(pages, kind, key, row, value, steps),
        Err(fault) => Err(fault),
    }
}

/// Adds an id to the ids of a key that the tree has.
fn add_there<P: Pages, L: Ledger>(
    pages: &mut P,
    kind: KeyKind,
    key: &[u8],
    id: u64,
    steps: &mut Steps<L>,
) -> Result<(), TreeFault<P::Fault>>
    requires kind { IsTreeKind kind }
    requires key { IsSought kind key.now }
    requires id { id < 2 ^ 62 }
    ensures added { (b : List ℕ) (value : ℤ) → P.told pages.old ≡ Some b → IsWholeTree kind b → assoc kind (rows_in kind b) key.now ≡ Some value → MatchResult result (λ done. IsTold (P.told pages.new) (HasWith kind b key.now id)) IsLacking }
    ensures refused { IfErr result (IsUnpaired kind key.now (P.told pages.new) (P.is_cause pages.old pages.new)) }
    ensures kept { Kept (P.counts pages.old) (P.counts pages.new) (P.frame pages.old) (P.frame pages.new) (P.goes_on pages.old pages.new) }
{
    let mut page = [0u8; PAGE];
    let leaf = match leaf_for(pages, kind, key, &mut page, steps) {
        Ok(leaf) => leaf,
        Err(fault) => return Err(fault),
    };
    match search(&page, kind, key) {
        Ok(i) => {
            let value = row_value(&page, i);
            add_to(pages, kind, key, Found { leaf, value }, id, steps)
        }
        Err(_) => Err(TreeFault::Damaged {
            page: leaf,
            kind: PageKind::Leaf,
        }),
    }
}

/// Adds a pair. One that is there stays.
pub(crate) fn add_in<P: Pages, L: Ledger>(
    pages: &mut P,
    kind: KeyKind,
    key: &[u8],
    id: u64,
    steps: &mut Steps<L>,
) -> Result<(), TreeFault<P::Fault>>
    requires kind { IsTreeKind kind }
    requires key { IsKey kind key.now }
    requires id { id < 2 ^ 62 }
    ensures added { (b : List ℕ) → P.told pages.old ≡ Some b → IsWholeTree kind b → MatchResult result (λ done. IsTold (P.told pages.new) (HasWith kind b key.now id)) IsLacking }
    ensures refused { IfErr result (IsUnpaired kind key.now (P.told pages.new) (P.is_cause pages.old pages.new)) }
    ensures kept { Kept (P.counts pages.old) (P.counts pages.new) (P.frame pages.old) (P.frame pages.new) (P.goes_on pages.old pages.new) }
{
    match insert(pages, kind, key, number_value(id), steps) {
        Ok(()) => Ok(()),
        Err(fault) => match fault {
            TreeFault::Exists => add_there(pages, kind, key, id, steps),
            other => Err(other),
        },
    }
}
