// Writes the value of a row into its leaf.
ghost use Rattle.std.specs.Prelude.{◌≡◌, ◌≤◌, ◌<◌, ◌+◌, ◌++◌, ◌∷◌, ℕ, ℤ, List, Some, true, length, OnOk, IfErr, MatchResult};
ghost use Rattle.bfs_base.specs.Keys.{IsTreeKind};
ghost use Rattle.bfs_base.specs.Lists.{times};
ghost use Rattle.bfs_node.specs.Page.{Row, rows_of};
ghost use Rattle.bfs_node.specs.Search.{IsSought};
ghost use Rattle.bfs_node.specs.declared.fault.PageKind.TheVariants.{Leaf};
ghost use Rattle.bfs_pages.specs.Answers.{IsChild, IsJustRead, IsAt, IsOfPages};
ghost use Rattle.bfs_pages.specs.Maps.{assoc};
ghost use Rattle.bfs_pages.specs.Order.{Key, same_keys};
ghost use Rattle.bfs_pages.specs.Shapes.{Shape, tree_rows, leaves_of};
ghost use Rattle.bfs_pages.specs.Trees.{page_in};
ghost use Rattle.bfs_pages.specs.Writes.{Makes, Kept};
ghost use Rattle.bfs_values.specs.Reached.{IsWholeTree};
ghost use Rattle.bfs_values.specs.Rows.{rows_in};
ghost use Rattle.bfs_values.specs.Sets.{IsValued, IsNotValued};
ghost use Rattle.bfs_values.specs.Stored.{Stored, SameNumbers};

use bfs_node::{KeyKind, PAGE, TreeFault, search, set_row_value};
use bfs_pages::txn::{Pages, Steps};
use bfs_pages::{read_leaf, write_page};
use std::sync::ledger::Ledger;

/// Writes a new value into the row of a key, in the leaf that has it. A value that came from adding or taking a number
/// makes a whole tree of a stream whose pages are those of the new value.
pub fn set_value<P: Pages, L: Ledger>(
    pages: &mut P,
    kind: KeyKind,
    leaf: u64,
    key: &[u8],
    value: i64,
    steps: &mut Steps<L>,
) -> Result<(), TreeFault<P::Fault>>
    requires kind { IsTreeKind kind }
    requires leaf { IsChild (P.size pages.old) leaf }
    requires key { IsSought kind key.now }
    ensures set { OnOk result (Makes (P.told pages.old) (P.told pages.new) (λ b c. IsValued kind b c leaf key.now value)) }
    ensures whole { (b : List ℕ) (t : Shape) (front back : List Row) (k : Key) (old : ℤ) → P.told pages.old ≡ Some b → Stored kind b t (front ++ ((k, value) ∷ back)) → tree_rows t ≡ front ++ ((k, old) ∷ back) → same_keys kind key.now k ≡ true → 1 ≤ times leaf (leaves_of t) → assoc kind (rows_of (page_in b leaf)) key.now ≡ Some old → MatchResult result (λ done. (c : List ℕ) × (P.told pages.new ≡ Some c) × IsWholeTree kind c × (rows_in kind c ≡ front ++ ((k, value) ∷ back)) × SameNumbers b c (front ++ ((k, value) ∷ back))) IsOfPages }
    ensures size { OnOk result (P.size pages.new ≡ P.size pages.old) }
    ensures refused { IfErr result (IsNotValued kind (P.told pages.old) (P.told pages.new) (P.is_cause pages.old pages.new) leaf key.now) }
    ensures just_read { IfErr result (IsJustRead (P.size pages.new) (P.last pages.new)) }
    ensures at { IfErr result (IsAt leaf Leaf) }
    ensures steps { steps.new ≤ steps.old + 1 }
    ensures kept { Kept (P.counts pages.old) (P.counts pages.new) (P.frame pages.old) (P.frame pages.new) (P.goes_on pages.old pages.new) }
{
    let mut page = [0u8; PAGE];
    match read_leaf(pages, kind, leaf, &mut page, steps) {
        Ok(()) => {}
        Err(fault) => return Err(fault),
    }
    let i = match search(&page, kind, key) {
        Ok(i) => i,
        Err(_) => return Err(TreeFault::Absent),
    };
    set_row_value(&mut page, i, value);
    match write_page(pages, leaf, &page) {
        Ok(()) => Ok(()),
        Err(fault) => Err(fault),
    }
}
