// Takes roots without keys away.
ghost use Rattle.std.specs.Prelude.{◌≡◌, ◌≤◌, ◌<◌, ◌+◌, ℕ, List, Some, length, OnOk, IfErr, IfSome, MatchResult};
ghost use Rattle.bfs_base.specs.Keys.{IsTreeKind};
ghost use Rattle.bfs_pages.specs.Answers.{IsHeaderFor, IsUnread, IsOfPages, IsJustRead};
ghost use Rattle.bfs_pages.specs.Shapes.{Shape, tree_rows};
ghost use Rattle.bfs_pages.specs.Trees.{header_in, IsTree, HasRows};
ghost use Rattle.bfs_pages.specs.Writes.{Kept, SamePages};
ghost use Rattle.bfs_remove.specs.Cuts.{IsFilled};
ghost use Rattle.bfs_remove.specs.Removed.{IsLow};

use crate::give::give_back;
use bfs_node::{Header, KeyKind, PAGE, TreeFault, overflow_link, row_count};
use bfs_pages::txn::{Pages, Steps};
use bfs_pages::{place, read_interior};
use std::sync::ledger::Ledger;

/// Makes the root's only child the root, while it is an interior page without keys, and gives the old root back.
pub fn collapse<P: Pages, L: Ledger>(
    pages: &mut P,
    kind: KeyKind,
    header: Header,
    steps: &mut Steps<L>,
) -> Result<(), TreeFault<P::Fault>>
    requires kind { IsTreeKind kind }
    requires header { IsHeaderFor kind (P.size pages.old) header }
    ensures collapsed { (b reached : List ℕ) (t : Shape) (fs : List ℕ) → P.told pages.old ≡ Some b → header ≡ header_in b → IsTree kind b reached t fs → MatchResult result (λ done. (c : List ℕ) × (P.told pages.new ≡ Some c) × HasRows kind c reached (tree_rows t) × SamePages reached b c × IsLow c) IsOfPages }
    ensures filled { (b reached : List ℕ) (t : Shape) (fs : List ℕ) → P.told pages.old ≡ Some b → header ≡ header_in b → IsTree kind b reached t fs → IsFilled t → OnOk result ((c : List ℕ) × (t2 : Shape) × (fs2 : List ℕ) × (P.told pages.new ≡ Some c) × IsTree kind c reached t2 fs2 × IsFilled t2) }
    ensures size { OnOk result (P.size pages.new ≡ P.size pages.old) }
    ensures refused { IfErr result (IsUnread kind (P.told pages.new) (P.is_cause pages.old pages.new)) }
    ensures just_read { IfErr result (IsJustRead (P.size pages.new) (P.last pages.new)) }
    ensures steps { steps.new + 1 ≤ steps.old + header.levels }
    ensures kept { Kept (P.counts pages.old) (P.counts pages.new) (P.frame pages.old) (P.frame pages.new) (P.goes_on pages.old pages.new) }
{
    let mut header = header;
    let mut page = [0u8; PAGE];
    while header.levels > 1 {
        let root = place(header.root_pointer);
        match read_interior(pages, kind, root, &mut page, steps) {
            Ok(()) => {}
            Err(fault) => return Err(fault),
        }
        if row_count(&page) > 0 {
            return Ok(());
        }
        let lower = Header {
            root_pointer: overflow_link(&page),
            levels: header.levels - 1,
            ..header
        };
        match give_back(pages, lower, root) {
            Ok(since) => header = since,
            Err(fault) => return Err(fault),
        }
    }
    Ok(())
}
