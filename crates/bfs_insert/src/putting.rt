// Puts a row into a leaf.
ghost use Rattle.std.specs.Prelude.{◌≡◌, ◌≤◌, ◌<◌, ◌+◌, ℕ, List, Some, length, OnOk, IfErr, IfSome};
ghost use Rattle.bfs_base.specs.Keys.{IsTreeKind, IsKey};
ghost use Rattle.bfs_node.specs.Page.{IsPage, HasRoom, rows_of};
ghost use Rattle.bfs_pages.specs.Answers.{IsChild, IsRefused, IsSpared, IsBlamed};
ghost use Rattle.bfs_pages.specs.Shapes.{Shape, place as shape_place};
ghost use Rattle.bfs_pages.specs.Trees.{IsTree, page_in, state_of};
ghost use Rattle.bfs_pages.specs.Ways.{under};
ghost use Rattle.bfs_pages.specs.Writes.{Makes, Kept, IsFailed};
ghost use Rattle.bfs_insert.specs.Divided.{IsRoomy};
ghost use Rattle.bfs_insert.specs.Puts.{IsPut};

use bfs_node::{KeyKind, PAGE, TreeFault, has_room, insert_row};
use bfs_pages::{place_for, read_leaf, write_page};
use bfs_txn::{Pages, Steps};
use std::sync::ledger::Ledger;

/// Puts a row into the leaf whose page was read at this byte of the stream, before the first row whose key is not less. The page
/// has room for it.
pub fn put_in_leaf<P: Pages>(
    pages: &mut P,
    kind: KeyKind,
    key: &[u8],
    value: i64,
    at: u64,
    page: &mut [u8],
) -> Result<(), TreeFault<P::Fault>>
    requires kind { IsTreeKind kind }
    requires key { IsKey kind key.now }
    requires at { IsChild (P.size pages.old) at }
    requires page { IsPage kind page.old }
    requires room { HasRoom (rows_of page.old) key.now }
    requires read { IfSome (P.told pages.old) (λ b. page.old ≡ page_in b at) }
    ensures put { OnOk result (Makes (P.told pages.old) (P.told pages.new) (λ b c. IsPut kind b c at key.now value)) }
    ensures failed { IfErr result (IsFailed (P.is_cause pages.old pages.new)) }
    ensures kept { Kept (P.counts pages.old) (P.counts pages.new) (P.frame pages.old) (P.frame pages.new) (P.goes_on pages.old pages.new) }
{
    let i = place_for(page, kind, key);
    insert_row(page, i, key, value);
    match write_page(pages, at, page) {
        Ok(()) => Ok(()),
        Err(fault) => Err(fault),
    }
}

/// Puts a row into the leaf at this byte of the stream, before the first row whose key is not less.
pub fn put_row<P: Pages, L: Ledger>(
    pages: &mut P,
    kind: KeyKind,
    key: &[u8],
    value: i64,
    at: u64,
    steps: &mut Steps<L>,
) -> Result<(), TreeFault<P::Fault>>
    requires kind { IsTreeKind kind }
    requires key { IsKey kind key.now }
    requires at { IsChild (P.size pages.old) at }
    ensures put { OnOk result (Makes (P.told pages.old) (P.told pages.new) (λ b c. IsPut kind b c at key.now value)) }
    ensures refused { IfErr result (IsRefused kind (P.told pages.new) (P.is_cause pages.old pages.new)) }
    ensures blamed { IfErr result (IsBlamed (P.told pages.new) (P.size pages.new) (P.last pages.new)) }
    ensures spared { (b reached : List ℕ) (t : Shape) (fs : List ℕ) (d : ℕ) → P.told pages.old ≡ Some b → IsTree kind b reached t fs → d ≡ (state_of kind b).levels → shape_place (under kind d t key.now) ≡ at → IsRoomy (page_in b at) → IfErr result (IsSpared (P.told pages.new)) }
    ensures kept { Kept (P.counts pages.old) (P.counts pages.new) (P.frame pages.old) (P.frame pages.new) (P.goes_on pages.old pages.new) }
{
    let mut page = [0u8; PAGE];
    match read_leaf(pages, kind, at, &mut page, steps) {
        Ok(()) => {}
        Err(fault) => return Err(fault),
    }
    if !has_room(&page, key) {
        return Err(TreeFault::NoMemory);
    }
    match put_in_leaf(pages, kind, key, value, at, &mut page) {
        Ok(()) => Ok(()),
        Err(fault) => Err(fault),
    }
}
