// Links leaves past one that goes.
ghost use Rattle.std.specs.Prelude.{◌≡◌, ◌≢◌, ◌≤◌, ◌<◌, ◌+◌, ℕ, List, Some, length, OnOk, IfErr};
ghost use Rattle.bfs_base.specs.Keys.{IsTreeKind};
ghost use Rattle.bfs_pages.specs.Answers.{IsLink, IsLeafPage, IsUnread, IsOfPages, IsJustRead};
ghost use Rattle.bfs_pages.specs.Trees.{page_in, place_of, neighbours_in};
ghost use Rattle.bfs_pages.specs.Writes.{Makes, Kept};
ghost use Rattle.bfs_remove.specs.Removed.{IsMended};

use bfs_node::{KeyKind, PAGE, TreeFault, set_left_link, set_right_link};
use bfs_pages::txn::{Pages, Steps};
use bfs_pages::{read_beside, write_beside};
use std::sync::ledger::Ledger;

/// Writes the link to the right of a leaf, where there is one.
pub fn mend_right<P: Pages, L: Ledger>(
    pages: &mut P,
    kind: KeyKind,
    at: u64,
    right: i64,
    steps: &mut Steps<L>,
) -> Result<(), TreeFault<P::Fault>>
    requires kind { IsTreeKind kind }
    requires at { IsLink (P.size pages.old) at }
    ensures made { OnOk result (Makes (P.told pages.old) (P.told pages.new) (λ b c. IsMended kind b c at ((neighbours_in (page_in b at)).0, place_of right))) }
    ensures size { OnOk result (P.size pages.new ≡ P.size pages.old) }
    ensures refused { IfErr result (IsUnread kind (P.told pages.new) (P.is_cause pages.old pages.new)) }
    ensures just_read { IfErr result (IsJustRead (P.size pages.new) (P.last pages.new)) }
    ensures spared { (b : List ℕ) → P.told pages.old ≡ Some b → (at ≢ 0 → IsLeafPage kind (length b) (page_in b at)) → IfErr result IsOfPages }
    ensures steps { steps.new ≤ steps.old + 1 }
    ensures kept { Kept (P.counts pages.old) (P.counts pages.new) (P.frame pages.old) (P.frame pages.new) (P.goes_on pages.old pages.new) }
{
    let mut beside = [0u8; PAGE];
    match read_beside(pages, kind, at, &mut beside, steps) {
        Ok(()) => {}
        Err(fault) => return Err(fault),
    }
    set_right_link(&mut beside, right);
    match write_beside(pages, at, &beside) {
        Ok(()) => Ok(()),
        Err(fault) => Err(fault),
    }
}

/// Writes the link to the left of a leaf, where there is one.
pub fn mend_left<P: Pages, L: Ledger>(
    pages: &mut P,
    kind: KeyKind,
    at: u64,
    left: i64,
    steps: &mut Steps<L>,
) -> Result<(), TreeFault<P::Fault>>
    requires kind { IsTreeKind kind }
    requires at { IsLink (P.size pages.old) at }
    ensures made { OnOk result (Makes (P.told pages.old) (P.told pages.new) (λ b c. IsMended kind b c at (place_of left, (neighbours_in (page_in b at)).1))) }
    ensures size { OnOk result (P.size pages.new ≡ P.size pages.old) }
    ensures refused { IfErr result (IsUnread kind (P.told pages.new) (P.is_cause pages.old pages.new)) }
    ensures just_read { IfErr result (IsJustRead (P.size pages.new) (P.last pages.new)) }
    ensures spared { (b : List ℕ) → P.told pages.old ≡ Some b → (at ≢ 0 → IsLeafPage kind (length b) (page_in b at)) → IfErr result IsOfPages }
    ensures steps { steps.new ≤ steps.old + 1 }
    ensures kept { Kept (P.counts pages.old) (P.counts pages.new) (P.frame pages.old) (P.frame pages.new) (P.goes_on pages.old pages.new) }
{
    let mut beside = [0u8; PAGE];
    match read_beside(pages, kind, at, &mut beside, steps) {
        Ok(()) => {}
        Err(fault) => return Err(fault),
    }
    set_left_link(&mut beside, left);
    match write_beside(pages, at, &beside) {
        Ok(()) => Ok(()),
        Err(fault) => Err(fault),
    }
}
