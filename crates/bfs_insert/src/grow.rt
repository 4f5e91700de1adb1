// A step down the way of a key, where a full page is split before it.
ghost use Rattle.std.specs.Prelude.{◌≡◌, ◌≢◌, ◌≤◌, ◌<◌, ◌+◌, ◌^◌, ℕ, pos, List, Some, length, OnOk, IfOk, IfErr, IfSome};
ghost use Rattle.bfs_base.specs.Keys.{IsTreeKind};
ghost use Rattle.bfs_node.specs.Page.{IsPage, HasLayout, rows_of, links_of};
ghost use Rattle.bfs_node.specs.Search.{IsSought};
ghost use Rattle.bfs_pages.specs.Answers.{IsChild, IsLink, IsLeafPage, IsInteriorPage, IsRefused, IsSpared, IsUnread, IsAt, IsBlamed};
ghost use Rattle.bfs_insert.specs.Growth.{StepsDown};
ghost use Rattle.bfs_insert.specs.Divided.{IsRoomy, IsFullPage};
ghost use Rattle.bfs_pages.specs.Shapes.{Shape, place as shape_place};
ghost use Rattle.bfs_pages.specs.Trees.{IsTree, Holds, State, page_in, header_in, state_of};
ghost use Rattle.bfs_pages.specs.Ways.{under};
ghost use Rattle.bfs_pages.specs.Writes.{Makes, Kept, IsFailed, IsGrown};
ghost use Rattle.bfs_insert.specs.Puts.{IsStep};
ghost use Rattle.bfs_node.specs.declared.fault.PageKind.TheVariants.{Leaf};

use crate::divide::{halve_interior, halve_leaf};
use crate::halves::{Places, write_halves};
use bfs_node::{KeyKind, PAGE, TreeFault, right_link, set_left_link};
use bfs_pages::{place, read_beside, take_page};
use bfs_txn::{Pages, Steps};
use std::sync::ledger::Ledger;

/// Writes the link to the left of a page.
fn mend_left(page: &mut [u8], left: u64)
    requires page { length page.old ≡ 1024 }
    requires left { left < 2 ^ 63 }
    ensures length { length page.new ≡ 1024 }
    ensures links { links_of page.new ≡ record (links_of page.old) { left = pos left } }
    ensures rows { rows_of page.new ≡ rows_of page.old }
    ensures page { HasLayout page.old → HasLayout page.new }
{
    set_left_link(page, left as i64);
}

/// Splits a full leaf, and answers the half that a key leads to.
pub fn split_leaf<P: Pages, L: Ledger>(
    pages: &mut P,
    kind: KeyKind,
    key: &[u8],
    at: (u64, u64),
    above: &mut [u8],
    below: &mut [u8],
    steps: &mut Steps<L>,
) -> Result<u64, TreeFault<P::Fault>>
    requires kind { IsTreeKind kind }
    requires key { IsSought kind key.now }
    requires at { IsChild (P.size pages.old) at.0 }
    requires child { IsChild (P.size pages.old) at.1 }
    requires above { IsPage kind above.old }
    requires roomy { IsRoomy above.old }
    requires below { IsPage kind below.old }
    requires leaf { IsLeafPage kind (P.size pages.old) below.old }
    requires full { IsFullPage below.old }
    requires told_above { IfSome (P.told pages.old) (λ b. above.old ≡ page_in b at.0) }
    requires told_below { IfSome (P.told pages.old) (λ b. below.old ≡ page_in b at.1) }
    ensures next { IfOk result (IsChild (P.size pages.new)) }
    ensures step { IfOk result (λ next. Makes (P.told pages.old) (P.told pages.new) (λ b c. IsStep kind b c at.0 at.1 key.now next)) }
    ensures size { OnOk result (IsGrown (P.size pages.old) (P.size pages.new)) }
    ensures refused { IfErr result (IsRefused kind (P.told pages.new) (P.is_cause pages.old pages.new)) }
    ensures blamed { IfErr result (IsBlamed (P.told pages.new) (P.size pages.new) (P.last pages.new)) }
    ensures spared { (b reached : List ℕ) (t : Shape) (fs : List ℕ) (d : ℕ) → P.told pages.old ≡ Some b → IsTree kind b reached t fs → d ≡ (state_of kind b).levels → shape_place (under kind d t key.now) ≡ at.1 → IfErr result (IsSpared (P.told pages.new)) }
    ensures kept { Kept (P.counts pages.old) (P.counts pages.new) (P.frame pages.old) (P.frame pages.new) (P.goes_on pages.old pages.new) }
{
    let next = place(right_link(below));
    let mut beside = [0u8; PAGE];
    match read_beside(pages, kind, next, &mut beside, steps) {
        Ok(()) => {}
        Err(fault) => return Err(fault),
    }
    let right = match take_page(pages, kind, steps) {
        Ok(fresh) => fresh.page,
        Err(fault) => return Err(fault),
    };
    let mut half = [0u8; PAGE];
    let left = halve_leaf(above, below, &mut half, kind, key, (at.1, right));
    mend_left(&mut beside, right);
    let places = Places {
        above: at.0,
        below: at.1,
        right,
        next,
    };
    match write_halves(pages, places, above, below, &half, &beside) {
        Ok(()) => { if left { Ok(at.1) } else { Ok(right) } }
        Err(fault) => Err(fault),
    }
}

/// Splits a full interior page, and answers the half that a key leads to.
pub fn split_interior<P: Pages, L: Ledger>(
    pages: &mut P,
    kind: KeyKind,
    key: &[u8],
    at: (u64, u64),
    above: &mut [u8],
    below: &mut [u8],
    steps: &mut Steps<L>,
) -> Result<u64, TreeFault<P::Fault>>
    requires kind { IsTreeKind kind }
    requires key { IsSought kind key.now }
    requires at { IsChild (P.size pages.old) at.0 }
    requires child { IsChild (P.size pages.old) at.1 }
    requires above { IsPage kind above.old }
    requires roomy { IsRoomy above.old }
    requires below { IsPage kind below.old }
    requires interior { IsInteriorPage kind (P.size pages.old) below.old }
    requires full { IsFullPage below.old }
    requires told_above { IfSome (P.told pages.old) (λ b. above.old ≡ page_in b at.0) }
    requires told_below { IfSome (P.told pages.old) (λ b. below.old ≡ page_in b at.1) }
    ensures next { IfOk result (IsChild (P.size pages.new)) }
    ensures step { IfOk result (λ next. Makes (P.told pages.old) (P.told pages.new) (λ b c. IsStep kind b c at.0 at.1 key.now next)) }
    ensures size { OnOk result (IsGrown (P.size pages.old) (P.size pages.new)) }
    ensures refused { IfErr result (IsRefused kind (P.told pages.new) (P.is_cause pages.old pages.new)) }
    ensures blamed { IfErr result (IsBlamed (P.told pages.new) (P.size pages.new) (P.last pages.new)) }
    ensures spared { (b reached : List ℕ) (t : Shape) (fs : List ℕ) → P.told pages.old ≡ Some b → IsTree kind b reached t fs → IfErr result (IsSpared (P.told pages.new)) }
    ensures kept { Kept (P.counts pages.old) (P.counts pages.new) (P.frame pages.old) (P.frame pages.new) (P.goes_on pages.old pages.new) }
{
    let right = match take_page(pages, kind, steps) {
        Ok(fresh) => fresh.page,
        Err(fault) => return Err(fault),
    };
    let mut half = [0u8; PAGE];
    let left = halve_interior(above, below, &mut half, kind, key, right);
    let places = Places {
        above: at.0,
        below: at.1,
        right,
        next: 0,
    };
    match write_halves(pages, places, above, below, &half, &half) {
        Ok(()) => { if left { Ok(at.1) } else { Ok(right) } }
        Err(fault) => Err(fault),
    }
}
