// Takes a page for one that is made.
ghost use Rattle.std.specs.Prelude.{◌≡◌, ◌<◌, ◌^◌, ℕ, List, Some, length, OnOk, IfOk, IfErr};
ghost use Rattle.bfs_base.specs.Keys.{IsTreeKind};
ghost use Rattle.bfs_pages.specs.Answers.{IsChild, IsRefused, IsBlamed};
ghost use Rattle.bfs_pages.specs.Shapes.{Shape};
ghost use Rattle.bfs_pages.specs.Trees.{IsTree};
ghost use Rattle.bfs_pages.specs.Writes.{Kept, IsGrown};
ghost use Rattle.bfs_values.specs.Stored.{IsScant};
ghost use Rattle.bfs_dups_add.specs.Written.{IsPut};

use bfs_node::{KeyKind, TreeFault};
use bfs_pages::{take_page, write_page};
use bfs_txn::{Pages, Steps};
use std::sync::ledger::Ledger;

/// Where no page has a link any more: a link has 62 bits.
const LINKS: u64 = 0x4000_0000_0000_0000;

/// Takes a page for these bytes, and writes them there.
pub fn put_page<P: Pages, L: Ledger>(
    pages: &mut P,
    kind: KeyKind,
    page: &[u8],
    steps: &mut Steps<L>,
) -> Result<u64, TreeFault<P::Fault>>
    requires kind { IsTreeKind kind }
    requires page { length page.now ≡ 1024 }
    ensures page { IfOk result (IsChild (P.size pages.new)) }
    ensures link { IfOk result (λ q. q < 2 ^ 62) }
    ensures put { IfOk result (λ q. (b : List ℕ) → P.told pages.old ≡ Some b → (c : List ℕ) × (P.told pages.new ≡ Some c) × IsPut kind b c q page.now) }
    ensures size { OnOk result (IsGrown (P.size pages.old) (P.size pages.new)) }
    ensures refused { IfErr result (IsRefused kind (P.told pages.new) (P.is_cause pages.old pages.new)) }
    ensures blamed { IfErr result (IsBlamed (P.told pages.new) (P.size pages.new) (P.last pages.new)) }
    ensures spared { (b reached : List ℕ) (t : Shape) (fs : List ℕ) → P.told pages.old ≡ Some b → IsTree kind b reached t fs → IfErr result (IsScant (P.told pages.new)) }
    ensures kept { Kept (P.counts pages.old) (P.counts pages.new) (P.frame pages.old) (P.frame pages.new) (P.goes_on pages.old pages.new) }
{
    let fresh = match take_page(pages, kind, steps) {
        Ok(fresh) => fresh,
        Err(fault) => return Err(fault),
    };
    let at = fresh.page;
    if at >= LINKS {
        return Err(TreeFault::NoMemory);
    }
    match write_page(pages, at, page) {
        Ok(()) => Ok(at),
        Err(fault) => Err(fault),
    }
}
