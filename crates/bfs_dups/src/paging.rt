// Reads a page whatever it is, and frees a fragment.
ghost use Rattle.std.specs.Prelude.{◌≡◌, ◌<◌, ◌*◌, ℕ, List, Some, length, OnOk, IfErr, IfSome};
ghost use Rattle.bfs_base.specs.Keys.{IsTreeKind};
ghost use Rattle.bfs_pages.specs.Answers.{IsChild, IsRefused, IsOfPages, IsJustRead};
ghost use Rattle.bfs_pages.specs.Shapes.{Shape};
ghost use Rattle.bfs_pages.specs.Trees.{IsTree, page_in};
ghost use Rattle.bfs_pages.specs.Writes.{Kept, IsFailed};
ghost use Rattle.bfs_dups.specs.Written.{IsVacated};

use crate::fragments::is_unused;
use crate::lists::put_number;
use bfs_node::{KeyKind, TreeFault};
use bfs_pages::{read_header, write_page};
use bfs_remove::give_back;
use bfs_txn::{Pages, Steps};
use std::sync::ledger::Ledger;

/// Reads a page, whatever it is.
pub fn read_page<P: Pages, L: Ledger>(
    pages: &mut P,
    at: u64,
    page: &mut [u8],
    steps: &mut Steps<L>,
) -> Result<(), TreeFault<P::Fault>>
    requires at { IsChild (P.size pages.old) at }
    requires page { length page.old ≡ 1024 }
    ensures read { OnOk result (IfSome (P.told pages.old) (λ b. page.new ≡ page_in b at)) }
    ensures last { OnOk result (P.last pages.new ≡ at) }
    ensures length { length page.new ≡ 1024 }
    ensures told { P.told pages.new ≡ P.told pages.old }
    ensures size { P.size pages.new ≡ P.size pages.old }
    ensures failed { IfErr result (IsFailed (P.is_cause pages.old pages.new)) }
    ensures kept { Kept (P.counts pages.old) (P.counts pages.new) (P.frame pages.old) (P.frame pages.new) (P.goes_on pages.old pages.new) }
{
    match pages.get(at, page, steps) {
        Ok(()) => Ok(()),
        Err(fault) => Err(TreeFault::Pages(fault)),
    }
}

/// Frees a fragment of the page at a place, whose bytes are given. Where no other fragment there is in use, the page goes
/// to the free list.
pub fn vacate<P: Pages, L: Ledger>(
    pages: &mut P,
    kind: KeyKind,
    at: u64,
    index: u64,
    page: &mut [u8],
    steps: &mut Steps<L>,
) -> Result<(), TreeFault<P::Fault>>
    requires kind { IsTreeKind kind }
    requires at { IsChild (P.size pages.old) at }
    requires index { index < 16 }
    requires page { length page.old ≡ 1024 }
    ensures vacated { OnOk result ((b : List ℕ) → P.told pages.old ≡ Some b → page.old ≡ page_in b at → (c : List ℕ) × (P.told pages.new ≡ Some c) × IsVacated b c at index) }
    ensures size { OnOk result (P.size pages.new ≡ P.size pages.old) }
    ensures refused { IfErr result (IsRefused kind (P.told pages.new) (P.is_cause pages.old pages.new)) }
    ensures just_read { IfErr result (IsJustRead (P.size pages.new) (P.last pages.new)) }
    ensures spared { (b reached : List ℕ) (t : Shape) (fs : List ℕ) → P.told pages.old ≡ Some b → IsTree kind b reached t fs → IfErr result IsOfPages }
    ensures kept { Kept (P.counts pages.old) (P.counts pages.new) (P.frame pages.old) (P.frame pages.new) (P.goes_on pages.old pages.new) }
{
    put_number(page, 64 * index as usize, 0);
    if is_unused(page) {
        let header = match read_header(pages, kind, steps) {
            Ok(header) => header,
            Err(fault) => return Err(fault),
        };
        match give_back(pages, header, at) {
            Ok(_) => Ok(()),
            Err(fault) => Err(fault),
        }
    } else {
        match write_page(pages, at, page) {
            Ok(()) => Ok(()),
            Err(fault) => Err(fault),
        }
    }
}
