// Reads and writes the leaf beside another, where there is one.
ghost use Rattle.std.specs.Prelude.{◌≡◌, ◌≢◌, ◌≤◌, ◌+◌, length, OnOk, IfErr, IfSome};
ghost use Rattle.bfs_node.specs.Keys.{IsTreeKind};
ghost use Rattle.bfs_node.specs.Page.{IsPage};
ghost use Rattle.bfs_node.specs.declared.fault.PageKind.TheVariants.{Leaf};
ghost use Rattle.bfs_pages.specs.Answers.{IsLink, IsLeafPage, IsUnread, IsJustRead, IsAt};
ghost use Rattle.bfs_pages.specs.Trees.{page_in};
ghost use Rattle.bfs_pages.specs.Writes.{Makes, BesideSet, Kept, IsFailed};

use crate::read::read_leaf;
use crate::write::write_page;
use bfs_node::{KeyKind, TreeFault};
use bfs_txn::{Pages, Steps};
use std::sync::ledger::Ledger;

/// Reads the leaf beside another, where there is one.
pub fn read_beside<P: Pages, L: Ledger>(
    pages: &mut P,
    kind: KeyKind,
    at: u64,
    page: &mut [u8],
    steps: &mut Steps<L>,
) -> Result<(), TreeFault<P::Fault>>
    requires kind { IsTreeKind kind }
    requires at { IsLink (P.size pages.old) at }
    requires page { length page.old ≡ 1024 }
    ensures page { OnOk result (at ≢ 0 → IsPage kind page.new) }
    ensures leaf { OnOk result (at ≢ 0 → IsLeafPage kind (P.size pages.old) page.new) }
    ensures read { OnOk result (at ≢ 0 → IfSome (P.told pages.old) (λ b. page.new ≡ page_in b at)) }
    ensures length { length page.new ≡ 1024 }
    ensures refused { IfErr result (IsUnread kind (P.told pages.new) (P.is_cause pages.old pages.new)) }
    ensures just_read { IfErr result (IsJustRead (P.size pages.new) (P.last pages.new)) }
    ensures at { IfErr result (IsAt at Leaf) }
    ensures some { IfErr result (λ fault. at ≢ 0) }
    ensures steps { steps.new ≤ steps.old + 1 }
    ensures told { P.told pages.new ≡ P.told pages.old }
    ensures size { P.size pages.new ≡ P.size pages.old }
    ensures kept { Kept (P.counts pages.old) (P.counts pages.new) (P.frame pages.old) (P.frame pages.new) (P.goes_on pages.old pages.new) }
    ensures is_read { P.is_read pages.old pages.new }
{
    if at == 0 {
        Ok(())
    } else {
        match read_leaf(pages, kind, at, page, steps) {
            Ok(()) => Ok(()),
            Err(fault) => Err(fault),
        }
    }
}

/// Writes the page beside, where there is one.
pub fn write_beside<P: Pages>(
    pages: &mut P,
    at: u64,
    page: &[u8],
) -> Result<(), TreeFault<P::Fault>>
    requires at { IsLink (P.size pages.old) at }
    requires page { length page.now ≡ 1024 }
    ensures made { OnOk result (Makes (P.told pages.old) (P.told pages.new) (λ b c. BesideSet b c at page.now)) }
    ensures size { OnOk result (P.size pages.new ≡ P.size pages.old) }
    ensures failed { IfErr result (IsFailed (P.is_cause pages.old pages.new)) }
    ensures kept { Kept (P.counts pages.old) (P.counts pages.new) (P.frame pages.old) (P.frame pages.new) (P.goes_on pages.old pages.new) }
{
    if at == 0 {
        Ok(())
    } else {
        match write_page(pages, at, page) {
            Ok(()) => Ok(()),
            Err(fault) => Err(fault),
        }
    }
}
