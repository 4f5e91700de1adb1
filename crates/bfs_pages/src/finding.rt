// Looks a key up in a tree.
ghost use Rattle.std.specs.Prelude.{◌≡◌, ◌≤◌, ◌<◌, ◌+◌, ℕ, List, Some, length, OnOk, IfOk, IfErr, IfSome, MatchResult};
ghost use Rattle.bfs_node.specs.Keys.{IsTreeKind};
ghost use Rattle.bfs_node.specs.Page.{IsPage};
ghost use Rattle.bfs_node.specs.Search.{IsSought};
ghost use Rattle.bfs_txn.specs.Faults.{AreLater};
ghost use Rattle.bfs_pages.specs.Answers.{IsChild, IsUnread, IsJustRead, IsBroken, IsOfPages, IsLeafPage, IsLeafFor, IsFound};
ghost use Rattle.bfs_pages.specs.Shapes.{Shape};
ghost use Rattle.bfs_pages.specs.Trees.{header_in, IsTree, page_in};

use crate::look::{child_for, look_up};
use crate::places::place;
use crate::read::{read_header, read_interior, read_leaf};
use bfs_node::{KeyKind, PAGE, TreeFault};
use bfs_txn::{Pages, Steps};
use std::sync::ledger::Ledger;

/// The value at a key, and the byte of the stream at which its leaf begins.
#[derive(Clone, Copy, Debug, PartialEq, Eq)]
pub struct Found {
    pub leaf: u64,
    pub value: i64,
}

/// Reads the leaf on the way of a key, and tells where it is.
pub fn leaf_for<P: Pages, L: Ledger>(
    pages: &mut P,
    kind: KeyKind,
    key: &[u8],
    page: &mut [u8],
    steps: &mut Steps<L>,
) -> Result<u64, TreeFault<P::Fault>>
    requires kind { IsTreeKind kind }
    requires key { IsSought kind key.now }
    requires page { length page.old ≡ 1024 }
    ensures page { OnOk result (IsPage kind page.new) }
    ensures length { length page.new ≡ 1024 }
    ensures place { IfOk result (IsChild (P.size pages.old)) }
    ensures fields { OnOk result (IsLeafPage kind (P.size pages.old) page.new) }
    ensures read { IfOk result (λ at. IfSome (P.told pages.old) (λ b. page.new ≡ page_in b at)) }
    ensures last { IfOk result (λ at. P.last pages.new ≡ at) }
    ensures bytes { OnOk result (P.page pages.new ≡ page.new) }
    ensures leaf { (b reached : List ℕ) (t : Shape) (fs : List ℕ) → P.told pages.old ≡ Some b → IsTree kind b reached t fs → MatchResult result (λ at. IsLeafFor kind b t key.now at page.new) IsOfPages }
    ensures refused { IfErr result (IsUnread kind (P.told pages.new) (P.is_cause pages.old pages.new)) }
    ensures just_read { IfErr result (IsJustRead (P.size pages.new) (P.last pages.new)) }
    ensures broken { IfErr result (IsBroken kind (P.size pages.new) (P.last pages.new) (P.page pages.new)) }
    ensures steps { (b : List ℕ) → P.told pages.old ≡ Some b → steps.new ≤ steps.old + (header_in b).levels + 1 }
    ensures told { P.told pages.new ≡ P.told pages.old }
    ensures size { P.size pages.new ≡ P.size pages.old }
    ensures counts { AreLater (P.counts pages.old) (P.counts pages.new) }
    ensures frame { P.frame pages.new ≡ P.frame pages.old }
    ensures goes_on { P.goes_on pages.old pages.new }
    ensures is_read { P.is_read pages.old pages.new }
{
    let header = match read_header(pages, kind, steps) {
        Ok(header) => header,
        Err(fault) => return Err(fault),
    };
    let mut at = place(header.root_pointer);
    let mut left = header.levels;
    while left > 1 {
        match read_interior(pages, kind, at, page, steps) {
            Ok(()) => {}
            Err(fault) => return Err(fault),
        }
        at = child_for(page, kind, key);
        left -= 1;
    }
    match read_leaf(pages, kind, at, page, steps) {
        Ok(()) => Ok(at),
        Err(fault) => Err(fault),
    }
}

/// The value at a key, or None where the key isn't there. Reads at most one page more than the tree has levels.
pub fn find<P: Pages, L: Ledger>(
    pages: &mut P,
    kind: KeyKind,
    key: &[u8],
    steps: &mut Steps<L>,
) -> Result<Option<Found>, TreeFault<P::Fault>>
    requires kind { IsTreeKind kind }
    requires key { IsSought kind key.now }
    ensures found { (b reached : List ℕ) (t : Shape) (fs : List ℕ) → P.told pages.old ≡ Some b → IsTree kind b reached t fs → MatchResult result (IsFound kind b t key.now) IsOfPages }
    ensures last { IfOk result (λ o. IfSome o (λ f. P.last pages.new ≡ f.leaf)) }
    ensures refused { IfErr result (IsUnread kind (P.told pages.new) (P.is_cause pages.old pages.new)) }
    ensures just_read { IfErr result (IsJustRead (P.size pages.new) (P.last pages.new)) }
    ensures broken { IfErr result (IsBroken kind (P.size pages.new) (P.last pages.new) (P.page pages.new)) }
    ensures steps { (b : List ℕ) → P.told pages.old ≡ Some b → steps.new ≤ steps.old + (header_in b).levels + 1 }
    ensures told { P.told pages.new ≡ P.told pages.old }
    ensures size { P.size pages.new ≡ P.size pages.old }
    ensures counts { AreLater (P.counts pages.old) (P.counts pages.new) }
    ensures frame { P.frame pages.new ≡ P.frame pages.old }
    ensures goes_on { P.goes_on pages.old pages.new }
    ensures is_read { P.is_read pages.old pages.new }
{
    let mut page = [0u8; PAGE];
    match leaf_for(pages, kind, key, &mut page, steps) {
        Ok(leaf) => match look_up(&page, kind, key) {
            Some(value) => Ok(Some(Found { leaf, value })),
            None => Ok(None),
        },
        Err(fault) => Err(fault),
    }
}
