// Gives pages back to a tree's free list.
ghost use Rattle.std.specs.Prelude.{◌≡◌, ◌≤◌, ◌<◌, ◌+◌, ◌++◌, ℕ, pos, List, Some, length, OnOk, IfOk, IfErr, IfSome, MatchResult};
ghost use Rattle.bfs_base.specs.Keys.{IsTreeKind};
ghost use Rattle.bfs_pages.specs.Answers.{IsChild, IsHeaderFor, IsUnread, IsOfPages, IsJustRead};
ghost use Rattle.bfs_pages.specs.Shapes.{Shape};
ghost use Rattle.bfs_pages.specs.Trees.{header_in, state_of, Holds};
ghost use Rattle.bfs_pages.specs.Writes.{Makes, Kept, IsFailed, SamePages};
ghost use Rattle.bfs_remove.specs.Cuts.{InHand};
ghost use Rattle.bfs_remove.specs.Removed.{IsGiven, IsReleased};

use bfs_node::{
    Header, KeyKind, PAGE, TreeFault, blank, overflow_link, set_left_link, set_overflow_link,
};
use bfs_pages::txn::{Pages, Steps};
use bfs_pages::{place, read_interior, write_header, write_page};
use std::sync::ledger::Ledger;

/// Puts a page before the free list of this header, and tells the header since.
pub fn give_back<P: Pages>(
    pages: &mut P,
    header: Header,
    at: u64,
) -> Result<Header, TreeFault<P::Fault>>
    requires size { header.maximum_size ≡ pos (P.size pages.old) }
    requires at { IsChild (P.size pages.old) at }
    ensures header { IfOk result (λ h. h ≡ record header { free_pointer = pos at }) }
    ensures made { OnOk result (Makes (P.told pages.old) (P.told pages.new) (λ b c. IsGiven b c at header)) }
    ensures size { OnOk result (P.size pages.new ≡ P.size pages.old) }
    ensures failed { IfErr result (IsFailed (P.is_cause pages.old pages.new)) }
    ensures kept { Kept (P.counts pages.old) (P.counts pages.new) (P.frame pages.old) (P.frame pages.new) (P.goes_on pages.old pages.new) }
{
    let mut page = [0u8; PAGE];
    blank(&mut page);
    set_left_link(&mut page, header.free_pointer);
    set_overflow_link(&mut page, -2);
    match write_page(pages, at, &page) {
        Ok(()) => {}
        Err(fault) => return Err(fault),
    }
    let header = Header {
        free_pointer: at as i64,
        ..header
    };
    match write_header(pages, header) {
        Ok(()) => Ok(header),
        Err(fault) => Err(fault),
    }
}

/// Gives back a line of pages: so many interior pages with one child each, from this one on, and the leaf below them.
/// Tells the header since.
pub fn release<P: Pages, L: Ledger>(
    pages: &mut P,
    kind: KeyKind,
    header: Header,
    from: u64,
    below: u32,
    steps: &mut Steps<L>,
) -> Result<Header, TreeFault<P::Fault>>
    requires kind { IsTreeKind kind }
    requires header { IsHeaderFor kind (P.size pages.old) header }
    requires from { IsChild (P.size pages.old) from }
    ensures header { IfOk result (λ h. IsHeaderFor kind (P.size pages.new) h) }
    ensures levels { IfOk result (λ h. h.levels ≡ header.levels) }
    ensures released { (b reached : List ℕ) (t : Shape) (fs : List ℕ) (u : Shape) → P.told pages.old ≡ Some b → header ≡ header_in b → InHand kind (state_of kind b) reached from below t fs u → MatchResult result (λ h. (c : List ℕ) × (P.told pages.new ≡ Some c) × (h ≡ header_in c) × IsReleased kind b c reached t) IsOfPages }
    ensures size { OnOk result (P.size pages.new ≡ P.size pages.old) }
    ensures refused { IfErr result (IsUnread kind (P.told pages.new) (P.is_cause pages.old pages.new)) }
    ensures just_read { IfErr result (IsJustRead (P.size pages.new) (P.last pages.new)) }
    ensures steps { steps.new ≤ steps.old + below }
    ensures kept { Kept (P.counts pages.old) (P.counts pages.new) (P.frame pages.old) (P.frame pages.new) (P.goes_on pages.old pages.new) }
{
    let mut header = header;
    let mut at = from;
    let mut left = below;
    let mut page = [0u8; PAGE];
    while left > 0 {
        match read_interior(pages, kind, at, &mut page, steps) {
            Ok(()) => {}
            Err(fault) => return Err(fault),
        }
        match give_back(pages, header, at) {
            Ok(since) => header = since,
            Err(fault) => return Err(fault),
        }
        at = place(overflow_link(&page));
        left -= 1;
    }
    match give_back(pages, header, at) {
        Ok(since) => Ok(since),
        Err(fault) => Err(fault),
    }
}
