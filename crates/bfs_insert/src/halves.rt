// Writes the two halves of a page, the one beside them, and the one above.
ghost use Rattle.std.specs.Prelude.{◌≡◌, ◌≤◌, length, OnOk, IfErr};
ghost use Rattle.bfs_pages.specs.Answers.{IsChild, IsLink};
ghost use Rattle.bfs_pages.specs.Writes.{Makes, BesideSet, Kept, IsFailed};
ghost use Rattle.bfs_insert.specs.Puts.{HalvesSet};

use bfs_node::TreeFault;
use bfs_pages::{write_beside, write_page};
use bfs_txn::Pages;

/// Where the pages of a split are: the one above, the one that is split, the new one to its right, and the one that
/// was to its right, or 0.
#[derive(Clone, Copy)]
pub struct Places {
    pub above: u64,
    pub below: u64,
    pub right: u64,
    pub next: u64,
}

/// Writes the page that is split, the new one, the one beside, and the one above.
pub fn write_halves<P: Pages>(
    pages: &mut P,
    places: Places,
    above: &[u8],
    below: &[u8],
    half: &[u8],
    beside: &[u8],
) -> Result<(), TreeFault<P::Fault>>
    requires above_at { IsChild (P.size pages.old) places.above }
    requires below_at { IsChild (P.size pages.old) places.below }
    requires right_at { IsChild (P.size pages.old) places.right }
    requires next_at { IsLink (P.size pages.old) places.next }
    requires above { length above.now ≡ 1024 }
    requires below { length below.now ≡ 1024 }
    requires half { length half.now ≡ 1024 }
    requires beside { length beside.now ≡ 1024 }
    ensures made { OnOk result (Makes (P.told pages.old) (P.told pages.new) (λ b c. HalvesSet b c places.above places.below places.right places.next above.now below.now half.now beside.now)) }
    ensures size { OnOk result (P.size pages.new ≡ P.size pages.old) }
    ensures failed { IfErr result (IsFailed (P.is_cause pages.old pages.new)) }
    ensures kept { Kept (P.counts pages.old) (P.counts pages.new) (P.frame pages.old) (P.frame pages.new) (P.goes_on pages.old pages.new) }
{
    match write_page(pages, places.below, below) {
        Ok(()) => {}
        Err(fault) => return Err(fault),
    }
    match write_page(pages, places.right, half) {
        Ok(()) => {}
        Err(fault) => return Err(fault),
    }
    match write_beside(pages, places.next, beside) {
        Ok(()) => {}
        Err(fault) => return Err(fault),
    }
    match write_page(pages, places.above, above) {
        Ok(()) => Ok(()),
        Err(fault) => Err(fault),
    }
}
