// Looks a number up in a chain of duplicate pages.
ghost use Rattle.std.specs.Prelude.{◌≡◌, ◌≢◌, ◌⊎◌, ◌≤◌, ◌<◌, ℕ, List, Some, length, IfOk, IfErr, IfSome, MatchResult, MatchOption};
ghost use Rattle.bfs_base.specs.Lists.{times};
ghost use Rattle.bfs_pages.specs.Answers.{IsChild, IsOfPages, IsJustRead};
ghost use Rattle.bfs_pages.specs.Trees.{page_in};
ghost use Rattle.bfs_pages.specs.Writes.{Kept};
ghost use Rattle.bfs_values.specs.Kinds.{IsCut};
ghost use Rattle.bfs_values.specs.Values.{IsDuplicates, page_count, page_numbers, AreDuplicates, numbers_of_pages};
ghost use Rattle.bfs_values.specs.Chained.{Chained};
ghost use Rattle.bfs_dups_add.specs.Rooms.{IsRoom};

use bfs_dups::look_at;
use bfs_node::{KeyKind, PageKind, TreeFault};
use bfs_txn::{Pages, Steps};
use std::sync::ledger::Ledger;

/// The first page of a chain that has room for a number, or 0 for none, and its last page.
#[derive(Clone, Copy, Debug, PartialEq, Eq)]
pub struct Room {
    pub at: u64,
    pub last: u64,
}

/// Which page has room for a number: the one that was told before, or else this one, if it has, whose bytes are kept then.
fn note_room(room: u64, at: u64, count: usize, page: &[u8], roomy: &mut [u8]) -> u64
    requires page { length page.now ≡ 1024 }
    requires roomy { length roomy.old ≡ 1024 }
    ensures noted { ((result ≡ room) × (roomy.new ≡ roomy.old)) ⊎ ((result ≡ at) × (count < 125) × (roomy.new ≡ page.now)) }
    ensures length { length roomy.new ≡ 1024 }
{
    if room == 0 && count < 125 {
        roomy.copy_from_slice(page);
        at
    } else {
        room
    }
}

/// Looks a number up in the chain from a page on. Where it isn't there, the answer is the first page with room for it, whose
/// bytes are given, and the last page, whose bytes are given too.
pub fn scan_chain<P: Pages, L: Ledger>(
    pages: &mut P,
    kind: KeyKind,
    first: u64,
    number: u64,
    roomy: &mut [u8],
    last: &mut [u8],
    steps: &mut Steps<L>,
) -> Result<Option<Room>, TreeFault<P::Fault>>
    requires first { IsChild (P.size pages.old) first }
    requires roomy { length roomy.old ≡ 1024 }
    requires last { length last.old ≡ 1024 }
    ensures found { (b xs : List ℕ) → P.told pages.old ≡ Some b → Chained b first xs → AreDuplicates b xs → MatchResult result (λ o. MatchOption o (1 ≤ times number (numbers_of_pages b xs)) (λ room. (times number (numbers_of_pages b xs) ≡ 0) × IsRoom b xs room)) IsOfPages }
    ensures last { IfOk result (λ o. IfSome o (λ room. IsChild (P.size pages.old) room.last × IsDuplicates last.new × IfSome (P.told pages.old) (λ b. last.new ≡ page_in b room.last))) }
    ensures roomy { IfOk result (λ o. IfSome o (λ room. room.at ≢ 0 → IsChild (P.size pages.old) room.at × IsDuplicates roomy.new × (page_count roomy.new < 125) × (times number (page_numbers roomy.new) ≡ 0) × IfSome (P.told pages.old) (λ b. roomy.new ≡ page_in b room.at))) }
    ensures roomy_length { length roomy.new ≡ 1024 }
    ensures last_length { length last.new ≡ 1024 }
    ensures refused { IfErr result (IsCut kind (P.told pages.new) (P.is_cause pages.old pages.new)) }
    ensures just_read { IfErr result (IsJustRead (P.size pages.new) (P.last pages.new)) }
    ensures told { P.told pages.new ≡ P.told pages.old }
    ensures size { P.size pages.new ≡ P.size pages.old }
    ensures kept { Kept (P.counts pages.old) (P.counts pages.new) (P.frame pages.old) (P.frame pages.new) (P.goes_on pages.old pages.new) }
{
    let mut at = first;
    let mut left = pages.length() / 1024;
    let mut room = 0u64;
    loop {
        let seen = match look_at(pages, kind, at, number, last, steps) {
            Ok(seen) => seen,
            Err(fault) => return Err(fault),
        };
        if seen.there {
            return Ok(None);
        }
        room = note_room(room, at, seen.count, last, roomy);
        if seen.next == 0 {
            return Ok(Some(Room { at: room, last: at }));
        }
        if left == 1 {
            return Err(TreeFault::Damaged {
                page: at,
                kind: PageKind::Duplicates,
            });
        }
        at = seen.next;
        left -= 1;
    }
}
