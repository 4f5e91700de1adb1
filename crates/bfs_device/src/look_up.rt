// How a block is found in a group. Groups whose blocks ascend are searched by halves, any other from its end.
ghost use Rattle.std.specs.Prelude.{◌≡◌, ◌≤◌, ◌<◌, ◌+◌, ℕ, List, length, Option, Some, None, MatchOption, IsTrue};
ghost use Rattle.bfs_txn.specs.Changed.{Ascends, newest};

use bfs_txn::Changed;

/// Do the blocks ascend? `Changed` keeps them so outside of an overlay.
pub fn does_ascend(blocks: &Changed) -> bool
    ensures { IsTrue result → Ascends blocks.now }
{
    for i in 1..blocks.len() {
        if blocks.block(i - 1) >= blocks.block(i) {
            return false;
        }
    }
    true
}

// The newest bytes of a block in any list.
fn find_from_end(blocks: &Changed, block: u64) -> Option<&[u8]>
    ensures { MatchOption result (newest blocks.now block ≡ None) (λ r. newest blocks.now block ≡ Some r.now) }
{
    let mut i = blocks.len();
    while i > 0 {
        i -= 1;
        if blocks.block(i) == block {
            return Some(blocks.bytes(i));
        }
    }
    None
}

/// The bytes of a block in a group, which may be known to ascend.
pub fn find_in(blocks: &Changed, block: u64, ordered: bool) -> Option<&[u8]>
    requires { IsTrue ordered → Ascends blocks.now }
    ensures { MatchOption result (newest blocks.now block ≡ None) (λ r. newest blocks.now block ≡ Some r.now) }
{
    if ordered {
        blocks.find(block)
    } else {
        find_from_end(blocks, block)
    }
}
