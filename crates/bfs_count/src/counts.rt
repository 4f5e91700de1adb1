// The number of nodes, call by call.
ghost use Rattle.std.specs.Prelude.{◌≡◌, ◌<◌, ◌-◌, ◌^◌, Bool};
ghost use Rattle.bfs_tree.specs.Trees.{Tree};
ghost use Rattle.bfs_count.specs.Counts.{has_place, stays_there, replaces, counted};

use bfs_tree::{Call, Reply};

/// How many nodes a tree has after a call, of so many before it.
pub fn counted(nodes: u64, call: &Call, reply: &Reply, replaced: bool) -> u64
    requires room { nodes < 2 ^ 64 - 1 }
    ensures value { result ≡ counted nodes call.now reply.now replaced }
{
    match call {
        Call::Make { .. } => match reply {
            Reply::Made { .. } => nodes + 1,
            _ => nodes,
        },
        Call::Remove { .. } => match reply {
            Reply::Done => nodes.saturating_sub(1),
            _ => nodes,
        },
        Call::Rename { .. } => match reply {
            Reply::Done => {
                if replaced {
                    nodes.saturating_sub(1)
                } else {
                    nodes
                }
            }
            _ => nodes,
        },
        _ => nodes,
    }
}

/// Does a Rename stay where it was?
fn stays_there(call: &Call) -> bool
    ensures value { result ≡ stays_there call.now }
{
    match call {
        Call::Rename {
            dir,
            name,
            to_dir,
            to_name,
        } => *dir == *to_dir && name.as_slice() == to_name.as_slice(),
        _ => false,
    }
}

/// Whether a call that is done takes the place of another node, where one is found at its new place or none.
pub fn replaces(call: &Call, found: bool) -> bool
    ensures value { (tree : Tree) → found ≡ has_place tree call.now → result ≡ replaces tree call.now }
{
    found && !stays_there(call)
}
