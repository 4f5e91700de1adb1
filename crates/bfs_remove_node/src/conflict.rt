// The holds that keep a node from being removed.
ghost use Rattle.std.specs.Prelude.{◌≡◌, None, Some, true, IfSome, MatchOption};
ghost use Rattle.bfs_calls.specs.Refusals.{is_own};
ghost use Rattle.bfs_tree.specs.Refusals.{first, held};
ghost use Rattle.bfs_tree.specs.States.{conflict};

use bfs_tree::{Hold, Reply};

/// The first hold on a node that is in conflict with a call that takes the node: each is.
fn conflict_at(holds: &[Hold], id: u64) -> Option<Hold>
    ensures { MatchOption result (conflict holds.now id true ≡ None) (λ h. conflict holds.now id true ≡ Some h) }
{
    for i in 0..holds.len() {
        let hold = holds[i];
        if hold.id == id {
            return Some(hold);
        }
    }
    None
}

/// The refusal of a call that takes a node by a hold that is in conflict.
pub fn held_by(holds: &[Hold], id: u64) -> Option<Reply>
    ensures reply { result ≡ first (held (conflict holds.now id true)) }
    ensures own { IfSome result (λ reply. is_own reply ≡ true) }
{
    match conflict_at(holds, id) {
        None => None,
        Some(hold) => Some(Reply::Held {
            session: hold.session,
        }),
    }
}
