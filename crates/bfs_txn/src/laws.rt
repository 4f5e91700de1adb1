// How many blocks changed.
ghost use Rattle.std.specs.Prelude.{◌≤◌, ◌<◌, ℕ, List, length};
ghost use Rattle.bfs_base.specs.Lists.{Has};
ghost use Rattle.bfs_txn.specs.Changed.{Ascends, number_at};

/// Pairs whose numbers ascend and stand in a list are at most as many as the list is long.
pub fn pairs_are_few()
    ensures { (ps : List (ℕ × List ℕ)) (xs : List ℕ) → Ascends ps → ((i : ℕ) → i < length ps → Has xs (number_at ps i)) → length ps ≤ length xs }
{}
