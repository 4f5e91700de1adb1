// Other streams stay where pages of one are written and added.
ghost use Rattle.std.specs.Prelude.{ℕ, List, [], Option};
ghost use Rattle.bfs_bitmap.specs.Runs.{Room};
ghost use Rattle.bfs_stream.specs.Sizes.{Origin};
ghost use Rattle.bfs_stream.specs.Grown.{Owns, AreApart, HasStayed};
ghost use Rattle.bfs_stream_pages.specs.Moves.{Moved};

/// Writing and adding pages of a stream leaves each other stream of the volume, with which it has no block in common, as it was.
pub fn others_stay()
    ensures { (o p : Origin) (v now : Room) (m map : ℕ → Option (List ℕ)) → Moved o v now m map → Owns p v [] m → AreApart o p m → HasStayed o p now m map }
{}
