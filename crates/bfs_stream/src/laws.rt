// What a stream is made of stays where its blocks do.
ghost use Rattle.std.specs.Prelude.{◌≡◌, ◌<◌, ℕ, List, [], ◌∷◌, length, Bool, Option};
ghost use Rattle.bfs_base.specs.Lists.{Agree};
ghost use Rattle.bfs_bitmap.specs.Runs.{Room};
ghost use Rattle.bfs_inode.specs.Inode.{stream_at};
ghost use Rattle.bfs_stream.specs.Sizes.{Sizes, Origin};
ghost use Rattle.bfs_stream.specs.Places.{levels_at, places_at, arrays_at, frame_at, whole_at, bytes_at};
ghost use Rattle.bfs_stream.specs.Grown.{Owns, Grown, AreApart, HasStayed};
ghost use Rattle.bfs_stream.specs.Trimmed.{Trimmed, HasTrimmedTo};
ghost use Rattle.bfs_stream.specs.Told.{contents};

/// Where two volumes agree at the inode and the array blocks of a stream, its levels are the same, and so are its blocks,
/// its array blocks and whether it keeps the format. It is enough that they agree at the array blocks and at the stream's
/// fields in the inode, whatever else the inode has. Where they agree at all of its blocks, its bytes are the same.
pub fn streams_stay()
    ensures levels { (s : Sizes) (old new : ℕ → List ℕ) (id : ℕ) → Agree old new (frame_at s old id) → levels_at s new id ≡ levels_at s old id }
    ensures fields { (s : Sizes) (old new : ℕ → List ℕ) (id : ℕ) → Agree old new (arrays_at s old id) → stream_at (new id) ≡ stream_at (old id) → levels_at s new id ≡ levels_at s old id }
    ensures bytes { (s : Sizes) (old new : ℕ → List ℕ) (id : ℕ) → Agree old new (whole_at s old id) → bytes_at s new id ≡ bytes_at s old id }
{}

/// A stream that grows leaves each other stream of the volume, with which it has no block in common, as it was.
pub fn others_stay()
    ensures { (o p : Origin) (v now : Room) (m : ℕ → Option (List ℕ)) (fresh : List ℕ) (told : Option (ℕ → Option (List ℕ))) (old new : ℕ → Bool) (grown : Grown o v now m fresh told old new) → now ≡ record v { tally = now.tally } → Owns p v [] m → AreApart o p m → HasStayed o p now m grown.map }
{}

/// So does a stream that is cut.
pub fn others_stay_cut()
    ensures { (o p : Origin) (v now : Room) (m : ℕ → Option (List ℕ)) (gone : List ℕ) (told : Option (ℕ → Option (List ℕ))) (old new : ℕ → Bool) (trimmed : Trimmed o v now m gone told old new) → now ≡ record v { given = now.given; tally = now.tally } → Owns p v [] m → AreApart o p m → HasStayed o p now m trimmed.map }
{}

/// A stream that was cut to nothing has its inode alone, and no arrays: so the inode is all that the cut wrote beside bits of
/// the bitmap.
pub fn emptied_streams()
    ensures { (o : Origin) (v now : Room) (m : ℕ → Option (List ℕ)) (told : Option (ℕ → Option (List ℕ))) (old new : ℕ → Bool) (to : HasTrimmedTo o v now m 0 told old new) → 0 < length (places_at o.sizes (contents m) o.id) → frame_at o.sizes (contents to.trimmed.map) o.id ≡ o.id ∷ [] }
{}
