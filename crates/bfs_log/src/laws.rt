// What replay gives, by its definition.
ghost use Rattle.std.specs.Prelude.{◌≡◌, ◌≢◌, ◌≤◌, ◌<◌, ◌*◌, ◌+◌, ℕ, List, [], ◌∷◌, ◌++◌, length, get_or};
ghost use Rattle.bfs_base.specs.Images.{sector, block, IsBytes};
ghost use Rattle.bfs_base.specs.Lists.{times};
ghost use Rattle.bfs_super.specs.declared.geometry.Geometry.{Geometry};
ghost use Rattle.bfs_super.specs.Layout.{sector_of};
ghost use Rattle.bfs_log.specs.declared.entry.EntryFault.{EntryFault};
ghost use Rattle.bfs_log.specs.Ring.{next_place, in_use};
ghost use Rattle.bfs_log.specs.Entry.{IsEntry, IsFault};
ghost use Rattle.bfs_log.specs.Replay.{Home, Valid, Replayed, Malformed, AgreeBut, Logs, Fails, super_of, block_sectors, blocks_of, log_from, log_to, logged, homes_from, homes_at, homes_of, home_places, place_in, over, emptied};
ghost use Rattle.bfs_log.specs.Walk.{Reaches, homes_with};

/// Replay of an image gives one image, or it finds one fault, and never both. Where the log is empty it
/// gives the image itself.
pub fn replay_gives_one()
    ensures one { (image a b : List ℕ) → Replayed image a → Replayed image b → a ≡ b }
    ensures empty { (image : List ℕ) → Valid image → log_from (super_of image) ≡ log_to (super_of image) → Replayed image image }
    ensures fault { (image : List ℕ) (a b : EntryFault) → Malformed image a → Malformed image b → a ≡ b }
    ensures sound { (image result : List ℕ) (fault : EntryFault) → Replayed image result → Malformed image fault → ⊥ }
{}

/// A replay that was stopped, with some of the blocks that entries name written in part or in whole, and
/// the superblock as it was, is replayed to the same image. So is any image that differs from the first
/// only in those blocks.
pub fn stopped_replay_goes_on()
    ensures { (image result other : List ℕ) (log : Replayed image result) → AgreeBut (block_sectors (super_of image)) (homes_of log.entries) image other → Replayed other result }
{}

/// What replay gives: the superblock's sector with an empty log and CLEN where the log isn't empty, each
/// block of the volume with the entries' bytes written over it in order, and nothing else.
pub fn replayed_image()
    ensures size { (image result : List ℕ) → Replayed image result → length result ≡ length image }
    ensures superblock { (image result : List ℕ) → Replayed image result → log_from (super_of image) ≢ log_to (super_of image) → sector 1 result ≡ sector_of (emptied (super_of image)) }
    ensures blocks { (image result : List ℕ) (log : Replayed image result) (b : ℕ) → 1 ≤ b
        → block (block_sectors (super_of image)) b result ≡ over (homes_of log.entries) (blocks_of image) b }
    // No other sector changes, in block 0 and past the volume's end too.
    ensures rest { (image result : List ℕ) (log : Replayed image result) (b j : ℕ) → j < block_sectors (super_of image) → times b (home_places (homes_of log.entries)) ≡ 0
        → block_sectors (super_of image) * b + j ≢ 1 → sector (block_sectors (super_of image) * b + j) result ≡ sector (block_sectors (super_of image) * b + j) image }
{}

/// The superblock that replay writes reads as the old one with an empty log and CLEN. So the image that
/// replay gives is one of the same volume, and is replayed to itself.
pub fn replayed_superblock()
    ensures superblock { (image result : List ℕ) → IsBytes (sector 1 image) → Replayed image result → log_from (super_of image) ≢ log_to (super_of image) → super_of result ≡ emptied (super_of image) }
    ensures valid { (image result : List ℕ) → IsBytes (sector 1 image) → Replayed image result → Valid result }
    ensures again { (image result : List ℕ) → IsBytes (sector 1 image) → Replayed image result → Replayed result result }
{}

/// A walk over the entries of a log, one after the other, as a reader of the log makes it.
pub fn walk_over_entries()
    ensures more { (g : Geometry) (f : ℕ → List ℕ) (end at stop : ℕ) (entries : List (List Home)) → Reaches g f end at stop entries → IsEntry (place_in g f stop end) (logged g f stop)
        → Reaches g f end at (next_place stop (1 + length (homes_at g f stop)) g.log.len) (entries ++ homes_at g f stop ∷ []) }
    ensures done { (g : Geometry) (f : ℕ → List ℕ) (end at : ℕ) (entries : List (List Home)) → Reaches g f end at end entries → Logs g f at end entries }
    ensures fault { (g : Geometry) (f : ℕ → List ℕ) (end at stop : ℕ) (entries : List (List Home)) (fault : EntryFault) → Reaches g f end at stop entries → stop ≢ end
        → IsFault (place_in g f stop end) (logged g f stop) fault → Fails g f at end entries fault }
    // So much less is in use behind a step.
    ensures left { (at end size length : ℕ) → at < length → end < length → size ≤ in_use at end length → in_use (next_place at size length) end length + size ≡ in_use at end length }
{}

/// Where the bytes for some blocks stand in the ring one after the other, an entry's homes are these blocks
/// with these bytes.
pub fn homes_stand_behind()
    ensures { (g : Geometry) (f : ℕ → List ℕ) (at : ℕ) (blocks : List ℕ) (bytes : List (List ℕ)) → at < g.log.len → length bytes ≡ length blocks → length blocks ≤ g.log.len
        → ((i : ℕ) → i < length blocks → logged g f (next_place at i g.log.len) ≡ get_or bytes i []) → homes_from g f at blocks ≡ homes_with blocks bytes }
{}
