// How many free runs are lost, and how many blocks of the bitmap change.
ghost use Rattle.std.specs.Prelude.{◌≡◌, ◌≤◌, ◌+◌, ◌/◌, ◌↔◌, ℕ, List, length, Option, All, true};
ghost use Rattle.bfs_bitmap.specs.Runs.{Room, IsFreeRun, AreFrom, free_count, is_free, per_block};
ghost use Rattle.bfs_bitmap.specs.Fills.{HasBitOf, bits_of};
ghost use Rattle.bfs_base.specs.Lists.{Has};

/// Where no free run of so many blocks is left and nothing new is free, at most as many such runs, one behind another,
/// were there as blocks are free no more: each of them had one of these.
pub fn few_runs_are_lost()
    ensures { (v now : Room) (m map : ℕ → Option (List ℕ)) (len : ℕ) (gs : List ℕ) → 1 ≤ len → now.group_blocks ≡ v.group_blocks → ((k : ℕ) → is_free now map k ≡ true → is_free v m k ≡ true) → ((g : ℕ) → ¬ IsFreeRun now map g len) → AreFrom len 0 gs → All (λ g. IsFreeRun v m g len) gs → length gs + free_count now map v.blocks ≤ free_count v m v.blocks }
{}

/// The blocks of the bitmap that have a bit of a run are those of a list, which is no longer than the run's blocks ask for
/// and two.
pub fn few_bits_change()
    ensures bits { (v : Room) (first len k : ℕ) → HasBitOf v first len k ↔ Has (bits_of v first len) k }
    ensures few { (v : Room) (first len : ℕ) → length (bits_of v first len) ≤ len / per_block v + 2 }
{}
