// The fragments of a page.
ghost use Rattle.std.specs.Prelude.{◌≡◌, ◌≤◌, ◌<◌, ℕ, length, true, false, MatchOption};
ghost use Rattle.bfs_values.specs.Values.{fragment_count};

use bfs_values::number_at;

/// The first free fragment of a page.
pub fn free_fragment(page: &[u8]) -> Option<u64>
    requires { length page.now ≡ 1024 }
    ensures { MatchOption result ((j : ℕ) → j < 16 → 1 ≤ fragment_count page.now j) (λ i. (i < 16) × (fragment_count page.now i ≡ 0)) }
{
    for i in 0..16u64 {
        if number_at(page, 64 * i as usize) == 0 {
            return Some(i);
        }
    }
    None
}

/// Whether all fragments of a page are free.
pub fn is_unused(page: &[u8]) -> bool
    requires { length page.now ≡ 1024 }
    ensures free { result ≡ true → (j : ℕ) → j < 16 → fragment_count page.now j ≡ 0 }
    ensures used { result ≡ false → (j : ℕ) × (j < 16) × (1 ≤ fragment_count page.now j) }
{
    for i in 0..16u64 {
        if number_at(page, 64 * i as usize) != 0 {
            return false;
        }
    }
    true
}
