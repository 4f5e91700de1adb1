// Numbers of which none stands twice.
ghost use Rattle.std.specs.Prelude.{◌≡◌};
ghost use Rattle.bfs_values.specs.Values.{is_ascending};

/// Is each number less than the next?
pub fn rises(numbers: &[u64]) -> bool
    ensures { result ≡ is_ascending numbers.now }
{
    let mut i = 0;
    while i + 1 < numbers.len() {
        if numbers[i] >= numbers[i + 1] {
            return false;
        }
        i += 1;
    }
    true
}
