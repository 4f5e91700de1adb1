// Pages of a tree's stream to which no link leads.
ghost use Rattle.std.specs.Prelude.{◌≡◌, ◌<◌, ◌/◌, ◌%◌, ℕ, length, pos, negsuc, OnOk, IfErr};
ghost use Rattle.bfs_pages.specs.Trees.{held};
ghost use Rattle.bfs_tree_check.specs.Marked.{marked};
ghost use Rattle.bfs_tree_walk.specs.Unmet.{IsUnmet};

use bfs_tree_check::first_unmarked;
use bfs_walk::TreeWrong;

/// Is each page of a stream with so many bytes marked?
pub fn check_met(marks: &[bool], size: u64) -> Result<(), TreeWrong>
    requires whole { size % 1024 ≡ 0 }
    requires length { length marks.now ≡ size / 1024 }
    requires small { size < 9223372036854775808 }
    ensures met { OnOk result ((x : ℕ) → marked size marks.now x ≡ held size x) }
    ensures unmet { IfErr result (IsUnmet size (marked size marks.now)) }
{
    let at = first_unmarked(marks, size);
    if at == size {
        return Ok(());
    }
    Err(lost(at))
}

/// No link leads to the page at a place.
fn lost(at: u64) -> TreeWrong
    requires { at < 9223372036854775808 }
    ensures { result ≡ TreeWrong.Link at (negsuc 0) (pos at) }
{
    TreeWrong::Link {
        page: at,
        found: -1,
        wanted: at as i64,
    }
}
