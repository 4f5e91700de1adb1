// Holds the rows of an index against the pairs that are wanted, while its tree is walked.
ghost use Rattle.std.specs.Prelude.{◌≡◌, ◌<◌, ◌++◌, List, map, drop, length, true, IfSome};
ghost use Rattle.bfs_index_check.specs.Compared.{Pair as Kept, pairs_of, AreMet, IsNext};

use bfs_index::Pair;
use bfs_index_walk::RowSink;
use bfs_range::Numbers;
use std::alloc::{AllocError, Global};

/// Is the pair that is wanted at a place this one?
fn is_next(wanted: &[Pair], at: usize, key: &[u8], id: u64) -> bool
    ensures inside { result ≡ true → at < length wanted.now }
    ensures next { result ≡ true → IsNext (drop at (pairs_of wanted.now)) (key.now, id) }
{
    if at >= wanted.len() {
        return false;
    }
    let pair = &wanted[at];
    pair.id == id && pair.key.as_slice() == key
}

/// The place behind the pairs of a key, where they are those that are wanted from a place on.
fn place_behind(wanted: &[Pair], from: usize, key: &[u8], numbers: &[u64]) -> Option<usize>
    ensures { (met : List Kept) → AreMet (pairs_of wanted.now) from met → IfSome result (λ to. AreMet (pairs_of wanted.now) to (met ++ map (λ n. (key.now, n)) numbers.now)) }
{
    let mut at = from;
    for i in 0..numbers.len() {
        let id = numbers[i];
        if !is_next(wanted, at, key, id) {
            return None;
        }
        at += 1;
    }
    Some(at)
}

/// Tells whether rows have the pairs that are wanted, and no others. Keeps none of them.
#[derive(Drop)]
pub(crate) struct SamePairs<'a> {
    wanted: &'a [Pair],
    /// How many pairs were met.
    at: usize,
    /// Was each of them the one that was wanted?
    same: bool,
}

impl<'a> SamePairs<'a> {
    /// Before the first row.
    pub(crate) fn new(wanted: &'a [Pair]) -> SamePairs<'a>
        ensures wanted { result.wanted.now ≡ wanted.now }
        ensures at { result.at ≡ 0 }
    {
        SamePairs {
            wanted,
            at: 0,
            same: true,
        }
    }

    /// Were all pairs met that are wanted, and no others?
    pub(crate) fn are_all(&self) -> bool
        ensures same { result ≡ true → self.now.same ≡ true }
        ensures all { result ≡ true → self.now.at ≡ length self.now.wanted.now }
    {
        self.same && self.at == self.wanted.len()
    }
}

impl RowSink for SamePairs<'_> {
    ghost use Rattle.std.specs.Prelude.{◌≡◌, refl};
    ghost use Rattle.bfs_index_check.specs.Compared.{pairs_of};
    ghost use Rattle.bfs_indices_check.specs.Same.{AreSame, none_met};

    ghost took = { λ s t rows. (t.wanted.now ≡ s.wanted.now) × (s.at ≡ 0 → AreSame (pairs_of t.wanted.now) t.at t.same rows) };

    ghost took_none = { λ s. (refl, λ begin same. none_met (pairs_of s.wanted.now) s.at begin) };

    fn take(&mut self, alloc: Global, key: &[u8], numbers: Numbers) -> Result<(), AllocError> {
        let _ = alloc;
        if !self.same {
            return Ok(());
        }
        match place_behind(self.wanted, self.at, key, numbers.as_slice()) {
            Some(to) => {
                self.at = to;
                Ok(())
            }
            None => {
                self.same = false;
                Ok(())
            }
        }
    }
}
