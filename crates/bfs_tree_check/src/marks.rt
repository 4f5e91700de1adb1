// Which pages of a stream were met: one mark a page.
ghost use Rattle.std.specs.Prelude.{◌≡◌, ◌≢◌, ◌≤◌, ◌+◌, ◌++◌, ◌/◌, ◌%◌, ℕ, [], ◌∷◌, length, replicate, true, false, OnOk, IfOk};
ghost use Rattle.bfs_base.specs.Lists.{times};
ghost use Rattle.bfs_pages.specs.Answers.{IsChild};
ghost use Rattle.bfs_pages.specs.Trees.{held};
ghost use Rattle.bfs_tree_check.specs.Marked.{marked};

use std::alloc::{AllocError, Global};

/// Marks a page of a stream with so many bytes; false where it is marked already.
pub fn mark(marks: &mut [bool], at: u64, size: u64) -> bool
    requires at { IsChild size at }
    requires whole { size % 1024 ≡ 0 }
    requires length { length marks.old ≡ size / 1024 }
    ensures once { result ≡ true → (x : ℕ) → marked size marks.new x ≡ marked size marks.old x + times x (at ∷ []) }
    ensures twice { result ≡ false → marked size marks.old at ≡ 1 }
    ensures length { length marks.new ≡ length marks.old }
{
    let i = (at / 1024) as usize;
    if marks[i] {
        return false;
    }
    marks[i] = true;
    true
}

/// The first page without a mark, or the stream's size.
pub fn first_unmarked(marks: &[bool], size: u64) -> u64
    requires whole { size % 1024 ≡ 0 }
    requires length { length marks.now ≡ size / 1024 }
    ensures none { result ≡ size → (x : ℕ) → marked size marks.now x ≡ held size x }
    ensures some { result ≢ size → (held size result ≡ 1) × (marked size marks.now result ≡ 0) }
{
    for i in 0..marks.len() {
        if !marks[i] {
            return i as u64 * 1024;
        }
    }
    size
}

/// Appends so many marks that aren't set.
fn push_marks(marks: &mut Vec<bool>, count: u64) -> Result<(), AllocError>
    ensures { OnOk result (marks.new.items ≡ marks.old.items ++ replicate count false) }
{
    let mut left = count;
    while left > 0 {
        marks.push(false)?;
        left -= 1;
    }
    Ok(())
}

/// Marks for the pages of a stream with so many pages, of which the header alone is marked.
pub fn new_marks(alloc: Global, pages: u64) -> Result<Vec<bool>, AllocError>
    requires { 1 ≤ pages }
    ensures length { IfOk result (λ marks. length marks.items ≡ pages) }
    ensures header { (size : ℕ) → size % 1024 ≡ 0 → size / 1024 ≡ pages → IfOk result (λ marks. (x : ℕ) → marked size marks.items x ≡ times x (0 ∷ [])) }
{
    let mut marks = Vec::new(alloc);
    marks.push(true)?;
    match push_marks(&mut marks, pages - 1) {
        Ok(()) => Ok(marks),
        Err(fault) => Err(fault),
    }
}
