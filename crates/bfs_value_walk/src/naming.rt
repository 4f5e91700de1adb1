// Which fragments values have named.
ghost use Rattle.std.specs.Prelude.{◌≡◌, ◌<◌, ◌+◌, ◌/◌, ◌%◌, ◌&&◌, ◌==◌, ℕ, length, replicate, true, false, IfOk, if◌then◌else◌};
ghost use Rattle.bfs_pages.specs.Answers.{IsChild};
ghost use Rattle.bfs_value_walk.specs.Named.{named, parted};

use crate::words::{has_bit, with_bit};
use std::alloc::{AllocError, Global};

/// Words for so many pages of a stream: no fragment is named.
pub fn new_names(alloc: Global, pages: usize) -> Result<Vec<u16>, AllocError>
    ensures { IfOk result (λ names. names.items ≡ replicate pages 0) }
{
    vec![in alloc; 0u16; pages]
}

/// Is one of a page's fragments named?
pub fn is_parted(names: &[u16], at: u64, size: u64) -> bool
    requires at { IsChild size at }
    requires whole { size % 1024 ≡ 0 }
    requires length { length names.now ≡ size / 1024 }
    ensures some { result ≡ true → parted size names.now at ≡ 1 }
    ensures none { result ≡ false → parted size names.now at ≡ 0 }
{
    names[(at / 1024) as usize] != 0
}

/// Names a fragment; false where it was named before.
pub fn name_fragment(names: &mut [u16], at: u64, index: usize, size: u64) -> bool
    requires at { IsChild size at }
    requires index { index < 16 }
    requires whole { size % 1024 ≡ 0 }
    requires length { length names.old ≡ size / 1024 }
    ensures once { result ≡ true → (x f : ℕ) → named size names.new x f ≡ named size names.old x f + (if (at == x) && (index == f) then 1 else 0) }
    ensures parts { result ≡ true → (x : ℕ) → parted size names.new x ≡ (if at == x then 1 else parted size names.old x) }
    ensures twice { result ≡ false → named size names.old at index ≡ 1 }
    ensures length { length names.new ≡ length names.old }
{
    let i = (at / 1024) as usize;
    let word = names[i];
    if has_bit(word, index) {
        return false;
    }
    names[i] = with_bit(word, index);
    true
}
