// Claims blocks.
ghost use Rattle.std.specs.Prelude.{◌≡◌, ◌≤◌, ◌<◌, ◌+◌, ◌*◌, ◌++◌, ◌||◌, ℕ, [], List, length, replicate, true, false, OnOk, OnErr, IfOk, IfErr};
ghost use Rattle.bfs_base.specs.Lists.{counted_from, Has};
ghost use Rattle.bfs_bitmap.specs.Bits.{in_run};
ghost use Rattle.bfs_claims.specs.Claims.{is_claimed, AreClaimed, IsFirstClaimed};

use crate::bits::{bit_is_clear, first_set, set_bits};
use std::alloc::{AllocError, Global};
use std::marker::Model;

/// The blocks of a volume that are claimed, and how many there are.
#[derive(Drop)]
pub struct Claims {
    bits: Vec<u8>,
    blocks: u64,
    count: u64,
}

impl Model for Claims {
    ghost use Rattle.bfs_claims.specs.Claims.{Claimed, IsKept};

    ghost Value = { Claimed };

    ghost view = { λ c. record { bits = c.bits.items; blocks = c.blocks; count = c.count } };

    ghost invariant = { λ c. IsKept (record { bits = c.bits.items; blocks = c.blocks; count = c.count }) };
}

/// So many zeros.
fn zeros(alloc: Global, size: usize) -> Result<Vec<u8>, AllocError>
    ensures { IfOk result (λ v. v.items ≡ replicate size 0) }
{
    vec![in alloc; 0u8; size]
}

impl Claims {
    ghost use Rattle.bfs_claims.specs.Claims.{Claimed, IsKept};

    /// None of so many blocks is claimed.
    pub fn new(alloc: Global, blocks: u64) -> Result<Claims, AllocError>
        requires few { blocks ≤ 4194304 }
        ensures blocks { IfOk result (λ c. c.blocks ≡ blocks) }
        ensures none { IfOk result (λ c. (k : ℕ) → is_claimed c k ≡ false) }
        ensures claimed { IfOk result (λ c. AreClaimed c []) }
    {
        let size = ((blocks + 7) / 8) as usize;
        let bits = zeros(alloc, size)?;
        Ok(Claims {
            bits,
            blocks,
            count: 0,
        })
    }

    /// How many blocks can be claimed. No other is.
    pub fn blocks(&self) -> u64
        ensures value { result ≡ self.now.blocks }
        ensures inside { (k : ℕ) → is_claimed self.now k ≡ true → k < self.now.blocks }
        ensures few { result ≤ 4194304 }
    {
        self.blocks
    }

    /// How many blocks are claimed.
    pub fn count(&self) -> u64
        ensures value { result ≡ self.now.count }
        ensures number { (xs : List ℕ) → AreClaimed self.now xs → result ≡ length xs }
        ensures few { result ≤ self.now.blocks }
        ensures listed { (xs : List ℕ) × AreClaimed self.now xs }
    {
        self.count
    }

    /// A bit for each block, the lowest bit of a byte first.
    pub fn bits(&self) -> &[u8]
        ensures value { result.now ≡ self.now.bits }
        ensures long { self.now.blocks ≤ 8 * length result.now }
    {
        self.bits.as_slice()
    }

    /// Is the block claimed?
    pub fn is_claimed(&self, block: u64) -> bool
        requires { block < self.now.blocks }
        ensures { result ≡ is_claimed self.now block }
    {
        !bit_is_clear(&self.bits, block as usize)
    }

    /// Claims so many blocks from the first on, if none of them is claimed; else answers the first of them that is, and nothing
    /// changes.
    pub fn claim(&mut self, first: u64, len: u64) -> Result<(), u64>
        requires inside { first + len ≤ self.old.blocks }
        ensures claims { OnOk result ((k : ℕ) → is_claimed self.new k ≡ (is_claimed self.old k || in_run first len k)) }
        ensures apart { OnOk result ((k : ℕ) → first ≤ k → k < first + len → is_claimed self.old k ≡ false) }
        ensures count { OnOk result (self.new.count ≡ self.old.count + len) }
        ensures claimed { (xs : List ℕ) → AreClaimed self.old xs → OnOk result (AreClaimed self.new (xs ++ counted_from first len)) }
        ensures first { IfErr result (IsFirstClaimed self.old first len) }
        ensures twice { (xs : List ℕ) → AreClaimed self.old xs → IfErr result (λ at. Has xs at × Has (counted_from first len) at) }
        ensures kept { OnErr result (self.new ≡ self.old) }
        ensures blocks { self.new.blocks ≡ self.old.blocks }
    {
        let count = self.count + len;
        let from = first as usize;
        let to = (first + len) as usize;
        let at = first_set(&self.bits, from, to);
        if at < to {
            return Err(at as u64);
        }
        set_bits(&mut self.bits, from, to);
        self.count = count;
        Ok(())
    }
}
