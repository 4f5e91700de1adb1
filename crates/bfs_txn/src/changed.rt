// Changed blocks.
ghost use Rattle.std.specs.Prelude.{◌≡◌, ◌≤◌, ◌<◌, ◌+◌, ◌-◌, ℕ, List, [], ◌∷◌, length, take, drop, OnOk, OnErr, IfOk, IfSome, Option, Some, None, MatchOption, MatchResult, IsTrue, if◌then◌else◌};
ghost use Rattle.std.specs.Prelude.{◌↔◌, ◌==◌, slice_set, slice_index_or, insert};
ghost use Rattle.std.specs.List.Sorted.{IsPermutation};
ghost use Rattle.bfs_txn.specs.Changed.{newest, number_at, bytes_at, Ascends, AscendsIn, AreOfSize, AreLayered, IsAt, IsGap};
ghost use Rattle.bfs_txn.specs.Merging.{AreSettled, AreApart, IsParted, IsCut};

use std::alloc::{AllocError, Global};
use std::marker::Model;

/// One changed block.
#[derive(Drop)]
struct Block {
    number: u64,
    bytes: Vec<u8>,
}

impl Model for Block {
    ghost use Rattle.std.specs.Prelude.{ℕ, List};

    ghost Value = { ℕ × List ℕ };

    ghost view = { λ b. (b.number, b.bytes.items) };
}

/// How many places are noted.
const NOTED: usize = 128;

/// Changed blocks, as a list of pairs: a block's number and its bytes. Outside of an overlay the numbers ascend, so
/// each block stands there once, and a look-up takes as many steps as the length has binary digits; one of a block
/// that was looked for a short time ago takes a single step, whether it stands there or not.
#[derive(Drop)]
pub struct Changed {
    alloc: Global,
    blocks: Vec<Block>,
    /// Where blocks stood when they were last looked for, or would have, by the low bits of their numbers. A place that
    /// isn't a block's by now is passed over.
    hints: [usize; NOTED],
}

impl Model for Changed {
    ghost use Rattle.std.specs.Prelude.{ℕ, List};

    ghost Value = { List (ℕ × List ℕ) };

    ghost view = { λ c. c.blocks.items };
}

impl Changed {
    /// No blocks. Takes no memory.
    pub fn new(alloc: Global) -> Changed
        ensures { result ≡ [] }
    {
        Changed {
            alloc,
            blocks: Vec::new(alloc),
            hints: [0; NOTED],
        }
    }

    /// The number of pairs.
    pub fn len(&self) -> usize
        ensures { result ≡ length self.now }
    {
        self.blocks.len()
    }

    pub fn is_empty(&self) -> bool
        ensures { IsTrue result ↔ (self.now ≡ []) }
    {
        self.blocks.is_empty()
    }

    /// The block of the pair at a place.
    pub fn block(&self, i: usize) -> u64
        requires { i < length self.now }
        ensures { result ≡ number_at self.now i }
    {
        self.blocks[i].number
    }

    /// The bytes of the pair at a place.
    pub fn bytes(&self, i: usize) -> &[u8]
        requires { i < length self.now }
        ensures { result.now ≡ bytes_at self.now i }
    {
        self.blocks[i].bytes.as_slice()
    }

    /// The bytes of a block.
    pub fn find(&self, block: u64) -> Option<&[u8]>
        requires { Ascends self.now }
        ensures { MatchOption result (newest self.now block ≡ None) (λ r. newest self.now block ≡ Some r.now) }
    {
        match self.place_of(0, block) {
            Ok(i) => Some(self.bytes(i)),
            Err(_) => None,
        }
    }
}

// What an overlay does with a list whose pairs from a mark on are those of its call.
impl Changed {
    /// Where the newest bytes of a block stand. That is noted, or where the block would stand among the kept pairs.
    pub(crate) fn place_above(&mut self, mark: usize, block: u64) -> Option<usize>
        requires within { mark ≤ length self.old }
        requires kept { AscendsIn self.old 0 mark }
        requires own { AscendsIn self.old mark (length self.old) }
        ensures same { self.new ≡ self.old }
        ensures inside { IfSome result (λ i. i < length self.old) }
        ensures place { MatchOption result (newest self.old block ≡ None) (λ i. newest self.old block ≡ Some (bytes_at self.old i)) }
    {
        match self.place_of(mark, block) {
            Ok(i) => {
                self.note(block, i);
                Some(i)
            }
            Err(i) => {
                self.note(block, i);
                None
            }
        }
    }

    /// Puts a block's bytes among the pairs from the mark on.
    pub(crate) fn put_above(
        &mut self,
        mark: usize,
        block: u64,
        from: &[u8],
    ) -> Result<(), AllocError>
        requires { AreLayered mark (length from.now) self.old }
        ensures layered { AreLayered mark (length from.now) self.new }
        ensures kept { take mark self.new ≡ take mark self.old }
        ensures put { OnOk result ((k : ℕ) → newest self.new k ≡ (if k == block then Some from.now else newest self.old k)) }
        ensures len { length self.new ≤ length self.old + 1 }
        ensures err { OnErr result (self.new ≡ self.old) }
    {
        match self.place_in(mark, self.len(), block) {
            Ok(i) => {
                self.overwrite(i, from);
                Ok(())
            }
            Err(i) => self.insert(i, block, from),
        }
    }

    /// Keeps the first pairs.
    pub(crate) fn truncate(&mut self, n: usize)
        ensures { self.new ≡ take n self.old }
    {
        self.blocks.truncate(n);
    }

    /// Puts the pairs from the mark on among those before it.
    pub(crate) fn merge(&mut self, mark: usize)
        requires within { mark ≤ length self.old }
        requires kept { AscendsIn self.old 0 mark }
        ensures ascends { Ascends self.new }
        ensures reads { (k : ℕ) → newest self.new k ≡ newest self.old k }
        ensures sized { (size : ℕ) → AreOfSize size self.old → AreOfSize size self.new }
        ensures within { mark ≤ length self.new }
        ensures len { length self.new ≤ length self.old }
    {
        let mut own = mark;
        for i in mark..self.len() {
            own = self.settle(mark, own, i);
        }
        self.truncate(own);
        self.merge_settled(mark);
    }
}

// The list itself.
impl Changed {
    /// Notes where a block stands.
    fn note(&mut self, block: u64, at: usize)
        ensures { self.new ≡ self.old }
    {
        self.hints[(block % NOTED as u64) as usize] = at;
    }

    /// Where a block may stand.
    fn noted(&self, block: u64) -> usize {
        self.hints[(block % NOTED as u64) as usize]
    }

    /// Where the newest bytes of a block stand, or where it would stand among the pairs before the mark.
    fn place_of(&self, mark: usize, block: u64) -> Result<usize, usize>
        requires within { mark ≤ length self.now }
        requires kept { AscendsIn self.now 0 mark }
        requires own { AscendsIn self.now mark (length self.now) }
        ensures inside { IfOk result (λ i. i < length self.now) }
        ensures place { MatchResult result (λ i. newest self.now block ≡ Some (bytes_at self.now i)) (λ _. newest self.now block ≡ None) }
    {
        match self.place_in(mark, self.len(), block) {
            Ok(i) => Ok(i),
            Err(_) => match self.place_in(0, mark, block) {
                Ok(i) => Ok(i),
                Err(i) => Err(i),
            },
        }
    }

    /// Where a block stands between two places, or would.
    fn place_in(&self, from: usize, to: usize, block: u64) -> Result<usize, usize>
        requires order { from ≤ to }
        requires inside { to ≤ length self.now }
        requires ascends { AscendsIn self.now from to }
        ensures { MatchResult result (IsAt self.now from to block) (IsGap self.now from to block) }
    {
        let noted = self.noted(block);
        if from <= noted && noted < to && self.block(noted) == block {
            return Ok(noted);
        }
        if from <= noted && noted <= to && self.is_gap(from, to, noted, block) {
            return Err(noted);
        }
        let at = from + count_below(&self.blocks[from..to], block);
        if at == to {
            return Err(at);
        }
        let number = self.block(at);
        if number == block { Ok(at) } else { Err(at) }
    }

    /// Is the block missing between two places, where it would stand at this one? That is told by its two neighbours.
    fn is_gap(&self, from: usize, to: usize, at: usize, block: u64) -> bool
        requires from_on { from ≤ at }
        requires up_to { at ≤ to }
        requires inside { to ≤ length self.now }
        requires ascends { AscendsIn self.now from to }
        ensures { IsTrue result → IsGap self.now from to block at }
    {
        if from < at && self.block(at - 1) >= block {
            return false;
        }
        at == to || block < self.block(at)
    }

    /// Puts the pair at a place into that of its block among the kept pairs or among the first own ones, which then are as many as before, or makes it
    /// one of those own ones, and answers where they end.
    fn settle(&mut self, mark: usize, own: usize, i: usize) -> usize
        requires own { own ≤ i }
        requires inside { i < length self.old }
        requires settled { AreSettled mark own self.old }
        ensures settled { AreSettled mark result self.new }
        ensures put { (k : ℕ) → newest (take result self.new) k ≡ (if k == number_at self.old i then Some (bytes_at self.old i) else newest (take own self.old) k) }
        ensures sized { (size : ℕ) → AreOfSize size (take own self.old) → length (bytes_at self.old i) ≡ size → AreOfSize size (take result self.new) }
        ensures rest { drop (i + 1) self.new ≡ drop (i + 1) self.old }
        ensures len { length self.new ≡ length self.old }
        ensures from_on { own ≤ result }
        ensures up_to { result ≤ i + 1 }
    {
        let block = self.block(i);
        match self.place_in(0, mark, block) {
            Ok(at) => {
                self.exchange(at, own, i);
                own
            }
            Err(_) => match self.place_in(mark, own, block) {
                Ok(at) => {
                    self.exchange(at, own, i);
                    own
                }
                Err(at) => self.bring(at, own, i),
            },
        }
    }

    /// Puts the pairs from the mark on among those before it, which are of other blocks.
    fn merge_settled(&mut self, mark: usize)
        requires { AreSettled mark (length self.old) self.old }
        ensures ascends { Ascends self.new }
        ensures permutation { IsPermutation self.old self.new }
        ensures reads { (k : ℕ) → newest self.new k ≡ newest self.old k }
    {
        merge_parts(self.blocks.as_mut_slice(), mark);
    }

    /// Changes two pairs, the first of which is one of the first `own` ones.
    fn exchange(&mut self, at: usize, own: usize, i: usize)
        requires at { at < own }
        requires own { own ≤ i }
        requires inside { i < length self.old }
        ensures first { take own self.new ≡ slice_set (take own self.old) at (slice_index_or self.old i (0, [])) }
        ensures rest { drop (i + 1) self.new ≡ drop (i + 1) self.old }
        ensures len { length self.new ≡ length self.old }
    {
        self.blocks.swap(at, i);
    }

    /// Brings a pair to a place among the first `own` ones, and answers how many they are then.
    fn bring(&mut self, at: usize, own: usize, i: usize) -> usize
        requires at { at ≤ own }
        requires own { own ≤ i }
        requires inside { i < length self.old }
        ensures more { result ≡ own + 1 }
        ensures first { take (own + 1) self.new ≡ insert (take own self.old) at (slice_index_or self.old i (0, [])) }
        ensures rest { drop (i + 1) self.new ≡ drop (i + 1) self.old }
        ensures len { length self.new ≡ length self.old }
    {
        bring_among(self.blocks.as_mut_slice(), at, own, i)
    }

    /// Changes the bytes at a place.
    fn overwrite(&mut self, i: usize, from: &[u8])
        requires inside { i < length self.old }
        requires length { length from.now ≡ length (bytes_at self.old i) }
        ensures { self.new ≡ slice_set self.old i (number_at self.old i, from.now) }
    {
        self.blocks[i].write(from);
    }

    /// Adds a pair at a place.
    fn insert(&mut self, i: usize, number: u64, from: &[u8]) -> Result<(), AllocError>
        requires inside { i ≤ length self.old }
        ensures ok { OnOk result (self.new ≡ insert self.old i (number, from.now)) }
        ensures err { OnErr result (self.new ≡ self.old) }
    {
        let bytes = from.to_vec(self.alloc)?;
        self.blocks.insert(i, Block { number, bytes })?;
        Ok(())
    }
}

/// Brings a pair to a place among the first `own` ones, and answers how many they are then.
fn bring_among(blocks: &mut [Block], at: usize, own: usize, i: usize) -> usize
    requires at { at ≤ own }
    requires own { own ≤ i }
    requires inside { i < length blocks.old }
    ensures more { result ≡ own + 1 }
    ensures first { take (own + 1) blocks.new ≡ insert (take own blocks.old) at (slice_index_or blocks.old i (0, [])) }
    ensures rest { drop (i + 1) blocks.new ≡ drop (i + 1) blocks.old }
    ensures len { length blocks.new ≡ length blocks.old }
{
    blocks.swap(own, i);
    // Where the own pairs ascend, the pair stands in its place now.
    blocks[at..own + 1].rotate_right(1);
    own + 1
}

/// Merges two parts of a list, of which each ascends and has none of the other's blocks. The part behind is halved again and again, and each half is
/// brought to its place as a whole, so that a pair is moved as often as the part's length has binary digits. Takes no memory.
fn merge_parts(blocks: &mut [Block], mid: usize)
    requires within { mid ≤ length blocks.old }
    requires front { Ascends (take mid blocks.old) }
    requires back { Ascends (drop mid blocks.old) }
    requires apart { AreApart (take mid blocks.old) (drop mid blocks.old) }
    ensures ascends { Ascends blocks.new }
    ensures permutation { IsPermutation blocks.old blocks.new }
    ensures reads { (k : ℕ) → newest blocks.new k ≡ newest blocks.old k }
{
    if mid < blocks.len() {
        let half = (blocks.len() - mid) / 2;
        let at = part(blocks, mid, half);
        merge_parts(&mut blocks[..at + half], at);
        merge_parts(&mut blocks[at + half + 1..], mid - at);
    }
}

/// Brings the first pairs of the part behind, and one more, in front of those pairs of the first part that are above them, and answers where.
fn part(blocks: &mut [Block], mid: usize, half: usize) -> usize
    requires inside { mid + half < length blocks.old }
    requires front { Ascends (take mid blocks.old) }
    requires back { Ascends (drop mid blocks.old) }
    requires apart { AreApart (take mid blocks.old) (drop mid blocks.old) }
    ensures { IsParted mid result half blocks.old blocks.new }
{
    let middle = &blocks[mid + half];
    let number = middle.number;
    let at = count_below(&blocks[..mid], number);
    blocks[at..mid + half + 1].rotate_left(mid - at);
    at
}

/// How many pairs are of blocks below a number.
fn count_below(blocks: &[Block], number: u64) -> usize
    requires { Ascends blocks.now }
    ensures { IsCut blocks.now number result }
{
    let mut low = 0;
    let mut size = blocks.len();
    // One test for each halving, after which both ways go on with as many.
    while size > 1 {
        let half = size / 2;
        let middle = &blocks[low + half];
        if middle.number < number {
            low += half;
        }
        size -= half;
    }
    if size == 0 {
        return 0;
    }
    let last = &blocks[low];
    if last.number < number { low + 1 } else { low }
}

impl Block {
    /// Changes the bytes.
    fn write(&mut self, from: &[u8])
        requires { length from.now ≡ length self.old.1 }
        ensures { self.new ≡ (self.old.0, from.now) }
    {
        self.bytes.as_mut_slice().copy_from_slice(from);
    }
}
