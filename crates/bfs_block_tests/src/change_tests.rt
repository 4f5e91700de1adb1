// Blocks of four bytes in memory, and calls over them.
ghost use Rattle.std.specs.Prelude.{◌≡◌, ◌<◌, ◌≤◌, ◌+◌, ◌*◌, ℕ, length, IsTrue};
ghost use Rattle.bfs_txn.specs.Changed.{Ascends, AreOfSize, number_at};

use bfs_txn::{BlockFault, Blocks, Changed, Edits, Group, MemBlocks, Overlay, Steps};
use std::marker::Brand;
use std::sync::ledger::{Blank, Ledger};
use std::test::Fail;

fn read<B: Blocks>(blocks: &mut B, block: u64) -> Result<[u8; 4], BlockFault>
    requires { B.size blocks.old ≡ 4 }
    ensures size { B.size blocks.new ≡ B.size blocks.old }
    ensures frame { B.frame blocks.new ≡ B.frame blocks.old }
{
    let mut into = [0; 4];
    blocks.get(block, &mut into)?;
    Ok(into)
}

fn write<E: Edits>(edits: &mut E, block: u64, value: u8) -> Result<(), BlockFault>
    requires { E.size edits.old ≡ 4 }
    ensures size { E.size edits.new ≡ E.size edits.old }
    ensures frame { E.frame edits.new ≡ E.frame edits.old }
{
    match edits.set(block, &[value; 4]) {
        Ok(()) => Ok(()),
        Err(_) => Err(BlockFault::NoMemory),
    }
}

/// Changes block 2, block 1, and block 2 again, and reads the three.
fn change<E: Edits>(edits: &mut E, value: u8) -> Result<[[u8; 4]; 3], BlockFault>
    requires { E.size edits.old ≡ 4 }
    ensures size { E.size edits.new ≡ E.size edits.old }
    ensures frame { E.frame edits.new ≡ E.frame edits.old }
{
    write(edits, 2, 9)?;
    write(edits, 1, value)?;
    write(edits, 2, value)?;
    Ok([read(edits, 0)?, read(edits, 1)?, read(edits, 2)?])
}

fn call<B: Blocks>(
    open: &mut Changed,
    under: &mut B,
    value: u8,
    keeps: bool,
) -> Result<[[u8; 4]; 3], BlockFault>
    requires block { B.size under.old ≡ 4 }
    requires ascends { Ascends «open».old }
    requires sized { AreOfSize 4 «open».old }
    ensures ascends { Ascends «open».new }
    ensures sized { AreOfSize 4 «open».new }
    ensures size { B.size under.new ≡ B.size under.old }
{
    let mut call = Overlay::begin(open, under);
    let found = change(&mut call, value);
    if keeps {
        call.keep();
    } else {
        call.drop_call();
    }
    found
}

/// Whether a call that writes a value reads that value in blocks 1 and 2, and zeros in block 0.
fn reads<B: Blocks>(open: &mut Changed, under: &mut B, value: u8, keeps: bool) -> bool
    requires block { B.size under.old ≡ 4 }
    requires ascends { Ascends «open».old }
    requires sized { AreOfSize 4 «open».old }
    ensures ascends { Ascends «open».new }
    ensures sized { AreOfSize 4 «open».new }
    ensures size { B.size under.new ≡ B.size under.old }
{
    match call(open, under, value, keeps) {
        Ok(found) => found == [[0; 4], [value; 4], [value; 4]],
        Err(_) => false,
    }
}

/// Three calls, of which the second one is kept: whether each reads what it writes, and whether so many blocks are changed behind the first two.
fn three_calls(open: &mut Changed, memory: &mut MemBlocks) -> [bool; 5]
    requires block { memory.old.block_size ≡ 4 }
    requires ascends { Ascends «open».old }
    requires sized { AreOfSize 4 «open».old }
    ensures ascends { Ascends «open».new }
    ensures sized { AreOfSize 4 «open».new }
    ensures block { memory.new.block_size ≡ 4 }
{
    let first = reads(open, memory, 7, false);
    let none = open.len() == 0;
    let second = reads(open, memory, 8, true);
    let two = open.len() == 2;
    [first, none, second, two, reads(open, memory, 9, false)]
}

/// Whether blocks 1 and 2 are changed, block 2 has eights, and block 3 isn't changed.
fn has_eights(open: &Changed) -> bool
    requires { Ascends «open».now }
{
    if open.len() != 2 {
        return false;
    }
    let first = open.block(0) == 1;
    let second = open.bytes(1) == [8; 4].as_slice();
    let found = open.find(2) == Some([8; 4].as_slice());
    first && second && found && open.find(3) == None
}

/// Whether the changed blocks are in the memory once they are applied, and are read there.
fn goes_home(open: Changed, memory: &mut MemBlocks) -> bool
    requires block { memory.old.block_size ≡ 4 }
    requires sized { AreOfSize 4 «open» }
{
    if !lie_inside(&open, memory) {
        return false;
    }
    let group = Group {
        first: 1,
        last: 1,
        used: 3,
        blocks: open,
    };
    memory.apply(&group);
    let home = memory.bytes() == [0, 0, 0, 0, 8, 8, 8, 8, 8, 8, 8, 8].as_slice();
    home && read(memory, 2) == Ok([8; 4])
}

#[test]
fn an_overlay_reads_its_changes_and_keeps_them_or_not(rt: HostRuntime) -> Result<(), Fail> {
    let alloc = rt.alloc();
    let bytes = Vec::from_slice(alloc, &[0, 0, 0, 0, 1, 1, 1, 1, 2, 2, 2, 2])?;
    let mut memory = MemBlocks::new(bytes, 4);
    let mut open = Changed::new(alloc);
    let empty = open.is_empty();
    let told = three_calls(&mut open, &mut memory);
    let eights = has_eights(&open);
    let home = goes_home(open, &mut memory);
    assert_eq!(rt; told, [true, true, true, true, true]);
    assert_eq!(rt; [empty, eights, home], [true, true, true]);
    Ok(())
}

/// Is this one of the pairs?
fn has_pair<B: Blocks>(call: &Overlay<'_, B>, block: u64, bytes: &[u8]) -> bool {
    for i in 0..call.pairs() {
        if call.block(i) == block && call.bytes(i) == bytes {
            return true;
        }
    }
    false
}

#[test]
fn the_pairs_of_a_call_are_read_by_their_places(rt: HostRuntime) -> Result<(), Fail> {
    let alloc = rt.alloc();
    let bytes = Vec::from_slice(alloc, &[0, 0, 0, 0, 1, 1, 1, 1, 2, 2, 2, 2])?;
    let mut memory = MemBlocks::new(bytes, 4);
    let mut open = Changed::new(alloc);
    let mut call = Overlay::begin(&mut open, &mut memory);
    let found = change(&mut call, 7);
    let pairs = [
        call.pairs() == 2,
        has_pair(&call, 1, &[7; 4]),
        has_pair(&call, 2, &[9; 4]),
    ];
    call.drop_call();
    assert_eq!(rt; found?, [[0; 4], [7; 4], [7; 4]]);
    assert_eq!(rt; pairs, [true, true, false]);
    Ok(())
}

/// Do the blocks lie in the memory?
fn lie_inside(blocks: &Changed, memory: &MemBlocks) -> bool
    requires { memory.now.block_size ≡ 4 }
    ensures { IsTrue result → (i : ℕ) → i < length blocks.now → memory.now.block_size * number_at blocks.now i + memory.now.block_size ≤ length memory.now.bytes }
{
    let count = memory.bytes().len() as u64 / 4;
    for i in 0..blocks.len() {
        if blocks.block(i) >= count {
            return false;
        }
    }
    true
}

/// Changes the blocks below 300 with a remainder, in rising or in falling order.
fn write_each<E: Edits>(
    edits: &mut E,
    step: u64,
    rest: u64,
    falls: bool,
    value: u8,
) -> Result<(), BlockFault>
    requires size { E.size edits.old ≡ 4 }
    requires step { 0 < step }
    ensures size { E.size edits.new ≡ E.size edits.old }
    ensures frame { E.frame edits.new ≡ E.frame edits.old }
{
    for k in 0..300 {
        let block = if falls { 299 - k } else { k };
        if block % step == rest {
            write(edits, block, value)?;
        }
    }
    Ok(())
}

/// A call that changes those blocks, and is kept.
fn keep_each<B: Blocks>(
    open: &mut Changed,
    under: &mut B,
    step: u64,
    rest: u64,
    falls: bool,
    value: u8,
) -> Result<(), BlockFault>
    requires block { B.size under.old ≡ 4 }
    requires step { 0 < step }
    requires ascends { Ascends «open».old }
    requires sized { AreOfSize 4 «open».old }
    ensures ascends { Ascends «open».new }
    ensures sized { AreOfSize 4 «open».new }
    ensures size { B.size under.new ≡ B.size under.old }
{
    let mut call = Overlay::begin(open, under);
    let done = write_each(&mut call, step, rest, falls, value);
    call.keep();
    done
}

/// What a block has once ones were written to each third block, twos to each second one, and threes to each fifth one from block 1 on; 0 where it wasn't
/// written.
fn value_of(block: u64) -> u8 {
    if block % 5 == 1 {
        3
    } else if block % 2 == 0 {
        2
    } else if block % 3 == 0 {
        1
    } else {
        0
    }
}

/// Is block `block` the next pair, where it was written, and is it found with its bytes?
fn is_next(open: &Changed, i: usize, block: u64) -> bool
    requires { Ascends open.now }
{
    let value = value_of(block);
    if value == 0 {
        return open.find(block) == None;
    }
    if i >= open.len() {
        return false;
    }
    let bytes = [value; 4];
    let here = open.block(i) == block && open.bytes(i) == bytes.as_slice();
    here && open.find(block) == Some(bytes.as_slice())
}

/// Are the pairs those of the blocks below 300 that were written, in order?
fn are_merged(open: &Changed) -> bool
    requires { Ascends open.now }
{
    let mut i = 0usize;
    for block in 0..300 {
        if !is_next(open, i, block) {
            return false;
        }
        if value_of(block) > 0 {
            i = i.saturating_add(1);
        }
    }
    i == open.len()
}

#[test]
fn many_blocks_of_three_calls_are_merged_in_order(rt: HostRuntime) -> Result<(), Fail> {
    let alloc = rt.alloc();
    let bytes = Vec::from_slice(alloc, &[0, 0, 0, 0])?;
    let mut memory = MemBlocks::new(bytes, 4);
    let mut open = Changed::new(alloc);
    keep_each(&mut open, &mut memory, 3, 0, false, 1)?;
    keep_each(&mut open, &mut memory, 2, 0, false, 2)?;
    let two = open.len();
    keep_each(&mut open, &mut memory, 5, 1, true, 3)?;
    // 100 thirds and 150 halves, of which 50 are both; of 60 fifths 20 are neither.
    assert_eq!(rt; [two, open.len()], [200, 220]);
    assert_eq!(rt; are_merged(&open), true);
    Ok(())
}

fn counted<L: Ledger>(ledger: Blank)
    requires name { ledger.name ≡ L.name }
    requires parts { ledger.parts ≡ L.parts }
    requires some { L.parts ≡ 1 }
{
    let mut steps = Steps::<L>::begin(ledger);
    steps.count();
    steps.count();
}

#[test]
fn steps_are_counted_in_a_blank_ledger() {
    counted::<Brand>(Blank::new(1));
}
