// A stream of two pages, read as pages over blocks alone. Its inode is block 1, and its bytes begin at block 3.
ghost use Rattle.std.specs.Prelude.{◌≡◌, ◌≤◌, ◌<◌, ◌%◌, ℕ, List, Option, Some, IfOk};
ghost use Rattle.bfs_super.specs.Conditions.{IsValid, natural};
ghost use Rattle.bfs_stream.specs.Sizes.{sizes_of};
ghost use Rattle.bfs_stream_pages.specs.Held.{IsReadable};

use crate::page_tests::superblock;
use bfs_bytes::{Run, put_i64, put_run};
use bfs_stream::GrowFault;
use bfs_stream_pages::StreamReader;
use bfs_super::Super;
use bfs_txn::{BlockFault, Blocks, MemBlocks, Pages, Steps};
use std::alloc::{AllocError, Global};
use std::marker::Brand;
use std::sync::ledger::{Blank, Ledger};
use std::test::Fail;

/// Blocks in memory, which tell nothing of what they hold, and of which one can't be read the first time.
#[derive(Drop)]
struct Failing {
    blocks: MemBlocks,
    bad: u64,
    faults: u64,
}

impl Blocks for Failing {
    ghost use Rattle.std.specs.Prelude.{None, [], false};
    ghost use Rattle.bfs_txn.specs.Told.{read_last};

    ghost told = { λ s. None };

    ghost size = { λ s. s.blocks.block_size };

    ghost counts = { λ s. record { faults = s.faults; stops = 0; stop = None } };

    ghost changed = { λ s k. false };

    ghost pairs = { λ s. 0 };

    ghost last = { λ s. read_last s.blocks };

    ghost Note = { Unit {0} };

    ghost frame = { λ s. record { note = tt; names = []; kept = []; below = None } };

    ghost sized = { λ s. tt };

    fn get(&mut self, block: u64, into: &mut [u8]) -> Result<(), BlockFault> {
        if block == self.bad {
            if self.faults == 0 {
                self.faults = 1;
                return Err(BlockFault::Disk {
                    before: 0,
                    after: 1,
                });
            }
        }
        match self.blocks.get(block, into) {
            Ok(()) => Ok(()),
            Err(_) => Err(BlockFault::NoMemory),
        }
    }
}

/// A stream whose 2,048 bytes stand in so many blocks, over blocks of which one can't be read.
fn volume(alloc: Global, size: u32, blocks: u16, bad: u64) -> Result<Failing, AllocError>
    requires some { 1024 ≤ size }
    requires small { size ≤ 2048 }
    ensures { IfOk result (λ s. s.blocks.block_size ≡ size) }
{
    let block = size as usize;
    let mut bytes = vec![in alloc; 0u8; block * 5]?;
    let run = Run {
        group: 0,
        start: 3,
        len: blocks,
    };
    put_run(&mut bytes, block + 72, run);
    put_i64(&mut bytes, block + 168, 2048);
    put_i64(&mut bytes, block + 208, 2048);
    bytes[3 * block..3 * block + 1024].fill(7);
    bytes[3 * block + 1024..3 * block + 2048].fill(8);
    Ok(Failing {
        blocks: MemBlocks::new(bytes, size),
        bad,
        faults: 0,
    })
}

/// Reads a page of the stream of 2,048 bytes.
fn read<B: Blocks, L: Ledger>(
    alloc: Global,
    under: &mut B,
    sup: &Super,
    at: u64,
    ledger: Blank,
) -> Result<[u8; 1024], GrowFault>
    requires name { ledger.name ≡ L.name }
    requires parts { ledger.parts ≡ L.parts }
    requires some { L.parts ≡ 1 }
    requires valid { IsValid sup.now }
    requires inside { 1 < natural sup.now.num_blocks }
    requires size { B.size under.old ≡ sup.now.block_size }
    requires held { (m : ℕ → Option (List ℕ)) → B.told under.old ≡ Some m → ∥ IsReadable (record { id = 1; sizes = sizes_of sup.now }) 2048 m ∥₁ }
    requires place { at % 1024 ≡ 0 }
    requires low { at < 2048 }
{
    let mut steps = Steps::<L>::begin(ledger);
    let mut into = [0u8; 1024];
    let mut pages = StreamReader::over(alloc, under, 1, sup, 2048, None);
    match pages.get(at, &mut into, &mut steps) {
        Ok(()) => Ok(into),
        Err(fault) => Err(fault),
    }
}

/// Is a page of the stream filled with one byte, where a block can't be read?
fn is_filled(
    alloc: Global,
    size: u32,
    shift: u32,
    blocks: u16,
    bad: u64,
    at: u64,
    fill: u8,
) -> Result<Result<bool, GrowFault>, Fail>
    requires some { 1024 ≤ size }
    requires small { size ≤ 2048 }
    requires shift { shift ≤ 13 }
    requires place { at % 1024 ≡ 0 }
    requires low { at < 2048 }
{
    let sup = superblock(size, shift)?;
    if sup.block_size != size {
        return Ok(Ok(false));
    }
    if sup.num_blocks < 6 {
        return Ok(Ok(false));
    }
    let mut under = volume(alloc, size, blocks, bad)?;
    match read::<Failing, Brand>(alloc, &mut under, &sup, at, Blank::new(1)) {
        Ok(page) => Ok(Ok(page == [fill; 1024])),
        Err(fault) => Ok(Err(fault)),
    }
}

#[test]
fn pages_are_read_back_and_a_block_that_fails_below_is_told(rt: HostRuntime) -> Result<(), Fail> {
    let alloc = rt.alloc();
    let failed = GrowFault::Block(BlockFault::Disk {
        before: 0,
        after: 1,
    });
    for (size, shift, blocks) in [(1024u32, 10u32, 2u16), (2048, 11, 1)] {
        for (at, fill) in [(0u64, 7u8), (1024, 8)] {
            assert_eq!(rt;
                is_filled(alloc, size, shift, blocks, 0, at, fill)?,
                Ok(true)
            );
            assert_eq!(rt;
                is_filled(alloc, size, shift, blocks, 1, at, fill)?,
                Err(failed)
            );
        }
        assert_eq!(rt;
            is_filled(alloc, size, shift, blocks, 3, 0, 7)?,
            Err(failed)
        );
    }
    Ok(())
}
