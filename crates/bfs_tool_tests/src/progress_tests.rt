// The line that tells how far long work has come, and what a run tells of itself.
use crate::make_tests::volume;
use bfs_disk::MemDisk;
use bfs_ports::Fixed;
use bfs_run::{Run, Watcher, run_workload};
use bfs_tool::{blocks_text, lines_text};
use std::alloc::{AllocError, Global};
use std::cell::Cell;
use std::test::Fail;

fn tells_lines(alloc: Global) -> Result<bool, AllocError> {
    let lines = lines_text(alloc, 12, 300, 45, 6)?;
    Ok(lines.as_str() == "lines 12 of 300, entries 45, groups 6")
}

fn tells_blocks(alloc: Global) -> Result<bool, AllocError> {
    let blocks = blocks_text(alloc, 64, 4096)?;
    Ok(blocks.as_str() == "blocks read 64, of the volume 4096")
}

#[test]
fn the_line_tells_what_is_done_and_how_much_there_is(rt: HostRuntime) -> Result<(), Fail> {
    let alloc = rt.alloc();
    assert!(rt; tells_lines(alloc)?);
    assert!(rt; tells_blocks(alloc)?);
    Ok(())
}

// How often it was told, and what last.
#[derive(Drop)]
struct Told {
    times: Cell<u64>,
    done: Cell<u64>,
    all: Cell<u64>,
    entries: Cell<u64>,
    groups: Cell<u64>,
}

impl Watcher for Told {
    fn lines(&self, done: u64, all: u64, entries: u64, groups: u64) {
        self.times.set(self.times.get().saturating_add(1));
        self.done.set(done);
        self.all.set(all);
        self.entries.set(entries);
        self.groups.set(groups);
    }
}

// Runs a workload of 300 lines behind the first four on an empty volume, and tells how many entries it has.
fn entries(rt: &HostRuntime, told: &Told) -> Result<Option<u64>, AllocError> {
    let alloc = rt.alloc();
    let bytes = volume(rt, 0, 4_194_304)?;
    if bytes.len() % 512 != 0 {
        return Ok(None);
    }
    let disk = MemDisk::new(alloc, bytes);
    let (run, _disk) = run_workload(alloc, disk, Fixed::clock(1000), 7, 300, 8, told);
    match run {
        Run::Closed(closed) => Ok(Some(closed.history.len() as u64)),
        _ => Ok(None),
    }
}

// Was each of the 304 lines told, the last with all its entries?
fn tells_each(rt: &HostRuntime, told: &Told) -> Result<bool, AllocError> {
    let entries = entries(rt, told)?;
    let all = told.entries.get();
    let groups = told.groups.get();
    let lines = [told.times.get(), told.done.get(), told.all.get()];
    Ok(entries == Some(all) && lines == [304, 304, 304] && groups > 0 && groups <= all)
}

#[test]
fn a_run_tells_of_each_of_its_lines(rt: HostRuntime) -> Result<(), Fail> {
    let told = Told {
        times: Cell::new(0),
        done: Cell::new(0),
        all: Cell::new(0),
        entries: Cell::new(0),
        groups: Cell::new(0),
    };
    assert!(rt; tells_each(&rt, &told)?);
    Ok(())
}
