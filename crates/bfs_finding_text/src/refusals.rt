// The lines of a disk that is too short, and of a malformed entry of the log.
ghost use Rattle.std.specs.Prelude.{◌≡◌, ◌++◌, OnOk, codes};
ghost use Rattle.bfs_text.specs.Printed.{and_number, and_stamp};
ghost use Rattle.bfs_finding_text.specs.Texts.{short_words, entry_words, line_of};

use bfs_bytes::Run;
use bfs_log::EntryFault;
use bfs_text::put::{put, put_and_number, put_and_signed};
use std::alloc::AllocError;

fn put_short(out: &mut Vec<u8>, sectors: u64, needed: u64) -> Result<(), AllocError>
    ensures { OnOk result (out.new.items ≡ out.old.items ++ short_words sectors needed) }
{
    put(out, b"short")?;
    put_and_number(out, sectors)?;
    put_and_number(out, needed)
}

/// The line of a disk that is too short, behind the text.
pub fn put_short_line(out: &mut Vec<u8>, sectors: u64, needed: u64) -> Result<(), AllocError>
    ensures { OnOk result (out.new.items ≡ out.old.items ++ line_of (short_words sectors needed)) }
{
    put(out, b"finding ")?;
    put_short(out, sectors, needed)?;
    put(out, b"\n")
}

fn put_counts(out: &mut Vec<u8>, count: i32, max_runs: i32) -> Result<(), AllocError>
    ensures { OnOk result (out.new.items ≡ out.old.items ++ (codes "entry" ++ (and_stamp count ++ and_stamp max_runs))) }
{
    put(out, b"entry")?;
    put_and_signed(out, i64::from(count))?;
    put_and_signed(out, i64::from(max_runs))
}

fn put_run(out: &mut Vec<u8>, run: Run) -> Result<(), AllocError>
    ensures { OnOk result (out.new.items ≡ out.old.items ++ (codes "entryrun" ++ (and_stamp run.group ++ (and_number run.start ++ and_number run.len)))) }
{
    put(out, b"entryrun")?;
    put_and_signed(out, i64::from(run.group))?;
    put_and_number(out, u64::from(run.start))?;
    put_and_number(out, u64::from(run.len))
}

fn put_end(out: &mut Vec<u8>, blocks: u64, room: u64) -> Result<(), AllocError>
    ensures { OnOk result (out.new.items ≡ out.old.items ++ (codes "entryend" ++ (and_number blocks ++ and_number room))) }
{
    put(out, b"entryend")?;
    put_and_number(out, blocks)?;
    put_and_number(out, room)
}

/// The words of a malformed entry.
fn put_entry(out: &mut Vec<u8>, fault: EntryFault) -> Result<(), AllocError>
    ensures { OnOk result (out.new.items ≡ out.old.items ++ entry_words fault) }
{
    match fault {
        EntryFault::Count { count, max_runs } => put_counts(out, count, max_runs),
        EntryFault::RunPlace { run } => put_run(out, run),
        EntryFault::PastEnd { blocks, room } => put_end(out, blocks, room),
    }
}

/// The line of a malformed entry, behind the text.
pub fn put_entry_line(out: &mut Vec<u8>, fault: EntryFault) -> Result<(), AllocError>
    ensures { OnOk result (out.new.items ≡ out.old.items ++ line_of (entry_words fault)) }
{
    put(out, b"finding ")?;
    put_entry(out, fault)?;
    put(out, b"\n")
}
