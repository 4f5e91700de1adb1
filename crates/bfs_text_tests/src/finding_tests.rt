// The lines of broken images, and of the rows that have names.
use bfs_bytes::Run;
use bfs_finding::{Finding, InodePart};
use bfs_finding_text::{put_entry_line, put_line, put_short_line};
use bfs_log::EntryFault;
use bfs_super::SuperFault;
use bfs_tree::{Bytes, Key};
use std::alloc::{AllocError, Global};
use std::test::Fail;

// Is this the line of the finding?
fn has_line(alloc: Global, finding: &Finding, line: &str) -> Result<bool, AllocError> {
    let mut out = Vec::new(alloc);
    put_line(&mut out, finding)?;
    Ok(out.as_slice() == line.as_bytes())
}

fn has_entry_line(alloc: Global, fault: EntryFault, line: &str) -> Result<bool, AllocError> {
    let mut out = Vec::new(alloc);
    put_entry_line(&mut out, fault)?;
    Ok(out.as_slice() == line.as_bytes())
}

fn has_short_line(
    alloc: Global,
    sectors: u64,
    needed: u64,
    line: &str,
) -> Result<bool, AllocError> {
    let mut out = Vec::new(alloc);
    put_short_line(&mut out, sectors, needed)?;
    Ok(out.as_slice() == line.as_bytes())
}

fn has_super_line(alloc: Global, fault: SuperFault, line: &str) -> Result<bool, AllocError> {
    has_line(alloc, &Finding::Super(fault), line)
}

fn has_inode_line(
    alloc: Global,
    block: u64,
    part: InodePart,
    found: i64,
    line: &str,
) -> Result<bool, AllocError> {
    has_line(alloc, &Finding::Inode { block, part, found }, line)
}

fn has_unset_line(alloc: Global, block: u64, owner: u64, line: &str) -> Result<bool, AllocError> {
    has_line(alloc, &Finding::BitUnset { block, owner }, line)
}

fn has_extra_line(alloc: Global, block: u64, line: &str) -> Result<bool, AllocError> {
    has_line(alloc, &Finding::BitExtra { block }, line)
}

fn has_used_line(alloc: Global, found: i64, wanted: u64, line: &str) -> Result<bool, AllocError> {
    has_line(alloc, &Finding::Used { found, wanted }, line)
}

fn has_name_line(alloc: Global, id: u64, row: &[u8], line: &str) -> Result<bool, AllocError> {
    let row = Bytes::from_slice(alloc, row)?;
    has_line(
        alloc,
        &Finding::Name {
            id,
            row,
            item: None,
        },
        line,
    )
}

fn has_attribute_line(alloc: Global, id: u64, name: &[u8], line: &str) -> Result<bool, AllocError> {
    let name = Bytes::from_slice(alloc, name)?;
    has_line(alloc, &Finding::Attribute { id, name }, line)
}

fn has_row_line(
    alloc: Global,
    index: &[u8],
    key: i64,
    id: u64,
    line: &str,
) -> Result<bool, AllocError> {
    let index = Bytes::from_slice(alloc, index)?;
    let key = Key::I64(key);
    has_line(alloc, &Finding::RowMissing { index, key, id }, line)
}

#[test]
fn findings_have_their_lines(rt: HostRuntime) -> Result<(), Fail> {
    let alloc = rt.alloc();
    let magic = SuperFault::Magic { which: 2, found: 0 };
    assert!(rt; has_super_line(alloc, magic, "finding super 1\n")?);
    assert!(rt; has_inode_line(alloc, 514, InodePart::Magic, 0, "finding inode 514 1 0\n")?);
    assert!(rt; has_unset_line(alloc, 528, 526, "finding bitunset 528 526\n")?);
    assert!(rt; has_extra_line(alloc, 529, "finding bitextra 529\n")?);
    assert!(rt; has_used_line(alloc, 530, 529, "finding used 530 529\n")?);
    Ok(())
}

#[test]
fn names_and_keys_are_escaped(rt: HostRuntime) -> Result<(), Fail> {
    let alloc = rt.alloc();
    assert!(rt; has_name_line(alloc, 529, b"a b", "finding name 529 a%20b -\n")?);
    assert!(rt; has_attribute_line(alloc, 529, &[0x13], "finding attribute 529 %13\n")?);
    assert!(rt;
        has_row_line(
            alloc,
            b"size",
            -5,
            529,
            "finding indexrow missing size -5 529\n"
        )?
    );
    Ok(())
}

#[test]
fn refusals_have_their_lines(rt: HostRuntime) -> Result<(), Fail> {
    let alloc = rt.alloc();
    let count = EntryFault::Count {
        count: 0,
        max_runs: 0,
    };
    let run = Run {
        group: 0,
        start: 0,
        len: 1,
    };
    let end = EntryFault::PastEnd { blocks: 2, room: 1 };
    assert!(rt; has_short_line(alloc, 8191, 8192, "finding short 8191 8192\n")?);
    assert!(rt; has_entry_line(alloc, count, "finding entry 0 0\n")?);
    assert!(rt;
        has_entry_line(
            alloc,
            EntryFault::RunPlace { run },
            "finding entryrun 0 0 1\n"
        )?
    );
    assert!(rt; has_entry_line(alloc, end, "finding entryend 2 1\n")?);
    Ok(())
}
