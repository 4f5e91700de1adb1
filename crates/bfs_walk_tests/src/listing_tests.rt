// The rows of a directory at block 6 with parent 4, in a volume of 16 blocks, whole and broken.
use bfs_finding::Finding;
use bfs_names_walk::NameRow;
use bfs_node_walk::{check_listing, check_rows};
use bfs_tree::Bytes;
use std::alloc::{AllocError, Global};
use std::test::Fail;

fn row(alloc: Global, name: &[u8], value: i64) -> Result<NameRow, AllocError> {
    Ok(NameRow {
        name: Bytes::from_slice(alloc, name)?,
        value,
    })
}

/// Three rows with these values, of which the first two are `.` and `..`.
fn rows(alloc: Global, dot: i64, dots: i64, other: i64) -> Result<Vec<NameRow>, AllocError> {
    let mut rows = Vec::new(alloc);
    rows.push(row(alloc, b".", dot)?)?;
    rows.push(row(alloc, b"..", dots)?)?;
    rows.push(row(alloc, b"a", other)?)?;
    Ok(rows)
}

/// What is found: nothing, a parent with the one wanted, or a row.
#[derive(Clone, Copy, Debug, PartialEq, Eq)]
enum Seen {
    Nothing,
    Parent(i64, u64),
    Row(i64),
    Other,
}

fn told_by(rows: &[NameRow]) -> Seen {
    match check_listing(rows, 6, 4, 16) {
        Ok(()) => Seen::Nothing,
        Err(Finding::Parent { found, wanted, .. }) => Seen::Parent(found, wanted),
        Err(Finding::Row { value, .. }) => Seen::Row(value),
        Err(_) => Seen::Other,
    }
}

#[test]
fn a_directory_names_itself_its_parent_and_blocks_or_one_row_is_wrong(
    rt: HostRuntime,
) -> Result<(), Fail> {
    let alloc = rt.alloc();
    let table: [(i64, i64, i64, Seen); 5] = [
        (6, 4, 15, Seen::Nothing),
        (4, 4, 15, Seen::Parent(4, 6)),
        (6, 6, 15, Seen::Parent(6, 4)),
        (6, 4, 16, Seen::Row(16)),
        (6, 4, -1, Seen::Row(-1)),
    ];
    for (dot, dots, other, wanted) in table {
        let rows = rows(alloc, dot, dots, other)?;
        assert_eq!(rt; told_by(&rows), wanted);
    }
    Ok(())
}

#[test]
fn a_missing_row_counts_as_zero_and_dots_are_passed_over(rt: HostRuntime) -> Result<(), Fail> {
    let alloc = rt.alloc();
    let mut rows = Vec::new(alloc);
    rows.push(row(alloc, b"..", 99)?)?;
    assert_eq!(rt; told_by(&rows), Seen::Parent(0, 6));
    assert_eq!(rt; check_rows(&rows, 16), Ok(()));
    Ok(())
}
