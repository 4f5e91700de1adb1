// A tree of two pages in memory, as it should be and with one thing broken. What is wanted was worked out by hand.
ghost use Rattle.std.specs.Prelude.{◌≡◌, length};

use crate::pages::tree;
use bfs_finding::PagePart;
use bfs_pages::MemPages;
use bfs_tree_walk::{OtherRow, walk_names};
use bfs_txn::Steps;
use bfs_walk::{TreeWrong, WalkFault};
use std::alloc::Global;
use std::marker::Brand;
use std::sync::ledger::{Blank, Ledger};
use std::test::Fail;

/// What a walk over these pages answers; none where it couldn't be done.
fn walk<L: Ledger>(
    alloc: Global,
    pages: &mut MemPages,
    ledger: Blank,
) -> Option<Result<Option<OtherRow>, TreeWrong>>
    requires name { ledger.name ≡ L.name }
    requires parts { ledger.parts ≡ L.parts }
    requires some { L.parts ≡ 1 }
{
    let mut steps = Steps::<L>::begin(ledger);
    match walk_names(alloc, pages, &mut steps) {
        Ok(found) => Some(Ok(found)),
        Err(WalkFault::Wrong(wrong)) => Some(Err(wrong)),
        Err(_) => None,
    }
}

/// The same of these bytes.
fn walk_in(alloc: Global, bytes: Vec<u8>) -> Option<Result<Option<OtherRow>, TreeWrong>>
    requires { length bytes.items ≡ 3072 }
{
    let mut pages = MemPages::new(bytes);
    walk::<Brand>(alloc, &mut pages, Blank::new(1))
}

#[test]
fn a_tree_of_names_is_whole_or_one_thing_is_wrong(rt: HostRuntime) -> Result<(), Fail> {
    let alloc = rt.alloc();
    let whole = tree(alloc, 3072, 7, 2048)?;
    assert_eq!(rt; walk_in(alloc, whole), Some(Ok(None)));
    // the free page is in no list
    let lost = tree(alloc, 3072, 7, -1)?;
    let wanted = TreeWrong::Link {
        page: 2048,
        found: -1,
        wanted: 2048,
    };
    assert_eq!(rt; walk_in(alloc, lost), Some(Err(wanted)));
    // a value of link type 1, and one that names fragment 1 of the page at 2,048
    let nothing = tree(alloc, 3072, 4611686018427387904, 2048)?;
    let wanted = TreeWrong::Page {
        page: 1024,
        part: PagePart::Content,
    };
    assert_eq!(rt; walk_in(alloc, nothing), Some(Err(wanted)));
    let other = tree(alloc, 3072, -4611686018427385855, 2048)?;
    let wanted = OtherRow {
        page: 1024,
        index: 0,
        value: -4611686018427385855,
    };
    assert_eq!(rt; walk_in(alloc, other), Some(Ok(Some(wanted))));
    Ok(())
}
