// The pages of a small tree in memory, as they should be and with one thing broken.
ghost use Rattle.std.specs.Prelude.{◌≡◌, IfOk, length};

use crate::pages::page_of;
use bfs_bytes::{put_bytes, put_i64, put_u16};
use bfs_finding::PagePart;
use bfs_node::KeyKind;
use bfs_pages::{MemPages, is_child};
use bfs_txn::{Pages, Steps};
use bfs_walk::{Frame, TreeWrong, WalkFault, enter, look_at_interior, look_at_leaf, step};
use std::alloc::{AllocError, Global};
use std::marker::Brand;
use std::sync::ledger::{Blank, Ledger};
use std::test::Fail;

/// Four pages: room for a header, an interior page at 1,024, and its two children, which are leaves.
fn tree(alloc: Global, size: usize) -> Result<Vec<u8>, AllocError>
    requires { size ≡ 4096 }
    ensures { IfOk result (λ v. length v.items ≡ 4096) }
{
    let mut bytes = vec![in alloc; 0u8; size]?;
    let slice = bytes.as_mut_slice();
    put_bytes(slice, 1024, &page_of(2048, 3072));
    put_bytes(slice, 2048, &page_of(7, -1));
    put_bytes(slice, 3072, &page_of(8, -1));
    Ok(bytes)
}

/// What is wrong with a page, or that nothing is; none where it couldn't be read.
fn look<L: Ledger>(
    pages: &mut MemPages,
    at: u64,
    leaf: bool,
    ledger: Blank,
) -> Option<Option<TreeWrong>>
    requires name { ledger.name ≡ L.name }
    requires parts { ledger.parts ≡ L.parts }
    requires some { L.parts ≡ 1 }
{
    let mut steps = Steps::<L>::begin(ledger);
    if !is_child(at, pages.length()) {
        return None;
    }
    let mut page = [0u8; 1024];
    let result = if leaf {
        look_at_leaf(pages, KeyKind::Text, at, &mut page, &mut steps)
    } else {
        look_at_interior(pages, KeyKind::Text, at, &mut page, &mut steps)
    };
    match result {
        Ok(()) => Some(None),
        Err(WalkFault::Wrong(wrong)) => Some(Some(wrong)),
        Err(_) => None,
    }
}

/// The same of the pages in these bytes.
fn look_in(bytes: Vec<u8>, at: u64, leaf: bool) -> Option<Option<TreeWrong>>
    requires { length bytes.items ≡ 4096 }
{
    let mut pages = MemPages::new(bytes);
    look::<Brand>(&mut pages, at, leaf, Blank::new(1))
}

fn link(page: u64, found: i64, wanted: i64) -> Option<Option<TreeWrong>> {
    Some(Some(TreeWrong::Link {
        page,
        found,
        wanted,
    }))
}

#[test]
fn pages_of_their_kind_are_taken_and_others_are_not(rt: HostRuntime) -> Result<(), Fail> {
    let alloc = rt.alloc();
    assert_eq!(rt; look_in(tree(alloc, 4096)?, 1024, false), Some(None));
    assert_eq!(rt; look_in(tree(alloc, 4096)?, 2048, true), Some(None));
    assert_eq!(rt;
        look_in(tree(alloc, 4096)?, 1024, true),
        link(1024, 3072, -1)
    );
    assert_eq!(rt;
        look_in(tree(alloc, 4096)?, 2048, false),
        link(2048, -1, 1024)
    );
    Ok(())
}

#[test]
fn a_link_and_a_count_that_are_wrong_are_found(rt: HostRuntime) -> Result<(), Fail> {
    let alloc = rt.alloc();
    // the one row's value, and the last child
    let mut bytes = tree(alloc, 4096)?;
    put_i64(bytes.as_mut_slice(), 1024 + 34, 2049);
    assert_eq!(rt; look_in(bytes, 1024, false), link(1024, 2049, -1));
    let mut bytes = tree(alloc, 4096)?;
    put_i64(bytes.as_mut_slice(), 1024 + 16, 8192);
    assert_eq!(rt; look_in(bytes, 1024, false), link(1024, 8192, -1));
    // the number of keys
    let mut bytes = tree(alloc, 4096)?;
    put_u16(bytes.as_mut_slice(), 3072 + 24, 2000);
    let wanted = TreeWrong::Page {
        page: 3072,
        part: PagePart::Bounds,
    };
    assert_eq!(rt; look_in(bytes, 3072, true), Some(Some(wanted)));
    Ok(())
}

/// How many steps a walk over the tree takes until nothing is due, at most ten.
fn walk<L: Ledger>(alloc: Global, pages: &mut MemPages, ledger: Blank) -> Option<u64>
    requires name { ledger.name ≡ L.name }
    requires parts { ledger.parts ≡ L.parts }
    requires some { L.parts ≡ 1 }
{
    let mut steps = Steps::<L>::begin(ledger);
    if !is_child(1024, pages.length()) {
        return None;
    }
    let mut frames: Vec<Frame> = Vec::new(alloc);
    match enter(pages, KeyKind::Text, 1024, 1, &mut frames, &mut steps) {
        Ok(()) => {}
        Err(_) => return None,
    }
    for n in 0..10u64 {
        match step(pages, KeyKind::Text, &mut frames, &mut steps) {
            Ok(end) => {
                if end {
                    return Some(n);
                }
            }
            Err(_) => return None,
        }
    }
    None
}

/// The same of the pages in these bytes.
fn walk_in(alloc: Global, bytes: Vec<u8>) -> Option<u64>
    requires { length bytes.items ≡ 4096 }
{
    let mut pages = MemPages::new(bytes);
    walk::<Brand>(alloc, &mut pages, Blank::new(1))
}

#[test]
fn a_walk_over_a_root_and_two_leaves_takes_three_steps(rt: HostRuntime) -> Result<(), Fail> {
    let alloc = rt.alloc();
    assert_eq!(rt; walk_in(alloc, tree(alloc, 4096)?), Some(3));
    Ok(())
}
