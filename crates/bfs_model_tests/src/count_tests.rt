// The numbers of nodes after calls, by hand.
use bfs_count::{counted, replaces};
use bfs_tree::{Bytes, Call, MakeKind, Reply};
use std::alloc::{AllocError, Global};
use std::test::Fail;

/// The name `a` of directory 5 moves to another place.
fn moving(alloc: Global, to_dir: u64, to_name: &[u8]) -> Result<Call, AllocError> {
    Ok(Call::Rename {
        dir: 5,
        name: Bytes::from_slice(alloc, b"a")?,
        to_dir,
        to_name: Bytes::from_slice(alloc, to_name)?,
    })
}

/// Calls on the name `a` of directory 5: it is made, removed, moved under another name, moved to another directory and left where it
/// was; and a call that leaves the tree.
fn call_of(alloc: Global, word: u8) -> Result<Call, AllocError> {
    let name = Bytes::from_slice(alloc, b"a")?;
    match word {
        b'm' => Ok(Call::Make {
            dir: 5,
            name,
            kind: MakeKind::File,
            mode: 0o644,
        }),
        b'r' => Ok(Call::Remove { dir: 5, name }),
        b'n' => moving(alloc, 5, b"b"),
        b'd' => moving(alloc, 7, b"a"),
        b's' => moving(alloc, 5, b"a"),
        _ => Ok(Call::Sync),
    }
}

fn reply_of(word: u8) -> Reply {
    match word {
        b'm' => Reply::Made { id: 9 },
        b'd' => Reply::Done,
        b's' => Reply::Synced { upto: 3 },
        _ => Reply::NotFound,
    }
}

/// How many nodes there are of three, where a node is found at the new place or none.
fn after(alloc: Global, call: u8, reply: u8, found: bool) -> Result<u64, AllocError> {
    let call = call_of(alloc, call)?;
    let replaced = replaces(&call, found);
    Ok(counted(3, &call, &reply_of(reply), replaced))
}

#[test]
fn nodes_are_counted_by_what_a_call_has_done(rt: HostRuntime) -> Result<(), Fail> {
    let rows = [
        (b'm', b'm', false, 4),
        (b'm', b'f', false, 3),
        (b'r', b'd', false, 2),
        (b'r', b'f', false, 3),
        (b'n', b'd', false, 3),
        (b'n', b'd', true, 2),
        (b'n', b'f', true, 3),
        (b'd', b'd', false, 3),
        (b'd', b'd', true, 2),
        (b's', b'd', true, 3),
        (b'y', b's', false, 3),
    ];
    for (call, reply, found, nodes) in rows {
        assert_eq!(rt; after(rt.alloc(), call, reply, found)?, nodes);
    }
    assert_eq!(rt;
        counted(0, &call_of(rt.alloc(), b'r')?, &Reply::Done, false),
        0
    );
    Ok(())
}
