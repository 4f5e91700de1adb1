// Inodes as bytes that were written down elsewhere.

use bfs_bytes::Run;
use bfs_inode::{InodeFault, InodeMut, InodeView, SMALL_DATA, check};

/// Copies bytes into a block, where they fit.
fn place(block: &mut [u8; 1024], at: usize, bytes: &[u8]) {
    for (i, byte) in bytes.iter().enumerate() {
        if at < 1024 && i < 1024 - at {
            block[at + i] = *byte;
        }
    }
}

/// The root's inode of a new volume of 4,096 blocks of 1,024 bytes, made at 1,000 seconds.
fn root() -> [u8; 1024] {
    let mut block = [0u8; 1024];
    let fields: [(usize, &[u8]); 16] = [
        (0, &[0xd9, 0x0a, 0xbe, 0x3b]),
        (4, &[0, 0, 0, 0, 0x02, 0x02, 0x01, 0x00]),
        (20, &[0xed, 0x41, 0, 0]),
        (24, &[0x01, 0, 0, 0]),
        (28, &[0, 0, 0xe8, 0x03, 0, 0, 0, 0]),
        (36, &[0, 0, 0xe8, 0x03, 0, 0, 0, 0]),
        (44, &[0, 0, 0, 0, 0x02, 0x02, 0x01, 0x00]),
        (64, &[0x00, 0x04, 0, 0]),
        (72, &[0, 0, 0, 0, 0x03, 0x02, 0x02, 0x00]),
        (168, &[0x00, 0x08, 0, 0, 0, 0, 0, 0]),
        (208, &[0x00, 0x08, 0, 0, 0, 0, 0, 0]),
        (216, &[0, 0, 0xe8, 0x03, 0, 0, 0, 0]),
        (232, &[0x52, 0x54, 0x53, 0x43]),
        (236, &[0x01, 0x00]),
        (238, &[0x01, 0x00]),
        (240, &[0x13, 0, 0, 0]),
    ];
    for (at, bytes) in fields {
        place(&mut block, at, bytes);
    }
    block
}

const HERE: Run = Run {
    group: 0,
    start: 514,
    len: 1,
};

const NOWHERE: Run = Run {
    group: 0,
    start: 0,
    len: 0,
};

/// The magic number, the type, the mode and the flags, the owners, and `etc`.
fn words(inode: &InodeView<'_>) -> [i64; 7] {
    [
        i64::from(inode.magic1()),
        i64::from(inode.type_code()),
        i64::from(inode.mode()),
        i64::from(inode.flags()),
        i64::from(inode.uid()),
        i64::from(inode.gid()),
        i64::from(inode.etc()),
    ]
}

/// The stamps, and the sizes.
fn sizes(inode: &InodeView<'_>) -> [i64; 8] {
    [
        inode.create_time(),
        inode.last_modified_time(),
        inode.status_change_time(),
        i64::from(inode.inode_size()),
        inode.size(),
        inode.max_direct_range(),
        inode.max_indirect_range(),
        inode.max_double_indirect_range(),
    ]
}

/// The runs.
fn runs(inode: &InodeView<'_>) -> [Run; 7] {
    [
        inode.inode_num(),
        inode.parent(),
        inode.attributes(),
        inode.direct(0),
        inode.direct(11),
        inode.indirect(),
        inode.double_indirect(),
    ]
}

/// How long the parts are that are bytes; and whether the last one begins with the name's item.
fn lengths(inode: &InodeView<'_>) -> ([usize; 3], bool) {
    let lengths = [
        inode.stream_bytes().len(),
        inode.pad().len(),
        inode.small_data().len(),
    ];
    (lengths, inode.small_data().starts_with(b"RTSC"))
}

#[test]
fn the_fields_of_the_root_are_read(rt: HostRuntime) {
    let block = root();
    match InodeView::of(&block, 514, 13) {
        Ok(inode) => {
            assert_eq!(rt; words(&inode), [0x3bbe0ad9, 0, 0o40755, 1, 0, 0, 0]);
            assert_eq!(rt;
                sizes(&inode),
                [65_536_000, 65_536_000, 65_536_000, 1024, 2048, 2048, 0, 0]
            );
            let leaf = Run {
                group: 0,
                start: 515,
                len: 2,
            };
            assert!(rt; runs(&inode) == [HERE, HERE, NOWHERE, leaf, NOWHERE, NOWHERE, NOWHERE]);
            assert_eq!(rt; lengths(&inode), ([144, 8, 1024 - SMALL_DATA], true));
        }
        Err(_) => assert!(rt; false),
    }
}

#[test]
fn the_first_broken_condition_is_told(rt: HostRuntime) {
    let number = InodeFault::Number { found: 514 };
    let breaks: [(usize, &[u8], InodeFault); 8] = [
        (0, &[0xd8], InodeFault::Magic { found: 0x3bbe0ad8 }),
        (3, &[0xff, 0xff], InodeFault::Magic { found: -4322599 }),
        (4, &[1], InodeFault::Number { found: 8706 }),
        (
            7,
            &[0x80],
            InodeFault::Number {
                found: -17_592_186_043_902,
            },
        ),
        (10, &[2], number),
        (9, &[0x22], InodeFault::Number { found: 8706 }),
        (
            24,
            &[0xfe, 0xff, 0xff, 0xff],
            InodeFault::NotInUse { flags: -2 },
        ),
        (65, &[0x08], InodeFault::Size { found: 2048 }),
    ];
    for (at, bytes, want) in breaks {
        let mut block = root();
        place(&mut block, at, bytes);
        assert_eq!(rt; check(&block, 514, 13), Err(want), "at {at}");
    }
    let mut block = root();
    place(&mut block, 24, &[0]);
    place(&mut block, 64, &[1]);
    assert_eq!(rt;
        check(&block, 514, 13),
        Err(InodeFault::NotInUse { flags: 0 })
    );
    assert_eq!(rt; check(&block, 515, 13), Err(number));
    assert_eq!(rt; check(&block, 514, 9), Err(number));
    assert_eq!(rt;
        check(&[0; 1024], 514, 16),
        Err(InodeFault::Magic { found: 0 })
    );
}

#[test]
fn each_writer_changes_its_own_bytes(rt: HostRuntime) {
    let mut block = [0u8; 1024];
    {
        let mut inode = InodeMut::over(&mut block);
        inode.set_magic1(0x3bbe0ad9);
        inode.set_inode_num(HERE);
        inode.set_mode(0o40755);
        inode.set_flags(1);
        inode.set_create_time(65_536_000);
        inode.set_last_modified_time(65_536_000);
        inode.set_status_change_time(65_536_000);
        inode.set_parent(HERE);
        inode.set_inode_size(1024);
        inode.set_direct(
            0,
            Run {
                group: 0,
                start: 515,
                len: 2,
            },
        );
        inode.set_max_direct_range(2048);
        inode.set_size(2048);
        assert_eq!(rt; inode.view().size(), 2048);
    }
    let mut want = root();
    place(&mut want, 232, &[0; 16]);
    assert!(rt; block == want);
    match InodeMut::of(&mut block, 514, 13) {
        Ok(mut inode) => {
            inode.set_small_data(&[2; 792]);
            inode.set_uid(-1);
            inode.set_gid(2);
            inode.set_attributes(HERE);
            inode.set_type_code(0x4353_5452);
            inode.set_etc(7);
            inode.set_indirect(HERE);
            inode.set_max_indirect_range(1 << 40);
            inode.set_double_indirect(HERE);
            inode.set_max_double_indirect_range(-1);
            inode.set_pad(&[1; 8]);
        }
        Err(_) => assert!(rt; false),
    }
    let far: [u8; 8] = [0, 0, 0, 0, 2, 2, 1, 0];
    place(&mut want, 12, &[0xff, 0xff, 0xff, 0xff, 2, 0, 0, 0]);
    place(&mut want, 52, &far);
    place(&mut want, 60, &[0x52, 0x54, 0x53, 0x43]);
    place(&mut want, 68, &[7]);
    place(&mut want, 176, &far);
    place(&mut want, 184, &[0, 0, 0, 0, 0, 1, 0, 0]);
    place(&mut want, 192, &far);
    place(&mut want, 200, &[0xff; 8]);
    place(&mut want, 224, &[1; 8]);
    place(&mut want, 232, &[2; 792]);
    assert!(rt; block == want);
    InodeMut::over(&mut block).set_stream_bytes(&[3; 144]);
    place(&mut want, 72, &[3; 144]);
    assert!(rt; block == want);
}

#[test]
fn a_block_of_any_bytes_has_an_answer(rt: HostRuntime) {
    let root = root();
    let mut state = 7u64;
    for size in [1024usize, 2048, 4096, 8192] {
        for kept in [0usize, 4, 12, 28] {
            let mut block = [0u8; 8192];
            for byte in block.iter_mut() {
                state = state
                    .wrapping_mul(6364136223846793005)
                    .wrapping_add(1442695040888963407);
                *byte = (state >> 56) as u8;
            }
            // the root's first fields stay, so that the later conditions are reached
            for i in 0..28 {
                if i < kept {
                    block[i] = root[i];
                }
            }
            if size >= 1024 && size <= 8192 {
                assert!(rt; check(&block[..size], 514, 13).is_err(), "{kept} of {size}");
            }
        }
    }
}
