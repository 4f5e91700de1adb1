// Headers and pages as bytes that were written down elsewhere.

use bfs_node::{
    Header, KeyKind, Links, NULL_LINKS, PageFault, PageMut, PageView, blank, check, data_type,
    free_bytes, is_key, page_links,
};

/// Copies bytes into a page, where they fit.
fn place(page: &mut [u8; 1024], at: usize, bytes: &[u8]) {
    for (i, byte) in bytes.iter().enumerate() {
        if at < 1024 && i < 1024 - at {
            page[at + i] = *byte;
        }
    }
}

/// Puts a row where its key would stand, if it isn't there and there is room.
fn put(page: &mut [u8; 1024], kind: KeyKind, key: &[u8], value: i64) -> bool {
    if !is_key(kind, key) {
        return false;
    }
    match PageView::of(page, kind) {
        Ok(view) => match view.search(key) {
            Ok(_) => false,
            Err(i) => put_at(page, kind, i, key, value),
        },
        Err(_) => false,
    }
}

fn put_at(page: &mut [u8; 1024], kind: KeyKind, i: usize, key: &[u8], value: i64) -> bool {
    if !is_key(kind, key) {
        return false;
    }
    match PageMut::of(page, kind) {
        Ok(mut page) => {
            let fits = page.room(key) && i <= page.view().count();
            if fits {
                page.insert(i, key, value);
            }
            fits
        }
        Err(_) => false,
    }
}

/// The place of a key, as `search` finds it.
fn find(page: &[u8; 1024], kind: KeyKind, key: &[u8]) -> Option<Result<usize, usize>> {
    if !is_key(kind, key) {
        return None;
    }
    match PageView::of(page, kind) {
        Ok(view) => Some(view.search(key)),
        Err(_) => None,
    }
}

/// Whether a page has these rows and no others.
fn has_rows(page: &[u8; 1024], rows: &[(&[u8], i64)]) -> bool {
    match PageView::of(page, KeyKind::Text) {
        Ok(view) => {
            if view.count() != rows.len() {
                return false;
            }
            for i in 0..rows.len() {
                let (key, value) = rows[i];
                if view.key(i) != key || view.value(i) != value {
                    return false;
                }
            }
            true
        }
        Err(_) => false,
    }
}

/// How many bytes of a page are free, if it is one.
fn free(page: &[u8; 1024]) -> Option<usize> {
    match check(page, KeyKind::Text) {
        Ok(()) => Some(free_bytes(page)),
        Err(_) => None,
    }
}

/// The first leaf of the root's tree on a new volume, whose inode is block 514.
fn root_leaf() -> [u8; 1024] {
    let mut page = [0u8; 1024];
    place(&mut page, 0, &[0xff; 24]);
    place(&mut page, 24, &[0x02, 0x00, 0x03, 0x00]);
    place(&mut page, 28, &[0x2e, 0x2e, 0x2e, 0x00]);
    place(&mut page, 32, &[0x01, 0x00, 0x03, 0x00]);
    place(
        &mut page,
        36,
        &[0x02, 0x02, 0, 0, 0, 0, 0, 0, 0x02, 0x02, 0, 0, 0, 0, 0, 0],
    );
    page
}

#[test]
fn a_leaf_of_two_rows_has_the_bytes_of_the_format(rt: HostRuntime) {
    let want = root_leaf();
    assert!(rt; has_rows(&want, &[(b".", 514), (b"..", 514)]));
    assert!(rt; page_links(&want) == NULL_LINKS);
    let mut page = [7u8; 1024];
    blank(&mut page);
    assert!(rt; page_links(&page) == NULL_LINKS);
    assert!(rt; put(&mut page, KeyKind::Text, b"..", 514));
    assert!(rt; put(&mut page, KeyKind::Text, b".", 514));
    assert!(rt; page == want);
}

#[test]
fn the_header_has_the_bytes_of_the_format(rt: HostRuntime) {
    let mut page = [9u8; 1024];
    let bytes: [u8; 40] = [
        0xe8, 0xc2, 0xf6, 0x69, 0x00, 0x04, 0, 0, 0x01, 0, 0, 0, 0, 0, 0, 0, 0x00, 0x04, 0, 0, 0,
        0, 0, 0, 0xff, 0xff, 0xff, 0xff, 0xff, 0xff, 0xff, 0xff, 0x00, 0x08, 0, 0, 0, 0, 0, 0,
    ];
    place(&mut page, 0, &bytes);
    let want = Header {
        magic: 0x69f6c2e8,
        node_size: 1024,
        levels: 1,
        data_type: data_type(KeyKind::Text),
        root_pointer: 1024,
        free_pointer: -1,
        maximum_size: 2048,
    };
    match Header::of(&page) {
        Ok(header) => {
            assert!(rt; header == want && header.kind() == KeyKind::Text);
            let mut again = [9u8; 1024];
            header.print(&mut again);
            assert!(rt; again == page);
        }
        Err(_) => assert!(rt; false),
    }
    let breaks: [(usize, &[u8], PageFault); 5] = [
        (0, &[0xe9], PageFault::Magic { found: 0x69f6c2e9 }),
        (
            0,
            &[0x69, 0xf6, 0xc2, 0xe8, 0, 0],
            PageFault::Magic { found: 0xe8c2f669 },
        ),
        (5, &[0x08], PageFault::Size { found: 2048 }),
        (12, &[5], PageFault::Kind { found: 5 }),
        (12, &[6], PageFault::Kind { found: 6 }),
    ];
    for (at, bytes, fault) in breaks {
        let mut broken = page;
        place(&mut broken, at, bytes);
        assert_eq!(rt; Header::of(&broken), Err(fault), "at {at}");
    }
}

#[test]
fn the_first_broken_condition_of_a_page_is_told(rt: HostRuntime) {
    let breaks: [(usize, &[u8], KeyKind, PageFault); 7] = [
        (
            24,
            &[0xff, 0xff],
            KeyKind::Text,
            PageFault::Bounds {
                count: 65535,
                bytes: 3,
            },
        ),
        (
            26,
            &[0x00, 0x04],
            KeyKind::Text,
            PageFault::Bounds {
                count: 2,
                bytes: 1024,
            },
        ),
        (32, &[0x00], KeyKind::Text, PageFault::Ends { index: 0 }),
        (
            32,
            &[0x03, 0x00, 0x01, 0x00],
            KeyKind::Text,
            PageFault::Ends { index: 1 },
        ),
        (34, &[0x02], KeyKind::Text, PageFault::Ends { index: 2 }),
        (24, &[0x00], KeyKind::Text, PageFault::Ends { index: 0 }),
        (0, &[], KeyKind::I32, PageFault::Ends { index: 0 }),
    ];
    for (at, bytes, kind, fault) in breaks {
        let mut page = root_leaf();
        place(&mut page, at, bytes);
        match kind {
            KeyKind::Text => assert_eq!(rt; check(&page, KeyKind::Text), Err(fault), "at {at}"),
            _ => assert_eq!(rt; check(&page, KeyKind::I32), Err(fault), "at {at}"),
        }
    }
    assert_eq!(rt; check(&root_leaf(), KeyKind::Text), Ok(()));
}

/// How many of 91 keys of one byte a page takes, before the first that it doesn't.
fn letters_put() -> u8 {
    let mut page = [0u8; 1024];
    blank(&mut page);
    for byte in 0..91u8 {
        if !put(&mut page, KeyKind::Text, &[byte], -7) {
            return byte;
        }
    }
    91
}

#[test]
fn a_page_takes_rows_up_to_its_last_byte(rt: HostRuntime) {
    let mut page = [0u8; 1024];
    blank(&mut page);
    let long = [0x62u8; 255];
    let (first, second, third) = ([0x63u8; 255], [0x64u8; 255], [0x65u8; 255]);
    for key in [third, first, second] {
        assert!(rt; put(&mut page, KeyKind::Text, &key, i64::MIN));
    }
    assert!(rt; !put(&mut page, KeyKind::Text, &long[..192], 0));
    assert!(rt; put(&mut page, KeyKind::Text, &long[..191], i64::MAX));
    assert!(rt; free(&page) == Some(0));
    assert!(rt; !put(&mut page, KeyKind::Text, b"a", 0));
    assert_eq!(rt; letters_put(), 90);
    let want: [(&[u8], i64); 4] = [
        (&long[..191], i64::MAX),
        (&first, i64::MIN),
        (&second, i64::MIN),
        (&third, i64::MIN),
    ];
    assert!(rt; has_rows(&page, &want));
}

/// Puts a row for each key but the second, not in their order.
fn are_put(page: &mut [u8; 1024], kind: KeyKind, keys: &[&[u8]; 6]) -> bool {
    for i in [3, 5, 0, 4, 2] {
        if !put(page, kind, keys[i], i as i64) {
            return false;
        }
    }
    true
}

/// Whether each key is at its place.
fn are_found(page: &[u8; 1024], kind: KeyKind, keys: &[&[u8]; 6]) -> bool {
    for i in 0..6 {
        if find(page, kind, keys[i]) != Some(Ok(i)) {
            return false;
        }
    }
    true
}

#[test]
fn keys_ascend_by_their_kind(rt: HostRuntime) {
    let least: &[u8] = &[0, 0, 0, 0, 0, 0, 0, 0x80];
    let most: &[u8] = &[0xff, 0xff, 0xff, 0xff, 0xff, 0xff, 0xff, 0x7f];
    let minus: &[u8] = &[0xff; 8];
    let zero: &[u8] = &[0; 8];
    let one: &[u8] = &[1, 0, 0, 0, 0, 0, 0, 0];
    let next: &[u8] = &[0, 1, 0, 0, 0, 0, 0, 0];
    let far: [u8; 255] = [0xff; 255];
    let table: [(KeyKind, [&[u8]; 6]); 5] = [
        (KeyKind::Text, [&[0], b"a", b"ab", b"b", &[0xff], &far]),
        (
            KeyKind::I32,
            [
                &least[4..],
                &minus[..4],
                &zero[..4],
                &one[..4],
                &next[..4],
                &most[4..],
            ],
        ),
        (
            KeyKind::U32,
            [
                &zero[..4],
                &one[..4],
                &next[..4],
                &most[4..],
                &least[4..],
                &minus[..4],
            ],
        ),
        (KeyKind::I64, [least, minus, zero, one, next, most]),
        (KeyKind::U64, [zero, one, next, most, least, minus]),
    ];
    for (kind, keys) in table {
        let mut page = [0u8; 1024];
        blank(&mut page);
        assert!(rt; are_put(&mut page, kind, &keys), "{kind:?}");
        assert!(rt; !put(&mut page, kind, keys[3], 9));
        assert!(rt; find(&page, kind, keys[1]) == Some(Err(1)), "{kind:?}");
        assert!(rt; put(&mut page, kind, keys[1], 1));
        assert!(rt; are_found(&page, kind, &keys), "{kind:?}");
    }
}

#[test]
fn rows_go_out_and_move(rt: HostRuntime) {
    let mut page = [0u8; 1024];
    let mut into = [5u8; 1024];
    blank(&mut page);
    let rows: [(&[u8], i64); 5] = [
        (b"eta", 5),
        (b"b", 2),
        (b"cc", 3),
        (b"alpha", 1),
        (b"dodo", 4),
    ];
    for (key, value) in rows {
        assert!(rt; put(&mut page, KeyKind::Text, key, value));
    }
    assert!(rt; cut(&mut page, &mut into));
    assert!(rt; has_rows(&page, &[(b"alpha", 11)]));
    assert!(rt; has_rows(&into, &[(b"cc", 3), (b"dodo", 4), (b"eta", 5)]));
    let links = Links {
        left: 2048,
        right: -9,
        overflow: i64::MAX,
    };
    assert!(rt; page_links(&page) == links && page_links(&into) == NULL_LINKS);
}

/// Takes the second row of five out, moves those behind the first into another page, and writes the links.
fn cut(page: &mut [u8; 1024], into: &mut [u8; 1024]) -> bool {
    match PageMut::of(page, KeyKind::Text) {
        Ok(mut page) => {
            let five = page.view().count() == 5;
            if five {
                page.set_value(0, 11);
                page.set_left(2048);
                page.set_right(-9);
                page.set_overflow(i64::MAX);
                page.remove(1);
                page.split(into, 1);
            }
            five
        }
        Err(_) => false,
    }
}

#[test]
fn a_page_of_any_bytes_has_an_answer(rt: HostRuntime) {
    let mut state = 7u64;
    let mut good = 0u32;
    for _ in 0..1000 {
        let mut page = [0u8; 1024];
        for byte in page.iter_mut() {
            state = state
                .wrapping_mul(6364136223846793005)
                .wrapping_add(1442695040888963407);
            *byte = (state >> 56) as u8 & 3;
        }
        // few rows and few bytes of keys, so that the ends of keys are reached; one page in sixteen has none of both
        page[25] = 0;
        page[27] = 0;
        if find(&page, KeyKind::Text, b"k").is_some() {
            good = good.wrapping_add(1);
        }
        assert!(rt; Header::of(&page).is_err());
    }
    assert!(rt; good > 0 && good < 1000);
}
