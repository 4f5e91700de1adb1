// Rows, areas by hand, and areas of any bytes.
use bfs_smalldata::{AreaFault, Item, find, fits, list_end, put, take};
use std::test::Fail;

const TEXT: u32 = 0x43535452;

const RAW: u32 = 0x52415754;

const OWN_NAME: &[u8] = &[0x13];

// Puts an item where the area is one and has room.
fn put_if(area: &mut [u8], kind: u32, name: &[u8], bytes: &[u8]) -> bool {
    if name.is_empty() || name.len() > 255 {
        return false;
    }
    match list_end(area) {
        Err(_) => false,
        Ok(_) => {
            if !fits(area, name, bytes.len()) {
                return false;
            }
            put(area, kind, name, bytes);
            true
        }
    }
}

fn find_if(area: &[u8], name: &[u8]) -> Option<Item> {
    match list_end(area) {
        Err(_) => None,
        Ok(_) => find(area, name),
    }
}

// Whether the items end there, and this is the one of this name.
fn has(area: &[u8], end: usize, name: &[u8], item: Item) -> bool {
    list_end(area) == Ok(end) && find_if(area, name) == Some(item)
}

fn take_if(area: &mut [u8], name: &[u8]) -> bool {
    match list_end(area) {
        Err(_) => false,
        Ok(_) => take(area, name),
    }
}

// Puts an item of one byte, then none of 766 bytes, and one of 765.
fn puts_most(area: &mut [u8]) -> bool {
    let bytes = [0x7a; 766];
    put_if(area, TEXT, OWN_NAME, b"a")
        && !put_if(area, RAW, b"x", &bytes)
        && list_end(area) == Ok(14)
        && put_if(area, RAW, b"x", &bytes[..765])
}

#[test]
fn an_area_of_792_bytes_takes_765_beside_a_name_of_one_letter(rt: HostRuntime) {
    let mut area = [0u8; 792];
    let place = Item {
        kind: RAW,
        at: 26,
        len: 765,
    };
    assert!(rt; puts_most(&mut area));
    assert!(rt; has(&area, 792, b"x", place));
    let head = [
        0x52, 0x54, 0x53, 0x43, 1, 0, 1, 0, 0x13, 0, 0, 0, 0x61, 0, 0x54, 0x57, 0x41, 0x52, 1, 0,
        0xfd, 2, 0x78, 0, 0, 0, 0x7a,
    ];
    assert!(rt; area.starts_with(&head));
    assert_eq!(rt; (area[790], area[791]), (0x7a, 0));
}

// Puts three items, of which the last one takes the place of the first.
fn puts_three(area: &mut [u8]) -> bool {
    put_if(area, TEXT, OWN_NAME, b"a")
        && put_if(area, RAW, b"x", b"12")
        && put_if(area, TEXT, OWN_NAME, b"long")
}

// Whether the item is taken, and then isn't there.
fn takes_once(area: &mut [u8]) -> bool {
    take_if(area, OWN_NAME) && !take_if(area, OWN_NAME)
}

#[test]
fn a_new_item_stands_where_the_old_one_of_its_name_stood(rt: HostRuntime) {
    let own = Item {
        kind: TEXT,
        at: 12,
        len: 4,
    };
    let other = Item {
        kind: RAW,
        at: 29,
        len: 2,
    };
    let moved = Item {
        kind: RAW,
        at: 12,
        len: 2,
    };
    let mut area = [0u8; 64];
    assert!(rt; puts_three(&mut area));
    assert!(rt; has(&area, 32, OWN_NAME, own));
    assert!(rt; has(&area, 32, b"x", other));
    assert!(rt; takes_once(&mut area));
    assert!(rt; has(&area, 15, b"x", moved));
}

#[test]
fn the_list_ends_at_an_empty_name_or_with_fewer_than_eight_bytes(rt: HostRuntime) {
    let empty: &[u8] = &[];
    let seven: &[u8] = &[1; 7];
    let eight: &[u8] = &[1, 0, 0, 0, 0, 0, 9, 9];
    let one: &[u8] = &[1, 0, 0, 0, 1, 0, 0, 0, 0x61, 0, 0, 0, 0];
    let then_seven: &[u8] = &[
        1, 0, 0, 0, 1, 0, 0, 0, 0x61, 0, 0, 0, 0, 1, 1, 1, 1, 1, 1, 1,
    ];
    let short: &[u8] = &[1, 0, 0, 0, 1, 0, 0, 0, 0x61, 0, 0, 0];
    let then_long: &[u8] = &[
        1, 0, 0, 0, 1, 0, 0, 0, 0x61, 9, 9, 9, 9, 1, 0, 0, 0, 0xff, 0xff, 0xff, 0xff,
    ];
    let rows = [
        (empty, Ok(0)),
        (seven, Ok(0)),
        (eight, Ok(0)),
        (one, Ok(13)),
        (then_seven, Ok(13)),
        (short, Err(AreaFault { at: 0 })),
        (then_long, Err(AreaFault { at: 13 })),
    ];
    for (area, end) in rows {
        assert_eq!(rt; list_end(area), end);
    }
}

#[test]
fn an_area_of_any_bytes_has_an_answer(rt: HostRuntime) {
    let mut state = 7u64;
    for _ in 0..2000 {
        let mut area = [0u8; 96];
        for byte in area.iter_mut() {
            state = state
                .wrapping_mul(6364136223846793005)
                .wrapping_add(1442695040888963407);
            let drawn = (state >> 56) as u8;
            *byte = if drawn < 128 { 0 } else { drawn & 15 };
        }
        let name = [area[8]];
        if put_if(&mut area, RAW, &name, b"12") {
            match find_if(&area, &name) {
                None => assert!(rt; false),
                Some(item) => assert_eq!(rt; item.len, 2),
            }
            assert!(rt; take_if(&mut area, &name));
        } else {
            let _ = take_if(&mut area, &name);
        }
    }
}

// Whether an item of this name with so many bytes fits, if the area is one.
fn fits_if(area: &[u8], name: &[u8], size: usize) -> Option<bool> {
    match list_end(area) {
        Ok(_) => Some(fits(area, name, size)),
        Err(_) => None,
    }
}

#[test]
fn an_item_has_at_most_65535_bytes(rt: HostRuntime) {
    let area = [0u8; 66_000];
    assert_eq!(rt; fits_if(&area, b"x", 65_535), Some(true));
    assert_eq!(rt; fits_if(&area, b"x", 65_536), Some(false));
}
