// Worked calls, with the replies that they must have.
use bfs_model::Model;
use bfs_plain::Node;
use bfs_tree::{Bytes, Call, Entry, FoundRow, Key, KeyKind, Kind, MakeKind, Reply};
use std::alloc::{AllocError, Global};
use std::collections::BTreeMap;
use std::test::Fail;

const ROOT: u64 = 514;

fn word(reply: &Reply) -> &'static str {
    match reply {
        Reply::NotFound => "notfound",
        Reply::NotDir => "notdir",
        Reply::NotFile => "notfile",
        Reply::NotLink => "notlink",
        Reply::NameBad => "namebad",
        Reply::TooBig => "toobig",
        Reply::Exists => "exists",
        Reply::NotEmpty => "notempty",
        Reply::Inside => "inside",
        Reply::NoAttr => "noattr",
        Reply::FloatIndex => "floatindex",
        Reply::IndexCount => "indexcount",
        Reply::NoIndex => "noindex",
        Reply::BuiltIn => "builtin",
        Reply::KeyKind => "keykind",
        Reply::PastEnd { .. } => "pastend",
        Reply::Held { .. } => "held",
        _ => "ok",
    }
}

fn push_number(alloc: Global, all: &mut Vec<u8>, number: i64) -> Result<(), AllocError> {
    all.extend_from_slice(format!(in alloc; "{number}")?.as_bytes())?;
    Ok(())
}

fn push_key(alloc: Global, all: &mut Vec<u8>, key: &Key) -> Result<(), AllocError> {
    match key {
        Key::Text(text) => all.extend_from_slice(text.as_slice())?,
        Key::I32(z) => push_number(alloc, all, i64::from(*z))?,
        Key::I64(z) => push_number(alloc, all, *z)?,
        _ => all.push(b'?')?,
    }
    Ok(())
}

fn push_names(all: &mut Vec<u8>, names: &[Bytes]) -> Result<(), AllocError> {
    for name in names {
        all.push(b' ')?;
        all.extend_from_slice(name.as_slice())?;
    }
    Ok(())
}

fn push_rows(alloc: Global, all: &mut Vec<u8>, rows: &[FoundRow]) -> Result<(), AllocError> {
    for row in rows {
        all.push(b' ')?;
        push_key(alloc, all, &row.key)?;
        all.push(b'=')?;
        all.extend_from_slice(row.name.as_slice())?;
    }
    Ok(())
}

fn push_count(alloc: Global, all: &mut Vec<u8>, number: i64) -> Result<(), AllocError> {
    all.push(b' ')?;
    push_number(alloc, all, number)
}

/// What a reply holds, behind its word.
fn push_reply(alloc: Global, all: &mut Vec<u8>, reply: &Reply) -> Result<(), AllocError> {
    match reply {
        Reply::Names { names } => push_names(all, names.as_slice()),
        Reply::Rows { rows } => push_rows(alloc, all, rows.as_slice()),
        Reply::Target { bytes } => {
            all.push(b' ')?;
            all.extend_from_slice(bytes.as_slice())
        }
        Reply::Indices { rows } => push_count(alloc, all, rows.as_slice().len() as i64),
        Reply::Held { session } => push_count(alloc, all, i64::from(*session)),
        _ => Ok(()),
    }
}

/// A reply as one line: its word, and what it holds.
fn text(alloc: Global, reply: &Reply) -> Result<Vec<u8>, AllocError> {
    let mut all = Vec::from_slice(alloc, word(reply).as_bytes())?;
    push_reply(alloc, &mut all, reply)?;
    Ok(all)
}

fn make(
    alloc: Global,
    dir: u64,
    name: &[u8],
    kind: MakeKind,
    mode: u32,
) -> Result<Call, AllocError> {
    Ok(Call::Make {
        dir,
        name: Bytes::from_slice(alloc, name)?,
        kind,
        mode,
    })
}

fn folder(alloc: Global, dir: u64, name: &[u8]) -> Result<Call, AllocError> {
    make(alloc, dir, name, MakeKind::Dir, 0o755)
}

fn file(alloc: Global, name: &[u8]) -> Result<Call, AllocError> {
    make(alloc, ROOT, name, MakeKind::File, 0o644)
}

fn link(alloc: Global, name: &[u8], target: &[u8]) -> Result<Call, AllocError> {
    let target = Bytes::from_slice(alloc, target)?;
    make(alloc, ROOT, name, MakeKind::Link { target }, 0o777)
}

fn remove(alloc: Global, dir: u64, name: &[u8]) -> Result<Call, AllocError> {
    Ok(Call::Remove {
        dir,
        name: Bytes::from_slice(alloc, name)?,
    })
}

fn rename(
    alloc: Global,
    dir: u64,
    name: &[u8],
    to_dir: u64,
    to_name: &[u8],
) -> Result<Call, AllocError> {
    Ok(Call::Rename {
        dir,
        name: Bytes::from_slice(alloc, name)?,
        to_dir,
        to_name: Bytes::from_slice(alloc, to_name)?,
    })
}

fn lookup(alloc: Global, name: &[u8]) -> Result<Call, AllocError> {
    Ok(Call::Lookup {
        dir: ROOT,
        name: Bytes::from_slice(alloc, name)?,
    })
}

/// Writes the number 5 as an attribute of the node 0.
fn write_five(alloc: Global, name: &[u8]) -> Result<Call, AllocError> {
    Ok(Call::AttrWrite {
        id: 0,
        name: Bytes::from_slice(alloc, name)?,
        kind: 0x4c4f_4e47,
        bytes: Bytes::from_slice(alloc, &[5, 0, 0, 0])?,
    })
}

fn read_attribute(alloc: Global, name: &[u8]) -> Result<Call, AllocError> {
    Ok(Call::AttrRead {
        id: 0,
        name: Bytes::from_slice(alloc, name)?,
    })
}

fn remove_attribute(alloc: Global, name: &[u8]) -> Result<Call, AllocError> {
    Ok(Call::AttrRemove {
        id: 0,
        name: Bytes::from_slice(alloc, name)?,
    })
}

fn make_index(alloc: Global, name: &[u8], kind: KeyKind) -> Result<Call, AllocError> {
    Ok(Call::IndexMake {
        name: Bytes::from_slice(alloc, name)?,
        kind,
    })
}

fn remove_index(alloc: Global, name: &[u8]) -> Result<Call, AllocError> {
    Ok(Call::IndexRemove {
        name: Bytes::from_slice(alloc, name)?,
    })
}

fn find(alloc: Global, name: &[u8], low: Key, high: Key) -> Result<Call, AllocError> {
    Ok(Call::IndexFind {
        name: Bytes::from_slice(alloc, name)?,
        low,
        high,
    })
}

fn find_names(alloc: Global, low: &[u8], high: &[u8]) -> Result<Call, AllocError> {
    let low = Key::Text(Bytes::from_slice(alloc, low)?);
    let high = Key::Text(Bytes::from_slice(alloc, high)?);
    find(alloc, b"name", low, high)
}

/// One call on names and nodes. New nodes get the first ids that are free.
fn node_call(alloc: Global, number: u8) -> Result<Call, AllocError> {
    match number {
        1 => folder(alloc, ROOT, b"a"),
        2 => folder(alloc, 0, b"b"),
        3 => rename(alloc, ROOT, b"a", 1, b"c"),
        4 => remove(alloc, ROOT, b"a"),
        5 => remove(alloc, 0, b"b"),
        6 => file(alloc, &[b'n'; 256]),
        7 => file(alloc, &[b'n'; 255]),
        8 => file(alloc, b"a"),
        17 => Ok(Call::ReadLink { id: ROOT }),
        18 => Ok(Call::SetSize { id: ROOT, size: 1 }),
        19 => Ok(Call::SetSize {
            id: 1,
            size: 1_073_741_825,
        }),
        20 => Ok(Call::SetMode {
            id: 1,
            mode: 0o600,
            uid: 1,
            gid: 2,
        }),
        21 => lookup(alloc, b".."),
        22 => lookup(alloc, &[b'n'; 256]),
        23 => Ok(Call::List { dir: 0 }),
        27 => rename(alloc, ROOT, b"a", ROOT, b"b"),
        29 => Ok(Call::List { dir: ROOT }),
        30 => rename(alloc, ROOT, b"b", ROOT, b"b"),
        _ => remove(alloc, ROOT, &[b'n'; 255]),
    }
}

/// One call on attributes and indices.
fn index_call(alloc: Global, number: u8) -> Result<Call, AllocError> {
    match number {
        9 => write_five(alloc, b"weight"),
        10 => make_index(alloc, b"weight", KeyKind::F32),
        11 => make_index(alloc, b"weight", KeyKind::I32),
        12 => find(alloc, b"weight", Key::I64(0), Key::I64(9)),
        13 => remove_index(alloc, b"name"),
        14 => remove_index(alloc, b"zz"),
        15 => read_attribute(alloc, b"x"),
        16 => remove_attribute(alloc, b"weight"),
        24 => find(alloc, b"weight", Key::I32(0), Key::I32(9)),
        25 => Ok(Call::AttrList { id: 1 }),
        26 => Ok(Call::IndexList),
        _ => find_names(alloc, b"a", b"c"),
    }
}

/// One call that has nodes take the place of others, and of those on a tree without indices.
fn replacing_call(alloc: Global, number: u8) -> Result<Call, AllocError> {
    match number {
        41 => link(alloc, b"a", b"x"),
        42 => link(alloc, b"b", b"y"),
        43 => rename(alloc, ROOT, b"a", ROOT, b"b"),
        44 => Ok(Call::List { dir: ROOT }),
        46 => find_names(alloc, b"a", b"z"),
        47 => folder(alloc, ROOT, b"d"),
        48 => file(alloc, b"f"),
        49 => rename(alloc, ROOT, b"f", ROOT, b"d"),
        50 => rename(alloc, ROOT, b"d", ROOT, b"f"),
        51 => folder(alloc, ROOT, b"e"),
        52 => folder(alloc, 2, b"x"),
        53 => rename(alloc, ROOT, b"d", ROOT, b"e"),
        54 => remove(alloc, 2, b"x"),
        55 => rename(alloc, ROOT, b"f", ROOT, b"f"),
        56 => folder(alloc, ROOT, b"a"),
        57 => make_index(alloc, b"w", KeyKind::I32),
        58 => remove_index(alloc, b"name"),
        _ => Ok(Call::IndexList),
    }
}

fn hold(at: u64, length: u64, write: bool) -> Call {
    Call::Hold {
        id: 0,
        at,
        length,
        write,
    }
}

fn release(alloc: Global, bytes: &[u8], whole: bool) -> Result<Call, AllocError> {
    Ok(Call::Release {
        id: 0,
        bytes: Bytes::from_slice(alloc, bytes)?,
        whole,
        before: 0,
        after: 0,
    })
}

/// One call on the file 0.
fn holding_call(alloc: Global, number: u8) -> Result<Call, AllocError> {
    match number {
        61 => file(alloc, b"f"),
        62 => Ok(Call::SetSize { id: 0, size: 5 }),
        63 => Ok(hold(0, 5, true)),
        64 => remove(alloc, ROOT, b"f"),
        65 => Ok(Call::SetSize { id: 0, size: 3 }),
        66 => Ok(hold(1, 2, false)),
        67 => release(alloc, b"hello", true),
        68 => Ok(hold(3, 3, false)),
        69 => Ok(hold(5, 0, false)),
        70 => release(alloc, b"", true),
        71 => Ok(hold(0, 5, false)),
        72 => Ok(hold(1, 2, true)),
        73 => release(alloc, b"", false),
        74 => release(alloc, b"", false),
        75 => Ok(hold(2, 3, true)),
        76 => release(alloc, b"abc", true),
        77 => release(alloc, b"hxabc", true),
        78 => release(alloc, b"hxabd", true),
        _ => release(alloc, b"hxab", true),
    }
}

fn call_of(alloc: Global, number: u8) -> Result<Call, AllocError> {
    match number {
        9..=16 | 24..=26 | 28 => index_call(alloc, number),
        0..=40 => node_call(alloc, number),
        41..=60 => replacing_call(alloc, number),
        _ => holding_call(alloc, number),
    }
}

/// The session that makes a call.
fn session_of(number: u8) -> u32 {
    match number {
        66 | 73 => 2,
        72 | 74 | 75 | 76 => 3,
        _ => 1,
    }
}

/// The reply to a call. A release that may not be so is answered NotFound here.
fn step(alloc: Global, tree: &mut Model, number: u8) -> Result<Reply, AllocError> {
    let call = call_of(alloc, number)?;
    let session = session_of(number);
    if tree.is_ready(session, &call) {
        tree.apply(session, &call, i64::from(number))
    } else {
        Ok(Reply::NotFound)
    }
}

/// The call has this reply.
fn does(alloc: Global, tree: &mut Model, number: u8, want: &str) -> Result<bool, AllocError> {
    let reply = step(alloc, tree, number)?;
    Ok(text(alloc, &reply)?.as_slice() == want.as_bytes())
}

/// How many of the calls have their replies, one after another, before the first that has another.
fn done(alloc: Global, tree: &mut Model, rows: &[(u8, &'static str)]) -> Result<usize, AllocError> {
    for (i, row) in rows.iter().enumerate() {
        if !does(alloc, tree, row.0, row.1)? {
            return Ok(i);
        }
    }
    Ok(rows.len())
}

#[test]
fn calls_have_the_replies_of_the_worked_rows(rt: HostRuntime) -> Result<(), Fail> {
    let mut tree = Model::new(rt.alloc(), ROOT, 0)?;
    let rows = [
        (29, "ok"),
        (1, "ok"),
        (2, "ok"),
        (3, "inside"),
        (4, "notempty"),
        (2, "exists"),
        (5, "ok"),
        (4, "ok"),
        (4, "notfound"),
        (8, "ok"),
        (2, "notdir"),
        (23, "notdir"),
        (6, "namebad"),
        (7, "ok"),
        (22, "notfound"),
        (9, "ok"),
        (10, "floatindex"),
        (11, "ok"),
        (24, "ok 5=a"),
        (12, "keykind"),
        (13, "builtin"),
        (14, "noindex"),
        (15, "noattr"),
        (16, "ok"),
        (24, "ok"),
        (17, "notlink"),
        (18, "notfile"),
        (19, "toobig"),
        (20, "ok"),
        (21, "notfound"),
        (25, "ok"),
        (26, "ok 4"),
        (31, "ok"),
        (29, "ok a"),
        (27, "ok"),
        (28, "ok b=b"),
        (30, "ok"),
        (29, "ok b"),
    ];
    assert_eq!(rt; done(rt.alloc(), &mut tree, &rows)?, 38);
    Ok(())
}

/// The target of the link of this name in the root is this one.
fn leads_to(tree: &Model, name: &[u8], target: &[u8]) -> Result<bool, AllocError> {
    let Reply::Found { id, .. } = tree.lookup(ROOT, name) else {
        return Ok(false);
    };
    match tree.read_link(id)? {
        Reply::Target { bytes } => Ok(bytes.as_slice() == target),
        _ => Ok(false),
    }
}

/// How many of the calls have their replies, and whether the link `b` leads to `x` then.
fn done_and_leads(
    alloc: Global,
    tree: &mut Model,
    rows: &[(u8, &'static str)],
) -> Result<(usize, bool), AllocError> {
    let count = done(alloc, tree, rows)?;
    Ok((count, leads_to(tree, b"b", b"x")?))
}

#[test]
fn a_link_takes_the_place_of_another(rt: HostRuntime) -> Result<(), Fail> {
    let mut tree = Model::new(rt.alloc(), ROOT, 0)?;
    let rows = [
        (41, "ok"),
        (42, "ok"),
        (43, "ok"),
        (44, "ok b"),
        (46, "ok b=b"),
    ];
    assert_eq!(rt; done_and_leads(rt.alloc(), &mut tree, &rows)?, (5, true));
    Ok(())
}

#[test]
fn directories_are_replaced_by_directories_where_they_are_empty(
    rt: HostRuntime,
) -> Result<(), Fail> {
    let mut tree = Model::new(rt.alloc(), ROOT, 0)?;
    let rows = [
        (47, "ok"),
        (48, "ok"),
        (49, "exists"),
        (50, "exists"),
        (51, "ok"),
        (52, "ok"),
        (53, "notempty"),
        (54, "ok"),
        (53, "ok"),
        (44, "ok e f"),
        (55, "ok"),
    ];
    assert_eq!(rt; done(rt.alloc(), &mut tree, &rows)?, 11);
    Ok(())
}

/// A root with nothing in it.
fn bare_root(alloc: Global) -> Node {
    Node {
        kind: Kind::Dir,
        name: Bytes::new(Vec::new(alloc)),
        parent: ROOT,
        mode: 0o755,
        uid: 0,
        gid: 0,
        created: 0,
        modified: 0,
        changed: 0,
        size: 0,
        target: Bytes::new(Vec::new(alloc)),
        attributes: BTreeMap::new(alloc),
    }
}

/// A tree of its root alone, without indices.
fn without_indices(alloc: Global) -> Result<Model, AllocError> {
    let mut nodes = BTreeMap::new(alloc);
    let Ok(_) = nodes.insert(ROOT, bare_root(alloc)) else {
        return Err(AllocError);
    };
    Ok(Model::of(
        alloc,
        ROOT,
        nodes,
        BTreeMap::new(alloc),
        BTreeMap::new(alloc),
    ))
}

#[test]
fn no_index_is_made_on_a_tree_without_indices(rt: HostRuntime) -> Result<(), Fail> {
    let mut tree = without_indices(rt.alloc())?;
    let rows = [
        (56, "ok"),
        (46, "noindex"),
        (57, "noindex"),
        (58, "noindex"),
        (59, "ok 0"),
    ];
    assert_eq!(rt; done(rt.alloc(), &mut tree, &rows)?, 5);
    Ok(())
}

/// The node was made as a file at this moment, and has not changed since.
fn is_as_made(tree: &Model, id: u64, stamp: i64) -> Result<bool, AllocError> {
    match tree.stat(id)? {
        Reply::Info { info } => {
            let owned = info.mode == 0o644 && info.uid == 0 && info.gid == 0 && info.size == 0;
            let stamped = info.created == stamp && info.modified == stamp && info.changed == stamp;
            Ok(owned && stamped)
        }
        _ => Ok(false),
    }
}

/// The names in a directory are just this one.
fn lists(tree: &Model, dir: u64, name: &[u8]) -> Result<bool, AllocError> {
    match tree.list(dir)? {
        Reply::Names { names } => {
            let names = names.as_slice();
            Ok(names.len() == 1 && names[0].as_slice() == name)
        }
        _ => Ok(false),
    }
}

/// Makes the folder 0 with the file 1 in it.
fn makes_in_folder(tree: &mut Model) -> Result<(), AllocError> {
    tree.make(ROOT, b"a", &MakeKind::Dir, 0o755, 65_536_000)?;
    tree.make(0, b"f", &MakeKind::File, 0o644, 65_536_002)?;
    Ok(())
}

/// Whether the file is there then, and as it was made.
fn made_in_folder(tree: &mut Model) -> Result<[bool; 2], AllocError> {
    makes_in_folder(tree)?;
    Ok([lists(tree, 0, b"f")?, is_as_made(tree, 1, 65_536_002)?])
}

#[test]
fn a_file_in_a_folder_has_the_stamps_of_its_entry(rt: HostRuntime) -> Result<(), Fail> {
    let mut tree = Model::new(rt.alloc(), ROOT, 65_536_000)?;
    assert_eq!(rt; made_in_folder(&mut tree)?, [true, true]);
    Ok(())
}

fn digit(k: usize) -> u8 {
    b'0' + (k % 10) as u8
}

/// The letter f and three digits.
fn short_name(k: usize) -> [u8; 4] {
    [b'f', digit(k / 100), digit(k / 10), digit(k)]
}

/// The rows are of the nodes with the ids 0, 1 and so on.
fn are_in_order(rows: &[FoundRow]) -> bool {
    let mut id = 0;
    for row in rows {
        if row.id != id || row.name.as_slice() != short_name(id as usize).as_slice() {
            return false;
        }
        id = row.id.saturating_add(1);
    }
    true
}

/// Of a hundred and twenty-six empty files, the index of sizes lists each, in the order of making.
fn are_listed(tree: &mut Model) -> Result<bool, AllocError> {
    for k in 0..126 {
        tree.make(ROOT, &short_name(k), &MakeKind::File, 0o644, 1)?;
    }
    match tree.index_find(b"size", &Key::I64(0), &Key::I64(0))? {
        Reply::Rows { rows } => Ok(rows.as_slice().len() == 126 && are_in_order(rows.as_slice())),
        _ => Ok(false),
    }
}

fn resize(tree: &mut Model, id: u64, size: u64, stamp: i64) -> Result<(), AllocError> {
    tree.set_size(id, size, stamp)?;
    Ok(())
}

/// What the index of sizes lists from 1 to 5.
fn sized(alloc: Global, tree: &Model) -> Result<Vec<u8>, AllocError> {
    let found = tree.index_find(b"size", &Key::I64(1), &Key::I64(5))?;
    text(alloc, &found)
}

/// Whether the files are listed, and three of them once they have other sizes.
fn listed_by_size(alloc: Global, tree: &mut Model) -> Result<[bool; 2], AllocError> {
    let listed = are_listed(tree)?;
    resize(tree, 0, 5, 2)?;
    resize(tree, 4, 5, 3)?;
    resize(tree, 2, 1, 4)?;
    let found = sized(alloc, tree)?;
    Ok([
        listed,
        found.as_slice() == b"ok 1=f002 5=f000 5=f004".as_slice(),
    ])
}

#[test]
fn an_index_lists_by_key_and_then_in_the_order_of_making(rt: HostRuntime) -> Result<(), Fail> {
    let mut tree = Model::new(rt.alloc(), ROOT, 0)?;
    assert_eq!(rt; listed_by_size(rt.alloc(), &mut tree)?, [true, true]);
    Ok(())
}

/// Makes an index of numbers, with this reply.
fn makes_index(tree: &mut Model, name: &[u8], want: &str) -> Result<bool, AllocError> {
    let reply = tree.index_make(name, KeyKind::I32, 1)?;
    Ok(word(&reply) == want)
}

/// Twenty-nine indices can be made.
fn are_made(tree: &mut Model) -> Result<bool, AllocError> {
    for k in 0..29 {
        if !makes_index(tree, &short_name(k), "ok")? {
            return Ok(false);
        }
    }
    Ok(true)
}

/// Whether they are made, and whether one more is refused.
fn made_and_refused(tree: &mut Model) -> Result<[bool; 2], AllocError> {
    Ok([are_made(tree)?, makes_index(tree, b"more", "indexcount")?])
}

#[test]
fn a_volume_has_thirty_two_indices(rt: HostRuntime) -> Result<(), Fail> {
    let mut tree = Model::new(rt.alloc(), ROOT, 0)?;
    assert_eq!(rt; made_and_refused(&mut tree)?, [true, true]);
    Ok(())
}

/// Makes a link and reads it back.
fn is_read_back(
    alloc: Global,
    tree: &mut Model,
    name: &[u8],
    target: &[u8],
) -> Result<bool, AllocError> {
    let made = MakeKind::Link {
        target: Bytes::from_slice(alloc, target)?,
    };
    tree.make(ROOT, name, &made, 0o777, 1)?;
    leads_to(tree, name, target)
}

/// Whether a short link and a long one are.
fn are_read_back(alloc: Global, tree: &mut Model) -> Result<[bool; 2], AllocError> {
    let short = is_read_back(alloc, tree, b"s", &[b't'; 143])?;
    let long = is_read_back(alloc, tree, b"l", &[b't'; 144])?;
    Ok([short, long])
}

#[test]
fn links_give_their_targets_back(rt: HostRuntime) -> Result<(), Fail> {
    let mut tree = Model::new(rt.alloc(), ROOT, 0)?;
    assert_eq!(rt; are_read_back(rt.alloc(), &mut tree)?, [true, true]);
    Ok(())
}

/// Asks for what is durable.
fn synced(tree: &mut Model) -> Result<bool, AllocError> {
    if !tree.is_ready(1, &Call::Sync) {
        return Ok(false);
    }
    match tree.apply(1, &Call::Sync, 1)? {
        Reply::Synced { .. } => Ok(true),
        _ => Ok(false),
    }
}

/// The root's children, by name.
fn listed(alloc: Global, tree: &Model) -> Result<Vec<u8>, AllocError> {
    let reply = tree.list(ROOT)?;
    text(alloc, &reply)
}

/// Whether just these names are in the root.
fn has_names(alloc: Global, tree: &Model, names: &str) -> Result<bool, AllocError> {
    let listed = listed(alloc, tree)?;
    Ok(listed.as_slice() == names.as_bytes())
}

/// Makes a file, removes it, and makes another.
fn makes_another(tree: &mut Model) -> Result<(), AllocError> {
    tree.make(ROOT, b"a", &MakeKind::File, 0o644, 2)?;
    tree.remove(ROOT, b"a", 3)?;
    tree.make(ROOT, b"b", &MakeKind::File, 0o644, 4)?;
    Ok(())
}

/// Whether a sync is answered, whether nothing is there behind it, and what is there once those calls are made.
fn synced_and_named(alloc: Global, tree: &mut Model) -> Result<[bool; 3], AllocError> {
    let durable = synced(tree)?;
    let before = has_names(alloc, tree, "ok")?;
    makes_another(tree)?;
    Ok([durable, before, has_names(alloc, tree, "ok b")?])
}

#[test]
fn a_name_is_free_again_and_a_sync_changes_nothing(rt: HostRuntime) -> Result<(), Fail> {
    let mut tree = Model::new(rt.alloc(), ROOT, 0)?;
    assert_eq!(rt;
        synced_and_named(rt.alloc(), &mut tree)?,
        [true, true, true]
    );
    Ok(())
}

/// Three digits and 252 letters.
fn long_name(k: usize) -> [u8; 255] {
    let mut name = [b'x'; 255];
    name[0] = digit(k / 100);
    name[1] = digit(k / 10);
    name[2] = digit(k);
    name
}

/// The names are just those of the numbers that are there.
fn are_those(names: &[Bytes], there: &[bool; 200]) -> bool {
    let mut at = 0;
    for k in 0..200 {
        if there[k] {
            if at >= names.len() || names[at].as_slice() != long_name(k).as_slice() {
                return false;
            }
            at += 1;
        }
    }
    at == names.len()
}

fn is_listed(tree: &Model, there: &[bool; 200]) -> Result<bool, AllocError> {
    match tree.list(ROOT)? {
        Reply::Names { names } => Ok(are_those(names.as_slice(), there)),
        _ => Ok(false),
    }
}

/// Makes two hundred files; after each, the names made so far are listed.
fn make_all(tree: &mut Model, there: &mut [bool; 200]) -> Result<bool, AllocError> {
    for i in 0..200 {
        let k = i * 77 % 200;
        tree.make(ROOT, &long_name(k), &MakeKind::File, 0o644, 1)?;
        there[k] = true;
        if !is_listed(tree, there)? {
            return Ok(false);
        }
    }
    Ok(true)
}

/// Removes them in another order; after each, those that are left are listed.
fn remove_all(tree: &mut Model, there: &mut [bool; 200]) -> Result<bool, AllocError> {
    for i in 0..200 {
        let k = i * 133 % 200;
        tree.remove(ROOT, &long_name(k), 2)?;
        there[k] = false;
        if !is_listed(tree, there)? {
            return Ok(false);
        }
    }
    Ok(true)
}

/// Whether they are listed as they are made and removed, and whether none is left.
fn made_and_removed(alloc: Global, tree: &mut Model) -> Result<[bool; 3], AllocError> {
    let mut there = [false; 200];
    let made = make_all(tree, &mut there)?;
    let removed = remove_all(tree, &mut there)?;
    Ok([made, removed, has_names(alloc, tree, "ok")?])
}

#[test]
fn two_hundred_long_names_are_listed_after_each_call(rt: HostRuntime) -> Result<(), Fail> {
    let mut tree = Model::new(rt.alloc(), ROOT, 0)?;
    assert_eq!(rt;
        made_and_removed(rt.alloc(), &mut tree)?,
        [true, true, true]
    );
    Ok(())
}

/// The bytes that are known at the first six places of the file 0 are these, with `-` where none is.
fn knows(tree: &Model, bytes: &[u8; 6]) -> bool {
    for (place, byte) in bytes.iter().enumerate() {
        if tree.known_at(0, place as u64).unwrap_or(b'-') != *byte {
            return false;
        }
    }
    true
}

/// How many of the calls have their replies, and leave these bytes known, before the first that doesn't.
fn held(
    alloc: Global,
    tree: &mut Model,
    rows: &[(u8, &'static str, [u8; 6])],
) -> Result<usize, AllocError> {
    for (i, row) in rows.iter().enumerate() {
        if !does(alloc, tree, row.0, row.1)? || !knows(tree, &row.2) {
            return Ok(i);
        }
    }
    Ok(rows.len())
}

#[test]
fn holds_conflict_and_whole_writes_are_known(rt: HostRuntime) -> Result<(), Fail> {
    let mut tree = Model::new(rt.alloc(), ROOT, 0)?;
    let rows = [
        (61, "ok", *b"------"),
        (62, "ok", *b"------"),
        (67, "notfound", *b"------"),
        (63, "ok", *b"------"),
        (64, "held 1", *b"------"),
        (65, "held 1", *b"------"),
        (66, "held 1", *b"------"),
        (70, "notfound", *b"------"),
        (67, "ok", *b"hello-"),
        (67, "notfound", *b"hello-"),
        (68, "pastend", *b"hello-"),
        (69, "ok", *b"hello-"),
        (70, "ok", *b"hello-"),
        (71, "ok", *b"hello-"),
        (66, "ok", *b"hello-"),
        (72, "held 1", *b"hello-"),
        (78, "notfound", *b"hello-"),
        (67, "ok", *b"hello-"),
        (72, "held 2", *b"hello-"),
        (65, "held 2", *b"hello-"),
        (73, "ok", *b"hello-"),
        (72, "ok", *b"h--lo-"),
        (74, "ok", *b"h--lo-"),
        (75, "ok", *b"h-----"),
        (76, "ok", *b"h-abc-"),
        (71, "ok", *b"h-abc-"),
        (78, "notfound", *b"h-abc-"),
        (79, "notfound", *b"h-abc-"),
        (77, "ok", *b"h-abc-"),
        (65, "ok", *b"h-a---"),
        (62, "ok", *b"h-a---"),
        (64, "ok", *b"------"),
    ];
    assert_eq!(rt; held(rt.alloc(), &mut tree, &rows)?, 32);
    Ok(())
}

/// An entry of the session 1.
fn entry(call: Result<Call, AllocError>, reply: Reply) -> Result<Entry, AllocError> {
    Ok(Entry {
        session: 1,
        tag: 1,
        stamp: 1,
        call: call?,
        reply,
    })
}

/// One entry of the list below.
fn entry_of(alloc: Global, number: u8) -> Result<Entry, AllocError> {
    match number {
        1 => entry(file(alloc, b"f"), Reply::Made { id: 7 }),
        2 => entry(file(alloc, b"f"), Reply::Made { id: ROOT }),
        3 => entry(file(alloc, b"f"), Reply::Exists),
        4 => entry(Ok(Call::Stat { id: 7 }), Reply::NotFound),
        5 => entry(remove(alloc, ROOT, b"f"), Reply::NotFound),
        6 => entry(
            remove(alloc, ROOT, b"f"),
            Reply::NoSpace { free: 0, needed: 1 },
        ),
        7 => entry(
            Ok(Call::List { dir: ROOT }),
            Reply::NoSpace { free: 0, needed: 1 },
        ),
        8 => entry(
            Ok(Call::Sync),
            Reply::Stopped {
                durable: 0,
                faults: 1,
            },
        ),
        9 => entry(Ok(Call::Sync), Reply::Synced { upto: 3 }),
        _ => entry(remove(alloc, ROOT, b"f"), Reply::Done),
    }
}

/// Whether the entry is taken.
fn follows(alloc: Global, tree: &mut Model, number: u8) -> Result<bool, AllocError> {
    let entry = entry_of(alloc, number)?;
    tree.follow(&entry)
}

/// The entry is taken or not, as it should be, and these names are in the root then.
fn takes(
    alloc: Global,
    tree: &mut Model,
    number: u8,
    want: bool,
    names: &str,
) -> Result<bool, AllocError> {
    let taken = follows(alloc, tree, number)?;
    let named = has_names(alloc, tree, names)?;
    Ok(taken == want && named)
}

/// How many of the entries are taken or not, as they should be, before the first that isn't.
fn followed(
    alloc: Global,
    tree: &mut Model,
    rows: &[(u8, bool, &'static str)],
) -> Result<usize, AllocError> {
    for (i, row) in rows.iter().enumerate() {
        if !takes(alloc, tree, row.0, row.1, row.2)? {
            return Ok(i);
        }
    }
    Ok(rows.len())
}

#[test]
fn a_history_is_followed_where_its_entries_may_come(rt: HostRuntime) -> Result<(), Fail> {
    let mut tree = Model::new(rt.alloc(), ROOT, 0)?;
    let rows = [
        (3, false, "ok"),
        (2, false, "ok"),
        (1, true, "ok f"),
        (1, false, "ok f"),
        (3, true, "ok f"),
        (4, false, "ok f"),
        (5, false, "ok f"),
        (6, true, "ok f"),
        (7, false, "ok f"),
        (8, true, "ok f"),
        (9, true, "ok f"),
        (10, true, "ok"),
        (10, false, "ok"),
        (5, true, "ok"),
    ];
    assert_eq!(rt; followed(rt.alloc(), &mut tree, &rows)?, 14);
    Ok(())
}
