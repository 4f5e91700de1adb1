// Scripts in good and bad words, limits, and a reply of every kind.
use bfs_command::{Calls, Command, Due};
use bfs_script::{Script, ScriptFault, parse, text};
use bfs_text::Path;
use bfs_tree::{
    AttributeRow, Attributes, Bytes, Call, Entry, FoundRow, FoundRows, IndexRow, Indices, Info,
    Key, KeyKind, Kind, Names, Reply,
};
use std::alloc::{AllocError, Global};
use std::test::Fail;

// The number of the first bad line, 0 where there is none.
fn bad_line(alloc: Global, script: &[u8]) -> u32 {
    match parse(alloc, script) {
        Ok(_) => 0,
        Err(ScriptFault::Line { number }) => number,
        Err(ScriptFault::NoMemory) => u32::MAX,
    }
}

#[test]
fn the_first_bad_line_is_told(rt: HostRuntime) -> Result<(), Fail> {
    let alloc = rt.alloc();
    let cases: [(&[u8], u32); 68] = [
        (b"", 0),
        (b"\n", 0),
        (b"# 1 ls", 0),
        (b"1 mkdir /a\n1 mkdir\n", 2),
        (b"17 ls /", 1),
        (b"0 ls /", 1),
        (b"01 ls /", 1),
        (b"16 ls /", 0),
        (b" 1 ls /", 1),
        (b"1  ls /", 1),
        (b"1 ls / ", 1),
        (b"1 ls /\r", 0),
        (b"1 LS /", 1),
        (b"1 l%73 /", 1),
        (b"%31 ls /", 1),
        (b"1", 1),
        (b"1 sync\n\n#\n1 sync now", 4),
        (b"1 make /", 1),
        (b"1 make a", 1),
        (b"1 make /a/", 1),
        (b"1 make //a", 1),
        (b"1 make /a%2Fb", 0),
        (b"1 make /a%2fb", 1),
        (b"1 make /a%", 1),
        (b"1 make /a%4", 1),
        (b"1 mkdir /a /b", 1),
        (b"1 link /a", 1),
        (b"1 link /a x%20y", 0),
        (b"1 rm /", 1),
        (b"1 mv /a /", 1),
        (b"1 mv /a /b", 0),
        (b"1 ls", 1),
        (b"1 stat /a/b/c", 0),
        (b"1 mode / 755 0 0", 0),
        (b"1 mode / 07777 0 0", 1),
        (b"1 mode / 8 0 0", 1),
        (b"1 mode / 755 2147483648 0", 1),
        (b"1 mode / 755 2147483647 1", 0),
        (b"1 size /a 9999999999999999999", 0),
        (b"1 size /a 00000000000000000001", 1),
        (b"1 size /a -1", 1),
        (b"1 readlink /a x", 1),
        (b"1 attr /a x LONG:-2147483648", 0),
        (b"1 attr /a x LONG:2147483648", 1),
        (b"1 attr /a x ULNG:-0", 0),
        (b"1 attr /a x ULNG:-1", 1),
        (b"1 attr /a x LLNG:-9223372036854775809", 1),
        (b"1 attr /a x ULLG:18446744073709551615", 0),
        (b"1 attr /a x ULLG:18446744073709551616", 1),
        (b"1 attr /a x LONG:", 1),
        (b"1 attr /a x LONG:-", 1),
        (b"1 attr /a x CSTR:", 0),
        (b"1 attr /a x RAW:1", 1),
        (b"1 attr /a x RA=T:1", 1),
        (b"1 attr /a x RAWT#0aF", 1),
        (b"1 attr /a x RAWT#", 0),
        (b"1 attr /a x RAWT*100000", 1),
        (b"1 attr /a x RAWT*00000000000000099999", 1),
        (b"1 getattr /a", 1),
        (b"1 mkindex x RAWT", 1),
        (b"1 mkindex x DBLE", 0),
        (b"1 indices x", 1),
        (b"1 find x CSTR:a", 1),
        (b"1 find x FLOT:1 FLOT:2", 1),
        (b"1 find x LONG#00000001 LONG:2", 1),
        (b"1 write /a 0 hello", 1),
        (b"1 read /a 0 65536", 0),
        (b"1 read /a 0 65537", 1),
    ];
    for (script, want) in cases {
        assert_eq!(rt; bad_line(alloc, script), want);
    }
    Ok(())
}

#[test]
fn each_command_is_read(rt: HostRuntime) -> Result<(), Fail> {
    let alloc = rt.alloc();
    let scripts: [&[u8]; 20] = [
        b"1 make /a",
        b"1 mkdir /a",
        b"1 link /a x",
        b"1 rm /a",
        b"1 mv /a /b",
        b"1 ls /",
        b"1 stat /",
        b"1 mode / 755 0 0",
        b"1 size /a 1",
        b"1 readlink /a",
        b"1 attr / x RAWT:1",
        b"1 getattr / x",
        b"1 rmattr / x",
        b"1 attrs /",
        b"1 mkindex x LONG",
        b"1 rmindex x",
        b"1 indices",
        b"1 find x LONG:1 LONG:2",
        b"1 write /a 0 :x",
        b"1 read /a 0 1",
    ];
    for script in scripts {
        assert_eq!(rt; bad_line(alloc, script), 0);
    }
    Ok(())
}

#[test]
fn each_word_of_each_command_is_looked_at(rt: HostRuntime) -> Result<(), Fail> {
    let alloc = rt.alloc();
    let scripts: [&[u8]; 33] = [
        b"1 make x",
        b"1 mkdir /",
        b"1 link / x",
        b"1 link /a %zz",
        b"1 rm a",
        b"1 mv / /b",
        b"1 mv /a b",
        b"1 ls a",
        b"1 stat /a//b",
        b"1 mode a 755 0 0",
        b"1 mode / 9 0 0",
        b"1 mode / 755 x 0",
        b"1 mode / 755 0 x",
        b"1 size a 1",
        b"1 size /a x",
        b"1 readlink a",
        b"1 attr a x RAWT:1",
        b"1 attr / %G0 RAWT:1",
        b"1 attr / x RAWT",
        b"1 getattr a x",
        b"1 getattr / %",
        b"1 rmattr a x",
        b"1 rmattr / %4",
        b"1 attrs a",
        b"1 mkindex % LONG",
        b"1 mkindex x long",
        b"1 rmindex %1",
        b"1 find %zz LONG:1 LONG:2",
        b"1 find x LONG:x LONG:2",
        b"1 find x LONG:1 LONG:x",
        b"1 write /a x :x",
        b"1 read a 0 1",
        b"1 read /a -1 1",
    ];
    for script in scripts {
        assert_eq!(rt; bad_line(alloc, script), 1);
    }
    Ok(())
}

// So many line feeds, and then some bytes.
fn behind_feeds(alloc: Global, feeds: usize, last: &[u8]) -> Result<Vec<u8>, AllocError> {
    let mut script = vec![in alloc; b'\n'; feeds]?;
    script.extend_from_slice(last)?;
    Ok(script)
}

// A comment of so many bytes.
fn comment(alloc: Global, length: usize) -> Result<Vec<u8>, AllocError> {
    vec![in alloc; b'#'; length]
}

#[test]
fn lines_past_the_limits_are_bad(rt: HostRuntime) -> Result<(), Fail> {
    let alloc = rt.alloc();
    let full = behind_feeds(alloc, 1_048_576, b"")?;
    assert_eq!(rt; bad_line(alloc, &full), 0);
    let more = behind_feeds(alloc, 1_048_576, b"#")?;
    assert_eq!(rt; bad_line(alloc, &more), 1_048_577);
    let long = comment(alloc, 4096)?;
    assert_eq!(rt; bad_line(alloc, &long), 0);
    let longer = comment(alloc, 4097)?;
    assert_eq!(rt; bad_line(alloc, &longer), 1);
    Ok(())
}

fn push_path(out: &mut Vec<u8>, path: &Path) -> Result<(), AllocError> {
    for name in path.names() {
        out.push(b'/')?;
        out.extend_from_slice(name.as_slice())?;
    }
    Ok(())
}

fn push_part(out: &mut Vec<u8>, part: &[u8]) -> Result<(), AllocError> {
    out.push(b'|')?;
    out.extend_from_slice(part)
}

// The path, the name, the type and the value of an attribute that a line writes.
fn push_value(out: &mut Vec<u8>, command: &Command) -> Result<(), AllocError> {
    match command {
        Command::AttrWrite {
            path,
            name,
            kind,
            bytes,
        } => {
            push_path(out, path)?;
            push_part(out, name.as_slice())?;
            push_part(out, &kind.to_be_bytes())?;
            push_part(out, bytes.as_slice())
        }
        _ => Ok(()),
    }
}

fn push_values(out: &mut Vec<u8>, alloc: Global, script: &Script) -> Result<(), AllocError> {
    for at in 0..script.len() {
        let line = script.line(alloc, at)?;
        push_value(out, &line.command)?;
    }
    Ok(())
}

// The value of an attribute, as a script spells it.
fn value_in(alloc: Global, script: &[u8]) -> Result<Vec<u8>, AllocError> {
    let mut out = Vec::new(alloc);
    if let Ok(script) = parse(alloc, script) {
        push_values(&mut out, alloc, &script)?;
    }
    Ok(out)
}

#[test]
fn values_are_read_as_they_are_spelled(rt: HostRuntime) -> Result<(), Fail> {
    let alloc = rt.alloc();
    let cases: [(&[u8], &[u8]); 10] = [
        (b"1 attr /a%20b/c x%25 RAWT:y%0Az", b"/a b/c|x%|RAWT|y\nz"),
        (b"1 attr / x LONG:-5", b"|x|LONG|\xfb\xff\xff\xff"),
        (b"1 attr / x ULNG:4294967295", b"|x|ULNG|\xff\xff\xff\xff"),
        (
            b"1 attr / x LLNG:-9223372036854775808",
            b"|x|LLNG|\0\0\0\0\0\0\0\x80",
        ),
        (b"1 attr / x ULLG:258", b"|x|ULLG|\x02\x01\0\0\0\0\0\0"),
        (b"1 attr / x CSTR:hi", b"|x|CSTR|hi\0"),
        (b"1 attr / x CSTR#6869", b"|x|CSTR|hi"),
        (b"1 attr / x LONG#0aFf", b"|x|LONG|\x0a\xff"),
        (b"1 attr / x RAWT*3", b"|x|RAWT|zzz"),
        (b"1 attr / x FLOT:1.5", b"|x|FLOT|1.5"),
    ];
    for (script, want) in cases {
        assert!(rt; value_in(alloc, script)?.as_slice() == want);
    }
    Ok(())
}

fn bytes(alloc: Global, text: &[u8]) -> Result<Bytes, AllocError> {
    Bytes::from_slice(alloc, text)
}

fn info(alloc: Global) -> Result<Info, AllocError> {
    Ok(Info {
        kind: Kind::File,
        name: bytes(alloc, b"f")?,
        parent: 514,
        mode: 0o644,
        uid: 0,
        gid: -1,
        created: 65_536_002,
        modified: 65_536_003,
        changed: 65_536_004,
        size: 5,
    })
}

fn names(alloc: Global) -> Result<Names, AllocError> {
    let mut items = Vec::new(alloc);
    items.push(bytes(alloc, b"a b")?)?;
    items.push(bytes(alloc, b"c=%")?)?;
    Ok(Names::new(items))
}

fn attributes(alloc: Global) -> Result<Attributes, AllocError> {
    let mut items = Vec::new(alloc);
    items.push(AttributeRow {
        kind: 0x5241_5754,
        name: bytes(alloc, b"x")?,
    })?;
    Ok(Attributes::new(items))
}

fn indices(alloc: Global) -> Result<Indices, AllocError> {
    let mut items = Vec::new(alloc);
    items.push(IndexRow {
        kind: KeyKind::I64,
        name: bytes(alloc, b"size")?,
    })?;
    Ok(Indices::new(items))
}

fn rows(alloc: Global) -> Result<FoundRows, AllocError> {
    let mut items = Vec::new(alloc);
    items.push(FoundRow {
        key: Key::I32(-5),
        id: 514,
        name: bytes(alloc, b"")?,
    })?;
    items.push(FoundRow {
        key: Key::Text(bytes(alloc, b"b")?),
        id: 600,
        name: bytes(alloc, b"\xc3\xa9")?,
    })?;
    Ok(FoundRows::new(items))
}

// The text of one entry with this call and reply.
fn line_of(alloc: Global, session: u32, call: Call, reply: Reply) -> Result<Vec<u8>, AllocError> {
    let mut history = Vec::new(alloc);
    history.push(Entry {
        session,
        tag: 7,
        stamp: 1,
        call,
        reply,
    })?;
    text(alloc, &history)
}

// One of the answers below.
fn answer(alloc: Global, number: u8) -> Result<Reply, AllocError> {
    match number {
        1 => Ok(Reply::Done),
        2 => Ok(Reply::Made { id: 600 }),
        3 => Ok(Reply::Synced { upto: 3 }),
        4 => Ok(Reply::Names {
            names: names(alloc)?,
        }),
        5 => Ok(Reply::Info { info: info(alloc)? }),
        6 => Ok(Reply::Target {
            bytes: bytes(alloc, b"x y")?,
        }),
        7 => Ok(Reply::Attr {
            kind: 0x5241_5754,
            bytes: bytes(alloc, b"\x0a\xff")?,
        }),
        8 => Ok(Reply::Attr {
            kind: 0x4c4f_4e20,
            bytes: bytes(alloc, b"")?,
        }),
        9 => Ok(Reply::Attrs {
            rows: attributes(alloc)?,
        }),
        10 => Ok(Reply::Indices {
            rows: indices(alloc)?,
        }),
        _ => Ok(Reply::Rows { rows: rows(alloc)? }),
    }
}

fn has_answer(alloc: Global, number: u8, want: &[u8]) -> Result<bool, AllocError> {
    let reply = answer(alloc, number)?;
    Ok(line_of(alloc, 1, Call::IndexList, reply)?.as_slice() == want)
}

#[test]
fn answers_have_their_words(rt: HostRuntime) -> Result<(), Fail> {
    let alloc = rt.alloc();
    let cases: [(u8, &[u8]); 11] = [
        (1, b"7 1 ok\n"),
        (2, b"7 1 ok\n"),
        (3, b"7 1 ok\n"),
        (4, b"7 1 ok 2 a%20b c%3D%25\n"),
        (5, b"7 1 ok file 0644 0 -1 5 65536002 65536003 65536004\n"),
        (6, b"7 1 ok x%20y\n"),
        (7, b"7 1 ok RAWT 2 0aff\n"),
        (8, b"7 1 ok LON%20 0\n"),
        (9, b"7 1 ok 1 RAWT=x\n"),
        (10, b"7 1 ok 1 LLNG=size\n"),
        (11, b"7 1 ok 2 -5=/ b=%C3%A9\n"),
    ];
    for (number, want) in cases {
        assert!(rt; has_answer(alloc, number, want)?);
    }
    Ok(())
}

// One of the refusals below, or of the two answers behind them.
fn refusal(number: u8) -> Reply {
    match number {
        1 => Reply::NotFound,
        2 => Reply::NotDir,
        3 => Reply::NotFile,
        4 => Reply::NotLink,
        5 => Reply::NameBad,
        6 => Reply::TooBig,
        7 => Reply::Exists,
        8 => Reply::NotEmpty,
        9 => Reply::Inside,
        10 => Reply::NoAttr,
        11 => Reply::FloatIndex,
        12 => Reply::IndexCount,
        13 => Reply::NoIndex,
        14 => Reply::BuiltIn,
        15 => Reply::KeyKind,
        16 => Reply::PastEnd { size: 5 },
        17 => Reply::Held { session: 3 },
        18 => Reply::NoSpace { free: 1, needed: 2 },
        19 => Reply::NoLogRoom { blocks: 7, room: 3 },
        20 => Reply::DiskFault {
            before: 0,
            after: 1,
            stops: true,
        },
        21 => Reply::Stopped {
            durable: 4,
            faults: 1,
        },
        22 => Reply::Damaged { block: 9 },
        23 => Reply::Found {
            id: 1,
            kind: Kind::Dir,
        },
        _ => Reply::Done,
    }
}

fn has_refusal(alloc: Global, number: u8, want: &[u8]) -> Result<bool, AllocError> {
    let reply = refusal(number);
    Ok(line_of(alloc, 2, Call::IndexList, reply)?.as_slice() == want)
}

#[test]
fn refusals_have_their_words(rt: HostRuntime) -> Result<(), Fail> {
    let alloc = rt.alloc();
    let cases: [(u8, &[u8]); 24] = [
        (1, b"7 2 notfound\n"),
        (2, b"7 2 notdir\n"),
        (3, b"7 2 notfile\n"),
        (4, b"7 2 notlink\n"),
        (5, b"7 2 namebad\n"),
        (6, b"7 2 toobig\n"),
        (7, b"7 2 exists\n"),
        (8, b"7 2 notempty\n"),
        (9, b"7 2 inside\n"),
        (10, b"7 2 noattr\n"),
        (11, b"7 2 floatindex\n"),
        (12, b"7 2 indexcount\n"),
        (13, b"7 2 noindex\n"),
        (14, b"7 2 builtin\n"),
        (15, b"7 2 keykind\n"),
        (16, b"7 2 pastend 5\n"),
        (17, b""),
        (18, b"7 2 nospace 1\n"),
        (19, b"7 2 nologroom 7 3\n"),
        (20, b"7 2 diskfault\n"),
        (21, b"7 2 stopped 4\n"),
        (22, b"7 2 damaged 9\n"),
        (23, b"7 2 ok\n"),
        (24, b"7 2 ok\n"),
    ];
    for (number, want) in cases {
        assert!(rt; has_refusal(alloc, number, want)?);
    }
    Ok(())
}

fn hold(write: bool) -> Call {
    Call::Hold {
        id: 600,
        at: 0,
        length: 2,
        write,
    }
}

fn release(alloc: Global, whole: bool) -> Result<Call, AllocError> {
    Ok(Call::Release {
        id: 600,
        bytes: bytes(alloc, b"hi")?,
        whole,
        before: 0,
        after: 0,
    })
}

fn push(
    history: &mut Vec<Entry>,
    session: u32,
    call: Call,
    reply: Reply,
) -> Result<(), AllocError> {
    history.push(Entry {
        session,
        tag: 7,
        stamp: 1,
        call,
        reply,
    })?;
    Ok(())
}

// A read and a write by turns of two sessions, a read that failed, and an entry of session 0.
fn push_pieces(history: &mut Vec<Entry>, alloc: Global) -> Result<(), AllocError> {
    push(history, 1, hold(false), Reply::Done)?;
    push(history, 2, hold(true), Reply::Held { session: 1 })?;
    push(history, 1, release(alloc, true)?, Reply::Done)?;
    push(history, 2, hold(true), Reply::Done)?;
    push(history, 2, release(alloc, true)?, Reply::Done)?;
    push(history, 1, hold(false), Reply::PastEnd { size: 1 })?;
    push(history, 2, hold(false), Reply::Done)?;
    push(history, 2, release(alloc, false)?, Reply::Done)?;
    push(
        history,
        0,
        Call::Sync,
        Reply::Stopped {
            durable: 0,
            faults: 1,
        },
    )
}

fn pieces(alloc: Global) -> Result<Vec<Entry>, AllocError> {
    let mut history = Vec::new(alloc);
    push_pieces(&mut history, alloc)?;
    Ok(history)
}

#[test]
fn pieces_have_the_words_of_their_holds(rt: HostRuntime) -> Result<(), Fail> {
    let alloc = rt.alloc();
    let history = pieces(alloc)?;
    let want = b"7 1 ok 2 6869\n7 2 ok\n7 1 pastend 1\n7 2 diskfault\n".as_slice();
    assert!(rt; text(alloc, &history)?.as_slice() == want);
    Ok(())
}

// What a call is, and where it is made.
fn push_call(out: &mut Vec<u8>, alloc: Global, call: &Call) -> Result<(), AllocError> {
    match call {
        Call::Lookup { dir, name } => {
            out.extend_from_slice(format!(in alloc; "look {dir} ")?.as_bytes())?;
            out.extend_from_slice(name.as_slice())
        }
        Call::Rename {
            dir,
            name,
            to_dir,
            to_name,
        } => {
            out.extend_from_slice(format!(in alloc; "move {dir} ")?.as_bytes())?;
            out.extend_from_slice(name.as_slice())?;
            out.extend_from_slice(format!(in alloc; " {to_dir} ")?.as_bytes())?;
            out.extend_from_slice(to_name.as_slice())
        }
        Call::List { dir } => out.extend_from_slice(format!(in alloc; "list {dir}")?.as_bytes()),
        _ => out.extend_from_slice(b"call"),
    }
}

// A lookup finds its part with the directory's number and one more, and anything else is done.
fn answer_to(call: &Call) -> Reply {
    match call {
        Call::Lookup { dir, .. } if *dir < 1000 => Reply::Found {
            id: dir + 1,
            kind: Kind::Dir,
        },
        _ => Reply::Done,
    }
}

fn push_due(out: &mut Vec<u8>, alloc: Global, due: &Due) -> Result<Reply, AllocError> {
    match due {
        Due::Call { call } => {
            push_call(out, alloc, call)?;
            return Ok(answer_to(call));
        }
        Due::Write { id, at, bytes } => {
            out.extend_from_slice(format!(in alloc; "write {id} {at} ")?.as_bytes())?;
            out.extend_from_slice(bytes.as_slice())?;
        }
        Due::Read { id, at, length } => {
            out.extend_from_slice(format!(in alloc; "read {id} {at} {length}")?.as_bytes())?;
        }
        Due::Sync => out.extend_from_slice(b"sync")?,
        Due::Nothing => out.extend_from_slice(b"end")?,
    }
    Ok(Reply::Done)
}

// The next call of a line, and its answer; or nothing, where the line is done.
fn push_next(out: &mut Vec<u8>, alloc: Global, calls: &mut Calls) -> Result<bool, AllocError> {
    let due = calls.due(alloc)?;
    if let Due::Nothing = &due {
        return Ok(false);
    }
    let reply = push_due(out, alloc, &due)?;
    out.push(b';')?;
    calls.answered(&reply);
    Ok(true)
}

// The calls of a command, on a volume whose root is node 5; at most six.
fn push_calls(out: &mut Vec<u8>, alloc: Global, command: &Command) -> Result<(), AllocError> {
    let mut calls = Calls::of(5, command);
    for _ in 0..6 {
        if !push_next(out, alloc, &mut calls)? {
            break;
        }
    }
    Ok(())
}

fn push_lines(out: &mut Vec<u8>, alloc: Global, script: &Script) -> Result<(), AllocError> {
    for at in 0..script.len() {
        let line = script.line(alloc, at)?;
        push_calls(out, alloc, &line.command)?;
    }
    Ok(())
}

// The calls of each line of a script.
fn calls_in(alloc: Global, script: &[u8]) -> Result<Vec<u8>, AllocError> {
    let mut out = Vec::new(alloc);
    if let Ok(script) = parse(alloc, script) {
        push_lines(&mut out, alloc, &script)?;
    }
    Ok(out)
}

#[test]
fn commands_have_their_calls(rt: HostRuntime) -> Result<(), Fail> {
    let alloc = rt.alloc();
    let cases: [(&[u8], &[u8]); 7] = [
        (b"1 ls /", b"list 5;"),
        (b"1 ls /a/b", b"look 5 a;look 6 b;list 7;"),
        (
            b"1 mv /a/b/c /d/e",
            b"look 5 a;look 6 b;look 5 d;move 7 c 6 e;",
        ),
        (b"1 make /a", b"call;"),
        (b"1 write /a 3 :hi", b"look 5 a;write 6 3 hi;"),
        (b"1 read /a 3 9", b"look 5 a;read 6 3 9;"),
        (b"1 sync\n2 indices", b"sync;call;"),
    ];
    for (script, want) in cases {
        assert!(rt; calls_in(alloc, script)?.as_slice() == want);
    }
    Ok(())
}

// What is due: 1 a sync, 2 nothing, 0 anything else.
fn next_due(alloc: Global, calls: &mut Calls) -> Result<u8, AllocError> {
    match calls.due(alloc)? {
        Due::Sync => Ok(1),
        Due::Nothing => Ok(2),
        _ => Ok(0),
    }
}

// What is due of a sync that was held, and once it is answered.
fn held_and_answered(alloc: Global, calls: &mut Calls) -> Result<[u8; 2], AllocError> {
    calls.answered(&Reply::Held { session: 2 });
    let again = next_due(alloc, calls)?;
    calls.answered(&Reply::Synced { upto: 1 });
    Ok([again, next_due(alloc, calls)?])
}

#[test]
fn a_held_call_is_due_again(rt: HostRuntime) -> Result<(), Fail> {
    let command = Command::Sync;
    let mut calls = Calls::of(5, &command);
    assert_eq!(rt; held_and_answered(rt.alloc(), &mut calls)?, [1, 2]);
    Ok(())
}
