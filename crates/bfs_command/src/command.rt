// The commands of a script, with their words as read.
use bfs_text::Path;
use bfs_tree::{Bytes, Key, KeyKind};

/// A command with its words. Each of `Make` to `Read` names what it works on by a path. Places, sizes and lengths count
/// in bytes; an attribute's `kind` is its type code; `mode` is at most 0o7777, `uid` and `gid` are not below 0.
#[derive(Debug, Drop)]
pub enum Command {
    Make {
        path: Path,
    },
    MakeDir {
        path: Path,
    },
    MakeLink {
        path: Path,
        target: Bytes,
    },
    Remove {
        path: Path,
    },
    Rename {
        path: Path,
        to: Path,
    },
    List {
        path: Path,
    },
    Stat {
        path: Path,
    },
    SetMode {
        path: Path,
        mode: u32,
        uid: i32,
        gid: i32,
    },
    SetSize {
        path: Path,
        size: u64,
    },
    ReadLink {
        path: Path,
    },
    AttrWrite {
        path: Path,
        name: Bytes,
        kind: u32,
        bytes: Bytes,
    },
    AttrRead {
        path: Path,
        name: Bytes,
    },
    AttrRemove {
        path: Path,
        name: Bytes,
    },
    AttrList {
        path: Path,
    },
    Write {
        path: Path,
        at: u64,
        bytes: Bytes,
    },
    Read {
        path: Path,
        at: u64,
        length: u64,
    },
    IndexMake {
        name: Bytes,
        kind: KeyKind,
    },
    IndexRemove {
        name: Bytes,
    },
    IndexList,
    IndexFind {
        name: Bytes,
        low: Key,
        high: Key,
    },
    Sync,
}
