// The replies to calls, and the entries of a history.
use crate::{Attributes, Bytes, Call, FoundRows, Indices, Kind, Names};

/// What a node's record says, but for its target and its attributes. The size of a directory is 0, that of
/// a link is its target's length. The upper 48 bits of a stamp are seconds.
#[derive(Debug, Drop)]
pub struct Info {
    pub kind: Kind,
    pub name: Bytes,
    pub parent: u64,
    pub mode: u32,
    pub uid: i32,
    pub gid: i32,
    pub created: i64,
    pub modified: i64,
    pub changed: i64,
    pub size: u64,
}

/// The answer to a call: first the answers of calls that are done, then the call's own refusals, and then
/// those for want of space and of log room, and for the disk.
#[derive(Debug, Drop)]
pub enum Reply {
    Made {
        id: u64,
    },
    Done,
    Found {
        id: u64,
        kind: Kind,
    },
    Names {
        names: Names,
    },
    Info {
        info: Info,
    },
    Target {
        bytes: Bytes,
    },
    Attr {
        kind: u32,
        bytes: Bytes,
    },
    Attrs {
        rows: Attributes,
    },
    Indices {
        rows: Indices,
    },
    Rows {
        rows: FoundRows,
    },
    Synced {
        upto: u64,
    },
    NotFound,
    NotDir,
    NotFile,
    NotLink,
    NameBad,
    TooBig,
    Exists,
    NotEmpty,
    Inside,
    NoAttr,
    FloatIndex,
    IndexCount,
    NoIndex,
    BuiltIn,
    KeyKind,
    PastEnd {
        size: u64,
    },
    Held {
        session: u32,
    },
    NoSpace {
        free: u64,
        needed: u64,
    },
    NoLogRoom {
        blocks: u64,
        room: u64,
    },
    DiskFault {
        before: u64,
        after: u64,
        stops: bool,
    },
    Stopped {
        durable: u64,
        faults: u64,
    },
    Damaged {
        block: u64,
    },
}

/// One element of the history: who called, with which tag (a number of the caller's), when, what, and the answer.
#[derive(Debug, Drop)]
pub struct Entry {
    pub session: u32,
    pub tag: u32,
    pub stamp: i64,
    pub call: Call,
    pub reply: Reply,
}
