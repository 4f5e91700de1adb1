// The calls of a volume.
ghost use Rattle.std.specs.Prelude.{◌≡◌, ◌↔◌, IfOk, IsTrue, length};
ghost use Rattle.bfs_tree.specs.Answers.{KeepsRanges};
ghost use Rattle.bfs_tree.specs.Names.{target_of};
ghost use Rattle.bfs_tree.specs.Changes.{kind_made};
ghost use Rattle.bfs_tree.specs.Trees.{is_file, is_dir, is_link};

use crate::{Bytes, Key};
use bfs_base::KeyKind;
use std::alloc::{AllocError, Global};

/// What a node is.
#[derive(Clone, Copy, Debug, PartialEq, Eq)]
pub enum Kind {
    File,
    Dir,
    Link,
}

impl Kind {
    pub fn is_file(self) -> bool
        ensures { result ≡ is_file self }
    {
        matches!(self, Kind::File)
    }

    pub fn is_dir(self) -> bool
        ensures { result ≡ is_dir self }
    {
        matches!(self, Kind::Dir)
    }

    pub fn is_link(self) -> bool
        ensures { result ≡ is_link self }
    {
        matches!(self, Kind::Link)
    }
}

/// What a new node is to be: a link is made with its target.
#[derive(Debug, Drop)]
pub enum MakeKind {
    File,
    Dir,
    Link { target: Bytes },
}

impl MakeKind {
    /// What such a node is.
    pub fn kind(&self) -> Kind
        ensures { result ≡ kind_made self.now }
    {
        match self {
            MakeKind::File => Kind::File,
            MakeKind::Dir => Kind::Dir,
            MakeKind::Link { .. } => Kind::Link,
        }
    }

    /// The target of a link, or no bytes.
    pub fn target(&self, alloc: Global) -> Result<Bytes, AllocError>
        ensures { IfOk result (λ b. b ≡ target_of self.now) }
    {
        match self {
            MakeKind::File => Ok(Bytes::new(Vec::new(alloc))),
            MakeKind::Dir => Ok(Bytes::new(Vec::new(alloc))),
            MakeKind::Link { target } => target.copy(),
        }
    }

    /// How many bytes the target has.
    pub fn target_len(&self) -> usize
        ensures { result ≡ length (target_of self.now) }
    {
        match self {
            MakeKind::File => 0,
            MakeKind::Dir => 0,
            MakeKind::Link { target } => target.as_slice().len(),
        }
    }
}

/// A call: 1 to 17 in the order of the list are the calls on names, attributes and indices, and the last
/// three are the service entries, which hold a piece of a file, let it go, and ask for what is durable.
///
/// `mode` is at most 0o7777, `uid` and `gid` are not below 0. Ids, places, lengths and sizes count in bytes.
/// An attribute's `kind` is its type code.
#[derive(Debug, Drop)]
pub enum Call {
    Make {
        dir: u64,
        name: Bytes,
        kind: MakeKind,
        mode: u32,
    },
    Remove {
        dir: u64,
        name: Bytes,
    },
    Rename {
        dir: u64,
        name: Bytes,
        to_dir: u64,
        to_name: Bytes,
    },
    Lookup {
        dir: u64,
        name: Bytes,
    },
    List {
        dir: u64,
    },
    Stat {
        id: u64,
    },
    SetMode {
        id: u64,
        mode: u32,
        uid: i32,
        gid: i32,
    },
    SetSize {
        id: u64,
        size: u64,
    },
    ReadLink {
        id: u64,
    },
    AttrWrite {
        id: u64,
        name: Bytes,
        kind: u32,
        bytes: Bytes,
    },
    AttrRead {
        id: u64,
        name: Bytes,
    },
    AttrRemove {
        id: u64,
        name: Bytes,
    },
    AttrList {
        id: u64,
    },
    IndexMake {
        name: Bytes,
        kind: KeyKind,
    },
    IndexRemove {
        name: Bytes,
    },
    IndexList,
    IndexFind {
        name: Bytes,
        low: Key,
        high: Key,
    },
    Hold {
        id: u64,
        at: u64,
        length: u64,
        write: bool,
    },
    Release {
        id: u64,
        bytes: Bytes,
        whole: bool,
        before: u64,
        after: u64,
    },
    Sync,
}

impl Call {
    /// The mode, the user and the group of the call are in their ranges, where it has them.
    pub fn keeps_ranges(&self) -> bool
        ensures { IsTrue result ↔ KeepsRanges self.now }
    {
        match self {
            Call::Make { mode, .. } => *mode <= 0o7777,
            Call::SetMode { mode, uid, gid, .. } => *mode <= 0o7777 && *uid >= 0 && *gid >= 0,
            _ => true,
        }
    }
}
