// Whether two replies are the same.
ghost use Rattle.std.specs.Prelude.{◌≡◌, ◌↔◌, IsTrue};

use crate::{
    AttributeRow, Attributes, Bytes, FoundRow, FoundRows, IndexRow, Indices, Info, Key, Names,
    Reply,
};

impl Bytes {
    pub fn is_same(&self, other: &Bytes) -> bool
        ensures { IsTrue result ↔ (self.now ≡ other.now) }
    {
        self.as_slice() == other.as_slice()
    }
}

impl Key {
    fn is_same(&self, other: &Key) -> bool
        ensures { IsTrue result ↔ (self.now ≡ other.now) }
    {
        match self {
            Key::Text(text) => match other {
                Key::Text(same) => text.is_same(same),
                _ => false,
            },
            Key::I32(number) => match other {
                Key::I32(same) => *number == *same,
                _ => false,
            },
            Key::U32(number) => match other {
                Key::U32(same) => *number == *same,
                _ => false,
            },
            Key::I64(number) => match other {
                Key::I64(same) => *number == *same,
                _ => false,
            },
            Key::U64(number) => match other {
                Key::U64(same) => *number == *same,
                _ => false,
            },
        }
    }
}

impl AttributeRow {
    fn is_same(&self, other: &AttributeRow) -> bool
        ensures { IsTrue result ↔ (self.now ≡ other.now) }
    {
        self.kind == other.kind && self.name.is_same(&other.name)
    }
}

impl IndexRow {
    fn is_same(&self, other: &IndexRow) -> bool
        ensures { IsTrue result ↔ (self.now ≡ other.now) }
    {
        self.kind == other.kind && self.name.is_same(&other.name)
    }
}

impl FoundRow {
    fn is_same(&self, other: &FoundRow) -> bool
        ensures { IsTrue result ↔ (self.now ≡ other.now) }
    {
        self.id == other.id && self.key.is_same(&other.key) && self.name.is_same(&other.name)
    }
}

fn same_names(names: &[Bytes], others: &[Bytes]) -> bool
    ensures { IsTrue result ↔ (names.now ≡ others.now) }
{
    if names.len() != others.len() {
        return false;
    }
    for i in 0..names.len() {
        if !names[i].is_same(&others[i]) {
            return false;
        }
    }
    true
}

fn same_attributes(rows: &[AttributeRow], others: &[AttributeRow]) -> bool
    ensures { IsTrue result ↔ (rows.now ≡ others.now) }
{
    if rows.len() != others.len() {
        return false;
    }
    for i in 0..rows.len() {
        if !rows[i].is_same(&others[i]) {
            return false;
        }
    }
    true
}

fn same_indices(rows: &[IndexRow], others: &[IndexRow]) -> bool
    ensures { IsTrue result ↔ (rows.now ≡ others.now) }
{
    if rows.len() != others.len() {
        return false;
    }
    for i in 0..rows.len() {
        if !rows[i].is_same(&others[i]) {
            return false;
        }
    }
    true
}

fn same_rows(rows: &[FoundRow], others: &[FoundRow]) -> bool
    ensures { IsTrue result ↔ (rows.now ≡ others.now) }
{
    if rows.len() != others.len() {
        return false;
    }
    for i in 0..rows.len() {
        if !rows[i].is_same(&others[i]) {
            return false;
        }
    }
    true
}

impl Names {
    fn is_same(&self, other: &Names) -> bool
        ensures { IsTrue result ↔ (self.now ≡ other.now) }
    {
        same_names(self.as_slice(), other.as_slice())
    }
}

impl Attributes {
    fn is_same(&self, other: &Attributes) -> bool
        ensures { IsTrue result ↔ (self.now ≡ other.now) }
    {
        same_attributes(self.as_slice(), other.as_slice())
    }
}

impl Indices {
    fn is_same(&self, other: &Indices) -> bool
        ensures { IsTrue result ↔ (self.now ≡ other.now) }
    {
        same_indices(self.as_slice(), other.as_slice())
    }
}

impl FoundRows {
    fn is_same(&self, other: &FoundRows) -> bool
        ensures { IsTrue result ↔ (self.now ≡ other.now) }
    {
        same_rows(self.as_slice(), other.as_slice())
    }
}

impl Info {
    fn is_same(&self, other: &Info) -> bool
        ensures { IsTrue result ↔ (self.now ≡ other.now) }
    {
        self.kind == other.kind
            && self.name.is_same(&other.name)
            && self.parent == other.parent
            && self.mode == other.mode
            && self.uid == other.uid
            && self.gid == other.gid
            && self.created == other.created
            && self.modified == other.modified
            && self.changed == other.changed
            && self.size == other.size
    }
}

impl Reply {
    /// The other reply says the same.
    pub fn is_same(&self, other: &Reply) -> bool
        ensures { IsTrue result ↔ (self.now ≡ other.now) }
    {
        match self {
            Reply::Made { id } => match other {
                Reply::Made { id: same } => *id == *same,
                _ => false,
            },
            Reply::Done => matches!(other, Reply::Done),
            Reply::Found { id, kind } => match other {
                Reply::Found {
                    id: same,
                    kind: also,
                } => *id == *same && *kind == *also,
                _ => false,
            },
            Reply::Names { names } => match other {
                Reply::Names { names: same } => names.is_same(same),
                _ => false,
            },
            Reply::Info { info } => match other {
                Reply::Info { info: same } => info.is_same(same),
                _ => false,
            },
            Reply::Target { bytes } => match other {
                Reply::Target { bytes: same } => bytes.is_same(same),
                _ => false,
            },
            Reply::Attr { kind, bytes } => match other {
                Reply::Attr {
                    kind: same,
                    bytes: also,
                } => *kind == *same && bytes.is_same(also),
                _ => false,
            },
            Reply::Attrs { rows } => match other {
                Reply::Attrs { rows: same } => rows.is_same(same),
                _ => false,
            },
            Reply::Indices { rows } => match other {
                Reply::Indices { rows: same } => rows.is_same(same),
                _ => false,
            },
            Reply::Rows { rows } => match other {
                Reply::Rows { rows: same } => rows.is_same(same),
                _ => false,
            },
            Reply::Synced { upto } => match other {
                Reply::Synced { upto: same } => *upto == *same,
                _ => false,
            },
            Reply::NotFound => matches!(other, Reply::NotFound),
            Reply::NotDir => matches!(other, Reply::NotDir),
            Reply::NotFile => matches!(other, Reply::NotFile),
            Reply::NotLink => matches!(other, Reply::NotLink),
            Reply::NameBad => matches!(other, Reply::NameBad),
            Reply::TooBig => matches!(other, Reply::TooBig),
            Reply::Exists => matches!(other, Reply::Exists),
            Reply::NotEmpty => matches!(other, Reply::NotEmpty),
            Reply::Inside => matches!(other, Reply::Inside),
            Reply::NoAttr => matches!(other, Reply::NoAttr),
            Reply::FloatIndex => matches!(other, Reply::FloatIndex),
            Reply::IndexCount => matches!(other, Reply::IndexCount),
            Reply::NoIndex => matches!(other, Reply::NoIndex),
            Reply::BuiltIn => matches!(other, Reply::BuiltIn),
            Reply::KeyKind => matches!(other, Reply::KeyKind),
            Reply::PastEnd { size } => match other {
                Reply::PastEnd { size: first } => *size == *first,
                _ => false,
            },
            Reply::Held { session } => match other {
                Reply::Held { session: first } => *session == *first,
                _ => false,
            },
            Reply::NoSpace { free, needed } => match other {
                Reply::NoSpace {
                    free: first,
                    needed: second,
                } => *free == *first && *needed == *second,
                _ => false,
            },
            Reply::NoLogRoom { blocks, room } => match other {
                Reply::NoLogRoom {
                    blocks: first,
                    room: second,
                } => *blocks == *first && *room == *second,
                _ => false,
            },
            Reply::DiskFault {
                before,
                after,
                stops,
            } => match other {
                Reply::DiskFault {
                    before: first,
                    after: second,
                    stops: third,
                } => *before == *first && *after == *second && *stops == *third,
                _ => false,
            },
            Reply::Stopped { durable, faults } => match other {
                Reply::Stopped {
                    durable: first,
                    faults: second,
                } => *durable == *first && *faults == *second,
                _ => false,
            },
            Reply::Damaged { block } => match other {
                Reply::Damaged { block: first } => *block == *first,
                _ => false,
            },
        }
    }
}
