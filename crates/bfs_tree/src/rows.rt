// The rows that replies list, and the keys of an index.
use crate::Bytes;
use bfs_base::KeyKind;

/// A key of an index: text, or a number of four or eight bytes.
#[derive(Debug, Drop)]
pub enum Key {
    Text(Bytes),
    I32(i32),
    U32(u32),
    I64(i64),
    U64(u64),
}

/// An attribute's type code and its name.
#[derive(Debug, Drop)]
pub struct AttributeRow {
    pub kind: u32,
    pub name: Bytes,
}

/// An index's kind and its name.
#[derive(Debug, Drop)]
pub struct IndexRow {
    pub kind: KeyKind,
    pub name: Bytes,
}

/// A node that an index lists: its key there, its id and its name.
#[derive(Debug, Drop)]
pub struct FoundRow {
    pub key: Key,
    pub id: u64,
    pub name: Bytes,
}
