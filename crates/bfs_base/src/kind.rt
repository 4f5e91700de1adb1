// What the keys of a B+tree are.

/// The kind of a tree's keys: text of 1 to 255 bytes, or numbers of four or eight bytes. Trees of floating
/// point numbers have a kind of their own on the disk, and are not read.
#[derive(Clone, Copy, Debug, PartialEq, Eq)]
pub enum KeyKind {
    Text,
    I32,
    U32,
    I64,
    U64,
    F32,
    F64,
}
