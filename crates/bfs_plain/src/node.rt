// A node of the plain tree with its attributes, and the keys under which indices list it.
ghost use Rattle.std.specs.Prelude.{◌≡◌, ◌&&◌, ◌==◌, not, Some, None, IfOk, MatchOption, if◌then◌else◌};
ghost use Rattle.std.specs.Str.{bytes_eq};
ghost use Rattle.bfs_plain.specs.Plain.{node_of, attribute_of, attributes_of, indices_of};
ghost use Rattle.std.specs.FinMap.{get};
ghost use Rattle.bfs_tree.specs.Trees.{is_file};
ghost use Rattle.bfs_tree.specs.Listings.{key_in, key_of_attribute};
ghost use Rattle.bfs_tree.specs.Answers.{info_of};

use bfs_tree::{BY_NAME, BY_SIZE, BY_TIME, Bytes, Info, KeyKind, Kind, code_of, key_of_bytes};
use std::alloc::{AllocError, Global};
use std::collections::BTreeMap;

/// An attribute's type code and its bytes.
#[derive(Drop)]
pub struct Attribute {
    pub code: u32,
    pub bytes: Bytes,
}

/// The record of a node.
#[derive(Drop)]
pub struct Node {
    pub kind: Kind,
    pub name: Bytes,
    pub parent: u64,
    pub mode: u32,
    pub uid: i32,
    pub gid: i32,
    pub created: i64,
    pub modified: i64,
    pub changed: i64,
    pub size: u64,
    pub target: Bytes,
    pub attributes: BTreeMap<Vec<u8>, Attribute>,
}

impl Node {
    /// It is not the root, and stands in this directory.
    pub(crate) fn is_child(&self, id: u64, root: u64, dir: u64) -> bool
        ensures { result ≡ (not (id == root) && (self.now.parent == dir)) }
    {
        id != root && self.parent == dir
    }

    /// It is such a child, and has this name.
    pub(crate) fn is_child_named(&self, id: u64, root: u64, dir: u64, name: &[u8]) -> bool
        ensures { result ≡ ((not (id == root) && (self.now.parent == dir)) && bytes_eq self.now.name name.now) }
    {
        self.is_child(id, root, dir) && self.name.as_slice() == name
    }

    /// The key under which an index lists the node, if it does.
    #[tactic(auto, unfolding(bfs_bytes::specs::Fields::unsigned_bytes, bfs_bytes::specs::Fields::signed64_bytes))]
    pub(crate) fn key_in(
        &self,
        alloc: Global,
        root: u64,
        index: &[u8],
        kind: KeyKind,
        id: u64,
    ) -> Result<Option<Bytes>, AllocError>
        ensures { IfOk result (λ k. k ≡ key_in root index.now kind id (node_of self.now)) }
    {
        if index == BY_NAME {
            return if id == root {
                Ok(None)
            } else {
                Ok(Some(self.name.copy()?))
            };
        }
        if index == BY_SIZE {
            return file_key(alloc, self.kind, self.size.to_le_bytes());
        }
        if index == BY_TIME {
            return file_key(
                alloc,
                self.kind,
                self.modified.cast_unsigned().to_le_bytes(),
            );
        }
        match attribute_at(&self.attributes, index) {
            None => Ok(None),
            Some(attribute) => attribute.key(alloc, kind),
        }
    }

    /// What the record says.
    pub fn info(&self) -> Result<Info, AllocError>
        ensures { IfOk result (λ info. info ≡ info_of (node_of self.now)) }
    {
        Ok(Info {
            kind: self.kind,
            name: self.name.copy()?,
            parent: self.parent,
            mode: self.mode,
            uid: self.uid,
            gid: self.gid,
            created: self.created,
            modified: self.modified,
            changed: self.changed,
            size: self.size,
        })
    }
}

/// A file is listed under these bytes, and no other node.
fn file_key(alloc: Global, kind: Kind, bytes: [u8; 8]) -> Result<Option<Bytes>, AllocError>
    ensures { IfOk result (λ k. k ≡ (if is_file kind then Some bytes else None)) }
{
    if kind.is_file() {
        Ok(Some(Bytes::new(Vec::from_slice(alloc, &bytes)?)))
    } else {
        Ok(None)
    }
}

impl Attribute {
    /// The key that the attribute gives an index of this kind, if its type is that of the index.
    fn key(&self, alloc: Global, kind: KeyKind) -> Result<Option<Bytes>, AllocError>
        ensures { IfOk result (λ k. k ≡ key_of_attribute kind (attribute_of self.now)) }
    {
        if self.code == code_of(kind) {
            key_of_bytes(alloc, kind, self.bytes.as_slice())
        } else {
            Ok(None)
        }
    }
}

/// The attribute of a name.
pub fn attribute_at<'a>(
    attributes: &'a BTreeMap<Vec<u8>, Attribute>,
    name: &[u8],
) -> Option<&'a Attribute>
    ensures { MatchOption result (get (attributes_of attributes.now.entries) name.now ≡ None)
        (λ a. get (attributes_of attributes.now.entries) name.now ≡ Some (attribute_of a.now)) }
{
    attributes.get(name)
}

/// The kind of the index of a name.
pub fn index_at(indices: &BTreeMap<Vec<u8>, KeyKind>, name: &[u8]) -> Option<KeyKind>
    ensures { result ≡ get (indices_of indices.now.entries) name.now }
{
    indices.get(name).copied()
}
