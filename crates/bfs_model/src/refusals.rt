// The refusals that a call has of its own.
ghost use Rattle.std.specs.Prelude.{◌≡◌, ◌∷◌, true};
ghost use Rattle.std.specs.FinMap.{entries};
ghost use Rattle.bfs_tree.specs.Trees.{child_in};
ghost use Rattle.bfs_tree.specs.States.{conflict};
ghost use Rattle.bfs_tree.specs.Refusals.{first, at_replaced, replaced, is_one_dir, is_full, held, own_refusal};
ghost use Rattle.bfs_tree.specs.declared.reply.Reply.TheVariants.{Exists, NotEmpty};
ghost use Rattle.bfs_tree.specs.declared.call.Call.TheVariants as calls;
ghost use Rattle.bfs_plain.specs.Plain.{nodes_of};
ghost use Rattle.bfs_model.specs.Kept.{state_of};

use crate::model::Model;
use bfs_plain::{
    attribute_at, child_at, conflict_at, has_children, index_at, index_count, is_below, is_past,
    node_at,
};
use bfs_tree::{
    Call, Key, KeyKind, Kind, MakeKind, Reply, is_bad_attribute_name, is_bad_name, is_bad_target,
    is_built_in, is_float, is_kind,
};

impl Model {
    /// The first of the call's own refusals whose condition holds.
    pub fn refusal(&self, call: &Call) -> Option<Reply>
        ensures { result ≡ own_refusal call.now (state_of self.now) }
    {
        match call {
            Call::Make {
                dir,
                name,
                kind,
                ..
            } => self.refuse_make(*dir, name.as_slice(), kind),
            Call::Remove { dir, name } => self.refuse_remove(*dir, name.as_slice()),
            Call::Rename {
                dir,
                name,
                to_dir,
                to_name,
            } => self.refuse_rename(*dir, name.as_slice(), *to_dir, to_name.as_slice()),
            Call::Lookup { dir, name } => self.refuse_lookup(*dir, name.as_slice()),
            Call::List { dir } => self.refuse_list(*dir),
            Call::Stat { id } => self.refuse_node(*id),
            Call::SetMode { id, .. } => self.refuse_node(*id),
            Call::SetSize { id, size } => self.refuse_set_size(*id, *size),
            Call::ReadLink { id } => self.refuse_read_link(*id),
            Call::AttrWrite {
                id,
                name,
                bytes,
                ..
            } => self.refuse_attr_write(*id, name.as_slice(), bytes.as_slice()),
            Call::AttrRead { id, name } => self.refuse_attr(*id, name.as_slice()),
            Call::AttrRemove { id, name } => self.refuse_attr(*id, name.as_slice()),
            Call::AttrList { id } => self.refuse_node(*id),
            Call::IndexMake { name, kind } => self.refuse_index_make(name.as_slice(), *kind),
            Call::IndexRemove { name } => self.refuse_index_remove(name.as_slice()),
            Call::IndexList => None,
            Call::IndexFind { name, low, high } => {
                self.refuse_index_find(name.as_slice(), low, high)
            }
            Call::Hold {
                id,
                at,
                length,
                write,
            } => self.refuse_hold(*id, *at, *length, *write),
            Call::Release { .. } => None,
            Call::Sync => None,
        }
    }

    /// No mode is refused, so that of the call isn't asked for.
    pub(crate) fn refuse_make(&self, dir: u64, name: &[u8], kind: &MakeKind) -> Option<Reply>
        ensures { result ≡ own_refusal (calls.Make dir name.now kind.now 0) (state_of self.now) }
    {
        let Some(parent) = node_at(&self.nodes, dir) else {
            return Some(Reply::NotFound);
        };
        if !parent.kind.is_dir() {
            return Some(Reply::NotDir);
        }
        if is_bad_name(name) || is_bad_target(kind) {
            return Some(Reply::NameBad);
        }
        if kind.target_len() > 1024 {
            return Some(Reply::TooBig);
        }
        match child_at(&self.nodes, self.root, dir, name) {
            Some(_) => Some(Reply::Exists),
            None => None,
        }
    }

    pub(crate) fn refuse_remove(&self, dir: u64, name: &[u8]) -> Option<Reply>
        ensures { result ≡ own_refusal (calls.Remove dir name.now) (state_of self.now) }
    {
        let Some(parent) = node_at(&self.nodes, dir) else {
            return Some(Reply::NotFound);
        };
        if !parent.kind.is_dir() {
            return Some(Reply::NotDir);
        }
        let Some((id, node)) = child_at(&self.nodes, self.root, dir, name) else {
            return Some(Reply::NotFound);
        };
        if node.kind.is_dir() && has_children(&self.nodes, self.root, id) {
            return Some(Reply::NotEmpty);
        }
        self.refuse_held(id, true)
    }

    /// Held by the session of a hold in conflict, if there is one.
    fn refuse_held(&self, id: u64, writes: bool) -> Option<Reply>
        ensures { result ≡ first (held (conflict self.now.holds.items id writes)) }
    {
        match conflict_at(&self.holds, id, writes) {
            Some(hold) => Some(Reply::Held {
                session: hold.session,
            }),
            None => None,
        }
    }

    /// What refuses to put a node in the place of one that has the name: nothing where that is the node itself.
    fn refuse_place(&self, id: u64, kind: Kind, to_dir: u64, to_name: &[u8]) -> Option<Reply>
        ensures { result ≡ first (at_replaced (replaced id (child_in self.now.root to_dir to_name.now (entries (nodes_of self.now.nodes.entries)))) (λ there other.
            (is_one_dir kind other.kind, Exists) ∷ (is_full (state_of self.now).tree there other, NotEmpty) ∷ held (conflict self.now.holds.items there true))) }
    {
        let Some((there, other)) = child_at(&self.nodes, self.root, to_dir, to_name) else {
            return None;
        };
        if there == id {
            return None;
        }
        if kind.is_dir() != other.kind.is_dir() {
            return Some(Reply::Exists);
        }
        if other.kind.is_dir() && has_children(&self.nodes, self.root, there) {
            return Some(Reply::NotEmpty);
        }
        self.refuse_held(there, true)
    }

    pub(crate) fn refuse_rename(
        &self,
        dir: u64,
        name: &[u8],
        to_dir: u64,
        to_name: &[u8],
    ) -> Option<Reply>
        ensures { result ≡ own_refusal (calls.Rename dir name.now to_dir to_name.now) (state_of self.now) }
    {
        let Some(parent) = node_at(&self.nodes, dir) else {
            return Some(Reply::NotFound);
        };
        if !parent.kind.is_dir() {
            return Some(Reply::NotDir);
        }
        let Some((id, node)) = child_at(&self.nodes, self.root, dir, name) else {
            return Some(Reply::NotFound);
        };
        let Some(target) = node_at(&self.nodes, to_dir) else {
            return Some(Reply::NotFound);
        };
        if !target.kind.is_dir() {
            return Some(Reply::NotDir);
        }
        if is_bad_name(to_name) {
            return Some(Reply::NameBad);
        }
        let kind = node.kind;
        if kind.is_dir() && is_below(&self.nodes, id, to_dir) {
            return Some(Reply::Inside);
        }
        self.refuse_place(id, kind, to_dir, to_name)
    }

    fn refuse_lookup(&self, dir: u64, name: &[u8]) -> Option<Reply>
        ensures { result ≡ own_refusal (calls.Lookup dir name.now) (state_of self.now) }
    {
        let Some(parent) = node_at(&self.nodes, dir) else {
            return Some(Reply::NotFound);
        };
        if !parent.kind.is_dir() {
            return Some(Reply::NotDir);
        }
        match child_at(&self.nodes, self.root, dir, name) {
            Some(_) => None,
            None => Some(Reply::NotFound),
        }
    }

    fn refuse_list(&self, dir: u64) -> Option<Reply>
        ensures { result ≡ own_refusal (calls.List dir) (state_of self.now) }
    {
        let Some(parent) = node_at(&self.nodes, dir) else {
            return Some(Reply::NotFound);
        };
        if parent.kind.is_dir() {
            None
        } else {
            Some(Reply::NotDir)
        }
    }

    /// The refusal of the calls that ask for a node alone.
    pub(crate) fn refuse_node(&self, id: u64) -> Option<Reply>
        ensures { result ≡ own_refusal (calls.Stat id) (state_of self.now) }
    {
        match node_at(&self.nodes, id) {
            Some(_) => None,
            None => Some(Reply::NotFound),
        }
    }

    pub(crate) fn refuse_set_size(&self, id: u64, size: u64) -> Option<Reply>
        ensures { result ≡ own_refusal (calls.SetSize id size) (state_of self.now) }
    {
        let Some(node) = node_at(&self.nodes, id) else {
            return Some(Reply::NotFound);
        };
        if !node.kind.is_file() {
            return Some(Reply::NotFile);
        }
        if size > 1_073_741_824 {
            return Some(Reply::TooBig);
        }
        self.refuse_held(id, true)
    }

    fn refuse_read_link(&self, id: u64) -> Option<Reply>
        ensures { result ≡ own_refusal (calls.ReadLink id) (state_of self.now) }
    {
        let Some(node) = node_at(&self.nodes, id) else {
            return Some(Reply::NotFound);
        };
        if node.kind.is_link() {
            None
        } else {
            Some(Reply::NotLink)
        }
    }

    /// No type code is refused, so that of the call isn't asked for.
    pub(crate) fn refuse_attr_write(&self, id: u64, name: &[u8], bytes: &[u8]) -> Option<Reply>
        ensures { result ≡ own_refusal (calls.AttrWrite id name.now 0 bytes.now) (state_of self.now) }
    {
        let Some(_) = node_at(&self.nodes, id) else {
            return Some(Reply::NotFound);
        };
        if is_bad_attribute_name(name) {
            return Some(Reply::NameBad);
        }
        if bytes.len() > 65536 {
            return Some(Reply::TooBig);
        }
        None
    }

    /// The refusal of the calls that ask for an attribute that is there.
    pub(crate) fn refuse_attr(&self, id: u64, name: &[u8]) -> Option<Reply>
        ensures { result ≡ own_refusal (calls.AttrRead id name.now) (state_of self.now) }
    {
        let Some(node) = node_at(&self.nodes, id) else {
            return Some(Reply::NotFound);
        };
        match attribute_at(&node.attributes, name) {
            Some(_) => None,
            None => Some(Reply::NoAttr),
        }
    }

    pub(crate) fn refuse_index_make(&self, name: &[u8], kind: KeyKind) -> Option<Reply>
        ensures { result ≡ own_refusal (calls.IndexMake name.now kind) (state_of self.now) }
    {
        if index_count(&self.indices) == 0 {
            return Some(Reply::NoIndex);
        }
        let None = index_at(&self.indices, name) else {
            return Some(Reply::Exists);
        };
        if is_float(kind) {
            return Some(Reply::FloatIndex);
        }
        if is_bad_name(name) {
            return Some(Reply::NameBad);
        }
        if index_count(&self.indices) >= 32 {
            return Some(Reply::IndexCount);
        }
        None
    }

    pub(crate) fn refuse_index_remove(&self, name: &[u8]) -> Option<Reply>
        ensures { result ≡ own_refusal (calls.IndexRemove name.now) (state_of self.now) }
    {
        let Some(_) = index_at(&self.indices, name) else {
            return Some(Reply::NoIndex);
        };
        if is_built_in(name) {
            return Some(Reply::BuiltIn);
        }
        None
    }

    fn refuse_index_find(&self, name: &[u8], low: &Key, high: &Key) -> Option<Reply>
        ensures { result ≡ own_refusal (calls.IndexFind name.now low.now high.now) (state_of self.now) }
    {
        let Some(kind) = index_at(&self.indices, name) else {
            return Some(Reply::NoIndex);
        };
        if !(is_kind(low.kind(), kind) && is_kind(high.kind(), kind)) {
            return Some(Reply::KeyKind);
        }
        None
    }

    pub(crate) fn refuse_hold(&self, id: u64, at: u64, length: u64, write: bool) -> Option<Reply>
        ensures { result ≡ own_refusal (calls.Hold id at length write) (state_of self.now) }
    {
        let Some(node) = node_at(&self.nodes, id) else {
            return Some(Reply::NotFound);
        };
        if !node.kind.is_file() {
            return Some(Reply::NotFile);
        }
        if length > 65536 {
            return Some(Reply::TooBig);
        }
        if is_past(node.size, at, length) {
            return Some(Reply::PastEnd { size: node.size });
        }
        self.refuse_held(id, write)
    }
}
