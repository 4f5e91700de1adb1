// The attributes of a node.
ghost use Rattle.std.specs.Prelude.{◌≡◌, ℕ, List, Option, Some, IfOk, IfErr, MatchResult};
ghost use Rattle.std.specs.Option.{option_map};
ghost use Rattle.std.specs.FinMap.{get, from_entries};
ghost use Rattle.bfs_super.specs.Conditions.{IsValid};
ghost use Rattle.bfs_super.specs.Geometry.{geometry_of};
ghost use Rattle.bfs_txn.specs.Faults.{AreLater};
ghost use Rattle.bfs_tree.specs.Answers.{rows_of_attributes};
ghost use Rattle.bfs_tree.specs.declared.call.Call.TheVariants as calls;
ghost use Rattle.bfs_tree.specs.States.{State};
ghost use Rattle.bfs_tree.specs.Steps.{Reads};
ghost use Rattle.bfs_tree.specs.Trees.{Tree, Node, IsNode};
ghost use Rattle.bfs_maps.specs.Refused.{IsUndone, HasReadCause};
ghost use Rattle.bfs_sound.specs.Attributes.{Named};
ghost use Rattle.bfs_sound.specs.Nodes.{AreApart};
ghost use Rattle.bfs_attr.specs.Bearers.{shown};
ghost use Rattle.bfs_shift.specs.Lists.{Lists};
ghost use Rattle.bfs_look.specs.Ready.{IsReady, HasReady};

use crate::order::sort_rows;
use bfs_attr::{AttrItem, AttrRows, attribute_of, rows_of};
use bfs_bitmap::Bitmap;
use bfs_look::node_at;
use bfs_make::Site;
use bfs_node::TreeFault;
use bfs_stream_pages::MapFault;
use bfs_super::Super;
use bfs_tree::{Attributes, Reply};
use bfs_txn::Edits;
use std::alloc::{AllocError, Global};

/// The reply to a read of an attribute, by what was found of it.
fn attribute_reply(found: Option<AttrItem>) -> Reply
    ensures { (st : State) (id : ℕ) (name : List ℕ) (n : Node) → IsNode st.tree id n → option_map shown found ≡ get n.attributes name → Reads (calls.AttrRead id name) st result }
{
    match found {
        Some(item) => Reply::Attr {
            kind: item.kind,
            bytes: item.bytes,
        },
        None => Reply::NoAttr,
    }
}

/// The rows of attributes in byte order of their names.
fn rows_reply(rows: AttrRows) -> Result<Reply, AllocError>
    ensures { (st : State) (id : ℕ) (n : Node) (es : List Named) → IsNode st.tree id n → AreApart es → n.attributes ≡ from_entries es → rows ≡ rows_of_attributes es → IfOk result (Reads (calls.AttrList id) st) }
{
    let mut rows = rows.into_vec();
    sort_rows(&mut rows)?;
    Ok(Reply::Attrs {
        rows: Attributes::new(rows),
    })
}

/// Answers which attribute a node has under a name: its type and its bytes.
pub fn attr_read<E: Edits>(
    alloc: Global,
    sup: &Super,
    bitmap: &mut Bitmap,
    edits: &mut E,
    id: u64,
    name: &[u8],
) -> Result<Reply, MapFault>
    requires valid { IsValid sup.now }
    requires size { E.size edits.old ≡ sup.now.block_size }
    requires ready { (m : ℕ → Option (List ℕ)) → E.told edits.old ≡ Some m → HasReady (geometry_of sup.now) bitmap.old m }
    ensures reads { (m : ℕ → Option (List ℕ)) (tree : Tree) (lists : Lists) (s : State) → E.told edits.old ≡ Some m → IsReady (geometry_of sup.now) bitmap.old m tree lists → s.tree ≡ tree → MatchResult result (Reads (calls.AttrRead id name.now) s) IsUndone }
    ensures bitmap { bitmap.new ≡ bitmap.old }
    ensures told { E.told edits.new ≡ E.told edits.old }
    ensures changed { E.changed edits.new ≡ E.changed edits.old }
    ensures pairs { E.pairs edits.new ≡ E.pairs edits.old }
    ensures size { E.size edits.new ≡ E.size edits.old }
    ensures frame { E.frame edits.new ≡ E.frame edits.old }
    ensures later { AreLater (E.counts edits.old) (E.counts edits.new) }
    ensures cause { IfErr result (HasReadCause (E.counts edits.old) (E.counts edits.new)) }
{
    let there = match node_at(alloc, sup, bitmap, edits, id) {
        Ok(there) => there,
        Err(fault) => return Err(fault),
    };
    match there {
        Some(_) => {}
        None => return Ok(Reply::NotFound),
    };
    let site = Site { alloc, sup: *sup };
    match attribute_of(site, edits, id, name) {
        Ok(found) => Ok(attribute_reply(found)),
        Err(fault) => Err(fault),
    }
}

/// Answers which attributes a node has: the type and name of each, in byte order of the names.
pub fn attr_list<E: Edits>(
    alloc: Global,
    sup: &Super,
    bitmap: &mut Bitmap,
    edits: &mut E,
    id: u64,
) -> Result<Reply, MapFault>
    requires valid { IsValid sup.now }
    requires size { E.size edits.old ≡ sup.now.block_size }
    requires ready { (m : ℕ → Option (List ℕ)) → E.told edits.old ≡ Some m → HasReady (geometry_of sup.now) bitmap.old m }
    ensures reads { (m : ℕ → Option (List ℕ)) (tree : Tree) (lists : Lists) (s : State) → E.told edits.old ≡ Some m → IsReady (geometry_of sup.now) bitmap.old m tree lists → s.tree ≡ tree → MatchResult result (Reads (calls.AttrList id) s) IsUndone }
    ensures bitmap { bitmap.new ≡ bitmap.old }
    ensures told { E.told edits.new ≡ E.told edits.old }
    ensures changed { E.changed edits.new ≡ E.changed edits.old }
    ensures pairs { E.pairs edits.new ≡ E.pairs edits.old }
    ensures size { E.size edits.new ≡ E.size edits.old }
    ensures frame { E.frame edits.new ≡ E.frame edits.old }
    ensures later { AreLater (E.counts edits.old) (E.counts edits.new) }
    ensures cause { IfErr result (HasReadCause (E.counts edits.old) (E.counts edits.new)) }
{
    let there = match node_at(alloc, sup, bitmap, edits, id) {
        Ok(there) => there,
        Err(fault) => return Err(fault),
    };
    match there {
        Some(_) => {}
        None => return Ok(Reply::NotFound),
    };
    let site = Site { alloc, sup: *sup };
    let rows = match rows_of(site, edits, id) {
        Ok(rows) => rows,
        Err(fault) => return Err(fault),
    };
    match rows_reply(rows) {
        Ok(reply) => Ok(reply),
        Err(_) => Err(TreeFault::NoMemory),
    }
}
