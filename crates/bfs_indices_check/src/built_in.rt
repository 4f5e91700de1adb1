// The built-in indices, of those that were found.
ghost use Rattle.std.specs.Prelude.{◌≡◌, ◌≢◌, List, Some, true, false, OnOk, IfErr};
ghost use Rattle.std.specs.FinMap.{find, from_entries};
ghost use Rattle.bfs_base.specs.Keys.{text_cmp};
ghost use Rattle.bfs_tree.specs.Trees.{HasBuiltIn};
ghost use Rattle.bfs_finding.specs.Findings.{IsBuiltIn};
ghost use Rattle.bfs_index_walk.specs.Indices.{kinds_of};
ghost use Rattle.bfs_index_walk.specs.declared.found.FoundIndex as index;
ghost use Rattle.bfs_indices_check.specs.Listed.{IsMissing};

use bfs_finding::Finding;
use bfs_index_walk::FoundIndex;
use bfs_node_check::NodeFault;
use bfs_tree::{BY_NAME, BY_SIZE, BY_TIME, Bytes, KeyKind};
use std::alloc::Global;

/// Is the first index of this name one of this kind?
fn has_index(found: &[FoundIndex], name: &[u8], kind: KeyKind) -> bool
    ensures is { result ≡ true → find text_cmp name.now (kinds_of found.now) ≡ Some kind }
    ensures other { result ≡ false → find text_cmp name.now (kinds_of found.now) ≢ Some kind }
{
    for i in 0..found.len() {
        let index = &found[i];
        if index.name.as_slice() == name {
            return index.kind == kind;
        }
    }
    false
}

/// A built-in index is missing, or has keys of another kind.
fn missing(alloc: Global, name: &[u8]) -> NodeFault
    ensures { (found : List index.FoundIndex) (kind : KeyKind) → IsBuiltIn name.now kind → find text_cmp name.now (kinds_of found) ≢ Some kind → IsMissing found result }
{
    match Bytes::from_slice(alloc, name) {
        Ok(name) => NodeFault::Wrong(Finding::IndexMissing { name }),
        Err(_) => NodeFault::NoMemory,
    }
}

/// Are the built-in indices among those that were found, each with its kind of keys? `name` has text, `size` and `last_modified` have numbers
/// of eight bytes.
pub(crate) fn check_built_in(alloc: Global, found: &[FoundIndex]) -> Result<(), NodeFault>
    ensures built { OnOk result (HasBuiltIn (from_entries {R = text_cmp} (kinds_of found.now))) }
    ensures wrong { IfErr result (IsMissing found.now) }
{
    if !has_index(found, BY_NAME, KeyKind::Text) {
        return Err(missing(alloc, BY_NAME));
    }
    if !has_index(found, BY_SIZE, KeyKind::I64) {
        return Err(missing(alloc, BY_SIZE));
    }
    if !has_index(found, BY_TIME, KeyKind::I64) {
        return Err(missing(alloc, BY_TIME));
    }
    Ok(())
}
