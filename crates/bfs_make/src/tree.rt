// A tree without rows, as it is made: a header, and one leaf.
ghost use Rattle.std.specs.Prelude.{◌≡◌, [], length, IfOk};
ghost use Rattle.bfs_base.specs.Keys.{IsTreeKind};
ghost use Rattle.bfs_node.specs.Header.{header_at};
ghost use Rattle.bfs_maps.specs.Reached.{IsWholeTree};
ghost use Rattle.bfs_maps.specs.Rows.{rows_in};
ghost use Rattle.bfs_make.specs.Trees.{IsEmptyLeaf, first_header};

use bfs_node::{Header, KeyKind, PAGE, blank, data_type};
use std::alloc::{AllocError, Global};

/// The header of a tree with one leaf.
pub fn tree_header(kind: KeyKind) -> [u8; PAGE]
    ensures { header_at result ≡ first_header kind }
{
    let mut page = [0; PAGE];
    Header {
        magic: 0x69f6c2e8,
        node_size: 1024,
        levels: 1,
        data_type: data_type(kind),
        root_pointer: 1024,
        free_pointer: -1,
        maximum_size: 2048,
    }
    .print(&mut page);
    page
}

/// A leaf without rows.
fn empty_leaf() -> [u8; PAGE]
    ensures { IsEmptyLeaf result }
{
    let mut page = [0; PAGE];
    blank(&mut page);
    page
}

/// The bytes of a tree without rows.
pub fn empty_tree(alloc: Global, kind: KeyKind) -> Result<Vec<u8>, AllocError>
    requires { IsTreeKind kind }
    ensures tree { IfOk result (λ v. IsWholeTree kind v.items) }
    ensures rows { IfOk result (λ v. rows_in kind v.items ≡ []) }
    ensures length { IfOk result (λ v. length v.items ≡ 2048) }
{
    let mut bytes = Vec::new(alloc);
    bytes.extend_from_slice(&tree_header(kind))?;
    bytes.extend_from_slice(&empty_leaf())?;
    Ok(bytes)
}
