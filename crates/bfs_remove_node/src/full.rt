// Whether a node is a directory with children.
ghost use Rattle.std.specs.Prelude.{◌≡◌, ℕ, List, Option, Some, IfErr, MatchResult};
ghost use Rattle.bfs_super.specs.Conditions.{IsValid};
ghost use Rattle.bfs_super.specs.Geometry.{geometry_of};
ghost use Rattle.bfs_txn.specs.Faults.{AreLater};
ghost use Rattle.bfs_tree.specs.Refusals.{is_full};
ghost use Rattle.bfs_tree.specs.Trees.{Node, Tree, IsNode};
ghost use Rattle.bfs_maps.specs.Refused.{IsUndone, HasReadCause};
ghost use Rattle.bfs_shift.specs.Lists.{Lists};
ghost use Rattle.bfs_look.specs.Ready.{IsReady, HasReady};
ghost use Rattle.bfs_remove_node.specs.Refused.{has_names};

use crate::child::Child;
use bfs_bitmap::Bitmap;
use bfs_look::list;
use bfs_stream_pages::MapFault;
use bfs_super::Super;
use bfs_tree::Reply;
use bfs_txn::Edits;
use std::alloc::Global;

/// Does a listing have a name?
fn has_names(listed: &Reply) -> bool
    ensures { result ≡ has_names listed.now }
{
    match listed {
        Reply::Names { names } => names.as_slice().len() > 0,
        _ => false,
    }
}

/// Is a node of the tree a directory with children? Its names are listed where it is a directory.
pub fn is_full<E: Edits>(
    alloc: Global,
    sup: &Super,
    bitmap: &mut Bitmap,
    edits: &mut E,
    child: Child,
) -> Result<bool, MapFault>
    requires valid { IsValid sup.now }
    requires size { E.size edits.old ≡ sup.now.block_size }
    requires ready { (m : ℕ → Option (List ℕ)) → E.told edits.old ≡ Some m → HasReady (geometry_of sup.now) bitmap.old m }
    ensures found { (m : ℕ → Option (List ℕ)) (tree : Tree) (lists : Lists) (n : Node) → E.told edits.old ≡ Some m → IsReady (geometry_of sup.now) bitmap.old m tree lists → IsNode tree child.id n → child.kind ≡ n.kind → MatchResult result (λ full. full ≡ is_full tree child.id n) IsUndone }
    ensures bitmap { bitmap.new ≡ bitmap.old }
    ensures told { E.told edits.new ≡ E.told edits.old }
    ensures changed { E.changed edits.new ≡ E.changed edits.old }
    ensures size { E.size edits.new ≡ E.size edits.old }
    ensures frame { E.frame edits.new ≡ E.frame edits.old }
    ensures later { AreLater (E.counts edits.old) (E.counts edits.new) }
    ensures cause { IfErr result (HasReadCause (E.counts edits.old) (E.counts edits.new)) }
{
    if !child.kind.is_dir() {
        return Ok(false);
    }
    match list(alloc, sup, bitmap, edits, child.id) {
        Ok(listed) => Ok(has_names(&listed)),
        Err(fault) => Err(fault),
    }
}
