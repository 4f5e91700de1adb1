// The indices that list every node by what it is.
ghost use Rattle.std.specs.Prelude.{◌≡◌, ◌<◌, ℕ, List, Option, Some, true, IfOk, IfErr, IfSome, MatchResult};
ghost use Rattle.bfs_base.specs.declared.kind.KeyKind.TheVariants.{Text};
ghost use Rattle.bfs_super.specs.Conditions.{IsValid, natural};
ghost use Rattle.bfs_super.specs.Geometry.{geometry_of};
ghost use Rattle.bfs_txn.specs.Faults.{AreLater};
ghost use Rattle.bfs_tree.specs.Trees.{Tree};
ghost use Rattle.bfs_maps.specs.NumberTrees.{IsNumberAt};
ghost use Rattle.bfs_maps.specs.Refused.{IsUndone};
ghost use Rattle.bfs_sound.specs.Inodes.{is_proper};
ghost use Rattle.bfs_shift.specs.Lists.{Lists};
ghost use Rattle.bfs_look.specs.Ready.{IsReady, HasReady};
ghost use Rattle.bfs_calls.specs.Done.{HasAnswerCause};
ghost use Rattle.bfs_calls.specs.Made.{AreBuiltIn, LieBelow};

use crate::fault::damaged;
use bfs_bitmap::Bitmap;
use bfs_look::make::blocks_in;
use bfs_moves::find_index;
use bfs_stream_pages::MapFault;
use bfs_super::Super;
use bfs_tree::{BY_NAME, BY_SIZE, BY_TIME};
use bfs_txn::Edits;
use std::alloc::Global;

/// The inodes of the indices `name`, `size` and `last_modified`, where the volume has them.
#[derive(Clone, Copy, Debug)]
pub struct BuiltIn {
    pub name: Option<u64>,
    pub size: Option<u64>,
    pub last_modified: Option<u64>,
}

/// The inode of an index, which is a block of the volume.
fn index_inside<E: Edits>(
    alloc: Global,
    sup: &Super,
    bitmap: &mut Bitmap,
    edits: &mut E,
    name: &[u8],
) -> Result<Option<u64>, MapFault>
    requires valid { IsValid sup.now }
    requires size { E.size edits.old ≡ sup.now.block_size }
    requires ready { (m : ℕ → Option (List ℕ)) → E.told edits.old ≡ Some m → HasReady (geometry_of sup.now) bitmap.old m }
    requires name { is_proper name.now ≡ true }
    ensures found { (m : ℕ → Option (List ℕ)) (tree : Tree) (lists : Lists) → E.told edits.old ≡ Some m → IsReady (geometry_of sup.now) bitmap.old m tree lists → MatchResult result (IsNumberAt Text lists.names name.now) IsUndone }
    ensures inside { IfOk result (λ o. IfSome o (λ inode. inode < natural sup.now.num_blocks)) }
    ensures bitmap { bitmap.new ≡ bitmap.old }
    ensures told { E.told edits.new ≡ E.told edits.old }
    ensures changed { E.changed edits.new ≡ E.changed edits.old }
    ensures size { E.size edits.new ≡ E.size edits.old }
    ensures frame { E.frame edits.new ≡ E.frame edits.old }
    ensures later { AreLater (E.counts edits.old) (E.counts edits.new) }
    ensures cause { IfErr result (HasAnswerCause (E.counts edits.old) (E.counts edits.new)) }
{
    let found = match find_index(alloc, sup, bitmap, edits, name) {
        Ok(found) => found,
        Err(fault) => return Err(fault),
    };
    let inode = match found {
        Some(inode) => inode,
        None => return Ok(None),
    };
    if inode >= blocks_in(*sup) {
        return Err(damaged(inode));
    }
    Ok(Some(inode))
}

/// The three indices that list every node by what it is. Only the index directory's own blocks are read.
pub fn built_in_indices<E: Edits>(
    alloc: Global,
    sup: &Super,
    bitmap: &mut Bitmap,
    edits: &mut E,
) -> Result<BuiltIn, MapFault>
    requires valid { IsValid sup.now }
    requires size { E.size edits.old ≡ sup.now.block_size }
    requires ready { (m : ℕ → Option (List ℕ)) → E.told edits.old ≡ Some m → HasReady (geometry_of sup.now) bitmap.old m }
    ensures found { (m : ℕ → Option (List ℕ)) (tree : Tree) (lists : Lists) → E.told edits.old ≡ Some m → IsReady (geometry_of sup.now) bitmap.old m tree lists → MatchResult result (AreBuiltIn lists) IsUndone }
    ensures inside { IfOk result (LieBelow (natural sup.now.num_blocks)) }
    ensures bitmap { bitmap.new ≡ bitmap.old }
    ensures told { E.told edits.new ≡ E.told edits.old }
    ensures changed { E.changed edits.new ≡ E.changed edits.old }
    ensures size { E.size edits.new ≡ E.size edits.old }
    ensures frame { E.frame edits.new ≡ E.frame edits.old }
    ensures later { AreLater (E.counts edits.old) (E.counts edits.new) }
    ensures cause { IfErr result (HasAnswerCause (E.counts edits.old) (E.counts edits.new)) }
{
    let name = match index_inside(alloc, sup, bitmap, edits, BY_NAME) {
        Ok(name) => name,
        Err(fault) => return Err(fault),
    };
    let size = match index_inside(alloc, sup, bitmap, edits, BY_SIZE) {
        Ok(size) => size,
        Err(fault) => return Err(fault),
    };
    match index_inside(alloc, sup, bitmap, edits, BY_TIME) {
        Ok(last_modified) => Ok(BuiltIn {
            name,
            size,
            last_modified,
        }),
        Err(fault) => Err(fault),
    }
}
