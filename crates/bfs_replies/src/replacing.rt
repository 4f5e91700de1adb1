// Whether a call takes the place of another node: what it makes of the number of nodes depends on it, and no reply tells it.
ghost use Rattle.std.specs.Prelude.{◌≡◌, ℕ, List, Option, Some, None, IfOk, IfErr};
ghost use Rattle.bfs_super.specs.Conditions.{IsValid};
ghost use Rattle.bfs_super.specs.Geometry.{geometry_of};
ghost use Rattle.bfs_txn.specs.Changed.{over};
ghost use Rattle.bfs_txn.specs.Faults.{AreLater};
ghost use Rattle.bfs_tree.specs.Refusals.{own_refusal};
ghost use Rattle.bfs_tree.specs.States.{State};
ghost use Rattle.bfs_tree.specs.Trees.{Tree};
ghost use Rattle.bfs_count.specs.Counts.{replaces};
ghost use Rattle.bfs_device.specs.Layouts.{layout_of};
ghost use Rattle.bfs_shift.specs.Lists.{Lists};
ghost use Rattle.bfs_look.specs.Ready.{IsReady, HasReady};
ghost use Rattle.bfs_calls.specs.Done.{IsUnanswered, HasAnswerCause};
ghost use Rattle.bfs_replies.specs.Books.{MayBeSealed};
ghost use Rattle.bfs_replies.specs.Replaced.{is_found, FindsPlace, IsThere};

use bfs_bitmap::Bitmap;
use bfs_count::replaces;
use bfs_look::lookup;
use bfs_stream_pages::MapFault;
use bfs_super::Super;
use bfs_tree::{Call, Reply};
use bfs_txn::{Blocks, Changed, Overlay};
use std::alloc::Global;

/// Whether a look-up has found a node.
fn is_found(reply: &Reply) -> bool
    ensures { result ≡ is_found reply.now }
{
    matches!(reply, Reply::Found { .. })
}

/// Whether there is a node at this place, over an open group and what lies below.
fn is_there<B: Blocks>(
    alloc: Global,
    sup: &Super,
    bitmap: &mut Bitmap,
    group: &mut Changed,
    under: &mut B,
    dir: u64,
    name: &[u8],
) -> Result<bool, MapFault>
    requires valid { IsValid sup.now }
    requires size { B.size under.old ≡ sup.now.block_size }
    requires group { MayBeSealed (layout_of sup.now) sup.now.block_size group.old }
    requires ready { (m : ℕ → Option (List ℕ)) → B.told under.old ≡ Some m → HasReady (geometry_of sup.now) bitmap.old (over group.old m) }
    ensures there { (m : ℕ → Option (List ℕ)) (tree : Tree) (lists : Lists) → B.told under.old ≡ Some m → IsReady (geometry_of sup.now) bitmap.old (over group.old m) tree lists → IfOk result (IsThere tree dir name.now) }
    ensures unanswered { (m : ℕ → Option (List ℕ)) (tree : Tree) (lists : Lists) → B.told under.old ≡ Some m → IsReady (geometry_of sup.now) bitmap.old (over group.old m) tree lists → IfErr result IsUnanswered }
    ensures cause { IfErr result (HasAnswerCause (B.counts under.old) (B.counts under.new)) }
    ensures later { AreLater (B.counts under.old) (B.counts under.new) }
    ensures bitmap { bitmap.new ≡ bitmap.old }
    ensures group { group.new ≡ group.old }
    ensures told { B.told under.new ≡ B.told under.old }
    ensures note { (B.frame under.new).note ≡ (B.frame under.old).note }
    ensures size { B.size under.new ≡ B.size under.old }
{
    let mut overlay = Overlay::begin(group, under);
    let found = lookup(alloc, sup, bitmap, &mut overlay, dir, name);
    overlay.drop_call();
    match found {
        Ok(reply) => Ok(is_found(&reply)),
        Err(fault) => Err(fault),
    }
}

/// Whether a call takes the place of another node where it is done, over an open group and what lies below.
pub fn takes_place<B: Blocks>(
    alloc: Global,
    sup: &Super,
    bitmap: &mut Bitmap,
    group: &mut Changed,
    under: &mut B,
    call: &Call,
) -> Result<bool, MapFault>
    requires valid { IsValid sup.now }
    requires size { B.size under.old ≡ sup.now.block_size }
    requires group { MayBeSealed (layout_of sup.now) sup.now.block_size group.old }
    requires ready { (m : ℕ → Option (List ℕ)) → B.told under.old ≡ Some m → HasReady (geometry_of sup.now) bitmap.old (over group.old m) }
    ensures found { (m : ℕ → Option (List ℕ)) (tree : Tree) (lists : Lists) → B.told under.old ≡ Some m → IsReady (geometry_of sup.now) bitmap.old (over group.old m) tree lists → IfOk result (FindsPlace tree call.now) }
    ensures unanswered { (m : ℕ → Option (List ℕ)) (tree : Tree) (lists : Lists) → B.told under.old ≡ Some m → IsReady (geometry_of sup.now) bitmap.old (over group.old m) tree lists → IfErr result IsUnanswered }
    ensures cause { IfErr result (HasAnswerCause (B.counts under.old) (B.counts under.new)) }
    ensures later { AreLater (B.counts under.old) (B.counts under.new) }
    ensures bitmap { bitmap.new ≡ bitmap.old }
    ensures group { group.new ≡ group.old }
    ensures told { B.told under.new ≡ B.told under.old }
    ensures note { (B.frame under.new).note ≡ (B.frame under.old).note }
    ensures size { B.size under.new ≡ B.size under.old }
{
    let Call::Rename {
        to_dir,
        to_name,
        ..
    } = call
    else {
        return Ok(false);
    };
    match is_there(
        alloc,
        sup,
        bitmap,
        group,
        under,
        *to_dir,
        to_name.as_slice(),
    ) {
        Ok(found) => Ok(replaces(call, found)),
        Err(fault) => Err(fault),
    }
}
