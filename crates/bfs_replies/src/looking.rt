// A look at a call over an open group and what lies below.
ghost use Rattle.std.specs.Prelude.{◌≡◌, ℕ, List, Option, Some, true, IfOk, IfErr};
ghost use Rattle.bfs_super.specs.Conditions.{IsValid};
ghost use Rattle.bfs_super.specs.Geometry.{geometry_of};
ghost use Rattle.bfs_bitmap.specs.Runs.{Room};
ghost use Rattle.bfs_txn.specs.Changed.{over};
ghost use Rattle.bfs_txn.specs.Faults.{AreLater};
ghost use Rattle.bfs_tree.specs.Answers.{KeepsRanges};
ghost use Rattle.bfs_tree.specs.Trees.{Tree};
ghost use Rattle.bfs_device.specs.Layouts.{layout_of};
ghost use Rattle.bfs_shift.specs.Lists.{Lists};
ghost use Rattle.bfs_look.specs.Ready.{IsReady};
ghost use Rattle.bfs_calls.specs.Done.{IsUnanswered, HasAnswerCause};
ghost use Rattle.bfs_replies.specs.Books.{MayBeSealed};
ghost use Rattle.bfs_answers.specs.Looks.{IsLooked, FindsMay, FindsOwn, MaySee, RestsOn};

use bfs_answers::{Answers, Looked};
use bfs_bitmap::Bitmap;
use bfs_stream_pages::MapFault;
use bfs_super::Super;
use bfs_tree::{Call, Hold};
use bfs_txn::{Blocks, Changed, Overlay};
use std::alloc::Global;

/// Looks at a call with these holds of sessions, and changes nothing.
pub fn look_call<A: Answers, B: Blocks>(
    alloc: Global,
    sup: &Super,
    answers: &A,
    bitmap: &mut Bitmap,
    group: &mut Changed,
    under: &mut B,
    holds: &[Hold],
    call: &Call,
) -> Result<Looked, MapFault>
    requires valid { IsValid sup.now }
    requires size { B.size under.old ≡ sup.now.block_size }
    requires group { MayBeSealed (layout_of sup.now) sup.now.block_size group.old }
    requires serves { A.serves call.now ≡ true }
    requires ranges { KeepsRanges call.now }
    requires ready { (m : ℕ → Option (List ℕ)) → B.told under.old ≡ Some m → MaySee (geometry_of sup.now) bitmap.old (over group.old m) call.now }
    ensures looked { (m : ℕ → Option (List ℕ)) (tree : Tree) (lists : Lists) → B.told under.old ≡ Some m → IsReady (geometry_of sup.now) bitmap.old (over group.old m) tree lists → IfOk result (IsLooked (geometry_of sup.now) (over group.old m) tree holds.now call.now) }
    ensures own { IfOk result FindsOwn }
    ensures may { IfOk result (FindsMay A.may sup.now call.now) }
    ensures unanswered { (m : ℕ → Option (List ℕ)) (tree : Tree) (lists : Lists) → B.told under.old ≡ Some m → IsReady (geometry_of sup.now) bitmap.old (over group.old m) tree lists → IfErr result IsUnanswered }
    ensures rests { (v : Room) (m w : ℕ → Option (List ℕ)) (tree : Tree) (lists : Lists) → B.told under.old ≡ Some m → IsReady (geometry_of sup.now) v (over group.old w) tree lists → RestsOn (geometry_of sup.now) (over group.old w) (over group.old m) tree call.now → IfOk result (IsLooked (geometry_of sup.now) (over group.old w) tree holds.now call.now) }
    ensures rests_unanswered { (v : Room) (m w : ℕ → Option (List ℕ)) (tree : Tree) (lists : Lists) → B.told under.old ≡ Some m → IsReady (geometry_of sup.now) v (over group.old w) tree lists → RestsOn (geometry_of sup.now) (over group.old w) (over group.old m) tree call.now → IfErr result IsUnanswered }
    ensures cause { IfErr result (HasAnswerCause (B.counts under.old) (B.counts under.new)) }
    ensures later { AreLater (B.counts under.old) (B.counts under.new) }
    ensures bitmap { bitmap.new ≡ bitmap.old }
    ensures group { group.new ≡ group.old }
    ensures told { B.told under.new ≡ B.told under.old }
    ensures note { (B.frame under.new).note ≡ (B.frame under.old).note }
    ensures size { B.size under.new ≡ B.size under.old }
{
    let mut overlay = Overlay::begin(group, under);
    let looked = answers.look(alloc, sup, bitmap, &mut overlay, holds, call);
    overlay.drop_call();
    looked
}
