// Whether a call that found no run of blocks lacks space.
ghost use Rattle.std.specs.Prelude.{◌≡◌, ◌≤◌, ◌<◌, ◌+◌, ◌-◌, ◌*◌, ◌/◌, ◌⊎◌, max, ℕ, List, Option, Some, None, Bool, true, false, IsTrue, ◌↔◌, IfOk, IfErr, OnOk, MatchResult};
ghost use Rattle.bfs_super.specs.Conditions.{IsValid, natural};
ghost use Rattle.bfs_super.specs.Geometry.{geometry_of};
ghost use Rattle.bfs_bitmap.specs.Runs.{HasBitmap};
ghost use Rattle.bfs_txn.specs.Changed.{over};
ghost use Rattle.bfs_txn.specs.Faults.{Counts, IsCaused};
ghost use Rattle.bfs_stream.specs.Grown.{IsOfVolume};
ghost use Rattle.bfs_stream.specs.Sizes.{sizes_of};
ghost use Rattle.bfs_tree.specs.declared.call.Call as calls;
ghost use Rattle.bfs_tree.specs.declared.state.Hold as hold;
ghost use Rattle.bfs_tree.specs.Trees.{Tree};
ghost use Rattle.bfs_device.specs.declared.journal.Stop as stops;
ghost use Rattle.bfs_device.specs.Layouts.{layout_of};
ghost use Rattle.bfs_sound.specs.Need.{need};
ghost use Rattle.bfs_shift.specs.Shifts.{volume_in};
ghost use Rattle.bfs_replies.specs.Books.{MayBeSealed};
ghost use Rattle.bfs_replies.specs.declared.replying.NoReply.TheVariants.{NoMemory, Drain};
ghost use Rattle.bfs_core.specs.Caused.{takes_out};
ghost use Rattle.bfs_replies.specs.Replies.{HasFewRuns, HasReplyCause, IsChange, IsNoReply, IsOutside, IsThat, reply_to_block, array_run};

use crate::replying::NoReply;
use bfs_bitmap::Bitmap;
use bfs_super::Super;
use bfs_tree::{Call, Reply};
use bfs_txn::{BlockFault, Blocks, Changed, Overlay};

/// The length of an array of block runs, in bytes.
const ARRAY: u32 = 4096;

/// Whether a call only takes out, so that it takes no block.
pub fn only_takes_out(call: &Call) -> bool
    ensures { result ≡ takes_out call.now }
{
    match call {
        Call::Remove { .. } => true,
        Call::AttrRemove { .. } => true,
        Call::IndexRemove { .. } => true,
        _ => false,
    }
}

/// How many blocks an array has.
fn array_length(sup: &Super) -> u16
    requires { IsValid sup.now }
    ensures value { result ≡ max 1 (4096 / sup.now.block_size) }
    ensures some { 1 ≤ result }
{
    let blocks = ARRAY / sup.block_size;
    blocks.max(1) as u16
}

/// The reply to a fault of a block, or want of memory.
pub fn reply_to_fault(fault: BlockFault) -> Result<Reply, NoReply>
    ensures { IsThat (reply_to_block fault) result }
{
    match fault {
        BlockFault::Disk { before, after } => Ok(Reply::DiskFault {
            before,
            after,
            stops: false,
        }),
        BlockFault::Stopped { durable, faults } => Ok(Reply::Stopped { durable, faults }),
        BlockFault::Damaged { block } => Ok(Reply::Damaged { block }),
        BlockFault::NoMemory => Err(NoReply::NoMemory),
    }
}

/// Whether fewer free runs of a length than are needed share no block, over an open group and what lies below.
fn has_few<B: Blocks>(
    sup: &Super,
    bitmap: &Bitmap,
    group: &mut Changed,
    under: &mut B,
    len: u16,
    needed: u64,
) -> Result<bool, BlockFault>
    requires size { B.size under.old ≡ sup.now.block_size }
    requires volume { IsOfVolume (sizes_of sup.now) bitmap.now }
    requires group { MayBeSealed (layout_of sup.now) sup.now.block_size group.old }
    requires some { 1 ≤ len }
    ensures few { (m : ℕ → Option (List ℕ)) → B.told under.old ≡ Some m → HasBitmap bitmap.now (over group.old m) → IfOk result (λ few. few ≡ true → HasFewRuns bitmap.now (over group.old m) len needed) }
    ensures group { group.new ≡ group.old }
    ensures told { B.told under.new ≡ B.told under.old }
    ensures note { (B.frame under.new).note ≡ (B.frame under.old).note }
    ensures size { B.size under.new ≡ B.size under.old }
    ensures cause { IsCaused (B.counts under.old) (B.counts under.new) result }
{
    let mut overlay = Overlay::begin(group, under);
    let found = bitmap.free_runs(&mut overlay, len, needed);
    overlay.drop_call();
    match found {
        Ok(runs) => Ok(runs < needed),
        Err(fault) => Err(fault),
    }
}

/// The reply of a call that found no run of blocks while nothing is held back: that space is wanting, where fewer blocks are free than it needs, or
/// fewer runs of an array's length. Else memory is said to be wanting.
fn say_no_space<B: Blocks>(
    sup: &Super,
    bitmap: &Bitmap,
    group: &mut Changed,
    under: &mut B,
    needed: u64,
) -> Result<Reply, NoReply>
    requires valid { IsValid sup.now }
    requires size { B.size under.old ≡ sup.now.block_size }
    requires volume { IsOfVolume (sizes_of sup.now) bitmap.now }
    requires group { MayBeSealed (layout_of sup.now) sup.now.block_size group.old }
    ensures short { (m : ℕ → Option (List ℕ)) (tree : Tree) (holds : List hold.Hold) (call : calls.Call) → B.told under.old ≡ Some m → HasBitmap bitmap.now (over group.old m) → IsChange tree holds call → takes_out call ≡ false → needed ≤ need (volume_in (geometry_of sup.now) (over group.old m)) tree call → IfOk result (IsOutside (geometry_of sup.now) bitmap.now (over group.old m) tree holds (true ≡ true) call) }
    ensures no_memory { IfErr result (λ e. e ≡ NoMemory) }
    ensures cause { (stop : Option stops.Stop) → IfOk result (HasReplyCause (B.counts under.old) (B.counts under.new) stop) }
    ensures group { group.new ≡ group.old }
    ensures told { B.told under.new ≡ B.told under.old }
    ensures note { (B.frame under.new).note ≡ (B.frame under.old).note }
    ensures size { B.size under.new ≡ B.size under.old }
{
    let geometry = sup.geometry();
    let free = geometry.blocks - bitmap.used();
    if free < needed {
        return Ok(Reply::NoSpace { free, needed });
    }
    match has_few(sup, bitmap, group, under, array_length(sup), needed) {
        Ok(few) => {
            if few {
                return Ok(Reply::NoSpace { free, needed });
            }
            Err(NoReply::NoMemory)
        }
        Err(fault) => reply_to_fault(fault),
    }
}

/// What becomes of a call that found no run of blocks while something is held back: it is put off, where fewer blocks are free than it needs, or
/// fewer runs of an array's length. Else memory is said to be wanting.
fn put_off<B: Blocks>(
    sup: &Super,
    bitmap: &Bitmap,
    group: &mut Changed,
    under: &mut B,
    needed: u64,
) -> Result<Reply, NoReply>
    requires valid { IsValid sup.now }
    requires size { B.size under.old ≡ sup.now.block_size }
    requires volume { IsOfVolume (sizes_of sup.now) bitmap.now }
    requires group { MayBeSealed (layout_of sup.now) sup.now.block_size group.old }
    ensures outside { (m : ℕ → Option (List ℕ)) (tree : Tree) (holds : List hold.Hold) (call : calls.Call) → B.told under.old ≡ Some m → HasBitmap bitmap.now (over group.old m) → IfOk result (IsOutside (geometry_of sup.now) bitmap.now (over group.old m) tree holds (false ≡ true) call) }
    ensures few { (m : ℕ → Option (List ℕ)) → B.told under.old ≡ Some m → HasBitmap bitmap.now (over group.old m) → IfErr result (λ e. e ≡ Drain → HasFewRuns bitmap.now (over group.old m) 1 needed ⊎ HasFewRuns bitmap.now (over group.old m) (array_run bitmap.now) needed) }
    ensures cause { (stop : Option stops.Stop) → IfOk result (HasReplyCause (B.counts under.old) (B.counts under.new) stop) }
    ensures group { group.new ≡ group.old }
    ensures told { B.told under.new ≡ B.told under.old }
    ensures note { (B.frame under.new).note ≡ (B.frame under.old).note }
    ensures size { B.size under.new ≡ B.size under.old }
{
    match has_few(sup, bitmap, group, under, 1, needed) {
        Ok(few) => {
            if few {
                return Err(NoReply::Drain);
            }
        }
        Err(fault) => return reply_to_fault(fault),
    }
    match has_few(sup, bitmap, group, under, array_length(sup), needed) {
        Ok(few) => {
            if few {
                return Err(NoReply::Drain);
            }
            Err(NoReply::NoMemory)
        }
        Err(fault) => reply_to_fault(fault),
    }
}

/// What becomes of a call that found no run of blocks.
pub fn lacks_space<B: Blocks>(
    sup: &Super,
    bitmap: &Bitmap,
    group: &mut Changed,
    under: &mut B,
    idle: bool,
    call: &Call,
    needed: u64,
) -> Result<Reply, NoReply>
    requires valid { IsValid sup.now }
    requires size { B.size under.old ≡ sup.now.block_size }
    requires volume { IsOfVolume (sizes_of sup.now) bitmap.now }
    requires group { MayBeSealed (layout_of sup.now) sup.now.block_size group.old }
    ensures outside { (m : ℕ → Option (List ℕ)) (tree : Tree) (holds : List hold.Hold) → B.told under.old ≡ Some m → HasBitmap bitmap.now (over group.old m) → IsChange tree holds call.now → needed ≤ need (volume_in (geometry_of sup.now) (over group.old m)) tree call.now → IfOk result (IsOutside (geometry_of sup.now) bitmap.now (over group.old m) tree holds (idle ≡ true) call.now) }
    ensures put_off { (m : ℕ → Option (List ℕ)) (tree : Tree) (holds : List hold.Hold) (begun : ℕ) → B.told under.old ≡ Some m → HasBitmap bitmap.now (over group.old m) → IsChange tree holds call.now → needed ≤ need (volume_in (geometry_of sup.now) (over group.old m)) tree call.now → IfErr result (IsNoReply (geometry_of sup.now) bitmap.now (over group.old m) begun tree holds (idle ≡ true) call.now) }
    ensures cause { (stop : Option stops.Stop) → IfOk result (HasReplyCause (B.counts under.old) (B.counts under.new) stop) }
    ensures group { group.new ≡ group.old }
    ensures told { B.told under.new ≡ B.told under.old }
    ensures note { (B.frame under.new).note ≡ (B.frame under.old).note }
    ensures size { B.size under.new ≡ B.size under.old }
{
    if only_takes_out(call) {
        return Err(NoReply::NoMemory);
    }
    if idle {
        return say_no_space(sup, bitmap, group, under, needed);
    }
    put_off(sup, bitmap, group, under, needed)
}
