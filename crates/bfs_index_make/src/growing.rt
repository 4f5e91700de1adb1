// The inode of a new index, with a tree without rows in its stream.
ghost use Rattle.std.specs.Prelude.{◌≡◌, ◌≤◌, ◌<◌, ℕ, [], pos, List, length, Option, Some, IfOk, IfErr};
ghost use Rattle.bfs_base.specs.Keys.{IsTreeKind};
ghost use Rattle.bfs_bitmap.specs.Runs.{Room};
ghost use Rattle.bfs_super.specs.Conditions.{IsValid, natural};
ghost use Rattle.bfs_super.specs.Geometry.{geometry_of};
ghost use Rattle.bfs_txn.specs.Faults.{AreLater, Counts};
ghost use Rattle.bfs_txn.specs.Told.{StaysChanged};
ghost use Rattle.bfs_stream.specs.Faults.{IsGrowCause, IsGrowFault};
ghost use Rattle.bfs_stream.specs.Grown.{IsOfVolume, room_at};
ghost use Rattle.bfs_stream.specs.Sizes.{Origin, sizes_of, IsInVolume};
ghost use Rattle.bfs_stream.specs.Told.{contents};
ghost use Rattle.bfs_tree.specs.Trees.{Tree};
ghost use Rattle.bfs_make.specs.Made.{formed_at, HasBits, HasStored};
ghost use Rattle.bfs_shift.specs.Lists.{Lists};
ghost use Rattle.bfs_shift.specs.Work.{IsAtWork};
ghost use Rattle.bfs_calls.specs.Done.{IsUnanswered, HasAnswerCause};
ghost use Rattle.bfs_index_make.specs.Made.{index_mode, index_form, HasLooseIndex};

use bfs_bitmap::Bitmap;
use bfs_bytes::Run;
use bfs_make::{InodeForm, Site, empty_tree, new_inode, run_start, write_stream};
use bfs_node::{KeyKind, TreeFault};
use bfs_stream::GrowFault;
use bfs_stream_pages::MapFault;
use bfs_super::Super;
use bfs_txn::{BlockFault, Edits};
use std::alloc::Global;

/// The mode of an index's inode. There is no index of floats.
fn mode_of(kind: KeyKind) -> i32
    ensures { result ≡ pos (index_mode kind) }
{
    match kind {
        KeyKind::Text => 0o4100040700,
        KeyKind::I32 => 0o4200040700,
        KeyKind::U32 => 0o4400040700,
        KeyKind::I64 => 0o4010040700,
        KeyKind::U64 => 0o4020040700,
        KeyKind::F32 | KeyKind::F64 => 0o4000040700,
    }
}

/// What an index's inode is made with, in the index directory at an address.
fn form_of(parent: Run, kind: KeyKind, stamp: i64) -> InodeForm
    ensures { result ≡ index_form parent kind stamp }
{
    InodeForm {
        parent,
        mode: mode_of(kind),
        flags: 1,
        kind: 0,
        stamp,
    }
}

/// Why a stream without blocks has not grown by a few. It has room for them, unless its inode isn't what was written.
fn not_grown(block: u64, fault: GrowFault) -> MapFault
    ensures cause { (blocks : ℕ) (old new : Counts) → IsGrowCause blocks old new fault → HasAnswerCause old new result }
    ensures unanswered { (o : Origin) (v : Room) (m : ℕ → Option (List ℕ)) (blocks : ℕ) → blocks ≤ room_at o.sizes (contents m) o.id → IsGrowFault o v m blocks fault → IsUnanswered result }
{
    match fault {
        GrowFault::NoRun { wanted, free } => TreeFault::Pages(GrowFault::NoRun { wanted, free }),
        GrowFault::Full { .. } => {
            TreeFault::Pages(GrowFault::Block(BlockFault::Damaged { block }))
        }
        GrowFault::Block(fault) => TreeFault::Pages(GrowFault::Block(fault)),
    }
}

/// Makes an inode of a form, and gives these few bytes to its stream. Answers its address. After a fault the call is to be dropped.
fn store_few<E: Edits>(
    site: Site,
    bitmap: &mut Bitmap,
    edits: &mut E,
    form: InodeForm,
    bytes: &[u8],
) -> Result<Run, MapFault>
    requires valid { IsValid site.sup }
    requires size { E.size edits.old ≡ site.sup.block_size }
    requires volume { IsOfVolume (sizes_of site.sup) bitmap.old }
    requires few { length bytes.now ≤ 2048 }
    ensures inside { IfOk result (IsInVolume (sizes_of site.sup)) }
    ensures one { IfOk result (λ run. run.len ≡ 1) }
    ensures stored { (m : ℕ → Option (List ℕ)) → E.told edits.old ≡ Some m → HasBits bitmap.old m → IfOk result (λ run. HasStored (sizes_of site.sup) bitmap.old bitmap.new m (formed_at run form) bytes.now (E.told edits.new) (E.changed edits.old) (E.changed edits.new)) }
    ensures unanswered { (m : ℕ → Option (List ℕ)) → E.told edits.old ≡ Some m → HasBits bitmap.old m → IfErr result IsUnanswered }
    ensures rest { bitmap.new ≡ record bitmap.old { tally = bitmap.new.tally } }
    ensures stays { StaysChanged (E.changed edits.old) (E.changed edits.new) }
    ensures size { E.size edits.new ≡ E.size edits.old }
    ensures frame { E.frame edits.new ≡ E.frame edits.old }
    ensures later { AreLater (E.counts edits.old) (E.counts edits.new) }
    ensures cause { IfErr result (HasAnswerCause (E.counts edits.old) (E.counts edits.new)) }
{
    let address = match new_inode(site, bitmap, edits, form) {
        Ok(address) => address,
        Err(fault) => return Err(TreeFault::Pages(fault)),
    };
    let id = run_start(site, address);
    match write_stream(site, bitmap, edits, id, bytes) {
        Ok(()) => Ok(address),
        Err(fault) => Err(not_grown(id, fault)),
    }
}

/// Makes the inode of an index that lists nothing, of free blocks, which are loose then. Answers its number. After a fault the call is to
/// be dropped.
pub(crate) fn new_index<E: Edits>(
    alloc: Global,
    sup: &Super,
    bitmap: &mut Bitmap,
    edits: &mut E,
    kind: KeyKind,
    stamp: i64,
) -> Result<u64, MapFault>
    requires valid { IsValid sup.now }
    requires size { E.size edits.old ≡ sup.now.block_size }
    requires volume { IsOfVolume (sizes_of sup.now) bitmap.old }
    requires kind { IsTreeKind kind }
    ensures inside { IfOk result (λ id. id < natural sup.now.num_blocks) }
    ensures made { (m : ℕ → Option (List ℕ)) (tree : Tree) (lists : Lists) → E.told edits.old ≡ Some m → IsAtWork (geometry_of sup.now) bitmap.old m tree lists [] → IfOk result (λ id. HasLooseIndex (geometry_of sup.now) bitmap.old bitmap.new m tree lists kind id (E.told edits.new) (E.changed edits.old) (E.changed edits.new)) }
    ensures unanswered { (m : ℕ → Option (List ℕ)) (tree : Tree) (lists : Lists) → E.told edits.old ≡ Some m → IsAtWork (geometry_of sup.now) bitmap.old m tree lists [] → IfErr result IsUnanswered }
    ensures rest { bitmap.new ≡ record bitmap.old { tally = bitmap.new.tally } }
    ensures stays { StaysChanged (E.changed edits.old) (E.changed edits.new) }
    ensures size { E.size edits.new ≡ E.size edits.old }
    ensures frame { E.frame edits.new ≡ E.frame edits.old }
    ensures later { AreLater (E.counts edits.old) (E.counts edits.new) }
    ensures cause { IfErr result (HasAnswerCause (E.counts edits.old) (E.counts edits.new)) }
{
    let bytes = match empty_tree(alloc, kind) {
        Ok(bytes) => bytes,
        Err(_) => return Err(TreeFault::NoMemory),
    };
    let site = Site { alloc, sup: *sup };
    let form = form_of(sup.indices, kind, stamp);
    match store_few(site, bitmap, edits, form, &bytes) {
        Ok(address) => Ok(run_start(site, address)),
        Err(fault) => Err(fault),
    }
}
