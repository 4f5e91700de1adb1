// An inode, as it is made.
ghost use Rattle.std.specs.Prelude.{◌≡◌, ◌≤◌, ◌<◌, ◌*◌, ◌-◌, ◌⊎◌, ℕ, List, true, false, pos, length, replicate, Option, Some, OnOk, IfOk, IfErr};
ghost use Rattle.bfs_bitmap.specs.Runs.{Fits, per_block, is_free};
ghost use Rattle.bfs_bitmap.specs.Fills.{IsBitmapBlock};
ghost use Rattle.bfs_super.specs.Conditions.{IsValid, natural};
ghost use Rattle.bfs_txn.specs.Faults.{AreLater};
ghost use Rattle.bfs_txn.specs.Told.{StaysChanged};
ghost use Rattle.bfs_stream.specs.Sizes.{sizes_of, IsInVolume, first_block};
ghost use Rattle.bfs_stream.specs.Grown.{IsOfVolume, Took};
ghost use Rattle.bfs_stream.specs.Faults.{IsGrowCause, IsNoRunFor};
ghost use Rattle.bfs_stream_pages.specs.Steps.{IsUndamaged};
ghost use Rattle.bfs_make.specs.Made.{formed_at, IsMade, HasInode, HasBits, HasMade};

use crate::site::{Site, has_long_blocks, has_short_blocks};
use bfs_bitmap::{Bitmap, RunFault};
use bfs_bytes::Run;
use bfs_inode::InodeMut;
use bfs_stream::GrowFault;
use bfs_txn::{BlockFault, Edits};
use std::alloc::{AllocError, Global};

/// What an inode is made with: its own address and its parent's, its mode and its flags as bits, the type of an attribute's
/// bytes, and the stamp of the call.
#[derive(Clone, Copy)]
pub struct NewInode {
    pub address: Run,
    pub parent: Run,
    pub mode: i32,
    pub flags: i32,
    pub kind: u32,
    pub stamp: i64,
}

/// What an inode is made with, wherever it stands.
#[derive(Clone, Copy)]
pub struct InodeForm {
    pub parent: Run,
    pub mode: i32,
    pub flags: i32,
    pub kind: u32,
    pub stamp: i64,
}

/// An inode of a form at an address.
fn formed(address: Run, form: InodeForm) -> NewInode
    ensures { result ≡ formed_at address form }
{
    NewInode {
        address,
        parent: form.parent,
        mode: form.mode,
        flags: form.flags,
        kind: form.kind,
        stamp: form.stamp,
    }
}

/// A block size as a signed number.
fn signed(size: u32) -> i32
    requires { size ≤ 8192 }
    ensures { result ≡ pos size }
{
    size as i32
}

/// Writes the fields of an inode over zeros.
fn put_fields(inode: &mut InodeMut<'_>, new: NewInode, size: u32)
    requires long { 1024 ≤ size }
    requires short { size ≤ 8192 }
    requires zeros { inode.old.block.now ≡ replicate size 0 }
    ensures same_reference { inode.new.block.ghost_name ≡ inode.old.block.ghost_name }
    ensures fields { IsMade size new inode.new.block.now }
{
    inode.set_magic1(0x3bbe0ad9);
    inode.set_inode_num(new.address);
    inode.set_mode(new.mode);
    inode.set_flags(new.flags);
    inode.set_create_time(new.stamp);
    inode.set_last_modified_time(new.stamp);
    inode.set_parent(new.parent);
    inode.set_type_code(new.kind);
    inode.set_inode_size(signed(size));
    inode.set_status_change_time(new.stamp);
}

/// Writes an inode over a block of zeros.
fn put_inode(block: &mut [u8], new: NewInode)
    requires long { 1024 ≤ length block.old }
    requires short { length block.old ≤ 8192 }
    requires zeros { block.old ≡ replicate (length block.old) 0 }
    ensures made { IsMade (length block.old) new block.new }
    ensures length { length block.new ≡ length block.old }
{
    let size = block.len() as u32;
    let mut inode = InodeMut::over(block);
    put_fields(&mut inode, new, size);
}

/// A block that is an inode which is made so.
fn made_block(alloc: Global, size: u32, new: NewInode) -> Result<Vec<u8>, AllocError>
    requires long { 1024 ≤ size }
    requires short { size ≤ 8192 }
    ensures made { IfOk result (λ v. IsMade size new v.items) }
    ensures length { IfOk result (λ v. length v.items ≡ size) }
{
    let mut block = vec![in alloc; 0u8; size as usize]?;
    put_inode(&mut block, new);
    Ok(block)
}

/// Takes a block for an inode.
pub fn take_block<E: Edits>(
    site: Site,
    bitmap: &mut Bitmap,
    edits: &mut E,
) -> Result<Run, GrowFault>
    requires size { E.size edits.old ≡ bitmap.old.block_size }
    requires volume { IsOfVolume (sizes_of site.sup) bitmap.old }
    ensures inside { IfOk result (IsInVolume (sizes_of site.sup)) }
    ensures one { IfOk result (λ run. run.len ≡ 1) }
    ensures took { (m : ℕ → Option (List ℕ)) → E.told edits.old ≡ Some m → Fits bitmap.old m → IfOk result (λ run. Took (sizes_of site.sup) bitmap.old bitmap.new run m (E.told edits.new)) }
    ensures no_run { (m : ℕ → Option (List ℕ)) → E.told edits.old ≡ Some m → Fits bitmap.old m → IfErr result (IsNoRunFor bitmap.old m 1) }
    ensures rest { bitmap.new ≡ record bitmap.old { tally = bitmap.new.tally } }
    ensures changed { (k : ℕ) → E.changed edits.new k ≡ true → (E.changed edits.old k ≡ true) ⊎ IsBitmapBlock bitmap.old k }
    ensures stays { StaysChanged (E.changed edits.old) (E.changed edits.new) }
    ensures size { E.size edits.new ≡ E.size edits.old }
    ensures frame { E.frame edits.new ≡ E.frame edits.old }
    ensures later { AreLater (E.counts edits.old) (E.counts edits.new) }
    ensures cause { IfErr result (IsGrowCause 1 (E.counts edits.old) (E.counts edits.new)) }
{
    match bitmap.take_run(edits, 1, 1) {
        Ok(run) => Ok(run),
        Err(RunFault::NoRun { wanted, free }) => Err(GrowFault::NoRun { wanted, free }),
        Err(RunFault::Block(fault)) => Err(GrowFault::Block(fault)),
    }
}

/// The first block of a run of the volume.
pub fn run_start(site: Site, run: Run) -> u64
    requires valid { IsValid site.sup }
    requires inside { IsInVolume (sizes_of site.sup) run }
    ensures { result ≡ first_block (sizes_of site.sup) run }
{
    site.sup.block_of(run)
}

/// Writes an inode that is made at its address, which was taken for it.
pub fn make_inode<E: Edits>(site: Site, edits: &mut E, new: NewInode) -> Result<(), GrowFault>
    requires valid { IsValid site.sup }
    requires size { E.size edits.old ≡ site.sup.block_size }
    requires inside { IsInVolume (sizes_of site.sup) new.address }
    ensures made { (m : ℕ → Option (List ℕ)) → E.told edits.old ≡ Some m → OnOk result (HasInode (sizes_of site.sup) new m (E.told edits.new)) }
    ensures changed { (k : ℕ) → E.changed edits.new k ≡ true → (E.changed edits.old k ≡ true) ⊎ (k ≡ first_block (sizes_of site.sup) new.address) }
    ensures entered { OnOk result (E.changed edits.new (first_block (sizes_of site.sup) new.address) ≡ true) }
    ensures stays { StaysChanged (E.changed edits.old) (E.changed edits.new) }
    ensures size { E.size edits.new ≡ E.size edits.old }
    ensures frame { E.frame edits.new ≡ E.frame edits.old }
    ensures later { AreLater (E.counts edits.old) (E.counts edits.new) }
    ensures sound { IfErr result IsUndamaged }
    ensures cause { IfErr result (IsGrowCause 1 (E.counts edits.old) (E.counts edits.new)) }
{
    has_long_blocks(site.sup);
    has_short_blocks(site.sup);
    let block = match made_block(site.alloc, site.sup.block_size, new) {
        Ok(block) => block,
        Err(_) => return Err(GrowFault::Block(BlockFault::NoMemory)),
    };
    let id = run_start(site, new.address);
    match edits.set(id, &block) {
        Ok(()) => Ok(()),
        Err(_) => Err(GrowFault::Block(BlockFault::NoMemory)),
    }
}

/// Takes a block and makes an inode of a form there. Answers its address.
pub fn new_inode<E: Edits>(
    site: Site,
    bitmap: &mut Bitmap,
    edits: &mut E,
    form: InodeForm,
) -> Result<Run, GrowFault>
    requires valid { IsValid site.sup }
    requires size { E.size edits.old ≡ site.sup.block_size }
    requires volume { IsOfVolume (sizes_of site.sup) bitmap.old }
    ensures inside { IfOk result (IsInVolume (sizes_of site.sup)) }
    ensures one { IfOk result (λ run. run.len ≡ 1) }
    ensures made { (m : ℕ → Option (List ℕ)) → E.told edits.old ≡ Some m → HasBits bitmap.old m → IfOk result (λ run. HasMade (sizes_of site.sup) bitmap.old bitmap.new m (formed_at run form) (E.told edits.new) (E.changed edits.old) (E.changed edits.new)) }
    ensures no_run { (m : ℕ → Option (List ℕ)) → E.told edits.old ≡ Some m → HasBits bitmap.old m → IfErr result (IsNoRunFor bitmap.old m 1) }
    ensures rest { bitmap.new ≡ record bitmap.old { tally = bitmap.new.tally } }
    ensures stays { StaysChanged (E.changed edits.old) (E.changed edits.new) }
    ensures size { E.size edits.new ≡ E.size edits.old }
    ensures frame { E.frame edits.new ≡ E.frame edits.old }
    ensures later { AreLater (E.counts edits.old) (E.counts edits.new) }
    ensures cause { IfErr result (IsGrowCause 1 (E.counts edits.old) (E.counts edits.new)) }
{
    let address = match take_block(site, bitmap, edits) {
        Ok(address) => address,
        Err(fault) => return Err(fault),
    };
    match make_inode(site, edits, formed(address, form)) {
        Ok(()) => Ok(address),
        Err(fault) => Err(fault),
    }
}
