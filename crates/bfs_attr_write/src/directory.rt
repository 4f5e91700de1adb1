// The attribute directory of an inode: made where there is none, and dropped where it names no attribute.
ghost use Rattle.std.specs.Prelude.{◌≡◌, ◌≤◌, ◌<◌, ◌⊎◌, ℕ, true, List, length, Option, Some, OnOk, IfOk, IfErr, IsSome};
ghost use Rattle.bfs_bitmap.specs.Runs.{as_kept};
ghost use Rattle.bfs_inode.specs.Inode.{inode_at};
ghost use Rattle.bfs_super.specs.Conditions.{IsValid, natural};
ghost use Rattle.bfs_txn.specs.Faults.{AreLater, IsCauseOf};
ghost use Rattle.bfs_txn.specs.Told.{StaysChanged};
ghost use Rattle.bfs_stream.specs.Grown.{IsOfVolume};
ghost use Rattle.bfs_stream.specs.Sizes.{sizes_of};
ghost use Rattle.bfs_maps.specs.Refused.{IsUndone, HasReadCause};
ghost use Rattle.bfs_make.specs.Made.{zero_run};
ghost use Rattle.bfs_attr.specs.Bearers.{bearer_of};
ghost use Rattle.bfs_attr.specs.Made.{directory_form};
ghost use Rattle.bfs_attr_write.specs.Directories.{CanMake, CanDrop, HasAddress, HasDirectoryMade, HasDirectoryDropped, IsNotMade, HasMakeCause};

use bfs_bitmap::Bitmap;
use bfs_bytes::Run;
use bfs_inode::InodeMut;
use bfs_make::{InodeForm, Site, empty_tree, give_inode, read_block, run_of, run_start, store};
use bfs_node::{KeyKind, TreeFault};
use bfs_stream::GrowFault;
use bfs_stream_pages::MapFault;
use bfs_txn::{BlockFault, Edits};

/// Writes the address of an attribute directory into the inode in a block.
fn set_address(block: &mut [u8], address: Run)
    requires { 1024 ≤ length block.old }
    ensures length { length block.new ≡ length block.old }
    ensures inode { inode_at block.new ≡ record (inode_at block.old) { attributes = address } }
{
    let mut inode = InodeMut::over(block);
    inode.set_attributes(address);
}

/// Writes the address of the attribute directory of an inode, or the zero run, into its block.
pub fn put_address<E: Edits>(
    site: Site,
    edits: &mut E,
    inode: u64,
    address: Run,
) -> Result<(), BlockFault>
    requires valid { IsValid site.sup }
    requires size { E.size edits.old ≡ site.sup.block_size }
    ensures written { (m : ℕ → Option (List ℕ)) → E.told edits.old ≡ Some m → IsSome (m inode) → OnOk result (HasAddress m inode address (E.told edits.new)) }
    ensures changed { (k : ℕ) → E.changed edits.new k ≡ true → (E.changed edits.old k ≡ true) ⊎ (k ≡ inode) }
    ensures stays { StaysChanged (E.changed edits.old) (E.changed edits.new) }
    ensures size { E.size edits.new ≡ E.size edits.old }
    ensures frame { E.frame edits.new ≡ E.frame edits.old }
    ensures later { AreLater (E.counts edits.old) (E.counts edits.new) }
    ensures cause { IfErr result (IsCauseOf (E.counts edits.old) (E.counts edits.new)) }
{
    let mut block = match read_block(site, edits, inode) {
        Ok(block) => block,
        Err(fault) => return Err(fault),
    };
    set_address(&mut block, address);
    match edits.set(inode, &block) {
        Ok(()) => Ok(()),
        Err(_) => Err(BlockFault::NoMemory),
    }
}

/// What the inode of an attribute directory is made with, of the inode at an address.
fn directory_inode(parent: Run, stamp: i64) -> InodeForm
    ensures { result ≡ directory_form parent stamp }
{
    InodeForm {
        parent,
        mode: 0x80041c0,
        flags: 1,
        kind: 0,
        stamp,
    }
}

/// The zero run, which is the address of no attribute directory.
pub fn no_run() -> Run
    ensures { result ≡ zero_run }
{
    Run {
        group: 0,
        start: 0,
        len: 0,
    }
}

/// Makes the attribute directory of an inode that has none. Answers its block. After a fault the call is to be dropped.
pub fn make_attribute_directory<E: Edits>(
    site: Site,
    bitmap: &mut Bitmap,
    edits: &mut E,
    inode: u64,
    stamp: i64,
) -> Result<u64, MapFault>
    requires valid { IsValid site.sup }
    requires inside { inode < natural site.sup.num_blocks }
    requires size { E.size edits.old ≡ site.sup.block_size }
    requires volume { IsOfVolume (sizes_of site.sup) bitmap.old }
    ensures made { (m : ℕ → Option (List ℕ)) → E.told edits.old ≡ Some m → CanMake (bearer_of inode site.sup) bitmap.old m → IfOk result (λ d. HasDirectoryMade (bearer_of inode site.sup) bitmap.old bitmap.new m d stamp (E.told edits.new) (E.changed edits.old) (E.changed edits.new)) }
    ensures below { IfOk result (λ d. d < natural site.sup.num_blocks) }
    ensures faults { (m : ℕ → Option (List ℕ)) → E.told edits.old ≡ Some m → CanMake (bearer_of inode site.sup) bitmap.old m → IfErr result (IsNotMade (sizes_of site.sup) bitmap.old m) }
    ensures rest { bitmap.new ≡ record bitmap.old { tally = bitmap.new.tally } }
    ensures stays { StaysChanged (E.changed edits.old) (E.changed edits.new) }
    ensures size { E.size edits.new ≡ E.size edits.old }
    ensures frame { E.frame edits.new ≡ E.frame edits.old }
    ensures later { AreLater (E.counts edits.old) (E.counts edits.new) }
    ensures cause { IfErr result (HasMakeCause site.sup.block_size (E.counts edits.old) (E.counts edits.new)) }
{
    let bytes = match empty_tree(site.alloc, KeyKind::Text) {
        Ok(bytes) => bytes,
        Err(_) => return Err(TreeFault::NoMemory),
    };
    let form = directory_inode(run_of(site, inode), stamp);
    let address = match store(site, bitmap, edits, form, &bytes) {
        Ok(address) => address,
        Err(fault) => return Err(TreeFault::Pages(fault)),
    };
    match put_address(site, edits, inode, address) {
        Ok(()) => Ok(run_start(site, address)),
        Err(fault) => Err(TreeFault::Pages(GrowFault::Block(fault))),
    }
}

/// Gives back the attribute directory of an inode, which names no attribute. The inode has none since. After a fault the call is to
/// be dropped.
pub fn drop_attribute_directory<E: Edits>(
    site: Site,
    bitmap: &mut Bitmap,
    edits: &mut E,
    inode: u64,
    directory: u64,
) -> Result<(), MapFault>
    requires valid { IsValid site.sup }
    requires inside { directory < natural site.sup.num_blocks }
    requires size { E.size edits.old ≡ site.sup.block_size }
    requires volume { IsOfVolume (sizes_of site.sup) bitmap.old }
    ensures dropped { (m : ℕ → Option (List ℕ)) → E.told edits.old ≡ Some m → CanDrop (bearer_of inode site.sup) bitmap.old m directory → OnOk result (HasDirectoryDropped (bearer_of inode site.sup) bitmap.old bitmap.new m (E.told edits.new) (E.changed edits.old) (E.changed edits.new)) }
    ensures sound { (m : ℕ → Option (List ℕ)) → E.told edits.old ≡ Some m → CanDrop (bearer_of inode site.sup) bitmap.old m directory → IfErr result IsUndone }
    ensures rest { bitmap.new ≡ record bitmap.old { given = bitmap.new.given; tally = bitmap.new.tally } }
    ensures kept { as_kept bitmap.new ≡ as_kept bitmap.old }
    ensures stays { StaysChanged (E.changed edits.old) (E.changed edits.new) }
    ensures size { E.size edits.new ≡ E.size edits.old }
    ensures frame { E.frame edits.new ≡ E.frame edits.old }
    ensures later { AreLater (E.counts edits.old) (E.counts edits.new) }
    ensures cause { IfErr result (HasReadCause (E.counts edits.old) (E.counts edits.new)) }
{
    match give_inode(site, bitmap, edits, directory) {
        Ok(()) => {}
        Err(fault) => return Err(TreeFault::Pages(GrowFault::Block(fault))),
    }
    match put_address(site, edits, inode, no_run()) {
        Ok(()) => Ok(()),
        Err(fault) => Err(TreeFault::Pages(GrowFault::Block(fault))),
    }
}
