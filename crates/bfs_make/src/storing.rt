// Bytes that are written into the stream of an inode.
ghost use Rattle.std.specs.Prelude.{◌≡◌, ◌≤◌, ◌<◌, ◌*◌, ◌+◌, ◌^◌, ◌⊎◌, ℕ, [], List, true, pos, max, length, Option, Some, OnOk, OnErr, IfErr};
ghost use Rattle.bfs_bitmap.specs.Fills.{IsBitmapBlock};
ghost use Rattle.bfs_bitmap.specs.Runs.{Room};
ghost use Rattle.bfs_super.specs.Conditions.{IsValid, natural, ceil};
ghost use Rattle.bfs_txn.specs.Faults.{AreLater};
ghost use Rattle.bfs_txn.specs.Told.{StaysChanged};
ghost use Rattle.bfs_stream.specs.Faults.{IsGrowCause, IsGrowFault};
ghost use Rattle.bfs_stream.specs.Grown.{IsOfVolume, Owns};
ghost use Rattle.bfs_stream.specs.Places.{places_at, fields};
ghost use Rattle.bfs_stream.specs.Sizes.{sizes_of};
ghost use Rattle.bfs_stream.specs.Told.{contents};
ghost use Rattle.bfs_stream_pages.specs.Held.{Held};
ghost use Rattle.bfs_stream_pages.specs.Steps.{HasSize, IsUndamaged};
ghost use Rattle.bfs_maps.specs.Mapped.{StreamNow};
ghost use Rattle.bfs_stream.specs.Sizes.{IsInVolume};
ghost use Rattle.std.specs.Prelude.{IfOk};
ghost use Rattle.bfs_make.specs.Made.{formed_at, HasBits, HasStored, IsNotStored};
ghost use Rattle.bfs_make.specs.Sites.{stream_in};

use crate::filling::fill;
use crate::making::{InodeForm, new_inode, run_start};
use crate::site::{Site, has_long_blocks, has_short_blocks};
use bfs_bitmap::Bitmap;
use bfs_bytes::Run;
use bfs_growth::grow;
use bfs_stream::{GrowFault, Stream};
use bfs_stream_pages::Backing;
use bfs_txn::{BlockFault, Edits};

/// The number of blocks of a size that hold so many bytes.
pub fn blocks_for(size: u32, len: u64) -> u64
    requires size { 1024 ≤ size }
    requires short { size ≤ 8192 }
    requires len { len < 2 ^ 63 }
    ensures count { result ≡ ceil len size }
    ensures enough { len ≤ size * result }
    ensures few { result < 2 ^ 63 }
{
    (len + (u64::from(size) - 1)) / u64::from(size)
}

/// Writes the size of an inode's stream.
fn put_length<E: Edits>(site: Site, edits: &mut E, id: u64, len: u64) -> Result<(), GrowFault>
    requires valid { IsValid site.sup }
    requires inside { id < natural site.sup.num_blocks }
    requires size { E.size edits.old ≡ site.sup.block_size }
    requires few { len < 2 ^ 63 }
    ensures written { (v : Room) (long : ℕ) (m : ℕ → Option (List ℕ)) → E.told edits.old ≡ Some m → Held (stream_in site id) v long m → len ≤ site.sup.block_size * length (places_at (sizes_of site.sup) (contents m) id) → OnOk result (HasSize (stream_in site id) v len m (E.told edits.new) (E.changed edits.old) (E.changed edits.new)) }
    ensures sound { (v : Room) (long : ℕ) (m : ℕ → Option (List ℕ)) → E.told edits.old ≡ Some m → Held (stream_in site id) v long m → IfErr result IsUndamaged }
    ensures stays { StaysChanged (E.changed edits.old) (E.changed edits.new) }
    ensures size { E.size edits.new ≡ E.size edits.old }
    ensures frame { E.frame edits.new ≡ E.frame edits.old }
    ensures later { AreLater (E.counts edits.old) (E.counts edits.new) }
    ensures cause { IfErr result (IsGrowCause 1 (E.counts edits.old) (E.counts edits.new)) }
{
    let mut block = match vec![in site.alloc; 0u8; site.sup.block_size as usize] {
        Ok(block) => block,
        Err(_) => return Err(GrowFault::Block(BlockFault::NoMemory)),
    };
    let mut backing = Backing::at(site.alloc, id, &site.sup);
    match backing.put_size(edits, &mut block, len) {
        Ok(()) => Ok(()),
        Err(fault) => Err(fault),
    }
}

/// Gives these bytes to a stream that has no blocks: as few as hold them.
pub fn write_stream<E: Edits>(
    site: Site,
    bitmap: &mut Bitmap,
    edits: &mut E,
    id: u64,
    bytes: &[u8],
) -> Result<(), GrowFault>
    requires valid { IsValid site.sup }
    requires inside { id < natural site.sup.num_blocks }
    requires size { E.size edits.old ≡ site.sup.block_size }
    requires volume { IsOfVolume (sizes_of site.sup) bitmap.old }
    ensures written { (m : ℕ → Option (List ℕ)) → E.told edits.old ≡ Some m → Owns (stream_in site id) bitmap.old [] m → places_at (sizes_of site.sup) (contents m) id ≡ [] → (fields (sizes_of site.sup) (contents m) id).size ≡ pos 0 → OnOk result (StreamNow (stream_in site id) bitmap.old bitmap.new m (λ all. all ≡ bytes.now) (E.told edits.new) (E.changed edits.old) (E.changed edits.new)) }
    ensures faults { (m : ℕ → Option (List ℕ)) → E.told edits.old ≡ Some m → Owns (stream_in site id) bitmap.old [] m → places_at (sizes_of site.sup) (contents m) id ≡ [] → (fields (sizes_of site.sup) (contents m) id).size ≡ pos 0 → IfErr result (IsGrowFault (stream_in site id) bitmap.old m (ceil (length bytes.now) site.sup.block_size)) }
    ensures rest { bitmap.new ≡ record bitmap.old { tally = bitmap.new.tally } }
    ensures stays { StaysChanged (E.changed edits.old) (E.changed edits.new) }
    ensures size { E.size edits.new ≡ E.size edits.old }
    ensures frame { E.frame edits.new ≡ E.frame edits.old }
    ensures later { AreLater (E.counts edits.old) (E.counts edits.new) }
    ensures cause { IfErr result (IsGrowCause (max 1 (ceil (length bytes.now) site.sup.block_size)) (E.counts edits.old) (E.counts edits.new)) }
{
    has_long_blocks(site.sup);
    has_short_blocks(site.sup);
    let len = bytes.len() as u64;
    let blocks = blocks_for(site.sup.block_size, len);
    let mut stream = Stream::at(site.alloc, id, &site.sup);
    match grow(&mut stream, bitmap, edits, blocks) {
        Ok(()) => {}
        Err(fault) => return Err(fault),
    }
    match fill(site, edits, id, bytes, blocks) {
        Ok(()) => {}
        Err(fault) => return Err(fault),
    }
    match put_length(site, edits, id, len) {
        Ok(()) => Ok(()),
        Err(fault) => Err(fault),
    }
}

/// Makes an inode of a form, and gives these bytes to its stream. Answers its address.
pub fn store<E: Edits>(
    site: Site,
    bitmap: &mut Bitmap,
    edits: &mut E,
    form: InodeForm,
    bytes: &[u8],
) -> Result<Run, GrowFault>
    requires valid { IsValid site.sup }
    requires size { E.size edits.old ≡ site.sup.block_size }
    requires volume { IsOfVolume (sizes_of site.sup) bitmap.old }
    ensures inside { IfOk result (IsInVolume (sizes_of site.sup)) }
    ensures one { IfOk result (λ run. run.len ≡ 1) }
    ensures stored { (m : ℕ → Option (List ℕ)) → E.told edits.old ≡ Some m → HasBits bitmap.old m → IfOk result (λ run. HasStored (sizes_of site.sup) bitmap.old bitmap.new m (formed_at run form) bytes.now (E.told edits.new) (E.changed edits.old) (E.changed edits.new)) }
    ensures faults { (m : ℕ → Option (List ℕ)) → E.told edits.old ≡ Some m → HasBits bitmap.old m → IfErr result (IsNotStored (sizes_of site.sup) bitmap.old m (ceil (length bytes.now) site.sup.block_size)) }
    ensures rest { bitmap.new ≡ record bitmap.old { tally = bitmap.new.tally } }
    ensures stays { StaysChanged (E.changed edits.old) (E.changed edits.new) }
    ensures size { E.size edits.new ≡ E.size edits.old }
    ensures frame { E.frame edits.new ≡ E.frame edits.old }
    ensures later { AreLater (E.counts edits.old) (E.counts edits.new) }
    ensures cause { IfErr result (IsGrowCause (max 1 (ceil (length bytes.now) site.sup.block_size)) (E.counts edits.old) (E.counts edits.new)) }
{
    let address = match new_inode(site, bitmap, edits, form) {
        Ok(address) => address,
        Err(fault) => return Err(fault),
    };
    match write_stream(site, bitmap, edits, run_start(site, address), bytes) {
        Ok(()) => Ok(address),
        Err(fault) => Err(fault),
    }
}
