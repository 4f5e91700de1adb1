// Inodes that are given back, with all their blocks.
ghost use Rattle.std.specs.Prelude.{◌≡◌, ◌≤◌, ◌<◌, ◌⊎◌, ◌/◌, ◌%◌, ◌^◌, ℕ, [], ◌∷◌, List, true, pos, length, Option, Some, OnOk, IfErr};
ghost use Rattle.bfs_bitmap.specs.Fills.{IsBitmapBlock};
ghost use Rattle.bfs_bitmap.specs.Runs.{Room, Fits, as_kept};
ghost use Rattle.bfs_inode.specs.Inode.{stream_at};
ghost use Rattle.bfs_super.specs.Conditions.{IsValid, natural};
ghost use Rattle.bfs_txn.specs.Faults.{AreLater};
ghost use Rattle.bfs_txn.specs.Told.{StaysChanged};
ghost use Rattle.bfs_stream.specs.Faults.{IsCauseIn};
ghost use Rattle.bfs_stream.specs.Grown.{IsOfVolume, Owns};
ghost use Rattle.bfs_stream.specs.Places.{fields, places_at};
ghost use Rattle.bfs_stream.specs.Scans.{IsDamage};
ghost use Rattle.bfs_stream.specs.Sizes.{sizes_of, IsInVolume, first_block};
ghost use Rattle.bfs_stream.specs.Told.{contents, AreTold};
ghost use Rattle.bfs_stream.specs.Standing.{standing};
ghost use Rattle.bfs_stream.specs.Trimmed.{Gave};
ghost use Rattle.bfs_stream_pages.specs.Moves.{KeepsInode};
ghost use Rattle.bfs_make.specs.Given.{HasEmptied, HasStripped, HasGivenBack};
ghost use Rattle.bfs_make.specs.Sites.{stream_in};

use crate::site::{Site, has_long_blocks};
use bfs_bitmap::Bitmap;
use bfs_bytes::Run;
use bfs_cuts::trim;
use bfs_inode::InodeMut;
use bfs_stream::Stream;
use bfs_super::Super;
use bfs_txn::{BlockFault, Edits};

/// A number that isn't negative, or 0.
fn natural_int(value: i32) -> u32
    ensures { result ≡ natural value }
{
    if value < 0 { 0 } else { value as u32 }
}

/// Two to this power.
fn power(shift: u32) -> u64
    requires { shift ≤ 16 }
    ensures { result ≡ 2 ^ shift }
{
    1 << shift
}

/// The blocks of an allocation group.
fn group_length(sup: Super) -> u64
    requires { IsValid sup }
    ensures { result ≡ (sizes_of sup).group_blocks }
{
    power(natural_int(sup.ag_shift))
}

/// The run of one block, in groups of so many.
fn run_among(block: u64, group: u64) -> Run
    requires some { 0 < group }
    requires few { group ≤ 65536 }
    requires block { block < 4194304 }
    ensures group { result.group ≡ pos (block / group) }
    ensures start { result.start ≡ block % group }
    ensures one { result.len ≡ 1 }
{
    Run {
        group: (block / group) as i32,
        start: (block % group) as u16,
        len: 1,
    }
}

/// The run of one block of the volume.
pub fn run_of(site: Site, block: u64) -> Run
    requires valid { IsValid site.sup }
    requires inside { block < natural site.sup.num_blocks }
    ensures inside { IsInVolume (sizes_of site.sup) result }
    ensures block { first_block (sizes_of site.sup) result ≡ block }
    ensures one { result.len ≡ 1 }
{
    run_among(block, group_length(site.sup))
}

/// Writes 0 as the size of the stream of the inode in a block.
fn clear_size(block: &mut [u8])
    requires { 1024 ≤ length block.old }
    ensures length { length block.new ≡ length block.old }
    ensures stream { stream_at block.new ≡ record (stream_at block.old) { size = pos 0 } }
    ensures inode { KeepsInode block.old block.new }
{
    let mut inode = InodeMut::over(block);
    inode.set_size(0);
}

/// Writes 0 as the size of an inode's stream, which keeps its blocks. The buffer then has the inode's block.
fn empty_over<E: Edits>(
    site: Site,
    edits: &mut E,
    id: u64,
    block: &mut [u8],
) -> Result<(), BlockFault>
    requires valid { IsValid site.sup }
    requires size { E.size edits.old ≡ site.sup.block_size }
    requires block { length block.old ≡ site.sup.block_size }
    ensures emptied { (v : Room) (m : ℕ → Option (List ℕ)) → E.told edits.old ≡ Some m → Owns (stream_in site id) v [] m → OnOk result (HasEmptied (stream_in site id) v m (E.told edits.new) (E.changed edits.old) (E.changed edits.new)) }
    ensures sound { (m : ℕ → Option (List ℕ)) → E.told edits.old ≡ Some m → IfErr result (λ fault. ¬ IsDamage fault) }
    ensures changed { (k : ℕ) → E.changed edits.new k ≡ true → (E.changed edits.old k ≡ true) ⊎ (k ≡ id) }
    ensures stays { StaysChanged (E.changed edits.old) (E.changed edits.new) }
    ensures size { E.size edits.new ≡ E.size edits.old }
    ensures frame { E.frame edits.new ≡ E.frame edits.old }
    ensures later { AreLater (E.counts edits.old) (E.counts edits.new) }
    ensures cause { IfErr result (IsCauseIn (E.counts edits.old) (E.counts edits.new)) }
{
    has_long_blocks(site.sup);
    match edits.get(id, block) {
        Ok(()) => {}
        Err(fault) => return Err(fault),
    }
    clear_size(block);
    match edits.set(id, block) {
        Ok(()) => Ok(()),
        Err(_) => Err(BlockFault::NoMemory),
    }
}

/// Writes 0 as the size of an inode's stream, which keeps its blocks.
fn empty<E: Edits>(site: Site, edits: &mut E, id: u64) -> Result<(), BlockFault>
    requires valid { IsValid site.sup }
    requires size { E.size edits.old ≡ site.sup.block_size }
    ensures emptied { (v : Room) (m : ℕ → Option (List ℕ)) → E.told edits.old ≡ Some m → Owns (stream_in site id) v [] m → OnOk result (HasEmptied (stream_in site id) v m (E.told edits.new) (E.changed edits.old) (E.changed edits.new)) }
    ensures sound { (m : ℕ → Option (List ℕ)) → E.told edits.old ≡ Some m → IfErr result (λ fault. ¬ IsDamage fault) }
    ensures changed { (k : ℕ) → E.changed edits.new k ≡ true → (E.changed edits.old k ≡ true) ⊎ (k ≡ id) }
    ensures stays { StaysChanged (E.changed edits.old) (E.changed edits.new) }
    ensures size { E.size edits.new ≡ E.size edits.old }
    ensures frame { E.frame edits.new ≡ E.frame edits.old }
    ensures later { AreLater (E.counts edits.old) (E.counts edits.new) }
    ensures cause { IfErr result (IsCauseIn (E.counts edits.old) (E.counts edits.new)) }
{
    let mut block = match vec![in site.alloc; 0u8; site.sup.block_size as usize] {
        Ok(block) => block,
        Err(_) => return Err(BlockFault::NoMemory),
    };
    match empty_over(site, edits, id, &mut block) {
        Ok(()) => Ok(()),
        Err(fault) => Err(fault),
    }
}

/// Gives back all blocks of a stream without bytes, its array blocks among them. The inode's own is left.
fn strip<E: Edits>(
    site: Site,
    bitmap: &mut Bitmap,
    edits: &mut E,
    id: u64,
) -> Result<(), BlockFault>
    requires valid { IsValid site.sup }
    requires inside { id < natural site.sup.num_blocks }
    requires size { E.size edits.old ≡ site.sup.block_size }
    requires volume { IsOfVolume (sizes_of site.sup) bitmap.old }
    ensures stripped { (m : ℕ → Option (List ℕ)) → E.told edits.old ≡ Some m → Owns (stream_in site id) bitmap.old [] m → (fields (sizes_of site.sup) (contents m) id).size ≡ pos 0 → OnOk result (HasStripped (stream_in site id) bitmap.old bitmap.new m (E.told edits.new) (E.changed edits.old) (E.changed edits.new)) }
    ensures sound { (m : ℕ → Option (List ℕ)) → E.told edits.old ≡ Some m → Owns (stream_in site id) bitmap.old [] m → (fields (sizes_of site.sup) (contents m) id).size ≡ pos 0 → IfErr result (λ fault. ¬ IsDamage fault) }
    ensures rest { bitmap.new ≡ record bitmap.old { given = bitmap.new.given; tally = bitmap.new.tally } }
    ensures kept { as_kept bitmap.new ≡ as_kept bitmap.old }
    ensures standing { standing bitmap.new ≡ standing bitmap.old }
    ensures stays { StaysChanged (E.changed edits.old) (E.changed edits.new) }
    ensures size { E.size edits.new ≡ E.size edits.old }
    ensures frame { E.frame edits.new ≡ E.frame edits.old }
    ensures later { AreLater (E.counts edits.old) (E.counts edits.new) }
    ensures cause { IfErr result (IsCauseIn (E.counts edits.old) (E.counts edits.new)) }
{
    let mut stream = Stream::at(site.alloc, id, &site.sup);
    trim(&mut stream, bitmap, edits, 0)
}

/// Gives one block back.
pub fn give_block<E: Edits>(
    site: Site,
    bitmap: &mut Bitmap,
    edits: &mut E,
    id: u64,
) -> Result<(), BlockFault>
    requires valid { IsValid site.sup }
    requires inside { id < natural site.sup.num_blocks }
    requires size { E.size edits.old ≡ site.sup.block_size }
    requires volume { IsOfVolume (sizes_of site.sup) bitmap.old }
    ensures gave { (m : ℕ → Option (List ℕ)) → E.told edits.old ≡ Some m → Fits bitmap.old m → OnOk result (Gave bitmap.old bitmap.new (id ∷ []) m (E.told edits.new)) }
    ensures sound { (m : ℕ → Option (List ℕ)) → E.told edits.old ≡ Some m → IfErr result (λ fault. ¬ IsDamage fault) }
    ensures rest { bitmap.new ≡ record bitmap.old { given = bitmap.new.given; tally = bitmap.new.tally } }
    ensures kept { as_kept bitmap.new ≡ as_kept bitmap.old }
    ensures standing { standing bitmap.new ≡ standing bitmap.old }
    ensures changed { (k : ℕ) → E.changed edits.new k ≡ true → (E.changed edits.old k ≡ true) ⊎ IsBitmapBlock bitmap.old k }
    ensures stays { StaysChanged (E.changed edits.old) (E.changed edits.new) }
    ensures size { E.size edits.new ≡ E.size edits.old }
    ensures frame { E.frame edits.new ≡ E.frame edits.old }
    ensures later { AreLater (E.counts edits.old) (E.counts edits.new) }
    ensures cause { IfErr result (IsCauseIn (E.counts edits.old) (E.counts edits.new)) }
{
    bitmap.give_back(edits, run_of(site, id))
}

/// Gives an inode back, with its array blocks and the blocks of its stream. After a fault the call is to be dropped.
pub fn give_inode<E: Edits>(
    site: Site,
    bitmap: &mut Bitmap,
    edits: &mut E,
    id: u64,
) -> Result<(), BlockFault>
    requires valid { IsValid site.sup }
    requires inside { id < natural site.sup.num_blocks }
    requires size { E.size edits.old ≡ site.sup.block_size }
    requires volume { IsOfVolume (sizes_of site.sup) bitmap.old }
    ensures given { (m : ℕ → Option (List ℕ)) → E.told edits.old ≡ Some m → Owns (stream_in site id) bitmap.old [] m → OnOk result (HasGivenBack (stream_in site id) bitmap.old bitmap.new m (E.told edits.new) (E.changed edits.old) (E.changed edits.new)) }
    ensures sound { (m : ℕ → Option (List ℕ)) → E.told edits.old ≡ Some m → Owns (stream_in site id) bitmap.old [] m → IfErr result (λ fault. ¬ IsDamage fault) }
    ensures rest { bitmap.new ≡ record bitmap.old { given = bitmap.new.given; tally = bitmap.new.tally } }
    ensures kept { as_kept bitmap.new ≡ as_kept bitmap.old }
    ensures standing { standing bitmap.new ≡ standing bitmap.old }
    ensures stays { StaysChanged (E.changed edits.old) (E.changed edits.new) }
    ensures size { E.size edits.new ≡ E.size edits.old }
    ensures frame { E.frame edits.new ≡ E.frame edits.old }
    ensures later { AreLater (E.counts edits.old) (E.counts edits.new) }
    ensures cause { IfErr result (IsCauseIn (E.counts edits.old) (E.counts edits.new)) }
{
    match empty(site, edits, id) {
        Ok(()) => {}
        Err(fault) => return Err(fault),
    }
    match strip(site, bitmap, edits, id) {
        Ok(()) => {}
        Err(fault) => return Err(fault),
    }
    match give_block(site, bitmap, edits, id) {
        Ok(()) => Ok(()),
        Err(fault) => Err(fault),
    }
}
