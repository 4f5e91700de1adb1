// Changes of the small data of an inode on its volume.
ghost use Rattle.std.specs.Prelude.{◌≡◌, ◌≤◌, ◌⊎◌, ℕ, true, List, Option, Some, length, drop, IfOk, IfErr, IfSome, IsSome, MatchResult};
ghost use Rattle.bfs_smalldata.specs.Items.{Item, items_of};
ghost use Rattle.bfs_super.specs.Conditions.{IsValid};
ghost use Rattle.bfs_stream.specs.Told.{contents};
ghost use Rattle.bfs_txn.specs.Faults.{AreLater};
ghost use Rattle.bfs_txn.specs.Told.{StaysChanged};
ghost use Rattle.bfs_maps.specs.Refused.{HasReadCause, IsUndone};
ghost use Rattle.std.specs.Prelude.{false};
ghost use Rattle.std.specs.Str.{bytes_eq};
ghost use Rattle.bfs_bitmap.specs.Runs.{Room};
ghost use Rattle.bfs_super.specs.Geometry.{geometry_of};
ghost use Rattle.bfs_sound.specs.Attributes.{own_name};
ghost use Rattle.bfs_attr.specs.Bearers.{bearer_of, volume_at};
ghost use Rattle.bfs_attr.specs.Laws.{HasNoRow};
ghost use Rattle.bfs_attr.specs.Changed.{attribute_blocks, Holds, HasOwnName, IsNamePut, IsPutInSmall, IsTakenFromSmall};
ghost use Rattle.bfs_attr.specs.SmallData.{HasSmall};
ghost use Rattle.bfs_attr.specs.Written.{IsPutInto, IsTakenFrom, items_left, items_put};

use crate::area::{put_small, take_small};
use crate::inode::{blocked, damaged};
use crate::small::{CSTR, OWN_NAME};
use bfs_inode::SMALL_DATA;
use bfs_make::{Site, read_block};
use bfs_node::TreeFault;
use bfs_smalldata::list_end;
use bfs_stream_pages::MapFault;
use bfs_txn::Edits;

/// Are these bytes a list of items?
fn is_list(area: &[u8]) -> bool
    ensures some { result ≡ true → IsSome (items_of area.now) }
    ensures none { IsSome (items_of area.now) → result ≡ true }
{
    match list_end(area) {
        Ok(_) => true,
        Err(_) => false,
    }
}

/// Writes an attribute into the small data of an inode, where it fits there. Did it? Nothing else is written.
fn put_into<E: Edits>(
    site: Site,
    edits: &mut E,
    inode: u64,
    kind: u32,
    name: &[u8],
    bytes: &[u8],
) -> Result<bool, MapFault>
    requires valid { IsValid site.sup }
    requires size { E.size edits.old ≡ site.sup.block_size }
    requires some { 1 ≤ length name.now }
    requires short { length name.now ≤ 255 }
    ensures put { (m : ℕ → Option (List ℕ)) → E.told edits.old ≡ Some m → IsSome (m inode) → IsSome (items_of (drop 232 (contents m inode))) → MatchResult result (IsPutInto m inode (record { kind = kind; name = name.now; bytes = bytes.now }) (E.told edits.new)) IsUndone }
    ensures changed { (k : ℕ) → E.changed edits.new k ≡ true → (E.changed edits.old k ≡ true) ⊎ (k ≡ inode) }
    ensures stays { StaysChanged (E.changed edits.old) (E.changed edits.new) }
    ensures size { E.size edits.new ≡ E.size edits.old }
    ensures frame { E.frame edits.new ≡ E.frame edits.old }
    ensures later { AreLater (E.counts edits.old) (E.counts edits.new) }
    ensures cause { IfErr result (HasReadCause (E.counts edits.old) (E.counts edits.new)) }
{
    let mut block = match read_block(site, edits, inode) {
        Ok(block) => block,
        Err(fault) => return Err(blocked(fault)),
    };
    if !is_list(&block[SMALL_DATA..]) {
        return Err(damaged(inode));
    }
    if !put_small(&mut block, kind, name, bytes) {
        return Ok(false);
    }
    match edits.set(inode, &block) {
        Ok(()) => Ok(true),
        Err(_) => Err(TreeFault::NoMemory),
    }
}

/// Takes the attribute of a name out of the small data of an inode. Was it there? Nothing else is written.
fn take_from<E: Edits>(site: Site, edits: &mut E, inode: u64, name: &[u8]) -> Result<bool, MapFault>
    requires valid { IsValid site.sup }
    requires size { E.size edits.old ≡ site.sup.block_size }
    ensures taken { (m : ℕ → Option (List ℕ)) → E.told edits.old ≡ Some m → IsSome (m inode) → IsSome (items_of (drop 232 (contents m inode))) → MatchResult result (IsTakenFrom m inode name.now (E.told edits.new)) IsUndone }
    ensures changed { (k : ℕ) → E.changed edits.new k ≡ true → (E.changed edits.old k ≡ true) ⊎ (k ≡ inode) }
    ensures stays { StaysChanged (E.changed edits.old) (E.changed edits.new) }
    ensures size { E.size edits.new ≡ E.size edits.old }
    ensures frame { E.frame edits.new ≡ E.frame edits.old }
    ensures later { AreLater (E.counts edits.old) (E.counts edits.new) }
    ensures cause { IfErr result (HasReadCause (E.counts edits.old) (E.counts edits.new)) }
{
    let mut block = match read_block(site, edits, inode) {
        Ok(block) => block,
        Err(fault) => return Err(blocked(fault)),
    };
    if !is_list(&block[SMALL_DATA..]) {
        return Err(damaged(inode));
    }
    if !take_small(&mut block, name) {
        return Ok(false);
    }
    match edits.set(inode, &block) {
        Ok(()) => Ok(true),
        Err(_) => Err(TreeFault::NoMemory),
    }
}

/// Puts an attribute of which the attribute directory has none into the small data of the inode that bears it, where it fits
/// there. Did it? Nothing else is written.
pub fn put_in_small<E: Edits>(
    site: Site,
    edits: &mut E,
    inode: u64,
    kind: u32,
    name: &[u8],
    bytes: &[u8],
) -> Result<bool, MapFault>
    requires valid { IsValid site.sup }
    requires size { E.size edits.old ≡ site.sup.block_size }
    requires some { 1 ≤ length name.now }
    requires short { length name.now ≤ 255 }
    requires other { bytes_eq name.now own_name ≡ false }
    ensures put { (v : Room) (m : ℕ → Option (List ℕ)) → E.told edits.old ≡ Some m → Holds (bearer_of inode site.sup) v m → HasNoRow (volume_at (geometry_of site.sup) m) inode name.now → MatchResult result (IsPutInSmall (bearer_of inode site.sup) v m name.now (record { code = kind; bytes = bytes.now }) (E.told edits.new) (E.changed edits.old) (E.changed edits.new)) IsUndone }
    ensures items { (v : Room) (m : ℕ → Option (List ℕ)) → E.told edits.old ≡ Some m → Holds (bearer_of inode site.sup) v m → IfOk result (λ fitted. IfSome (E.told edits.new) (λ map. items_of (drop 232 (contents map inode)) ≡ items_put (record { kind = kind; name = name.now; bytes = bytes.now }) (items_of (drop 232 (contents m inode))) fitted)) }
    ensures blocks { (v : Room) (m : ℕ → Option (List ℕ)) → E.told edits.old ≡ Some m → Holds (bearer_of inode site.sup) v m → IfOk result (λ b. IfSome (E.told edits.new) (λ map. attribute_blocks (geometry_of site.sup) map inode ≡ attribute_blocks (geometry_of site.sup) m inode)) }
    ensures changed { (k : ℕ) → E.changed edits.new k ≡ true → (E.changed edits.old k ≡ true) ⊎ (k ≡ inode) }
    ensures stays { StaysChanged (E.changed edits.old) (E.changed edits.new) }
    ensures size { E.size edits.new ≡ E.size edits.old }
    ensures frame { E.frame edits.new ≡ E.frame edits.old }
    ensures later { AreLater (E.counts edits.old) (E.counts edits.new) }
    ensures cause { IfErr result (HasReadCause (E.counts edits.old) (E.counts edits.new)) }
{
    put_into(site, edits, inode, kind, name, bytes)
}

/// Takes the attribute of a name out of the small data of the inode that bears it, where it is there. Was it? Nothing else is
/// written.
pub fn take_from_small<E: Edits>(
    site: Site,
    edits: &mut E,
    inode: u64,
    name: &[u8],
) -> Result<bool, MapFault>
    requires valid { IsValid site.sup }
    requires size { E.size edits.old ≡ site.sup.block_size }
    ensures taken { (v : Room) (m : ℕ → Option (List ℕ)) → E.told edits.old ≡ Some m → Holds (bearer_of inode site.sup) v m → MatchResult result (IsTakenFromSmall (bearer_of inode site.sup) v m name.now (E.told edits.new) (E.changed edits.old) (E.changed edits.new)) IsUndone }
    ensures items { (v : Room) (m : ℕ → Option (List ℕ)) → E.told edits.old ≡ Some m → Holds (bearer_of inode site.sup) v m → IfOk result (λ taken. IfSome (E.told edits.new) (λ map. items_of (drop 232 (contents map inode)) ≡ items_left name.now (items_of (drop 232 (contents m inode))) taken)) }
    ensures small { (v : Room) (m : ℕ → Option (List ℕ)) → E.told edits.old ≡ Some m → Holds (bearer_of inode site.sup) v m → IfOk result (λ taken. taken ≡ true → HasSmall (drop 232 (contents m inode)) name.now) }
    ensures blocks { (v : Room) (m : ℕ → Option (List ℕ)) → E.told edits.old ≡ Some m → Holds (bearer_of inode site.sup) v m → IfOk result (λ b. IfSome (E.told edits.new) (λ map. attribute_blocks (geometry_of site.sup) map inode ≡ attribute_blocks (geometry_of site.sup) m inode)) }
    ensures changed { (k : ℕ) → E.changed edits.new k ≡ true → (E.changed edits.old k ≡ true) ⊎ (k ≡ inode) }
    ensures stays { StaysChanged (E.changed edits.old) (E.changed edits.new) }
    ensures size { E.size edits.new ≡ E.size edits.old }
    ensures frame { E.frame edits.new ≡ E.frame edits.old }
    ensures later { AreLater (E.counts edits.old) (E.counts edits.new) }
    ensures cause { IfErr result (HasReadCause (E.counts edits.old) (E.counts edits.new)) }
{
    take_from(site, edits, inode, name)
}

/// Puts a node's own name into the small data of its inode, in the place of the one that is there, where it fits. Did it? Nothing else
/// is written.
pub fn put_own_name<E: Edits>(
    site: Site,
    edits: &mut E,
    inode: u64,
    name: &[u8],
) -> Result<bool, MapFault>
    requires valid { IsValid site.sup }
    requires size { E.size edits.old ≡ site.sup.block_size }
    ensures put { (v : Room) (m : ℕ → Option (List ℕ)) → E.told edits.old ≡ Some m → Holds (bearer_of inode site.sup) v m → HasOwnName (volume_at (geometry_of site.sup) m) inode → MatchResult result (IsNamePut (bearer_of inode site.sup) v m name.now (E.told edits.new) (E.changed edits.old) (E.changed edits.new)) IsUndone }
    ensures blocks { (v : Room) (m : ℕ → Option (List ℕ)) → E.told edits.old ≡ Some m → Holds (bearer_of inode site.sup) v m → IfOk result (λ b. IfSome (E.told edits.new) (λ map. attribute_blocks (geometry_of site.sup) map inode ≡ attribute_blocks (geometry_of site.sup) m inode)) }
    ensures changed { (k : ℕ) → E.changed edits.new k ≡ true → (E.changed edits.old k ≡ true) ⊎ (k ≡ inode) }
    ensures stays { StaysChanged (E.changed edits.old) (E.changed edits.new) }
    ensures size { E.size edits.new ≡ E.size edits.old }
    ensures frame { E.frame edits.new ≡ E.frame edits.old }
    ensures later { AreLater (E.counts edits.old) (E.counts edits.new) }
    ensures cause { IfErr result (HasReadCause (E.counts edits.old) (E.counts edits.new)) }
{
    put_into(site, edits, inode, CSTR, &[OWN_NAME], name)
}
