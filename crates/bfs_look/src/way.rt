// The way between the root and a node: up by what inodes say of their parents, and down by the rows of directories.
ghost use Rattle.std.specs.Prelude.{◌≡◌, ◌≢◌, ◌<◌, length, get_or, ◌++◌, ◌∷◌, [], ℕ, List, Option, Some, None, true, false, IsTrue, OnOk, IfOk, IfErr, IfSome, MatchResult};
ghost use Rattle.bfs_base.specs.declared.kind.KeyKind.TheVariants.{Text};
ghost use Rattle.bfs_super.specs.Conditions.{IsValid};
ghost use Rattle.bfs_super.specs.Geometry.{geometry_of};
ghost use Rattle.bfs_bitmap.specs.Runs.{Room};
ghost use Rattle.bfs_txn.specs.Faults.{AreLater};
ghost use Rattle.bfs_tree.specs.Trees.{Node, Tree, IsNode, is_dir};
ghost use Rattle.bfs_make.specs.NumberTrees.{IsNumberAt};
ghost use Rattle.bfs_make.specs.Refused.{IsUndone, HasReadCause};
ghost use Rattle.bfs_shift.specs.Lists.{Lists};
ghost use Rattle.bfs_look.specs.Climbs.{Climbs};
ghost use Rattle.bfs_look.specs.Ready.{IsReady, HasReady, HasNodeAt};

use crate::block::{Site, blocks_in, damaged, read_block};
use crate::claim::{Claimed, claim_in, kind_in};
use crate::rows::row_of;
use bfs_bitmap::Bitmap;
use bfs_node::TreeFault;
use bfs_stream_pages::MapFault;
use bfs_super::Super;
use bfs_tree::{Bytes, Kind};
use bfs_txn::{Blocks, Edits};

/// The block of the root directory.
pub(crate) fn root_of(sup: Super) -> u64
    requires { IsValid sup }
    ensures { result ≡ (geometry_of sup).root }
{
    sup.block_of(sup.root_dir)
}

/// The kind of a node, by its inode.
pub(crate) fn kind_at<B: Blocks>(site: Site, under: &mut B, id: u64) -> Result<Kind, MapFault>
    requires valid { IsValid site.sup }
    requires size { B.size under.old ≡ site.sup.block_size }
    ensures kind { (v : Room) (m : ℕ → Option (List ℕ)) (tree : Tree) (lists : Lists) (n : Node) → B.told under.old ≡ Some m → IsReady (geometry_of site.sup) v m tree lists → IsNode tree id n → MatchResult result (λ kind. kind ≡ n.kind) IsUndone }
    ensures told { B.told under.new ≡ B.told under.old }
    ensures changed { B.changed under.new ≡ B.changed under.old }
    ensures pairs { B.pairs under.new ≡ B.pairs under.old }
    ensures size { B.size under.new ≡ B.size under.old }
    ensures frame { B.frame under.new ≡ B.frame under.old }
    ensures later { AreLater (B.counts under.old) (B.counts under.new) }
    ensures cause { IfErr result (HasReadCause (B.counts under.old) (B.counts under.new)) }
{
    let block = match read_block(site, under, id) {
        Ok(block) => block,
        Err(fault) => return Err(fault),
    };
    match kind_in(&block) {
        Some(kind) => Ok(kind),
        None => Err(damaged(id)),
    }
}

/// Is a node a directory, by its inode?
pub(crate) fn is_dir_at<B: Blocks>(site: Site, under: &mut B, id: u64) -> Result<bool, MapFault>
    requires valid { IsValid site.sup }
    requires size { B.size under.old ≡ site.sup.block_size }
    ensures kind { (v : Room) (m : ℕ → Option (List ℕ)) (tree : Tree) (lists : Lists) (n : Node) → B.told under.old ≡ Some m → IsReady (geometry_of site.sup) v m tree lists → IsNode tree id n → MatchResult result (λ dir. dir ≡ is_dir n.kind) IsUndone }
    ensures told { B.told under.new ≡ B.told under.old }
    ensures changed { B.changed under.new ≡ B.changed under.old }
    ensures pairs { B.pairs under.new ≡ B.pairs under.old }
    ensures size { B.size under.new ≡ B.size under.old }
    ensures frame { B.frame under.new ≡ B.frame under.old }
    ensures later { AreLater (B.counts under.old) (B.counts under.new) }
    ensures cause { IfErr result (HasReadCause (B.counts under.old) (B.counts under.new)) }
{
    match kind_at(site, under, id) {
        Ok(kind) => Ok(kind.is_dir()),
        Err(fault) => Err(fault),
    }
}

/// One step up from a block that isn't the root's: adds the name that its inode says, and tells the parent's block. None where the
/// block is no node's inode.
fn step_up<B: Blocks>(
    site: Site,
    under: &mut B,
    at: u64,
    names: &mut Vec<Bytes>,
) -> Result<Option<u64>, MapFault>
    requires valid { IsValid site.sup }
    requires size { B.size under.old ≡ site.sup.block_size }
    ensures parent { (v : Room) (m : ℕ → Option (List ℕ)) (tree : Tree) (lists : Lists) (n : Node) → B.told under.old ≡ Some m → IsReady (geometry_of site.sup) v m tree lists → IsNode tree at n → at ≢ tree.root → IfOk result (λ o. o ≡ Some n.parent) }
    ensures name { (v : Room) (m : ℕ → Option (List ℕ)) (tree : Tree) (lists : Lists) (n : Node) → B.told under.old ≡ Some m → IsReady (geometry_of site.sup) v m tree lists → IsNode tree at n → at ≢ tree.root → OnOk result (names.new.items ≡ names.old.items ++ n.name ∷ []) }
    ensures undone { IfErr result IsUndone }
    ensures told { B.told under.new ≡ B.told under.old }
    ensures changed { B.changed under.new ≡ B.changed under.old }
    ensures pairs { B.pairs under.new ≡ B.pairs under.old }
    ensures size { B.size under.new ≡ B.size under.old }
    ensures frame { B.frame under.new ≡ B.frame under.old }
    ensures later { AreLater (B.counts under.old) (B.counts under.new) }
    ensures cause { IfErr result (HasReadCause (B.counts under.old) (B.counts under.new)) }
{
    if at >= blocks_in(site.sup) {
        return Ok(None);
    }
    let block = match read_block(site, under, at) {
        Ok(block) => block,
        Err(fault) => return Err(fault),
    };
    match claim_in(site, &block, at) {
        Claimed::Says(claim) => match names.push(claim.name) {
            Ok(()) => Ok(Some(claim.parent)),
            Err(_) => Err(TreeFault::NoMemory),
        },
        Claimed::Nothing => Ok(None),
        Claimed::NoMemory => Err(TreeFault::NoMemory),
    }
}

/// Goes up from a block to the root, by at most as many steps as the volume has blocks, and adds the names on the way. Is the root
/// come to? From a node it is.
pub(crate) fn way_up<B: Blocks>(
    site: Site,
    under: &mut B,
    id: u64,
    names: &mut Vec<Bytes>,
) -> Result<bool, MapFault>
    requires valid { IsValid site.sup }
    requires size { B.size under.old ≡ site.sup.block_size }
    requires empty { names.old.items ≡ [] }
    ensures up { (v : Room) (m : ℕ → Option (List ℕ)) (tree : Tree) (lists : Lists) (n : Node) → B.told under.old ≡ Some m → IsReady (geometry_of site.sup) v m tree lists → IsNode tree id n → IfOk result (λ up. IsTrue up) }
    ensures way { (v : Room) (m : ℕ → Option (List ℕ)) (tree : Tree) (lists : Lists) (n : Node) → B.told under.old ≡ Some m → IsReady (geometry_of site.sup) v m tree lists → IsNode tree id n → OnOk result (Climbs tree id names.new.items tree.root) }
    ensures undone { IfErr result IsUndone }
    ensures told { B.told under.new ≡ B.told under.old }
    ensures changed { B.changed under.new ≡ B.changed under.old }
    ensures pairs { B.pairs under.new ≡ B.pairs under.old }
    ensures size { B.size under.new ≡ B.size under.old }
    ensures frame { B.frame under.new ≡ B.frame under.old }
    ensures later { AreLater (B.counts under.old) (B.counts under.new) }
    ensures cause { IfErr result (HasReadCause (B.counts under.old) (B.counts under.new)) }
{
    let root = root_of(site.sup);
    let mut at = id;
    let mut left = blocks_in(site.sup);
    while at != root {
        if left == 0 {
            return Ok(false);
        }
        left -= 1;
        let next = match step_up(site, under, at, names) {
            Ok(next) => next,
            Err(fault) => return Err(fault),
        };
        at = match next {
            Some(parent) => parent,
            None => return Ok(false),
        };
    }
    Ok(true)
}

/// One step down from a node: the id that its row of a name has, where it is a directory and has such a row.
fn step_down<E: Edits>(
    site: Site,
    bitmap: &mut Bitmap,
    edits: &mut E,
    at: u64,
    name: &[u8],
) -> Result<Option<u64>, MapFault>
    requires valid { IsValid site.sup }
    requires size { E.size edits.old ≡ site.sup.block_size }
    requires ready { (m : ℕ → Option (List ℕ)) → E.told edits.old ≡ Some m → HasReady (geometry_of site.sup) bitmap.old m }
    requires node { (m : ℕ → Option (List ℕ)) (tree : Tree) (lists : Lists) → E.told edits.old ≡ Some m → IsReady (geometry_of site.sup) bitmap.old m tree lists → HasNodeAt tree at }
    ensures row { (m : ℕ → Option (List ℕ)) (tree : Tree) (lists : Lists) (n : Node) → E.told edits.old ≡ Some m → IsReady (geometry_of site.sup) bitmap.old m tree lists → IsNode tree at n → is_dir n.kind ≡ true → IfOk result (IsNumberAt Text (lists.rows at) name.now) }
    ensures leaf { (m : ℕ → Option (List ℕ)) (tree : Tree) (lists : Lists) (n : Node) → E.told edits.old ≡ Some m → IsReady (geometry_of site.sup) bitmap.old m tree lists → IsNode tree at n → is_dir n.kind ≡ false → IfOk result (λ o. o ≡ None) }
    ensures undone { (m : ℕ → Option (List ℕ)) (tree : Tree) (lists : Lists) → E.told edits.old ≡ Some m → IsReady (geometry_of site.sup) bitmap.old m tree lists → IfErr result IsUndone }
    ensures bitmap { bitmap.new ≡ bitmap.old }
    ensures told { E.told edits.new ≡ E.told edits.old }
    ensures changed { E.changed edits.new ≡ E.changed edits.old }
    ensures pairs { E.pairs edits.new ≡ E.pairs edits.old }
    ensures size { E.size edits.new ≡ E.size edits.old }
    ensures frame { E.frame edits.new ≡ E.frame edits.old }
    ensures later { AreLater (E.counts edits.old) (E.counts edits.new) }
    ensures cause { IfErr result (HasReadCause (E.counts edits.old) (E.counts edits.new)) }
{
    if at >= blocks_in(site.sup) {
        return Ok(None);
    }
    let dir = match is_dir_at(site, edits, at) {
        Ok(dir) => dir,
        Err(fault) => return Err(fault),
    };
    if !dir {
        return Ok(None);
    }
    match row_of(site, bitmap, edits, at, name) {
        Ok(found) => Ok(found),
        Err(fault) => Err(fault),
    }
}

/// The name at a place.
fn name_in(names: &[Bytes], at: usize) -> &[u8]
    requires { at < length names.now }
    ensures { result.now ≡ get_or names.now at [] }
{
    names[at].as_slice()
}

/// How many names there are.
fn count_of(names: &[Bytes]) -> usize
    ensures { result ≡ length names.now }
{
    names.len()
}

/// Goes down from the root by the rows of names, the last one first, and tells the id that they lead to. That is a node; and it is the
/// one from which a way up past these names begins.
pub(crate) fn way_down<E: Edits>(
    site: Site,
    bitmap: &mut Bitmap,
    edits: &mut E,
    names: &[Bytes],
) -> Result<Option<u64>, MapFault>
    requires valid { IsValid site.sup }
    requires size { E.size edits.old ≡ site.sup.block_size }
    requires ready { (m : ℕ → Option (List ℕ)) → E.told edits.old ≡ Some m → HasReady (geometry_of site.sup) bitmap.old m }
    ensures node { (m : ℕ → Option (List ℕ)) (tree : Tree) (lists : Lists) → E.told edits.old ≡ Some m → IsReady (geometry_of site.sup) bitmap.old m tree lists → IfOk result (λ o. IfSome o (HasNodeAt tree)) }
    ensures back { (m : ℕ → Option (List ℕ)) (tree : Tree) (lists : Lists) (id : ℕ) → E.told edits.old ≡ Some m → IsReady (geometry_of site.sup) bitmap.old m tree lists → Climbs tree id names.now tree.root → IfOk result (λ o. o ≡ Some id) }
    ensures undone { (m : ℕ → Option (List ℕ)) (tree : Tree) (lists : Lists) → E.told edits.old ≡ Some m → IsReady (geometry_of site.sup) bitmap.old m tree lists → IfErr result IsUndone }
    ensures bitmap { bitmap.new ≡ bitmap.old }
    ensures told { E.told edits.new ≡ E.told edits.old }
    ensures changed { E.changed edits.new ≡ E.changed edits.old }
    ensures pairs { E.pairs edits.new ≡ E.pairs edits.old }
    ensures size { E.size edits.new ≡ E.size edits.old }
    ensures frame { E.frame edits.new ≡ E.frame edits.old }
    ensures later { AreLater (E.counts edits.old) (E.counts edits.new) }
    ensures cause { IfErr result (HasReadCause (E.counts edits.old) (E.counts edits.new)) }
{
    let mut at = root_of(site.sup);
    let mut left = count_of(names);
    while left > 0 {
        left -= 1;
        let next = match step_down(site, bitmap, edits, at, name_in(names, left)) {
            Ok(next) => next,
            Err(fault) => return Err(fault),
        };
        at = match next {
            Some(id) => id,
            None => return Ok(None),
        };
    }
    Ok(Some(at))
}
