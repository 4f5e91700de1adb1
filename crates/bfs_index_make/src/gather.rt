// The pairs that a new index lists, gathered from all nodes.
ghost use Rattle.std.specs.Prelude.{◌≡◌, ◌∷◌, ◌++◌, [], ℕ, List, Option, Some, false, OnOk, IfOk, IfErr, MatchResult, codes};
ghost use Rattle.std.specs.List.{cons_option};
ghost use Rattle.std.specs.Option.{option_map};
ghost use Rattle.bfs_base.specs.declared.kind.KeyKind.TheVariants.{Text};
ghost use Rattle.bfs_super.specs.Conditions.{IsValid};
ghost use Rattle.bfs_super.specs.Geometry.{geometry_of};
ghost use Rattle.bfs_bitmap.specs.Runs.{Room};
ghost use Rattle.bfs_txn.specs.Faults.{AreLater};
ghost use Rattle.bfs_tree.specs.Listings.{listed};
ghost use Rattle.bfs_tree.specs.Refusals.{is_built_in};
ghost use Rattle.bfs_tree.specs.Trees.{Tree, HasBuiltIn};
ghost use Rattle.bfs_maps.specs.Refused.{IsUndone, HasReadCause};
ghost use Rattle.bfs_shift.specs.Lists.{Lists};
ghost use Rattle.bfs_look.specs.Ready.{IsReady, HasReady, HasNodeAt};
ghost use Rattle.bfs_index_check.specs.Compared.{pairs_of};
ghost use Rattle.bfs_index_make.specs.Gathered.{pair_at, pairs_at, AreNodes, ids_of, numbers_of, HasNodes};
ghost use Rattle.bfs_index_make.specs.Made.{IsNewIndex};

use bfs_bitmap::Bitmap;
use bfs_index::Pair;
use bfs_index_check::sort_pairs;
use bfs_make::Site;
use bfs_maps::{TreeAt, rows_from};
use bfs_node::{KeyKind, TreeFault};
use bfs_node_key::attribute_key;
use bfs_range::{KeyBytes, Ranged};
use bfs_remove_index::query::index_at;
use bfs_stream_pages::MapFault;
use bfs_super::Super;
use bfs_tree::{BY_NAME, Bytes};
use bfs_txn::{Blocks, Edits};
use std::alloc::{AllocError, Global};

/// Puts a node's number with its key behind other pairs, if it has one.
fn put_pair(pairs: &mut Vec<Pair>, key: Option<Bytes>, id: u64) -> Result<(), AllocError>
    ensures { OnOk result (pairs_of pairs.new.items ≡ pairs_of pairs.old.items ++ cons_option (option_map (λ k. (k, id)) key) []) }
{
    let Some(key) = key else {
        return Ok(());
    };
    let key = KeyBytes::new(key.into_vec());
    match pairs.push(Pair { key, id }) {
        Ok(()) => Ok(()),
        Err(fault) => Err(fault.into()),
    }
}

/// Puts the pair of a node behind others, if the index is to list it.
fn gather_node<B: Blocks>(
    site: Site,
    under: &mut B,
    id: u64,
    name: &[u8],
    kind: KeyKind,
    pairs: &mut Vec<Pair>,
) -> Result<(), MapFault>
    requires valid { IsValid site.sup }
    requires size { B.size under.old ≡ site.sup.block_size }
    requires node { (m : ℕ → Option (List ℕ)) → B.told under.old ≡ Some m → HasNodes (geometry_of site.sup) m (id ∷ []) }
    ensures gathered { (v : Room) (m : ℕ → Option (List ℕ)) (tree : Tree) (lists : Lists) → B.told under.old ≡ Some m → IsReady (geometry_of site.sup) v m tree lists → HasNodeAt tree id → is_built_in name.now ≡ false → MatchResult result (λ u. pairs_of pairs.new.items ≡ pairs_of pairs.old.items ++ pair_at tree name.now kind id) IsUndone }
    ensures told { B.told under.new ≡ B.told under.old }
    ensures changed { B.changed under.new ≡ B.changed under.old }
    ensures size { B.size under.new ≡ B.size under.old }
    ensures frame { B.frame under.new ≡ B.frame under.old }
    ensures later { AreLater (B.counts under.old) (B.counts under.new) }
    ensures cause { IfErr result (HasReadCause (B.counts under.old) (B.counts under.new)) }
{
    let key = match attribute_key(site, under, id, name, kind) {
        Ok(key) => key,
        Err(fault) => return Err(fault),
    };
    match put_pair(pairs, key, id) {
        Ok(()) => Ok(()),
        Err(_) => Err(TreeFault::NoMemory),
    }
}

/// Puts the pairs of nodes behind others, of those that the index is to list.
fn gather_nodes<B: Blocks>(
    site: Site,
    under: &mut B,
    ids: &[u64],
    name: &[u8],
    kind: KeyKind,
    pairs: &mut Vec<Pair>,
) -> Result<(), MapFault>
    requires valid { IsValid site.sup }
    requires size { B.size under.old ≡ site.sup.block_size }
    requires nodes { (m : ℕ → Option (List ℕ)) → B.told under.old ≡ Some m → HasNodes (geometry_of site.sup) m ids.now }
    ensures gathered { (v : Room) (m : ℕ → Option (List ℕ)) (tree : Tree) (lists : Lists) → B.told under.old ≡ Some m → IsReady (geometry_of site.sup) v m tree lists → AreNodes tree ids.now → is_built_in name.now ≡ false → MatchResult result (λ u. pairs_of pairs.new.items ≡ pairs_of pairs.old.items ++ pairs_at tree name.now kind ids.now) IsUndone }
    ensures told { B.told under.new ≡ B.told under.old }
    ensures changed { B.changed under.new ≡ B.changed under.old }
    ensures size { B.size under.new ≡ B.size under.old }
    ensures frame { B.frame under.new ≡ B.frame under.old }
    ensures later { AreLater (B.counts under.old) (B.counts under.new) }
    ensures cause { IfErr result (HasReadCause (B.counts under.old) (B.counts under.new)) }
{
    for id in ids {
        match gather_node(site, under, *id, name, kind, pairs) {
            Ok(()) => {}
            Err(fault) => return Err(fault),
        }
    }
    Ok(())
}

/// The numbers that rows of a range have, one row after the other.
fn numbers_in(alloc: Global, ranged: &Ranged) -> Result<Vec<u64>, AllocError>
    ensures { IfOk result (λ ids. ids.items ≡ numbers_of ranged.now) }
{
    let mut ids = Vec::new(alloc);
    for row in ranged.as_slice() {
        ids.extend_from_slice(row.numbers.as_slice())?;
    }
    Ok(ids)
}

/// The numbers of all nodes but the root, as the index of names lists them.
fn named_nodes<E: Edits>(
    alloc: Global,
    sup: &Super,
    bitmap: &mut Bitmap,
    edits: &mut E,
) -> Result<Vec<u64>, MapFault>
    requires valid { IsValid sup.now }
    requires size { E.size edits.old ≡ sup.now.block_size }
    requires ready { (m : ℕ → Option (List ℕ)) → E.told edits.old ≡ Some m → HasReady (geometry_of sup.now) bitmap.old m }
    ensures named { (m : ℕ → Option (List ℕ)) (tree : Tree) (lists : Lists) → E.told edits.old ≡ Some m → IsReady (geometry_of sup.now) bitmap.old m tree lists → HasBuiltIn tree.indices → MatchResult result (λ ids. ids.items ≡ ids_of (listed tree (codes "name") Text)) IsUndone }
    ensures bitmap { bitmap.new ≡ bitmap.old }
    ensures told { E.told edits.new ≡ E.told edits.old }
    ensures changed { E.changed edits.new ≡ E.changed edits.old }
    ensures size { E.size edits.new ≡ E.size edits.old }
    ensures frame { E.frame edits.new ≡ E.frame edits.old }
    ensures later { AreLater (E.counts edits.old) (E.counts edits.new) }
    ensures cause { IfErr result (HasReadCause (E.counts edits.old) (E.counts edits.new)) }
{
    let found = match index_at(alloc, sup, bitmap, edits, BY_NAME) {
        Ok(found) => found,
        Err(fault) => return Err(fault),
    };
    let at = match found {
        Some(at) => at,
        None => return Ok(Vec::new(alloc)),
    };
    let tree = TreeAt {
        alloc,
        inode: at.inode,
        sup: *sup,
        kind: at.kind,
    };
    let ranged = match rows_from(tree, edits, None, None) {
        Ok(ranged) => ranged,
        Err(fault) => return Err(fault),
    };
    match numbers_in(alloc, &ranged) {
        Ok(ids) => Ok(ids),
        Err(_) => Err(TreeFault::NoMemory),
    }
}

/// The pairs that a new index of a name and kind lists, in its order, of all nodes: the root, and those that the index of names lists. Each
/// node's attributes are read for one of the index's name. It takes the memory of the pairs and of the nodes' numbers.
pub(crate) fn wanted_pairs<E: Edits>(
    alloc: Global,
    sup: &Super,
    bitmap: &mut Bitmap,
    edits: &mut E,
    name: &[u8],
    kind: KeyKind,
) -> Result<Vec<Pair>, MapFault>
    requires valid { IsValid sup.now }
    requires size { E.size edits.old ≡ sup.now.block_size }
    requires ready { (m : ℕ → Option (List ℕ)) → E.told edits.old ≡ Some m → HasReady (geometry_of sup.now) bitmap.old m }
    requires fresh { (m : ℕ → Option (List ℕ)) (tree : Tree) (lists : Lists) → E.told edits.old ≡ Some m → IsReady (geometry_of sup.now) bitmap.old m tree lists → IsNewIndex tree name.now }
    ensures wanted { (m : ℕ → Option (List ℕ)) (tree : Tree) (lists : Lists) → E.told edits.old ≡ Some m → IsReady (geometry_of sup.now) bitmap.old m tree lists → MatchResult result (λ pairs. pairs_of pairs.items ≡ listed tree name.now kind) IsUndone }
    ensures bitmap { bitmap.new ≡ bitmap.old }
    ensures told { E.told edits.new ≡ E.told edits.old }
    ensures changed { E.changed edits.new ≡ E.changed edits.old }
    ensures size { E.size edits.new ≡ E.size edits.old }
    ensures frame { E.frame edits.new ≡ E.frame edits.old }
    ensures later { AreLater (E.counts edits.old) (E.counts edits.new) }
    ensures cause { IfErr result (HasReadCause (E.counts edits.old) (E.counts edits.new)) }
{
    let ids = match named_nodes(alloc, sup, bitmap, edits) {
        Ok(ids) => ids,
        Err(fault) => return Err(fault),
    };
    let site = Site { alloc, sup: *sup };
    let mut pairs = Vec::new(alloc);
    match gather_node(
        site,
        edits,
        sup.block_of(sup.root_dir),
        name,
        kind,
        &mut pairs,
    ) {
        Ok(()) => {}
        Err(fault) => return Err(fault),
    }
    match gather_nodes(site, edits, &ids, name, kind, &mut pairs) {
        Ok(()) => {}
        Err(fault) => return Err(fault),
    }
    match sort_pairs(kind, &mut pairs) {
        Ok(()) => Ok(pairs),
        Err(_) => Err(TreeFault::NoMemory),
    }
}
