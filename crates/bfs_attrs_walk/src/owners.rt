// Which inode has a block: a second look at nodes and their attributes, where a block has two owners.
ghost use Rattle.std.specs.Prelude.{◌≡◌, ◌<◌, ◌++◌, ◌∷◌, ◌⊎◌, ℕ, List, Option, Some, IfOk, IfErr};
ghost use Rattle.std.specs.List.{AllByRecursion, flat_map};
ghost use Rattle.bfs_super.specs.Conditions.{IsValid, natural, block_of_run};
ghost use Rattle.bfs_txn.specs.Faults.{AreLater};
ghost use Rattle.bfs_stream.specs.Places.{HasStream};
ghost use Rattle.bfs_stream.specs.Sizes.{sizes_of};
ghost use Rattle.bfs_stream.specs.Told.{contents};
ghost use Rattle.bfs_stream_check.specs.Known.{IsAllTold};
ghost use Rattle.bfs_sound.specs.Attributes.{attribute_directory, HasDirectory};
ghost use Rattle.bfs_sound.specs.Inodes.{content};
ghost use Rattle.bfs_sound.specs.Owners.{node_blocks};
ghost use Rattle.bfs_sound.specs.Whole.{volume_of};
ghost use Rattle.bfs_finding.specs.Ways.{Way, IsReached, HasNames};
ghost use Rattle.bfs_claims.specs.Claims.{Claimed};
ghost use Rattle.bfs_inode_walk.specs.Visited.{IsTrueOf, IsUntaken, IsVisitCause};
ghost use Rattle.bfs_names_walk.specs.Rows.{as_rows, AreNames};
ghost use Rattle.bfs_node_walk.specs.Listed.{proper, NamesBlock};
ghost use Rattle.bfs_tour.specs.Tours.{Visit};
ghost use Rattle.bfs_nodes_walk.specs.Leads.{AreInside, as_leads, leads_of};
ghost use Rattle.bfs_nodes_walk.specs.Walks.{AreOnWays, IsNodeWay, blocks_of_visits};
ghost use Rattle.bfs_attrs_walk.specs.Passes.{attribute_blocks, blocks_of_leads, AreReached, HaveDirectories, IsWhole, IsWholeOf, IsAttributeWay, IsWayFrom, IsWayFromSome, IsWayFromAny, IsOwnerFound};

use bfs_attr_walk::{directory_of, find_stored, number_of, rows_in};
use bfs_inode_walk::{VisitFault, read_block};
use bfs_names_walk::NameRow;
use bfs_nodes_walk::{NodeLead, node_places};
use bfs_owner::find_owner;
use bfs_super::Super;
use bfs_txn::Blocks;
use std::alloc::Global;

/// The rows of the attribute directory at this block, which was found to keep its format.
fn stored_rows<B: Blocks>(
    alloc: Global,
    under: &mut B,
    sup: &Super,
    directory: u64,
) -> Result<Vec<NameRow>, VisitFault>
    requires valid { IsValid sup.now }
    requires inside { directory < natural sup.now.num_blocks }
    requires size { B.size under.old ≡ sup.now.block_size }
    requires all { (m : ℕ → Option (List ℕ)) → B.told under.old ≡ Some m → IsAllTold (sizes_of sup.now) m }
    requires stream { (m : ℕ → Option (List ℕ)) → B.told under.old ≡ Some m → HasStream (sizes_of sup.now) (contents m) directory }
    ensures names { (m : ℕ → Option (List ℕ)) → B.told under.old ≡ Some m → IfOk result (λ rows. AreNames (content (volume_of sup.now (contents m)) directory) rows.items) }
    ensures inside { IfOk result (λ rows. AllByRecursion (NamesBlock (natural sup.now.num_blocks)) (proper (as_rows rows.items))) }
    ensures wrong { (m : ℕ → Option (List ℕ)) → B.told under.old ≡ Some m → HasNames (volume_of sup.now (contents m)) directory → IfErr result (IsTrueOf (volume_of sup.now (contents m))) }
    ensures untaken { IfErr result IsUntaken }
    ensures told { B.told under.new ≡ B.told under.old }
    ensures changed { B.changed under.new ≡ B.changed under.old }
    ensures pairs { B.pairs under.new ≡ B.pairs under.old }
    ensures size { B.size under.new ≡ B.size under.old }
    ensures frame { B.frame under.new ≡ B.frame under.old }
    ensures later { AreLater (B.counts under.old) (B.counts under.new) }
    ensures cause { IfErr result (IsVisitCause (B.counts under.old) (B.counts under.new)) }
{
    let bytes = match read_block(alloc, under, *sup, directory) {
        Ok(bytes) => bytes,
        Err(fault) => return Err(VisitFault::Block(fault)),
    };
    match rows_in(alloc, under, sup, directory, &bytes) {
        Ok(rows) => Ok(rows),
        Err(fault) => Err(fault),
    }
}

/// Finds the attribute directory at this block, or the first inode that its rows name, where it has a block.
fn find_in_directory<B: Blocks>(
    alloc: Global,
    under: &mut B,
    sup: &Super,
    directory: u64,
    block: u64,
) -> Result<Option<u64>, VisitFault>
    requires valid { IsValid sup.now }
    requires inside { directory < natural sup.now.num_blocks }
    requires size { B.size under.old ≡ sup.now.block_size }
    requires all { (m : ℕ → Option (List ℕ)) → B.told under.old ≡ Some m → IsAllTold (sizes_of sup.now) m }
    requires stream { (m : ℕ → Option (List ℕ)) → B.told under.old ≡ Some m → HasStream (sizes_of sup.now) (contents m) directory }
    ensures found { (m : ℕ → Option (List ℕ)) (id : ℕ) → B.told under.old ≡ Some m → IsReached (volume_of sup.now (contents m)) id → attribute_directory (volume_of sup.now (contents m)) id ≡ Some directory → IfOk result (IsOwnerFound (IsWayFrom id) (volume_of sup.now (contents m)) (attribute_blocks (volume_of sup.now (contents m)) id) block) }
    ensures wrong { (m : ℕ → Option (List ℕ)) (id : ℕ) → B.told under.old ≡ Some m → IsReached (volume_of sup.now (contents m)) id → attribute_directory (volume_of sup.now (contents m)) id ≡ Some directory → IfErr result (IsTrueOf (volume_of sup.now (contents m))) }
    ensures untaken { IfErr result IsUntaken }
    ensures told { B.told under.new ≡ B.told under.old }
    ensures changed { B.changed under.new ≡ B.changed under.old }
    ensures pairs { B.pairs under.new ≡ B.pairs under.old }
    ensures size { B.size under.new ≡ B.size under.old }
    ensures frame { B.frame under.new ≡ B.frame under.old }
    ensures later { AreLater (B.counts under.old) (B.counts under.new) }
    ensures cause { IfErr result (IsVisitCause (B.counts under.old) (B.counts under.new)) }
{
    let rows = match stored_rows(alloc, under, sup, directory) {
        Ok(rows) => rows,
        Err(fault) => return Err(fault),
    };
    match find_stored(alloc, under, sup, directory, &rows, block) {
        Ok(Some(place)) => Ok(Some(place.id)),
        Ok(None) => Ok(None),
        Err(fault) => Err(fault),
    }
}

/// Finds the attribute directory of a node, or the first inode that its rows name, where it has a block. The node was found to keep its format.
pub fn find_attribute<B: Blocks>(
    alloc: Global,
    under: &mut B,
    sup: &Super,
    id: u64,
    block: u64,
) -> Result<Option<u64>, VisitFault>
    requires valid { IsValid sup.now }
    requires inside { id < natural sup.now.num_blocks }
    requires size { B.size under.old ≡ sup.now.block_size }
    requires all { (m : ℕ → Option (List ℕ)) → B.told under.old ≡ Some m → IsAllTold (sizes_of sup.now) m }
    requires have { (m : ℕ → Option (List ℕ)) → B.told under.old ≡ Some m → HasDirectory (volume_of sup.now (contents m)) id (attribute_directory (volume_of sup.now (contents m)) id) }
    ensures found { (m : ℕ → Option (List ℕ)) → B.told under.old ≡ Some m → IsReached (volume_of sup.now (contents m)) id → IfOk result (IsOwnerFound (IsWayFrom id) (volume_of sup.now (contents m)) (attribute_blocks (volume_of sup.now (contents m)) id) block) }
    ensures wrong { (m : ℕ → Option (List ℕ)) → B.told under.old ≡ Some m → IsReached (volume_of sup.now (contents m)) id → IfErr result (IsTrueOf (volume_of sup.now (contents m))) }
    ensures untaken { IfErr result IsUntaken }
    ensures told { B.told under.new ≡ B.told under.old }
    ensures changed { B.changed under.new ≡ B.changed under.old }
    ensures pairs { B.pairs under.new ≡ B.pairs under.old }
    ensures size { B.size under.new ≡ B.size under.old }
    ensures frame { B.frame under.new ≡ B.frame under.old }
    ensures later { AreLater (B.counts under.old) (B.counts under.new) }
    ensures cause { IfErr result (IsVisitCause (B.counts under.old) (B.counts under.new)) }
{
    let bytes = match read_block(alloc, under, *sup, id) {
        Ok(bytes) => bytes,
        Err(fault) => return Err(VisitFault::Block(fault)),
    };
    let found = match directory_of(&bytes, *sup, id) {
        Ok(found) => found,
        Err(finding) => return Err(VisitFault::Wrong(finding)),
    };
    match found {
        None => Ok(None),
        Some(directory) => find_in_directory(alloc, under, sup, directory, block),
    }
}

/// Finds the first inode among the attributes of the nodes that rows name which has a block.
fn find_among<B: Blocks>(
    alloc: Global,
    under: &mut B,
    sup: &Super,
    leads: &[NodeLead],
    block: u64,
) -> Result<Option<u64>, VisitFault>
    requires valid { IsValid sup.now }
    requires inside { AreInside (natural sup.now.num_blocks) leads.now }
    requires size { B.size under.old ≡ sup.now.block_size }
    requires all { (m : ℕ → Option (List ℕ)) → B.told under.old ≡ Some m → IsAllTold (sizes_of sup.now) m }
    requires have { (m : ℕ → Option (List ℕ)) → B.told under.old ≡ Some m → HaveDirectories (volume_of sup.now (contents m)) leads.now }
    ensures found { (m : ℕ → Option (List ℕ)) → B.told under.old ≡ Some m → AreReached (volume_of sup.now (contents m)) leads.now → IfOk result (IsOwnerFound (IsWayFromSome leads.now) (volume_of sup.now (contents m)) (blocks_of_leads (volume_of sup.now (contents m)) leads.now) block) }
    ensures wrong { (m : ℕ → Option (List ℕ)) → B.told under.old ≡ Some m → AreReached (volume_of sup.now (contents m)) leads.now → IfErr result (IsTrueOf (volume_of sup.now (contents m))) }
    ensures untaken { IfErr result IsUntaken }
    ensures told { B.told under.new ≡ B.told under.old }
    ensures changed { B.changed under.new ≡ B.changed under.old }
    ensures pairs { B.pairs under.new ≡ B.pairs under.old }
    ensures size { B.size under.new ≡ B.size under.old }
    ensures frame { B.frame under.new ≡ B.frame under.old }
    ensures later { AreLater (B.counts under.old) (B.counts under.new) }
    ensures cause { IfErr result (IsVisitCause (B.counts under.old) (B.counts under.new)) }
{
    for i in 0..leads.len() {
        let id = number_of(leads[i].row.value);
        match find_attribute(alloc, under, sup, id, block) {
            Ok(None) => {}
            Ok(Some(owner)) => return Ok(Some(owner)),
            Err(fault) => return Err(fault),
        }
    }
    Ok(None)
}

/// Finds the first inode among the attributes of the root, and of the nodes that rows name, which has a block.
pub fn find_before<B: Blocks>(
    alloc: Global,
    under: &mut B,
    sup: &Super,
    root: u64,
    leads: &[NodeLead],
    block: u64,
) -> Result<Option<u64>, VisitFault>
    requires valid { IsValid sup.now }
    requires root { root ≡ block_of_run sup.now sup.now.root_dir }
    requires root_inside { root < natural sup.now.num_blocks }
    requires inside { AreInside (natural sup.now.num_blocks) leads.now }
    requires size { B.size under.old ≡ sup.now.block_size }
    requires all { (m : ℕ → Option (List ℕ)) → B.told under.old ≡ Some m → IsAllTold (sizes_of sup.now) m }
    requires have { (m : ℕ → Option (List ℕ)) → B.told under.old ≡ Some m → HasDirectory (volume_of sup.now (contents m)) root (attribute_directory (volume_of sup.now (contents m)) root) }
    requires those { (m : ℕ → Option (List ℕ)) → B.told under.old ≡ Some m → HaveDirectories (volume_of sup.now (contents m)) leads.now }
    ensures found { (m : ℕ → Option (List ℕ)) → B.told under.old ≡ Some m → AreReached (volume_of sup.now (contents m)) leads.now → IfOk result (IsOwnerFound (IsWayFromAny root leads.now) (volume_of sup.now (contents m)) (attribute_blocks (volume_of sup.now (contents m)) root ++ blocks_of_leads (volume_of sup.now (contents m)) leads.now) block) }
    ensures wrong { (m : ℕ → Option (List ℕ)) → B.told under.old ≡ Some m → AreReached (volume_of sup.now (contents m)) leads.now → IfErr result (IsTrueOf (volume_of sup.now (contents m))) }
    ensures untaken { IfErr result IsUntaken }
    ensures told { B.told under.new ≡ B.told under.old }
    ensures changed { B.changed under.new ≡ B.changed under.old }
    ensures pairs { B.pairs under.new ≡ B.pairs under.old }
    ensures size { B.size under.new ≡ B.size under.old }
    ensures frame { B.frame under.new ≡ B.frame under.old }
    ensures later { AreLater (B.counts under.old) (B.counts under.new) }
    ensures cause { IfErr result (IsVisitCause (B.counts under.old) (B.counts under.new)) }
{
    match find_attribute(alloc, under, sup, root, block) {
        Ok(None) => {}
        Ok(Some(owner)) => return Ok(Some(owner)),
        Err(fault) => return Err(fault),
    }
    match find_among(alloc, under, sup, leads, block) {
        Ok(found) => Ok(found),
        Err(fault) => Err(fault),
    }
}

/// Finds the first of the root and the nodes that rows name which has a block.
pub fn find_node<B: Blocks>(
    alloc: Global,
    under: &mut B,
    sup: &Super,
    root: u64,
    leads: &[NodeLead],
    block: u64,
) -> Result<Option<u64>, VisitFault>
    requires valid { IsValid sup.now }
    requires root { root ≡ block_of_run sup.now sup.now.root_dir }
    requires root_inside { root < natural sup.now.num_blocks }
    requires inside { AreInside (natural sup.now.num_blocks) leads.now }
    requires size { B.size under.old ≡ sup.now.block_size }
    requires all { (m : ℕ → Option (List ℕ)) → B.told under.old ≡ Some m → IsAllTold (sizes_of sup.now) m }
    ensures found { (m : ℕ → Option (List ℕ)) (top : Visit) (visits : List Visit) → B.told under.old ≡ Some m → AreOnWays (volume_of sup.now (contents m)) top visits → leads_of visits ≡ as_leads leads.now → IfOk result (IsOwnerFound IsNodeWay (volume_of sup.now (contents m)) (blocks_of_visits (volume_of sup.now (contents m)) (top ∷ visits)) block) }
    ensures wrong { (m : ℕ → Option (List ℕ)) (top : Visit) (visits : List Visit) → B.told under.old ≡ Some m → AreOnWays (volume_of sup.now (contents m)) top visits → leads_of visits ≡ as_leads leads.now → IfErr result (IsTrueOf (volume_of sup.now (contents m))) }
    ensures untaken { IfErr result IsUntaken }
    ensures told { B.told under.new ≡ B.told under.old }
    ensures changed { B.changed under.new ≡ B.changed under.old }
    ensures pairs { B.pairs under.new ≡ B.pairs under.old }
    ensures size { B.size under.new ≡ B.size under.old }
    ensures frame { B.frame under.new ≡ B.frame under.old }
    ensures later { AreLater (B.counts under.old) (B.counts under.new) }
    ensures cause { IfErr result (IsVisitCause (B.counts under.old) (B.counts under.new)) }
{
    let places = match node_places(alloc, root, leads) {
        Ok(places) => places,
        Err(fault) => return Err(fault),
    };
    match find_owner(alloc, under, sup, &places, block) {
        Ok(Some(place)) => Ok(Some(place.id)),
        Ok(None) => Ok(None),
        Err(fault) => Err(fault),
    }
}

/// Finds the first inode that has a block: of the root and the nodes that rows name, and then of the attributes of the root and of those
/// nodes that are named by other rows, whose attributes were gone over.
pub(crate) fn find_first<B: Blocks>(
    alloc: Global,
    under: &mut B,
    sup: &Super,
    root: u64,
    leads: &[NodeLead],
    before: &[NodeLead],
    block: u64,
) -> Result<Option<u64>, VisitFault>
    requires valid { IsValid sup.now }
    requires root { root ≡ block_of_run sup.now sup.now.root_dir }
    requires root_inside { root < natural sup.now.num_blocks }
    requires inside { AreInside (natural sup.now.num_blocks) leads.now }
    requires before { AreInside (natural sup.now.num_blocks) before.now }
    requires size { B.size under.old ≡ sup.now.block_size }
    requires all { (m : ℕ → Option (List ℕ)) → B.told under.old ≡ Some m → IsAllTold (sizes_of sup.now) m }
    requires have { (m : ℕ → Option (List ℕ)) → B.told under.old ≡ Some m → HasDirectory (volume_of sup.now (contents m)) root (attribute_directory (volume_of sup.now (contents m)) root) }
    requires those { (m : ℕ → Option (List ℕ)) → B.told under.old ≡ Some m → HaveDirectories (volume_of sup.now (contents m)) before.now }
    ensures found { (m : ℕ → Option (List ℕ)) (top : Visit) (visits : List Visit) → B.told under.old ≡ Some m → AreOnWays (volume_of sup.now (contents m)) top visits → leads_of visits ≡ as_leads leads.now → AreReached (volume_of sup.now (contents m)) before.now → IfOk result (IsOwnerFound (λ (way : Way). IsNodeWay way ⊎ IsWayFromAny root before.now way) (volume_of sup.now (contents m)) (blocks_of_visits (volume_of sup.now (contents m)) (top ∷ visits) ++ (attribute_blocks (volume_of sup.now (contents m)) root ++ blocks_of_leads (volume_of sup.now (contents m)) before.now)) block) }
    ensures wrong { (m : ℕ → Option (List ℕ)) (top : Visit) (visits : List Visit) → B.told under.old ≡ Some m → AreOnWays (volume_of sup.now (contents m)) top visits → leads_of visits ≡ as_leads leads.now → AreReached (volume_of sup.now (contents m)) before.now → IfErr result (IsTrueOf (volume_of sup.now (contents m))) }
    ensures untaken { IfErr result IsUntaken }
    ensures told { B.told under.new ≡ B.told under.old }
    ensures changed { B.changed under.new ≡ B.changed under.old }
    ensures pairs { B.pairs under.new ≡ B.pairs under.old }
    ensures size { B.size under.new ≡ B.size under.old }
    ensures frame { B.frame under.new ≡ B.frame under.old }
    ensures later { AreLater (B.counts under.old) (B.counts under.new) }
    ensures cause { IfErr result (IsVisitCause (B.counts under.old) (B.counts under.new)) }
{
    match find_node(alloc, under, sup, root, leads, block) {
        Ok(None) => {}
        Ok(Some(owner)) => return Ok(Some(owner)),
        Err(fault) => return Err(fault),
    }
    match find_before(alloc, under, sup, root, before, block) {
        Ok(found) => Ok(found),
        Err(fault) => Err(fault),
    }
}

/// Finds the first inode that has a block among all nodes that were gone over with their attributes: first the nodes, then the attributes
/// of each.
pub fn find_owner_in<B: Blocks>(
    alloc: Global,
    under: &mut B,
    sup: &Super,
    root: u64,
    leads: &[NodeLead],
    block: u64,
) -> Result<Option<u64>, VisitFault>
    requires valid { IsValid sup.now }
    requires root { root ≡ block_of_run sup.now sup.now.root_dir }
    requires root_inside { root < natural sup.now.num_blocks }
    requires inside { AreInside (natural sup.now.num_blocks) leads.now }
    requires size { B.size under.old ≡ sup.now.block_size }
    requires all { (m : ℕ → Option (List ℕ)) → B.told under.old ≡ Some m → IsAllTold (sizes_of sup.now) m }
    requires whole { (m : ℕ → Option (List ℕ)) → B.told under.old ≡ Some m → IsWholeOf (volume_of sup.now (contents m)) leads.now }
    ensures found { (m : ℕ → Option (List ℕ)) (xs : List ℕ) (claims : Claimed) (w : IsWhole (volume_of sup.now (contents m)) xs claims leads.now) → B.told under.old ≡ Some m → IfOk result (IsOwnerFound (λ (way : Way). IsNodeWay way ⊎ IsAttributeWay way) (volume_of sup.now (contents m)) (flat_map (node_blocks (volume_of sup.now (contents m))) (w.top ∷ w.visits)) block) }
    ensures wrong { (m : ℕ → Option (List ℕ)) → B.told under.old ≡ Some m → IfErr result (IsTrueOf (volume_of sup.now (contents m))) }
    ensures untaken { IfErr result IsUntaken }
    ensures told { B.told under.new ≡ B.told under.old }
    ensures changed { B.changed under.new ≡ B.changed under.old }
    ensures pairs { B.pairs under.new ≡ B.pairs under.old }
    ensures size { B.size under.new ≡ B.size under.old }
    ensures frame { B.frame under.new ≡ B.frame under.old }
    ensures later { AreLater (B.counts under.old) (B.counts under.new) }
    ensures cause { IfErr result (IsVisitCause (B.counts under.old) (B.counts under.new)) }
{
    match find_first(alloc, under, sup, root, leads, leads, block) {
        Ok(found) => Ok(found),
        Err(fault) => Err(fault),
    }
}
