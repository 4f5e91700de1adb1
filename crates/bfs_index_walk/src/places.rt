// The index directory and indices, in their places: where an owner is looked for.
ghost use Rattle.std.specs.Prelude.{◌≡◌, ◌<◌, ◌++◌, ◌∷◌, [], ℕ, map, OnOk, IfOk, IfErr};
ghost use Rattle.std.specs.List.{AllByRecursion};
ghost use Rattle.bfs_owner.specs.Owned as owned;
ghost use Rattle.bfs_names_walk.specs.Rows.{as_rows};
ghost use Rattle.bfs_node_walk.specs.Listed.{proper, NamesBlock};
ghost use Rattle.bfs_index_walk.specs.Indices.{AreInside, place_at, places_by_rows, places_of_found};

use crate::FoundIndex;
use bfs_attrs_walk::attr_walk::push_places;
use bfs_inode_walk::VisitFault;
use bfs_names_walk::NameRow;
use bfs_node_check::Role;
use bfs_owner::Place;
use bfs_txn::BlockFault;
use std::alloc::Global;

/// Puts the index directory or an index behind other places.
fn push_place(id: u64, places: &mut Vec<Place>) -> Result<(), VisitFault>
    ensures pushed { OnOk result (places.new.items ≡ places.old.items ++ place_at id ∷ []) }
    ensures memory { IfErr result (λ f. f ≡ VisitFault.Block BlockFault.NoMemory) }
{
    match places.push(Place {
        id,
        role: Role::Index,
    }) {
        Ok(()) => Ok(()),
        Err(_) => Err(VisitFault::Block(BlockFault::NoMemory)),
    }
}

/// Puts indices that were found behind other places.
fn push_found(found: &[FoundIndex], places: &mut Vec<Place>) -> Result<(), VisitFault>
    ensures pushed { OnOk result (places.new.items ≡ places.old.items ++ map (λ i. place_at i.id) found.now) }
    ensures memory { IfErr result (λ f. f ≡ VisitFault.Block BlockFault.NoMemory) }
{
    for i in 0..found.len() {
        let index: &FoundIndex = &found[i];
        match push_place(index.id, places) {
            Ok(()) => {}
            Err(fault) => return Err(fault),
        }
    }
    Ok(())
}

/// The index directory, which is at this block, and the indices that rows of it name.
pub(crate) fn row_places(
    alloc: Global,
    directory: u64,
    rows: &[NameRow],
) -> Result<Vec<Place>, VisitFault>
    ensures places { IfOk result (λ places. places.items ≡ places_by_rows directory rows.now) }
    ensures inside { (blocks : ℕ) → directory < blocks → AllByRecursion (NamesBlock blocks) (proper (as_rows rows.now)) → IfOk result (λ places. owned.AreInside blocks places.items) }
    ensures memory { IfErr result (λ f. f ≡ VisitFault.Block BlockFault.NoMemory) }
{
    let mut places = Vec::new(alloc);
    match push_place(directory, &mut places) {
        Ok(()) => {}
        Err(fault) => return Err(fault),
    }
    match push_places(alloc, Role::Index, rows, &mut places) {
        Ok(()) => Ok(places),
        Err(fault) => Err(fault),
    }
}

/// The index directory, which is at this block, and indices that were found.
pub(crate) fn index_places(
    alloc: Global,
    directory: u64,
    found: &[FoundIndex],
) -> Result<Vec<Place>, VisitFault>
    ensures places { IfOk result (λ places. places.items ≡ places_of_found directory found.now) }
    ensures inside { (blocks : ℕ) → directory < blocks → AreInside blocks found.now → IfOk result (λ places. owned.AreInside blocks places.items) }
    ensures memory { IfErr result (λ f. f ≡ VisitFault.Block BlockFault.NoMemory) }
{
    let mut places = Vec::new(alloc);
    match push_place(directory, &mut places) {
        Ok(()) => {}
        Err(fault) => return Err(fault),
    }
    match push_found(found, &mut places) {
        Ok(()) => Ok(places),
        Err(fault) => Err(fault),
    }
}
