// An attribute directory and the inodes that its rows name, in their places: where an owner is looked for.
ghost use Rattle.std.specs.Prelude.{◌≡◌, ◌<◌, ◌++◌, ◌∷◌, [], ℕ, OnOk, IfOk, IfErr};
ghost use Rattle.std.specs.List.{AllByRecursion};
ghost use Rattle.bfs_owner.specs.Owned.{AreInside};
ghost use Rattle.bfs_names_walk.specs.Rows.{as_rows};
ghost use Rattle.bfs_node_walk.specs.Listed.{proper, NamesBlock};
ghost use Rattle.bfs_attr_walk.specs.Attributed.{places_of_rows, places_in};

use crate::attribute::{is_proper_name, number_of};
use bfs_inode_walk::VisitFault;
use bfs_names_walk::NameRow;
use bfs_node_check::Role;
use bfs_owner::Place;
use bfs_txn::BlockFault;
use std::alloc::Global;

/// Puts the inode that a row names behind other places, unless the row is `.` or `..`.
fn push_place(role: Role, row: &NameRow, places: &mut Vec<Place>) -> Result<(), VisitFault>
    ensures pushed { OnOk result (places.new.items ≡ places.old.items ++ places_of_rows role (row.now ∷ [])) }
    ensures memory { IfErr result (λ f. f ≡ VisitFault.Block BlockFault.NoMemory) }
{
    let named = is_proper_name(row.name.as_slice());
    if !named {
        return Ok(());
    }
    let id = number_of(row.value);
    match places.push(Place { id, role }) {
        Ok(()) => Ok(()),
        Err(_) => Err(VisitFault::Block(BlockFault::NoMemory)),
    }
}

/// Puts the inodes that rows name behind other places, `.` and `..` left out.
pub fn push_places(
    alloc: Global,
    role: Role,
    rows: &[NameRow],
    places: &mut Vec<Place>,
) -> Result<(), VisitFault>
    ensures pushed { OnOk result (places.new.items ≡ places.old.items ++ places_of_rows role rows.now) }
    ensures inside { (blocks : ℕ) → AllByRecursion (NamesBlock blocks) (proper (as_rows rows.now)) → AreInside blocks places.old.items → OnOk result (AreInside blocks places.new.items) }
    ensures memory { IfErr result (λ f. f ≡ VisitFault.Block BlockFault.NoMemory) }
{
    let _ = alloc;
    for i in 0..rows.len() {
        match push_place(role, &rows[i], places) {
            Ok(()) => {}
            Err(fault) => return Err(fault),
        }
    }
    Ok(())
}

/// An attribute directory and the inodes that rows of it name. It takes the memory of as many places.
pub(crate) fn stored_places(
    alloc: Global,
    directory: u64,
    rows: &[NameRow],
) -> Result<Vec<Place>, VisitFault>
    ensures places { IfOk result (λ all. all.items ≡ places_in directory rows.now) }
    ensures inside { (blocks : ℕ) → directory < blocks → AllByRecursion (NamesBlock blocks) (proper (as_rows rows.now)) → IfOk result (λ all. AreInside blocks all.items) }
    ensures memory { IfErr result (λ f. f ≡ VisitFault.Block BlockFault.NoMemory) }
{
    let mut places = Vec::new(alloc);
    match places.push(Place {
        id: directory,
        role: Role::AttributeDirectory,
    }) {
        Ok(()) => {}
        Err(_) => return Err(VisitFault::Block(BlockFault::NoMemory)),
    }
    match push_places(alloc, Role::Attribute, rows, &mut places) {
        Ok(()) => Ok(places),
        Err(fault) => Err(fault),
    }
}
