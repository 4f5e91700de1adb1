// The nodes that rows name, in their places: where an owner is looked for.
ghost use Rattle.std.specs.Prelude.{◌≡◌, ◌<◌, ◌++◌, ◌∷◌, [], ℕ, List, map, OnOk, IfOk, IfErr};
ghost use Rattle.bfs_owner.specs.Owned as owned;
ghost use Rattle.bfs_nodes_walk.specs.Leads.{AreInside, place_of, places_of_nodes};

use crate::NodeLead;
use bfs_attr_walk::number_of;
use bfs_inode_walk::VisitFault;
use bfs_node_check::Role;
use bfs_owner::Place;
use bfs_txn::BlockFault;
use std::alloc::Global;

/// Puts a place behind others.
fn push_place(id: u64, role: Role, places: &mut Vec<Place>) -> Result<(), VisitFault>
    ensures pushed { OnOk result (places.new.items ≡ places.old.items ++ (record { id = id; role = role }) ∷ []) }
    ensures memory { IfErr result (λ f. f ≡ VisitFault.Block BlockFault.NoMemory) }
{
    match places.push(Place { id, role }) {
        Ok(()) => Ok(()),
        Err(_) => Err(VisitFault::Block(BlockFault::NoMemory)),
    }
}

/// Puts the node that a row names behind other places.
fn push_node(lead: &NodeLead, places: &mut Vec<Place>) -> Result<(), VisitFault>
    ensures pushed { OnOk result (places.new.items ≡ places.old.items ++ place_of lead.now ∷ []) }
    ensures memory { IfErr result (λ f. f ≡ VisitFault.Block BlockFault.NoMemory) }
{
    let id = number_of(lead.row.value);
    match push_place(id, Role::Child, places) {
        Ok(()) => Ok(()),
        Err(fault) => Err(fault),
    }
}

/// Puts the nodes that rows name behind other places.
fn push_nodes(leads: &[NodeLead], places: &mut Vec<Place>) -> Result<(), VisitFault>
    ensures pushed { OnOk result (places.new.items ≡ places.old.items ++ map place_of leads.now) }
    ensures memory { IfErr result (λ f. f ≡ VisitFault.Block BlockFault.NoMemory) }
{
    for i in 0..leads.len() {
        match push_node(&leads[i], places) {
            Ok(()) => {}
            Err(fault) => return Err(fault),
        }
    }
    Ok(())
}

/// The root, which is at this block, and the nodes that rows name, each in its place. It takes the memory of as many places.
pub fn node_places(alloc: Global, root: u64, leads: &[NodeLead]) -> Result<Vec<Place>, VisitFault>
    ensures places { IfOk result (λ all. all.items ≡ places_of_nodes root leads.now) }
    ensures inside { (blocks : ℕ) → root < blocks → AreInside blocks leads.now → IfOk result (λ all. owned.AreInside blocks all.items) }
    ensures memory { IfErr result (λ f. f ≡ VisitFault.Block BlockFault.NoMemory) }
{
    let mut places = Vec::new(alloc);
    match push_place(root, Role::Root, &mut places) {
        Ok(()) => {}
        Err(fault) => return Err(fault),
    }
    match push_nodes(leads, &mut places) {
        Ok(()) => Ok(places),
        Err(fault) => Err(fault),
    }
}
