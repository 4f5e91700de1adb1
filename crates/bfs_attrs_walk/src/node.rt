// The attributes of one node.
ghost use Rattle.std.specs.Prelude.{◌≡◌, ◌<◌, ◌++◌, ℕ, List, Option, Some, OnOk, IfOk, IfErr, IfSome};
ghost use Rattle.std.specs.List.{flat_map};
ghost use Rattle.bfs_bytes.specs.Fields.{run_in};
ghost use Rattle.bfs_inode.specs.Refusals.{Names};
ghost use Rattle.bfs_super.specs.Conditions.{IsValid, natural};
ghost use Rattle.bfs_txn.specs.Faults.{AreLater};
ghost use Rattle.bfs_stream.specs.Sizes.{sizes_of};
ghost use Rattle.bfs_stream.specs.Told.{contents};
ghost use Rattle.bfs_stream_check.specs.Known.{IsAllTold};
ghost use Rattle.bfs_sound.specs.Attributes.{attribute_directory, attribute_inodes, HasDirectory};
ghost use Rattle.bfs_sound.specs.Inodes.{inode_blocks};
ghost use Rattle.bfs_sound.specs.Whole.{volume_of};
ghost use Rattle.bfs_finding.specs.Ways.{IsReached};
ghost use Rattle.bfs_claims.specs.Claims.{AreClaimed};
ghost use Rattle.bfs_inode_walk.specs.Visited.{IsTrueOf, IsVisitCause};
ghost use Rattle.bfs_nodes_walk.specs.Walks.{HasAttributes};
ghost use Rattle.bfs_nodes_walk.specs.Attributes.{AreRowsIn};
ghost use Rattle.bfs_attrs_walk.specs.Passes.{attribute_blocks, IsTakenIn};

use bfs_attr_walk::{directory_of, visit_stored};
use bfs_claims::Claims;
use bfs_inode_walk::{VisitFault, read_block};
use bfs_names_walk::NameRow;
use bfs_node_walk::name_fault;
use bfs_nodes_walk::check_names;
use bfs_super::Super;
use bfs_txn::Blocks;
use std::alloc::Global;

/// Goes over the attribute directory with what its rows name, where there is one. Answers its rows.
fn visit_found<B: Blocks>(
    alloc: Global,
    under: &mut B,
    sup: &Super,
    found: Option<u64>,
    claims: &mut Claims,
) -> Result<Vec<NameRow>, VisitFault>
    requires valid { IsValid sup.now }
    requires inside { IfSome found (λ d. d < natural sup.now.num_blocks) }
    requires size { B.size under.old ≡ sup.now.block_size }
    requires all { (m : ℕ → Option (List ℕ)) → B.told under.old ≡ Some m → IsAllTold (sizes_of sup.now) m }
    requires blocks { claims.old.blocks ≡ natural sup.now.num_blocks }
    ensures stands { (m : ℕ → Option (List ℕ)) (id : ℕ) → B.told under.old ≡ Some m → IfSome found (λ d. Names (run_in (contents m id) 52) d (natural sup.now.ag_shift)) → OnOk result (HasDirectory (volume_of sup.now (contents m)) id found) }
    ensures rows { (m : ℕ → Option (List ℕ)) → B.told under.old ≡ Some m → IfOk result (λ rows. AreRowsIn (volume_of sup.now (contents m)) found rows.items) }
    ensures claimed { (m : ℕ → Option (List ℕ)) (xs : List ℕ) → B.told under.old ≡ Some m → AreClaimed claims.old xs → OnOk result (AreClaimed claims.new (xs ++ flat_map (inode_blocks (volume_of sup.now (contents m))) (attribute_inodes (volume_of sup.now (contents m)) found))) }
    ensures wrong { (m : ℕ → Option (List ℕ)) (id : ℕ) → B.told under.old ≡ Some m → IsReached (volume_of sup.now (contents m)) id → attribute_directory (volume_of sup.now (contents m)) id ≡ found → IfErr result (IsTrueOf (volume_of sup.now (contents m))) }
    ensures taken { (m : ℕ → Option (List ℕ)) (xs : List ℕ) → B.told under.old ≡ Some m → AreClaimed claims.old xs → IfErr result (IsTakenIn (volume_of sup.now (contents m)) xs found) }
    ensures blocks { claims.new.blocks ≡ claims.old.blocks }
    ensures told { B.told under.new ≡ B.told under.old }
    ensures changed { B.changed under.new ≡ B.changed under.old }
    ensures pairs { B.pairs under.new ≡ B.pairs under.old }
    ensures size { B.size under.new ≡ B.size under.old }
    ensures frame { B.frame under.new ≡ B.frame under.old }
    ensures later { AreLater (B.counts under.old) (B.counts under.new) }
    ensures cause { IfErr result (IsVisitCause (B.counts under.old) (B.counts under.new)) }
{
    match found {
        None => Ok(Vec::new(alloc)),
        Some(directory) => match visit_stored(alloc, under, sup, directory, claims) {
            Ok(rows) => Ok(rows),
            Err(fault) => Err(fault),
        },
    }
}

/// Goes over the attributes of a node: the names of its items, its attribute directory with all that this names, and whether two
/// attributes have one name. The blocks of the directory and of what it names are claimed.
pub fn visit_attributes<B: Blocks>(
    alloc: Global,
    under: &mut B,
    sup: &Super,
    id: u64,
    claims: &mut Claims,
) -> Result<(), VisitFault>
    requires valid { IsValid sup.now }
    requires inside { id < natural sup.now.num_blocks }
    requires size { B.size under.old ≡ sup.now.block_size }
    requires all { (m : ℕ → Option (List ℕ)) → B.told under.old ≡ Some m → IsAllTold (sizes_of sup.now) m }
    requires blocks { claims.old.blocks ≡ natural sup.now.num_blocks }
    ensures right { (m : ℕ → Option (List ℕ)) → B.told under.old ≡ Some m → OnOk result (HasAttributes (volume_of sup.now (contents m)) id) }
    ensures claimed { (m : ℕ → Option (List ℕ)) (xs : List ℕ) → B.told under.old ≡ Some m → AreClaimed claims.old xs → OnOk result (AreClaimed claims.new (xs ++ attribute_blocks (volume_of sup.now (contents m)) id)) }
    ensures wrong { (m : ℕ → Option (List ℕ)) → B.told under.old ≡ Some m → IsReached (volume_of sup.now (contents m)) id → IfErr result (IsTrueOf (volume_of sup.now (contents m))) }
    ensures taken { (m : ℕ → Option (List ℕ)) (xs : List ℕ) → B.told under.old ≡ Some m → AreClaimed claims.old xs → IfErr result (IsTakenIn (volume_of sup.now (contents m)) xs (attribute_directory (volume_of sup.now (contents m)) id)) }
    ensures blocks { claims.new.blocks ≡ claims.old.blocks }
    ensures told { B.told under.new ≡ B.told under.old }
    ensures changed { B.changed under.new ≡ B.changed under.old }
    ensures pairs { B.pairs under.new ≡ B.pairs under.old }
    ensures size { B.size under.new ≡ B.size under.old }
    ensures frame { B.frame under.new ≡ B.frame under.old }
    ensures later { AreLater (B.counts under.old) (B.counts under.new) }
    ensures cause { IfErr result (IsVisitCause (B.counts under.old) (B.counts under.new)) }
{
    let bytes = match read_block(alloc, under, *sup, id) {
        Ok(bytes) => bytes,
        Err(fault) => return Err(VisitFault::Block(fault)),
    };
    let found = match directory_of(&bytes, *sup, id) {
        Ok(found) => found,
        Err(finding) => return Err(VisitFault::Wrong(finding)),
    };
    let rows = match visit_found(alloc, under, sup, found, claims) {
        Ok(rows) => rows,
        Err(fault) => return Err(fault),
    };
    match check_names(alloc, &bytes, id, &rows) {
        Ok(()) => Ok(()),
        Err(fault) => Err(name_fault(fault)),
    }
}
