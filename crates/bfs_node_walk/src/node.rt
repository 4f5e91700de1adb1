// Goes over one node, but for its attributes.
ghost use Rattle.std.specs.Prelude.{◌≡◌, ◌≤◌, ◌<◌, ◌++◌, ℕ, List, length, Option, Some, OnOk, IfOk, IfErr, true};
ghost use Rattle.bfs_bytes.specs.Fields.{run_in};
ghost use Rattle.bfs_inode.specs.Refusals.{Names};
ghost use Rattle.bfs_super.specs.Conditions.{IsValid, natural, block_of_run};
ghost use Rattle.bfs_txn.specs.Faults.{AreLater, Counts};
ghost use Rattle.bfs_stream.specs.Sizes.{sizes_of};
ghost use Rattle.bfs_stream.specs.Places.{HasStream};
ghost use Rattle.bfs_stream.specs.Told.{contents};
ghost use Rattle.bfs_stream_check.specs.Known.{IsAllTold};
ghost use Rattle.bfs_tree.specs.declared.call.Kind.TheVariants.{Dir};
ghost use Rattle.bfs_sound.specs.Volumes.{Volume};
ghost use Rattle.bfs_sound.specs.Whole.{volume_of};
ghost use Rattle.bfs_finding.specs.Ways.{Arrives, to_child, says};
ghost use Rattle.bfs_finding.specs.NodeFaults.{ComesFrom};
ghost use Rattle.bfs_claims.specs.Claims.{AreClaimed};
ghost use Rattle.bfs_node_check.specs.Inodes.{IsGoodNode};
ghost use Rattle.bfs_node_check.specs.Names.{IsNodeFault};
ghost use Rattle.bfs_node_check.specs.declared.role.Role.TheVariants as roles;
ghost use Rattle.bfs_inode_walk.specs.Visited.{role_blocks, IsSoundIn, IsTrueOf, IsTaken, IsUntaken, IsVisitCause};
ghost use Rattle.bfs_node_walk.specs.Nodes.{AreRowsOf, IsNamedBy};

use crate::listing::check_listing;
use crate::names::read_names;
use bfs_bytes::u32_at;
use bfs_claims::Claims;
use bfs_inode_walk::{VisitFault, visit_inode};
use bfs_names_walk::NameRow;
use bfs_node_check::{NodeFault, Role, check_name, check_parent};
use bfs_super::Super;
use bfs_txn::{BlockFault, Blocks};
use std::alloc::Global;

/// A node that was gone over: the bytes of its inode's block, and its rows, which are none where it is no directory.
#[derive(Debug, Drop)]
pub struct VisitedNode {
    pub bytes: Vec<u8>,
    pub rows: Vec<NameRow>,
}

/// Is the inode that of a directory?
fn is_directory(bytes: &[u8]) -> bool
    requires { 1024 ≤ length bytes.now }
    ensures { (v : Volume) (b : ℕ) → v.blocks b ≡ bytes.now → result ≡ says v b Dir }
{
    u32_at(bytes, 20) / 4096 % 16 == 4
}

/// The number of a volume's blocks.
fn blocks_in(sup: Super) -> u64
    ensures { result ≡ natural sup.num_blocks }
{
    if sup.num_blocks < 0 {
        0
    } else {
        sup.num_blocks as u64
    }
}

/// A number that isn't negative, or 0.
fn natural_int(value: i32) -> u32
    ensures { result ≡ natural value }
{
    if value < 0 { 0 } else { value as u32 }
}

/// A group has 2 to this power of blocks.
#[tactic(auto, using(crate::proofs::Known::small_shift))]
fn shift_of(sup: Super) -> u32
    requires { IsValid sup }
    ensures value { result ≡ natural sup.ag_shift }
    ensures small { result ≤ 16 }
{
    natural_int(sup.ag_shift)
}

/// The rows of a directory with this parent.
fn rows_in<B: Blocks>(
    alloc: Global,
    under: &mut B,
    sup: &Super,
    id: u64,
    parent: u64,
    bytes: &[u8],
) -> Result<Vec<NameRow>, VisitFault>
    requires valid { IsValid sup.now }
    requires inside { id < natural sup.now.num_blocks }
    requires size { B.size under.old ≡ sup.now.block_size }
    requires all { (m : ℕ → Option (List ℕ)) → B.told under.old ≡ Some m → IsAllTold (sizes_of sup.now) m }
    requires long { 1024 ≤ length bytes.now }
    requires bytes { (m : ℕ → Option (List ℕ)) → B.told under.old ≡ Some m → bytes.now ≡ contents m id }
    requires dir { (m : ℕ → Option (List ℕ)) → B.told under.old ≡ Some m → says (volume_of sup.now (contents m)) id Dir ≡ true }
    requires stream { (m : ℕ → Option (List ℕ)) → B.told under.old ≡ Some m → HasStream (sizes_of sup.now) (contents m) id }
    ensures rows { (m : ℕ → Option (List ℕ)) → B.told under.old ≡ Some m → IfOk result (λ rows. AreRowsOf (volume_of sup.now (contents m)) id parent rows.items) }
    ensures wrong { (m : ℕ → Option (List ℕ)) → B.told under.old ≡ Some m → ComesFrom (volume_of sup.now (contents m)) id parent → IfErr result (IsTrueOf (volume_of sup.now (contents m))) }
    ensures untaken { IfErr result IsUntaken }
    ensures told { B.told under.new ≡ B.told under.old }
    ensures changed { B.changed under.new ≡ B.changed under.old }
    ensures pairs { B.pairs under.new ≡ B.pairs under.old }
    ensures size { B.size under.new ≡ B.size under.old }
    ensures frame { B.frame under.new ≡ B.frame under.old }
    ensures later { AreLater (B.counts under.old) (B.counts under.new) }
    ensures cause { IfErr result (IsVisitCause (B.counts under.old) (B.counts under.new)) }
{
    let rows = match read_names(alloc, under, sup, id, bytes) {
        Ok(rows) => rows,
        Err(fault) => return Err(fault),
    };
    match check_listing(&rows, id, parent, blocks_in(*sup)) {
        Ok(()) => Ok(rows),
        Err(finding) => Err(VisitFault::Wrong(finding)),
    }
}

/// The rows of a node with this parent, which are none where it is no directory.
fn rows_of<B: Blocks>(
    alloc: Global,
    under: &mut B,
    sup: &Super,
    id: u64,
    parent: u64,
    bytes: &[u8],
) -> Result<Vec<NameRow>, VisitFault>
    requires valid { IsValid sup.now }
    requires inside { id < natural sup.now.num_blocks }
    requires size { B.size under.old ≡ sup.now.block_size }
    requires all { (m : ℕ → Option (List ℕ)) → B.told under.old ≡ Some m → IsAllTold (sizes_of sup.now) m }
    requires long { 1024 ≤ length bytes.now }
    requires bytes { (m : ℕ → Option (List ℕ)) → B.told under.old ≡ Some m → bytes.now ≡ contents m id }
    requires stream { (m : ℕ → Option (List ℕ)) → B.told under.old ≡ Some m → says (volume_of sup.now (contents m)) id Dir ≡ true → HasStream (sizes_of sup.now) (contents m) id }
    ensures rows { (m : ℕ → Option (List ℕ)) → B.told under.old ≡ Some m → IfOk result (λ rows. AreRowsOf (volume_of sup.now (contents m)) id parent rows.items) }
    ensures wrong { (m : ℕ → Option (List ℕ)) → B.told under.old ≡ Some m → ComesFrom (volume_of sup.now (contents m)) id parent → IfErr result (IsTrueOf (volume_of sup.now (contents m))) }
    ensures untaken { IfErr result IsUntaken }
    ensures told { B.told under.new ≡ B.told under.old }
    ensures changed { B.changed under.new ≡ B.changed under.old }
    ensures pairs { B.pairs under.new ≡ B.pairs under.old }
    ensures size { B.size under.new ≡ B.size under.old }
    ensures frame { B.frame under.new ≡ B.frame under.old }
    ensures later { AreLater (B.counts under.old) (B.counts under.new) }
    ensures cause { IfErr result (IsVisitCause (B.counts under.old) (B.counts under.new)) }
{
    let dir = is_directory(bytes);
    if !dir {
        return Ok(Vec::new(alloc));
    }
    rows_in(alloc, under, sup, id, parent, bytes)
}

/// What is wrong with a node, as the fault of a visit.
pub fn name_fault(fault: NodeFault) -> VisitFault
    ensures wrong { (v : Volume) → IsNodeFault v fault → IsTrueOf v result }
    ensures untaken { IsUntaken result }
    ensures cause { (old new : Counts) → IsVisitCause old new result }
{
    match fault {
        NodeFault::Wrong(finding) => VisitFault::Wrong(finding),
        NodeFault::NoMemory => VisitFault::Block(BlockFault::NoMemory),
    }
}

/// Does a node say of its name and its parent what the row does that names it?
fn check_named(
    alloc: Global,
    bytes: &[u8],
    sup: Super,
    id: u64,
    parent: u64,
    row: &[u8],
) -> Result<(), VisitFault>
    requires valid { IsValid sup }
    requires long { 1024 ≤ length bytes.now }
    requires node { (v : Volume) → v.blocks id ≡ bytes.now → IsGoodNode v id }
    ensures named { (v : Volume) → v.blocks id ≡ bytes.now → v.geometry.shift ≡ natural sup.ag_shift → OnOk result (IsNamedBy v id parent row.now) }
    ensures wrong { (v : Volume) → v.blocks id ≡ bytes.now → v.geometry.shift ≡ natural sup.ag_shift → Arrives v (to_child parent row.now) id → IfErr result (IsTrueOf v) }
    ensures untaken { IfErr result IsUntaken }
    ensures cause { (old new : Counts) → IfErr result (IsVisitCause old new) }
{
    match check_name(alloc, bytes, id, row) {
        Ok(()) => {}
        Err(fault) => return Err(name_fault(fault)),
    }
    match check_parent(bytes, id, shift_of(sup), parent) {
        Ok(()) => Ok(()),
        Err(finding) => Err(VisitFault::Wrong(finding)),
    }
}

/// What a node is, once its inode was gone over.
fn finish<B: Blocks>(
    alloc: Global,
    under: &mut B,
    sup: &Super,
    id: u64,
    parent: u64,
    bytes: Vec<u8>,
) -> Result<VisitedNode, VisitFault>
    requires valid { IsValid sup.now }
    requires inside { id < natural sup.now.num_blocks }
    requires size { B.size under.old ≡ sup.now.block_size }
    requires all { (m : ℕ → Option (List ℕ)) → B.told under.old ≡ Some m → IsAllTold (sizes_of sup.now) m }
    requires long { 1024 ≤ length bytes.items }
    requires bytes { (m : ℕ → Option (List ℕ)) → B.told under.old ≡ Some m → bytes.items ≡ contents m id }
    requires stream { (m : ℕ → Option (List ℕ)) → B.told under.old ≡ Some m → says (volume_of sup.now (contents m)) id Dir ≡ true → HasStream (sizes_of sup.now) (contents m) id }
    ensures rows { (m : ℕ → Option (List ℕ)) → B.told under.old ≡ Some m → IfOk result (λ node. AreRowsOf (volume_of sup.now (contents m)) id parent node.rows.items) }
    ensures bytes { IfOk result (λ node. node.bytes.items ≡ bytes.items) }
    ensures wrong { (m : ℕ → Option (List ℕ)) → B.told under.old ≡ Some m → ComesFrom (volume_of sup.now (contents m)) id parent → IfErr result (IsTrueOf (volume_of sup.now (contents m))) }
    ensures untaken { IfErr result IsUntaken }
    ensures told { B.told under.new ≡ B.told under.old }
    ensures changed { B.changed under.new ≡ B.changed under.old }
    ensures pairs { B.pairs under.new ≡ B.pairs under.old }
    ensures size { B.size under.new ≡ B.size under.old }
    ensures frame { B.frame under.new ≡ B.frame under.old }
    ensures later { AreLater (B.counts under.old) (B.counts under.new) }
    ensures cause { IfErr result (IsVisitCause (B.counts under.old) (B.counts under.new)) }
{
    match rows_of(alloc, under, sup, id, parent, &bytes) {
        Ok(rows) => Ok(VisitedNode { bytes, rows }),
        Err(fault) => Err(fault),
    }
}

/// Goes over the root, which is at this block: its inode, stream and blocks, and its rows. Its blocks are claimed. Its attributes aren't looked at.
pub fn visit_root<B: Blocks>(
    alloc: Global,
    under: &mut B,
    sup: &Super,
    id: u64,
    claims: &mut Claims,
) -> Result<VisitedNode, VisitFault>
    requires valid { IsValid sup.now }
    requires root { id ≡ block_of_run sup.now sup.now.root_dir }
    requires inside { id < natural sup.now.num_blocks }
    requires size { B.size under.old ≡ sup.now.block_size }
    requires all { (m : ℕ → Option (List ℕ)) → B.told under.old ≡ Some m → IsAllTold (sizes_of sup.now) m }
    requires blocks { claims.old.blocks ≡ natural sup.now.num_blocks }
    ensures sound { (m : ℕ → Option (List ℕ)) → B.told under.old ≡ Some m → OnOk result (IsSoundIn (volume_of sup.now (contents m)) roles.Root id) }
    ensures rows { (m : ℕ → Option (List ℕ)) → B.told under.old ≡ Some m → IfOk result (λ node. AreRowsOf (volume_of sup.now (contents m)) id id node.rows.items) }
    ensures bytes { (m : ℕ → Option (List ℕ)) → B.told under.old ≡ Some m → IfOk result (λ node. node.bytes.items ≡ contents m id) }
    ensures claimed { (m : ℕ → Option (List ℕ)) (xs : List ℕ) → B.told under.old ≡ Some m → AreClaimed claims.old xs → OnOk result (AreClaimed claims.new (xs ++ role_blocks (volume_of sup.now (contents m)) roles.Root id)) }
    ensures wrong { (m : ℕ → Option (List ℕ)) → B.told under.old ≡ Some m → IfErr result (IsTrueOf (volume_of sup.now (contents m))) }
    ensures taken { (m : ℕ → Option (List ℕ)) (xs : List ℕ) → B.told under.old ≡ Some m → AreClaimed claims.old xs → IfErr result (IsTaken xs (role_blocks (volume_of sup.now (contents m)) roles.Root id) id) }
    ensures more { OnOk result (claims.old.count < claims.new.count) }
    ensures blocks { claims.new.blocks ≡ claims.old.blocks }
    ensures told { B.told under.new ≡ B.told under.old }
    ensures changed { B.changed under.new ≡ B.changed under.old }
    ensures pairs { B.pairs under.new ≡ B.pairs under.old }
    ensures size { B.size under.new ≡ B.size under.old }
    ensures frame { B.frame under.new ≡ B.frame under.old }
    ensures later { AreLater (B.counts under.old) (B.counts under.new) }
    ensures cause { IfErr result (IsVisitCause (B.counts under.old) (B.counts under.new)) }
{
    let bytes = match visit_inode(alloc, under, sup, id, Role::Root, claims) {
        Ok(bytes) => bytes,
        Err(fault) => return Err(fault),
    };
    match finish(alloc, under, sup, id, id, bytes) {
        Ok(node) => Ok(node),
        Err(fault) => Err(fault),
    }
}

/// Goes over a node that a row of a directory names: its inode, stream and blocks, its name and its parent, and where it is a directory
/// its rows. Its blocks are claimed. Its attributes aren't looked at.
pub fn visit_child<B: Blocks>(
    alloc: Global,
    under: &mut B,
    sup: &Super,
    id: u64,
    parent: u64,
    row: &[u8],
    claims: &mut Claims,
) -> Result<VisitedNode, VisitFault>
    requires valid { IsValid sup.now }
    requires inside { id < natural sup.now.num_blocks }
    requires size { B.size under.old ≡ sup.now.block_size }
    requires all { (m : ℕ → Option (List ℕ)) → B.told under.old ≡ Some m → IsAllTold (sizes_of sup.now) m }
    requires blocks { claims.old.blocks ≡ natural sup.now.num_blocks }
    ensures sound { (m : ℕ → Option (List ℕ)) → B.told under.old ≡ Some m → OnOk result (IsSoundIn (volume_of sup.now (contents m)) roles.Child id) }
    ensures named { (m : ℕ → Option (List ℕ)) → B.told under.old ≡ Some m → OnOk result (IsNamedBy (volume_of sup.now (contents m)) id parent row.now) }
    ensures rows { (m : ℕ → Option (List ℕ)) → B.told under.old ≡ Some m → IfOk result (λ node. AreRowsOf (volume_of sup.now (contents m)) id parent node.rows.items) }
    ensures bytes { (m : ℕ → Option (List ℕ)) → B.told under.old ≡ Some m → IfOk result (λ node. node.bytes.items ≡ contents m id) }
    ensures length { IfOk result (λ node. length node.bytes.items ≡ sup.now.block_size) }
    ensures long { IfOk result (λ node. 1024 ≤ length node.bytes.items) }
    ensures claimed { (m : ℕ → Option (List ℕ)) (xs : List ℕ) → B.told under.old ≡ Some m → AreClaimed claims.old xs → OnOk result (AreClaimed claims.new (xs ++ role_blocks (volume_of sup.now (contents m)) roles.Child id)) }
    ensures wrong { (m : ℕ → Option (List ℕ)) → B.told under.old ≡ Some m → Arrives (volume_of sup.now (contents m)) (to_child parent row.now) id → IfErr result (IsTrueOf (volume_of sup.now (contents m))) }
    ensures taken { (m : ℕ → Option (List ℕ)) (xs : List ℕ) → B.told under.old ≡ Some m → AreClaimed claims.old xs → IfErr result (IsTaken xs (role_blocks (volume_of sup.now (contents m)) roles.Child id) id) }
    ensures more { OnOk result (claims.old.count < claims.new.count) }
    ensures blocks { claims.new.blocks ≡ claims.old.blocks }
    ensures told { B.told under.new ≡ B.told under.old }
    ensures changed { B.changed under.new ≡ B.changed under.old }
    ensures pairs { B.pairs under.new ≡ B.pairs under.old }
    ensures size { B.size under.new ≡ B.size under.old }
    ensures frame { B.frame under.new ≡ B.frame under.old }
    ensures later { AreLater (B.counts under.old) (B.counts under.new) }
    ensures cause { IfErr result (IsVisitCause (B.counts under.old) (B.counts under.new)) }
{
    let bytes = match visit_inode(alloc, under, sup, id, Role::Child, claims) {
        Ok(bytes) => bytes,
        Err(fault) => return Err(fault),
    };
    match check_named(alloc, &bytes, *sup, id, parent, row) {
        Ok(()) => {}
        Err(fault) => return Err(fault),
    }
    match finish(alloc, under, sup, id, parent, bytes) {
        Ok(node) => Ok(node),
        Err(fault) => Err(fault),
    }
}
