// The block of an inode is read, and held against what its place asks for.
ghost use Rattle.std.specs.Prelude.{◌≡◌, ◌≤◌, ◌<◌, ◌/◌, ◌%◌, ℕ, List, length, Option, Some, IsTrue, ◌↔◌, OnOk, IfOk, IfErr, true};
ghost use Rattle.bfs_bytes.specs.Fields.{unsigned_at};
ghost use Rattle.bfs_inode.specs.Refusals.{IsInode};
ghost use Rattle.bfs_super.specs.Conditions.{IsValid, natural};
ghost use Rattle.bfs_txn.specs.Faults.{Counts, AreLater, IsCauseOf};
ghost use Rattle.bfs_stream.specs.Sizes.{sizes_of};
ghost use Rattle.bfs_stream.specs.Told.{contents};
ghost use Rattle.bfs_stream_check.specs.Known.{IsAllTold};
ghost use Rattle.bfs_sound.specs.Volumes.{Volume};
ghost use Rattle.bfs_sound.specs.Inodes.{mode_bits};
ghost use Rattle.bfs_sound.specs.Whole.{volume_of};
ghost use Rattle.bfs_finding.specs.Ways.{Way, Arrives, lacks_stream};
ghost use Rattle.bfs_finding.specs.Findings.{IsBroken};
ghost use Rattle.bfs_node_check.specs.Roles.{IsGoodMode, is_node, role_of};
ghost use Rattle.bfs_node_check.specs.Inodes.{IsGoodNode};
ghost use Rattle.bfs_inode_walk.specs.Visited.{is_alone, IsTrueOf, IsUntaken, IsVisitCause};

use crate::VisitFault;
use bfs_bytes::u32_at;
use bfs_finding::Finding;
use bfs_node_check::{Role, check_inode};
use bfs_super::Super;
use bfs_txn::{BlockFault, Blocks};
use std::alloc::Global;

/// A number that isn't negative, or 0.
fn natural_int(value: i32) -> u32
    ensures { result ≡ natural value }
{
    if value < 0 { 0 } else { value as u32 }
}

/// A group has 2 to this power of blocks.
#[tactic(auto, using(crate::proofs::Blocks::small_shift))]
fn shift_of(sup: Super) -> u32
    requires { IsValid sup }
    ensures value { result ≡ natural sup.ag_shift }
    ensures small { result ≤ 16 }
{
    natural_int(sup.ag_shift)
}

/// A block of a volume has at least 1,024 bytes.
#[tactic(auto, using(crate::proofs::Blocks::least_bytes))]
fn has_long_blocks(sup: Super)
    requires { IsValid sup }
    ensures { 1024 ≤ sup.block_size }
{
    let _ = sup;
}

/// The bytes of a block.
pub fn read_block<B: Blocks>(
    alloc: Global,
    under: &mut B,
    sup: Super,
    number: u64,
) -> Result<Vec<u8>, BlockFault>
    requires valid { IsValid sup }
    requires inside { number < natural sup.num_blocks }
    requires size { B.size under.old ≡ sup.block_size }
    requires all { (m : ℕ → Option (List ℕ)) → B.told under.old ≡ Some m → IsAllTold (sizes_of sup) m }
    ensures length { IfOk result (λ v. length v.items ≡ sup.block_size) }
    ensures long { 1024 ≤ sup.block_size }
    ensures read { (m : ℕ → Option (List ℕ)) → B.told under.old ≡ Some m → IfOk result (λ v. v.items ≡ contents m number) }
    ensures told { B.told under.new ≡ B.told under.old }
    ensures changed { B.changed under.new ≡ B.changed under.old }
    ensures pairs { B.pairs under.new ≡ B.pairs under.old }
    ensures size { B.size under.new ≡ B.size under.old }
    ensures frame { B.frame under.new ≡ B.frame under.old }
    ensures later { AreLater (B.counts under.old) (B.counts under.new) }
    ensures cause { IfErr result (IsCauseOf (B.counts under.old) (B.counts under.new)) }
{
    has_long_blocks(sup);
    let mut bytes = match vec![in alloc; 0u8; sup.block_size as usize] {
        Ok(bytes) => bytes,
        Err(_) => return Err(BlockFault::NoMemory),
    };
    match under.get(number, &mut bytes) {
        Ok(()) => Ok(bytes),
        Err(fault) => Err(fault),
    }
}

/// Are these bytes, as many as a block has, an inode that is right for its place?
fn check_block(bytes: &[u8], sup: Super, id: u64, role: Role) -> Result<(), Finding>
    requires valid { IsValid sup }
    requires length { length bytes.now ≡ sup.block_size }
    ensures inode { OnOk result (IsInode bytes.now id (natural sup.ag_shift)) }
    ensures mode { OnOk result (IsGoodMode role (unsigned_at 4 bytes.now 20)) }
    ensures node { is_node role ≡ true → (v : Volume) → v.blocks id ≡ bytes.now → OnOk result (IsGoodNode v id) }
    ensures wrong { (v : Volume) (way : Way) → v.blocks id ≡ bytes.now → v.geometry.shift ≡ natural sup.ag_shift → role_of way ≡ Some role → Arrives v way id → IfErr result (IsBroken v) }
{
    check_inode(bytes, id, shift_of(sup), role)
}

/// The block of an inode that is right for its place, but for its stream.
pub(crate) fn look_at_inode<B: Blocks>(
    alloc: Global,
    under: &mut B,
    sup: Super,
    id: u64,
    role: Role,
) -> Result<Vec<u8>, VisitFault>
    requires valid { IsValid sup }
    requires inside { id < natural sup.num_blocks }
    requires size { B.size under.old ≡ sup.block_size }
    requires all { (m : ℕ → Option (List ℕ)) → B.told under.old ≡ Some m → IsAllTold (sizes_of sup) m }
    ensures length { IfOk result (λ v. length v.items ≡ sup.block_size) }
    ensures long { 1024 ≤ sup.block_size }
    ensures read { (m : ℕ → Option (List ℕ)) → B.told under.old ≡ Some m → IfOk result (λ v. v.items ≡ contents m id) }
    ensures inode { (m : ℕ → Option (List ℕ)) → B.told under.old ≡ Some m → OnOk result (IsInode (contents m id) id (natural sup.ag_shift)) }
    ensures mode { (m : ℕ → Option (List ℕ)) → B.told under.old ≡ Some m → OnOk result (IsGoodMode role (mode_bits (volume_of sup (contents m)) id)) }
    ensures node { is_node role ≡ true → (m : ℕ → Option (List ℕ)) → B.told under.old ≡ Some m → OnOk result (IsGoodNode (volume_of sup (contents m)) id) }
    ensures alone { is_node role ≡ true → IfOk result (λ bytes. (v : Volume) → v.blocks id ≡ bytes.items → IsGoodNode v id) }
    ensures wrong { (m : ℕ → Option (List ℕ)) (way : Way) → B.told under.old ≡ Some m → role_of way ≡ Some role → Arrives (volume_of sup (contents m)) way id → IfErr result (IsTrueOf (volume_of sup (contents m))) }
    ensures untaken { IfErr result IsUntaken }
    ensures told { B.told under.new ≡ B.told under.old }
    ensures changed { B.changed under.new ≡ B.changed under.old }
    ensures pairs { B.pairs under.new ≡ B.pairs under.old }
    ensures size { B.size under.new ≡ B.size under.old }
    ensures frame { B.frame under.new ≡ B.frame under.old }
    ensures later { AreLater (B.counts under.old) (B.counts under.new) }
    ensures cause { IfErr result (IsVisitCause (B.counts under.old) (B.counts under.new)) }
{
    let bytes = match read_block(alloc, under, sup, id) {
        Ok(bytes) => bytes,
        Err(fault) => return Err(VisitFault::Block(fault)),
    };
    match check_block(&bytes, sup, id, role) {
        Ok(()) => Ok(bytes),
        Err(finding) => Err(VisitFault::Wrong(finding)),
    }
}

/// May an inode in this place be a short link?
fn may_be_short(role: Role) -> bool
    ensures { result ≡ is_node role }
{
    match role {
        Role::Root => true,
        Role::Child => true,
        Role::AttributeDirectory => false,
        Role::Attribute => false,
        Role::Index => false,
    }
}

/// Is the inode that of a short link?
fn is_short_link(bytes: &[u8]) -> bool
    requires { 1024 ≤ length bytes.now }
    ensures { (v : Volume) (b : ℕ) → v.blocks b ≡ bytes.now → result ≡ lacks_stream v b }
{
    u32_at(bytes, 20) / 4096 % 16 == 10 && u32_at(bytes, 24) / 64 % 2 == 0
}

/// Has the inode its own block alone?
pub(crate) fn has_no_stream(bytes: &[u8], role: Role) -> bool
    requires { 1024 ≤ length bytes.now }
    ensures { (v : Volume) (b : ℕ) → v.blocks b ≡ bytes.now → result ≡ is_alone v role b }
{
    may_be_short(role) && is_short_link(bytes)
}
