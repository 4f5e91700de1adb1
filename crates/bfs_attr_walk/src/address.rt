// The address of a node's attribute directory.
ghost use Rattle.std.specs.Prelude.{◌≡◌, ◌≤◌, ◌<◌, ◌+◌, ◌*◌, ◌^◌, ◌≤ℤ◌, List, ℕ, length, pos, OnOk, IfOk, IfErr, IfSome};
ghost use Rattle.bfs_bytes.specs.Fields.{run_in};
ghost use Rattle.bfs_inode.specs.Refusals.{Names};
ghost use Rattle.bfs_super.specs.Conditions.{IsValid, natural, group_blocks};
ghost use Rattle.bfs_stream.specs.Sizes.{Sizes};
ghost use Rattle.bfs_sound.specs.Attributes.{is_zero, attribute_directory};
ghost use Rattle.bfs_sound.specs.Whole.{volume_of};
ghost use Rattle.bfs_finding.specs.Findings.{IsBroken};
ghost use Rattle.bfs_finding.specs.StreamFaults.{IsAddressFault};
ghost use Rattle.bfs_finding.specs.Ways.{IsReached};

use bfs_bytes::{Run, run_at};
use bfs_finding::Finding;
use bfs_stream_check::Wrong;
use bfs_super::Super;

/// The blocks of a volume, and of a whole group.
#[derive(Clone, Copy)]
struct Extent {
    blocks: u64,
    group_blocks: u64,
}

/// A number that isn't negative, or 0.
fn natural_long(value: i64) -> u64
    ensures { result ≡ natural value }
{
    if value < 0 { 0 } else { value as u64 }
}

/// A block that an address names in a volume; else the number that is wrong in the address, and the one that is wanted.
fn block_of(run: Run, extent: Extent) -> Result<u64, Wrong>
    requires blocks { extent.blocks ≤ 4194304 }
    requires few { extent.group_blocks ≤ 65536 }
    ensures one { OnOk result (run.len ≡ 1) }
    ensures group { OnOk result (pos 0 ≤ℤ run.group) }
    ensures start { OnOk result (run.start < extent.group_blocks) }
    ensures block { IfOk result (λ d. d ≡ natural run.group * extent.group_blocks + run.start) }
    ensures inside { IfOk result (λ d. d < extent.blocks) }
    ensures wrong { (s : Sizes) → s.group_blocks ≡ extent.group_blocks → s.blocks ≡ extent.blocks → IfErr result (λ w. IsAddressFault s run w.found w.wanted) }
{
    if run.len != 1 {
        return Err(Wrong {
            found: i64::from(run.len),
            wanted: 1,
        });
    }
    if run.group < 0 {
        return Err(Wrong {
            found: i64::from(run.group),
            wanted: 0,
        });
    }
    let start = u64::from(run.start);
    if start >= extent.group_blocks {
        return Err(Wrong {
            found: start as i64,
            wanted: extent.group_blocks as i64,
        });
    }
    let block = run.group as u64 * extent.group_blocks + start;
    if block >= extent.blocks {
        return Err(Wrong {
            found: block as i64,
            wanted: extent.blocks as i64,
        });
    }
    Ok(block)
}

/// Are all eight bytes of the run zero?
fn is_zero_run(run: Run) -> bool
    ensures { result ≡ is_zero run }
{
    run.group == 0 && run.start == 0 && run.len == 0
}

/// A number that isn't negative, or 0.
fn natural_int(value: i32) -> u32
    ensures { result ≡ natural value }
{
    if value < 0 { 0 } else { value as u32 }
}

/// Two to this power.
fn power(shift: u32) -> u64
    requires { shift ≤ 16 }
    ensures { result ≡ 2 ^ shift }
{
    1 << shift
}

/// The extent of the superblock's volume.
#[tactic(auto, using(crate::proofs::Addresses::few_blocks, crate::proofs::Addresses::few_in_group, crate::proofs::Addresses::small_shift))]
fn extent_of(sup: Super) -> Extent
    requires { IsValid sup }
    ensures blocks { result.blocks ≡ natural sup.num_blocks }
    ensures groups { result.group_blocks ≡ group_blocks sup }
    ensures few { natural sup.num_blocks ≤ 4194304 }
    ensures small { group_blocks sup ≤ 65536 }
{
    Extent {
        blocks: natural_long(sup.num_blocks),
        group_blocks: power(natural_int(sup.ag_shift)),
    }
}

/// The block of a node's attribute directory by the address in its inode, or none where that is the zero run; else the finding on it.
pub fn directory_of(bytes: &[u8], sup: Super, id: u64) -> Result<Option<u64>, Finding>
    requires valid { IsValid sup }
    requires long { 1024 ≤ length bytes.now }
    ensures directory { (blocks : ℕ → List ℕ) → blocks id ≡ bytes.now → IfOk result (λ found. attribute_directory (volume_of sup blocks) id ≡ found) }
    ensures address { (blocks : ℕ → List ℕ) → blocks id ≡ bytes.now → IfOk result (λ found. IfSome found (λ d. Names (run_in (blocks id) 52) d (natural sup.ag_shift))) }
    ensures inside { IfOk result (λ found. IfSome found (λ d. d < natural sup.num_blocks)) }
    ensures wrong { (blocks : ℕ → List ℕ) → blocks id ≡ bytes.now → IsReached (volume_of sup blocks) id → IfErr result (IsBroken (volume_of sup blocks)) }
{
    let run = run_at(bytes, 52);
    let none = is_zero_run(run);
    if none {
        return Ok(None);
    }
    match block_of(run, extent_of(sup)) {
        Ok(block) => Ok(Some(block)),
        Err(wrong) => Err(Finding::Stream {
            owner: id,
            found: wrong.found,
            wanted: wrong.wanted,
        }),
    }
}
