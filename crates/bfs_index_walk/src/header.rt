// The kind of keys of the tree in the stream of an index, by its header.
ghost use Rattle.std.specs.Prelude.{◌≡◌, ◌≤◌, ◌<◌, ◌%◌, ℕ, List, length, Option, Some, IfOk, IfErr};
ghost use Rattle.bfs_base.specs.Keys.{IsTreeKind};
ghost use Rattle.bfs_super.specs.Conditions.{IsValid, natural};
ghost use Rattle.bfs_node.specs.Faults.{IsHeaderRefusal};
ghost use Rattle.bfs_node.specs.Header.{code_of};
ghost use Rattle.bfs_pages.specs.Trees.{header_in};
ghost use Rattle.bfs_txn.specs.Faults.{AreLater};
ghost use Rattle.bfs_stream.specs.Sizes.{sizes_of};
ghost use Rattle.bfs_stream.specs.Places.{HasStream};
ghost use Rattle.bfs_stream.specs.Told.{contents};
ghost use Rattle.bfs_stream_check.specs.Known.{IsAllTold};
ghost use Rattle.bfs_stream_pages.specs.Held.{IsReadable, stream_of, IsInodeOf};
ghost use Rattle.bfs_sound.specs.Volumes.{Volume};
ghost use Rattle.bfs_sound.specs.Inodes.{content};
ghost use Rattle.bfs_sound.specs.Whole.{volume_of};
ghost use Rattle.bfs_finding.specs.Findings.{IsStreamOf};
ghost use Rattle.bfs_finding.specs.TreeFaults.{IsHeaderFault};
ghost use Rattle.bfs_finding.specs.Ways.{IsListed};
ghost use Rattle.bfs_inode_walk.specs.Visited.{IsTrueOf, IsUntaken, IsVisitCause};

use bfs_finding::{Finding, PagePart};
use bfs_inode_walk::VisitFault;
use bfs_node::{Header, KeyKind, PAGE, PageFault};
use bfs_node_walk::{page_fault, size_in};
use bfs_stream_pages::StreamReader;
use bfs_super::Super;
use bfs_txn::{Blocks, Pages, Steps};
use std::alloc::Global;
use std::marker::Brand;
use std::sync::ledger::{Blank, Ledger};

/// Which part of the header of an index is wrong, by why it is refused.
fn part_of(fault: PageFault) -> PagePart
    ensures { (v : Volume) (owner : ℕ) → IsListed v owner → IsHeaderRefusal (header_in (content v owner)) fault → IsHeaderFault v owner result }
{
    match fault {
        PageFault::Magic { .. } => PagePart::Magic,
        PageFault::Size { .. } => PagePart::Size,
        PageFault::Kind { .. } => PagePart::Kind,
        PageFault::Bounds { .. } => PagePart::Bounds,
        PageFault::Ends { .. } => PagePart::Ends,
    }
}

/// The kind of keys of the tree in the pages of a stream.
fn kind_over<B: Blocks, L: Ledger>(
    pages: &mut StreamReader<'_, B>,
    owner: u64,
    steps: &mut Steps<L>,
) -> Result<KeyKind, VisitFault>
    ensures kind { IfOk result IsTreeKind }
    ensures code { (m : ℕ → Option (List ℕ)) → B.told pages.old.under.now ≡ Some m → IfOk result (λ kind. (header_in (stream_of pages.old.backing m)).data_type ≡ code_of kind) }
    ensures wrong { (v : Volume) (m : ℕ → Option (List ℕ)) → B.told pages.old.under.now ≡ Some m → content v owner ≡ stream_of pages.old.backing m → IsListed v owner → IsStreamOf v owner → IfErr result (IsTrueOf v) }
    ensures untaken { IfErr result IsUntaken }
    ensures told { B.told pages.new.under.now ≡ B.told pages.old.under.now }
    ensures changed { B.changed pages.new.under.now ≡ B.changed pages.old.under.now }
    ensures pairs { B.pairs pages.new.under.now ≡ B.pairs pages.old.under.now }
    ensures backing { pages.new.backing ≡ pages.old.backing }
    ensures under_name { pages.new.under.ghost_name ≡ pages.old.under.ghost_name }
    ensures frame { B.frame pages.new.under.now ≡ B.frame pages.old.under.now }
    ensures later { AreLater (B.counts pages.old.under.now) (B.counts pages.new.under.now) }
    ensures cause { IfErr result (IsVisitCause (B.counts pages.old.under.now) (B.counts pages.new.under.now)) }
{
    let size = pages.length();
    if size == 0 {
        return Err(VisitFault::Wrong(Finding::TreePage {
            owner,
            page: 0,
            part: PagePart::Magic,
        }));
    }
    let mut page = [0u8; PAGE];
    match pages.get(0, &mut page, steps) {
        Ok(()) => {}
        Err(fault) => return Err(page_fault(owner, fault)),
    }
    match Header::of(&page) {
        Ok(header) => Ok(header.kind()),
        Err(fault) => Err(VisitFault::Wrong(Finding::TreePage {
            owner,
            page: 0,
            part: part_of(fault),
        })),
    }
}

/// The same in a stream of so many bytes.
fn kind_with<B: Blocks, L: Ledger>(
    alloc: Global,
    under: &mut B,
    sup: &Super,
    id: u64,
    length: u64,
    bytes: &[u8],
    ledger: Blank,
) -> Result<KeyKind, VisitFault>
    requires name { ledger.name ≡ L.name }
    requires parts { ledger.parts ≡ L.parts }
    requires some { 0 < L.parts }
    requires valid { IsValid sup.now }
    requires inside { id < natural sup.now.num_blocks }
    requires size { B.size under.old ≡ sup.now.block_size }
    requires whole { length % 1024 ≡ 0 }
    requires bytes { IsInodeOf (record { id = id; sizes = sizes_of sup.now }) (B.told under.old) bytes.now }
    requires held { (m : ℕ → Option (List ℕ)) → B.told under.old ≡ Some m → ∥ IsReadable (record { id = id; sizes = sizes_of sup.now }) length m ∥₁ }
    ensures kind { IfOk result IsTreeKind }
    ensures code { (m : ℕ → Option (List ℕ)) → B.told under.old ≡ Some m → IfOk result (λ kind. (header_in (content (volume_of sup.now (contents m)) id)).data_type ≡ code_of kind) }
    ensures wrong { (m : ℕ → Option (List ℕ)) → B.told under.old ≡ Some m → IsListed (volume_of sup.now (contents m)) id → IsStreamOf (volume_of sup.now (contents m)) id → IfErr result (IsTrueOf (volume_of sup.now (contents m))) }
    ensures untaken { IfErr result IsUntaken }
    ensures told { B.told under.new ≡ B.told under.old }
    ensures changed { B.changed under.new ≡ B.changed under.old }
    ensures pairs { B.pairs under.new ≡ B.pairs under.old }
    ensures size { B.size under.new ≡ B.size under.old }
    ensures frame { B.frame under.new ≡ B.frame under.old }
    ensures later { AreLater (B.counts under.old) (B.counts under.new) }
    ensures cause { IfErr result (IsVisitCause (B.counts under.old) (B.counts under.new)) }
{
    let mut steps = Steps::<L>::begin(ledger);
    let mut pages = StreamReader::over(alloc, under, id, sup, length, Some(bytes));
    kind_over(&mut pages, id, &mut steps)
}

/// The kind of keys of the tree of an index, as its header says, in the stream of its inode with these bytes, which was found to keep its
/// format; or what is wrong with the header.
pub fn find_kind<B: Blocks>(
    alloc: Global,
    under: &mut B,
    sup: &Super,
    id: u64,
    bytes: &[u8],
) -> Result<KeyKind, VisitFault>
    requires valid { IsValid sup.now }
    requires inside { id < natural sup.now.num_blocks }
    requires size { B.size under.old ≡ sup.now.block_size }
    requires all { (m : ℕ → Option (List ℕ)) → B.told under.old ≡ Some m → IsAllTold (sizes_of sup.now) m }
    requires long { 1024 ≤ length bytes.now }
    requires bytes { (m : ℕ → Option (List ℕ)) → B.told under.old ≡ Some m → bytes.now ≡ contents m id }
    requires stream { (m : ℕ → Option (List ℕ)) → B.told under.old ≡ Some m → HasStream (sizes_of sup.now) (contents m) id }
    ensures kind { IfOk result IsTreeKind }
    ensures code { (m : ℕ → Option (List ℕ)) → B.told under.old ≡ Some m → IfOk result (λ kind. (header_in (content (volume_of sup.now (contents m)) id)).data_type ≡ code_of kind) }
    ensures wrong { (m : ℕ → Option (List ℕ)) → B.told under.old ≡ Some m → IsListed (volume_of sup.now (contents m)) id → IfErr result (IsTrueOf (volume_of sup.now (contents m))) }
    ensures untaken { IfErr result IsUntaken }
    ensures told { B.told under.new ≡ B.told under.old }
    ensures changed { B.changed under.new ≡ B.changed under.old }
    ensures pairs { B.pairs under.new ≡ B.pairs under.old }
    ensures size { B.size under.new ≡ B.size under.old }
    ensures frame { B.frame under.new ≡ B.frame under.old }
    ensures later { AreLater (B.counts under.old) (B.counts under.new) }
    ensures cause { IfErr result (IsVisitCause (B.counts under.old) (B.counts under.new)) }
{
    let Some(length) = size_in(bytes) else {
        return Err(VisitFault::Wrong(Finding::TreePage {
            owner: id,
            page: 0,
            part: PagePart::Size,
        }));
    };
    kind_with::<B, Brand>(alloc, under, sup, id, length, bytes, Blank::new(1))
}
