// The rows of the tree of names in the stream of an inode.
ghost use Rattle.std.specs.Prelude.{◌≡◌, ◌≤◌, ◌<◌, ◌%◌, ℕ, List, length, pos, None, Option, Some, IfOk, IfErr, IfSome};
ghost use Rattle.bfs_inode.specs.Inode.{stream_at};
ghost use Rattle.bfs_super.specs.Conditions.{IsValid, natural};
ghost use Rattle.bfs_txn.specs.Faults.{AreLater};
ghost use Rattle.bfs_stream.specs.Sizes.{sizes_of};
ghost use Rattle.bfs_stream.specs.Places.{HasStream};
ghost use Rattle.bfs_stream.specs.Told.{contents};
ghost use Rattle.bfs_stream_check.specs.Known.{IsAllTold};
ghost use Rattle.bfs_stream_pages.specs.Held.{IsReadable, stream_of, IsInodeOf};
ghost use Rattle.bfs_sound.specs.Volumes.{Volume};
ghost use Rattle.bfs_sound.specs.Inodes.{content};
ghost use Rattle.bfs_sound.specs.Whole.{volume_of};
ghost use Rattle.bfs_finding.specs.Ways.{HasNames};
ghost use Rattle.bfs_finding.specs.Findings.{IsStreamOf};
ghost use Rattle.bfs_names_walk.specs.Rows.{AreNames};
ghost use Rattle.bfs_inode_walk.specs.Visited.{IsTrueOf, IsUntaken, IsVisitCause};

use crate::fault::tree_fault;
use bfs_finding::{Finding, PagePart};
use bfs_inode::InodeView;
use bfs_inode_walk::VisitFault;
use bfs_names_walk::{NameRow, walk_rows};
use bfs_stream_pages::StreamReader;
use bfs_super::Super;
use bfs_txn::{Blocks, Steps};
use std::alloc::Global;
use std::marker::Brand;
use std::sync::ledger::{Blank, Ledger};

/// A size of whole pages.
fn whole_pages(size: i64) -> Option<u64>
    ensures is { IfSome result (λ n. (size ≡ pos n) × (n % 1024 ≡ 0)) }
    ensures none { result ≡ None → (n : ℕ) → size ≡ pos n → n % 1024 ≡ 0 → ⊥ }
{
    if size < 0 {
        return None;
    }
    let bytes = size as u64;
    if bytes % 1024 == 0 { Some(bytes) } else { None }
}

/// The size of the stream of an inode, by its block, where it is of whole pages.
pub fn size_in(block: &[u8]) -> Option<u64>
    requires { 1024 ≤ length block.now }
    ensures is { IfSome result (λ n. ((stream_at block.now).size ≡ pos n) × (n % 1024 ≡ 0)) }
    ensures none { result ≡ None → (n : ℕ) → (stream_at block.now).size ≡ pos n → n % 1024 ≡ 0 → ⊥ }
{
    whole_pages(InodeView::over(block).size())
}

/// The rows of the tree of names in the pages of a stream.
fn names_over<B: Blocks, L: Ledger>(
    alloc: Global,
    pages: &mut StreamReader<'_, B>,
    owner: u64,
    steps: &mut Steps<L>,
) -> Result<Vec<NameRow>, VisitFault>
    ensures names { (m : ℕ → Option (List ℕ)) → B.told pages.old.under.now ≡ Some m → IfOk result (λ rows. AreNames (stream_of pages.old.backing m) rows.items) }
    ensures wrong { (v : Volume) (m : ℕ → Option (List ℕ)) → B.told pages.old.under.now ≡ Some m → content v owner ≡ stream_of pages.old.backing m → HasNames v owner → IsStreamOf v owner → IfErr result (IsTrueOf v) }
    ensures untaken { IfErr result IsUntaken }
    ensures told { B.told pages.new.under.now ≡ B.told pages.old.under.now }
    ensures changed { B.changed pages.new.under.now ≡ B.changed pages.old.under.now }
    ensures pairs { B.pairs pages.new.under.now ≡ B.pairs pages.old.under.now }
    ensures backing { pages.new.backing ≡ pages.old.backing }
    ensures under_name { pages.new.under.ghost_name ≡ pages.old.under.ghost_name }
    ensures frame { B.frame pages.new.under.now ≡ B.frame pages.old.under.now }
    ensures later { AreLater (B.counts pages.old.under.now) (B.counts pages.new.under.now) }
    ensures cause { IfErr result (IsVisitCause (B.counts pages.old.under.now) (B.counts pages.new.under.now)) }
{
    match walk_rows(alloc, pages, steps) {
        Ok(rows) => Ok(rows),
        Err(fault) => Err(tree_fault(owner, fault)),
    }
}

/// The same in a stream of so many bytes.
fn names_with<B: Blocks, L: Ledger>(
    alloc: Global,
    under: &mut B,
    sup: &Super,
    id: u64,
    length: u64,
    bytes: &[u8],
    ledger: Blank,
) -> Result<Vec<NameRow>, VisitFault>
    requires name { ledger.name ≡ L.name }
    requires parts { ledger.parts ≡ L.parts }
    requires some { 0 < L.parts }
    requires valid { IsValid sup.now }
    requires inside { id < natural sup.now.num_blocks }
    requires size { B.size under.old ≡ sup.now.block_size }
    requires whole { length % 1024 ≡ 0 }
    requires bytes { IsInodeOf (record { id = id; sizes = sizes_of sup.now }) (B.told under.old) bytes.now }
    requires held { (m : ℕ → Option (List ℕ)) → B.told under.old ≡ Some m → ∥ IsReadable (record { id = id; sizes = sizes_of sup.now }) length m ∥₁ }
    ensures names { (m : ℕ → Option (List ℕ)) → B.told under.old ≡ Some m → IfOk result (λ rows. AreNames (content (volume_of sup.now (contents m)) id) rows.items) }
    ensures wrong { (m : ℕ → Option (List ℕ)) → B.told under.old ≡ Some m → HasNames (volume_of sup.now (contents m)) id → IsStreamOf (volume_of sup.now (contents m)) id → IfErr result (IsTrueOf (volume_of sup.now (contents m))) }
    ensures untaken { IfErr result IsUntaken }
    ensures told { B.told under.new ≡ B.told under.old }
    ensures changed { B.changed under.new ≡ B.changed under.old }
    ensures pairs { B.pairs under.new ≡ B.pairs under.old }
    ensures size { B.size under.new ≡ B.size under.old }
    ensures frame { B.frame under.new ≡ B.frame under.old }
    ensures later { AreLater (B.counts under.old) (B.counts under.new) }
    ensures cause { IfErr result (IsVisitCause (B.counts under.old) (B.counts under.new)) }
{
    let mut steps = Steps::<L>::begin(ledger);
    let mut pages = StreamReader::over(alloc, under, id, sup, length, Some(bytes));
    names_over(alloc, &mut pages, id, &mut steps)
}

/// The rows of the tree of names in the stream of an inode with these bytes, which was found to keep its format; or what is wrong
/// with the tree.
pub fn read_names<B: Blocks>(
    alloc: Global,
    under: &mut B,
    sup: &Super,
    id: u64,
    bytes: &[u8],
) -> Result<Vec<NameRow>, VisitFault>
    requires valid { IsValid sup.now }
    requires inside { id < natural sup.now.num_blocks }
    requires size { B.size under.old ≡ sup.now.block_size }
    requires all { (m : ℕ → Option (List ℕ)) → B.told under.old ≡ Some m → IsAllTold (sizes_of sup.now) m }
    requires long { 1024 ≤ length bytes.now }
    requires bytes { (m : ℕ → Option (List ℕ)) → B.told under.old ≡ Some m → bytes.now ≡ contents m id }
    requires stream { (m : ℕ → Option (List ℕ)) → B.told under.old ≡ Some m → HasStream (sizes_of sup.now) (contents m) id }
    ensures names { (m : ℕ → Option (List ℕ)) → B.told under.old ≡ Some m → IfOk result (λ rows. AreNames (content (volume_of sup.now (contents m)) id) rows.items) }
    ensures wrong { (m : ℕ → Option (List ℕ)) → B.told under.old ≡ Some m → HasNames (volume_of sup.now (contents m)) id → IfErr result (IsTrueOf (volume_of sup.now (contents m))) }
    ensures untaken { IfErr result IsUntaken }
    ensures told { B.told under.new ≡ B.told under.old }
    ensures changed { B.changed under.new ≡ B.changed under.old }
    ensures pairs { B.pairs under.new ≡ B.pairs under.old }
    ensures size { B.size under.new ≡ B.size under.old }
    ensures frame { B.frame under.new ≡ B.frame under.old }
    ensures later { AreLater (B.counts under.old) (B.counts under.new) }
    ensures cause { IfErr result (IsVisitCause (B.counts under.old) (B.counts under.new)) }
{
    let Some(length) = size_in(bytes) else {
        return Err(VisitFault::Wrong(Finding::TreePage {
            owner: id,
            page: 0,
            part: PagePart::Size,
        }));
    };
    names_with::<B, Brand>(alloc, under, sup, id, length, bytes, Blank::new(1))
}
