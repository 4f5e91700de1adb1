// The keys of the tree in the stream of an inode, with their numbers.
ghost use Rattle.std.specs.Prelude.{◌≡◌, ◌≤◌, ◌<◌, ◌%◌, ℕ, List, length, Option, Some, OnOk, IfOk, IfErr};
ghost use Rattle.bfs_base.specs.Keys.{IsTreeKind};
ghost use Rattle.bfs_super.specs.Conditions.{IsValid, natural};
ghost use Rattle.bfs_txn.specs.Faults.{AreLater};
ghost use Rattle.bfs_stream.specs.Sizes.{sizes_of};
ghost use Rattle.bfs_stream.specs.Places.{HasStream};
ghost use Rattle.bfs_stream.specs.Told.{contents};
ghost use Rattle.bfs_stream_check.specs.Known.{IsAllTold};
ghost use Rattle.bfs_stream_pages.specs.Held.{IsReadable, stream_of, IsInodeOf};
ghost use Rattle.bfs_values.specs.Reached.{AreWritten};
ghost use Rattle.bfs_values.specs.Rows.{rows_in};
ghost use Rattle.bfs_sound.specs.Volumes.{Volume};
ghost use Rattle.bfs_sound.specs.Inodes.{content};
ghost use Rattle.bfs_sound.specs.Whole.{volume_of};
ghost use Rattle.bfs_finding.specs.Findings.{IsStreamOf};
ghost use Rattle.bfs_finding.specs.TreeFaults.{HasTree};
ghost use Rattle.bfs_value_walk.specs.Taken.{IsWholeTaken, IsWholeWith};
ghost use Rattle.bfs_value_walk.specs.Written.{pairs_by};
ghost use Rattle.bfs_inode_walk.specs.Visited.{IsTrueOf, IsUntaken, IsVisitCause};

use bfs_finding::{Finding, PagePart};
use bfs_inode_walk::VisitFault;
use bfs_node::KeyKind;
use bfs_node_walk::{size_in, tree_fault};
use bfs_range::Ranged;
use bfs_stream_pages::StreamReader;
use bfs_super::Super;
use bfs_txn::{Blocks, Steps};
use bfs_value_walk::{KeptRows, RowSink, walk_rows};
use std::alloc::Global;
use std::marker::Brand;
use std::sync::ledger::{Blank, Ledger};

/// Gives the keys of the tree in the pages of a stream, with their numbers, to a sink.
fn rows_over<B: Blocks, L: Ledger, T: RowSink>(
    alloc: Global,
    pages: &mut StreamReader<'_, B>,
    owner: u64,
    kind: KeyKind,
    taken: &mut T,
    steps: &mut Steps<L>,
) -> Result<(), VisitFault>
    requires kind { IsTreeKind kind }
    ensures whole { (m : ℕ → Option (List ℕ)) → B.told pages.old.under.now ≡ Some m → OnOk result (IsWholeTaken kind (stream_of pages.old.backing m) (T.took taken.old taken.new)) }
    ensures wrong { (v : Volume) (m : ℕ → Option (List ℕ)) → B.told pages.old.under.now ≡ Some m → content v owner ≡ stream_of pages.old.backing m → HasTree v owner kind → IsStreamOf v owner → IfErr result (IsTrueOf v) }
    ensures untaken { IfErr result IsUntaken }
    ensures told { B.told pages.new.under.now ≡ B.told pages.old.under.now }
    ensures changed { B.changed pages.new.under.now ≡ B.changed pages.old.under.now }
    ensures pairs { B.pairs pages.new.under.now ≡ B.pairs pages.old.under.now }
    ensures backing { pages.new.backing ≡ pages.old.backing }
    ensures under_name { pages.new.under.ghost_name ≡ pages.old.under.ghost_name }
    ensures frame { B.frame pages.new.under.now ≡ B.frame pages.old.under.now }
    ensures later { AreLater (B.counts pages.old.under.now) (B.counts pages.new.under.now) }
    ensures cause { IfErr result (IsVisitCause (B.counts pages.old.under.now) (B.counts pages.new.under.now)) }
{
    match walk_rows(alloc, pages, kind, taken, steps) {
        Ok(()) => Ok(()),
        Err(fault) => Err(tree_fault(owner, fault)),
    }
}

/// The same in a stream of so many bytes.
fn rows_with<B: Blocks, L: Ledger, T: RowSink>(
    alloc: Global,
    under: &mut B,
    sup: &Super,
    id: u64,
    kind: KeyKind,
    taken: &mut T,
    length: u64,
    bytes: &[u8],
    ledger: Blank,
) -> Result<(), VisitFault>
    requires name { ledger.name ≡ L.name }
    requires parts { ledger.parts ≡ L.parts }
    requires some { 0 < L.parts }
    requires valid { IsValid sup.now }
    requires inside { id < natural sup.now.num_blocks }
    requires size { B.size under.old ≡ sup.now.block_size }
    requires kind { IsTreeKind kind }
    requires whole { length % 1024 ≡ 0 }
    requires bytes { IsInodeOf (record { id = id; sizes = sizes_of sup.now }) (B.told under.old) bytes.now }
    requires held { (m : ℕ → Option (List ℕ)) → B.told under.old ≡ Some m → ∥ IsReadable (record { id = id; sizes = sizes_of sup.now }) length m ∥₁ }
    ensures whole { (m : ℕ → Option (List ℕ)) → B.told under.old ≡ Some m → OnOk result (IsWholeTaken kind (content (volume_of sup.now (contents m)) id) (T.took taken.old taken.new)) }
    ensures wrong { (m : ℕ → Option (List ℕ)) → B.told under.old ≡ Some m → HasTree (volume_of sup.now (contents m)) id kind → IsStreamOf (volume_of sup.now (contents m)) id → IfErr result (IsTrueOf (volume_of sup.now (contents m))) }
    ensures untaken { IfErr result IsUntaken }
    ensures told { B.told under.new ≡ B.told under.old }
    ensures changed { B.changed under.new ≡ B.changed under.old }
    ensures pairs { B.pairs under.new ≡ B.pairs under.old }
    ensures size { B.size under.new ≡ B.size under.old }
    ensures frame { B.frame under.new ≡ B.frame under.old }
    ensures later { AreLater (B.counts under.old) (B.counts under.new) }
    ensures cause { IfErr result (IsVisitCause (B.counts under.old) (B.counts under.new)) }
{
    let mut steps = Steps::<L>::begin(ledger);
    let mut pages = StreamReader::over(alloc, under, id, sup, length, Some(bytes));
    rows_over(alloc, &mut pages, id, kind, taken, &mut steps)
}

/// Gives the keys of the tree of this kind in the stream of an inode with these bytes, which was found to keep its format, each with its
/// numbers, to a sink; or what is wrong with the tree. It takes the memory of one key with its numbers, and a few bytes for each page.
pub fn read_rows<B: Blocks, T: RowSink>(
    alloc: Global,
    under: &mut B,
    sup: &Super,
    id: u64,
    bytes: &[u8],
    kind: KeyKind,
    taken: &mut T,
) -> Result<(), VisitFault>
    requires valid { IsValid sup.now }
    requires inside { id < natural sup.now.num_blocks }
    requires size { B.size under.old ≡ sup.now.block_size }
    requires all { (m : ℕ → Option (List ℕ)) → B.told under.old ≡ Some m → IsAllTold (sizes_of sup.now) m }
    requires long { 1024 ≤ length bytes.now }
    requires bytes { (m : ℕ → Option (List ℕ)) → B.told under.old ≡ Some m → bytes.now ≡ contents m id }
    requires stream { (m : ℕ → Option (List ℕ)) → B.told under.old ≡ Some m → HasStream (sizes_of sup.now) (contents m) id }
    requires kind { IsTreeKind kind }
    ensures whole { (m : ℕ → Option (List ℕ)) → B.told under.old ≡ Some m → OnOk result (IsWholeTaken kind (content (volume_of sup.now (contents m)) id) (T.took taken.old taken.new)) }
    ensures wrong { (m : ℕ → Option (List ℕ)) → B.told under.old ≡ Some m → HasTree (volume_of sup.now (contents m)) id kind → IfErr result (IsTrueOf (volume_of sup.now (contents m))) }
    ensures untaken { IfErr result IsUntaken }
    ensures told { B.told under.new ≡ B.told under.old }
    ensures changed { B.changed under.new ≡ B.changed under.old }
    ensures pairs { B.pairs under.new ≡ B.pairs under.old }
    ensures size { B.size under.new ≡ B.size under.old }
    ensures frame { B.frame under.new ≡ B.frame under.old }
    ensures later { AreLater (B.counts under.old) (B.counts under.new) }
    ensures cause { IfErr result (IsVisitCause (B.counts under.old) (B.counts under.new)) }
{
    let Some(length) = size_in(bytes) else {
        return Err(VisitFault::Wrong(Finding::TreePage {
            owner: id,
            page: 0,
            part: PagePart::Size,
        }));
    };
    rows_with::<B, Brand, T>(
        alloc,
        under,
        sup,
        id,
        kind,
        taken,
        length,
        bytes,
        Blank::new(1),
    )
}

/// The keys of the tree of this kind in the stream of an inode with these bytes, which was found to keep its format, each with its numbers;
/// or what is wrong with the tree. It takes the memory of all keys with their numbers.
pub fn read_values<B: Blocks>(
    alloc: Global,
    under: &mut B,
    sup: &Super,
    id: u64,
    bytes: &[u8],
    kind: KeyKind,
) -> Result<Ranged, VisitFault>
    requires valid { IsValid sup.now }
    requires inside { id < natural sup.now.num_blocks }
    requires size { B.size under.old ≡ sup.now.block_size }
    requires all { (m : ℕ → Option (List ℕ)) → B.told under.old ≡ Some m → IsAllTold (sizes_of sup.now) m }
    requires long { 1024 ≤ length bytes.now }
    requires bytes { (m : ℕ → Option (List ℕ)) → B.told under.old ≡ Some m → bytes.now ≡ contents m id }
    requires stream { (m : ℕ → Option (List ℕ)) → B.told under.old ≡ Some m → HasStream (sizes_of sup.now) (contents m) id }
    requires kind { IsTreeKind kind }
    ensures whole { (m : ℕ → Option (List ℕ)) → B.told under.old ≡ Some m → IfOk result (IsWholeWith kind (content (volume_of sup.now (contents m)) id)) }
    ensures written { (m : ℕ → Option (List ℕ)) → B.told under.old ≡ Some m → IfOk result (λ rows. AreWritten (content (volume_of sup.now (contents m)) id) (rows_in kind (content (volume_of sup.now (contents m)) id)) (pairs_by rows)) }
    ensures wrong { (m : ℕ → Option (List ℕ)) → B.told under.old ≡ Some m → HasTree (volume_of sup.now (contents m)) id kind → IfErr result (IsTrueOf (volume_of sup.now (contents m))) }
    ensures untaken { IfErr result IsUntaken }
    ensures told { B.told under.new ≡ B.told under.old }
    ensures changed { B.changed under.new ≡ B.changed under.old }
    ensures pairs { B.pairs under.new ≡ B.pairs under.old }
    ensures size { B.size under.new ≡ B.size under.old }
    ensures frame { B.frame under.new ≡ B.frame under.old }
    ensures later { AreLater (B.counts under.old) (B.counts under.new) }
    ensures cause { IfErr result (IsVisitCause (B.counts under.old) (B.counts under.new)) }
{
    let mut kept = KeptRows::new(alloc);
    match read_rows(alloc, under, sup, id, bytes, kind, &mut kept) {
        Ok(()) => Ok(kept.into_ranged()),
        Err(fault) => Err(fault),
    }
}
