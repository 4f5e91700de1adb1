// Reading of a tree in a stream, over the volume's blocks alone.
ghost use Rattle.std.specs.Prelude.{◌≡◌, ◌≤◌, ◌<◌, ◌%◌, ℕ, List, Option, Some, IfErr, IfSome, MatchResult};
ghost use Rattle.std.specs.Option.{option_copied};
ghost use Rattle.bfs_base.specs.Keys.{IsTreeKind};
ghost use Rattle.bfs_super.specs.Conditions.{IsValid, natural};
ghost use Rattle.bfs_node.specs.Search.{IsSought};
ghost use Rattle.bfs_txn.specs.Faults.{AreLater};
ghost use Rattle.bfs_stream_pages.specs.Held.{IsReadable, stream_of, IsInodeOf};
ghost use Rattle.bfs_values.specs.Kinds.{IsWanted};
ghost use Rattle.bfs_values.specs.Reached.{IsWholeTree};
ghost use Rattle.bfs_range.specs.Answers.{answer_of};
ghost use Rattle.bfs_range.specs.Ranges.{rows_between};
ghost use Rattle.bfs_maps.specs.Mapped.{origin_of, rows_of, HasReadable};
ghost use Rattle.bfs_maps.specs.NumberTrees.{HoldsNumber, IsNumberAt};
ghost use Rattle.bfs_maps.specs.Refused.{IsNumberPage, IsReadFault, HasReadCause, IsUndone};

use crate::TreeAt;
use crate::over_pages::number_in;
use crate::size::stream_size;
use bfs_node::{KeyKind, TreeFault};
use bfs_range::{Ranged, range};
use bfs_stream_pages::{MapFault, StreamReader};
use bfs_txn::{Blocks, Steps};
use std::alloc::Global;
use std::marker::Brand;
use std::sync::ledger::{Blank, Ledger};

/// The number at a key.
fn number_over<B: Blocks, L: Ledger>(
    pages: &mut StreamReader<'_, B>,
    kind: KeyKind,
    key: &[u8],
    steps: &mut Steps<L>,
) -> Result<Option<u64>, MapFault>
    requires kind { IsTreeKind kind }
    requires key { IsSought kind key.now }
    ensures found { (m : ℕ → Option (List ℕ)) → B.told pages.old.under.now ≡ Some m → HoldsNumber kind key.now (stream_of pages.old.backing m) → MatchResult result (IsNumberAt kind (rows_of kind pages.old.backing m) key.now) IsUndone }
    ensures refused { (m : ℕ → Option (List ℕ)) → B.told pages.old.under.now ≡ Some m → IfErr result (IsReadFault (IsNumberPage kind (stream_of pages.old.backing m)) pages.old.backing m) }
    ensures told { B.told pages.new.under.now ≡ B.told pages.old.under.now }
    ensures changed { B.changed pages.new.under.now ≡ B.changed pages.old.under.now }
    ensures pairs { B.pairs pages.new.under.now ≡ B.pairs pages.old.under.now }
    ensures backing { pages.new.backing ≡ pages.old.backing }
    ensures under_name { pages.new.under.ghost_name ≡ pages.old.under.ghost_name }
    ensures frame { B.frame pages.new.under.now ≡ B.frame pages.old.under.now }
    ensures later { AreLater (B.counts pages.old.under.now) (B.counts pages.new.under.now) }
    ensures cause { IfErr result (HasReadCause (B.counts pages.old.under.now) (B.counts pages.new.under.now)) }
{
    number_in(pages, kind, key, steps)
}

/// The number at a key, in a stream of so many bytes.
fn number_with<B: Blocks, L: Ledger>(
    tree: TreeAt,
    length: u64,
    bytes: &[u8],
    under: &mut B,
    key: &[u8],
    ledger: Blank,
) -> Result<Option<u64>, MapFault>
    requires name { ledger.name ≡ L.name }
    requires parts { ledger.parts ≡ L.parts }
    requires some { 0 < L.parts }
    requires valid { IsValid tree.sup }
    requires inside { tree.inode < natural tree.sup.num_blocks }
    requires kind { IsTreeKind tree.kind }
    requires key { IsSought tree.kind key.now }
    requires size { B.size under.old ≡ tree.sup.block_size }
    requires whole { length % 1024 ≡ 0 }
    requires bytes { IsInodeOf (origin_of tree) (B.told under.old) bytes.now }
    requires held { (m : ℕ → Option (List ℕ)) → B.told under.old ≡ Some m → ∥ IsReadable (origin_of tree) length m ∥₁ }
    ensures found { (m : ℕ → Option (List ℕ)) → B.told under.old ≡ Some m → HoldsNumber tree.kind key.now (stream_of (origin_of tree) m) → MatchResult result (IsNumberAt tree.kind (rows_of tree.kind (origin_of tree) m) key.now) IsUndone }
    ensures refused { (m : ℕ → Option (List ℕ)) → B.told under.old ≡ Some m → IfErr result (IsReadFault (IsNumberPage tree.kind (stream_of (origin_of tree) m)) (origin_of tree) m) }
    ensures told { B.told under.new ≡ B.told under.old }
    ensures changed { B.changed under.new ≡ B.changed under.old }
    ensures pairs { B.pairs under.new ≡ B.pairs under.old }
    ensures size { B.size under.new ≡ B.size under.old }
    ensures frame { B.frame under.new ≡ B.frame under.old }
    ensures later { AreLater (B.counts under.old) (B.counts under.new) }
    ensures cause { IfErr result (HasReadCause (B.counts under.old) (B.counts under.new)) }
{
    let mut steps = Steps::<L>::begin(ledger);
    let mut pages = StreamReader::over(
        tree.alloc,
        under,
        tree.inode,
        &tree.sup,
        length,
        Some(bytes),
    );
    number_over(&mut pages, tree.kind, key, &mut steps)
}

/// The number at a key of a tree, or None where the key isn't there.
pub fn number_at<B: Blocks>(
    tree: TreeAt,
    under: &mut B,
    key: &[u8],
) -> Result<Option<u64>, MapFault>
    requires valid { IsValid tree.sup }
    requires inside { tree.inode < natural tree.sup.num_blocks }
    requires kind { IsTreeKind tree.kind }
    requires key { IsSought tree.kind key.now }
    requires size { B.size under.old ≡ tree.sup.block_size }
    requires stream { (m : ℕ → Option (List ℕ)) → B.told under.old ≡ Some m → HasReadable (origin_of tree) m }
    ensures found { (m : ℕ → Option (List ℕ)) → B.told under.old ≡ Some m → HoldsNumber tree.kind key.now (stream_of (origin_of tree) m) → MatchResult result (IsNumberAt tree.kind (rows_of tree.kind (origin_of tree) m) key.now) IsUndone }
    ensures refused { (m : ℕ → Option (List ℕ)) → B.told under.old ≡ Some m → IfErr result (IsReadFault (IsNumberPage tree.kind (stream_of (origin_of tree) m)) (origin_of tree) m) }
    ensures told { B.told under.new ≡ B.told under.old }
    ensures changed { B.changed under.new ≡ B.changed under.old }
    ensures pairs { B.pairs under.new ≡ B.pairs under.old }
    ensures size { B.size under.new ≡ B.size under.old }
    ensures frame { B.frame under.new ≡ B.frame under.old }
    ensures later { AreLater (B.counts under.old) (B.counts under.new) }
    ensures cause { IfErr result (HasReadCause (B.counts under.old) (B.counts under.new)) }
{
    let opened = match stream_size(tree, under) {
        Ok(opened) => opened,
        Err(fault) => return Err(TreeFault::Pages(fault)),
    };
    number_with::<B, Brand>(
        tree,
        opened.length,
        &opened.inode,
        under,
        key,
        Blank::new(1),
    )
}

/// The rows from one key to another.
fn rows_over<B: Blocks, L: Ledger>(
    alloc: Global,
    pages: &mut StreamReader<'_, B>,
    kind: KeyKind,
    low: Option<&[u8]>,
    high: Option<&[u8]>,
    steps: &mut Steps<L>,
) -> Result<Ranged, MapFault>
    requires kind { IsTreeKind kind }
    requires low { IfSome low (λ k. IsSought kind k.now) }
    requires high { IfSome high (λ k. IsSought kind k.now) }
    ensures rows { (m : ℕ → Option (List ℕ)) → B.told pages.old.under.now ≡ Some m → IsWholeTree kind (stream_of pages.old.backing m) → MatchResult result (λ found. found ≡ answer_of (stream_of pages.old.backing m) (rows_between kind (option_copied low.entry) (option_copied high.entry) (rows_of kind pages.old.backing m))) IsUndone }
    ensures refused { (m : ℕ → Option (List ℕ)) → B.told pages.old.under.now ≡ Some m → IfErr result (IsReadFault (IsWanted kind (stream_of pages.old.backing m)) pages.old.backing m) }
    ensures told { B.told pages.new.under.now ≡ B.told pages.old.under.now }
    ensures changed { B.changed pages.new.under.now ≡ B.changed pages.old.under.now }
    ensures pairs { B.pairs pages.new.under.now ≡ B.pairs pages.old.under.now }
    ensures backing { pages.new.backing ≡ pages.old.backing }
    ensures under_name { pages.new.under.ghost_name ≡ pages.old.under.ghost_name }
    ensures frame { B.frame pages.new.under.now ≡ B.frame pages.old.under.now }
    ensures later { AreLater (B.counts pages.old.under.now) (B.counts pages.new.under.now) }
    ensures cause { IfErr result (HasReadCause (B.counts pages.old.under.now) (B.counts pages.new.under.now)) }
{
    range(alloc, pages, kind, low, high, steps)
}

/// The rows from one key to another, in a stream of so many bytes.
fn rows_with<B: Blocks, L: Ledger>(
    tree: TreeAt,
    length: u64,
    bytes: &[u8],
    under: &mut B,
    low: Option<&[u8]>,
    high: Option<&[u8]>,
    ledger: Blank,
) -> Result<Ranged, MapFault>
    requires name { ledger.name ≡ L.name }
    requires parts { ledger.parts ≡ L.parts }
    requires some { 0 < L.parts }
    requires valid { IsValid tree.sup }
    requires inside { tree.inode < natural tree.sup.num_blocks }
    requires kind { IsTreeKind tree.kind }
    requires low { IfSome low (λ k. IsSought tree.kind k.now) }
    requires high { IfSome high (λ k. IsSought tree.kind k.now) }
    requires size { B.size under.old ≡ tree.sup.block_size }
    requires whole { length % 1024 ≡ 0 }
    requires bytes { IsInodeOf (origin_of tree) (B.told under.old) bytes.now }
    requires held { (m : ℕ → Option (List ℕ)) → B.told under.old ≡ Some m → ∥ IsReadable (origin_of tree) length m ∥₁ }
    ensures rows { (m : ℕ → Option (List ℕ)) → B.told under.old ≡ Some m → IsWholeTree tree.kind (stream_of (origin_of tree) m) → MatchResult result (λ found. found ≡ answer_of (stream_of (origin_of tree) m) (rows_between tree.kind (option_copied low.entry) (option_copied high.entry) (rows_of tree.kind (origin_of tree) m))) IsUndone }
    ensures refused { (m : ℕ → Option (List ℕ)) → B.told under.old ≡ Some m → IfErr result (IsReadFault (IsWanted tree.kind (stream_of (origin_of tree) m)) (origin_of tree) m) }
    ensures told { B.told under.new ≡ B.told under.old }
    ensures changed { B.changed under.new ≡ B.changed under.old }
    ensures pairs { B.pairs under.new ≡ B.pairs under.old }
    ensures size { B.size under.new ≡ B.size under.old }
    ensures frame { B.frame under.new ≡ B.frame under.old }
    ensures later { AreLater (B.counts under.old) (B.counts under.new) }
    ensures cause { IfErr result (HasReadCause (B.counts under.old) (B.counts under.new)) }
{
    let mut steps = Steps::<L>::begin(ledger);
    let mut pages = StreamReader::over(
        tree.alloc,
        under,
        tree.inode,
        &tree.sup,
        length,
        Some(bytes),
    );
    rows_over(tree.alloc, &mut pages, tree.kind, low, high, &mut steps)
}

/// The rows of a tree from one key to another, both inclusive, each key with the numbers of its value; where an end is None, from
/// the first row or to the last.
pub fn rows_from<B: Blocks>(
    tree: TreeAt,
    under: &mut B,
    low: Option<&[u8]>,
    high: Option<&[u8]>,
) -> Result<Ranged, MapFault>
    requires valid { IsValid tree.sup }
    requires inside { tree.inode < natural tree.sup.num_blocks }
    requires kind { IsTreeKind tree.kind }
    requires low { IfSome low (λ k. IsSought tree.kind k.now) }
    requires high { IfSome high (λ k. IsSought tree.kind k.now) }
    requires size { B.size under.old ≡ tree.sup.block_size }
    requires stream { (m : ℕ → Option (List ℕ)) → B.told under.old ≡ Some m → HasReadable (origin_of tree) m }
    ensures rows { (m : ℕ → Option (List ℕ)) → B.told under.old ≡ Some m → IsWholeTree tree.kind (stream_of (origin_of tree) m) → MatchResult result (λ found. found ≡ answer_of (stream_of (origin_of tree) m) (rows_between tree.kind (option_copied low.entry) (option_copied high.entry) (rows_of tree.kind (origin_of tree) m))) IsUndone }
    ensures refused { (m : ℕ → Option (List ℕ)) → B.told under.old ≡ Some m → IfErr result (IsReadFault (IsWanted tree.kind (stream_of (origin_of tree) m)) (origin_of tree) m) }
    ensures told { B.told under.new ≡ B.told under.old }
    ensures changed { B.changed under.new ≡ B.changed under.old }
    ensures pairs { B.pairs under.new ≡ B.pairs under.old }
    ensures size { B.size under.new ≡ B.size under.old }
    ensures frame { B.frame under.new ≡ B.frame under.old }
    ensures later { AreLater (B.counts under.old) (B.counts under.new) }
    ensures cause { IfErr result (HasReadCause (B.counts under.old) (B.counts under.new)) }
{
    let opened = match stream_size(tree, under) {
        Ok(opened) => opened,
        Err(fault) => return Err(TreeFault::Pages(fault)),
    };
    rows_with::<B, Brand>(
        tree,
        opened.length,
        &opened.inode,
        under,
        low,
        high,
        Blank::new(1),
    )
}
