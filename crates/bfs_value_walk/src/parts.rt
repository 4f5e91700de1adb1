// The fragments in use of pages of which values name fragments: each is named.
ghost use Rattle.std.specs.Prelude.{◌≡◌, ◌≢◌, ◌≤◌, ◌<◌, ◌+◌, ◌*◌, ◌/◌, ◌%◌, ℕ, List, Bool, true, false, length, get_or, Some, OnOk, IfOk, IfErr, MatchOption};
ghost use Rattle.std.specs.Int.{bit_at};
ghost use Rattle.bfs_base.specs.declared.kind.KeyKind.{KeyKind};
ghost use Rattle.bfs_txn.specs.Faults.{AreLater};
ghost use Rattle.bfs_pages.specs.Answers.{IsChild};
ghost use Rattle.bfs_values.specs.Values.{fragment_count};
ghost use Rattle.bfs_values.specs.Rows.{rows_in};
ghost use Rattle.bfs_walk.specs.Wrong.{IsWrong, IsWalkCause};
ghost use Rattle.bfs_value_walk.specs.Met.{AreMarked};
ghost use Rattle.bfs_value_walk.specs.Named.{parted};
ghost use Rattle.bfs_value_walk.specs.Taken.{AreNamed, AreAllNamed};

use crate::words::has_bit;
use bfs_finding::PagePart;
use bfs_node::PAGE;
use bfs_txn::{Pages, Steps};
use bfs_values::number_at;
use bfs_walk::{TreeWrong, WalkFault};
use std::sync::ledger::Ledger;

/// Is each fragment in use of a page one of those with a bit in a word?
fn are_named(page: &[u8], word: u16) -> bool
    requires { length page.now ≡ 1024 }
    ensures yes { result ≡ true → (f : ℕ) → f < 16 → 0 < fragment_count page.now f → bit_at word f ≡ 1 }
    ensures none { result ≡ false → (f : ℕ) × (f < 16) × (0 < fragment_count page.now f) × (bit_at word f ≡ 0) }
{
    for f in 0..16usize {
        let count = number_at(page, 64 * f);
        let named = has_bit(word, f);
        if count > 0 && !named {
            return false;
        }
    }
    true
}

/// Reads a page of which fragments are named: is each fragment in use?
fn look_at_parts<P: Pages, L: Ledger>(
    pages: &mut P,
    at: u64,
    word: u16,
    steps: &mut Steps<L>,
) -> Result<(), WalkFault<P::Fault>>
    requires at { IsChild (P.size pages.old) at }
    ensures named { (b names : List ℕ) → P.told pages.old ≡ Some b → get_or names (at / 1024) 0 ≡ word → OnOk result (AreNamed b (P.size pages.old) names at) }
    ensures wrong { (kind : KeyKind) (b names : List ℕ) (marks : List Bool) → P.told pages.old ≡ Some b → get_or names (at / 1024) 0 ≡ word → word ≢ 0 → AreMarked kind b (rows_in kind b) (P.size pages.old) marks names → IfErr result (IsWrong kind b) }
    ensures cause { IfErr result (IsWalkCause (P.is_cause pages.old pages.new)) }
    ensures told { P.told pages.new ≡ P.told pages.old }
    ensures size { P.size pages.new ≡ P.size pages.old }
    ensures counts { AreLater (P.counts pages.old) (P.counts pages.new) }
    ensures frame { P.frame pages.new ≡ P.frame pages.old }
    ensures goes_on { P.goes_on pages.old pages.new }
    ensures is_read { P.is_read pages.old pages.new }
{
    let mut page = [0u8; PAGE];
    match pages.get(at, &mut page, steps) {
        Ok(()) => {}
        Err(fault) => return Err(WalkFault::Pages(fault)),
    }
    if are_named(&page, word) {
        return Ok(());
    }
    Err(WalkFault::Wrong(TreeWrong::Page {
        page: at,
        part: PagePart::Content,
    }))
}

/// The page with this number, if one of its fragments is named.
fn check_part<P: Pages, L: Ledger>(
    pages: &mut P,
    names: &[u16],
    i: usize,
    steps: &mut Steps<L>,
) -> Result<(), WalkFault<P::Fault>>
    requires length { length names.now ≡ P.size pages.old / 1024 }
    requires inside { i < length names.now }
    requires small { P.size pages.old < 9223372036854775808 }
    ensures named { (kind : KeyKind) (b : List ℕ) (marks : List Bool) → P.told pages.old ≡ Some b → AreMarked kind b (rows_in kind b) (P.size pages.old) marks names.now → OnOk result (0 < parted (P.size pages.old) names.now (1024 * i) → AreNamed b (P.size pages.old) names.now (1024 * i)) }
    ensures wrong { (kind : KeyKind) (b : List ℕ) (marks : List Bool) → P.told pages.old ≡ Some b → AreMarked kind b (rows_in kind b) (P.size pages.old) marks names.now → IfErr result (IsWrong kind b) }
    ensures cause { IfErr result (IsWalkCause (P.is_cause pages.old pages.new)) }
    ensures told { P.told pages.new ≡ P.told pages.old }
    ensures size { P.size pages.new ≡ P.size pages.old }
    ensures counts { AreLater (P.counts pages.old) (P.counts pages.new) }
    ensures frame { P.frame pages.new ≡ P.frame pages.old }
    ensures goes_on { P.goes_on pages.old pages.new }
    ensures is_read { P.is_read pages.old pages.new }
{
    if i == 0 {
        return Ok(());
    }
    let word = names[i];
    if word == 0 {
        return Ok(());
    }
    look_at_parts(pages, 1024 * i as u64, word, steps)
}

/// Of each page of which a fragment is named, is each fragment in use?
pub fn check_parts<P: Pages, L: Ledger>(
    pages: &mut P,
    names: &[u16],
    steps: &mut Steps<L>,
) -> Result<(), WalkFault<P::Fault>>
    requires length { length names.now ≡ P.size pages.old / 1024 }
    requires small { P.size pages.old < 9223372036854775808 }
    ensures named { (kind : KeyKind) (b : List ℕ) (marks : List Bool) → P.told pages.old ≡ Some b → AreMarked kind b (rows_in kind b) (P.size pages.old) marks names.now → OnOk result (AreAllNamed b (P.size pages.old) names.now) }
    ensures wrong { (kind : KeyKind) (b : List ℕ) (marks : List Bool) → P.told pages.old ≡ Some b → AreMarked kind b (rows_in kind b) (P.size pages.old) marks names.now → IfErr result (IsWrong kind b) }
    ensures cause { IfErr result (IsWalkCause (P.is_cause pages.old pages.new)) }
    ensures told { P.told pages.new ≡ P.told pages.old }
    ensures size { P.size pages.new ≡ P.size pages.old }
    ensures counts { AreLater (P.counts pages.old) (P.counts pages.new) }
    ensures frame { P.frame pages.new ≡ P.frame pages.old }
    ensures goes_on { P.goes_on pages.old pages.new }
    ensures is_read { P.is_read pages.old pages.new }
{
    for i in 0..names.len() {
        match check_part(pages, names, i, steps) {
            Ok(()) => {}
            Err(fault) => return Err(fault),
        }
    }
    Ok(())
}
