// The links between the leaves of a tree.
ghost use Rattle.std.specs.Prelude.{◌≡◌, ◌≢◌, ◌<◌, ◌+◌, ◌++◌, ◌⊎◌, ℕ, pos, List, ◌∷◌, length, take, drop, Some, OnOk, IfErr};
ghost use Rattle.std.specs.List.{AllByRecursion};
ghost use Rattle.bfs_base.specs.declared.kind.KeyKind.{KeyKind};
ghost use Rattle.bfs_node.specs.Page.{left_of, right_of};
ghost use Rattle.bfs_txn.specs.Faults.{AreLater};
ghost use Rattle.bfs_pages.specs.Answers.{IsChild};
ghost use Rattle.bfs_pages.specs.Trees.{page_in, state_of, Linked};
ghost use Rattle.bfs_finding.specs.Walks.{leaves_in};
ghost use Rattle.bfs_finding.specs.TreeFaults.{last_link, first_link};
ghost use Rattle.bfs_walk.specs.Wrong.{IsWrong, IsWalkCause};

use bfs_node::{PAGE, left_link, right_link};
use bfs_txn::{Pages, Steps};
use bfs_walk::{TreeWrong, WalkFault};
use std::sync::ledger::Ledger;

/// The link to a page.
fn link_to(at: u64) -> i64
    requires { at < 9223372036854775808 }
    ensures { result ≡ pos at }
{
    at as i64
}

/// The link that the leaf with this number has to the one before it; -1 of the first.
fn link_before(leaves: &[u64], i: usize) -> i64
    requires inside { i < length leaves.now }
    requires small { AllByRecursion (λ x. x < 9223372036854775808) leaves.now }
    ensures { result ≡ last_link (take i leaves.now) }
{
    if i == 0 { -1 } else { link_to(leaves[i - 1]) }
}

/// The link that the leaf with this number has to the one behind it; -1 of the last.
fn link_behind(leaves: &[u64], i: usize) -> i64
    requires inside { i < length leaves.now }
    requires small { AllByRecursion (λ x. x < 9223372036854775808) leaves.now }
    ensures { result ≡ first_link (drop (i + 1) leaves.now) }
{
    let next = i + 1;
    let count = leaves.len();
    if next < count {
        link_to(leaves[next])
    } else {
        -1
    }
}

/// Is a link of the page at a place the one that is wanted?
fn check_same(at: u64, found: i64, wanted: i64) -> Result<(), TreeWrong>
    ensures same { OnOk result (found ≡ wanted) }
    ensures wrong { IfErr result (λ wrong. (wrong ≡ TreeWrong.Link at found wanted) × (found ≢ wanted)) }
{
    if found == wanted {
        Ok(())
    } else {
        Err(TreeWrong::Link {
            page: at,
            found,
            wanted,
        })
    }
}

/// Does a page have these links?
fn check_beside(page: &[u8], at: u64, left: i64, right: i64) -> Result<(), TreeWrong>
    requires { length page.now ≡ 1024 }
    ensures left { OnOk result (left_of page.now ≡ left) }
    ensures right { OnOk result (right_of page.now ≡ right) }
    ensures wrong { IfErr result (λ wrong. ((wrong ≡ TreeWrong.Link at (left_of page.now) left) × (left_of page.now ≢ left)) ⊎ ((wrong ≡ TreeWrong.Link at (right_of page.now) right) × (right_of page.now ≢ right))) }
{
    match check_same(at, left_link(page), left) {
        Ok(()) => {}
        Err(wrong) => return Err(wrong),
    }
    match check_same(at, right_link(page), right) {
        Ok(()) => Ok(()),
        Err(wrong) => Err(wrong),
    }
}

/// Does the leaf at a place have these links?
fn look_beside<P: Pages, L: Ledger>(
    pages: &mut P,
    at: u64,
    left: i64,
    right: i64,
    steps: &mut Steps<L>,
) -> Result<(), WalkFault<P::Fault>>
    requires at { IsChild (P.size pages.old) at }
    ensures left { (b : List ℕ) → P.told pages.old ≡ Some b → OnOk result (left_of (page_in b at) ≡ left) }
    ensures right { (b : List ℕ) → P.told pages.old ≡ Some b → OnOk result (right_of (page_in b at) ≡ right) }
    ensures wrong { (kind : KeyKind) (b front back : List ℕ) → P.told pages.old ≡ Some b → leaves_in kind b ≡ front ++ (at ∷ back) → left ≡ last_link front → right ≡ first_link back → IfErr result (IsWrong kind b) }
    ensures cause { IfErr result (IsWalkCause (P.is_cause pages.old pages.new)) }
    ensures told { P.told pages.new ≡ P.told pages.old }
    ensures size { P.size pages.new ≡ P.size pages.old }
    ensures counts { AreLater (P.counts pages.old) (P.counts pages.new) }
    ensures frame { P.frame pages.new ≡ P.frame pages.old }
    ensures goes_on { P.goes_on pages.old pages.new }
    ensures is_read { P.is_read pages.old pages.new }
{
    let mut page = [0u8; PAGE];
    match pages.get(at, &mut page, steps) {
        Ok(()) => {}
        Err(fault) => return Err(WalkFault::Pages(fault)),
    }
    match check_beside(&page, at, left, right) {
        Ok(()) => Ok(()),
        Err(wrong) => Err(WalkFault::Wrong(wrong)),
    }
}

/// Are the leaves of a tree linked to their neighbours?
pub fn check_links<P: Pages, L: Ledger>(
    pages: &mut P,
    leaves: &[u64],
    steps: &mut Steps<L>,
) -> Result<(), WalkFault<P::Fault>>
    requires inside { AllByRecursion (IsChild (P.size pages.old)) leaves.now }
    requires small { AllByRecursion (λ x. x < 9223372036854775808) leaves.now }
    ensures linked { (kind : KeyKind) (b : List ℕ) → P.told pages.old ≡ Some b → leaves_in kind b ≡ leaves.now → OnOk result (Linked (state_of kind b).links 0 (leaves_in kind b) 0) }
    ensures wrong { (kind : KeyKind) (b : List ℕ) → P.told pages.old ≡ Some b → leaves_in kind b ≡ leaves.now → IfErr result (IsWrong kind b) }
    ensures cause { IfErr result (IsWalkCause (P.is_cause pages.old pages.new)) }
    ensures told { P.told pages.new ≡ P.told pages.old }
    ensures size { P.size pages.new ≡ P.size pages.old }
    ensures counts { AreLater (P.counts pages.old) (P.counts pages.new) }
    ensures frame { P.frame pages.new ≡ P.frame pages.old }
    ensures goes_on { P.goes_on pages.old pages.new }
    ensures is_read { P.is_read pages.old pages.new }
{
    for i in 0..leaves.len() {
        let left = link_before(leaves, i);
        let right = link_behind(leaves, i);
        match look_beside(pages, leaves[i], left, right, steps) {
            Ok(()) => {}
            Err(fault) => return Err(fault),
        }
    }
    Ok(())
}
