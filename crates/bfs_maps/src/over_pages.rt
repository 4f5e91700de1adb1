// The calls on a tree of pages, at a key whose value is a plain number.
ghost use Rattle.std.specs.Prelude.{◌≡◌, ◌≤◌, ◌<◌, ◌^◌, ℕ, ℤ, pos, List, length, Some, None, OnOk, IfOk, IfErr, IfSome, MatchResult};
ghost use Rattle.bfs_base.specs.Keys.{IsKey, IsTreeKind};
ghost use Rattle.bfs_node.specs.Search.{IsSought};
ghost use Rattle.bfs_txn.specs.Faults.{AreLater};
ghost use Rattle.bfs_pages.specs.Answers.{IsJustRead, IsBlamed, IsOfPages};
ghost use Rattle.bfs_pages.specs.Maps.{assoc, put, without};
ghost use Rattle.bfs_pages.specs.Writes.{Kept};
ghost use Rattle.bfs_values.specs.Links.{link_in};
ghost use Rattle.bfs_values.specs.Reached.{IsWholeTree};
ghost use Rattle.bfs_values.specs.Rows.{rows_in};
ghost use Rattle.bfs_values.specs.declared.link.Link.TheVariants.{Number};
ghost use Rattle.bfs_maps.specs.NumberTrees.{IsNumber, IsNumberAt, HoldsNumber, IsTold};
ghost use Rattle.bfs_maps.specs.RowTrees.{IsRowTree};
ghost use Rattle.bfs_insert.specs.Puts.{IsHindered};
ghost use Rattle.bfs_maps.specs.Refused.{IsUnnumbered, IsBrokenFor, IsTurnedAway, IsNotPut, IsNotTaken};

use bfs_insert::insert;
use bfs_node::{KeyKind, PAGE, PageKind, TreeFault, row_value, search};
use bfs_pages::leaf_for;
use bfs_remove::remove;
use bfs_txn::{Pages, Steps};
use bfs_values::{Link, link_of};
use std::sync::ledger::Ledger;

/// The plain number that a value is, or None where it is something else.
fn plain_number(value: i64) -> Option<u64>
    ensures some { IfSome result (λ n. link_in value ≡ Number n) }
    ensures none { result ≡ None → IsNumber value → ⊥ }
{
    match link_of(value) {
        Link::Number(number) => Some(number),
        Link::Fragment { .. } => None,
        Link::Chain { .. } => None,
        Link::Nothing => None,
    }
}

/// The number at a key, or None where the key isn't there.
pub(crate) fn number_in<P: Pages, L: Ledger>(
    pages: &mut P,
    kind: KeyKind,
    key: &[u8],
    steps: &mut Steps<L>,
) -> Result<Option<u64>, TreeFault<P::Fault>>
    requires kind { IsTreeKind kind }
    requires key { IsSought kind key.now }
    ensures found { (b : List ℕ) → P.told pages.old ≡ Some b → HoldsNumber kind key.now b → MatchResult result (IsNumberAt kind (rows_in kind b) key.now) IsOfPages }
    ensures refused { IfErr result (IsUnnumbered kind (P.told pages.new) (P.is_cause pages.old pages.new)) }
    ensures just_read { IfErr result (IsJustRead (P.size pages.new) (P.last pages.new)) }
    ensures broken { IfErr result (IsBrokenFor kind key.now (P.size pages.new) (P.last pages.new) (P.page pages.new)) }
    ensures told { P.told pages.new ≡ P.told pages.old }
    ensures size { P.size pages.new ≡ P.size pages.old }
    ensures counts { AreLater (P.counts pages.old) (P.counts pages.new) }
    ensures frame { P.frame pages.new ≡ P.frame pages.old }
    ensures goes_on { P.goes_on pages.old pages.new }
    ensures is_read { P.is_read pages.old pages.new }
{
    let mut page = [0u8; PAGE];
    let leaf = match leaf_for(pages, kind, key, &mut page, steps) {
        Ok(leaf) => leaf,
        Err(fault) => return Err(fault),
    };
    match search(&page, kind, key) {
        Ok(i) => match plain_number(row_value(&page, i)) {
            Some(number) => Ok(Some(number)),
            None => Err(TreeFault::Damaged {
                page: leaf,
                kind: PageKind::Leaf,
            }),
        },
        Err(_) => Ok(None),
    }
}

/// A number as a value.
fn as_value(number: u64) -> i64
    requires { number < 2 ^ 62 }
    ensures { result ≡ pos number }
{
    number as i64
}

/// Puts a key with a number, where the key isn't there.
pub(crate) fn put_in<P: Pages, L: Ledger>(
    pages: &mut P,
    kind: KeyKind,
    key: &[u8],
    number: u64,
    steps: &mut Steps<L>,
) -> Result<(), TreeFault<P::Fault>>
    requires kind { IsTreeKind kind }
    requires key { IsKey kind key.now }
    requires number { number < 2 ^ 62 }
    ensures put { (b : List ℕ) → P.told pages.old ≡ Some b → IsWholeTree kind b → MatchResult result (λ done. IsTold (P.told pages.new) (IsRowTree kind (put kind (rows_in kind b) key.now (pos number)))) (IsNotPut kind (rows_in kind b) key.now) }
    ensures absent { (b : List ℕ) → P.told pages.old ≡ Some b → IsWholeTree kind b → OnOk result (assoc kind (rows_in kind b) key.now ≡ None) }
    ensures there { (b : List ℕ) (value : ℤ) → P.told pages.old ≡ Some b → IsWholeTree kind b → assoc kind (rows_in kind b) key.now ≡ Some value → P.is_read pages.old pages.new }
    ensures refused { IfErr result (IsHindered kind (P.told pages.old) (P.told pages.new) (P.is_cause pages.old pages.new)) }
    ensures blamed { IfErr result (IsBlamed (P.told pages.new) (P.size pages.new) (P.last pages.new)) }
    ensures kept { Kept (P.counts pages.old) (P.counts pages.new) (P.frame pages.old) (P.frame pages.new) (P.goes_on pages.old pages.new) }
{
    insert(pages, kind, key, as_value(number), steps)
}

/// Takes a key out, and tells its number.
pub(crate) fn take_in<P: Pages, L: Ledger>(
    pages: &mut P,
    kind: KeyKind,
    key: &[u8],
    steps: &mut Steps<L>,
) -> Result<u64, TreeFault<P::Fault>>
    requires kind { IsTreeKind kind }
    requires key { IsSought kind key.now }
    ensures taken { (b : List ℕ) → P.told pages.old ≡ Some b → HoldsNumber kind key.now b → MatchResult result (λ number. IsTold (P.told pages.new) (IsRowTree kind (without kind (rows_in kind b) key.now))) (IsNotTaken kind (rows_in kind b) key.now) }
    ensures number { (b : List ℕ) → P.told pages.old ≡ Some b → HoldsNumber kind key.now b → IfOk result (λ number. assoc kind (rows_in kind b) key.now ≡ Some (pos number)) }
    ensures refused { IfErr result (IsTurnedAway kind (P.told pages.old) (P.told pages.new) (P.is_cause pages.old pages.new)) }
    ensures just_read { IfErr result (IsJustRead (P.size pages.new) (P.last pages.new)) }
    ensures kept { Kept (P.counts pages.old) (P.counts pages.new) (P.frame pages.old) (P.frame pages.new) (P.goes_on pages.old pages.new) }
{
    let number = match number_in(pages, kind, key, steps) {
        Ok(Some(number)) => number,
        Ok(None) => return Err(TreeFault::Absent),
        Err(fault) => return Err(fault),
    };
    match remove(pages, kind, key, steps) {
        Ok(_) => Ok(number),
        Err(fault) => Err(fault),
    }
}
