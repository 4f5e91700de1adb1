// The values of the rows of a tree that are to be plain numbers.
ghost use Rattle.std.specs.Prelude.{◌≡◌, ◌≤◌, ◌<◌, ◌↔◌, ℕ, List, length, take, Some, IfOk, IfErr, IsTrue};
ghost use Rattle.std.specs.List.{AllByRecursion};
ghost use Rattle.bfs_base.specs.Lists.{Has};
ghost use Rattle.bfs_base.specs.Keys.{IsTreeKind};
ghost use Rattle.bfs_node.specs.Page.{IsPage, rows_of, row_in, value_of};
ghost use Rattle.bfs_txn.specs.Faults.{AreLater};
ghost use Rattle.bfs_pages.specs.Answers.{IsChild};
ghost use Rattle.bfs_values.specs.Links.{link_in};
ghost use Rattle.bfs_values.specs.declared.link.Link.TheVariants.{Nothing};
ghost use Rattle.bfs_finding.specs.Walks.{leaves_in};
ghost use Rattle.bfs_walk.specs.Wrong.{IsWrong, IsWalkCause};
ghost use Rattle.bfs_tree_walk.specs.Plain.{IsNumber, ArePlain, IsPlainAt, HasPlain};

use crate::OtherRow;
use bfs_finding::PagePart;
use bfs_node::{KeyKind, PAGE, row_count, row_value};
use bfs_txn::{Pages, Steps};
use bfs_values::{Link, link_of};
use bfs_walk::{TreeWrong, WalkFault, look_at_leaf};
use std::sync::ledger::Ledger;

/// Is a value a plain number?
fn is_number(value: i64) -> bool
    ensures { IsTrue result ↔ IsNumber (link_in value) }
{
    match link_of(value) {
        Link::Number(_) => true,
        Link::Fragment { .. } => false,
        Link::Chain { .. } => false,
        Link::Nothing => false,
    }
}

/// Does a value name nothing?
fn is_nothing(value: i64) -> bool
    ensures { IsTrue result ↔ (link_in value ≡ Nothing) }
{
    match link_of(value) {
        Link::Number(_) => false,
        Link::Fragment { .. } => false,
        Link::Chain { .. } => false,
        Link::Nothing => true,
    }
}

/// The place of a page's first row whose value isn't a plain number, or the number of its rows.
fn first_other(page: &[u8], kind: KeyKind) -> usize
    requires { IsPage kind page.now }
    ensures inside { result ≤ length (rows_of page.now) }
    ensures plain { ArePlain (take result (rows_of page.now)) }
    ensures other { result < length (rows_of page.now) → ¬ IsNumber (link_in (value_of (row_in (rows_of page.now) result))) }
{
    let count = row_count(page);
    for i in 0..count {
        let plain = is_number(row_value(page, i));
        if !plain {
            return i;
        }
    }
    count
}

/// The first row of the leaf at a place whose value isn't a plain number.
fn check_leaf<P: Pages, L: Ledger>(
    pages: &mut P,
    kind: KeyKind,
    at: u64,
    steps: &mut Steps<L>,
) -> Result<Option<OtherRow>, WalkFault<P::Fault>>
    requires kind { IsTreeKind kind }
    requires at { IsChild (P.size pages.old) at }
    ensures plain { (b : List ℕ) → P.told pages.old ≡ Some b → Has (leaves_in kind b) at → IfOk result (IsPlainAt kind b at) }
    ensures wrong { (b : List ℕ) → P.told pages.old ≡ Some b → Has (leaves_in kind b) at → IfErr result (IsWrong kind b) }
    ensures cause { IfErr result (IsWalkCause (P.is_cause pages.old pages.new)) }
    ensures told { P.told pages.new ≡ P.told pages.old }
    ensures size { P.size pages.new ≡ P.size pages.old }
    ensures counts { AreLater (P.counts pages.old) (P.counts pages.new) }
    ensures frame { P.frame pages.new ≡ P.frame pages.old }
    ensures goes_on { P.goes_on pages.old pages.new }
    ensures is_read { P.is_read pages.old pages.new }
{
    let mut page = [0u8; PAGE];
    match look_at_leaf(pages, kind, at, &mut page, steps) {
        Ok(()) => {}
        Err(fault) => return Err(fault),
    }
    let index = first_other(&page, kind);
    if index >= row_count(&page) {
        return Ok(None);
    }
    let value = row_value(&page, index);
    if is_nothing(value) {
        return Err(WalkFault::Wrong(TreeWrong::Page {
            page: at,
            part: PagePart::Content,
        }));
    }
    let other = OtherRow {
        page: at,
        index,
        value,
    };
    Ok(Some(other))
}

/// The first row of a tree's leaves whose value isn't a plain number.
pub fn check_values<P: Pages, L: Ledger>(
    pages: &mut P,
    kind: KeyKind,
    leaves: &[u64],
    steps: &mut Steps<L>,
) -> Result<Option<OtherRow>, WalkFault<P::Fault>>
    requires kind { IsTreeKind kind }
    requires inside { AllByRecursion (IsChild (P.size pages.old)) leaves.now }
    ensures plain { (b : List ℕ) → P.told pages.old ≡ Some b → leaves_in kind b ≡ leaves.now → IfOk result (HasPlain kind b) }
    ensures wrong { (b : List ℕ) → P.told pages.old ≡ Some b → leaves_in kind b ≡ leaves.now → IfErr result (IsWrong kind b) }
    ensures cause { IfErr result (IsWalkCause (P.is_cause pages.old pages.new)) }
    ensures told { P.told pages.new ≡ P.told pages.old }
    ensures size { P.size pages.new ≡ P.size pages.old }
    ensures counts { AreLater (P.counts pages.old) (P.counts pages.new) }
    ensures frame { P.frame pages.new ≡ P.frame pages.old }
    ensures goes_on { P.goes_on pages.old pages.new }
    ensures is_read { P.is_read pages.old pages.new }
{
    for at in leaves {
        let found = match check_leaf(pages, kind, *at, steps) {
            Ok(found) => found,
            Err(fault) => return Err(fault),
        };
        match found {
            None => {}
            Some(other) => return Ok(Some(other)),
        }
    }
    Ok(None)
}
