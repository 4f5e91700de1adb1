// Takes a number out of those that a value means.
ghost use Rattle.std.specs.Prelude.{◌≡◌, ◌≢◌, ◌⊎◌, ◌≤◌, ◌<◌, ◌^◌, ◌++◌, ◌∷◌, ℕ, List, Some, length, OnOk, IfOk, IfErr, IfSome, MatchResult};
ghost use Rattle.bfs_base.specs.Keys.{IsTreeKind};
ghost use Rattle.bfs_base.specs.Lists.{times};
ghost use Rattle.bfs_node.specs.Page.{Row};
ghost use Rattle.bfs_pages.specs.Answers.{IsChild, IsOfPages, IsJustRead};
ghost use Rattle.bfs_pages.specs.Order.{Key};
ghost use Rattle.bfs_pages.specs.Shapes.{Shape, tree_rows, leaves_of};
ghost use Rattle.bfs_pages.specs.Writes.{Kept};
ghost use Rattle.bfs_values.specs.Chained.{IsLinked};
ghost use Rattle.bfs_values.specs.Kinds.{IsValueOf, IsCut};
ghost use Rattle.bfs_values.specs.Links.{link_in};
ghost use Rattle.bfs_values.specs.Values.{HasValues, values_in};
ghost use Rattle.bfs_values.specs.declared.link.Link.TheVariants.{Number, Fragment, Chain};
ghost use Rattle.bfs_values.specs.Formed.{IsFormed};
ghost use Rattle.bfs_values.specs.Named.{IsNamedIn, IsCrowded};
ghost use Rattle.bfs_values.specs.Stored.{Stored};
ghost use Rattle.bfs_dups_remove.specs.Lessened.{without_number, IsLessened};

use crate::lessening::{lone_number, narrow_fragment};
use crate::locating::locate;
use crate::settling::settle;
use crate::shrinking::fold_all;
use crate::unlinking::lessen;
use bfs_dups::{find_number, number_value, read_page, vacate};
use bfs_node::{KeyKind, PAGE, PageKind, TreeFault};
use bfs_pages::{is_child, write_page};
use bfs_txn::{Pages, Steps};
use bfs_values::{Link, fragment_size, link_of};
use std::sync::ledger::Ledger;

/// Takes a number out of a fragment. The last but one leaves a plain number, and the last one none.
fn remove_from_fragment<P: Pages, L: Ledger>(
    pages: &mut P,
    kind: KeyKind,
    value: i64,
    slot: (u64, u64),
    number: u64,
    steps: &mut Steps<L>,
) -> Result<Option<i64>, TreeFault<P::Fault>>
    requires kind { IsTreeKind kind }
    requires link { link_in value ≡ Fragment slot.0 slot.1 }
    requires page { IsChild (P.size pages.old) slot.0 }
    ensures removed { (b : List ℕ) (t : Shape) (front back : List Row) (key : Key) → P.told pages.old ≡ Some b → Stored kind b t (front ++ ((key, value) ∷ back)) → MatchResult result (λ o. (c : List ℕ) × (P.told pages.new ≡ Some c) × IsLessened kind b c t front key back (without_number number (values_in b value)) o) IsOfPages }
    ensures absent { (b : List ℕ) → P.told pages.old ≡ Some b → HasValues b value → times number (values_in b value) ≡ 0 → IfOk result (λ o. (o ≡ Some value) × (P.told pages.new ≡ P.told pages.old)) }
    ensures size { OnOk result (P.size pages.new ≡ P.size pages.old) }
    ensures refused { (leaf : ℕ) → IfSome (P.told pages.old) (λ b. IsValueOf kind b leaf value) → IfErr result (IsCut kind (P.told pages.new) (P.is_cause pages.old pages.new)) }
    ensures just_read { IfErr result (IsJustRead (P.size pages.new) (P.last pages.new)) }
    ensures kept { Kept (P.counts pages.old) (P.counts pages.new) (P.frame pages.old) (P.frame pages.new) (P.goes_on pages.old pages.new) }
    ensures formed { (b : List ℕ) → P.told pages.old ≡ Some b → 1 ≤ times number (values_in b value) → IfOk result (λ o. IfSome o (λ new. IsFormed (link_in new) (without_number number (values_in b value)))) }
    ensures linked { (c : List ℕ) → IfOk result (λ o. IfSome o (λ new. IsLinked c (link_in new))) }
{
    let (at, index) = slot;
    let mut page = [0u8; PAGE];
    match read_page(pages, at, &mut page, steps) {
        Ok(()) => {}
        Err(fault) => return Err(fault),
    }
    let Some(count) = fragment_size(&page, index) else {
        return Err(TreeFault::Damaged {
            page: at,
            kind: PageKind::Fragment,
        });
    };
    let i = match find_number(&page, 64 * index as usize + 8, count, number) {
        Ok(i) => i,
        Err(_) => return Ok(Some(value)),
    };
    if count == 1 {
        return match vacate(pages, kind, at, index, &mut page, steps) {
            Ok(()) => Ok(None),
            Err(fault) => Err(fault),
        };
    }
    let mut less = [0u8; PAGE];
    less.copy_from_slice(&page);
    narrow_fragment(&mut less, index, i);
    match lone_number(&less, 64 * index as usize) {
        Some(plain) => match vacate(pages, kind, at, index, &mut page, steps) {
            Ok(()) => Ok(Some(number_value(plain))),
            Err(fault) => Err(fault),
        },
        None => match write_page(pages, at, &less) {
            Ok(()) => Ok(Some(value)),
            Err(fault) => Err(fault),
        },
    }
}

/// Takes a number out of a chain. Seven numbers or fewer that are left become a fragment or a plain number.
fn remove_from_chain<P: Pages, L: Ledger>(
    pages: &mut P,
    kind: KeyKind,
    leaf: u64,
    value: i64,
    first: u64,
    number: u64,
    steps: &mut Steps<L>,
) -> Result<Option<i64>, TreeFault<P::Fault>>
    requires kind { IsTreeKind kind }
    requires link { link_in value ≡ Chain first }
    requires small { first < 2 ^ 62 }
    requires page { IsChild (P.size pages.old) first }
    ensures removed { (b : List ℕ) (t : Shape) (front back : List Row) (key : Key) → P.told pages.old ≡ Some b → Stored kind b t (front ++ ((key, value) ∷ back)) → tree_rows t ≡ front ++ ((key, value) ∷ back) → 1 ≤ times leaf (leaves_of t) → MatchResult result (λ o. (c : List ℕ) × (P.told pages.new ≡ Some c) × IsLessened kind b c t front key back (without_number number (values_in b value)) o) IsOfPages }
    ensures absent { (b : List ℕ) → P.told pages.old ≡ Some b → HasValues b value → times number (values_in b value) ≡ 0 → IfOk result (λ o. (o ≡ Some value) × (P.told pages.new ≡ P.told pages.old)) }
    ensures size { OnOk result (P.size pages.new ≡ P.size pages.old) }
    ensures refused { IfErr result (IsCut kind (P.told pages.new) (P.is_cause pages.old pages.new)) }
    ensures just_read { IsChild (P.size pages.old) leaf → IfErr result (IsJustRead (P.size pages.new) (P.last pages.new)) }
    ensures kept { Kept (P.counts pages.old) (P.counts pages.new) (P.frame pages.old) (P.frame pages.new) (P.goes_on pages.old pages.new) }
    ensures formed { (b : List ℕ) (t : Shape) (front back : List Row) (key : Key) → P.told pages.old ≡ Some b → Stored kind b t (front ++ ((key, value) ∷ back)) → 1 ≤ times number (values_in b value) → IfOk result (λ o. IfSome o (λ new. IsFormed (link_in new) (without_number number (values_in b value)))) }
    ensures place { (b : List ℕ) (t : Shape) (front back : List Row) (key : Key) (page i : ℕ) → P.told pages.old ≡ Some b → Stored kind b t (front ++ ((key, value) ∷ back)) → tree_rows t ≡ front ++ ((key, value) ∷ back) → 1 ≤ times leaf (leaves_of t) → IfOk result (λ o. IfSome o (λ new. link_in new ≡ Fragment page i → IsNamedIn b leaf page ⊎ ((page ≡ first) × IsCrowded b leaf))) }
    ensures linked { (b : List ℕ) (t : Shape) (front back : List Row) (key : Key) → P.told pages.old ≡ Some b → Stored kind b t (front ++ ((key, value) ∷ back)) → IsLinked b (link_in value) → IfOk result (λ o. IfSome o (λ new. IfSome (P.told pages.new) (λ c. IsLinked c (link_in new)))) }
{
    let mut page = [0u8; PAGE];
    let found = match locate(pages, kind, first, number, &mut page, steps) {
        Ok(Some(found)) => found,
        Ok(None) => return Ok(Some(value)),
        Err(fault) => return Err(fault),
    };
    let left = match lessen(pages, kind, value, found, &mut page, number, steps) {
        Ok(left) => left,
        Err(fault) => return Err(fault),
    };
    match left {
        Some(_) => {}
        None => return Ok(None),
    }
    match fold_all(pages, kind, first, number, steps) {
        Ok(()) => {}
        Err(fault) => return Err(fault),
    }
    match settle(pages, kind, leaf, value, first, number, steps) {
        Ok(new) => Ok(Some(new)),
        Err(fault) => Err(fault),
    }
}

/// Takes a number out of those that a value of a leaf means, and answers the value since, which the caller writes into
/// the row, or None where no number is left: then the caller writes a plain number. Where the number isn't there, nothing
/// changes. Pages that empty go to the free list, and none is appended: seven numbers that are left of a chain get a fragment
/// of a page that a value of the leaf names, or of the chain's first page. After a failure the stream may be half changed.
pub fn dups_remove<P: Pages, L: Ledger>(
    pages: &mut P,
    kind: KeyKind,
    leaf: u64,
    value: i64,
    number: u64,
    steps: &mut Steps<L>,
) -> Result<Option<i64>, TreeFault<P::Fault>>
    requires kind { IsTreeKind kind }
    ensures removed { (b : List ℕ) (t : Shape) (front back : List Row) (key : Key) → P.told pages.old ≡ Some b → Stored kind b t (front ++ ((key, value) ∷ back)) → tree_rows t ≡ front ++ ((key, value) ∷ back) → 1 ≤ times leaf (leaves_of t) → MatchResult result (λ o. (c : List ℕ) × (P.told pages.new ≡ Some c) × IsLessened kind b c t front key back (without_number number (values_in b value)) o) IsOfPages }
    ensures absent { (b : List ℕ) → P.told pages.old ≡ Some b → HasValues b value → times number (values_in b value) ≡ 0 → IfOk result (λ o. (o ≡ Some value) × (P.told pages.new ≡ P.told pages.old)) }
    ensures size { OnOk result (P.size pages.new ≡ P.size pages.old) }
    ensures refused { IfSome (P.told pages.old) (λ b. IsValueOf kind b leaf value) → IfErr result (IsCut kind (P.told pages.new) (P.is_cause pages.old pages.new)) }
    ensures just_read { IsChild (P.size pages.old) leaf → P.last pages.old ≡ leaf → IfErr result (IsJustRead (P.size pages.new) (P.last pages.new)) }
    ensures kept { Kept (P.counts pages.old) (P.counts pages.new) (P.frame pages.old) (P.frame pages.new) (P.goes_on pages.old pages.new) }
    ensures formed { (b : List ℕ) (t : Shape) (front back : List Row) (key : Key) → P.told pages.old ≡ Some b → Stored kind b t (front ++ ((key, value) ∷ back)) → 1 ≤ times number (values_in b value) → IfOk result (λ o. IfSome o (λ new. IsFormed (link_in new) (without_number number (values_in b value)))) }
    ensures place { (b : List ℕ) (t : Shape) (front back : List Row) (key : Key) (first page i : ℕ) → P.told pages.old ≡ Some b → Stored kind b t (front ++ ((key, value) ∷ back)) → tree_rows t ≡ front ++ ((key, value) ∷ back) → 1 ≤ times leaf (leaves_of t) → link_in value ≡ Chain first → IfOk result (λ o. IfSome o (λ new. link_in new ≡ Fragment page i → IsNamedIn b leaf page ⊎ ((page ≡ first) × IsCrowded b leaf))) }
    ensures linked { (b : List ℕ) (t : Shape) (front back : List Row) (key : Key) → P.told pages.old ≡ Some b → Stored kind b t (front ++ ((key, value) ∷ back)) → IsLinked b (link_in value) → IfOk result (λ o. IfSome o (λ new. IfSome (P.told pages.new) (λ c. IsLinked c (link_in new)))) }
{
    match link_of(value) {
        Link::Number(old) => {
            if old == number {
                Ok(None)
            } else {
                Ok(Some(value))
            }
        }
        Link::Fragment { page, index } => {
            if !is_child(page, pages.length()) {
                return Err(TreeFault::Damaged {
                    page: leaf,
                    kind: PageKind::Leaf,
                });
            }
            match remove_from_fragment(pages, kind, value, (page, index), number, steps) {
                Ok(new) => Ok(new),
                Err(fault) => Err(fault),
            }
        }
        Link::Chain { page } => {
            if !is_child(page, pages.length()) {
                return Err(TreeFault::Damaged {
                    page: leaf,
                    kind: PageKind::Leaf,
                });
            }
            match remove_from_chain(pages, kind, leaf, value, page, number, steps) {
                Ok(new) => Ok(new),
                Err(fault) => Err(fault),
            }
        }
        Link::Nothing => Err(TreeFault::Damaged {
            page: leaf,
            kind: PageKind::Leaf,
        }),
    }
}
