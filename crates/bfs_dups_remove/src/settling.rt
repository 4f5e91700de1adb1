// Makes a plain number or a fragment of a chain of one page with seven numbers or fewer.
ghost use Rattle.std.specs.Prelude.{◌≡◌, ◌⊎◌, ◌≤◌, ◌<◌, ◌^◌, ◌++◌, ◌∷◌, [], ℕ, ℤ, List, Some, length, OnOk, IfOk, IfErr, IfSome, MatchResult};
ghost use Rattle.bfs_base.specs.Keys.{IsTreeKind};
ghost use Rattle.bfs_base.specs.Lists.{times};
ghost use Rattle.bfs_node.specs.Page.{Row};
ghost use Rattle.bfs_pages.specs.Answers.{IsChild, IsOfPages, IsJustRead};
ghost use Rattle.bfs_pages.specs.Order.{Key};
ghost use Rattle.bfs_pages.specs.Shapes.{Shape, tree_rows, leaves_of};
ghost use Rattle.bfs_pages.specs.Trees.{page_in};
ghost use Rattle.bfs_pages.specs.Writes.{Kept};
ghost use Rattle.bfs_values.specs.Chained.{IsLinked};
ghost use Rattle.bfs_values.specs.Kinds.{IsCut};
ghost use Rattle.bfs_values.specs.Links.{link_in};
ghost use Rattle.bfs_values.specs.Values.{IsDuplicates, fragment_count, page_count, page_numbers, chain_of, HasValues, values_in};
ghost use Rattle.bfs_values.specs.declared.link.Link.TheVariants.{Fragment, Chain};
ghost use Rattle.bfs_values.specs.Formed.{AreFew, IsFormed};
ghost use Rattle.bfs_values.specs.Named.{IsNamedIn, IsCrowded};
ghost use Rattle.bfs_values.specs.Stored.{Stored, IsRevalued};
ghost use Rattle.bfs_dups_remove.specs.Shortened.{IsFolded};

use crate::freeing::free_page;
use crate::lessening::{copy_list, lone_number};
use bfs_dups::{Slot, find_vacant, fragment_value, free_all, look_at, number_value};
use bfs_node::{KeyKind, PAGE, TreeFault};
use bfs_pages::write_page;
use bfs_txn::{Pages, Steps};
use std::sync::ledger::Ledger;

/// Moves the numbers of the only page of a chain to a free fragment, whose page's bytes are given too.
pub fn move_to_slot<P: Pages, L: Ledger>(
    pages: &mut P,
    kind: KeyKind,
    first: u64,
    page: &[u8],
    slot: Slot,
    room: &mut [u8],
    steps: &mut Steps<L>,
) -> Result<i64, TreeFault<P::Fault>>
    requires kind { IsTreeKind kind }
    requires first { IsChild (P.size pages.old) first }
    requires page { length page.now ≡ 1024 }
    requires good { IsDuplicates page.now }
    requires few { page_count page.now ≤ 7 }
    requires slot { IsChild (P.size pages.old) slot.page }
    requires link { slot.page < 2 ^ 62 }
    requires index { slot.index < 16 }
    requires room { length room.old ≡ 1024 }
    requires free { fragment_count room.old slot.index ≡ 0 }
    ensures moved { (b : List ℕ) (t : Shape) (front back : List Row) (key : Key) (value : ℤ) (leaf : ℕ) → P.told pages.old ≡ Some b → Stored kind b t (front ++ ((key, value) ∷ back)) → link_in value ≡ Chain first → chain_of b first ≡ first ∷ [] → tree_rows t ≡ front ++ ((key, value) ∷ back) → 1 ≤ times leaf (leaves_of t) → IsNamedIn b leaf slot.page → page.now ≡ page_in b first → room.old ≡ page_in b slot.page → MatchResult result (λ new. (c : List ℕ) × (P.told pages.new ≡ Some c) × IsRevalued kind b c t front key back new (values_in b value)) IsOfPages }
    ensures size { OnOk result (P.size pages.new ≡ P.size pages.old) }
    ensures refused { IfErr result (IsCut kind (P.told pages.new) (P.is_cause pages.old pages.new)) }
    ensures just_read { IfErr result (IsJustRead (P.size pages.new) (P.last pages.new)) }
    ensures kept { Kept (P.counts pages.old) (P.counts pages.new) (P.frame pages.old) (P.frame pages.new) (P.goes_on pages.old pages.new) }
    ensures formed { AreFew (page_numbers page.now) → IfOk result (λ new. IsFormed (link_in new) (page_numbers page.now)) }
    ensures place { IfOk result (λ new. link_in new ≡ Fragment slot.page slot.index) }
{
    match free_page(pages, kind, first, steps) {
        Ok(()) => {}
        Err(fault) => return Err(fault),
    }
    copy_list(page, room, slot.index);
    match write_page(pages, slot.page, room) {
        Ok(()) => Ok(fragment_value(slot.page, slot.index)),
        Err(fault) => Err(fault),
    }
}

/// Gives the numbers of the only page of a chain a fragment: a free one of a page that a value of the same leaf names, or the
/// first one of that very page.
pub fn settle_few<P: Pages, L: Ledger>(
    pages: &mut P,
    kind: KeyKind,
    leaf: u64,
    first: u64,
    page: &[u8],
    steps: &mut Steps<L>,
) -> Result<i64, TreeFault<P::Fault>>
    requires kind { IsTreeKind kind }
    requires first { IsChild (P.size pages.old) first }
    requires link { first < 2 ^ 62 }
    requires page { length page.now ≡ 1024 }
    requires good { IsDuplicates page.now }
    requires few { page_count page.now ≤ 7 }
    ensures settled { (b : List ℕ) (t : Shape) (front back : List Row) (key : Key) (value : ℤ) → P.told pages.old ≡ Some b → Stored kind b t (front ++ ((key, value) ∷ back)) → link_in value ≡ Chain first → chain_of b first ≡ first ∷ [] → tree_rows t ≡ front ++ ((key, value) ∷ back) → 1 ≤ times leaf (leaves_of t) → page.now ≡ page_in b first → MatchResult result (λ new. (c : List ℕ) × (P.told pages.new ≡ Some c) × IsRevalued kind b c t front key back new (values_in b value)) IsOfPages }
    ensures size { OnOk result (P.size pages.new ≡ P.size pages.old) }
    ensures refused { IfErr result (IsCut kind (P.told pages.new) (P.is_cause pages.old pages.new)) }
    ensures just_read { IsChild (P.size pages.old) leaf → IfErr result (IsJustRead (P.size pages.new) (P.last pages.new)) }
    ensures kept { Kept (P.counts pages.old) (P.counts pages.new) (P.frame pages.old) (P.frame pages.new) (P.goes_on pages.old pages.new) }
    ensures formed { AreFew (page_numbers page.now) → IfOk result (λ new. IsFormed (link_in new) (page_numbers page.now)) }
    ensures place { (b : List ℕ) → P.told pages.old ≡ Some b → IfOk result (λ new. (page i : ℕ) × (link_in new ≡ Fragment page i) × (IsNamedIn b leaf page ⊎ ((page ≡ first) × IsCrowded b leaf))) }
{
    let mut room = [0u8; PAGE];
    match find_vacant(pages, kind, leaf, &mut room, steps) {
        Ok(Some(slot)) => match move_to_slot(pages, kind, first, page, slot, &mut room, steps) {
            Ok(new) => Ok(new),
            Err(fault) => Err(fault),
        },
        Ok(None) => {
            let mut few = [0u8; PAGE];
            free_all(&mut few);
            copy_list(page, &mut few, 0);
            match write_page(pages, first, &few) {
                Ok(()) => Ok(fragment_value(first, 0)),
                Err(fault) => Err(fault),
            }
        }
        Err(fault) => Err(fault),
    }
}

/// Makes a plain number or a fragment of a chain that has one page with seven numbers or fewer, and leaves any other one.
/// Answers the value since.
pub fn settle<P: Pages, L: Ledger>(
    pages: &mut P,
    kind: KeyKind,
    leaf: u64,
    value: i64,
    first: u64,
    number: u64,
    steps: &mut Steps<L>,
) -> Result<i64, TreeFault<P::Fault>>
    requires kind { IsTreeKind kind }
    requires first { IsChild (P.size pages.old) first }
    requires link { link_in value ≡ Chain first }
    requires small { first < 2 ^ 62 }
    ensures settled { (b : List ℕ) (t : Shape) (front back : List Row) (key : Key) → P.told pages.old ≡ Some b → Stored kind b t (front ++ ((key, value) ∷ back)) → tree_rows t ≡ front ++ ((key, value) ∷ back) → 1 ≤ times leaf (leaves_of t) → MatchResult result (λ new. (c : List ℕ) × (P.told pages.new ≡ Some c) × IsRevalued kind b c t front key back new (values_in b value)) IsOfPages }
    ensures size { OnOk result (P.size pages.new ≡ P.size pages.old) }
    ensures refused { IfErr result (IsCut kind (P.told pages.new) (P.is_cause pages.old pages.new)) }
    ensures just_read { IsChild (P.size pages.old) leaf → IfErr result (IsJustRead (P.size pages.new) (P.last pages.new)) }
    ensures kept { Kept (P.counts pages.old) (P.counts pages.new) (P.frame pages.old) (P.frame pages.new) (P.goes_on pages.old pages.new) }
    ensures formed { (b : List ℕ) → P.told pages.old ≡ Some b → HasValues b value → IsFolded b first → IfOk result (λ new. IsFormed (link_in new) (values_in b value)) }
    ensures place { (b : List ℕ) (page i : ℕ) → P.told pages.old ≡ Some b → IfOk result (λ new. link_in new ≡ Fragment page i → IsNamedIn b leaf page ⊎ ((page ≡ first) × IsCrowded b leaf)) }
    ensures linked { (b : List ℕ) → P.told pages.old ≡ Some b → IsLinked b (link_in value) → IfOk result (λ new. IfSome (P.told pages.new) (λ c. IsLinked c (link_in new))) }
{
    let mut page = [0u8; PAGE];
    let seen = match look_at(pages, kind, first, number, &mut page, steps) {
        Ok(seen) => seen,
        Err(fault) => return Err(fault),
    };
    if seen.next != 0 {
        return Ok(value);
    }
    if seen.count > 7 {
        return Ok(value);
    }
    match lone_number(&page, 16) {
        Some(plain) => match free_page(pages, kind, first, steps) {
            Ok(()) => Ok(number_value(plain)),
            Err(fault) => Err(fault),
        },
        None => match settle_few(pages, kind, leaf, first, &page, steps) {
            Ok(new) => Ok(new),
            Err(fault) => Err(fault),
        },
    }
}
