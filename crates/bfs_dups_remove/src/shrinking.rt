// Brings the numbers of a chain that are seven or fewer together, in its first page.
ghost use Rattle.std.specs.Prelude.{◌≡◌, ◌≤◌, ◌<◌, ◌++◌, ◌∷◌, ℕ, ℤ, List, Some, true, false, OnOk, IfOk, IfErr, IfSome, MatchResult};
ghost use Rattle.bfs_base.specs.Keys.{IsTreeKind};
ghost use Rattle.bfs_node.specs.Page.{Row};
ghost use Rattle.bfs_pages.specs.Answers.{IsChild, IsOfPages, IsJustRead};
ghost use Rattle.bfs_pages.specs.Order.{Key};
ghost use Rattle.bfs_pages.specs.Shapes.{Shape};
ghost use Rattle.bfs_pages.specs.Trees.{page_in};
ghost use Rattle.bfs_pages.specs.Writes.{Kept};
ghost use Rattle.bfs_values.specs.Chained.{IsLinked};
ghost use Rattle.bfs_values.specs.Kinds.{IsCut};
ghost use Rattle.bfs_values.specs.Links.{link_in};
ghost use Rattle.bfs_values.specs.Values.{page_count, HasNumbers, values_in};
ghost use Rattle.bfs_values.specs.declared.link.Link.TheVariants.{Chain};
ghost use Rattle.bfs_values.specs.Stored.{Stored, IsRevalued};
ghost use Rattle.bfs_dups_remove.specs.Shortened.{IsFolded};

use crate::chains::absorb;
use crate::unlinking::{Gone, pass_page};
use bfs_dups::look_at;
use bfs_node::{KeyKind, PAGE, TreeFault};
use bfs_txn::{Pages, Steps};
use std::sync::ledger::Ledger;

/// Moves the numbers of the second page of a chain to the first one, where both have seven or fewer, and gives the second one
/// back. Tells whether it did.
pub fn fold_next<P: Pages, L: Ledger>(
    pages: &mut P,
    kind: KeyKind,
    first: u64,
    number: u64,
    steps: &mut Steps<L>,
) -> Result<bool, TreeFault<P::Fault>>
    requires kind { IsTreeKind kind }
    requires first { IsChild (P.size pages.old) first }
    ensures folded { (b : List ℕ) (t : Shape) (front back : List Row) (key : Key) (value : ℤ) → P.told pages.old ≡ Some b → Stored kind b t (front ++ ((key, value) ∷ back)) → link_in value ≡ Chain first → MatchResult result (λ more. (c : List ℕ) × (P.told pages.new ≡ Some c) × IsRevalued kind b c t front key back value (values_in b value)) IsOfPages }
    ensures size { OnOk result (P.size pages.new ≡ P.size pages.old) }
    ensures refused { IfErr result (IsCut kind (P.told pages.new) (P.is_cause pages.old pages.new)) }
    ensures just_read { IfErr result (IsJustRead (P.size pages.new) (P.last pages.new)) }
    ensures kept { Kept (P.counts pages.old) (P.counts pages.new) (P.frame pages.old) (P.frame pages.new) (P.goes_on pages.old pages.new) }
    ensures done { (b : List ℕ) → P.told pages.old ≡ Some b → HasNumbers b (Chain first) → IfOk result (λ more. more ≡ false → IfSome (P.told pages.new) (λ c. IsFolded c first)) }
    ensures grown { (b : List ℕ) (t : Shape) (front back : List Row) (key : Key) (value : ℤ) → P.told pages.old ≡ Some b → Stored kind b t (front ++ ((key, value) ∷ back)) → link_in value ≡ Chain first → IfOk result (λ more. more ≡ true → IfSome (P.told pages.new) (λ c. page_count (page_in b first) < page_count (page_in c first))) }
    ensures linked { (b : List ℕ) (t : Shape) (front back : List Row) (key : Key) (value : ℤ) → P.told pages.old ≡ Some b → Stored kind b t (front ++ ((key, value) ∷ back)) → link_in value ≡ Chain first → IsLinked b (Chain first) → OnOk result (IfSome (P.told pages.new) (λ c. IsLinked c (Chain first))) }
{
    let mut page = [0u8; PAGE];
    let seen = match look_at(pages, kind, first, number, &mut page, steps) {
        Ok(seen) => seen,
        Err(fault) => return Err(fault),
    };
    if seen.next == 0 {
        return Ok(false);
    }
    let mut other = [0u8; PAGE];
    let behind = match look_at(pages, kind, seen.next, number, &mut other, steps) {
        Ok(behind) => behind,
        Err(fault) => return Err(fault),
    };
    if seen.count + behind.count > 7 {
        return Ok(false);
    }
    absorb(&mut page, &other);
    let gone = Gone {
        at: seen.next,
        next: behind.next,
    };
    match pass_page(pages, kind, first, &mut page, gone, &other, steps) {
        Ok(()) => Ok(true),
        Err(fault) => Err(fault),
    }
}

/// Moves the numbers of the next pages of a chain to its first one, as long as that one has seven or fewer.
pub fn fold_all<P: Pages, L: Ledger>(
    pages: &mut P,
    kind: KeyKind,
    first: u64,
    number: u64,
    steps: &mut Steps<L>,
) -> Result<(), TreeFault<P::Fault>>
    requires kind { IsTreeKind kind }
    requires first { IsChild (P.size pages.old) first }
    ensures folded { (b : List ℕ) (t : Shape) (front back : List Row) (key : Key) (value : ℤ) → P.told pages.old ≡ Some b → Stored kind b t (front ++ ((key, value) ∷ back)) → link_in value ≡ Chain first → MatchResult result (λ done. (c : List ℕ) × (P.told pages.new ≡ Some c) × IsRevalued kind b c t front key back value (values_in b value)) IsOfPages }
    ensures size { OnOk result (P.size pages.new ≡ P.size pages.old) }
    ensures refused { IfErr result (IsCut kind (P.told pages.new) (P.is_cause pages.old pages.new)) }
    ensures just_read { IfErr result (IsJustRead (P.size pages.new) (P.last pages.new)) }
    ensures kept { Kept (P.counts pages.old) (P.counts pages.new) (P.frame pages.old) (P.frame pages.new) (P.goes_on pages.old pages.new) }
    ensures formed { (b : List ℕ) (t : Shape) (front back : List Row) (key : Key) (value : ℤ) → P.told pages.old ≡ Some b → Stored kind b t (front ++ ((key, value) ∷ back)) → link_in value ≡ Chain first → OnOk result (IfSome (P.told pages.new) (λ c. IsFolded c first)) }
    ensures linked { (b : List ℕ) (t : Shape) (front back : List Row) (key : Key) (value : ℤ) → P.told pages.old ≡ Some b → Stored kind b t (front ++ ((key, value) ∷ back)) → link_in value ≡ Chain first → IsLinked b (Chain first) → OnOk result (IfSome (P.told pages.new) (λ c. IsLinked c (Chain first))) }
{
    let mut left = 6u32;
    while left > 0 {
        let more = match fold_next(pages, kind, first, number, steps) {
            Ok(more) => more,
            Err(fault) => return Err(fault),
        };
        if !more {
            return Ok(());
        }
        left -= 1;
    }
    Ok(())
}
