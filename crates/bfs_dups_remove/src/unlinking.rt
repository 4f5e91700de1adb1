// Takes a number out of a page of a chain, and the page with it where that was its only one.
ghost use Rattle.std.specs.Prelude.{◌≡◌, ◌≢◌, ◌≤◌, ◌<◌, ◌^◌, ◌++◌, ◌∷◌, [], ℕ, ℤ, List, Some, length, OnOk, IfOk, IfErr, IfSome, MatchResult};
ghost use Rattle.bfs_base.specs.Keys.{IsTreeKind};
ghost use Rattle.bfs_base.specs.Lists.{times, IsOnce};
ghost use Rattle.bfs_node.specs.Page.{Row};
ghost use Rattle.bfs_pages.specs.Answers.{IsChild, IsLink, IsOfPages, IsJustRead};
ghost use Rattle.bfs_pages.specs.Order.{Key};
ghost use Rattle.bfs_pages.specs.Shapes.{Shape};
ghost use Rattle.bfs_pages.specs.Trees.{page_in, neighbours_in};
ghost use Rattle.bfs_pages.specs.Writes.{Kept};
ghost use Rattle.bfs_values.specs.Chained.{IsLinked};
ghost use Rattle.bfs_values.specs.Kinds.{IsCut};
ghost use Rattle.bfs_values.specs.Links.{link_in};
ghost use Rattle.bfs_values.specs.Values.{IsDuplicates, page_count, page_numbers, chain_of, numbers_of_pages, in_order, values_in};
ghost use Rattle.bfs_values.specs.declared.link.Link.TheVariants.{Chain};
ghost use Rattle.bfs_values.specs.Stored.{Stored, IsRevalued};
ghost use Rattle.bfs_dups_remove.specs.Lessened.{without_number, IsLessened};
ghost use Rattle.bfs_dups_remove.specs.Shortened.{IsLocated};

use crate::chains::take_numbers;
use crate::freeing::{free_page, mend_left, pass_by};
use crate::lessening::narrow_page;
use crate::locating::Located;
use bfs_dups::{find_number, look_at, read_page};
use bfs_node::{KeyKind, PAGE, TreeFault};
use bfs_pages::write_page;
use bfs_txn::{Pages, Steps};
use std::sync::ledger::Ledger;

/// The page behind one of a chain that goes, and the one behind that, or 0 for none.
#[derive(Clone, Copy, Debug, PartialEq, Eq)]
pub struct Gone {
    pub at: u64,
    pub next: u64,
}

/// Takes the page behind a page of a chain out of it, gives it back, and writes the left link of the page behind it. The bytes
/// of both are given.
pub fn pass_page<P: Pages, L: Ledger>(
    pages: &mut P,
    kind: KeyKind,
    at: u64,
    page: &mut [u8],
    gone: Gone,
    other: &[u8],
    steps: &mut Steps<L>,
) -> Result<(), TreeFault<P::Fault>>
    requires kind { IsTreeKind kind }
    requires at { IsChild (P.size pages.old) at }
    requires page { length page.old ≡ 1024 }
    requires gone { IsChild (P.size pages.old) gone.at }
    requires next { IsLink (P.size pages.old) gone.next }
    requires other { length other.now ≡ 1024 }
    requires behind { gone.next ≡ (neighbours_in other.now).1 }
    ensures passed { (b : List ℕ) (t : Shape) (front back : List Row) (key : Key) (value : ℤ) (first : ℕ) (us xs : List ℕ) → P.told pages.old ≡ Some b → Stored kind b t (front ++ ((key, value) ∷ back)) → link_in value ≡ Chain first → chain_of b first ≡ us ++ (at ∷ (gone.at ∷ xs)) → IsDuplicates page.old → other.now ≡ page_in b gone.at → IsOnce (numbers_of_pages b us ++ (page_numbers page.old ++ numbers_of_pages b xs)) → MatchResult result (λ done. (c : List ℕ) × (P.told pages.new ≡ Some c) × IsRevalued kind b c t front key back value (in_order (numbers_of_pages b us ++ (page_numbers page.old ++ numbers_of_pages b xs)))) IsOfPages }
    ensures left { (b : List ℕ) → P.told pages.old ≡ Some b → IsDuplicates page.old → other.now ≡ page_in b gone.at → 1 ≤ gone.next → at < 2 ^ 63 → OnOk result (IfSome (P.told pages.new) (λ c. (neighbours_in (page_in c gone.next)).0 ≡ at)) }
    ensures size { OnOk result (P.size pages.new ≡ P.size pages.old) }
    ensures refused { IfErr result (IsCut kind (P.told pages.new) (P.is_cause pages.old pages.new)) }
    ensures just_read { IfErr result (IsJustRead (P.size pages.new) (P.last pages.new)) }
    ensures kept { Kept (P.counts pages.old) (P.counts pages.new) (P.frame pages.old) (P.frame pages.new) (P.goes_on pages.old pages.new) }
    ensures written { (b : List ℕ) (t : Shape) (front back : List Row) (key : Key) (value : ℤ) (first : ℕ) (us xs : List ℕ) → P.told pages.old ≡ Some b → Stored kind b t (front ++ ((key, value) ∷ back)) → link_in value ≡ Chain first → chain_of b first ≡ us ++ (at ∷ (gone.at ∷ xs)) → IsDuplicates page.old → other.now ≡ page_in b gone.at → IsOnce (numbers_of_pages b us ++ (page_numbers page.old ++ numbers_of_pages b xs)) → OnOk result (IfSome (P.told pages.new) (λ c. page_numbers (page_in c at) ≡ page_numbers page.old)) }
    ensures linked { (b : List ℕ) (t : Shape) (front back : List Row) (key : Key) (value : ℤ) (first : ℕ) (us xs : List ℕ) → P.told pages.old ≡ Some b → Stored kind b t (front ++ ((key, value) ∷ back)) → link_in value ≡ Chain first → chain_of b first ≡ us ++ (at ∷ (gone.at ∷ xs)) → IsDuplicates page.old → other.now ≡ page_in b gone.at → IsOnce (numbers_of_pages b us ++ (page_numbers page.old ++ numbers_of_pages b xs)) → (neighbours_in page.old).0 ≡ (neighbours_in (page_in b at)).0 → IsLinked b (Chain first) → OnOk result (IfSome (P.told pages.new) (λ c. IsLinked c (Chain first))) }
{
    match pass_by(pages, kind, at, page, gone.at, other, steps) {
        Ok(()) => {}
        Err(fault) => return Err(fault),
    }
    if gone.next == 0 {
        return Ok(());
    }
    match mend_left(pages, gone.next, at, steps) {
        Ok(()) => Ok(()),
        Err(fault) => Err(fault),
    }
}

/// Takes a number out of a page of a chain that has two or more.
pub fn lessen_page<P: Pages>(
    pages: &mut P,
    kind: KeyKind,
    value: i64,
    found: Located,
    page: &mut [u8],
    number: u64,
) -> Result<Option<i64>, TreeFault<P::Fault>>
    requires at { IsChild (P.size pages.old) found.at }
    requires page { length page.old ≡ 1024 }
    requires good { IsDuplicates page.old }
    requires count { found.count ≡ page_count page.old }
    requires some { 2 ≤ found.count }
    requires there { 1 ≤ times number (page_numbers page.old) }
    ensures lessened { (b : List ℕ) (t : Shape) (front back : List Row) (key : Key) (first : ℕ) → P.told pages.old ≡ Some b → Stored kind b t (front ++ ((key, value) ∷ back)) → link_in value ≡ Chain first → IsLocated (chain_of b first) found.at found.before → page.old ≡ page_in b found.at → MatchResult result (λ o. (c : List ℕ) × (P.told pages.new ≡ Some c) × IsLessened kind b c t front key back (without_number number (values_in b value)) o) IsOfPages }
    ensures size { OnOk result (P.size pages.new ≡ P.size pages.old) }
    ensures refused { IfErr result (IsCut kind (P.told pages.new) (P.is_cause pages.old pages.new)) }
    ensures just_read { IfErr result (IsJustRead (P.size pages.new) (P.last pages.new)) }
    ensures kept { Kept (P.counts pages.old) (P.counts pages.new) (P.frame pages.old) (P.frame pages.new) (P.goes_on pages.old pages.new) }
    ensures same { IfOk result (λ o. IfSome o (λ v. v ≡ value)) }
    ensures linked { (b : List ℕ) (t : Shape) (front back : List Row) (key : Key) (first : ℕ) → P.told pages.old ≡ Some b → Stored kind b t (front ++ ((key, value) ∷ back)) → link_in value ≡ Chain first → IsLocated (chain_of b first) found.at found.before → page.old ≡ page_in b found.at → IsLinked b (Chain first) → IfOk result (λ o. IfSome o (λ v. IfSome (P.told pages.new) (λ c. IsLinked c (Chain first)))) }
{
    match find_number(page, 24, found.count, number) {
        Ok(i) => {
            narrow_page(page, i);
            match write_page(pages, found.at, page) {
                Ok(()) => Ok(Some(value)),
                Err(fault) => Err(fault),
            }
        }
        Err(_) => Ok(Some(value)),
    }
}

/// Takes a page of one number, which is not the first one, out of its chain.
pub fn leave_page<P: Pages, L: Ledger>(
    pages: &mut P,
    kind: KeyKind,
    value: i64,
    found: Located,
    page: &[u8],
    number: u64,
    steps: &mut Steps<L>,
) -> Result<Option<i64>, TreeFault<P::Fault>>
    requires kind { IsTreeKind kind }
    requires at { IsChild (P.size pages.old) found.at }
    requires before { IsChild (P.size pages.old) found.before }
    requires next { IsLink (P.size pages.old) found.next }
    requires page { length page.now ≡ 1024 }
    requires behind { found.next ≡ (neighbours_in page.now).1 }
    requires count { page_count page.now ≡ 1 }
    requires there { 1 ≤ times number (page_numbers page.now) }
    ensures lessened { (b : List ℕ) (t : Shape) (front back : List Row) (key : Key) (first : ℕ) → P.told pages.old ≡ Some b → Stored kind b t (front ++ ((key, value) ∷ back)) → link_in value ≡ Chain first → IsLocated (chain_of b first) found.at found.before → page.now ≡ page_in b found.at → MatchResult result (λ o. (c : List ℕ) × (P.told pages.new ≡ Some c) × IsLessened kind b c t front key back (without_number number (values_in b value)) o) IsOfPages }
    ensures size { OnOk result (P.size pages.new ≡ P.size pages.old) }
    ensures refused { IfErr result (IsCut kind (P.told pages.new) (P.is_cause pages.old pages.new)) }
    ensures just_read { IfErr result (IsJustRead (P.size pages.new) (P.last pages.new)) }
    ensures kept { Kept (P.counts pages.old) (P.counts pages.new) (P.frame pages.old) (P.frame pages.new) (P.goes_on pages.old pages.new) }
    ensures same { IfOk result (λ o. IfSome o (λ v. v ≡ value)) }
    ensures linked { (b : List ℕ) (t : Shape) (front back : List Row) (key : Key) (first : ℕ) → P.told pages.old ≡ Some b → Stored kind b t (front ++ ((key, value) ∷ back)) → link_in value ≡ Chain first → IsLocated (chain_of b first) found.at found.before → page.now ≡ page_in b found.at → IsLinked b (Chain first) → IfOk result (λ o. IfSome o (λ v. IfSome (P.told pages.new) (λ c. IsLinked c (Chain first)))) }
{
    let mut prior = [0u8; PAGE];
    match read_page(pages, found.before, &mut prior, steps) {
        Ok(()) => {}
        Err(fault) => return Err(fault),
    }
    let gone = Gone {
        at: found.at,
        next: found.next,
    };
    match pass_page(pages, kind, found.before, &mut prior, gone, page, steps) {
        Ok(()) => Ok(Some(value)),
        Err(fault) => Err(fault),
    }
}

/// Takes the only number of a chain's first page out: the numbers of the next page come there, and that one is given back.
/// Where there is no next page, no number is left, and the first page is given back.
pub fn leave_first<P: Pages, L: Ledger>(
    pages: &mut P,
    kind: KeyKind,
    value: i64,
    found: Located,
    page: &mut [u8],
    number: u64,
    steps: &mut Steps<L>,
) -> Result<Option<i64>, TreeFault<P::Fault>>
    requires kind { IsTreeKind kind }
    requires at { IsChild (P.size pages.old) found.at }
    requires before { found.before ≡ 0 }
    requires next { IsLink (P.size pages.old) found.next }
    requires page { length page.old ≡ 1024 }
    requires behind { found.next ≡ (neighbours_in page.old).1 }
    requires count { page_count page.old ≡ 1 }
    requires there { 1 ≤ times number (page_numbers page.old) }
    ensures lessened { (b : List ℕ) (t : Shape) (front back : List Row) (key : Key) (first : ℕ) → P.told pages.old ≡ Some b → Stored kind b t (front ++ ((key, value) ∷ back)) → link_in value ≡ Chain first → IsLocated (chain_of b first) found.at found.before → page.old ≡ page_in b found.at → MatchResult result (λ o. (c : List ℕ) × (P.told pages.new ≡ Some c) × IsLessened kind b c t front key back (without_number number (values_in b value)) o) IsOfPages }
    ensures size { OnOk result (P.size pages.new ≡ P.size pages.old) }
    ensures refused { IfErr result (IsCut kind (P.told pages.new) (P.is_cause pages.old pages.new)) }
    ensures just_read { IfErr result (IsJustRead (P.size pages.new) (P.last pages.new)) }
    ensures kept { Kept (P.counts pages.old) (P.counts pages.new) (P.frame pages.old) (P.frame pages.new) (P.goes_on pages.old pages.new) }
    ensures same { IfOk result (λ o. IfSome o (λ v. v ≡ value)) }
    ensures linked { (b : List ℕ) (t : Shape) (front back : List Row) (key : Key) (first : ℕ) → P.told pages.old ≡ Some b → Stored kind b t (front ++ ((key, value) ∷ back)) → link_in value ≡ Chain first → IsLocated (chain_of b first) found.at found.before → page.old ≡ page_in b found.at → IsLinked b (Chain first) → IfOk result (λ o. IfSome o (λ v. IfSome (P.told pages.new) (λ c. IsLinked c (Chain first)))) }
{
    if found.next == 0 {
        return match free_page(pages, kind, found.at, steps) {
            Ok(()) => Ok(None),
            Err(fault) => Err(fault),
        };
    }
    let mut other = [0u8; PAGE];
    let seen = match look_at(pages, kind, found.next, number, &mut other, steps) {
        Ok(seen) => seen,
        Err(fault) => return Err(fault),
    };
    take_numbers(page, &other);
    let gone = Gone {
        at: found.next,
        next: seen.next,
    };
    match pass_page(pages, kind, found.at, page, gone, &other, steps) {
        Ok(()) => Ok(Some(value)),
        Err(fault) => Err(fault),
    }
}

/// Takes a number out of the page of a chain that has it, whose bytes are given, and the page with it where that was its only
/// one.
pub fn lessen<P: Pages, L: Ledger>(
    pages: &mut P,
    kind: KeyKind,
    value: i64,
    found: Located,
    page: &mut [u8],
    number: u64,
    steps: &mut Steps<L>,
) -> Result<Option<i64>, TreeFault<P::Fault>>
    requires kind { IsTreeKind kind }
    requires at { IsChild (P.size pages.old) found.at }
    requires before { IsLink (P.size pages.old) found.before }
    requires next { IsLink (P.size pages.old) found.next }
    requires page { length page.old ≡ 1024 }
    requires good { IsDuplicates page.old }
    requires behind { found.next ≡ (neighbours_in page.old).1 }
    requires count { found.count ≡ page_count page.old }
    requires there { 1 ≤ times number (page_numbers page.old) }
    ensures lessened { (b : List ℕ) (t : Shape) (front back : List Row) (key : Key) (first : ℕ) → P.told pages.old ≡ Some b → Stored kind b t (front ++ ((key, value) ∷ back)) → link_in value ≡ Chain first → IsLocated (chain_of b first) found.at found.before → page.old ≡ page_in b found.at → MatchResult result (λ o. (c : List ℕ) × (P.told pages.new ≡ Some c) × IsLessened kind b c t front key back (without_number number (values_in b value)) o) IsOfPages }
    ensures size { OnOk result (P.size pages.new ≡ P.size pages.old) }
    ensures refused { IfErr result (IsCut kind (P.told pages.new) (P.is_cause pages.old pages.new)) }
    ensures just_read { IfErr result (IsJustRead (P.size pages.new) (P.last pages.new)) }
    ensures kept { Kept (P.counts pages.old) (P.counts pages.new) (P.frame pages.old) (P.frame pages.new) (P.goes_on pages.old pages.new) }
    ensures same { IfOk result (λ o. IfSome o (λ v. v ≡ value)) }
    ensures linked { (b : List ℕ) (t : Shape) (front back : List Row) (key : Key) (first : ℕ) → P.told pages.old ≡ Some b → Stored kind b t (front ++ ((key, value) ∷ back)) → link_in value ≡ Chain first → IsLocated (chain_of b first) found.at found.before → page.old ≡ page_in b found.at → IsLinked b (Chain first) → IfOk result (λ o. IfSome o (λ v. IfSome (P.told pages.new) (λ c. IsLinked c (Chain first)))) }
{
    if found.count > 1 {
        return match lessen_page(pages, kind, value, found, page, number) {
            Ok(left) => Ok(left),
            Err(fault) => Err(fault),
        };
    }
    if found.before > 0 {
        return match leave_page(pages, kind, value, found, page, number, steps) {
            Ok(left) => Ok(left),
            Err(fault) => Err(fault),
        };
    }
    match leave_first(pages, kind, value, found, page, number, steps) {
        Ok(left) => Ok(left),
        Err(fault) => Err(fault),
    }
}
