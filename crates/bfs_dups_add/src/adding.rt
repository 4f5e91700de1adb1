// Adds a number to those that a value means.
ghost use Rattle.std.specs.Prelude.{◌≡◌, ◌≢◌, ◌⊎◌, ◌≤◌, ◌<◌, ◌+◌, ◌^◌, ◌++◌, ◌∷◌, [], ℕ, List, Some, length, OnOk, IfOk, IfErr, IfSome, MatchResult};
ghost use Rattle.bfs_base.specs.Keys.{IsTreeKind};
ghost use Rattle.bfs_base.specs.Lists.{times};
ghost use Rattle.bfs_node.specs.Page.{Row};
ghost use Rattle.bfs_pages.specs.Answers.{IsChild, IsRefused, IsBlamed};
ghost use Rattle.bfs_pages.specs.Order.{Key};
ghost use Rattle.bfs_pages.specs.Shapes.{Shape, tree_rows, leaves_of};
ghost use Rattle.bfs_pages.specs.Writes.{Kept, IsGrown};
ghost use Rattle.bfs_values.specs.Kinds.{IsValueOf, IsCut};
ghost use Rattle.bfs_values.specs.Links.{link_in};
ghost use Rattle.bfs_values.specs.Values.{HasValues, values_in, placed};
ghost use Rattle.bfs_values.specs.declared.link.Link.TheVariants.{Number, Fragment, Chain};
ghost use Rattle.bfs_values.specs.Chained.{IsLinked};
ghost use Rattle.bfs_values.specs.Formed.{IsFormed};
ghost use Rattle.bfs_values.specs.Named.{IsNamedIn, IsCrowded};
ghost use Rattle.bfs_values.specs.Stored.{Stored, IsRevalued, IsScant, with_number};

use crate::making::{page_of_fragment, page_of_pair, set_pair, widen_fragment};
use crate::paging::put_page;
use crate::scan::scan_chain;
use crate::steps::{extend, raise, widen};
use bfs_dups::{chain_value, find_number, find_vacant, fragment_value, read_page};
use bfs_node::{KeyKind, PAGE, PageKind, TreeFault};
use bfs_pages::{is_child, write_page};
use bfs_txn::{Pages, Steps};
use bfs_values::{Link, fragment_size, link_of};
use std::sync::ledger::Ledger;

/// Two different numbers, the lesser first.
fn ascending(a: u64, b: u64) -> (u64, u64)
    requires { b ≢ a }
    ensures order { result.0 < result.1 }
    ensures numbers { placed b (a ∷ []) ≡ result.0 ∷ (result.1 ∷ []) }
{
    if a < b { (a, b) } else { (b, a) }
}

/// Adds a number to a plain number: both get a fragment, in a page that a value of the same leaf names, or in a new one.
fn add_to_number<P: Pages, L: Ledger>(
    pages: &mut P,
    kind: KeyKind,
    leaf: u64,
    value: i64,
    old: u64,
    number: u64,
    steps: &mut Steps<L>,
) -> Result<i64, TreeFault<P::Fault>>
    requires kind { IsTreeKind kind }
    requires link { link_in value ≡ Number old }
    ensures added { (b : List ℕ) (t : Shape) (front back : List Row) (key : Key) → P.told pages.old ≡ Some b → Stored kind b t (front ++ ((key, value) ∷ back)) → tree_rows t ≡ front ++ ((key, value) ∷ back) → 1 ≤ times leaf (leaves_of t) → MatchResult result (λ new. (c : List ℕ) × (P.told pages.new ≡ Some c) × IsRevalued kind b c t front key back new (with_number number (values_in b value))) (IsScant (P.told pages.new)) }
    ensures there { number ≡ old → IfOk result (λ new. (new ≡ value) × (P.told pages.new ≡ P.told pages.old)) }
    ensures size { OnOk result (IsGrown (P.size pages.old) (P.size pages.new)) }
    ensures refused { IfErr result (IsRefused kind (P.told pages.new) (P.is_cause pages.old pages.new)) }
    ensures blamed { IsChild (P.size pages.old) leaf → IfErr result (IsBlamed (P.told pages.new) (P.size pages.new) (P.last pages.new)) }
    ensures kept { Kept (P.counts pages.old) (P.counts pages.new) (P.frame pages.old) (P.frame pages.new) (P.goes_on pages.old pages.new) }
    ensures formed { (b : List ℕ) → P.told pages.old ≡ Some b → IsFormed (link_in value) (values_in b value) → IfOk result (λ new. IsFormed (link_in new) (with_number number (values_in b value))) }
    ensures place { (b : List ℕ) → P.told pages.old ≡ Some b → number ≢ old → IfOk result (λ new. (page i : ℕ) × (link_in new ≡ Fragment page i) × (IsNamedIn b leaf page ⊎ IsCrowded b leaf)) }
    ensures linked { (c : List ℕ) → IfOk result (λ new. IsLinked c (link_in new)) }
{
    if number == old {
        return Ok(value);
    }
    let (less, more) = ascending(old, number);
    let mut page = [0u8; PAGE];
    match find_vacant(pages, kind, leaf, &mut page, steps) {
        Ok(Some(slot)) => {
            set_pair(&mut page, slot.index, less, more);
            match write_page(pages, slot.page, &page) {
                Ok(()) => Ok(fragment_value(slot.page, slot.index)),
                Err(fault) => Err(fault),
            }
        }
        Ok(None) => {
            let mut page = [0u8; PAGE];
            page_of_pair(&mut page, less, more);
            match put_page(pages, kind, &page, steps) {
                Ok(at) => Ok(fragment_value(at, 0)),
                Err(fault) => Err(fault),
            }
        }
        Err(fault) => Err(fault),
    }
}

/// Adds a number to those of a fragment. The eighth number makes a chain of one page of them.
fn add_to_fragment<P: Pages, L: Ledger>(
    pages: &mut P,
    kind: KeyKind,
    value: i64,
    slot: (u64, u64),
    number: u64,
    steps: &mut Steps<L>,
) -> Result<i64, TreeFault<P::Fault>>
    requires kind { IsTreeKind kind }
    requires link { link_in value ≡ Fragment slot.0 slot.1 }
    requires page { IsChild (P.size pages.old) slot.0 }
    ensures added { (b : List ℕ) (t : Shape) (front back : List Row) (key : Key) → P.told pages.old ≡ Some b → Stored kind b t (front ++ ((key, value) ∷ back)) → MatchResult result (λ new. (c : List ℕ) × (P.told pages.new ≡ Some c) × IsRevalued kind b c t front key back new (with_number number (values_in b value))) (IsScant (P.told pages.new)) }
    ensures there { (b : List ℕ) → P.told pages.old ≡ Some b → HasValues b value → 1 ≤ times number (values_in b value) → IfOk result (λ new. (new ≡ value) × (P.told pages.new ≡ P.told pages.old)) }
    ensures size { OnOk result (IsGrown (P.size pages.old) (P.size pages.new)) }
    ensures refused { (leaf : ℕ) → IfSome (P.told pages.old) (λ b. IsValueOf kind b leaf value) → IfErr result (IsCut kind (P.told pages.new) (P.is_cause pages.old pages.new)) }
    ensures blamed { IfErr result (IsBlamed (P.told pages.new) (P.size pages.new) (P.last pages.new)) }
    ensures kept { Kept (P.counts pages.old) (P.counts pages.new) (P.frame pages.old) (P.frame pages.new) (P.goes_on pages.old pages.new) }
    ensures formed { (b : List ℕ) → P.told pages.old ≡ Some b → IsFormed (link_in value) (values_in b value) → IfOk result (λ new. IsFormed (link_in new) (with_number number (values_in b value))) }
    ensures linked { (b : List ℕ) (t : Shape) (front back : List Row) (key : Key) → P.told pages.old ≡ Some b → Stored kind b t (front ++ ((key, value) ∷ back)) → IsLinked b (link_in value) → IfOk result (λ new. IfSome (P.told pages.new) (λ c. IsLinked c (link_in new))) }
{
    let (at, index) = slot;
    let mut page = [0u8; PAGE];
    match read_page(pages, at, &mut page, steps) {
        Ok(()) => {}
        Err(fault) => return Err(fault),
    }
    let Some(count) = fragment_size(&page, index) else {
        return Err(TreeFault::Damaged {
            page: at,
            kind: PageKind::Fragment,
        });
    };
    let i = match find_number(&page, 64 * index as usize + 8, count, number) {
        Ok(_) => return Ok(value),
        Err(i) => i,
    };
    if count < 7 {
        widen_fragment(&mut page, index, i, number);
        match write_page(pages, at, &page) {
            Ok(()) => Ok(value),
            Err(fault) => Err(fault),
        }
    } else {
        let mut wide = [0u8; PAGE];
        page_of_fragment(&page, index, i, number, &mut wide);
        match raise(pages, kind, slot, &mut page, &wide, steps) {
            Ok(at) => Ok(chain_value(at)),
            Err(fault) => Err(fault),
        }
    }
}

/// Adds a number to those of a chain: to its first page that has room, or to a new last page.
fn add_to_chain<P: Pages, L: Ledger>(
    pages: &mut P,
    kind: KeyKind,
    value: i64,
    first: u64,
    number: u64,
    steps: &mut Steps<L>,
) -> Result<i64, TreeFault<P::Fault>>
    requires kind { IsTreeKind kind }
    requires link { link_in value ≡ Chain first }
    requires page { IsChild (P.size pages.old) first }
    ensures added { (b : List ℕ) (t : Shape) (front back : List Row) (key : Key) → P.told pages.old ≡ Some b → Stored kind b t (front ++ ((key, value) ∷ back)) → MatchResult result (λ new. (c : List ℕ) × (P.told pages.new ≡ Some c) × IsRevalued kind b c t front key back new (with_number number (values_in b value))) (IsScant (P.told pages.new)) }
    ensures there { (b : List ℕ) → P.told pages.old ≡ Some b → HasValues b value → 1 ≤ times number (values_in b value) → IfOk result (λ new. (new ≡ value) × (P.told pages.new ≡ P.told pages.old)) }
    ensures size { OnOk result (IsGrown (P.size pages.old) (P.size pages.new)) }
    ensures refused { IfErr result (IsCut kind (P.told pages.new) (P.is_cause pages.old pages.new)) }
    ensures blamed { IfErr result (IsBlamed (P.told pages.new) (P.size pages.new) (P.last pages.new)) }
    ensures kept { Kept (P.counts pages.old) (P.counts pages.new) (P.frame pages.old) (P.frame pages.new) (P.goes_on pages.old pages.new) }
    ensures formed { (b : List ℕ) → P.told pages.old ≡ Some b → IsFormed (link_in value) (values_in b value) → IfOk result (λ new. IsFormed (link_in new) (with_number number (values_in b value))) }
    ensures linked { (b : List ℕ) (t : Shape) (front back : List Row) (key : Key) → P.told pages.old ≡ Some b → Stored kind b t (front ++ ((key, value) ∷ back)) → IsLinked b (link_in value) → IfOk result (λ new. IfSome (P.told pages.new) (λ c. IsLinked c (link_in new))) }
{
    let mut roomy = [0u8; PAGE];
    let mut last = [0u8; PAGE];
    match scan_chain(pages, kind, first, number, &mut roomy, &mut last, steps) {
        Ok(None) => Ok(value),
        Ok(Some(room)) => {
            if room.at == 0 {
                match extend(pages, kind, room.last, &mut last, number, steps) {
                    Ok(()) => Ok(value),
                    Err(fault) => Err(fault),
                }
            } else {
                match widen(pages, room.at, &mut roomy, number) {
                    Ok(()) => Ok(value),
                    Err(fault) => Err(fault),
                }
            }
        }
        Err(fault) => Err(fault),
    }
}

/// Adds a number to those that a value of a leaf means, and answers the value since, which the caller writes into the row.
/// Where the number is there, nothing changes. One number is plain; two to seven are a fragment, of a page that a value of
/// the leaf names, or of a new one; eight and more are a chain of duplicate pages. A page that no free page can serve is
/// appended. After a failure the stream may be half changed.
pub fn dups_add<P: Pages, L: Ledger>(
    pages: &mut P,
    kind: KeyKind,
    leaf: u64,
    value: i64,
    number: u64,
    steps: &mut Steps<L>,
) -> Result<i64, TreeFault<P::Fault>>
    requires kind { IsTreeKind kind }
    requires number { number < 2 ^ 62 }
    ensures added { (b : List ℕ) (t : Shape) (front back : List Row) (key : Key) → P.told pages.old ≡ Some b → Stored kind b t (front ++ ((key, value) ∷ back)) → tree_rows t ≡ front ++ ((key, value) ∷ back) → 1 ≤ times leaf (leaves_of t) → MatchResult result (λ new. (c : List ℕ) × (P.told pages.new ≡ Some c) × IsRevalued kind b c t front key back new (with_number number (values_in b value))) (IsScant (P.told pages.new)) }
    ensures there { (b : List ℕ) → P.told pages.old ≡ Some b → HasValues b value → 1 ≤ times number (values_in b value) → IfOk result (λ new. (new ≡ value) × (P.told pages.new ≡ P.told pages.old)) }
    ensures size { OnOk result (IsGrown (P.size pages.old) (P.size pages.new)) }
    ensures refused { IfSome (P.told pages.old) (λ b. IsValueOf kind b leaf value) → IfErr result (IsCut kind (P.told pages.new) (P.is_cause pages.old pages.new)) }
    ensures blamed { IsChild (P.size pages.old) leaf → P.last pages.old ≡ leaf → IfErr result (IsBlamed (P.told pages.new) (P.size pages.new) (P.last pages.new)) }
    ensures kept { Kept (P.counts pages.old) (P.counts pages.new) (P.frame pages.old) (P.frame pages.new) (P.goes_on pages.old pages.new) }
    ensures formed { (b : List ℕ) → P.told pages.old ≡ Some b → IsFormed (link_in value) (values_in b value) → IfOk result (λ new. IsFormed (link_in new) (with_number number (values_in b value))) }
    ensures place { (b : List ℕ) (old : ℕ) → P.told pages.old ≡ Some b → link_in value ≡ Number old → number ≢ old → IfOk result (λ new. (page i : ℕ) × (link_in new ≡ Fragment page i) × (IsNamedIn b leaf page ⊎ IsCrowded b leaf)) }
    ensures linked { (b : List ℕ) (t : Shape) (front back : List Row) (key : Key) → P.told pages.old ≡ Some b → Stored kind b t (front ++ ((key, value) ∷ back)) → IsLinked b (link_in value) → IfOk result (λ new. IfSome (P.told pages.new) (λ c. IsLinked c (link_in new))) }
{
    match link_of(value) {
        Link::Number(old) => match add_to_number(pages, kind, leaf, value, old, number, steps) {
            Ok(new) => Ok(new),
            Err(fault) => Err(fault),
        },
        Link::Fragment { page, index } => {
            if !is_child(page, pages.length()) {
                return Err(TreeFault::Damaged {
                    page: leaf,
                    kind: PageKind::Leaf,
                });
            }
            match add_to_fragment(pages, kind, value, (page, index), number, steps) {
                Ok(new) => Ok(new),
                Err(fault) => Err(fault),
            }
        }
        Link::Chain { page } => {
            if !is_child(page, pages.length()) {
                return Err(TreeFault::Damaged {
                    page: leaf,
                    kind: PageKind::Leaf,
                });
            }
            match add_to_chain(pages, kind, value, page, number, steps) {
                Ok(new) => Ok(new),
                Err(fault) => Err(fault),
            }
        }
        Link::Nothing => Err(TreeFault::Damaged {
            page: leaf,
            kind: PageKind::Leaf,
        }),
    }
}
