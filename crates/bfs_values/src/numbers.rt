// The numbers that a value of a leaf means.
ghost use Rattle.std.specs.Prelude.{◌≡◌, ◌⊎◌, ◌≤◌, ◌+◌, ◌++◌, ◌∷◌, [], ℕ, ℤ, List, Some, length, OnOk, IfErr, IfOk, IfSome, MatchResult};
ghost use Rattle.bfs_pages.specs.Answers.{IsChild, IsLink, IsJustRead};
ghost use Rattle.bfs_pages.specs.Trees.{page_in};
ghost use Rattle.bfs_values.specs.Kinds.{IsValueOf, IsNamed, IsCut, IsLacking, Stays};
ghost use Rattle.bfs_values.specs.Links.{link_in};
ghost use Rattle.bfs_values.specs.Values.{IsFragment, fragment_numbers, IsReadable, HasValues, values_in, pages_for, EndsAfter, AreDuplicates, chain_of, numbers_of_pages, in_order};
ghost use Rattle.bfs_values.specs.declared.link.Link.TheVariants.{Fragment as FragmentLink};

use crate::chain::add_chain;
use crate::link::{Link, link_of};
use crate::packed::{add_numbers, fragment_size};
use bfs_node::{KeyKind, PAGE, PageKind, TreeFault};
use bfs_pages::is_child;
use bfs_pages::txn::{Pages, Steps};
use std::alloc::{AllocError, Global};
use std::marker::Model;
use std::sync::ledger::Ledger;

/// Numbers, ascending.
#[derive(Debug, Drop)]
pub struct Numbers {
    items: Vec<u64>,
}

impl Model for Numbers {
    ghost use Rattle.std.specs.Prelude.{List, ℕ};

    ghost Value = { List ℕ };

    ghost view = { λ b. b.items.items };
}

impl Numbers {
    /// Takes no memory.
    pub fn new(items: Vec<u64>) -> Numbers
        ensures { result ≡ items.items }
    {
        Numbers { items }
    }

    pub fn as_slice(&self) -> &[u64]
        ensures { result.now ≡ self.now }
    {
        self.items.as_slice()
    }

    pub fn into_vec(self) -> Vec<u64>
        ensures { result.items ≡ self }
    {
        let Numbers { items } = self;
        items
    }
}

/// A list of one number.
fn one_number(alloc: Global, number: u64) -> Result<Vec<u64>, AllocError>
    ensures { IfOk result (λ v. v.items ≡ number ∷ []) }
{
    let mut items = Vec::new(alloc);
    items.push(number)?;
    Ok(items)
}

/// The numbers of a fragment.
fn read_fragment<P: Pages, L: Ledger>(
    alloc: Global,
    pages: &mut P,
    kind: KeyKind,
    at: (u64, u64),
    steps: &mut Steps<L>,
) -> Result<Vec<u64>, TreeFault<P::Fault>>
    requires at { IsChild (P.size pages.old) at.0 }
    ensures found { (b : List ℕ) → P.told pages.old ≡ Some b → IsFragment (page_in b at.0) at.1 → MatchResult result (λ v. v.items ≡ fragment_numbers (page_in b at.0) at.1) IsLacking }
    ensures refused { (leaf : ℕ) (value : ℤ) → IfSome (P.told pages.old) (λ b. IsValueOf kind b leaf value) → link_in value ≡ FragmentLink at.0 at.1 → IfErr result (IsCut kind (P.told pages.new) (P.is_cause pages.old pages.new)) }
    ensures sure { (b : List ℕ) → P.told pages.old ≡ Some b → OnOk result (IsFragment (page_in b at.0) at.1) }
    ensures just_read { IfErr result (IsJustRead (P.size pages.new) (P.last pages.new)) }
    ensures steps { steps.new ≤ steps.old + 1 }
    ensures stays { Stays (P.told pages.old) (P.told pages.new) (P.size pages.old) (P.size pages.new) (P.counts pages.old) (P.counts pages.new) (P.frame pages.old) (P.frame pages.new) (P.goes_on pages.old pages.new) (P.is_read pages.old pages.new) }
{
    let mut page = [0u8; PAGE];
    match pages.get(at.0, &mut page, steps) {
        Ok(()) => {}
        Err(fault) => return Err(TreeFault::Pages(fault)),
    }
    let Some(size) = fragment_size(&page, at.1) else {
        return Err(TreeFault::Damaged {
            page: at.0,
            kind: PageKind::Fragment,
        });
    };
    let mut items = Vec::new(alloc);
    match add_numbers(&page, 64 * at.1 as usize + 8, size, &mut items) {
        Ok(()) => Ok(items),
        Err(_) => Err(TreeFault::NoMemory),
    }
}

/// The numbers of all pages of a chain, in ascending order.
fn read_chain<P: Pages, L: Ledger>(
    alloc: Global,
    pages: &mut P,
    kind: KeyKind,
    first: u64,
    steps: &mut Steps<L>,
) -> Result<Vec<u64>, TreeFault<P::Fault>>
    requires at { IsChild (P.size pages.old) first }
    ensures found { (b : List ℕ) → P.told pages.old ≡ Some b → ((n : ℕ) × EndsAfter b n first) → AreDuplicates b (chain_of b first) → MatchResult result (λ v. v.items ≡ in_order (numbers_of_pages b (chain_of b first))) IsLacking }
    ensures steps { (b : List ℕ) → P.told pages.old ≡ Some b → ((n : ℕ) × EndsAfter b n first) → AreDuplicates b (chain_of b first) → steps.new ≤ steps.old + length (chain_of b first) }
    ensures refused { IfErr result (IsCut kind (P.told pages.new) (P.is_cause pages.old pages.new)) }
    ensures sure { (b : List ℕ) → P.told pages.old ≡ Some b → OnOk result (((n : ℕ) × EndsAfter b n first) × AreDuplicates b (chain_of b first)) }
    ensures just_read { IfErr result (IsJustRead (P.size pages.new) (P.last pages.new)) }
    ensures stays { Stays (P.told pages.old) (P.told pages.new) (P.size pages.old) (P.size pages.new) (P.counts pages.old) (P.counts pages.new) (P.frame pages.old) (P.frame pages.new) (P.goes_on pages.old pages.new) (P.is_read pages.old pages.new) }
{
    let mut items = Vec::new(alloc);
    match add_chain(pages, kind, first, &mut items, steps) {
        Ok(()) => {}
        Err(fault) => return Err(fault),
    }
    match items.sort() {
        Ok(()) => Ok(items),
        Err(_) => Err(TreeFault::NoMemory),
    }
}

/// The numbers that a value of this leaf means, ascending.
pub fn numbers_of<P: Pages, L: Ledger>(
    alloc: Global,
    pages: &mut P,
    kind: KeyKind,
    leaf: u64,
    value: i64,
    steps: &mut Steps<L>,
) -> Result<Numbers, TreeFault<P::Fault>>
    ensures meant { (b : List ℕ) → P.told pages.old ≡ Some b → HasValues b value → MatchResult result (λ n. n ≡ values_in b value) IsLacking }
    ensures steps { (b : List ℕ) → P.told pages.old ≡ Some b → HasValues b value → steps.new ≤ steps.old + pages_for b value }
    ensures refused { IfSome (P.told pages.old) (λ b. IsValueOf kind b leaf value) → IfErr result (IsCut kind (P.told pages.new) (P.is_cause pages.old pages.new)) }
    ensures sure { (b : List ℕ) → P.told pages.old ≡ Some b → IfOk result (λ n. IsReadable b (link_in value) × (n ≡ values_in b value)) }
    ensures just_read { (P.last pages.old ≡ leaf) ⊎ IsNamed (P.size pages.old) (link_in value) → IfErr result (IsJustRead (P.size pages.new) (P.last pages.new)) }
    ensures stays { Stays (P.told pages.old) (P.told pages.new) (P.size pages.old) (P.size pages.new) (P.counts pages.old) (P.counts pages.new) (P.frame pages.old) (P.frame pages.new) (P.goes_on pages.old pages.new) (P.is_read pages.old pages.new) }
{
    let damaged = TreeFault::Damaged {
        page: leaf,
        kind: PageKind::Leaf,
    };
    match link_of(value) {
        Link::Number(number) => match one_number(alloc, number) {
            Ok(items) => Ok(Numbers::new(items)),
            Err(_) => Err(TreeFault::NoMemory),
        },
        Link::Fragment { page, index } => {
            if !is_child(page, pages.length()) {
                return Err(damaged);
            }
            match read_fragment(alloc, pages, kind, (page, index), steps) {
                Ok(items) => Ok(Numbers::new(items)),
                Err(fault) => Err(fault),
            }
        }
        Link::Chain { page } => {
            if !is_child(page, pages.length()) {
                return Err(damaged);
            }
            match read_chain(alloc, pages, kind, page, steps) {
                Ok(items) => Ok(Numbers::new(items)),
                Err(fault) => Err(fault),
            }
        }
        Link::Nothing => Err(damaged),
    }
}
