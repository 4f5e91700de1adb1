// One value of a leaf, whatever it says.
ghost use Rattle.std.specs.Prelude.{◌≡◌, ◌≢◌, ◌⊎◌, ◌<◌, ◌+◌, ◌/◌, ◌%◌, ◌++◌, ℕ, ℤ, List, [], ◌∷◌, length, true, false, Some, OnOk, IfOk, IfErr};
ghost use Rattle.bfs_base.specs.Lists.{times, IsOnce};
ghost use Rattle.bfs_base.specs.declared.kind.KeyKind.{KeyKind};
ghost use Rattle.bfs_node.specs.Page.{Row};
ghost use Rattle.bfs_txn.specs.Faults.{AreLater};
ghost use Rattle.bfs_pages.specs.Answers.{IsChild};
ghost use Rattle.bfs_pages.specs.Trees.{page_in};
ghost use Rattle.bfs_values.specs.Links.{link_in};
ghost use Rattle.bfs_values.specs.Values.{IsFragment, fragment_numbers, chain_of, numbers_of_pages, in_order, values_in};
ghost use Rattle.bfs_values.specs.Rows.{rows_in};
ghost use Rattle.bfs_values.specs.declared.link.Link.TheVariants as links;
ghost use Rattle.bfs_finding.specs.TreeFaults.{wanted_link};
ghost use Rattle.bfs_sound.specs.Owners.{In};
ghost use Rattle.bfs_walk.specs.Wrong.{IsWrong, IsWrongTree, IsWalkCause};
ghost use Rattle.bfs_tree_check.specs.Marked.{marked};
ghost use Rattle.bfs_value_walk.specs.Chained.{IsChained, IsOwn, IsInTurn};
ghost use Rattle.bfs_value_walk.specs.Met.{AreMarked, IsNext};
ghost use Rattle.bfs_value_walk.specs.Named.{parted};

use crate::chain::claim_chain;
use crate::naming::{is_parted, name_fragment};
use crate::several::rises;
use bfs_finding::PagePart;
use bfs_node::PAGE;
use bfs_pages::is_child;
use bfs_tree_check::{mark, met_twice, wanted_for};
use bfs_txn::{Pages, Steps};
use bfs_values::{Link, Numbers, add_numbers, fragment_size, link_of};
use bfs_walk::{TreeWrong, WalkFault};
use std::alloc::{AllocError, Global};
use std::sync::ledger::Ledger;

/// A list of one number.
fn one_number(alloc: Global, number: u64) -> Result<Numbers, AllocError>
    ensures { IfOk result (λ n. n ≡ number ∷ []) }
{
    let mut items = Vec::new(alloc);
    items.push(number)?;
    Ok(Numbers::new(items))
}

/// A page of a leaf breaks the format in a key or a value, or a page that a value names does.
fn content_of(page: u64) -> TreeWrong
    ensures { result ≡ TreeWrong.Page page PagePart.Content }
{
    TreeWrong::Page {
        page,
        part: PagePart::Content,
    }
}

/// Does the value of a leaf that names a page name one of the stream?
fn check_link(leaf: u64, value: i64, page: u64, size: u64) -> Result<(), TreeWrong>
    ensures sound { OnOk result (IsChild size page) }
    ensures wrong { IfErr result (λ wrong. (wrong ≡ TreeWrong.Link leaf value (wanted_link value)) × ¬ IsChild size page) }
{
    if is_child(page, size) {
        Ok(())
    } else {
        Err(TreeWrong::Link {
            page: leaf,
            found: value,
            wanted: wanted_for(value),
        })
    }
}

/// Reads a fragment that a value names: its numbers.
fn look_at_fragment<P: Pages, L: Ledger>(
    alloc: Global,
    pages: &mut P,
    at: u64,
    index: u64,
    steps: &mut Steps<L>,
) -> Result<Numbers, WalkFault<P::Fault>>
    requires at { IsChild (P.size pages.old) at }
    ensures inside { OnOk result (index < 16) }
    ensures good { (b : List ℕ) → P.told pages.old ≡ Some b → OnOk result (IsFragment (page_in b at) index) }
    ensures numbers { (b : List ℕ) → P.told pages.old ≡ Some b → IfOk result (λ n. n ≡ fragment_numbers (page_in b at) index) }
    ensures wrong { (kind : KeyKind) (b : List ℕ) (r : Row) → P.told pages.old ≡ Some b → In r (rows_in kind b) → link_in r.1 ≡ links.Fragment at index → IfErr result (IsWrong kind b) }
    ensures cause { IfErr result (IsWalkCause (P.is_cause pages.old pages.new)) }
    ensures told { P.told pages.new ≡ P.told pages.old }
    ensures size { P.size pages.new ≡ P.size pages.old }
    ensures counts { AreLater (P.counts pages.old) (P.counts pages.new) }
    ensures frame { P.frame pages.new ≡ P.frame pages.old }
    ensures goes_on { P.goes_on pages.old pages.new }
    ensures is_read { P.is_read pages.old pages.new }
{
    let mut page = [0u8; PAGE];
    match pages.get(at, &mut page, steps) {
        Ok(()) => {}
        Err(fault) => return Err(WalkFault::Pages(fault)),
    }
    let Some(count) = fragment_size(&page, index) else {
        return Err(WalkFault::Wrong(content_of(at)));
    };
    let mut items = Vec::new(alloc);
    match add_numbers(&page, 64 * index as usize + 8, count, &mut items) {
        Ok(()) => Ok(Numbers::new(items)),
        Err(_) => Err(WalkFault::NoMemory),
    }
}

/// Marks a page of which a fragment is named, unless one was named before; false where it is marked already.
fn mark_parted(marks: &mut [bool], names: &[u16], at: u64, size: u64) -> bool
    requires at { IsChild size at }
    requires whole { size % 1024 ≡ 0 }
    requires length { length marks.old ≡ size / 1024 }
    requires names { length names.now ≡ size / 1024 }
    ensures ready { result ≡ true → ((parted size names.now at ≡ 1) × (marks.new ≡ marks.old)) ⊎ ((parted size names.now at ≡ 0) × ((x : ℕ) → marked size marks.new x ≡ marked size marks.old x + times x (at ∷ []))) }
    ensures twice { result ≡ false → (parted size names.now at ≡ 0) × (marked size marks.old at ≡ 1) }
    ensures length { length marks.new ≡ length marks.old }
{
    if is_parted(names, at, size) {
        return true;
    }
    mark(marks, at, size)
}

/// Names a fragment in use, and marks its page.
fn claim_fragment(
    at: u64,
    index: usize,
    marks: &mut [bool],
    names: &mut [u16],
    size: u64,
) -> Result<(), TreeWrong>
    requires at { IsChild size at }
    requires index { index < 16 }
    requires whole { size % 1024 ≡ 0 }
    requires small { size < 9223372036854775808 }
    requires length { length marks.old ≡ size / 1024 }
    requires names { length names.old ≡ size / 1024 }
    ensures met { (kind : KeyKind) (b : List ℕ) (done : List Row) (r : Row) → length b ≡ size → link_in r.1 ≡ links.Fragment at index → IsFragment (page_in b at) index → AreMarked kind b done size marks.old names.old → OnOk result (AreMarked kind b (done ++ r ∷ []) size marks.new names.new) }
    ensures wrong { (kind : KeyKind) (b : List ℕ) (done rest : List Row) (r : Row) → length b ≡ size → rows_in kind b ≡ done ++ (r ∷ rest) → link_in r.1 ≡ links.Fragment at index → IsFragment (page_in b at) index → AreMarked kind b done size marks.old names.old → IfErr result (IsWrongTree kind b) }
    ensures length { length marks.new ≡ length marks.old }
    ensures names { length names.new ≡ length names.old }
{
    if !mark_parted(marks, names, at, size) {
        return Err(met_twice(at));
    }
    if !name_fragment(names, at, index, size) {
        return Err(content_of(at));
    }
    Ok(())
}

/// The numbers of a fragment that a value names, which is marked.
fn take_fragment<P: Pages, L: Ledger>(
    alloc: Global,
    pages: &mut P,
    at: u64,
    index: u64,
    marks: &mut [bool],
    names: &mut [u16],
    steps: &mut Steps<L>,
) -> Result<Numbers, WalkFault<P::Fault>>
    requires at { IsChild (P.size pages.old) at }
    requires small { P.size pages.old < 9223372036854775808 }
    requires length { length marks.old ≡ P.size pages.old / 1024 }
    requires names { length names.old ≡ P.size pages.old / 1024 }
    ensures met { (kind : KeyKind) (b : List ℕ) (done : List Row) (r : Row) → P.told pages.old ≡ Some b → link_in r.1 ≡ links.Fragment at index → AreMarked kind b done (P.size pages.old) marks.old names.old → OnOk result (AreMarked kind b (done ++ r ∷ []) (P.size pages.old) marks.new names.new) }
    ensures numbers { (b : List ℕ) → P.told pages.old ≡ Some b → IfOk result (λ n. n ≡ fragment_numbers (page_in b at) index) }
    ensures wrong { (kind : KeyKind) (b : List ℕ) (done rest : List Row) (r : Row) → P.told pages.old ≡ Some b → rows_in kind b ≡ done ++ (r ∷ rest) → link_in r.1 ≡ links.Fragment at index → AreMarked kind b done (P.size pages.old) marks.old names.old → IfErr result (IsWrong kind b) }
    ensures length { length marks.new ≡ length marks.old }
    ensures names { length names.new ≡ length names.old }
    ensures cause { IfErr result (IsWalkCause (P.is_cause pages.old pages.new)) }
    ensures told { P.told pages.new ≡ P.told pages.old }
    ensures size { P.size pages.new ≡ P.size pages.old }
    ensures counts { AreLater (P.counts pages.old) (P.counts pages.new) }
    ensures frame { P.frame pages.new ≡ P.frame pages.old }
    ensures goes_on { P.goes_on pages.old pages.new }
    ensures is_read { P.is_read pages.old pages.new }
{
    let size = pages.length();
    let numbers = match look_at_fragment(alloc, pages, at, index, steps) {
        Ok(numbers) => numbers,
        Err(fault) => return Err(fault),
    };
    match claim_fragment(at, index as usize, marks, names, size) {
        Ok(()) => Ok(numbers),
        Err(wrong) => Err(WalkFault::Wrong(wrong)),
    }
}

/// Numbers in ascending order; none where one of them stands twice.
fn in_turn(numbers: Vec<u64>) -> Result<Option<Numbers>, AllocError>
    ensures { IfOk result (IsInTurn numbers.items) }
{
    let mut items = numbers;
    match items.sort() {
        Ok(()) => {}
        Err(fault) => return Err(fault),
    }
    if rises(&items) {
        Ok(Some(Numbers::new(items)))
    } else {
        Ok(None)
    }
}

/// The numbers of a chain that a value names, in ascending order. All its pages are marked.
fn take_chain<P: Pages, L: Ledger>(
    alloc: Global,
    pages: &mut P,
    first: u64,
    marks: &mut [bool],
    steps: &mut Steps<L>,
) -> Result<Numbers, WalkFault<P::Fault>>
    requires first { IsChild (P.size pages.old) first }
    requires small { P.size pages.old < 9223372036854775808 }
    requires length { length marks.old ≡ P.size pages.old / 1024 }
    ensures met { (kind : KeyKind) (b : List ℕ) (done : List Row) (r : Row) (names : List ℕ) → P.told pages.old ≡ Some b → link_in r.1 ≡ links.Chain first → AreMarked kind b done (P.size pages.old) marks.old names → OnOk result (AreMarked kind b (done ++ r ∷ []) (P.size pages.old) marks.new names) }
    ensures numbers { (kind : KeyKind) (b : List ℕ) (done : List Row) (names : List ℕ) → P.told pages.old ≡ Some b → AreMarked kind b done (P.size pages.old) marks.old names → IfOk result (λ n. n ≡ in_order (numbers_of_pages b (chain_of b first))) }
    ensures wrong { (kind : KeyKind) (b : List ℕ) (done rest : List Row) (r : Row) (names : List ℕ) → P.told pages.old ≡ Some b → rows_in kind b ≡ done ++ (r ∷ rest) → link_in r.1 ≡ links.Chain first → AreMarked kind b done (P.size pages.old) marks.old names → IfErr result (IsWrong kind b) }
    ensures length { length marks.new ≡ length marks.old }
    ensures cause { IfErr result (IsWalkCause (P.is_cause pages.old pages.new)) }
    ensures told { P.told pages.new ≡ P.told pages.old }
    ensures size { P.size pages.new ≡ P.size pages.old }
    ensures counts { AreLater (P.counts pages.old) (P.counts pages.new) }
    ensures frame { P.frame pages.new ≡ P.frame pages.old }
    ensures goes_on { P.goes_on pages.old pages.new }
    ensures is_read { P.is_read pages.old pages.new }
{
    let mut items = Vec::new(alloc);
    match claim_chain(pages, first, &mut items, marks, steps) {
        Ok(()) => {}
        Err(fault) => return Err(fault),
    }
    match in_turn(items) {
        Ok(found) => match found {
            Some(numbers) => Ok(numbers),
            None => Err(WalkFault::Wrong(content_of(first))),
        },
        Err(_) => Err(WalkFault::NoMemory),
    }
}

/// The numbers of the fragment that the value of a leaf's row names.
fn take_named_fragment<P: Pages, L: Ledger>(
    alloc: Global,
    pages: &mut P,
    leaf: u64,
    value: i64,
    page: u64,
    index: u64,
    marks: &mut [bool],
    names: &mut [u16],
    steps: &mut Steps<L>,
) -> Result<Numbers, WalkFault<P::Fault>>
    requires small { P.size pages.old < 9223372036854775808 }
    requires length { length marks.old ≡ P.size pages.old / 1024 }
    requires names { length names.old ≡ P.size pages.old / 1024 }
    ensures met { (kind : KeyKind) (b : List ℕ) (done : List Row) (key : List ℕ) → P.told pages.old ≡ Some b → link_in value ≡ links.Fragment page index → AreMarked kind b done (P.size pages.old) marks.old names.old → OnOk result (AreMarked kind b (done ++ (key, value) ∷ []) (P.size pages.old) marks.new names.new) }
    ensures numbers { (b : List ℕ) → P.told pages.old ≡ Some b → link_in value ≡ links.Fragment page index → IfOk result (λ n. n ≡ values_in b value) }
    ensures wrong { (kind : KeyKind) (b : List ℕ) (done rest : List Row) (key : List ℕ) → P.told pages.old ≡ Some b → link_in value ≡ links.Fragment page index → IsNext kind b leaf done (key, value) rest → AreMarked kind b done (P.size pages.old) marks.old names.old → IfErr result (IsWrong kind b) }
    ensures length { length marks.new ≡ length marks.old }
    ensures names { length names.new ≡ length names.old }
    ensures cause { IfErr result (IsWalkCause (P.is_cause pages.old pages.new)) }
    ensures told { P.told pages.new ≡ P.told pages.old }
    ensures size { P.size pages.new ≡ P.size pages.old }
    ensures counts { AreLater (P.counts pages.old) (P.counts pages.new) }
    ensures frame { P.frame pages.new ≡ P.frame pages.old }
    ensures goes_on { P.goes_on pages.old pages.new }
    ensures is_read { P.is_read pages.old pages.new }
{
    match check_link(leaf, value, page, pages.length()) {
        Ok(()) => {}
        Err(wrong) => return Err(WalkFault::Wrong(wrong)),
    }
    take_fragment(alloc, pages, page, index, marks, names, steps)
}

/// The numbers of the chain that the value of a leaf's row names.
fn take_named_chain<P: Pages, L: Ledger>(
    alloc: Global,
    pages: &mut P,
    leaf: u64,
    value: i64,
    page: u64,
    marks: &mut [bool],
    steps: &mut Steps<L>,
) -> Result<Numbers, WalkFault<P::Fault>>
    requires small { P.size pages.old < 9223372036854775808 }
    requires length { length marks.old ≡ P.size pages.old / 1024 }
    ensures met { (kind : KeyKind) (b : List ℕ) (done : List Row) (names key : List ℕ) → P.told pages.old ≡ Some b → link_in value ≡ links.Chain page → AreMarked kind b done (P.size pages.old) marks.old names → OnOk result (AreMarked kind b (done ++ (key, value) ∷ []) (P.size pages.old) marks.new names) }
    ensures numbers { (kind : KeyKind) (b : List ℕ) (done : List Row) (names : List ℕ) → P.told pages.old ≡ Some b → link_in value ≡ links.Chain page → AreMarked kind b done (P.size pages.old) marks.old names → IfOk result (λ n. n ≡ values_in b value) }
    ensures wrong { (kind : KeyKind) (b : List ℕ) (done rest : List Row) (names key : List ℕ) → P.told pages.old ≡ Some b → link_in value ≡ links.Chain page → IsNext kind b leaf done (key, value) rest → AreMarked kind b done (P.size pages.old) marks.old names → IfErr result (IsWrong kind b) }
    ensures length { length marks.new ≡ length marks.old }
    ensures cause { IfErr result (IsWalkCause (P.is_cause pages.old pages.new)) }
    ensures told { P.told pages.new ≡ P.told pages.old }
    ensures size { P.size pages.new ≡ P.size pages.old }
    ensures counts { AreLater (P.counts pages.old) (P.counts pages.new) }
    ensures frame { P.frame pages.new ≡ P.frame pages.old }
    ensures goes_on { P.goes_on pages.old pages.new }
    ensures is_read { P.is_read pages.old pages.new }
{
    match check_link(leaf, value, page, pages.length()) {
        Ok(()) => {}
        Err(wrong) => return Err(WalkFault::Wrong(wrong)),
    }
    take_chain(alloc, pages, page, marks, steps)
}

/// The numbers that the value of a leaf's row means. What it reaches is marked.
pub fn take_value<P: Pages, L: Ledger>(
    alloc: Global,
    pages: &mut P,
    leaf: u64,
    value: i64,
    marks: &mut [bool],
    names: &mut [u16],
    steps: &mut Steps<L>,
) -> Result<Numbers, WalkFault<P::Fault>>
    requires small { P.size pages.old < 9223372036854775808 }
    requires length { length marks.old ≡ P.size pages.old / 1024 }
    requires names { length names.old ≡ P.size pages.old / 1024 }
    ensures met { (kind : KeyKind) (b : List ℕ) (done : List Row) (key : List ℕ) → P.told pages.old ≡ Some b → AreMarked kind b done (P.size pages.old) marks.old names.old → OnOk result (AreMarked kind b (done ++ (key, value) ∷ []) (P.size pages.old) marks.new names.new) }
    ensures numbers { (kind : KeyKind) (b : List ℕ) (done : List Row) → P.told pages.old ≡ Some b → AreMarked kind b done (P.size pages.old) marks.old names.old → IfOk result (λ n. n ≡ values_in b value) }
    ensures wrong { (kind : KeyKind) (b : List ℕ) (done rest : List Row) (key : List ℕ) → P.told pages.old ≡ Some b → IsNext kind b leaf done (key, value) rest → AreMarked kind b done (P.size pages.old) marks.old names.old → IfErr result (IsWrong kind b) }
    ensures length { length marks.new ≡ length marks.old }
    ensures names { length names.new ≡ length names.old }
    ensures cause { IfErr result (IsWalkCause (P.is_cause pages.old pages.new)) }
    ensures told { P.told pages.new ≡ P.told pages.old }
    ensures size { P.size pages.new ≡ P.size pages.old }
    ensures counts { AreLater (P.counts pages.old) (P.counts pages.new) }
    ensures frame { P.frame pages.new ≡ P.frame pages.old }
    ensures goes_on { P.goes_on pages.old pages.new }
    ensures is_read { P.is_read pages.old pages.new }
{
    match link_of(value) {
        Link::Number(number) => match one_number(alloc, number) {
            Ok(numbers) => Ok(numbers),
            Err(_) => Err(WalkFault::NoMemory),
        },
        Link::Fragment { page, index } => {
            take_named_fragment(alloc, pages, leaf, value, page, index, marks, names, steps)
        }
        Link::Chain { page } => take_named_chain(alloc, pages, leaf, value, page, marks, steps),
        Link::Nothing => Err(WalkFault::Wrong(content_of(leaf))),
    }
}
