// The pairs that stand in an index, row by row, against those that it has to list.
ghost use Rattle.std.specs.Prelude.{◌≡◌, ◌≤◌, ◌<◌, ◌++◌, ◌∷◌, List, length, get_or, true, false, OnOk, IfOk, IfErr};
ghost use Rattle.std.specs.List.{flat_map};
ghost use Rattle.bfs_tree.specs.Listings.{key_from, pair_cmp};
ghost use Rattle.bfs_sound.specs.Owners.{In};
ghost use Rattle.bfs_index_check.specs.Compared.{Pair as Kept, pair_of, pairs_of, row_pairs, Ascends, AreMet, IsNext, IsTold};

use bfs_finding::Finding;
use bfs_index::Pair;
use bfs_node_check::NodeFault;
use bfs_range::RangedRow;
use bfs_tree::{Bytes, Key, KeyKind, key_order};
use std::alloc::{AllocError, Global};
use std::cmp::Ordering;

/// The name of an index, and a key of it.
fn named(alloc: Global, index: &[u8], kind: KeyKind, key: &[u8]) -> Result<(Bytes, Key), AllocError>
    ensures { IfOk result (λ both. (both.0 ≡ index.now) × (both.1 ≡ key_from kind key.now)) }
{
    let name = Bytes::from_slice(alloc, index)?;
    let key = Key::from_bytes(alloc, kind, key)?;
    Ok((name, key))
}

/// A pair is missing.
fn missing(alloc: Global, index: &[u8], kind: KeyKind, key: &[u8], id: u64) -> NodeFault
    ensures { (wanted found : List Kept) → In (key.now, id) wanted → (In (key.now, id) found → ⊥) → IsTold index.now kind wanted found result }
{
    match named(alloc, index, kind, key) {
        Ok((index, key)) => NodeFault::Wrong(Finding::RowMissing { index, key, id }),
        Err(_) => NodeFault::NoMemory,
    }
}

/// A pair is there that isn't wanted.
fn extra(alloc: Global, index: &[u8], kind: KeyKind, key: &[u8], id: u64) -> NodeFault
    ensures { (wanted found : List Kept) → In (key.now, id) found → (In (key.now, id) wanted → ⊥) → IsTold index.now kind wanted found result }
{
    match named(alloc, index, kind, key) {
        Ok((index, key)) => NodeFault::Wrong(Finding::RowExtra { index, key, id }),
        Err(_) => NodeFault::NoMemory,
    }
}

/// Is a pair this one?
fn is_pair(pair: &Pair, key: &[u8], id: u64) -> bool
    ensures same { result ≡ true → pair_of pair.now ≡ (key.now, id) }
    ensures other { result ≡ false → pair_of pair.now ≡ (key.now, id) → ⊥ }
{
    pair.id == id && pair.key.as_slice() == key
}

/// How a pair stands to this one, by key, then by number.
fn order_of(kind: KeyKind, pair: &Pair, key: &[u8], id: u64) -> Ordering
    ensures { result ≡ pair_cmp kind (pair_of pair.now) (key.now, id) }
{
    key_order(kind, pair.key.as_slice(), key).then(pair.id.cmp(&id))
}

/// Is the pair that is wanted next this one? Of two that differ the lower one stands in one list alone.
fn hold_against(
    alloc: Global,
    index: &[u8],
    kind: KeyKind,
    next: &Pair,
    key: &[u8],
    id: u64,
) -> Result<(), NodeFault>
    ensures same { OnOk result (pair_of next.now ≡ (key.now, id)) }
    ensures wrong { (met behind more : List Kept) → Ascends kind (met ++ (pair_of next.now ∷ behind)) → Ascends kind (met ++ ((key.now, id) ∷ more)) → IfErr result (IsTold index.now kind (met ++ (pair_of next.now ∷ behind)) (met ++ ((key.now, id) ∷ more))) }
{
    if is_pair(next, key, id) {
        return Ok(());
    }
    match order_of(kind, next, key, id) {
        Ordering::Less => {
            let lower = next.key.as_slice();
            Err(missing(alloc, index, kind, lower, next.id))
        }
        _ => Err(extra(alloc, index, kind, key, id)),
    }
}

/// The same against the first of the pairs that are wanted still, if there is one.
fn hold_pair(
    alloc: Global,
    index: &[u8],
    kind: KeyKind,
    rest: &[Pair],
    key: &[u8],
    id: u64,
) -> Result<(), NodeFault>
    ensures same { OnOk result (IsNext (pairs_of rest.now) (key.now, id)) }
    ensures wrong { (met more : List Kept) → Ascends kind (met ++ pairs_of rest.now) → Ascends kind (met ++ ((key.now, id) ∷ more)) → IfErr result (IsTold index.now kind (met ++ pairs_of rest.now) (met ++ ((key.now, id) ∷ more))) }
{
    if rest.is_empty() {
        return Err(extra(alloc, index, kind, key, id));
    }
    match hold_against(alloc, index, kind, &rest[0], key, id) {
        Ok(()) => Ok(()),
        Err(fault) => Err(fault),
    }
}

/// A number of a row.
fn number_at(row: &RangedRow, i: usize) -> u64
    requires { i < length row.now.numbers }
    ensures { result ≡ get_or row.now.numbers i 0 }
{
    row.numbers.as_slice()[i]
}

/// Holds the numbers of a key against the pairs that are wanted from a place on, and answers the place behind them.
fn hold_row(
    alloc: Global,
    index: &[u8],
    kind: KeyKind,
    wanted: &[Pair],
    from: usize,
    row: &RangedRow,
) -> Result<usize, NodeFault>
    requires inside { from ≤ length wanted.now }
    ensures inside { IfOk result (λ to. to ≤ length wanted.now) }
    ensures met { (met : List Kept) → AreMet (pairs_of wanted.now) from met → IfOk result (λ to. AreMet (pairs_of wanted.now) to (met ++ row_pairs row.now)) }
    ensures wrong { (met more : List Kept) → AreMet (pairs_of wanted.now) from met → Ascends kind (pairs_of wanted.now) → Ascends kind (met ++ (row_pairs row.now ++ more)) → IfErr result (IsTold index.now kind (pairs_of wanted.now) (met ++ (row_pairs row.now ++ more))) }
{
    let key = row.key.as_slice();
    let mut at = from;
    for i in 0..row.numbers.as_slice().len() {
        let id = number_at(row, i);
        match hold_pair(alloc, index, kind, &wanted[at..], key, id) {
            Ok(()) => at += 1,
            Err(fault) => return Err(fault),
        }
    }
    Ok(at)
}

/// Holds rows against the pairs that are wanted, from the first on, and answers the place behind them.
fn hold_rows(
    alloc: Global,
    index: &[u8],
    kind: KeyKind,
    wanted: &[Pair],
    rows: &[RangedRow],
) -> Result<usize, NodeFault>
    ensures inside { IfOk result (λ to. to ≤ length wanted.now) }
    ensures met { IfOk result (λ to. AreMet (pairs_of wanted.now) to (flat_map row_pairs rows.now)) }
    ensures wrong { Ascends kind (pairs_of wanted.now) → Ascends kind (flat_map row_pairs rows.now) → IfErr result (IsTold index.now kind (pairs_of wanted.now) (flat_map row_pairs rows.now)) }
{
    let mut at = 0;
    for i in 0..rows.len() {
        match hold_row(alloc, index, kind, wanted, at, &rows[i]) {
            Ok(to) => at = to,
            Err(fault) => return Err(fault),
        }
    }
    Ok(at)
}

/// Holds the rows of an index against the pairs that it has to list; both ascend by key and number. Where they differ, the first pair that
/// stands in one of the two alone is told, as missing or as one too many.
pub fn compare_pairs(
    alloc: Global,
    index: &[u8],
    kind: KeyKind,
    wanted: &[Pair],
    rows: &[RangedRow],
) -> Result<(), NodeFault>
    ensures same { OnOk result (pairs_of wanted.now ≡ flat_map row_pairs rows.now) }
    ensures wrong { Ascends kind (pairs_of wanted.now) → Ascends kind (flat_map row_pairs rows.now) → IfErr result (IsTold index.now kind (pairs_of wanted.now) (flat_map row_pairs rows.now)) }
{
    let at = match hold_rows(alloc, index, kind, wanted, rows) {
        Ok(at) => at,
        Err(fault) => return Err(fault),
    };
    if at == wanted.len() {
        return Ok(());
    }
    let next = &wanted[at];
    Err(missing(alloc, index, kind, next.key.as_slice(), next.id))
}
