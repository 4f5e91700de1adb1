// The words of a finding, and its line.
ghost use Rattle.std.specs.Prelude.{◌≡◌, ◌++◌, ◌∷◌, OnOk, codes};
ghost use Rattle.bfs_text.specs.Printed.{named, and_number, and_stamp};
ghost use Rattle.bfs_finding_text.specs.Texts.{and_key, and_own, row_words, words_of, line_of};

use bfs_finding::{Finding, fault_number, inode_number, page_number};
use bfs_text::put::{put, put_and_number, put_and_signed, put_key, put_word};
use bfs_tree::{Bytes, Key};
use std::alloc::AllocError;

/// A word and a number.
fn put_number(out: &mut Vec<u8>, word: &[u8], number: u64) -> Result<(), AllocError>
    ensures { OnOk result (out.new.items ≡ out.old.items ++ (word.now ++ and_number number)) }
{
    put(out, word)?;
    put_and_number(out, number)
}

/// A word and two numbers.
fn put_pair(out: &mut Vec<u8>, word: &[u8], first: u64, second: u64) -> Result<(), AllocError>
    ensures { OnOk result (out.new.items ≡ out.old.items ++ (word.now ++ (and_number first ++ and_number second))) }
{
    put(out, word)?;
    put_and_number(out, first)?;
    put_and_number(out, second)
}

/// A word and three numbers.
fn put_triple(
    out: &mut Vec<u8>,
    word: &[u8],
    first: u64,
    second: u64,
    third: u64,
) -> Result<(), AllocError>
    ensures { OnOk result (out.new.items ≡ out.old.items ++ (word.now ++ (and_number first ++ (and_number second ++ and_number third)))) }
{
    put(out, word)?;
    put_and_number(out, first)?;
    put_and_number(out, second)?;
    put_and_number(out, third)
}

/// Two numbers with their signs.
fn put_signed_pair(out: &mut Vec<u8>, first: i64, second: i64) -> Result<(), AllocError>
    ensures { OnOk result (out.new.items ≡ out.old.items ++ (and_stamp first ++ and_stamp second)) }
{
    put_and_signed(out, first)?;
    put_and_signed(out, second)
}

/// A space and a name.
fn put_named(out: &mut Vec<u8>, name: &Bytes) -> Result<(), AllocError>
    ensures { OnOk result (out.new.items ≡ out.old.items ++ named name.now) }
{
    put(out, b" ")?;
    put_word(out, name.as_slice())
}

/// A space and a node's own name, or `-` where it has none.
fn put_own(out: &mut Vec<u8>, name: &Option<Bytes>) -> Result<(), AllocError>
    ensures { OnOk result (out.new.items ≡ out.old.items ++ and_own name.now) }
{
    match name {
        None => put(out, b" -"),
        Some(name) => put_named(out, name),
    }
}

/// A word, a number, and two numbers with their signs.
fn put_stream(out: &mut Vec<u8>, owner: u64, found: i64, wanted: i64) -> Result<(), AllocError>
    ensures { OnOk result (out.new.items ≡ out.old.items ++ (codes "stream" ++ (and_number owner ++ (and_stamp found ++ and_stamp wanted)))) }
{
    put_number(out, b"stream", owner)?;
    put_signed_pair(out, found, wanted)
}

fn put_inode(out: &mut Vec<u8>, block: u64, part: u64, found: i64) -> Result<(), AllocError>
    ensures { OnOk result (out.new.items ≡ out.old.items ++ (codes "inode" ++ (and_number block ++ (and_number part ++ and_stamp found)))) }
{
    put_pair(out, b"inode", block, part)?;
    put_and_signed(out, found)
}

fn put_link(
    out: &mut Vec<u8>,
    owner: u64,
    page: u64,
    found: i64,
    wanted: i64,
) -> Result<(), AllocError>
    ensures { OnOk result (out.new.items ≡ out.old.items ++ (codes "treelink" ++ (and_number owner ++ (and_number page ++ (and_stamp found ++ and_stamp wanted))))) }
{
    put_pair(out, b"treelink", owner, page)?;
    put_signed_pair(out, found, wanted)
}

fn put_log(out: &mut Vec<u8>, start: i64, end: i64) -> Result<(), AllocError>
    ensures { OnOk result (out.new.items ≡ out.old.items ++ (codes "log" ++ (and_stamp start ++ and_stamp end))) }
{
    put(out, b"log")?;
    put_signed_pair(out, start, end)
}

fn put_row(out: &mut Vec<u8>, owner: u64, value: i64) -> Result<(), AllocError>
    ensures { OnOk result (out.new.items ≡ out.old.items ++ (codes "row" ++ (and_number owner ++ and_stamp value))) }
{
    put_number(out, b"row", owner)?;
    put_and_signed(out, value)
}

fn put_name(out: &mut Vec<u8>, id: u64, row: &Bytes, item: &Option<Bytes>) -> Result<(), AllocError>
    ensures { OnOk result (out.new.items ≡ out.old.items ++ (codes "name" ++ (and_number id ++ (named row.now ++ and_own item.now)))) }
{
    put_number(out, b"name", id)?;
    put_named(out, row)?;
    put_own(out, item)
}

fn put_parent(out: &mut Vec<u8>, id: u64, found: i64, wanted: u64) -> Result<(), AllocError>
    ensures { OnOk result (out.new.items ≡ out.old.items ++ (codes "parent" ++ (and_number id ++ (and_stamp found ++ and_number wanted)))) }
{
    put_number(out, b"parent", id)?;
    put_and_signed(out, found)?;
    put_and_number(out, wanted)
}

fn put_attribute(out: &mut Vec<u8>, id: u64, name: &Bytes) -> Result<(), AllocError>
    ensures { OnOk result (out.new.items ≡ out.old.items ++ (codes "attribute" ++ (and_number id ++ named name.now))) }
{
    put_number(out, b"attribute", id)?;
    put_named(out, name)
}

fn put_index(out: &mut Vec<u8>, name: &Bytes) -> Result<(), AllocError>
    ensures { OnOk result (out.new.items ≡ out.old.items ++ (codes "indexrow missing" ++ (named name.now ++ codes " - 0"))) }
{
    put(out, b"indexrow missing")?;
    put_named(out, name)?;
    put(out, b" - 0")
}

/// A word, and a row of an index.
fn put_index_row(
    out: &mut Vec<u8>,
    word: &[u8],
    index: &Bytes,
    key: &Key,
    id: u64,
) -> Result<(), AllocError>
    ensures { OnOk result (out.new.items ≡ out.old.items ++ (word.now ++ row_words index.now key.now id)) }
{
    put(out, word)?;
    put_named(out, index)?;
    put(out, b" ")?;
    put_key(out, key)?;
    put_and_number(out, id)
}

fn put_used(out: &mut Vec<u8>, found: i64, wanted: u64) -> Result<(), AllocError>
    ensures { OnOk result (out.new.items ≡ out.old.items ++ (codes "used" ++ (and_stamp found ++ and_number wanted))) }
{
    put(out, b"used")?;
    put_and_signed(out, found)?;
    put_and_number(out, wanted)
}

/// The words of a finding.
fn put_words(out: &mut Vec<u8>, finding: &Finding) -> Result<(), AllocError>
    ensures { OnOk result (out.new.items ≡ out.old.items ++ words_of finding.now) }
{
    match finding {
        Finding::Super(fault) => put_number(out, b"super", u64::from(fault_number(*fault))),
        Finding::Log { start, end } => put_log(out, *start, *end),
        Finding::Inode { block, part, found } => put_inode(
            out,
            *block,
            inode_number(*part),
            *found,
        ),
        Finding::Stream {
            owner,
            found,
            wanted,
        } => put_stream(out, *owner, *found, *wanted),
        Finding::Shared {
            block,
            first,
            second,
        } => put_triple(out, b"shared", *block, *first, *second),
        Finding::TreeOrder { owner, page, index } => put_triple(
            out,
            b"treeorder",
            *owner,
            *page,
            *index,
        ),
        Finding::TreeLink {
            owner,
            page,
            found,
            wanted,
        } => put_link(out, *owner, *page, *found, *wanted),
        Finding::TreePage { owner, page, part } => put_triple(
            out,
            b"treepage",
            *owner,
            *page,
            page_number(*part),
        ),
        Finding::Row { owner, value } => put_row(out, *owner, *value),
        Finding::Name { id, row, item } => put_name(out, *id, row, item),
        Finding::Parent { id, found, wanted } => put_parent(out, *id, *found, *wanted),
        Finding::Attribute { id, name } => put_attribute(out, *id, name),
        Finding::IndexMissing { name } => put_index(out, name),
        Finding::RowMissing { index, key, id } => put_index_row(
            out,
            b"indexrow missing",
            index,
            key,
            *id,
        ),
        Finding::RowExtra { index, key, id } => put_index_row(
            out,
            b"indexrow extra",
            index,
            key,
            *id,
        ),
        Finding::BitUnset { block, owner } => put_pair(out, b"bitunset", *block, *owner),
        Finding::BitExtra { block } => put_number(out, b"bitextra", *block),
        Finding::Used { found, wanted } => put_used(out, *found, *wanted),
    }
}

/// The line of a finding, behind the text.
pub fn put_line(out: &mut Vec<u8>, finding: &Finding) -> Result<(), AllocError>
    ensures { OnOk result (out.new.items ≡ out.old.items ++ line_of (words_of finding.now)) }
{
    put(out, b"finding ")?;
    put_words(out, finding)?;
    put(out, b"\n")
}
