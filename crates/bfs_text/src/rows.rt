// The lists in replies.
ghost use Rattle.std.specs.Prelude.{◌≡◌, ◌++◌, ◌∷◌, OnOk, codes, decimal};
ghost use Rattle.std.specs.List.{flat_map};
ghost use Rattle.bfs_text.specs.Printed.{named, attribute_row, index_row, found_row, listed, info_words, owner_words, stamp_words, and_stamp, type_word, word};

use crate::put::{
    put, put_and_number, put_and_signed, put_key, put_kind, put_name, put_number, put_octal,
    put_type, put_word,
};
use bfs_tree::{AttributeRow, Bytes, FoundRow, IndexRow, Info, code_of};
use std::alloc::AllocError;

/// `ok` and how many rows there are.
fn put_count(out: &mut Vec<u8>, count: usize) -> Result<(), AllocError>
    ensures { OnOk result (out.new.items ≡ out.old.items ++ (codes "ok " ++ decimal count)) }
{
    put(out, b"ok ")?;
    put_number(out, count as u64)
}

/// A space and a name.
fn put_named(out: &mut Vec<u8>, name: &[u8]) -> Result<(), AllocError>
    ensures { OnOk result (out.new.items ≡ out.old.items ++ named name.now) }
{
    put(out, b" ")?;
    put_word(out, name)
}

/// A space, a type, `=` and a name.
fn put_typed(out: &mut Vec<u8>, code: u32, name: &[u8]) -> Result<(), AllocError>
    ensures { OnOk result (out.new.items ≡ out.old.items ++ (32 ∷ (type_word code ++ (61 ∷ word name.now)))) }
{
    put(out, b" ")?;
    put_type(out, code)?;
    put(out, b"=")?;
    put_word(out, name)
}

/// A space, a key, `=` and a node's name.
fn put_found(out: &mut Vec<u8>, row: &FoundRow) -> Result<(), AllocError>
    ensures { OnOk result (out.new.items ≡ out.old.items ++ found_row row.now) }
{
    put(out, b" ")?;
    put_key(out, &row.key)?;
    put(out, b"=")?;
    put_name(out, row.name.as_slice())
}

/// How many names there are, and the names.
pub fn put_names(out: &mut Vec<u8>, rows: &[Bytes]) -> Result<(), AllocError>
    ensures { OnOk result (out.new.items ≡ out.old.items ++ listed named rows.now) }
{
    put_count(out, rows.len())?;
    'rows: for at in 0..rows.len() {
        put_named(out, rows[at].as_slice())?;
    }
    Ok(())
}

pub fn put_attributes(out: &mut Vec<u8>, rows: &[AttributeRow]) -> Result<(), AllocError>
    ensures { OnOk result (out.new.items ≡ out.old.items ++ listed attribute_row rows.now) }
{
    put_count(out, rows.len())?;
    'rows: for at in 0..rows.len() {
        let row = &rows[at];
        put_typed(out, row.kind, row.name.as_slice())?;
    }
    Ok(())
}

pub fn put_indices(out: &mut Vec<u8>, rows: &[IndexRow]) -> Result<(), AllocError>
    ensures { OnOk result (out.new.items ≡ out.old.items ++ listed index_row rows.now) }
{
    put_count(out, rows.len())?;
    'rows: for at in 0..rows.len() {
        let row = &rows[at];
        put_typed(out, code_of(row.kind), row.name.as_slice())?;
    }
    Ok(())
}

pub fn put_rows(out: &mut Vec<u8>, rows: &[FoundRow]) -> Result<(), AllocError>
    ensures { OnOk result (out.new.items ≡ out.old.items ++ listed found_row rows.now) }
{
    put_count(out, rows.len())?;
    'rows: for at in 0..rows.len() {
        put_found(out, &rows[at])?;
    }
    Ok(())
}

/// Two stamps.
fn put_two(out: &mut Vec<u8>, first: i64, second: i64) -> Result<(), AllocError>
    ensures { OnOk result (out.new.items ≡ out.old.items ++ (and_stamp first ++ and_stamp second)) }
{
    put_and_signed(out, first)?;
    put_and_signed(out, second)
}

/// A node's size and its three stamps.
fn put_stamps(out: &mut Vec<u8>, info: &Info) -> Result<(), AllocError>
    ensures { OnOk result (out.new.items ≡ out.old.items ++ stamp_words info.now) }
{
    put_and_number(out, info.size)?;
    put_and_signed(out, info.created)?;
    put_two(out, info.modified, info.changed)?;
    Ok(())
}

/// A node's mode, user and group.
fn put_owner(out: &mut Vec<u8>, info: &Info) -> Result<(), AllocError>
    ensures { OnOk result (out.new.items ≡ out.old.items ++ owner_words info.now) }
{
    put(out, b" ")?;
    put_octal(out, info.mode)?;
    put_and_signed(out, i64::from(info.uid))?;
    put_and_signed(out, i64::from(info.gid))
}

/// What a node's record says.
pub fn put_info(out: &mut Vec<u8>, info: &Info) -> Result<(), AllocError>
    ensures { OnOk result (out.new.items ≡ out.old.items ++ info_words info.now) }
{
    put(out, b"ok ")?;
    put_kind(out, info.kind)?;
    put_owner(out, info)?;
    put_stamps(out, info)
}
