// The words of replies.
ghost use Rattle.std.specs.Prelude.{◌≡◌, ◌++◌, ◌∷◌, OnOk, codes};
ghost use Rattle.bfs_text.specs.Printed.{words_of_reply, type_word, counted, word, and_number};

use crate::put::{put, put_and_number, put_counted, put_type, put_word};
use crate::rows::{put_attributes, put_indices, put_info, put_names, put_rows};
use bfs_tree::Reply;
use std::alloc::AllocError;

/// An attribute's type, and its bytes.
fn put_attribute(out: &mut Vec<u8>, kind: u32, bytes: &[u8]) -> Result<(), AllocError>
    ensures { OnOk result (out.new.items ≡ out.old.items ++ (codes "ok " ++ (type_word kind ++ (32 ∷ counted bytes.now)))) }
{
    put(out, b"ok ")?;
    put_type(out, kind)?;
    put(out, b" ")?;
    put_counted(out, bytes)
}

/// A link's target.
fn put_target(out: &mut Vec<u8>, bytes: &[u8]) -> Result<(), AllocError>
    ensures { OnOk result (out.new.items ≡ out.old.items ++ (codes "ok " ++ word bytes.now)) }
{
    put(out, b"ok ")?;
    put_word(out, bytes)
}

/// A word and a number behind it.
fn put_with(out: &mut Vec<u8>, name: &[u8], number: u64) -> Result<(), AllocError>
    ensures { OnOk result (out.new.items ≡ out.old.items ++ (name.now ++ and_number number)) }
{
    put(out, name)?;
    put_and_number(out, number)
}

/// A word and two numbers behind it.
fn put_with_two(out: &mut Vec<u8>, name: &[u8], first: u64, second: u64) -> Result<(), AllocError>
    ensures { OnOk result (out.new.items ≡ out.old.items ++ (name.now ++ (and_number first ++ and_number second))) }
{
    put(out, name)?;
    put_and_number(out, first)?;
    put_and_number(out, second)
}

/// The words of a reply.
pub fn put_reply(out: &mut Vec<u8>, reply: &Reply) -> Result<(), AllocError>
    ensures { OnOk result (out.new.items ≡ out.old.items ++ words_of_reply reply.now) }
{
    match reply {
        Reply::Made { .. } | Reply::Done | Reply::Found { .. } | Reply::Synced { .. } => {
            put(out, b"ok")
        }
        Reply::Names { names } => put_names(out, names.as_slice()),
        Reply::Info { info } => put_info(out, info),
        Reply::Target { bytes } => put_target(out, bytes.as_slice()),
        Reply::Attr { kind, bytes } => put_attribute(out, *kind, bytes.as_slice()),
        Reply::Attrs { rows } => put_attributes(out, rows.as_slice()),
        Reply::Indices { rows } => put_indices(out, rows.as_slice()),
        Reply::Rows { rows } => put_rows(out, rows.as_slice()),
        Reply::NotFound => put(out, b"notfound"),
        Reply::NotDir => put(out, b"notdir"),
        Reply::NotFile => put(out, b"notfile"),
        Reply::NotLink => put(out, b"notlink"),
        Reply::NameBad => put(out, b"namebad"),
        Reply::TooBig => put(out, b"toobig"),
        Reply::Exists => put(out, b"exists"),
        Reply::NotEmpty => put(out, b"notempty"),
        Reply::Inside => put(out, b"inside"),
        Reply::NoAttr => put(out, b"noattr"),
        Reply::FloatIndex => put(out, b"floatindex"),
        Reply::IndexCount => put(out, b"indexcount"),
        Reply::NoIndex => put(out, b"noindex"),
        Reply::BuiltIn => put(out, b"builtin"),
        Reply::KeyKind => put(out, b"keykind"),
        Reply::PastEnd { size } => put_with(out, b"pastend", *size),
        Reply::Held { .. } => put(out, b"held"),
        Reply::NoSpace { free, .. } => put_with(out, b"nospace", *free),
        Reply::NoLogRoom { blocks, room } => put_with_two(out, b"nologroom", *blocks, *room),
        Reply::DiskFault { .. } => put(out, b"diskfault"),
        Reply::Stopped { durable, .. } => put_with(out, b"stopped", *durable),
        Reply::Damaged { block } => put_with(out, b"damaged", *block),
    }
}
