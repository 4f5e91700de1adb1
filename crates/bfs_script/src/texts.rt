// The text of a history.
ghost use Rattle.std.specs.Prelude.{◌≡◌, ◌++◌, IfOk, OnOk};
ghost use Rattle.bfs_script.specs.Texts.{words_of_entry, words_of_piece, is_quiet, line_of, holding_of, text_of};
ghost use Rattle.bfs_script.specs.Readers.{reads_in, without, IsNoted};

use bfs_text::put::{put, put_counted, put_number};
use bfs_text::put_reply;
use bfs_tree::{Call, Entry, Reply};
use std::alloc::{AllocError, Global};

/// The words of a piece that was let go: not read or written whole, read, or written.
fn put_piece(out: &mut Vec<u8>, reading: bool, whole: bool, bytes: &[u8]) -> Result<(), AllocError>
    ensures { OnOk result (out.new.items ≡ out.old.items ++ words_of_piece reading whole bytes.now) }
{
    if !whole {
        return put(out, b"diskfault");
    }
    if !reading {
        return put(out, b"ok");
    }
    put(out, b"ok ")?;
    put_counted(out, bytes)
}

/// The words of an entry; a piece that was let go was held for reading, or for writing.
fn put_words(out: &mut Vec<u8>, reading: bool, entry: &Entry) -> Result<(), AllocError>
    ensures { OnOk result (out.new.items ≡ out.old.items ++ words_of_entry reading entry.now.call entry.now.reply) }
{
    let Reply::Done = &entry.reply else {
        return put_reply(out, &entry.reply);
    };
    match &entry.call {
        Call::Release { bytes, whole, .. } => put_piece(out, reading, *whole, bytes.as_slice()),
        _ => put(out, b"ok"),
    }
}

/// Has the entry no line?
pub fn is_quiet(entry: &Entry) -> bool
    ensures { result ≡ is_quiet entry.now }
{
    if entry.session == 0 {
        return true;
    }
    match &entry.reply {
        Reply::Held { .. } => true,
        Reply::Found { .. } => matches!(&entry.call, Call::Lookup { .. }),
        Reply::Done => matches!(&entry.call, Call::Hold { .. }),
        _ => false,
    }
}

/// The line of an entry, where it has one.
fn put_line(out: &mut Vec<u8>, reading: bool, entry: &Entry) -> Result<(), AllocError>
    ensures { OnOk result (out.new.items ≡ out.old.items ++ line_of reading entry.now) }
{
    if is_quiet(entry) {
        return Ok(());
    }
    put_number(out, u64::from(entry.tag))?;
    put(out, b" ")?;
    put_number(out, u64::from(entry.session))?;
    put(out, b" ")?;
    put_words(out, reading, entry)?;
    put(out, b"\n")
}

/// Whether the entry takes a piece, and takes it for reading.
fn holding(entry: &Entry) -> Option<bool>
    ensures { result ≡ holding_of entry.now.call entry.now.reply }
{
    match (&entry.call, &entry.reply) {
        (Call::Hold { write, .. }, Reply::Done) => Some(!*write),
        _ => None,
    }
}

/// Takes a session from the list.
fn drop_reader(readers: &mut Vec<u32>, session: u32)
    ensures { readers.new.items ≡ without session readers.old.items }
{
    readers.retain(|reader| *reader != session);
}

/// Notes whether a session holds its last piece for reading: the sessions that do are listed.
fn note_reader(readers: &mut Vec<u32>, session: u32, reads: bool) -> Result<(), AllocError>
    ensures { OnOk result (IsNoted session reads readers.old.items readers.new.items) }
{
    drop_reader(readers, session);
    if reads {
        readers.push(session)?;
    }
    Ok(())
}

/// Does the session hold its last piece for reading?
fn is_reader(readers: &[u32], session: u32) -> bool
    ensures { result ≡ reads_in readers.now session }
{
    let mut found = false;
    'readers: for at in 0..readers.len() {
        if readers[at] == session {
            found = true;
        }
    }
    found
}

/// The reply text of a history: a line for each entry that has words, in their order. It is made in one pass, and takes memory
/// for the text alone and for one number for each session.
pub fn text(alloc: Global, history: &[Entry]) -> Result<Vec<u8>, AllocError>
    ensures { IfOk result (λ out. out.items ≡ text_of history.now) }
{
    let mut out = Vec::new(alloc);
    let mut readers = Vec::new(alloc);
    'entries: for at in 0..history.len() {
        let entry = &history[at];
        put_line(&mut out, is_reader(&readers, entry.session), entry)?;
        if let Some(reads) = holding(entry) {
            note_reader(&mut readers, entry.session, reads)?;
        }
    }
    Ok(out)
}
