// The summary of a run: how many lines, how many entries with a line are done and refused, and how many nodes.
ghost use Rattle.std.specs.Prelude.{◌≡◌, ◌++◌, ◌≤◌, IfOk, OnOk, length, decimal};
ghost use Rattle.bfs_soak.specs.Summary.{is_ok, count_ok, count_refused, summary_of};

use bfs_script::is_quiet;
use bfs_tree::{Call, Entry, Reply};
use itoa::Buffer;
use std::alloc::{AllocError, Global};

/// Do the words of the entry begin with `ok`?
fn is_ok(entry: &Entry) -> bool
    ensures { result ≡ is_ok entry.now }
{
    match &entry.reply {
        Reply::Done => match &entry.call {
            Call::Release { whole, .. } => *whole,
            _ => true,
        },
        Reply::Made { .. }
        | Reply::Found { .. }
        | Reply::Names { .. }
        | Reply::Info { .. }
        | Reply::Target { .. }
        | Reply::Attr { .. }
        | Reply::Attrs { .. }
        | Reply::Indices { .. }
        | Reply::Rows { .. }
        | Reply::Synced { .. } => true,
        _ => false,
    }
}

/// How many entries with a line are done, and how many are refused.
#[derive(Clone, Copy)]
struct Counts {
    ok: u64,
    refused: u64,
}

fn count(history: &[Entry]) -> Counts
    ensures ok { result.ok ≡ count_ok history.now }
    ensures refused { result.refused ≡ count_refused history.now }
{
    let mut ok = 0;
    let mut refused = 0;
    'entries: for at in 0..history.len() {
        let entry = &history[at];
        if !is_quiet(entry) {
            if is_ok(entry) {
                ok += 1;
            } else {
                refused += 1;
            }
        }
    }
    Counts { ok, refused }
}

/// Puts a text and a number behind a line.
fn put(out: &mut Vec<u8>, text: &[u8], number: u64) -> Result<(), AllocError>
    ensures { OnOk result (out.new.items ≡ out.old.items ++ (text.now ++ decimal number)) }
{
    let mut buffer = Buffer::new();
    out.extend_from_slice(text)?;
    out.extend_from_slice(buffer.format(number).as_bytes())?;
    Ok(())
}

/// The line of a run over a script of so many lines, after which there are so many nodes.
pub fn summarize(
    alloc: Global,
    lines: u64,
    history: &[Entry],
    nodes: u64,
) -> Result<Vec<u8>, AllocError>
    ensures { IfOk result (λ out. out.items ≡ summary_of lines history.now nodes) }
{
    let counts = count(history);
    let mut out = Vec::new(alloc);
    put(&mut out, b"lines ", lines)?;
    put(&mut out, b" ok ", counts.ok)?;
    put(&mut out, b" refused ", counts.refused)?;
    put(&mut out, b" nodes ", nodes)?;
    out.extend_from_slice(b"\n")?;
    Ok(out)
}
