// The workload and the summary of a worked number.
ghost use Rattle.std.specs.Prelude.{◌≤◌};

use crate::draws::{drawn, next_state};
use crate::{make_workload, summarize};
use bfs_command::{Command, Line};
use bfs_script::Script;
use bfs_tree::{Call, Entry, Reply};
use std::alloc::{AllocError, Global};
use std::test::Fail;

#[test]
fn the_first_state_and_its_draw_are_known(rt: HostRuntime) {
    let state = next_state(7);
    assert_eq!(rt; state, 9_098_160_460_397_411_210);
    assert_eq!(rt; drawn(8, state), 6);
}

// What a line makes or does: the folder that it makes, or that it is a listing.
fn push_command(out: &mut Vec<u8>, command: &Command) -> Result<(), AllocError> {
    match command {
        Command::MakeDir { path } => {
            for name in path.names() {
                out.push(b'/')?;
                out.extend_from_slice(name.as_slice())?;
            }
            Ok(())
        }
        Command::List { .. } => out.extend_from_slice(b"ls"),
        _ => {
            out.push(b'?')?;
            Ok(())
        }
    }
}

// The number and the session of a line, and what it makes or does.
fn push_line(out: &mut Vec<u8>, alloc: Global, line: &Line) -> Result<(), AllocError> {
    out.extend_from_slice(format!(in alloc; "{} {} ", line.number, line.session)?.as_bytes())?;
    push_command(out, &line.command)?;
    out.push(b'\n')?;
    Ok(())
}

// All lines so.
fn outline(alloc: Global, script: &Script) -> Result<Vec<u8>, AllocError> {
    let mut out = Vec::new(alloc);
    for at in 0..script.len() {
        let line = script.line(alloc, at)?;
        push_line(&mut out, alloc, &line)?;
    }
    Ok(out)
}

// Are the lines of a workload these?
fn is_outline(alloc: Global, count: u32, want: &[u8]) -> Result<bool, AllocError>
    requires { count ≤ 1048572 }
{
    let script = make_workload(alloc, 7, count)?;
    Ok(outline(alloc, &script)?.as_slice() == want)
}

#[test]
fn a_workload_begins_with_four_folders(rt: HostRuntime) -> Result<(), Fail> {
    let alloc = rt.alloc();
    let folders = b"1 1 /s1\n2 2 /s2\n3 3 /s3\n4 4 /s4\n".as_slice();
    assert!(rt; is_outline(alloc, 0, folders)?);
    let listing = b"1 1 /s1\n2 2 /s2\n3 3 /s3\n4 4 /s4\n5 2 ls\n".as_slice();
    assert!(rt; is_outline(alloc, 1, listing)?);
    Ok(())
}

fn entry(session: u32, reply: Reply) -> Entry {
    Entry {
        session,
        tag: 1,
        stamp: 1,
        call: Call::IndexList,
        reply,
    }
}

#[test]
fn a_summary_counts_what_is_done_and_refused(rt: HostRuntime) -> Result<(), Fail> {
    let alloc = rt.alloc();
    let mut history = Vec::new(alloc);
    history.push(entry(1, Reply::Done))?;
    history.push(entry(2, Reply::Exists))?;
    history.push(entry(3, Reply::Held { session: 1 }))?;
    history.push(entry(
        0,
        Reply::Stopped {
            durable: 0,
            faults: 1,
        },
    ))?;
    history.push(entry(4, Reply::Synced { upto: 1 }))?;
    let line = summarize(alloc, 4, &history, 5)?;
    assert!(rt; line.as_slice() == b"lines 4 ok 2 refused 1 nodes 5\n".as_slice());
    Ok(())
}
