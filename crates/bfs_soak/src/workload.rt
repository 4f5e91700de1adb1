// The workload of a number: its lines are spelled, and read as a script.
ghost use Rattle.std.specs.Prelude.{◌≡◌, ◌<◌, ◌≤◌, ◌∷◌, ◌++◌, [], IfOk, OnOk};
ghost use Rattle.bfs_soak.specs.Workload.{workload, next_state};
ghost use Rattle.bfs_soak.specs.Spellings.{home_text, inside_text, command_text, drawn_text, first_text, workload_text};

use crate::draws::{drawn, next_state};
use bfs_script::{Script, ScriptFault, parse_vec};
use bfs_text::put::{put, put_number};
use std::alloc::{AllocError, Global};

/// The path of a session's folder.
fn put_home(out: &mut Vec<u8>, s: u64) -> Result<(), AllocError>
    ensures { OnOk result (out.new.items ≡ out.old.items ++ home_text s) }
{
    put(out, b"/s")?;
    put_number(out, s)
}

/// The path of what is named by a letter and a number in a session's folder.
fn put_inside(out: &mut Vec<u8>, s: u64, letter: u8, number: u64) -> Result<(), AllocError>
    ensures { OnOk result (out.new.items ≡ out.old.items ++ inside_text s letter number) }
{
    put_home(out, s)?;
    put(out, &[b'/', letter])?;
    put_number(out, number)
}

/// A word, a space and the path of a file.
fn put_file(out: &mut Vec<u8>, word: &[u8], s: u64, a: u64) -> Result<(), AllocError>
    ensures { OnOk result (out.new.items ≡ out.old.items ++ (word.now ++ inside_text s 102 a)) }
{
    put(out, word)?;
    put_inside(out, s, b'f', a)
}

/// The words of a command with the draws k, a and b.
fn put_command(out: &mut Vec<u8>, s: u64, k: u64, a: u64, b: u64) -> Result<(), AllocError>
    requires small { b < 32 }
    ensures { OnOk result (out.new.items ≡ out.old.items ++ command_text s k a b) }
{
    match k {
        0 => put_file(out, b"make ", s, a),
        1 => {
            put(out, b"mkdir ")?;
            put_inside(out, s, b'd', a)
        }
        2 => put_file(out, b"rm ", s, a),
        3 => {
            put_file(out, b"mv ", s, a)?;
            put_file(out, b" ", s, b)
        }
        4 => {
            put_file(out, b"attr ", s, a)?;
            put(out, b" x LONG:")?;
            put_number(out, b)
        }
        5 => {
            put_file(out, b"size ", s, a)?;
            put(out, b" ")?;
            put_number(out, 512 * b)
        }
        6 => {
            put(out, b"ls ")?;
            put_home(out, s)
        }
        _ => put(out, b"sync"),
    }
}

/// The line that makes a session's folder.
fn put_first(out: &mut Vec<u8>, s: u64) -> Result<(), AllocError>
    ensures { OnOk result (out.new.items ≡ out.old.items ++ (first_text s ++ 10 ∷ [])) }
{
    put_number(out, s)?;
    put(out, b" mkdir ")?;
    put_home(out, s)?;
    put(out, b"\n")
}

/// The i-th line behind the first four, and the state after its three draws.
fn put_drawn(out: &mut Vec<u8>, x: u64, i: u32) -> Result<u64, AllocError>
    requires { i ≤ 1048572 }
    ensures line { OnOk result (out.new.items ≡ out.old.items ++ (drawn_text x i ++ 10 ∷ [])) }
    ensures state { IfOk result (λ y. y ≡ next_state (next_state (next_state x))) }
{
    let first = next_state(x);
    let second = next_state(first);
    let third = next_state(second);
    let s = u64::from(i % 4 + 1);
    let (k, a, b) = (drawn(8, first), drawn(32, second), drawn(32, third));
    put_number(out, s)?;
    put(out, b" ")?;
    put_command(out, s, k, a, b)?;
    put(out, b"\n")?;
    Ok(third)
}

/// The lines of a workload: four that make the sessions' folders, and so many more, each of the command that its draws give.
fn spell_workload(alloc: Global, seed: u64, count: u32) -> Result<Vec<u8>, AllocError>
    requires { count ≤ 1048572 }
    ensures { IfOk result (λ out. out.items ≡ workload_text seed count) }
{
    let mut out = Vec::new(alloc);
    put_first(&mut out, 1)?;
    put_first(&mut out, 2)?;
    put_first(&mut out, 3)?;
    put_first(&mut out, 4)?;
    let mut x = seed;
    'lines: for at in 0..count {
        x = put_drawn(&mut out, x, at + 1)?;
    }
    Ok(out)
}

/// The workload of a seed, and of so many lines behind those that make the sessions' folders.
pub fn make_workload(alloc: Global, seed: u64, count: u32) -> Result<Script, AllocError>
    requires { count ≤ 1048572 }
    ensures { IfOk result (λ s. s ≡ workload seed count) }
{
    let lines = spell_workload(alloc, seed, count)?;
    match parse_vec(alloc, lines) {
        Ok(script) => Ok(script),
        Err(fault) => match fault {
            ScriptFault::NoMemory => Err(AllocError),
            ScriptFault::Line { .. } => unreachable!(),
        },
    }
}
