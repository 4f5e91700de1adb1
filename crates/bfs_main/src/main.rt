// The program `bfs`: an image file and the words behind it are handed to the top call `bfs`, and its status is the program's. Standard input,
// output and error are kept from the image.
#![tactic(auto)]

use bfs_disk::FileDisk;
use bfs_ports::{Input, NoGate, Output, SystemClock};
use bfs_tool::bfs;
use bfs_words::Argument;
use std::alloc::{AllocError, Global};
use std::env::{Env, FillError};
use std::fs::File;
use std::process::ExitCode;
use std::{env, io, str};

// Opens a file of which nothing can be read and to which nothing can be written: a directory. A closed standard input isn't an empty script.
fn open_idle(rt: &HostRuntime) -> io::Result<File> {
    match File::open(rt, "/") {
        Ok(file) => Ok(file),
        Err(_) => File::open(rt, "/dev/null"),
    }
}

// Files that keep the descriptors of standard input, output and error taken. Where one of the three is closed when the
// program begins, the next file that is opened would get its number, and what is printed would go into the image.
fn held_files(rt: &HostRuntime) -> io::Result<(File, File, File)> {
    let input = open_idle(rt)?;
    let output = open_idle(rt)?;
    let error = open_idle(rt)?;
    Ok((input, output, error))
}

// The first word that isn't UTF-8, with its bytes as escapes; an empty one where a word of more than 1,024 bytes hides it.
fn unreadable_word(rt: &HostRuntime) -> Result<String, AllocError> {
    let mut word = [0u8; 1024];
    for i in 1..65536usize {
        match rt.arg(i, &mut word) {
            Ok(n) => {
                if str::from_utf8(&word[..n]).is_err() {
                    return format!(in rt.alloc(); "{}", word[..n].escape_ascii());
                }
            }
            Err(FillError::TooLong) => {}
            Err(FillError::NotPresent) => break,
        }
    }
    Ok(String::new(rt.alloc()))
}

// Puts a word behind the others.
fn push_word(alloc: Global, words: &mut Vec<Argument>, text: &str) -> Result<(), AllocError> {
    words.push(Argument::of(alloc, text)?)?;
    Ok(())
}

// Reads the image's path, and the words behind it. A word that isn't UTF-8 makes a faulty command line: it stands alone there, with an
// escape `\xNN` for each byte that isn't ASCII.
fn read_line(
    rt: &HostRuntime,
    image: &mut Option<String>,
    words: &mut Vec<Argument>,
) -> Result<(), AllocError> {
    let alloc = rt.alloc();
    let Ok(args) = env::args(rt) else {
        let word = unreadable_word(rt)?;
        return push_word(alloc, words, word.as_str());
    };
    for (i, word) in args.enumerate() {
        if i == 1 {
            *image = Some(word);
        } else if i > 1 {
            push_word(alloc, words, word.as_str())?;
        }
    }
    Ok(())
}

// Runs the command that the words ask for on the image at this path, and tells the status.
fn run(rt: &HostRuntime, path: &str, words: &[Argument]) -> u8 {
    let Ok(disk) = FileDisk::named(rt, path) else {
        return 7;
    };
    let mut out = Output::over(io::writer(rt));
    let mut script = Input::over(rt.stdin());
    let clock = SystemClock::over(rt);
    let (status, disk) = bfs(rt, words, disk, &mut script, &mut out, clock, &NoGate);
    if let Some(failure) = disk.failure() {
        let _ = eprintln!(rt; "bfs: {path}: {failure}");
    }
    status
}

// Runs it while the descriptors are held.
fn run_held(rt: &HostRuntime, path: &str, words: &[Argument]) -> u8 {
    match held_files(rt) {
        Ok(_held) => run(rt, path, words),
        Err(error) => {
            let _ = eprintln!(rt; "bfs: neither / nor /dev/null can be opened: {error}");
            4
        }
    }
}

fn main(rt: HostRuntime) -> ExitCode {
    let mut image = None;
    let mut words = Vec::new(rt.alloc());
    if read_line(&rt, &mut image, &mut words).is_err() {
        return ExitCode::from(7);
    }
    let path = match &image {
        Some(path) => path.as_str(),
        None => "",
    };
    ExitCode::from(run_held(&rt, path, &words))
}
