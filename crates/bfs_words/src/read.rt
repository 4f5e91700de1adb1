// From what `clap` finds to what the words ask for.
ghost use Rattle.std.specs.Prelude.{◌≡◌, ℕ, List, IfOk, MatchResult, option_map, codes};
ghost use Rattle.clap.specs.Words.{found_of, rows_of, subcommand_rows_of};
ghost use Rattle.clap.specs.Walk.{first_of};
ghost use Rattle.bfs_words.specs.Words.{IsBlocks, IsSize, IsName, IsNewName, IsWorkers, IsSeed, IsCount, IsVolume, IsWorkload, Means, Asks};

use crate::argument::Argument;
use crate::command::{Command, Complaint, NewVolume, Workload};
use crate::line::command_line;
use crate::number::{read_number, read_size};
use bfs_super::is_label;
use clap::ArgMatches;
use clap::error::ErrorKind;
use std::alloc::{AllocError, Global};

/// The most blocks that a volume may have.
const MOST_BLOCKS: u64 = 4_194_304;

/// The most commands that a workload may have.
const MOST_COMMANDS: u64 = 1_048_572;

// The word that was found for an argument.
fn word_of<'a>(found: &ArgMatches<'a>, id: &str) -> Option<&'a str>
    ensures { option_map (λ s. s.now) result ≡ first_of id.now (rows_of (found_of found.now)) }
{
    found.get_str(id)
}

fn blocks_in(word: Option<&str>) -> Result<u64, Complaint<'_>>
    ensures { MatchResult result (IsBlocks (option_map (λ s. s.now) word.entry)) (λ _. (n : ℕ) → IsBlocks (option_map (λ s. s.now) word.entry) n → ⊥) }
{
    let Some(word) = word else {
        return Err(Complaint::Number(""));
    };
    match read_number(word.as_bytes(), MOST_BLOCKS) {
        Some(blocks) => Ok(blocks),
        None => Err(Complaint::Number(word)),
    }
}

fn size_in(word: Option<&str>) -> Result<u32, Complaint<'_>>
    ensures { MatchResult result (IsSize (option_map (λ s. s.now) word.entry)) (λ _. (n : ℕ) → IsSize (option_map (λ s. s.now) word.entry) n → ⊥) }
{
    let Some(word) = word else {
        return Ok(1024);
    };
    match read_size(word.as_bytes()) {
        Some(size) => Ok(size),
        None => Err(Complaint::Number(word)),
    }
}

fn name_in(word: Option<&str>) -> Result<&[u8], Complaint<'_>>
    ensures { MatchResult result (λ name. IsName (option_map (λ s. s.now) word.entry) name.now) (λ _. (name : List ℕ) → IsName (option_map (λ s. s.now) word.entry) name → ⊥) }
{
    let Some(word) = word else {
        return Ok(b"untitled");
    };
    if is_label(word.as_bytes()) {
        Ok(word.as_bytes())
    } else {
        Err(Complaint::Label(word))
    }
}

fn new_name_in(word: Option<&str>) -> Result<&[u8], Complaint<'_>>
    ensures { MatchResult result (λ name. IsNewName (option_map (λ s. s.now) word.entry) name.now) (λ _. (name : List ℕ) → IsNewName (option_map (λ s. s.now) word.entry) name → ⊥) }
{
    let Some(word) = word else {
        return Err(Complaint::Label(""));
    };
    if is_label(word.as_bytes()) {
        Ok(word.as_bytes())
    } else {
        Err(Complaint::Label(word))
    }
}

// Reads the number of workers, which is one.
fn one_worker_in(word: Option<&str>) -> Result<(), Complaint<'_>>
    ensures { MatchResult result (λ _. IsWorkers (option_map (λ s. s.now) word.entry)) (λ _. IsWorkers (option_map (λ s. s.now) word.entry) → ⊥) }
{
    let Some(word) = word else {
        return Ok(());
    };
    match read_number(word.as_bytes(), 1) {
        Some(1) => Ok(()),
        _ => Err(Complaint::Number(word)),
    }
}

fn seed_in(word: Option<&str>) -> Result<u64, Complaint<'_>>
    ensures { MatchResult result (IsSeed (option_map (λ s. s.now) word.entry)) (λ _. (n : ℕ) → IsSeed (option_map (λ s. s.now) word.entry) n → ⊥) }
{
    let Some(word) = word else {
        return Err(Complaint::Number(""));
    };
    match read_number(word.as_bytes(), u64::MAX) {
        Some(seed) => Ok(seed),
        None => Err(Complaint::Number(word)),
    }
}

fn count_in(word: Option<&str>) -> Result<u32, Complaint<'_>>
    ensures { MatchResult result (IsCount (option_map (λ s. s.now) word.entry)) (λ _. (n : ℕ) → IsCount (option_map (λ s. s.now) word.entry) n → ⊥) }
{
    let Some(word) = word else {
        return Err(Complaint::Number(""));
    };
    match read_number(word.as_bytes(), MOST_COMMANDS) {
        Some(count) => Ok(count as u32),
        None => Err(Complaint::Number(word)),
    }
}

// Reads the arguments of `mk`.
fn read_volume<'a>(found: &ArgMatches<'a>) -> Result<NewVolume<'a>, Complaint<'a>>
    ensures { MatchResult result (λ v. IsVolume (rows_of (found_of found.now)) v.blocks v.block_size v.label.now)
        (λ _. (blocks size : ℕ) (label : List ℕ) → IsVolume (rows_of (found_of found.now)) blocks size label → ⊥) }
{
    let blocks = blocks_in(word_of(found, "blocks"))?;
    let block_size = size_in(word_of(found, "block-size"))?;
    let label = name_in(word_of(found, "name"))?;
    Ok(NewVolume {
        blocks,
        block_size,
        label,
    })
}

// Reads the arguments of `soak`.
fn read_workload<'a>(found: &ArgMatches<'a>) -> Result<Workload, Complaint<'a>>
    ensures { MatchResult result (λ w. IsWorkload (rows_of (found_of found.now)) w.seed w.count)
        (λ _. (seed count : ℕ) → IsWorkload (rows_of (found_of found.now)) seed count → ⊥) }
{
    let seed = seed_in(word_of(found, "seed"))?;
    let count = count_in(word_of(found, "count"))?;
    one_worker_in(word_of(found, "workers"))?;
    Ok(Workload { seed, count })
}

// Reads the command that `clap` found.
fn read_found<'a>(matches: &ArgMatches<'a>) -> Command<'a>
    ensures { Means (subcommand_rows_of matches.now) result }
{
    let Some((name, found)) = matches.subcommand() else {
        return Command::Faulty(Complaint::Unbuilt(""));
    };
    if name == "label" {
        return match new_name_in(word_of(found, "name")) {
            Ok(name) => Command::Label(name),
            Err(complaint) => Command::Faulty(complaint),
        };
    }
    if name == "mk" {
        return match read_volume(found) {
            Ok(volume) => Command::Make(volume),
            Err(complaint) => Command::Faulty(complaint),
        };
    }
    if name == "check" {
        return Command::Check;
    }
    if name == "sh" {
        return match one_worker_in(word_of(found, "workers")) {
            Ok(()) => Command::Shell,
            Err(complaint) => Command::Faulty(complaint),
        };
    }
    if name == "soak" {
        return match read_workload(found) {
            Ok(workload) => Command::Soak(workload),
            Err(complaint) => Command::Faulty(complaint),
        };
    }
    Command::Faulty(Complaint::Unbuilt(name))
}

/// Reads the words behind the image's path. The only error is want of memory.
pub fn read_words<'a>(alloc: Global, words: &'a [Argument]) -> Result<Command<'a>, AllocError>
    ensures { IfOk result (Asks words.now) }
{
    if words.is_empty() {
        return Ok(Command::Usage);
    }
    match command_line(alloc)?.try_get_matches_from(words) {
        Ok(matches) => Ok(read_found(&matches)),
        Err(error) => match error.kind() {
            ErrorKind::OutOfMemory => Err(AllocError),
            _ => Ok(Command::Faulty(Complaint::Refused(error))),
        },
    }
}
