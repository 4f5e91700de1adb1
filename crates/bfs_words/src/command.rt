// What the words ask for.
use clap::Error;
use std::fmt;

/// The volume that is asked for.
#[derive(Clone, Copy)]
pub struct NewVolume<'a> {
    pub blocks: u64,
    /// In bytes.
    pub block_size: u32,
    pub label: &'a [u8],
}

/// The workload that is asked for.
#[derive(Clone, Copy)]
pub struct Workload {
    pub seed: u64,
    /// How many commands it has.
    pub count: u32,
}

/// Which word is wrong. Its `Display` is a text for the standard error.
#[derive(Drop)]
pub enum Complaint<'a> {
    /// `clap` refuses the words, or they ask for its help; its text says why.
    Refused(Error),
    /// No number in decimal digits, or one that is out of range.
    Number(&'a str),
    /// No label for a volume.
    Label(&'a str),
    /// A command that isn't built yet.
    Unbuilt(&'a str),
}

/// What the words ask for.
#[derive(Drop)]
pub enum Command<'a> {
    /// There are no words.
    Usage,
    /// `label NAME` with a good name.
    Label(&'a [u8]),
    /// `mk`, with good numbers and a good label.
    Make(NewVolume<'a>),
    /// `check`.
    Check,
    /// `sh`, with one worker.
    Shell,
    /// `soak`, with good numbers and one worker.
    Soak(Workload),
    /// Anything else.
    Faulty(Complaint<'a>),
}

impl fmt::Display for Complaint<'_> {
    fn fmt<W: fmt::Write>(&self, f: &mut fmt::Formatter<W>) -> fmt::Result {
        let (what, word) = match self {
            Complaint::Refused(error) => return error.fmt(f),
            Complaint::Number(word) => ("not a number in range: ", *word),
            Complaint::Label(word) => ("not a label: ", *word),
            Complaint::Unbuilt(word) => ("not built yet: ", *word),
        };
        f.write_str(what)?;
        f.write_str(word)?;
        f.write_str("\n")
    }
}
