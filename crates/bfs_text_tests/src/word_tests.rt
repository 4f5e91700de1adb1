// Spellings of the words, and what they ask for.
use bfs_words::{Argument, Command, read_words};
use std::alloc::{AllocError, Global};
use std::test::Fail;

fn words(alloc: Global, texts: &[&str]) -> Result<Vec<Argument>, AllocError> {
    let mut words = Vec::new(alloc);
    for text in texts {
        words.push(Argument::of(alloc, text)?)?;
    }
    Ok(words)
}

/// What words ask for, with its numbers and its bytes.
#[derive(Clone, Copy, Debug, PartialEq, Eq)]
enum Wish<'a> {
    Usage,
    Label(&'a [u8]),
    Make(u64, u32, &'a [u8]),
    Check,
    Shell,
    Soak(u64, u32),
    Faulty,
}

fn wish_of<'a>(command: &Command<'a>) -> Wish<'a> {
    match command {
        Command::Usage => Wish::Usage,
        Command::Label(name) => Wish::Label(name),
        Command::Make(volume) => Wish::Make(volume.blocks, volume.block_size, volume.label),
        Command::Check => Wish::Check,
        Command::Shell => Wish::Shell,
        Command::Soak(workload) => Wish::Soak(workload.seed, workload.count),
        Command::Faulty(_) => Wish::Faulty,
    }
}

/// Do these words ask for this?
fn asks(alloc: Global, texts: &[&str], want: Wish<'_>) -> Result<bool, AllocError> {
    let words = words(alloc, texts)?;
    let command = read_words(alloc, &words)?;
    Ok(wish_of(&command) == want)
}

#[test]
fn every_other_spelling_is_faulty(rt: HostRuntime) -> Result<(), Fail> {
    let alloc = rt.alloc();
    let cases: [&[&str]; 60] = [
        &["mk", "--blocks"],
        &[""],
        &["--"],
        &["--", "label", "new"],
        &["label"],
        &["label", ""],
        &["label", "a/b"],
        &["label", "letters-letters-letters-letters-"],
        &["label", "new", "new"],
        &["label", "-new"],
        &["label", "--name", "new"],
        &["LABEL", "new"],
        &["mk"],
        &["mk", "529"],
        &["mk", "--name", "a"],
        &["mk", "--blocks", "529", "529"],
        &["mk", "--blocks", "529", "--blocks", "529"],
        &["mk", "--blocks=529", "--name", "a", "--name=a"],
        &["mk", "--blocks", "529", "--size", "1024"],
        &["mk", "--blocks", "+529"],
        &["mk", "--blocks", "-529"],
        &["mk", "--blocks", ""],
        &["mk", "--blocks", "4194305"],
        &["mk", "--blocks", "99999999999999999999"],
        &["mk", "--blocks", "000000000000000000529"],
        &["mk", "--blocks", "529", "--block-size", "512"],
        &["mk", "--blocks", "529", "--block-size"],
        &["mk", "--blocks", "529", "--name", "a/b"],
        &["mk", "--blocks", "529", "--", "--name", "a"],
        &["--help"],
        &["mk", "--blocks", "529", "--help"],
        &["-V"],
        &["--version"],
        &["help"],
        &["check", "now"],
        &["check", "-j4"],
        &["check", "check"],
        &["sh", "-j4"],
        &["sh", "-j"],
        &["sh", "-j="],
        &["sh", "-j", "2"],
        &["sh", "-j0"],
        &["sh", "-j", "one"],
        &["sh", "-j", "000000000000000000001"],
        &["sh", "-j1", "-j1"],
        &["sh", "1"],
        &["sh", "x"],
        &["soak"],
        &["soak", "1"],
        &["soak", "1", "2", "3"],
        &["soak", "1", ""],
        &["soak", "-1", "2"],
        &["soak", "x", "2"],
        &["soak", "18446744073709551616", "2"],
        &["soak", "1", "1048573"],
        &["soak", "1", "18446744073709551618"],
        &["soak", "1", "000000000000000000002"],
        &["soak", "1", "2", "-j", "2"],
        &["soak", "1", "2", "-j1", "-j1"],
        &["soak", "--seed=1", "--count=2"],
    ];
    for texts in cases {
        assert!(rt; asks(alloc, texts, Wish::Faulty)?);
    }
    Ok(())
}

#[test]
fn options_stand_in_any_order(rt: HostRuntime) -> Result<(), Fail> {
    let alloc = rt.alloc();
    let cases: [(&[&str], u64, u32, &[u8]); 8] = [
        (&["mk", "--blocks", "529"], 529, 1024, b"untitled"),
        (&["mk", "--blocks=0"], 0, 1024, b"untitled"),
        (
            &["mk", "--blocks", "00000000000004194304"],
            4_194_304,
            1024,
            b"untitled",
        ),
        (
            &[
                "mk",
                "--blocks",
                "529",
                "--block-size",
                "8192",
                "--name",
                "new",
            ],
            529,
            8192,
            b"new",
        ),
        (
            &["mk", "--name=new", "--blocks=529", "--block-size", "2048"],
            529,
            2048,
            b"new",
        ),
        (
            &[
                "mk",
                "--block-size=4096",
                "--name",
                "a=b",
                "--blocks",
                "529",
            ],
            529,
            4096,
            b"a=b",
        ),
        (
            &["mk", "--name=-new", "--blocks", "529"],
            529,
            1024,
            b"-new",
        ),
        (&["mk", "--blocks", "529", "--"], 529, 1024, b"untitled"),
    ];
    for (texts, blocks, size, label) in cases {
        assert!(rt; asks(alloc, texts, Wish::Make(blocks, size, label))?);
    }
    Ok(())
}

#[test]
fn a_hyphen_begins_a_name_behind_two(rt: HostRuntime) -> Result<(), Fail> {
    let alloc = rt.alloc();
    let cases: [(&[&str], &[u8]); 3] = [
        (&["label", "new"], b"new"),
        (&["label", "--", "-new"], b"-new"),
        (&["label", "help"], b"help"),
    ];
    for (texts, want) in cases {
        assert!(rt; asks(alloc, texts, Wish::Label(want))?);
    }
    Ok(())
}

#[test]
fn a_check_takes_no_more_words(rt: HostRuntime) -> Result<(), Fail> {
    assert!(rt; asks(rt.alloc(), &["check"], Wish::Check)?);
    Ok(())
}

#[test]
fn a_shell_has_one_worker(rt: HostRuntime) -> Result<(), Fail> {
    let alloc = rt.alloc();
    let cases: [&[&str]; 6] = [
        &["sh"],
        &["sh", "-j", "1"],
        &["sh", "-j1"],
        &["sh", "-j=1"],
        &["sh", "-j", "00000000000000000001"],
        &["sh", "--"],
    ];
    for texts in cases {
        assert!(rt; asks(alloc, texts, Wish::Shell)?);
    }
    Ok(())
}

#[test]
fn a_workload_has_a_seed_and_a_count(rt: HostRuntime) -> Result<(), Fail> {
    let alloc = rt.alloc();
    let cases: [(&[&str], u64, u32); 7] = [
        (&["soak", "7", "1000"], 7, 1000),
        (&["soak", "0", "0"], 0, 0),
        (
            &["soak", "18446744073709551615", "1048572"],
            18_446_744_073_709_551_615,
            1_048_572,
        ),
        (
            &["soak", "00000000000000000007", "00000000000001048572"],
            7,
            1_048_572,
        ),
        (&["soak", "1", "2", "-j1"], 1, 2),
        (&["soak", "-j=1", "1", "2"], 1, 2),
        (&["soak", "1", "2", "--"], 1, 2),
    ];
    for (texts, seed, count) in cases {
        assert!(rt; asks(alloc, texts, Wish::Soak(seed, count))?);
    }
    Ok(())
}

#[test]
fn no_words_ask_for_the_usage(rt: HostRuntime) -> Result<(), Fail> {
    assert!(rt; asks(rt.alloc(), &[], Wish::Usage)?);
    Ok(())
}
