// The ports in memory, those over a reader and a writer, and the system's clock.
ghost use Rattle.std.specs.Prelude.{◌≡◌, IfOk};

use bfs_ports::{Clock, Failed, Fixed, Input, Mem, Output, Sink, Source, SystemClock};
use std::alloc::{AllocError, Global};
use std::io;
use std::io::{ErrorKind, Read, Write};
use std::test::Fail;

/// Signals interrupt so many calls; the next one takes the whole slice, and those behind it fail.
#[derive(Drop)]
struct Interrupted {
    signals: u64,
    done: bool,
}

impl Interrupted {
    fn pass(&mut self, length: usize) -> io::Result<usize>
        ensures { IfOk result (λ n. n ≡ length) }
    {
        if self.signals > 0 {
            self.signals -= 1;
            return Err(ErrorKind::Interrupted.into());
        }
        if self.done {
            return Err(ErrorKind::BrokenPipe.into());
        }
        self.done = true;
        Ok(length)
    }
}

impl Read for Interrupted {
    fn read(&mut self, into: &mut [u8]) -> io::Result<usize> {
        self.pass(into.len())
    }
}

impl Write for Interrupted {
    fn write(&mut self, from: &[u8]) -> io::Result<usize> {
        self.pass(from.len())
    }

    fn flush(&mut self) -> io::Result<()> {
        Ok(())
    }
}

fn bytes(alloc: Global, text: &[u8]) -> Result<Vec<u8>, AllocError> {
    text.to_vec(alloc)
}

#[test]
fn a_source_gives_its_bytes_and_then_ends(rt: HostRuntime) -> Result<(), Fail> {
    let mut source = Mem::source(rt.alloc(), bytes(rt.alloc(), b"abcdefg")?);
    let mut into = [0u8; 4];
    assert_eq!(rt; source.take(&mut into), Ok(4));
    assert!(rt; into == *b"abcd");
    assert_eq!(rt; source.take(&mut into), Ok(3));
    assert!(rt; into == *b"efgd");
    assert_eq!(rt; source.take(&mut into), Ok(0));
    Ok(())
}

#[test]
fn a_sink_takes_as_much_as_it_has_room_for_and_then_nothing(rt: HostRuntime) -> Result<(), Fail> {
    let mut sink = Mem::full_sink(rt.alloc(), 5);
    assert_eq!(rt; sink.put(b"abc"), Ok(3));
    assert_eq!(rt; sink.put(b"defg"), Ok(2));
    assert_eq!(rt; sink.put(b"fg"), Ok(0));
    assert!(rt; sink.bytes() == b"abcde".as_slice());
    Ok(())
}

#[test]
fn a_sink_fails_exactly_its_planned_calls(rt: HostRuntime) -> Result<(), Fail> {
    let alloc = rt.alloc();
    let plan = vec![in alloc; 2u64, 4]?;
    let mut sink = Mem::failing_sink(alloc, plan);
    for call in 1..6u64 {
        assert_eq!(rt; sink.put(b"ab").is_ok(), call != 2 && call != 4);
    }
    assert!(rt; sink.bytes() == b"ababab".as_slice());
    assert_eq!(rt; sink.wants(), 0);
    Ok(())
}

#[test]
fn a_source_fails_exactly_its_planned_calls(rt: HostRuntime) -> Result<(), Fail> {
    let alloc = rt.alloc();
    let plan = vec![in alloc; 1u64, 3]?;
    let mut source = Mem::failing_source(bytes(alloc, b"abcd")?, plan);
    let mut into = [0u8; 2];
    for call in 1..5u64 {
        assert_eq!(rt; source.take(&mut into).is_ok(), call != 1 && call != 3);
    }
    assert!(rt; into == *b"cd");
    Ok(())
}

#[test]
fn an_interrupted_read_is_made_again_and_a_failed_one_is_not(rt: HostRuntime) -> Result<(), Fail> {
    let mut source = Input::over(Interrupted {
        signals: 3,
        done: false,
    });
    let mut into = [0u8; 4];
    assert_eq!(rt; source.take(&mut into), Ok(4));
    assert_eq!(rt; source.take(&mut into), Err(Failed));
    Ok(())
}

#[test]
fn an_interrupted_write_is_made_again_and_a_failed_one_is_not(rt: HostRuntime) -> Result<(), Fail> {
    let mut sink = Output::over(Interrupted {
        signals: 3,
        done: false,
    });
    assert_eq!(rt; sink.put(b"abc"), Ok(3));
    assert_eq!(rt; sink.put(b"abc"), Err(Failed));
    Ok(())
}

#[test]
fn a_fixed_clock_stands_below_its_end(rt: HostRuntime) -> Result<(), Fail> {
    assert_eq!(rt; Fixed::clock(1000).seconds(), 1000);
    assert_eq!(rt; Fixed::clock(1 << 40).seconds(), (1 << 40) - 1);
    Ok(())
}

#[test]
fn the_clock_of_the_system_stands_after_2026_began(rt: HostRuntime) -> Result<(), Fail> {
    let seconds = SystemClock::over(&rt).seconds();
    assert!(rt; seconds > 1_767_225_600);
    Ok(())
}
