// What a device keeps beside its disk.
use bfs_super::Super;
use bfs_txn::Group;
use thiserror::Error;

/// The group whose last entry has this number became durable in the call that was the so manieth since adoption. The count
/// stands still at its end.
#[derive(Clone, Copy, Debug, PartialEq, Eq)]
pub struct Mark {
    pub moment: u64,
    pub number: u64,
}

/// What a step did: a block was written into the log, all of them are safe there, the superblock was written with the log's
/// new end, the group up to this number is durable, this block was written home, all of them are safe there, the superblock
/// was written with the log's new start, the group has left the log; or there was nothing to do.
#[derive(Clone, Copy, Debug, PartialEq, Eq)]
pub enum Progress {
    Logged,
    LogSafe,
    Opened,
    Durable(u64),
    Home(u64),
    HomeSafe,
    TailMoved,
    TailSafe,
    Idle,
}

/// A disk call failed, and the disk's count of faults rose from `before` to `after`; where it was a write or a barrier, the
/// device has stopped. Or it had stopped before, with so many durable entries and the count of faults then.
#[derive(Clone, Copy, Debug, PartialEq, Eq, Error)]
pub enum DeviceFault {
    #[error("a disk call failed")]
    Disk {
        before: u64,
        after: u64,
        stops: bool,
    },
    #[error("the device has stopped with {durable} durable entries")]
    Stopped {
        durable: u64,
        faults: u64,
    },
}

/// The last entry that was durable when the device stopped, and the count of faults then.
#[derive(Clone, Copy, Debug, PartialEq, Eq)]
pub struct Stop {
    pub durable: u64,
    pub faults: u64,
}

/// What is next for the first group: its log block at a place, the barrier behind them, the gate, the barrier behind it, its
/// changed block at a place, the barrier behind them, the tail, the barrier behind it. A group without blocks only passes by
/// a barrier.
#[derive(Clone, Copy)]
pub enum Phase {
    Log(usize),
    LogSafe,
    Open,
    OpenSafe,
    Home(usize),
    HomeSafe,
    Tail,
    TailSafe,
    Pass,
}

/// What a device keeps. It is `ordered` where the blocks of each group are known to ascend.
#[derive(Drop)]
pub struct Journal {
    pub sup: Super,
    pub groups: Vec<Group>,
    pub ordered: bool,
    pub phase: Phase,
    pub left: u64,
    pub marks: Vec<Mark>,
    pub spare: usize,
    pub moment: u64,
    pub stop: Option<Stop>,
    pub buffer: Vec<u8>,
}
