// The numbers that stand for what is wrong where a finding is printed.
ghost use Rattle.std.specs.Prelude.{◌≡◌, ◌≤◌};
ghost use Rattle.bfs_finding.specs.Which.{fault_number, inode_number, page_number};

use crate::finding::{InodePart, PagePart};
use bfs_super::SuperFault;

/// The number of a condition of the superblock, in the order in which they are tested.
pub fn fault_number(fault: SuperFault) -> u8
    ensures value { result ≡ fault_number fault }
    ensures bound { result ≤ 10 }
{
    match fault {
        SuperFault::Magic { .. } => 1,
        SuperFault::ByteOrder { .. } => 2,
        SuperFault::BlockSize { .. } => 3,
        SuperFault::InodeSize { .. } => 4,
        SuperFault::Length { .. } => 5,
        SuperFault::Groups { .. } => 6,
        SuperFault::LogRun { .. } => 7,
        SuperFault::LogPlace { .. } => 8,
        SuperFault::RootRun { .. } => 9,
        SuperFault::IndexRun { .. } => 10,
    }
}

/// The number of a part of an inode.
pub fn inode_number(part: InodePart) -> u64
    ensures { result ≡ inode_number part }
{
    match part {
        InodePart::Magic => 1,
        InodePart::Number => 2,
        InodePart::Flags => 3,
        InodePart::Size => 4,
        InodePart::Mode => 5,
        InodePart::SmallData => 6,
        InodePart::Target => 7,
    }
}

/// The number of a part of a page.
pub fn page_number(part: PagePart) -> u64
    ensures { result ≡ page_number part }
{
    match part {
        PagePart::Magic => 1,
        PagePart::Size => 2,
        PagePart::Kind => 3,
        PagePart::Bounds => 4,
        PagePart::Ends => 5,
        PagePart::Content => 6,
    }
}
