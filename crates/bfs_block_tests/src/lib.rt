// Tests of what lies lowest: disks, ports and a cache of blocks, changed blocks, the bitmap and claims on its runs, an inode, the small data behind it,
// the blocks of a new node, and the log's entries. They stand over the proved libraries, since a crate with tests of its own is proved twice. There is
// no code here but the tests.
#![tactic(auto)]

#[cfg(test)]
mod bitmap_tests;
#[cfg(test)]
mod cache_tests;
#[cfg(test)]
mod change_tests;
#[cfg(test)]
mod claim_tests;
#[cfg(test)]
mod disk_tests;
#[cfg(test)]
mod fresh_tests;
#[cfg(test)]
mod inode_tests;
#[cfg(test)]
mod log_tests;
#[cfg(test)]
mod port_tests;
#[cfg(test)]
mod smalldata_tests;
