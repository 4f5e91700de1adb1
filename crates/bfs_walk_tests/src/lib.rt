// Tests of the walks of a check: over the superblock and the bitmap, over streams, and over the nodes, attributes and indices of a volume.
// They stand over the proved libraries, since a crate with tests of its own is proved twice. There is no code here but the tests.
#![tactic(auto)]

#[cfg(test)]
mod attribute_row_tests;
#[cfg(test)]
mod attribute_tests;
#[cfg(test)]
mod bitmap_tests;
#[cfg(test)]
mod index_tests;
#[cfg(test)]
mod inode_tests;
#[cfg(test)]
mod listing_tests;
#[cfg(test)]
mod node_tests;
#[cfg(test)]
mod stream_tests;
#[cfg(test)]
mod super_tests;
#[cfg(test)]
mod volumes;
