// Files: the block of a volume that has a byte of a file. A file's bytes are those of its inode's stream, block by block. The tests of streams
// stand here too: over the proved library they take seconds, and beside its code they would prove all of it a second time.
#![tactic(auto)]

mod file;

pub use file::File;

#[cfg(test)]
mod grow_tests;
#[cfg(test)]
mod place_tests;
#[cfg(test)]
mod tests;
#[cfg(test)]
mod trim_tests;
