// Why a block is no inode.
use thiserror::Error;

/// The first condition that a block breaks which is to be the inode of a number. `found` is the field's value;
/// of `Number` it is the block that the address in the inode names.
#[derive(Clone, Copy, Debug, PartialEq, Eq, Error)]
pub enum InodeFault {
    /// The first field isn't 0x3bbe0ad9.
    #[error("the inode's magic number is {found}")]
    Magic { found: i32 },
    /// The inode's own address isn't that of the number, as a run of one block.
    #[error("the inode's address names block {found}")]
    Number { found: i64 },
    /// The flag for "in use" isn't set.
    #[error("the inode is not in use, by its flags {flags}")]
    NotInUse { flags: i32 },
    /// The inode's size isn't that of the block.
    #[error("the inode's size is {found}")]
    Size { found: i32 },
}
