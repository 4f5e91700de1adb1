// Volumes of 1,024 bytes a block, made by hand.
ghost use Rattle.std.specs.Prelude.{◌≡◌, ◌<◌, ◌*◌, ◌/◌, length, IfOk};

use crate::devices::fields;
use bfs_super::Super;
use std::alloc::{AllocError, Global};

/// A volume of so many blocks, with an empty log of so many at a place. Block 1 is the bitmap, the log begins at block 2, the root
/// and the indices stand behind it, and then come the blocks that groups may change.
#[derive(Clone, Copy)]
pub struct Volume {
    pub blocks: u32,
    pub log: u16,
    pub place: u32,
}

impl Volume {
    /// The first block behind the indices.
    pub(crate) fn first(&self) -> u64 {
        u64::from(self.log) + 4
    }

    /// The fields of the superblock.
    pub(crate) fn fields(&self) -> Super {
        fields(10, i64::from(self.blocks), self.log, i64::from(self.place))
    }

    /// The volume's bytes: zeros but for the superblock.
    pub(crate) fn bytes(&self, alloc: Global) -> Result<Vec<u8>, AllocError>
        ensures { IfOk result (λ v. length v.items ≡ 512 * (length v.items / 512)) }
    {
        let mut bytes = vec![in alloc; 0u8; 512 * (2 * self.blocks as usize)]?;
        let sector = self.fields().print();
        if bytes.len() >= 1024 {
            bytes[512..1024].copy_from_slice(&sector);
        }
        Ok(bytes)
    }
}
