// The fields of an inode in a block that is lent.
ghost use Rattle.std.specs.Prelude.{◌≡◌, ◌<◌, ◌≤◌, ◌+◌, ◌*◌, length, slice_index_or, IfOk, IfErr};
ghost use Rattle.bfs_bytes.specs.Fields.{run_in};
ghost use Rattle.bfs_inode.specs.Block.{IsBlock};
ghost use Rattle.bfs_inode.specs.Inode.{inode_at, stream_at};
ghost use Rattle.bfs_inode.specs.Refusals.{IsInode, IsRefusal};

use crate::{InodeFault, check};
use bfs_bytes::{Run, i32_at, i64_at, run_at, u32_at};
use std::marker::Model;

/// Where the list of small data begins in an inode's block. It goes on to the block's end.
pub const SMALL_DATA: usize = 232;

/// An inode in its block, with a reader for each field. Contracts see the bytes of the block.
#[derive(Drop)]
pub struct InodeView<'a> {
    block: &'a [u8],
}

impl<'a> Model for InodeView<'a> {
    ghost use Rattle.std.specs.Prelude.{◌≤◌, ℕ, List, length};

    ghost Value = { List ℕ };

    ghost view = { λ v. v.block.now };

    ghost invariant = { λ v. 1024 ≤ length v.block.now };
}

impl<'a> InodeView<'a> {
    /// The inode with this number in its block, or the first condition that the block breaks.
    pub fn of(block: &'a [u8], number: u64, ag_shift: u32) -> Result<InodeView<'a>, InodeFault>
        requires block { IsBlock block.now }
        requires shift { ag_shift ≤ 16 }
        ensures found { IfOk result (λ v. (v ≡ block.now) × IsInode block.now number ag_shift) }
        ensures refused { IfErr result (IsRefusal block.now number ag_shift) }
    {
        match check(block, number, ag_shift) {
            Ok(()) => Ok(InodeView { block }),
            Err(fault) => Err(fault),
        }
    }

    /// The fields of a block of at least 1,024 bytes, whether it is an inode or not.
    pub fn over(block: &'a [u8]) -> InodeView<'a>
        requires { 1024 ≤ length block.now }
        ensures { result ≡ block.now }
    {
        InodeView { block }
    }

    /// The magic number.
    pub fn magic1(&self) -> i32
        ensures { result ≡ (inode_at self.now).magic1 }
    {
        i32_at(self.block, 0)
    }

    /// The inode's own address.
    pub fn inode_num(&self) -> Run
        ensures { result ≡ (inode_at self.now).inode_num }
    {
        run_at(self.block, 4)
    }

    /// The number of the user who owns the node.
    pub fn uid(&self) -> i32
        ensures { result ≡ (inode_at self.now).uid }
    {
        i32_at(self.block, 12)
    }

    /// The number of the group that owns the node.
    pub fn gid(&self) -> i32
        ensures { result ≡ (inode_at self.now).gid }
    {
        i32_at(self.block, 16)
    }

    /// The kind of the node and its permissions, as bits.
    pub fn mode(&self) -> i32
        ensures { result ≡ (inode_at self.now).mode }
    {
        i32_at(self.block, 20)
    }

    /// The flags, as bits.
    pub fn flags(&self) -> i32
        ensures { result ≡ (inode_at self.now).flags }
    {
        i32_at(self.block, 24)
    }

    /// The stamp of the making.
    pub fn create_time(&self) -> i64
        ensures { result ≡ (inode_at self.now).create_time }
    {
        i64_at(self.block, 28)
    }

    /// The stamp of the last change of the content.
    pub fn last_modified_time(&self) -> i64
        ensures { result ≡ (inode_at self.now).last_modified_time }
    {
        i64_at(self.block, 36)
    }

    /// The address of the directory that the node is in.
    pub fn parent(&self) -> Run
        ensures { result ≡ (inode_at self.now).parent }
    {
        run_at(self.block, 44)
    }

    /// The address of the attribute directory, or the zero run.
    pub fn attributes(&self) -> Run
        ensures { result ≡ (inode_at self.now).attributes }
    {
        run_at(self.block, 52)
    }

    /// The type of an attribute's bytes.
    pub fn type_code(&self) -> u32
        ensures { result ≡ (inode_at self.now).type_code }
    {
        u32_at(self.block, 60)
    }

    /// The size of the inode, which is that of a block.
    pub fn inode_size(&self) -> i32
        ensures { result ≡ (inode_at self.now).inode_size }
    {
        i32_at(self.block, 64)
    }

    /// A field that is written 0.
    pub fn etc(&self) -> u32
        ensures { result ≡ (inode_at self.now).etc }
    {
        u32_at(self.block, 68)
    }

    /// The data stream, or a short target of a symlink and a zero byte.
    pub fn stream_bytes(&self) -> &[u8]
        ensures { result.now ≡ (inode_at self.now).stream_bytes }
    {
        let block = self.block;
        &block[72..216]
    }

    /// The stamp of the last change of the node.
    pub fn status_change_time(&self) -> i64
        ensures { result ≡ (inode_at self.now).status_change_time }
    {
        i64_at(self.block, 216)
    }

    /// Eight bytes that are written 0.
    pub fn pad(&self) -> &[u8]
        ensures { result.now ≡ (inode_at self.now).pad }
    {
        let block = self.block;
        &block[224..232]
    }

    /// The list of small data.
    pub fn small_data(&self) -> &[u8]
        ensures { result.now ≡ (inode_at self.now).small_data }
    {
        let block = self.block;
        &block[SMALL_DATA..]
    }

    /// The direct run at a place.
    pub fn direct(&self, i: usize) -> Run
        requires { i < 12 }
        ensures at { result ≡ run_in self.now (72 + 8 * i) }
        ensures direct { result ≡ slice_index_or (stream_at self.now).direct i result }
    {
        run_at(self.block, 72 + 8 * i)
    }

    /// The byte offset up to which the direct runs reach, or 0.
    pub fn max_direct_range(&self) -> i64
        ensures { result ≡ (stream_at self.now).max_direct_range }
    {
        i64_at(self.block, 168)
    }

    /// The run that holds a table of runs.
    pub fn indirect(&self) -> Run
        ensures { result ≡ (stream_at self.now).indirect }
    {
        run_at(self.block, 176)
    }

    /// The byte offset up to which the indirect runs reach, or 0.
    pub fn max_indirect_range(&self) -> i64
        ensures { result ≡ (stream_at self.now).max_indirect_range }
    {
        i64_at(self.block, 184)
    }

    /// The run that holds a table of runs of tables.
    pub fn double_indirect(&self) -> Run
        ensures { result ≡ (stream_at self.now).double_indirect }
    {
        run_at(self.block, 192)
    }

    /// The byte offset up to which the double indirect runs reach, or 0.
    pub fn max_double_indirect_range(&self) -> i64
        ensures { result ≡ (stream_at self.now).max_double_indirect_range }
    {
        i64_at(self.block, 200)
    }

    /// The stream's size in bytes.
    pub fn size(&self) -> i64
        ensures { result ≡ (stream_at self.now).size }
    {
        i64_at(self.block, 208)
    }
}
