// Writes the fields of an inode into a block that is lent, and leaves every other byte.
ghost use Rattle.std.specs.Prelude.{◌≡◌, ◌<◌, ◌≤◌, ◌+◌, ◌-◌, ◌*◌, length, slice_set, take, drop, IfOk, IfErr};
ghost use Rattle.bfs_bytes.specs.Fields.{Puts, unsigned_bytes, signed32_bytes, signed64_bytes, run_bytes};
ghost use Rattle.bfs_inode.specs.Block.{IsBlock};
ghost use Rattle.bfs_inode.specs.Inode.{KeepsOutside, inode_at, stream_at};
ghost use Rattle.bfs_inode.specs.Refusals.{IsInode, IsRefusal};

use crate::{InodeFault, InodeView, check};
use bfs_bytes::{Run, put_bytes, put_i32, put_i64, put_run, put_u32};

/// An inode in its block, with a writer for each field.
///
/// What `of` leaves behind the block that it is lent can't be said in its contract. Who has to know it calls
/// `check` first, and then `over`.
pub struct InodeMut<'a> {
    block: &'a mut [u8],
    ghost long: { 1024 ≤ length block.now },
}

impl<'a> InodeMut<'a> {
    /// The inode with this number in its block, or the first condition that the block breaks.
    pub fn of(block: &'a mut [u8], number: u64, ag_shift: u32) -> Result<InodeMut<'a>, InodeFault>
        requires block { IsBlock block.old }
        requires shift { ag_shift ≤ 16 }
        ensures found { IfOk result (λ v. (v.block.now ≡ block.old) × IsInode block.old number ag_shift) }
        ensures refused { IfErr result (IsRefusal block.old number ag_shift) }
    {
        match check(block, number, ag_shift) {
            Ok(()) => Ok(InodeMut { block }),
            Err(fault) => Err(fault),
        }
    }

    /// The fields of a block of at least 1,024 bytes, whether it is an inode or not.
    pub fn over(block: &'a mut [u8]) -> InodeMut<'a>
        requires { 1024 ≤ length block.old }
        ensures same_reference { result.block.ghost_name ≡ block.entry.ghost_name }
        ensures now { result.block.now ≡ block.old }
    {
        InodeMut { block }
    }

    /// The same block, to be read.
    pub fn view(&self) -> InodeView<'_>
        ensures { result ≡ self.now.block.now }
    {
        InodeView::over(self.block)
    }

    /// Writes the magic number.
    pub fn set_magic1(&mut self, value: i32)
        ensures same_reference { self.new.block.ghost_name ≡ self.old.block.ghost_name }
        ensures length { length self.new.block.now ≡ length self.old.block.now }
        ensures puts { Puts 0 (signed32_bytes value) self.old.block.now self.new.block.now }
        ensures inode { inode_at self.new.block.now ≡ record (inode_at self.old.block.now) { magic1 = value } }
        ensures stream { stream_at self.new.block.now ≡ stream_at self.old.block.now }
    {
        put_i32(self.block, 0, value);
    }

    /// Writes the inode's own address.
    pub fn set_inode_num(&mut self, value: Run)
        ensures same_reference { self.new.block.ghost_name ≡ self.old.block.ghost_name }
        ensures length { length self.new.block.now ≡ length self.old.block.now }
        ensures puts { Puts 4 (run_bytes value) self.old.block.now self.new.block.now }
        ensures inode { inode_at self.new.block.now ≡ record (inode_at self.old.block.now) { inode_num = value } }
        ensures stream { stream_at self.new.block.now ≡ stream_at self.old.block.now }
    {
        put_run(self.block, 4, value);
    }

    /// Writes the number of the user who owns the node.
    pub fn set_uid(&mut self, value: i32)
        ensures same_reference { self.new.block.ghost_name ≡ self.old.block.ghost_name }
        ensures length { length self.new.block.now ≡ length self.old.block.now }
        ensures puts { Puts 12 (signed32_bytes value) self.old.block.now self.new.block.now }
        ensures inode { inode_at self.new.block.now ≡ record (inode_at self.old.block.now) { uid = value } }
        ensures stream { stream_at self.new.block.now ≡ stream_at self.old.block.now }
    {
        put_i32(self.block, 12, value);
    }

    /// Writes the number of the group that owns the node.
    pub fn set_gid(&mut self, value: i32)
        ensures same_reference { self.new.block.ghost_name ≡ self.old.block.ghost_name }
        ensures length { length self.new.block.now ≡ length self.old.block.now }
        ensures puts { Puts 16 (signed32_bytes value) self.old.block.now self.new.block.now }
        ensures inode { inode_at self.new.block.now ≡ record (inode_at self.old.block.now) { gid = value } }
        ensures stream { stream_at self.new.block.now ≡ stream_at self.old.block.now }
    {
        put_i32(self.block, 16, value);
    }

    /// Writes the kind of the node and its permissions, as bits.
    pub fn set_mode(&mut self, value: i32)
        ensures same_reference { self.new.block.ghost_name ≡ self.old.block.ghost_name }
        ensures length { length self.new.block.now ≡ length self.old.block.now }
        ensures puts { Puts 20 (signed32_bytes value) self.old.block.now self.new.block.now }
        ensures inode { inode_at self.new.block.now ≡ record (inode_at self.old.block.now) { mode = value } }
        ensures stream { stream_at self.new.block.now ≡ stream_at self.old.block.now }
    {
        put_i32(self.block, 20, value);
    }

    /// Writes the flags, as bits.
    pub fn set_flags(&mut self, value: i32)
        ensures same_reference { self.new.block.ghost_name ≡ self.old.block.ghost_name }
        ensures length { length self.new.block.now ≡ length self.old.block.now }
        ensures puts { Puts 24 (signed32_bytes value) self.old.block.now self.new.block.now }
        ensures inode { inode_at self.new.block.now ≡ record (inode_at self.old.block.now) { flags = value } }
        ensures stream { stream_at self.new.block.now ≡ stream_at self.old.block.now }
    {
        put_i32(self.block, 24, value);
    }

    /// Writes the stamp of the making.
    pub fn set_create_time(&mut self, value: i64)
        ensures same_reference { self.new.block.ghost_name ≡ self.old.block.ghost_name }
        ensures length { length self.new.block.now ≡ length self.old.block.now }
        ensures puts { Puts 28 (signed64_bytes value) self.old.block.now self.new.block.now }
        ensures inode { inode_at self.new.block.now ≡ record (inode_at self.old.block.now) { create_time = value } }
        ensures stream { stream_at self.new.block.now ≡ stream_at self.old.block.now }
    {
        put_i64(self.block, 28, value);
    }

    /// Writes the stamp of the last change of the content.
    pub fn set_last_modified_time(&mut self, value: i64)
        ensures same_reference { self.new.block.ghost_name ≡ self.old.block.ghost_name }
        ensures length { length self.new.block.now ≡ length self.old.block.now }
        ensures puts { Puts 36 (signed64_bytes value) self.old.block.now self.new.block.now }
        ensures inode { inode_at self.new.block.now ≡ record (inode_at self.old.block.now) { last_modified_time = value } }
        ensures stream { stream_at self.new.block.now ≡ stream_at self.old.block.now }
    {
        put_i64(self.block, 36, value);
    }

    /// Writes the address of the directory that the node is in.
    pub fn set_parent(&mut self, value: Run)
        ensures same_reference { self.new.block.ghost_name ≡ self.old.block.ghost_name }
        ensures length { length self.new.block.now ≡ length self.old.block.now }
        ensures puts { Puts 44 (run_bytes value) self.old.block.now self.new.block.now }
        ensures inode { inode_at self.new.block.now ≡ record (inode_at self.old.block.now) { parent = value } }
        ensures stream { stream_at self.new.block.now ≡ stream_at self.old.block.now }
    {
        put_run(self.block, 44, value);
    }

    /// Writes the address of the attribute directory, or the zero run.
    pub fn set_attributes(&mut self, value: Run)
        ensures same_reference { self.new.block.ghost_name ≡ self.old.block.ghost_name }
        ensures length { length self.new.block.now ≡ length self.old.block.now }
        ensures puts { Puts 52 (run_bytes value) self.old.block.now self.new.block.now }
        ensures inode { inode_at self.new.block.now ≡ record (inode_at self.old.block.now) { attributes = value } }
        ensures stream { stream_at self.new.block.now ≡ stream_at self.old.block.now }
    {
        put_run(self.block, 52, value);
    }

    /// Writes the type of an attribute's bytes.
    pub fn set_type_code(&mut self, value: u32)
        ensures same_reference { self.new.block.ghost_name ≡ self.old.block.ghost_name }
        ensures length { length self.new.block.now ≡ length self.old.block.now }
        ensures puts { Puts 60 (unsigned_bytes 4 value) self.old.block.now self.new.block.now }
        ensures inode { inode_at self.new.block.now ≡ record (inode_at self.old.block.now) { type_code = value } }
        ensures stream { stream_at self.new.block.now ≡ stream_at self.old.block.now }
    {
        put_u32(self.block, 60, value);
    }

    /// Writes the size of the inode, which is that of a block.
    pub fn set_inode_size(&mut self, value: i32)
        ensures same_reference { self.new.block.ghost_name ≡ self.old.block.ghost_name }
        ensures length { length self.new.block.now ≡ length self.old.block.now }
        ensures puts { Puts 64 (signed32_bytes value) self.old.block.now self.new.block.now }
        ensures inode { inode_at self.new.block.now ≡ record (inode_at self.old.block.now) { inode_size = value } }
        ensures stream { stream_at self.new.block.now ≡ stream_at self.old.block.now }
    {
        put_i32(self.block, 64, value);
    }

    /// Writes a field that is written 0.
    pub fn set_etc(&mut self, value: u32)
        ensures same_reference { self.new.block.ghost_name ≡ self.old.block.ghost_name }
        ensures length { length self.new.block.now ≡ length self.old.block.now }
        ensures puts { Puts 68 (unsigned_bytes 4 value) self.old.block.now self.new.block.now }
        ensures inode { inode_at self.new.block.now ≡ record (inode_at self.old.block.now) { etc = value } }
        ensures stream { stream_at self.new.block.now ≡ stream_at self.old.block.now }
    {
        put_u32(self.block, 68, value);
    }

    /// Writes the data stream, or a short target of a symlink and a zero byte.
    pub fn set_stream_bytes(&mut self, value: &[u8])
        requires { length value.now ≡ 144 }
        ensures same_reference { self.new.block.ghost_name ≡ self.old.block.ghost_name }
        ensures length { length self.new.block.now ≡ length self.old.block.now }
        ensures puts { Puts 72 value.now self.old.block.now self.new.block.now }
        ensures inode { inode_at self.new.block.now ≡ record (inode_at self.old.block.now) { stream_bytes = value.now } }
        ensures outside { KeepsOutside self.old.block.now self.new.block.now }
    {
        put_bytes(self.block, 72, value);
    }

    /// Writes the stamp of the last change of the node.
    pub fn set_status_change_time(&mut self, value: i64)
        ensures same_reference { self.new.block.ghost_name ≡ self.old.block.ghost_name }
        ensures length { length self.new.block.now ≡ length self.old.block.now }
        ensures puts { Puts 216 (signed64_bytes value) self.old.block.now self.new.block.now }
        ensures inode { inode_at self.new.block.now ≡ record (inode_at self.old.block.now) { status_change_time = value } }
        ensures stream { stream_at self.new.block.now ≡ stream_at self.old.block.now }
    {
        put_i64(self.block, 216, value);
    }

    /// Writes eight bytes that are written 0.
    pub fn set_pad(&mut self, value: &[u8])
        requires { length value.now ≡ 8 }
        ensures same_reference { self.new.block.ghost_name ≡ self.old.block.ghost_name }
        ensures length { length self.new.block.now ≡ length self.old.block.now }
        ensures puts { Puts 224 value.now self.old.block.now self.new.block.now }
        ensures inode { inode_at self.new.block.now ≡ record (inode_at self.old.block.now) { pad = value.now } }
        ensures stream { stream_at self.new.block.now ≡ stream_at self.old.block.now }
    {
        put_bytes(self.block, 224, value);
    }

    /// Writes the list of small data.
    pub fn set_small_data(&mut self, value: &[u8])
        requires { length value.now ≡ length self.old.block.now - 232 }
        ensures same_reference { self.new.block.ghost_name ≡ self.old.block.ghost_name }
        ensures length { length self.new.block.now ≡ length self.old.block.now }
        ensures puts { Puts 232 value.now self.old.block.now self.new.block.now }
        ensures inode { inode_at self.new.block.now ≡ record (inode_at self.old.block.now) { small_data = value.now } }
        ensures stream { stream_at self.new.block.now ≡ stream_at self.old.block.now }
    {
        put_bytes(self.block, 232, value);
    }

    /// Writes the direct run at a place.
    pub fn set_direct(&mut self, i: usize, value: Run)
        requires { i < 12 }
        ensures same_reference { self.new.block.ghost_name ≡ self.old.block.ghost_name }
        ensures length { length self.new.block.now ≡ length self.old.block.now }
        ensures puts { Puts (72 + 8 * i) (run_bytes value) self.old.block.now self.new.block.now }
        ensures inode { inode_at self.new.block.now ≡ record (inode_at self.old.block.now) { stream_bytes = take 144 (drop 72 self.new.block.now) } }
        ensures outside { KeepsOutside self.old.block.now self.new.block.now }
        ensures stream { stream_at self.new.block.now ≡ record (stream_at self.old.block.now) { direct = slice_set (stream_at self.old.block.now).direct i value } }
    {
        put_run(self.block, 72 + 8 * i, value);
    }

    /// Writes the byte offset up to which the direct runs reach, or 0.
    pub fn set_max_direct_range(&mut self, value: i64)
        ensures same_reference { self.new.block.ghost_name ≡ self.old.block.ghost_name }
        ensures length { length self.new.block.now ≡ length self.old.block.now }
        ensures puts { Puts 168 (signed64_bytes value) self.old.block.now self.new.block.now }
        ensures inode { inode_at self.new.block.now ≡ record (inode_at self.old.block.now) { stream_bytes = take 144 (drop 72 self.new.block.now) } }
        ensures outside { KeepsOutside self.old.block.now self.new.block.now }
        ensures stream { stream_at self.new.block.now ≡ record (stream_at self.old.block.now) { max_direct_range = value } }
    {
        put_i64(self.block, 168, value);
    }

    /// Writes the run that holds a table of runs.
    pub fn set_indirect(&mut self, value: Run)
        ensures same_reference { self.new.block.ghost_name ≡ self.old.block.ghost_name }
        ensures length { length self.new.block.now ≡ length self.old.block.now }
        ensures puts { Puts 176 (run_bytes value) self.old.block.now self.new.block.now }
        ensures inode { inode_at self.new.block.now ≡ record (inode_at self.old.block.now) { stream_bytes = take 144 (drop 72 self.new.block.now) } }
        ensures outside { KeepsOutside self.old.block.now self.new.block.now }
        ensures stream { stream_at self.new.block.now ≡ record (stream_at self.old.block.now) { indirect = value } }
    {
        put_run(self.block, 176, value);
    }

    /// Writes the byte offset up to which the indirect runs reach, or 0.
    pub fn set_max_indirect_range(&mut self, value: i64)
        ensures same_reference { self.new.block.ghost_name ≡ self.old.block.ghost_name }
        ensures length { length self.new.block.now ≡ length self.old.block.now }
        ensures puts { Puts 184 (signed64_bytes value) self.old.block.now self.new.block.now }
        ensures inode { inode_at self.new.block.now ≡ record (inode_at self.old.block.now) { stream_bytes = take 144 (drop 72 self.new.block.now) } }
        ensures outside { KeepsOutside self.old.block.now self.new.block.now }
        ensures stream { stream_at self.new.block.now ≡ record (stream_at self.old.block.now) { max_indirect_range = value } }
    {
        put_i64(self.block, 184, value);
    }

    /// Writes the run that holds a table of runs of tables.
    pub fn set_double_indirect(&mut self, value: Run)
        ensures same_reference { self.new.block.ghost_name ≡ self.old.block.ghost_name }
        ensures length { length self.new.block.now ≡ length self.old.block.now }
        ensures puts { Puts 192 (run_bytes value) self.old.block.now self.new.block.now }
        ensures inode { inode_at self.new.block.now ≡ record (inode_at self.old.block.now) { stream_bytes = take 144 (drop 72 self.new.block.now) } }
        ensures outside { KeepsOutside self.old.block.now self.new.block.now }
        ensures stream { stream_at self.new.block.now ≡ record (stream_at self.old.block.now) { double_indirect = value } }
    {
        put_run(self.block, 192, value);
    }

    /// Writes the byte offset up to which the double indirect runs reach, or 0.
    pub fn set_max_double_indirect_range(&mut self, value: i64)
        ensures same_reference { self.new.block.ghost_name ≡ self.old.block.ghost_name }
        ensures length { length self.new.block.now ≡ length self.old.block.now }
        ensures puts { Puts 200 (signed64_bytes value) self.old.block.now self.new.block.now }
        ensures inode { inode_at self.new.block.now ≡ record (inode_at self.old.block.now) { stream_bytes = take 144 (drop 72 self.new.block.now) } }
        ensures outside { KeepsOutside self.old.block.now self.new.block.now }
        ensures stream { stream_at self.new.block.now ≡ record (stream_at self.old.block.now) { max_double_indirect_range = value } }
    {
        put_i64(self.block, 200, value);
    }

    /// Writes the stream's size in bytes.
    pub fn set_size(&mut self, value: i64)
        ensures same_reference { self.new.block.ghost_name ≡ self.old.block.ghost_name }
        ensures length { length self.new.block.now ≡ length self.old.block.now }
        ensures puts { Puts 208 (signed64_bytes value) self.old.block.now self.new.block.now }
        ensures inode { inode_at self.new.block.now ≡ record (inode_at self.old.block.now) { stream_bytes = take 144 (drop 72 self.new.block.now) } }
        ensures outside { KeepsOutside self.old.block.now self.new.block.now }
        ensures stream { stream_at self.new.block.now ≡ record (stream_at self.old.block.now) { size = value } }
    {
        put_i64(self.block, 208, value);
    }
}

impl Drop for InodeMut<'_> {
    fn drop(self)
        ensures { self.exit.0.now ≡ self.entry.block.now }
    {
        let InodeMut { block: _ } = self;
    }
}
