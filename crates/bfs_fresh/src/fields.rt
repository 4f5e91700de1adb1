// The fields of a new node's inode.
ghost use Rattle.std.specs.Prelude.{◌≡◌, ◌≤◌, ◌-◌, pos, length, replicate};
ghost use Rattle.bfs_inode.specs.Inode.{stream_at};
ghost use Rattle.bfs_fresh.specs.Fresh.{IsInodeOf, no_stream};

use bfs_bytes::Run;
use bfs_inode::InodeMut;

/// What a node's inode is made with: its own address and that of its directory, its mode with the bits of its kind, its flags, and
/// the stamp of the call.
#[derive(Clone, Copy)]
pub struct NewNode {
    pub address: Run,
    pub parent: Run,
    pub mode: i32,
    pub flags: i32,
    pub stamp: i64,
}

/// A block size as a signed number.
fn signed(size: u32) -> i32
    requires { size ≤ 8192 }
    ensures { result ≡ pos size }
{
    size as i32
}

/// Writes the fields of an inode over zeros, and its small data.
fn put_fields(inode: &mut InodeMut<'_>, new: NewNode, size: u32, area: &[u8])
    requires long { 1024 ≤ size }
    requires short { size ≤ 8192 }
    requires zeros { inode.old.block.now ≡ replicate size 0 }
    requires area { length area.now ≡ size - 232 }
    ensures same_reference { inode.new.block.ghost_name ≡ inode.old.block.ghost_name }
    ensures length { length inode.new.block.now ≡ length inode.old.block.now }
    ensures fields { IsInodeOf size new area.now inode.new.block.now }
    ensures stream { stream_at inode.new.block.now ≡ no_stream }
{
    inode.set_magic1(0x3bbe0ad9);
    inode.set_inode_num(new.address);
    inode.set_mode(new.mode);
    inode.set_flags(new.flags);
    inode.set_create_time(new.stamp);
    inode.set_last_modified_time(new.stamp);
    inode.set_parent(new.parent);
    inode.set_inode_size(signed(size));
    inode.set_status_change_time(new.stamp);
    inode.set_small_data(area);
}

/// Writes an inode over a block of zeros, with this small data.
pub(crate) fn put_inode(block: &mut [u8], new: NewNode, area: &[u8])
    requires long { 1024 ≤ length block.old }
    requires short { length block.old ≤ 8192 }
    requires zeros { block.old ≡ replicate (length block.old) 0 }
    requires area { length area.now ≡ length block.old - 232 }
    ensures length { length block.new ≡ length block.old }
    ensures fields { IsInodeOf (length block.old) new area.now block.new }
    ensures stream { stream_at block.new ≡ no_stream }
{
    let size = block.len() as u32;
    let mut inode = InodeMut::over(block);
    put_fields(&mut inode, new, size, area);
}
