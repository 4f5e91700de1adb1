// The target of a short link.
ghost use Rattle.std.specs.Prelude.{◌≡◌, ◌≤◌, ◌/◌, ◌%◌, ◌↔◌, ◌==◌, length, take, drop, IsTrue};
ghost use Rattle.std.specs.List.{before_first};
ghost use Rattle.bfs_bytes.specs.Fields.{unsigned_at};
ghost use Rattle.bfs_node_check.specs.Areas.{IsShortLink, target_in};

use bfs_bytes::u32_at;

/// Is the inode that of a link which isn't flagged as a long one?
pub(crate) fn is_short_link(bytes: &[u8]) -> bool
    requires { 1024 ≤ length bytes.now }
    ensures { IsTrue result ↔ IsShortLink bytes.now }
{
    u32_at(bytes, 20) / 4096 % 16 == 10 && u32_at(bytes, 24) / 64 % 2 == 0
}

/// How many bytes stand before the first zero.
fn first_zero(part: &[u8]) -> usize
    ensures { result ≡ length (before_first (λ b. b == 0) part.now) }
{
    for i in 0..part.len() {
        if part[i] == 0 {
            return i;
        }
    }
    part.len()
}

/// How many bytes the target of a short link has.
pub(crate) fn target_length(bytes: &[u8]) -> usize
    requires { 1024 ≤ length bytes.now }
    ensures { result ≡ length (target_in bytes.now) }
{
    first_zero(&bytes[72..216])
}
