// The modes of inodes.
ghost use Rattle.std.specs.Prelude.{◌≡◌, ◌≢◌, ◌/◌, ◌%◌, ◌↔◌, IsTrue, MatchOption, true};
ghost use Rattle.bfs_sound.specs.Inodes.{HasBit, kind_bits};
ghost use Rattle.bfs_node_check.specs.Roles.{IsGoodMode, is_node};

use crate::Role;
use bfs_tree::Kind;

/// The kind of a node by its mode, where that names one.
pub fn kind_of(mode: u32) -> Option<Kind>
    ensures { MatchOption result ((kind : Kind) → mode / 4096 % 16 ≢ kind_bits kind) (λ kind. mode / 4096 % 16 ≡ kind_bits kind) }
{
    match mode / 4096 % 16 {
        4 => Some(Kind::Dir),
        8 => Some(Kind::File),
        10 => Some(Kind::Link),
        _ => None,
    }
}

/// Does the mode name a kind?
fn has_kind(mode: u32) -> bool
    ensures { IsTrue result ↔ ((kind : Kind) × (mode / 4096 % 16 ≡ kind_bits kind)) }
{
    match kind_of(mode) {
        Some(_) => true,
        None => false,
    }
}

/// Is the mode one for an inode in this place?
pub(crate) fn is_good_mode(mode: u32, role: Role) -> bool
    ensures { IsTrue result ↔ IsGoodMode role mode }
{
    match role {
        Role::Root => mode / 4096 % 16 == 4,
        Role::Child => has_kind(mode),
        Role::AttributeDirectory => mode / 0x0800_0000 % 2 == 1,
        Role::Attribute => mode / 0x1000_0000 % 2 == 1,
        Role::Index => mode / 0x2000_0000 % 2 == 1,
    }
}

/// Is an inode in this place a node?
pub(crate) fn is_node(role: Role) -> bool
    ensures { result ≡ is_node role }
{
    match role {
        Role::Root => true,
        Role::Child => true,
        Role::AttributeDirectory => false,
        Role::Attribute => false,
        Role::Index => false,
    }
}
