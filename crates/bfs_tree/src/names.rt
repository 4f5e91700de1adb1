// Which names and targets are refused.
ghost use Rattle.std.specs.Prelude.{◌≡◌};
ghost use Rattle.bfs_tree.specs.Names.{has_byte, is_bad_name, is_bad_attribute_name, is_bad_target, target_of};
ghost use Rattle.std.specs.Str.{is_utf8};
ghost use Rattle.bfs_tree.specs.Refusals.{is_built_in};

use crate::MakeKind;
use std::str;

/// The name by which a directory names itself, and that of its parent.
const DOT: &[u8] = b".";

const DOTS: &[u8] = b"..";

/// The one byte that no attribute is named.
const MARK: &[u8] = &[0x13];

/// The names of the three indices that every tree has.
pub const BY_NAME: &[u8] = b"name";

pub const BY_SIZE: &[u8] = b"size";

pub const BY_TIME: &[u8] = b"last_modified";

fn has_byte(byte: u8, bytes: &[u8]) -> bool
    ensures { result ≡ has_byte byte bytes.now }
{
    bytes.iter().any(|b| *b == byte)
}

fn is_utf8(bytes: &[u8]) -> bool
    ensures { result ≡ is_utf8 bytes.now }
{
    str::from_utf8(bytes).is_ok()
}

/// A name is refused where it is empty, longer than 255 bytes, not UTF-8, has a slash or a zero byte, or is
/// `.` or `..`.
pub fn is_bad_name(name: &[u8]) -> bool
    ensures { result ≡ is_bad_name name.now }
{
    name.len() == 0
        || name.len() > 255
        || !is_utf8(name)
        || has_byte(b'/', name)
        || has_byte(0, name)
        || name == DOT
        || name == DOTS
}

/// The same of an attribute's name, which also is not the one byte 0x13.
pub fn is_bad_attribute_name(name: &[u8]) -> bool
    ensures { result ≡ is_bad_attribute_name name.now }
{
    is_bad_name(name) || name == MARK
}

/// A link's target is refused where it is empty or has a zero byte.
pub fn is_bad_target(kind: &MakeKind) -> bool
    ensures { result ≡ is_bad_target kind.now }
{
    match kind {
        MakeKind::File => false,
        MakeKind::Dir => false,
        MakeKind::Link { target } => target.as_slice().len() == 0 || has_byte(0, target.as_slice()),
    }
}

/// The index is one of the three that every tree has.
pub fn is_built_in(name: &[u8]) -> bool
    ensures { result ≡ is_built_in name.now }
{
    name == BY_NAME || name == BY_SIZE || name == BY_TIME
}
