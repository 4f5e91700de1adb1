// The header of a tree.
ghost use Rattle.std.specs.Prelude.{◌≡◌, length, IfOk, IfErr};
ghost use Rattle.bfs_base.specs.Keys.{IsTreeKind};
ghost use Rattle.bfs_bytes.specs.Fields.{Puts};
ghost use Rattle.bfs_node.specs.Header.{header_at, header_bytes, code_of, HasKind, IsHeader};
ghost use Rattle.bfs_node.specs.Faults.{IsHeaderRefusal};

use crate::{KeyKind, PageFault};
use bfs_bytes::{i64_at, put_i64, put_u32, u32_at};

const MAGIC: u32 = 0x69f6c2e8;

/// The number of bytes of each page of a tree.
pub const PAGE: usize = 1024;

/// The header of a tree, with a field for each of its page, in order. Pointers are byte offsets in the tree's
/// stream, or -1.
#[derive(Clone, Copy, Debug, PartialEq, Eq)]
pub struct Header {
    pub magic: u32,
    pub node_size: u32,
    pub levels: u32,
    pub data_type: u32,
    pub root_pointer: i64,
    pub free_pointer: i64,
    pub maximum_size: i64,
}

/// The fields of a page, whether it is a header or not.
fn fields(page: &[u8]) -> Header
    requires { length page.now ≡ 1024 }
    ensures { result ≡ header_at page.now }
{
    Header {
        magic: u32_at(page, 0),
        node_size: u32_at(page, 4),
        levels: u32_at(page, 8),
        data_type: u32_at(page, 12),
        root_pointer: i64_at(page, 16),
        free_pointer: i64_at(page, 24),
        maximum_size: i64_at(page, 32),
    }
}

impl Header {
    /// The header in a page, or the first condition that it breaks.
    pub fn of(page: &[u8]) -> Result<Header, PageFault>
        requires { length page.now ≡ 1024 }
        ensures found { IfOk result (λ h. (h ≡ header_at page.now) × IsHeader h) }
        ensures refused { IfErr result (IsHeaderRefusal (header_at page.now)) }
    {
        let header = fields(page);
        if header.magic != MAGIC {
            let found = header.magic;
            return Err(PageFault::Magic { found });
        }
        if header.node_size != 1024 {
            let found = header.node_size;
            return Err(PageFault::Size { found });
        }
        if header.data_type > 4 {
            let found = header.data_type;
            return Err(PageFault::Kind { found });
        }
        Ok(header)
    }

    /// The kind of the tree's keys.
    pub fn kind(&self) -> KeyKind
        requires { HasKind self.now }
        ensures kind { IsTreeKind result }
        ensures code { code_of result ≡ self.now.data_type }
    {
        match self.data_type {
            0 => KeyKind::Text,
            1 => KeyKind::I32,
            2 => KeyKind::U32,
            3 => KeyKind::I64,
            _ => KeyKind::U64,
        }
    }

    /// Writes the fields into a page, and leaves the bytes behind them.
    pub fn print(&self, page: &mut [u8])
        requires { length page.old ≡ 1024 }
        ensures puts { Puts 0 (header_bytes self.now) page.old page.new }
        ensures again { header_at page.new ≡ self.now }
    {
        put_u32(page, 0, self.magic);
        put_u32(page, 4, self.node_size);
        put_u32(page, 8, self.levels);
        put_u32(page, 12, self.data_type);
        put_i64(page, 16, self.root_pointer);
        put_i64(page, 24, self.free_pointer);
        put_i64(page, 32, self.maximum_size);
    }
}

/// The number that stands for a kind of keys in a header.
pub fn data_type(kind: KeyKind) -> u32
    ensures { result ≡ code_of kind }
{
    match kind {
        KeyKind::Text => 0,
        KeyKind::I32 => 1,
        KeyKind::U32 => 2,
        KeyKind::I64 => 3,
        KeyKind::U64 => 4,
        KeyKind::F32 => 5,
        KeyKind::F64 => 6,
    }
}
