// What is read of attributes.
ghost use Rattle.std.specs.Prelude.{◌≡◌};

use bfs_tree::{AttributeRow, Bytes};
use std::marker::Model;

/// An attribute: its type code and its bytes.
#[derive(Debug, Drop)]
pub struct AttrItem {
    pub kind: u32,
    pub bytes: Bytes,
}

/// The type codes and names of an inode's attributes: those in small data in their order there, and then those of the attribute
/// directory by name.
#[derive(Debug, Drop)]
pub struct AttrRows {
    items: Vec<AttributeRow>,
}

impl Model for AttrRows {
    ghost use Rattle.std.specs.Prelude.{List};
    ghost use Rattle.bfs_tree.specs.declared.rows.AttributeRow.{AttributeRow};

    ghost Value = { List AttributeRow };

    ghost view = { λ b. b.items.items };
}

impl AttrRows {
    /// Takes no memory.
    pub fn new(items: Vec<AttributeRow>) -> AttrRows
        ensures { result ≡ items.items }
    {
        AttrRows { items }
    }

    pub fn as_slice(&self) -> &[AttributeRow]
        ensures { result.now ≡ self.now }
    {
        self.items.as_slice()
    }

    pub fn into_vec(self) -> Vec<AttributeRow>
        ensures { result.items ≡ self }
    {
        let AttrRows { items } = self;
        items
    }
}
