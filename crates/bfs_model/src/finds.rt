// Searches of an index.
ghost use Rattle.std.specs.Prelude.{◌&&◌, IfOk};
ghost use Rattle.bfs_tree.specs.Steps.{Reads};
ghost use Rattle.bfs_model.specs.Kept.{state_of};
ghost use Rattle.bfs_tree.specs.declared.call.Call.TheVariants.{IndexFind};

use crate::model::Model;
use bfs_plain::{index_at, pairs_at, rows_at};
use bfs_tree::{FoundRows, Key, KeyKind, Reply, is_kind};
use std::alloc::AllocError;

impl Model {
    /// The nodes that an index lists under keys from `low` to `high`.
    pub fn index_find(&self, name: &[u8], low: &Key, high: &Key) -> Result<Reply, AllocError>
        ensures { IfOk result (λ reply. Reads (IndexFind name.now low.now high.now) (state_of self.now) reply) }
    {
        let Some(kind) = index_at(&self.indices, name) else {
            return Ok(Reply::NoIndex);
        };
        if !(is_kind(low.kind(), kind) && is_kind(high.kind(), kind)) {
            return Ok(Reply::KeyKind);
        }
        let low = low.bytes(self.alloc)?;
        let high = high.bytes(self.alloc)?;
        let pairs = pairs_at(self.alloc, &self.nodes, self.root, name, kind)?;
        let rows = rows_at(
            self.alloc,
            &self.nodes,
            kind,
            low.as_slice(),
            high.as_slice(),
            pairs.as_slice(),
        )?;
        Ok(Reply::Rows {
            rows: FoundRows::new(rows),
        })
    }
}
