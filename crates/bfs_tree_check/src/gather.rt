// All pages of a tree, from the root down.
ghost use Rattle.std.specs.Prelude.{◌≡◌, ◌<◌, ◌/◌, ℕ, List, [], ◌∷◌, length, Some, IfOk, IfErr};
ghost use Rattle.bfs_base.specs.Lists.{times};
ghost use Rattle.bfs_base.specs.Keys.{IsTreeKind};
ghost use Rattle.bfs_txn.specs.Faults.{AreLater};
ghost use Rattle.bfs_pages.specs.Answers.{IsChild};
ghost use Rattle.bfs_pages.specs.Trees.{state_of};
ghost use Rattle.bfs_walk.specs.Wrong.{IsWrong, IsWalkCause};
ghost use Rattle.bfs_tree_check.specs.Levels.{AreInside, IsLevel};
ghost use Rattle.bfs_tree_check.specs.Marked.{marked};

use crate::{Item, go_down};
use bfs_node::KeyKind;
use bfs_txn::{Pages, Steps};
use bfs_walk::WalkFault;
use std::alloc::{AllocError, Global};
use std::sync::ledger::Ledger;

/// The level that is a page alone.
fn top(alloc: Global, root: u64) -> Result<Vec<Item>, AllocError>
    ensures { IfOk result (λ level. level.items ≡ Item.Page root ∷ []) }
{
    let mut level = Vec::new(alloc);
    level.push(Item::Page { at: root })?;
    Ok(level)
}

/// The lowest level of a tree: its leaves, and between two of them the key that parts them. The pages above are opened and marked.
pub fn lowest_level<P: Pages, L: Ledger>(
    alloc: Global,
    pages: &mut P,
    kind: KeyKind,
    root: u64,
    levels: u32,
    marks: &mut [bool],
    steps: &mut Steps<L>,
) -> Result<Vec<Item>, WalkFault<P::Fault>>
    requires kind { IsTreeKind kind }
    requires root { IsChild (P.size pages.old) root }
    requires small { P.size pages.old < 9223372036854775808 }
    requires length { length marks.old ≡ P.size pages.old / 1024 }
    ensures level { (b : List ℕ) → P.told pages.old ≡ Some b → root ≡ (state_of kind b).root → levels ≡ (state_of kind b).levels → ((x : ℕ) → marked (P.size pages.old) marks.old x ≡ times x (0 ∷ [])) → IfOk result (λ level. IsLevel kind b 0 level.items (marked (P.size pages.old) marks.new)) }
    ensures wrong { (b : List ℕ) → P.told pages.old ≡ Some b → root ≡ (state_of kind b).root → levels ≡ (state_of kind b).levels → ((x : ℕ) → marked (P.size pages.old) marks.old x ≡ times x (0 ∷ [])) → IfErr result (IsWrong kind b) }
    ensures inside { IfOk result (λ level. AreInside (P.size pages.old) level.items) }
    ensures length { length marks.new ≡ length marks.old }
    ensures cause { IfErr result (IsWalkCause (P.is_cause pages.old pages.new)) }
    ensures told { P.told pages.new ≡ P.told pages.old }
    ensures size { P.size pages.new ≡ P.size pages.old }
    ensures counts { AreLater (P.counts pages.old) (P.counts pages.new) }
    ensures frame { P.frame pages.new ≡ P.frame pages.old }
    ensures goes_on { P.goes_on pages.old pages.new }
    ensures is_read { P.is_read pages.old pages.new }
{
    let mut level = match top(alloc, root) {
        Ok(level) => level,
        Err(_) => return Err(WalkFault::NoMemory),
    };
    let mut left = levels;
    while left > 0 {
        match go_down(alloc, pages, kind, &level, marks, steps) {
            Ok(next) => level = next,
            Err(fault) => return Err(fault),
        }
        left -= 1;
    }
    Ok(level)
}
