// The pages of a tree below its header.
ghost use Rattle.std.specs.Prelude.{◌≡◌, ◌/◌, ℕ, List, length, Some, IfOk, IfErr};
ghost use Rattle.std.specs.List.{AllByRecursion};
ghost use Rattle.bfs_base.specs.Keys.{IsTreeKind};
ghost use Rattle.bfs_txn.specs.Faults.{AreLater};
ghost use Rattle.bfs_pages.specs.Answers.{IsChild, IsHeaderFor};
ghost use Rattle.bfs_pages.specs.Shapes.{AscendAll};
ghost use Rattle.bfs_pages.specs.Trees.{header_in};
ghost use Rattle.bfs_finding.specs.Walks.{entries_met};
ghost use Rattle.bfs_walk.specs.Walked.{entries_alone};
ghost use Rattle.bfs_walk.specs.Wrong.{IsWrong, IsWalkCause};
ghost use Rattle.bfs_tree_check.specs.Shaped.{IsShaped};
ghost use Rattle.bfs_tree_check.specs.Marked.{marked};

use crate::{Survey, check_tree, new_marks};
use bfs_node::{Header, KeyKind};
use bfs_pages::place;
use bfs_txn::{Pages, Steps};
use bfs_walk::WalkFault;
use std::alloc::Global;
use std::sync::ledger::Ledger;

/// What was found below a tree's header: the survey of its pages, and a mark for each page that was met, the header among them.
#[derive(Debug, Drop)]
pub struct Below {
    pub survey: Survey,
    pub marks: Vec<bool>,
}

/// Looks at all pages below a tree's header, as it tells them, but for those that values reach. All these pages are marked.
pub fn survey_below<P: Pages, L: Ledger>(
    alloc: Global,
    pages: &mut P,
    kind: KeyKind,
    header: Header,
    steps: &mut Steps<L>,
) -> Result<Below, WalkFault<P::Fault>>
    requires kind { IsTreeKind kind }
    requires header { IsHeaderFor kind (P.size pages.old) header }
    ensures shaped { (b : List ℕ) → P.told pages.old ≡ Some b → header ≡ header_in b → IfOk result (λ f. IsShaped kind b f.survey.level.items f.survey.leaves.items (marked (P.size pages.old) f.marks.items)) }
    ensures ascends { (b : List ℕ) → P.told pages.old ≡ Some b → header ≡ header_in b → IfOk result (λ f. AscendAll kind (entries_alone (entries_met kind b))) }
    ensures wrong { (b : List ℕ) → P.told pages.old ≡ Some b → header ≡ header_in b → IfErr result (IsWrong kind b) }
    ensures leaves { IfOk result (λ f. AllByRecursion (IsChild (P.size pages.old)) f.survey.leaves.items) }
    ensures length { IfOk result (λ f. length f.marks.items ≡ P.size pages.old / 1024) }
    ensures cause { IfErr result (IsWalkCause (P.is_cause pages.old pages.new)) }
    ensures told { P.told pages.new ≡ P.told pages.old }
    ensures size { P.size pages.new ≡ P.size pages.old }
    ensures counts { AreLater (P.counts pages.old) (P.counts pages.new) }
    ensures frame { P.frame pages.new ≡ P.frame pages.old }
    ensures goes_on { P.goes_on pages.old pages.new }
    ensures is_read { P.is_read pages.old pages.new }
{
    let size = pages.length();
    let mut marks = match new_marks(alloc, size / 1024) {
        Ok(marks) => marks,
        Err(_) => return Err(WalkFault::NoMemory),
    };
    let root = place(header.root_pointer);
    let free = place(header.free_pointer);
    let levels = header.levels - 1;
    match check_tree(alloc, pages, kind, root, levels, free, &mut marks, steps) {
        Ok(survey) => Ok(Below { survey, marks }),
        Err(fault) => Err(fault),
    }
}
