// What a device keeps once its disk call has succeeded.
ghost use Rattle.std.specs.Prelude.{◌≡◌, ◌≤◌, ◌<◌, ◌+◌, ◌-◌, ◌*◌, ◌++◌, ◌∷◌, [], ℕ, List, length, drop, IsTrue, true};
ghost use Rattle.bfs_txn.specs.Changed.{Ascends};
ghost use Rattle.std.specs.Vec.{vec_capacity};
ghost use Rattle.bfs_super.specs.Conditions.{IsValid};
ghost use Rattle.bfs_device.specs.Layouts.{layout_of};
ghost use Rattle.bfs_device.specs.Books.{IsNext, IsPhaseOf, IsSealed, Ready, books_of, durable_of, sealed_of};
ghost use Rattle.bfs_device.specs.Seals.{last_used, phase_with, sealed_with};
ghost use Rattle.bfs_device.specs.Steps.{progress_in, next_phase, first_phase, front_phase, stepped, progress_to, calls_left};

use crate::calls::{closed, log_blocks};
use crate::journal::{Journal, Mark, Phase, Progress};
use crate::look_up::does_ascend;
use bfs_txn::Group;

// What a group's phase is told as.
fn progress(group: &Group, phase: Phase) -> Progress
    requires { IsPhaseOf group.now.blocks phase }
    ensures { result ≡ progress_in group.now phase }
{
    match phase {
        Phase::Log(_) => Progress::Logged,
        Phase::LogSafe => Progress::LogSafe,
        Phase::Open => Progress::Opened,
        Phase::OpenSafe => Progress::Durable(group.last),
        Phase::Home(at) => Progress::Home(group.blocks.block(at)),
        Phase::HomeSafe => Progress::HomeSafe,
        Phase::Tail => Progress::TailMoved,
        Phase::TailSafe => Progress::TailSafe,
        Phase::Pass => Progress::Durable(group.last),
    }
}

// The phase behind this one.
fn next(group: &Group, phase: Phase) -> Phase
    requires phase { IsPhaseOf group.now.blocks phase }
    requires few { length group.now.blocks < 65536 }
    ensures { result ≡ next_phase group.now phase }
{
    match phase {
        Phase::Log(at) => {
            if at + 1 < log_blocks(&group.blocks) {
                Phase::Log(at + 1)
            } else {
                Phase::LogSafe
            }
        }
        Phase::LogSafe => Phase::Open,
        Phase::Open => Phase::OpenSafe,
        Phase::OpenSafe => Phase::Home(0),
        Phase::Home(at) => {
            if at + 1 < group.blocks.len() {
                Phase::Home(at + 1)
            } else {
                Phase::HomeSafe
            }
        }
        Phase::HomeSafe => Phase::Tail,
        Phase::Tail => Phase::TailSafe,
        Phase::TailSafe => Phase::Pass,
        Phase::Pass => Phase::Pass,
    }
}

// The phase of a group at first.
fn first(group: &Group) -> Phase
    ensures { result ≡ first_phase group.now.blocks }
{
    if group.blocks.is_empty() {
        Phase::Pass
    } else {
        Phase::Log(0)
    }
}

// The phase once a group is behind the others.
fn phase_behind(journal: &Journal, group: &Group) -> Phase
    ensures { result ≡ phase_with group.now journal.now.groups.items journal.now.phase }
{
    if journal.groups.is_empty() {
        first(group)
    } else {
        journal.phase
    }
}

// Are the blocks of each group known to ascend once this one is behind the others?
fn are_ordered(journal: &Journal, group: &Group) -> bool
    ensures { IsTrue result → (journal.now.ordered ≡ true) × Ascends group.now.blocks }
{
    journal.ordered && does_ascend(&group.blocks)
}

/// Takes a group behind the others.
pub fn take(journal: &mut Journal, group: Group)
    requires ready { Ready journal.old }
    requires may { length journal.old.groups.items < 16 }
    requires spare { 1 ≤ journal.old.spare }
    requires next { IsNext (layout_of journal.old.sup) journal.old.sup.block_size (sealed_of (books_of journal.old)) (last_used (books_of journal.old)) group }
    ensures ready { Ready journal.new }
    ensures books { books_of journal.new ≡ sealed_with (books_of journal.old) group }
{
    journal.phase = phase_behind(journal, &group);
    journal.ordered = are_ordered(journal, &group);
    journal.spare -= 1;
    // There is room: it was made when the disk was adopted.
    let _ = journal.groups.push(group);
}

// The phase of the first group.
fn front(groups: &[Group]) -> Phase
    ensures { result ≡ front_phase groups.now }
{
    match groups {
        [] => Phase::Pass,
        [group, ..] => first(group),
    }
}

/// The number of the last entry that is durable.
pub fn durable_number(journal: &Journal) -> u64
    ensures { result ≡ durable_of (books_of journal.now) }
{
    if journal.groups.is_empty() {
        return journal.left;
    }
    match journal.phase {
        Phase::Home(_) | Phase::HomeSafe | Phase::Tail | Phase::TailSafe => journal.groups[0].last,
        Phase::Log(_) | Phase::LogSafe | Phase::Open | Phase::OpenSafe | Phase::Pass =>
            journal.left,
    }
}

// Stores a mark, for which there is room.
fn store(marks: &mut Vec<Mark>, mark: Mark)
    requires { length marks.old.items < vec_capacity marks.old }
    ensures items { marks.new.items ≡ marks.old.items ++ mark ∷ [] }
    ensures room { vec_capacity marks.old ≤ vec_capacity marks.new }
{
    let _ = marks.push(mark);
}

/// Goes on to the next call.
pub fn advance(journal: &mut Journal) -> Progress
    requires ready { Ready journal.old }
    requires some { 0 < length journal.old.groups.items }
    ensures ready { Ready journal.new }
    ensures books { books_of journal.new ≡ stepped (books_of journal.old) }
    ensures progress { result ≡ progress_to journal.old.groups.items journal.old.phase }
{
    let phase = journal.phase;
    let group = &journal.groups[0];
    let done = progress(group, phase);
    let next = next(group, phase);
    let number = group.last;
    let moment = journal.moment.saturating_add(1);
    journal.moment = moment;
    match phase {
        Phase::OpenSafe => {
            store(&mut journal.marks, Mark { moment, number });
            journal.phase = next;
        }
        Phase::TailSafe => {
            let group = journal.groups.remove(0);
            journal.sup = closed(&journal.sup, &group);
            journal.left = number;
            journal.phase = front(&journal.groups);
        }
        Phase::Pass => {
            store(&mut journal.marks, Mark { moment, number });
            journal.groups.remove(0);
            journal.left = number;
            journal.phase = front(&journal.groups);
        }
        Phase::Log(_)
        | Phase::LogSafe
        | Phase::Open
        | Phase::Home(_)
        | Phase::HomeSafe
        | Phase::Tail => journal.phase = next,
    }
    done
}
