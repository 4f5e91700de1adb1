// A run of the shell: a script is read from a source, and its lines are run, one after the other, on a volume that is mounted for it
// and closed behind it (specs/Runs.antt says how a run ends, and what it leaves; specs/Scripts.antt what a line appends).
#![tactic(auto)]

mod ask;
mod laws;
mod line;
mod lines;
mod quiet;
mod run;
mod source;
mod watch;

pub use bfs_volume::{Unmounted, check as check};
pub use laws::{log_room_is_found, room_is_found};
pub use run::{Closed, Run, run_shell, run_workload};
pub use watch::{Unwatched, Watcher};
