// A workload of commands that follows from a number (specs/Workload.antt), and the summary of its run (specs/Summary.antt).
#![tactic(auto)]

mod draws;
mod laws;
mod summary;
mod workload;

pub use laws::workload_is_in_form;
pub use summary::summarize;
pub use workload::make_workload;

#[cfg(test)]
mod tests;
