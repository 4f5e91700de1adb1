// The check of a volume on a disk: it is whole with a tree, or something is found that excludes that. What a check answers stands in
// specs/Checked.antt. It is a check of what the disk reads: where the log isn't empty, that is found first.
#![tactic(auto)]

mod ahead;
mod checking;
mod laws;
mod windows;

pub use checking::{CheckFault, Verdict, check};
pub use laws::{finding_is_of_image, recovery_is_exact, verdict_is_exact};
pub use windows::Windows;
