// Tests of new volumes, of recovery, and of a whole check, of the bytes of a volume and of a disk, over the proved libraries, since a
// crate with tests of its own is proved twice. There is no code here but the tests.
#![tactic(auto)]

#[cfg(test)]
mod ahead_tests;
#[cfg(test)]
mod check_tests;
#[cfg(test)]
mod format_tests;
#[cfg(test)]
mod pass_tests;
#[cfg(test)]
mod recovery_tests;
