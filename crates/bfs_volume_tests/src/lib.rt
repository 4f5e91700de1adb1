// Tests of volumes on disks in memory. They stand over the proved libraries, since a crate with tests of its own is proved twice. There is no code here but the tests.
#![tactic(auto)]

#[cfg(test)]
mod event_tests;
#[cfg(test)]
mod held_tests;
#[cfg(test)]
mod volume_tests;
