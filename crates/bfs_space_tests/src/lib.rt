// Tests of a space over blocks in memory, and of the core's words. They stand over the proved libraries, since a crate with tests of its own is proved
// twice. There is no code here but the tests.
#![tactic(auto)]

#[cfg(test)]
mod core_tests;
#[cfg(test)]
mod space_tests;
