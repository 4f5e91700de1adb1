// Tests of the walks of a check over trees: their pages, their values and the names in them. They stand over the proved libraries, since a
// crate with tests of its own is proved twice. There is no code here but the tests.
#![tactic(auto)]

#[cfg(test)]
mod look_tests;
#[cfg(test)]
mod name_tests;
#[cfg(test)]
mod pages;
#[cfg(test)]
mod plain_tests;
#[cfg(test)]
mod tree_tests;
#[cfg(test)]
mod value_tests;
