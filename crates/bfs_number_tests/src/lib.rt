// Tests of the numbers that rows of one key have in common: they are added, and taken out until one is plain. They stand over the proved
// libraries, since a crate with tests of its own is proved twice. There is no code here but the tests.
#![tactic(auto)]

#[cfg(test)]
mod chain_tests;
#[cfg(test)]
mod leaf;
#[cfg(test)]
mod number_adding_tests;
#[cfg(test)]
mod number_tests;
