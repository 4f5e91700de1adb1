// Tests of the plain tree and of the count of its nodes, over their proved libraries, since a crate with tests of its own is proved twice. There is no
// code here but the tests.
#![tactic(auto)]

#[cfg(test)]
mod count_tests;
#[cfg(test)]
mod model_tests;
