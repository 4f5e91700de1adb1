// Tests of pages of trees: one page, whole trees as sorted maps, ranges of keys, and the pages of numbers that rows of one key have in common. They
// stand over the proved libraries, since a crate with tests of its own is proved twice. There is no code here but the tests.
#![tactic(auto)]

#[cfg(test)]
mod number_tests;
#[cfg(test)]
mod page_tests;
#[cfg(test)]
mod range_tests;
#[cfg(test)]
mod tree_map_tests;
#[cfg(test)]
mod tree_tests;
