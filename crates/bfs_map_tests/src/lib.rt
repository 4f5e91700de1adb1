// Tests of what stands on streams: streams as pages, attributes, indices, and the calls that read a new volume. They stand over the proved
// libraries, since a crate with tests of its own is proved twice. There is no code here but the tests.
#![tactic(auto)]

#[cfg(test)]
mod attribute_change_tests;
#[cfg(test)]
mod attribute_tests;
#[cfg(test)]
mod index_tests;
#[cfg(test)]
mod look_tests;
#[cfg(test)]
mod page_tests;
#[cfg(test)]
mod reader_tests;
