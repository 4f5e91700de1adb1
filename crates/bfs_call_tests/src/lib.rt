// Tests of the first calls that change a volume, and of parts of calls above them: the places of a piece of a file, a directory, and a
// node's name. They stand over the proved libraries, since a crate with tests of its own is proved twice. There is no code here but the tests.
#![tactic(auto)]

#[cfg(test)]
mod call_tests;
#[cfg(test)]
mod directory_tests;
#[cfg(test)]
mod name_tests;
#[cfg(test)]
mod naming_tests;
#[cfg(test)]
mod place_tests;
#[cfg(test)]
mod volumes;
