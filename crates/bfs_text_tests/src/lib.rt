// Tests of what is read and written as text: the words of the command line, scripts and the text of a history, and the lines of
// findings. They stand over the proved libraries, since a crate with tests of its own is proved twice. There is no code here but the
// tests.
#![tactic(auto)]

#[cfg(test)]
mod finding_tests;
#[cfg(test)]
mod script_tests;
#[cfg(test)]
mod word_tests;
