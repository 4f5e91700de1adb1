// Tests of the program's commands over disks in memory. They stand over the proved library, since a crate with tests of its own is proved twice.
// There is no code here but the tests.
#![tactic(auto)]

#[cfg(test)]
mod check_tests;
#[cfg(test)]
mod make_tests;
#[cfg(test)]
mod progress_tests;
#[cfg(test)]
mod shell_tests;
#[cfg(test)]
mod tests;
