// Tests of the journal and of its parts: a device, and the blocks and the pieces of files that are read and written over it. And of all
// together: a device writes groups, a crash takes what it likes of what isn't safe yet, and recovery makes a
// volume of it again. They stand over the proved libraries. There is no code here but the tests.
#![tactic(auto)]

#[cfg(test)]
mod block_tests;
#[cfg(test)]
mod device_tests;
#[cfg(test)]
mod devices;
#[cfg(test)]
mod groups;
#[cfg(test)]
mod piece_tests;
#[cfg(test)]
mod tests;
#[cfg(test)]
mod volumes;
