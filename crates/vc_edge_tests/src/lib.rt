//! Tests of the crates of files and of the words of a command line.
#![tactic(auto)]

#[cfg(test)]
mod files;
#[cfg(test)]
mod requests;
