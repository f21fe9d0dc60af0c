//! Tests of the crates of texts.
#![tactic(auto)]

#[cfg(test)]
mod contexts;
#[cfg(test)]
mod lines;
#[cfg(test)]
mod readings;
#[cfg(test)]
mod texts;
#[cfg(test)]
mod tokens;
#[cfg(test)]
mod writings;
