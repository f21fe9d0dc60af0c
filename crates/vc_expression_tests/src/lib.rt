//! Tests of the crates of expressions and of their texts.
#![tactic(auto)]

#[cfg(test)]
mod coefficients;
#[cfg(test)]
mod expressions;
#[cfg(test)]
mod store;
#[cfg(test)]
mod words;
