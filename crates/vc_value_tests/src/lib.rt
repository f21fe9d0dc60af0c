//! Tests of the crates of weights and of labels.
#![tactic(auto)]

#[cfg(test)]
mod atoms;
#[cfg(test)]
mod fractions;
#[cfg(test)]
mod numbers;
#[cfg(test)]
mod tuples;
#[cfg(test)]
mod weights;
#[cfg(test)]
mod words;
