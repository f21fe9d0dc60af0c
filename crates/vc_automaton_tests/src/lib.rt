//! Tests of the crates of automata.
#![tactic(auto)]

#[cfg(test)]
mod automata;
#[cfg(test)]
mod closures;
#[cfg(test)]
mod coefficients;
#[cfg(test)]
mod labels;
#[cfg(test)]
mod trims;
