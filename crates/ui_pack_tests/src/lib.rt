//! What is said of packages by their trees: the first form that isn't taken, names that clash, what is declared, and cycles.
//! All is tests.
#![tactic(auto)]

#[cfg(test)]
mod rows;
#[cfg(test)]
mod words;
