//! Tests of trees and of the parsers: what is read, as one printer writes it, and where a fault
//! stands. Nothing stands here but tests.
#![tactic(auto)]

#[cfg(test)]
mod cursors;
#[cfg(test)]
mod exprs;
#[cfg(test)]
mod files;
#[cfg(test)]
mod print_expr;
#[cfg(test)]
mod print_file;
#[cfg(test)]
mod print_stmt;
#[cfg(test)]
mod same;
#[cfg(test)]
mod stmts;
