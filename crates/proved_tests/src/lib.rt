//! The tests that are proved. The crate has nothing but tests. `orders` asks `serve` over memory for what was worked by hand, and
//! has its memory refused and its devices fail. `calls` makes public calls of the libraries by their names, with ample memory, on
//! values worked by hand, and has ends over devices that fail and the texts of causes. `circuits` has circuits that were worked by
//! hand, and `sweeps` each call that no order makes, with each of its growths refused. docs/TESTING.md tells of them.
#![tactic(auto)]

#[cfg(test)]
mod tests;
