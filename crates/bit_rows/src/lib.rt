//! Rows of bits of fixed length, 64 places to a machine word: exclusive or, how many ones there are, parities of common
//! ones, and the power of i of the product of two Pauli words, each kept as a row of x bits and a row of z bits. `lanes`
//! has single words, whose bits belong to 64 runs or to 64 places of a row.
#![tactic(auto)]

mod bits;
mod count;
pub mod lanes;
mod marks;
mod multiply;
mod parity;
mod phase;
mod row;
mod short;
mod xor;

pub use row::BitRow;
