//! A driver of one of two types.
#![tactic(auto)]

mod either;

pub use either::EitherDriver;
