//! One run of numbers.

/// The numbers from `first` to `last`, both in it.
#[derive(Clone, Copy, Debug, PartialEq, Eq)]
pub struct Run {
    /// The first number.
    pub first: u128,
    /// The last number.
    pub last: u128,
}
