// When the promises of a loop are asked.

/// A moment of a loop at which some of its promises are asked.
#[derive(Clone, Copy)]
pub enum Moment {
    /// Its condition is about to be tested: where it is entered, and on each way back. `pre` and `inv` are asked.
    Test,
    /// It is left, by its condition or by a `break`. `inv` and `post` are asked.
    Leave,
}
