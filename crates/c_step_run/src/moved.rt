// Where a step or a call has come to.

use c_meaning::values::CValue;

/// Where an instruction leads.
#[derive(Clone, Copy)]
pub(crate) enum Moved {
    /// To an instruction.
    Goes {
        /// Its number.
        to: usize,
        /// The turns that are left.
        left: u64,
    },
    /// The function has returned.
    Ends {
        /// What it has returned.
        value: Option<CValue>,
        /// The turns that are left.
        left: u64,
    },
    /// A turn is needed, and none is left.
    Turns,
    /// Something isn't defined.
    Undefined,
}

/// How a call has ended.
#[derive(Clone, Copy)]
pub enum Ended {
    /// It has returned.
    Got {
        /// What it has returned.
        value: Option<CValue>,
        /// The turns that are left.
        left: u64,
    },
    /// It needs more turns.
    More,
    /// Something in it isn't defined.
    Lost,
}
