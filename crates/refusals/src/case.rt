// A call that can take memory, what it returns, and why it may not.
use i_overlay::geom::point::IntPoint;
use i_overlay::segm::fault::Fault;
use std::alloc::{AllocError, AllocFailed, Global};

/// What a call returns, in numbers.
#[derive(Clone, Copy, PartialEq, Eq, Drop)]
pub struct Summary {
    /// The number of segments, links, walks or points.
    pub count: usize,
    /// The number of nodes, passes or further parts.
    pub others: u128,
    /// A sum over all coordinates, fills and indexes, in which the order counts.
    pub digest: i64,
}

impl Summary {
    /// Of no call.
    pub const NOTHING: Summary = Summary {
        count: 0,
        others: 0,
        digest: 0,
    };

    /// Both together.
    pub fn with(self, other: Summary) -> Summary {
        Summary {
            count: self.count.saturating_add(other.count),
            others: self.others.saturating_add(other.others),
            digest: self.digest.wrapping_add(other.digest),
        }
    }
}

/// Why a call has no result.
#[derive(Clone, Copy, Drop)]
pub enum Stop {
    /// A growth was refused, and what is left after the call is as promised.
    Refused,
    /// What is left is not as promised, or the call returns what it may not.
    Wrong(&'static str),
}

impl From<AllocError> for Stop {
    fn from(_error: AllocError) -> Stop {
        Stop::Refused
    }
}

impl<T: Drop> From<AllocFailed<T>> for Stop {
    fn from(_error: AllocFailed<T>) -> Stop {
        Stop::Refused
    }
}

impl From<Fault> for Stop {
    fn from(fault: Fault) -> Stop {
        refused(fault, true)
    }
}

/// A call, with what it keeps from one try to the next.
pub trait Case {
    /// Makes the call once. A growth that is refused while its input is made counts as refused.
    fn try_once(&mut self, alloc: Global) -> Result<Summary, Stop>;
}

/// Of a call that was refused: whether what is left after it is as promised.
pub fn refused(fault: Fault, is_as_promised: bool) -> Stop {
    match fault {
        Fault::Memory if is_as_promised => Stop::Refused,
        Fault::Memory => Stop::Wrong("what stands after a refusal is not as promised"),
        Fault::CountOutOfRange => Stop::Wrong("a count is refused"),
    }
}

/// A digest with one more number.
pub fn mixed(digest: i64, number: i32) -> i64 {
    digest.wrapping_mul(31).wrapping_add(i64::from(number))
}

/// A digest with one more point.
pub fn mixed_point(digest: i64, point: IntPoint<i32>) -> i64 {
    mixed(mixed(digest, point.x), point.y)
}

/// A digest with one more index.
pub fn mixed_index(digest: i64, index: usize) -> i64 {
    digest
        .wrapping_mul(31)
        .wrapping_add(i64::try_from(index).unwrap_or(i64::MAX))
}
