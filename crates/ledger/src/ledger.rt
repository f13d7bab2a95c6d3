// The ledger's tables. Nothing in them grows: no call allocates, so none can fail for want of memory.
ghost use Rattle.std.specs.Prelude.{◌≡◌};
ghost use Rattle.ledger.specs.Model.{unused as unused_row, new_ledger};
ghost use Rattle.ledger.specs.View.{view, row_view};

use crate::bounded::Bounded;
use crate::job::{JobKind, Row, State, Version};
use crate::limits::{JOBS, MOST_OFFICES, MOST_VERSIONS, RECORDS};
use crate::message::Exchange;
use arrayvec::ArrayVec;
use std::array;

#[derive(Drop)]
pub struct Ledger {
    // one row for each job number
    pub rows: [Row; JOBS],
    // the installed versions of each record, version 1 first
    pub records: [ArrayVec<Version, MOST_VERSIONS>; RECORDS],
    // the answered jobs in the order of their answers
    pub answered: ArrayVec<u8, JOBS>,
}

impl Row {
    // The row of a job number that no call has taken.
    pub(crate) fn unused() -> Row
        ensures { row_view result ≡ unused_row }
    {
        Row {
            kind: JobKind::Amendment,
            state: State::NeverOpened,
            reads: Bounded::new(),
            writes: Bounded::new(),
            exchanges: [Exchange::default(); MOST_OFFICES],
        }
    }
}

impl Ledger {
    // A ledger with no job, version or message.
    pub fn new() -> Ledger
        ensures { view result ≡ new_ledger }
    {
        Ledger {
            rows: array::from_fn(|_| Row::unused()),
            records: array::from_fn(|_| ArrayVec::new()),
            answered: ArrayVec::new(),
        }
    }
}
