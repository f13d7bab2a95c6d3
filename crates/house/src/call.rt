// The calls of the house as values, and what they tell: the runs that the law speaks of are lists of these.
use crate::reading::Reading;
use ledger::job::{Collected, JobKind};

// One call of the house, with all that it is given.
#[derive(Clone, Copy, PartialEq, Eq, Debug)]
pub enum Call<V> {
    Open { job: u64, kind: JobKind },
    Read { job: u64, record: u64 },
    Write { job: u64, record: u64, value: V },
    HandIn { job: u64 },
    Deliver { job: u64, office: u64 },
    Collect { job: u64 },
    Close { job: u64 },
    Withdraw { job: u64 },
    // into a buffer of so many bytes
    Archive { room: u64 },
}

// What a call tells if it is not refused.
#[derive(Clone, Copy, PartialEq, Eq, Debug)]
pub enum Told<V> {
    // there is nothing to tell
    Done,
    // of a read
    Read(Reading<V>),
    // of a collect
    Collected(Collected),
    // of an archive: it has so many bytes
    Archived { size: u64 },
}
