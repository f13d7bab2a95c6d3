// Jobs and their rows.
ghost use Rattle.std.specs.Prelude.{◌≡◌};
ghost use Rattle.ledger.specs.Marks.{mark_number};
ghost use Rattle.ledger.specs.States.{state_number};

use crate::bounded::Bounded;
use crate::limits::{MOST_LISTED, MOST_OFFICES};
use crate::message::Exchange;

// What a job may do: an amendment is an update transaction, an inspection a read-only one.
#[derive(Clone, Copy, PartialEq, Eq, Debug)]
pub enum JobKind {
    Amendment,
    Inspection,
}

// Why an office refused a job: the reason of an abort.
#[derive(Clone, Copy, PartialEq, Eq, Debug)]
pub enum Mark {
    // another job holds a record in a way that excludes this one
    Conflict = 1,
    // a record has a newer version than the one that the job read
    Stale = 2,
    // a record has all the versions that it can have
    Full = 3,
}

impl Mark {
    // The number by which a mark is told.
    pub fn number(&self) -> u8
        ensures { result ≡ mark_number self.now }
    {
        *self as u8
    }
}

// Where a job stands. The first state is that of a job number that no call has taken yet.
#[derive(Clone, Copy, PartialEq, Eq, Debug)]
pub enum State {
    NeverOpened,
    Open,
    // handed in, and the offices vote
    Voting,
    // all offices voted yes: committed among the offices, not yet answered to the client
    Accepted,
    // some office refused: aborted, with the mark of the lowest-numbered office that did
    Dropped(Mark),
    // committed, and the client knows
    Answered,
    // withdrawn, or dropped and collected
    Ended,
}

impl State {
    // The number by which a state is told. A match, since `Dropped` holds a mark, and such an enum has no discriminants to cast.
    pub fn number(&self) -> u8
        ensures { result ≡ state_number self.now }
    {
        match self {
            State::NeverOpened => 0,
            State::Open => 1,
            State::Voting => 2,
            State::Accepted => 3,
            State::Dropped(_) => 4,
            State::Answered => 5,
            State::Ended => 6,
        }
    }
}

// What collect tells of a job: its commit is answered, or an office refused it.
// An enum of its own, since a refusal of the call is another thing: `Ok(Err(mark))` would name neither.
#[derive(Clone, Copy, PartialEq, Eq, Debug)]
pub enum Collected {
    Answered,
    Dropped(Mark),
}

// A listed read: the version of a record that the job was told; version 0 is blank.
#[derive(Clone, Copy, PartialEq, Eq, Debug, Default)]
pub struct Read {
    pub record: u8,
    pub version: u8,
}

// A listed write: where the value lies on the shelf, and the version that it became, or 0 before that.
// A version is a number throughout and 0 the one before the first, since the rules compare versions and the archive writes them as they are.
#[derive(Clone, Copy, PartialEq, Eq, Debug, Default)]
pub struct Write {
    pub record: u8,
    pub place: u64,
    pub version: u8,
}

// An installed version of a record: which job wrote it, and where its value lies on the shelf.
#[derive(Clone, Copy, PartialEq, Eq, Debug, Default)]
pub struct Version {
    pub job: u8,
    pub place: u64,
}

// All that the ledger keeps of one job. Both lists are in the order of first use.
#[derive(Clone, Copy)]
pub struct Row {
    pub kind: JobKind,
    pub state: State,
    pub reads: Bounded<Read, MOST_LISTED>,
    pub writes: Bounded<Write, MOST_LISTED>,
    pub exchanges: [Exchange; MOST_OFFICES],
}
