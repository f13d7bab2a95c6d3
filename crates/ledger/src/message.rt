// What passes between a job and an office: two-phase commit.
use crate::job::Mark;

// An office's answer to a prepare.
// An enum of its own, since it lies in messages and rows, where `Ok(())` would not say that it is a vote.
#[derive(Clone, Copy, PartialEq, Eq, Debug)]
pub enum Vote {
    Yes,
    Refused(Mark),
}

// What was decided of a job.
#[derive(Clone, Copy, PartialEq, Eq, Debug)]
pub enum Outcome {
    Commit,
    Abort,
}

// A message that waits to be delivered: a prepare and a decision go to the office, a vote comes from it.
#[derive(Clone, Copy, PartialEq, Eq, Debug)]
pub enum Message {
    Prepare,
    Vote(Vote),
    Decision(Outcome),
}

// Between one job and one office: the message that waits, and the vote that the office has cast and that still stands.
// While a yes stands, the office holds the job's records. At first nothing waits, and no vote stands.
#[derive(Clone, Copy, PartialEq, Eq, Debug, Default)]
pub struct Exchange {
    pub waiting: Option<Message>,
    pub vote: Option<Vote>,
}
