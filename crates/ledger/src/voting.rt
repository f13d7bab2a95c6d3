// Votes: each is noted, and the last one decides the job.
ghost use Rattle.std.specs.Prelude.{◌≡◌, map};
ghost use Rattle.std.specs.List.{list_any};
ghost use Rattle.ledger.specs.Delivering.{refusal as refusal_of, first_refusal as first_refusal_of, decided_state as decided_state_of, outcome as outcome_of, decision_waits, decided, with_exchange, vote_noted, counted, waits};
ghost use Rattle.ledger.specs.Model.{row as row_of, put_row};
ghost use Rattle.ledger.specs.View.{view, row_view};

use crate::job::{Mark, Row, State};
use crate::ledger::Ledger;
use crate::limits::MOST_OFFICES;
use crate::message::{Exchange, Message, Outcome, Vote};
use crate::office::Office;

// The mark of a vote that refuses.
fn refusal(vote: Option<Vote>) -> Option<Mark>
    ensures { result ≡ refusal_of vote }
{
    match vote {
        Some(Vote::Refused(mark)) => Some(mark),
        _ => None,
    }
}

// The mark of the lowest-numbered office that refused. A loop: with `find_map` in its place the goal stays open.
fn first_refusal(exchanges: &[Exchange]) -> Option<Mark>
    ensures { result ≡ first_refusal_of exchanges.now }
{
    for exchange in exchanges {
        if let Some(mark) = refusal(exchange.vote) {
            return Some(mark);
        }
    }
    None
}

fn decided_state(refusal: Option<Mark>) -> State
    ensures { result ≡ decided_state_of refusal }
{
    refusal.map_or(State::Accepted, State::Dropped)
}

fn outcome(refusal: Option<Mark>) -> Outcome
    ensures { result ≡ outcome_of refusal }
{
    refusal.map_or(Outcome::Commit, |_| Outcome::Abort)
}

// How a decided job stands with an office: one that voted is told.
fn with_decision(exchange: Exchange, outcome: Outcome) -> Exchange
    ensures { result ≡ decision_waits outcome exchange }
{
    Exchange {
        waiting: exchange.vote.map(|_| Message::Decision(outcome)),
        vote: exchange.vote,
    }
}

fn send_decision(exchanges: &mut [Exchange; MOST_OFFICES], outcome: Outcome)
    ensures { exchanges.new ≡ map (decision_waits outcome) exchanges.old }
{
    for exchange in exchanges.iter_mut() {
        *exchange = with_decision(*exchange, outcome);
    }
}

impl Row {
    // Whether a message of the job waits.
    pub(crate) fn is_waiting(&self) -> bool
        ensures { result ≡ list_any waits (row_view self.now).exchanges }
    {
        self.exchanges
            .iter()
            .any(|exchange| exchange.waiting.is_some())
    }

    // The row's step at the last vote.
    fn decide(&mut self)
        ensures { row_view self.new ≡ decided (first_refusal_of (row_view self.old).exchanges) (row_view self.old) }
    {
        let refusal = first_refusal(&self.exchanges);
        send_decision(&mut self.exchanges, outcome(refusal));
        self.state = decided_state(refusal);
    }

    // The row's step at any message: how the job stands with one office.
    pub(crate) fn set_exchange(&mut self, office: Office, exchange: Exchange)
        ensures { row_view self.new ≡ with_exchange (row_view self.old) office.number exchange }
    {
        self.exchanges[office.index()] = exchange;
    }

    // The row's step at a vote.
    fn count_vote(&mut self, office: Office, vote: Vote)
        ensures { row_view self.new ≡ counted (with_exchange (row_view self.old) office.number (vote_noted vote)) }
    {
        self.set_exchange(
            office,
            Exchange {
                waiting: None,
                vote: Some(vote),
            },
        );
        if !self.is_waiting() {
            self.decide();
        }
    }
}

impl Ledger {
    // Delivers an office's vote to a job.
    pub(crate) fn note_vote(&mut self, job: u8, office: Office, vote: Vote)
        ensures { view self.new ≡ put_row (view self.old) job (counted (with_exchange (row_of (view self.old) job) office.number (vote_noted vote))) }
    {
        self.rows[job as usize].count_vote(office, vote);
    }
}
