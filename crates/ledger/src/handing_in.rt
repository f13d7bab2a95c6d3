// Hand in: a prepare goes to every office of a listed record, and the vote begins.
ghost use Rattle.std.specs.Prelude.{◌≡◌, ◌&&◌, if◌then◌else◌};
ghost use Rattle.std.specs.List.{list_any};
ghost use Rattle.ledger.specs.Delivering.{prepare_waits, prepares as prepares_of, handed_in, is_empty, hand_in_fault, hand_in_done};
ghost use Rattle.ledger.specs.Faults.{told, guarded};
ghost use Rattle.ledger.specs.Offices.{office_of, owns as owned};
ghost use Rattle.ledger.specs.Searching.{map_indexed};
ghost use Rattle.ledger.specs.View.{view, row_view};
ghost use Rattle.ledger.specs.declared.job.State.TheVariants.{Accepted, Voting};

use crate::fault::LedgerFault;
use crate::job::{Row, State};
use crate::ledger::Ledger;
use crate::limits::MOST_OFFICES;
use crate::lookups::Entry;
use crate::message::{Exchange, Message};
use crate::numbers::job_number;
use crate::offices::Offices;

// A prepare waits at each office that owns the record of an entry.
fn ask_owners<E: Entry>(exchanges: &mut [Exchange; MOST_OFFICES], entries: &[E], offices: Offices)
    ensures { exchanges.new ≡ map_indexed (λ o e. if list_any (λ x. owned offices o (E.record_of x)) entries.now then prepare_waits else e) 0 exchanges.old }
{
    for entry in entries {
        exchanges[offices.office_of(entry.record()) as usize] = Exchange {
            waiting: Some(Message::Prepare),
            vote: None,
        };
    }
}

impl Row {
    // How a job that is handed in stands with each office. One pass over the entries, since there are few of them:
    // a search of them for each office takes twice the time.
    fn prepares(&self, offices: Offices) -> [Exchange; MOST_OFFICES]
        ensures { result ≡ prepares_of (office_of offices) (row_view self.now) }
    {
        let mut exchanges = [Exchange::default(); MOST_OFFICES];
        ask_owners(&mut exchanges, self.reads.as_slice(), offices);
        ask_owners(&mut exchanges, self.writes.as_slice(), offices);
        exchanges
    }

    // A job with no record is decided on the spot, and accepted.
    fn first_state(&self) -> State
        ensures { result ≡ (if is_empty (row_view self.now).reads && is_empty (row_view self.now).writes then Accepted else Voting) }
    {
        if self.reads.is_empty() && self.writes.is_empty() {
            State::Accepted
        } else {
            State::Voting
        }
    }

    // The row's step at hand in.
    fn submit(&mut self, offices: Offices)
        ensures { row_view self.new ≡ handed_in (office_of offices) (row_view self.old) }
    {
        self.exchanges = self.prepares(offices);
        self.state = self.first_state();
    }
}

impl Ledger {
    // Hands an open amendment in to the offices of its records.
    pub fn hand_in(&mut self, job: u64, offices: Offices) -> Result<(), LedgerFault>
        ensures told { result ≡ told (hand_in_fault (view self.old) job) tt }
        ensures after { view self.new ≡ guarded (hand_in_fault (view self.old) job) (view self.old) (hand_in_done (office_of offices) (view self.old) job) }
    {
        let job = job_number(job)?;
        let row = &mut self.rows[job as usize];
        row.check_open_amendment()?;
        row.submit(offices);
        Ok(())
    }
}
