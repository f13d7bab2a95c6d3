// Deliver: the message that waits between a job and an office arrives.
ghost use Rattle.std.specs.Prelude.{◌≡◌, not, None};
ghost use Rattle.ledger.specs.Delivering.{deliver_fault, deliver_done};
ghost use Rattle.ledger.specs.Faults.{told, guarded, refuse_if};
ghost use Rattle.ledger.specs.Model.{is_never_opened, is_amendment};
ghost use Rattle.ledger.specs.Offices.{office_of};
ghost use Rattle.ledger.specs.View.{view, row_view};
ghost use Rattle.ledger.specs.declared.fault.LedgerFault.TheVariants as fault;

use crate::fault::LedgerFault;
use crate::job::{JobKind, Row, State};
use crate::ledger::Ledger;
use crate::message::{Message, Outcome};
use crate::numbers::job_number;
use crate::offices::Offices;

impl Row {
    // Refuses a job that was never opened, and an inspection.
    fn check_amendment(&self) -> Result<(), LedgerFault>
        ensures { result ≡ told (refuse_if (is_never_opened (row_view self.now).state) fault.NeverOpened (refuse_if (not (is_amendment (row_view self.now).kind)) fault.WrongKind None)) tt }
    {
        match (self.state, self.kind) {
            (State::NeverOpened, _) => Err(LedgerFault::NeverOpened),
            (_, JobKind::Inspection) => Err(LedgerFault::WrongKind),
            (_, JobKind::Amendment) => Ok(()),
        }
    }
}

impl Ledger {
    // Delivers the message that waits between a job and an office.
    // One that does not fit the job's state changes nothing; no run of calls meets one.
    pub fn deliver(&mut self, job: u64, office: u64, offices: Offices) -> Result<(), LedgerFault>
        ensures told { result ≡ told (deliver_fault offices.count (view self.old) job office) tt }
        ensures after { view self.new ≡ guarded (deliver_fault offices.count (view self.old) job office) (view self.old) (deliver_done (office_of offices) (view self.old) job office) }
    {
        let job = job_number(job)?;
        let office = offices.office(office)?;
        let row = &self.rows[job as usize];
        row.check_amendment()?;
        match (row.state, row.exchanges[office.index()].waiting) {
            (_, None) => return Err(LedgerFault::NoMessage),
            (State::Voting, Some(Message::Prepare)) => self.prepare(job, office),
            (State::Voting, Some(Message::Vote(vote))) => self.note_vote(job, office, vote),
            (State::Accepted, Some(Message::Decision(Outcome::Commit))) => {
                self.install(job, office)
            }
            (State::Dropped(_), Some(Message::Decision(Outcome::Abort))) => {
                self.release(job, office)
            }
            (_, Some(_)) => {}
        }
        Ok(())
    }
}
