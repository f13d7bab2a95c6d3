// Collect and close: the client is told the end of a job. For a job that committed, that is its answer.
ghost use Rattle.std.specs.Prelude.{◌≡◌};
ghost use Rattle.std.specs.List.{list_any};
ghost use Rattle.ledger.specs.Answering.{answer_done, collect_fault, collect_done, collected, close_fault, close_done};
ghost use Rattle.ledger.specs.Delivering.{waits};
ghost use Rattle.ledger.specs.Faults.{told, guarded};
ghost use Rattle.ledger.specs.Model.{row as row_of, put_row, with_state};
ghost use Rattle.ledger.specs.View.{view, row_view};
ghost use Rattle.ledger.specs.declared.job.State.TheVariants.{Answered, Ended};

use crate::fault::LedgerFault;
use crate::job::{Collected, JobKind, Row, State};
use crate::ledger::Ledger;
use crate::numbers::job_number;

impl Row {
    // The row's step at its answer.
    fn answer(&mut self)
        ensures { row_view self.new ≡ with_state (row_view self.old) Answered }
    {
        self.state = State::Answered;
    }
}

impl Ledger {
    fn is_waiting(&self, job: u8) -> bool
        ensures { result ≡ list_any waits (row_of (view self.now) job).exchanges }
    {
        self.rows[job as usize].is_waiting()
    }

    // The answer of a job: it joins the end of the answered jobs.
    fn answer(&mut self, job: u8)
        ensures { view self.new ≡ answer_done (view self.old) job }
    {
        self.rows[job as usize].answer();
        let _ = self.answered.try_push(job);
    }

    // The end of a dropped job.
    fn finish(&mut self, job: u8)
        ensures { view self.new ≡ put_row (view self.old) job (with_state (row_of (view self.old) job) Ended) }
    {
        self.rows[job as usize].end();
    }

    // Tells the client of a decided job whose messages are all delivered: an accepted one is answered, unless another job holds it back.
    pub fn collect(&mut self, job: u64) -> Result<Collected, LedgerFault>
        ensures told { result ≡ told (collect_fault (view self.old) job) (collected (row_of (view self.old) job).state) }
        ensures after { view self.new ≡ guarded (collect_fault (view self.old) job) (view self.old) (collect_done (view self.old) job) }
    {
        let job = job_number(job)?;
        match (self.state(job), self.kind(job)) {
            (State::NeverOpened, _) => Err(LedgerFault::NeverOpened),
            (_, JobKind::Inspection) => Err(LedgerFault::WrongKind),
            (State::Voting, _) => Err(LedgerFault::Undecided),
            (State::Accepted, _) => {
                if self.is_waiting(job) {
                    return Err(LedgerFault::Undecided);
                }
                if self.held(job) {
                    return Err(LedgerFault::Held);
                }
                self.answer(job);
                Ok(Collected::Answered)
            }
            (State::Dropped(mark), _) => {
                if self.is_waiting(job) {
                    return Err(LedgerFault::Undecided);
                }
                self.finish(job);
                Ok(Collected::Dropped(mark))
            }
            (_, _) => Err(LedgerFault::WrongState),
        }
    }

    // Ends an inspection. That is its answer, and nothing holds it back.
    pub fn close(&mut self, job: u64) -> Result<(), LedgerFault>
        ensures told { result ≡ told (close_fault (view self.old) job) tt }
        ensures after { view self.new ≡ guarded (close_fault (view self.old) job) (view self.old) (close_done (view self.old) job) }
    {
        let job = job_number(job)?;
        match (self.state(job), self.kind(job)) {
            (State::NeverOpened, _) => Err(LedgerFault::NeverOpened),
            (_, JobKind::Amendment) => Err(LedgerFault::WrongKind),
            (State::Open, JobKind::Inspection) => {
                self.answer(job);
                Ok(())
            }
            (_, JobKind::Inspection) => Err(LedgerFault::WrongState),
        }
    }
}
