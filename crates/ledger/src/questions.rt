// Questions that change nothing.
ghost use Rattle.std.specs.Prelude.{◌≡◌};
ghost use Rattle.ledger.specs.Model.{row as row_of};
ghost use Rattle.ledger.specs.Questions.{state_told, newest_told, answers, answer_count, answer_told};
ghost use Rattle.ledger.specs.View.{view};

use crate::fault::LedgerFault;
use crate::job::{JobKind, State};
use crate::ledger::Ledger;
use crate::numbers::{job_number, record_number};

impl Ledger {
    pub(crate) fn state(&self, job: u8) -> State
        ensures { result ≡ (row_of (view self.now) job).state }
    {
        self.rows[job as usize].state
    }

    pub(crate) fn kind(&self, job: u8) -> JobKind
        ensures { result ≡ (row_of (view self.now) job).kind }
    {
        self.rows[job as usize].kind
    }

    // Where a job stands that was opened.
    pub fn job_state(&self, job: u64) -> Result<State, LedgerFault>
        ensures { result ≡ state_told (view self.now) job }
    {
        let job = job_number(job)?;
        match self.state(job) {
            State::NeverOpened => Err(LedgerFault::NeverOpened),
            state => Ok(state),
        }
    }

    // The number of a record's newest installed version; 0 is blank.
    pub fn newest_version(&self, record: u64) -> Result<u8, LedgerFault>
        ensures { result ≡ newest_told (view self.now) «record» }
    {
        Ok(self.version_count(record_number(record)?))
    }

    // The answered jobs in the order of their answers.
    pub fn answered(&self) -> &[u8]
        ensures { result.now ≡ answers (view self.now) }
    {
        self.answered.as_slice()
    }

    // How many jobs are answered.
    pub fn answered_count(&self) -> u64
        ensures { result ≡ answer_count (view self.now) }
    {
        self.answered().len() as u64
    }

    // The n-th answered job, counted from 0 in the order of answers.
    pub fn answered_at(&self, n: u64) -> Result<u8, LedgerFault>
        ensures { result ≡ answer_told (view self.now) n }
    {
        self.answered()
            .get(n as usize)
            .copied()
            .ok_or(LedgerFault::NoSuchAnswer)
    }
}
