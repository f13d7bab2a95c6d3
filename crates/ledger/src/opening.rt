// Open and withdraw.
ghost use Rattle.std.specs.Prelude.{◌≡◌, None};
ghost use Rattle.ledger.specs.Faults.{told, guarded, refuse_if};
ghost use Rattle.ledger.specs.Model.{with_state, is_answered as answered, is_never_opened};
ghost use Rattle.ledger.specs.Opening.{open_fault, open_done, newly_opened, open_amendment, withdraw_fault, withdraw_done};
ghost use Rattle.ledger.specs.View.{view, row_view};
ghost use Rattle.ledger.specs.declared.fault.LedgerFault.TheVariants as fault;
ghost use Rattle.ledger.specs.declared.job.State.TheVariants.{Ended};

use crate::fault::LedgerFault;
use crate::job::{JobKind, Row, State};
use crate::ledger::Ledger;
use crate::numbers::job_number;

impl Row {
    // Whether the job's commit is known to its client.
    pub fn is_answered(&self) -> bool
        ensures { result ≡ answered (row_view self.now).state }
    {
        matches!(self.state, State::Answered)
    }

    // The row's step at open.
    fn start(&mut self, kind: JobKind)
        ensures { row_view self.new ≡ newly_opened kind }
    {
        *self = Row {
            kind,
            state: State::Open,
            ..Row::unused()
        };
    }

    // The row's step at withdraw, and at the collect of a dropped job.
    pub(crate) fn end(&mut self)
        ensures { row_view self.new ≡ with_state (row_view self.old) Ended }
    {
        self.state = State::Ended;
    }

    // The checks of an amendment that is to be open, in their order.
    pub(crate) fn check_open_amendment(&self) -> Result<(), LedgerFault>
        ensures { result ≡ told (refuse_if (is_never_opened (row_view self.now).state) fault.NeverOpened (open_amendment (row_view self.now) None)) tt }
    {
        match (self.state, self.kind) {
            (State::NeverOpened, _) => Err(LedgerFault::NeverOpened),
            (_, JobKind::Inspection) => Err(LedgerFault::WrongKind),
            (State::Open, JobKind::Amendment) => Ok(()),
            (_, JobKind::Amendment) => Err(LedgerFault::WrongState),
        }
    }
}

impl Ledger {
    // Starts a job; a job number is taken at most once.
    pub fn open(&mut self, job: u64, kind: JobKind) -> Result<(), LedgerFault>
        ensures told { result ≡ told (open_fault (view self.old) job) tt }
        ensures after { view self.new ≡ guarded (open_fault (view self.old) job) (view self.old) (open_done (view self.old) kind job) }
    {
        let job = job_number(job)?;
        if self.state(job) != State::NeverOpened {
            return Err(LedgerFault::JobTaken);
        }
        self.rows[job as usize].start(kind);
        Ok(())
    }

    // Ends an open amendment without a trace.
    pub fn withdraw(&mut self, job: u64) -> Result<(), LedgerFault>
        ensures told { result ≡ told (withdraw_fault (view self.old) job) tt }
        ensures after { view self.new ≡ guarded (withdraw_fault (view self.old) job) (view self.old) (withdraw_done (view self.old) job) }
    {
        let job = job_number(job)?;
        let row = &mut self.rows[job as usize];
        row.check_open_amendment()?;
        row.end();
        Ok(())
    }
}
