// Slips: an inspection held by a token inside a program.
ghost use Rattle.std.specs.Prelude.{◌≡◌, true};
ghost use Rattle.house.specs.Calls.{open_told, open_after, read_told, read_after};
ghost use Rattle.house.specs.Committing.{close_told, close_after};
ghost use Rattle.house.specs.Faults.{kept};
ghost use Rattle.house.specs.Model.{model};
ghost use Rattle.house.specs.Slips.{slip_told};
ghost use Rattle.ledger.specs.declared.job.JobKind.TheVariants.{Inspection};

use crate::fault::Fault;
use crate::house::House;
use crate::reading::Reading;
use ledger::job::JobKind;
use shelves::shelf::Shelf;

// The token of an inspection: opening gives it, reading uses it, closing spends it.
// It cannot be let go in any other way: its `drop` asks that it is spent, and no slip that a program holds is, so the check refuses a program that leaves one over.
pub struct Slip {
    job: u64,
    // whether the slip was given up to a close; only `spend` sets it, and then the slip is gone.
    // A flag and no type of its own, since `drop` must have a precondition that some slip meets.
    spent: bool,
}

impl Drop for Slip {
    fn drop(self)
        requires { self.spent ≡ true }
    {
        let Slip { job: _, spent: _ } = self;
    }
}

impl Slip {
    // The number of the inspection's job.
    pub fn job(&self) -> u64
        ensures { result ≡ self.now.job }
    {
        self.job
    }

    // Spends the slip, so that it may be let go.
    fn spend(mut self) -> u64
        ensures { result ≡ self.job }
    {
        let job = self.job;
        self.spent = true;
        job
    }
}

impl<S: Shelf> House<S> {
    // Opens an inspection and gives its slip.
    pub fn open_slip(&mut self, job: u64) -> Result<Slip, Fault>
        ensures told { result ≡ slip_told (open_told (model S.Shelf self.old) job) job }
        ensures after { model S.Shelf self.new ≡ kept (open_told (model S.Shelf self.old) job) (model S.Shelf self.old) (open_after (model S.Shelf self.old) job Inspection) }
        ensures shelf { self.new.shelf ≡ self.old.shelf }
    {
        self.open(job, JobKind::Inspection)?;
        Ok(Slip { job, spent: false })
    }

    // Reads by a slip: the same as a read by its job number.
    pub fn read_slip(&mut self, slip: &Slip, record: u64) -> Result<Reading<S::Value>, Fault>
        ensures told { result ≡ read_told (model S.Shelf self.old) slip.now.job «record» }
        ensures after { model S.Shelf self.new ≡ kept result (model S.Shelf self.old) (read_after (model S.Shelf self.old) slip.now.job «record») }
        ensures shelf { self.new.shelf ≡ self.old.shelf }
    {
        self.read(slip.job, record)
    }

    // Closes by a slip, which is spent whatever the answer: after a close by number it is refused with 7.
    pub fn close_slip(&mut self, slip: Slip) -> Result<(), Fault>
        ensures told { result ≡ close_told (model S.Shelf self.old) slip.job }
        ensures after { model S.Shelf self.new ≡ kept result (model S.Shelf self.old) (close_after (model S.Shelf self.old) slip.job) }
        ensures shelf { self.new.shelf ≡ self.old.shelf }
    {
        let job = slip.spend();
        self.close(job)
    }
}
