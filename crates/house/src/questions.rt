// Questions, which change nothing.
ghost use Rattle.std.specs.Prelude.{◌≡◌};
ghost use Rattle.house.specs.Model.{model};
ghost use Rattle.house.specs.Questions.{job_state_told, newest_version_told, answered_jobs, answered_count_told, answered_at_told};

use crate::fault::Fault;
use crate::house::House;
use ledger::job::State;
use shelves::shelf::Shelf;

impl<S: Shelf> House<S> {
    // The state of a job.
    pub fn job_state(&self, job: u64) -> Result<State, Fault>
        ensures { result ≡ job_state_told (model S.Shelf self.now) job }
    {
        Ok(self.ledger.job_state(job)?)
    }

    // The newest installed version of a record, or 0.
    pub fn newest_version(&self, record: u64) -> Result<u8, Fault>
        ensures { result ≡ newest_version_told (model S.Shelf self.now) «record» }
    {
        Ok(self.ledger.newest_version(record)?)
    }

    // How many jobs are answered.
    pub fn answered_count(&self) -> u64
        ensures { result ≡ answered_count_told (model S.Shelf self.now) }
    {
        self.ledger.answered_count()
    }

    // The n-th answered job, counted from 0 in the order of answers.
    pub fn answered_at(&self, n: u64) -> Result<u8, Fault>
        ensures { result ≡ answered_at_told (model S.Shelf self.now) n }
    {
        Ok(self.ledger.answered_at(n)?)
    }

    // The answered jobs in the order of their answers.
    pub fn answered(&self) -> &[u8]
        ensures { result.now ≡ answered_jobs (model S.Shelf self.now) }
    {
        self.ledger.answered()
    }
}
