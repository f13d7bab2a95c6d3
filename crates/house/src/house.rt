// The calls of the house. Each takes any numbers; a refusal is an `Err` and leaves house and shelf as they were.
ghost use Rattle.std.specs.Prelude.{◌≡◌, true, is_err};
ghost use Rattle.house.specs.Calls.{open_told, open_after, withdraw_told, withdraw_after, read_told, read_after, write_told, write_after, reading_from};
ghost use Rattle.house.specs.Committing.{hand_in_told, hand_in_after, deliver_told, deliver_after, collect_told, collect_after, close_told, close_after};
ghost use Rattle.house.specs.Faults.{kept};
ghost use Rattle.house.specs.Model.{HouseModel, built, model};

use crate::fault::Fault;
use crate::reading::Reading;
use ledger::job::{Collected, JobKind};
use ledger::ledger::Ledger;
use ledger::offices::Offices;
use shelves::shelf::Shelf;

// The jobs and records of one forwarder, over a shelf of values.
// Contracts see it by `model` and not by a `Model`, since they also speak of the shelf itself, which stays as it is at all calls but an accepted write.
// Each contract has its clauses `told`, `after` and `shelf` in full, so that in each it can be read that a refusal changes nothing.
#[derive(Drop)]
pub struct House<S> {
    pub(crate) offices: Offices,
    pub(crate) ledger: Ledger,
    pub(crate) shelf: S,
}

impl<S: Shelf> House<S> {
    // A house with no job, version or message. 0 offices count as 1, and more than 8 as 8; the shelf may hold values already.
    pub fn new(offices: u64, shelf: S) -> House<S>
        ensures { model S.Shelf result ≡ built offices (S.items shelf) (S.room shelf) }
    {
        House {
            offices: Offices::new(offices),
            ledger: Ledger::new(),
            shelf,
        }
    }

    // Starts an amendment or an inspection under a job number of the caller's choice.
    pub fn open(&mut self, job: u64, kind: JobKind) -> Result<(), Fault>
        ensures told { result ≡ open_told (model S.Shelf self.old) job }
        ensures after { model S.Shelf self.new ≡ kept result (model S.Shelf self.old) (open_after (model S.Shelf self.old) job kind) }
        ensures shelf { self.new.shelf ≡ self.old.shelf }
    {
        self.ledger.open(job, kind)?;
        Ok(())
    }

    // Ends an open amendment without a trace.
    pub fn withdraw(&mut self, job: u64) -> Result<(), Fault>
        ensures told { result ≡ withdraw_told (model S.Shelf self.old) job }
        ensures after { model S.Shelf self.new ≡ kept result (model S.Shelf self.old) (withdraw_after (model S.Shelf self.old) job) }
        ensures shelf { self.new.shelf ≡ self.old.shelf }
    {
        self.ledger.withdraw(job)?;
        Ok(())
    }

    fn fetch(&self, source: Reading<u64>) -> Result<Reading<S::Value>, Fault>
        ensures { result ≡ reading_from (S.items self.now.shelf) source }
    {
        match source {
            Reading::Blank => Ok(Reading::Blank),
            Reading::Own(place) => Ok(Reading::Own(self.shelf.fetch(place)?)),
            Reading::Version { number, value } => Ok(Reading::Version {
                number,
                value: self.shelf.fetch(value)?,
            }),
        }
    }

    // Tells a job what it sees of a record, and lists the first reading.
    pub fn read(&mut self, job: u64, record: u64) -> Result<Reading<S::Value>, Fault>
        ensures told { result ≡ read_told (model S.Shelf self.old) job «record» }
        ensures after { model S.Shelf self.new ≡ kept result (model S.Shelf self.old) (read_after (model S.Shelf self.old) job «record») }
        ensures shelf { self.new.shelf ≡ self.old.shelf }
    {
        let source = self.ledger.find(job, record)?;
        let reading = self.fetch(source)?;
        self.ledger.list_read(job, record);
        Ok(reading)
    }

    // Puts a value on the shelf and lists it as the job's write of a record.
    pub fn write(&mut self, job: u64, record: u64, value: S::Value) -> Result<(), Fault>
        ensures told { result ≡ write_told (model S.Shelf self.old) job «record» }
        ensures after { model S.Shelf self.new ≡ kept result (model S.Shelf self.old) (write_after (model S.Shelf self.old) job «record» value) }
        ensures shelf { is_err result ≡ true → self.new.shelf ≡ self.old.shelf }
    {
        self.ledger.check_write(job, record)?;
        let place = self.shelf.add(value)?;
        self.ledger.list_write(job, record, place);
        Ok(())
    }

    // Hands in an open amendment: the offices of its records are asked to prepare.
    pub fn hand_in(&mut self, job: u64) -> Result<(), Fault>
        ensures told { result ≡ hand_in_told (model S.Shelf self.old) job }
        ensures after { model S.Shelf self.new ≡ kept result (model S.Shelf self.old) (hand_in_after (model S.Shelf self.old) job) }
        ensures shelf { self.new.shelf ≡ self.old.shelf }
    {
        self.ledger.hand_in(job, self.offices)?;
        Ok(())
    }

    // Delivers the message that waits between a job and an office.
    pub fn deliver(&mut self, job: u64, office: u64) -> Result<(), Fault>
        ensures told { result ≡ deliver_told (model S.Shelf self.old) job office }
        ensures after { model S.Shelf self.new ≡ kept result (model S.Shelf self.old) (deliver_after (model S.Shelf self.old) job office) }
        ensures shelf { self.new.shelf ≡ self.old.shelf }
    {
        self.ledger.deliver(job, office, self.offices)?;
        Ok(())
    }

    // Tells the client what became of an amendment: an accepted one is answered unless it is held, a dropped one ends.
    pub fn collect(&mut self, job: u64) -> Result<Collected, Fault>
        ensures told { result ≡ collect_told (model S.Shelf self.old) job }
        ensures after { model S.Shelf self.new ≡ kept result (model S.Shelf self.old) (collect_after (model S.Shelf self.old) job) }
        ensures shelf { self.new.shelf ≡ self.old.shelf }
    {
        let collected = self.ledger.collect(job)?;
        Ok(collected)
    }

    // Answers an inspection; nothing holds it.
    pub fn close(&mut self, job: u64) -> Result<(), Fault>
        ensures told { result ≡ close_told (model S.Shelf self.old) job }
        ensures after { model S.Shelf self.new ≡ kept result (model S.Shelf self.old) (close_after (model S.Shelf self.old) job) }
        ensures shelf { self.new.shelf ≡ self.old.shelf }
    {
        self.ledger.close(job)?;
        Ok(())
    }
}
