// Read: where the value lies that a read tells, and the listing of a first reading.
ghost use Rattle.std.specs.Prelude.{◌≡◌, ◌<◌, ◌≤◌, length, if◌then◌else◌, Some, None};
ghost use Rattle.ledger.specs.Faults.{told};
ghost use Rattle.ledger.specs.Limits.{most_listed};
ghost use Rattle.ledger.specs.Model.{row as row_of};
ghost use Rattle.ledger.specs.Reading.{newest as newest_of, newest_answered, is_new_read as is_new, read_fault, read_source, version_source, with_read, read_done, open_checked};
ghost use Rattle.ledger.specs.View.{view, row_view};

use crate::fault::LedgerFault;
use crate::job::{JobKind, Read, Row, State};
use crate::ledger::Ledger;
use crate::limits::MOST_LISTED;
use crate::lookups::{listed_version, own_place};
use crate::numbers::{job_number, record_number};

// What a read tells: a value, or, in the ledger, the place on the shelf where the value lies.
#[derive(Clone, Copy, PartialEq, Eq, Debug)]
pub enum Reading<V> {
    // version 0: no job has written the record
    Blank,
    // the value that the job itself has written
    Own(V),
    // an installed version and its value
    Version { number: u8, value: V },
}

impl Row {
    // A first reading: the job has neither read nor written the record.
    fn is_new_read(&self, record: u8) -> bool
        ensures { result ≡ is_new (row_view self.now) «record» }
    {
        !self.is_listed(record)
    }

    // The checks of a read by the job's row, in their order.
    fn check_read(&self, record: u8) -> Result<(), LedgerFault>
        ensures { result ≡ told (open_checked (row_view self.now) «record») tt }
    {
        match self.state {
            State::NeverOpened => Err(LedgerFault::NeverOpened),
            State::Open if self.is_new_read(record) && self.reads.len() >= MOST_LISTED => {
                Err(LedgerFault::TooManyReads)
            }
            State::Open => Ok(()),
            _ => Err(LedgerFault::WrongState),
        }
    }

    // The row's step at a first reading.
    fn list_version(&mut self, record: u8, version: u8)
        requires { length (row_view self.old).reads < most_listed }
        ensures { row_view self.new ≡ with_read (row_view self.old) «record» version }
    {
        self.reads.push(Read { record, version });
    }
}

impl Ledger {
    // The highest version of a record whose job is answered, or 0, the version of a blank.
    // A loop that stops at the first answered one from the end: with `rposition` in its place the goal stays open.
    fn newest_answered(&self, record: u8) -> u8
        ensures { result ≡ newest_answered (view self.now) «record» }
    {
        for (index, version) in self.versions(record).iter().enumerate().rev() {
            if self.rows[version.job as usize].is_answered() {
                return index as u8 + 1;
            }
        }
        0
    }

    // The version that a first reading is told: an inspection sees answered jobs only.
    fn newest(&self, row: &Row, record: u8) -> u8
        ensures { result ≡ newest_of (view self.now) (row_view row.now) «record» }
    {
        match row.kind {
            JobKind::Amendment => self.version_count(record),
            JobKind::Inspection => self.newest_answered(record),
        }
    }

    fn version_source(&self, record: u8, version: u8) -> Reading<u64>
        ensures { result ≡ version_source (view self.now) «record» version }
    {
        if version == 0 {
            return Reading::Blank;
        }
        let place = self
            .versions(record)
            .get(version as usize - 1)
            .map_or(0, |installed| installed.place);
        Reading::Version {
            number: version,
            value: place,
        }
    }

    fn source(&self, row: &Row, record: u8) -> Reading<u64>
        ensures { result ≡ read_source (view self.now) (row_view row.now) «record» }
    {
        if let Some(place) = own_place(row.writes.as_slice(), record) {
            return Reading::Own(place);
        }
        match listed_version(row.reads.as_slice(), record) {
            Some(version) => self.version_source(record, version),
            None => self.version_source(record, self.newest(row, record)),
        }
    }

    // Where the value lies that a read tells, or what the read is refused for.
    pub fn find(&self, job: u64, record: u64) -> Result<Reading<u64>, LedgerFault>
        ensures { result ≡ told (read_fault (view self.now) job «record») (read_source (view self.now) (row_of (view self.now) job) «record») }
    {
        let job = job_number(job)?;
        let record = record_number(record)?;
        let row = &self.rows[job as usize];
        row.check_read(record)?;
        Ok(self.source(row, record))
    }

    // The version that a read lists, if it is a first reading.
    fn first_reading(&self, job: u8, record: u8) -> Option<u8>
        ensures { result ≡ (if is_new (row_of (view self.now) job) «record» then Some (newest_of (view self.now) (row_of (view self.now) job) «record») else None) }
    {
        let row = &self.rows[job as usize];
        row.is_new_read(record).then(|| self.newest(row, record))
    }

    // Lists a first reading; the read has been checked.
    pub fn list_read(&mut self, job: u64, record: u64)
        requires { read_fault (view self.old) job «record» ≡ None }
        ensures { view self.new ≡ read_done (view self.old) job «record» }
    {
        if let Some(version) = self.first_reading(job as u8, record as u8) {
            self.rows[job as usize].list_version(record as u8, version);
        }
    }
}
