// Decisions: a commit makes the job's writes versions of the office's records, and either outcome ends the office's holds.
ghost use Rattle.std.specs.Prelude.{◌≡◌, ◌≤◌, map, length};
ghost use Rattle.ledger.specs.Bounded.{elements};
ghost use Rattle.ledger.specs.Searching.{map_indexed};
ghost use Rattle.ledger.specs.Delivering.{installed, record_installed, with_exchange, install_done};
ghost use Rattle.ledger.specs.Model.{row as row_of, versions, put_row, idle};
ghost use Rattle.ledger.specs.Offices.{office_of};
ghost use Rattle.ledger.specs.View.{view, row_view};

use crate::bounded::Bounded;
use crate::job::{Row, Version, Write};
use crate::ledger::Ledger;
use crate::limits::{MOST_LISTED, MOST_VERSIONS, RECORDS};
use crate::lookups::own_place;
use crate::message::Exchange;
use crate::office::Office;
use arrayvec::ArrayVec;

// A record's step: one version more if the office owns it and the job wrote it. A record that has all its versions stays.
fn install_version(
    versions: &mut ArrayVec<Version, MOST_VERSIONS>,
    record: u8,
    writes: &[Write],
    job: u8,
    office: Office,
)
    ensures { versions.new.items ≡ record_installed (office_of office.offices) writes.now job office.number «record» versions.old.items }
{
    // few records are written, so that test comes before the division
    if let Some(place) = own_place(writes, record) {
        if office.owns(record) {
            let _ = versions.try_push(Version { job, place });
        }
    }
}

// One pass over the records.
fn install_versions(
    records: &mut [ArrayVec<Version, MOST_VERSIONS>; RECORDS],
    writes: &[Write],
    job: u8,
    office: Office,
)
    ensures { map (λ versions. versions.items) records.new ≡ map_indexed (record_installed (office_of office.offices) writes.now job office.number) 0 (map (λ versions. versions.items) records.old) }
{
    for (record, versions) in records.iter_mut().enumerate() {
        install_version(versions, record as u8, writes, job, office);
    }
}

impl Row {
    // The row's step at a commit: its writes have their versions, and the office's holds for it end.
    fn settle(&mut self, writes: Bounded<Write, MOST_LISTED>, office: Office)
        ensures { row_view self.new ≡ with_exchange (record { kind = self.old.kind; state = self.old.state; reads = elements self.old.reads; writes = elements writes; exchanges = self.old.exchanges }) office.number idle }
    {
        self.writes = writes;
        self.exchanges[office.index()] = Exchange::default();
    }
}

impl Ledger {
    // The installed versions of a record, version 1 first.
    pub(crate) fn versions(&self, record: u8) -> &[Version]
        ensures value { result.now ≡ versions (view self.now) «record» }
        ensures bound { length result.now ≤ 32 }
    {
        self.records
            .get(record as usize)
            .map_or(&[], |versions| versions.as_slice())
    }

    // How many versions a record has.
    pub(crate) fn version_count(&self, record: u8) -> u8
        ensures value { result ≡ length (versions (view self.now) «record») }
        ensures bound { result ≤ 32 }
    {
        self.versions(record).len() as u8
    }

    // A write with the version that it becomes, if the office owns its record.
    fn installed(&self, write: Write, office: Office) -> Write
        ensures { result ≡ installed (office_of office.offices) (view self.now) office.number write }
    {
        if office.owns(write.record) {
            let version = self.version_count(write.record) + 1;
            Write { version, ..write }
        } else {
            write
        }
    }

    fn installed_writes(
        &self,
        writes: &Bounded<Write, MOST_LISTED>,
        office: Office,
    ) -> Bounded<Write, MOST_LISTED>
        ensures { elements result ≡ map (installed (office_of office.offices) (view self.now) office.number) (elements writes.now) }
    {
        let mut installed = Bounded::new();
        for write in writes.as_slice() {
            installed.push(self.installed(*write, office));
        }
        installed
    }

    // Delivers the decision to commit a job to an office.
    pub(crate) fn install(&mut self, job: u8, office: Office)
        ensures { view self.new ≡ install_done (office_of office.offices) (view self.old) job office.number }
    {
        // a copy of the few writes, since the pass over all records is quicker over it than over the row
        let writes = self.rows[job as usize].writes;
        let installed = self.installed_writes(&writes, office);
        install_versions(&mut self.records, writes.as_slice(), job, office);
        self.rows[job as usize].settle(installed, office);
    }

    // Delivers the decision to abort a job to an office: the office's holds for it end.
    pub(crate) fn release(&mut self, job: u8, office: Office)
        ensures { view self.new ≡ put_row (view self.old) job (with_exchange (row_of (view self.old) job) office.number idle) }
    {
        self.rows[job as usize].set_exchange(office, Exchange::default());
    }
}
