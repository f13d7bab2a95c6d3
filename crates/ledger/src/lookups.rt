// Look-ups in a job's two lists.
ghost use Rattle.std.specs.Prelude.{◌≡◌, ℕ, ◌<◌, length, if◌then◌else◌, IfSome, Some, None, nat_eq};
ghost use Rattle.std.specs.List.{find, position};
ghost use Rattle.ledger.specs.Lookups.{unseen_after};
ghost use Rattle.ledger.specs.Model.{first_unseen, has_written, installed_version, is_listed as listed, written_place};
ghost use Rattle.ledger.specs.View.{row_view};

use crate::job::{Read, Row, Write};

// An entry of one of a job's two lists: it is of one record.
pub trait Entry {
    // the record's number
    ghost record_of: { Self → ℕ };

    fn record(&self) -> u8
        ensures { result ≡ record_of self.now };
}

impl Entry for Read {
    ghost record_of = { λ read. read.«record» };

    fn record(&self) -> u8 {
        self.record
    }
}

impl Entry for Write {
    ghost record_of = { λ write. write.«record» };

    fn record(&self) -> u8 {
        self.record
    }
}

// The first entry of a record.
fn entry_of<E: Entry + Copy>(entries: &[E], record: u8) -> Option<E>
    ensures { result ≡ find (λ x. nat_eq (E.record_of x) «record») entries.now }
{
    entries
        .iter()
        .copied()
        .find(|entry| entry.record() == record)
}

// The version at which a record is listed as read.
pub(crate) fn listed_version(reads: &[Read], record: u8) -> Option<u8>
    ensures { unseen_after result ≡ first_unseen reads.now «record» }
{
    entry_of(reads, record).map(|read| read.version)
}

// The index of the first write of a record.
pub(crate) fn write_index(writes: &[Write], record: u8) -> Option<usize>
    ensures value { result ≡ position (λ x. nat_eq x.«record» «record») writes.now }
    ensures bound { IfSome result (λ i. i < length writes.now) }
{
    writes.iter().position(|write| write.record == record)
}

pub(crate) fn is_written(writes: &[Write], record: u8) -> bool
    ensures { result ≡ has_written writes.now «record» }
{
    entry_of(writes, record).is_some()
}

// The place of the value that a job has itself written to a record.
pub(crate) fn own_place(writes: &[Write], record: u8) -> Option<u64>
    ensures { result ≡ (if has_written writes.now «record» then Some (written_place writes.now «record») else None) }
{
    entry_of(writes, record).map(|write| write.place)
}

// The version that the listed write of a record became; 0 where the record is not listed, or not yet installed.
pub(crate) fn installed_version(writes: &[Write], record: u8) -> u8
    ensures { result ≡ installed_version writes.now «record» }
{
    entry_of(writes, record).map_or(0, |write| write.version)
}

impl Row {
    // Whether the job has read or written a record.
    pub(crate) fn is_listed(&self, record: u8) -> bool
        ensures { result ≡ listed (row_view self.now) «record» }
    {
        listed_version(self.reads.as_slice(), record).is_some()
            || is_written(self.writes.as_slice(), record)
    }
}
