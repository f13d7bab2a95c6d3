// A prepare: an office votes on a job, by its own records alone.
ghost use Rattle.std.specs.Prelude.{◌≡◌, not, ◌&&◌, length, ◌==◌};
ghost use Rattle.std.specs.List.{list_any};
ghost use Rattle.ledger.specs.Delivering.{holds as holding, with_exchange, vote_waits, conflicts as conflicting, has_conflict, vote_of};
ghost use Rattle.ledger.specs.Limits.{most_versions};
ghost use Rattle.ledger.specs.Model.{row as row_of, versions, exchange as exchange_of, put_row, has_written, is_listed as listed};
ghost use Rattle.ledger.specs.Offices.{office_of, owns as owned};
ghost use Rattle.ledger.specs.Searching.{any_indexed};
ghost use Rattle.ledger.specs.View.{view, row_view};

use crate::job::{Mark, Read, Row, Write};
use crate::ledger::Ledger;
use crate::limits::MOST_VERSIONS;
use crate::lookups::is_written;
use crate::message::{Exchange, Message, Vote};
use crate::office::Office;

impl Row {
    // Whether the office holds the job's records.
    fn holds(&self, office: Office) -> bool
        ensures { result ≡ holding (exchange_of (row_view self.now) office.number) }
    {
        let exchange = self.exchanges[office.index()];
        matches!(exchange.vote, Some(Vote::Yes))
    }
}

// With one function over a test for the four searches of the office's records here, the goal of its `any` stays open, and each caller asks for a proof.
// Whether a write is to a record of the office that another job uses.
fn writes_used(writes: &[Write], holder: &Row, office: Office) -> bool
    ensures { result ≡ list_any (λ z. owned office.offices office.number z.«record» && listed (row_view holder.now) z.«record») writes.now }
{
    writes.iter().any(|write| office.owns(write.record) && holder.is_listed(write.record))
}

// Whether a read is of a record of the office that another job writes.
fn reads_written(reads: &[Read], holder: &Row, office: Office) -> bool
    ensures { result ≡ list_any (λ z. owned office.offices office.number z.«record» && has_written (row_view holder.now).writes z.«record») reads.now }
{
    reads.iter().any(|read| {
        office.owns(read.record) && is_written(holder.writes.as_slice(), read.record)
    })
}

// Whether what another job holds at the office excludes this job: a write is excluded by any use, a read by a write.
fn conflicts(row: &Row, holder: &Row, office: Office) -> bool
    ensures { result ≡ conflicting (office_of office.offices) (row_view row.now) office.number (row_view holder.now) }
{
    holder.holds(office)
        && (writes_used(row.writes.as_slice(), holder, office)
            || reads_written(row.reads.as_slice(), holder, office))
}

// Whether, of these rows, that of another job than this conflicts with the job's.
// Apart from `some_holds_back` of the order, for the reason that stands there.
fn some_conflicts(rows: &[Row], job: u8, row: &Row, office: Office) -> bool
    ensures { result ≡ any_indexed (λ k x. not (k == job) && conflicting (office_of office.offices) (row_view row.now) office.number (row_view x)) 0 rows.now }
{
    rows.iter().enumerate().any(|(other, holder)| other != job as usize
        && conflicts(row, holder, office))
}

impl Ledger {
    // Whether another job holds, at the office, what excludes this one.
    fn has_conflict(&self, job: u8, office: Office) -> bool
        ensures { result ≡ has_conflict (office_of office.offices) (view self.now) job office.number }
    {
        some_conflicts(&self.rows, job, &self.rows[job as usize], office)
    }

    // Whether a read of the office's records is not of the newest version.
    fn is_stale(&self, reads: &[Read], office: Office) -> bool
        ensures { result ≡ list_any (λ z. owned office.offices office.number z.«record» && not (z.version == length (versions (view self.now) z.«record»))) reads.now }
    {
        reads.iter().any(|read| {
            office.owns(read.record) && read.version != self.version_count(read.record)
        })
    }

    // Whether a written record of the office has all its versions.
    fn is_full(&self, writes: &[Write], office: Office) -> bool
        ensures { result ≡ list_any (λ z. owned office.offices office.number z.«record» && most_versions == length (versions (view self.now) z.«record»)) writes.now }
    {
        writes.iter().any(|write| {
            office.owns(write.record) && self.version_count(write.record) as usize == MOST_VERSIONS
        })
    }

    // The marks are tried in their order.
    fn vote_of(&self, job: u8, office: Office) -> Vote
        ensures { result ≡ vote_of (office_of office.offices) (view self.now) job office.number }
    {
        let row = &self.rows[job as usize];
        if self.has_conflict(job, office) {
            Vote::Refused(Mark::Conflict)
        } else if self.is_stale(row.reads.as_slice(), office) {
            Vote::Refused(Mark::Stale)
        } else if self.is_full(row.writes.as_slice(), office) {
            Vote::Refused(Mark::Full)
        } else {
            Vote::Yes
        }
    }

    // Delivers a prepare to an office: its vote waits, and a yes holds the job's records.
    pub(crate) fn prepare(&mut self, job: u8, office: Office)
        ensures { view self.new ≡ put_row (view self.old) job (with_exchange (row_of (view self.old) job) office.number (vote_waits (vote_of (office_of office.offices) (view self.old) job office.number))) }
    {
        let vote = self.vote_of(job, office);
        self.rows[job as usize].set_exchange(
            office,
            Exchange {
                waiting: Some(Message::Vote(vote)),
                vote: Some(vote),
            },
        );
    }
}
