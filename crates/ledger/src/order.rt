// The order among jobs that their readings and writes set, and who holds a job back by it.
ghost use Rattle.std.specs.Prelude.{◌≡◌, not, ◌&&◌, ◌||◌, ◌==◌};
ghost use Rattle.std.specs.List.{list_any};
ghost use Rattle.ledger.specs.Answering.{is_held, is_pending as pending, precedes as preceding, precedes_in as preceding_in};
ghost use Rattle.ledger.specs.Searching.{any_indexed};
ghost use Rattle.ledger.specs.View.{view, row_view};

use crate::job::{JobKind, Row, State};
use crate::ledger::Ledger;
use crate::lookups::{Entry, installed_version, listed_version};

// Whether the first job precedes the later one in a record: the later one saw or overwrote the version that the first installed,
// or overwrote the version that the first read.
fn precedes_in(first: &Row, later: &Row, record: u8) -> bool
    ensures { result ≡ preceding_in (row_view first.now) (row_view later.now) «record» }
{
    let first_installed = installed_version(first.writes.as_slice(), record);
    let later_installed = installed_version(later.writes.as_slice(), record);
    let first_reads = first.reads.as_slice();
    let later_reads = later.reads.as_slice();
    (first_installed > 0
        && (listed_version(later_reads, record).is_some_and(|read| first_installed <= read)
            || first_installed < later_installed))
        || (later_installed > 0
            && listed_version(first_reads, record).is_some_and(|read| read < later_installed))
}

// Whether the first job precedes the later one in the record of some entry.
fn precedes_in_some<E: Entry>(entries: &[E], first: &Row, later: &Row) -> bool
    ensures { result ≡ list_any (λ x. preceding_in (row_view first.now) (row_view later.now) (E.record_of x)) entries.now }
{
    entries
        .iter()
        .any(|entry| precedes_in(first, later, entry.record()))
}

// How many entries a job's lists have.
fn listed_count(row: &Row) -> usize {
    row.reads.len() + row.writes.len()
}

// Whether the first job precedes the later one in some record that a job lists.
fn precedes_in_listed(listing: &Row, first: &Row, later: &Row) -> bool
    ensures { result ≡ list_any (λ x. preceding_in (row_view first.now) (row_view later.now) x.«record») (row_view listing.now).writes || list_any (λ x. preceding_in (row_view first.now) (row_view later.now) x.«record») (row_view listing.now).reads }
{
    precedes_in_some(listing.writes.as_slice(), first, later)
        || precedes_in_some(listing.reads.as_slice(), first, later)
}

// Whether the first job precedes the later one. Both list a record in which it does, so the shorter lists are gone over.
pub(crate) fn precedes(first: &Row, later: &Row) -> bool
    ensures { result ≡ preceding (row_view first.now) (row_view later.now) }
{
    if listed_count(later) < listed_count(first) {
        precedes_in_listed(later, first, later)
    } else {
        precedes_in_listed(first, first, later)
    }
}

// An open inspection, or an accepted job that is not yet answered.
pub(crate) fn is_pending(row: &Row) -> bool
    ensures { result ≡ pending (row_view row.now) }
{
    matches!(
        (row.state, row.kind),
        (State::Open, JobKind::Inspection) | (State::Accepted, _)
    )
}

// Whether, of these rows, that of another job than this holds back the job with the row: it is pending and precedes that.
// With one function over a test for this and `some_conflicts`, the goal of its `any` stays open: of a test that is passed in only the calls are known.
fn some_holds_back(rows: &[Row], job: u8, held: &Row) -> bool
    ensures { result ≡ any_indexed (λ k x. not (k == job) && (pending (row_view x) && preceding (row_view x) (row_view held.now))) 0 rows.now }
{
    rows.iter().enumerate().any(|(other, row)| {
        other != job as usize && (is_pending(row) && precedes(row, held))
    })
}

impl Ledger {
    // Whether another job holds a job back.
    pub(crate) fn held(&self, job: u8) -> bool
        ensures { result ≡ is_held (view self.now) job }
    {
        some_holds_back(&self.rows, job, &self.rows[job as usize])
    }
}
