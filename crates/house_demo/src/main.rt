// A house of 8 offices over a cell shelf of standings: inspections by slip, the questions, and a record that fills up.
#![tactic(auto)]

use house::fault::Fault;
use house::house::House;
use house::reading::Reading;
use ledger::job::{Collected, JobKind, Mark};
use shelves::cell_shelf::CellShelf;
use shelves::shelf::Shelf;
use std::{fmt, io};
use values::standing::{Day, Standing};
use values::value::Value;

const OFFICES: u64 = 8;
// how many messages pass between a job and an office: prepare, vote and decision
const MESSAGES: u8 = 3;
// the record that fills up, which belongs to office 5
const RECORD: u64 = 13;
// how many jobs write it, which is one more than it can have versions
const JOBS: u64 = 33;

// Writes one record in a job of its own, and takes the job to its end.
fn commit<S: Shelf>(
    house: &mut House<S>,
    job: u64,
    record: u64,
    value: S::Value,
) -> Result<Collected, Fault> {
    house.open(job, JobKind::Amendment)?;
    house.write(job, record, value)?;
    house.hand_in(job)?;
    for _ in 0..MESSAGES {
        house.deliver(job, record % OFFICES)?;
    }
    house.collect(job)
}

// Reads one record in an inspection that is held by its slip. The slip is spent before any refusal is passed on.
// The crate `bridge` has the same function. One of the house itself would be no plainer: it would promise three calls in one clause.
fn inspect<S: Shelf>(
    house: &mut House<S>,
    job: u64,
    record: u64,
) -> Result<Reading<S::Value>, Fault> {
    let slip = house.open_slip(job)?;
    let reading = house.read_slip(&slip, record);
    house.close_slip(slip)?;
    reading
}

// The refusal of a close by slip, after the inspection was closed by its number.
fn refusal_of_second_close<S: Shelf>(
    house: &mut House<S>,
    job: u64,
) -> Result<Option<Fault>, Fault> {
    let slip = house.open_slip(job)?;
    let first = house.close(slip.job());
    let second = house.close_slip(slip);
    first?;
    Ok(second.err())
}

// What an inspection read, printed as a version; blank is version 0.
#[derive(Clone, Copy, PartialEq, Eq, Debug)]
struct Seen<V>(Reading<V>);

impl<V: Value> fmt::Display for Seen<V> {
    fn fmt<W: fmt::Write>(&self, f: &mut fmt::Formatter<W>) -> fmt::Result {
        match self.0 {
            Reading::Blank => write!(f, "version 0"),
            Reading::Own(_) => write!(f, "no version"),
            Reading::Version { number, .. } => write!(f, "version {number}"),
        }
    }
}

// What the demonstration finds out.
#[derive(Clone, Copy, PartialEq, Eq, Debug)]
struct Findings<V> {
    before: Seen<V>,
    // the last job that is dropped, and its mark
    dropped: Option<(u64, Mark)>,
    after: Seen<V>,
    // the refusal of a second close
    second_close: Option<Fault>,
    newest: u8,
    answered: u64,
    // the job that is answered last
    last: u8,
}

impl<V: Value> fmt::Display for Findings<V> {
    fn fmt<W: fmt::Write>(&self, f: &mut fmt::Formatter<W>) -> fmt::Result {
        writeln!(f, "record {RECORD} before: {}", self.before)?;
        match self.dropped {
            Some((job, mark)) => writeln!(f, "job {job} is dropped with mark {}", mark.number())?,
            None => writeln!(f, "no job is dropped")?,
        }
        writeln!(f, "record {RECORD} after: {}", self.after)?;
        match self.second_close {
            Some(fault) => writeln!(f, "a second close, by slip: {}", fault.number())?,
            None => writeln!(f, "a second close, by slip: accepted")?,
        }
        let Findings {
            newest,
            answered,
            last,
            ..
        } = *self;
        write!(
            f,
            "newest version {newest}, {answered} answered, the last {last}"
        )
    }
}

// Fills the record with versions until a job is dropped, between two inspections.
fn explore<S: Shelf>(house: &mut House<S>, value: S::Value) -> Result<Findings<S::Value>, Fault> {
    let before = Seen(inspect(house, 100, RECORD)?);
    let mut dropped = None;
    for job in 0..JOBS {
        if let Collected::Dropped(mark) = commit(house, job, RECORD, value)? {
            dropped = Some((job, mark));
        }
    }
    let after = Seen(inspect(house, 101, RECORD)?);
    let second_close = refusal_of_second_close(house, 102)?;
    let newest = house.newest_version(RECORD)?;
    let answered = house.answered_count();
    let last = house.answered_at(answered.saturating_sub(1))?;
    Ok(Findings {
        before,
        dropped,
        after,
        second_close,
        newest,
        answered,
        last,
    })
}

fn main(rt: HostRuntime) -> io::Result<()> {
    let mut cells = [Standing::spare().to_cell(); 64];
    let mut house = House::new(OFFICES, CellShelf::<Standing>::new(&mut cells));
    match explore(&mut house, Standing::Lodged(Day::new(9000))) {
        Ok(findings) => println!(rt; "{findings}"),
        Err(fault) => println!(rt; "refused with {}", fault.number()),
    }
}
