// The worked figures: the sample day and its archive, two crossing inspections, and a whole job over each shelf with each kind of value.
// All calls go through `perform`.
#![tactic(auto)]

use house::call::{Call, Told};
use house::fault::Fault;
use house::house::House;
use house::reading::Reading;
use law::perform::perform;
use ledger::job::{Collected, JobKind};
use shelves::byte_shelf::ByteShelf;
use shelves::cell_shelf::CellShelf;
use shelves::shelf::Shelf;
use std::{fmt, io, slice};
use values::amount::Amount;
use values::currency::Currency;
use values::standing::{Day, Standing};
use values::value::Value;

const OFFICES: u64 = 2;

// What a call told, printed in a word or two.
#[derive(Clone, Copy, PartialEq, Eq, Debug)]
struct Shown<V>(Result<Told<V>, Fault>);

impl<V: Value> fmt::Display for Shown<V> {
    fn fmt<W: fmt::Write>(&self, f: &mut fmt::Formatter<W>) -> fmt::Result {
        match self.0 {
            Ok(Told::Done) => write!(f, "ok"),
            Ok(Told::Read(Reading::Blank)) => write!(f, "blank"),
            Ok(Told::Read(Reading::Own(_))) => write!(f, "own"),
            Ok(Told::Read(Reading::Version { number, .. })) => write!(f, "version {number}"),
            Ok(Told::Collected(Collected::Answered)) => write!(f, "answered"),
            Ok(Told::Collected(Collected::Dropped(mark))) => {
                write!(f, "dropped {}", mark.number())
            }
            Ok(Told::Archived { size }) => write!(f, "size {size}"),
            Err(Fault::ShortBuffer { needed }) => write!(f, "refused 14, needs {needed}"),
            Err(fault) => write!(f, "refused {}", fault.number()),
        }
    }
}

// Does a call, and prints what it told.
fn show_call<S: Shelf>(
    rt: &HostRuntime,
    house: &mut House<S>,
    call: Call<S::Value>,
) -> io::Result<()> {
    let told = Shown(perform(house, call, &mut []));
    print!(rt; " {told}")
}

// Does some calls, one after another, and prints what they told on one line.
fn show_calls<S: Shelf>(
    rt: &HostRuntime,
    house: &mut House<S>,
    calls: &[Call<S::Value>],
) -> io::Result<()> {
    print!(rt; "told:")?;
    for call in calls {
        show_call(rt, house, *call)?;
    }
    println!(rt; "")
}

// Archives into a buffer that is lent, and prints what was told and what the buffer then holds.
fn show_archive<S: Shelf>(
    rt: &HostRuntime,
    house: &mut House<S>,
    buffer: &mut [u8],
) -> io::Result<()> {
    let room = buffer.len() as u64;
    let told = Shown(perform(house, Call::Archive { room }, buffer));
    print!(rt; "archive: {told}\nbuffer:")?;
    for byte in buffer {
        print!(rt; " {byte:02X}")?;
    }
    println!(rt; "")
}

// The opening of an amendment.
fn amendment<V>(job: u64) -> Call<V> {
    Call::Open {
        job,
        kind: JobKind::Amendment,
    }
}

// The opening of an inspection.
fn inspection<V>(job: u64) -> Call<V> {
    Call::Open {
        job,
        kind: JobKind::Inspection,
    }
}

// An inspection reads before an amendment is installed, and holds it back until it closes.
fn sample_day(rt: &HostRuntime, value: Amount) -> io::Result<()> {
    println!(rt; "the sample day")?;
    let mut bytes = [0; 1024];
    let mut house = House::new(OFFICES, ByteShelf::new(&mut bytes));
    show_archive(rt, &mut house, &mut [0xEE; 12])?;
    let deliver = Call::Deliver { job: 1, office: 0 };
    show_calls(
        rt,
        &mut house,
        &[
            amendment(1),
            Call::Write {
                job: 1,
                record: 0,
                value,
            },
            Call::HandIn { job: 1 },
            inspection(2),
            Call::Read { job: 2, record: 0 },
            deliver,
            deliver,
            deliver,
            Call::Collect { job: 1 },
            Call::Close { job: 2 },
            Call::Collect { job: 1 },
        ],
    )?;
    show_archive(rt, &mut house, &mut [0xEE; 45])?;
    show_archive(rt, &mut house, &mut [0xEE; 50])
}

// An amendment that writes one record, from its opening to its last delivery: a prepare, a vote and a decision.
// The calls stand in no list: one of a kind that is not known would need a proof that it fits in memory.
fn install<S: Shelf>(
    rt: &HostRuntime,
    house: &mut House<S>,
    job: u64,
    record: u64,
    value: S::Value,
) -> io::Result<()> {
    print!(rt; "told:")?;
    show_call(rt, house, amendment(job))?;
    show_call(rt, house, Call::Write { job, record, value })?;
    show_call(rt, house, Call::HandIn { job })?;
    let office = record % OFFICES;
    for _ in 0..3 {
        show_call(rt, house, Call::Deliver { job, office })?;
    }
    println!(rt; "")
}

// Two inspections that see two amendments in no common order hold both back until the inspections close.
fn crossing(rt: &HostRuntime, value: Amount) -> io::Result<()> {
    println!(rt; "crossing inspections")?;
    let mut bytes = [0; 1024];
    let mut house = House::new(OFFICES, ByteShelf::new(&mut bytes));
    show_calls(
        rt,
        &mut house,
        &[
            inspection(3),
            Call::Read { job: 3, record: 0 },
            inspection(4),
            Call::Read { job: 4, record: 1 },
        ],
    )?;
    install(rt, &mut house, 1, 0, value)?;
    install(rt, &mut house, 2, 1, value)?;
    show_calls(
        rt,
        &mut house,
        &[
            Call::Read { job: 3, record: 1 },
            Call::Read { job: 4, record: 0 },
            Call::Collect { job: 1 },
            Call::Collect { job: 2 },
            Call::Close { job: 3 },
            Call::Collect { job: 1 },
            Call::Collect { job: 2 },
            Call::Close { job: 4 },
            Call::Collect { job: 1 },
            Call::Collect { job: 2 },
        ],
    )
}

// A whole job, an inspection that reads what it wrote, and the archive of both.
// The calls stand in no list, as in `install`: one of a kind that is not known would need a proof that it fits in memory.
fn whole_job<S: Shelf + Drop>(rt: &HostRuntime, shelf: S, value: S::Value) -> io::Result<()> {
    let mut house = House::new(OFFICES, shelf);
    install(rt, &mut house, 7, 3, value)?;
    print!(rt; "told:")?;
    show_call(rt, &mut house, Call::Collect { job: 7 })?;
    show_call(rt, &mut house, inspection(5))?;
    show_call(rt, &mut house, Call::Read { job: 5, record: 3 })?;
    show_call(rt, &mut house, Call::Close { job: 5 })?;
    println!(rt; "")?;
    show_archive(rt, &mut house, &mut [0xEE; 50])
}

// A whole job in the bytes, and one in the cells.
fn whole_jobs<V: Value>(
    rt: &HostRuntime,
    kind: &str,
    value: V,
    bytes: &mut [u8],
    cells: &mut [V::Cell],
) -> io::Result<()> {
    println!(rt; "{kind} in bytes")?;
    whole_job(rt, ByteShelf::new(bytes), value)?;
    println!(rt; "{kind} in cells")?;
    whole_job(rt, CellShelf::new(cells), value)
}

fn main(rt: HostRuntime) -> io::Result<()> {
    if let Ok(dollars) = Amount::new(Currency::Usd, 41_200) {
        sample_day(&rt, dollars)?;
        crossing(&rt, dollars)?;
        let mut cell = [Amount::spare().to_cell()];
        whole_jobs(&rt, "an amount", dollars, &mut [0; 16], &mut cell)?;
    }
    let lodged = Standing::Lodged(Day::new(9_000));
    let mut cell = [Standing::spare().to_cell()];
    whole_jobs(&rt, "a standing", lodged, &mut [0; 11], &mut cell)
}
