// Sequences of requests in a newly built house, over either shelf and either kind of value.
ghost use Rattle.std.specs.Prelude.{◌*◌, ◌^◌, ◌<◌};
ghost use Rattle.std.specs.Mem.{type_size};
ghost use Rattle.bridge.specs.declared.run.TheConstants.{CELLS};

use crate::answers::{ANSWER, Answer};
use crate::requests::{REQUEST, Request, decode_request};
use house::call::Call;
use house::fault::Fault;
use house::house::House;
use house::reading::Reading;
use law::perform::perform;
use shelves::byte_shelf::ByteShelf;
use shelves::cell_shelf::CellShelf;
use shelves::shelf::Shelf;
use values::amount::Amount;
use values::standing::Standing;
use values::value::Value;

// More cells than a shelf uses, so that its limit can be met.
const CELLS: usize = 4200;

// The first elements of a slice, or all if there are not so many.
fn front<T>(slice: &mut [T], count: u64) -> &mut [T] {
    let count = count.min(slice.len() as u64);
    &mut slice[..count as usize]
}

// Opens an inspection, reads one record by its slip, and closes it; tells what was read.
// The program `house_demo` has the same function. One of the house itself would be no plainer: it would promise three calls in one clause.
fn inspect<S: Shelf>(
    house: &mut House<S>,
    job: u64,
    record: u64,
) -> Result<Reading<S::Value>, Fault> {
    let slip = house.open_slip(job)?;
    let reading = house.read_slip(&slip, record);
    house.close_slip(slip)?;
    reading
}

// Does one request and gives its answer, or why it is refused. An archive goes into the buffer.
fn request_told<S: Shelf>(
    house: &mut House<S>,
    request: &[u8; REQUEST],
    buffer: &mut [u8],
) -> Result<Answer, Fault> {
    Ok(match decode_request::<S::Value>(request)? {
        Request::Call(call) => {
            let room = match call {
                Call::Archive { room } => room,
                _ => 0,
            };
            perform(house, call, front(buffer, room))?.into()
        }
        Request::JobState { job } => house.job_state(job)?.into(),
        Request::NewestVersion { record } => u64::from(house.newest_version(record)?).into(),
        Request::AnsweredCount => house.answered_count().into(),
        Request::AnsweredAt { n } => u64::from(house.answered_at(n)?).into(),
        Request::Inspect { job, record } => inspect(house, job, record)?.into(),
        Request::Unknown => Answer::unknown(),
    })
}

// Does one request and gives the bytes of its answer.
fn answer<S: Shelf>(
    house: &mut House<S>,
    request: &[u8; REQUEST],
    buffer: &mut [u8],
) -> [u8; ANSWER] {
    request_told(house, request, buffer)
        .unwrap_or_else(Answer::from)
        .to_bytes()
}

// Does all requests, and puts an answer for each, as far as there is room.
fn run<S: Shelf>(house: &mut House<S>, requests: &[u8], answers: &mut [u8], buffer: &mut [u8]) {
    let (requests, _) = requests.as_chunks::<REQUEST>();
    let (places, _) = answers.as_chunks_mut::<ANSWER>();
    let mut places = places.iter_mut();
    for request in requests {
        let told = answer(house, request, buffer);
        if let Some(place) = places.next() {
            *place = told;
        }
    }
}

// Does all requests and gives a sum over the answers, so that none of the work can be left out.
fn sum<S: Shelf>(house: &mut House<S>, requests: &[u8], buffer: &mut [u8]) -> u64 {
    let (requests, _) = requests.as_chunks::<REQUEST>();
    requests.iter().fold(0, |sum: u64, request| {
        let told = answer(house, request, buffer);
        [told[0], told[1], told[2], told[18]]
            .iter()
            .fold(sum.wrapping_mul(31), |sum, byte| {
                sum.wrapping_add(u64::from(*byte))
            })
    })
}

// Does the first requests once, and then others again and again; gives a sum over the answers.
fn repeat<S: Shelf>(
    house: &mut House<S>,
    first: &[u8],
    again: &[u8],
    times: u64,
    buffer: &mut [u8],
) -> u64 {
    let start = sum(house, first, buffer);
    (0..times).fold(start, |total, _| {
        total.wrapping_add(sum(house, again, buffer))
    })
}

// What an action gives on a newly built house over so many cells.
fn in_cells<V: Value, R, F: FnOnce(&mut House<CellShelf<'_, V>>) -> R>(
    offices: u64,
    capacity: u64,
    action: F,
) -> R
where
    V::Cell: Default,
    requires callable { F.IsAlwaysCallable action }
    requires size { CELLS * type_size V.Cell.row < 2 ^ 63 }
{
    let mut cells = [V::Cell::default(); CELLS];
    let shelf = CellShelf::new(front(&mut cells, capacity));
    action(&mut House::new(offices, shelf))
}

// Builds a house of amounts over so many cells, and does all requests in it.
// C interface: a C function has no type parameter, so each kind of value and each shelf has functions of its own.
#[unsafe(no_mangle)]
pub extern "C" fn bridge_run_amount_cells(
    offices: u64,
    capacity: u64,
    requests: &[u8],
    answers: &mut [u8],
    buffer: &mut [u8],
) {
    in_cells::<Amount, _, _>(offices, capacity, |house| {
        run(house, requests, answers, buffer)
    })
}

// Builds a house of standings over so many cells, and does all requests in it.
#[unsafe(no_mangle)]
pub extern "C" fn bridge_run_standing_cells(
    offices: u64,
    capacity: u64,
    requests: &[u8],
    answers: &mut [u8],
    buffer: &mut [u8],
) {
    in_cells::<Standing, _, _>(offices, capacity, |house| {
        run(house, requests, answers, buffer)
    })
}

// Builds a house of amounts over the bytes, and does all requests in it.
#[unsafe(no_mangle)]
pub extern "C" fn bridge_run_amount_bytes(
    offices: u64,
    memory: &mut [u8],
    requests: &[u8],
    answers: &mut [u8],
    buffer: &mut [u8],
) {
    let shelf = ByteShelf::<Amount>::new(memory);
    run(&mut House::new(offices, shelf), requests, answers, buffer)
}

// Builds a house of standings over the bytes, and does all requests in it.
#[unsafe(no_mangle)]
pub extern "C" fn bridge_run_standing_bytes(
    offices: u64,
    memory: &mut [u8],
    requests: &[u8],
    answers: &mut [u8],
    buffer: &mut [u8],
) {
    let shelf = ByteShelf::<Standing>::new(memory);
    run(&mut House::new(offices, shelf), requests, answers, buffer)
}

// Builds a house of amounts over so many cells, does the first requests once and then others again and again; gives a sum over the answers.
#[unsafe(no_mangle)]
pub extern "C" fn bridge_repeat_amount_cells(
    offices: u64,
    capacity: u64,
    first: &[u8],
    again: &[u8],
    times: u64,
    buffer: &mut [u8],
) -> u64 {
    in_cells::<Amount, _, _>(offices, capacity, |house| {
        repeat(house, first, again, times, buffer)
    })
}

// The same over bytes.
#[unsafe(no_mangle)]
pub extern "C" fn bridge_repeat_amount_bytes(
    offices: u64,
    memory: &mut [u8],
    first: &[u8],
    again: &[u8],
    times: u64,
    buffer: &mut [u8],
) -> u64 {
    let shelf = ByteShelf::<Amount>::new(memory);
    repeat(&mut House::new(offices, shelf), first, again, times, buffer)
}

// How many bytes a house of amounts over cells takes, its shelf's lent memory not counted.
#[unsafe(no_mangle)]
pub extern "C" fn bridge_house_bytes() -> u64 {
    std::mem::size_of::<House<CellShelf<'static, Amount>>>() as u64
}
