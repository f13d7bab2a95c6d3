// Requests in bytes: a call of the house, or a question.
//
// | Bytes    |                                                              |
// | 0        | which call or question                                       |
// | 1 to 10  | the value of a write; of a standing the first five           |
// | 11 to 15 | unused                                                       |
// | 16 to 23 | the job, little-endian                                       |
// | 24 to 31 | the record, the office, the size of a buffer, or an index    |
ghost use Rattle.std.specs.Prelude.{◌≤◌, ◌+◌};
ghost use Rattle.bridge.specs.declared.requests.TheConstants.{REQUEST};

use house::call::Call;
use house::fault::Fault;
use ledger::job::JobKind;
use values::value::Value;

// How many bytes a request has.
pub const REQUEST: usize = 32;

// A call, or a question.
#[derive(Clone, Copy, PartialEq, Eq, Debug)]
pub enum Request<V> {
    Call(Call<V>),
    JobState { job: u64 },
    NewestVersion { record: u64 },
    AnsweredCount,
    AnsweredAt { n: u64 },
    // a whole inspection by slip: open, one read, close
    Inspect { job: u64, record: u64 },
    // no call or question has the number
    Unknown,
}

// The number in the eight bytes from a start, little-endian.
fn number_at(bytes: &[u8; REQUEST], start: usize) -> u64
    requires { start + 8 ≤ REQUEST }
{
    u64::from_le_bytes(*bytes[start..].first_chunk::<8>().unwrap())
}

// The value of a write, if there are bytes enough for one of the kind; refused (16) if these are none of the kind.
fn value_of<V: Value>(bytes: &[u8; REQUEST]) -> Result<Option<V>, Fault> {
    // Tried with `map(V::decode).transpose()`, and the proof didn't close: the borrow checker does not cover a function with a result of type `V`.
    let Some(encoded) = bytes[1..].get(..V::WIDTH) else {
        return Ok(None);
    };
    Ok(Some(V::decode(encoded)?))
}

// The call or question that the bytes stand for; refused (16) if it writes what is no value.
// C interface: the first byte's number stands for a call or question.
pub fn decode_request<V: Value>(bytes: &[u8; REQUEST]) -> Result<Request<V>, Fault> {
    let job = number_at(bytes, 16);
    let number = number_at(bytes, 24);
    Ok(match bytes[0] {
        0 => Request::Call(Call::Open {
            job,
            kind: JobKind::Amendment,
        }),
        1 => Request::Call(Call::Open {
            job,
            kind: JobKind::Inspection,
        }),
        2 => Request::Call(Call::Read {
            job,
            record: number,
        }),
        3 => value_of(bytes)?.map_or(Request::Unknown, |value| {
            Request::Call(Call::Write {
                job,
                record: number,
                value,
            })
        }),
        4 => Request::Call(Call::HandIn { job }),
        5 => Request::Call(Call::Deliver {
            job,
            office: number,
        }),
        6 => Request::Call(Call::Collect { job }),
        7 => Request::Call(Call::Close { job }),
        8 => Request::Call(Call::Withdraw { job }),
        9 => Request::Call(Call::Archive { room: number }),
        10 => Request::JobState { job },
        11 => Request::NewestVersion { record: number },
        12 => Request::AnsweredCount,
        13 => Request::AnsweredAt { n: number },
        14 => Request::Inspect {
            job,
            record: number,
        },
        _ => Request::Unknown,
    })
}
