// What was told, in bytes.
//
// | Bytes    |                                                                                   |
// | 0        | the refusal's number, or 0                                                        |
// | 1        | what is told: 0 nothing more, 1 blank, 2 own, 3 a version, 4 answered, 5 dropped, |
// |          | 6 an archive, 7 what was asked, 8 an unknown request                              |
// | 2        | the version or the mark                                                           |
// | 3 to 7   | zero                                                                              |
// | 8 to 15  | the size of the archive, written or needed, or what was asked, little-endian      |
// | 16 to 25 | the value                                                                         |
// | 26 to 31 | zero                                                                              |
use house::call::Told;
use house::fault::Fault;
use house::reading::Reading;
use ledger::job::{Collected, State};
use values::value::Value;

// How many bytes an answer has.
pub const ANSWER: usize = 32;

// How many bytes of an answer there are for a value.
const VALUE: usize = 16;

// What is told. Its byte is the place in this list, from 0.
#[derive(Clone, Copy, PartialEq, Eq, Debug, Default)]
enum Kind {
    #[default]
    NothingMore,
    Blank,
    Own,
    Version,
    Answered,
    Dropped,
    Archive,
    Asked,
    Unknown,
}

// What was told. The default is an accepted call with nothing more to tell.
#[derive(Clone, Copy, PartialEq, Eq, Debug, Default)]
pub struct Answer {
    refusal: Option<Fault>,
    kind: Kind,
    // the version or the mark
    version_or_mark: u8,
    // the size of the archive, written or needed, or what was asked
    number: u64,
    // the bytes of the value, and zeros
    value: [u8; VALUE],
}

// The bytes of a value, and zeros.
fn value_bytes<V: Value>(value: V) -> [u8; VALUE] {
    let mut bytes = [0; VALUE];
    if let Some(place) = bytes.get_mut(..V::WIDTH) {
        let _ = value.encode(place);
    }
    bytes
}

impl Answer {
    // The answer to a request that no call or question has.
    pub fn unknown() -> Answer {
        Answer {
            kind: Kind::Unknown,
            ..Answer::default()
        }
    }

    // The answer in bytes.
    pub fn to_bytes(&self) -> [u8; ANSWER] {
        let mut bytes = [0; ANSWER];
        bytes[0] = self.refusal.map_or(0, |fault| fault.number());
        bytes[1] = self.kind as u8;
        bytes[2] = self.version_or_mark;
        bytes[8..16].copy_from_slice(&self.number.to_le_bytes());
        bytes[16..].copy_from_slice(&self.value);
        bytes
    }
}

// A refusal; that of an archive tells the size that is needed.
impl From<Fault> for Answer {
    fn from(fault: Fault) -> Answer {
        let number = match fault {
            Fault::ShortBuffer { needed } => needed,
            _ => 0,
        };
        Answer {
            refusal: Some(fault),
            number,
            ..Answer::default()
        }
    }
}

// The number that a question told.
impl From<u64> for Answer {
    fn from(number: u64) -> Answer {
        Answer {
            kind: Kind::Asked,
            number,
            ..Answer::default()
        }
    }
}

// The state of a job, and the mark of a dropped one.
impl From<State> for Answer {
    fn from(state: State) -> Answer {
        let version_or_mark = match state {
            State::Dropped(mark) => mark.number(),
            _ => 0,
        };
        Answer {
            version_or_mark,
            ..Answer::from(u64::from(state.number()))
        }
    }
}

// What a read told.
impl<V: Value> From<Reading<V>> for Answer {
    fn from(reading: Reading<V>) -> Answer {
        match reading {
            Reading::Blank => Answer {
                kind: Kind::Blank,
                ..Answer::default()
            },
            Reading::Own(value) => Answer {
                kind: Kind::Own,
                value: value_bytes(value),
                ..Answer::default()
            },
            Reading::Version { number, value } => Answer {
                kind: Kind::Version,
                version_or_mark: number,
                value: value_bytes(value),
                ..Answer::default()
            },
        }
    }
}

// What a call told.
impl<V: Value> From<Told<V>> for Answer {
    fn from(told: Told<V>) -> Answer {
        match told {
            Told::Done => Answer::default(),
            Told::Read(reading) => Answer::from(reading),
            Told::Collected(Collected::Answered) => Answer {
                kind: Kind::Answered,
                ..Answer::default()
            },
            Told::Collected(Collected::Dropped(mark)) => Answer {
                kind: Kind::Dropped,
                version_or_mark: mark.number(),
                ..Answer::default()
            },
            Told::Archived { size } => Answer {
                kind: Kind::Archive,
                number: size,
                ..Answer::default()
            },
        }
    }
}
