// The nine commands with their fields, the letters that choose them, and what can be wrong with a line.
ghost use Rattle.std.specs.Prelude.{◌≡◌};
ghost use Rattle.lines.specs.Commands.{line_fault_number};

// What the first character of a line chooses.
// A job is a transaction: an amendment is an update transaction, and an inspection a read-only transaction.
#[derive(Clone, Copy, PartialEq, Eq, Debug)]
pub enum Letter {
    Amendment,
    Inspection,
    Read,
    Write,
    HandIn,
    Deliver,
    Collect,
    Close,
    Withdraw,
}

// A command, with the numbers as the line writes them, whatever their size.
// A record is a data item, and an office is a participant of a distributed commit.
#[derive(Clone, Copy, PartialEq, Eq, Debug)]
pub enum Command {
    // Begin an update transaction.
    OpenAmendment {
        job: u64,
    },
    // Begin a read-only transaction.
    OpenInspection {
        job: u64,
    },
    // Read a data item.
    Read {
        job: u64,
        record: u64,
    },
    // Write an amount of money, counted in the smallest units of a currency, to a data item.
    Write {
        job: u64,
        record: u64,
        currency: u64,
        units: i64,
    },
    // Ask that an update transaction be committed.
    HandIn {
        job: u64,
    },
    // Take the message that waits between a transaction and a participant.
    Deliver {
        job: u64,
        office: u64,
    },
    // Ask for the outcome of an update transaction that was handed in.
    Collect {
        job: u64,
    },
    // End a read-only transaction.
    Close {
        job: u64,
    },
    // Abort an update transaction that is still open.
    Withdraw {
        job: u64,
    },
}

// Why a line is refused before its command is carried out.
#[derive(Clone, Copy, PartialEq, Eq, Debug)]
pub enum LineFault {
    // The line has more than 80 bytes.
    TooLong = 18,
    // The first character chooses no command, or there is none.
    UnknownLetter = 19,
    // The fields are not those of the command.
    WrongFields = 20,
}

impl LineFault {
    // The refusal number.
    pub fn number(&self) -> u8
        ensures { result ≡ line_fault_number self.now }
    {
        *self as u8
    }
}
