// Why the ledger refuses a call, in layer H. A refused call changes nothing.
ghost use Rattle.std.specs.Prelude.{◌≡◌};
ghost use Rattle.ledger.specs.Faults.{ledger_fault_number};

#[derive(Clone, Copy, PartialEq, Eq, Debug)]
pub enum LedgerFault {
    // job numbers end at 255
    JobNumber = 1,
    // a job number is taken at most once
    JobTaken = 2,
    // record numbers end at 63
    RecordNumber = 3,
    // the house has no such office
    OfficeNumber = 4,
    // the job was never opened
    NeverOpened = 5,
    // the call is for the other kind of job
    WrongKind = 6,
    // the job's state does not allow the call
    WrongState = 7,
    // the read would list a ninth record
    TooManyReads = 8,
    // the write would list a ninth record
    TooManyWrites = 9,
    // no message waits between the job and the office
    NoMessage = 10,
    // the job is undecided, or a message of it waits
    Undecided = 11,
    // another job holds it back
    Held = 12,
    // not so many jobs are answered
    NoSuchAnswer = 22,
}

impl LedgerFault {
    pub fn number(&self) -> u8
        ensures { result ≡ ledger_fault_number self.now }
    {
        *self as u8
    }
}
