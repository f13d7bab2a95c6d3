// One office, as calls name it.
ghost use Rattle.std.specs.Prelude.{◌≡◌, ◌<◌};
ghost use Rattle.ledger.specs.Offices.{owns as owned};

use crate::offices::Offices;

// A number below 8 as that of an office, beside how many offices there are. One that is not below their number owns no record.
#[derive(Clone, Copy, PartialEq, Eq, Debug)]
pub struct Office {
    pub offices: Offices,
    pub number: u8,
    ghost placed: { number < 8 },
}

impl Office {
    // Where a row keeps what passes between its job and the office.
    pub(crate) fn index(self) -> usize
        ensures value { result ≡ self.number }
        ensures bound { result < 8 }
    {
        self.number as usize
    }

    // Whether a record belongs to the office.
    pub(crate) fn owns(self, record: u8) -> bool
        ensures { result ≡ owned self.offices self.number «record» }
    {
        self.offices.office_of(record) == self.number
    }
}
