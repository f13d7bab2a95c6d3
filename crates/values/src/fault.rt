// Why a value is refused.
ghost use Rattle.std.specs.Prelude.{◌≡◌};
ghost use Rattle.values.specs.Faults.{value_fault_number};

// A refusal to make a value from numbers or bytes, with its number.
#[derive(Clone, Copy, PartialEq, Eq, Debug)]
pub enum ValueFault {
    // the currency is not listed
    UnlistedCurrency = 15,
    // the bytes, or the numbers of a cell, are no value of the kind
    NotAValue = 16,
    // the units of an amount, or the number of a reason, are out of range
    OutOfRange = 17,
}

impl ValueFault {
    // The refusal's number.
    pub fn number(&self) -> u8
        ensures { result ≡ value_fault_number self.now }
    {
        *self as u8
    }
}
