// Amounts of money, which keep their limits from their making.
ghost use Rattle.std.specs.Prelude.{◌≤ℤ◌};
ghost use Rattle.values.specs.Limits.{least_units, most_units};

use crate::currency::Currency;

pub mod kind;

// The most units of an amount.
pub const MOST_UNITS: i64 = 999_999_999_999;

// The least units of an amount.
pub const LEAST_UNITS: i64 = -999_999_999_999;

// An amount of money, in the smallest units of a listed currency.
#[derive(Clone, Copy, PartialEq, Eq, Debug)]
pub struct Amount {
    currency: Currency,
    units: i64,
    ghost low: { least_units ≤ℤ units },
    ghost high: { units ≤ℤ most_units },
}

// The numbers of an amount, with no limits: an ISO 4217 number and the units.
#[derive(Clone, Copy, PartialEq, Eq, Debug, Default)]
pub struct AmountCell {
    pub currency: u16,
    pub units: i64,
}
