// How amounts are made, and amounts as a kind of value.
ghost use Rattle.std.specs.Prelude.{◌≡◌, refl};
ghost use Rattle.std.specs.Option.{ok_or};
ghost use Rattle.values.specs.Amounts.{amount_of, amount_from_numbers, amount_bytes, amount_in, amount_cell, amount_in_cell, spare_amount};
ghost use Rattle.values.specs.declared.fault.ValueFault.TheVariants.{OutOfRange};
ghost use Rattle.values.specs.AmountLaws.{parsed_bytes, bytes_parsed, if_any_is, cell_restored};
ghost use Rattle.std.proofs.Common.{rules};

use super::{Amount, AmountCell, LEAST_UNITS, MOST_UNITS};
use crate::currency::Currency;
use crate::fault::ValueFault;
use crate::value::Value;

impl Amount {
    // The amount of so many units; refused (17) if they are out of range.
    pub fn new(currency: Currency, units: i64) -> Result<Amount, ValueFault>
        ensures { result ≡ ok_or (amount_of currency units) OutOfRange }
    {
        if (LEAST_UNITS..=MOST_UNITS).contains(&units) {
            Ok(Amount { currency, units })
        } else {
            Err(ValueFault::OutOfRange)
        }
    }

    // The amount of so many units of the currency with a number; refused if the currency is not listed (15), then if the units are out of range (17).
    pub fn from_numbers(currency: u64, units: i64) -> Result<Amount, ValueFault>
        ensures { result ≡ amount_from_numbers currency units }
    {
        Amount::new(Currency::try_from(currency)?, units)
    }

    // The currency.
    pub fn currency(self) -> Currency
        ensures { result ≡ self.currency }
    {
        self.currency
    }

    // The smallest units of the currency.
    pub fn units(self) -> i64
        ensures { result ≡ self.units }
    {
        self.units
    }
}

// Kind 1: two bytes of currency number, and eight bytes of units in two's complement.
impl Value for Amount {
    const KIND: u16 = 1;

    const WIDTH: usize = 10;

    type Cell = AmountCell;

    ghost KIND = { 1 };

    ghost WIDTH = { 10 };

    ghost bytes = { amount_bytes };

    ghost parsed = { amount_in };

    ghost cell = { amount_cell };

    ghost restored = { amount_in_cell };

    ghost fallback = { spare_amount };

    ghost width_positive = { Prim.search rules };

    ghost width_limit = { Prim.search rules };

    ghost kind_limit = { Prim.search rules };

    ghost bytes_width = { λ _. refl };

    ghost parsed_bytes = { parsed_bytes };

    ghost bytes_parsed = { bytes_parsed };

    ghost restored_cell = { if_any_is };

    ghost cell_restored = { cell_restored };

    fn encode(self, out: &mut [u8]) -> bool {
        if out.len() != Self::WIDTH {
            return false;
        }
        out[..2].copy_from_slice(&self.currency.number().to_le_bytes());
        out[2..].copy_from_slice(&self.units.to_le_bytes());
        true
    }

    fn decode(encoded: &[u8]) -> Result<Amount, ValueFault> {
        let (currency, units) = encoded.split_first_chunk().ok_or(ValueFault::NotAValue)?;
        let units = units.try_into().map_err(|_| ValueFault::NotAValue)?;
        Amount::from_cell(AmountCell {
            currency: u16::from_le_bytes(*currency),
            units: i64::from_le_bytes(units),
        })
    }

    fn to_cell(self) -> AmountCell {
        AmountCell {
            currency: self.currency.number(),
            units: self.units,
        }
    }

    fn from_cell(stored: AmountCell) -> Result<Amount, ValueFault> {
        Amount::from_numbers(stored.currency.into(), stored.units).map_err(
            |_| ValueFault::NotAValue,
        )
    }

    fn spare() -> Amount {
        Amount {
            currency: Currency::Usd,
            units: 0,
        }
    }
}
