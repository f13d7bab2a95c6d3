// The listed currencies.
ghost use Rattle.std.specs.Prelude.{◌≡◌};
ghost use Rattle.std.specs.Option.{ok_or};
ghost use Rattle.values.specs.Currencies.{currency_number, currency_digits, currency_of};
ghost use Rattle.values.specs.declared.fault.ValueFault.TheVariants.{UnlistedCurrency};

use crate::fault::ValueFault;

// A currency of ISO 4217 that amounts may be in, with its number.
#[derive(Clone, Copy, PartialEq, Eq, Debug)]
pub enum Currency {
    Usd = 840,
    Eur = 978,
    Gbp = 826,
    Hrk = 191,
    Jpy = 392,
    Kwd = 414,
}

impl Currency {
    // The currency's ISO 4217 number.
    pub fn number(self) -> u16
        ensures { result ≡ currency_number self }
    {
        self as u16
    }

    // How many digits after the point an amount in the currency is written with.
    pub fn fraction_digits(self) -> u8
        ensures { result ≡ currency_digits self }
    {
        match self {
            Currency::Usd | Currency::Eur | Currency::Gbp | Currency::Hrk => 2,
            Currency::Jpy => 0,
            Currency::Kwd => 3,
        }
    }
}

impl TryFrom<u64> for Currency {
    type Error = ValueFault;

    ghost try_from_gives = { λ number r. r ≡ ok_or (currency_of number) UnlistedCurrency };

    // The listed currency with an ISO 4217 number; refused (15) if there is none.
    fn try_from(number: u64) -> Result<Currency, ValueFault> {
        match number {
            840 => Ok(Currency::Usd),
            978 => Ok(Currency::Eur),
            826 => Ok(Currency::Gbp),
            191 => Ok(Currency::Hrk),
            392 => Ok(Currency::Jpy),
            414 => Ok(Currency::Kwd),
            _ => Err(ValueFault::UnlistedCurrency),
        }
    }
}
