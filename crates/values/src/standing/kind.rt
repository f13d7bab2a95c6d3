// How standings are made, and standings as a kind of value.
ghost use Rattle.std.specs.Prelude.{◌≡◌};
ghost use Rattle.std.specs.Option.{ok_or};
ghost use Rattle.values.specs.Standings.{reason_of, standing_of, standing_state, standing_number, standing_bytes, standing_in, standing_cell, standing_in_cell, spare_standing};
ghost use Rattle.values.specs.declared.fault.ValueFault.TheVariants.{OutOfRange};
ghost use Rattle.values.specs.StandingLaws.{bytes_length, parsed_bytes, bytes_parsed, standing_of_is, cell_restored};
ghost use Rattle.std.proofs.Common.{rules};

use super::{Day, MOST_REASON, Reason, Standing, StandingCell};
use crate::fault::ValueFault;
use crate::value::Value;

impl Day {
    // The day with a number; every number of four bytes is a day's.
    pub fn new(number: u32) -> Day
        ensures { result.number ≡ number }
    {
        Day { number }
    }

    // How many days after 1 January 2000.
    pub fn number(self) -> u32
        ensures { result ≡ self.number }
    {
        self.number
    }
}

impl Reason {
    // The reason with a number; refused (17) above 99.
    pub fn new(number: u64) -> Result<Reason, ValueFault>
        ensures { result ≡ ok_or (reason_of number) OutOfRange }
    {
        if number > MOST_REASON {
            return Err(ValueFault::OutOfRange);
        }
        Ok(Reason {
            number: number as u8,
        })
    }

    // The reason's number.
    pub fn number(self) -> u8
        ensures { result ≡ self.number }
    {
        self.number
    }
}

// Kind 2: a byte for the state, and the day or the reason in four bytes.
impl Value for Standing {
    const KIND: u16 = 2;

    const WIDTH: usize = 5;

    type Cell = StandingCell;

    ghost KIND = { 2 };

    ghost WIDTH = { 5 };

    ghost bytes = { standing_bytes };

    ghost parsed = { standing_in };

    ghost cell = { standing_cell };

    ghost restored = { standing_in_cell };

    ghost fallback = { spare_standing };

    ghost width_positive = { Prim.search rules };

    ghost width_limit = { Prim.search rules };

    ghost kind_limit = { Prim.search rules };

    ghost bytes_width = { bytes_length };

    ghost parsed_bytes = { parsed_bytes };

    ghost bytes_parsed = { bytes_parsed };

    ghost restored_cell = { standing_of_is };

    ghost cell_restored = { cell_restored };

    fn encode(self, out: &mut [u8]) -> bool {
        if out.len() != Self::WIDTH {
            return false;
        }
        let cell = self.to_cell();
        out[0] = cell.state;
        out[1..].copy_from_slice(&cell.number.to_le_bytes());
        true
    }

    fn decode(encoded: &[u8]) -> Result<Standing, ValueFault> {
        let (state, number) = encoded.split_first().ok_or(ValueFault::NotAValue)?;
        let number = number.try_into().map_err(|_| ValueFault::NotAValue)?;
        Standing::from_cell(StandingCell {
            state: *state,
            number: u32::from_le_bytes(number),
        })
    }

    // The numbers of the states stand here and in the function behind it, which turns them back.
    fn to_cell(self) -> StandingCell {
        let (state, number) = match self {
            Standing::Lodged(day) => (1, day.number),
            Standing::Released(day) => (2, day.number),
            Standing::Stopped(reason) => (3, reason.number.into()),
        };
        StandingCell { state, number }
    }

    fn from_cell(stored: StandingCell) -> Result<Standing, ValueFault> {
        let number = stored.number;
        match stored.state {
            1 => Ok(Standing::Lodged(Day::new(number))),
            2 => Ok(Standing::Released(Day::new(number))),
            3 => {
                let reason = Reason::new(number.into()).map_err(|_| ValueFault::NotAValue)?;
                Ok(Standing::Stopped(reason))
            }
            _ => Err(ValueFault::NotAValue),
        }
    }

    fn spare() -> Standing {
        Standing::Stopped(Reason { number: 0 })
    }
}
