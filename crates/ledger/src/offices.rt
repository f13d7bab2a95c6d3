// How many offices a house has.
ghost use Rattle.std.specs.Prelude.{◌≡◌, ◌%◌, ◌<◌, ◌≤◌, IfOk, IfErr};
ghost use Rattle.ledger.specs.Limits.{offices_built};
ghost use Rattle.ledger.specs.declared.fault.LedgerFault.TheVariants.{OfficeNumber};

use crate::fault::LedgerFault;
use crate::limits::MOST_OFFICES;
use crate::office::Office;

// 1 to 8 offices, numbered from 0. An office is a participant of two-phase commit:
// it owns the records whose number, divided by the number of offices, leaves the office's number.
#[derive(Clone, Copy, PartialEq, Eq, Debug)]
pub struct Offices {
    count: u8,
    ghost some: { 0 < count },
    ghost few: { count ≤ 8 },
}

impl Offices {
    // 0 counts as 1, and anything above 8 as 8.
    pub fn new(count: u64) -> Offices
        ensures { result.count ≡ offices_built count }
    {
        Offices {
            count: count.clamp(1, MOST_OFFICES as u64) as u8,
        }
    }

    // How many offices there are.
    pub fn count(&self) -> u8
        ensures value { result ≡ self.now.count }
        ensures bound { result ≤ 8 }
    {
        self.count
    }

    // The office of a number.
    pub(crate) fn office(self, number: u64) -> Result<Office, LedgerFault>
        ensures named { IfOk result (λ office. (office.offices ≡ self) × (office.number ≡ number) × (number < self.count)) }
        ensures refused { IfErr result (λ why. (why ≡ OfficeNumber) × (self.count ≤ number)) }
    {
        if number >= self.count as u64 {
            return Err(LedgerFault::OfficeNumber);
        }
        Ok(Office {
            offices: self,
            number: number as u8,
        })
    }

    // The number of the office that owns a record.
    pub fn office_of(&self, record: u8) -> u8
        ensures { result ≡ «record» % self.now.count }
    {
        record % self.count
    }
}
