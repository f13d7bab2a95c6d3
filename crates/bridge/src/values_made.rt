// How values are made and encoded. Each function gives 0 and writes the bytes of the value to `out`, or gives the refusal's number.
// C interface: 0 stands for no refusal.
use values::amount::{Amount, AmountCell};
use values::fault::ValueFault;
use values::standing::{Reason, Standing, StandingCell};
use values::value::Value;

// Encodes a value, if `out` has exactly its width.
fn encoded<V: Value>(made: Result<V, ValueFault>, out: &mut [u8]) -> u8 {
    made.map_or_else(
        |fault| fault.number(),
        |value| {
            let _ = value.encode(out);
            0
        },
    )
}

// The amount whose bytes these are.
#[unsafe(no_mangle)]
pub extern "C" fn bridge_decode_amount(bytes: &[u8], out: &mut [u8]) -> u8 {
    encoded(Amount::decode(bytes), out)
}

// The standing whose bytes these are.
#[unsafe(no_mangle)]
pub extern "C" fn bridge_decode_standing(bytes: &[u8], out: &mut [u8]) -> u8 {
    encoded(Standing::decode(bytes), out)
}

// The amount with the numbers.
#[unsafe(no_mangle)]
pub extern "C" fn bridge_amount_from_numbers(currency: u64, units: i64, out: &mut [u8]) -> u8 {
    encoded(Amount::from_numbers(currency, units), out)
}

// Goods that are stopped for the reason with the number.
#[unsafe(no_mangle)]
pub extern "C" fn bridge_stopped(reason: u64, out: &mut [u8]) -> u8 {
    encoded(Reason::new(reason).map(Standing::Stopped), out)
}

// The amount in a cell.
#[unsafe(no_mangle)]
pub extern "C" fn bridge_amount_from_cell(currency: u16, units: i64, out: &mut [u8]) -> u8 {
    encoded(Amount::from_cell(AmountCell { currency, units }), out)
}

// The standing in a cell.
#[unsafe(no_mangle)]
pub extern "C" fn bridge_standing_from_cell(state: u8, number: u32, out: &mut [u8]) -> u8 {
    encoded(Standing::from_cell(StandingCell { state, number }), out)
}
