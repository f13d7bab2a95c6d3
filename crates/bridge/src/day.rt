// The whole day sheet.
use sheet::day::day;
use std::alloc::Global;

// Copies a text to the front of a buffer if there is room, and tells the length of the text.
fn copy_text(text: &[u8], out: &mut [u8]) -> u64 {
    if let Some(front) = out.get_mut(..text.len()) {
        front.copy_from_slice(text);
    }
    text.len() as u64
}

// Writes what is printed of a day's input to the front of a buffer and tells its length.
// Where the buffer is shorter than that, nothing is written. Where memory runs out, the length is 0, which no text has.
// C interface: the length 0 stands for a text that is missing.
#[unsafe(no_mangle)]
pub extern "C" fn bridge_day(heap: Global, input: &[u8], out: &mut [u8]) -> u64 {
    day(heap, input).map_or(0, |text| copy_text(text.as_bytes(), out))
}
