// The byte shelf: values of any kind in frames, one behind the other, in bytes that the caller lends.
ghost use Rattle.std.specs.Prelude.{◌≡◌, ◌<◌, [], length};
ghost use Rattle.encoding.specs.Frames.{frame};
ghost use Rattle.shelves.specs.Adding.{place_told, items_after_add};
ghost use Rattle.shelves.specs.FramedBytes.{frame_size, frames_in, value_in_frame, with_frame, byte_items, byte_room, bytes_after_add};

use crate::fault::ShelfFault;
use crate::room::room_of;
use crate::shelf::Shelf;
use std::marker::PhantomData;
use values::value::Value;

// The bytes of a frame before its body: four of length and two of kind.
const FRAME_HEAD: usize = 6;

// A shelf over lent bytes, of which the first `len` frames hold the values; the bytes behind them may be anything.
// Not one type with `CellShelf`: a trait for the two kinds of lent memory would have a constructor, reading, writing, room and their laws for two short bodies each.
#[derive(Drop)]
pub struct ByteShelf<'a, V: Value> {
    bytes: &'a mut [u8],
    len: usize,
    kind: PhantomData<V>,
}

impl<'a, V: Value> ByteShelf<'a, V> {
    // An empty shelf over the bytes, which stay as they are; its capacity is how many frames they have room for, up to 4,096.
    pub fn new(bytes: &'a mut [u8]) -> ByteShelf<'a, V>
        ensures empty { byte_items V.Value result ≡ [] }
        ensures room { byte_room V.Value result ≡ frames_in V.Value (length bytes.old) }
        ensures lent { result.bytes.now ≡ bytes.old }
        ensures named { result.bytes.ghost_name ≡ bytes.entry.ghost_name }
    {
        ByteShelf {
            bytes,
            len: 0,
            kind: PhantomData,
        }
    }
}

impl<'a, V: Value> Shelf for ByteShelf<'a, V> {
    type Value = V;

    ghost items = { byte_items V.Value };

    ghost room = { byte_room V.Value };

    // As every shelf; and the frame at the place told is the value's, while all other bytes are as before.
    fn add(&mut self, value: V) -> Result<u64, ShelfFault>
        ensures told { result ≡ place_told (byte_items V.Value self.old) (byte_room V.Value self.old) }
        ensures holds { byte_items V.Value self.new ≡ items_after_add (byte_items V.Value self.old) (byte_room V.Value self.old) value }
        ensures same { length (byte_items V.Value self.old) ≡ byte_room V.Value self.old → self.new ≡ self.old }
        ensures keeps { byte_room V.Value self.new ≡ byte_room V.Value self.old }
        ensures written { self.new.bytes.now ≡ bytes_after_add V.Value self.old value }
        ensures named { self.new.bytes.ghost_name ≡ self.old.bytes.ghost_name }
    {
        let place = self.len;
        if place >= frames_in::<V>(self.bytes.len()) {
            return Err(ShelfFault::Full);
        }
        put_frame(self.bytes, place, value);
        self.len = place + 1;
        Ok(place as u64)
    }

    fn fetch(&self, place: u64) -> Result<V, ShelfFault> {
        if place >= self.len() {
            return Err(ShelfFault::NoSuchPlace);
        }
        Ok(frame_value(self.bytes, place as usize))
    }

    fn len(&self) -> u64 {
        self.len.min(frames_in::<V>(self.bytes.len())) as u64
    }

    fn capacity(&self) -> u64 {
        frames_in::<V>(self.bytes.len()) as u64
    }
}

// How many frames are used in so many bytes.
fn frames_in<V: Value>(bytes: usize) -> usize
    ensures { result ≡ frames_in V.Value bytes }
{
    room_of(bytes / (V::WIDTH + FRAME_HEAD))
}

// Writes the frame of a value at a place.
// No `chunks_exact_mut(size).nth(place)`: it gives an `Option`, though each place that is asked for has a frame.
fn put_frame<V: Value>(bytes: &mut [u8], place: usize, value: V)
    requires { place < frames_in V.Value (length bytes.old) }
    ensures { bytes.new ≡ with_frame V.Value bytes.old place value }
{
    let size = V::WIDTH + FRAME_HEAD;
    let start = place * size;
    write_frame(&mut bytes[start..start + size], value);
}

// Fills a part with the frame of a value.
fn write_frame<V: Value>(out: &mut [u8], value: V)
    requires { length out.old ≡ frame_size V.Value }
    ensures { out.new ≡ frame V.Value.KIND (V.Value.bytes value) }
{
    out[..4].copy_from_slice(&(V::WIDTH as u32 + 2).to_le_bytes());
    out[4..6].copy_from_slice(&V::KIND.to_le_bytes());
    value.encode(&mut out[6..]);
}

// The value in the frame at a place, or the spare value if it holds none.
// No `chunks_exact(size).nth(place)`: it gives an `Option`, though each place that is asked for has a frame.
fn frame_value<V: Value>(bytes: &[u8], place: usize) -> V
    requires { place < frames_in V.Value (length bytes.now) }
    ensures { result ≡ value_in_frame V.Value bytes.now place }
{
    let start = place * (V::WIDTH + FRAME_HEAD) + FRAME_HEAD;
    V::decode(&bytes[start..start + V::WIDTH]).unwrap_or(V::spare())
}
