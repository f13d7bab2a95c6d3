// Writing into a lent buffer, one piece after another. A byte for which there is no room is left out, as where a slice is written to
// through `std::io::Write`; whoever must not lose a byte tests the room first. This module is internal to the repository.
ghost use Rattle.std.specs.Prelude.{◌≡◌, [], ◌∷◌, ◌++◌};
ghost use Rattle.encoding.specs.Bytes.{little_endian};
ghost use Rattle.encoding.specs.Outputs.{put_bytes};

// A buffer that is lent for writing, and the position of the next byte in it.
// A type of its own: `io::Write` and `bytes::BufMut` for lent slices answer a `Result` that each function here would hand on though room is proved, and `Write for &mut [u8]` tells how many bytes it took, not which stand in the slice.
#[derive(Drop)]
pub struct Cursor<'a> {
    pub buffer: &'a mut [u8],
    pub position: usize,
}

impl<'a> Cursor<'a> {
    // One byte, if there is room for it.
    pub fn put(&mut self, byte: u8)
        ensures { self.new ≡ put_bytes (byte ∷ []) self.old }
    {
        // no `get_mut`: once its borrow is over, nothing is known of the buffer's bytes
        if self.position < self.buffer.len() {
            self.buffer[self.position] = byte;
            self.position += 1;
        }
    }

    // Several bytes.
    pub fn put_all(&mut self, bytes: &[u8])
        ensures { self.new ≡ put_bytes bytes.now self.old }
    {
        for byte in bytes {
            self.put(*byte);
        }
    }

    // What stands before the body of a frame: the length of all that follows it, and the frame's kind.
    pub fn put_frame_head(&mut self, length: u32, kind: u16)
        ensures { self.new ≡ put_bytes (little_endian 4 length ++ little_endian 2 kind) self.old }
    {
        self.put_all(&length.to_le_bytes());
        self.put_all(&kind.to_le_bytes());
    }
}
