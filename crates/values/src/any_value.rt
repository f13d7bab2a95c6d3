// What holds of every kind of value, shown once.
ghost use Rattle.std.specs.Prelude.{◌≡◌, if◌then◌else◌};
ghost use Rattle.values.specs.Reencoding.{reencodes};

use crate::value::Value;

// Decodes bytes and encodes the value again: tells whether the bytes are a value's and `out` is as long; if so `out` then equals the bytes, else it is as it was.
pub fn reencode<V: Value>(encoded: &[u8], out: &mut [u8]) -> bool
    ensures told { result ≡ reencodes V.Value encoded.now out.old }
    ensures copied { out.new ≡ (if reencodes V.Value encoded.now out.old then encoded.now else out.old) }
{
    let Ok(value) = V::decode(encoded) else {
        return false;
    };
    value.encode(out)
}
