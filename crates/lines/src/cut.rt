// The bytes of an input that are looked at, and its first line.
ghost use Rattle.std.specs.Prelude.{◌≡◌, ◌<◌, [], ◌∷◌, length, take, IfSome, MatchOption, ◌==◌, position};
ghost use Rattle.lines.specs.Cutting.{newline, most_input, lines_of};

// So many bytes of an input are looked at.
pub const MOST_INPUT: usize = 65536;

// The byte that ends a line.
const NEWLINE: u8 = b'\n';

// The first 65,536 bytes of an input, or all where there are fewer.
pub fn first_bytes(input: &[u8]) -> &[u8]
    ensures { result.now ≡ take most_input input.now }
{
    input.get(..MOST_INPUT).unwrap_or(input)
}

// Where the first newline stands.
fn first_newline(input: &[u8]) -> Option<usize>
    ensures { result ≡ position (λ b. b == newline) input.now }
{
    input.iter().position(|b| *b == NEWLINE)
}

// The first line without its newline, and what stands behind that newline.
pub fn first_line(input: &[u8]) -> Option<(&[u8], &[u8])>
    ensures value { MatchOption result (lines_of input.now ≡ []) (λ p. lines_of input.now ≡ p.0.now ∷ lines_of p.1.now) }
    ensures bound { IfSome result (λ p. length p.1.now < length input.now) }
{
    match first_newline(input) {
        Some(n) => Some((&input[..n], &input[n + 1..])),
        None if input.is_empty() => None,
        None => Some((input, &[])),
    }
}
