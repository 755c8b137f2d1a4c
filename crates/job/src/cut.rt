// A text is cut at its marks, and a line into its letter and its numbers.
ghost use Rattle.std.specs.Prelude.{◌≡◌, ◌+◌, ◌<◌, ◌==◌, ◌∷◌, length, position};
ghost use Rattle.job.specs.Lines.{cut, number_of, numbers_of, fields_of};
ghost use Rattle.job.specs.Pieces.{further, rest_length};

const MOST_DIGITS: usize = 13;

// The first piece of a text, and what follows its mark where it has one.
#[derive(Clone, Copy, Debug, PartialEq, Eq)]
pub(crate) struct Cut<'a> {
    pub(crate) piece: &'a [u8],
    pub(crate) rest: Option<&'a [u8]>,
}

// The index of the first mark.
fn first_mark(bytes: &[u8], mark: u8) -> Option<usize>
    ensures { result ≡ position (λ byte. byte == mark) bytes.now }
{
    bytes.iter().position(|byte| *byte == mark)
}

// Not `split`, which does not say whether a mark follows a piece: a line is a piece that a newline ends.
pub(crate) fn cut_first<'a>(bytes: &'a [u8], mark: u8) -> Cut<'a>
    ensures pieces { cut mark bytes.now ≡ result.piece.now ∷ further mark result.rest }
    ensures shorter { rest_length result.rest < length bytes.now + 1 }
{
    match first_mark(bytes, mark) {
        Some(at) => Cut {
            piece: &bytes[..at],
            rest: Some(&bytes[at + 1..]),
        },
        None => Cut {
            piece: bytes,
            rest: None,
        },
    }
}

// The number of a piece that is 1 to 13 digits: so many fit a `u64`.
// Not `parse`, which needs a `str` and takes a sign: a field is read in one pass.
fn number(piece: &[u8]) -> Option<u64>
    ensures { result ≡ number_of piece.now }
{
    if piece.is_empty() || piece.len() > MOST_DIGITS {
        return None;
    }
    let mut value = 0;
    for byte in piece {
        if !byte.is_ascii_digit() {
            return None;
        }
        value = value * 10 + u64::from(*byte - b'0');
    }
    Some(value)
}

// The numbers of the pieces that are left, where these are `N`.
fn numbers<const N: usize>(pieces: Option<&[u8]>) -> Option<[u64; N]>
    ensures { result ≡ numbers_of N (further 44 pieces.entry) }
{
    let mut found = [0; N];
    let mut rest = pieces;
    for place in &mut found {
        let first = cut_first(rest?, b',');
        *place = number(first.piece)?;
        rest = first.rest;
    }
    match rest {
        None => Some(found),
        Some(_) => None,
    }
}

// The numbers of a line that is `letter` and then `N` fields.
pub(crate) fn fields<const N: usize>(line: &[u8], letter: u8) -> Option<[u64; N]>
    ensures { result ≡ fields_of letter N line.now }
{
    let first = cut_first(line, b',');
    match first.piece {
        [byte] if *byte == letter => numbers(first.rest),
        _ => None,
    }
}
