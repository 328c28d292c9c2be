ghost use Rattle.std.specs.Prelude.{◌≡◌, ℕ, ◌+◌, ◌^◌, ◌<◌, ◌≤◌, length, slice_index};
ghost use Rattle.sheet.specs.Pieces.{fields};
ghost use Rattle.sheet.specs.Words.{word, word_of, bytes_of, seen, kind_of, record_kind};
ghost use Rattle.sheet.specs.Lines.{cell, cell_at, as_number, as_ceiling, numeral, ceiling_of, in_range, ranged};

use crate::fault::{Place, SheetFault};
use crate::number::decimal;
use crate::pieces::{pieces, until};
use crate::token::{Kind, Part, Token};

// A field by its kind; what is neither a letter nor a dash is held to be a number.
#[tactic(auto, unfolding(crate::specs::Words::word_of))]
fn token<'a>(bytes: &'a [u8]) -> Token<'a>
    ensures { word result ≡ word_of bytes.now }
{
    match bytes {
        [b'-'] => Token::Dash(bytes),
        [b'A'..=b'Z'] => Token::Letter(bytes),
        _ => Token::Number(bytes),
    }
}

fn in_range(low: u16, limit: u16, n: u16) -> bool
    ensures { result ≡ in_range low limit n }
{
    (low..limit).contains(&n)
}

// A line's bytes, and where it starts in the text.
#[derive(Clone, Copy)]
pub struct Line<'a> {
    pub bytes: &'a [u8],
    pub place: Place,
    ghost ends: { place.byte + length bytes.now + 1 < 2 ^ 64 },
}

impl<'a> Line<'a> {
    // How many fields the line has.
    pub fn count(self) -> usize
        ensures { result ≡ length (fields self.entry.bytes.now) }
    {
        pieces(self.bytes, b'\t')
    }

    // The field that starts at a byte of the line.
    pub fn part(self, from: usize) -> Part<'a>
        requires { from ≤ length self.bytes.now }
        ensures { seen result ≡ cell_at self.entry.place self.entry.bytes.now from }
    {
        let rest = &self.bytes[from..];
        let n = until(rest, b'\t');
        Part {
            token: token(&rest[0..n]),
            place: Place {
                line: self.place.line,
                byte: self.place.byte + from,
            },
        }
    }

    // The line's first field, and the line from the next one on.
    pub fn split_first(self) -> (Part<'a>, Self)
        requires { 1 < length (fields self.bytes.now) }
        ensures first { seen result.0 ≡ cell self.entry.place (fields self.entry.bytes.now) 0 }
        ensures count { length (fields result.1.bytes.now) + 1 ≡ length (fields self.entry.bytes.now) }
        ensures rest { (i : ℕ) → cell result.1.place (fields result.1.bytes.now) i ≡ cell self.entry.place (fields self.entry.bytes.now) (i + 1) }
    {
        let first = self.part(0);
        let next = first.len() + 1;
        let rest = Line {
            bytes: &self.bytes[next..],
            place: Place {
                line: self.place.line,
                byte: self.place.byte + next,
            },
        };
        (first, rest)
    }
}

impl Part<'_> {
    // How many bytes the field has.
    fn len(&self) -> usize
        ensures { result ≡ length (bytes_of (seen self.now).word) }
    {
        match self.token {
            Token::Letter(bytes) | Token::Number(bytes) | Token::Dash(bytes) => bytes.len(),
        }
    }

    fn plain(&self) -> Option<u16>
        ensures { result ≡ as_number (seen self.now).word }
    {
        match self.token {
            Token::Letter(_) => None,
            Token::Number(bytes) => decimal(bytes),
            Token::Dash(_) => None, // only a ceiling may be a dash
        }
    }

    fn plain_or_dash(&self) -> Option<u16>
        ensures { result ≡ as_ceiling (seen self.now).word }
    {
        match self.token {
            Token::Dash(_) => Some(31),
            _ => self.plain(),
        }
    }

    // The number that the field writes; `NotWritten` if it writes none.
    pub fn number(&self) -> Result<u16, SheetFault>
        ensures { result ≡ numeral (seen self.now) }
    {
        self.plain().ok_or(SheetFault::NotWritten(self.place))
    }

    // The same of a ceiling, where a dash says 31.
    // Stays (plain): shared with the one above it would be a third function that takes what was read, for one line.
    pub fn ceiling(&self) -> Result<u16, SheetFault>
        ensures { result ≡ ceiling_of (seen self.now) }
    {
        self.plain_or_dash()
            .ok_or(SheetFault::NotWritten(self.place))
    }

    // `OutOfRange` unless the field's number n is at least low and below limit.
    // Stays (plain): a bool turns into a Result by no method of its own, and `then_some(()).ok_or(..)` hides the test.
    #[tactic(auto, unfolding(crate::specs::Lines::ranged))]
    pub fn ranged(&self, low: u16, limit: u16, n: u16) -> Result<(), SheetFault>
        ensures { result ≡ ranged (seen self.now) low limit n }
    {
        if in_range(low, limit, n) {
            Ok(())
        } else {
            Err(SheetFault::OutOfRange(self.place))
        }
    }

    // The record that the field's letter begins.
    pub fn kind(&self) -> Option<Kind>
        ensures { result ≡ record_kind (seen self.now).word }
    {
        match self.token {
            Token::Letter(bytes) => kind_of(bytes),
            _ => None,
        }
    }
}

fn kind_of(bytes: &[u8]) -> Option<Kind>
    ensures { result ≡ kind_of (slice_index bytes.now 0) }
{
    match *bytes.first()? as char {
        'C' => Some(Kind::Header),
        'E' => Some(Kind::Edge),
        'K' => Some(Kind::Entry),
        'Z' => Some(Kind::End),
        _ => None,
    }
}
