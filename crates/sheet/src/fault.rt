ghost use Rattle.std.specs.Prelude.{◌≡◌, Some};
ghost use Rattle.sheet.specs.declared.fault.SheetFault.TheVariants.{Refused};
ghost use Rattle.sheet.specs.Faults.{number_of, layer_of, spot_of};
ghost use Rattle.sheet.specs.Texts.{layer_text, spot_text, fault_text};

use code::fault::CodeFault;
use std::fmt;

// A place in the text: its line, from 1, and its byte, from 0.
#[derive(Clone, Copy, PartialEq, Eq, Debug)]
pub struct Place {
    pub line: usize,
    pub byte: usize,
}

// Why a sheet is refused.
#[derive(Clone, Copy, PartialEq, Eq, Debug)]
pub enum SheetFault {
    // The text ends before a due line or its line feed, or goes on after the last.
    Ends(Place),
    // The line's letter or its number of fields is not due.
    NotDue(Place),
    // A field is no number as numbers are written.
    NotWritten(Place),
    // A number is out of its range.
    OutOfRange(Place),
    // The record's table has no room left.
    Full(Place),
    // The tables are no code.
    Refused(CodeFault),
}

// What a fault is a fault of.
#[derive(Clone, Copy, PartialEq, Eq, Debug)]
pub enum Layer {
    Text,
    Record,
    Code,
}

// Where a fault lies: in the text, or at a position of the tables.
#[derive(Clone, Copy, PartialEq, Eq, Debug)]
pub enum Spot {
    Text(Place),
    Table(usize),
}

impl SheetFault {
    // The fault's number, 10 to 17.
    // Stays (rule): each case holds its place, and an enum whose cases hold something takes no numbers as values.
    pub fn number(self) -> u8
        ensures answer { result ≡ number_of self }
    {
        match self {
            SheetFault::Ends(_) => 16,
            SheetFault::NotDue(_) => 10,
            SheetFault::NotWritten(_) => 11,
            SheetFault::OutOfRange(_) => 12,
            SheetFault::Full(_) => 17,
            SheetFault::Refused(fault) => fault.number(),
        }
    }

    // What it is a fault of.
    pub fn layer(self) -> Layer
        ensures answer { result ≡ layer_of self }
    {
        match self {
            SheetFault::Ends(_) | SheetFault::NotDue(_) | SheetFault::NotWritten(_) => Layer::Text,
            SheetFault::OutOfRange(_) | SheetFault::Full(_) => Layer::Record,
            SheetFault::Refused(_) => Layer::Code,
        }
    }

    // Where it lies: of the field for a number, else of the line's start, or a position of the tables.
    pub fn spot(self) -> Spot
        ensures answer { result ≡ spot_of self }
    {
        match self {
            SheetFault::Ends(place)
            | SheetFault::NotDue(place)
            | SheetFault::NotWritten(place)
            | SheetFault::OutOfRange(place)
            | SheetFault::Full(place) => Spot::Text(place),
            SheetFault::Refused(fault) => Spot::Table(fault.place()),
        }
    }
}

impl From<CodeFault> for SheetFault {
    ghost from_gives = { λ fault told. told ≡ Refused fault };

    fn from(fault: CodeFault) -> SheetFault {
        Self::Refused(fault)
    }
}

// Stays (plain): no derive prints a case's name in small letters.
impl fmt::Display for Layer {
    ghost output = { λ layer. Some (layer_text layer) };

    fn fmt<W: fmt::Write>(&self, f: &mut fmt::Formatter<W>) -> fmt::Result {
        f.write_str(match self {
            Layer::Text => "text",
            Layer::Record => "record",
            Layer::Code => "code",
        })
    }
}

impl fmt::Display for Spot {
    ghost output = { λ spot. Some (spot_text spot) };

    fn fmt<W: fmt::Write>(&self, f: &mut fmt::Formatter<W>) -> fmt::Result {
        match *self {
            Spot::Text(Place { line, byte }) => write!(f, "{line}\t{byte}"),
            Spot::Table(position) => write!(f, "{position}"),
        }
    }
}

impl fmt::Display for SheetFault {
    ghost output = { λ fault. Some (fault_text fault) };

    fn fmt<W: fmt::Write>(&self, f: &mut fmt::Formatter<W>) -> fmt::Result {
        let number = self.number();
        let layer = self.layer();
        let spot = self.spot();
        write!(f, "{number}\t{layer}\t{spot}")
    }
}
