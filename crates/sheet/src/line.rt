ghost use Rattle.std.specs.Prelude.{◌≡◌, ◌≤◌, ◌&&◌, ◌==◌, length, IfOk};
ghost use Rattle.sheet.specs.Pieces.{fields};
ghost use Rattle.sheet.specs.Words.{seen};
ghost use Rattle.sheet.specs.Lines.{arity, is_due, kind_due, header_of, edge_of, entry_of, header_from, edge_from, entry_from, header_line, record_line};

use crate::fault::SheetFault;
use crate::field::Line;
use crate::token::{Kind, Part};
use code::table::{Edge, Entry, Header};

// What may stand on a line.
#[derive(Clone, Copy)]
pub enum Due {
    Header,
    Edge,
    EdgeOrEntry,
    EntryOrEnd,
}

// What a line below the header says.
#[derive(Clone, Copy)]
pub enum Record {
    Edge(Edge),
    Entry(Entry),
    End,
}

// How many fields a record of a kind has, its letter among them.
// Stays (plain): as the cases' own values the numbers would be read by `as`, which does not say what they count.
fn fields_of(kind: Kind) -> usize
    ensures { result ≡ arity kind }
{
    match kind {
        Kind::Header => 6,
        Kind::Edge => 4,
        Kind::Entry => 3,
        Kind::End => 1,
    }
}

fn is_due(due: Due, kind: Kind) -> bool
    ensures { result ≡ is_due due kind }
{
    matches!(
        (due, kind),
        (Due::Header, Kind::Header)
            | (Due::Edge | Due::EdgeOrEntry, Kind::Edge)
            | (Due::EdgeOrEntry | Due::EntryOrEnd, Kind::Entry)
            | (Due::EntryOrEnd, Kind::End)
    )
}

// Whether a kind is due, and the line has its number of fields.
fn fits(line: Line, due: Due, kind: Kind) -> bool
    ensures { result ≡ (is_due due kind && length (fields line.entry.bytes.now) == arity kind) }
{
    is_due(due, kind) && line.count() == fields_of(kind)
}

// The kind of the line's record; `NotDue` unless it is due and has its number of fields.
// Stays (proof): with `filter` and `ok_or` the answer was not proved to be the definition's.
// Inlined, since a call would hand each line over in memory.
#[inline]
#[tactic(auto, unfolding(crate::specs::Lines::kind_due))]
fn kind_due(line: Line, due: Due) -> Result<Kind, SheetFault>
    ensures { result ≡ kind_due due line.entry.place (fields line.entry.bytes.now) }
{
    match line.part(0).kind() {
        Some(kind) if fits(line, due, kind) => Ok(kind),
        _ => Err(SheetFault::NotDue(line.place)),
    }
}

fn header_of(q: &Part, n: &Part, m: &Part, c: &Part, l: &Part) -> Result<Header, SheetFault>
    ensures answer { result ≡ header_of (seen q.now) (seen n.now) (seen m.now) (seen c.now) (seen l.now) }
    ensures small { IfOk result (λ h. h.order ≤ 64) }
{
    let order = q.number()?;
    let columns = n.number()?;
    let rows = m.number()?;
    let ceiling = c.ceiling()?;
    let limit = l.number()?;
    q.ranged(2, 65, order)?;
    n.ranged(2, 257, columns)?;
    m.ranged(1, 129, rows)?;
    m.ranged(1, columns, rows)?;
    c.ranged(1, 1024, ceiling)?;
    l.ranged(1, 201, limit)?;
    Ok(Header {
        order,
        columns,
        rows,
        ceiling,
        limit,
    })
}

// Stays (plain): the bound on the order is asked from here up to the reader of lines, for the one cast below. A type
// for such headers would put a struct member between each answer and the definition that it states.
fn edge_of(header: Header, r: &Part, c: &Part, k: &Part) -> Result<Edge, SheetFault>
    requires { header.order ≤ 64 }
    ensures { result ≡ edge_of header (seen r.now) (seen c.now) (seen k.now) }
{
    let row = r.number()?;
    let column = c.number()?;
    let coefficient = k.number()?;
    r.ranged(0, header.rows, row)?;
    c.ranged(0, header.columns, column)?;
    k.ranged(1, header.order, coefficient)?;
    Ok(Edge {
        row,
        column,
        coefficient: coefficient as u8,
    })
}

fn entry_of(header: Header, c: &Part, r: &Part) -> Result<Entry, SheetFault>
    ensures { result ≡ entry_of header (seen c.now) (seen r.now) }
{
    let column = c.number()?;
    let row = r.number()?;
    c.ranged(0, header.columns, column)?;
    r.ranged(0, header.rows, row)?;
    Ok(Entry { column, row })
}

fn header_from(line: Line) -> Result<Header, SheetFault>
    requires { length (fields line.bytes.now) ≡ 6 }
    ensures answer { result ≡ header_from line.entry.place (fields line.entry.bytes.now) }
    ensures small { IfOk result (λ h. h.order ≤ 64) }
{
    let (_, rest) = line.split_first();
    let (q, rest) = rest.split_first();
    let (n, rest) = rest.split_first();
    let (m, rest) = rest.split_first();
    let (c, rest) = rest.split_first();
    header_of(&q, &n, &m, &c, &rest.part(0))
}

fn edge_from(line: Line, header: Header) -> Result<Edge, SheetFault>
    requires count { length (fields line.bytes.now) ≡ 4 }
    requires small { header.order ≤ 64 }
    ensures { result ≡ edge_from header line.entry.place (fields line.entry.bytes.now) }
{
    let (_, rest) = line.split_first();
    let (row, rest) = rest.split_first();
    let (column, rest) = rest.split_first();
    edge_of(header, &row, &column, &rest.part(0))
}

fn entry_from(line: Line, header: Header) -> Result<Entry, SheetFault>
    requires { length (fields line.bytes.now) ≡ 3 }
    ensures { result ≡ entry_from header line.entry.place (fields line.entry.bytes.now) }
{
    let (_, rest) = line.split_first();
    let (column, rest) = rest.split_first();
    entry_of(header, &column, &rest.part(0))
}

// The header that a sheet begins with.
pub fn header_line(line: Line) -> Result<Header, SheetFault>
    ensures answer { result ≡ header_line line.entry.place (fields line.entry.bytes.now) }
    ensures small { IfOk result (λ h. h.order ≤ 64) }
{
    let _ = kind_due(line, Due::Header)?;
    header_from(line)
}

// The record of a later line.
pub fn record_line(line: Line, due: Due, header: Header) -> Result<Record, SheetFault>
    requires { header.order ≤ 64 }
    ensures { result ≡ record_line due header line.entry.place (fields line.entry.bytes.now) }
{
    match kind_due(line, due)? {
        Kind::Header => Err(SheetFault::NotDue(line.place)),
        Kind::Edge => Ok(Record::Edge(edge_from(line, header)?)),
        Kind::Entry => Ok(Record::Entry(entry_from(line, header)?)),
        Kind::End => Ok(Record::End),
    }
}
