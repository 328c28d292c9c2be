ghost use Rattle.std.specs.Prelude.{◌≡◌, ◌^◌, length};
ghost use Rattle.std.specs.Option.{unwrap_or};
ghost use Rattle.linked.specs.Frames.{header_in, decodes};

use crate::decode::{Decoded, Decoder};
use binary::Binary;
use code::code::Code;
use code::code::admit::admit;
use code::table::{Edge, Entry, Header};
use field::Field;
use joiner::{Full, Selective};

// The field's degree and polynomial, the code's numbers, and which joiner.
// Stays (rule): it is a struct of C, where `selective` is a bool; an enum there could hold a value that is no case.
#[repr(C)]
#[derive(Clone, Copy)]
pub struct Shape {
    pub polynomial: u16,
    pub columns: u16,
    pub rows: u16,
    pub ceiling: u16,
    pub limit: u16,
    pub degree: u8,
    pub selective: bool,
}

impl Shape {
    // The numbers of a code over a field of this order.
    fn header(&self, order: u8) -> Header
        ensures { order ≡ 2 ^ self.now.degree → result ≡ header_in self.now }
    {
        Header {
            order: u16::from(order),
            columns: self.columns,
            rows: self.rows,
            ceiling: self.ceiling,
            limit: self.limit,
        }
    }
}

// Decodes as many frames as there are costs, words and outcomes for, and tells how many; none if the field or the code is refused.
// Stays (rule): the lent parts come from C one by one, and are handed on as they come.
fn decoded_by<'a>(
    shape: &Shape,
    edges: &'a [Edge],
    entries: &'a [Entry],
    costs: &[u16],
    area: &mut [u16],
    distances: &mut [u16],
    words: &mut [u8],
    decoded: &mut [Decoded],
) -> Option<usize>
    ensures { unwrap_or result 0 ≡ decodes shape.now edges.now entries.now (length costs.now) (length words.old) (length decoded.old) }
{
    let field = &Binary::new(shape.degree, shape.polynomial).ok()?;
    let mut code = Code::builtin();
    admit(shape.header(field.order()), edges, entries, &mut code).ok()?;
    let code = &code;
    // Stays (plain): the joiners are two types, so that a frame never asks which it is; a value of either would.
    Some(if shape.selective {
        let joiner = &Selective;
        Decoder {
            field,
            joiner,
            code,
        }
        .batch(costs, area, distances, words, decoded)
    } else {
        let joiner = &Full;
        Decoder {
            field,
            joiner,
            code,
        }
        .batch(costs, area, distances, words, decoded)
    })
}

// The same for C, with 0 for none.
// The area is at work, and `distances` holds those of the last frame.
#[unsafe(no_mangle)]
pub extern "C" fn dizmulec_decode<'a>(
    shape: &Shape,
    edges: &'a [Edge],
    entries: &'a [Entry],
    costs: &[u16],
    area: &mut [u16],
    distances: &mut [u16],
    words: &mut [u8],
    decoded: &mut [Decoded],
) -> usize
    ensures answer { result ≡ decodes shape.now edges.now entries.now (length costs.now) (length words.old) (length decoded.old) }
{
    decoded_by(
        shape, edges, entries, costs, area, distances, words, decoded,
    )
    .unwrap_or(0)
}
