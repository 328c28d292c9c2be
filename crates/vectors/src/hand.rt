// What is in hand, and from a line to its answer.
use crate::calls::{Call, CodeCall, FieldCall, Join};
use crate::coding;
use crate::frames::Frame;
use crate::joining::Joining;
use crate::reading::call_of;
use crate::replies::{Reply, Stop};
use crate::sheets::{Tables, take_sheet};
use anyfield::AnyField;
use binary::Binary;
use code::code::Code;
use field::Field;
use joiner::{Full, Joiner, Selective};
use prime::Prime;
use std::alloc::Global;
use std::io::BufRead;

// The field, the joiner, the tables of the code, and the frame.
#[derive(Drop)]
pub struct Hand {
    heap: Global,
    field: Option<AnyField>,
    joining: Joining,
    tables: Option<Tables>,
    frame: Frame,
}

impl Hand {
    pub fn empty(heap: Global) -> Hand {
        Hand {
            heap,
            field: None,
            joining: Joining::Full,
            tables: None,
            frame: Frame::empty(),
        }
    }

    fn field(&self) -> Result<&AnyField, Stop> {
        self.field.as_ref().ok_or(Stop::Lacks)
    }

    fn take_field(&mut self, field: AnyField) -> Result<Reply, Stop> {
        self.field = Some(field);
        Ok(Reply::Done)
    }

    fn join(&self, join: &Join) -> Result<Reply, Stop> {
        let field = self.field()?;
        let size = join.size.unwrap_or(field.order() as usize);
        let mut joined = vec![in self.heap; 0u16; size]?;
        let pairs = self.joining.join(
            field,
            join.ceiling,
            join.left.as_slice(),
            join.right.as_slice(),
            joined.as_mut_slice(),
        )?;
        Ok(Reply::Joined(pairs, joined))
    }

    // Takes a sheet's lines from the input; the tables of an accepted one replace those in use.
    fn take_sheet<R: BufRead>(&mut self, input: &mut R) -> Result<Reply, Stop> {
        let verdict = take_sheet(self.heap, input)?;
        Ok(Reply::Sheet(verdict.map(|(numbers, tables)| {
            self.tables = Some(tables);
            numbers
        })))
    }

    // A call on the code in use.
    // Stays (speed): the kinds of field and joiner are asked once a call here and in `over_field`: asked at each sum and join, as a value of
    // either kind would be, rounds took up to 2.55 times as long and encoding 1.75 times.
    fn on_code(&mut self, call: &CodeCall) -> Result<Reply, Stop> {
        let tables = self.tables.as_ref().ok_or(Stop::Lacks)?;
        let mut code = Code::builtin();
        tables.admit_into(&mut code)?;
        let heap = self.heap;
        let joining = self.joining;
        let frame = &mut self.frame;
        match call {
            CodeCall::Load { column, values } => frame.load(&code, *column, values.as_slice()),
            CodeCall::Start => frame.start(&code),
            CodeCall::Read { column, size } => frame.read(heap, &code, *column, *size),
            CodeCall::OverField(call) => match self.field.as_ref().ok_or(Stop::Lacks)? {
                AnyField::Prime(field) => over_field(heap, field, joining, &code, frame, call),
                AnyField::Binary(field) => over_field(heap, field, joining, &code, frame, call),
                AnyField::Tower(field) => over_field(heap, field, joining, &code, frame, call),
            },
        }
    }

    // Carries a call out.
    fn perform<R: BufRead>(&mut self, call: &Call, input: &mut R) -> Result<Reply, Stop> {
        match call {
            Call::Prime(q) => self.take_field(AnyField::Prime(Prime::new(*q)?)),
            Call::Binary(p, polynomial) => {
                self.take_field(AnyField::Binary(Binary::new(*p, *polynomial)?))
            }
            Call::Tower(u, v) => {
                let tower = self.field()?.raised(*u, *v)?;
                self.take_field(tower)
            }
            Call::Sum(a, b) => Ok(Reply::Code(self.field()?.sum(*a, *b))),
            Call::Product(a, b) => Ok(Reply::Code(self.field()?.product(*a, *b))),
            Call::Opposite(a) => Ok(Reply::Code(self.field()?.opposite(*a))),
            Call::Inverse(a) => Ok(Reply::Code(self.field()?.inverse(*a))),
            Call::Joiner(joining) => {
                self.joining = *joining;
                Ok(Reply::Done)
            }
            Call::Join(join) => self.join(join),
            Call::Sheet => self.take_sheet(input),
            Call::Area { words, fill } => self.frame.lend(self.heap, *words, *fill),
            Call::Sample(sampling) => coding::sample(self.heap, sampling),
            Call::OnCode(call) => self.on_code(call),
        }
    }

    // What a line is answered; a sheet's lines are taken from the input.
    pub fn answer<R: BufRead>(&mut self, line: &[u8], input: &mut R) -> Result<Reply, Stop> {
        let call = call_of(self.heap, line)?;
        self.perform(&call, input)
    }
}

// A call on the code over a field, and perhaps on the frame.
fn over_field<F: Field>(
    heap: Global,
    field: &F,
    joining: Joining,
    code: &Code,
    frame: &mut Frame,
    call: &FieldCall,
) -> Result<Reply, Stop> {
    match call {
        FieldCall::Open => frame.open(field, code),
        FieldCall::Round => match joining {
            Joining::Full => frame.round(field, &Full, code),
            Joining::Selective => frame.round(field, &Selective, code),
        },
        FieldCall::Conclude(size) => frame.conclude(heap, field, code, *size),
        FieldCall::Encode(coding) => coding::encode(heap, field, code, coding),
        FieldCall::Extract(coding) => coding::extract(heap, field, code, coding),
    }
}
