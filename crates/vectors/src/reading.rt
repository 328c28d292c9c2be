// From the fields of a line to a call.
use crate::calls::{Call, CodeCall, Coding, FieldCall, Join, Sampling};
use crate::joining::Joining;
use crate::lists::list;
use crate::replies::Stop;
use notation::{Parts, Written, number};
use sampling::Settings;
use std::alloc::Global;

// The most words or bytes that a line can lend.
const MOST: u32 = 4_194_304;

// The fields of a line, read from the left.
#[derive(Drop)]
struct Fields<'a> {
    heap: Global,
    parts: Parts<'a>,
}

impl<'a> Fields<'a> {
    fn text(&mut self) -> Result<&'a [u8], Stop> {
        self.parts.next().ok_or(Stop::Bad)
    }

    fn value<T: Written>(&mut self) -> Result<T, Stop> {
        self.parts.read().ok_or(Stop::Bad)
    }

    fn list<T: Written>(&mut self) -> Result<Vec<T>, Stop> {
        list(self.heap, self.text()?)
    }

    fn size(&mut self) -> Result<usize, Stop> {
        size(self.text()?)
    }

    // A size that a line may leave out at its end.
    fn last_size(&mut self) -> Result<Option<usize>, Stop> {
        self.parts.next().map(size).transpose()
    }

    fn joining(&mut self) -> Result<Joining, Stop> {
        match self.text()? {
            b"full" => Ok(Joining::Full),
            b"selective" => Ok(Joining::Selective),
            _ => Err(Stop::Bad),
        }
    }

    fn join(&mut self) -> Result<Join, Stop> {
        Ok(Join {
            ceiling: self.value()?,
            left: self.list()?,
            right: self.list()?,
            size: self.last_size()?,
        })
    }

    fn sampling(&mut self) -> Result<Sampling, Stop> {
        Ok(Sampling {
            settings: Settings {
                step: self.value()?,
                scale: self.value()?,
            },
            ceiling: self.value()?,
            samples: self.list()?,
            size: self.last_size()?,
        })
    }

    fn coding(&mut self) -> Result<Coding, Stop> {
        Ok(Coding {
            given: self.list()?,
            scratch: self.last_size()?,
            size: self.last_size()?,
        })
    }

    fn call(&mut self) -> Result<Call, Stop> {
        Ok(match self.text()? {
            b"prime" => Call::Prime(self.value()?),
            b"binary" => Call::Binary(self.value()?, self.value()?),
            b"tower" => Call::Tower(self.value()?, self.value()?),
            b"sum" => Call::Sum(self.value()?, self.value()?),
            b"product" => Call::Product(self.value()?, self.value()?),
            b"opposite" => Call::Opposite(self.value()?),
            b"inverse" => Call::Inverse(self.value()?),
            b"joiner" => Call::Joiner(self.joining()?),
            b"join" => Call::Join(self.join()?),
            b"sheet" => Call::Sheet,
            b"area" => Call::Area {
                words: self.size()?,
                fill: self.value()?,
            },
            b"sample" => Call::Sample(self.sampling()?),
            b"open" => over_field(FieldCall::Open),
            b"load" => Call::OnCode(CodeCall::Load {
                column: self.value()?,
                values: self.list()?,
            }),
            b"start" => Call::OnCode(CodeCall::Start),
            b"round" => over_field(FieldCall::Round),
            b"read" => Call::OnCode(CodeCall::Read {
                column: self.value()?,
                size: self.last_size()?,
            }),
            b"conclude" => over_field(FieldCall::Conclude(self.last_size()?)),
            b"encode" => over_field(FieldCall::Encode(self.coding()?)),
            b"extract" => over_field(FieldCall::Extract(self.coding()?)),
            _ => return Err(Stop::Bad),
        })
    }
}

fn over_field(call: FieldCall) -> Call {
    Call::OnCode(CodeCall::OverField(call))
}

fn size(text: &[u8]) -> Result<usize, Stop> {
    Ok(number(text, MOST).ok_or(Stop::Bad)? as usize)
}

// The call that a line makes, which uses all its fields.
pub fn call_of(heap: Global, line: &[u8]) -> Result<Call, Stop> {
    let parts = Parts::new(line, b'\t');
    let mut fields = Fields { heap, parts };
    let call = fields.call()?;
    // Stays (plain): a field that is left is the fault here, and none is the answer, the other way round than an option.
    match fields.parts.next() {
        Some(_) => Err(Stop::Bad),
        None => Ok(call),
    }
}
