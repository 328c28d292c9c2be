// Lists of values, parted by spaces.
use crate::replies::Stop;
use notation::{Parts, Written};
use std::alloc::Global;
use std::fmt::{self, Display};

// The values that a field holds: none in an empty field.
pub fn list<T: Written>(heap: Global, field: &[u8]) -> Result<Vec<T>, Stop> {
    let mut values = Vec::new(heap);
    if field.is_empty() {
        return Ok(values);
    }
    for text in Parts::new(field, b' ') {
        values.push(T::read(text).ok_or(Stop::Bad)?)?;
    }
    Ok(values)
}

// Values that are printed as a list.
#[derive(Clone, Copy)]
pub struct Listed<'a, T>(pub &'a [T]);

impl<T: Display> Display for Listed<'_, T> {
    fn fmt<W: fmt::Write>(&self, f: &mut fmt::Formatter<W>) -> fmt::Result {
        for (i, value) in self.0.iter().enumerate() {
            if i > 0 {
                f.write_str(" ")?;
            }
            value.fmt(f)?;
        }
        Ok(())
    }
}
