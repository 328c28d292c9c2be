// Encoding, extracting and sampling.
use crate::calls::{Coding, Sampling};
use crate::replies::{Reply, Stop};
use code::code::Code;
use encoder::refusal::CoderRefusal;
use field::Field;
use sampling::channel_costs;
use std::alloc::Global;

// Lends a scratch of M × N bytes and a target of the size due, unless the line says how many.
fn coded<F: FnOnce(&mut [u8], &mut [u8]) -> Result<(), CoderRefusal>>(
    heap: Global,
    code: &Code,
    coding: &Coding,
    due: usize,
    step: F,
) -> Result<Reply, Stop>
    requires { F.IsAlwaysCallable step }
{
    let header = code.header();
    let all = header.rows as usize * header.columns as usize;
    let mut scratch = vec![in heap; 0u8; coding.scratch.unwrap_or(all)]?;
    let mut target = vec![in heap; 0u8; coding.size.unwrap_or(due)]?;
    step(scratch.as_mut_slice(), target.as_mut_slice())?;
    Ok(Reply::Symbols(target))
}

pub fn encode<F: Field>(
    heap: Global,
    field: &F,
    code: &Code,
    coding: &Coding,
) -> Result<Reply, Stop> {
    let due = code.header().columns as usize;
    coded(heap, code, coding, due, |scratch, word| {
        encoder::encode(field, code, coding.given.as_slice(), scratch, word)
    })
}

pub fn extract<F: Field>(
    heap: Global,
    field: &F,
    code: &Code,
    coding: &Coding,
) -> Result<Reply, Stop> {
    let header = code.header();
    let due = header.columns.saturating_sub(header.rows) as usize;
    coded(heap, code, coding, due, |scratch, symbols| {
        encoder::extract(field, code, coding.given.as_slice(), scratch, symbols)
    })
}

// As many costs as the samples have codes; more than 6 samples are refused with any.
fn costs_due(samples: usize) -> usize {
    if samples > 6 { 64 } else { 1 << samples }
}

pub fn sample(heap: Global, sampling: &Sampling) -> Result<Reply, Stop> {
    let size = sampling.size.unwrap_or(costs_due(sampling.samples.len()));
    let mut costs = vec![in heap; 0u16; size]?;
    channel_costs(
        sampling.settings,
        sampling.ceiling,
        sampling.samples.as_slice(),
        costs.as_mut_slice(),
    )?;
    Ok(Reply::Costs(costs))
}
