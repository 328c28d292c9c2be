// A frame's area and slip, and the six calls on it.
use crate::replies::{Reply, Stop};
use code::code::Code;
use field::Field;
use frame::{LoadingSlip, NotConcluded, NotStarted, RunningSlip};
use joiner::Joiner;
use std::alloc::Global;

#[derive(Drop)]
pub struct Frame {
    area: Option<Vec<u16>>,
    slip: Option<Slip>,
}

#[derive(Drop)]
enum Slip {
    Loading(LoadingSlip),
    Running(RunningSlip),
}

// Stays (plain): the next five differ in the kind of slip and in how it is lent or taken; one for all would take a closure
// that matches.
fn loading(slip: &Option<Slip>) -> Result<&LoadingSlip, Stop> {
    match slip {
        Some(Slip::Loading(slip)) => Ok(slip),
        _ => Err(Stop::Lacks),
    }
}

fn running(slip: &Option<Slip>) -> Result<&RunningSlip, Stop> {
    match slip {
        Some(Slip::Running(slip)) => Ok(slip),
        _ => Err(Stop::Lacks),
    }
}

fn running_on(slip: &mut Option<Slip>) -> Result<&mut RunningSlip, Stop> {
    match slip {
        Some(Slip::Running(slip)) => Ok(slip),
        _ => Err(Stop::Lacks),
    }
}

// Takes a slip of the kind out of hand; one of the other kind is kept.
fn take_loading(slip: &mut Option<Slip>) -> Result<LoadingSlip, Stop> {
    match slip.take() {
        Some(Slip::Loading(taken)) => Ok(taken),
        other => {
            *slip = other;
            Err(Stop::Lacks)
        }
    }
}

fn take_running(slip: &mut Option<Slip>) -> Result<RunningSlip, Stop> {
    match slip.take() {
        Some(Slip::Running(taken)) => Ok(taken),
        other => {
            *slip = other;
            Err(Stop::Lacks)
        }
    }
}

impl Frame {
    pub fn empty() -> Frame {
        Frame {
            area: None,
            slip: None,
        }
    }

    // Lends a new area, and keeps the slip.
    pub fn lend(&mut self, heap: Global, words: usize, fill: u16) -> Result<Reply, Stop> {
        self.area = Some(vec![in heap; fill; words]?);
        Ok(Reply::Done)
    }

    pub fn open<F: Field>(&mut self, field: &F, code: &Code) -> Result<Reply, Stop> {
        let area = self.area.as_mut().ok_or(Stop::Lacks)?;
        let slip = frame::open(field, code, area.as_mut_slice())?;
        self.slip = Some(Slip::Loading(slip));
        Ok(Reply::Done)
    }

    pub fn load(&mut self, code: &Code, column: u16, values: &[u16]) -> Result<Reply, Stop> {
        let area = self.area.as_mut().ok_or(Stop::Lacks)?;
        let slip = loading(&self.slip)?;
        frame::load(code, slip, area.as_mut_slice(), column, values)?;
        Ok(Reply::Done)
    }

    pub fn start(&mut self, code: &Code) -> Result<Reply, Stop> {
        let area = self.area.as_mut().ok_or(Stop::Lacks)?;
        let slip = take_loading(&mut self.slip)?;
        match frame::start(code, slip, area.as_mut_slice()) {
            Ok(slip) => {
                self.slip = Some(Slip::Running(slip));
                Ok(Reply::Done)
            }
            Err(NotStarted { refusal, slip }) => {
                self.slip = Some(Slip::Loading(slip));
                Err(refusal.into())
            }
        }
    }

    pub fn round<F: Field, J: Joiner>(
        &mut self,
        field: &F,
        joiner: &J,
        code: &Code,
    ) -> Result<Reply, Stop> {
        let area = self.area.as_mut().ok_or(Stop::Lacks)?;
        let slip = running_on(&mut self.slip)?;
        let told = frame::round(field, joiner, code, slip, area.as_mut_slice())?;
        Ok(Reply::Round(told))
    }

    pub fn read(
        &self,
        heap: Global,
        code: &Code,
        column: u16,
        size: Option<usize>,
    ) -> Result<Reply, Stop> {
        let area = self.area.as_ref().ok_or(Stop::Lacks)?;
        let slip = running(&self.slip)?;
        let size = size.unwrap_or(code.header().order as usize);
        let mut distances = vec![in heap; 0u16; size]?;
        let symbol = frame::read(
            code,
            slip,
            area.as_slice(),
            column,
            distances.as_mut_slice(),
        )?;
        Ok(Reply::Column(symbol, distances))
    }

    pub fn conclude<F: Field>(
        &mut self,
        heap: Global,
        field: &F,
        code: &Code,
        size: Option<usize>,
    ) -> Result<Reply, Stop> {
        let area = self.area.as_ref().ok_or(Stop::Lacks)?;
        let size = size.unwrap_or(code.header().columns as usize);
        let mut word = vec![in heap; 0u8; size]?;
        let slip = take_running(&mut self.slip)?;
        match frame::conclude(field, code, slip, area.as_slice(), word.as_mut_slice()) {
            Ok(rounds) => Ok(Reply::Concluded(rounds, word)),
            Err(NotConcluded { refusal, slip }) => {
                self.slip = Some(Slip::Running(slip));
                Err(refusal.into())
            }
        }
    }
}
