// What a call answers.
use crate::lists::Listed;
use code::numbers::Numbers;
use due::Told;
use encoder::refusal::CoderRefusal;
use field::FieldRefusal;
use frame::FrameRefusal;
use joiner::JoinRefusal;
use sampling::SampleRefusal;
use sheet::fault::SheetFault;
use std::alloc::{AllocError, AllocFailed};
use std::fmt::{self, Display};

// A granted call, or a sheet's verdict.
#[derive(Drop)]
pub enum Reply {
    Done,
    Code(Option<u8>),
    Joined(u32, Vec<u16>),
    Sheet(Result<Numbers, SheetFault>),
    Round(Told),
    Column(u8, Vec<u16>),
    Concluded(u16, Vec<u8>),
    Costs(Vec<u16>),
    Symbols(Vec<u8>),
}

// Its fields are parted by tabs and its numbers by spaces.
impl Display for Reply {
    fn fmt<W: fmt::Write>(&self, f: &mut fmt::Formatter<W>) -> fmt::Result {
        match self {
            Reply::Done => write!(f, "ok"),
            Reply::Code(Some(code)) => write!(f, "ok\t{code}"),
            Reply::Code(None) => write!(f, "none"),
            Reply::Joined(pairs, costs) => write!(f, "ok\t{pairs}\t{}", Listed(costs.as_slice())),
            Reply::Sheet(Ok(numbers)) => write!(f, "ok\t{numbers}"),
            Reply::Sheet(Err(fault)) => write!(f, "no\t{fault}"),
            Reply::Round(told) => write!(
                f,
                "ok\t{}\t{}\t{}",
                told.rounds, told.failing, told.pairs
            ),
            Reply::Column(symbol, distances) => {
                write!(f, "ok\t{symbol}\t{}", Listed(distances.as_slice()))
            }
            Reply::Concluded(rounds, word) => write!(
                f,
                "ok\t{rounds}\t{}",
                Listed(word.as_slice())
            ),
            Reply::Costs(costs) => write!(f, "ok\t{}", Listed(costs.as_slice())),
            Reply::Symbols(symbols) => write!(f, "ok\t{}", Listed(symbols.as_slice())),
        }
    }
}

// A refusal of one of the library's calls.
#[derive(Clone, Copy)]
pub enum Refusal {
    Field(FieldRefusal),
    Join(JoinRefusal),
    Frame(FrameRefusal),
    Coder(CoderRefusal),
    Sample(SampleRefusal),
}

impl Refusal {
    fn number(self) -> u8 {
        match self {
            Refusal::Field(refusal) => refusal.number(),
            Refusal::Join(refusal) => refusal.number(),
            Refusal::Frame(refusal) => refusal.number(),
            Refusal::Coder(refusal) => refusal.number(),
            Refusal::Sample(refusal) => refusal.number(),
        }
    }
}

// Why a line has no such reply: it is no call, something is not in hand, the call is refused, or memory is out.
#[derive(Clone, Copy)]
pub enum Stop {
    Bad,
    Lacks,
    Refused(Refusal),
    Memory,
}

impl Display for Stop {
    fn fmt<W: fmt::Write>(&self, f: &mut fmt::Formatter<W>) -> fmt::Result {
        match self {
            Stop::Bad => write!(f, "bad"),
            Stop::Lacks => write!(f, "lacks"),
            Stop::Refused(refusal) => write!(f, "no\t{}", refusal.number()),
            Stop::Memory => write!(f, "memory"),
        }
    }
}

impl From<AllocError> for Stop {
    fn from(_error: AllocError) -> Stop {
        Stop::Memory
    }
}

impl<T: Drop> From<AllocFailed<T>> for Stop {
    fn from(_error: AllocFailed<T>) -> Stop {
        Stop::Memory
    }
}

impl<R: Into<Refusal>> From<R> for Stop {
    fn from(refusal: R) -> Stop {
        Stop::Refused(refusal.into())
    }
}

impl From<FieldRefusal> for Refusal {
    fn from(refusal: FieldRefusal) -> Refusal {
        Refusal::Field(refusal)
    }
}

impl From<JoinRefusal> for Refusal {
    fn from(refusal: JoinRefusal) -> Refusal {
        Refusal::Join(refusal)
    }
}

impl From<FrameRefusal> for Refusal {
    fn from(refusal: FrameRefusal) -> Refusal {
        Refusal::Frame(refusal)
    }
}

impl From<CoderRefusal> for Refusal {
    fn from(refusal: CoderRefusal) -> Refusal {
        Refusal::Coder(refusal)
    }
}

impl From<SampleRefusal> for Refusal {
    fn from(refusal: SampleRefusal) -> Refusal {
        Refusal::Sample(refusal)
    }
}
