use crate::stop::Stop;
use crate::{meets, tasks};
use mv_base::Memory;
use mv_cover::CoverStop;
use mv_kernels::KernelStop;
use std::alloc::Global;
use std::fmt;

/// A call that is measured.
#[derive(Clone, Copy, Debug, PartialEq, Eq)]
enum Call {
    Covers,
    Absorb,
    Complement,
    Kernels,
    Meet,
}

impl Call {
    fn parse(word: &str) -> Option<Call> {
        match word {
            "covers" => Some(Call::Covers),
            "absorb" => Some(Call::Absorb),
            "complement" => Some(Call::Complement),
            "kernels" => Some(Call::Kernels),
            "meet" => Some(Call::Meet),
            _ => None,
        }
    }
}

impl fmt::Display for Call {
    fn fmt<W: fmt::Write>(&self, f: &mut fmt::Formatter<W>) -> fmt::Result {
        match self {
            Call::Covers => write!(f, "covers"),
            Call::Absorb => write!(f, "absorb"),
            Call::Complement => write!(f, "complement"),
            Call::Kernels => write!(f, "kernels"),
            Call::Meet => write!(f, "meet"),
        }
    }
}

/// One call on input of this size, drawn from this seed.
#[derive(Clone, Copy, Debug)]
pub struct Task {
    call: Call,
    size: u32,
    seed: u64,
}

/// What a call found.
#[derive(Clone, Copy, Debug, PartialEq, Eq)]
pub enum Found {
    Truth(bool),
    Lines(usize),
    Cubes(usize),
    Nodes(u32),
    Wide,
    Kernels(usize),
    TooMany,
}

impl Task {
    /// The task that three words name.
    pub fn parse(words: &[String]) -> Result<Task, Stop> {
        let [call, size, seed] = words else {
            return Err(Stop::Words);
        };
        let Some(call) = Call::parse(call.as_str()) else {
            return Err(Stop::Words);
        };
        let (Ok(size), Ok(seed)) = (size.parse::<u32>(), seed.parse::<u64>()) else {
            return Err(Stop::Words);
        };
        Ok(Task { call, size, seed })
    }

    /// Does the task.
    pub fn run(self, alloc: Global) -> Result<Found, Memory> {
        match self.call {
            Call::Covers => Ok(Found::Truth(tasks::covers(alloc, self.size, self.seed)?)),
            Call::Absorb => Ok(Found::Lines(tasks::absorb(alloc, self.size, self.seed)?)),
            Call::Meet => Ok(Found::Nodes(meets::meet(alloc, self.size, self.seed)?)),
            Call::Complement => match tasks::complement(alloc, self.size, self.seed) {
                Ok(cubes) => Ok(Found::Cubes(cubes)),
                Err(CoverStop::Wide) => Ok(Found::Wide),
                Err(CoverStop::Memory) => Err(Memory),
            },
            Call::Kernels => match tasks::kernels(alloc, self.size, self.seed) {
                Ok(kernels) => Ok(Found::Kernels(kernels)),
                Err(KernelStop::TooMany) => Ok(Found::TooMany),
                Err(KernelStop::Memory) => Err(Memory),
            },
        }
    }
}

impl fmt::Display for Task {
    fn fmt<W: fmt::Write>(&self, f: &mut fmt::Formatter<W>) -> fmt::Result {
        write!(f, "{} {} {}", self.call, self.size, self.seed)
    }
}

impl fmt::Display for Found {
    fn fmt<W: fmt::Write>(&self, f: &mut fmt::Formatter<W>) -> fmt::Result {
        match self {
            Found::Truth(truth) => write!(f, "{truth}"),
            Found::Lines(lines) => write!(f, "{lines} lines"),
            Found::Cubes(cubes) => write!(f, "{cubes} cubes"),
            Found::Nodes(nodes) => write!(f, "{nodes} nodes"),
            Found::Wide => write!(f, "wide"),
            Found::Kernels(kernels) => write!(f, "{kernels} kernels"),
            Found::TooMany => write!(f, "too many"),
        }
    }
}
