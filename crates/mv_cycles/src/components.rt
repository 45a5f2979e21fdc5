//! A guess which nets are above each other: the strongly connected components (Sharir 1981). Nothing is proved of the numbers
//! that come out: who uses them tests what is needed of them.
ghost use Rattle.std.specs.Prelude.{◌≤◌, length};
ghost use Rattle.mv_base.specs.declared.limits.TheConstants.{MAX_NETS};
ghost use Rattle.mv_graph.specs.Nets.{AllBelow};

use crate::lookup::{has_mark, row_of};
use mv_base::{Items, MAX_NETS, Memory, NetId};
use mv_graph::transposed;
use std::alloc::Global;

/// A number for each net. Two nets that are above each other are meant to have the same, and a net a higher one than a column
/// that it isn't above. The time grows with the number of nets and columns.
///
/// A search in depth from each net to its readers leaves a net behind all that are below it and not above it. In the opposite
/// order, then, the nets that each net reaches by its columns are its component and those that have numbers already.
pub fn components(alloc: Global, columns: &[Items<NetId>]) -> Result<Vec<usize>, Memory>
    requires below { AllBelow columns.now }
    requires few { length columns.now ≤ MAX_NETS }
{
    let readers = transposed(alloc, columns)?;
    let mut search = Search::new(alloc, columns.len())?;
    search.go(readers.as_slice())?;
    let mut numbering = Numbering::new(alloc, columns.len())?;
    for net in search.left.iter().rev() {
        numbering.spread(columns, *net)?;
    }
    Ok(numbering.numbers)
}

/// What is to be done yet in a search in depth.
#[derive(Clone, Copy)]
enum Step {
    Enter(NetId),
    Leave(NetId),
}

/// A search in depth.
#[derive(Drop)]
struct Search {
    /// The nets that were entered, by number.
    seen: Vec<bool>,
    /// What is to be done yet, the next step last.
    steps: Vec<Step>,
    /// The nets in the order in which they were left.
    left: Vec<NetId>,
}

impl Search {
    /// Each net is to be entered.
    fn new(alloc: Global, count: usize) -> Result<Self, Memory>
        requires { count ≤ MAX_NETS }
    {
        let mut steps = Vec::new(alloc);
        for number in 0..count {
            steps.push(Step::Enter(NetId(number as u32)))?;
        }
        Ok(Search {
            seen: vec![in alloc; false; count]?,
            steps,
            left: Vec::new(alloc),
        })
    }

    /// Does all steps. There are at most two for each net and one for each net of a row.
    fn go(&mut self, rows: &[Items<NetId>]) -> Result<(), Memory> {
        for _ in 0..u64::MAX {
            match self.steps.pop() {
                Some(Step::Enter(net)) => self.enter(rows, net)?,
                Some(Step::Leave(net)) => self.left.push(net)?,
                None => return Ok(()),
            }
        }
        Ok(())
    }

    /// Enters a net, unless it was entered before. It is left when what it reaches has been.
    fn enter(&mut self, rows: &[Items<NetId>], net: NetId) -> Result<(), Memory> {
        if has_mark(self.seen.as_slice(), net) {
            return Ok(());
        }
        if let Some(mark) = self.seen.get_mut(net.0 as usize) {
            *mark = true;
        }
        self.steps.push(Step::Leave(net))?;
        for next in row_of(rows, net) {
            self.steps.push(Step::Enter(*next))?;
        }
        Ok(())
    }
}

/// Nets that are numbered, component by component.
#[derive(Drop)]
struct Numbering {
    /// The numbers of nets, and 0 for those that have none yet.
    numbers: Vec<usize>,
    /// The nets that have a number, in the order in which they got it.
    listed: Vec<NetId>,
}

impl Numbering {
    /// No net has a number.
    fn new(alloc: Global, count: usize) -> Result<Self, Memory> {
        Ok(Numbering {
            numbers: vec![in alloc; 0; count]?,
            listed: Vec::new(alloc),
        })
    }

    /// Gives the next number to the net and all that it reaches, as far as they have none.
    fn spread(&mut self, rows: &[Items<NetId>], net: NetId) -> Result<(), Memory> {
        let mut place = self.listed.len();
        let number = place + 1;
        self.give(net, number)?;
        while place < self.listed.len() {
            let reached = self.listed[place];
            for next in row_of(rows, reached) {
                self.give(*next, number)?;
            }
            place += 1;
        }
        Ok(())
    }

    /// Gives the number to the net, unless it has one.
    fn give(&mut self, net: NetId, number: usize) -> Result<(), Memory> {
        if let Some(own) = self.numbers.get_mut(net.0 as usize)
            && *own == 0
        {
            *own = number;
            self.listed.push(net)?;
        }
        Ok(())
    }
}
