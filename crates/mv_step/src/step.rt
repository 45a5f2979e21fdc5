ghost use Rattle.std.specs.Prelude.{◌≡◌, IfOk};

use mv_base::{Items, Memory, Name, PackedSet};
use mv_entry::{BodyLine, Rule};

/// A rule of a certificate, and the line of its first word.
#[derive(Drop)]
pub struct Step {
    pub line: u32,
    pub rule: Rule,
}

impl Step {
    /// An equal step.
    pub fn copy(&self) -> Result<Step, Memory>
        ensures { IfOk result (λ step. step ≡ self.now) }
    {
        Ok(Step {
            line: self.line,
            rule: self.rule.copy()?,
        })
    }
}

/// The first line of a rule with a body, as far as its words go.
#[derive(Drop)]
pub enum Head {
    Add { net: Name },
    Divide { net: Name, by: Name },
    Narrow { net: Name, d: u16, u: u16 },
}

/// A rule whose body is being read: its line, its first words, and what stood in the body so far.
#[derive(Drop)]
pub struct OpenRule {
    pub line: u32,
    pub head: Head,
    pub lines: Items<BodyLine>,
    pub default: Option<PackedSet>,
}
