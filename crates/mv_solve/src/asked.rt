ghost use Rattle.std.specs.Prelude.{◌≡◌, ◌&&◌, ◌<◌, ◌≤◌, ℕ, nat_eq};
ghost use Rattle.mv_solve.specs.Asked.{takes};
ghost use Rattle.mv_solve.specs.First.{IsNarrowed};
ghost use Rattle.mv_solve.specs.Known.{is_only, may_be_in, must_be_in};

use mv_base::Value;
use mv_cover::Lit;

/// What is asked of the value of a net.
#[derive(Clone, Copy, Debug, Default, PartialEq, Eq)]
pub enum Asked {
    /// It may have any.
    #[default]
    Anything,
    /// It has this one.
    Only(Value),
    /// Different ones were asked for, so none will do.
    Nothing,
}

impl Asked {
    /// What is asked where the net is to have this value besides.
    pub fn and(self, value: Value) -> Asked
        ensures { (v : ℕ) → takes result v ≡ (takes self v && nat_eq v value.0) }
    {
        match self {
            Asked::Anything => Asked::Only(value),
            Asked::Only(other) => {
                if other == value {
                    Asked::Only(value)
                } else {
                    Asked::Nothing
                }
            }
            Asked::Nothing => Asked::Nothing,
        }
    }

    /// Whether one value is asked for.
    pub fn is_only(self) -> bool
        ensures { result ≡ is_only self }
    {
        matches!(self, Asked::Only(_))
    }

    /// Whether the literal may hold where this is asked of its net.
    pub fn may_hold(self, literal: &Lit) -> bool
        ensures { result ≡ may_be_in self literal.now.set }
    {
        match self {
            Asked::Only(value) => literal.has(value),
            _ => true,
        }
    }

    /// Whether the literal holds where this is asked of its net.
    pub fn must_hold(self, literal: &Lit) -> bool
        ensures { result ≡ must_be_in self literal.now.set }
    {
        match self {
            Asked::Only(value) => literal.has(value),
            _ => false,
        }
    }

    /// The values from `start` on and below `end` that are asked for, as such a range.
    pub fn narrow(self, start: u32, end: u16) -> (u16, u16)
        ensures { IsNarrowed self start end result.0 result.1 }
    {
        match self {
            Asked::Anything if start < u32::from(end) => (start as u16, end),
            Asked::Only(value) if start <= u32::from(value.0) && value.0 < end => {
                (value.0, value.0 + 1)
            }
            _ => (end, end),
        }
    }
}
