//! How large a network is while the covers of its tables are made, and the limits on that.
ghost use Rattle.std.specs.Prelude.{◌≡◌, ◌+◌, ◌<◌, ◌≤◌, ◌^◌, [], length, cond, Some, is_some, IfErr, IfOk};
ghost use Rattle.std.specs.List.{flat_map};
ghost use Rattle.mv_base.specs.declared.limits.TheConstants.{MAX_FLAT_LINES, MAX_FLAT_NETS, MAX_NETS};
ghost use Rattle.mv_cover.specs.declared.cover.Cover.{Cover};
ghost use Rattle.mv_fault.specs.Tells.{first};
ghost use Rattle.mv_rows.specs.declared.table.FlatTable.{FlatTable};
ghost use Rattle.mv_joint.specs.declared.joint.JointTable.{JointTable};
ghost use Rattle.mv_joint.specs.Joint.{mark_lines};
ghost use Rattle.mv_flat.specs.declared.covers.TableCovers.TheVariants.{Single, Joint};
ghost use Rattle.mv_flat.specs.Covers.{made_mark, outputs_of};
ghost use Rattle.mv_flat.specs.Size.{gives_reset, has_stop, size_faults, size_of};
ghost use Rattle.mv_flat.specs.Sized.{IsWithinSize, with_covers, with_lines, with_net, with_nets};

use crate::covers::TableCovers;
use mv_base::{MAX_FLAT_LINES, MAX_FLAT_LITERALS, MAX_FLAT_NETS, Name};
use mv_cover::Cover;
use mv_design::FileTable;
use mv_fault::{FlatFault, Which};

/// The size of a network, as far as the covers of its tables are made: its nets, those of the file all counted; the lines of the
/// covers; and the literals of the lines.
#[derive(Clone, Copy, Debug)]
pub struct Size {
    pub nets: u64,
    pub lines: u128,
    pub literals: u128,
}

impl Size {
    /// The size of so many nets, before there are covers.
    pub fn of_nets(nets: u64) -> Size
        requires { nets ≤ MAX_FLAT_NETS }
        ensures size { result ≡ size_of nets [] [] }
        ensures within { IsWithinSize result }
    {
        Size {
            nets,
            lines: 0,
            literals: 0,
        }
    }

    /// How many lines more there may be.
    pub fn lines_left(self) -> usize
        requires { self.lines ≤ MAX_FLAT_LINES }
        ensures { self.lines + result ≡ MAX_FLAT_LINES }
    {
        (MAX_FLAT_LINES as u128 - self.lines) as usize
    }

    /// The first limit that is passed with a table of one output whose cover has more lines than there may be, where it is told
    /// whether the table gets a mark.
    #[tactic(auto, using(crate::proofs::Passing::past_nets, crate::proofs::Passing::past_lines))]
    pub fn past(self, table: &FileTable, marked: bool) -> FlatFault
        requires within { IsWithinSize self }
        requires some { 0 < length table.now.outputs }
        ensures { (flat : FlatTable) → is_some flat.mark ≡ marked
            → MAX_FLAT_LINES < self.lines + length flat.cover.lines
            → first (size_faults (with_covers self table.now (Single flat))) ≡ Some result }
    {
        if self.nets_with(table, marked) > MAX_FLAT_NETS {
            return FlatFault::Limit {
                which: Which::Nets,
                number: MAX_FLAT_NETS + 1,
            };
        }
        FlatFault::Limit {
            which: Which::FlatLines,
            number: MAX_FLAT_LINES + 1,
        }
    }

    /// The first limit that is passed with a table of several outputs whose mark and choice net have more lines than there may be.
    #[tactic(auto, using(crate::proofs::JointPast::past_nets, crate::proofs::JointPast::past_lines))]
    pub fn past_joint(self, table: &FileTable, marked: bool) -> FlatFault
        requires within { IsWithinSize self }
        requires some { 0 < length table.now.outputs }
        ensures { (joint : JointTable) → is_some joint.mark ≡ marked
            → MAX_FLAT_LINES
            < self.lines + (length (mark_lines joint.mark) + length joint.choice.lines)
            → first (size_faults (with_covers self table.now (Joint joint))) ≡ Some result }
    {
        if self.nets_with(table, marked) + 1 > MAX_FLAT_NETS {
            return FlatFault::Limit {
                which: Which::Nets,
                number: MAX_FLAT_NETS + 1,
            };
        }
        FlatFault::Limit {
            which: Which::FlatLines,
            number: MAX_FLAT_LINES + 1,
        }
    }

    /// How many nets there are with a table and its mark, where it is told whether the table gets a mark.
    fn nets_with(self, table: &FileTable, marked: bool) -> u64
        requires nets { self.nets ≤ MAX_FLAT_NETS }
        requires some { 0 < length table.now.outputs }
        ensures { result ≡ self.nets + cond (gives_reset table.now) 1 0 + cond marked 1 0 }
    {
        let size = self.with_reset(table);
        if marked { size.nets + 1 } else { size.nets }
    }

    /// The size with the covers of one more table, or the first limit that is passed then. It takes no memory.
    pub fn with(self, table: &FileTable, covers: &TableCovers) -> Result<Size, FlatFault>
        requires within { IsWithinSize self }
        requires some { 0 < length table.now.outputs }
        requires few { length (outputs_of covers.now) ≤ MAX_NETS }
        ensures size { IfOk result (λ size. size ≡ with_covers self table.now covers.now) }
        ensures within { IfOk result IsWithinSize }
        ensures fault { IfErr result
            (λ f. first (size_faults (with_covers self table.now covers.now)) ≡ Some f) }
    {
        self.with_covers(table, covers).checked()
    }

    /// The size with the covers of one more table.
    #[tactic(auto, using(crate::proofs::Sizes::counted))]
    fn with_covers(self, table: &FileTable, covers: &TableCovers) -> Size
        requires within { IsWithinSize self }
        requires some { 0 < length table.now.outputs }
        requires few { length (outputs_of covers.now) ≤ MAX_NETS }
        ensures { result ≡ with_covers self table.now covers.now }
    {
        let size = self.with_reset(table);
        match covers {
            TableCovers::Single(flat) => size.with_mark(&flat.mark).with_lines(&flat.cover),
            TableCovers::Joint(joint) => {
                let made = size.with_mark(&joint.mark).with_made(&joint.choice);
                made.with_outputs(joint.outputs.as_slice())
            }
        }
    }

    /// The size with one net more, where the table gives a reset net.
    fn with_reset(self, table: &FileTable) -> Size
        requires some { 0 < length table.now.outputs }
        requires nets { self.nets ≤ 2 ^ 32 }
        ensures { result
            ≡ record {
              nets = self.nets + cond (gives_reset table.now) 1 0;
              lines = self.lines;
              literals = self.literals;
            } }
    {
        let nets = if gives_reset(table) {
            self.nets + 1
        } else {
            self.nets
        };
        Size { nets, ..self }
    }

    /// The size with the net of a mark, if there is one.
    fn with_mark(self, mark: &Option<Cover>) -> Size
        requires nets { self.nets ≤ 2 ^ 32 }
        requires lines { self.lines ≤ 2 ^ 100 }
        requires literals { self.literals ≤ 2 ^ 122 }
        ensures size { result ≡ with_nets self (made_mark mark.now) }
        ensures lines { result.lines ≤ self.lines + 2 ^ 64 }
        ensures literals { result.literals ≤ self.literals + 2 ^ 96 }
    {
        match mark {
            Some(cover) => self.with_made(cover),
            None => self,
        }
    }

    /// The size with one net more, which has this cover.
    fn with_made(self, cover: &Cover) -> Size
        requires nets { self.nets ≤ 2 ^ 33 }
        requires lines { self.lines ≤ 2 ^ 100 }
        requires literals { self.literals ≤ 2 ^ 122 }
        ensures size { result ≡ with_lines (with_net self) cover.now.lines }
        ensures lines { result.lines ≤ self.lines + 2 ^ 64 }
        ensures literals { result.literals ≤ self.literals + 2 ^ 96 }
    {
        let size = Size {
            nets: self.nets + 1,
            ..self
        };
        size.with_lines(cover)
    }

    /// The size with the lines of the covers of outputs.
    fn with_outputs(self, covers: &[Cover]) -> Size
        requires few { length covers.now ≤ MAX_NETS }
        requires lines { self.lines ≤ 2 ^ 99 }
        requires literals { self.literals ≤ 2 ^ 121 }
        ensures { result ≡ with_lines self (flat_map (λ (c : Cover). c.lines) covers.now) }
    {
        let mut size = self;
        for cover in covers {
            size = size.with_lines(cover);
        }
        size
    }

    /// The size with the lines of one cover more.
    fn with_lines(self, cover: &Cover) -> Size
        requires lines { self.lines ≤ 2 ^ 100 }
        requires literals { self.literals ≤ 2 ^ 122 }
        ensures size { result ≡ with_lines self cover.now.lines }
        ensures lines { result.lines ≤ self.lines + 2 ^ 64 }
        ensures literals { result.literals ≤ self.literals + 2 ^ 96 }
    {
        Size {
            nets: self.nets,
            lines: self.lines + cover.lines.len() as u128,
            literals: self.literals + cover.literals(),
        }
    }

    /// The same size, or the first limit that it passes.
    fn checked(self) -> Result<Size, FlatFault>
        ensures same { IfOk result (λ size. size ≡ self) }
        ensures within { IfOk result IsWithinSize }
        ensures fault { IfErr result (λ f. first (size_faults self) ≡ Some f) }
    {
        if self.nets > MAX_FLAT_NETS {
            return Err(FlatFault::Limit {
                which: Which::Nets,
                number: MAX_FLAT_NETS + 1,
            });
        }
        if self.lines > MAX_FLAT_LINES as u128 {
            return Err(FlatFault::Limit {
                which: Which::FlatLines,
                number: MAX_FLAT_LINES + 1,
            });
        }
        if self.literals > MAX_FLAT_LITERALS as u128 {
            return Err(FlatFault::Limit {
                which: Which::FlatEntries,
                number: MAX_FLAT_LITERALS + 1,
            });
        }
        Ok(self)
    }
}

/// Whether the table is that of a reset net.
pub fn gives_reset(table: &FileTable) -> bool
    requires { 0 < length table.now.outputs }
    ensures { result ≡ gives_reset table.now }
{
    has_stop(&table.outputs.as_slice()[0])
}

/// Whether the name begins with a full stop.
fn has_stop(name: &Name) -> bool
    ensures { result ≡ has_stop name.now }
{
    match name.bytes().first() {
        Some(b'.') => true,
        _ => false,
    }
}
