ghost use Rattle.std.specs.Prelude.{◌≡◌, None, Some, IsSome, IfOk};
ghost use Rattle.mv_step.specs.Certificates.{Outside, fault_at, fault_of, rule_of, steps_of, Tells};
ghost use Rattle.mv_step.specs.Lines.{said};
ghost use Rattle.mv_step.specs.Reading.{Follows, place_of};

use crate::said::{Said, said_by};
use crate::step::{Head, OpenRule};
use crate::{Step, StepFault};
use mv_base::Items;
use mv_entry::{Body, Rule};
use mv_lex::{LexLine, Lines};

/// The step of a rule whose body has ended.
fn ended(rule: OpenRule) -> Step
    ensures { result
        ≡ record {
          line = rule.line;
          rule =
              rule_of rule.head (record { lines = rule.lines; default = rule.default });
        } }
{
    let OpenRule {
        line,
        head,
        lines,
        default,
    } = rule;
    let body = Body { lines, default };
    let rule = match head {
        Head::Add { net } => Rule::Add { net, body },
        Head::Divide { net, by } => Rule::Divide { net, by, body },
        Head::Narrow { net, d, u } => Rule::Narrow { net, d, u, body },
    };
    Step { line, rule }
}

/// A line outside a body.
fn outside_line(line: &LexLine, steps: &mut Items<Step>) -> Result<Option<OpenRule>, StepFault>
    ensures fault { Tells result (fault_at line.now.number Outside (said line.now.words)) }
    ensures ok { IfOk result (λ next. Follows line.now steps.old None steps.new next) }
{
    let number = line.number;
    match said_by(line)? {
        Said::Whole(rule) => {
            steps.push(Step { line: number, rule })?;
            Ok(None)
        }
        Said::Begins(head) => Ok(Some(OpenRule {
            line: number,
            head,
            lines: Items::new(line.words.allocator()),
            default: None,
        })),
        _ => Err(StepFault::Syntax { line: number }),
    }
}

/// A line behind the default of a rule's body, which has to end there.
fn behind_default(
    rule: OpenRule,
    line: &LexLine,
    steps: &mut Items<Step>,
) -> Result<Option<OpenRule>, StepFault>
    requires { IsSome rule.default }
    ensures fault { Tells result
        (fault_at line.now.number (place_of (Some rule)) (said line.now.words)) }
    ensures ok { IfOk result (λ next. Follows line.now steps.old (Some rule) steps.new next) }
{
    match said_by(line)? {
        Said::End => {
            steps.push(ended(rule))?;
            Ok(None)
        }
        _ => Err(StepFault::Syntax { line: line.number }),
    }
}

/// A line in the body of a rule.
fn body_line(
    rule: OpenRule,
    line: &LexLine,
    steps: &mut Items<Step>,
) -> Result<Option<OpenRule>, StepFault>
    ensures fault { Tells result
        (fault_at line.now.number (place_of (Some rule)) (said line.now.words)) }
    ensures ok { IfOk result (λ next. Follows line.now steps.old (Some rule) steps.new next) }
{
    if rule.default.is_some() {
        return behind_default(rule, line, steps);
    }
    let mut rule = rule;
    match said_by(line)? {
        Said::Line(line) => {
            rule.lines.push(line)?;
            Ok(Some(rule))
        }
        Said::Default(set) => {
            rule.default = Some(set);
            Ok(Some(rule))
        }
        Said::End => {
            steps.push(ended(rule))?;
            Ok(None)
        }
        _ => Err(StepFault::Syntax { line: line.number }),
    }
}

/// A line, behind which a body may be open.
fn take_line(
    current: Option<OpenRule>,
    line: &LexLine,
    steps: &mut Items<Step>,
) -> Result<Option<OpenRule>, StepFault>
    ensures fault { Tells result
        (fault_at line.now.number (place_of current) (said line.now.words)) }
    ensures ok { IfOk result (λ next. Follows line.now steps.old current steps.new next) }
{
    match current {
        None => outside_line(line, steps),
        Some(rule) => body_line(rule, line, steps),
    }
}

/// The rules that the lines of a certificate list, each with the line of its first word, or else the first fault of the
/// lines: the first that can't stand where it stands. A name may be any word: whether there is such a net is for the rule to say.
#[tactic(auto, unfolding(crate::specs::Certificates::fault_of))]
pub fn read_cert(lines: &Lines) -> Result<Items<Step>, StepFault>
    ensures fault { Tells result (fault_of lines.now) }
    ensures steps { IfOk result (λ steps. steps ≡ steps_of lines.now) }
{
    let mut steps = Items::new(*lines.list.allocator());
    let mut current = None;
    for line in lines.as_slice() {
        current = take_line(current, line, &mut steps)?;
    }
    match current {
        None => Ok(steps),
        Some(rule) => Err(StepFault::Syntax { line: rule.line }),
    }
}
