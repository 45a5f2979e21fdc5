ghost use Rattle.std.specs.Prelude.{◌≡◌, IfOk, MatchOption, length};
ghost use Rattle.mv_base.specs.Meaning.{AllowsSome, Narrows};
ghost use Rattle.mv_net.specs.Allowed.{of_net};
ghost use Rattle.mv_net.specs.Nets.{interface_of};
ghost use Rattle.mv_verify.specs.Sides.{point_ports, ports_of};
ghost use Rattle.mv_verify.specs.Answers.{IsAnswer, IsExtra, IsLost, LosesNothing};

use crate::evidence::{choice_of, point_of};
use crate::interface::same_interface;
use crate::prefixes::find_difference;
use crate::side::Side;
use crate::{Answer, Choice, Point};
use mv_base::Memory;
use mv_net::Network;
use std::alloc::Global;

/// A point at which the network b allows a choice that a doesn't, and this choice, if there is one; where free, among
/// the points at which a allows something. There is room for the values of all ports.
fn extra_among(
    alloc: Global,
    b: &mut Side,
    a: &mut Side,
    values: &mut [u16],
    free: bool,
) -> Result<Option<(Point, Choice)>, Memory>
    requires same { interface_of b.old ≡ interface_of a.old }
    requires room { length values.old ≡ length (ports_of b.old) }
    ensures found { IfOk result (λ found. MatchOption found
        (Narrows free (of_net b.old) (of_net a.old))
        (λ e. IsExtra free (of_net b.old) (of_net a.old) e.0 e.1)) }
    ensures same_b { b.new ≡ b.old }
    ensures same_a { a.new ≡ a.old }
{
    b.well_formed();
    a.well_formed();
    let points = b.points();
    if !find_difference(b, a, values, points, free) {
        return Ok(None);
    }
    let (of_point, of_choice) = values.split_at(points);
    let point = point_of(alloc, b.net(), of_point)?;
    let choice = choice_of(alloc, b.net(), of_choice)?;
    Ok(Some((point, choice)))
}

/// Such a point and such a choice.
fn extra(
    alloc: Global,
    b: &mut Side,
    a: &mut Side,
    free: bool,
) -> Result<Option<(Point, Choice)>, Memory>
    requires { interface_of b.old ≡ interface_of a.old }
    ensures found { IfOk result (λ found. MatchOption found
        (Narrows free (of_net b.old) (of_net a.old))
        (λ e. IsExtra free (of_net b.old) (of_net a.old) e.0 e.1)) }
    ensures same_b { b.new ≡ b.old }
    ensures same_a { a.new ≡ a.old }
{
    let mut values = vec![in alloc; 0; b.len()]?;
    extra_among(alloc, b, a, values.as_mut_slice(), free)
}

/// A point at which the network a allows something and b nothing, if there is one. There is room for the values of the
/// ports that make a point.
fn lost_among(
    alloc: Global,
    b: &mut Side,
    a: &mut Side,
    values: &mut [u16],
) -> Result<Option<Point>, Memory>
    requires same { interface_of b.old ≡ interface_of a.old }
    requires room { length values.old ≡ length (point_ports a.old) }
    ensures { IfOk result (λ found. MatchOption found
        (LosesNothing (of_net b.old) (of_net a.old))
        (λ p. IsLost (of_net b.old) (of_net a.old) p)) }
{
    b.well_formed();
    a.well_formed();
    let points = values.len();
    if !find_difference(a, b, values, points, false) {
        return Ok(None);
    }
    let point = point_of(alloc, a.net(), values)?;
    Ok(Some(point))
}

/// Such a point.
fn lost(alloc: Global, b: &mut Side, a: &mut Side) -> Result<Option<Point>, Memory>
    requires { interface_of b.old ≡ interface_of a.old }
    ensures { IfOk result (λ found. MatchOption found
        (LosesNothing (of_net b.old) (of_net a.old))
        (λ p. IsLost (of_net b.old) (of_net a.old) p)) }
{
    let mut values = vec![in alloc; 0; a.points()]?;
    lost_among(alloc, b, a, values.as_mut_slice())
}

/// Whether the network b, which has the interface of a, refines a, where free under values where a allows some choice; if not, the
/// evidence.
#[tactic(auto, unfolding(mv_net::specs::Allowed::of_net))]
fn compared(alloc: Global, b: &mut Side, a: &mut Side, free: bool) -> Result<Answer, Memory>
    requires { interface_of b.old ≡ interface_of a.old }
    ensures { IfOk result (λ answer. IsAnswer free (of_net b.old) (of_net a.old) answer) }
{
    if let Some((point, choice)) = extra(alloc, b, a, free)? {
        return Ok(Answer::Extra(point, choice));
    }
    if let Some(point) = lost(alloc, b, a)? {
        return Ok(Answer::Lost(point));
    }
    Ok(Answer::Yes)
}

/// Whether the network b refines a, where free under values where a allows some choice; if not, the evidence. It goes
/// through the choices of b and the points of a, and asks the other network for each. The time may grow as the number
/// of these; each is asked with the first values that rule it out.
#[tactic(auto, unfolding(mv_net::specs::Allowed::of_net))]
pub fn verify_by_points(
    alloc: Global,
    a: &Network,
    b: &Network,
    free: bool,
) -> Result<Answer, Memory>
    ensures { IfOk result (λ answer. IsAnswer free (of_net b.now) (of_net a.now) answer) }
{
    if !same_interface(b, a) {
        return Ok(Answer::Interface);
    }
    let mut new = Side::new(alloc, b)?;
    let mut old = Side::new(alloc, a)?;
    compared(alloc, &mut new, &mut old, free)
}
