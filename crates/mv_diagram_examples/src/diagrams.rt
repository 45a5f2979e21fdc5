//! Sets of points as diagrams, by hand.
ghost use Rattle.std.specs.Prelude.{◌≡◌, ◌<◌, length, IfOk};
ghost use Rattle.mv_diagram.specs.Diagrams.{IsHeld};

use mv_base::{Value, ValueSet};
use mv_diagram::{Dd, Diagrams, Nodes};
use std::test::Fail;

/// The set of the points that are in the set or have the value 1 of the variable, but not both.
fn either_alone(diagrams: &mut Diagrams, set: Dd, var: u32) -> Result<Dd, Nodes>
    requires held { IsHeld diagrams.old set }
    requires var { var < length diagrams.old.counts }
    ensures counts { IfOk result (λ _. diagrams.new.counts ≡ diagrams.old.counts) }
    ensures held { IfOk result (IsHeld diagrams.new) }
{
    let x = diagrams.literal(var, ValueSet::one(Value(1)))?;
    let not_x = diagrams.not(x)?;
    let not_set = diagrams.not(set)?;
    let left = diagrams.and(set, not_x)?;
    let right = diagrams.and(not_set, x)?;
    diagrams.or(left, right)
}

/// As a list the set would have 2^39 points.
#[test]
fn a_parity_of_forty_variables_takes_little_room(rt: HostRuntime) -> Result<(), Fail> {
    let mut diagrams = Diagrams::with_room(rt.alloc(), &[2; 40], 20_000)?;
    let mut parity = diagrams.literal(0, ValueSet::one(Value(1)))?;
    for var in 1..40 {
        parity = either_alone(&mut diagrams, parity, var)?;
    }
    let mut point = [Value(0); 40];
    assert!(rt; !diagrams.test(parity, &point));
    point[17] = Value(1);
    assert!(rt; diagrams.test(parity, &point));
    Ok(())
}

/// The points with the value 1 of the first variable or the value 2 of the second.
#[test]
fn some_value_and_all_values(rt: HostRuntime) -> Result<(), Fail> {
    let mut diagrams = Diagrams::with_room(rt.alloc(), &[2, 3], 20)?;
    let left = diagrams.literal(0, ValueSet::one(Value(1)))?;
    let right = diagrams.literal(1, ValueSet::one(Value(2)))?;
    let either = diagrams.or(left, right)?;
    let some = diagrams.exists(either, &[1])?;
    let all = diagrams.forall(either, &[1])?;
    assert!(rt; diagrams.same(some, diagrams.one()));
    assert!(rt; diagrams.same(all, left));
    Ok(())
}

#[test]
fn the_only_point_is_picked(rt: HostRuntime) -> Result<(), Fail> {
    let mut diagrams = Diagrams::with_room(rt.alloc(), &[2, 3], 20)?;
    let left = diagrams.literal(0, ValueSet::one(Value(1)))?;
    let right = diagrams.literal(1, ValueSet::one(Value(2)))?;
    let both = diagrams.and(left, right)?;
    let mut point = [Value(0), Value(0)];
    assert!(rt; diagrams.pick(both, &mut point));
    assert_eq!(rt; point, [Value(1), Value(2)]);
    Ok(())
}

/// There is room for two nodes, one of which is kept.
#[test]
fn what_is_let_go_makes_room(rt: HostRuntime) -> Result<(), Fail> {
    let one = ValueSet::one(Value(1));
    let mut diagrams = Diagrams::with_room(rt.alloc(), &[2, 2, 2], 2)?;
    let kept = diagrams.literal(0, one)?;
    let mark = diagrams.mark();
    let _ = diagrams.literal(1, one)?;
    diagrams.release(mark);
    let _ = diagrams.literal(2, one)?;
    diagrams.reclaim(&[kept]);
    let _ = diagrams.literal(1, one)?;
    assert_eq!(rt; diagrams.reclaims(), 1);
    Ok(())
}
