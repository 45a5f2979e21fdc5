ghost use Rattle.std.specs.Prelude.{◌≡◌, ◌<◌, ◌≤◌, ◌^◌, IfOk, OnOk, All, length};
ghost use Rattle.mv_cover.specs.Cubes.{IsCube};
ghost use Rattle.mv_divide.specs.Division.{IsQuotient};
ghost use Rattle.mv_divide.specs.Numbers as numbers;
ghost use Rattle.mv_divide.specs.Found as spec;

use crate::join::all_apart;
use crate::number::cube_number;
use crate::places::{Places, has_join, places_of};
use mv_base::{Items, Memory};
use mv_cover::Cube;
use mv_kernels::{cube_quotient, has_each, in_order};
use std::alloc::Global;
use std::marker::Model;

/// A cover that is divided by one divisor after another: its cubes, each found by its number.
#[derive(Drop)]
pub struct Dividend {
    cubes: Items<Cube>,
    places: Places,
}

impl Model for Dividend {
    ghost use Rattle.std.specs.Prelude.{List, nat_eq};
    ghost use Rattle.indexmap.specs.IndexMap.{get};
    ghost use Rattle.mv_cover.specs.Literal.{Lit as a_lit};

    ghost Value = { List (List a_lit) };

    ghost use Rattle.mv_divide.specs.Found.{ArePlaced};

    ghost view = { λ d. d.cubes };

    ghost invariant = { λ d. ArePlaced d.cubes (get nat_eq d.places.last) d.places.earlier.items };
}

impl Dividend {
    /// The cover of these cubes.
    pub fn new(alloc: Global, cubes: Items<Cube>) -> Result<Dividend, Memory>
        ensures { IfOk result (λ dividend. dividend ≡ cubes) }
    {
        let places = places_of(alloc, cubes.as_slice())?;
        Ok(Dividend { cubes, places })
    }

    /// The cubes.
    pub fn cubes(&self) -> &[Cube]
        ensures cubes { result.now ≡ self.now }
        ensures formed { All IsCube self.now }
    {
        self.cubes.as_slice()
    }

    /// The quotient by the divisor.
    pub fn quotient(&self, divisor: &[Cube]) -> Result<Vec<Cube>, Memory>
        requires { 0 < length divisor.now }
        ensures { IfOk result (λ quotient. IsQuotient self.now divisor.now quotient.items) }
    {
        Ok(in_order(self.all_left(divisor, &divisor[0])?))
    }

    /// What is left of the cubes that leave a cube of the quotient without the symbols of the divisor's first cube.
    fn all_left(&self, divisor: &[Cube], first: &Cube) -> Result<Vec<Cube>, Memory>
        ensures left { IfOk result
            (λ left. left.items ≡ spec.all_left self.now divisor.now first.now self.now) }
        ensures formed { All IsCube self.now }
    {
        let mut left = Vec::new(self.cubes.allocator());
        for cube in self.cubes() {
            if let Some(s) = self.left_of(divisor, first, cube)? {
                left.push(s)?;
            }
        }
        Ok(left)
    }

    /// What is left of the cube without the symbols of the divisor's first cube, if it has them all and that is a cube of the
    /// quotient.
    fn left_of(&self, divisor: &[Cube], first: &Cube, cube: &Cube) -> Result<Option<Cube>, Memory>
        ensures { IfOk result
            (λ left. left ≡ spec.left_of self.now divisor.now first.now cube.now) }
    {
        if !has_each(first.lits(), cube.lits()) {
            return Ok(None);
        }
        let left = cube_quotient(self.cubes.allocator(), first.lits(), cube)?;
        let is_left = all_apart(divisor, &left) && self.all_join(divisor, &left);
        Ok(is_left.then_some(left))
    }

    /// Whether each cube of the divisor, joined to s, is a cube of the cover.
    fn all_join(&self, divisor: &[Cube], s: &Cube) -> bool
        ensures { result ≡ spec.all_join self.now divisor.now s.now }
    {
        let number = cube_number(s);
        divisor.iter().all(|d| self.has_join(s, d, number))
    }

    /// Whether d, joined to s, which has the number, is a cube of the cover.
    fn has_join(&self, s: &Cube, d: &Cube, number: u128) -> bool
        requires number { number ≡ numbers.cube_number s.now }
        requires small { number ≤ 2 ^ 96 }
        ensures { result ≡ spec.has_join self.now s.now d.now }
    {
        let number = number + cube_number(d);
        has_join(self.cubes.as_slice(), &self.places, s, d, number)
    }
}
