//! A point: one number of the prime field for each parameter.

ghost use Rattle.std.specs.Prelude.{◌≡◌, ◌≢◌, ◌↔◌, length, IfOk, Err};
ghost use Rattle.cgs_poly.specs.Polynomial.{IsRing};
ghost use Rattle.cgs_point.specs.Points.{reduced_modulo, IsPoint};

use cgs_field::Elem;
use cgs_list::ItemList;
use cgs_poly::Ring;
use std::alloc::Global;
use std::marker::Model;
use thiserror::Error;

/// A list of points.
pub type PointList = ItemList<Point>;

/// A point of the parameter space, which contracts see as the list of its coordinates. It does not know its ring.
#[derive(Debug, Drop)]
pub struct Point {
    numbers: Vec<Elem>,
}

impl Model for Point {
    ghost use Rattle.std.specs.Prelude.{List, ℕ};

    ghost Value = { List ℕ };

    ghost view = { λ point. point.numbers.items };
}

/// Why there is no point.
#[derive(Clone, Copy, Debug, Drop, Error, PartialEq, Eq)]
pub enum PointFault {
    /// There are more or fewer numbers than parameters.
    #[error("as many numbers as parameters are wanted")]
    Count,
    /// Memory was short.
    #[error("out of memory")]
    OutOfMemory,
}

impl Point {
    /// The point with the remainders of these numbers, one for each parameter of the ring. It errs where there are more or
    /// fewer, before memory is taken.
    pub fn new(alloc: Global, ring: &Ring, values: &[u64]) -> Result<Point, PointFault>
        requires { IsRing ring.now }
        ensures reduced { IfOk result (λ point. point ≡ reduced_modulo ring.now.modulus values.now) }
        ensures point { IfOk result (IsPoint ring.now) }
        ensures count { result ≡ Err PointFault.Count ↔ (length values.now ≢ ring.now.parameters) }
    {
        if values.len() != ring.parameters as usize {
            return Err(PointFault::Count);
        }
        let mut numbers = Vec::new(alloc);
        for value in values {
            if numbers.push(ring.modulus.of_u64(*value)).is_err() {
                return Err(PointFault::OutOfMemory);
            }
        }
        Ok(Point { numbers })
    }

    /// The coordinates, in the order of the parameters.
    pub fn as_slice(&self) -> &[Elem]
        ensures { result.now ≡ self.now }
    {
        self.numbers.as_slice()
    }
}
