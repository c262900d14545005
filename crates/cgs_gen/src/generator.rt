//! The problem of a number.

ghost use Rattle.std.specs.Prelude.{◌≡◌, ◌*◌, ◌<◌, ◌≤◌, [], ◌∷◌, IfOk};
ghost use Rattle.cgs_poly.specs.Polynomial.{IsRing, IsPoly, ArePolys, term};
ghost use Rattle.cgs_problem.specs.Problems.{IsProblem};
ghost use Rattle.cgs_gen.specs.Generator.{states, next, drawn, ring_of, powers, link, first_links, problem_of};

use crate::names::{variable_names, with_parameter_names};
use cgs_field::Modulus;
use cgs_order::Kind;
use cgs_point::PointList;
use cgs_poly::{Poly, PolyList, Ring};
use cgs_problem::Problem;
use std::alloc::{AllocError, Global};

const STATES: u64 = 4294967296;

const MOST_PLACES: usize = 12;

/// The problem that a number generates.
pub fn problem_of(alloc: Global, k: u32) -> Result<Problem, AllocError>
    ensures problem { IfOk result (λ problem. problem ≡ problem_of k) }
    ensures valid { IfOk result IsProblem }
{
    let links = 2 + k % 3;
    let ring = ring(links);
    let variables = variable_names(alloc, links as u8)?;
    Ok(Problem {
        ring,
        names: with_parameter_names(alloc, variables, links as u8)?,
        zero: PolyList::new(alloc),
        nonzero: PolyList::new(alloc),
        polys: polys(alloc, &ring, links as usize, u64::from(k))?,
        thesis: None,
        points: PointList::new(alloc),
    })
}

fn ring(links: u32) -> Ring
    requires some { 1 ≤ links }
    requires few { links ≤ 4 }
    ensures ring { result ≡ ring_of links }
    ensures valid { IsRing result }
{
    let Some(modulus) = Modulus::of(101) else {
        unreachable!()
    };
    Ring {
        modulus,
        variables: links,
        parameters: 2 * links,
        kind: Kind::Lex,
    }
}

// All links, from the state that the number is.
fn polys(alloc: Global, ring: &Ring, links: usize, k: u64) -> Result<PolyList, AllocError>
    requires some { 1 ≤ links }
    requires few { links ≤ 4 }
    requires ring { ring.now ≡ ring_of links }
    requires valid { IsRing ring.now }
    requires small { k < states }
    ensures links { IfOk result (λ polys. polys ≡ first_links links k links) }
    ensures polys { IfOk result (λ polys. ArePolys ring.now polys) }
{
    let mut polys = PolyList::new(alloc);
    let mut state = k;
    for i in 0..links {
        polys.push(link(alloc, ring, links, i, state)?)?;
        state = next(next(next(state)));
    }
    Ok(polys)
}

// The link at a place: it takes three numbers from the generator, the last only two.
fn link(alloc: Global, ring: &Ring, links: usize, i: usize, state: u64) -> Result<Poly, AllocError>
    requires place { i < links }
    requires few { links ≤ 4 }
    requires ring { ring.now ≡ ring_of links }
    requires valid { IsRing ring.now }
    requires small { state < states }
    ensures link { IfOk result (λ f. f ≡ link links i state) }
    ensures poly { IfOk result (λ f. IsPoly ring.now f) }
{
    let first = next(state);
    let second = next(first);
    let c = 1 + drawn(first, 100);
    let d = 1 + drawn(second, 100);
    let e = if i + 1 == links {
        0
    } else {
        1 + drawn(next(second), 2)
    };
    let own = powers(alloc, ring, links, c, (i, 1), links + 2 * i)?;
    let other = powers(alloc, ring, links, d, (i + 1, e), links + 2 * i + 1)?;
    let sum = Poly::add(alloc, ring, &own, &other)?;
    Ok(sum)
}

// A number times a power of one variable times a parameter.
fn powers(
    alloc: Global,
    ring: &Ring,
    links: usize,
    c: u16,
    power: (usize, u16),
    parameter: usize,
) -> Result<Poly, AllocError>
    requires some { 0 < c }
    requires below { c < 101 }
    requires place { power.0 < 3 * links }
    requires low { power.1 ≤ 2 }
    requires parameter { parameter < 3 * links }
    requires few { links ≤ 4 }
    requires ring { ring.now ≡ ring_of links }
    requires valid { IsRing ring.now }
    ensures term { IfOk result (λ f. f ≡ term c (powers links power.0 power.1 parameter) ∷ []) }
    ensures poly { IfOk result (λ f. IsPoly ring.now f) }
{
    let mut exponents = [0; MOST_PLACES];
    exponents[power.0] = power.1;
    exponents[parameter] = 1;
    let mut f = Poly::zero(alloc);
    f.push(ring.modulus.of_u64(u64::from(c)), &exponents[..3 * links])?;
    Ok(f)
}

fn next(state: u64) -> u64
    requires { state < states }
    ensures next { result ≡ next state }
    ensures small { result < states }
{
    (1664525 * state + 1013904223) % STATES
}

fn drawn(state: u64, m: u16) -> u16
    requires { 0 < m }
    ensures drawn { result ≡ drawn m state }
    ensures below { result < m }
{
    (state / 65536 % u64::from(m)) as u16
}
