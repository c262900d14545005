//! A program that does one operation on polynomials again and again and prints nothing, for a script to time.
//!
//! Its words are the operation, the number of terms of each polynomial and how often it is done: `add 1000 50`. Of
//! `divide` and `divide_far` the last is the number of units of work; the second divides by a polynomial whose multiples land
//! far below their leads. `tree 2 16 1` takes all branches of a tree with two children a branch
//! and 16 levels below the root, once. The word `solve` alone solves the problem on standard input by the top call of one
//! worker, and prints its list. The status is 1 where the words say something else or memory is short.
#![tactic(auto)]

mod alone;
mod tree;

ghost use Rattle.std.specs.Prelude.{◌≡◌, ◌≤◌, IfSome, IfOk};
ghost use Rattle.cgs_poly.specs.Polynomial.{IsRing, IsPoly, places, ArePolys};
ghost use Rattle.cgs_list.proofs.ListLemmas.{all_push};
ghost use Rattle.cgs_algebra.specs.Groebner.{AreMonic};

use crate::alone::solve_alone;
use crate::tree::take_trees;
use cgs_divide::{Stop, divide};
use cgs_field::Modulus;
use cgs_order::Kind;
use cgs_poly::{Poly, PolyFault, PolyList, Ring, TermList};
use std::alloc::{AllocError, Global};
use std::env;
use std::io::{Read, Write};
use std::process::ExitCode;
use std::rt::Env;

fn main(rt: HostRuntime) -> ExitCode {
    match timed(&rt, rt.alloc(), rt.stdin(), rt.stdout()) {
        Some(()) => ExitCode::SUCCESS,
        None => ExitCode::FAILURE,
    }
}

/// Does what the words ask for.
fn timed(
    rt: &(impl Env + AllocGlobal),
    alloc: Global,
    input: impl Read + Drop,
    output: impl Write + Drop,
) -> Option<()> {
    let arguments: Vec<String> = env::args(rt).ok()?.collect(alloc).ok()?;
    let word = arguments.get(1)?.as_str();
    if word == "solve" {
        return solve_alone(alloc, input, output);
    }
    let size = number(arguments.get(2)?)?;
    let times = number(arguments.get(3)?)?;
    if word == "tree" {
        return take_trees(alloc, size, times, number(arguments.get(4)?)?);
    }
    with_polynomials(alloc, named(word)?, size, times)
}

/// Does an operation on polynomials of so many terms again and again.
fn with_polynomials(alloc: Global, operation: Operation, terms: u32, times: u32) -> Option<()>
    requires terms { terms ≤ 1000000 }
{
    let ring = plane()?;
    let f = spread(alloc, &ring, 2, terms).ok()?;
    match operation {
        Operation::Divide => {
            let divisor = spread(alloc, &ring, 3, 10).ok()?;
            divide_for(alloc, &ring, &f, &divisor, times)
        }
        Operation::DivideFar => {
            let divisor = far(alloc, &ring).ok()?;
            divide_for(alloc, &ring, &f, &divisor, times)
        }
        Operation::Add | Operation::Product => {
            let g = spread(alloc, &ring, 3, terms).ok()?;
            operate_for(alloc, &ring, operation, &f, &g, times)
        }
    }
}

/// What is done to polynomials.
#[derive(Clone, Copy, Debug, PartialEq, Eq)]
enum Operation {
    Add,
    Product,
    Divide,
    DivideFar,
}

/// The operation on polynomials that a word names.
fn named(word: &str) -> Option<Operation> {
    match word {
        "add" => Some(Operation::Add),
        "product" => Some(Operation::Product),
        "divide" => Some(Operation::Divide),
        "divide_far" => Some(Operation::DivideFar),
        _ => None,
    }
}

/// Does an operation on f and g again and again.
fn operate_for(
    alloc: Global,
    ring: &Ring,
    operation: Operation,
    f: &Poly,
    g: &Poly,
    times: u32,
) -> Option<()>
    requires ring { IsRing ring.now }
    requires first { IsPoly ring.now f.now }
    requires second { IsPoly ring.now g.now }
{
    for _ in 0..times {
        let result = operated(alloc, ring, operation, f, g).ok()?;
        drop(result);
    }
    Some(())
}

/// Divides f by a polynomial again and again, until so many units are spent.
fn divide_for(alloc: Global, ring: &Ring, f: &Poly, divisor: &Poly, units: u32) -> Option<()>
    requires ring { IsRing ring.now }
    requires poly { IsPoly ring.now f.now }
    requires divisor { IsPoly ring.now divisor.now }
{
    let divisors = monic_list(alloc, ring, divisor).ok()?;
    let mut fuel = u64::from(units);
    for _ in 0..units {
        match divide(alloc, ring, f, &divisors, &mut fuel) {
            Ok(division) => drop(division),
            Err(Stop::Budget) => return Some(()),
            Err(_) => return None,
        }
    }
    Some(())
}

/// The monic multiple of a polynomial alone, or nothing where it is 0.
fn monic_list(alloc: Global, ring: &Ring, f: &Poly) -> Result<PolyList, PolyFault>
    requires ring { IsRing ring.now }
    requires poly { IsPoly ring.now f.now }
    ensures monic { IfOk result (λ G. AreMonic ring.now G) }
    ensures polys { IfOk result (λ G. ArePolys ring.now G) }
{
    let mut list = PolyList::new(alloc);
    if f.len() == 0 {
        return Ok(list);
    }
    list.push(Poly::monic(alloc, ring, f)?)?;
    Ok(list)
}

/// The number that a word writes, if it is at most a million.
fn number(word: &String) -> Option<u32>
    ensures { IfSome result (λ n. n ≤ 1000000) }
{
    let number = word.parse().ok()?;
    if number > 1_000_000 {
        return None;
    }
    Some(number)
}

/// The ring in two variables modulo 32003.
fn plane() -> Option<Ring>
    ensures valid { IfSome result (λ ring. IsRing ring) }
    ensures two { IfSome result (λ ring. places ring ≡ 2) }
{
    Some(Ring {
        modulus: Modulus::of(32003)?,
        variables: 2,
        parameters: 0,
        kind: Kind::Lex,
    })
}

/// The sum of so many terms, of which the number's digits to the base 300, times `step`, are the exponents.
#[tactic(auto, using(cgs_poly::proofs::TermLemmas::terms_have_length, cgs_list::proofs::ListLemmas::all_push))]
fn spread(alloc: Global, ring: &Ring, step: u32, terms: u32) -> Result<Poly, AllocError>
    requires ring { IsRing ring.now }
    requires two { places ring.now ≡ 2 }
    requires step { step ≤ 3 }
    requires few { terms ≤ 1000000 }
    ensures { IfOk result (λ f. IsPoly ring.now f) }
{
    let mut list = TermList::new(alloc);
    for number in 0..terms {
        let exponents = [(number / 300) as u16, (number % 300 * step) as u16];
        let coefficient = ring.modulus.of_u64(u64::from(number % 32002) + 1);
        list.push(coefficient, &exponents)?;
    }
    let sum = Poly::of_terms(alloc, ring, &list)?;
    Ok(sum)
}

/// The first variable and nine powers of the second that are far apart.
#[tactic(auto, using(cgs_poly::proofs::TermLemmas::terms_have_length, cgs_list::proofs::ListLemmas::all_push))]
fn far(alloc: Global, ring: &Ring) -> Result<Poly, AllocError>
    requires ring { IsRing ring.now }
    requires two { places ring.now ≡ 2 }
    ensures { IfOk result (λ f. IsPoly ring.now f) }
{
    let mut list = TermList::new(alloc);
    for number in 0..10u32 {
        let exponents = [(number / 9) as u16, (number % 9 * 37) as u16];
        let coefficient = ring.modulus.of_u64(u64::from(number) + 1);
        list.push(coefficient, &exponents)?;
    }
    let sum = Poly::of_terms(alloc, ring, &list)?;
    Ok(sum)
}

/// One operation on f and g.
fn operated(
    alloc: Global,
    ring: &Ring,
    operation: Operation,
    f: &Poly,
    g: &Poly,
) -> Result<Poly, PolyFault>
    requires ring { IsRing ring.now }
    requires first { IsPoly ring.now f.now }
    requires second { IsPoly ring.now g.now }
{
    match operation {
        Operation::Product => Poly::product(alloc, ring, f, g),
        Operation::Add | Operation::Divide | Operation::DivideFar => Ok(Poly::add(
            alloc, ring, f, g,
        )?),
    }
}
