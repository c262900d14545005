//! The printed text of a polynomial.

ghost use Rattle.std.specs.Prelude.{◌≡◌, ◌≤◌, ◌==◌, ◌&&◌, not, [], ◌++◌, length, if◌then◌else◌, decimal};
ghost use Rattle.std.specs.List.{list_all};
ghost use Rattle.cgs_poly.specs.Polynomial.{IsRing, IsPoly, places};
ghost use Rattle.cgs_canonical.specs.Printing.{polynomial_text, term_text, power_text, powers_text, following, Prints};

use crate::push::push_all;
use cgs_field::Elem;
use cgs_poly::{Poly, Ring, Term};
use cgs_problem::{NameList, Text};
use itoa::Buffer;
use std::alloc::AllocError;

/// The terms from the greatest monomial on, joined by plus signs.
pub(crate) fn polynomial_text(
    ring: &Ring,
    names: &[Text],
    f: &Poly,
    out: &mut Text,
) -> Result<(), AllocError>
    requires ring { IsRing ring.now }
    requires named { length names.now ≡ places ring.now }
    requires poly { IsPoly ring.now f.now }
    ensures { Prints result out.old out.new (polynomial_text ring.now names.now f.now) }
{
    if f.len() == 0 {
        return out.extend_from_slice(b"0");
    }
    term_text(ring, names, f.term(0), out)?;
    for i in 1..f.len() {
        out.extend_from_slice(b"+")?;
        term_text(ring, names, f.term(i), out)?;
    }
    Ok(())
}

/// The coefficient, unless the term is bare, and the powers, the parameters' before the variables'.
fn term_text(ring: &Ring, names: &[Text], term: Term, out: &mut Text) -> Result<(), AllocError>
    requires ring { IsRing ring.now }
    requires named { length names.now ≡ places ring.now }
    requires places { length term.exponents.now ≡ places ring.now }
    ensures { Prints result out.old out.new (term_text ring.now names.now (record { coefficient = term.entry.coefficient; exponents = term.entry.exponents.now })) }
{
    let (variable_names, parameter_names) = names.split_at(ring.variables as usize);
    let (variables, parameters) = term.exponents.split_at(ring.variables as usize);
    let bare = is_bare(term.coefficient, term.exponents);
    coefficient_text(term.coefficient, bare, out)?;
    powers_text(parameter_names, parameters, bare, out)?;
    powers_text(variable_names, variables, bare && is_one(parameters), out)
}

/// Whether the coefficient of a term is left out: it is 1, and a power follows.
fn is_bare(coefficient: Elem, exponents: &[u16]) -> bool
    ensures { result ≡ (coefficient == 1 && not (list_all (λ exponent. exponent == 0) exponents.now)) }
{
    coefficient.number() == 1 && !is_one(exponents)
}

/// Whether no variable and no parameter stands in a monomial.
fn is_one(exponents: &[u16]) -> bool
    ensures { result ≡ list_all (λ exponent. exponent == 0) exponents.now }
{
    exponents.iter().all(|exponent| *exponent == 0)
}

/// The coefficient of a term, unless it is left out.
fn coefficient_text(coefficient: Elem, bare: bool, out: &mut Text) -> Result<(), AllocError>
    ensures { Prints result out.old out.new (if bare then [] else decimal coefficient) }
{
    if bare {
        return Ok(());
    }
    let mut buffer = Buffer::new();
    out.extend_from_slice(buffer.format(coefficient.number()).as_bytes())
}

/// Powers of a term, an asterisk before each, but not before the first of a bare term, of which nothing is printed yet.
fn powers_text(
    names: &[Text],
    exponents: &[u16],
    bare: bool,
    out: &mut Text,
) -> Result<(), AllocError>
    requires { length names.now ≡ length exponents.now }
    ensures { Prints result out.old out.new (following bare (powers_text names.now exponents.now)) }
{
    let mut bare = bare;
    for (name, exponent) in names.iter().zip(exponents) {
        if *exponent > 0 {
            let separator: &[u8] = if bare { b"" } else { b"*" };
            power_text(separator, name.as_slice(), *exponent, out)?;
            bare = false;
        }
    }
    Ok(())
}

/// A power after a separator, with no exponent where it is 1.
fn power_text(
    separator: &[u8],
    name: &[u8],
    exponent: u16,
    out: &mut Text,
) -> Result<(), AllocError>
    ensures { Prints result out.old out.new (separator.now ++ power_text name.now exponent) }
{
    if exponent == 1 {
        return push_all(out, &[separator, name]);
    }
    let mut buffer = Buffer::new();
    push_all(
        out,
        &[separator, name, b"^", buffer.format(exponent).as_bytes()],
    )
}

/// Appends the printed text of a polynomial. Place i of a monomial has the name at place i. For want of memory a front
/// of the text is appended.
pub fn poly_text(ring: &Ring, names: &NameList, f: &Poly, out: &mut Text) -> Result<(), AllocError>
    requires ring { IsRing ring.now }
    requires named { places ring.now ≤ length names.now }
    requires poly { IsPoly ring.now f.now }
    ensures { Prints result out.old out.new (polynomial_text ring.now names.now f.now) }
{
    let first_names = &names.as_slice()[..ring.places()];
    polynomial_text(ring, first_names, f, out)
}
