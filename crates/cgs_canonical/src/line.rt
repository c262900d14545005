//! The printed lines of a problem.

ghost use Rattle.std.specs.Prelude.{◌≡◌, length, flat_map, IfSome};
ghost use Rattle.cgs_poly.specs.Polynomial.{IsRing, IsPoly, places, ArePolys};
ghost use Rattle.cgs_canonical.specs.Printing.{field_line, names_line, order_line, polynomial_line, polynomial_lines, thesis_line, point_line, Prints};

use crate::polynomial::polynomial_text;
use crate::push::push_all;
use cgs_field::Modulus;
use cgs_order::Kind;
use cgs_point::Point;
use cgs_poly::{Poly, Ring};
use cgs_problem::Text;
use itoa::Buffer;
use std::alloc::AllocError;

/// The line of the modulus.
pub(crate) fn field_line(modulus: Modulus, out: &mut Text) -> Result<(), AllocError>
    ensures { Prints result out.old out.new (field_line modulus) }
{
    let mut buffer = Buffer::new();
    push_all(
        out,
        &[b"field ", buffer.format(modulus.value()).as_bytes(), b"\n"],
    )
}

/// The line of a keyword and names, a space before each.
pub(crate) fn names_line(keyword: &[u8], names: &[Text], out: &mut Text) -> Result<(), AllocError>
    ensures { Prints result out.old out.new (names_line keyword.now names.now) }
{
    out.extend_from_slice(keyword)?;
    for name in names {
        push_all(out, &[b" ", name.as_slice()])?;
    }
    out.extend_from_slice(b"\n")
}

/// The line of the term order.
pub(crate) fn order_line(kind: Kind, out: &mut Text) -> Result<(), AllocError>
    ensures { Prints result out.old out.new (order_line kind) }
{
    push_all(out, &[b"order ", kind.word(), b"\n"])
}

/// The line of a keyword and a polynomial.
fn polynomial_line(
    keyword: &[u8],
    ring: &Ring,
    names: &[Text],
    f: &Poly,
    out: &mut Text,
) -> Result<(), AllocError>
    requires ring { IsRing ring.now }
    requires named { length names.now ≡ places ring.now }
    requires poly { IsPoly ring.now f.now }
    ensures { Prints result out.old out.new (polynomial_line keyword.now ring.now names.now f.now) }
{
    push_all(out, &[keyword, b" "])?;
    polynomial_text(ring, names, f, out)?;
    out.extend_from_slice(b"\n")
}

/// Appends a line of a keyword for each polynomial. For want of memory a front of the lines is appended.
pub fn polynomial_lines(
    keyword: &[u8],
    ring: &Ring,
    names: &[Text],
    list: &[Poly],
    out: &mut Text,
) -> Result<(), AllocError>
    requires ring { IsRing ring.now }
    requires named { length names.now ≡ places ring.now }
    requires polys { ArePolys ring.now list.now }
    ensures { Prints result out.old out.new (polynomial_lines keyword.now ring.now names.now list.now) }
{
    for f in list {
        polynomial_line(keyword, ring, names, f, out)?;
    }
    Ok(())
}

/// The line of a thesis, if there is one.
pub(crate) fn thesis_line(
    ring: &Ring,
    names: &[Text],
    thesis: &Option<Poly>,
    out: &mut Text,
) -> Result<(), AllocError>
    requires ring { IsRing ring.now }
    requires named { length names.now ≡ places ring.now }
    requires poly { IfSome thesis.now (IsPoly ring.now) }
    ensures { Prints result out.old out.new (thesis_line ring.now names.now thesis.now) }
{
    match thesis {
        Some(f) => polynomial_line(b"thesis", ring, names, f, out),
        None => Ok(()),
    }
}

/// A line for each point.
pub(crate) fn point_lines(points: &[Point], out: &mut Text) -> Result<(), AllocError>
    ensures { Prints result out.old out.new (flat_map point_line points.now) }
{
    for point in points {
        point_line(point, out)?;
    }
    Ok(())
}

/// Appends the line of a point, a space before each number. For want of memory a front of it is appended.
pub fn point_line(point: &Point, out: &mut Text) -> Result<(), AllocError>
    ensures { Prints result out.old out.new (point_line point.now) }
{
    out.extend_from_slice(b"point")?;
    for number in point.as_slice() {
        let mut buffer = Buffer::new();
        push_all(out, &[b" ", buffer.format(number.number()).as_bytes()])?;
    }
    out.extend_from_slice(b"\n")
}
