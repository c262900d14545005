//! A problem.

use cgs_list::ItemList;
use cgs_point::PointList;
use cgs_poly::{Poly, PolyList, Ring};

/// Bytes of a text.
pub type Text = ItemList<u8>;

/// A list of names.
pub type NameList = ItemList<Text>;

/// Polynomials in variables and parameters over a prime field, with conditions on the parameters. `names` has a name
/// for each variable and then for each parameter, in the order of the file.
#[derive(Debug, Drop)]
pub struct Problem {
    pub ring: Ring,
    pub names: NameList,
    /// What has to vanish, in the parameters alone.
    pub zero: PolyList,
    /// What must not vanish, in the parameters alone.
    pub nonzero: PolyList,
    pub polys: PolyList,
    /// What is claimed to follow.
    pub thesis: Option<Poly>,
    pub points: PointList,
}
