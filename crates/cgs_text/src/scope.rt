//! What a polynomial is read with.

ghost use Rattle.std.specs.Prelude.{◌≡◌, ◌<◌, ◌≤◌, length, IfOk, position, bytes_eq};
ghost use Rattle.cgs_list.specs.Results.{Answers};
ghost use Rattle.cgs_problem.specs.Sums.{place_of};
ghost use Rattle.cgs_text.specs.Refusals.{kind_told};
ghost use Rattle.cgs_text.specs.Scopes.{reader_in};

use crate::refusal::LineRefused;
use cgs_poly::Ring;
use cgs_problem::{Text, TextKind};

/// The ring, and a name for each of its places. The first places may be barred, and the degree of a product has a limit.
#[derive(Clone, Copy)]
pub(crate) struct Scope<'a> {
    pub(crate) ring: &'a Ring,
    pub(crate) names: &'a [Text],
    pub(crate) barred: u32,
    pub(crate) most: u32,
}

impl<'a> Scope<'a> {
    /// The place of a name that may stand there.
    pub(crate) fn place_of(&self, name: &[u8]) -> Result<usize, LineRefused>
        ensures place { Answers (λ place. place) kind_told result (place_of (reader_in self.now) name.now) }
        ensures within { IfOk result (λ place. place < length self.now.names.now) }
        ensures allowed { IfOk result (λ place. self.now.barred ≤ place) }
    {
        let Some(place) = place_among(self.names, name) else {
            return Err(LineRefused::Kind(TextKind::Unknown));
        };
        if place < self.barred as usize {
            return Err(LineRefused::Kind(TextKind::Variable));
        }
        Ok(place)
    }
}

fn place_among(names: &[Text], name: &[u8]) -> Option<usize>
    ensures { result ≡ position (bytes_eq name.now) names.now }
{
    names.iter().position(|other| is_same(name, other))
}

/// Whether a name is these bytes.
pub(crate) fn is_same(name: &[u8], other: &Text) -> bool
    ensures { result ≡ bytes_eq name.now other.now }
{
    name == other.as_slice()
}
