//! What holds of printing and reading together, for the proofs of the crates above. The functions do nothing.

ghost use Rattle.cgs_canonical.specs.RoundTrip.{ReadsBack, SpellsValid};

/// The text printed for a problem spells that problem again, for each problem that some text spells: so printing is
/// a canonical form of problem files.
pub fn printed_problems_read_back()
    ensures { ReadsBack }
{}

/// A text spells valid problems alone.
pub fn spelled_problems_are_valid()
    ensures { SpellsValid }
{}
