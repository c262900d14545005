//! The kinds of term order.

ghost use Rattle.std.specs.Prelude.{◌≡◌};
ghost use Rattle.cgs_order.specs.Words.{word_of, kind_named};

/// A kind of term order (Cox, Little, O'Shea, chapter 2, section 2).
#[derive(Clone, Copy, Debug, PartialEq, Eq)]
pub enum Kind {
    /// Lexicographic.
    Lex,
    /// By degree, then lexicographic.
    GrLex,
    /// By degree, then reverse lexicographic.
    GrevLex,
}

impl Kind {
    /// The word that stands for the kind in a file.
    pub fn word(self) -> &'static [u8]
        ensures { result.now ≡ word_of self }
    {
        match self {
            Kind::Lex => b"lex",
            Kind::GrLex => b"grlex",
            Kind::GrevLex => b"grevlex",
        }
    }

    /// The kind for which a word stands.
    pub fn named(word: &[u8]) -> Option<Kind>
        ensures { result ≡ kind_named word.now }
    {
        if word == Kind::Lex.word() {
            return Some(Kind::Lex);
        }
        if word == Kind::GrLex.word() {
            return Some(Kind::GrLex);
        }
        if word == Kind::GrevLex.word() {
            return Some(Kind::GrevLex);
        }
        None
    }
}
