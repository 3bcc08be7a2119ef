//! Tokens.

ghost use Rattle.std.specs.Prelude.{◌≡◌};
ghost use Rattle.sl_token.specs.View.{slice_of};

use sl_base::{List, Place};

/// What a token is.
#[derive(Clone, Copy, Debug, PartialEq, Eq)]
pub enum Kind {
    /// A word that is no keyword and begins with no digit.
    Name,
    /// A word of the grammar.
    Keyword,
    /// A word that `number_of` knows.
    Number,
    /// A string with its quotation marks.
    Text,
    /// One of the marks; `>` is always one by itself.
    Mark,
    /// The end of the source.
    End,
}

/// A part of a module's source: the offsets in bytes where it begins and where it ends.
#[derive(Clone, Copy, Debug, PartialEq, Eq, PartialOrd, Ord)]
pub struct Span {
    pub start: u32,
    pub end: u32,
}

/// A token: what it is, where its bytes stand in the source, and the place of the first of them.
#[derive(Clone, Copy, Debug, PartialEq, Eq)]
pub struct Token {
    pub kind: Kind,
    pub span: Span,
    pub place: Place,
}

/// The tokens of a source in order, of which the last one alone is its end.
pub type Tokens = List<Token>;

/// The bytes of a source at a span, of which no more are taken than there are.
pub fn text_at(source: &[u8], span: Span) -> &[u8]
    ensures { result.now ≡ slice_of source.now span }
{
    let start = (span.start as usize).min(source.len());
    let behind = &source[start..];
    let many = span.end.saturating_sub(span.start) as usize;
    &behind[..many.min(behind.len())]
}
