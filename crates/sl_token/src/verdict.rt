//! What a piece is: no token, a token, or a fault.

ghost use Rattle.std.specs.Prelude.{◌≡◌, slice_index};
ghost use Rattle.std.specs.Char.{is_ascii_digit};
ghost use Rattle.def_token.specs.Lexical.{verdict_of, word_verdict};
ghost use Rattle.sl_token.specs.Cutting.{class_of};
ghost use Rattle.sl_token.specs.Moving.{verdict_in};

use crate::keyword::is_keyword;
use crate::number::number_of;
use crate::piece::Class;
use crate::token::Kind;
use sl_base::{code, is_name};

/// What a piece is.
#[derive(Clone, Copy, Debug, PartialEq, Eq)]
pub enum Verdict {
    /// No token.
    Skipped,
    /// A token.
    Token(Kind),
    /// A fault, by the code of its diagnostic.
    Fault(u16),
}

/// What a piece of a class is.
pub fn verdict_of(class: Class, piece: &[u8]) -> Verdict
    ensures { verdict_in result ≡ verdict_of (class_of class) piece.now }
{
    match class {
        Class::Space | Class::Comment => Verdict::Skipped,
        Class::OpenComment => Verdict::Fault(code::COMMENT_NOT_CLOSED),
        Class::Word => word_verdict(piece),
        Class::Quoted => Verdict::Token(Kind::Text),
        Class::OpenQuoted => Verdict::Fault(code::STRING_NOT_CLOSED),
        Class::Symbol => Verdict::Token(Kind::Mark),
        Class::Stray => Verdict::Fault(code::UNEXPECTED_BYTE),
    }
}

/// What a word is. One that is no keyword, name or number is refused by its first byte.
fn word_verdict(word: &[u8]) -> Verdict
    ensures { verdict_in result ≡ word_verdict word.now }
{
    if is_keyword(word) {
        Verdict::Token(Kind::Keyword)
    } else if is_name(word) {
        Verdict::Token(Kind::Name)
    } else if number_of(word).is_some() {
        Verdict::Token(Kind::Number)
    } else if begins_with_digit(word) {
        Verdict::Fault(code::BAD_NUMBER)
    } else {
        Verdict::Fault(code::NAME_TOO_LONG)
    }
}

fn begins_with_digit(word: &[u8]) -> bool
    ensures { result ≡ is_ascii_digit (slice_index word.now 0) }
{
    match word {
        [] => false,
        [first, ..] => first.is_ascii_digit(),
    }
}
