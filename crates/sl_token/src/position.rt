//! How far the lexer has come in a source.

ghost use Rattle.std.specs.Prelude.{◌≡◌, ◌+◌, ◌<◌, ◌^◌, [], length, IsTrue};
ghost use Rattle.std.specs.List.{list_all};
ghost use Rattle.def_token.specs.Lexeme.{IsPiece, is_in_line};
ghost use Rattle.sl_token.specs.Cutting.{class_of};
ghost use Rattle.sl_token.specs.View.{kind_of, place_of};
ghost use Rattle.sl_token.specs.Moving.{IsBehind, IsTokenAt, next_place, place_after};

use crate::piece::Class;
use crate::token::{Kind, Span, Token};
use sl_base::Place;

/// How many bytes lie behind, and the place of the next one.
#[derive(Clone, Copy, Debug)]
pub struct Position {
    pub offset: u32,
    pub place: Place,
}

impl Position {
    /// The beginning of a source.
    pub fn start() -> Position
        ensures { IsBehind [] result }
    {
        let place = Place { line: 1, column: 1 };
        Position { offset: 0, place }
    }

    /// The position behind more bytes.
    pub fn behind(self, bytes: &[u8]) -> Position
        requires offset { self.offset + length bytes.now < 2 ^ 32 }
        requires line { self.place.line + length bytes.now < 2 ^ 32 }
        requires column { self.place.column + length bytes.now < 2 ^ 32 }
        ensures offset { result.offset ≡ self.offset + length bytes.now }
        ensures place { place_of result.place ≡ place_after (place_of self.place) bytes.now }
    {
        Position {
            offset: self.offset + bytes.len() as u32,
            place: place_after(self.place, bytes),
        }
    }

    /// The position behind a piece of a class. A word has no line end.
    pub fn past(self, class: Class, piece: &[u8]) -> Position
        requires offset { self.offset + length piece.now < 2 ^ 32 }
        requires line { self.place.line + length piece.now < 2 ^ 32 }
        requires column { self.place.column + length piece.now < 2 ^ 32 }
        requires piece { IsPiece (class_of class) piece.now }
        ensures offset { result.offset ≡ self.offset + length piece.now }
        ensures place { place_of result.place ≡ place_after (place_of self.place) piece.now }
    {
        match class {
            Class::Word => self.along(piece),
            _ => self.behind(piece),
        }
    }

    /// The position behind more bytes of the same line.
    fn along(self, bytes: &[u8]) -> Position
        requires offset { self.offset + length bytes.now < 2 ^ 32 }
        requires column { self.place.column + length bytes.now < 2 ^ 32 }
        requires line { IsTrue (list_all is_in_line bytes.now) }
        ensures offset { result.offset ≡ self.offset + length bytes.now }
        ensures place { place_of result.place ≡ place_after (place_of self.place) bytes.now }
    {
        let len = bytes.len() as u32;
        let place = Place {
            line: self.place.line,
            column: self.place.column + len,
        };
        Position {
            offset: self.offset + len,
            place,
        }
    }

    /// The token that stands here with these bytes.
    pub fn token(self, kind: Kind, bytes: &[u8]) -> Token
        requires { self.offset + length bytes.now < 2 ^ 32 }
        ensures { IsTokenAt self (kind_of kind) (length bytes.now) result }
    {
        let span = Span {
            start: self.offset,
            end: self.offset + bytes.len() as u32,
        };
        Token {
            kind,
            span,
            place: self.place,
        }
    }
}

/// The place behind more bytes.
fn place_after(place: Place, bytes: &[u8]) -> Place
    requires line { place.line + length bytes.now < 2 ^ 32 }
    requires column { place.column + length bytes.now < 2 ^ 32 }
    ensures { place_of result ≡ place_after (place_of place) bytes.now }
{
    let mut place = place;
    for byte in bytes {
        place = next_place(place, *byte);
    }
    place
}

/// The place behind one more byte. Lines end with line feeds alone.
fn next_place(place: Place, byte: u8) -> Place
    requires line { place.line + 1 < 2 ^ 32 }
    requires column { place.column + 1 < 2 ^ 32 }
    ensures { place_of result ≡ next_place (place_of place) byte }
{
    if byte == b'\n' {
        Place {
            line: place.line + 1,
            column: 1,
        }
    } else {
        Place {
            line: place.line,
            column: place.column + 1,
        }
    }
}
