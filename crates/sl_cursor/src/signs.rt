//! Tests of tokens.

ghost use Rattle.std.specs.Prelude.{◌≡◌, [], ◌∷◌};
ghost use Rattle.def_tree.specs.Symbol.{is_wide, symbol};
ghost use Rattle.sl_token.specs.View.{token_in, tokens_in};
ghost use Rattle.sl_cursor.specs.Signs.{begins_text, ends, is_text, lead_in, narrows, numbers, texts};
ghost use Rattle.def_reading.specs.TypeAhead.{names};
ghost use Rattle.def_reading.specs.TypeReading as reading;
ghost use Rattle.def_tree.specs.TypeTree.{type_words};

use sl_token::{Kind, Token, text_at};
use sl_tree::TypeWord;

/// What begins a type.
#[derive(Clone, Copy, Debug, PartialEq, Eq)]
pub enum Lead {
    Word(TypeWord),
    Name,
    Neither,
}

/// Whether a token is a mark or a keyword of this text.
pub fn is_sign(source: &[u8], token: Token, sign: &str) -> bool
    ensures { result ≡ is_text sign.now (symbol (token_in source.now token)) }
{
    match token.kind {
        Kind::Mark | Kind::Keyword => text_at(source, token.span) == sign.as_bytes(),
        Kind::Name | Kind::Number | Kind::Text | Kind::End => false,
    }
}

/// Whether tokens begin with a mark or a keyword of this text.
pub fn begins_with(source: &[u8], tokens: &[Token], sign: &str) -> bool
    ensures { result ≡ begins_text sign.now (tokens_in source.now tokens.now) }
{
    match tokens.first() {
        None => false,
        Some(token) => is_sign(source, *token, sign),
    }
}

/// Whether a token is a name.
pub fn is_name(source: &[u8], token: Token) -> bool
    ensures { result ≡ names (symbol (token_in source.now token)) }
{
    match token.kind {
        Kind::Name => true,
        _ => false,
    }
}

/// Whether a token is the end.
pub fn is_end(source: &[u8], token: Token) -> bool
    ensures { result ≡ ends (symbol (token_in source.now token)) }
{
    match token.kind {
        Kind::End => true,
        _ => false,
    }
}

/// Whether a token is a number.
pub fn is_number(source: &[u8], token: Token) -> bool
    ensures { result ≡ numbers (symbol (token_in source.now token)) }
{
    match token.kind {
        Kind::Number => true,
        _ => false,
    }
}

/// Whether a token is a number of a type of 32 bits: it ends in none of `ll`, `LL`, `ull` and `ULL`.
pub fn is_narrow(source: &[u8], token: Token) -> bool
    ensures { result ≡ narrows (symbol (token_in source.now token)) }
{
    match token.kind {
        Kind::Number => !is_wide(text_at(source, token.span)),
        _ => false,
    }
}

/// Whether the last byte of a number's text is one of its letters `l` and `L`.
fn is_wide(text: &[u8]) -> bool
    ensures { result ≡ is_wide text.now }
{
    matches!(text.last(), Some(b'l' | b'L'))
}

/// Whether a token is a string.
pub fn is_text(source: &[u8], token: Token) -> bool
    ensures { result ≡ texts (symbol (token_in source.now token)) }
{
    match token.kind {
        Kind::Text => true,
        _ => false,
    }
}

/// What a token begins.
pub fn lead_of(source: &[u8], token: Token) -> Lead
    ensures { lead_in result ≡ reading.lead_of (symbol (token_in source.now token)) }
{
    match token.kind {
        Kind::Name => Lead::Name,
        Kind::Mark | Kind::Keyword => lead_among(text_at(source, token.span)),
        Kind::Number | Kind::Text | Kind::End => Lead::Neither,
    }
}

/// What a mark or a keyword of this text begins.
fn lead_among(text: &[u8]) -> Lead
    ensures { lead_in result ≡ reading.lead_among type_words text.now }
{
    match TypeWord::of(text) {
        Some(word) => Lead::Word(word),
        None => Lead::Neither,
    }
}
