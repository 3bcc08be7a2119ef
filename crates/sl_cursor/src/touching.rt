//! Signs that `>` makes with what touches it.

ghost use Rattle.std.specs.Prelude.{◌≡◌};
ghost use Rattle.def_tree.specs.Operator as lists;
ghost use Rattle.def_tree.specs.Symbol.{symbol};
ghost use Rattle.sl_token.specs.View.{token_in, tokens_in};
ghost use Rattle.sl_cursor.specs.Joining.{joins_text};

use crate::signs::is_sign;
use sl_token::{Kind, Token, text_at};

/// The text of the sign with which tokens begin, as expressions read it.
pub fn sign_at<'a>(source: &'a [u8], tokens: &[Token]) -> &'a [u8]
    ensures { result.now ≡ (lists.sign_at (tokens_in source.now tokens.now)).0 }
{
    let Some((first, behind)) = tokens.split_first() else {
        return &[];
    };
    if is_sign(source, *first, ">") {
        after_one(source, *first, behind)
    } else {
        sign_text(source, *first)
    }
}

/// The text of a sign that does not begin with `>`.
fn sign_text<'a>(source: &'a [u8], token: Token) -> &'a [u8]
    ensures { result.now ≡ lists.sign_text (symbol (token_in source.now token)) }
{
    match token.kind {
        Kind::Mark | Kind::Keyword => {
            let text = text_at(source, token.span);
            match text.first() {
                Some(b'>') => &[],
                _ => text,
            }
        }
        Kind::Name | Kind::Number | Kind::Text | Kind::End => &[],
    }
}

/// The text of the sign that `>` is with the tokens behind it.
fn after_one(source: &[u8], first: Token, behind: &[Token]) -> &'static [u8]
    ensures { result.now ≡ (lists.after_one (token_in source.now first) (tokens_in source.now behind.now)).0 }
{
    let Some((second, rest)) = behind.split_first() else {
        return b">";
    };
    if joins(source, first, ">", *second) {
        after_two(source, *second, rest)
    } else if joins(source, first, "=", *second) {
        b">="
    } else {
        b">"
    }
}

/// The text of the sign that `>>` is with the tokens behind it.
fn after_two(source: &[u8], second: Token, behind: &[Token]) -> &'static [u8]
    ensures { result.now ≡ (lists.after_two (token_in source.now second) (tokens_in source.now behind.now)).0 }
{
    match behind.first() {
        Some(third) if joins(source, second, "=", *third) => b">>=",
        _ => b">>",
    }
}

/// Whether a token is this sign and touches the one before it.
fn joins(source: &[u8], before: Token, sign: &str, token: Token) -> bool
    ensures { result ≡ joins_text sign.now (token_in source.now before) (token_in source.now token) }
{
    before.span.end == token.span.start && is_sign(source, token, sign)
}
