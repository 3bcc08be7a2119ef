//! The pieces of a text: white space, comments, words, strings and marks, and what should have
//! been one.

ghost use Rattle.std.specs.Prelude.{◌≡◌, ◌<◌, ◌+◌, ◌^◌, length};
ghost use Rattle.std.specs.List.{prefix_len};
ghost use Rattle.def_slang.specs.Name.{is_word_byte};
ghost use Rattle.def_slang.specs.Token.{is_white};
ghost use Rattle.def_token.specs.Lexeme.{is_in_line, is_in_quotes};
ghost use Rattle.sl_token.specs.Cutting.{before_end, block_comment, cut_of, first_piece, quoted, sign};

use crate::mark::mark_len;
use sl_base::is_word_byte;

/// The class of a piece.
#[derive(Clone, Copy, Debug, PartialEq, Eq)]
pub enum Class {
    Space,
    Comment,
    OpenComment,
    Word,
    Quoted,
    OpenQuoted,
    Symbol,
    Stray,
}

/// The class and the number of bytes of the longest piece that a text begins with.
pub fn first_piece(text: &[u8]) -> (Class, usize)
    requires { 0 < length text.now }
    ensures { cut_of result ≡ first_piece text.now }
{
    let first = text[0];
    if is_white(first) {
        (Class::Space, white_len(text))
    } else if is_word_byte(first) {
        (Class::Word, word_len(text))
    } else if first == b'"' {
        quoted(&text[1..])
    } else if text.starts_with(b"//") {
        (Class::Comment, line_len(text))
    } else if text.starts_with(b"/*") {
        block_comment(&text[2..])
    } else {
        sign(text)
    }
}

/// The string or the beginning of one that a quotation mark with these bytes behind it is.
fn quoted(body: &[u8]) -> (Class, usize)
    requires { length body.now + 1 < 2 ^ 63 }
    ensures { cut_of result ≡ quoted body.now }
{
    let inside = quoted_len(body);
    if inside < body.len() && body[inside] == b'"' {
        (Class::Quoted, inside + 2)
    } else {
        (Class::OpenQuoted, inside + 1)
    }
}

/// The comment or the beginning of one that `/*` with these bytes behind it is.
fn block_comment(body: &[u8]) -> (Class, usize)
    requires { length body.now + 2 < 2 ^ 63 }
    ensures { cut_of result ≡ block_comment body.now }
{
    let inside = before_end(body);
    if inside < body.len() {
        (Class::Comment, inside + 4)
    } else {
        (Class::OpenComment, inside + 2)
    }
}

/// The mark that a text begins with, or its one byte that begins nothing.
fn sign(text: &[u8]) -> (Class, usize)
    ensures { cut_of result ≡ sign text.now }
{
    match mark_len(text) {
        Some(len) => (Class::Symbol, len),
        None => (Class::Stray, 1),
    }
}

/// How many bytes stand before the first `*/`, or all where there is none.
fn before_end(text: &[u8]) -> usize
    ensures { result ≡ before_end text.now }
{
    for at in 0..text.len() {
        if text[at..].starts_with(b"*/") {
            return at;
        }
    }
    text.len()
}

fn is_white(byte: u8) -> bool
    ensures { result ≡ is_white byte }
{
    matches!(byte, b' ' | b'\t' | b'\n' | b'\r')
}

fn white_len(text: &[u8]) -> usize
    ensures { result ≡ prefix_len is_white text.now }
{
    text.iter().take_while(|b| is_white(**b)).count()
}

fn word_len(text: &[u8]) -> usize
    ensures { result ≡ prefix_len is_word_byte text.now }
{
    text.iter().take_while(|b| is_word_byte(**b)).count()
}

/// How many bytes stand before the first line feed, or all where there is none.
fn line_len(text: &[u8]) -> usize
    ensures { result ≡ prefix_len is_in_line text.now }
{
    text.iter().take_while(|b| **b != b'\n').count()
}

/// How many bytes stand before the first that cannot stand in a string, or all where there is none.
fn quoted_len(text: &[u8]) -> usize
    ensures { result ≡ prefix_len is_in_quotes text.now }
{
    text.iter()
        .take_while(|b| !matches!(**b, b'"' | b'\n' | b'\r'))
        .count()
}
