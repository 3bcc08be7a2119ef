//! A text as tokens: words, the stage's string, and single bytes.

ghost use Rattle.std.specs.Prelude.{◌≡◌, ◌<◌, ◌≤◌, [], length, map, not, position, IfOk};
ghost use Rattle.sl_run.specs.Cutting.{behind_white, token_len, Cuts};
ghost use Rattle.def_slang.specs.Name.{is_word_byte};
ghost use Rattle.def_slang.specs.Token.{is_white};

use sl_base::{NoMemory, is_word_byte};
use std::alloc::Global;

/// The string that names the one stage, with its quotation marks.
const STAGE: &[u8] = b"\"compute\"";

fn is_white(byte: u8) -> bool
    ensures { result ≡ is_white byte }
{
    matches!(byte, b' ' | b'\t' | b'\n' | b'\r')
}

fn white_end(text: &[u8]) -> Option<usize>
    ensures { result ≡ position (λ b. not (is_white b)) text.now }
{
    text.iter().position(|b| !is_white(*b))
}

fn word_end(text: &[u8]) -> Option<usize>
    ensures { result ≡ position (λ b. not (is_word_byte b)) text.now }
{
    text.iter().position(|b| !is_word_byte(*b))
}

/// A text behind the white space that it begins with.
fn behind_white(text: &[u8]) -> &[u8]
    ensures { result.now ≡ behind_white text.now }
{
    match white_end(text) {
        Some(white) => &text[white..],
        None => &[],
    }
}

/// How many bytes the token has that a text begins with.
fn token_len(text: &[u8]) -> usize
    requires { 0 < length text.now }
    ensures value { result ≡ token_len text.now }
    ensures some { 0 < result }
    ensures within { result ≤ length text.now }
{
    match word_end(text) {
        None => text.len(),
        Some(0) if text.starts_with(STAGE) => STAGE.len(),
        Some(0) => 1,
        Some(word) => word,
    }
}

/// The tokens of a text, each as far as it goes.
pub fn tokens(alloc: Global, text: &[u8]) -> Result<Vec<&[u8]>, NoMemory>
    ensures { IfOk result (λ tokens. Cuts text.now (map (λ token. token.now) tokens.items)) }
{
    let mut tokens = Vec::new(alloc);
    let mut rest = behind_white(text);
    while !rest.is_empty() {
        let (token, after) = rest.split_at(token_len(rest));
        tokens.push(token)?;
        rest = behind_white(after);
    }
    Ok(tokens)
}
