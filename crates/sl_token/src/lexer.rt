//! A module's source as tokens.

ghost use Rattle.std.specs.Prelude.{◌≡◌, ◌+◌, ◌<◌, ◌≤◌, ◌^◌, length, IfOk, IfErr, OnOk, slice_index};
ghost use Rattle.std.specs.List.{All};
ghost use Rattle.def_token.specs.Lexical.{HasTokens, HasLexicalFault, args_of, hexadecimal_byte, hexadecimal_digit, IsFault, verdict_of};
ghost use Rattle.sl_token.specs.Cutting.{class_of};
ghost use Rattle.sl_token.specs.Moving.{Adds, TellsVerdict, mark_len};
ghost use Rattle.sl_token.specs.View.{IsWithin, Tells, tokens_in};

use crate::piece::{Class, first_piece};
use crate::position::Position;
use crate::token::{Kind, Tokens};
use crate::verdict::{Verdict, verdict_of};
use sl_base::{Bytes, List, NoMemory, Place, Refusal, code};
use std::alloc::Global;

/// The UTF-8 byte order mark (Unicode, 23.8, "Specials").
const BYTE_ORDER_MARK: [u8; 3] = [0xef, 0xbb, 0xbf];

/// Why a source was not made tokens: its first lexical fault, or memory ran out.
pub type LexRefusal = Refusal;

/// The tokens of a source, or its first lexical fault. Faults are E101 (a byte that begins no
/// token), E102 (a comment without an end), E103 (a bad number), E104 (a name of more than 255
/// bytes) and E105 (a string without an end).
///
/// The source is read once, in time that grows linearly with its length.
pub fn lex(alloc: Global, bytes: &[u8]) -> Result<Tokens, LexRefusal>
    requires { length bytes.now + 1 < 2 ^ 32 }
    ensures tokens { IfOk result (λ tokens. HasTokens bytes.now (tokens_in bytes.now tokens)) }
    ensures within { IfOk result (All (λ token. IsWithin (length bytes.now) token.span)) }
    ensures fault { IfErr result (Tells (HasLexicalFault bytes.now)) }
{
    let mut tokens = List::new(alloc);
    let (mark, mut rest) = bytes.split_at(mark_len(bytes));
    let mut here = Position::start().behind(mark);
    while !rest.is_empty() {
        let (class, len) = first_piece(rest);
        let (piece, after) = rest.split_at(len);
        put(alloc, &mut tokens, here, class, piece)?;
        here = here.past(class, piece);
        rest = after;
    }
    tokens.push(here.token(Kind::End, &[]))?;
    Ok(tokens)
}

/// How many bytes the byte order mark has that a source begins with.
fn mark_len(bytes: &[u8]) -> usize
    ensures value { result ≡ mark_len bytes.now }
    ensures within { result ≤ length bytes.now }
{
    if bytes.starts_with(&BYTE_ORDER_MARK) {
        BYTE_ORDER_MARK.len()
    } else {
        0
    }
}

/// Puts the token at the end that a piece is, if it is one. A fault is refused.
fn put(
    alloc: Global,
    tokens: &mut Tokens,
    here: Position,
    class: Class,
    piece: &[u8],
) -> Result<(), Refusal>
    requires { here.offset + length piece.now < 2 ^ 32 }
    ensures ok { OnOk result
        (Adds (verdict_of (class_of class) piece.now) here (length piece.now) tokens.old tokens.new) }
    ensures err { IfErr result (TellsVerdict (verdict_of (class_of class) piece.now) piece.now here.place) }
{
    match verdict_of(class, piece) {
        Verdict::Skipped => Ok(()),
        Verdict::Token(kind) => {
            tokens.push(here.token(kind, piece))?;
            Ok(())
        }
        Verdict::Fault(code) => Err(refusal(alloc, here.place, code, piece)),
    }
}

/// The refusal of a piece with a fault at a place.
fn refusal(alloc: Global, at: Place, code: u16, piece: &[u8]) -> Refusal
    ensures { TellsVerdict (IsFault code) piece.now at result }
{
    match args_of(alloc, code, piece) {
        Ok(args) => Refusal::Diag { at, code, args },
        Err(NoMemory) => Refusal::NoMemory,
    }
}

/// The arguments of a diagnostic about a piece. The only error is that memory ran out.
fn args_of(alloc: Global, code: u16, piece: &[u8]) -> Result<List<Bytes>, NoMemory>
    ensures { IfOk result (λ args. args ≡ args_of code piece.now) }
{
    let mut args = List::new(alloc);
    if code == code::UNEXPECTED_BYTE {
        args.push(hexadecimal_byte(alloc, first_byte(piece))?)?;
    }
    Ok(args)
}

/// The first byte of a piece, or 0 where there is none.
fn first_byte(piece: &[u8]) -> u8
    ensures { result ≡ slice_index piece.now 0 }
{
    match piece {
        [] => 0,
        [first, ..] => *first,
    }
}

/// A byte in two digits of base 16. The only error is that memory ran out.
fn hexadecimal_byte(alloc: Global, byte: u8) -> Result<Bytes, NoMemory>
    ensures { IfOk result (λ text. text ≡ hexadecimal_byte byte) }
{
    Bytes::from_slice(
        alloc,
        &[hexadecimal_digit(byte / 16), hexadecimal_digit(byte % 16)],
    )
}

/// A digit of base 16, with lower-case letters.
fn hexadecimal_digit(digit: u8) -> u8
    requires { digit < 16 }
    ensures { result ≡ hexadecimal_digit digit }
{
    if digit < 10 {
        b'0' + digit
    } else {
        b'a' - 10 + digit
    }
}
