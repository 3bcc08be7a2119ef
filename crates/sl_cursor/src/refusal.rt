//! Why a part of a source is refused.

ghost use Rattle.std.specs.Prelude.{◌≡◌, List, IfOk};
ghost use Rattle.def_tree.specs.Fault.{fault_at, named_by};
ghost use Rattle.sl_token.specs.View.{kind_of, token_in, slice_of};
ghost use Rattle.sl_cursor.specs.Parts.{TellsThis, TellsUnread};

use crate::source::Unread;
use sl_base::{Bytes, List, NoMemory, Place, Refusal, code};
use sl_token::{Kind, Span, Token, text_at};
use std::alloc::Global;

/// The refusal that tells why nothing is read.
pub fn refusal_of(alloc: Global, source: &[u8], unread: Unread) -> Refusal
    ensures { TellsUnread source.now unread result }
{
    match unread {
        Unread::Refused(Some(reach)) => refusal(alloc, source, reach.told.code, reach.told.token),
        Unread::Refused(None) => refusal(alloc, source, code::UNEXPECTED_TOKEN, NO_TOKEN),
        Unread::Deep(told) => refusal(alloc, source, told.code, told.token),
        Unread::NoMemory => Refusal::NoMemory,
    }
}

// The end of no tokens. Tokens have an end, so that nothing is told of it.
const NO_TOKEN: Token = Token {
    kind: Kind::End,
    span: Span { start: 0, end: 0 },
    place: Place { line: 1, column: 1 },
};

/// The refusal by a code at a token.
pub fn refusal(alloc: Global, source: &[u8], code: u16, token: Token) -> Refusal
    ensures { TellsThis (fault_at code (token_in source.now token)) result }
{
    match args_at(alloc, source, code, token) {
        Ok(args) => Refusal::Diag {
            at: token.place,
            code,
            args,
        },
        Err(NoMemory) => Refusal::NoMemory,
    }
}

// The arguments of what is told at a token: of E110 the token, of others none.
fn args_at(alloc: Global, source: &[u8], code: u16, token: Token) -> Result<List<Bytes>, NoMemory>
    ensures { IfOk result (λ args. args ≡ (fault_at code (token_in source.now token)).args) }
{
    let mut args = List::new(alloc);
    if code == code::UNEXPECTED_TOKEN {
        args.push(List::from_slice(alloc, name_of(source, token))?)?;
    }
    Ok(args)
}

// How a token is named where it is refused.
fn name_of(source: &[u8], token: Token) -> &[u8]
    ensures { result.now ≡ named_by (kind_of token.kind) (slice_of source.now token.span) }
{
    match token.kind {
        Kind::End => b"end of file",
        _ => text_at(source, token.span),
    }
}
