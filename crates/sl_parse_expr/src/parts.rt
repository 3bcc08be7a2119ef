//! Parts of a source: whole expressions and statements.

ghost use Rattle.std.specs.Prelude.{◌+◌, ◌<◌, ◌≤◌, ◌^◌, length, IfOk, IfErr};
ghost use Rattle.def_token.specs.Lexical.{HasTokens};
ghost use Rattle.def_tree.specs.Limits.{all_open, stmt_entries, whole_entries};
ghost use Rattle.def_tree.specs.Part.{IsExprPart, IsStmtPart};
ghost use Rattle.sl_token.specs.View.{Tells, tokens_in};
ghost use Rattle.sl_tree.specs.View.{expr_in, stmt_in};
ghost use Rattle.sl_cursor.specs.Parts.{Answers, IsReadTo, HasFaultFrom};

use sl_base::Refusal;
use sl_cursor::nesting::Nesting;
use sl_cursor::refusal::{refusal, refusal_of};
use sl_cursor::source::{Here, Source, Unread};
use sl_look::ahead::ahead_of;
use sl_machine::whole;
use sl_stmt::statements;
use sl_token::Tokens;
use sl_tree::{ExprTree, StmtTree};
use std::alloc::Global;

/// The expression that begins at the token with the number `from`, counted from 0, and the number of the token behind it.
/// The tokens are the source's, as `lex` gives them. So many forms of each kind are open around it. All that can go on
/// belongs to the expression: an operator with two operands, `?`, `(`, `[`, `.` and `::`.
///
/// It is refused with E110 at the first token that no expression goes on with, with E111 at a token that opens the 65th
/// form of a kind, with E112 at the 1,025th token; the one that stands first is told.
///
/// The tokens are read in time that grows linearly with the number of those from `from` on.
pub fn expr(
    alloc: Global,
    bytes: &[u8],
    tokens: &Tokens,
    from: usize,
    depth: u32,
) -> Result<(ExprTree, usize), Refusal>
    requires tokens { HasTokens bytes.now (tokens_in bytes.now tokens.now) }
    requires from { from < length tokens.now }
    ensures read { let source = bytes.now in IfOk result (λ found. IsReadTo IsExprPart (whole_entries (all_open depth))
        (tokens_in source tokens.now) from (expr_in source found.0) found.1) }
    ensures fault { IfErr result (Tells (HasFaultFrom IsExprPart (whole_entries (all_open depth)) (tokens_in bytes.now tokens.now) from)) }
{
    let rest = &tokens.as_slice()[from..];
    let ahead = ahead_of(alloc, bytes, rest)?;
    let source = Source {
        alloc,
        bytes,
        tokens: rest,
        ahead: ahead.as_slice(),
    };
    let read = whole::expr(&source, &Nesting::all(depth), true, &Here::start(rest));
    part_of(&source, from, read)
}

/// The statement that begins at the token with the number `from`, counted from 0, and the number of the token behind it.
/// The tokens are the source's, as `lex` gives them. So many forms of each kind are open around it. An `else` behind the
/// statement of an `if` belongs to it.
///
/// It is refused as an expression is, and with E111 at the first token of the 65th block or statement inside others.
///
/// The tokens are read in time that grows linearly with the number of those from `from` on: what may be a local is read
/// twice at most.
pub fn stmt(
    alloc: Global,
    bytes: &[u8],
    tokens: &Tokens,
    from: usize,
    depth: u32,
) -> Result<(StmtTree, usize), Refusal>
    requires tokens { HasTokens bytes.now (tokens_in bytes.now tokens.now) }
    requires from { from < length tokens.now }
    ensures read { let source = bytes.now in IfOk result (λ found. IsReadTo IsStmtPart (stmt_entries (all_open depth))
        (tokens_in source tokens.now) from (stmt_in source found.0) found.1) }
    ensures fault { IfErr result (Tells (HasFaultFrom IsStmtPart (stmt_entries (all_open depth)) (tokens_in bytes.now tokens.now) from)) }
{
    let rest = &tokens.as_slice()[from..];
    let ahead = ahead_of(alloc, bytes, rest)?;
    let source = Source {
        alloc,
        bytes,
        tokens: rest,
        ahead: ahead.as_slice(),
    };
    let read = statements::stmt(&source, &Nesting::all(depth), &Here::start(rest));
    part_of(&source, from, read)
}

// The tree that is read from the token with the number `from` on, and the number of the token behind it.
fn part_of<T: Drop>(
    source: &Source<'_>,
    from: usize,
    read: Result<(T, Here<'_>), Unread>,
) -> Result<(T, usize), Refusal>
    requires fits { from + length source.now.tokens.now < 2 ^ 64 }
    requires within { IfOk read (λ found. found.1.place.at ≤ length source.now.tokens.now) }
    ensures { Answers source.now.bytes.now from read.entry result }
{
    let (tree, here) = match read {
        Ok(found) => found,
        Err(unread) => return Err(refusal_of(source.alloc, source.bytes, unread)),
    };
    match here.place.limit {
        None => Ok((tree, from + here.place.at)),
        Some(told) => Err(refusal(source.alloc, source.bytes, told.code, told.token)),
    }
}
