//! Statements.

ghost use Rattle.std.specs.Prelude.{◌≡◌, ◌+◌, ◌<◌, ◌^◌, ℕ, true, List, map};
ghost use Rattle.std.specs.Option.{option_map};
ghost use Rattle.def_reading.specs.Machine.{sign_of, written};
ghost use Rattle.def_reading.specs.StmtReading as lists;
ghost use Rattle.def_reading.specs.Try.{try_as};
ghost use Rattle.def_tree.specs.Limits.{in_block, in_statement, opens, plain};
ghost use Rattle.def_tree.specs.StmtTree as tree;
ghost use Rattle.def_tree.specs.Symbol.{symbol};
ghost use Rattle.sl_token.specs.View.{token_in};
ghost use Rattle.sl_tree.specs.View.{stmt_in, stmts_of};
ghost use Rattle.sl_stmt.specs.Eithers.{either_in, made_of};
ghost use Rattle.sl_cursor.specs.Nestings.{nesting_in};
ghost use Rattle.sl_stmt.specs.Settling.{is_short, opening_in};
ghost use Rattle.sl_stmt.specs.Settling.{MaySettle};
ghost use Rattle.sl_stmt.specs.Eithers.{GoesOn};
ghost use Rattle.sl_cursor.specs.Following.{Follows, IsAt, IsPassed};
ghost use Rattle.sl_stmt.specs.Settling.{IsBegun, IsRoomy, Settles, SettlesIn, head_in, head_read, stmts_in, stmts_read};

use crate::either::{Either, local_or_simple};
use crate::heads::{bracket, condition, maybe_simple, maybe_value, start};
use sl_cursor::cursor::{FarthestFailure, Told, is_too_deep};
use sl_cursor::nesting::Nesting;
use sl_cursor::source::{Here, Source, Unread};
use sl_token::{Kind, Token, text_at};
use sl_tree::{ExprTree, SimpleTree, StartTree, StmtTree};
use sqlite_items::{Boxed, Items};

/// What stands between the brackets of a `for`.
#[derive(Debug, Drop)]
pub struct Head {
    pub start: StartTree,
    pub condition: Option<ExprTree>,
    pub step: Option<SimpleTree>,
}

/// A sign with which statements begin that are no locals and no simple statements.
#[derive(Clone, Copy, Debug, PartialEq, Eq)]
pub enum Opening {
    Brace,
    Semicolon,
    Return,
    Break,
    Continue,
    If,
    While,
    For,
}

/// The sign with which statements begin that a text is.
fn opening_among(text: &[u8]) -> Option<Opening>
    ensures { option_map opening_in result ≡ written lists.opening_text lists.openings text.now }
{
    if text == "{".as_bytes() {
        Some(Opening::Brace)
    } else if text == ";".as_bytes() {
        Some(Opening::Semicolon)
    } else if text == "return".as_bytes() {
        Some(Opening::Return)
    } else if text == "break".as_bytes() {
        Some(Opening::Break)
    } else if text == "continue".as_bytes() {
        Some(Opening::Continue)
    } else if text == "if".as_bytes() {
        Some(Opening::If)
    } else if text == "while".as_bytes() {
        Some(Opening::While)
    } else if text == "for".as_bytes() {
        Some(Opening::For)
    } else {
        None
    }
}

/// The sign with which statements begin that a token is.
fn opening_of(source: &[u8], token: Token) -> Option<Opening>
    ensures { option_map opening_in result
        ≡ sign_of lists.opening_text lists.openings (symbol (token_in source.now token)) }
{
    match token.kind {
        Kind::Mark | Kind::Keyword => opening_among(text_at(source, token.span)),
        Kind::Name | Kind::Number | Kind::Text | Kind::End => None,
    }
}

/// The statement that a local or a simple statement is.
fn stmt_of(either: Either) -> StmtTree
    ensures { (source : List ℕ) → stmt_in source result ≡ made_of tree.Local tree.Simple (either_in source either) }
{
    match either {
        Either::Local(local) => StmtTree::Local(local),
        Either::Simple(simple) => StmtTree::Simple(simple),
    }
}

/// Whether a way ends before a place, if there is one.
fn is_short(at: usize, reach: Option<FarthestFailure>) -> bool
    ensures { result ≡ is_short at reach }
{
    match reach {
        None => true,
        Some(reach) => reach.many < at,
    }
}

/// What is told whatever stands behind: a limit before a place that no way reaches.
fn decided(here: &Here<'_>) -> Option<Told>
    ensures { MaySettle here.now result }
{
    match here.place.limit {
        Some(told) if told.at < here.place.at && is_short(here.place.at, here.reach) => {
            Some(told)
        }
        _ => None,
    }
}

/// Where a body begins, which may be one too many.
fn begun<'a>(input: &Source<'_>, around: &Nesting, here: &Here<'a>) -> Here<'a>
    ensures { IsBegun input.now (opens (in_statement (nesting_in around.now)).statements) here.now result }
{
    match here.place.rest.split_first() {
        None => *here,
        Some((token, _)) => {
            here.noting(is_too_deep(around.statements, 0), here.place.at, *token)
        }
    }
}

/// The place behind an opening brace, which may be one too many.
fn braced<'a>(
    input: &Source<'_>,
    around: &Nesting,
    opening: Token,
    here: &Here<'a>,
    behind: &Here<'a>,
) -> Here<'a>
    requires { IsPassed input.now (λ symbol. true) plain here.now opening behind.now }
    ensures { IsPassed input.now (λ symbol. true) (opens (in_block (nesting_in around.now)).blocks)
        here.now opening result }
{
    behind.noting(is_too_deep(around.blocks, 0), here.place.at, opening)
}

/// A local or a simple statement.
fn flat<'a>(
    input: &Source<'_>,
    around: &Nesting,
    here: &Here<'a>,
) -> Result<(StmtTree, Here<'a>), Unread>
    requires { IsAt input.now here.now.place }
    ensures read { Follows input.now (stmt_in input.now.bytes.now)
        (lists.either_in tree.Local tree.Simple (nesting_in around.now)) here.now result }
    ensures on { GoesOn here.now result }
{
    let (either, end) = local_or_simple(input, around, here)?;
    Ok((stmt_of(either), end))
}

/// What stands behind `return`.
fn returned<'a>(
    input: &Source<'_>,
    around: &Nesting,
    word: Token,
    here: &Here<'a>,
) -> Result<(StmtTree, Here<'a>), Unread>
    requires { IsAt input.now here.now.place }
    ensures { let source = input.now.bytes.now in
        Follows input.now (stmt_in source)
        (λ reach place. try_as (tree.Return (token_in source word))
        (lists.maybe_expr_in (nesting_in around.now) reach place)) here.now result }
{
    let (value, end) = maybe_value(input, around, here)?;
    Ok((StmtTree::Return(word, value), end))
}

/// The head of a `for`. Its parts are kept in boxes, which are dropped as wholes where reading stops.
fn loop_head<'a>(
    input: &Source<'_>,
    around: &Nesting,
    here: &Here<'a>,
) -> Result<(Boxed<Head>, Here<'a>), Unread>
    requires at { IsAt input.now here.now.place }
    requires few { around.now.brackets + 1 < 2 ^ 62 }
    ensures { Follows input.now (head_in input.now.bytes.now) (head_read (nesting_in around.now)) here.now result }
{
    let (_, inside) = bracket(input, around, here)?;
    let bracket = around.in_bracket();
    let (start, begun) = start(input, &bracket, &inside)?;
    let start = Boxed::new(input.alloc, start)?;
    let (condition, tested) = maybe_value(input, &bracket, &begun)?;
    let condition = Boxed::new(input.alloc, condition)?;
    let (step, behind) = maybe_simple(input, &bracket, &tested)?;
    let head = Head {
        start: start.into_inner(),
        condition: condition.into_inner(),
        step,
    };
    Ok((Boxed::new(input.alloc, head)?, behind))
}

/// A statement.
#[cycle(statements)]
pub fn stmt<'a>(
    input: &Source<'_>,
    around: &Nesting,
    here: &Here<'a>,
) -> Result<(StmtTree, Here<'a>), Unread>
    requires at { IsAt input.now here.now.place }
    requires room { IsRoomy input.now around.now 0 here.now }
    ensures read { SettlesIn input.now (stmt_in input.now.bytes.now)
        (λ turns. lists.stmt_in turns (nesting_in around.now)) here.now result }
    ensures on { GoesOn here.now result }
{
    if let Some(told) = decided(here) {
        return Err(Unread::Deep(told));
    }
    let Some((token, behind)) = input.token(here) else {
        return Err(input.refused(here));
    };
    let Some(opening) = opening_of(input.bytes, token) else {
        return flat(input, around, here);
    };
    match opening {
        Opening::Brace => {
            let inside = braced(input, around, token, here, &behind);
            block(input, around, token, &inside)
        }
        Opening::Semicolon => Ok((StmtTree::Empty(token), behind)),
        Opening::Return => returned(input, around, token, &behind),
        Opening::Break => {
            let (_, end) = input.mark(";", &behind)?;
            Ok((StmtTree::Break(token), end))
        }
        Opening::Continue => {
            let (_, end) = input.mark(";", &behind)?;
            Ok((StmtTree::Continue(token), end))
        }
        Opening::If => conditional(input, around, token, &behind),
        Opening::While => repeated(input, around, token, &behind),
        Opening::For => counted(input, around, token, &behind),
    }
}

/// The statements behind an opening brace.
#[cycle(statements)]
fn block<'a>(
    input: &Source<'_>,
    around: &Nesting,
    opening: Token,
    here: &Here<'a>,
) -> Result<(StmtTree, Here<'a>), Unread>
    requires at { IsAt input.now here.now.place }
    requires room { IsRoomy input.now around.now 1 here.now }
    ensures { let source = input.now.bytes.now in
        SettlesIn input.now (stmt_in source) (λ turns. lists.block_in (nesting_in around.now)
        (lists.stmt_in turns) (token_in source opening)) here.now result }
{
    let (stmts, end) = stmts(input, &around.in_block(), here)?;
    Ok((StmtTree::Block(opening, stmts), end))
}

/// The statements up to the closing brace, inside what is open.
#[cycle(statements)]
pub fn stmts<'a>(
    input: &Source<'_>,
    inside: &Nesting,
    here: &Here<'a>,
) -> Result<(Items<StmtTree>, Here<'a>), Unread>
    requires at { IsAt input.now here.now.place }
    requires room { IsRoomy input.now inside.now 0 here.now }
    ensures turns { SettlesIn input.now (λ stmts. stmts_of (map (stmt_in input.now.bytes.now) stmts))
        (stmts_in (nesting_in inside.now)) here.now result }
    ensures read { Settles input.now (λ stmts. stmts_of (map (stmt_in input.now.bytes.now) stmts))
        (stmts_read (nesting_in inside.now)) here.now result }
{
    let mut stmts = Items::new(input.alloc);
    let mut next = *here;
    loop {
        if let Some((_, end)) = input.sign("}", &next) {
            return Ok((stmts, end));
        }
        let (stmt, behind) = stmt(input, inside, &next)?;
        stmts.push(stmt)?;
        next = behind;
    }
}

/// The body of a statement.
#[cycle(statements)]
fn body<'a>(
    input: &Source<'_>,
    around: &Nesting,
    here: &Here<'a>,
) -> Result<(Boxed<StmtTree>, Here<'a>), Unread>
    requires at { IsAt input.now here.now.place }
    requires room { IsRoomy input.now around.now 1 here.now }
    ensures { SettlesIn input.now (stmt_in input.now.bytes.now)
        (λ turns. lists.body_in (nesting_in around.now) (lists.stmt_in turns)) here.now result }
{
    let begun = begun(input, around, here);
    let (stmt, end) = stmt(input, &around.in_statement(), &begun)?;
    Ok((Boxed::new(input.alloc, stmt)?, end))
}

/// What stands behind `if`. An `else` belongs to the nearest one.
#[cycle(statements)]
fn conditional<'a>(
    input: &Source<'_>,
    around: &Nesting,
    word: Token,
    here: &Here<'a>,
) -> Result<(StmtTree, Here<'a>), Unread>
    requires at { IsAt input.now here.now.place }
    requires room { IsRoomy input.now around.now 1 here.now }
    ensures { let source = input.now.bytes.now in
        SettlesIn input.now (stmt_in source)
        (λ turns. lists.if_in (nesting_in around.now) (lists.stmt_in turns) (token_in source word)) here.now result }
{
    let (condition, behind) = condition(input, around, here)?;
    let (yes, end) = body(input, around, &behind)?;
    let Some((_, next)) = input.sign("else", &end) else {
        return Ok((StmtTree::If(word, condition, yes), end));
    };
    let (no, last) = body(input, around, &next)?;
    Ok((StmtTree::IfElse(word, condition, yes, no), last))
}

/// What stands behind `while`.
#[cycle(statements)]
fn repeated<'a>(
    input: &Source<'_>,
    around: &Nesting,
    word: Token,
    here: &Here<'a>,
) -> Result<(StmtTree, Here<'a>), Unread>
    requires at { IsAt input.now here.now.place }
    requires room { IsRoomy input.now around.now 1 here.now }
    ensures { let source = input.now.bytes.now in
        SettlesIn input.now (stmt_in source) (λ turns. lists.while_in (nesting_in around.now)
        (lists.stmt_in turns) (token_in source word)) here.now result }
{
    let (condition, behind) = condition(input, around, here)?;
    let (body, end) = body(input, around, &behind)?;
    Ok((StmtTree::While(word, condition, body), end))
}

/// What stands behind `for`.
#[cycle(statements)]
fn counted<'a>(
    input: &Source<'_>,
    around: &Nesting,
    word: Token,
    here: &Here<'a>,
) -> Result<(StmtTree, Here<'a>), Unread>
    requires at { IsAt input.now here.now.place }
    requires room { IsRoomy input.now around.now 1 here.now }
    ensures { let source = input.now.bytes.now in
        SettlesIn input.now (stmt_in source)
        (λ turns. lists.for_in (nesting_in around.now) (lists.stmt_in turns) (token_in source word)) here.now result }
{
    let (head, behind) = loop_head(input, around, here)?;
    let (body, end) = body(input, around, &behind)?;
    let Head {
        start,
        condition,
        step,
    } = head.into_inner();
    Ok((StmtTree::For(word, start, condition, step, body), end))
}
