//! What stands before the bodies of statements: conditions, and the heads of loops.

ghost use Rattle.std.specs.Prelude.{◌≡◌, ◌+◌, ◌<◌, ◌^◌, ℕ, List, false};
ghost use Rattle.std.specs.Option.{option_map};
ghost use Rattle.def_reading.specs.StmtReading as lists;
ghost use Rattle.def_reading.specs.Try as reading;
ghost use Rattle.def_tree.specs.Limits.{in_bracket, opens};
ghost use Rattle.def_tree.specs.StmtTree as tree;
ghost use Rattle.def_tree.specs.Symbol.{is_sign};
ghost use Rattle.sl_tree.specs.View.{expr_in, simple_in, start_in};
ghost use Rattle.sl_stmt.specs.Eithers.{either_in, made_of};
ghost use Rattle.sl_cursor.specs.Nestings.{nesting_in};
ghost use Rattle.sl_cursor.specs.Signs.{is_text};
ghost use Rattle.sl_cursor.specs.Following.{Follows, IsAt, MustPass};

use crate::either::{Either, local_or_simple, simple_up_to};
use crate::wholes::value;
use sl_cursor::cursor::is_too_deep;
use sl_cursor::nesting::Nesting;
use sl_cursor::source::{Here, Source, Unread};
use sl_token::Token;
use sl_tree::{ExprTree, SimpleTree, StartTree};

/// What a local or a simple statement begins a loop with.
fn start_of(either: Either) -> StartTree
    ensures { (source : List ℕ) → start_in source result
        ≡ made_of tree.LocalStart tree.SimpleStart (either_in source either) }
{
    match either {
        Either::Local(local) => StartTree::LocalStart(local),
        Either::Simple(simple) => StartTree::SimpleStart(simple),
    }
}

/// An expression up to a mark.
fn value_up_to<'a>(
    input: &Source<'_>,
    around: &Nesting,
    mark: &str,
    here: &Here<'a>,
) -> Result<(ExprTree, Here<'a>), Unread>
    requires { IsAt input.now here.now.place }
    ensures { Follows input.now (expr_in input.now.bytes.now)
        (λ reach place. reading.up_to (is_text mark.now)
        (reading.expr_in false (nesting_in around.now) reach place)) here.now result }
{
    let (value, end) = value(input, around, here)?;
    let (_, behind) = input.mark(mark, &end)?;
    Ok((value, behind))
}

/// An opening bracket, which may be one too many, and what stands behind it.
pub fn bracket<'a>(
    input: &Source<'_>,
    around: &Nesting,
    here: &Here<'a>,
) -> Result<(Token, Here<'a>), Unread>
    requires { IsAt input.now here.now.place }
    ensures { MustPass input.now (is_sign "(") (opens (in_bracket (nesting_in around.now)).brackets) here.now result }
{
    let (opening, behind) = input.mark("(", here)?;
    let deep = is_too_deep(around.brackets, 0);
    Ok((opening, behind.noting(deep, here.place.at, opening)))
}

/// An expression in brackets.
pub fn condition<'a>(
    input: &Source<'_>,
    around: &Nesting,
    here: &Here<'a>,
) -> Result<(ExprTree, Here<'a>), Unread>
    requires at { IsAt input.now here.now.place }
    requires few { around.now.brackets + 1 < 2 ^ 62 }
    ensures { Follows input.now (expr_in input.now.bytes.now)
        (lists.condition_in (nesting_in around.now)) here.now result }
{
    let (_, inside) = bracket(input, around, here)?;
    value_up_to(input, &around.in_bracket(), ")", &inside)
}

/// An expression up to a semicolon, if there is one.
pub fn maybe_value<'a>(
    input: &Source<'_>,
    around: &Nesting,
    here: &Here<'a>,
) -> Result<(Option<ExprTree>, Here<'a>), Unread>
    requires { IsAt input.now here.now.place }
    ensures { Follows input.now (λ value. option_map (expr_in input.now.bytes.now) value)
        (lists.maybe_expr_in (nesting_in around.now)) here.now result }
{
    if let Some((_, behind)) = input.sign(";", here) {
        return Ok((None, behind));
    }
    let (value, end) = value_up_to(input, around, ";", here)?;
    Ok((Some(value), end))
}

/// A simple statement up to a closing bracket, if there is one.
pub fn maybe_simple<'a>(
    input: &Source<'_>,
    around: &Nesting,
    here: &Here<'a>,
) -> Result<(Option<SimpleTree>, Here<'a>), Unread>
    requires { IsAt input.now here.now.place }
    ensures { Follows input.now (λ simple. option_map (simple_in input.now.bytes.now) simple)
        (lists.maybe_simple_in (nesting_in around.now)) here.now result }
{
    if let Some((_, behind)) = input.sign(")", here) {
        return Ok((None, behind));
    }
    let (simple, end) = simple_up_to(input, around, ")", here)?;
    Ok((Some(simple), end))
}

/// What a `for` begins with, and its semicolon.
pub fn start<'a>(
    input: &Source<'_>,
    around: &Nesting,
    here: &Here<'a>,
) -> Result<(StartTree, Here<'a>), Unread>
    requires { IsAt input.now here.now.place }
    ensures { Follows input.now (start_in input.now.bytes.now)
        (lists.start_in (nesting_in around.now)) here.now result }
{
    if let Some((_, behind)) = input.sign(";", here) {
        return Ok((StartTree::NoStart, behind));
    }
    let (either, end) = local_or_simple(input, around, here)?;
    Ok((start_of(either), end))
}
