//! Expressions and types behind one another.

ghost use Rattle.std.specs.Prelude.{false};
ghost use Rattle.def_reading.specs.Try as lists;
ghost use Rattle.sl_tree.specs.View.{expr_in, type_in};
ghost use Rattle.sl_cursor.specs.Nestings.{nesting_in};
ghost use Rattle.sl_cursor.specs.Following.{IsAt, Follows};
ghost use Rattle.sl_cursor.specs.Tries.{IsCallToo};

use sl_cursor::nesting::Nesting;
use sl_cursor::source::{Here, Source, Unread};
use sl_look::looked::ty;
use sl_machine::whole::expr;
use sl_tree::{ExprTree, TypeTree};

/// A type, and the place behind it.
pub fn typed<'a>(
    input: &Source<'_>,
    around: &Nesting,
    here: &Here<'a>,
) -> Result<(TypeTree, Here<'a>), Unread>
    requires { IsAt input.now here.now.place }
    ensures { Follows input.now (type_in input.now.bytes.now) (lists.type_in (nesting_in around.now)) here.now result }
{
    ty(input, around, here)
}

/// A whole expression behind which an assignment may stand or not, and the place behind it.
pub fn whole<'a>(
    input: &Source<'_>,
    around: &Nesting,
    assigns: bool,
    here: &Here<'a>,
) -> Result<(ExprTree, Here<'a>), Unread>
    requires { IsAt input.now here.now.place }
    ensures read { Follows input.now (expr_in input.now.bytes.now)
        (lists.expr_in assigns (nesting_in around.now)) here.now result }
    ensures call { IsCallToo input.now (lists.expr_in assigns (nesting_in around.now)) here.now result }
{
    expr(input, around, assigns, here)
}

/// A whole expression, behind which no assignment may stand.
pub fn value<'a>(
    input: &Source<'_>,
    around: &Nesting,
    here: &Here<'a>,
) -> Result<(ExprTree, Here<'a>), Unread>
    requires { IsAt input.now here.now.place }
    ensures { Follows input.now (expr_in input.now.bytes.now)
        (lists.expr_in false (nesting_in around.now)) here.now result }
{
    whole(input, around, false, here)
}
