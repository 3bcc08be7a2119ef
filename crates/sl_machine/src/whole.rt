//! Whole expressions inside what is open.

ghost use Rattle.def_reading.specs.Try as lists;
ghost use Rattle.sl_tree.specs.View.{expr_in};
ghost use Rattle.sl_cursor.specs.Nestings.{nesting_in};
ghost use Rattle.sl_cursor.specs.Tries.{IsCallToo, IsIn, Tries};

use crate::machine::Around;
use crate::run::long_from;
use sl_cursor::nesting::Nesting;
use sl_cursor::source::{Here, Source, Unread};
use sl_tree::ExprTree;

/// A whole expression inside what is open, behind which an assignment may stand or not.
pub fn expr<'a>(
    input: &Source<'_>,
    around: &Nesting,
    assigns: bool,
    here: &Here<'a>,
) -> Result<(ExprTree, Here<'a>), Unread>
    requires { IsIn input.now here.now.place }
    ensures read { Tries input.now (expr_in input.now.bytes.now)
        (lists.expr_in assigns (nesting_in around.now)) here.now result }
    ensures call { IsCallToo input.now (lists.expr_in assigns (nesting_in around.now)) here.now result }
{
    let reading = Around {
        source: *input,
        open: *around,
        long: long_from(&here.place),
    };
    reading.run(assigns, here)
}
