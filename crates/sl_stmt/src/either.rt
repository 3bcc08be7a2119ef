//! Locals, and simple statements where no local stands.

ghost use Rattle.std.specs.Prelude.{◌≡◌};
ghost use Rattle.def_reading.specs.StmtReading as lists;
ghost use Rattle.def_reading.specs.Try.{up_to};
ghost use Rattle.def_tree.specs.Symbol.{is_sign};
ghost use Rattle.sl_token.specs.View.{tokens_in};
ghost use Rattle.sl_tree.specs.View.{local_in, simple_in};
ghost use Rattle.sl_cursor.specs.Nestings.{nesting_in};
ghost use Rattle.sl_cursor.specs.Signs.{is_text};
ghost use Rattle.sl_stmt.specs.Eithers.{GoesOn, IsOtherwise, either_in, either_read};
ghost use Rattle.sl_cursor.specs.Following.{Follows, IsAt};
ghost use Rattle.sl_cursor.specs.Seen.{place_in};

use crate::locals::local;
use crate::simple::simple;
use sl_cursor::cursor::FarthestFailure;
use sl_cursor::nesting::Nesting;
use sl_cursor::signs::{begins_with, is_name};
use sl_cursor::source::{Here, Source, Unread};
use sl_token::Token;
use sl_tree::{LocalTree, SimpleTree};

/// A local, or a simple statement.
#[derive(Debug, Drop)]
pub enum Either {
    Local(LocalTree),
    Simple(SimpleTree),
}

/// Whether tokens begin with a name and `=`.
fn names_a_value(source: &[u8], tokens: &[Token]) -> bool
    ensures { result ≡ lists.names_a_value (tokens_in source.now tokens.now) }
{
    match tokens.split_first() {
        None => false,
        Some((name, behind)) => is_name(source, *name) && begins_with(source, behind, "="),
    }
}

/// Whether a type, a name and `=` stand at a place: whatever else goes on there is a local.
fn declares(input: &Source<'_>, around: &Nesting, here: &Here<'_>) -> bool
    requires { IsAt input.now here.now.place }
    ensures { result ≡ lists.declares (nesting_in around.now) (place_in input.now.bytes.now here.now.place) }
{
    let end = input.ahead[here.place.rest.len()].one;
    end.found && names_a_value(input.bytes, &here.place.rest[end.many..])
}

/// A local up to a semicolon.
fn local_up_to<'a>(
    input: &Source<'_>,
    around: &Nesting,
    here: &Here<'a>,
) -> Result<(LocalTree, Here<'a>), Unread>
    requires { IsAt input.now here.now.place }
    ensures read { Follows input.now (local_in input.now.bytes.now)
        (λ reach place. up_to (is_sign ";") (lists.local_in (nesting_in around.now) reach place)) here.now result }
    ensures on { GoesOn here.now result }
{
    let (local, end) = local(input, around, here)?;
    let (_, behind) = input.mark(";", &end)?;
    Ok((local, behind))
}

/// A simple statement up to a mark.
pub fn simple_up_to<'a>(
    input: &Source<'_>,
    around: &Nesting,
    mark: &str,
    here: &Here<'a>,
) -> Result<(SimpleTree, Here<'a>), Unread>
    requires { IsAt input.now here.now.place }
    ensures read { Follows input.now (simple_in input.now.bytes.now)
        (λ reach place. up_to (is_text mark.now)
        (lists.simple_in (nesting_in around.now) reach place)) here.now result }
    ensures on { GoesOn here.now result }
{
    let (simple, end) = simple(input, around, here)?;
    let (_, behind) = input.mark(mark, &end)?;
    Ok((simple, behind))
}

/// What stands where no local does: a simple statement, unless a local is begun that nothing else can be.
fn otherwise<'a>(
    input: &Source<'_>,
    around: &Nesting,
    reach: Option<FarthestFailure>,
    here: &Here<'a>,
) -> Result<(Either, Here<'a>), Unread>
    requires { IsAt input.now here.now.place }
    ensures read { IsOtherwise input.now (nesting_in around.now) reach here.now result }
    ensures on { GoesOn here.now result }
{
    if declares(input, around, here) {
        return Err(Unread::Refused(reach));
    }
    let again = Here {
        place: here.place,
        reach,
    };
    let (simple, end) = simple_up_to(input, around, ";", &again)?;
    Ok((Either::Simple(simple), end))
}

/// A local up to a semicolon, or else a simple statement.
pub fn local_or_simple<'a>(
    input: &Source<'_>,
    around: &Nesting,
    here: &Here<'a>,
) -> Result<(Either, Here<'a>), Unread>
    requires { IsAt input.now here.now.place }
    ensures read { Follows input.now (either_in input.now.bytes.now)
        (either_read (nesting_in around.now)) here.now result }
    ensures on { GoesOn here.now result }
{
    match local_up_to(input, around, here) {
        Ok((local, end)) => Ok((Either::Local(local), end)),
        Err(Unread::Refused(reach)) => otherwise(input, around, reach, here),
        Err(stop) => Err(stop),
    }
}
