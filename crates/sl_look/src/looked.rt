//! Types ahead of places, among tokens in which a limit may end.

ghost use Rattle.std.specs.Prelude.{◌≡◌, ◌+◌, ◌<◌, ◌≤◌, ℕ, suc, List, Some, IfOk, drop, length, map};
ghost use Rattle.sl_token.specs.View.{tokens_in};
ghost use Rattle.sl_tree.specs.View.{type_in, types_of};
ghost use Rattle.sl_cursor.specs.Ending.{AreEnds};
ghost use Rattle.sl_look.specs.Lookups.{IsLooked};
ghost use Rattle.sl_look.specs.Looks.{limit_of};
ghost use Rattle.sl_cursor.specs.Nestings.{nesting_in};
ghost use Rattle.def_reading.specs.Cursor.{At};
ghost use Rattle.def_reading.specs.Try as lists;
ghost use Rattle.def_reading.specs.TypeAhead.{list_ahead, type_ahead};
ghost use Rattle.sl_cursor.specs.Seen.{place_in, told_in};
ghost use Rattle.sl_cursor.specs.Tries.{IsIn, Tries};

use crate::stop::Stop;
use crate::types::{LookAhead, Types};
use sl_base::{List, NoMemory};
use sl_cursor::cursor::{Cursor, Told};
use sl_cursor::ends::{End, Ends};
use sl_cursor::nesting::Nesting;
use sl_cursor::reach::{further, reach_at, settled};
use sl_cursor::source::{Here, Source, Unread};
use sl_tree::{TypeTree, TypeWord};
use sqlite_items::Items;

// The place where a look ends, by the table, where this limit ends on the way.
fn behind_end<'a>(end: End, told: Told, place: &Cursor<'a>) -> Cursor<'a>
    requires { end.many ≤ length place.now.rest.now }
    ensures place { (source : List ℕ) → place_in source result
        ≡ At (place.now.at + end.many) (Some (told_in source told))
        (drop end.many (tokens_in source place.now.rest.now)) }
    ensures limit { result.limit ≡ Some told }
{
    place.skip(end.many).with_limit(Some(told))
}

// Where looks end that begin at a place, by the table.
fn ends_at(input: &Source<'_>, place: &Cursor<'_>) -> Ends
    requires { IsIn input.now place.now }
    ensures { AreEnds result (tokens_in input.now.bytes.now place.now.rest.now) }
{
    input.ahead[place.rest.len()]
}

// Types up to `>`, where this limit ends on the way.
fn limited<'a>(input: &Source<'_>, told: Told, place: &Cursor<'a>) -> LookAhead<'a, Items<TypeTree>>
    requires { IsIn input.now place.now }
    ensures { let source = input.now.bytes.now in (turns types : ℕ)
        → suc (length place.now.rest.now) < turns
        → limit_of (list_ahead turns types (place_in source place.now)) ≡ Some (told_in source told)
        → IsLooked source (λ trees. types_of (map (type_in source) trees))
        (list_ahead turns types (place_in source place.now)) result }
{
    let end = ends_at(input, place).list;
    let behind = behind_end(end, told, place);
    if end.found {
        LookAhead::Found(Items::new(input.alloc), behind)
    } else {
        LookAhead::Missing(behind)
    }
}

// A type, where this limit ends on the way.
fn limited_one<'a>(input: &Source<'_>, told: Told, place: &Cursor<'a>) -> LookAhead<'a, TypeTree>
    requires { IsIn input.now place.now }
    ensures { let source = input.now.bytes.now in (turns types : ℕ) → length place.now.rest.now < turns
        → limit_of (type_ahead turns types (place_in source place.now)) ≡ Some (told_in source told)
        → IsLooked source (type_in source) (type_ahead turns types (place_in source place.now)) result }
{
    let end = ends_at(input, place).one;
    let behind = behind_end(end, told, place);
    if end.found {
        let tree = TypeTree::Word {
            word: TypeWord::This,
            first: told.token,
            path: List::new(input.alloc),
        };
        LookAhead::Found(tree, behind)
    } else {
        LookAhead::Missing(behind)
    }
}

// A type.
fn one<'a>(
    input: &Source<'_>,
    around: &Nesting,
    place: &Cursor<'a>,
) -> Result<LookAhead<'a, TypeTree>, NoMemory>
    requires { IsIn input.now place.now }
    ensures { let source = input.now.bytes.now in IfOk result (λ look. (turns : ℕ)
        → length place.now.rest.now < turns
        → IsLooked source (type_in source)
        (type_ahead turns around.now.types (place_in source place.now)) look) }
{
    if let Some(told) = place.limit {
        return Ok(limited_one(input, told, place));
    }
    let types = Types {
        alloc: input.alloc,
        source: input.bytes,
    };
    match types.one(around.types, place) {
        Ok(look) => Ok(look),
        Err(Stop::Deep(told)) => Ok(limited_one(input, told, place)),
        Err(Stop::NoMemory) => Err(NoMemory),
    }
}

/// A type, beside other ways.
pub fn ty<'a>(
    input: &Source<'_>,
    around: &Nesting,
    here: &Here<'a>,
) -> Result<(TypeTree, Here<'a>), Unread>
    requires { IsIn input.now here.now.place }
    ensures { Tries input.now (type_in input.now.bytes.now)
        (lists.type_in (nesting_in around.now)) here.now result }
{
    match one(input, around, &here.place) {
        Err(NoMemory) => Err(Unread::NoMemory),
        Ok(LookAhead::Missing(behind)) => {
            let way = reach_at(None, 0, &settled(&behind));
            Err(Unread::Refused(further(here.reach, way)))
        }
        Ok(LookAhead::Found(tree, behind)) => {
            let place = here.place.follow(&behind);
            Ok((
                tree,
                Here {
                    place,
                    reach: here.reach,
                },
            ))
        }
    }
}

/// Types up to `>`.
pub fn type_list<'a>(
    input: &Source<'_>,
    around: &Nesting,
    place: &Cursor<'a>,
) -> Result<LookAhead<'a, Items<TypeTree>>, NoMemory>
    requires { IsIn input.now place.now }
    ensures { let source = input.now.bytes.now in IfOk result (λ look. (turns : ℕ)
        → suc (length place.now.rest.now) < turns
        → IsLooked source (λ trees. types_of (map (type_in source) trees))
        (list_ahead turns around.now.types (place_in source place.now)) look) }
{
    if let Some(told) = place.limit {
        return Ok(limited(input, told, place));
    }
    let types = Types {
        alloc: input.alloc,
        source: input.bytes,
    };
    match types.list(around.types, place) {
        Ok(look) => Ok(look),
        Err(Stop::Deep(told)) => Ok(limited(input, told, place)),
        Err(Stop::NoMemory) => Err(NoMemory),
    }
}
