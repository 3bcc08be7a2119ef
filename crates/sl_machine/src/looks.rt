//! The machine that reads expressions: type arguments behind names.

ghost use Rattle.std.specs.Prelude.{◌≡◌, ◌<◌, true, List, IfOk, codes, map};
ghost use Rattle.def_tree.specs.ExprTree as trees;
ghost use Rattle.def_tree.specs.Symbol.{Name, symbol};
ghost use Rattle.def_tree.specs.TypeTree as type_trees;
ghost use Rattle.std.specs.Option.{option_map};
ghost use Rattle.sl_token.specs.View.{token_in, tokens_in};
ghost use Rattle.sl_tree.specs.View.{type_in, types_of};
ghost use Rattle.sl_machine.specs.Framed.{frames_in};
ghost use Rattle.sl_machine.specs.Kept.{IsAlike};
ghost use Rattle.sl_look.specs.Lookups.{IsLooked};
ghost use Rattle.sl_look.specs.Looks.{BeginsWith};
ghost use Rattle.sl_cursor.specs.Nestings.{nesting_in};
ghost use Rattle.sl_cursor.specs.Signs.{begins_text};
ghost use Rattle.def_reading.specs.Machine as machine;
ghost use Rattle.def_reading.specs.TypeAhead as ahead;
ghost use Rattle.def_reading.specs.TypeAhead.{taken_ahead};
ghost use Rattle.sl_cursor.specs.Seen.{place_in, reach_in, told_in};
ghost use Rattle.sl_machine.specs.Steps.{step_in};
ghost use Rattle.sl_cursor.specs.Tries.{IsIn};
ghost use Rattle.sl_machine.specs.declared.frames.Frame.{Frame};

use crate::machine::{Around, Mode, Step};
use sl_base::NoMemory;
use sl_cursor::cursor::{Cursor, FarthestFailure};
use sl_cursor::reach::reach_at;
use sl_cursor::signs::begins_with;
use sl_look::looked::type_list;
use sl_look::types::LookAhead;
use sl_token::Token;
use sl_tree::{ExprTree, TypeTree};
use sqlite_items::Items;

/// Whether a token behind type arguments leads on.
fn leads_on(source: &[u8], tokens: &[Token]) -> bool
    ensures { result ≡ ahead.leads_on (tokens_in source.now tokens.now) }
{
    begins_with(source, tokens, "(")
        || begins_with(source, tokens, ".")
        || begins_with(source, tokens, "::")
}

impl Around<'_> {
    ghost use Rattle.sl_machine.specs.Long.{long_in};

    // The type arguments that a name in front of this place takes, where the mark `<` stands.
    fn taken<'a>(&self, place: &Cursor<'a>) -> Result<LookAhead<'a, Items<TypeTree>>, NoMemory>
        requires within { IsIn self.now.source place.now }
        requires opening { begins_text (codes "<") (tokens_in self.now.source.bytes.now place.now.rest.now) ≡ true }
        ensures { let source = self.now.source.bytes.now in IfOk result
            (IsLooked source (λ trees. types_of (map (type_in source) trees))
            (taken_ahead self.now.open.types place.now.at
            (option_map (told_in source) place.now.limit) (tokens_in source place.now.rest.now))) }
    {
        match type_list(&self.source, &self.open, &place.advance())? {
            LookAhead::Missing(behind) => Ok(LookAhead::Missing(behind)),
            LookAhead::Found(args, behind) => {
                if leads_on(self.source.bytes, behind.rest) {
                    Ok(LookAhead::Found(args, behind))
                } else {
                    Ok(LookAhead::Missing(behind))
                }
            }
        }
    }

    /// A name where an operand may stand.
    pub fn name<'a>(&self, token: Token, place: &Cursor<'a>) -> Result<Step<'a>, NoMemory>
        requires within { IsIn self.now.source place.now }
        requires first { BeginsWith token place.now }
        requires name { symbol (token_in self.now.source.bytes.now token) ≡ Name }
        ensures { let source = self.now.source.bytes.now in (frames : List Frame)
            → IfOk result (λ step. IsAlike (Unit {0}) (step_in source frames step)
            (machine.step_at (nesting_in self.now.open) (long_in self.now) machine.Expected
            (frames_in source frames) (place_in source place.now))) }
    {
        let behind = place.advance();
        if begins_with(self.source.bytes, behind.rest, "<") {
            self.generic(token, &behind)
        } else {
            Ok(self.bare(token, None, &behind))
        }
    }

    // A name without type arguments, and how far another way goes.
    fn bare<'a>(
        &self,
        token: Token,
        other: Option<FarthestFailure>,
        behind: &Cursor<'a>,
    ) -> Step<'a>
        ensures { let source = self.now.source.bytes.now in (frames : List Frame) → step_in source frames result
            ≡ machine.On (option_map (reach_in source) other) (record {
              frames = frames_in source frames;
              mode = machine.Value (trees.Name (token_in source token) type_trees.NoTypes);
              place = place_in source behind.now;
            }) }
    {
        let name = ExprTree::Name(token, Items::new(self.source.alloc));
        Step::On(other, Mode::Value(name), *behind)
    }

    // A name in front of the mark `<`.
    fn generic<'a>(&self, token: Token, place: &Cursor<'a>) -> Result<Step<'a>, NoMemory>
        requires within { IsIn self.now.source place.now }
        requires opening { begins_text (codes "<") (tokens_in self.now.source.bytes.now place.now.rest.now) ≡ true }
        ensures { let source = self.now.source.bytes.now in (frames : List Frame)
            → IfOk result (λ step. IsAlike (Unit {0}) (step_in source frames step)
            (machine.name_by (nesting_in self.now.open) (long_in self.now) (taken_ahead self.now.open.types place.now.at
            (option_map (told_in source) place.now.limit) (tokens_in source place.now.rest.now))
            (frames_in source frames) (token_in source token) (place_in source place.now))) }
    {
        match self.taken(place)? {
            LookAhead::Found(args, behind) => Ok(Step::On(
                None,
                Mode::Value(ExprTree::Name(token, args)),
                behind,
            )),
            LookAhead::Missing(behind) => {
                let other = reach_at(self.long, behind.at, &behind);
                Ok(self.bare(token, other, place))
            }
        }
    }
}
