//! The machine that reads expressions: from its start to where it ends.

ghost use Rattle.std.specs.Prelude.{◌≡◌, ℕ, Bool, List, Option, None, IfOk, if◌then◌else◌};
ghost use Rattle.std.specs.Option.{option_map};
ghost use Rattle.sl_token.specs.View.{tokens_in};
ghost use Rattle.sl_tree.specs.View.{expr_in};
ghost use Rattle.sl_machine.specs.Framed.{frames_in};
ghost use Rattle.sl_machine.specs.Kept.{IsAlike};
ghost use Rattle.sl_cursor.specs.Nestings.{nesting_in};
ghost use Rattle.def_reading.specs.Machine as machine;
ghost use Rattle.def_reading.specs.Cursor as places;
ghost use Rattle.def_reading.specs.Plain.{plain_mode, plain_tree};
ghost use Rattle.def_reading.specs.Try as lists;
ghost use Rattle.sl_machine.specs.Runs.{IsEnd, IsWithinLimits};
ghost use Rattle.sl_cursor.specs.Seen.{place_in, reach_in, told_in};
ghost use Rattle.sl_machine.specs.Steps.{mode_in, step_in};
ghost use Rattle.sl_cursor.specs.Tries.{IsCallToo, IsIn, Tries};

use crate::finish::release;
use crate::frames::{Frames, leaf};
use crate::machine::{Around, Mode, Step};
use sl_base::{NoMemory, code};
use sl_cursor::cursor::{Cursor, FarthestFailure, MOST_TOKENS, Told};
use sl_cursor::reach::{before, earlier, further, reach_at, settled};
use sl_cursor::source::{Here, Unread};
use sl_token::Token;
use sl_tree::ExprTree;
use sqlite_items::{Boxed, Items};
use std::alloc::Global;

/// Where an expression that begins at a place is too long, if it is so long.
pub fn long_from(place: &Cursor<'_>) -> Option<Told>
    ensures { (source : List ℕ) → option_map (told_in source) result
        ≡ lists.long_from (place_in source place.now) }
{
    if place.rest.len() <= MOST_TOKENS {
        return None;
    }
    Some(Told {
        at: place.at + MOST_TOKENS,
        token: place.rest[MOST_TOKENS],
        code: code::EXPRESSION_TOO_LONG,
    })
}

/// A call stays a call in place of a tree, and anything else becomes a leaf.
fn plain(alloc: Global, tree: ExprTree, token: Token) -> Result<ExprTree, NoMemory>
    ensures { (source : List ℕ) → IfOk result (λ plain. plain_tree (expr_in source plain)
        ≡ plain_tree (expr_in source tree)) }
{
    match tree {
        ExprTree::Call(..) => {
            let callee = Boxed::new(alloc, leaf(token, tree))?;
            Ok(ExprTree::Call(callee, token, Items::new(alloc)))
        }
        _ => Ok(leaf(token, tree)),
    }
}

impl Mode {
    /// The mode, with a leaf or a call of one in place of its tree.
    fn plain(self, alloc: Global, token: Token) -> Result<Mode, NoMemory>
        ensures { (source : List ℕ) → IfOk result (λ mode. plain_mode (mode_in source mode)
            ≡ plain_mode (mode_in source self)) }
    {
        match self {
            Mode::Value(value) => Ok(Mode::Value(plain(alloc, value, token)?)),
            Mode::Dotted(base) => Ok(Mode::Dotted(leaf(token, base))),
            other => Ok(other),
        }
    }

    /// Whether other ways count that a step in this mode leaves: they do where an assignment may stand behind the
    /// expression, and where an operand is expected.
    fn counts(&self, assigns: bool) -> bool
        ensures { (source : List ℕ) (other : Option places.FarthestFailure)
            → lists.way_by assigns (mode_in source self.now) other ≡ (if result then other else None) }
    {
        match self {
            Mode::Expected => true,
            _ => assigns,
        }
    }
}

/// How far another way goes, if it counts.
fn way(counts: bool, other: Option<FarthestFailure>) -> Option<FarthestFailure>
    ensures { (source : List ℕ) → option_map (reach_in source) result
        ≡ (if counts then option_map (reach_in source) other else None) }
{
    if counts { other } else { None }
}

impl Around<'_> {
    ghost use Rattle.sl_machine.specs.Long.{long_in};

    /// An expression behind which an assignment may stand or not.
    pub fn run<'a>(&self, assigns: bool, here: &Here<'a>) -> Result<(ExprTree, Here<'a>), Unread>
        requires within { IsIn self.now.source here.now.place }
        requires long { long_in self.now ≡ lists.long_from (place_in self.now.source.bytes.now here.now.place) }
        ensures read { Tries self.now.source (expr_in self.now.source.bytes.now)
            (lists.expr_in assigns (nesting_in self.now.open)) here.now result }
        ensures call { IsCallToo self.now.source (lists.expr_in assigns (nesting_in self.now.open)) here.now result }
    {
        let mut frames = Frames::new(self.source.alloc);
        let mut mode = Mode::Expected;
        let mut place = here.place;
        let mut reach = here.reach;
        loop {
            let counts = mode.counts(assigns);
            match self.advance(&mut frames, mode, &place) {
                Err(NoMemory) => return Err(Unread::NoMemory),
                Ok(Step::Refused(behind)) => {
                    return Err(Unread::Refused(self.refused(reach, &behind)));
                }
                Ok(Step::Ends(expr, _)) => return self.end(assigns, reach, expr, &place),
                Ok(Step::On(other, next, behind)) => {
                    reach = further(reach, way(counts, other));
                    mode = next;
                    place = place.follow(&behind);
                }
            }
        }
    }

    // The next step. Behind a limit trees are not kept, so that they grow no deeper than expressions are long.
    fn advance<'a>(
        &self,
        frames: &mut Frames,
        mode: Mode,
        place: &Cursor<'a>,
    ) -> Result<Step<'a>, NoMemory>
        requires { IsIn self.now.source place.now }
        ensures { let source = self.now.source.bytes.now in IfOk result
            (λ step. IsAlike (IsWithinLimits (long_in self.now) (place_in source place.now))
            (step_in source frames.new step)
            (machine.step_at (nesting_in self.now.open) (long_in self.now) (mode_in source mode)
            (frames_in source frames.old)
            (place_in source place.now))) }
    {
        match earlier(place.limit, before(place.at, self.long)) {
            None => self.step(frames, mode, place, true),
            Some(told) => {
                let plain = mode.plain(self.source.alloc, told.token)?;
                self.step(frames, plain, place, false)
            }
        }
    }

    // How far ways go, where no token goes on at a place.
    fn refused(&self, reach: Option<FarthestFailure>, place: &Cursor<'_>) -> Option<FarthestFailure>
        ensures { let source = self.now.source.bytes.now in (assigns : Bool)
            → lists.Stops (option_map (reach_in source) result)
            ≡ lists.refused_in (nesting_in self.now.open) assigns (long_in self.now)
            (option_map (reach_in source) reach) (place_in source place.now) }
    {
        further(reach, reach_at(self.long, place.at, &settled(place)))
    }

    // The end of an expression: what is read, unless an assignment stands behind it that may not.
    fn end<'a>(
        &self,
        assigns: bool,
        reach: Option<FarthestFailure>,
        expr: ExprTree,
        place: &Cursor<'a>,
    ) -> Result<(ExprTree, Here<'a>), Unread>
        ensures { let source = self.now.source.bytes.now in IsEnd self.now.source place.now
            (lists.end_by (nesting_in self.now.open) assigns (long_in self.now)
            (lists.assign_ends assigns (tokens_in source place.now.rest.now)) (option_map (reach_in source) reach)
            (expr_in source expr) (place_in source place.now)) result }
    {
        if !assigns && self.is_assignment(place) {
            release(expr);
            let behind = place.advance().advance();
            return Err(Unread::Refused(self.refused(reach, &behind)));
        }
        let limit = earlier(place.limit, before(place.at, self.long));
        Ok((
            expr,
            Here {
                place: place.with_limit(limit),
                reach,
            },
        ))
    }
}
