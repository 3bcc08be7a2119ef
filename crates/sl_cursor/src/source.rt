//! A source with its tokens, in which forms are read one behind another.

ghost use Rattle.std.specs.Prelude.{◌≡◌, ◌+◌, None, length};
ghost use Rattle.sl_token.specs.View.{tokens_in};
ghost use Rattle.sl_cursor.specs.Ending.{IsTable};

use crate::cursor::{Cursor, FarthestFailure, Told};
use crate::ends::Ends;
use sl_base::NoMemory;
use sl_token::Token;
use std::alloc::{AllocError, Global};

/// A place in tokens, and how far other ways go.
#[derive(Clone, Copy, Debug)]
pub struct Here<'a> {
    pub place: Cursor<'a>,
    pub reach: Option<FarthestFailure>,
}

impl<'a> Here<'a> {
    ghost use Rattle.sl_cursor.specs.Seen.{IsAfter};

    /// In front of tokens, with no other way before.
    pub fn start(tokens: &'a [Token]) -> Here<'a>
        ensures place { (result.place.at ≡ 0) × (result.place.limit ≡ None) × (result.place.rest.now ≡ tokens.now) }
        ensures reach { result.reach ≡ None }
    {
        let place = Cursor {
            at: 0,
            limit: None,
            rest: tokens,
        };
        Here { place, reach: None }
    }

    /// The place behind the next token, with the same ways.
    pub fn advance(&self) -> Here<'a>
        ensures place { IsAfter self.now.place result.place }
        ensures reach { result.reach ≡ self.now.reach }
    {
        Here {
            place: self.place.advance(),
            reach: self.reach,
        }
    }
}

/// Why nothing is read.
#[derive(Debug, Drop)]
pub enum Unread {
    /// No token goes on, and so far go the ways.
    Refused(Option<FarthestFailure>),
    /// A limit stands before a statement, and is told whatever stands from there on.
    Deep(Told),
    /// Memory ran out.
    NoMemory,
}

impl From<NoMemory> for Unread {
    ghost use Rattle.std.specs.Prelude.{◌≡◌};
    ghost use Rattle.sl_cursor.specs.declared.source.Unread.TheVariants.{NoMemory};

    ghost from_gives = { λ _ unread. unread ≡ NoMemory };

    fn from(_error: NoMemory) -> Unread {
        Unread::NoMemory
    }
}

impl From<AllocError> for Unread {
    ghost use Rattle.std.specs.Prelude.{◌≡◌};
    ghost use Rattle.sl_cursor.specs.declared.source.Unread.TheVariants.{NoMemory};

    ghost from_gives = { λ _ unread. unread ≡ NoMemory };

    fn from(_error: AllocError) -> Unread {
        Unread::NoMemory
    }
}

/// A source, its tokens, and where types end in them.
#[derive(Clone, Copy)]
pub struct Source<'a> {
    pub alloc: Global,
    pub bytes: &'a [u8],
    pub tokens: &'a [Token],
    pub ahead: &'a [Ends],
    ghost table: { IsTable (tokens_in bytes.now tokens.now) ahead.now },
    ghost whole: { length ahead.now ≡ length tokens.now + 1 },
}
