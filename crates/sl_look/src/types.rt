//! Types.

ghost use Rattle.std.specs.Prelude.{◌≡◌, ◌<◌, suc, None, length, map, OnOk};
ghost use Rattle.sl_token.specs.View.{token_in};
ghost use Rattle.def_tree.specs.TypeTree as trees;
ghost use Rattle.sl_tree.specs.View.{type_in, types_of, word_of};
ghost use Rattle.def_reading.specs.TypeAhead.{args_at, found_as, list_ahead, path_from, type_ahead};

use crate::stop::Stop;
use sl_base::{List, code};
use sl_cursor::cursor::{Cursor, MOST_OPEN, Told};
use sl_cursor::signs::{Lead, begins_with, is_name, is_sign, lead_of};
use sl_token::Token;
use sl_tree::{TypeTree, TypeWord};
use sqlite_items::Items;
use std::alloc::Global;

/// What is found and the place behind it, or the place of the first token that continues nothing.
#[derive(Debug, Drop)]
pub enum LookAhead<'a, T> {
    Found(T, Cursor<'a>),
    Missing(Cursor<'a>),
}

/// What stands behind a name.
enum Next<'a> {
    /// No dot.
    Nothing,
    /// A dot and a name, and the place behind them.
    Name(Token, Cursor<'a>),
    /// A dot, and the place of a token that is no name.
    Unexpected(Cursor<'a>),
}

/// What stands behind a type in a list of types.
enum Mark<'a> {
    /// A comma, and the place behind it.
    Comma(Cursor<'a>),
    /// The mark that closes the list, and the place behind it.
    Closing(Cursor<'a>),
    /// Neither.
    Neither,
}

/// Reads trees of types from a source's tokens, as long as no type is nested too deep.
#[derive(Clone, Copy)]
pub struct Types<'a> {
    pub alloc: Global,
    pub source: &'a [u8],
}

impl Types<'_> {
    ghost use Rattle.sl_cursor.specs.Seen.{place_in};
    ghost use Rattle.sl_look.specs.Looks.{BeginsWith, IsMark, IsOpened, IsNext, IsPath, Reads, type_named};

    // What stands behind a name.
    fn next<'a>(&self, place: &Cursor<'a>) -> Next<'a>
        ensures { IsNext self.now.source.now place.now result }
    {
        let Some((dot, after)) = place.rest.split_first() else {
            return Next::Nothing;
        };
        let Some((name, _)) = after.split_first() else {
            return Next::Nothing;
        };
        if !is_sign(self.source, *dot, ".") {
            return Next::Nothing;
        }
        let behind = place.advance();
        if is_name(self.source, *name) {
            Next::Name(*name, behind.advance())
        } else {
            Next::Unexpected(behind)
        }
    }

    // The names behind dots.
    fn path<'a>(&self, place: &Cursor<'a>) -> Result<LookAhead<'a, List<Token>>, Stop>
        ensures { IsPath self.now.source.now place.now result }
    {
        let mut path = List::new(self.alloc);
        let mut here = *place;
        loop {
            match self.next(&here) {
                Next::Nothing => return Ok(LookAhead::Found(path, here)),
                Next::Unexpected(behind) => return Ok(LookAhead::Missing(behind)),
                Next::Name(name, behind) => {
                    path.push(name)?;
                    here = behind;
                }
            }
        }
    }

    // What stands behind a type in a list.
    fn mark<'a>(&self, place: &Cursor<'a>) -> Mark<'a>
        ensures { IsMark self.now.source.now place.now result }
    {
        let Some((mark, _)) = place.rest.split_first() else {
            return Mark::Neither;
        };
        if is_sign(self.source, *mark, ",") {
            Mark::Comma(place.advance())
        } else if is_sign(self.source, *mark, ">") {
            Mark::Closing(place.advance())
        } else {
            Mark::Neither
        }
    }

    /// A type inside so many open types.
    #[cycle(types)]
    pub fn one<'a>(&self, types: usize, place: &Cursor<'a>) -> Result<LookAhead<'a, TypeTree>, Stop>
        requires { place.now.limit ≡ None }
        ensures { let source = self.now.source.now in Reads source (type_in source)
            (λ turns. type_ahead turns types (place_in source place.now)) (length place.now.rest.now) place.now result }
    {
        let Some((first, _)) = place.rest.split_first() else {
            return Ok(LookAhead::Missing(*place));
        };
        match lead_of(self.source, *first) {
            Lead::Neither => Ok(LookAhead::Missing(*place)),
            Lead::Word(word) => {
                let behind = self.opened(types, *first, place)?;
                self.worded(word, *first, &behind)
            }
            Lead::Name => {
                let behind = self.opened(types, *first, place)?;
                self.named(types + 1, *first, &behind)
            }
        }
    }

    // The place behind the first token of a type inside so many open types.
    fn opened<'a>(&self, types: usize, first: Token, place: &Cursor<'a>) -> Result<Cursor<'a>, Stop>
        requires free { place.now.limit ≡ None }
        requires first { BeginsWith first place.now }
        ensures place { IsOpened self.now.source.now types place.now result }
        ensures types { OnOk result (types < 64) }
    {
        if types < MOST_OPEN {
            Ok(place.advance())
        } else {
            Err(Stop::Deep(Told {
                at: place.at,
                token: first,
                code: code::NESTING_TOO_DEEP,
            }))
        }
    }

    // The type that a word begins, by what stands behind it.
    fn worded<'a>(
        &self,
        word: TypeWord,
        first: Token,
        place: &Cursor<'a>,
    ) -> Result<LookAhead<'a, TypeTree>, Stop>
        ensures { let source = self.now.source.now in Reads source (type_in source)
            (λ turns. found_as (trees.Word (word_of word) (token_in source first)) (path_from (place_in source place.now))) 0 place.now result }
    {
        match self.path(place)? {
            LookAhead::Found(path, behind) => Ok(LookAhead::Found(
                TypeTree::Word { word, first, path },
                behind,
            )),
            LookAhead::Missing(behind) => Ok(LookAhead::Missing(behind)),
        }
    }

    // The type that a name begins, by what stands behind it, with its own among so many open types.
    #[cycle(types)]
    fn named<'a>(
        &self,
        types: usize,
        first: Token,
        place: &Cursor<'a>,
    ) -> Result<LookAhead<'a, TypeTree>, Stop>
        requires { place.now.limit ≡ None }
        ensures { let source = self.now.source.now in Reads source (type_in source)
            (λ turns. type_named turns types (token_in source first) (place_in source place.now)) (length place.now.rest.now) place.now result }
    {
        match self.args(types, place)? {
            LookAhead::Found(args, behind) => self.with_args(first, args, &behind),
            LookAhead::Missing(behind) => Ok(LookAhead::Missing(behind)),
        }
    }

    // The type of a name and its type arguments, by what stands behind them.
    fn with_args<'a>(
        &self,
        first: Token,
        args: Items<TypeTree>,
        place: &Cursor<'a>,
    ) -> Result<LookAhead<'a, TypeTree>, Stop>
        ensures { let source = self.now.source.now in Reads source (type_in source)
            (λ turns. found_as (trees.Named (token_in source first) (types_of (map (type_in source) args))) (path_from (place_in source place.now)))
            0 place.now result }
    {
        match self.path(place)? {
            LookAhead::Found(path, behind) => Ok(LookAhead::Found(
                TypeTree::Named { first, args, path },
                behind,
            )),
            LookAhead::Missing(behind) => Ok(LookAhead::Missing(behind)),
        }
    }

    // Type arguments inside so many open types, or none.
    #[cycle(types)]
    fn args<'a>(
        &self,
        types: usize,
        place: &Cursor<'a>,
    ) -> Result<LookAhead<'a, Items<TypeTree>>, Stop>
        requires { place.now.limit ≡ None }
        ensures { let source = self.now.source.now in Reads source (λ trees. types_of (map (type_in source) trees))
            (λ turns. args_at (list_ahead turns types) (place_in source place.now)) (length place.now.rest.now) place.now result }
    {
        if begins_with(self.source, place.rest, "<") {
            self.list(types, &place.advance())
        } else {
            Ok(LookAhead::Found(Items::new(self.alloc), *place))
        }
    }

    /// Types up to `>`, inside so many open types.
    #[cycle(types)]
    pub fn list<'a>(
        &self,
        types: usize,
        place: &Cursor<'a>,
    ) -> Result<LookAhead<'a, Items<TypeTree>>, Stop>
        requires { place.now.limit ≡ None }
        ensures { let source = self.now.source.now in Reads source (λ trees. types_of (map (type_in source) trees))
            (λ turns. list_ahead turns types (place_in source place.now)) (suc (length place.now.rest.now)) place.now result }
    {
        let mut trees = Items::new(self.alloc);
        let mut here = *place;
        loop {
            match self.one(types, &here)? {
                LookAhead::Missing(behind) => return Ok(LookAhead::Missing(behind)),
                LookAhead::Found(tree, behind) => {
                    trees.push(tree)?;
                    match self.mark(&behind) {
                        Mark::Comma(next) => here = next,
                        Mark::Closing(next) => return Ok(LookAhead::Found(trees, next)),
                        Mark::Neither => return Ok(LookAhead::Missing(behind)),
                    }
                }
            }
        }
    }
}
