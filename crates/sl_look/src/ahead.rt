//! Where types end, for each token at which one may begin.

ghost use Rattle.std.specs.Prelude.{◌≡◌, ◌+◌, ◌<◌, ◌≤◌, ◌∷◌, length, drop, IfOk};
ghost use Rattle.def_tree.specs.Symbol.{symbol};
ghost use Rattle.sl_token.specs.View.{token_in, tokens_in};
ghost use Rattle.sl_cursor.specs.Ending.{IsTable};
ghost use Rattle.def_reading.specs.TypeReading.{AName, lead_of};

use sl_base::{List, NoMemory};
use sl_cursor::ends::{End, Ends};
use sl_cursor::signs::{Lead, is_name, is_sign, lead_of};
use sl_token::Token;
use std::alloc::Global;

/// Where looks end, for the last so many tokens by their number. Each entry follows from those before it, so that the
/// whole table takes time that grows linearly with the number of tokens.
pub type Ahead = List<Ends>;

/// The table of these tokens.
pub fn ahead_of(alloc: Global, source: &[u8], tokens: &[Token]) -> Result<Ahead, NoMemory>
    ensures table { IfOk result (IsTable (tokens_in source.now tokens.now)) }
    ensures whole { IfOk result (λ table. length table ≡ length tokens.now + 1) }
{
    let mut table = List::new(alloc);
    while table.len() <= tokens.len() {
        let tail = Tail {
            source,
            tokens: &tokens[tokens.len() - table.len()..],
            table: table.as_slice(),
        };
        let ends = tail.ends();
        table.push(ends)?;
    }
    Ok(table)
}

/// Tokens, and the table of those behind the first of them.
#[derive(Clone, Copy)]
struct Tail<'a> {
    source: &'a [u8],
    tokens: &'a [Token],
    table: &'a [Ends],
}

impl Tail<'_> {
    ghost use Rattle.sl_cursor.specs.Ending.{AreEnds, ListEnds, PathEnds, TypeEnds};
    ghost use Rattle.sl_look.specs.Tails.{IsTail, IsPathBehind, lexemes};

    // Where looks at the first of the tokens end.
    fn ends(&self) -> Ends
        requires { IsTail self.now }
        ensures { AreEnds result (lexemes self.now) }
    {
        let path = self.path();
        let one = self.one();
        let list = self.list(one);
        Ends { path, one, list }
    }

    // Where looks end behind so many of the tokens.
    fn behind(&self, many: usize) -> Ends
        requires tail { IsTail self.now }
        requires some { 0 < many }
        requires within { many ≤ length self.now.tokens.now }
        ensures { AreEnds result (drop many (lexemes self.now)) }
    {
        self.table[self.tokens.len() - many]
    }

    // Where names behind dots end.
    fn path(&self) -> End
        requires { IsTail self.now }
        ensures end { PathEnds result (lexemes self.now) }
        ensures within { result.many ≤ length self.now.tokens.now }
    {
        let Some((dot, after)) = self.tokens.split_first() else {
            return End {
                found: true,
                many: 0,
            };
        };
        let Some((name, _)) = after.split_first() else {
            return End {
                found: true,
                many: 0,
            };
        };
        if !is_sign(self.source, *dot, ".") {
            End {
                found: true,
                many: 0,
            }
        } else if is_name(self.source, *name) {
            self.path_behind(2)
        } else {
            End {
                found: false,
                many: 1,
            }
        }
    }

    // Where names behind dots end that begin behind so many of the tokens.
    fn path_behind(&self, many: usize) -> End
        requires tail { IsTail self.now }
        requires some { 0 < many }
        requires within { many ≤ length self.now.tokens.now }
        ensures end { IsPathBehind many result (lexemes self.now) }
        ensures within { result.many ≤ length self.now.tokens.now }
    {
        let path = self.behind(many).path;
        End {
            found: path.found,
            many: many + path.many,
        }
    }

    // Where a type ends.
    fn one(&self) -> End
        requires { IsTail self.now }
        ensures end { TypeEnds result (lexemes self.now) }
        ensures within { result.many ≤ length self.now.tokens.now }
    {
        let Some((first, after)) = self.tokens.split_first() else {
            return End {
                found: false,
                many: 0,
            };
        };
        match lead_of(self.source, *first) {
            Lead::Word(_) => self.path_behind(1),
            Lead::Name => self.named(*first, after),
            Lead::Neither => End {
                found: false,
                many: 0,
            },
        }
    }

    // Where a type ends that begins with this name.
    fn named(&self, name: Token, after: &[Token]) -> End
        requires tail { IsTail self.now }
        requires tokens { self.now.tokens.now ≡ name ∷ after.now }
        requires name { lead_of (symbol (token_in self.now.source.now name)) ≡ AName }
        ensures end { TypeEnds result (lexemes self.now) }
        ensures within { result.many ≤ length self.now.tokens.now }
    {
        let Some((opening, _)) = after.split_first() else {
            return self.path_behind(1);
        };
        if !is_sign(self.source, *opening, "<") {
            return self.path_behind(1);
        }
        let args = self.behind(2).list;
        if args.found {
            self.path_behind(2 + args.many)
        } else {
            End {
                found: false,
                many: 2 + args.many,
            }
        }
    }

    // Where types up to `>` end, if a type ends so.
    fn list(&self, one: End) -> End
        requires tail { IsTail self.now }
        requires one { TypeEnds one (lexemes self.now) }
        requires within { one.many ≤ length self.now.tokens.now }
        ensures end { ListEnds result (lexemes self.now) }
        ensures within { result.many ≤ length self.now.tokens.now }
    {
        if !one.found {
            return one;
        }
        let Some((mark, _)) = self.tokens[one.many..].split_first() else {
            return End {
                found: false,
                many: one.many,
            };
        };
        if is_sign(self.source, *mark, ",") {
            let more = self.behind(one.many + 1).list;
            End {
                found: more.found,
                many: one.many + 1 + more.many,
            }
        } else if is_sign(self.source, *mark, ">") {
            End {
                found: true,
                many: one.many + 1,
            }
        } else {
            End {
                found: false,
                many: one.many,
            }
        }
    }
}
