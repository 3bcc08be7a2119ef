//! Methods: their words, their tails, and their bodies.

ghost use Rattle.std.specs.Prelude.{Some, None};
ghost use Rattle.std.specs.Option.{option_map};
ghost use Rattle.def_decl_reading.specs.MemberReading as forms;
ghost use Rattle.def_module.specs.DeclTree as trees;
ghost use Rattle.def_tree.specs.TypeTree as types;
ghost use Rattle.sl_token.specs.View.{token_in};
ghost use Rattle.sl_tree.specs.DeclView.{access_in, block_in, head_in, method_in, require_in, tail_in};
ghost use Rattle.sl_tree.specs.View.{type_in};
ghost use Rattle.sl_cursor.specs.Nestings.{nesting_in};

use crate::parser::Parser;
use sl_cursor::nesting::Nesting;
use sl_cursor::source::{Here, Unread};
use sl_stmt::heads::bracket;
use sl_stmt::statements::stmts;
use sl_stmt::wholes::typed;
use sl_token::Token;
use sl_tree::{AccessTree, BlockTree, HeadTree, MethodTree, RequireTree, TailTree, TypeTree};

/// The words of a method before its tail.
#[derive(Debug, Drop)]
pub struct MethodWords {
    pub mutating: Option<Token>,
    pub access: Option<AccessTree>,
    pub override_: Option<Token>,
}

impl Parser<'_> {
    ghost use Rattle.sl_decl.specs.Forms.{AreFew, FollowsForm, IsGiven, SettlesForm, TakesForm};
    ghost use Rattle.sl_decl.specs.Methods.{bodied_form};
    ghost use Rattle.sl_cursor.specs.Following.{IsAt};

    /// A block.
    pub fn block<'a>(
        &self,
        around: &Nesting,
        here: &Here<'a>,
    ) -> Result<(BlockTree, Here<'a>), Unread>
        requires at { IsAt self.now.source here.now.place }
        requires few { AreFew 3 around.now }
        ensures { SettlesForm self.now.source block_in (forms.block_form (nesting_in around.now)) here.now result }
    {
        let inside = around.in_block();
        let (opening, behind) = self.source.opening("{", around.blocks, here)?;
        let (stmts, end) = stmts(&self.source, &inside, &behind)?;
        Ok((BlockTree { opening, stmts }, end))
    }

    /// The word `mutating` behind its opening bracket.
    fn mutating<'a>(&self, here: &Here<'a>) -> Result<(Token, Here<'a>), Unread>
        requires { IsAt self.now.source here.now.place }
        ensures { TakesForm self.now.source token_in forms.mutating_form here.now result }
    {
        let (word, behind) = self.source.mark("mutating", here)?;
        let (_, end) = self.source.mark("]", &behind)?;
        Ok((word, end))
    }

    /// The tail of a method behind the bracket of its parameters.
    pub fn called<'a>(
        &self,
        around: &Nesting,
        static_: Option<Token>,
        type_: TypeTree,
        name: Token,
        here: &Here<'a>,
    ) -> Result<(TailTree, Here<'a>), Unread>
        requires at { IsAt self.now.source here.now.place }
        requires few { AreFew 3 around.now }
        ensures { let bytes = self.now.source.bytes.now in
            (type : types.TypeTree) → IsGiven here.now (type_in bytes type_) type
            → FollowsForm self.now.source tail_in
            (forms.called_form (nesting_in around.now) (option_map (token_in bytes) static_) type (token_in bytes name))
            here.now result }
    {
        let (args, end) = self.args(&around.in_bracket(), here)?;
        let tail = TailTree {
            static_,
            type_,
            name,
            args,
        };
        Ok((tail, end))
    }

    /// The tail of a method behind the word `static`.
    pub fn typed_tail<'a>(
        &self,
        around: &Nesting,
        static_: Option<Token>,
        here: &Here<'a>,
    ) -> Result<(TailTree, Here<'a>), Unread>
        requires at { IsAt self.now.source here.now.place }
        requires few { AreFew 3 around.now }
        ensures { let bytes = self.now.source.bytes.now in FollowsForm self.now.source tail_in
            (forms.typed_form (nesting_in around.now) (option_map (token_in bytes) static_)) here.now result }
    {
        let (type_, behind) = typed(&self.source, around, here)?;
        let (name, next) = self.source.name(&behind)?;
        let (_, inside) = bracket(&self.source, around, &next)?;
        self.called(around, static_, type_, name, &inside)
    }

    /// The tail of a method.
    fn tail<'a>(&self, around: &Nesting, here: &Here<'a>) -> Result<(TailTree, Here<'a>), Unread>
        requires at { IsAt self.now.source here.now.place }
        requires few { AreFew 3 around.now }
        ensures { FollowsForm self.now.source tail_in (forms.tail_form (nesting_in around.now)) here.now result }
    {
        let (static_, behind) = self.maybe("static", here);
        self.typed_tail(around, static_, &behind)
    }

    /// A method behind its tail.
    pub fn bodied<'a>(
        &self,
        around: &Nesting,
        words: MethodWords,
        tail: TailTree,
        here: &Here<'a>,
    ) -> Result<(MethodTree, Here<'a>), Unread>
        requires at { IsAt self.now.source here.now.place }
        requires few { AreFew 3 around.now }
        ensures { let bytes = self.now.source.bytes.now in
            (tree : trees.TailTree) → IsGiven here.now (tail_in bytes tail) tree
            → SettlesForm self.now.source method_in
            (bodied_form (nesting_in around.now) (option_map (token_in bytes) words.mutating)
            (option_map (access_in bytes) words.access)
            (option_map (token_in bytes) words.override_) tree) here.now result }
    {
        let (body, end) = self.block(around, here)?;
        let method = MethodTree {
            mutating: words.mutating,
            access: words.access,
            override_: words.override_,
            tail,
            body,
        };
        Ok((method, end))
    }

    /// A method behind its words.
    pub fn tailed<'a>(
        &self,
        around: &Nesting,
        words: MethodWords,
        here: &Here<'a>,
    ) -> Result<(MethodTree, Here<'a>), Unread>
        requires at { IsAt self.now.source here.now.place }
        requires few { AreFew 3 around.now }
        ensures { let bytes = self.now.source.bytes.now in let around = nesting_in around.now in
            SettlesForm self.now.source method_in
            (forms.method_form around (option_map (token_in bytes) words.mutating)
            (option_map (access_in bytes) words.access)
            (option_map (token_in bytes) words.override_) (forms.tail_form around)) here.now result }
    {
        let (tail, end) = self.tail(around, here)?;
        self.bodied(around, words, tail, &end)
    }

    /// A method behind its access.
    pub fn overriding<'a>(
        &self,
        around: &Nesting,
        mutating: Option<Token>,
        access: Option<AccessTree>,
        here: &Here<'a>,
    ) -> Result<(MethodTree, Here<'a>), Unread>
        requires at { IsAt self.now.source here.now.place }
        requires few { AreFew 3 around.now }
        ensures { let bytes = self.now.source.bytes.now in SettlesForm self.now.source method_in
            (forms.override_form (nesting_in around.now) (option_map (token_in bytes) mutating)
            (option_map (access_in bytes) access)) here.now result }
    {
        let (override_, behind) = self.maybe("override", here);
        let words = MethodWords {
            mutating,
            access,
            override_,
        };
        self.tailed(around, words, &behind)
    }

    /// A method behind the bracket before `mutating`.
    pub fn mutating_method<'a>(
        &self,
        around: &Nesting,
        here: &Here<'a>,
    ) -> Result<(MethodTree, Here<'a>), Unread>
        requires at { IsAt self.now.source here.now.place }
        requires few { AreFew 3 around.now }
        ensures { SettlesForm self.now.source method_in (forms.mutating_method (nesting_in around.now)) here.now result }
    {
        let (word, behind) = self.mutating(here)?;
        let (access, next) = self.access(&behind);
        self.overriding(around, Some(word), access, &next)
    }

    /// A static method behind its word.
    pub fn static_method<'a>(
        &self,
        around: &Nesting,
        access: Option<AccessTree>,
        word: Token,
        here: &Here<'a>,
    ) -> Result<(MethodTree, Here<'a>), Unread>
        requires at { IsAt self.now.source here.now.place }
        requires few { AreFew 3 around.now }
        ensures { let bytes = self.now.source.bytes.now in let around = nesting_in around.now in
            SettlesForm self.now.source method_in
            (forms.method_form around None (option_map (access_in bytes) access) None
            (forms.typed_form around (Some (token_in bytes word)))) here.now result }
    {
        let (tail, end) = self.typed_tail(around, Some(word), here)?;
        let words = MethodWords {
            mutating: None,
            access,
            override_: None,
        };
        self.bodied(around, words, tail, &end)
    }

    /// The word `mutating` in its brackets, if it is written.
    fn maybe_mutating<'a>(
        &self,
        around: &Nesting,
        here: &Here<'a>,
    ) -> Result<(Option<Token>, Here<'a>), Unread>
        requires { IsAt self.now.source here.now.place }
        ensures { TakesForm self.now.source (λ source word. option_map (token_in source) word)
            (forms.maybe_mutating (nesting_in around.now)) here.now result }
    {
        let Some((_, behind)) = self.square(around, here) else {
            return Ok((None, *here));
        };
        let (word, end) = self.mutating(&behind)?;
        Ok((Some(word), end))
    }

    /// What a requirement ends with: its own body, or the semicolon.
    fn ending<'a>(
        &self,
        around: &Nesting,
        here: &Here<'a>,
    ) -> Result<(Option<BlockTree>, Here<'a>), Unread>
        requires at { IsAt self.now.source here.now.place }
        requires few { AreFew 3 around.now }
        ensures { SettlesForm self.now.source (λ source body. option_map (block_in source) body)
            (forms.ending_form (nesting_in around.now)) here.now result }
    {
        if let Some((_, behind)) = self.source.sign(";", here) {
            return Ok((None, behind));
        }
        let (body, end) = self.block(around, here)?;
        Ok((Some(body), end))
    }

    /// A requirement.
    pub fn require<'a>(
        &self,
        around: &Nesting,
        here: &Here<'a>,
    ) -> Result<(RequireTree, Here<'a>), Unread>
        requires at { IsAt self.now.source here.now.place }
        requires few { AreFew 3 around.now }
        ensures { SettlesForm self.now.source require_in (forms.require_form (nesting_in around.now)) here.now result }
    {
        let (head, behind) = self.head(around, here)?;
        let (body, end) = self.ending(around, &behind)?;
        Ok((RequireTree { head, body }, end))
    }

    /// The head of a requirement.
    fn head<'a>(&self, around: &Nesting, here: &Here<'a>) -> Result<(HeadTree, Here<'a>), Unread>
        requires at { IsAt self.now.source here.now.place }
        requires few { AreFew 3 around.now }
        ensures { FollowsForm self.now.source head_in (forms.head_form (nesting_in around.now)) here.now result }
    {
        let (mutating, behind) = self.maybe_mutating(around, here)?;
        let (access, next) = self.access(&behind);
        let (tail, end) = self.tail(around, &next)?;
        let head = HeadTree {
            mutating,
            access,
            tail,
        };
        Ok((head, end))
    }
}
