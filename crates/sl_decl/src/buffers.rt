//! Buffers and their bindings.

ghost use Rattle.std.specs.Option.{option_map};
ghost use Rattle.def_decl_reading.specs.DeclReading as forms;
ghost use Rattle.sl_token.specs.View.{token_in};
ghost use Rattle.sl_tree.specs.DeclView.{access_in, binding_in, buffer_in, buffer_kind_of};
ghost use Rattle.sl_cursor.specs.Nestings.{nesting_in};

use crate::parser::Parser;
use sl_cursor::nesting::Nesting;
use sl_cursor::source::{Here, Unread};
use sl_stmt::heads::bracket;
use sl_stmt::wholes::typed;
use sl_token::Token;
use sl_tree::{AccessTree, BindingTree, BufferKind, BufferTree};

impl Parser<'_> {
    ghost use Rattle.sl_decl.specs.Forms.{FollowsForm, IsKinds, TakesForm};
    ghost use Rattle.sl_decl.specs.Bindings.{numbers_form};
    ghost use Rattle.sl_cursor.specs.Following.{IsAt};

    /// The set of a binding, if it is written.
    fn set<'a>(&self, here: &Here<'a>) -> Result<(Option<Token>, Here<'a>), Unread>
        requires { IsAt self.now.source here.now.place }
        ensures { TakesForm self.now.source (λ source set. option_map (token_in source) set)
            forms.set_form here.now result }
    {
        let Some((_, behind)) = self.source.sign(",", here) else {
            return Ok((None, *here));
        };
        let (number, end) = self.source.narrow(&behind)?;
        Ok((Some(number), end))
    }

    /// The number and the set of a binding in brackets, with the brackets that close it.
    fn numbers<'a>(&self, first: Token, here: &Here<'a>) -> Result<(BindingTree, Here<'a>), Unread>
        requires { IsAt self.now.source here.now.place }
        ensures { TakesForm self.now.source binding_in (numbers_form (token_in self.now.source.bytes.now first))
            here.now result }
    {
        let (number, behind) = self.source.narrow(here)?;
        let (set, next) = self.set(&behind)?;
        let (_, round) = self.source.mark(")", &next)?;
        let (_, square) = self.source.mark("]", &round)?;
        let (_, end) = self.source.mark("]", &square)?;
        let binding = BindingTree {
            opening: first,
            number,
            set,
        };
        Ok((binding, end))
    }

    /// A binding behind its second bracket, inside both.
    pub fn binding<'a>(
        &self,
        around: &Nesting,
        first: Token,
        here: &Here<'a>,
    ) -> Result<(BindingTree, Here<'a>), Unread>
        requires { IsAt self.now.source here.now.place }
        ensures { TakesForm self.now.source binding_in
            (forms.binding_form (nesting_in around.now) (token_in self.now.source.bytes.now first)) here.now result }
    {
        let (_, vendor) = self.source.mark("vk", here)?;
        let (_, colons) = self.source.mark("::", &vendor)?;
        let (_, word) = self.source.mark("binding", &colons)?;
        let (_, inside) = bracket(&self.source, around, &word)?;
        self.numbers(first, &inside)
    }

    /// A kind of buffers with its word, if one is written.
    pub fn buffer_kind<'a>(&self, here: &Here<'a>) -> Option<(BufferKind, Token, Here<'a>)>
        requires { IsAt self.now.source here.now.place }
        ensures { IsKinds self.now.source here.now result }
    {
        if let Some((word, behind)) = self.source.sign("StructuredBuffer", here) {
            return Some((BufferKind::ReadOnly, word, behind));
        }
        match self.source.sign("RWStructuredBuffer", here) {
            Some((word, behind)) => Some((BufferKind::ReadWrite, word, behind)),
            None => None,
        }
    }

    /// A buffer behind the word of its kind.
    pub fn buffer<'a>(
        &self,
        around: &Nesting,
        binding: Option<BindingTree>,
        access: Option<AccessTree>,
        kind: BufferKind,
        word: Token,
        here: &Here<'a>,
    ) -> Result<(BufferTree, Here<'a>), Unread>
        requires { IsAt self.now.source here.now.place }
        ensures { let bytes = self.now.source.bytes.now in FollowsForm self.now.source buffer_in
            (forms.kind_form (nesting_in around.now) (option_map (binding_in bytes) binding)
            (option_map (access_in bytes) access)
            (buffer_kind_of kind) (token_in bytes word)) here.now result }
    {
        let (_, begun) = self.source.mark("<", here)?;
        let (element, behind) = typed(&self.source, around, &begun)?;
        let (_, next) = self.source.mark(">", &behind)?;
        let (name, after) = self.source.name(&next)?;
        let (_, end) = self.source.mark(";", &after)?;
        let buffer = BufferTree {
            binding,
            access,
            kind,
            word,
            element,
            name,
        };
        Ok((buffer, end))
    }
}
