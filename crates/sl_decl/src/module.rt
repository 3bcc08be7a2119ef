//! Declarations by their forms, and whole modules.

ghost use Rattle.std.specs.Prelude.{map};
ghost use Rattle.std.specs.Option.{option_map};
ghost use Rattle.def_decl_reading.specs.DeclReading as forms;
ghost use Rattle.def_decl_reading.specs.Form.{Until, ends};
ghost use Rattle.sl_token.specs.View.{token_in};
ghost use Rattle.sl_tree.specs.DeclView.{access_in, decl_in};
ghost use Rattle.sl_cursor.specs.Nestings.{nesting_in};

use crate::parser::Parser;
use sl_base::List;
use sl_cursor::nesting::Nesting;
use sl_cursor::source::{Here, Unread};
use sl_token::Token;
use sl_tree::{AccessTree, DeclTree, ModuleTree};

impl Parser<'_> {
    ghost use Rattle.sl_decl.specs.Forms.{AreFew, FollowsForm, SettlesForm};
    ghost use Rattle.sl_decl.specs.Modules.{EndsModule, ReadsModule, bracketed_form, buffer_or_function};
    ghost use Rattle.sl_cursor.specs.Following.{IsAt};

    /// A buffer behind the two brackets before its binding, inside them.
    fn bound_buffer<'a>(
        &self,
        around: &Nesting,
        first: Token,
        here: &Here<'a>,
    ) -> Result<(DeclTree, Here<'a>), Unread>
        requires at { IsAt self.now.source here.now.place }
        requires few { AreFew 1 around.now }
        ensures { FollowsForm self.now.source decl_in
            (forms.bound_form (nesting_in around.now) (token_in self.now.source.bytes.now first)) here.now result }
    {
        let inside = around.in_bracket().in_bracket();
        let (binding, behind) = self.binding(&inside, first, here)?;
        let (access, next) = self.access(&behind);
        let Some((kind, word, after)) = self.buffer_kind(&next) else {
            return Err(self.source.refused(&next));
        };
        let (buffer, end) = self.buffer(around, Some(binding), access, kind, word, &after)?;
        Ok((DeclTree::Buffer(buffer), end))
    }

    /// A function behind the bracket before its first attribute.
    fn attributed<'a>(
        &self,
        around: &Nesting,
        first: Token,
        here: &Here<'a>,
    ) -> Result<(DeclTree, Here<'a>), Unread>
        requires at { IsAt self.now.source here.now.place }
        requires few { AreFew 1 around.now }
        ensures { SettlesForm self.now.source decl_in
            (forms.attributed_form (nesting_in around.now) (token_in self.now.source.bytes.now first)) here.now result }
    {
        let (attr, behind) = self.attr(&around.in_bracket(), first, here)?;
        let (attrs, next) = self.attrs(around, attr, &behind)?;
        let (access, after) = self.access(&next);
        let (function, end) = self.function(around, attrs, access, &after)?;
        Ok((DeclTree::Function(function), end))
    }

    /// A buffer without a binding, or a function without attributes, behind the access.
    fn buffer_or_function<'a>(
        &self,
        around: &Nesting,
        access: Option<AccessTree>,
        here: &Here<'a>,
    ) -> Result<(DeclTree, Here<'a>), Unread>
        requires at { IsAt self.now.source here.now.place }
        requires few { AreFew 1 around.now }
        ensures { let bytes = self.now.source.bytes.now in SettlesForm self.now.source decl_in
            (buffer_or_function (nesting_in around.now) (option_map (access_in bytes) access)) here.now result }
    {
        let Some((kind, word, behind)) = self.buffer_kind(here) else {
            let attrs = List::new(self.source.alloc);
            let (function, end) = self.function(around, attrs, access, here)?;
            return Ok((DeclTree::Function(function), end));
        };
        let (buffer, end) = self.buffer(around, None, access, kind, word, &behind)?;
        Ok((DeclTree::Buffer(buffer), end))
    }

    /// A declaration behind its access, if it begins with no bracket and is no import.
    fn accessed<'a>(
        &self,
        around: &Nesting,
        access: Option<AccessTree>,
        here: &Here<'a>,
    ) -> Result<(DeclTree, Here<'a>), Unread>
        requires at { IsAt self.now.source here.now.place }
        requires few { AreFew 1 around.now }
        ensures { let bytes = self.now.source.bytes.now in SettlesForm self.now.source decl_in
            (forms.accessed_form (nesting_in around.now) (option_map (access_in bytes) access)) here.now result }
    {
        if let Some((word, behind)) = self.source.sign("typealias", here) {
            let (alias, end) = self.alias(around, access, word, &behind)?;
            return Ok((DeclTree::Alias(alias), end));
        }
        if let Some((word, behind)) = self.source.sign("static", here) {
            let (constant, end) = self.constant(around, access, word, &behind)?;
            return Ok((DeclTree::Const(constant), end));
        }
        if let Some((word, behind)) = self.source.sign("struct", here) {
            let (structure, end) = self.structure(around, access, word, &behind)?;
            return Ok((DeclTree::Struct(structure), end));
        }
        if let Some((word, behind)) = self.source.sign("interface", here) {
            let (interface, end) = self.interface(around, access, word, &behind)?;
            return Ok((DeclTree::Interface(interface), end));
        }
        if let Some((word, behind)) = self.source.sign("extension", here) {
            let (extension, end) = self.extension(around, access, word, &behind)?;
            return Ok((DeclTree::Extension(extension), end));
        }
        self.buffer_or_function(around, access, here)
    }

    /// A declaration behind the bracket with which it begins.
    fn bracketed<'a>(
        &self,
        around: &Nesting,
        first: Token,
        here: &Here<'a>,
    ) -> Result<(DeclTree, Here<'a>), Unread>
        requires at { IsAt self.now.source here.now.place }
        requires few { AreFew 1 around.now }
        ensures { SettlesForm self.now.source decl_in
            (bracketed_form (nesting_in around.now) (token_in self.now.source.bytes.now first)) here.now result }
    {
        match self.square(&around.in_bracket(), here) {
            Some((_, inside)) => self.bound_buffer(around, first, &inside),
            None => self.attributed(around, first, here),
        }
    }

    /// A declaration.
    fn decl<'a>(&self, around: &Nesting, here: &Here<'a>) -> Result<(DeclTree, Here<'a>), Unread>
        requires at { IsAt self.now.source here.now.place }
        requires few { AreFew 1 around.now }
        ensures { SettlesForm self.now.source decl_in (forms.decl_form (nesting_in around.now)) here.now result }
    {
        if let Some((first, inside)) = self.square(around, here) {
            return self.bracketed(around, first, &inside);
        }
        if let Some((exported, behind)) = self.source.sign("__exported", here) {
            let (word, next) = self.source.mark("import", &behind)?;
            let (import, end) = self.import(Some(exported), word, &next)?;
            return Ok((DeclTree::Import(import), end));
        }
        if let Some((word, behind)) = self.source.sign("import", here) {
            let (import, end) = self.import(None, word, &behind)?;
            return Ok((DeclTree::Import(import), end));
        }
        let (access, behind) = self.access(here);
        self.accessed(around, access, &behind)
    }

    /// Declarations up to the end.
    fn decls<'a>(
        &self,
        around: &Nesting,
        here: &Here<'a>,
    ) -> Result<(List<DeclTree>, Here<'a>), Unread>
        requires at { IsAt self.now.source here.now.place }
        requires few { AreFew 1 around.now }
        ensures { SettlesForm self.now.source (λ source decls. map (decl_in source) decls)
            (Until ends (forms.decl_form (nesting_in around.now))) here.now result }
    {
        let mut decls = List::new(self.source.alloc);
        let mut next = *here;
        loop {
            if self.source.ends(&next) {
                return Ok((decls, next));
            }
            let (decl, behind) = self.decl(around, &next)?;
            decls.push(decl)?;
            next = behind;
        }
    }

    /// The name of a module with its word, if it is written.
    fn header<'a>(&self, here: &Here<'a>) -> Result<(Option<Token>, Here<'a>), Unread>
        requires { IsAt self.now.source here.now.place }
        ensures { FollowsForm self.now.source (λ source name. option_map (token_in source) name)
            forms.header_form here.now result }
    {
        let Some((_, behind)) = self.source.sign("module", here) else {
            return Ok((None, *here));
        };
        let (name, next) = self.source.name(&behind)?;
        let (_, end) = self.source.mark(";", &next)?;
        Ok((Some(name), end))
    }

    /// A module with the end.
    pub fn module<'a>(&self, here: &Here<'a>) -> Result<(ModuleTree, Here<'a>), Unread>
        requires { IsAt self.now.source here.now.place }
        ensures read { ReadsModule self.now.source here.now result }
        ensures end { EndsModule self.now.source result }
    {
        let (name, begun) = self.header(here)?;
        let (decls, end) = self.decls(&Nesting::all(0), &begun)?;
        let (_, last) = self.source.end(&end)?;
        Ok((ModuleTree { name, decls }, last))
    }
}
