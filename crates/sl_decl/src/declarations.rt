//! Imports, constants, structs, interfaces and extensions.

ghost use Rattle.std.specs.Option.{option_map};
ghost use Rattle.def_decl_reading.specs.DeclReading as forms;
ghost use Rattle.sl_token.specs.View.{token_in};
ghost use Rattle.sl_tree.specs.DeclView.{access_in, const_in, extension_in, import_in, interface_in, struct_in};
ghost use Rattle.sl_cursor.specs.Nestings.{nesting_in};

use crate::parser::Parser;
use sl_cursor::nesting::Nesting;
use sl_cursor::source::{Here, Unread};
use sl_stmt::wholes::{typed, value};
use sl_token::Token;
use sl_tree::{AccessTree, ConstTree, ExtensionTree, ImportTree, InterfaceTree, StructTree};

impl Parser<'_> {
    ghost use Rattle.sl_decl.specs.Forms.{AreFew, FollowsForm, SettlesForm};
    ghost use Rattle.sl_cursor.specs.Following.{IsAt};

    /// An import behind its word.
    pub fn import<'a>(
        &self,
        exported: Option<Token>,
        word: Token,
        here: &Here<'a>,
    ) -> Result<(ImportTree, Here<'a>), Unread>
        requires { IsAt self.now.source here.now.place }
        ensures { let bytes = self.now.source.bytes.now in FollowsForm self.now.source import_in
            (forms.import_form (option_map (token_in bytes) exported) (token_in bytes word)) here.now result }
    {
        let (name, behind) = self.source.name(here)?;
        let (_, end) = self.source.mark(";", &behind)?;
        let import = ImportTree {
            exported,
            word,
            name,
        };
        Ok((import, end))
    }

    /// A constant behind the word `static`.
    pub fn constant<'a>(
        &self,
        around: &Nesting,
        access: Option<AccessTree>,
        word: Token,
        here: &Here<'a>,
    ) -> Result<(ConstTree, Here<'a>), Unread>
        requires { IsAt self.now.source here.now.place }
        ensures { let bytes = self.now.source.bytes.now in FollowsForm self.now.source const_in
            (forms.const_form (nesting_in around.now) (option_map (access_in bytes) access) (token_in bytes word))
            here.now result }
    {
        let (_, begun) = self.source.mark("const", here)?;
        let (type_, behind) = typed(&self.source, around, &begun)?;
        let (name, next) = self.source.name(&behind)?;
        let (_, after) = self.source.mark("=", &next)?;
        let (value, end) = value(&self.source, around, &after)?;
        let (_, last) = self.source.mark(";", &end)?;
        let constant = ConstTree {
            access,
            word,
            type_,
            name,
            value,
        };
        Ok((constant, last))
    }

    /// A struct behind its word.
    pub fn structure<'a>(
        &self,
        around: &Nesting,
        access: Option<AccessTree>,
        word: Token,
        here: &Here<'a>,
    ) -> Result<(StructTree, Here<'a>), Unread>
        requires at { IsAt self.now.source here.now.place }
        requires few { AreFew 2 around.now }
        ensures { let bytes = self.now.source.bytes.now in SettlesForm self.now.source struct_in
            (forms.struct_form (nesting_in around.now) (option_map (access_in bytes) access) (token_in bytes word))
            here.now result }
    {
        let (name, behind) = self.source.name(here)?;
        let (params, next) = self.params(around, &behind)?;
        let (bases, after) = self.bases(around, &next)?;
        let (wheres, end) = self.conditions(around, &after)?;
        let ((members, semicolon), last) = self.struct_body(around, &end)?;
        let structure = StructTree {
            access,
            word,
            name,
            params,
            bases,
            wheres,
            members,
            semicolon,
        };
        Ok((structure, last))
    }

    /// An interface behind its word.
    pub fn interface<'a>(
        &self,
        around: &Nesting,
        access: Option<AccessTree>,
        word: Token,
        here: &Here<'a>,
    ) -> Result<(InterfaceTree, Here<'a>), Unread>
        requires at { IsAt self.now.source here.now.place }
        requires few { AreFew 2 around.now }
        ensures { let bytes = self.now.source.bytes.now in SettlesForm self.now.source interface_in
            (forms.interface_form (nesting_in around.now) (option_map (access_in bytes) access) (token_in bytes word))
            here.now result }
    {
        let (name, behind) = self.source.name(here)?;
        let (bases, end) = self.bases(around, &behind)?;
        let ((items, semicolon), last) = self.interface_body(around, &end)?;
        let interface = InterfaceTree {
            access,
            word,
            name,
            bases,
            items,
            semicolon,
        };
        Ok((interface, last))
    }

    /// An extension behind its word.
    pub fn extension<'a>(
        &self,
        around: &Nesting,
        access: Option<AccessTree>,
        word: Token,
        here: &Here<'a>,
    ) -> Result<(ExtensionTree, Here<'a>), Unread>
        requires at { IsAt self.now.source here.now.place }
        requires few { AreFew 2 around.now }
        ensures { let bytes = self.now.source.bytes.now in SettlesForm self.now.source extension_in
            (forms.extension_form (nesting_in around.now) (option_map (access_in bytes) access) (token_in bytes word))
            here.now result }
    {
        let (type_, behind) = typed(&self.source, around, here)?;
        let (bases, end) = self.bases(around, &behind)?;
        let ((members, semicolon), last) = self.extension_body(around, &end)?;
        let extension = ExtensionTree {
            access,
            word,
            type_,
            bases,
            members,
            semicolon,
        };
        Ok((extension, last))
    }
}
