//! What stands in structs, extensions and interfaces, and their bodies.

ghost use Rattle.std.specs.Prelude.{map};
ghost use Rattle.std.specs.Option.{option_map};
ghost use Rattle.def_decl_reading.specs.Form.{As, Listed, Made, Until, name, with_first};
ghost use Rattle.def_decl_reading.specs.MemberReading as forms;
ghost use Rattle.def_tree.specs.Symbol.{is_sign};
ghost use Rattle.def_tree.specs.TypeTree as types;
ghost use Rattle.sl_token.specs.View.{token_in};
ghost use Rattle.sl_tree.specs.DeclView.{access_in, assoc_in, field_in, item_in, member_in};
ghost use Rattle.sl_tree.specs.View.{type_in};
ghost use Rattle.sl_cursor.specs.Nestings.{nesting_in};

use crate::methods::MethodWords;
use crate::parser::Parser;
use sl_base::List;
use sl_cursor::nesting::Nesting;
use sl_cursor::source::{Here, Unread};
use sl_stmt::wholes::typed;
use sl_token::Token;
use sl_tree::{AccessTree, AssocTree, FieldTree, ItemTree, MemberTree, TypeTree};

impl Parser<'_> {
    ghost use Rattle.sl_decl.specs.Forms.{AreFew, FollowsForm, IsGiven, SettlesForm};
    ghost use Rattle.sl_cursor.specs.Following.{IsAt};

    /// The names of fields, of which the first has been read, behind a comma.
    fn more_names<'a>(
        &self,
        first: Token,
        here: &Here<'a>,
    ) -> Result<(List<Token>, Here<'a>), Unread>
        requires { IsAt self.now.source here.now.place }
        ensures { FollowsForm self.now.source (λ source names. map (token_in source) names)
            (As (with_first (token_in self.now.source.bytes.now first)) (Listed (name (λ name. Made name))))
            here.now result }
    {
        let mut names = List::new(self.source.alloc);
        names.push(first)?;
        let mut next = *here;
        loop {
            let (name, behind) = self.source.name(&next)?;
            names.push(name)?;
            match self.source.sign(",", &behind) {
                Some((_, after)) => next = after,
                None => return Ok((names, behind)),
            }
        }
    }

    /// The names of fields behind the first of them.
    fn names<'a>(&self, first: Token, here: &Here<'a>) -> Result<(List<Token>, Here<'a>), Unread>
        requires { IsAt self.now.source here.now.place }
        ensures { FollowsForm self.now.source (λ source names. map (token_in source) names)
            (forms.names_form (token_in self.now.source.bytes.now first)) here.now result }
    {
        if let Some((_, behind)) = self.source.sign(",", here) {
            return self.more_names(first, &behind);
        }
        let mut names = List::new(self.source.alloc);
        names.push(first)?;
        Ok((names, *here))
    }

    /// Fields behind the first name.
    fn field<'a>(
        &self,
        access: Option<AccessTree>,
        type_: TypeTree,
        first: Token,
        here: &Here<'a>,
    ) -> Result<(FieldTree, Here<'a>), Unread>
        requires { IsAt self.now.source here.now.place }
        ensures { let bytes = self.now.source.bytes.now in
            (type : types.TypeTree) → IsGiven here.now (type_in bytes type_) type
            → FollowsForm self.now.source field_in
            (forms.field_form (option_map (access_in bytes) access) type (token_in bytes first)) here.now result }
    {
        let (names, end) = self.names(first, here)?;
        let (_, last) = self.source.mark(";", &end)?;
        let field = FieldTree {
            access,
            type_,
            names,
        };
        Ok((field, last))
    }

    /// Fields, or a method, that begin with a type.
    fn typed_member<'a>(
        &self,
        around: &Nesting,
        access: Option<AccessTree>,
        here: &Here<'a>,
    ) -> Result<(MemberTree, Here<'a>), Unread>
        requires at { IsAt self.now.source here.now.place }
        requires few { AreFew 3 around.now }
        ensures { let bytes = self.now.source.bytes.now in SettlesForm self.now.source member_in
            (forms.typed_member (nesting_in around.now) (option_map (access_in bytes) access)) here.now result }
    {
        let (type_, behind) = typed(&self.source, around, here)?;
        let (name, next) = self.source.name(&behind)?;
        let Some((_, inside)) = self.source.opening_if("(", around.brackets, &next) else {
            let (field, end) = self.field(access, type_, name, &next)?;
            return Ok((MemberTree::Field(field), end));
        };
        let (tail, after) = self.called(around, None, type_, name, &inside)?;
        let words = MethodWords {
            mutating: None,
            access,
            override_: None,
        };
        let (method, end) = self.bodied(around, words, tail, &after)?;
        Ok((MemberTree::Method(method), end))
    }

    /// Fields, a method, or an alias, behind the access.
    fn accessed_member<'a>(
        &self,
        around: &Nesting,
        access: Option<AccessTree>,
        here: &Here<'a>,
    ) -> Result<(MemberTree, Here<'a>), Unread>
        requires at { IsAt self.now.source here.now.place }
        requires few { AreFew 3 around.now }
        ensures { let bytes = self.now.source.bytes.now in SettlesForm self.now.source member_in
            (forms.accessed_member (nesting_in around.now) (option_map (access_in bytes) access)) here.now result }
    {
        if let Some((word, behind)) = self.source.sign("typealias", here) {
            let (alias, end) = self.alias(around, access, word, &behind)?;
            return Ok((MemberTree::Alias(alias), end));
        }
        if let Some((word, behind)) = self.source.sign("override", here) {
            let words = MethodWords {
                mutating: None,
                access,
                override_: Some(word),
            };
            let (method, end) = self.tailed(around, words, &behind)?;
            return Ok((MemberTree::Method(method), end));
        }
        if let Some((word, behind)) = self.source.sign("static", here) {
            let (method, end) = self.static_method(around, access, word, &behind)?;
            return Ok((MemberTree::Method(method), end));
        }
        self.typed_member(around, access, here)
    }

    /// Fields, a method, or an alias.
    fn member<'a>(
        &self,
        around: &Nesting,
        here: &Here<'a>,
    ) -> Result<(MemberTree, Here<'a>), Unread>
        requires at { IsAt self.now.source here.now.place }
        requires few { AreFew 3 around.now }
        ensures { SettlesForm self.now.source member_in (forms.member_form (nesting_in around.now)) here.now result }
    {
        if let Some((_, inside)) = self.square(around, here) {
            let (method, end) = self.mutating_method(around, &inside)?;
            return Ok((MemberTree::Method(method), end));
        }
        let (access, behind) = self.access(here);
        self.accessed_member(around, access, &behind)
    }

    /// A method, or an alias, behind the access.
    fn accessed_addition<'a>(
        &self,
        around: &Nesting,
        access: Option<AccessTree>,
        here: &Here<'a>,
    ) -> Result<(MemberTree, Here<'a>), Unread>
        requires at { IsAt self.now.source here.now.place }
        requires few { AreFew 3 around.now }
        ensures { let bytes = self.now.source.bytes.now in SettlesForm self.now.source member_in
            (forms.accessed_addition (nesting_in around.now) (option_map (access_in bytes) access)) here.now result }
    {
        if let Some((word, behind)) = self.source.sign("typealias", here) {
            let (alias, end) = self.alias(around, access, word, &behind)?;
            return Ok((MemberTree::Alias(alias), end));
        }
        let (method, end) = self.overriding(around, None, access, here)?;
        Ok((MemberTree::Method(method), end))
    }

    /// A method, or an alias.
    fn addition<'a>(
        &self,
        around: &Nesting,
        here: &Here<'a>,
    ) -> Result<(MemberTree, Here<'a>), Unread>
        requires at { IsAt self.now.source here.now.place }
        requires few { AreFew 3 around.now }
        ensures { SettlesForm self.now.source member_in (forms.addition_form (nesting_in around.now)) here.now result }
    {
        if let Some((_, inside)) = self.square(around, here) {
            let (method, end) = self.mutating_method(around, &inside)?;
            return Ok((MemberTree::Method(method), end));
        }
        let (access, behind) = self.access(here);
        self.accessed_addition(around, access, &behind)
    }

    /// An associated type behind its word.
    fn assoc<'a>(
        &self,
        around: &Nesting,
        word: Token,
        here: &Here<'a>,
    ) -> Result<(AssocTree, Here<'a>), Unread>
        requires { IsAt self.now.source here.now.place }
        ensures { FollowsForm self.now.source assoc_in
            (forms.assoc_form (nesting_in around.now) (token_in self.now.source.bytes.now word)) here.now result }
    {
        let (name, behind) = self.source.name(here)?;
        let (bases, end) = self.bases(around, &behind)?;
        let (_, last) = self.source.mark(";", &end)?;
        Ok((AssocTree { word, name, bases }, last))
    }

    /// A requirement, or an associated type.
    fn item<'a>(&self, around: &Nesting, here: &Here<'a>) -> Result<(ItemTree, Here<'a>), Unread>
        requires at { IsAt self.now.source here.now.place }
        requires few { AreFew 3 around.now }
        ensures { SettlesForm self.now.source item_in (forms.item_form (nesting_in around.now)) here.now result }
    {
        if let Some((word, behind)) = self.source.sign("associatedtype", here) {
            let (assoc, end) = self.assoc(around, word, &behind)?;
            return Ok((ItemTree::Assoc(assoc), end));
        }
        let (require, end) = self.require(around, here)?;
        Ok((ItemTree::Require(require), end))
    }

    /// Members up to a closing brace.
    fn members<'a>(
        &self,
        inside: &Nesting,
        here: &Here<'a>,
    ) -> Result<(List<MemberTree>, Here<'a>), Unread>
        requires at { IsAt self.now.source here.now.place }
        requires few { AreFew 3 inside.now }
        ensures { SettlesForm self.now.source (λ source members. map (member_in source) members)
            (Until (is_sign "}") (forms.member_form (nesting_in inside.now))) here.now result }
    {
        let mut members = List::new(self.source.alloc);
        let mut next = *here;
        loop {
            if self.source.stands("}", &next) {
                return Ok((members, next));
            }
            let (member, behind) = self.member(inside, &next)?;
            members.push(member)?;
            next = behind;
        }
    }

    /// Methods and aliases up to a closing brace.
    fn additions<'a>(
        &self,
        inside: &Nesting,
        here: &Here<'a>,
    ) -> Result<(List<MemberTree>, Here<'a>), Unread>
        requires at { IsAt self.now.source here.now.place }
        requires few { AreFew 3 inside.now }
        ensures { SettlesForm self.now.source (λ source members. map (member_in source) members)
            (Until (is_sign "}") (forms.addition_form (nesting_in inside.now))) here.now result }
    {
        let mut members = List::new(self.source.alloc);
        let mut next = *here;
        loop {
            if self.source.stands("}", &next) {
                return Ok((members, next));
            }
            let (member, behind) = self.addition(inside, &next)?;
            members.push(member)?;
            next = behind;
        }
    }

    /// Requirements and associated types up to a closing brace.
    fn items<'a>(
        &self,
        inside: &Nesting,
        here: &Here<'a>,
    ) -> Result<(List<ItemTree>, Here<'a>), Unread>
        requires at { IsAt self.now.source here.now.place }
        requires few { AreFew 3 inside.now }
        ensures { SettlesForm self.now.source (λ source items. map (item_in source) items)
            (Until (is_sign "}") (forms.item_form (nesting_in inside.now))) here.now result }
    {
        let mut items = List::new(self.source.alloc);
        let mut next = *here;
        loop {
            if self.source.stands("}", &next) {
                return Ok((items, next));
            }
            let (item, behind) = self.item(inside, &next)?;
            items.push(item)?;
            next = behind;
        }
    }

    /// The members of a struct in braces, and the semicolon behind them.
    pub fn struct_body<'a>(
        &self,
        around: &Nesting,
        here: &Here<'a>,
    ) -> Result<((List<MemberTree>, Option<Token>), Here<'a>), Unread>
        requires at { IsAt self.now.source here.now.place }
        requires few { AreFew 2 around.now }
        ensures { SettlesForm self.now.source (λ source body.
            (map (member_in source) body.0, option_map (token_in source) body.1))
            (forms.body_form (nesting_in around.now) forms.member_form) here.now result }
    {
        let inside = around.in_block();
        let (_, behind) = self.source.opening("{", around.blocks, here)?;
        let (members, end) = self.members(&inside, &behind)?;
        let (_, next) = self.source.mark("}", &end)?;
        let (semicolon, last) = self.maybe(";", &next);
        Ok(((members, semicolon), last))
    }

    /// The methods and aliases of an extension in braces, and the semicolon behind them.
    pub fn extension_body<'a>(
        &self,
        around: &Nesting,
        here: &Here<'a>,
    ) -> Result<((List<MemberTree>, Option<Token>), Here<'a>), Unread>
        requires at { IsAt self.now.source here.now.place }
        requires few { AreFew 2 around.now }
        ensures { SettlesForm self.now.source (λ source body.
            (map (member_in source) body.0, option_map (token_in source) body.1))
            (forms.body_form (nesting_in around.now) forms.addition_form) here.now result }
    {
        let inside = around.in_block();
        let (_, behind) = self.source.opening("{", around.blocks, here)?;
        let (members, end) = self.additions(&inside, &behind)?;
        let (_, next) = self.source.mark("}", &end)?;
        let (semicolon, last) = self.maybe(";", &next);
        Ok(((members, semicolon), last))
    }

    /// The items of an interface in braces, and the semicolon behind them.
    pub fn interface_body<'a>(
        &self,
        around: &Nesting,
        here: &Here<'a>,
    ) -> Result<((List<ItemTree>, Option<Token>), Here<'a>), Unread>
        requires at { IsAt self.now.source here.now.place }
        requires few { AreFew 2 around.now }
        ensures { SettlesForm self.now.source (λ source body.
            (map (item_in source) body.0, option_map (token_in source) body.1))
            (forms.body_form (nesting_in around.now) forms.item_form) here.now result }
    {
        let inside = around.in_block();
        let (_, behind) = self.source.opening("{", around.blocks, here)?;
        let (items, end) = self.items(&inside, &behind)?;
        let (_, next) = self.source.mark("}", &end)?;
        let (semicolon, last) = self.maybe(";", &next);
        Ok(((items, semicolon), last))
    }
}
