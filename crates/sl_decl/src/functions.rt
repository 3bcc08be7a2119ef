//! Functions and their attributes.

ghost use Rattle.std.specs.Prelude.{List, map};
ghost use Rattle.std.specs.Option.{option_map};
ghost use Rattle.def_decl_reading.specs.DeclReading as forms;
ghost use Rattle.def_module.specs.DeclTree as trees;
ghost use Rattle.sl_token.specs.View.{token_in};
ghost use Rattle.sl_tree.specs.DeclView.{access_in, attr_in, function_in};
ghost use Rattle.sl_cursor.specs.Nestings.{nesting_in};

use crate::parser::Parser;
use sl_base::List;
use sl_cursor::nesting::Nesting;
use sl_cursor::source::{Here, Unread};
use sl_stmt::heads::bracket;
use sl_stmt::wholes::typed;
use sl_token::Token;
use sl_tree::{AccessTree, AttrTree, FunctionTree};

impl Parser<'_> {
    ghost use Rattle.sl_decl.specs.Forms.{AreFew, FollowsForm, IsGiven, SettlesForm};
    ghost use Rattle.sl_decl.specs.Attributes.{more_attrs, shader_form, threads_form};
    ghost use Rattle.sl_cursor.specs.Following.{IsAt};

    /// The stage of a shader behind the word `shader`, inside its attribute.
    fn shader<'a>(
        &self,
        inside: &Nesting,
        opening: Token,
        word: Token,
        here: &Here<'a>,
    ) -> Result<(AttrTree, Here<'a>), Unread>
        requires { IsAt self.now.source here.now.place }
        ensures { let bytes = self.now.source.bytes.now in FollowsForm self.now.source attr_in
            (shader_form (nesting_in inside.now) (token_in bytes opening) (token_in bytes word)) here.now result }
    {
        let (_, begun) = self.source.opening("(", inside.brackets, here)?;
        let (stage, behind) = self.source.text(&begun)?;
        let (_, next) = self.source.mark(")", &behind)?;
        let (_, end) = self.source.mark("]", &next)?;
        let attr = AttrTree::Shader {
            opening,
            word,
            stage,
        };
        Ok((attr, end))
    }

    /// The numbers of threads behind the word `numthreads`, inside their attribute.
    fn threads<'a>(
        &self,
        inside: &Nesting,
        opening: Token,
        word: Token,
        here: &Here<'a>,
    ) -> Result<(AttrTree, Here<'a>), Unread>
        requires { IsAt self.now.source here.now.place }
        ensures { let bytes = self.now.source.bytes.now in FollowsForm self.now.source attr_in
            (threads_form (nesting_in inside.now) (token_in bytes opening) (token_in bytes word)) here.now result }
    {
        let (_, begun) = self.source.opening("(", inside.brackets, here)?;
        let (x, first) = self.source.number(&begun)?;
        let (_, second) = self.source.mark(",", &first)?;
        let (y, third) = self.source.number(&second)?;
        let (_, fourth) = self.source.mark(",", &third)?;
        let (z, behind) = self.source.number(&fourth)?;
        let (_, next) = self.source.mark(")", &behind)?;
        let (_, end) = self.source.mark("]", &next)?;
        let attr = AttrTree::NumThreads {
            opening,
            word,
            x,
            y,
            z,
        };
        Ok((attr, end))
    }

    /// An attribute behind its first bracket, inside it.
    pub fn attr<'a>(
        &self,
        around: &Nesting,
        opening: Token,
        here: &Here<'a>,
    ) -> Result<(AttrTree, Here<'a>), Unread>
        requires { IsAt self.now.source here.now.place }
        ensures { FollowsForm self.now.source attr_in
            (forms.attr_form (nesting_in around.now) (token_in self.now.source.bytes.now opening)) here.now result }
    {
        if let Some((word, behind)) = self.source.sign("shader", here) {
            return self.shader(around, opening, word, &behind);
        }
        let (word, behind) = self.source.mark("numthreads", here)?;
        self.threads(around, opening, word, &behind)
    }

    /// Attributes behind the first of them, as many as there are.
    pub fn attrs<'a>(
        &self,
        around: &Nesting,
        first: AttrTree,
        here: &Here<'a>,
    ) -> Result<(List<AttrTree>, Here<'a>), Unread>
        requires at { IsAt self.now.source here.now.place }
        requires few { AreFew 2 around.now }
        ensures { let bytes = self.now.source.bytes.now in
            (tree : trees.AttrTree) → IsGiven here.now (attr_in bytes first) tree
            → FollowsForm self.now.source (λ source attrs. map (attr_in source) attrs)
            (more_attrs (nesting_in around.now) tree) here.now result }
    {
        let inside = around.in_bracket();
        let mut attrs = List::new(self.source.alloc);
        attrs.push(first)?;
        let mut next = *here;
        loop {
            let Some((opening, behind)) = self.square(around, &next) else {
                return Ok((attrs, next));
            };
            let (attr, after) = self.attr(&inside, opening, &behind)?;
            attrs.push(attr)?;
            next = after;
        }
    }

    /// A function behind its access.
    pub fn function<'a>(
        &self,
        around: &Nesting,
        attrs: List<AttrTree>,
        access: Option<AccessTree>,
        here: &Here<'a>,
    ) -> Result<(FunctionTree, Here<'a>), Unread>
        requires at { IsAt self.now.source here.now.place }
        requires few { AreFew 2 around.now }
        ensures { let bytes = self.now.source.bytes.now in
            (tree : List trees.AttrTree) → IsGiven here.now (map (attr_in bytes) attrs) tree
            → SettlesForm self.now.source function_in
            (forms.function_form (nesting_in around.now) tree (option_map (access_in bytes) access)) here.now result }
    {
        let (type_, begun) = typed(&self.source, around, here)?;
        let (name, behind) = self.source.name(&begun)?;
        let (params, next) = self.params(around, &behind)?;
        let (_, inside) = bracket(&self.source, around, &next)?;
        let (args, after) = self.args(&around.in_bracket(), &inside)?;
        let (wheres, last) = self.conditions(around, &after)?;
        let (body, end) = self.block(around, &last)?;
        let function = FunctionTree {
            attrs,
            access,
            type_,
            name,
            params,
            args,
            wheres,
            body,
        };
        Ok((function, end))
    }
}
