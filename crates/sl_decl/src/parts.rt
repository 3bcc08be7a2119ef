//! What declarations and members are made of: aliases, type parameters, bases, and parameters.

ghost use Rattle.std.specs.Prelude.{◌≡◌, Some, map};
ghost use Rattle.std.specs.Option.{option_map};
ghost use Rattle.def_decl_reading.specs.Form.{AType, Listed, reads};
ghost use Rattle.def_decl_reading.specs.MemberReading as forms;
ghost use Rattle.sl_token.specs.View.{token_in};
ghost use Rattle.sl_tree.specs.DeclView.{access_in, alias_in, arg_in, mode_in, param_in, where_in};
ghost use Rattle.sl_tree.specs.View.{type_in};
ghost use Rattle.sl_cursor.specs.Nestings.{nesting_in};

use crate::parser::Parser;
use sl_base::List;
use sl_cursor::nesting::Nesting;
use sl_cursor::source::{Here, Unread};
use sl_stmt::wholes::typed;
use sl_token::Token;
use sl_tree::{AccessTree, AliasTree, ArgTree, ModeTree, ModeWord, ParamTree, TypeTree, WhereTree};

impl Parser<'_> {
    ghost use Rattle.sl_decl.specs.Forms.{FollowsForm, IsTaken};
    ghost use Rattle.sl_cursor.specs.Following.{IsAt};

    /// An alias behind its word.
    pub fn alias<'a>(
        &self,
        around: &Nesting,
        access: Option<AccessTree>,
        word: Token,
        here: &Here<'a>,
    ) -> Result<(AliasTree, Here<'a>), Unread>
        requires { IsAt self.now.source here.now.place }
        ensures { let bytes = self.now.source.bytes.now in FollowsForm self.now.source alias_in
            (forms.alias_form (nesting_in around.now) (option_map (access_in bytes) access) (token_in bytes word))
            here.now result }
    {
        let (name, behind) = self.source.name(here)?;
        let (_, next) = self.source.mark("=", &behind)?;
        let (type_, end) = typed(&self.source, around, &next)?;
        let (_, last) = self.source.mark(";", &end)?;
        let alias = AliasTree {
            access,
            word,
            name,
            type_,
        };
        Ok((alias, last))
    }

    /// A type behind its mark, if there is one.
    fn bound<'a>(
        &self,
        around: &Nesting,
        here: &Here<'a>,
    ) -> Result<(Option<TypeTree>, Here<'a>), Unread>
        requires { IsAt self.now.source here.now.place }
        ensures { FollowsForm self.now.source (λ source bound. option_map (type_in source) bound)
            (forms.maybe_type_form (nesting_in around.now)) here.now result }
    {
        let Some((_, behind)) = self.source.sign(":", here) else {
            return Ok((None, *here));
        };
        let (bound, end) = typed(&self.source, around, &behind)?;
        Ok((Some(bound), end))
    }

    /// A type parameter.
    fn param<'a>(&self, around: &Nesting, here: &Here<'a>) -> Result<(ParamTree, Here<'a>), Unread>
        requires { IsAt self.now.source here.now.place }
        ensures { FollowsForm self.now.source param_in (forms.param_form (nesting_in around.now)) here.now result }
    {
        let (name, behind) = self.source.name(here)?;
        let (bound, end) = self.bound(around, &behind)?;
        Ok((ParamTree { name, bound }, end))
    }

    /// Type parameters with a comma between them.
    fn listed_params<'a>(
        &self,
        around: &Nesting,
        here: &Here<'a>,
    ) -> Result<(List<ParamTree>, Here<'a>), Unread>
        requires { IsAt self.now.source here.now.place }
        ensures { FollowsForm self.now.source (λ source params. map (param_in source) params)
            (Listed (forms.param_form (nesting_in around.now))) here.now result }
    {
        let mut params = List::new(self.source.alloc);
        let mut next = *here;
        loop {
            let (param, behind) = self.param(around, &next)?;
            params.push(param)?;
            match self.source.sign(",", &behind) {
                Some((_, after)) => next = after,
                None => return Ok((params, behind)),
            }
        }
    }

    /// Type parameters, if there are any.
    pub fn params<'a>(
        &self,
        around: &Nesting,
        here: &Here<'a>,
    ) -> Result<(List<ParamTree>, Here<'a>), Unread>
        requires { IsAt self.now.source here.now.place }
        ensures { FollowsForm self.now.source (λ source params. map (param_in source) params)
            (forms.params_form (nesting_in around.now)) here.now result }
    {
        let Some((_, behind)) = self.source.sign("<", here) else {
            return Ok((List::new(self.source.alloc), *here));
        };
        let (params, end) = self.listed_params(around, &behind)?;
        let (_, last) = self.source.mark(">", &end)?;
        Ok((params, last))
    }

    /// Types with a comma between them.
    fn types<'a>(
        &self,
        around: &Nesting,
        here: &Here<'a>,
    ) -> Result<(List<TypeTree>, Here<'a>), Unread>
        requires { IsAt self.now.source here.now.place }
        ensures { FollowsForm self.now.source (λ source types. map (type_in source) types)
            (Listed (AType (nesting_in around.now))) here.now result }
    {
        let mut types = List::new(self.source.alloc);
        let mut next = *here;
        loop {
            let (ty, behind) = typed(&self.source, around, &next)?;
            types.push(ty)?;
            match self.source.sign(",", &behind) {
                Some((_, after)) => next = after,
                None => return Ok((types, behind)),
            }
        }
    }

    /// Bases, if there are any.
    pub fn bases<'a>(
        &self,
        around: &Nesting,
        here: &Here<'a>,
    ) -> Result<(List<TypeTree>, Here<'a>), Unread>
        requires { IsAt self.now.source here.now.place }
        ensures { FollowsForm self.now.source (λ source types. map (type_in source) types)
            (forms.bases_form (nesting_in around.now)) here.now result }
    {
        match self.source.sign(":", here) {
            Some((_, behind)) => self.types(around, &behind),
            None => Ok((List::new(self.source.alloc), *here)),
        }
    }

    /// What a type conforms to, behind the word `where`.
    fn condition<'a>(
        &self,
        around: &Nesting,
        word: Token,
        here: &Here<'a>,
    ) -> Result<(WhereTree, Here<'a>), Unread>
        requires { IsAt self.now.source here.now.place }
        ensures { let bytes = self.now.source.bytes.now in FollowsForm self.now.source where_in
            (forms.where_form (nesting_in around.now) (token_in bytes word)) here.now result }
    {
        let (type_, behind) = typed(&self.source, around, here)?;
        let (_, next) = self.source.mark(":", &behind)?;
        let (bounds, end) = self.types(around, &next)?;
        let condition = WhereTree {
            word,
            type_,
            bounds,
        };
        Ok((condition, end))
    }

    /// What types conform to, as often as the word `where` stands there.
    pub fn conditions<'a>(
        &self,
        around: &Nesting,
        here: &Here<'a>,
    ) -> Result<(List<WhereTree>, Here<'a>), Unread>
        requires { IsAt self.now.source here.now.place }
        ensures { FollowsForm self.now.source (λ source conditions. map (where_in source) conditions)
            (forms.wheres_form (nesting_in around.now)) here.now result }
    {
        let mut conditions = List::new(self.source.alloc);
        let mut next = *here;
        loop {
            let Some((word, behind)) = self.source.sign("where", &next) else {
                return Ok((conditions, next));
            };
            let (condition, after) = self.condition(around, word, &behind)?;
            conditions.push(condition)?;
            next = after;
        }
    }

    /// A word before a parameter, if there is one.
    fn mode<'a>(&self, here: &Here<'a>) -> (Option<ModeTree>, Here<'a>)
        requires { IsAt self.now.source here.now.place }
        ensures { IsTaken self.now.source (option_map (mode_in self.now.source.bytes.now)) (reads forms.mode_form)
            here.now result.0 result.1 }
    {
        if let Some((token, behind)) = self.source.sign("in", here) {
            return (mode_by(ModeWord::In, token), behind);
        }
        match self.source.sign("inout", here) {
            Some((token, behind)) => (mode_by(ModeWord::InOut, token), behind),
            None => (None, *here),
        }
    }

    /// A semantic, if there is one.
    fn semantic<'a>(&self, here: &Here<'a>) -> Result<(Option<Token>, Here<'a>), Unread>
        requires { IsAt self.now.source here.now.place }
        ensures { FollowsForm self.now.source (λ source name. option_map (token_in source) name) forms.semantic_form
            here.now result }
    {
        let Some((_, behind)) = self.source.sign(":", here) else {
            return Ok((None, *here));
        };
        let (name, end) = self.source.name(&behind)?;
        Ok((Some(name), end))
    }

    /// A parameter.
    fn arg<'a>(&self, around: &Nesting, here: &Here<'a>) -> Result<(ArgTree, Here<'a>), Unread>
        requires { IsAt self.now.source here.now.place }
        ensures { FollowsForm self.now.source arg_in (forms.arg_form (nesting_in around.now)) here.now result }
    {
        let (mode, begun) = self.mode(here);
        let (type_, behind) = typed(&self.source, around, &begun)?;
        let (name, next) = self.source.name(&behind)?;
        let (semantic, end) = self.semantic(&next)?;
        let arg = ArgTree {
            mode,
            type_,
            name,
            semantic,
        };
        Ok((arg, end))
    }

    /// Parameters with a comma between them.
    fn listed_args<'a>(
        &self,
        around: &Nesting,
        here: &Here<'a>,
    ) -> Result<(List<ArgTree>, Here<'a>), Unread>
        requires { IsAt self.now.source here.now.place }
        ensures { FollowsForm self.now.source (λ source args. map (arg_in source) args)
            (Listed (forms.arg_form (nesting_in around.now))) here.now result }
    {
        let mut args = List::new(self.source.alloc);
        let mut next = *here;
        loop {
            let (arg, behind) = self.arg(around, &next)?;
            args.push(arg)?;
            match self.source.sign(",", &behind) {
                Some((_, after)) => next = after,
                None => return Ok((args, behind)),
            }
        }
    }

    /// Parameters, if there are any, and the closing bracket.
    pub fn args<'a>(
        &self,
        around: &Nesting,
        here: &Here<'a>,
    ) -> Result<(List<ArgTree>, Here<'a>), Unread>
        requires { IsAt self.now.source here.now.place }
        ensures { FollowsForm self.now.source (λ source args. map (arg_in source) args)
            (forms.args_form (nesting_in around.now)) here.now result }
    {
        if let Some((_, behind)) = self.source.sign(")", here) {
            return Ok((List::new(self.source.alloc), behind));
        }
        let (args, end) = self.listed_args(around, here)?;
        let (_, last) = self.source.mark(")", &end)?;
        Ok((args, last))
    }
}

// A word before a parameter with its token.
fn mode_by(word: ModeWord, token: Token) -> Option<ModeTree>
    ensures { result ≡ Some (record { word = word; token = token }) }
{
    Some(ModeTree { word, token })
}
