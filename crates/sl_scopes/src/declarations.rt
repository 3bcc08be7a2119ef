//! The scopes of declarations.

ghost use Rattle.std.specs.Prelude.{map};
ghost use Rattle.std.specs.List.{flat_map};
ghost use Rattle.std.specs.Option.{option_map};
ghost use Rattle.def_module.specs.Scopes.{args_scope, body_scopes, decl_scopes, item_scopes, maybe_body_scopes, member_scopes, members_scopes, module_scopes, params_scope};
ghost use Rattle.def_module.specs.Twice.{second_name};
ghost use Rattle.sl_tree.specs.DeclView.{arg_in, block_in, decl_in, item_in, member_in, module_in, param_in};
ghost use Rattle.sl_scopes.specs.Search.{Ends, items_scopes, twice_in};

use crate::declared::{
    names_of_args, names_of_decls, names_of_items, names_of_members, names_of_params,
};
use crate::early::Early;
use crate::search::Search;
use sl_tree::{ArgTree, BlockTree, DeclTree, ItemTree, MemberTree, ModuleTree, ParamTree};

impl Search<'_> {
    /// Looks through a module.
    pub fn module(&self, tree: &ModuleTree) -> Result<(), Early>
        ensures { let source = self.now.source.now in Ends source
            (twice_in (module_scopes (module_in source tree.now))) result }
    {
        let decls = tree.decls.as_slice();
        self.decls(decls)?;
        let names = names_of_decls(self.alloc, decls)?;
        self.scope(names.as_slice())
    }

    // Looks through the scopes inside declarations.
    fn decls(&self, decls: &[DeclTree]) -> Result<(), Early>
        ensures { let source = self.now.source.now in Ends source
            (twice_in (flat_map decl_scopes (map (decl_in source) decls.now))) result }
    {
        for decl in decls {
            self.decl(decl)?;
        }
        Ok(())
    }

    // Looks through the scopes inside a declaration.
    #[tactic(auto, using(crate::proofs::Searching::twice_none))]
    fn decl(&self, decl: &DeclTree) -> Result<(), Early>
        ensures { let source = self.now.source.now in Ends source
            (twice_in (decl_scopes (decl_in source decl.now))) result }
    {
        match decl {
            DeclTree::Import(_) | DeclTree::Alias(_) | DeclTree::Const(_) | DeclTree::Buffer(_) =>
                Ok(()),
            DeclTree::Struct(structure) => {
                self.params(structure.params.as_slice())?;
                self.members(structure.members.as_slice())
            }
            DeclTree::Interface(interface) => self.items(interface.items.as_slice()),
            DeclTree::Extension(extension) => self.members(extension.members.as_slice()),
            DeclTree::Function(function) => {
                self.params(function.params.as_slice())?;
                self.args(function.args.as_slice())?;
                self.body(&function.body)
            }
        }
    }

    // Looks through the members of a struct or an extension.
    fn members(&self, members: &[MemberTree]) -> Result<(), Early>
        ensures { let source = self.now.source.now in Ends source
            (twice_in (members_scopes (map (member_in source) members.now))) result }
    {
        self.inside_members(members)?;
        let names = names_of_members(self.alloc, members)?;
        self.scope(names.as_slice())
    }

    // Looks through the scopes inside members.
    fn inside_members(&self, members: &[MemberTree]) -> Result<(), Early>
        ensures { let source = self.now.source.now in Ends source
            (twice_in (flat_map member_scopes (map (member_in source) members.now))) result }
    {
        for member in members {
            self.member(member)?;
        }
        Ok(())
    }

    // Looks through the scopes inside a member.
    #[tactic(auto, using(crate::proofs::Searching::twice_none))]
    fn member(&self, member: &MemberTree) -> Result<(), Early>
        ensures { let source = self.now.source.now in Ends source
            (twice_in (member_scopes (member_in source member.now))) result }
    {
        match member {
            MemberTree::Field(_) | MemberTree::Alias(_) => Ok(()),
            MemberTree::Method(method) => {
                self.args(method.tail.args.as_slice())?;
                self.body(&method.body)
            }
        }
    }

    // Looks through the items of an interface.
    fn items(&self, items: &[ItemTree]) -> Result<(), Early>
        ensures { let source = self.now.source.now in Ends source
            (twice_in (items_scopes (map (item_in source) items.now))) result }
    {
        self.inside_items(items)?;
        let names = names_of_items(self.alloc, items)?;
        self.scope(names.as_slice())
    }

    // Looks through the scopes inside the items of an interface.
    fn inside_items(&self, items: &[ItemTree]) -> Result<(), Early>
        ensures { let source = self.now.source.now in Ends source
            (twice_in (flat_map item_scopes (map (item_in source) items.now))) result }
    {
        for item in items {
            self.item(item)?;
        }
        Ok(())
    }

    // Looks through the scopes inside an item of an interface.
    #[tactic(auto, using(crate::proofs::Searching::twice_none))]
    fn item(&self, item: &ItemTree) -> Result<(), Early>
        ensures { let source = self.now.source.now in Ends source
            (twice_in (item_scopes (item_in source item.now))) result }
    {
        match item {
            ItemTree::Require(require) => {
                self.args(require.head.tail.args.as_slice())?;
                self.maybe_body(&require.body)
            }
            ItemTree::Assoc(_) => Ok(()),
        }
    }

    // Looks through a body, if there is one.
    #[tactic(auto, using(crate::proofs::Searching::twice_none))]
    fn maybe_body(&self, body: &Option<BlockTree>) -> Result<(), Early>
        ensures { let source = self.now.source.now in Ends source
            (twice_in (maybe_body_scopes (option_map (block_in source) body.now))) result }
    {
        match body {
            Some(body) => self.body(body),
            None => Ok(()),
        }
    }

    // Looks through type parameters.
    fn params(&self, params: &[ParamTree]) -> Result<(), Early>
        ensures { let source = self.now.source.now in Ends source
            (second_name (params_scope (map (param_in source) params.now))) result }
    {
        let names = names_of_params(self.alloc, params)?;
        self.scope(names.as_slice())
    }

    // Looks through parameters.
    fn args(&self, args: &[ArgTree]) -> Result<(), Early>
        ensures { let source = self.now.source.now in Ends source
            (second_name (args_scope (map (arg_in source) args.now))) result }
    {
        let names = names_of_args(self.alloc, args)?;
        self.scope(names.as_slice())
    }

    // Looks through a body.
    fn body(&self, body: &BlockTree) -> Result<(), Early>
        ensures { let source = self.now.source.now in Ends source
            (twice_in (body_scopes (block_in source body.now))) result }
    {
        self.braces(body.stmts.as_slice())
    }
}
