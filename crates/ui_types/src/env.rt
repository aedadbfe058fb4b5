ghost use Rattle.std.specs.Prelude.{◌≡◌, ℕ, List, [], ◌∷◌, IfOk, IfSome, codes, option_map};
ghost use Rattle.ui_types.specs.Table.{Table, IsId, AreIds, Grows, Denotes, Makes, tree, trees};
ghost use Rattle.ui_types.specs.Decls.{Packages, DeclTrees, find_package, find_decl, IsDecl};
ghost use Rattle.ui_types.specs.Decls.{IsAnswer, shown_decl, error_name, error_type, name_eq};
ghost use Rattle.ui_types.specs.Decls.{under, under_name, under_decl};
ghost use Rattle.ui_types.specs.Kept.{Kept, KeptEverywhere};

use crate::decl::{Decl, Face};
use crate::fault::TypeFault;
use crate::id::{Ids, TypeId};
use crate::node::TypeNode;
use crate::part::{Fields, Method, Methods, copy_parts};
use crate::substitute::intern_within;
use crate::table::TypeTable;
use std::alloc::Global;
use ui_base::{Basic, Name, NoMemory, Text};

/// Answers package names and declarations, each from one finite map, whatever was asked before.
pub trait Env {
    /// The map from paths to package names.
    ghost packages: { Self → Packages };

    /// The ghost names of the references that it holds, which no call changes.
    ghost lent: { Self → List ℕ };

    /// The map from names to declarations, with the trees that the ids kept have in the table.
    ghost decls: { Self → Table → DeclTrees };

    /// The ids kept are of the table, with the trees that they stand for.
    ghost fits: { Self → Table → Type 0 };

    /// The name of the package with this path.
    fn package(&mut self, alloc: Global, path: &Text) -> Result<Option<Text>, NoMemory>
        ensures answer { IfOk result (λ found. found ≡ find_package (packages self.old) path.now) }
        ensures kept { KeptEverywhere packages lent decls fits self.old self.new };

    /// The declaration of the name, with ids of the table.
    fn decl(
        &mut self,
        alloc: Global,
        table: &mut TypeTable,
        name: &Name,
    ) -> Result<Option<Decl>, NoMemory>
        requires { fits self.old table.old }
        ensures answer { IfOk result (IsAnswer table.new
            (find_decl (decls self.old table.old) name.now)) }
        ensures kept { Kept packages lent decls fits self.old table.old self.new table.new };

    /// A table that grows changes nothing.
    ghost stays: { (s : Self) (t u : Table) → Grows t u → fits s t
        → fits s u × (decls s u ≡ decls s t) };
}

fn one_id(alloc: Global, id: TypeId) -> Result<Ids, NoMemory>
    ensures { IfOk result (λ ids. ids ≡ id ∷ []) }
{
    let mut ids = Vec::new(alloc);
    ids.push(id)?;
    Ok(Ids::new(ids))
}

// The method `Error` with this signature.
fn error_method(alloc: Global, sig: TypeId) -> Result<Methods, NoMemory>
    ensures { IfOk result (λ methods. methods ≡ (record { name = record { path = []; name = codes "Error" }; sig = sig }) ∷ []) }
{
    let path = Text::new(Vec::new(alloc));
    let name = Text::from_slice(alloc, b"Error")?;
    let name = Name { path, name };
    let mut methods = Vec::new(alloc);
    methods.push(Method { name, sig })?;
    Ok(Methods::new(methods))
}

// The underlying type of the predeclared `error`.
#[tactic(auto, using(crate::specs::Trees::growth))]
fn error_interface(alloc: Global, table: &mut TypeTable) -> Result<TypeId, NoMemory>
    ensures made { IfOk result (Denotes table.new error_type) }
    ensures grows { Grows table.old table.new }
{
    let text = intern_within(alloc, table, TypeNode::Basic(Basic::String))?;
    let results = one_id(alloc, text)?;
    let params = Ids::new(Vec::new(alloc));
    let sig = intern_within(alloc, table, TypeNode::Func { params, results })?;
    let methods = error_method(alloc, sig)?;
    let unions = Ids::new(Vec::new(alloc));
    let interface = TypeNode::Iface {
        methods,
        comparable: false,
        unions,
    };
    intern_within(alloc, table, interface)
}

// The same, as the outcome of a call that makes it.
fn error_made(alloc: Global, table: &mut TypeTable) -> Result<TypeId, TypeFault>
    ensures made { Makes table.new error_type result }
    ensures grows { Grows table.old table.new }
{
    match error_interface(alloc, table) {
        Ok(id) => Ok(id),
        Err(_) => Err(TypeFault::NoMemory),
    }
}

// Whether it is the name of the predeclared type `error`.
fn is_error(name: &Name) -> bool
    ensures { result ≡ name_eq name.now error_name }
{
    name.path.bytes() == b"builtin".as_slice() && name.name.bytes() == b"error".as_slice()
}

// The underlying type of a name with this declaration and these arguments.
#[tactic(auto, using(crate::specs::Trees::growth))]
fn under_found(
    alloc: Global,
    table: &mut TypeTable,
    found: &Option<Decl>,
    args: &[TypeId],
) -> Result<TypeId, TypeFault>
    requires found { IfSome found.now (IsDecl table.old) }
    requires arguments { AreIds table.old args.now }
    ensures made { Makes table.new (under_decl (option_map (shown_decl table.old) found.now)
        (trees table.old args.now)) result }
    ensures grows { Grows table.old table.new }
{
    if let Some(decl) = found {
        if let Face::Defined {
            params,
            under,
            methods: _,
        } = &decl.face
        {
            if params.items().len() == args.len() {
                return table.subst(alloc, *under, args);
            }
        }
    }
    table.intern(alloc, TypeNode::Struct(Fields::new(Vec::new(alloc))))
}

// The underlying type of a declared type.
#[tactic(auto, using(crate::specs::Trees::growth, crate::specs::Stays::staying))]
fn under_named<E: Env>(
    alloc: Global,
    env: &mut E,
    table: &mut TypeTable,
    name: &Name,
    args: &[TypeId],
) -> Result<TypeId, TypeFault>
    requires env { E.fits env.old table.old }
    requires arguments { AreIds table.old args.now }
    ensures made { Makes table.new (under_name (E.decls env.old table.old) name.now
        (trees table.old args.now)) result }
    ensures kept { Kept E.packages E.lent E.decls E.fits env.old table.old env.new table.new }
{
    if is_error(name) {
        return error_made(alloc, table);
    }
    match env.decl(alloc, table, name) {
        Ok(found) => under_found(alloc, table, &found, args),
        Err(_) => Err(TypeFault::NoMemory),
    }
}

/// The underlying type in this environment. It is refused exactly where that type's tree is past a
/// limit, which only that of a declared type with arguments can be. Go specification, "Underlying
/// types".
#[tactic(auto, using(crate::specs::Trees::growth))]
pub fn underlying<E: Env>(
    alloc: Global,
    env: &mut E,
    table: &mut TypeTable,
    t: TypeId,
) -> Result<TypeId, TypeFault>
    requires env { E.fits env.old table.old }
    requires id { IsId table.old t }
    ensures made { Makes table.new (under (E.decls env.old table.old) (tree table.old t)) result }
    ensures kept { Kept E.packages E.lent E.decls E.fits env.old table.old env.new table.new }
{
    if let TypeNode::Named { name, args } = table.node(t) {
        let name = name.copy(alloc)?;
        let args = copy_parts(alloc, args.items())?;
        return under_named(alloc, env, table, &name, args.items());
    }
    Ok(t)
}
