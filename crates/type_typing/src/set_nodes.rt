//! Typed sets and items, of their typed parts.

ghost use Rattle.std.specs.Prelude.{◌≡◌, Ok};
ghost use Rattle.type_schema.specs.declared.trees.TSet.TheVariants as ts;
ghost use Rattle.type_schema.specs.declared.trees.TItem.TheVariants as ti;
ghost use Rattle.type_typing.specs.Asked as spec;
ghost use Rattle.type_typing.specs.Names as names;
ghost use Rattle.type_typing.specs.Names.{plain_of};
ghost use Rattle.type_typing.specs.Outcome.{Gives, and_then, or_else};
ghost use Rattle.type_typing.specs.declared.type_err.TypeErr.TheVariants.{Unknown};

use crate::asked::{Content, Source, Typed, among_principals, id_of, may_hold, set_of_ids};
use crate::names::static_named;
use crate::nodes::boxed_name;
use crate::type_err::TypeErr;
use sqlite_items::{Boxed, Items};
use std::alloc::Global;
use text_tree::Named;
use type_schema::{ModelNo, Schema, TFilter, TItem, TSet};

/// A set in memory of its own.
pub fn boxed(alloc: Global, set: TSet) -> Result<Boxed<TSet>, TypeErr>
    ensures { Gives (Ok set) result }
{
    Ok(Boxed::new(alloc, set)?)
}

/// `public`, where principals are asked. `word` is its place.
pub fn everyone(alloc: Global, content: Content, word: u32) -> Result<Boxed<TSet>, TypeErr>
    ensures { Gives (and_then (spec.among_principals content word) (λ _. Ok ts.Everyone)) result }
{
    among_principals(content, word)?;
    boxed(alloc, TSet::Everyone)
}

/// A chain of records, where this content is asked.
pub fn chain(schema: &Schema, content: Content, of: Source) -> Result<Boxed<TSet>, TypeErr>
    ensures { result
        ≡ and_then (spec.may_hold (plain_of schema.now) content of.model of.at) (λ _. Ok of.set) }
{
    may_hold(schema, content, of.model, of.at)?;
    let Source { set, .. } = of;
    Ok(set)
}

/// `if c then S else T`.
pub fn choice_of_sets(
    alloc: Global,
    test: Typed,
    one: Boxed<TSet>,
    other: Boxed<TSet>,
) -> Result<Boxed<TSet>, TypeErr>
    ensures { Gives (Ok (ts.IfS test.tree one other)) result }
{
    boxed(alloc, TSet::IfS(test.into_tree(), one, other))
}

/// `match e with none -> S | some x -> T`.
pub fn set_cases(
    alloc: Global,
    of: Typed,
    none: Boxed<TSet>,
    x: &Named,
    some: Boxed<TSet>,
) -> Result<Boxed<TSet>, TypeErr>
    ensures { Gives (Ok (ts.MatchS of.tree none x.now.name some)) result }
{
    let name = boxed_name(alloc, x)?;
    boxed(alloc, TSet::MatchS(of.into_tree(), none, name, some))
}

/// `S.flat_map(x -> T)`.
pub fn flat_mapped(
    alloc: Global,
    over: Source,
    x: &Named,
    each: Boxed<TSet>,
) -> Result<Boxed<TSet>, TypeErr>
    ensures { Gives (Ok (ts.FlatS over.set over.model x.now.name each)) result }
{
    let name = boxed_name(alloc, x)?;
    let Source { model, set, .. } = over;
    boxed(alloc, TSet::FlatS(set, model, name, each))
}

/// A chain of records of the model, which begins at this offset.
fn source_of(alloc: Global, at: u32, model: ModelNo, set: TSet) -> Result<Source, TypeErr>
    ensures { Gives (Ok (spec.source at model set)) result }
{
    let set = Boxed::new(alloc, set)?;
    Ok(Source { at, model, set })
}

/// `M::Find({..})`.
pub fn found(
    alloc: Global,
    at: u32,
    model: ModelNo,
    filters: Items<TFilter>,
) -> Result<Source, TypeErr>
    ensures { Gives (Ok (spec.source at model (ts.Find model filters))) result }
{
    source_of(alloc, at, model, TSet::Find(model, filters))
}

/// A field that is a set.
pub fn path(alloc: Global, of: Typed) -> Result<Source, TypeErr>
    ensures { Gives
        (and_then (spec.set_of_ids of.ty of.at) (λ m. Ok (spec.source of.at m (ts.Path m of.tree))))
        result }
{
    let at = of.at;
    let model = set_of_ids(of.ty, at)?;
    source_of(
        alloc,
        at,
        model,
        TSet::Path(model, of.into_tree().into_inner()),
    )
}

/// `S.map(x -> e)`.
pub fn mapped(alloc: Global, over: Source, x: &Named, each: Typed) -> Result<Source, TypeErr>
    ensures { Gives
        (and_then (spec.id_of each.ty each.at) (λ m.
        Ok (spec.source over.at m (ts.MapS over.set over.model x.now.name m each.tree)))) result }
{
    let model = id_of(each.ty, each.at)?;
    let name = boxed_name(alloc, x)?;
    let Source {
        at,
        model: source,
        set,
    } = over;
    let each = each.into_tree();
    source_of(alloc, at, model, TSet::MapS(set, source, name, model, each))
}

/// A static principal in a list.
pub fn listed_static(schema: &Schema, content: Content, x: &Named) -> Result<TItem, TypeErr>
    ensures { result ≡ and_then (spec.among_principals content x.now.at) (λ _.
        and_then
        (or_else (names.static_named (plain_of schema.now) x.now.name) (Unknown x.now.at))
        (λ n. Ok (ti.Static n))) }
{
    among_principals(content, x.at)?;
    match static_named(schema, x.name.bytes()) {
        Some(number) => Ok(TItem::Static(number)),
        None => Err(TypeErr::Unknown { at: x.at }),
    }
}

/// A record in a list.
pub fn listed_record(schema: &Schema, content: Content, of: Typed) -> Result<TItem, TypeErr>
    ensures { result ≡ and_then (spec.id_of of.ty of.at) (λ m.
        and_then (spec.may_hold (plain_of schema.now) content m of.at) (λ _.
        Ok (ti.One m of.tree))) }
{
    let model = id_of(of.ty, of.at)?;
    may_hold(schema, content, model, of.at)?;
    Ok(TItem::One(model, of.into_tree().into_inner()))
}
