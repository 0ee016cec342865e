//! The principals in a set, gathered in no order, and perhaps more than once.

ghost use Rattle.std.specs.Prelude.{◌≡◌, ◌&&◌, ◌||◌, ◌++◌, ◌∷◌, [], map, filter, not, IfOk};
ghost use Rattle.std.specs.List.{list_any};
ghost use Rattle.std.specs.List.Sorted.{IsStrictlySortedBy};
ghost use Rattle.type_schema.specs.Trees.{Items};
ghost use Rattle.type_schema.specs.Views as view;
ghost use Rattle.data_meaning.specs.Values as stored;
ghost use Rattle.data_meaning.specs.declared.principals.Principal.{Principal};
ghost use Rattle.data_meaning.specs.declared.principals.Principal.TheVariants.{Rec};
ghost use Rattle.data_meaning.specs.Meaning as meaning;
ghost use Rattle.data_members.specs.Has.{has};
ghost use Rattle.data_members.specs.Sets.{is_one_of, is_principal, principal_cmp};
ghost use Rattle.data_members.specs.Variables.{env_data};

use crate::meaning::{extended, ids_within, truth_at, value};
use crate::order::{is_found, rising_principals};
use crate::parts::{id, ids};
use crate::touching::{id_at, taken_apart};
use data_meaning::Principal;
use data_records::{Database, Value};
use std::alloc::{AllocError, Global};
use type_schema::{ModelNo, TExpr, TItem, TSet};

/// Some principals, or all but some.
#[derive(Drop)]
pub(crate) enum Gathered {
    Only(Vec<Principal>),
    AllBut(Vec<Principal>),
}

/// Those of the first list that are in the second, which rises, or those that are not.
fn chosen(
    alloc: Global,
    ps: &[Principal],
    qs: &[Principal],
    wanted: bool,
) -> Result<Vec<Principal>, AllocError>
    requires { IsStrictlySortedBy principal_cmp qs.now }
    ensures { IfOk result (λ all. all.items
        ≡ filter (λ p. meaning.same_truth wanted (is_one_of qs.now p)) ps.now) }
{
    let mut all = Vec::new(alloc);
    for p in ps {
        if is_found(qs, *p) == wanted {
            all.push(*p)?;
        }
    }
    Ok(all)
}

/// Those of the first list that are in the second, or those that are not.
fn parted(
    alloc: Global,
    ps: &[Principal],
    qs: Vec<Principal>,
    wanted: bool,
) -> Result<Vec<Principal>, AllocError>
    ensures { IfOk result (λ all. all.items
        ≡ filter (λ p. meaning.same_truth wanted (is_one_of qs.items p)) ps.now) }
{
    let qs = rising_principals(qs);
    chosen(alloc, ps, qs.as_slice(), wanted)
}

/// Those of either list.
fn joined(mut ps: Vec<Principal>, mut qs: Vec<Principal>) -> Result<Vec<Principal>, AllocError>
    ensures { IfOk result (λ all. all.items ≡ ps.items ++ qs.items) }
{
    ps.append(&mut qs)?;
    Ok(ps)
}

impl Gathered {
    /// Those that are in either.
    fn sum(self, alloc: Global, other: Gathered) -> Result<Gathered, AllocError>
        ensures { IfOk result (λ all. (q : Principal) → has all q ≡ (has self q || has other q)) }
    {
        match (self, other) {
            (Gathered::Only(ps), Gathered::Only(qs)) => Ok(Gathered::Only(joined(ps, qs)?)),
            (Gathered::Only(ps), Gathered::AllBut(qs)) => {
                let left = parted(alloc, qs.as_slice(), ps, false)?;
                Ok(Gathered::AllBut(left))
            }
            (Gathered::AllBut(ps), Gathered::Only(qs)) => {
                let left = parted(alloc, ps.as_slice(), qs, false)?;
                Ok(Gathered::AllBut(left))
            }
            (Gathered::AllBut(ps), Gathered::AllBut(qs)) => {
                let both = parted(alloc, ps.as_slice(), qs, true)?;
                Ok(Gathered::AllBut(both))
            }
        }
    }

    /// The complement.
    fn others(self) -> Gathered
        ensures { (q : Principal) → has result q ≡ not (has self q) }
    {
        match self {
            Gathered::Only(ps) => Gathered::AllBut(ps),
            Gathered::AllBut(ps) => Gathered::Only(ps),
        }
    }
}

/// Those that are in the first and not in the second.
fn difference(alloc: Global, a: Gathered, b: Gathered) -> Result<Gathered, AllocError>
    ensures { IfOk result (λ all. (q : Principal) → has all q ≡ (has a q && not (has b q))) }
{
    Ok(a.others().sum(alloc, b)?.others())
}

/// The records of the model with these ids.
fn records(alloc: Global, m: ModelNo, ids: &[u64]) -> Result<Gathered, AllocError>
    ensures { IfOk result (λ all. (q : Principal) → has all q
        ≡ is_one_of (map (λ y. Rec m y) ids.now) q) }
{
    let mut ps = Vec::new(alloc);
    for id in ids {
        ps.push(Principal::Rec(m, *id))?;
    }
    Ok(Gathered::Only(ps))
}

/// The principal that an item names.
fn principal_of(
    alloc: Global,
    database: &Database,
    item: &TItem,
    env: &[Value],
) -> Result<Principal, AllocError>
    ensures { IfOk result (λ p. (rest : Items) (q : Principal) →
        meaning.is_listed database.now (env_data env.now) (view.item_of item.now rest) q
        ≡ (is_principal p q || meaning.is_listed database.now (env_data env.now) rest q)) }
{
    match item {
        TItem::Static(n) => Ok(Principal::Static(*n)),
        TItem::One(m, e) => {
            let id = id_at(alloc, database, e, env)?;
            Ok(Principal::Rec(*m, id))
        }
    }
}

/// The principals of a list.
fn listed(
    alloc: Global,
    database: &Database,
    items: &[TItem],
    env: &[Value],
) -> Result<Vec<Principal>, AllocError>
    ensures { IfOk result (λ ps. (q : Principal) → is_one_of ps.items q
        ≡ meaning.is_listed database.now (env_data env.now)
        (view.items_of (map view.item_of items.now)) q) }
{
    let mut ps = Vec::new(alloc);
    for item in items {
        let p = principal_of(alloc, database, item, env)?;
        ps.push(p)?;
    }
    Ok(ps)
}

/// The id of the record that an expression names at the record of the id.
fn image(
    alloc: Global,
    database: &Database,
    e: &TExpr,
    env: &[Value],
    id: u64,
) -> Result<u64, AllocError>
    ensures { IfOk result (λ y. y
        ≡ meaning.id_of (meaning.value_of database.now (env_data env.now
        ++ stored.Id id ∷ []) (view.expr_of e.now))) }
{
    let env = extended(alloc, env, &Value::Id(id))?;
    id_at(alloc, database, e, env.as_slice())
}

/// The ids of the records that an expression names at the records of the ids.
fn images(
    alloc: Global,
    database: &Database,
    e: &TExpr,
    env: &[Value],
    ids: &[u64],
) -> Result<Vec<u64>, AllocError>
    ensures { IfOk result (λ ys. ys.items
        ≡ map (λ y. meaning.id_of (meaning.value_of database.now (env_data env.now
        ++ stored.Id y ∷ []) (view.expr_of e.now))) ids.now) }
{
    let mut ys = Vec::new(alloc);
    for id in ids {
        let y = image(alloc, database, e, env, *id)?;
        ys.push(y)?;
    }
    Ok(ys)
}

/// The ids of the records of the model that a set of expressions holds.
fn held_ids(
    alloc: Global,
    database: &Database,
    e: &TExpr,
    env: &[Value],
    m: ModelNo,
) -> Result<Gathered, AllocError>
    ensures { IfOk result (λ all. (q : Principal) → has all q
        ≡ meaning.is_among m (meaning.set_of
        (meaning.value_of database.now (env_data env.now) (view.expr_of e.now))) q) }
{
    let held = value(alloc, database, e, env)?;
    records(alloc, m, ids(held.get()))
}

// Long, since each form of a set has its own arm.
/// The principals of a set.
#[cycle(gathering)]
pub(crate) fn gather(
    alloc: Global,
    database: &Database,
    set: &TSet,
    env: &[Value],
) -> Result<Gathered, AllocError>
    ensures { IfOk result (λ all. (q : Principal) → has all q
        ≡ meaning.member database.now (env_data env.now) (view.set_of set.now) q) }
{
    match set {
        TSet::Everyone => Ok(Gathered::AllBut(Vec::new(alloc))),
        TSet::Nobody => Ok(Gathered::Only(Vec::new(alloc))),
        TSet::List(items) => {
            let ps = listed(alloc, database, items.as_slice(), env)?;
            Ok(Gathered::Only(ps))
        }
        TSet::Sum(a, b) => {
            let a = gather(alloc, database, a.get(), env)?;
            let b = gather(alloc, database, b.get(), env)?;
            a.sum(alloc, b)
        }
        TSet::Less(a, b) => {
            let a = gather(alloc, database, a.get(), env)?;
            let b = gather(alloc, database, b.get(), env)?;
            difference(alloc, a, b)
        }
        TSet::Find(m, _) => {
            let ids = ids_within(alloc, database, set, env, *m)?;
            records(alloc, *m, ids.as_slice())
        }
        TSet::Path(m, e) => held_ids(alloc, database, e, env, *m),
        TSet::MapS(source, n, _, m, e) => {
            let sources = ids_within(alloc, database, source.get(), env, *n)?;
            let ys = images(alloc, database, e.get(), env, sources.as_slice())?;
            records(alloc, *m, ys.as_slice())
        }
        TSet::FlatS(source, n, _, body) => {
            let sources = ids_within(alloc, database, source.get(), env, *n)?;
            gather_at_each(alloc, database, body.get(), env, sources.as_slice())
        }
        TSet::IfS(c, a, b) => {
            if truth_at(alloc, database, c.get(), env)? {
                gather(alloc, database, a.get(), env)
            } else {
                gather(alloc, database, b.get(), env)
            }
        }
        TSet::MatchS(of, a, _, c) => match taken_apart(alloc, database, of.get(), env)? {
            Some(inner) => gather(alloc, database, c.get(), inner.as_slice()),
            None => gather(alloc, database, a.get(), env),
        },
    }
}

/// The principals of a set at any of the records of the ids.
#[cycle(gathering)]
fn gather_at_each(
    alloc: Global,
    database: &Database,
    set: &TSet,
    env: &[Value],
    ids: &[u64],
) -> Result<Gathered, AllocError>
    ensures { IfOk result (λ all. (q : Principal) → has all q
        ≡ list_any (λ y. meaning.member database.now (env_data env.now
        ++ stored.Id y ∷ []) (view.set_of set.now) q) ids.now) }
{
    let mut all = Gathered::Only(Vec::new(alloc));
    for id in ids {
        let more = gather_at(alloc, database, set, env, *id)?;
        all = all.sum(alloc, more)?;
    }
    Ok(all)
}

/// The principals of a set at the record of the id.
#[cycle(gathering)]
fn gather_at(
    alloc: Global,
    database: &Database,
    set: &TSet,
    env: &[Value],
    id: u64,
) -> Result<Gathered, AllocError>
    ensures { IfOk result (λ all. (q : Principal) → has all q
        ≡ meaning.member database.now (env_data env.now
        ++ stored.Id id ∷ []) (view.set_of set.now) q) }
{
    let env = extended(alloc, env, &Value::Id(id))?;
    gather(alloc, database, set, env.as_slice())
}
