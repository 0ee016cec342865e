//! Who is in a set.
//!
//! Beside what it is about, a function takes what all hand on: the writer, the start, how many
//! quantifiers stand above, and how deep the walk may go. So some have up to ten parameters.

ghost use Rattle.std.specs.Prelude.{◌≡◌, ◌∷◌, not, map, fold};
ghost use Rattle.type_schema.specs.Trees as plain;
ghost use Rattle.type_schema.specs.Views.{expr_of, set_of, item_of, items_of};
ghost use Rattle.form_formula.specs.Nodes.{formula_of};
ghost use Rattle.form_formula.specs.Trees as tree;
ghost use Rattle.duty_meaning.specs.Cases.{and_if};
ghost use Rattle.duty_meaning.specs.Cases.{any_if};
ghost use Rattle.duty_meaning.specs.Structures.{sort_of};
ghost use Rattle.duty_meaning.specs.Formulas.{is_in, items_in};
ghost use Rattle.duty_writer.specs.Made.{Makes, MakesFor, IsPart};
ghost use Rattle.duty_builder.specs.Values.{schema_in, written_in, scene_data};
ghost use Rattle.duty_builder.specs.Values.{who_data};
ghost use Rattle.duty_builder.specs.Values.{rest_cost, mapped_formula, flat_formula};

use crate::filters::meets;
use crate::formulas::{ask_where, choose, join};
use crate::start::Start;
use crate::values::{
    End, Goal, Part, Scene, Source, Steps, Who, asked_about, below, deeper, is_static, same_truth,
};
use crate::walking::{get, walk};
use duty_writer::{MakeErr, Term, Writer};
use type_schema::{ModelNo, TExpr, TItem, TSet};

// Long, since each form of a set has its own arm.
/// Writes whether who is asked about is in a set.
#[cycle(formulas)]
pub(crate) fn member(
    w: &mut Writer,
    start: &Start<'_>,
    scene: &Scene<'_>,
    set: &TSet,
    who: &Who<'_>,
    sign: bool,
    above: u32,
    fuel: u32,
) -> Result<u32, MakeErr>
    ensures { let c = start.now in let s = schema_in c in Makes w.old result w.new
        (is_in s (written_in c scene.now) (scene_data c scene.now) (set_of set.now)
        (who_data who.now) sign above) }
{
    let fuel = deeper(fuel)?;
    match set {
        TSet::Everyone => w.constant(sign),
        TSet::Nobody => w.constant(!sign),
        TSet::List(items) => {
            listed(
                w,
                start,
                &*scene,
                items.as_slice(),
                &*who,
                sign,
                above,
                fuel,
            )
        }
        TSet::Sum(a, b) => {
            let a = Part::Member(&*scene, a.get(), &*who, sign);
            let b = Part::Member(&*scene, b.get(), &*who, sign);
            join(w, start, !sign, &a, &b, above, fuel)
        }
        TSet::Less(a, b) => {
            let a = Part::Member(&*scene, a.get(), &*who, sign);
            let b = Part::Member(&*scene, b.get(), &*who, !sign);
            join(w, start, sign, &a, &b, above, fuel)
        }
        TSet::Find(m, filters) => match asked_about(&*who, *m) {
            Some(t) => {
                meets(
                    w,
                    start,
                    &*scene,
                    *m,
                    filters.as_slice(),
                    t,
                    sign,
                    above,
                    fuel,
                )
            }
            None => w.constant(!sign),
        },
        TSet::Path(m, e) => match asked_about(&*who, *m) {
            Some(t) => {
                walk(
                    w,
                    start,
                    &*scene,
                    e,
                    &Steps::Done,
                    &Goal::Has(sign, t),
                    above,
                    fuel,
                )
            }
            None => w.constant(!sign),
        },
        TSet::MapS(source, n, _, m, e) => {
            let sort = start.sort_of(*n);
            mapped(
                w,
                start,
                &*scene,
                source.get(),
                *n,
                sort,
                *m,
                e.get(),
                &*who,
                sign,
                above,
                fuel,
            )
        }
        TSet::FlatS(source, n, _, body) => {
            let sort = start.sort_of(*n);
            flat(
                w,
                start,
                &*scene,
                source.get(),
                *n,
                sort,
                body.get(),
                &*who,
                sign,
                above,
                fuel,
            )
        }
        TSet::IfS(c, a, b) => {
            let c = Source::Expr(&*scene, c.get());
            let then = Part::Member(&*scene, a.get(), &*who, sign);
            let other = Part::Member(&*scene, b.get(), &*who, sign);
            let yes = Part::Holds(&c, true);
            let no = Part::Holds(&c, false);
            choose(w, start, &yes, &then, &no, &other, above, fuel)
        }
        TSet::MatchS(of, a, _, c) => {
            let goal = Goal::Chosen(sign, &*scene, a.get(), c.get(), &*who);
            walk(
                w,
                start,
                &*scene,
                of.get(),
                &Steps::Done,
                &goal,
                above,
                fuel,
            )
        }
    }
}

/// Writes whether who is asked about is the record that an expression gives at some record of a
/// set.
#[cycle(formulas)]
fn mapped(
    w: &mut Writer,
    start: &Start<'_>,
    scene: &Scene<'_>,
    source: &TSet,
    n: ModelNo,
    sort: u32,
    m: ModelNo,
    e: &TExpr,
    who: &Who<'_>,
    sign: bool,
    above: u32,
    fuel: u32,
) -> Result<u32, MakeErr>
    requires { sort ≡ sort_of (schema_in start.now) n }
    ensures { let c = start.now in let s = schema_in c in Makes w.old result w.new
        (mapped_formula s (written_in c scene.now) (scene_data c scene.now) (set_of source.now) n
        m (expr_of e.now) (who_data who.now) sign above) }
{
    let fuel = deeper(fuel)?;
    let inner = below(above)?;
    let t = Term::Bound(sort, above);
    let end = End::Term(&t);
    let each = Scene::Inner(&*scene, &end);
    let record = Who::Record(n, &t);
    let value = Source::Expr(&each, &*e);
    let goal = Goal::Is(sign, m, &*who);
    let a = Part::Member(&*scene, &*source, &record, sign);
    let body = ask_where(w, start, sign, &a, &value, &Steps::Done, &goal, inner, fuel)?;
    w.exists_if(sign, sort, body)
}

/// Writes whether who is asked about is in a set at some record of another set.
#[cycle(formulas)]
fn flat(
    w: &mut Writer,
    start: &Start<'_>,
    scene: &Scene<'_>,
    source: &TSet,
    n: ModelNo,
    sort: u32,
    body: &TSet,
    who: &Who<'_>,
    sign: bool,
    above: u32,
    fuel: u32,
) -> Result<u32, MakeErr>
    requires { sort ≡ sort_of (schema_in start.now) n }
    ensures { let c = start.now in let s = schema_in c in Makes w.old result w.new
        (flat_formula s (written_in c scene.now) (scene_data c scene.now) (set_of source.now) n
        (set_of body.now) (who_data who.now) sign above) }
{
    let fuel = deeper(fuel)?;
    let inner = below(above)?;
    let t = Term::Bound(sort, above);
    let end = End::Term(&t);
    let each = Scene::Inner(&*scene, &end);
    let record = Who::Record(n, &t);
    let a = Part::Member(&*scene, &*source, &record, sign);
    let b = Part::Member(&each, &*body, &*who, sign);
    let body = join(w, start, sign, &a, &b, inner, fuel)?;
    w.exists_if(sign, sort, body)
}

/// Writes whether who is asked about is one of the items.
#[cycle(formulas)]
fn listed(
    w: &mut Writer,
    start: &Start<'_>,
    scene: &Scene<'_>,
    items: &[TItem],
    who: &Who<'_>,
    sign: bool,
    above: u32,
    fuel: u32,
) -> Result<u32, MakeErr>
    ensures { let c = start.now in let s = schema_in c in Makes w.old result w.new
        (any_if sign (items_in s (written_in c scene.now) (scene_data c scene.now)
        (items_of (map item_of items.now)) (who_data who.now) sign above)) }
{
    let fuel = deeper(fuel)?;
    match items {
        [] => w.constant(!sign),
        [first, rest @ ..] => {
            let id = item(w, start, &*scene, first, &*who, sign, above, fuel)?;
            more_items(w, start, &*scene, rest, &*who, sign, id, above, fuel)
        }
    }
}

/// Writes whether who is asked about is the item.
#[cycle(formulas)]
fn item(
    w: &mut Writer,
    start: &Start<'_>,
    scene: &Scene<'_>,
    item: &TItem,
    who: &Who<'_>,
    sign: bool,
    above: u32,
    fuel: u32,
) -> Result<u32, MakeErr>
    ensures { let c = start.now in let s = schema_in c in (f : tree.Formula) →
        ((rest : plain.Items) → items_in s (written_in c scene.now) (scene_data c scene.now)
        (item_of item.now rest) (who_data who.now) sign above
        ≡ f ∷ items_in s (written_in c scene.now) (scene_data c scene.now)
        rest (who_data who.now) sign above) → Makes w.old result w.new f }
{
    let fuel = deeper(fuel)?;
    match item {
        TItem::Static(n) => {
            let is = is_static(&*who, *n);
            w.constant(same_truth(sign, is))
        }
        TItem::One(m, e) => {
            walk(
                w,
                start,
                &*scene,
                e,
                &Steps::Done,
                &Goal::Is(sign, *m, &*who),
                above,
                fuel,
            )
        }
    }
}

/// Writes whether a formula holds or who is asked about is one of the items.
#[cycle(formulas)]
fn more_items(
    w: &mut Writer,
    start: &Start<'_>,
    scene: &Scene<'_>,
    items: &[TItem],
    who: &Who<'_>,
    sign: bool,
    id: u32,
    above: u32,
    fuel: u32,
) -> Result<u32, MakeErr>
    requires { IsPart w.old id }
    ensures { let c = start.now in let s = schema_in c in
        let formulas = items_in s (written_in c scene.now) (scene_data c scene.now)
        (items_of (map item_of items.now)) (who_data who.now) sign above in
        MakesFor (rest_cost formulas) w.old result w.new
        (fold (and_if (not sign)) (formula_of w.old.arena id) formulas) }
{
    let fuel = deeper(fuel)?;
    match items {
        [] => Ok(id),
        [first, rest @ ..] => {
            let a = item(w, start, &*scene, first, &*who, sign, above, fuel)?;
            let id = w.and_if(!sign, id, a)?;
            more_items(w, start, &*scene, rest, &*who, sign, id, above, fuel)
        }
    }
}
