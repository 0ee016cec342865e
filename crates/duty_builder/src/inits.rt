//! The formulas of the uses of fields in initialisers, and the sizes of initialisers.

ghost use Rattle.std.specs.Prelude.{◌≡◌, ℕ, ◌∷◌, [], true, if◌then◌else◌, IfOk, map, min};
ghost use Rattle.type_schema.specs.Schema.{Schema};
ghost use Rattle.type_schema.specs.SchemaViews.{added_of};
ghost use Rattle.type_schema.specs.Views.{expr_of, init_of};
ghost use Rattle.form_formula.specs.Trees as tree;
ghost use Rattle.duty_meaning.specs.Cases.{Cases, at_term, condition_of};
ghost use Rattle.duty_meaning.specs.Formulas.{Written, cases_of};
ghost use Rattle.duty_meaning.specs.Reach.{init_reach};
ghost use Rattle.duty_meaning.specs.Sizes as sizes;
ghost use Rattle.duty_writer.specs.Terms.{term_data};
ghost use Rattle.duty_writer.specs.Made.{Makes};
ghost use Rattle.duty_builder.specs.Places.{use_data};
ghost use Rattle.duty_builder.specs.Spending.{Spends, use_sizes};
ghost use Rattle.duty_builder.specs.Values.{schema_in, written_in, written_upto, scene_data};

use crate::counts::count_init;
use crate::formulas::write;
use crate::policies::MOST_FUEL;
use crate::start::Start;
use crate::values::{End, Goal, Part, Scene, Source, Steps, Use, Who};
use crate::walking::ask;
use duty_meaning::limits::LARGEST_SIZE;
use duty_writer::{MakeErr, Mode, Term, Writer};
use form_formula::Arena;
use std::alloc::{AllocError, Global};
use type_schema::{TBase, TExpr, TInit, TTy};

/// Writes that a use of a field in an initialiser, of this number counted from 0, reads its field
/// of the record that `source` is, where the initialiser is taken at the record that `row` is
/// and so many added fields are written out.
pub fn reached(
    w: &mut Writer,
    start: &Start<'_>,
    upto: usize,
    init: &TInit,
    number: usize,
    row: &Term<'_>,
    source: &Term<'_>,
    above: u32,
    fuel: u32,
) -> Result<u32, MakeErr>
    ensures { let c = start.now in Makes w.old result w.new
        (init_reach (schema_in c) (written_upto c upto) (term_data source.now)
        (init_of init.now) (term_data row.now) number above) }
{
    let none = Scene::Start(upto);
    let end = End::Term(row);
    let scene = Scene::Inner(&none, &end);
    let used = use_of(init, number);
    write(w, start, &Part::Reach(&scene, &used, source), above, fuel)
}

/// The use of this number in an initialiser.
fn use_of(init: &TInit, number: usize) -> Use<'_>
    ensures { (s : Schema) (written : Written) (y t : tree.Term) (above : ℕ) →
        use_data s written y (at_term t ∷ []) result above
        ≡ init_reach s written y (init_of init.now) t number above }
{
    match init {
        TInit::Plain(e) => Use::InExpr(e, number),
        TInit::OfSet(_, set) => Use::InSet(set, number),
    }
}

/// Whether an initialiser of a field of the type is counted as a condition.
fn is_condition(ty: TTy) -> bool
    ensures { (s : Schema) (v : Cases) → sizes.plain_size s ty v
        ≡ (if result then sizes.size (condition_of s v true 2) else sizes.value_size s v) }
{
    match ty {
        TTy::Plain(TBase::Bool) => true,
        TTy::Plain(TBase::Int | TBase::Text | TBase::Id(_)) | TTy::Set(_) | TTy::Opt(_) => false,
    }
}

/// Spends what the value of an expression counts as, which initialises a field of the type.
fn spend_plain(
    w: &mut Writer,
    start: &Start<'_>,
    scene: &Scene<'_>,
    ty: TTy,
    e: &TExpr,
) -> Result<u32, MakeErr>
    ensures { let c = start.now in let s = schema_in c in Spends (sizes.plain_size s ty
        (cases_of s (written_in c scene.now) (scene_data c scene.now) (expr_of e.now)))
        w.old result w.new }
{
    let source = Source::Expr(scene, e);
    if is_condition(ty) {
        write(w, start, &Part::Holds(&source, true), 2, MOST_FUEL)
    } else {
        ask(w, start, &source, &Steps::Done, &Goal::Cost, 2, MOST_FUEL)
    }
}

/// Spends what an initialiser of a field of the type gives, at each record.
fn spend_result(
    w: &mut Writer,
    start: &Start<'_>,
    upto: usize,
    ty: TTy,
    init: &TInit,
) -> Result<u32, MakeErr>
    ensures { let c = start.now in Spends (sizes.result_size (schema_in c) (written_upto c upto)
        ty (init_of init.now)) w.old result w.new }
{
    let row = Term::Bound(0, 0);
    let other = Term::Bound(0, 1);
    let none = Scene::Start(upto);
    let end = End::Term(&row);
    let scene = Scene::Inner(&none, &end);
    match init {
        TInit::Plain(e) => spend_plain(w, start, &scene, ty, e),
        TInit::OfSet(_, set) => {
            let who = Who::EachKind(&other);
            write(
                w,
                start,
                &Part::Member(&scene, set, &who, true),
                2,
                MOST_FUEL,
            )
        }
    }
}

/// Spends the sizes of so many uses of fields in an initialiser.
fn spend_uses(
    w: &mut Writer,
    start: &Start<'_>,
    upto: usize,
    init: &TInit,
    count: usize,
) -> Result<(), MakeErr>
    ensures { let c = start.now in Spends (use_sizes (schema_in c) (written_upto c upto)
        (init_of init.now) 0 count) w.old result w.new }
{
    let row = Term::Bound(0, 0);
    let other = Term::Bound(0, 1);
    for number in 0..count {
        reached(w, start, upto, init, number, &row, &other, 2, MOST_FUEL)?;
    }
    Ok(())
}

/// Spends the size of an initialiser of a field of the type.
fn spend(
    w: &mut Writer,
    start: &Start<'_>,
    upto: usize,
    ty: TTy,
    init: &TInit,
) -> Result<(), MakeErr>
    ensures { let c = start.now in Spends (sizes.init_size_over (schema_in c)
        (written_upto c upto) ty (init_of init.now)) w.old result w.new }
{
    let count = count_init(init)?;
    spend_result(w, start, upto, ty, init)?;
    spend_uses(w, start, upto, init, count)
}

/// The size of an initialiser where so many added fields are written out. It stays at a million.
fn size_upto(
    alloc: Global,
    start: &Start<'_>,
    upto: usize,
    ty: TTy,
    init: &TInit,
) -> Result<u64, AllocError>
    ensures { let c = start.now in IfOk result (λ size. size ≡ min (sizes.init_size_over
        (schema_in c) (written_upto c upto) ty (init_of init.now)) sizes.largest_size) }
{
    let mut w = Writer {
        arena: Arena::new(alloc)?,
        left: LARGEST_SIZE,
        mode: Mode::Count,
    };
    match spend(&mut w, start, upto, ty, init) {
        Ok(()) => Ok(LARGEST_SIZE - w.left),
        Err(MakeErr::Full) => Ok(LARGEST_SIZE),
        Err(MakeErr::OutOfMemory) => Err(AllocError),
    }
}

/// The size of an initialiser of a field of the type, over the schema, whose added fields are those
/// of the start. It stays at a million.
pub fn init_size(alloc: Global, start: &Start<'_>, ty: TTy, init: &TInit) -> Result<u64, AllocError>
    requires { map added_of start.now.added.now ≡ (schema_in start.now).added }
    ensures { IfOk result (λ size. size
        ≡ sizes.init_size (schema_in start.now) ty (init_of init.now)) }
{
    let written = size_upto(alloc, start, start.added.len(), ty, init)?;
    if start.added.is_empty() {
        // There is nothing to write out.
        return Ok(written);
    }
    let plain = size_upto(alloc, start, 0, ty, init)?;
    Ok(written.max(plain))
}
