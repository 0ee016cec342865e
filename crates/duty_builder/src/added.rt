//! Which added field is written out, and the values of variables.

ghost use Rattle.std.specs.Prelude.{◌≡◌, ℕ, ◌+◌, suc, length, min, slice_index_or, IfOk, MatchOption};
ghost use Rattle.std.specs.Prelude.{None, Some};
ghost use Rattle.type_schema.specs.Views.{init_of};
ghost use Rattle.duty_meaning.specs.Formulas.{init_cases};
ghost use Rattle.duty_meaning.specs.Cases as cases;
ghost use Rattle.duty_builder.specs.Values.{schema_in, written_upto, upto_of, scene_data, end_data};

use crate::start::Start;
use crate::values::{End, Scene};
use std::alloc::AllocError;
use type_schema::{FieldNo, ModelNo, TInit};

/// What is written out for a field, if it was added: its initialiser, and how many fields were
/// added before.
pub(crate) fn init_at<'a>(
    start: &Start<'a>,
    upto: usize,
    m: ModelNo,
    f: FieldNo,
) -> Option<(usize, &'a TInit)>
    ensures { let c = start.now in
        MatchOption result (written_upto c upto m f ≡ None) (λ found. written_upto c upto m f
        ≡ Some (init_cases (schema_in c) (written_upto c found.0) (init_of found.1.now))) }
{
    let before = upto.checked_sub(1)?;
    let Some(added) = start.added.get(before) else {
        return init_at(start, before, m, f);
    };
    if added.0 == m && added.1 == f {
        return Some((before, &*added.2));
    }
    init_at(start, before, m, f)
}

/// How many added fields are written out.
pub(crate) fn upto_of(scene: &Scene<'_>) -> usize
    ensures { result ≡ upto_of scene.now }
{
    match scene {
        Scene::Start(upto) => *upto,
        Scene::Inner(outer, _) => upto_of(&**outer),
    }
}

/// How many variables there are, and so many more. It stays at the largest number of 32 bits.
fn variables(start: &Start<'_>, scene: &Scene<'_>, more: u32) -> u32
    ensures { result ≡ min (length (scene_data start.now scene.now) + more) 4294967295 }
{
    match scene {
        Scene::Start(_) => more,
        Scene::Inner(outer, _) => variables(start, &**outer, more.saturating_add(1)),
    }
}

/// The variables of a scene without the innermost ones, of which there are so many.
fn without<'b, 'a>(start: &Start<'_>, scene: &'b Scene<'a>, inside: u32) -> &'b Scene<'a>
    ensures { (depth : ℕ) → depth + suc inside ≡ length (scene_data start.now scene.now)
        → (depth + 1 ≡ length (scene_data start.now result.now))
        × (slice_index_or (scene_data start.now result.now) depth cases.none
        ≡ slice_index_or (scene_data start.now scene.now) depth cases.none) }
{
    match scene {
        Scene::Start(_) => scene,
        Scene::Inner(outer, _) => match inside.checked_sub(1) {
            Some(less) => without(start, &**outer, less),
            None => scene,
        },
    }
}

/// The value of the innermost variable, or none.
fn innermost<'a>(start: &Start<'_>, scene: &Scene<'a>) -> End<'a>
    ensures { (depth : ℕ) → depth + 1 ≡ length (scene_data start.now scene.now)
        → end_data start.now result
        ≡ slice_index_or (scene_data start.now scene.now) depth cases.none }
{
    match scene {
        Scene::Start(_) => End::None,
        Scene::Inner(_, end) => **end,
    }
}

/// The value of the variable that so many stand outside of, or none.
pub(crate) fn value_at<'a>(
    start: &Start<'_>,
    scene: &Scene<'a>,
    depth: u32,
) -> Result<End<'a>, AllocError>
    ensures { IfOk result (λ end. end_data start.now end
        ≡ slice_index_or (scene_data start.now scene.now) depth cases.none) }
{
    let count = variables(start, scene, 0);
    if count == u32::MAX {
        return Err(AllocError);
    }
    match count.checked_sub(depth) {
        Some(left) => match left.checked_sub(1) {
            Some(inside) => Ok(innermost(start, without(start, scene, inside))),
            None => Ok(End::None),
        },
        None => Ok(End::None),
    }
}
