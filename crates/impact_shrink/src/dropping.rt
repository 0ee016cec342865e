//! Records that are tried, one after the other.

ghost use Rattle.std.specs.Prelude.{◌≡◌, true, IfOk, MatchOption, None};
ghost use Rattle.data_meaning.specs.Database.{has_record};
ghost use Rattle.data_records.specs.Removed.{first_reference, without_record};
ghost use Rattle.type_schema.specs.Script.{IsScript};
ghost use Rattle.type_schema.specs.SchemaViews.{script_of};
ghost use Rattle.check_report.specs.Views.{witness_data};
ghost use Rattle.impact_shrink.specs.Dropped.{IsLeft, IsNeededIn, IsTried};
ghost use Rattle.impact_shrink.specs.Real.{IsReal};
ghost use Rattle.impact_shrink.specs.Small.{over};

use crate::judging::is_real;
use crate::places::Place;
use check_report::Witness;
use data_records::Database;
use std::alloc::{AllocError, Global};
use type_schema::TScript;

/// What is left of a base, and whether a record of it was dropped.
#[derive(Drop)]
pub(crate) struct Left {
    pub(crate) base: Database,
    pub(crate) dropped: bool,
}

/// The base without the record, which no other record names, where the witness is real over it.
fn without_unnamed(
    alloc: Global,
    t: &TScript,
    w: &Witness,
    base: &Database,
    place: Place,
) -> Result<Option<Database>, AllocError>
    requires script { IsScript (script_of t.now) }
    requires base { IsReal (script_of t.now) (over (witness_data w.now) base.now) }
    requires real { IsReal (script_of t.now) (witness_data w.now) }
    requires there { has_record base.now place.model place.id ≡ true }
    requires unnamed { first_reference (script_of t.now).start base.now place.model place.id
        ≡ None }
    ensures { IfOk result (λ found. MatchOption found
        (IsNeededIn (script_of t.now) (witness_data w.now) base.now place)
        (λ fewer. (fewer ≡ without_record place.model place.id base.now) ×
        (has_record base.now place.model place.id ≡ true) ×
        IsReal (script_of t.now) (over (witness_data w.now) fewer))) }
{
    let mut fewer = base.copy(alloc)?;
    fewer.erase(place.model, place.id);
    let real = is_real(alloc, t, w, &fewer)?;
    if real { Ok(Some(fewer)) } else { Ok(None) }
}

/// The base without the record, where the witness is real over it.
fn without(
    alloc: Global,
    t: &TScript,
    w: &Witness,
    base: &Database,
    place: Place,
) -> Result<Option<Database>, AllocError>
    requires script { IsScript (script_of t.now) }
    requires base { IsReal (script_of t.now) (over (witness_data w.now) base.now) }
    requires real { IsReal (script_of t.now) (witness_data w.now) }
    ensures { IfOk result (λ found. MatchOption found
        (IsNeededIn (script_of t.now) (witness_data w.now) base.now place)
        (λ fewer. (fewer ≡ without_record place.model place.id base.now) ×
        (has_record base.now place.model place.id ≡ true) ×
        IsReal (script_of t.now) (over (witness_data w.now) fewer))) }
{
    match base.judge_removal(&t.start, place.model, place.id) {
        Ok(()) => without_unnamed(alloc, t, w, base, place),
        Err(_) => Ok(None),
    }
}

/// What is left where the record was tried too.
fn tried(
    alloc: Global,
    t: &TScript,
    w: &Witness,
    left: Left,
    place: Place,
) -> Result<Left, AllocError>
    requires script { IsScript (script_of t.now) }
    requires left { IsReal (script_of t.now) (over (witness_data w.now) left.base) }
    requires real { IsReal (script_of t.now) (witness_data w.now) }
    ensures { IfOk result (IsTried (script_of t.now) (witness_data w.now) place left) }
{
    let found = without(alloc, t, w, &left.base, place)?;
    match found {
        Some(base) => Ok(Left {
            base,
            dropped: true,
        }),
        None => Ok(left),
    }
}

/// What is left of the base where each of these records was tried.
pub(crate) fn pass(
    alloc: Global,
    t: &TScript,
    w: &Witness,
    base: Database,
    places: &[Place],
) -> Result<Left, AllocError>
    requires script { IsScript (script_of t.now) }
    requires base { IsReal (script_of t.now) (over (witness_data w.now) base) }
    requires real { IsReal (script_of t.now) (witness_data w.now) }
    ensures { IfOk result (IsLeft (script_of t.now) (witness_data w.now) base places.now) }
{
    let mut left = Left {
        base,
        dropped: false,
    };
    for place in places {
        left = tried(alloc, t, w, left, *place)?;
    }
    Ok(left)
}
