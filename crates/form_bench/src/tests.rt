//! Truth and normal forms beside a plain reading, on formulas and structures that look random.
//!
//! - `random`: such formulas and structures.
//! - `many`: a structure with many elements.
//! - `plain`: the plain reading.

mod many;
mod plain;
mod random;

use self::plain::is_true;
use self::random::{Random, formula, structure};
use form_formula::{Arena, holds, nnf};
use std::test::Fail;

#[test]
fn truth_and_normal_forms_are_as_read_plainly(rt: HostRuntime) -> Result<(), Fail> {
    let mut random = Random(1);
    let mut met = 0_u32;
    for round in 0..400_u32 {
        let structure = structure(rt.alloc(), &mut random)?;
        let mut arena = Arena::new(rt.alloc())?;
        let formula = formula(&mut arena, &mut random)?;
        let form = nnf(&mut arena, formula)?;
        let mut elements = Vec::new(rt.alloc());
        let want = is_true(&arena, formula, &structure, &mut elements)?;
        let held = holds(rt.alloc(), &structure, &arena, formula)?;
        assert_eq!(rt; held, want, "in round {round}");
        let normal = is_true(&arena, form, &structure, &mut elements)?;
        assert_eq!(rt; normal, want, "of the normal form in round {round}");
        met = met.wrapping_add(u32::from(want));
    }
    assert!(rt; met > 100 && met < 300, "{met} of 400 are true");
    Ok(())
}
