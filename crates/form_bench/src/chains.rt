//! Formulas as deep as they are long.

ghost use Rattle.std.specs.Prelude.{◌≡◌, ◌≤◌, ◌+◌, ◌*◌, [], length, IfOk};
ghost use Rattle.form_formula.specs.Nodes.{IsFormula};
ghost use Rattle.form_formula.specs.declared.limits.TheConstants.{MOST_ARENA_NODES};

use form_formula::Arena;
use std::alloc::AllocError;

/// One link more: an atom of few, which is made anew and found.
fn shared_link(arena: &mut Arena, chain: u32, turn: u32) -> Result<u32, AllocError>
    requires room { length arena.old + 3 ≤ MOST_ARENA_NODES }
    requires formula { IsFormula arena.old chain }
    ensures formula { IfOk result (IsFormula arena.new) }
    ensures size { IfOk result (λ id. length arena.new ≤ length arena.old + 3) }
{
    let variable = arena.mk_bound(0, turn % 4)?;
    let atom = arena.mk_flag(turn % 50, variable)?;
    arena.mk_or(chain, atom)
}

/// A chain of so many links, whose atoms are shared.
pub fn shared_chain(arena: &mut Arena, links: u32) -> Result<u32, AllocError>
    requires empty { arena.old ≡ [] }
    requires room { 1 + 3 * links ≤ MOST_ARENA_NODES }
    ensures formula { IfOk result (IsFormula arena.new) }
{
    let mut chain = arena.mk_no()?;
    for turn in 0..links {
        chain = shared_link(arena, chain, turn)?;
    }
    Ok(chain)
}

/// One link more, under a negation: an atom that no other link has.
fn negated_link(arena: &mut Arena, chain: u32, turn: u32) -> Result<u32, AllocError>
    requires room { length arena.old + 5 ≤ MOST_ARENA_NODES }
    requires formula { IsFormula arena.old chain }
    ensures formula { IfOk result (IsFormula arena.new) }
    ensures size { IfOk result (λ id. length arena.new ≤ length arena.old + 5) }
{
    let variable = arena.mk_bound(0, 0)?;
    let number = arena.mk_num(i64::from(turn))?;
    let atom = arena.mk_less(variable, number)?;
    let both = arena.mk_and(chain, atom)?;
    arena.mk_not(both)
}

/// A chain of so many links, each under a negation.
pub fn negated_chain(arena: &mut Arena, links: u32) -> Result<u32, AllocError>
    requires empty { arena.old ≡ [] }
    requires room { 3 * (1 + 5 * links) ≤ MOST_ARENA_NODES }
    ensures formula { IfOk result (IsFormula arena.new) }
    ensures size { IfOk result (λ id. 3 * length arena.new ≤ MOST_ARENA_NODES) }
{
    let mut chain = arena.mk_yes()?;
    for turn in 0..links {
        chain = negated_link(arena, chain, turn)?;
    }
    Ok(chain)
}
