//! The obligations of a script.

ghost use Rattle.std.specs.Prelude.{◌≡◌, ◌<◌, ◌+◌, ◌^◌, ℕ, [], ◌∷◌, ◌++◌, IfOk, OnOk, length, map};
ghost use Rattle.std.specs.Prelude.{Some, None, slice_get};
ghost use Rattle.std.specs.Option.{option_map, option_map_or};
ghost use Rattle.type_schema.specs.declared.rights.Right.TheVariants.{Read};
ghost use Rattle.type_schema.specs.SchemaViews.{command_of, script_of};
ghost use Rattle.type_schema.specs.Uses.{init_uses_of};
ghost use Rattle.type_schema.specs.Views.{init_of, policy_of};
ghost use Rattle.duty_meaning.specs.Duties as rule;
ghost use Rattle.duty_listing.specs.Duties.{flow_at, gain_at, obligations_behind};
ghost use Rattle.duty_listing.specs.Kinds.{kinds_on_the_way};

use crate::principals::{all_kinds, kinds_after};
use crate::uses::uses_in;
use duty_meaning::Duty;
use std::alloc::{AllocError, Global};
use std::rc::Rc;
use type_schema::{Kind, Right, TCommand, TInit, TPolicy, TScript, Target};

/// Obligations of a script, in order.
#[derive(Drop)]
struct Listing {
    found: Vec<Duty>,
}

impl Listing {
    /// That the command gains no principal of one of the kinds the right on the target.
    fn add_gains(
        &mut self,
        kinds: &[Kind],
        command: u32,
        target: Target,
        right: Right,
    ) -> Result<(), AllocError>
        ensures { OnOk result (self.new.found.items
            ≡ self.old.found.items ++ map (gain_at command target right) kinds.now) }
    {
        for kind in kinds {
            self.found.push(Duty {
                command,
                target,
                right,
                spot: None,
                kind: *kind,
            })?;
        }
        Ok(())
    }

    /// The same of a right that the command may give a policy for.
    fn add_given(
        &mut self,
        kinds: &[Kind],
        command: u32,
        target: Target,
        right: Right,
        given: &Option<Rc<TPolicy>>,
    ) -> Result<(), AllocError>
        ensures { OnOk result (self.new.found.items ≡ self.old.found.items ++ rule.gains_at command
            kinds.now target right (option_map (λ p. policy_of p.value) given.now)) }
    {
        match given {
            Some(_) => self.add_gains(kinds, command, target, right),
            None => Ok(()),
        }
    }

    /// That a use does not leak to principals of one of the kinds.
    fn add_flow(
        &mut self,
        kinds: &[Kind],
        command: u32,
        target: Target,
        spot: u32,
    ) -> Result<(), AllocError>
        ensures { OnOk result (self.new.found.items
            ≡ self.old.found.items ++ map (flow_at command target spot) kinds.now) }
    {
        for kind in kinds {
            self.found.push(Duty {
                command,
                target,
                right: Right::Read,
                spot: Some(spot),
                kind: *kind,
            })?;
        }
        Ok(())
    }

    /// That no use of the initialiser leaks.
    fn add_flows(
        &mut self,
        alloc: Global,
        kinds: &[Kind],
        command: u32,
        target: Target,
        init: &TInit,
    ) -> Result<(), AllocError>
        ensures { OnOk result (self.new.found.items ≡ self.old.found.items
            ++ rule.flows_at command kinds.now target (init_of init.now)) }
    {
        let count = use_count(alloc, init)?;
        for place in 0..count {
            self.add_flow(kinds, command, target, place + 1)?;
        }
        Ok(())
    }

    /// What there is to show of a command.
    fn add_command(
        &mut self,
        alloc: Global,
        kinds: &[Kind],
        number: u32,
        command: &TCommand,
    ) -> Result<(), AllocError>
        ensures { OnOk result (self.new.found.items ≡ self.old.found.items
            ++ rule.obligations_at number kinds.now (command_of command.now)) }
    {
        match command {
            TCommand::AddField(m, f, init) => {
                self.add_flows(alloc, kinds, number, Target::Field(*m, f.number), init)?;
            }
            TCommand::UpdateFieldPolicy(m, f, read, write) => {
                let target = Target::Field(*m, *f);
                self.add_given(kinds, number, target, Right::Read, read)?;
                self.add_given(kinds, number, target, Right::Write, write)?;
            }
            TCommand::UpdatePolicy(m, create, delete) => {
                let target = Target::Model(*m);
                self.add_given(kinds, number, target, Right::Create, create)?;
                self.add_given(kinds, number, target, Right::Delete, delete)?;
            }
            TCommand::CreateModel(_)
            | TCommand::DeleteModel(_)
            | TCommand::AddStatic(_)
            | TCommand::RemoveStatic(_)
            | TCommand::AddPrincipal(_)
            | TCommand::RemoveField(..)
            | TCommand::WeakenFieldPolicy(..)
            | TCommand::WeakenPolicy(..) => {}
        }
        Ok(())
    }

    /// What there is to show of the command behind the first `at`.
    fn add_at(
        &mut self,
        alloc: Global,
        t: &TScript,
        all: &[Kind],
        at: u32,
    ) -> Result<(), AllocError>
        requires within { at < length t.now.commands }
        requires fits { at + 1 < 2 ^ 32 }
        requires all { all.now ≡ kinds_on_the_way (script_of t.now) }
        ensures { OnOk result (self.new.found.items ≡ self.old.found.items
            ++ obligations_behind (script_of t.now) at) }
    {
        let kinds = kinds_after(alloc, t, all, at as usize + 1)?;
        let command = &t.commands.as_slice()[at as usize];
        self.add_command(alloc, kinds.as_slice(), at + 1, command)
    }
}

/// How many uses of fields an initialiser has. Four thousand million count as memory that is not
/// there.
fn use_count(alloc: Global, init: &TInit) -> Result<u32, AllocError>
    ensures { IfOk result (λ count. count ≡ length (init_uses_of (init_of init.now))) }
{
    let uses = uses_in(alloc, init)?;
    match u32::try_from(uses.as_slice().len()) {
        Ok(count) => Ok(count),
        Err(_) => Err(AllocError),
    }
}

/// The obligations of a script: for each command and each kind of principals at it that no right
/// which the command sets is a gain, and that no use in the initialiser of a field which it adds
/// leaks.
pub fn duties(alloc: Global, t: &TScript) -> Result<Vec<Duty>, AllocError>
    ensures { IfOk result (λ duties. duties.items ≡ rule.obligations_of (script_of t.now)) }
{
    let Ok(count) = u32::try_from(t.commands.as_slice().len()) else {
        return Err(AllocError);
    };
    let all = all_kinds(alloc, t)?;
    let mut duties = Listing {
        found: Vec::new(alloc),
    };
    for at in 0..count {
        duties.add_at(alloc, t, all.as_slice(), at)?;
    }
    Ok(duties.found)
}
