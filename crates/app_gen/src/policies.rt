//! The policies of a field.

ghost use Rattle.std.specs.Fmt.{decimal};
ghost use Rattle.std.specs.Prelude.{◌≡◌, ◌++◌, IfOk, OnOk};
ghost use Rattle.app_gen.specs.Generated as spec;

use std::alloc::{AllocError, Global};
use text_print::Printer;

/// What the last filters of a policy are.
#[derive(Clone, Copy, Debug, PartialEq, Eq)]
pub enum Filters {
    /// There are none.
    None,
    /// The group is asked for.
    Group,
    /// The group, and this level at least.
    Level(u32),
}

/// Writes a number.
pub fn write_decimal(out: &mut Printer, alloc: Global, number: u32) -> Result<(), AllocError>
    ensures { OnOk result (out.new ≡ out.old ++ decimal number) }
{
    let digits = number.to_string(alloc)?;
    out.put(digits.as_bytes())
}

/// Writes the last filters of a policy.
fn write_filters(out: &mut Printer, alloc: Global, filters: Filters) -> Result<(), AllocError>
    ensures { OnOk result (out.new ≡ out.old ++ spec.filters_text filters) }
{
    match filters {
        Filters::None => Ok(()),
        Filters::Group => out.put(b"group: k.group"),
        Filters::Level(level) => {
            out.put(b"group: k.group, level >= ")?;
            write_decimal(out, alloc, level)
        }
    }
}

/// Writes a policy with these last filters.
fn write_policy(out: &mut Printer, alloc: Global, filters: Filters) -> Result<(), AllocError>
    ensures { OnOk result (out.new ≡ out.old ++ spec.policy_with (spec.filters_text filters)) }
{
    out.put(b"n -> Membership::Find({group: n.group}).flat_map(m -> ")?;
    out.put(b"Membership::Find({user: m.user}).flat_map(k -> Membership::Find({")?;
    write_filters(out, alloc, filters)?;
    out.put(b"}).map(j -> j.user))) + [n.owner]")?;
    Ok(())
}

/// Writes both policies of a field, that of reading and that of writing, with these last filters.
pub fn write_rights(
    out: &mut Printer,
    alloc: Global,
    read: Filters,
    write: Filters,
) -> Result<(), AllocError>
    ensures { OnOk result (out.new
        ≡ out.old ++ spec.rights_text (spec.filters_text read) (spec.filters_text write)) }
{
    out.put(b"{read: ")?;
    write_policy(out, alloc, read)?;
    out.put(b", write: ")?;
    write_policy(out, alloc, write)?;
    out.put(b"}")?;
    Ok(())
}
