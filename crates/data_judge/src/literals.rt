//! Values as they are written.

ghost use Rattle.std.specs.Prelude.{◌≡◌};
ghost use Rattle.data_judge.specs.Faults as spec;
ghost use Rattle.data_judge.specs.Meaning as meaning;
ghost use Rattle.data_tree.specs.Literals.{lit_at};
ghost use Rattle.data_tree.specs.declared.literals.Lit.{out-Lit};

use data_tree::{Lit, WrittenId};
use type_schema::TBase;

/// The offset of its first token.
pub(crate) fn lit_at(l: &Lit) -> u32
    ensures { result ≡ lit_at l.now }
{
    match l {
        Lit::Flag(_, at) => *at,
        Lit::Num(_, at) => *at,
        Lit::Str(_, at) => *at,
        Lit::Id(_, at) => *at,
        Lit::SelfId(at) => *at,
        Lit::NoneLit(at) => *at,
        Lit::SomeLit(_, at) => *at,
        Lit::List(_, at) => *at,
    }
}

/// Whether a value of the base type is written.
pub(crate) fn is_base(l: &Lit, b: TBase) -> bool
    ensures { result ≡ spec.is_base b (out-Lit l.now) }
{
    match b {
        TBase::Bool => matches!(l, Lit::Flag(_, _)),
        TBase::Int => matches!(l, Lit::Num(_, _)),
        TBase::Text => matches!(l, Lit::Str(_, _)),
        TBase::Id(_) => matches!(l, Lit::Id(_, _)),
    }
}

/// The id that is written, if one is.
pub(crate) fn id_in(l: &Lit) -> Option<WrittenId>
    ensures { result ≡ meaning.id_in l.now }
{
    match l {
        Lit::Id(id, _) => Some(*id),
        Lit::Flag(_, _)
        | Lit::Num(_, _)
        | Lit::Str(_, _)
        | Lit::SelfId(_)
        | Lit::NoneLit(_)
        | Lit::SomeLit(_, _)
        | Lit::List(_, _) => None,
    }
}
