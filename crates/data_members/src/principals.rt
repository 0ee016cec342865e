//! Principals in lists and among records.

ghost use Rattle.std.specs.Prelude.{◌≡◌};
ghost use Rattle.data_records.specs.Views.{value_data};
ghost use Rattle.data_meaning.specs.Meaning as meaning;

use crate::parts::id;
use data_meaning::Principal;
use data_records::Value;
use type_schema::{ModelNo, StaticNo};

/// Whether the principal is the record of the model that the value names.
pub(crate) fn is_record(m: ModelNo, v: &Value, who: Principal) -> bool
    ensures { result ≡ meaning.is_record m (value_data v.now) who }
{
    match who {
        Principal::Static(_) => false,
        Principal::Rec(n, this) => n == m && this == id(v),
    }
}

/// Whether the principal is a record of the model, in this list of ids.
pub(crate) fn is_among(m: ModelNo, ids: &[u64], who: Principal) -> bool
    ensures { result ≡ meaning.is_among m ids.now who }
{
    match who {
        Principal::Static(_) => false,
        Principal::Rec(n, this) => n == m && ids.contains(&this),
    }
}

/// Whether the principal is the static one.
pub(crate) fn is_static(n: StaticNo, who: Principal) -> bool
    ensures { result ≡ meaning.is_static n who }
{
    match who {
        Principal::Static(k) => k == n,
        Principal::Rec(_, _) => false,
    }
}
