//! Lists as sets: rising, and each element once.

ghost use Rattle.std.specs.Prelude.{◌≡◌};
ghost use Rattle.data_meaning.specs.Meaning.{id_of_record};
ghost use Rattle.std.specs.List.Sorted.{IsStrictlySortedBy};
ghost use Rattle.data_members.specs.Sets.{is_one_of, number, principal_cmp, rank};
ghost use Rattle.data_members.specs.Touching.{IsSetOf, cell_cmp};

use data_meaning::{Cell, Principal};

/// The cells in rising order, each once.
pub(crate) fn rising_cells(mut cells: Vec<Cell>) -> Vec<Cell>
    ensures { IsSetOf cell_cmp result.items cells.items }
{
    cells.sort_unstable_by_key(|cell| (cell.model, cell.id, cell.field));
    cells.dedup();
    cells
}

/// Static principals come before records.
fn rank(p: Principal) -> u8
    ensures { result ≡ rank p }
{
    match p {
        Principal::Static(_) => 0,
        Principal::Rec(_, _) => 1,
    }
}

/// The number of the static principal, or of the record's model.
fn number(p: Principal) -> u32
    ensures { result ≡ number p }
{
    match p {
        Principal::Static(n) => n,
        Principal::Rec(m, _) => m,
    }
}

/// The id of the record; 0 of a static principal.
fn record_id(p: Principal) -> u64
    ensures { result ≡ id_of_record p }
{
    match p {
        Principal::Static(_) => 0,
        Principal::Rec(_, id) => id,
    }
}

/// The principals in rising order, each once.
pub(crate) fn rising_principals(mut ps: Vec<Principal>) -> Vec<Principal>
    ensures { IsSetOf principal_cmp result.items ps.items }
{
    ps.sort_unstable_by_key(|p| (rank(*p), number(*p), record_id(*p)));
    ps.dedup();
    ps
}

/// Whether the principal is one of these, which rise. It is sought in a logarithm of their number.
pub(crate) fn is_found(ps: &[Principal], who: Principal) -> bool
    requires { IsStrictlySortedBy principal_cmp ps.now }
    ensures { result ≡ is_one_of ps.now who }
{
    let place = (rank(who), number(who), record_id(who));
    match ps.binary_search_by_key(&place, |p| (rank(*p), number(*p), record_id(*p))) {
        Ok(_) => true,
        Err(_) => false,
    }
}
