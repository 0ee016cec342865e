//! How often policies allow, and who is in sets.

use data_meaning::Principal;
use data_members::{allows, members};
use data_records::{Database, Record, Value};
use std::alloc::{AllocError, Global};
use type_schema::{FieldInfo, ModelInfo, Schema, TPolicy, TSet};

/// Which policies are asked.
#[derive(Clone, Copy, PartialEq, Eq)]
pub(crate) enum Which {
    All,
    /// Lists, fields that hold sets, and sums of these.
    Lists,
}

/// How often policies were asked, and how often they allowed.
#[derive(Drop)]
pub(crate) struct Asked {
    which: Which,
    most: u64,
    pub(crate) count: u64,
    pub(crate) allowed: u64,
}

/// Whether the set is made of lists and fields.
fn is_listed(set: &TSet) -> bool {
    match set {
        TSet::List(_) | TSet::Path(_, _) => true,
        TSet::Sum(left, right) => is_listed(left.get()) && is_listed(right.get()),
        _ => false,
    }
}

/// Whether the policy is such a set.
fn has_list(policy: &TPolicy) -> bool {
    match policy {
        TPolicy::Fun(_, set) => is_listed(set),
        TPolicy::Everyone | TPolicy::Nobody => false,
    }
}

impl Asked {
    /// Asks no more than so often.
    pub(crate) fn new(which: Which, most: u64) -> Asked {
        Asked {
            which,
            most,
            count: 0,
            allowed: 0,
        }
    }

    /// Whether the policy is to be asked.
    fn takes(&self, policy: &TPolicy) -> bool {
        self.which == Which::All || has_list(policy)
    }

    /// Asks whether a principal may read a field of the record.
    fn ask(
        &mut self,
        alloc: Global,
        database: &Database,
        policy: &TPolicy,
        who: Principal,
        id: u64,
    ) -> Result<(), AllocError> {
        if self.count < self.most {
            self.count += 1;
            if allows(alloc, database, policy, who, id)? {
                self.allowed = self.allowed.saturating_add(1);
            }
        }
        Ok(())
    }

    /// Asks for each principal.
    fn ask_each(
        &mut self,
        alloc: Global,
        database: &Database,
        policy: &TPolicy,
        whom: &[Principal],
        id: u64,
    ) -> Result<(), AllocError> {
        for who in whom {
            self.ask(alloc, database, policy, *who, id)?;
        }
        Ok(())
    }

    /// Asks at each record.
    fn ask_records(
        &mut self,
        alloc: Global,
        database: &Database,
        policy: &TPolicy,
        whom: &[Principal],
        records: &[Record],
    ) -> Result<(), AllocError> {
        for row in records {
            self.ask_each(alloc, database, policy, whom, row.id)?;
        }
        Ok(())
    }

    /// Asks the policies on reading fields.
    fn ask_fields(
        &mut self,
        alloc: Global,
        database: &Database,
        info: &ModelInfo,
        whom: &[Principal],
    ) -> Result<(), AllocError> {
        let records = database.records(info.number);
        for field in info.fields.as_slice() {
            if self.takes(&field.read) {
                self.ask_records(alloc, database, &field.read, whom, records)?;
            }
        }
        Ok(())
    }

    /// Asks the policies on reading each field of each record.
    pub(crate) fn ask_all(
        &mut self,
        alloc: Global,
        database: &Database,
        s: &Schema,
        whom: &[Principal],
    ) -> Result<(), AllocError> {
        for info in s.models.as_slice() {
            self.ask_fields(alloc, database, info, whom)?;
        }
        Ok(())
    }
}

/// Adds the first records of a model, up to so many principals.
fn push_principals(
    whom: &mut Vec<Principal>,
    database: &Database,
    info: &ModelInfo,
    most: usize,
) -> Result<(), AllocError> {
    for row in database.records(info.number) {
        if whom.len() < most {
            whom.push(Principal::Rec(info.number, row.id))?;
        }
    }
    Ok(())
}

/// The first records of models whose records are principals, so many.
pub(crate) fn first_principals(
    alloc: Global,
    database: &Database,
    s: &Schema,
    most: usize,
) -> Result<Vec<Principal>, AllocError> {
    let mut whom = Vec::new(alloc);
    for info in s.models.as_slice() {
        if info.principal {
            push_principals(&mut whom, database, info, most)?;
        }
    }
    Ok(whom)
}

/// The set of a policy on reading the field that seeks records and does nothing else.
fn set_in(field: &FieldInfo) -> Option<&TSet> {
    match &*field.read {
        TPolicy::Fun(_, set) => match set {
            TSet::Find(_, _) => Some(set),
            _ => None,
        },
        TPolicy::Everyone | TPolicy::Nobody => None,
    }
}

/// The first such set of fields.
fn first_set(fields: &[FieldInfo]) -> Option<&TSet> {
    for field in fields {
        let set = set_in(field);
        if set.is_some() {
            return set;
        }
    }
    None
}

/// The first such set, and the first record of its model.
pub(crate) fn largest_set<'s>(s: &'s Schema, database: &Database) -> Option<(&'s TSet, u64)> {
    for info in s.models.as_slice() {
        let found = first_set(info.fields.as_slice());
        if let (Some(set), Some(row)) = (found, database.records(info.number).first()) {
            return Some((set, row.id));
        }
    }
    None
}

/// How many are in the set, at the record.
pub(crate) fn size_of(
    alloc: Global,
    database: &Database,
    set: &TSet,
    id: u64,
) -> Result<usize, AllocError> {
    let all = members(alloc, database, set, &[Value::Id(id)])?;
    Ok(all.some.len())
}
