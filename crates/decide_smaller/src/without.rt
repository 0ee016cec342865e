//! A structure without one element. Elements after it have the numbers before theirs.

use form_formula::{FunSig, Range, SVal, SetSig, Signature, Structure};
use sqlite_items::Items;
use std::alloc::{AllocError, Global};

/// An element of a sort.
#[derive(Clone, Copy)]
pub(crate) struct Gone {
    pub(crate) sort: u32,
    pub(crate) element: u32,
}

impl Gone {
    /// The number of an element of a sort where this one is left out; None for this one.
    fn number_of(self, sort: u32, element: u32) -> Option<u32> {
        if sort != self.sort || element < self.element {
            return Some(element);
        }
        if element > self.element {
            Some(element - 1)
        } else {
            None
        }
    }

    /// What a function has in place of an element: where it was this one, nothing if that may be, and
    /// else the first element.
    fn value_for(self, sig: FunSig, element: u32) -> Option<SVal> {
        let Range::Rec(sort) = sig.to else {
            return Some(SVal::Rec(element));
        };
        match self.number_of(sort, element) {
            Some(element) => Some(SVal::Rec(element)),
            None => {
                if sig.partial {
                    None
                } else {
                    Some(SVal::Rec(0))
                }
            }
        }
    }

    /// What a function has at an element that stays.
    fn entry(
        self,
        alloc: Global,
        sig: FunSig,
        entry: &Option<SVal>,
    ) -> Result<Option<SVal>, AllocError> {
        let Some(value) = entry else {
            return Ok(None);
        };
        match value {
            SVal::Rec(element) => Ok(self.value_for(sig, *element)),
            SVal::Flag(flag) => Ok(Some(SVal::Flag(*flag))),
            SVal::Num(number) => Ok(Some(SVal::Num(*number))),
            SVal::Str(text) => {
                let text = text.copy(alloc)?;
                Ok(Some(SVal::Str(text)))
            }
        }
    }

    /// The table of a function.
    fn table(
        self,
        alloc: Global,
        sig: FunSig,
        table: &[Option<SVal>],
    ) -> Result<Items<Option<SVal>>, AllocError> {
        let mut less = Vec::new(alloc);
        for (element, entry) in table.iter().enumerate() {
            if sig.from != self.sort || element != self.element as usize {
                let entry = self.entry(alloc, sig, entry)?;
                less.push(entry)?;
            }
        }
        Ok(Items::from_vec(less))
    }

    /// The pairs of a set relation.
    fn pairs(
        self,
        alloc: Global,
        sig: SetSig,
        pairs: &[(u32, u32)],
    ) -> Result<Items<(u32, u32)>, AllocError> {
        let mut less = Vec::new(alloc);
        for pair in pairs {
            let from = self.number_of(sig.from, pair.0);
            let to = self.number_of(sig.to, pair.1);
            if let (Some(from), Some(to)) = (from, to) {
                less.push((from, to))?;
            }
        }
        Ok(Items::from_vec(less))
    }

    /// How many elements each sort has.
    fn sizes(self, alloc: Global, structure: &Structure) -> Result<Items<u32>, AllocError> {
        let mut sizes = Vec::new(alloc);
        for (sort, size) in structure.sizes.as_slice().iter().enumerate() {
            if sort == self.sort as usize {
                sizes.push(size.saturating_sub(1))?;
            } else {
                sizes.push(*size)?;
            }
        }
        Ok(Items::from_vec(sizes))
    }

    /// The structure without this element.
    pub(crate) fn structure(
        self,
        alloc: Global,
        signature: &Signature,
        structure: &Structure,
    ) -> Result<Structure, AllocError> {
        let sizes = self.sizes(alloc, structure)?;
        let mut funs = Vec::new(alloc);
        for (sig, table) in signature
            .funs
            .as_slice()
            .iter()
            .zip(structure.funs.as_slice())
        {
            let table = self.table(alloc, *sig, table.as_slice())?;
            funs.push(table)?;
        }
        let mut sets = Vec::new(alloc);
        for (sig, pairs) in signature
            .sets
            .as_slice()
            .iter()
            .zip(structure.sets.as_slice())
        {
            let pairs = self.pairs(alloc, *sig, pairs.as_slice())?;
            sets.push(pairs)?;
        }
        Ok(Structure {
            sizes,
            funs: Items::from_vec(funs),
            sets: Items::from_vec(sets),
        })
    }
}
