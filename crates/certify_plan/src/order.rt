//! Which variable is decided next.

use certify_clauses::{ListedClauses, Literal, Path};
use std::alloc::{AllocError, Global};
use std::cmp::Reverse;
use std::collections::BinaryHeap;

/// The variables of clauses, of which one is decided next that had a part in the latest conflict,
/// and among those the first. A variable gets the value that it had last.
#[derive(Drop)]
pub(crate) struct Order {
    /// The variables that may have no value, with the conflict that they had a part in when they
    /// were put here.
    open: BinaryHeap<(u64, Reverse<u32>)>,
    /// Of each variable the conflict with which it was put there last, if it is there.
    put: Vec<Option<u64>>,
    /// Of each variable the latest conflict that it had a part in.
    touched: Vec<u64>,
    /// Of each variable the value that it had last.
    last: Vec<bool>,
    /// The number of the conflict.
    conflict: u64,
}

/// Of each variable of a clause, that it is put among those that may have no value.
fn variables_of(alloc: Global, c: &ListedClauses) -> Result<Vec<Option<u64>>, AllocError> {
    let mut put = vec![in alloc; None; c.atoms.len()]?;
    for clause in &c.clauses {
        for literal in clause {
            if let Some(own) = put.get_mut(literal.var as usize) {
                *own = Some(0);
            }
        }
    }
    Ok(put)
}

impl Order {
    /// The variables of clauses, none of which had a part in a conflict.
    pub(crate) fn new(alloc: Global, c: &ListedClauses) -> Result<Order, AllocError> {
        let vars = c.atoms.len();
        let mut open = BinaryHeap::new(alloc);
        let put = variables_of(alloc, c)?;
        for (var, own) in put.iter().enumerate() {
            if own.is_some() && var <= u32::MAX as usize {
                open.push((0, Reverse(var as u32)))?;
            }
        }
        Ok(Order {
            open,
            put,
            touched: vec![in alloc; 0; vars]?,
            last: vec![in alloc; false; vars]?,
            conflict: 0,
        })
    }

    /// Another conflict begins.
    pub(crate) fn begin_conflict(&mut self) {
        self.conflict = self.conflict.saturating_add(1);
    }

    /// The variable has a part in the conflict.
    pub(crate) fn touch(&mut self, var: u32) {
        if let Some(touched) = self.touched.get_mut(var as usize) {
            *touched = self.conflict;
        }
    }

    /// Whether a variable is put with another conflict than before, or anew.
    fn is_put_anew(&mut self, var: u32, conflict: u64) -> bool {
        match self.put.get_mut(var as usize) {
            None => false,
            Some(own) => {
                let is_new = *own != Some(conflict);
                *own = Some(conflict);
                is_new
            }
        }
    }

    /// The literal does not hold any more: its variable may be decided.
    pub(crate) fn put_back(&mut self, literal: Literal) -> Result<(), AllocError> {
        if let Some(last) = self.last.get_mut(literal.var as usize) {
            *last = literal.plus;
        }
        let Some(touched) = self.touched.get(literal.var as usize).copied() else {
            return Ok(());
        };
        if self.is_put_anew(literal.var, touched) {
            self.open.push((touched, Reverse(literal.var)))?;
        }
        Ok(())
    }

    /// Takes a variable that comes first.
    fn take_first(&mut self) -> Option<u32> {
        let (conflict, Reverse(var)) = self.open.pop()?;
        if let Some(own) = self.put.get_mut(var as usize) {
            if *own == Some(conflict) {
                *own = None;
            }
        }
        Some(var)
    }

    /// The literal that is decided next: none where each variable has a value.
    pub(crate) fn next(&mut self, path: &Path) -> Option<Literal> {
        for _ in 0..self.open.len() {
            let var = self.take_first()?;
            if path.value_of(var).is_none() {
                let plus = self.last.get(var as usize).copied().unwrap_or(false);
                return Some(Literal { var, plus });
            }
        }
        None
    }
}
