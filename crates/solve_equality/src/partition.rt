//! Class numbers of terms.
ghost use Rattle.std.specs.Prelude.{◌≡◌, ◌<◌, ◌^◌, length, slice_set, IfOk, All};
ghost use Rattle.std.specs.List.{range_with_len};
ghost use Rattle.solve_equality.specs.Partition.{start, first_anchors, joined, class_at, anchor_at};
ghost use Rattle.solve_equality.specs.Partition.{AreMembers, IsRelabelled};

use crate::visits::Visits;
use std::alloc::{AllocError, Global};
use std::marker::Model;

/// Terms in classes, each with a class number.
///
/// The class of a fixed term has it as its anchor, and no class has two. The sizes of the classes
/// only help to choose which of two is to be relabelled.
#[derive(Drop)]
pub struct Partition {
    classes: Vec<u32>,
    anchors: Vec<Option<u32>>,
    sizes: Vec<u32>,
}

impl Model for Partition {
    ghost use Rattle.std.specs.Prelude.{◌≡◌, length};
    ghost use Rattle.solve_equality.specs.Partition.{Parts};

    ghost Value = { Parts };

    ghost view = { λ p. record { classes = p.classes.items; anchors = p.anchors.items } };

    ghost invariant = { λ p. length p.sizes.items ≡ length p.anchors.items };
}

impl Partition {
    /// Each term in a class of its own, numbered by itself.
    pub fn new(alloc: Global, terms: usize, fixed: &[u32]) -> Result<Partition, AllocError>
        requires small { terms < 2 ^ 32 }
        requires fixed { All (λ f. f < terms) fixed.now }
        ensures { IfOk result (λ p. p ≡ start terms fixed.now) }
    {
        let classes = first_numbers(alloc, terms)?;
        let mut anchors = vec![in alloc; None; terms]?;
        anchor_each(anchors.as_mut_slice(), fixed);
        let sizes = vec![in alloc; 1; terms]?;
        Ok(Partition {
            classes,
            anchors,
            sizes,
        })
    }

    /// The class of a term.
    pub fn class_of(&self, term: u32) -> u32
        requires { term < length self.now.classes }
        ensures { result ≡ class_at self.now term }
    {
        self.classes[term as usize]
    }

    /// The fixed term of a class, if it has one.
    pub fn anchor_of(&self, class: u32) -> Option<u32>
        requires { class < length self.now.anchors }
        ensures { result ≡ anchor_at self.now class }
    {
        self.anchors[class as usize]
    }

    /// Whether the first class is no greater than the second, as far as that is known.
    pub fn is_no_greater(&self, class: u32, other: u32) -> bool
        requires class_in { class < length self.now.anchors }
        requires other_in { other < length self.now.anchors }
    {
        self.sizes[class as usize] <= self.sizes[other as usize]
    }

    /// The class number of each term.
    pub fn classes(&self) -> &[u32]
        ensures { result.now ≡ self.now.classes }
    {
        self.classes.as_slice()
    }

    /// Puts the class `from`, whose members are given, into the class `into`.
    pub fn join(&mut self, members: &Visits, from: u32, into: u32)
        requires from_in { from < length self.old.anchors }
        requires into_in { into < length self.old.anchors }
        requires terms { members.now.terms ≡ length self.old.classes }
        requires members { AreMembers self.old.classes members.now.visits from }
        ensures { self.new ≡ joined self.old from into }
    {
        relabel(self.classes.as_mut_slice(), members, into);
        self.anchors[into as usize] = self.anchors[into as usize].or(self.anchors[from as usize]);
        self.sizes[into as usize] = self.sizes[into as usize].saturating_add(
            self.sizes[from as usize],
        );
    }

    /// Takes the members that are given out of the class `into`, as the class `from`, and gives
    /// `into` the anchor that it had.
    pub fn split(&mut self, members: &Visits, from: u32, into: u32, anchor: Option<u32>)
        requires from_in { from < length self.old.anchors }
        requires into_in { into < length self.old.anchors }
        requires terms { members.now.terms ≡ length self.old.classes }
        ensures classes { IsRelabelled self.old.classes members.now.visits from self.new.classes }
        ensures anchors { self.new.anchors ≡ slice_set self.old.anchors into anchor }
    {
        relabel(self.classes.as_mut_slice(), members, from);
        self.anchors[into as usize] = anchor;
        self.sizes[into as usize] = self.sizes[into as usize].saturating_sub(
            self.sizes[from as usize],
        );
    }
}

/// The numbers below `count`, in order.
fn first_numbers(alloc: Global, count: usize) -> Result<Vec<u32>, AllocError>
    requires { count < 2 ^ 32 }
    ensures { IfOk result (λ v. v.items ≡ range_with_len 0 count) }
{
    let mut numbers = Vec::with_capacity(alloc, count)?;
    for number in 0..count {
        numbers.push(number as u32)?;
    }
    Ok(numbers)
}

/// Makes each fixed term the anchor of its class.
fn anchor_each(anchors: &mut [Option<u32>], fixed: &[u32])
    requires within { All (λ f. f < length anchors.old) fixed.now }
    requires none { All (λ a. a ≡ None) anchors.old }
    ensures { anchors.new ≡ first_anchors (length anchors.old) fixed.now }
{
    for term in fixed {
        anchors[*term as usize] = Some(*term);
    }
}

/// Gives each visited term this class number.
fn relabel(classes: &mut [u32], members: &Visits, class: u32)
    requires { members.now.terms ≡ length classes.old }
    ensures { IsRelabelled classes.old members.now.visits class classes.new }
{
    for place in 0..members.len() {
        classes[members.at(place).term as usize] = class;
    }
}
