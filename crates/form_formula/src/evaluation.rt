//! The truth of formulas on a structure, without recursion: a formula is as deep as it is long.

ghost use Rattle.std.specs.Prelude.{◌≡◌, ℕ, ◌+◌, ◌-◌, ◌<◌, List, [], ◌∷◌, ◌++◌, All, IfOk, OnOk};
ghost use Rattle.std.specs.Prelude.{length, take};
ghost use Rattle.form_formula.specs.Nodes.{IsFormula, IsPlaced, formula_of, formula_part, tree_from};
ghost use Rattle.form_formula.specs.Nodes.{trees_of};
ghost use Rattle.form_formula.specs.Truth.{truth, size_of};
ghost use Rattle.form_formula.specs.Evaluation.{AreWaiting, IsMove, IsPlain, HasElement, outcome};
ghost use Rattle.form_formula.specs.Evaluation.{IsTrialExists, IsTrialForall, IsLeft, cost};

use crate::arena::Arena;
use crate::atom::{are_equal, flag, has, is_less, is_present};
use crate::node::Node;
use crate::structure::Structure;
use crate::term::Reading;
use crate::value::size_of;
use std::alloc::{AllocError, Global};

/// The element that a quantifier is tried at.
#[derive(Clone, Copy, Debug)]
pub(crate) struct Choice {
    /// How many elements the sort has.
    pub(crate) size: u32,
    pub(crate) element: u32,
    pub(crate) body: u32,
}

/// What waits for the truth of a part.
#[derive(Clone, Copy, Debug)]
pub(crate) enum Frame {
    Not,
    /// The right side, if the left one is true.
    And(u32),
    /// The right side, if the left one is false.
    Or(u32),
    /// The next element, if the formula is false at this one.
    Exists(Choice),
    /// The next element, if the formula is true at this one.
    Forall(Choice),
}

/// Where an evaluation is.
#[derive(Clone, Copy, Debug)]
pub(crate) enum Step {
    /// At a formula whose truth is sought.
    Seek(u32),
    Found(bool),
}

/// What waits, the outermost first, and the elements that are chosen in it.
#[derive(Debug, Drop)]
pub(crate) struct Waiting {
    pub(crate) frames: Vec<Frame>,
    pub(crate) elements: Vec<u32>,
}

impl Waiting {
    /// Lets a frame wait that chooses no element.
    fn push(&mut self, frame: Frame) -> Result<(), AllocError>
        ensures frames { OnOk result (self.new.frames.items ≡ self.old.frames.items ++ frame ∷ []) }
        ensures elements { self.new.elements.items ≡ self.old.elements.items }
    {
        self.frames.push(frame)?;
        Ok(())
    }

    /// Forgets the element that was chosen last.
    fn forget_element(&mut self)
        ensures frames { self.new.frames.items ≡ self.old.frames.items }
        ensures elements { self.new.elements.items
            ≡ take (length self.old.elements.items - 1) self.old.elements.items }
    {
        let _ = self.elements.pop();
    }

    /// Lets a frame wait that chooses an element.
    fn push_choice(&mut self, frame: Frame, element: u32) -> Result<(), AllocError>
        ensures frames { OnOk result (self.new.frames.items ≡ self.old.frames.items ++ frame ∷ []) }
        ensures elements { OnOk result (self.new.elements.items
            ≡ self.old.elements.items ++ element ∷ []) }
    {
        self.elements.push(element)?;
        self.frames.push(frame)?;
        Ok(())
    }
}

/// Goes on at an element of a sort and those after it, for a formula that holds for some.
fn try_exists(waiting: &mut Waiting, choice: Choice) -> Result<Step, AllocError>
    ensures { IsTrialExists waiting.old.frames.items waiting.old.elements.items choice result
        waiting.new.frames.items waiting.new.elements.items }
{
    if choice.element >= choice.size {
        return Ok(Step::Found(false));
    }
    waiting.push_choice(Frame::Exists(choice), choice.element)?;
    Ok(Step::Seek(choice.body))
}

/// Goes on at an element of a sort and those after it, for a formula that holds for each.
fn try_forall(waiting: &mut Waiting, choice: Choice) -> Result<Step, AllocError>
    ensures { IsTrialForall waiting.old.frames.items waiting.old.elements.items choice result
        waiting.new.frames.items waiting.new.elements.items }
{
    if choice.element >= choice.size {
        return Ok(Step::Found(true));
    }
    waiting.push_choice(Frame::Forall(choice), choice.element)?;
    Ok(Step::Seek(choice.body))
}

/// Goes on after a part, for what waited for it last.
fn leave(waiting: &mut Waiting, frame: Frame, found: bool) -> Result<Step, AllocError>
    requires { HasElement frame }
    ensures { IsLeft waiting.old.frames.items waiting.old.elements.items frame found result
        waiting.new.frames.items waiting.new.elements.items }
{
    match frame {
        Frame::Not => Ok(Step::Found(!found)),
        Frame::And(right) => {
            if found {
                Ok(Step::Seek(right))
            } else {
                Ok(Step::Found(false))
            }
        }
        Frame::Or(right) => {
            if found {
                Ok(Step::Found(true))
            } else {
                Ok(Step::Seek(right))
            }
        }
        Frame::Exists(choice) => {
            waiting.forget_element();
            if found {
                Ok(Step::Found(true))
            } else {
                try_exists(waiting, next_choice(choice))
            }
        }
        Frame::Forall(choice) => {
            waiting.forget_element();
            if found {
                try_forall(waiting, next_choice(choice))
            } else {
                Ok(Step::Found(false))
            }
        }
    }
}

/// The element after one, which need not be there.
fn next_choice(choice: Choice) -> Choice
    requires { choice.element < choice.size }
    ensures { result ≡ record choice { element = choice.element + 1 } }
{
    Choice {
        element: choice.element + 1,
        ..choice
    }
}

/// The truth of a formula that is no connective and no quantifier.
fn atom(alloc: Global, reading: Reading<'_>, node: &Node) -> Result<bool, AllocError>
    requires { IsPlaced reading.arena.now node.now }
    ensures { IfOk result (λ answer. IsPlain node.now →
        answer ≡ truth reading.entry.structure.now reading.entry.elements.now
        (formula_part (tree_from (trees_of reading.entry.arena.now) node.now))) }
{
    match node {
        Node::Yes => Ok(true),
        Node::Eq(s, t) => are_equal(alloc, reading, *s, *t),
        Node::Less(s, t) => is_less(alloc, reading, *s, *t),
        Node::Has(r, s, t) => has(alloc, reading, *r, *s, *t),
        Node::Flag(f, t) => flag(alloc, reading, *f, *t),
        Node::Present(f, t) => is_present(alloc, reading, *f, *t),
        Node::No
        | Node::Bound(..)
        | Node::Num(_)
        | Node::Str(_)
        | Node::App(..)
        | Node::Not(_)
        | Node::And(..)
        | Node::Or(..)
        | Node::Exists(..)
        | Node::Forall(..) => Ok(false),
    }
}

/// Goes on at a formula whose truth is sought.
fn seek(
    alloc: Global,
    structure: &Structure,
    arena: &Arena,
    waiting: &mut Waiting,
    id: u32,
) -> Result<Step, AllocError>
    requires formula { IsFormula arena.now id }
    requires waiting { AreWaiting arena.now waiting.old.frames.items waiting.old.elements.items }
    ensures { IfOk result
        (IsMove structure.now arena.now waiting.old.frames.items
        (truth structure.now waiting.old.elements.items (formula_of arena.now id))
        (cost structure.now arena.now
        (formula_of arena.now id)) waiting.new.frames.items waiting.new.elements.items) }
{
    match arena.node(id) {
        Node::Not(a) => {
            waiting.push(Frame::Not)?;
            Ok(Step::Seek(*a))
        }
        Node::And(a, b) => {
            waiting.push(Frame::And(*b))?;
            Ok(Step::Seek(*a))
        }
        Node::Or(a, b) => {
            waiting.push(Frame::Or(*b))?;
            Ok(Step::Seek(*a))
        }
        Node::Exists(sort, a) => try_exists(waiting, first_choice(structure, *sort, *a)),
        Node::Forall(sort, a) => try_forall(waiting, first_choice(structure, *sort, *a)),
        node => {
            let reading = Reading {
                structure,
                arena,
                elements: waiting.elements.as_slice(),
            };
            let found = atom(alloc, reading, node)?;
            Ok(Step::Found(found))
        }
    }
}

/// The first element of a sort, which need not be there.
fn first_choice(structure: &Structure, sort: u32, body: u32) -> Choice
    ensures { result ≡ record { size = size_of structure.now sort; element = 0; body = body } }
{
    Choice {
        size: size_of(structure, sort),
        element: 0,
        body,
    }
}

/// The truth of what waits for a formula.
fn evaluate(
    alloc: Global,
    structure: &Structure,
    arena: &Arena,
    waiting: &mut Waiting,
    id: u32,
) -> Result<bool, AllocError>
    requires formula { IsFormula arena.now id }
    requires waiting { AreWaiting arena.now waiting.old.frames.items waiting.old.elements.items }
    ensures { IfOk result (λ answer. answer
        ≡ outcome structure.now arena.now [] waiting.old.frames.items
        (truth structure.now waiting.old.elements.items (formula_of arena.now id))) }
{
    let mut step = Step::Seek(id);
    'steps: loop {
        match step {
            Step::Seek(id) => step = seek(alloc, structure, arena, &mut *waiting, id)?,
            Step::Found(found) => match waiting.frames.pop() {
                None => return Ok(found),
                Some(frame) => step = leave(&mut *waiting, frame, found)?,
            },
        }
    }
}

/// An element that is the last of those that a formula is tried at.
fn only_choice(element: u32, body: u32) -> Result<Choice, AllocError>
    ensures { IfOk result (λ choice. choice
        ≡ record { size = element + 1; element = element; body = body }) }
{
    let size = element.checked_add(1).ok_or(AllocError)?;
    Ok(Choice {
        size,
        element,
        body,
    })
}

/// Whether a formula is true on a structure. Variables without a quantifier have no value.
///
/// A quantifier stops at the first element that decides.
pub fn holds(
    alloc: Global,
    structure: &Structure,
    arena: &Arena,
    id: u32,
) -> Result<bool, AllocError>
    requires { IsFormula arena.now id }
    ensures { IfOk result (λ answer. answer ≡ truth structure.now [] (formula_of arena.now id)) }
{
    holds_at(alloc, structure, arena, id, &[])
}

/// Whether a formula is true on a structure with these elements for its outermost variables.
pub fn holds_at(
    alloc: Global,
    structure: &Structure,
    arena: &Arena,
    id: u32,
    elements: &[u32],
) -> Result<bool, AllocError>
    requires { IsFormula arena.now id }
    ensures { IfOk result (λ answer. answer
        ≡ truth structure.now elements.now (formula_of arena.now id)) }
{
    let mut waiting = Waiting {
        frames: Vec::new(alloc),
        elements: Vec::new(alloc),
    };
    for element in elements {
        waiting.push_choice(Frame::Exists(only_choice(*element, id)?), *element)?;
    }
    evaluate(alloc, structure, arena, &mut waiting, id)
}
