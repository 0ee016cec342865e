//! The texts of facts.

ghost use Rattle.std.specs.Prelude.{IfOk, OnOk};
ghost use Rattle.certify_atoms.specs.Texts.{AllAreTexts, KeepsOnce, StandOnce};

use crate::sides::place_of;
use form_formula::{Arena, Node};
use ground_instances::Value;
use ground_problem::FactNode;
use std::alloc::{AllocError, Global};
use text_ast::Txt;

/// Puts a text at the end, if it is not there.
fn add_text(alloc: Global, text: &Txt, texts: &mut Vec<Txt>) -> Result<(), AllocError>
    ensures { OnOk result (KeepsOnce texts.old.items texts.new.items) }
{
    match place_of(texts.as_slice(), text) {
        Some(_) => Ok(()),
        None => {
            let copy = text.copy(alloc)?;
            texts.push(copy)?;
            Ok(())
        }
    }
}

/// Puts the text of a value at the end, if it is one.
fn add_value(
    alloc: Global,
    arena: &Arena,
    value: Value,
    texts: &mut Vec<Txt>,
) -> Result<(), AllocError>
    ensures { OnOk result (KeepsOnce texts.old.items texts.new.items) }
{
    match value {
        Value::Literal(id) if (id as usize) < arena.len() => match arena.node(id) {
            Node::Str(text) => add_text(alloc, text, texts),
            Node::Num(_)
            | Node::Bound(..)
            | Node::App(..)
            | Node::Yes
            | Node::No
            | Node::Eq(..)
            | Node::Less(..)
            | Node::Has(..)
            | Node::Flag(..)
            | Node::Present(..)
            | Node::Not(_)
            | Node::And(..)
            | Node::Or(..)
            | Node::Exists(..)
            | Node::Forall(..) => Ok(()),
        },
        Value::Literal(_) | Value::Term(_) => Ok(()),
    }
}

/// Puts the texts of two values at the end.
fn add_values(
    alloc: Global,
    arena: &Arena,
    left: Value,
    right: Value,
    texts: &mut Vec<Txt>,
) -> Result<(), AllocError>
    ensures { OnOk result (KeepsOnce texts.old.items texts.new.items) }
{
    add_value(alloc, arena, left, texts)?;
    add_value(alloc, arena, right, texts)?;
    Ok(())
}

/// Puts the texts of a fact at the end.
fn add_fact(
    alloc: Global,
    arena: &Arena,
    fact: FactNode,
    texts: &mut Vec<Txt>,
) -> Result<(), AllocError>
    ensures { OnOk result (KeepsOnce texts.old.items texts.new.items) }
{
    match fact {
        FactNode::Same(v, u) => add_values(alloc, arena, v, u, texts),
        FactNode::There(_)
        | FactNode::Below(..)
        | FactNode::Raised(_)
        | FactNode::Related(_)
        | FactNode::Empty(_) => Ok(()),
    }
}

/// Puts the texts of facts at the end.
fn add_facts(
    alloc: Global,
    arena: &Arena,
    facts: &[FactNode],
    texts: &mut Vec<Txt>,
) -> Result<(), AllocError>
    ensures { OnOk result (KeepsOnce texts.old.items texts.new.items) }
{
    for fact in facts {
        add_fact(alloc, arena, *fact, texts)?;
    }
    Ok(())
}

/// The texts of facts, each once.
pub fn texts_of(alloc: Global, arena: &Arena, facts: &[FactNode]) -> Result<Vec<Txt>, AllocError>
    ensures { IfOk result (λ texts. StandOnce texts.items) }
{
    let mut texts = Vec::new(alloc);
    add_facts(alloc, arena, facts, &mut texts)?;
    Ok(texts)
}

/// Texts are texts.
pub fn see_texts(texts: &[Txt])
    ensures { AllAreTexts texts.now }
{
    for text in texts {
        let _bytes = text.bytes();
    }
}
