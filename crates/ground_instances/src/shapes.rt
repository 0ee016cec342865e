//! What of a formula tells its instances apart.

ghost use Rattle.std.specs.Prelude.{◌≡◌, ◌+◌, ◌<◌, length, IfOk};
ghost use Rattle.form_formula.specs.Nodes.{IsBelow};
ghost use Rattle.ground_instances.specs.Shapes.{AreShapes, is_in, mask_of, node_shape, plain_shape};
ghost use Rattle.ground_instances.specs.Shapes.{shape_of_both};

use form_formula::{Arena, Node};
use std::alloc::{AllocError, Global};

/// What tells instances of a formula apart.
#[derive(Clone, Copy, Debug)]
pub(crate) struct Shape {
    /// Whether it has an `exists`. If not, an instance does not depend on the terms of all
    /// `forall`s above, but on those of its own variables alone.
    pub(crate) exists: bool,
    /// How many quantifiers it has as a tree.
    pub(crate) quantifiers: u32,
    /// A bit for each variable that occurs, by the number of quantifiers above that of the
    /// variable. From 64 on each counts as one that does.
    pub(crate) variables: u64,
}

/// Whether a variable is one of these.
pub(crate) fn is_in(variables: u64, variable: usize) -> bool
    ensures { result ≡ is_in variables variable }
{
    variable >= 64 || (variables >> variable) & 1 == 1
}

/// The set of one variable.
fn only(variable: u32) -> u64
    ensures { result ≡ mask_of variable }
{
    if variable < 64 { 1u64 << variable } else { 0 }
}

/// The shape of what has no quantifiers, and these variables.
fn plain(variables: u64) -> Shape
    ensures { result ≡ plain_shape variables }
{
    Shape {
        exists: false,
        quantifiers: 0,
        variables,
    }
}

/// The shape of a connective. Four thousand million quantifiers count as memory that is not there.
fn both(left: Shape, right: Shape) -> Result<Shape, AllocError>
    ensures { IfOk result (λ shape. shape ≡ shape_of_both left right) }
{
    match left.quantifiers.checked_add(right.quantifiers) {
        None => Err(AllocError),
        Some(quantifiers) => Ok(Shape {
            exists: left.exists || right.exists,
            quantifiers,
            variables: left.variables | right.variables,
        }),
    }
}

/// The shape with one more quantifier.
fn below(body: Shape, exists: bool) -> Result<Shape, AllocError>
    ensures { IfOk result (λ shape. shape ≡ record {
      exists = exists;
      quantifiers = body.quantifiers + 1;
      variables = body.variables;
    }) }
{
    match body.quantifiers.checked_add(1) {
        None => Err(AllocError),
        Some(quantifiers) => Ok(Shape {
            exists,
            quantifiers,
            variables: body.variables,
        }),
    }
}

/// The shape of a node whose parts have these shapes.
fn shape_of(node: &Node, shapes: &[Shape]) -> Result<Shape, AllocError>
    requires { IsBelow (length shapes.now) node.now }
    ensures { IfOk result (λ shape. shape ≡ node_shape shapes.now node.now) }
{
    match node {
        Node::Bound(_, depth) => Ok(plain(only(*depth))),
        Node::Num(_) | Node::Str(_) | Node::Yes | Node::No => Ok(plain(0)),
        Node::App(_, t) | Node::Flag(_, t) | Node::Present(_, t) => {
            Ok(plain(shapes[*t as usize].variables))
        }
        Node::Eq(s, t) | Node::Less(s, t) | Node::Has(_, s, t) => {
            let variables = shapes[*s as usize].variables | shapes[*t as usize].variables;
            Ok(plain(variables))
        }
        Node::Not(a) => Ok(Shape {
            exists: false,
            ..shapes[*a as usize]
        }),
        Node::And(a, b) | Node::Or(a, b) => both(shapes[*a as usize], shapes[*b as usize]),
        Node::Exists(_, a) => below(shapes[*a as usize], true),
        Node::Forall(_, a) => below(shapes[*a as usize], shapes[*a as usize].exists),
    }
}

/// The shapes of all nodes up to a formula, in one pass.
pub(crate) fn shapes_of(alloc: Global, arena: &Arena, id: u32) -> Result<Vec<Shape>, AllocError>
    requires { id < length arena.now }
    ensures size { IfOk result (λ shapes. length shapes.items ≡ id + 1) }
    ensures shapes { IfOk result (λ shapes. AreShapes arena.now shapes.items) }
{
    let _nodes = arena.len();
    let mut shapes = Vec::new(alloc);
    for at in 0..id + 1 {
        let shape = shape_of(arena.node(at), shapes.as_slice())?;
        shapes.push(shape)?;
    }
    Ok(shapes)
}
