//! Pairs, and where each stands.

ghost use Rattle.std.specs.Prelude.{◌≡◌, ◌∷◌, ◌++◌, [], List, length, position, IfOk, OnOk};
ghost use Rattle.ground_problem.specs.declared.words.PairNode.{PairNode as AnyPair};
ghost use Rattle.ground_problem.specs.contracts.words.PairNodePartialEq.TheImpl as pair_eq;
ghost use Rattle.indexmap.specs.IndexMap.{get};
ghost use Rattle.std.specs.Map.{lookup};
ghost use Rattle.decide_reading.specs.Columns.{is_same_pair};
ghost use Rattle.decide_reading.specs.Firsts.{AreFirstPlaces};

use ground_problem::PairNode;
use indexmap::IndexMap;
use std::alloc::{AllocError, Global};
use std::marker::Model;

/// A list of pairs, in which the first place of each is found in near constant time. Contracts see
/// the list.
#[derive(Drop)]
pub struct Pairs {
    pairs: Vec<PairNode>,
    places: IndexMap<PairNode, usize>,
}

impl Model for Pairs {
    ghost use Rattle.std.specs.Prelude.{List};
    ghost use Rattle.ground_problem.specs.declared.words.PairNode.{PairNode};
    ghost use Rattle.decide_reading.specs.Firsts.{AreFirstPlaces};

    ghost Value = { List PairNode };

    ghost view = { λ p. p.pairs.items };

    ghost invariant = { λ p. AreFirstPlaces p.places.entries p.pairs.items };
}

/// The place of a pair that was noted.
fn place_in(places: &IndexMap<PairNode, usize>, pair: PairNode) -> Option<usize>
    ensures same { result ≡ lookup (is_same_pair pair) places.now.entries }
    ensures own { result ≡ get (pair_eq.ghosts).eq places.now pair }
{
    places.get(&pair).copied()
}

/// Notes the place of a pair, behind those before it, if it has none.
fn note(
    places: &mut IndexMap<PairNode, usize>,
    pair: PairNode,
    place: usize,
) -> Result<(), AllocError>
    ensures { OnOk result ((before : List AnyPair) → place ≡ length before →
        AreFirstPlaces places.old.entries before →
        AreFirstPlaces places.new.entries (before ++ pair ∷ [])) }
{
    match place_in(places, pair) {
        Some(_) => Ok(()),
        None => {
            places.insert(pair, place)?;
            Ok(())
        }
    }
}

impl Pairs {
    /// The list of these pairs.
    pub fn of(alloc: Global, pairs: &[PairNode]) -> Result<Pairs, AllocError>
        ensures { IfOk result (λ own. own ≡ pairs.now) }
    {
        let mut places = IndexMap::new(alloc);
        for place in 0..pairs.len() {
            note(&mut places, pairs[place], place)?;
        }
        let pairs = Vec::from_slice(alloc, pairs)?;
        Ok(Pairs { pairs, places })
    }

    /// The pairs.
    pub fn as_slice(&self) -> &[PairNode]
        ensures { result.now ≡ self.now }
    {
        self.pairs.as_slice()
    }

    /// The first place of a pair.
    pub fn place_of(&self, pair: PairNode) -> Option<usize>
        ensures { result ≡ position (is_same_pair pair) self.now }
    {
        place_in(&self.places, pair)
    }
}
