//! The structure of what a search found, and the elements of a formula's first variables.

ghost use Rattle.std.specs.Prelude.{◌≡◌, [], List, IfOk};
ghost use Rattle.form_formula.specs.Nodes.{IsFormula, formula_of};
ghost use Rattle.form_formula.specs.Over.{IsOver};
ghost use Rattle.form_terms.specs.GroundTerms.{GroundTerm};
ghost use Rattle.form_terms.specs.Satisfying.{leading_elements};
ghost use Rattle.form_tables.specs.Made.{made, made_choice};
ghost use Rattle.form_tables.specs.Table.{Table};
ghost use Rattle.form_tables.specs.Vocabulary.{IsVocabulary};
ghost use Rattle.decide_models.specs.Found.{IsFound};
ghost use Rattle.ground_problem.specs.Words.{IsWords, vocabulary_at};

use crate::classes::class_lists;
use crate::found::Found;
use crate::picks::picks;
use crate::places::element_list;
use crate::structure::structure_from;
use form_formula::{Arena, Signature, Structure};
use ground_problem::Words;
use ground_terms::TermArena;
use sqlite_items::Items;
use std::alloc::{AllocError, Global};

// Six beside the allocator: a formula over a signature, its terms, its words, and what was found.
/// Makes the structure that a table stands for, from what was found of numbered terms, and the
/// elements of the variables of the `exists` that a formula begins with.
///
/// The terms name what a vocabulary of the formula speaks of. Each sort has the elements that its
/// terms name, one where it has none and is not empty.
pub fn make_structure(
    alloc: Global,
    arena: &Arena,
    id: u32,
    signature: &Signature,
    terms: &TermArena,
    words: &Words,
    found: &Found,
) -> Result<(Structure, Items<u32>), AllocError>
    requires formula { IsFormula arena.now id }
    requires words { IsWords terms.now words.now }
    ensures structure { IfOk result (λ made_both. (listed : List GroundTerm) (table : Table) →
        IsOver signature.now [] (formula_of arena.now id) →
        IsVocabulary signature.now (formula_of arena.now id) listed (vocabulary_at terms.now
        words.now) → IsFound signature.now terms.now words.now.pairs.items found.now table →
        made_both.0 ≡ made signature.now (vocabulary_at terms.now words.now) table) }
    ensures picks { IfOk result (λ made_both. (listed : List GroundTerm) (table : Table) →
        IsOver signature.now [] (formula_of arena.now id) →
        IsVocabulary signature.now (formula_of arena.now id) listed (vocabulary_at terms.now
        words.now) → IsFound signature.now terms.now words.now.pairs.items found.now table →
        made_both.1 ≡ leading_elements (made_choice signature.now (vocabulary_at terms.now
        words.now) table) 0 (formula_of arena.now id)) }
{
    let _nodes = terms.len();
    let named = words.named.as_slice();
    let all = class_lists(alloc, signature, terms, found, named)?;
    let elements = element_list(alloc, signature, terms, found, &all)?;
    let picks = picks(alloc, arena, id, terms, &elements, named)?;
    let structure = structure_from(alloc, signature, terms, found, words, &all, &elements)?;
    Ok((structure, picks))
}
