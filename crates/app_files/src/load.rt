//! The files that the words name, and the trees that texts are.

ghost use Rattle.std.specs.Prelude.{◌≡◌, ◌≢◌, ◌<◌, ◌≤◌, ◌^◌, IfErr, IfOk, MatchResult, Err, Ok};
ghost use Rattle.std.specs.Prelude.{[], ◌∷◌, length};
ghost use Rattle.app_flow.specs.Outside.{IsRead};
ghost use Rattle.text_tree.specs.ExprGrammar.{G};
ghost use Rattle.text_tree.specs.Grammar.{spec_form, script_form};
ghost use Rattle.text_tree.specs.Texts.{IsTextOf};
ghost use Rattle.text_parse.specs.Refused.{IsRefusedAs};
ghost use Rattle.app_files.specs.Loads.{Fetches, FetchesWithin, Reads};

use crate::limits::MOST_FILE_BYTES;
use crate::refusal::Refusal;
use crate::stop::Stop;
use app_flow::{Found, Shelf, ShelfErr};
use std::alloc::Global;
use text_ast::Txt;
use text_parse::{SyntaxErr, parse_script, parse_spec};
use text_tree::{Script, Spec};

/// What a text may spell.
pub trait Tree: Sized {
    // What the grammar has for it.
    ghost form: { G Self };

    /// The tree that the text spells, or why it spells none, and where.
    fn parse(alloc: Global, text: &[u8]) -> Result<Self, SyntaxErr>
        requires { length text.now < 2 ^ 32 }
        ensures ok { IfOk result (λ tree. IsTextOf form text.now tree) }
        ensures refused { IfErr result (λ err. err ≢ SyntaxErr.OutOfMemory →
            IsRefusedAs form text.now err) };
}

impl Tree for Spec {
    ghost form = { spec_form };

    fn parse(alloc: Global, text: &[u8]) -> Result<Spec, SyntaxErr> {
        parse_spec(alloc, text)
    }
}

impl Tree for Script {
    ghost form = { script_form };

    fn parse(alloc: Global, text: &[u8]) -> Result<Script, SyntaxErr> {
        parse_script(alloc, text)
    }
}

/// The bytes of the file of that name, of which there are at most so many.
pub fn fetch_within<F: Shelf>(
    alloc: Global,
    shelf: &mut F,
    name: &Txt,
    limit: usize,
) -> Result<Vec<u8>, Stop>
    ensures fetched { MatchResult result
        (λ text. FetchesWithin limit (F.told shelf.old) name.now (Ok text.items))
        (λ stop. FetchesWithin limit (F.told shelf.old) name.now (Err stop)) }
    ensures shelf { IsRead F.told F.calls F.faults shelf.old shelf.new (name.now ∷ []) (result
        ≡ Err Stop.ReadFault) }
{
    match shelf.fetch(alloc, name.bytes(), limit) {
        Ok(Found::Missing) => Err(Stop::Refused(Refusal::Missing(name.copy(alloc)?))),
        Ok(Found::TooLong) => Err(Stop::Refused(Refusal::TooLong(name.copy(alloc)?))),
        Ok(Found::Bytes(text)) => Ok(text),
        Err(ShelfErr::Failed) => Err(Stop::ReadFault),
        Err(ShelfErr::OutOfMemory) => Err(Stop::OutOfMemory),
    }
}

/// The bytes of the specification or script of that name.
pub fn fetch<F: Shelf>(alloc: Global, shelf: &mut F, name: &Txt) -> Result<Vec<u8>, Stop>
    ensures fetched { MatchResult result
        (λ text. Fetches (F.told shelf.old) name.now (Ok text.items))
        (λ stop. Fetches (F.told shelf.old) name.now (Err stop)) }
    ensures shelf { IsRead F.told F.calls F.faults shelf.old shelf.new (name.now ∷ []) (result
        ≡ Err Stop.ReadFault) }
{
    fetch_within(alloc, shelf, name, MOST_FILE_BYTES)
}

/// The tree that the text of that name spells.
pub fn read<T: Tree>(alloc: Global, name: &Txt, text: &[u8]) -> Result<T, Stop>
    requires { length text.now ≤ MOST_FILE_BYTES }
    ensures { Reads T.form name.now text.now result }
{
    match T::parse(alloc, text) {
        Ok(tree) => Ok(tree),
        Err(SyntaxErr::OutOfMemory) => Err(Stop::OutOfMemory),
        Err(err) => Err(Stop::Refused(Refusal::Text(name.copy(alloc)?, err))),
    }
}
