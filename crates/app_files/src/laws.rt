//! What holds of the answers to any words, on any files.

ghost use Rattle.std.specs.Prelude.{◌≡◌, ℕ, List, Err, Ok, Some};
ghost use Rattle.app_flow.specs.Files.{Files};
ghost use Rattle.type_schema.specs.Script.{Script};
ghost use Rattle.app_files.specs.Answer.{AreAlike, Asks, AsksTexts, IsAnswer, status_of};
ghost use Rattle.app_files.specs.Words.{Names};
ghost use Rattle.app_files.specs.declared.answer.Answer.{Answer};
ghost use Rattle.app_files.specs.declared.refusal.Refusal.{Refusal};
ghost use Rattle.app_files.specs.declared.stop.Stop.TheVariants.{Refused};

/// Words have answers of one status on any files, but that of two answers one may be a leak where
/// the other is no decision. So each status but these comes exactly where an answer of that status
/// is one.
pub fn one_status()
    ensures { (files : Files) (words calls others : List (List ℕ)) (answer other : Answer) →
        IsAnswer (Some files) words calls answer → IsAnswer (Some files) words others other →
        AreAlike (status_of answer) (status_of other) }
{}

/// Files ask for one script, or they are refused for one cause, and never both.
pub fn one_script()
    ensures script { (files : Files) (names : Names) (calls others : List (List ℕ))
        (t u : Script) → Asks (Some files) names calls (Ok t) →
        Asks (Some files) names others (Ok u) → t ≡ u }
    ensures refusal { (files : Files) (names : Names) (calls others : List (List ℕ))
        (one other : Refusal) → Asks (Some files) names calls (Err (Refused one)) →
        Asks (Some files) names others (Err (Refused other)) → one ≡ other }
    ensures apart { (files : Files) (names : Names) (calls others : List (List ℕ)) (t : Script)
        (refusal : Refusal) → Asks (Some files) names calls (Ok t) →
        ¬ (Asks (Some files) names others (Err (Refused refusal))) }
{}

/// Texts ask for one script, or they are refused for one cause, and never both.
pub fn one_script_of_texts()
    ensures script { (names : Names) (spec script : List ℕ) (t u : Script) →
        AsksTexts names spec script (Ok t) → AsksTexts names spec script (Ok u) → t ≡ u }
    ensures refusal { (names : Names) (spec script : List ℕ) (one other : Refusal) →
        AsksTexts names spec script (Err (Refused one)) →
        AsksTexts names spec script (Err (Refused other)) → one ≡ other }
    ensures apart { (names : Names) (spec script : List ℕ) (t : Script) (refusal : Refusal) →
        AsksTexts names spec script (Ok t) →
        ¬ (AsksTexts names spec script (Err (Refused refusal))) }
{}
