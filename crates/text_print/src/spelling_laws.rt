//! What holds of the canonical spellings of any trees.

ghost use Rattle.std.specs.Prelude.{ℕ, List, length, map, ◌≡◌, ◌≤◌, ◌+◌, ◌++◌, ◌∷◌};
ghost use Rattle.text_lexer.specs.Lexeme.{Lexeme};
ghost use Rattle.text_lexer.specs.declared.token.TokenKind.TheVariants as kind;
ghost use Rattle.text_ast.specs.Pieces.{Piece};
ghost use Rattle.text_tree.specs.declared.exprs.Expr.{Expr};
ghost use Rattle.text_tree.specs.declared.exprs.SetExpr.{SetExpr};
ghost use Rattle.text_tree.specs.declared.policies.Policy.{Policy};
ghost use Rattle.text_tree.specs.ExprGrammar.{Expression, Set};
ghost use Rattle.text_tree.specs.Forms.{part};
ghost use Rattle.text_tree.specs.declared.commands.Script.{Script};
ghost use Rattle.text_tree.specs.declared.models.Spec.{Spec};
ghost use Rattle.text_tree.specs.Grammar.{policy_form, script_form, spec_form};
ghost use Rattle.text_tree.specs.Stripped.{stripped_expr, stripped_policy, stripped_set};
ghost use Rattle.text_tree.specs.Stripped.{stripped_script, stripped_spec};
ghost use Rattle.text_tree.specs.Texts.{IsScriptText, IsSpecText, IsSpelled, IsSpelledAt, IsTextOf};
ghost use Rattle.text_print.specs.Commands.{spelled_script};
ghost use Rattle.text_print.specs.Exprs.{spelled_expr, spelled_set};
ghost use Rattle.text_print.specs.Marks.{lexemes_of_marks, text_of_marks};
ghost use Rattle.text_print.specs.Models.{spelled_policy, spelled_spec};
ghost use Rattle.text_print.specs.Reprinted.{AreOf, AreTokens, HaveSameTokens};
ghost use Rattle.text_print.specs.Reprinted.{IsPrinted, IsReprinted, lexeme};

/// Of a policy, a specification or a script that a text spells within the limits, offsets aside, the
/// canonical text is a text that spells it, offsets aside, within the limits.
pub fn printed_texts_spell()
    ensures policies { (text : List ℕ) (x y : Policy) → IsTextOf policy_form text y →
        stripped_policy y ≡ stripped_policy x →
        IsPrinted policy_form stripped_policy x (text_of_marks (spelled_policy x)) }
    ensures specifications { (text : List ℕ) (x y : Spec) → IsSpecText text y →
        stripped_spec y ≡ stripped_spec x →
        IsPrinted spec_form stripped_spec x (text_of_marks (spelled_spec x)) }
    ensures scripts { (text : List ℕ) (x y : Script) → IsScriptText text y →
        stripped_script y ≡ stripped_script x →
        IsPrinted script_form stripped_script x (text_of_marks (spelled_script x)) }
{}

/// The canonical spelling of an expression, a set or a policy that tokens spell within the limits
/// spells it again, offsets aside, within the limits and with no more tokens.
pub fn policies_are_reprinted()
    ensures expressions { (x : Expr) (ls ks : List Piece) →
        AreTokens ls → IsSpelled (part Expression) x ls → AreOf (spelled_expr x).marks ks →
        IsReprinted (part Expression) stripped_expr x (length ls) ks }
    ensures sets { (x : SetExpr) (ls ks : List Piece) →
        AreTokens ls → IsSpelled (part Set) x ls → AreOf (spelled_set x).marks ks →
        IsReprinted (part Set) stripped_set x (length ls) ks }
    ensures policies { (x : Policy) (ls ks : List Piece) →
        AreTokens ls → IsSpelled policy_form x ls → AreOf (spelled_policy x) ks →
        IsReprinted policy_form stripped_policy x (length ls) ks }
{}

/// The canonical spelling of a specification or a script that tokens spell within the limits spells
/// it again, offsets aside, within the limits.
pub fn texts_are_reprinted()
    ensures specifications { (x : Spec) (ls ks : List Piece) →
        AreTokens ls → IsSpelled spec_form x ls → AreOf (spelled_spec x) ks →
        IsReprinted spec_form stripped_spec x (length ks) ks }
    ensures scripts { (x : Script) (ls ks : List Piece) →
        AreTokens ls → IsSpelled script_form x ls → AreOf (spelled_script x) ks →
        IsReprinted script_form stripped_script x (length ks) ks }
{}

/// A spelling of an equal tree, offsets aside, has no fewer tokens than the canonical one, but for
/// the last comma of each model of a specification. So leaving out two of its lexemes, and of a
/// specification a pair of parentheses, spells another tree or none.
pub fn parentheses_are_needed()
    ensures short_expressions { (x y : Expr) (ls : List Piece) →
        AreTokens ls → IsSpelled (part Expression) y ls → stripped_expr y ≡ stripped_expr x →
        length (lexemes_of_marks (spelled_expr x).marks) ≤ length ls }
    ensures short_sets { (x y : SetExpr) (ls : List Piece) →
        AreTokens ls → IsSpelled (part Set) y ls → stripped_set y ≡ stripped_set x →
        length (lexemes_of_marks (spelled_set x).marks) ≤ length ls }
    ensures short_policies { (x y : Policy) (ls : List Piece) →
        AreTokens ls → IsSpelled policy_form y ls → stripped_policy y ≡ stripped_policy x →
        length (lexemes_of_marks (spelled_policy x)) ≤ length ls }
    ensures short_scripts { (x y : Script) (ls : List Piece) →
        AreTokens ls → IsSpelled script_form y ls → stripped_script y ≡ stripped_script x →
        length (lexemes_of_marks (spelled_script x)) ≤ length ls }
    ensures short_specifications { (x y : Spec) (ls : List Piece) →
        AreTokens ls → IsSpelled spec_form y ls → stripped_spec y ≡ stripped_spec x →
        length (lexemes_of_marks (spelled_spec x)) ≤ length x.models + length ls }
    ensures expressions { (x y : Expr) (a b c : List Lexeme) (left right : Lexeme) →
        (ls : List Piece) →
        lexemes_of_marks (spelled_expr x).marks ≡ a ++ left ∷ (b ++ right ∷ c) →
        map lexeme ls ≡ a ++ (b ++ c) →
        AreTokens ls → IsSpelled (part Expression) y ls → ¬ (stripped_expr y ≡ stripped_expr x) }
    ensures sets { (x y : SetExpr) (a b c : List Lexeme) (left right : Lexeme) →
        (ls : List Piece) →
        lexemes_of_marks (spelled_set x).marks ≡ a ++ left ∷ (b ++ right ∷ c) →
        map lexeme ls ≡ a ++ (b ++ c) →
        AreTokens ls → IsSpelled (part Set) y ls → ¬ (stripped_set y ≡ stripped_set x) }
    ensures policies { (x y : Policy) (a b c : List Lexeme) (left right : Lexeme) →
        (ls : List Piece) →
        lexemes_of_marks (spelled_policy x) ≡ a ++ left ∷ (b ++ right ∷ c) →
        map lexeme ls ≡ a ++ (b ++ c) →
        AreTokens ls → IsSpelled policy_form y ls → ¬ (stripped_policy y ≡ stripped_policy x) }
    ensures scripts { (x y : Script) (a b c : List Lexeme) (left right : Lexeme) →
        (ls : List Piece) →
        lexemes_of_marks (spelled_script x) ≡ a ++ left ∷ (b ++ right ∷ c) →
        map lexeme ls ≡ a ++ (b ++ c) →
        AreTokens ls → IsSpelled script_form y ls → ¬ (stripped_script y ≡ stripped_script x) }
    ensures specifications { (x y : Spec) (a b c : List Lexeme) (left right : Lexeme) →
        (ls : List Piece) → left.kind ≡ kind.ParenOpen → right.kind ≡ kind.ParenClose →
        lexemes_of_marks (spelled_spec x) ≡ a ++ left ∷ (b ++ right ∷ c) →
        map lexeme ls ≡ a ++ (b ++ c) →
        AreTokens ls → IsSpelled spec_form y ls → ¬ (stripped_spec y ≡ stripped_spec x) }
{}

/// What tokens spell, the same tokens at other places spell too, offsets aside.
pub fn spelled_elsewhere()
    ensures expressions { (n : ℕ) (x : Expr) (ls ks : List Piece) → map lexeme ks ≡ map lexeme ls →
        IsSpelledAt n (part Expression) x ls →
        (y : Expr) × IsSpelledAt n (part Expression) y ks × (stripped_expr y ≡ stripped_expr x) }
    ensures sets { (n : ℕ) (x : SetExpr) (ls ks : List Piece) → map lexeme ks ≡ map lexeme ls →
        IsSpelledAt n (part Set) x ls →
        (y : SetExpr) × IsSpelledAt n (part Set) y ks × (stripped_set y ≡ stripped_set x) }
    ensures policies { (n : ℕ) (x : Policy) (ls ks : List Piece) → map lexeme ks ≡ map lexeme ls →
        IsSpelledAt n policy_form x ls →
        (y : Policy) × IsSpelledAt n policy_form y ks × (stripped_policy y ≡ stripped_policy x) }
    ensures specifications { (n : ℕ) (x : Spec) (ls ks : List Piece) →
        map lexeme ks ≡ map lexeme ls → IsSpelledAt n spec_form x ls →
        (y : Spec) × IsSpelledAt n spec_form y ks × (stripped_spec y ≡ stripped_spec x) }
    ensures scripts { (n : ℕ) (x : Script) (ls ks : List Piece) →
        map lexeme ks ≡ map lexeme ls → IsSpelledAt n script_form x ls →
        (y : Script) × IsSpelledAt n script_form y ks × (stripped_script y ≡ stripped_script x) }
{}

/// The same tokens at other places spell no other tree, offsets aside, however many items it has
/// and however deep it nests.
pub fn one_tree_elsewhere()
    ensures expressions { (n m : ℕ) (x y : Expr) (ls ks : List Piece) →
        map lexeme ks ≡ map lexeme ls → IsSpelledAt n (part Expression) x ls →
        IsSpelledAt m (part Expression) y ks → stripped_expr x ≡ stripped_expr y }
    ensures sets { (n m : ℕ) (x y : SetExpr) (ls ks : List Piece) →
        map lexeme ks ≡ map lexeme ls → IsSpelledAt n (part Set) x ls →
        IsSpelledAt m (part Set) y ks → stripped_set x ≡ stripped_set y }
    ensures policies { (n m : ℕ) (x y : Policy) (ls ks : List Piece) →
        map lexeme ks ≡ map lexeme ls → IsSpelledAt n policy_form x ls →
        IsSpelledAt m policy_form y ks → stripped_policy x ≡ stripped_policy y }
    ensures specifications { (n m : ℕ) (x y : Spec) (ls ks : List Piece) →
        map lexeme ks ≡ map lexeme ls → IsSpelledAt n spec_form x ls →
        IsSpelledAt m spec_form y ks → stripped_spec x ≡ stripped_spec y }
    ensures scripts { (n m : ℕ) (x y : Script) (ls ks : List Piece) →
        map lexeme ks ≡ map lexeme ls → IsSpelledAt n script_form x ls →
        IsSpelledAt m script_form y ks → stripped_script x ≡ stripped_script y }
{}

/// A text that has the tokens of another, with other blanks, line ends and comments, spells the
/// tree that the other spells, offsets aside, within the same limits.
pub fn layout_means_nothing()
    ensures policies { (text other : List ℕ) (x : Policy) → HaveSameTokens text other →
        IsTextOf policy_form text x → IsPrinted policy_form stripped_policy x other }
    ensures specifications { (text other : List ℕ) (x : Spec) → HaveSameTokens text other →
        IsSpecText text x → IsPrinted spec_form stripped_spec x other }
    ensures scripts { (text other : List ℕ) (x : Script) → HaveSameTokens text other →
        IsScriptText text x → IsPrinted script_form stripped_script x other }
{}
