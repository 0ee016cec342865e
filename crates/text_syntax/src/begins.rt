//! Which tokens begin a form.

ghost use Rattle.std.specs.Prelude.{◌≡◌, if◌then◌else◌};
ghost use Rattle.text_tree.specs.ExprGrammar as form;
ghost use Rattle.text_tree.specs.ExprGrammar.{Expression, Set};
ghost use Rattle.text_tree.specs.Forms.{first, NotGrammar};
ghost use Rattle.text_tree.specs.Texts.{first_of};
ghost use Rattle.text_grammar.specs.Reading.{Got, Stuck, starts};
ghost use Rattle.text_syntax.specs.Parts.{compare_form};
ghost use Rattle.text_syntax.specs.Reads.{Reads};

use crate::cursor::Cursor;
use crate::stop::Stop;
use text_lexer::TokenKind;

impl Cursor<'_> {
    /// Whether the next token begins `true` or `false`.
    #[tactic(auto, unfolding(text_tree::specs::ExprGrammar::flag))]
    pub fn begins_flag(&self) -> bool
        ensures { result ≡ starts (first first_of form.flag) self.now }
    {
        self.sees_word(TokenKind::Lower, b"true") || self.sees_word(TokenKind::Lower, b"false")
    }

    /// Whether the next token begins a number.
    #[tactic(auto, unfolding(text_tree::specs::ExprGrammar::number))]
    pub fn begins_number(&self) -> bool
        ensures { result ≡ starts (first first_of form.number) self.now }
    {
        self.sees_plain() || self.sees(TokenKind::Minus)
    }

    /// Whether the next token is a text in quotes.
    #[tactic(auto, unfolding(text_tree::specs::ExprGrammar::literal))]
    pub fn begins_literal(&self) -> bool
        ensures { result ≡ starts (first first_of form.literal) self.now }
    {
        self.sees_literal()
    }

    /// Whether the next token begins `none` or `some`.
    #[tactic(auto, unfolding(text_tree::specs::ExprGrammar::option))]
    pub fn begins_option(&self) -> bool
        ensures { result ≡ starts (first first_of form.option) self.now }
    {
        self.sees_word(TokenKind::Lower, b"none") || self.sees_word(TokenKind::Lower, b"some")
    }

    /// Whether the next token begins a choice between expressions by a test.
    #[tactic(auto, unfolding(text_tree::specs::ExprGrammar::if_expr, text_tree::specs::ExprGrammar::condition))]
    pub fn begins_if(&self) -> bool
        ensures { result ≡ starts (first first_of form.if_expr) self.now }
    {
        self.sees_word(TokenKind::Lower, b"if")
    }

    /// Whether the next token begins a choice between expressions by an option.
    #[tactic(auto, unfolding(text_tree::specs::ExprGrammar::match_expr, text_tree::specs::ExprGrammar::scrutinee))]
    pub fn begins_match(&self) -> bool
        ensures { result ≡ starts (first first_of form.match_expr) self.now }
    {
        self.sees_word(TokenKind::Lower, b"match")
    }

    /// Whether the next token begins a choice between sets by a test.
    #[tactic(auto, unfolding(text_tree::specs::ExprGrammar::if_set, text_tree::specs::ExprGrammar::condition))]
    pub fn begins_if_set(&self) -> bool
        ensures { result ≡ starts (first first_of form.if_set) self.now }
    {
        self.sees_word(TokenKind::Lower, b"if")
    }

    /// Whether the next token begins a choice between sets by an option.
    #[tactic(auto, unfolding(text_tree::specs::ExprGrammar::match_set, text_tree::specs::ExprGrammar::scrutinee))]
    pub fn begins_match_set(&self) -> bool
        ensures { result ≡ starts (first first_of form.match_set) self.now }
    {
        self.sees_word(TokenKind::Lower, b"match")
    }

    /// Whether the next token begins a list.
    #[tactic(auto, unfolding(text_tree::specs::ExprGrammar::list))]
    pub fn begins_list(&self) -> bool
        ensures { result ≡ starts (first first_of form.list) self.now }
    {
        self.sees(TokenKind::BracketOpen)
    }

    /// Whether the next token begins a set of records that are looked for.
    #[tactic(auto, unfolding(text_tree::specs::ExprGrammar::found, text_tree::specs::ExprGrammar::find))]
    pub fn begins_found(&self) -> bool
        ensures { result ≡ starts (first first_of form.found) self.now }
    {
        self.sees_upper()
    }

    /// Whether the next token begins what is added to a set or taken away.
    #[tactic(auto, unfolding(text_tree::specs::ExprGrammar::set_step))]
    pub fn begins_step(&self) -> bool
        ensures { result ≡ starts (first first_of form.set_step) self.now }
    {
        self.sees(TokenKind::Plus) || self.sees(TokenKind::Minus)
    }

    /// Whether the next token begins `map`.
    #[tactic(auto, unfolding(text_tree::specs::ExprGrammar::map_step))]
    pub fn begins_map(&self) -> bool
        ensures { result ≡ starts (first first_of form.map_step) self.now }
    {
        self.sees_word(TokenKind::Lower, b"map")
    }

    /// Whether the next token is the sign of a comparison.
    #[tactic(auto, unfolding(text_tree::specs::ExprGrammar::cmp_op))]
    pub fn begins_cmp(&self) -> bool
        ensures { result ≡ starts (first first_of compare_form) self.now }
    {
        self.sees(TokenKind::EqEq)
            || self.sees(TokenKind::NotEq)
            || self.sees(TokenKind::Less)
            || self.sees(TokenKind::LessEq)
            || self.sees(TokenKind::Greater)
            || self.sees(TokenKind::GreaterEq)
    }

    /// Whether the next token begins a path.
    #[tactic(auto, unfolding(text_tree::specs::ExprGrammar::path, text_tree::specs::ExprGrammar::path_root))]
    pub fn begins_path(&self) -> bool
        ensures { result ≡ starts (first first_of form.path) self.now }
    {
        self.sees_lower() || self.sees(TokenKind::ParenOpen)
    }

    /// Whether the next token begins a value that is written out, or a path.
    #[tactic(auto, using(crate::proofs::Starts::starts_append), unfolding(text_tree::specs::ExprGrammar::atom))]
    fn begins_atom(&self) -> bool
        ensures { result ≡ starts (first first_of form.atom) self.now }
    {
        if self.begins_flag() || self.begins_number() {
            return true;
        }
        self.begins_literal() || self.begins_option() || self.begins_path()
    }
    /// Whether the next token begins an expression.
    #[tactic(auto, using(crate::proofs::Starts::expression_starts))]
    pub fn begins_expr(&self) -> bool
        ensures { result ≡ starts (first_of Expression) self.now }
    {
        if self.begins_if() || self.begins_match() {
            return true;
        }
        self.sees(TokenKind::Not) || self.begins_atom()
    }

    /// Whether the next token begins an item of a list.
    #[tactic(auto, using(crate::proofs::Starts::starts_append), unfolding(text_tree::specs::ExprGrammar::item_form))]
    pub fn begins_item(&self) -> bool
        ensures { result ≡ starts (first first_of form.item_form) self.now }
    {
        self.sees_upper() || self.begins_expr()
    }

    /// Whether the next token begins a set without a choice, a sum or a difference.
    #[tactic(auto, using(crate::proofs::Starts::term_starts))]
    fn begins_term(&self) -> bool
        ensures { result ≡ starts (first first_of form.set_term) self.now }
    {
        if self.sees_word(TokenKind::Lower, b"public")
            || self.sees_word(TokenKind::Lower, b"none")
        {
            return true;
        }
        if self.begins_list() || self.sees(TokenKind::ParenOpen) {
            return true;
        }
        self.begins_found() || self.sees_lower()
    }

    /// Whether the next token begins a set.
    #[tactic(auto, using(crate::proofs::Starts::set_starts))]
    pub fn begins_set(&self) -> bool
        ensures { result ≡ starts (first_of Set) self.now }
    {
        self.begins_if_set() || self.begins_match_set() || self.begins_term()
    }

    /// What was read, unless something is added to it or taken away next.
    pub fn unless_step<T: Drop>(&self, read: T) -> Result<T, Stop>
        ensures { Reads
            (if starts (first first_of form.set_step) self.now then Stuck NotGrammar self.now else
            Got read self.now) result self.now }
    {
        if self.begins_step() {
            Err(Stop::NotGrammar)
        } else {
            Ok(read)
        }
    }
}
