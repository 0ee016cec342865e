//! The words that the grammar keeps for itself.

ghost use Rattle.std.specs.Prelude.{◌≡◌};
ghost use Rattle.std.specs.Str.{bytes_eq};
ghost use Rattle.text_ast.specs.Words as words;

/// Whether a word is this reserved one.
fn is(word: &[u8], reserved: &[u8]) -> bool
    ensures { result ≡ bytes_eq word.now reserved.now }
{
    word == reserved
}

/// Whether a word that begins with a lower-case letter is reserved.
#[tactic(auto, unfolding(text_ast::specs::Words::is_reserved_lower))]
pub fn is_reserved_lower(word: &[u8]) -> bool
    ensures { result ≡ words.is_reserved_lower word.now }
{
    is(word, b"static")
        || is(word, b"principal")
        || is(word, b"model")
        || is(word, b"create")
        || is(word, b"delete")
        || is(word, b"read")
        || is(word, b"write")
        || is(word, b"public")
        || is(word, b"none")
        || is(word, b"some")
        || is(word, b"if")
        || is(word, b"then")
        || is(word, b"else")
        || is(word, b"match")
        || is(word, b"with")
        || is(word, b"in")
        || is(word, b"has")
        || is(word, b"true")
        || is(word, b"false")
        || is(word, b"map")
        || is(word, b"flat_map")
        || is(word, b"self")
}

/// Whether a word names a type or is `Find`.
#[tactic(auto, unfolding(text_ast::specs::Words::is_type_word))]
fn is_type_word(word: &[u8]) -> bool
    ensures { result ≡ words.is_type_word word.now }
{
    is(word, b"Bool")
        || is(word, b"Int")
        || is(word, b"Text")
        || is(word, b"Id")
        || is(word, b"Set")
        || is(word, b"Option")
        || is(word, b"Find")
}

/// Whether a word names a command.
#[tactic(auto, unfolding(text_ast::specs::Words::is_command_word))]
fn is_command_word(word: &[u8]) -> bool
    ensures { result ≡ words.is_command_word word.now }
{
    is(word, b"CreateModel")
        || is(word, b"DeleteModel")
        || is(word, b"AddField")
        || is(word, b"RemoveField")
        || is(word, b"UpdateFieldPolicy")
        || is(word, b"WeakenFieldPolicy")
        || is(word, b"UpdatePolicy")
        || is(word, b"WeakenPolicy")
        || is(word, b"AddStatic")
        || is(word, b"RemoveStatic")
        || is(word, b"AddPrincipal")
}

/// Whether a word that begins with an upper-case letter is reserved.
pub fn is_reserved_upper(word: &[u8]) -> bool
    ensures { result ≡ words.is_reserved_upper word.now }
{
    is_type_word(word) || is_command_word(word)
}
