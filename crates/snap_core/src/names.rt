//! How names of a program and of its network are spelled.

ghost use Rattle.std.specs.Prelude.{◌≡◌, ◌&&◌, ◌||◌};
ghost use Rattle.std.specs.List.{list_all};
ghost use Rattle.snap_core.specs.Names.{begins_plain, goes_on, is_joint, is_keyword, is_letter, is_name, is_name_byte, is_plain, is_switch_name, is_word};
ghost use Rattle.snap_core.specs.Keywords.{begins_declaration, belongs_to_choice, is_constant};

fn is_letter(byte: u8) -> bool
    ensures { result ≡ is_letter byte }
{
    byte.is_ascii_uppercase() || byte.is_ascii_lowercase() || byte == b'_'
}

fn is_plain(byte: u8) -> bool
    ensures { result ≡ is_plain byte }
{
    is_letter(byte) || byte.is_ascii_digit()
}

fn is_joint(byte: u8) -> bool
    ensures { result ≡ is_joint byte }
{
    byte == b'.' || byte == b'-'
}

fn begins_plain(text: &[u8]) -> bool
    ensures { result ≡ begins_plain text.now }
{
    match text.split_first() {
        Some((byte, _rest)) => is_plain(*byte),
        None => false,
    }
}

fn stays(byte: u8, rest: &[u8]) -> bool
    ensures { result ≡ (is_plain byte || (is_joint byte && begins_plain rest.now)) }
{
    is_plain(byte) || (is_joint(byte) && begins_plain(rest))
}

/// Whether a text is letters, digits, `_`, and joints where one of these follows.
fn goes_on(text: &[u8]) -> bool
    ensures { result ≡ goes_on text.now }
{
    let mut rest = text;
    while let Some((byte, more)) = rest.split_first() {
        if !stays(*byte, more) {
            return false;
        }
        rest = more;
    }
    true
}

fn is_word(text: &[u8]) -> bool
    ensures { result ≡ is_word text.now }
{
    match text.split_first() {
        Some((byte, rest)) => is_letter(*byte) && goes_on(rest),
        None => false,
    }
}

fn begins_declaration(word: &str) -> bool
    ensures { result ≡ begins_declaration word.now }
{
    word == "field" || word == "array" || word == "const" || word == "let"
}

fn belongs_to_choice(word: &str) -> bool
    ensures { result ≡ belongs_to_choice word.now }
{
    word == "if" || word == "then" || word == "else"
}

fn is_constant(word: &str) -> bool
    ensures { result ≡ is_constant word.now }
{
    word == "id" || word == "drop" || word == "atomic" || word == "True" || word == "False"
}

fn is_keyword(word: &str) -> bool
    ensures { result ≡ is_keyword word.now }
{
    begins_declaration(word) || belongs_to_choice(word) || is_constant(word)
}

/// Whether a text is a name of a program: a word that is no keyword.
pub fn is_name(text: &str) -> bool
    ensures { result ≡ is_name text.now }
{
    is_word(text.as_bytes()) && !is_keyword(text)
}

fn is_name_byte(byte: u8) -> bool
    ensures { result ≡ is_name_byte byte }
{
    byte.is_ascii_alphanumeric() || byte == b'_' || byte == b'.' || byte == b'-'
}

fn has_name_bytes(text: &[u8]) -> bool
    ensures { result ≡ list_all is_name_byte text.now }
{
    text.iter().all(|b| is_name_byte(*b))
}

/// Whether a text is a name of a switch: letters, digits, `_`, `.` and `-`, one at least.
pub fn is_switch_name(text: &[u8]) -> bool
    ensures { result ≡ is_switch_name text.now }
{
    !text.is_empty() && has_name_bytes(text)
}
