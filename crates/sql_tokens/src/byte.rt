//! What a byte can begin.

ghost use Rattle.std.specs.Prelude.{◌≡◌};
ghost use Rattle.sql_tokens.specs.Byte.{class_of, is_blank, in_word, in_number, in_quotes};

/// What a byte can begin.
#[derive(Clone, Copy, Debug, PartialEq, Eq)]
pub enum Class {
    Blank,
    Letter,
    Digit,
    Quote,
    Apostrophe,
    Other,
}

#[tactic(auto, unfolding(crate::specs::Byte::class_of))]
pub fn class_of(b: u8) -> Class
    ensures { result ≡ class_of b }
{
    if b == b' ' || b == 9 || b == 10 || b == 13 {
        Class::Blank
    } else if b.is_ascii_uppercase() || b.is_ascii_lowercase() || b == b'_' {
        Class::Letter
    } else if b.is_ascii_digit() {
        Class::Digit
    } else if b == b'"' {
        Class::Quote
    } else if b == b'\'' {
        Class::Apostrophe
    } else {
        Class::Other
    }
}

pub fn is_blank(b: u8) -> bool
    ensures { result ≡ is_blank (class_of b) }
{
    matches!(class_of(b), Class::Blank)
}

pub fn in_word(b: u8) -> bool
    ensures { result ≡ in_word b }
{
    matches!(class_of(b), Class::Letter | Class::Digit)
}

pub fn in_number(b: u8) -> bool
    ensures { result ≡ in_number b }
{
    matches!(class_of(b), Class::Digit)
}

pub fn in_quotes(b: u8) -> bool
    ensures { result ≡ in_quotes b }
{
    b >= 32 && b <= 126 && b != 34
}
