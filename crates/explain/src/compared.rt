//! The column that a value of a condition is compared with.

use sql_tokens::{Fixed, Kind, Token};

// Whether a token is this keyword or sign.
fn is_fixed(token: Option<&Token>, wanted: Fixed) -> bool {
    match token {
        Some(token) => match &token.kind {
            Kind::Fixed(fixed) => *fixed == wanted,
            _ => false,
        },
        None => false,
    }
}

// Whether a token compares.
fn compares(token: Option<&Token>) -> bool {
    is_fixed(token, Fixed::Equal)
        || is_fixed(token, Fixed::NotEqual)
        || is_fixed(token, Fixed::Less)
        || is_fixed(token, Fixed::LessEqual)
        || is_fixed(token, Fixed::Greater)
        || is_fixed(token, Fixed::GreaterEqual)
}

// Whether a token is a part of a list of values, or of the value in front of an AND.
fn is_of_values(token: Option<&Token>) -> bool {
    match token {
        Some(token) => match &token.kind {
            Kind::Number(_) | Kind::Str(_) => true,
            Kind::Fixed(fixed) => matches!(
                fixed,
                Fixed::Minus | Fixed::Date | Fixed::Comma | Fixed::Open | Fixed::And
            ),
            Kind::Name(_) => false,
        },
        None => false,
    }
}

// The tokens with which the value at this place of the list begins: a minus or DATE may stand before it.
fn value_front(tokens: &[Token], place: usize) -> usize {
    let before = place.saturating_sub(1);
    if before < place
        && (is_fixed(tokens.get(before), Fixed::Minus)
            || is_fixed(tokens.get(before), Fixed::Date))
    {
        before
    } else {
        place
    }
}

// The place of the last token up to this place that is of no list of values.
fn before_values(tokens: &[Token], place: usize) -> usize {
    for step in 0..place {
        let at = place.saturating_sub(step);
        if !is_of_values(tokens.get(at)) {
            return at;
        }
    }
    0
}

// The name of the column that the value at this place of the list is compared with, by a comparison, BETWEEN or IN before it.
pub(crate) fn compared_name(tokens: &[Token], place: usize) -> Option<&[u8]> {
    let mut at = value_front(tokens, place).checked_sub(1)?;
    if !compares(tokens.get(at)) {
        at = before_values(tokens, at);
        if !is_fixed(tokens.get(at), Fixed::Between) && !is_fixed(tokens.get(at), Fixed::In) {
            return None;
        }
    }
    at = at.checked_sub(1)?;
    if is_fixed(tokens.get(at), Fixed::Not) {
        at = at.checked_sub(1)?;
    }
    match &tokens.get(at)?.kind {
        Kind::Name(name) => Some(name.as_slice()),
        _ => None,
    }
}
