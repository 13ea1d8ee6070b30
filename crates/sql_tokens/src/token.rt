//! Tokens, each with its place in the text.

ghost use Rattle.std.specs.Prelude.{◌≡◌, true, MatchOption};
ghost use Rattle.sql_tokens.specs.Fixed.{is_sign, spelling};

/// Keywords and signs.
#[derive(Clone, Copy, Debug, PartialEq, Eq)]
pub enum Fixed {
    Select,
    From,
    Where,
    Group,
    By,
    Order,
    Asc,
    Desc,
    Limit,
    And,
    Or,
    Not,
    Between,
    In,
    Date,
    Count,
    Sum,
    Avg,
    Min,
    Max,
    Is,
    Null,
    Open,
    Close,
    Comma,
    Star,
    Plus,
    Minus,
    Semicolon,
    Equal,
    NotEqual,
    Less,
    LessEqual,
    Greater,
    GreaterEqual,
}

/// The words that are no names.
pub const KEYWORDS: [Fixed; 22] = [
    Fixed::Select,
    Fixed::From,
    Fixed::Where,
    Fixed::Group,
    Fixed::By,
    Fixed::Order,
    Fixed::Asc,
    Fixed::Desc,
    Fixed::Limit,
    Fixed::And,
    Fixed::Or,
    Fixed::Not,
    Fixed::Between,
    Fixed::In,
    Fixed::Date,
    Fixed::Count,
    Fixed::Sum,
    Fixed::Avg,
    Fixed::Min,
    Fixed::Max,
    Fixed::Is,
    Fixed::Null,
];

impl Fixed {
    /// How it is written, in capitals.
    pub fn spelling(self) -> &'static [u8]
        ensures { result.now ≡ spelling self }
    {
        match self.keyword() {
            Some(word) => word,
            None => self.sign(),
        }
    }

    // The letters of a keyword.
    fn keyword(self) -> Option<&'static [u8]>
        ensures { MatchOption result (is_sign self ≡ true) (λ word. word.now ≡ spelling self) }
    {
        match self {
            Fixed::Select => Some(b"SELECT"),
            Fixed::From => Some(b"FROM"),
            Fixed::Where => Some(b"WHERE"),
            Fixed::Group => Some(b"GROUP"),
            Fixed::By => Some(b"BY"),
            Fixed::Order => Some(b"ORDER"),
            Fixed::Asc => Some(b"ASC"),
            Fixed::Desc => Some(b"DESC"),
            Fixed::Limit => Some(b"LIMIT"),
            Fixed::And => Some(b"AND"),
            Fixed::Or => Some(b"OR"),
            Fixed::Not => Some(b"NOT"),
            Fixed::Between => Some(b"BETWEEN"),
            Fixed::In => Some(b"IN"),
            Fixed::Date => Some(b"DATE"),
            Fixed::Count => Some(b"COUNT"),
            Fixed::Sum => Some(b"SUM"),
            Fixed::Avg => Some(b"AVG"),
            Fixed::Min => Some(b"MIN"),
            Fixed::Max => Some(b"MAX"),
            Fixed::Is => Some(b"IS"),
            Fixed::Null => Some(b"NULL"),
            _ => None,
        }
    }

    // The bytes of a sign.
    fn sign(self) -> &'static [u8]
        requires { is_sign self ≡ true }
        ensures { result.now ≡ spelling self }
    {
        match self {
            Fixed::Open => b"(",
            Fixed::Close => b")",
            Fixed::Comma => b",",
            Fixed::Star => b"*",
            Fixed::Plus => b"+",
            Fixed::Minus => b"-",
            Fixed::Semicolon => b";",
            Fixed::Equal => b"=",
            Fixed::NotEqual => b"<>",
            Fixed::Less => b"<",
            Fixed::LessEqual => b"<=",
            Fixed::Greater => b">",
            Fixed::GreaterEqual => b">=",
            _ => unreachable!(),
        }
    }
}

/// What a number says: its units where they are at most 2 to the 63, and how many of their digits stand behind the point.
#[derive(Clone, Copy, Debug, PartialEq, Eq)]
pub struct Number {
    pub units: Option<u64>,
    pub scale: u16,
}

#[derive(Debug, Drop)]
pub enum Kind {
    Fixed(Fixed),
    Name(Vec<u8>),
    Number(Number),
    Str(Vec<u8>),
}

#[derive(Debug, Drop)]
pub struct Token {
    pub at: usize,
    pub kind: Kind,
}
