//! What a query says. Names and numbers carry their places in the text.

/// Bytes of a text.
pub type Text = Vec<u8>;

#[derive(Debug, Drop)]
pub struct Named {
    pub at: usize,
    pub name: Text,
}

/// A number of `units`, of which so many digits stand behind the point. A signed one has the place of its digits.
#[derive(Clone, Copy, Debug, PartialEq, Eq)]
pub struct Num {
    pub at: usize,
    pub units: i64,
    pub scale: u16,
}

#[derive(Debug, Drop)]
pub enum ExprTree {
    Column(Named),
    Number(Num),
    Add(Box<ExprTree>, Box<ExprTree>),
    Sub(Box<ExprTree>, Box<ExprTree>),
    /// `at` is the place of the sign.
    Mul {
        at: usize,
        left: Box<ExprTree>,
        right: Box<ExprTree>,
    },
}

/// Which aggregate is asked for.
#[derive(Clone, Copy, Debug, PartialEq, Eq)]
pub enum CallKind {
    Count,
    Sum,
    Avg,
    Min,
    Max,
}

#[derive(Debug, Drop)]
pub enum ItemTree {
    Column(Named),
    /// COUNT(*), which has no argument.
    Count,
    Call { kind: CallKind, arg: ExprTree },
}

#[derive(Debug, Drop)]
pub enum Select {
    Items(Vec<ItemTree>),
    Star,
}

/// How two values are compared: by =, <>, <, <=, > or >=.
#[derive(Clone, Copy, Debug, PartialEq, Eq)]
pub enum Comparison {
    Eq,
    Ne,
    Lt,
    Le,
    Gt,
    Ge,
}

#[derive(Debug, Drop)]
pub enum Value {
    Number(Num),
    Str { at: usize, text: Text },
    /// `at` is the place of DATE.
    Day { at: usize, text: Text },
}

#[derive(Debug, Drop)]
pub enum PredTree {
    Compare {
        column: Named,
        op: Comparison,
        value: Value,
    },
    Columns {
        left: Named,
        op: Comparison,
        right: Named,
    },
    Between {
        column: Named,
        low: Value,
        high: Value,
    },
    OneOf {
        column: Named,
        values: Vec<Value>,
    },
    IsNull {
        column: Named,
    },
    Not(Box<PredTree>),
    And(Box<PredTree>, Box<PredTree>),
    Or(Box<PredTree>, Box<PredTree>),
}

#[derive(Debug, Drop)]
pub enum Ending {
    Nothing,
    Group(Vec<Named>),
    Order { key: Named, down: bool, limit: Num },
}

/// A whole query. Its head is `Star` exactly where its ending is `Order`.
#[derive(Debug, Drop)]
pub struct Tree {
    pub head: Select,
    pub table: Named,
    pub pred: Option<PredTree>,
    pub ending: Ending,
}
