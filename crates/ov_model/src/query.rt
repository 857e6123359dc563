//! What queries say, and the symbols that spell them.
//!
//! Their lists are `Seq`s and a condition within another is `Boxed`, so that contracts see plain data: the list, and the
//! condition.

use ov_value::{Txt, Value};
use sqlite_items::{Boxed, Items as Seq};

/// A query over the versions of one dataset.
#[derive(Drop)]
pub struct Query {
    pub items: Items,
    pub source: Src,
    /// WHERE, which has no COUNT, SUM, MIN or MAX.
    pub filter: Option<Cond>,
    /// GROUP BY; no columns where it is missing.
    pub groups: Seq<Col>,
    /// HAVING, which stands only beside GROUP BY.
    pub having: Option<Cond>,
    /// ORDER BY, the first key counting most.
    pub order: Seq<Key>,
    /// How many rows at most.
    pub limit: Option<u64>,
}

/// What a row of the answer has.
#[derive(Drop)]
pub enum Items {
    /// Every column of the schema.
    Everything,
    /// These, at least one.
    Terms(Seq<Term>),
}

/// The versions that a query reads.
#[derive(Drop)]
pub enum Src {
    /// The listed ones, at least one, in this order.
    Listed {
        vids: Seq<u64>,
        cvd: Txt,
    },
    /// All of the dataset.
    Whole {
        cvd: Txt,
    },
    /// Those that stand in this lineage of one version.
    Lineage {
        kind: LineageKind,
        vid: u64,
        cvd: Txt,
    },
}

/// Which relatives of a version.
#[derive(Clone, Copy, PartialEq, Eq)]
pub enum LineageKind {
    Parents,
    Ancestors,
    Descendants,
}

/// A column. No query spells `Left` or `Right`: they are of joins.
#[derive(Drop)]
pub enum Col {
    /// The number of the row's version.
    Vid,
    Name(Txt),
    Left(Txt),
    Right(Txt),
}

/// A column, or an aggregate over a group.
#[derive(Drop)]
pub enum Term {
    Plain(Col),
    /// How many pairs of version and row there are.
    CountAll,
    /// How many of them have a value in the column.
    Count(Col),
    Sum(Col),
    Min(Col),
    Max(Col),
}

/// A key of ORDER BY.
#[derive(Drop)]
pub struct Key {
    pub term: Term,
    /// Whether the greatest comes first.
    pub down: bool,
}

/// A side of a comparison.
#[derive(Drop)]
pub enum Operand {
    Term(Term),
    /// A value that is not NULL.
    Literal(Value),
}

/// How the sides of a comparison are compared.
#[derive(Clone, Copy, PartialEq, Eq)]
pub enum Sign {
    Eq,
    Ne,
    Lt,
    Le,
    Gt,
    Ge,
}

/// A condition. The bool of `IsNull`, `InLineage` and `InList` is true for NOT.
#[derive(Drop)]
pub enum Cond {
    Compare(Operand, Sign, Operand),
    IsNull(Operand, bool),
    /// The version is in this lineage of the version with this number.
    InLineage(LineageKind, u64, bool),
    /// The version is one of these. No text spells it: it stands where a lineage's versions were put in its place.
    InList(Seq<u32>, bool),
    Not(Boxed<Cond>),
    /// All of these, at least two.
    Every(Seq<Cond>),
    /// One of these, at least two.
    Any(Seq<Cond>),
}

/// A side of a join.
#[derive(Drop)]
pub struct Side {
    pub vid: u64,
    pub cvd: Txt,
}

/// A query over two versions side by side.
#[derive(Drop)]
pub struct JoinQuery {
    pub left: Side,
    pub right: Side,
    pub items: Items,
    /// The columns of the left and the right side that have to be equal.
    pub on: Seq<(Txt, Txt)>,
    pub filter: Option<Cond>,
    pub order: Seq<Key>,
    pub limit: Option<u64>,
}

/// A keyword or a sign.
#[derive(Clone, Copy, PartialEq, Eq)]
pub enum Fixed {
    Select,
    From,
    Version,
    Of,
    Cvd,
    Where,
    Group,
    By,
    Having,
    Order,
    Limit,
    Asc,
    Desc,
    And,
    Or,
    Not,
    Count,
    Sum,
    Min,
    Max,
    True,
    False,
    Vid,
    Is,
    Null,
    Join,
    On,
    Left,
    Right,
    Parents,
    Ancestors,
    Descendants,
    In,
    Star,
    Comma,
    Open,
    Close,
    Semicolon,
    Dot,
    Equal,
    Unequal,
    Less,
    LessOrEqual,
    Greater,
    GreaterOrEqual,
}

/// What a token says.
#[derive(Drop)]
pub enum Symbol {
    /// A keyword, in any case of letters, or a sign. `!=` says the same as `<>`.
    Fixed(Fixed),
    /// A word that is no keyword, or what stands between double quotes.
    Name(Txt),
    /// A number, and whether it has a minus sign.
    Number { value: i64, minus: bool },
    /// What stands between single quotes, where two say one.
    Text(Txt),
}
