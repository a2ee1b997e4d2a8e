use dg_types::{Name, Text};
use sqlite_items::{Boxed, Items};

/// A function that takes expressions.
#[derive(Clone, Copy, Debug, PartialEq, Eq)]
pub enum CallName {
    /// `cat(EXPR, ..)`: the texts, one after another.
    Cat,
    /// `text(EXPR)`: an integer in decimal.
    TextOf,
    /// `size(EXPR)`: the number of bytes, elements or entries.
    Size,
    /// `set(EXPR, ..)`: a set.
    SetOf,
    /// `fail(EXPR)`: a failure with this message.
    Fail,
}

/// A function that takes the name of a parameter.
#[derive(Clone, Copy, Debug, PartialEq, Eq)]
pub enum ParamCall {
    /// `get(N)`: what a Provider or a Lazy gives.
    Get,
    /// `value(N)`: the value of a Produced.
    Value,
    /// `values(N)`: the values among the entries of a set or map of Produced.
    Values,
    /// `failure(N)`: the message of a Produced that failed.
    Failure,
}

/// An expression of a body or of an argument. Parentheses aren't kept.
#[cycle(expression)]
#[derive(Drop)]
pub enum Expr {
    /// A text, by its value.
    Text(Text),
    /// An integer.
    Int(i64),
    /// A parameter, by its name.
    Param(Name),
    /// `new C(EXPR, ..)`: a new object of the class, with its fields in declared order.
    New {
        class: Name,
        args: Items<Expr>,
    },
    /// `EXPR.N`: a field of an object.
    Field {
        of: Boxed<Expr>,
        field: Name,
    },
    /// `EXPR + EXPR`: the sum of two integers.
    Sum(Boxed<Expr>, Boxed<Expr>),
    /// `if COND then EXPR else EXPR`
    If {
        cond: Boxed<Cond>,
        yes: Boxed<Expr>,
        no: Boxed<Expr>,
    },
    /// A function of expressions. All but `cat` and `set` have one argument.
    Call {
        f: CallName,
        args: Items<Expr>,
    },
    /// A function of a parameter.
    ByName {
        f: ParamCall,
        param: Name,
    },
    /// `orElse(N, EXPR)`: what is inside an optional, or else the other.
    OrElse {
        param: Name,
        other: Boxed<Expr>,
    },
}

/// A condition of an `if`.
#[cycle(expression)]
#[derive(Drop)]
pub enum Cond {
    /// `EXPR == EXPR`, of two texts or two integers.
    Equal(Boxed<Expr>, Boxed<Expr>),
    /// `EXPR < EXPR`, of two integers.
    Less(Boxed<Expr>, Boxed<Expr>),
    /// `has(N)`: whether an optional is present.
    Has(Name),
    /// `ok(N)`: whether a Produced is a value.
    IsOk(Name),
}

/// The body of a producer: a decision tree, whose leaves are expressions and producers to wait for.
/// This project's own.
#[derive(Drop)]
pub enum Tree {
    /// An expression.
    Leaf(Expr),
    /// `await N`: the result of the producer that a parameter starts.
    Await(Name),
    /// `if COND then TREE else TREE`
    If {
        cond: Cond,
        yes: Boxed<Tree>,
        no: Boxed<Tree>,
    },
}
