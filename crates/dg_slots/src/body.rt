use dg_decl::{CallName, ParamCall};
use dg_types::Text;
use sqlite_items::{Boxed, Items};

/// An expression by numbers: as `Expr`, with the number of each parameter, class and field in place
/// of its name. Numbers of parameters and fields count from 0. Classes are numbered 0 to 5 for
/// Application, Service, SavedStateHandle, Activity, Fragment and View, and from 6 on by the
/// `class` lines in order.
#[cycle(expression)]
#[derive(Drop)]
pub enum NExpr {
    Text(Text),
    Int(i64),
    Param(u32),
    New {
        class: u32,
        args: Items<NExpr>,
    },
    Field {
        of: Boxed<NExpr>,
        field: u32,
    },
    Sum(Boxed<NExpr>, Boxed<NExpr>),
    If {
        cond: Boxed<NCond>,
        yes: Boxed<NExpr>,
        no: Boxed<NExpr>,
    },
    Call {
        f: CallName,
        args: Items<NExpr>,
    },
    ByName {
        f: ParamCall,
        param: u32,
    },
    OrElse {
        param: u32,
        other: Boxed<NExpr>,
    },
}

/// A condition by numbers.
#[cycle(expression)]
#[derive(Drop)]
pub enum NCond {
    Equal(Boxed<NExpr>, Boxed<NExpr>),
    Less(Boxed<NExpr>, Boxed<NExpr>),
    Has(u32),
    IsOk(u32),
}

/// A decision tree by numbers.
#[derive(Drop)]
pub enum NTree {
    Leaf(NExpr),
    Await(u32),
    If {
        cond: NCond,
        yes: Boxed<NTree>,
        no: Boxed<NTree>,
    },
}
