use crate::expression::{Expr, Tree};
use dg_types::{MapKeyVal, Name, TypeUse};
use sqlite_items::Items;

/// A parameter of a class, of a module member or of its constructor.
#[derive(Drop)]
pub struct Param {
    pub name: Name,
    pub shape: TypeUse,
}

/// How a module member contributes to a set or a map, after Dagger's multibindings.
#[derive(Drop)]
pub enum Mark {
    /// `@IntoSet`: its result is an element.
    IntoSet,
    /// `@ElementsIntoSet`: the members of its result are elements.
    ElementsIntoSet,
    /// `@IntoMap @StringKey("k")` or `@IntoMap @IntKey(i)`: its result is the entry of this key.
    IntoMap(MapKeyVal),
}

/// An argument of an `open` line, for a bound instance of the component.
#[derive(Drop)]
pub struct OpenArg {
    pub name: Name,
    pub value: Expr,
}

/// A step of an `ask` line from a value to a part of it.
#[derive(Drop)]
pub enum AskStep {
    /// `.N`: a field of an object.
    Field(Name),
    /// `!`: what a Provider or a Lazy gives.
    Get,
    /// `?`: what is inside an optional.
    Inside,
    /// `["k"]` or `[i]`: the entry of a map with this key.
    At(MapKeyVal),
}

/// What one line declares, opens, ties, closes or asks.
#[derive(Drop)]
pub enum Item {
    /// `qualifier N`, or `qualifier N(Text)` for one with a member.
    QualifierLine {
        name: Name,
        member: bool,
    },
    /// `scope N`
    ScopeLine {
        name: Name,
    },
    /// `interface N`
    Interface {
        name: Name,
    },
    /// [`@Inject` [`@S`]] `class N(PARAMS)` [`: N, ..`]. The parameters are the fields of its
    /// objects, and with `@Inject` those of its constructor.
    Class {
        inject: bool,
        scope: Option<Name>,
        name: Name,
        params: Items<Param>,
        interfaces: Items<Name>,
    },
    /// [`@InstallIn(N)`] `module N` [`includes N, ..`] `{`
    Module {
        install: Option<Name>,
        name: Name,
        includes: Items<Name>,
    },
    /// `@TestInstallIn(N) module N replaces N, ..` [`includes N, ..`] `{`. It has the member lines
    /// of a module and counts as one in every rule.
    TestModule {
        install: Name,
        name: Name,
        replaces: Items<Name>,
        includes: Items<Name>,
    },
    /// [`@S` ..] `component N` [`in N`] [`modules N, ..`] `{`
    Component {
        scopes: Items<Name>,
        name: Name,
        parent: Option<Name>,
        modules: Items<Name>,
    },
    /// [`@S` ..] `defineComponent N in N {`
    DefineComponent {
        scopes: Items<Name>,
        name: Name,
        parent: Name,
    },
    /// `@InstallIn(N) entryPoint N {`
    EntryPoint {
        install: Name,
        name: Name,
    },
    /// [MARK] [`@S`] `provides N(PARAMS) : USE = EXPR`
    Provides {
        mark: Option<Mark>,
        scope: Option<Name>,
        name: Name,
        params: Items<Param>,
        result: TypeUse,
        body: Expr,
    },
    /// [MARK] [`@S`] `binds N(PARAM) : USE`
    Binds {
        mark: Option<Mark>,
        scope: Option<Name>,
        name: Name,
        param: Param,
        result: TypeUse,
    },
    /// [MARK] `produces N(PARAMS) : USE = TREE`
    Produces {
        mark: Option<Mark>,
        name: Name,
        params: Items<Param>,
        result: TypeUse,
        body: Tree,
    },
    /// `bindsOptionalOf N : USE`
    OptionalOf {
        name: Name,
        result: TypeUse,
    },
    /// `multibinds N : USE`
    Multibinds {
        name: Name,
        result: TypeUse,
    },
    /// `bindsInstance N : USE`
    BindsInstance {
        name: Name,
        result: TypeUse,
    },
    /// `dependsOn N`
    DependsOn {
        name: Name,
    },
    /// `entry N : USE`
    Entry {
        name: Name,
        result: TypeUse,
    },
    /// `}`
    End,
    /// `open N : N` [`in N`] [`with N = CONST, ..`]
    OpenLine {
        name: Name,
        class: Name,
        parent: Option<Name>,
        args: Items<OpenArg>,
    },
    /// `link N to N`
    Link {
        from: Name,
        to: Name,
    },
    /// `ask N.N` and steps
    AskLine {
        inst: Name,
        entry: Name,
        steps: Items<AskStep>,
    },
}
