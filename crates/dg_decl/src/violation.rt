use dg_types::Text;

/// A rule that a document can break, in the order in which the rules are judged. Each stage is
/// judged only where the stages before it found nothing. The names of five are Dagger's; the others
/// are this project's own.
#[derive(Clone, Copy, Debug, PartialEq, Eq)]
pub enum Rule {
    // names
    DuplicateName,
    UnknownName,
    // types
    BadType,
    OptionalOfInject,
    TypeMismatch,
    // components
    ParentCycle,
    AncestorScope,
    DuplicateEntry,
    BadReplace,
    // dependencies
    BadDependsOn,
    // bindings
    MissingBinding,
    DuplicateBindings,
    IncompatiblyScopedBindings,
    IncompatiblyScopedMember,
    MapKeys,
    DependsOnProduction,
    OptionalProduction,
    DependencyCycle,
    CallCycle,
    // sizes
    TooDeep,
    TooHeavy,
    // session
    UnknownInstance,
    WrongParent,
    BadArgument,
    UnknownEntry,
    BadPath,
    // links
    UnknownLinked,
    WrongDependency,
    MissingLink,
}

/// A rule that is broken, what breaks it, and what more there is to say. The site is a line, a node
/// of the graph or a request of one.
#[derive(Drop)]
pub struct Violation {
    pub rule: Rule,
    pub site: Text,
    pub detail: Option<Text>,
}
