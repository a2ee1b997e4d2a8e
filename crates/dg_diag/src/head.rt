ghost use Rattle.std.specs.Prelude.{◌≡◌};
ghost use Rattle.dg_diag.specs.Lines as spec;

use dg_decl::Rule;

/// The head of a rule, with which its line begins: where the rule is from, and its name. Two rules
/// on scopes share Dagger's head, and two on names of instances this project's.
pub fn head_of(rule: Rule) -> &'static [u8]
    ensures exact { result.now ≡ spec.head_of rule }
{
    match rule {
        Rule::DuplicateName => b"[Own/DuplicateName]",
        Rule::UnknownName => b"[Own/UnknownName]",
        Rule::BadType => b"[Own/BadType]",
        Rule::OptionalOfInject => b"[Own/OptionalOfInject]",
        Rule::TypeMismatch => b"[Own/TypeMismatch]",
        Rule::ParentCycle => b"[Own/ParentCycle]",
        Rule::AncestorScope => b"[Own/AncestorScope]",
        Rule::DuplicateEntry => b"[Own/DuplicateEntry]",
        Rule::BadReplace => b"[Own/BadReplace]",
        Rule::BadDependsOn => b"[Own/BadDependsOn]",
        Rule::MissingBinding => b"[Dagger/MissingBinding]",
        Rule::DuplicateBindings => b"[Dagger/DuplicateBindings]",
        Rule::IncompatiblyScopedBindings => b"[Dagger/IncompatiblyScopedBindings]",
        Rule::IncompatiblyScopedMember => b"[Dagger/IncompatiblyScopedBindings]",
        Rule::MapKeys => b"[Dagger/MapKeys]",
        Rule::DependsOnProduction => b"[Own/DependsOnProduction]",
        Rule::OptionalProduction => b"[Own/OptionalProduction]",
        Rule::DependencyCycle => b"[Dagger/DependencyCycle]",
        Rule::CallCycle => b"[Own/CallCycle]",
        Rule::TooDeep => b"[Own/TooDeep]",
        Rule::TooHeavy => b"[Own/TooHeavy]",
        Rule::UnknownInstance => b"[Own/UnknownInstance]",
        Rule::WrongParent => b"[Own/WrongParent]",
        Rule::BadArgument => b"[Own/BadArgument]",
        Rule::UnknownEntry => b"[Own/UnknownEntry]",
        Rule::BadPath => b"[Own/BadPath]",
        Rule::UnknownLinked => b"[Own/UnknownInstance]",
        Rule::WrongDependency => b"[Own/WrongDependency]",
        Rule::MissingLink => b"[Own/MissingLink]",
    }
}
