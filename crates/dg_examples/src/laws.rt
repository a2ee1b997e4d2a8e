//! The worked examples.

ghost use Rattle.std.specs.Prelude.{◌≡◌, [], ◌∷◌, ◌++◌, codes, pos, Some, Ok};
ghost use Rattle.dg_decl.specs.Diagnostics.{IsAccepted};
ghost use Rattle.dg_value.specs.declared.place.PlaceRoot.TheVariants as root;
ghost use Rattle.dg_value.specs.declared.place.PlaceStep.TheVariants as step;
ghost use Rattle.dg_value.specs.declared.value.Value.TheVariants as value;
ghost use Rattle.dg_eval.specs.Runs.{cell, gives};
ghost use Rattle.dg_eval.specs.Meaning.{content_of};
ghost use Rattle.dg_eval.specs.Asks.{cells};
ghost use Rattle.dg_eval.specs.Report.{report};
ghost use Rattle.dg_examples.specs.Documents.{scoped_class, unscoped_class, parent_and_child, provider_and_lazy, two_failures, awaited, unawaited, exposed_entry};
ghost use Rattle.dg_examples.specs.Outcomes.{replies, with_value, with_failure, place, cell_of, in_lazy, menu, index, first_message};

/// A class with a scope is made once in an instance of the component that carries the scope.
///
/// ```text
/// scope PerApp
/// @Inject @PerApp class Pool()
/// @PerApp component App {
///   entry pool : Pool
/// }
/// open a : App
/// ask a.pool
/// ask a.pool
/// ```
///
/// Both asks are given the cell of `Pool`, slot 0, in the one instance. It holds an object, whose
/// identity is the place of the cell, and it is the one cell that is used.
pub fn a_scoped_class_is_made_once()
    ensures accepted { IsAccepted scoped_class }
    ensures given { replies scoped_class
        ≡ with_value (value.Held 0 0) ∷ with_value (value.Held 0 0) ∷ [] }
    ensures made { content_of scoped_class 0 0
        ≡ gives (value.Object 6 (place (root.Cell 0 0) (step.New 1 ∷ [])) []) }
    ensures used { cells scoped_class ≡ cell_of 0 0 ∷ [] }
    ensures printed { report scoped_class ≡ codes "1 Pool#1{}\n2 Pool#1\ncells 1\n" }
{}

/// The same class without its scope is made for each ask: two objects, which have the identities of
/// the two asks. No cell is used.
///
/// ```text
/// scope PerApp
/// @Inject class Pool()
/// @PerApp component App {
///   entry pool : Pool
/// }
/// open a : App
/// ask a.pool
/// ask a.pool
/// ```
pub fn an_unscoped_class_is_made_for_each_ask()
    ensures accepted { IsAccepted unscoped_class }
    ensures given { replies unscoped_class
        ≡ with_value (value.Object 6 (place (root.Ask 1) (step.Arg 1 ∷ step.New 1 ∷ [])) [])
        ∷ with_value (value.Object 6 (place (root.Ask 2) (step.Arg 1 ∷ step.New 1 ∷ [])) [])
        ∷ [] }
    ensures used { cells unscoped_class ≡ [] }
    ensures printed { report unscoped_class ≡ codes "1 Pool#1{}\n2 Pool#2{}\ncells 0\n" }
{}

/// A child adds to the set of its parent, and only for itself. What has no scope is looked up in
/// the class that asks, and what has the scope of the parent in the parent.
///
/// ```text
/// scope PerApp
/// interface Route
/// @Inject class Home() : Route
/// @Inject class Cart() : Route
/// @Inject class Help() : Route
/// @Inject class Menu(routes: Set<Route>)
/// @Inject @PerApp class Index(routes: Set<Route>)
/// module Base {
///   @IntoSet binds home(impl: Home) : Route
///   @IntoSet binds cart(impl: Cart) : Route
/// }
/// module More {
///   @IntoSet binds help(impl: Help) : Route
/// }
/// @PerApp component App modules Base {
/// }
/// component Screen in App modules More {
///   entry menu : Menu
///   entry index : Index
/// }
/// open app : App
/// open screen : Screen in app
/// ask screen.menu
/// ask screen.index
/// ```
///
/// So the menu has three routes, and the index, though the same instance asks for it, two.
pub fn a_child_adds_to_the_set_of_its_parent()
    ensures accepted { IsAccepted parent_and_child }
    ensures given { replies parent_and_child ≡ with_value menu ∷ with_value (value.Held 0 2) ∷ [] }
    ensures made { content_of parent_and_child 0 2 ≡ gives index }
    ensures used { cells parent_and_child ≡ cell_of 0 2 ∷ [] }
    ensures printed { report parent_and_child
        ≡ codes "1 Menu#1{routes=[Home#2{},Cart#3{},Help#4{}]}\n"
        ++ (codes "2 Index#5{routes=[Home#6{},Cart#7{}]}\n" ++ codes "cells 1\n") }
{}

/// A Provider gives a new object each time that it is called, and a Lazy the same one.
///
/// ```text
/// scope PerApp
/// @Inject class Tab()
/// @Inject @PerApp class Bar(each: Provider<Tab>, one: Lazy<Tab>)
/// @PerApp component App {
///   entry bar : Bar
/// }
/// open a : App
/// ask a.bar.each!
/// ask a.bar.each!
/// ask a.bar.one!
/// ask a.bar.one!
/// ```
///
/// The objects of the Provider have the identities of the steps that call it, that of the Lazy the
/// identity of the place at which the Lazy was made.
pub fn a_provider_makes_and_a_lazy_keeps()
    ensures accepted { IsAccepted provider_and_lazy }
    ensures given { replies provider_and_lazy
        ≡ with_value (value.Object 6 (place (root.Ask 1) (step.Step 2 ∷ step.New 1 ∷ [])) [])
        ∷ with_value (value.Object 6 (place (root.Ask 2) (step.Step 2 ∷ step.New 1 ∷ [])) [])
        ∷ with_value (value.Object 6 in_lazy [])
        ∷ with_value (value.Object 6 in_lazy [])
        ∷ [] }
    ensures made { content_of provider_and_lazy 0 1
        ≡ gives (value.Object 7 (place (root.Cell 0 1) (step.New 1 ∷ []))
        (value.Provider 0 0 ∷ value.Lazy 0 0 (place (root.Cell 0 1) (step.Arg 2 ∷ [])) ∷ [])) }
    ensures used { cells provider_and_lazy ≡ cell_of 0 1 ∷ [] }
    ensures printed { report provider_and_lazy
        ≡ codes "1 Tab#1{}\n2 Tab#2{}\n3 Tab#3{}\n4 Tab#3\ncells 1\n" }
{}

/// Where two parameters fail, the failure is that of the first, and the second is evaluated all the
/// same: both cells are used.
///
/// ```text
/// scope PerApp
/// @Inject class Both(a: Text, b: Int)
/// module M {
///   @PerApp provides a() : Text = fail("no a")
///   @PerApp provides b() : Int = fail("no b")
/// }
/// @PerApp component App modules M {
///   entry both : Both
/// }
/// open x : App
/// ask x.both
/// ```
pub fn the_first_failure_is_given()
    ensures given { replies two_failures ≡ with_failure first_message ∷ [] }
    ensures used { cells two_failures ≡ cell_of 0 1 ∷ cell_of 0 2 ∷ [] }
    ensures printed { report two_failures ≡ codes "1 failed M.a \"no a\"\ncells 2\n" }
{}

/// A producer that is awaited in the arm that is taken is asked for.
///
/// ```text
/// module M {
///   produces slow() : @Named("slow") Int = 5
///   produces pick(slow: @Named("slow") Producer<Int>) : Int = if 1 < 2 then await slow else 0
/// }
/// component App modules M {
///   entry pick : Int
/// }
/// open a : App
/// ask a.pick
/// ```
///
/// The ask is given the cell of `pick`, slot 1. Its content is the 5 of the cell of `slow`, slot 0,
/// which it asks for.
pub fn an_awaited_producer_is_asked_for()
    ensures given { replies awaited ≡ with_value (value.Held 0 1) ∷ [] }
    ensures made { content_of awaited 0 1 ≡ Some (Ok (value.Int (pos 5)), cell 0 0 ∷ []) }
    ensures used { cells awaited ≡ cell_of 0 1 ∷ cell_of 0 0 ∷ [] }
    ensures printed { report awaited ≡ codes "1 5\ncells 2\n" }
{}

/// A producer that is awaited in the arm that isn't taken isn't asked for. The document is the one
/// before, but for the condition:
///
/// ```text
///   produces pick(slow: @Named("slow") Producer<Int>) : Int = if 3 < 2 then await slow else 0
/// ```
pub fn only_an_awaited_producer_is_asked_for()
    ensures given { replies unawaited ≡ with_value (value.Held 0 1) ∷ [] }
    ensures made { content_of unawaited 0 1 ≡ gives (value.Int (pos 0)) }
    ensures used { cells unawaited ≡ cell_of 0 1 ∷ [] }
    ensures printed { report unawaited ≡ codes "1 0\ncells 1\n" }
{}

/// An entry that a component dependency exposes is evaluated in the instance to which a `link` line
/// leads.
///
/// ```text
/// scope PerCore
/// @Inject @PerCore class Log()
/// @Inject class Page(log: Log)
/// @PerCore component Core {
///   entry log : Log
/// }
/// component Feature {
///   dependsOn Core
///   entry page : Page
/// }
/// open first : Core
/// open second : Core
/// open feature : Feature
/// link feature to second
/// ask feature.page
/// ```
///
/// The page that `feature` is given has the cell of `Log` in `second`, instance 1, and no other
/// cell is used.
pub fn an_exposed_entry_is_of_its_own_instance()
    ensures accepted { IsAccepted exposed_entry }
    ensures given { replies exposed_entry
        ≡ with_value (value.Object 7 (place (root.Ask 1) (step.Arg 1 ∷ step.New 1 ∷ []))
        (value.Held 1 0 ∷ []))
        ∷ [] }
    ensures made { content_of exposed_entry 1 0
        ≡ gives (value.Object 6 (place (root.Cell 1 0) (step.New 1 ∷ [])) []) }
    ensures used { cells exposed_entry ≡ cell_of 1 0 ∷ [] }
    ensures printed { report exposed_entry ≡ codes "1 Page#1{log=Log#2{}}\ncells 1\n" }
{}
