//! Each row has what it shows, the number of the class that looks up (0 to 7 are Hilt's, 8 is the
//! first that is declared), a type whose key is looked up, and what is found: `8:10` is the member
//! of line 10, owned by class 8, and `9:0:10` the entry of line 10, exposed by dependency 0.

ghost use Rattle.std.specs.Prelude.{◌≡◌, ◌<◌, length, IfOk};
ghost use Rattle.dg_decl.specs.Bounds.{IsBounded};
ghost use Rattle.dg_decl.specs.Components.{component_classes};
ghost use Rattle.dg_decl.specs.Diagnostics.{PassesDependencies};

use dg_binds::bindings;
use dg_compdep::{depends, exposed};
use dg_comps::tree;
use dg_decl::{BindRef, CompTree, Doc, Found, Item, Owned};
use dg_reader::read_doc;
use dg_resolve::find;
use dg_types::{Key, NoMemory, request_of};
use dg_typing::{names, types};
use std::alloc::{AllocError, Global};
use std::process::Abort;
use std::test::Fail;

fn read(rt: &impl Abort, alloc: Global, text: &str) -> Result<Doc, Fail>
    ensures bounded { IfOk result IsBounded }
{
    assert!(rt; text.len() <= 4194304);
    let d = read_doc(alloc, text.as_bytes())?;
    Ok(d)
}

/// The key that a use of this type requests.
fn key_of(rt: &impl Abort, alloc: Global, shape: &str) -> Result<Key, Fail> {
    let text = format!(in alloc; "class Wanted(key: {shape})\n")?;
    let d = read(rt, alloc, text.as_str())?;
    let Some(Item::Class { params, .. }) = d.items.get(0) else {
        panic!(rt; "no class");
    };
    let param = params.get(0).ok_or("no parameter")?;
    let request = request_of(alloc, &param.shape)?.ok_or("no key")?;
    Ok(request.key)
}

/// The component classes of a document that passes the first four stages.
fn classes_of(rt: &impl Abort, alloc: Global, d: &Doc) -> Result<CompTree, Fail>
    requires bounded { IsBounded d.now }
    ensures passes { IfOk result (λ t. PassesDependencies d.now) }
    ensures classes { IfOk result (λ t. t.classes ≡ component_classes d.now) }
{
    assert!(rt; names(alloc, d)?.is_empty(), "names");
    assert!(rt; types(alloc, d)?.is_empty(), "types");
    let Ok(t) = tree(alloc, d) else {
        panic!(rt; "components");
    };
    assert!(rt; depends(alloc, d, &t)?.is_empty(), "dependencies");
    Ok(t)
}

fn found_in(alloc: Global, d: &Doc, t: &CompTree, class: u32, key: &Key) -> Result<Found, NoMemory>
    requires bounded { IsBounded d.now }
    requires passes { PassesDependencies d.now }
    requires classes { t.now.classes ≡ component_classes d.now }
    requires within { class < length t.now.classes }
{
    let b = bindings(alloc, d)?;
    let x = exposed(alloc, d, t)?;
    find(alloc, d, t, b.as_slice(), class, key, x.as_slice())
}

fn found(rt: &impl Abort, alloc: Global, d: &Doc, class: u32, key: &Key) -> Result<Found, Fail>
    requires bounded { IsBounded d.now }
{
    let t = classes_of(rt, alloc, d)?;
    assert!(rt; (class as usize) < t.classes.len());
    let found = found_in(alloc, d, &t, class, key)?;
    Ok(found)
}

/// The number of the line of an item.
fn line(d: &Doc, item: u32) -> u32 {
    d.lines.get(item as usize).copied().unwrap_or_default()
}

fn owned(alloc: Global, d: &Doc, owner: u32, binding: BindRef) -> Result<String, AllocError> {
    match binding {
        BindRef::Member(item) => format!(in alloc; "{owner}:{}", line(d, item)),
        BindRef::ClassItem(item) => format!(in alloc; "class {owner}:{}", line(d, item)),
        BindRef::Arg(index) => format!(in alloc; "argument {owner}:{index}"),
        BindRef::Default => format!(in alloc; "default {owner}"),
        BindRef::Exposed { dep, entry } => { format!(in alloc; "{owner}:{dep}:{}", line(d, entry)) }
    }
}

fn several(alloc: Global, d: &Doc, what: &str, all: &[Owned]) -> Result<String, AllocError> {
    let mut text = String::from_str(alloc, what)?;
    for each in all {
        text.push_str(" ")?;
        text.push_str(owned(alloc, d, each.owner, each.binding)?.as_str())?;
    }
    Ok(text)
}

fn told(alloc: Global, d: &Doc, found: &Found) -> Result<String, AllocError> {
    match found {
        Found::One { owner, binding } => owned(alloc, d, *owner, *binding),
        Found::Many(all) => several(alloc, d, "many", all.as_slice()),
        Found::SetOf(all) => several(alloc, d, "set", all.as_slice()),
        Found::MapOf(all) => several(alloc, d, "map", all.as_slice()),
        Found::OptionalOf => String::from_str(alloc, "optional"),
        Found::BadScope { item } => format!(in alloc; "bad scope {}", line(d, *item)),
        Found::Nothing => String::from_str(alloc, "nothing"),
    }
}

type Row<'a> = (&'a str, u32, &'a str, &'a str);

fn finds(rt: &impl Abort, alloc: Global, text: &str, rows: &[Row<'_>]) -> Result<(), Fail> {
    let d = read(rt, alloc, text)?;
    for (shows, class, shape, expected) in rows {
        let key = key_of(rt, alloc, shape)?;
        let found = told(alloc, &d, &found(rt, alloc, &d, *class, &key)?)?;
        assert_eq!(rt; found.as_str(), *expected, "{shows}");
    }
    Ok(())
}

#[test]
fn bindings_injected_classes_and_exposed_entries(rt: HostRuntime) -> Result<(), Fail> {
    let text = r#"scope S
@Inject class Db(url: Text)
@Inject @S class Repo()
module P {
  provides db() : Db = new Db("u")
  provides p() : Text = "p"
}
component Lib {
  entry t : Text
  entry s : Service
}
@S component App modules P {
  dependsOn Lib
}
component Act in App {
}
"#;
    let rows = [
        ("a binding in place of a class", 9, "Db", "9:5"),
        ("else the class, of who asks", 8, "Db", "class 8:2"),
        ("the nearest with the scope", 10, "Repo", "class 9:3"),
        ("none of the chain has the scope", 8, "Repo", "bad scope 3"),
        ("exposed, from a child", 10, "Service", "9:0:10"),
        ("beside a binding", 9, "Text", "many 9:6 9:0:9"),
        ("own entries bind nothing", 8, "Service", "nothing"),
    ];
    finds(&rt, rt.alloc(), text, &rows)
}

#[test]
fn sets_maps_and_optionals(rt: HostRuntime) -> Result<(), Fail> {
    let text = r#"module Q {
  @IntoSet provides c() : Text = "c"
  bindsOptionalOf t : Text
  provides n() : Int = 2
}
module P {
  @IntoSet provides a() : Text = "a"
  @ElementsIntoSet provides b() : Set<Text> = set("b")
  @IntoMap @StringKey("k") provides k() : Int = 1
  bindsOptionalOf t : Text
  multibinds none : Set<Int>
  provides n() : Int = 1
}
component App modules P {
}
component Act in App modules Q {
}
"#;
    let rows = [
        ("two contributions", 8, "Set<Text>", "set 8:7 8:8"),
        ("a child's too", 9, "Set<Text>", "set 8:7 8:8 9:2"),
        ("of Produced", 9, "Set<Produced<Text>>", "set 8:7 8:8 9:2"),
        ("of Providers", 9, "Map<Text,Provider<Int>>", "map 8:9"),
        ("declared and empty", 9, "Set<Int>", "set"),
        (
            "declared, its inside unbound",
            8,
            "Optional<Text>",
            "optional",
        ),
        ("declared in both", 9, "Optional<Lazy<Text>>", "optional"),
        ("the inside", 8, "Text", "nothing"),
        ("the root's binding first", 9, "Int", "many 8:12 9:4"),
    ];
    finds(&rt, rt.alloc(), text, &rows)
}

#[test]
fn modules_and_default_bindings(rt: HostRuntime) -> Result<(), Fail> {
    let text = r#"@InstallIn(SingletonComponent) module Real includes Deep {
  provides t() : Text = "real"
}
@TestInstallIn(SingletonComponent) module Fake replaces Real {
  provides t() : Text = "fake"
  provides a() : Application = new Application("a")
}
module Deep {
  provides n() : Int = 1
}
module Top includes Real, Side, Shared {
}
module Side includes Top, Shared {
}
module Shared {
  provides s() : Service = new Service("s")
}
component App modules Top {
}
component Act in App modules Shared {
}
component ByName modules Real {
}
"#;
    let rows = [
        ("a test module", 0, "Text", "0:5"),
        ("replaced by name", 10, "Text", "nothing"),
        ("replaced in the middle", 8, "Text", "nothing"),
        ("behind a replaced module", 8, "Int", "nothing"),
        ("by two includes and a cycle", 8, "Service", "8:16"),
        ("not installed again", 9, "Service", "8:16"),
        ("a default binding", 5, "Activity", "default 4"),
        ("beside a binding", 5, "Application", "many default 0 0:6"),
    ];
    finds(&rt, rt.alloc(), text, &rows)
}
