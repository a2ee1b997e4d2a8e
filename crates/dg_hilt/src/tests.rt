use crate::{
    HiltClass, class_at, class_name, class_of, default_class, default_of, is_predefined,
    is_scope_name, number, parent, scope_name,
};
use std::test::Fail;

/// The name of a component, its parent's, its scope, and the argument and the class of the value that it has bound.
type Row = (
    &'static str,
    Option<&'static str>,
    &'static str,
    Option<(&'static str, &'static str)>,
);

/// Hilt's components, each at its number.
const TABLE: &[Row] = &[
    (
        "SingletonComponent",
        None,
        "Singleton",
        Some(("application", "Application")),
    ),
    (
        "ActivityRetainedComponent",
        Some("SingletonComponent"),
        "ActivityRetainedScoped",
        None,
    ),
    (
        "ServiceComponent",
        Some("SingletonComponent"),
        "ServiceScoped",
        Some(("service", "Service")),
    ),
    (
        "ViewModelComponent",
        Some("ActivityRetainedComponent"),
        "ViewModelScoped",
        Some(("savedStateHandle", "SavedStateHandle")),
    ),
    (
        "ActivityComponent",
        Some("ActivityRetainedComponent"),
        "ActivityScoped",
        Some(("activity", "Activity")),
    ),
    (
        "FragmentComponent",
        Some("ActivityComponent"),
        "FragmentScoped",
        Some(("fragment", "Fragment")),
    ),
    (
        "ViewComponent",
        Some("ActivityComponent"),
        "ViewScoped",
        Some(("view", "View")),
    ),
    (
        "ViewWithFragmentComponent",
        Some("FragmentComponent"),
        "ViewScoped",
        Some(("view", "View")),
    ),
];

#[test]
fn the_table_is_hilts(rt: HostRuntime) -> Result<(), Fail> {
    let mut at = 0u32;
    for (name, parent_name, scope, bound) in TABLE {
        let c = class_of(name.as_bytes()).ok_or("no component")?;
        assert_eq!(rt; number(c), at, "{name}");
        assert_eq!(rt; class_at(at), Some(c), "{name}");
        assert_eq!(rt; class_name(c), name.as_bytes(), "{name}");
        match (parent(c), parent_name) {
            (Some(p), Some(want)) => assert_eq!(rt; class_name(p), want.as_bytes(), "{name}"),
            (None, None) => {}
            _ => assert!(rt; false, "{name}"),
        }
        assert_eq!(rt; scope_name(c), scope.as_bytes(), "{name}");
        match (default_of(c), bound) {
            (Some(given), Some((arg, class))) => {
                assert_eq!(rt; given.arg, arg.as_bytes(), "{name}");
                assert_eq!(rt; given.class, class.as_bytes(), "{name}");
            }
            (None, None) => {}
            _ => assert!(rt; false, "{name}"),
        }
        at = at.wrapping_add(1);
    }
    assert_eq!(rt; class_at(8), None);
    assert_eq!(rt; class_of(b"Singletoncomponent"), None);
    assert_eq!(rt; class_of(b"Component"), None);
    assert_eq!(rt; class_of(b""), None);
    assert_ne!(rt;
        HiltClass::ViewComponent,
        HiltClass::ViewWithFragmentComponent
    );
    Ok(())
}

#[test]
fn each_bound_class_has_a_place(rt: HostRuntime) {
    let names = [
        "Application",
        "Service",
        "SavedStateHandle",
        "Activity",
        "Fragment",
        "View",
    ];
    let mut at = 0u32;
    for name in names {
        assert_eq!(rt; default_class(name.as_bytes()), Some(at), "{name}");
        at = at.wrapping_add(1);
    }
    assert_eq!(rt; default_class(b"ActivityRetained"), None);
}

#[test]
fn predefined_names_are_these(rt: HostRuntime) {
    let names = [
        "Text",
        "Int",
        "Set",
        "Map",
        "Optional",
        "Provider",
        "Lazy",
        "Producer",
        "Produced",
        "Named",
        "Inject",
        "InstallIn",
        "TestInstallIn",
        "IntoSet",
        "ElementsIntoSet",
        "IntoMap",
        "StringKey",
        "IntKey",
    ];
    for name in names {
        assert!(rt; is_predefined(name.as_bytes()), "{name}");
        assert!(rt; !is_scope_name(name.as_bytes()), "{name}");
    }
    for (name, _, scope, bound) in TABLE {
        assert!(rt; is_predefined(name.as_bytes()), "{name}");
        assert!(rt; is_predefined(scope.as_bytes()), "{scope}");
        assert!(rt; is_scope_name(scope.as_bytes()), "{scope}");
        match bound {
            None => {}
            Some((arg, class)) => {
                assert!(rt; is_predefined(class.as_bytes()), "{class}");
                assert!(rt; !is_predefined(arg.as_bytes()), "{arg}");
            }
        }
    }
    for name in [
        "name",
        "module",
        "text",
        "Component",
        "Qualifier",
        "Scope",
        "ClassKey",
        "",
    ] {
        assert!(rt; !is_predefined(name.as_bytes()), "{name}");
    }
}
