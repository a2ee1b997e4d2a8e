ghost use Rattle.std.specs.Prelude.{◌≡◌, Some};
ghost use Rattle.std.specs.Option.{option_map};
ghost use Rattle.dg_hilt.specs.Classes as spec;

/// One of Hilt's components.
#[derive(Clone, Copy, Debug, PartialEq, Eq)]
pub enum HiltClass {
    SingletonComponent,
    ActivityRetainedComponent,
    ServiceComponent,
    ViewModelComponent,
    ActivityComponent,
    FragmentComponent,
    ViewComponent,
    ViewWithFragmentComponent,
}

/// The value that each instance of one of Hilt's components has bound: the name of its argument and
/// its class.
#[derive(Clone, Copy, Debug)]
pub struct HiltDefault {
    pub arg: &'static [u8],
    pub class: &'static [u8],
}

/// The number of a component: its index in the table of Hilt's components, from 0 on.
pub fn number(c: HiltClass) -> u32
    ensures exact { result ≡ spec.number_of c }
{
    c as u32
}

/// The component of this number; None from 8 on.
pub fn class_at(number: u32) -> Option<HiltClass>
    ensures exact { result ≡ spec.component_at number }
{
    match number {
        0 => Some(HiltClass::SingletonComponent),
        1 => Some(HiltClass::ActivityRetainedComponent),
        2 => Some(HiltClass::ServiceComponent),
        3 => Some(HiltClass::ViewModelComponent),
        4 => Some(HiltClass::ActivityComponent),
        5 => Some(HiltClass::FragmentComponent),
        6 => Some(HiltClass::ViewComponent),
        7 => Some(HiltClass::ViewWithFragmentComponent),
        _ => None,
    }
}

/// The name of a component.
pub fn class_name(c: HiltClass) -> &'static [u8]
    ensures exact { Some result.now ≡ spec.name_of c }
{
    match c {
        HiltClass::SingletonComponent => b"SingletonComponent",
        HiltClass::ActivityRetainedComponent => b"ActivityRetainedComponent",
        HiltClass::ServiceComponent => b"ServiceComponent",
        HiltClass::ViewModelComponent => b"ViewModelComponent",
        HiltClass::ActivityComponent => b"ActivityComponent",
        HiltClass::FragmentComponent => b"FragmentComponent",
        HiltClass::ViewComponent => b"ViewComponent",
        HiltClass::ViewWithFragmentComponent => b"ViewWithFragmentComponent",
    }
}

/// The component of this name; None for any other name.
pub fn class_of(name: &[u8]) -> Option<HiltClass>
    ensures exact { result ≡ spec.class_named name.now }
{
    if name == b"SingletonComponent".as_slice() {
        return Some(HiltClass::SingletonComponent);
    }
    if name == b"ActivityRetainedComponent".as_slice() {
        return Some(HiltClass::ActivityRetainedComponent);
    }
    if name == b"ServiceComponent".as_slice() {
        return Some(HiltClass::ServiceComponent);
    }
    if name == b"ViewModelComponent".as_slice() {
        return Some(HiltClass::ViewModelComponent);
    }
    if name == b"ActivityComponent".as_slice() {
        return Some(HiltClass::ActivityComponent);
    }
    if name == b"FragmentComponent".as_slice() {
        return Some(HiltClass::FragmentComponent);
    }
    if name == b"ViewComponent".as_slice() {
        return Some(HiltClass::ViewComponent);
    }
    if name == b"ViewWithFragmentComponent".as_slice() {
        return Some(HiltClass::ViewWithFragmentComponent);
    }
    None
}

/// The component in whose instances this one's are opened; None for SingletonComponent alone.
pub fn parent(c: HiltClass) -> Option<HiltClass>
    ensures exact { result ≡ spec.parent_of c }
{
    match c {
        HiltClass::SingletonComponent => None,
        HiltClass::ActivityRetainedComponent => Some(HiltClass::SingletonComponent),
        HiltClass::ServiceComponent => Some(HiltClass::SingletonComponent),
        HiltClass::ViewModelComponent => Some(HiltClass::ActivityRetainedComponent),
        HiltClass::ActivityComponent => Some(HiltClass::ActivityRetainedComponent),
        HiltClass::FragmentComponent => Some(HiltClass::ActivityComponent),
        HiltClass::ViewComponent => Some(HiltClass::ActivityComponent),
        HiltClass::ViewWithFragmentComponent => Some(HiltClass::FragmentComponent),
    }
}

/// The scope of a component, without `@`.
pub fn scope_name(c: HiltClass) -> &'static [u8]
    ensures exact { Some result.now ≡ spec.scope_of c }
{
    match c {
        HiltClass::SingletonComponent => b"Singleton",
        HiltClass::ActivityRetainedComponent => b"ActivityRetainedScoped",
        HiltClass::ServiceComponent => b"ServiceScoped",
        HiltClass::ViewModelComponent => b"ViewModelScoped",
        HiltClass::ActivityComponent => b"ActivityScoped",
        HiltClass::FragmentComponent => b"FragmentScoped",
        HiltClass::ViewComponent | HiltClass::ViewWithFragmentComponent => b"ViewScoped",
    }
}

/// The value that each instance of a component has bound; None for ActivityRetainedComponent alone.
pub fn default_of(c: HiltClass) -> Option<HiltDefault>
    ensures exact { option_map spec.row_of_default result ≡ spec.default_of c }
{
    match c {
        HiltClass::SingletonComponent => Some(HiltDefault {
            arg: b"application",
            class: b"Application",
        }),
        HiltClass::ActivityRetainedComponent => None,
        HiltClass::ServiceComponent => Some(HiltDefault {
            arg: b"service",
            class: b"Service",
        }),
        HiltClass::ViewModelComponent => Some(HiltDefault {
            arg: b"savedStateHandle",
            class: b"SavedStateHandle",
        }),
        HiltClass::ActivityComponent => Some(HiltDefault {
            arg: b"activity",
            class: b"Activity",
        }),
        HiltClass::FragmentComponent => Some(HiltDefault {
            arg: b"fragment",
            class: b"Fragment",
        }),
        HiltClass::ViewComponent | HiltClass::ViewWithFragmentComponent => Some(HiltDefault {
            arg: b"view",
            class: b"View",
        }),
    }
}

/// The index of a name among the classes of the values that components have bound, each of which
/// has one field, a text `name`: Application, Service, SavedStateHandle, Activity, Fragment and
/// View in this order. None for any other name.
pub fn default_class(name: &[u8]) -> Option<u32>
    ensures exact { result ≡ spec.default_class_named name.now }
{
    if name == b"Application".as_slice() {
        return Some(0);
    }
    if name == b"Service".as_slice() {
        return Some(1);
    }
    if name == b"SavedStateHandle".as_slice() {
        return Some(2);
    }
    if name == b"Activity".as_slice() {
        return Some(3);
    }
    if name == b"Fragment".as_slice() {
        return Some(4);
    }
    if name == b"View".as_slice() {
        return Some(5);
    }
    None
}
