use crate::{
    Base, Core, Inner, Key, MapKeyVal, MapKind, Mode, Name, NoMemory, Qualifier, Request, Shape,
    Text, TypeUse, key_text, map_key_text, push_quoted, push_use_text, request_of, shape_text,
};
use sqlite_items::Boxed;
use std::alloc::{AllocError, AllocFailed, Global};
use std::collections::HashMap;
use std::test::Fail;

fn copy(alloc: Global, bytes: &[u8]) -> Result<Vec<u8>, NoMemory> {
    Ok(bytes.to_vec(alloc)?)
}

fn named(alloc: Global, name: &[u8]) -> Result<Shape, NoMemory> {
    Ok(Shape::Named(Name::from_slice(alloc, name)?))
}

/// The type of one letter.
fn leaf(alloc: Global, letter: u8) -> Result<Option<Shape>, NoMemory> {
    match letter {
        b'T' => Ok(Some(Shape::Text)),
        b'I' => Ok(Some(Shape::Int)),
        b'A' => Ok(Some(named(alloc, b"A")?)),
        _ => Ok(None),
    }
}

fn constructed(letter: u8, of: Boxed<Shape>) -> Option<Shape> {
    match letter {
        b's' => Some(Shape::Set(of)),
        b'o' => Some(Shape::Optional(of)),
        b'p' => Some(Shape::Provider(of)),
        b'l' => Some(Shape::Lazy(of)),
        b'r' => Some(Shape::Producer(of)),
        b'd' => Some(Shape::Produced(of)),
        _ => None,
    }
}

/// The type that a letter makes of those on top of the pile.
fn made(alloc: Global, letter: u8, pile: &mut Vec<Shape>) -> Result<Shape, Fail> {
    if let Some(shape) = leaf(alloc, letter)? {
        return Ok(shape);
    }
    let of = Boxed::new(alloc, pile.pop().ok_or("a part is missing")?)?;
    if letter == b'm' {
        let keys = Boxed::new(alloc, pile.pop().ok_or("a part is missing")?)?;
        return Ok(Shape::Map(keys, of));
    }
    Ok(constructed(letter, of).ok_or("no such letter")?)
}

/// A type from its parts before its constructors, a letter each: `T` Text, `I` Int, `A` a class, `s` Set, `m` Map,
/// `o` Optional, `p` Provider, `l` Lazy, `r` Producer, `d` Produced.
fn built(alloc: Global, letters: &str) -> Result<Shape, Fail> {
    let mut pile = Vec::new(alloc);
    for letter in letters.as_bytes() {
        let shape = made(alloc, *letter, &mut pile)?;
        pile.push(shape)?;
    }
    Ok(pile.pop().ok_or("no letters")?)
}

/// The letters of a type, its text, and the form and the key's text of what it asks for, if anything.
type Row = (&'static str, &'static str, Option<Mode>, &'static str);

const ROWS: &[Row] = &[
    ("T", "Text", Some(Mode::Instance), "Text"),
    ("I", "Int", Some(Mode::Instance), "Int"),
    ("A", "A", Some(Mode::Instance), "A"),
    ("As", "Set<A>", Some(Mode::Instance), "Set<A>"),
    ("TAm", "Map<Text,A>", Some(Mode::Instance), "Map<Text,A>"),
    (
        "ITm",
        "Map<Int,Text>",
        Some(Mode::Instance),
        "Map<Int,Text>",
    ),
    (
        "IApm",
        "Map<Int,Provider<A>>",
        Some(Mode::Instance),
        "Map<Int,Provider<A>>",
    ),
    ("Ao", "Optional<A>", Some(Mode::Instance), "Optional<A>"),
    (
        "Ipo",
        "Optional<Provider<Int>>",
        Some(Mode::Instance),
        "Optional<Provider<Int>>",
    ),
    (
        "Alo",
        "Optional<Lazy<A>>",
        Some(Mode::Instance),
        "Optional<Lazy<A>>",
    ),
    (
        "Alpo",
        "Optional<Provider<Lazy<A>>>",
        Some(Mode::Instance),
        "Optional<Provider<Lazy<A>>>",
    ),
    ("Ap", "Provider<A>", Some(Mode::Provider), "A"),
    ("Al", "Lazy<A>", Some(Mode::Lazy), "A"),
    ("Alp", "Provider<Lazy<A>>", Some(Mode::ProviderLazy), "A"),
    ("Asp", "Provider<Set<A>>", Some(Mode::Provider), "Set<A>"),
    ("Aol", "Lazy<Optional<A>>", Some(Mode::Lazy), "Optional<A>"),
    (
        "Apop",
        "Provider<Optional<Provider<A>>>",
        Some(Mode::Provider),
        "Optional<Provider<A>>",
    ),
    (
        "TApmlp",
        "Provider<Lazy<Map<Text,Provider<A>>>>",
        Some(Mode::ProviderLazy),
        "Map<Text,Provider<A>>",
    ),
    (
        "Ads",
        "Set<Produced<A>>",
        Some(Mode::Instance),
        "Set<Produced<A>>",
    ),
    (
        "TAdm",
        "Map<Text,Produced<A>>",
        Some(Mode::Instance),
        "Map<Text,Produced<A>>",
    ),
    ("Ad", "Produced<A>", Some(Mode::Produced), "A"),
    ("Tr", "Producer<Text>", Some(Mode::Producer), "Text"),
    ("Iss", "Set<Set<Int>>", None, ""),
    ("Ips", "Set<Provider<Int>>", None, ""),
    ("Ils", "Set<Lazy<Int>>", None, ""),
    ("Iso", "Optional<Set<Int>>", None, ""),
    ("Ioo", "Optional<Optional<Int>>", None, ""),
    ("Ippo", "Optional<Provider<Provider<Int>>>", None, ""),
    ("Iplo", "Optional<Lazy<Provider<Int>>>", None, ""),
    ("Ido", "Optional<Produced<Int>>", None, ""),
    ("AIm", "Map<A,Int>", None, ""),
    ("TsIm", "Map<Set<Text>,Int>", None, ""),
    ("TIsm", "Map<Text,Set<Int>>", None, ""),
    ("TIlm", "Map<Text,Lazy<Int>>", None, ""),
    ("TIlpm", "Map<Text,Provider<Lazy<Int>>>", None, ""),
    ("AIdm", "Map<A,Produced<Int>>", None, ""),
    ("Ipp", "Provider<Provider<Int>>", None, ""),
    ("Iplp", "Provider<Lazy<Provider<Int>>>", None, ""),
    ("Ipl", "Lazy<Provider<Int>>", None, ""),
    ("Ill", "Lazy<Lazy<Int>>", None, ""),
    ("Idl", "Lazy<Produced<Int>>", None, ""),
    ("Idp", "Provider<Produced<Int>>", None, ""),
    ("Irp", "Provider<Producer<Int>>", None, ""),
    ("Idsp", "Provider<Set<Produced<Int>>>", None, ""),
    ("Isr", "Producer<Set<Int>>", None, ""),
    ("Idr", "Producer<Produced<Int>>", None, ""),
    ("Isd", "Produced<Set<Int>>", None, ""),
    ("Ipd", "Produced<Provider<Int>>", None, ""),
];

/// The rows, behind a call: no goal of a test then has them written out.
fn rows() -> &'static [Row] {
    ROWS
}

/// Whether the type has this text and asks for what the row says.
fn is_row(alloc: Global, row: &Row) -> Result<bool, Fail> {
    let asked = TypeUse {
        qualifier: None,
        shape: built(alloc, row.0)?,
    };
    let text = shape_text(alloc, &asked.shape)?;
    let same = text.as_slice() == row.1.as_bytes();
    match request_of(alloc, &asked)? {
        None => Ok(same && row.2.is_none()),
        Some(request) => {
            let key = key_text(alloc, &request.key)?;
            Ok(same && row.2 == Some(request.mode) && key.as_slice() == row.3.as_bytes())
        }
    }
}

#[test]
fn a_type_asks_for_what_the_table_says(rt: HostRuntime) -> Result<(), Fail> {
    for row in rows() {
        assert!(rt; is_row(rt.alloc(), row)?, "{}", row.1);
    }
    Ok(())
}

fn io(alloc: Global) -> Result<Qualifier, NoMemory> {
    Ok(Qualifier {
        name: Name::from_slice(alloc, b"Io")?,
        member: None,
    })
}

fn quoting(alloc: Global) -> Result<Qualifier, NoMemory> {
    Ok(Qualifier {
        name: Name::from_slice(alloc, b"Named")?,
        member: Some(Text::from_slice(alloc, br#"a"b\c"#)?),
    })
}

fn asked(alloc: Global) -> Result<TypeUse, Fail> {
    Ok(TypeUse {
        qualifier: Some(quoting(alloc)?),
        shape: built(alloc, "Al")?,
    })
}

#[test]
fn a_request_keeps_the_qualifier(rt: HostRuntime) -> Result<(), Fail> {
    let asked = asked(rt.alloc())?;
    let mut text = Vec::new(rt.alloc());
    push_use_text(&mut text, &asked)?;
    assert_eq!(rt; text.as_slice(), br#"@Named("a\"b\\c") Lazy<A>"#.as_slice());
    let request = request_of(rt.alloc(), &asked)?.ok_or("no request")?;
    let text = key_text(rt.alloc(), &request.key)?;
    assert_eq!(rt; text.as_slice(), br#"@Named("a\"b\\c") A"#.as_slice());
    Ok(())
}

#[test]
fn requests_are_copied(rt: HostRuntime) -> Result<(), Fail> {
    let asked = asked(rt.alloc())?;
    assert!(rt; asked.is(&asked.copy(rt.alloc())?));
    let request = request_of(rt.alloc(), &asked)?.ok_or("no request")?;
    assert!(rt; request.is(&request.copy(rt.alloc())?));
    assert!(rt; request.is(&request.clone()?));
    Ok(())
}

fn key(qualifier: Option<Qualifier>) -> Key {
    Key {
        qualifier,
        core: Core::Map(MapKind::Int, Base::Text, Inner::Produced),
    }
}

#[test]
fn keys_differ_by_their_qualifiers(rt: HostRuntime) -> Result<(), Fail> {
    let plain = key(None);
    let of_io = key(Some(io(rt.alloc())?));
    assert!(rt; !plain.is(&of_io));
    assert!(rt; of_io.is(&of_io.copy(rt.alloc())?));
    assert!(rt; of_io.is(&of_io.clone()?));
    assert!(rt; plain < of_io);
    assert!(rt; of_io.core.is(&plain.core.copy(rt.alloc())?));
    Ok(())
}

#[test]
fn keys_stand_in_tables(rt: HostRuntime) -> Result<(), Fail> {
    let plain = key(None);
    let of_io = key(Some(io(rt.alloc())?));
    let mut numbers = HashMap::new(rt.alloc());
    drop(numbers.insert(plain.copy(rt.alloc())?, 1u32)?);
    drop(numbers.insert(of_io.copy(rt.alloc())?, 2)?);
    assert_eq!(rt; numbers.get(&plain).copied(), Some(1));
    assert_eq!(rt; numbers.get(&of_io).copied(), Some(2));
    Ok(())
}

/// Whether the types of two rows are one, and the first is one with its copy.
fn are_one(alloc: Global, a: &Row, b: &Row) -> Result<bool, Fail> {
    let shape = built(alloc, a.0)?;
    let copied = shape.copy(alloc)?;
    Ok(shape.is(&copied) && copied.is(&built(alloc, b.0)?))
}

#[test]
fn types_are_told_apart(rt: HostRuntime) -> Result<(), Fail> {
    for a in rows() {
        for b in rows() {
            assert_eq!(rt; are_one(rt.alloc(), a, b)?, a.0 == b.0);
        }
    }
    Ok(())
}

#[test]
fn parts_of_keys_are_told_apart(rt: HostRuntime) -> Result<(), Fail> {
    let base = Base::Named(Name::from_slice(rt.alloc(), b"A")?);
    assert!(rt; base.is(&base.copy(rt.alloc())?));
    assert!(rt; !base.is(&Base::Text));
    let member = quoting(rt.alloc())?;
    assert!(rt; member.is(&member.copy(rt.alloc())?));
    assert!(rt; !member.is(&io(rt.alloc())?));
    Ok(())
}

const TEXTS: &[(&[u8], &[u8])] = &[
    (b"", br#""""#),
    (b"a b", br#""a b""#),
    (br#"a"b\c"#, br#""a\"b\\c""#),
];

#[test]
fn a_text_is_printed_as_it_is_written(rt: HostRuntime) -> Result<(), Fail> {
    for (value, want) in TEXTS {
        let key = MapKeyVal::Text(Text::from_slice(rt.alloc(), value)?);
        let text = map_key_text(rt.alloc(), &key)?;
        assert_eq!(rt; text.as_slice(), *want);
        let mut quoted = Vec::new(rt.alloc());
        push_quoted(&mut quoted, value)?;
        assert_eq!(rt; quoted.as_slice(), *want);
    }
    Ok(())
}

const NUMBERS: &[(i64, &[u8])] = &[
    (0, b"0"),
    (-7, b"-7"),
    (i64::MAX, b"9223372036854775807"),
    (i64::MIN, b"-9223372036854775808"),
];

#[test]
fn an_integer_is_printed_in_decimal(rt: HostRuntime) -> Result<(), Fail> {
    for (value, want) in NUMBERS {
        let text = map_key_text(rt.alloc(), &MapKeyVal::Int(*value))?;
        assert_eq!(rt; text.as_slice(), *want);
    }
    Ok(())
}

#[test]
fn keys_of_entries_are_told_apart(rt: HostRuntime) -> Result<(), Fail> {
    let key = MapKeyVal::Text(Text::from_slice(rt.alloc(), b"k")?);
    assert!(rt; key.is(&key.copy(rt.alloc())?));
    assert!(rt; key.is(&key.clone()?));
    assert!(rt; !key.is(&MapKeyVal::Int(0)));
    Ok(())
}

#[test]
fn a_name_keeps_its_bytes(rt: HostRuntime) -> Result<(), Fail> {
    let name = Name::from_slice(rt.alloc(), b"Db")?;
    assert!(rt; name.is(b"Db"));
    assert!(rt; !name.is(b"D"));
    assert_eq!(rt; name.as_slice(), b"Db".as_slice());
    let copied = name.copy(rt.alloc())?;
    assert_eq!(rt; copied, name);
    assert_eq!(rt; copied.clone()?, name);
    assert_eq!(rt; name.into_vec().as_slice(), b"Db".as_slice());
    let name = Name::from_vec(copy(rt.alloc(), b"url")?);
    assert_eq!(rt; name.as_slice(), b"url".as_slice());
    Ok(())
}

#[test]
fn names_stand_in_tables(rt: HostRuntime) -> Result<(), Fail> {
    let copied = Name::from_slice(rt.alloc(), b"Db")?;
    let name = Name::from_slice(rt.alloc(), b"url")?;
    assert!(rt; copied < name);
    let mut numbers = HashMap::new(rt.alloc());
    drop(numbers.insert(copied, 1u32)?);
    drop(numbers.insert(name.copy(rt.alloc())?, 2)?);
    assert_eq!(rt; numbers.get(&name).copied(), Some(2));
    Ok(())
}

#[test]
fn a_text_keeps_its_bytes(rt: HostRuntime) -> Result<(), Fail> {
    let text = Text::from_slice(rt.alloc(), b"a \"b\"")?;
    assert!(rt; text.is(b"a \"b\""));
    assert!(rt; !text.is(b""));
    assert_eq!(rt; text.as_slice(), b"a \"b\"".as_slice());
    assert_eq!(rt; text.copy(rt.alloc())?, text);
    assert_eq!(rt; text.clone()?, text);
    assert_eq!(rt; text.into_vec().as_slice(), b"a \"b\"".as_slice());
    let text = Text::from_vec(copy(rt.alloc(), b"")?);
    assert!(rt; text.is(b""));
    Ok(())
}

#[test]
fn refused_memory_is_no_memory(rt: HostRuntime) {
    assert_eq!(rt; NoMemory::from(AllocError), NoMemory);
    assert_eq!(rt; NoMemory::from(AllocFailed { value: 1u8 }), NoMemory);
}
