//! Paths and the names of records.

use iris_name::{FileId, Name, Path, PathError, Text};
use std::alloc::Global;
use std::test::Fail;

// How many names a path text has, or none where it is no path.
fn count(alloc: Global, text: &str) -> Result<Option<usize>, Fail> {
    let text = Text::of(text.to_string(alloc)?);
    match Path::read(alloc, &text) {
        Ok(path) => Ok(Some(path.names().len())),
        Err(PathError::BadPath) => Ok(None),
        Err(error) => Err(error.into()),
    }
}

// A reader that takes the empty text for the root, or a slash at the end for nothing.
#[test]
fn reads_what_the_grammar_has(rt: HostRuntime) -> Result<(), Fail> {
    let alloc = rt.alloc();
    let table = [
        ("/", Some(0)),
        ("/docs/a.txt", Some(2)),
        ("/..a/...", Some(2)),
        ("", None),
        ("f", None),
        ("/f/", None),
        ("//f", None),
        ("/a/./b", None),
        ("/a/..", None),
        ("/a\0b", None),
    ];
    for (text, want) in table {
        assert_eq!(rt; count(alloc, text)?, want, "at {text}");
    }
    assert!(rt; splits(alloc)?);
    Ok(())
}

fn splits(alloc: Global) -> Result<bool, Fail> {
    let deep = Text::of("/docs/a.txt".to_string(alloc)?);
    let docs = Text::of("docs".to_string(alloc)?);
    let file = Text::of("a.txt".to_string(alloc)?);
    Ok(Path::read(alloc, &deep)?.names() == [docs, file].as_slice())
}

// Bounds of 255 and 4,096 that are off by one.
#[test]
fn reads_names_up_to_their_length(rt: HostRuntime) -> Result<(), Fail> {
    let alloc = rt.alloc();
    let mut text = String::new(alloc);
    text.push('/')?;
    for _ in 0..255 {
        text.push('n')?;
    }
    assert_eq!(rt; count(alloc, text.as_str())?, Some(1));
    text.push('n')?;
    assert_eq!(rt; count(alloc, text.as_str())?, None);
    let mut deep = String::new(alloc);
    for _ in 0..2048 {
        deep.push('/')?;
        deep.push('d')?;
    }
    assert_eq!(rt; count(alloc, deep.as_str())?, Some(2048));
    deep.push('d')?;
    assert_eq!(rt; count(alloc, deep.as_str())?, None);
    Ok(())
}

// A wrong word or order of numbers, which the definition would share.
#[test]
fn spells_names(rt: HostRuntime) -> Result<(), Fail> {
    let part = Name::Part {
        file: FileId(u64::MAX),
        level: 16,
        index: 10,
    };
    let block = Name::Block {
        file: FileId(2),
        place: 65535,
    };
    let table = [
        (Name::Entry { id: FileId(0) }, "entry-0"),
        (part, "part-18446744073709551615-16-10"),
        (block, "block-2-65535"),
    ];
    for (name, want) in table {
        let text = format!(in rt.alloc(); "{name}")?;
        assert_eq!(rt; text.as_str(), want);
    }
    Ok(())
}
