//! Paths and their texts.

ghost use Rattle.std.specs.Prelude.{◌≡◌, ◌==◌, ◌++◌, not, Some, None, IfOk, IfErr, OnOk, map};
ghost use Rattle.std.specs.List.{list_all};
ghost use Rattle.iris_name.specs.Paths.{is_name, names_of, slashed_names};
ghost use Rattle.iris_name.specs.declared.path.PathError.TheVariants.{BadPath};

use crate::text::Text;
use crate::want::NoMemory;
use std::alloc::{AllocError, AllocFailed, Global};
use std::marker::Model;
use thiserror::Error;

/// How many bytes a path text has at most.
pub const PATH_LEN: usize = 4096;

/// How many bytes a name has at most.
pub const NAME_LEN: usize = 255;

/// Why a text gives no path.
#[derive(Clone, Copy, Debug, PartialEq, Eq, Error)]
pub enum PathError {
    #[error("no path")]
    BadPath,
    #[error("out of memory")]
    NoMemory,
}

impl From<AllocError> for PathError {
    ghost use Rattle.std.specs.Prelude.{◌≡◌};
    ghost use Rattle.iris_name.specs.declared.path.PathError.TheVariants.{NoMemory};

    ghost from_gives = { λ _ e. e ≡ NoMemory };

    fn from(_error: AllocError) -> PathError {
        PathError::NoMemory
    }
}

impl<T: Drop> From<AllocFailed<T>> for PathError {
    ghost use Rattle.std.specs.Prelude.{◌≡◌};
    ghost use Rattle.iris_name.specs.declared.path.PathError.TheVariants.{NoMemory};

    ghost from_gives = { λ _ e. e ≡ NoMemory };

    fn from(_error: AllocFailed<T>) -> PathError {
        PathError::NoMemory
    }
}

/// The way from the root to a file or a directory, seen as the list of its names.
#[derive(Debug, Drop)]
pub struct Path {
    names: Vec<Text>,
}

impl Model for Path {
    ghost use Rattle.std.specs.Prelude.{List, ℕ};

    ghost Value = { List (List ℕ) };

    ghost view = { λ a. a.names.items };
}

impl Path {
    /// The names of a path text: `/`, or one or more names, each preceded by `/`, in all at most 4,096 bytes.
    pub fn read(alloc: Global, text: &Text) -> Result<Path, PathError>
        ensures path { IfOk result (λ path. names_of text.now ≡ Some path) }
        ensures bad { IfErr result (λ error. error ≡ BadPath → names_of text.now ≡ None) }
    {
        let text = text.as_str();
        if text.len() > PATH_LEN {
            return Err(PathError::BadPath);
        }
        if text == "/" {
            return Ok(Path {
                names: Vec::new(alloc),
            });
        }
        let pieces: Vec<&str> = text.split('/').collect(alloc)?;
        slashed(alloc, pieces.as_slice())
    }

    /// Lends the names.
    pub fn names(&self) -> &[Text]
        ensures { result.now ≡ self.now }
    {
        self.names.as_slice()
    }

    /// The path of these names, and then those. It may be longer than any text.
    pub fn joined(alloc: Global, front: &[Text], rest: &[Text]) -> Result<Path, NoMemory>
        ensures { IfOk result (λ path. path ≡ front.now ++ rest.now) }
    {
        let mut names = Vec::new(alloc);
        push_all(alloc, &mut names, front)?;
        push_all(alloc, &mut names, rest)?;
        Ok(Path { names })
    }
}

// Puts copies of these names last.
fn push_all(alloc: Global, names: &mut Vec<Text>, from: &[Text]) -> Result<(), NoMemory>
    ensures { OnOk result (names.new.items ≡ names.old.items ++ from.now) }
{
    for name in from {
        names.push(name.copy(alloc)?)?;
    }
    Ok(())
}

// The path whose names follow the first of these pieces.
fn slashed(alloc: Global, pieces: &[&str]) -> Result<Path, PathError>
    ensures path { IfOk result (λ path.
        slashed_names (map (λ piece. piece.now) pieces.now) ≡ Some path) }
    ensures bad { IfErr result (λ error. error ≡ BadPath →
        slashed_names (map (λ piece. piece.now) pieces.now) ≡ None) }
{
    if pieces.len() < 2 || !pieces[0].is_empty() {
        return Err(PathError::BadPath);
    }
    let rest = &pieces[1..];
    if !are_names(rest) {
        return Err(PathError::BadPath);
    }
    let mut names = Vec::new(alloc);
    for piece in rest {
        names.push(Text::of(piece.to_string(alloc)?))?;
    }
    Ok(Path { names })
}

// Whether each of these pieces is a name.
fn are_names(pieces: &[&str]) -> bool
    ensures { result ≡ list_all is_name (map (λ piece. piece.now) pieces.now) }
{
    for piece in pieces {
        if !is_name(piece) {
            return false;
        }
    }
    true
}

// Whether a piece between slashes is a name.
fn is_name(piece: &str) -> bool
    ensures { result ≡ is_name piece.now }
{
    if piece.is_empty() || piece.len() > NAME_LEN {
        return false;
    }
    if piece == "." || piece == ".." {
        return false;
    }
    has_no_nul(piece.as_bytes())
}

// Whether no byte is NUL.
fn has_no_nul(bytes: &[u8]) -> bool
    ensures { result ≡ list_all (λ b. not (b == 0)) bytes.now }
{
    bytes.iter().all(|b| *b != 0)
}
