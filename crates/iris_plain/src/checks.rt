//! The checks of a request in their order, over what resolving meets.

ghost use Rattle.std.specs.Prelude.{◌≡◌, ◌<◌, ◌^◌};
ghost use Rattle.iris_name.specs.declared.request.PlainError.TheVariants.{Full, NotDir};
ghost use Rattle.iris_plain.specs.declared.checks.Seen.TheVariants.{AFile};
ghost use Rattle.iris_plain.specs.Checks.{blocks_of, is_full, is_file, is_directory_seen, size_of, unresolved, error_if, then_error, new_name, write_checks, read_checks, resize_checks, move_checks, remove_checks};

use iris_name::PlainError;

/// How many bytes one request writes or reads at most.
pub const MOST_BYTES: u64 = 262_144;

/// How many bytes a file has at most.
pub const LONGEST: u64 = 268_435_456;

/// How many blocks a file may lose in one resize to a length above 0.
pub const MOST_CUT: u64 = 64;

/// The age at which no change is taken.
pub const LAST_AGE: u64 = 1_099_511_627_776;

/// What resolving a path meets.
#[derive(Clone, Copy, PartialEq, Eq)]
pub enum Seen {
    /// A directory.
    ADirectory,
    /// A file of so many bytes.
    AFile(u64),
    /// A directory on the way has no such name.
    Nothing,
    /// A file stands on the way.
    AFileBefore,
}

/// Whether no change is taken at this age.
pub fn is_full(age: u64) -> bool
    ensures { result ≡ is_full age }
{
    age >= LAST_AGE
}

/// The number of blocks of a length.
pub fn blocks_of(size: u64) -> u64
    requires { size < 2 ^ 63 }
    ensures { result ≡ blocks_of size }
{
    (size + 4095) / 4096
}

// The last check of a change.
fn unless_full(full: bool) -> Option<PlainError>
    ensures { result ≡ error_if full Full }
{
    if full { Some(PlainError::Full) } else { None }
}

/// The checks of a new name: `top` says that it is the root, `above` is what its directory is seen as.
pub fn new_name(top: bool, above: Seen, here: Seen, full: bool) -> Option<PlainError>
    ensures { result ≡ new_name top above here full }
{
    if top {
        return Some(PlainError::Exists);
    }
    match above {
        Seen::Nothing => Some(PlainError::NotFound),
        Seen::AFileBefore | Seen::AFile(_) => Some(PlainError::NotDir),
        Seen::ADirectory => match here {
            Seen::ADirectory | Seen::AFile(_) => Some(PlainError::Exists),
            Seen::Nothing | Seen::AFileBefore => unless_full(full),
        },
    }
}

/// The checks of a write of `count` bytes.
pub fn write_checks(here: Seen, offset: u64, count: u64, full: bool) -> Option<PlainError>
    ensures { result ≡ write_checks here offset count full }
{
    if count > MOST_BYTES {
        return Some(PlainError::TooMuch);
    }
    match here {
        Seen::Nothing => Some(PlainError::NotFound),
        Seen::AFileBefore => Some(PlainError::NotDir),
        Seen::ADirectory => Some(PlainError::IsDir),
        Seen::AFile(_) => {
            if count == 0 {
                None
            } else if offset > LONGEST - count {
                Some(PlainError::TooLong)
            } else {
                unless_full(full)
            }
        }
    }
}

/// The checks of a read of `count` bytes.
pub fn read_checks(here: Seen, count: u64) -> Option<PlainError>
    ensures { result ≡ read_checks here count }
{
    if count > MOST_BYTES {
        return Some(PlainError::TooMuch);
    }
    match here {
        Seen::Nothing => Some(PlainError::NotFound),
        Seen::AFileBefore => Some(PlainError::NotDir),
        Seen::ADirectory => Some(PlainError::IsDir),
        Seen::AFile(_) => None,
    }
}

/// The checks of a new length.
pub fn resize_checks(here: Seen, size: u64, full: bool) -> Option<PlainError>
    ensures { result ≡ resize_checks here size full }
{
    match here {
        Seen::Nothing => Some(PlainError::NotFound),
        Seen::AFileBefore => Some(PlainError::NotDir),
        Seen::ADirectory => Some(PlainError::IsDir),
        Seen::AFile(old) => resize_file(old, size, full),
    }
}

// The checks of a new length of a file.
fn resize_file(old: u64, size: u64, full: bool) -> Option<PlainError>
    ensures { result ≡ resize_checks (AFile old) size full }
{
    if size > LONGEST {
        return Some(PlainError::TooLong);
    }
    if size == old {
        return None;
    }
    if size > 0 && old > LONGEST + MOST_CUT * 4096 {
        return Some(PlainError::TooMuch);
    }
    if size > 0 && blocks_of(size) + MOST_CUT < blocks_of(old) {
        return Some(PlainError::TooMuch);
    }
    unless_full(full)
}

/// The checks of asking for a length.
pub fn stat_checks(here: Seen) -> Option<PlainError>
    ensures { result ≡ unresolved here }
{
    match here {
        Seen::Nothing => Some(PlainError::NotFound),
        Seen::AFileBefore => Some(PlainError::NotDir),
        Seen::ADirectory | Seen::AFile(_) => None,
    }
}

/// The checks of a page of names.
pub fn list_checks(here: Seen) -> Option<PlainError>
    ensures { result ≡ then_error (unresolved here) (error_if (is_file here) NotDir) }
{
    match here {
        Seen::Nothing => Some(PlainError::NotFound),
        Seen::AFileBefore | Seen::AFile(_) => Some(PlainError::NotDir),
        Seen::ADirectory => None,
    }
}

/// The checks of a move: `top` says that the root is to move, `ahead` that it is to move below itself,
/// and `new` is what the checks of the new name say.
pub fn move_checks(
    top: bool,
    here: Seen,
    ahead: bool,
    new: Option<PlainError>,
) -> Option<PlainError>
    ensures { result ≡ move_checks top here ahead new }
{
    if top {
        return Some(PlainError::BadPath);
    }
    match here {
        Seen::Nothing => Some(PlainError::NotFound),
        Seen::AFileBefore => Some(PlainError::NotDir),
        Seen::ADirectory | Seen::AFile(_) => {
            if ahead {
                Some(PlainError::IntoSelf)
            } else {
                new
            }
        }
    }
}

/// The checks of a removal: `top` says that it is the root.
pub fn remove_checks(top: bool, here: Seen, full: bool) -> Option<PlainError>
    ensures { result ≡ remove_checks top here full }
{
    if top {
        return Some(PlainError::BadPath);
    }
    match here {
        Seen::Nothing => Some(PlainError::NotFound),
        Seen::AFileBefore => Some(PlainError::NotDir),
        Seen::ADirectory | Seen::AFile(_) => unless_full(full),
    }
}

/// Whether a directory is there.
pub fn is_dir(here: Seen) -> bool
    ensures { result ≡ is_directory_seen here }
{
    match here {
        Seen::ADirectory => true,
        Seen::AFile(_) | Seen::Nothing | Seen::AFileBefore => false,
    }
}

/// The length of the file that is there, 0 where none is.
pub fn size_of(here: Seen) -> u64
    ensures { result ≡ size_of here }
{
    match here {
        Seen::AFile(size) => size,
        Seen::ADirectory | Seen::Nothing | Seen::AFileBefore => 0,
    }
}
