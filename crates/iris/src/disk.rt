//! Records in real files, and the process's standard streams. They tell nothing.

ghost use Rattle.std.specs.Prelude.{◌≡◌, ◌≢◌, ◌≤◌, ◌++◌, None, IfOk, length, string_bytes, codes};
ghost use Rattle.std.specs.IoError.{error_kind};
ghost use Rattle.std.specs.declared.io.ErrorKind.TheVariants.{OutOfMemory};
ghost use Rattle.iris_name.specs.NameText.{name_text};
ghost use Rattle.iris_store.specs.Traffic.{IsCaused, IsWithinLimit};

use crate::outside::{Sink, Source};
use iris_name::{Bytes, Failed, Name, Text};
use iris_store::{ANSWER_LEN, Store, StoreError};
use std::alloc::{AllocError, Global};
use std::fs::{Files, OpenFile, OpenOptions};
use std::io::{ErrorKind, Input, Print, Read, Write};
use std::{fs, io};

/// A store whose records are the files `blocks/NAME` under a folder. The folder is there; its `blocks` is made at the
/// first put. That a file is absent is no failure, but of a put.
#[derive(Drop)]
pub struct FileStore<R: Files + Drop> {
    rt: R,
    folder: Text,
    faults: u64,
}

// What the system's error is to a store.
fn store_error(error: &io::Error) -> StoreError
    ensures memory { error_kind error.now ≡ OutOfMemory → result ≡ StoreError.NoMemory }
    ensures failed { error_kind error.now ≢ OutOfMemory → result ≡ StoreError.Failed }
{
    match error.kind() {
        ErrorKind::OutOfMemory => StoreError::NoMemory,
        _ => StoreError::Failed,
    }
}

// How many bytes are asked of a file: one more than an answer has, so that a record that fits lacks some.
const ASKED: usize = ANSWER_LEN + 1;

// How many bytes a sector of a disk has.
const SECTOR: usize = 512;

// Fills a buffer from a reader, up to its end, and answers how many bytes it has now. A read that gives less than was asked
// shows the end, but where it stops at a sector's end: there it may have met an error, which the next read tells.
fn fill<R: Read>(reader: &mut R, buffer: &mut [u8]) -> io::Result<usize>
    ensures { IfOk result (λ n. n ≤ length buffer.new) }
{
    let mut filled = 0;
    while filled < buffer.len() {
        let count = reader.read(&mut buffer[filled..])?;
        filled += count;
        if count == 0 || filled % SECTOR != 0 {
            return Ok(filled);
        }
    }
    Ok(filled)
}

// The first bytes of a file, or none where it is absent.
fn read_record<R: Files>(alloc: Global, rt: &R, path: &str) -> Result<Option<Bytes>, StoreError>
    ensures { IsWithinLimit result }
{
    let mut file = match fs::File::open(rt, path) {
        Ok(file) => file,
        Err(error) if error.kind() == ErrorKind::NotFound => return Ok(None),
        Err(error) => return Err(store_error(&error)),
    };
    let mut buffer = [0; ASKED];
    match fill(&mut file, &mut buffer) {
        Ok(count) => {
            let front = &buffer[..count.min(ANSWER_LEN)];
            Ok(Some(Bytes::of(front.to_vec(alloc)?)))
        }
        Err(error) => Err(store_error(&error)),
    }
}

// Writes a file over an older one, which is cut or grown last and only where its length is another.
fn write_record<R: Files>(rt: &R, path: &str, bytes: &[u8]) -> io::Result<()> {
    let mut file = OpenOptions::new().write(true).create(true).open(rt, path)?;
    file.write_all(bytes)?;
    let len = bytes.len() as u64;
    if file.metadata()?.len() != len {
        file.set_len(len)?;
    }
    Ok(())
}

// The same, after the folder of the files is made where it is absent.
fn write_first<R: Files>(rt: &R, folder: &str, path: &str, bytes: &[u8]) -> io::Result<()> {
    match write_record(rt, path, bytes) {
        Err(error) if error.kind() == ErrorKind::NotFound => {
            rt.create_dir(folder)?;
            write_record(rt, path, bytes)
        }
        done => done,
    }
}

// Takes a file away, where it is there.
fn remove_record<R: Files>(rt: &R, path: &str) -> io::Result<()> {
    match rt.remove_file(path) {
        Err(error) if error.kind() == ErrorKind::NotFound => Ok(()),
        done => done,
    }
}

impl<R: Files + Drop> FileStore<R> {
    /// The store under a folder, by a runtime that reaches files.
    pub fn at(rt: R, folder: Text) -> FileStore<R>
        ensures { result.faults ≡ 0 }
    {
        FileStore {
            rt,
            folder,
            faults: 0,
        }
    }

    // The folder of the files.
    fn blocks(&self, alloc: Global) -> Result<String, AllocError>
        ensures { IfOk result (λ path. string_bytes path ≡ self.now.folder ++ codes "/blocks") }
    {
        let folder = self.folder.as_str();
        format!(in alloc; "{folder}/blocks")
    }

    // The file of a record.
    fn path(&self, alloc: Global, name: &Name) -> Result<String, AllocError>
        ensures { IfOk result (λ path.
            string_bytes path ≡ self.now.folder ++ (codes "/blocks/" ++ name_text name.now)) }
    {
        let folder = self.folder.as_str();
        format!(in alloc; "{folder}/blocks/{name}")
    }

    // The answer, with a failure counted.
    fn counted<T>(&mut self, answer: Result<T, StoreError>) -> Result<T, StoreError>
        ensures same { result ≡ answer }
        ensures cause { IsCaused self.old.faults self.new.faults result }
    {
        if let Err(StoreError::Failed) = &answer {
            self.faults = self.faults.saturating_add(1);
        }
        answer
    }
}

impl<R: Files + Drop> Store for FileStore<R> {
    ghost faults = { λ s. s.faults };

    ghost traffic = { λ s. None };

    fn get(&mut self, alloc: Global, name: &Name) -> Result<Option<Bytes>, StoreError> {
        let path = self.path(alloc, name)?;
        let answer = read_record(alloc, &self.rt, path.as_str());
        self.counted(answer)
    }

    fn put(&mut self, alloc: Global, name: &Name, bytes: &[u8]) -> Result<(), StoreError> {
        let folder = self.blocks(alloc)?;
        let path = self.path(alloc, name)?;
        let done = write_first(&self.rt, folder.as_str(), path.as_str(), bytes);
        self.counted(done.map_err(|error| store_error(&error)))
    }

    fn discard(&mut self, alloc: Global, name: &Name) -> Result<(), StoreError> {
        let path = self.path(alloc, name)?;
        let done = remove_record(&self.rt, path.as_str());
        self.counted(done.map_err(|error| store_error(&error)))
    }
}

/// The standard input.
#[derive(Drop)]
pub struct StdSource<R: Input + Drop> {
    rt: R,
    faults: u64,
}

impl<R: Input + Drop> StdSource<R> {
    /// The standard input of a runtime.
    pub fn new(rt: R) -> StdSource<R>
        ensures { result.faults ≡ 0 }
    {
        StdSource { rt, faults: 0 }
    }
}

impl<R: Input + Drop> Source for StdSource<R> {
    ghost faults = { λ s. s.faults };

    ghost left = { λ s. None };

    fn read(&mut self, into: &mut [u8]) -> Result<usize, Failed> {
        match self.rt.reader().read(into) {
            Ok(len) => Ok(len),
            Err(_) => {
                self.faults = self.faults.saturating_add(1);
                Err(Failed)
            }
        }
    }
}

/// The standard output. A reader that has gone is a failure like another.
#[derive(Drop)]
pub struct StdSink<R: Print + Drop> {
    rt: R,
    faults: u64,
}

impl<R: Print + Drop> StdSink<R> {
    /// The standard output of a runtime.
    pub fn new(rt: R) -> StdSink<R>
        ensures { result.faults ≡ 0 }
    {
        StdSink { rt, faults: 0 }
    }
}

impl<R: Print + Drop> Sink for StdSink<R> {
    ghost faults = { λ s. s.faults };

    ghost written = { λ s. None };

    fn write(&mut self, piece: &[u8]) -> Result<(), Failed> {
        if self.rt.write_all(piece).is_err() {
            self.faults = self.faults.saturating_add(1);
            return Err(Failed);
        }
        Ok(())
    }
}

#[cfg(test)]
mod tests {
    use super::*;
    use iris_name::FileId;
    use std::test::Fail;

    const FOLDER: &str = "iris-disk-test";

    const BLOCKS: &str = "iris-disk-test/blocks";

    const PATH: &str = "iris-disk-test/blocks/block-2-7";

    const ONE: Name = Name::Block {
        file: FileId(2),
        place: 7,
    };

    const OTHER: Name = Name::Entry { id: FileId(3) };

    // A store over a new folder.
    fn new_store<R: Files + Drop>(alloc: Global, rt: R) -> Result<FileStore<R>, Fail> {
        let _ = rt.remove_dir_all(alloc, FOLDER);
        rt.create_dir(FOLDER)?;
        let folder = Text::of(String::from_str(alloc, FOLDER)?);
        Ok(FileStore::at(rt, folder))
    }

    // The same, in which the folder of the records is there.
    fn begun_store<R: Files + Drop>(alloc: Global, rt: R) -> Result<FileStore<R>, Fail> {
        let store = new_store(alloc, rt)?;
        store.rt.create_dir(BLOCKS)?;
        Ok(store)
    }

    // Whether a get gives these bytes.
    fn gives<R: Files + Drop>(
        alloc: Global,
        store: &mut FileStore<R>,
        name: &Name,
        wanted: Option<&[u8]>,
    ) -> Result<bool, Fail> {
        let given = store.get(alloc, name)?;
        Ok(given.as_ref().map(|bytes| bytes.as_slice()) == wanted)
    }

    fn puts<R: Files + Drop>(
        alloc: Global,
        store: &mut FileStore<R>,
        bytes: &[u8],
    ) -> Result<bool, Fail> {
        store.put(alloc, &ONE, bytes)?;
        gives(alloc, store, &ONE, Some(bytes))
    }

    fn discards<R: Files + Drop>(alloc: Global, store: &mut FileStore<R>) -> Result<bool, Fail> {
        store.discard(alloc, &ONE)?;
        gives(alloc, store, &ONE, None)
    }

    // A file under another name, an old file's end that stays, an absent file that fails.
    #[test]
    fn keeps_records_in_files(rt: HostRuntime) -> Result<(), Fail> {
        let alloc = rt.alloc();
        let mut store = new_store(alloc, &rt)?;
        assert!(rt; discards(alloc, &mut store)? && gives(alloc, &mut store, &OTHER, None)?);
        for bytes in [b"a longer record".as_slice(), b"a record"] {
            assert!(rt; puts(alloc, &mut store, bytes)?);
        }
        assert_eq!(rt; fs::read(&rt, PATH)?.as_slice(), b"a record".as_slice());
        assert!(rt; gives(alloc, &mut store, &OTHER, None)? && discards(alloc, &mut store)?);
        Ok(fs::remove_dir_all(&rt, FOLDER)?)
    }

    // How many bytes a get gives, none where it fails.
    fn length<R: Files + Drop>(alloc: Global, store: &mut FileStore<R>) -> Option<usize> {
        match store.get(alloc, &ONE) {
            Ok(Some(bytes)) => Some(bytes.as_slice().len()),
            Ok(None) | Err(_) => None,
        }
    }

    // Whether a get, a put or a discard fails.
    fn fails<T: Drop>(answer: Result<T, StoreError>) -> bool {
        match answer {
            Err(StoreError::Failed) => true,
            Ok(_) | Err(StoreError::NoMemory) => false,
        }
    }

    // A file that can't be opened or read and is taken for an absent one, a write or a cut that failed and is taken for a put.
    // In the record's place stands a link: to itself, to a folder, to a device that takes nothing, to one that can't be cut.
    #[test]
    fn tells_failures_of_files(rt: HostRuntime) -> Result<(), Fail> {
        let alloc = rt.alloc();
        for (target, lost) in [
            ("block-2-7", true),
            (".", true),
            ("/dev/full", false),
            ("/dev/null", false),
        ] {
            let mut store = begun_store(alloc, &rt)?;
            rt.symlink(target, PATH)?;
            assert_eq!(rt; fails(store.get(alloc, &ONE)), lost, "{target}");
            assert!(rt; fails(store.put(alloc, &ONE, b"a record")), "{target}");
            assert_eq!(rt; store.faults, if lost { 2 } else { 1 }, "{target}");
        }
        Ok(fs::remove_dir_all(&rt, FOLDER)?)
    }

    // A folder that is taken away as a record.
    #[test]
    fn discards_no_folder(rt: HostRuntime) -> Result<(), Fail> {
        let mut store = begun_store(rt.alloc(), &rt)?;
        rt.create_dir(PATH)?;
        assert!(rt; fails(store.discard(rt.alloc(), &ONE)));
        assert!(rt; fs::metadata(&rt, PATH)?.is_dir());
        Ok(fs::remove_dir_all(&rt, FOLDER)?)
    }

    // An answer that is too long, or takes as much memory as the file has bytes.
    #[test]
    fn gives_the_front_of_a_file(rt: HostRuntime) -> Result<(), Fail> {
        let mut store = begun_store(rt.alloc(), &rt)?;
        let file = fs::File::create(&rt, PATH)?;
        for (len, given) in [
            (0, 0),
            (4128, 4128),
            (8192, 8192),
            (8193, 8192),
            (8_589_934_592, 8192),
        ] {
            file.set_len(len)?;
            assert_eq!(rt; length(rt.alloc(), &mut store), Some(given), "{len} bytes");
        }
        Ok(fs::remove_dir_all(&rt, FOLDER)?)
    }

    // A reader that gives pieces of these lengths, and then fails or is at its end.
    #[derive(Drop)]
    struct Pieces<'a> {
        lens: &'a [usize],
        fails: bool,
        reads: u32,
    }

    impl Read for Pieces<'_> {
        fn read(&mut self, buf: &mut [u8]) -> io::Result<usize> {
            self.reads = self.reads.saturating_add(1);
            match self.lens.split_first() {
                None if self.fails => Err(io::Error::from(ErrorKind::Other)),
                None => Ok(0),
                Some((len, rest)) => {
                    self.lens = rest;
                    Ok(buf.len().min(*len))
                }
            }
        }
    }

    // How many bytes are read, none where that fails, and by how many reads.
    fn filled(lens: &[usize], fails: bool) -> (Option<usize>, u32) {
        let mut pieces = Pieces {
            lens,
            fails,
            reads: 0,
        };
        let count = fill(&mut pieces, &mut [0; ASKED]).ok();
        (count, pieces.reads)
    }

    // A second read of a record that fits, a piece that is lost, an error in the midst that is taken for the end.
    #[test]
    fn reads_to_the_end(rt: HostRuntime) {
        let cases: [(&[usize], bool, Option<usize>, u32); 9] = [
            (&[], false, Some(0), 1),
            (&[39], false, Some(39), 1),
            (&[4128], false, Some(4128), 1),
            (&[4096, 32], false, Some(4128), 2),
            (&[512, 512, 1], false, Some(1025), 3),
            (&[8192], false, Some(8192), 2),
            (&[9000], false, Some(8193), 1),
            (&[4096], true, None, 2),
            (&[], true, None, 1),
        ];
        for (lens, fails, count, reads) in cases {
            assert_eq!(rt; filled(lens, fails), (count, reads), "{lens:?}");
        }
    }
}
