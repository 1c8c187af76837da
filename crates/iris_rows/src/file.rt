//! The file of a row.

ghost use Rattle.std.specs.Prelude.{◌≡◌, ◌<◌, ◌≤◌, ◌+◌, ◌-◌, ◌/◌, ◌%◌, ◌^◌, ◌==◌, length, take, drop, IfOk, OnOk, OnErr};
ghost use Rattle.iris_plain.specs.Checks.{blocks_of};
ghost use Rattle.iris_rows.specs.Rows.{empty_file};
ghost use Rattle.iris_rows.specs.FileChanges.{file_written, cut, freed, count_written};
ghost use Rattle.iris_rows.specs.View.{content, joined};
ghost use Rattle.iris_rows.specs.Places.{StoredPlaces, ArePlacesKept, file_of, hole};

use crate::places::{Place, are_holes, free, joined, refit, write_over};
use iris_name::{Bytes, NoMemory};
use iris_plain::bytes::piece;
use iris_plain::checks::blocks_of;
use std::alloc::Global;
use std::marker::Model;

/// A file: its length, its counter of writes, and its places up to its number of blocks.
#[derive(Drop)]
pub struct FileRow {
    size: u64,
    counter: u64,
    places: Vec<Place>,
}

impl Model for FileRow {
    ghost use Rattle.iris_rows.specs.Places.{StoredPlaces, ArePlacesKept};

    ghost Value = { StoredPlaces };

    ghost view = { λ f. record { size = f.size; counter = f.counter; places = f.places.items } };

    ghost invariant = { λ f.
        ArePlacesKept (record { size = f.size; counter = f.counter; places = f.places.items }) };
}

impl FileRow {
    /// A file of no bytes.
    pub fn new(alloc: Global) -> FileRow
        ensures { file_of result ≡ empty_file }
    {
        FileRow {
            size: 0,
            counter: 0,
            places: Vec::new(alloc),
        }
    }

    /// The length.
    pub fn size(&self) -> u64
        ensures { result ≡ self.now.size }
    {
        self.size
    }

    /// How many writes it has had.
    pub fn counter(&self) -> u64
        ensures counter { result ≡ self.now.counter }
        ensures kept { ArePlacesKept self.now }
    {
        self.counter
    }

    /// Its places, up to its number of blocks.
    pub fn places(&self) -> &[Place]
        ensures places { result.now ≡ self.now.places }
        ensures kept { ArePlacesKept self.now }
    {
        self.places.as_slice()
    }

    /// Writes bytes at an offset. Each place that they touch gets the counter's new number.
    pub fn write(&mut self, alloc: Global, offset: u64, bytes: &[u8]) -> Result<(), NoMemory>
        requires some { 0 < length bytes.now }
        requires room { offset + length bytes.now ≤ 268435456 }
        requires counter { self.old.counter < 2 ^ 63 }
        ensures ok { OnOk result (file_of self.new ≡
            file_written offset bytes.now (file_of self.old)) }
        ensures err { OnErr result (self.new ≡ self.old) }
    {
        let size = self.size;
        let counter = self.counter;
        write_over(alloc, &mut self.places, size, counter, offset, bytes)?;
        self.size = size.max(offset + bytes.len() as u64);
        self.counter = counter + 1;
        Ok(())
    }

    /// Changes the length. Places past it become holes, and the place that it splits gets the counter's new number.
    pub fn resize(&mut self, alloc: Global, size: u64) -> Result<(), NoMemory>
        requires room { size ≤ 268435456 }
        requires counter { self.old.counter < 2 ^ 63 }
        ensures ok { OnOk result (file_of self.new ≡ cut size (file_of self.old)) }
        ensures err { OnErr result (self.new ≡ self.old) }
    {
        let old = self.size;
        let counter = self.counter;
        refit(alloc, &mut self.places, old, counter, size)?;
        self.size = size;
        self.counter = counter + 1;
        Ok(())
    }

    /// Makes the first 16 places that are no holes holes.
    pub fn free(&mut self)
        ensures { file_of self.new ≡ freed (file_of self.old) }
    {
        free(self.places.as_mut_slice());
    }

    /// Whether each place is a hole.
    pub fn is_free(&self) -> bool
        ensures { result ≡
            (count_written (file_of self.now).version (blocks_of self.now.size) == 0) }
    {
        are_holes(self.places.as_slice())
    }

    /// The bytes from an offset, so many or to the end.
    pub fn read(&self, alloc: Global, offset: u64, count: u64) -> Result<Bytes, NoMemory>
        ensures { IfOk result (λ bytes.
            bytes ≡ take count (drop offset (content (file_of self.now)))) }
    {
        if offset >= self.size {
            return Ok(Bytes::of(Vec::new(alloc)));
        }
        let count = count.min(self.size - offset);
        let first = offset / 4096;
        let blocks = blocks_of(offset % 4096 + count);
        let bytes = joined(
            alloc,
            self.places.as_slice(),
            first as usize,
            blocks as usize,
        )?;
        piece(alloc, &Bytes::of(bytes), offset % 4096, count)
    }
}
