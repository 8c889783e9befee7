// Files in memory.
ghost use Rattle.std.specs.Prelude.{◌≡◌, ◌≢◌, ◌≤◌, ◌<◌, Err, ℕ, List, [], Some, length, vec_capacity, map, IfOk, IfSome, IsErrOf, IsSome, IsSomeAnd, IsTrue, OnOk, is_ok, option_copied};
ghost use Rattle.std.specs.List.{position};
ghost use Rattle.std.specs.Str.{bytes_eq};
ghost use Rattle.xd_edge.specs.Faults.{Counted};
ghost use Rattle.xd_edge.specs.Files.{read_not_failed, HasFile, HasLarger};
ghost use Rattle.xd_memory.specs.MemFiles.{file_named, file_of, held_by};

use crate::MemFile;
use std::alloc::Global;
use xd_edge::{Blob, Failed, FaultPlan, FileFault, Files, Indices, OutOfMemory, Text};

/// Files in memory. Of two files of one name the first is read and written. What is written needs a file of that name
/// with room for it.
#[derive(Drop)]
pub struct MemFiles {
    pub files: Vec<MemFile>,
    pub plan: FaultPlan,
}

impl MemFiles {
    /// These files, each a name, its bytes, and how many bytes can be written to it.
    pub fn new(
        alloc: Global,
        files: Vec<(Text, Blob, u32)>,
        fails: Indices,
    ) -> Result<MemFiles, OutOfMemory>
        ensures files { IfOk result (λ f. map file_of f.files.items ≡ files.items) }
        ensures fails { IfOk result (λ f. f.plan.fails ≡ fails) }
        ensures count { IfOk result (λ f. f.plan.faults ≡ 0) }
    {
        let mut held = Vec::with_capacity(alloc, files.len())?;
        for (name, bytes, room) in files {
            held.push(MemFile::with_room(name, bytes, room)?)?;
        }
        Ok(MemFiles {
            files: held,
            plan: FaultPlan::new(fails),
        })
    }
}

fn find_file<'a>(files: &'a [MemFile], name: &Text) -> Option<&'a MemFile>
    ensures { option_copied result ≡ file_named files.now name.now }
{
    files.iter().find(|file| file.name.is_same(name))
}

fn place_of(files: &[MemFile], name: &Text) -> Option<usize>
    ensures { result ≡ position (λ f. bytes_eq f.name name.now) files.now }
{
    files.iter().position(|file| file.name.is_same(name))
}

// A copy of these bytes, where they are at most so many.
fn copy_within(alloc: Global, bytes: &[u8], limit: u64) -> Result<Blob, FileFault>
    ensures bytes { IfOk result (λ b. b ≡ bytes.now) }
    ensures within { IfOk result (λ b. length b ≤ limit) }
    ensures large { IsErrOf result FileFault.TooLarge → limit < length bytes.now }
    ensures told { result ≢ Err FileFault.Failed }
{
    if bytes.len() as u64 > limit {
        return Err(FileFault::TooLarge);
    }
    match Blob::of(alloc, bytes) {
        Ok(bytes) => Ok(bytes),
        Err(_) => Err(FileFault::OutOfMemory),
    }
}

// Writes to the first file of this name, and says whether there is one with room for the bytes.
fn write_named(files: &mut [MemFile], name: &Text, bytes: &[u8]) -> bool
    ensures written { IsTrue result → held_by files.new name.now ≡ Some bytes.now }
    ensures others { (other : List ℕ) → other ≢ name.now →
        held_by files.new other ≡ held_by files.old other }
    ensures room { IsSomeAnd (file_named files.old name.now) (λ f. length bytes.now ≤ f.room) →
        IsTrue result }
{
    match place_of(files, name) {
        Some(place) => files[place].write(bytes),
        None => false,
    }
}

impl Files for MemFiles {
    ghost faults = { λ s. s.plan.faults };

    ghost held = { λ s. Some (held_by s.files.items) };

    fn read_file(&mut self, alloc: Global, path: &Text, limit: u64) -> Result<Blob, FileFault>
        ensures bytes { IfOk result (HasFile (Some (held_by self.old.files.items)) path.now) }
        ensures within { IfOk result (λ b. length b ≤ limit) }
        ensures large { IsErrOf result FileFault.TooLarge →
            HasLarger (Some (held_by self.old.files.items)) path.now limit }
        ensures kept { self.new.files ≡ self.old.files }
        ensures fails { self.new.plan.fails ≡ self.old.plan.fails }
        ensures counted { Counted
            (read_not_failed result) self.old.plan.faults self.new.plan.faults }
        ensures calm { self.old.plan.fails ≡ [] → IsSome (held_by self.old.files.items path.now) →
            self.new.plan.faults ≡ self.old.plan.faults }
    {
        if self.plan.step().is_err() {
            return Err(FileFault::Failed);
        }
        match find_file(&self.files, path) {
            None => {
                self.plan.fault();
                Err(FileFault::Failed)
            }
            Some(file) => copy_within(alloc, file.bytes.as_slice(), limit),
        }
    }

    fn write_file(&mut self, path: &Text, bytes: &[u8]) -> Result<(), Failed>
        ensures written { OnOk result (held_by self.new.files.items path.now ≡ Some bytes.now) }
        ensures others { (name : List ℕ) → name ≢ path.now →
            held_by self.new.files.items name ≡ held_by self.old.files.items name }
        ensures fails { self.new.plan.fails ≡ self.old.plan.fails }
        ensures counted { Counted (is_ok result) self.old.plan.faults self.new.plan.faults }
        ensures calm { self.old.plan.fails ≡ [] →
            IsSomeAnd (file_named self.old.files.items path.now) (λ f. length bytes.now ≤ f.room) →
            self.new.plan.faults ≡ self.old.plan.faults }
    {
        self.plan.step()?;
        if write_named(&mut self.files, path, bytes) {
            return Ok(());
        }
        Err(self.plan.fault())
    }
}
