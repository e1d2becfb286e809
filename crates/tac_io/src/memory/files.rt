// Files in memory.
ghost use Rattle.std.specs.Prelude.{◌≡◌, ◌+◌, ◌<◌, ◌≤◌, ◌++◌, ◌∷◌, [], All, IfOk, length, min, max, take, map, position, vec_len, vec_capacity, string_bytes};
ghost use Rattle.std.specs.Option.{ForSome};
ghost use Rattle.tac_base.specs.declared.limits.TheConstants.{FILE_NAMES};
ghost use Rattle.tac_io.specs.Calls.{no_calls_yet};
ghost use Rattle.tac_io.specs.FileList.{IsSpare, content_of, is_named, file_left};

use crate::memory::faults::Faults;
use crate::memory::give::give;
use crate::{Failed, Files};
use std::alloc::{AllocError, Global};
use tac_base::limits::{FILE_NAMES, NAME_BYTES};

/// A file in memory.
#[derive(Drop)]
pub struct MemFile {
    /// The name by which `select` finds it.
    pub name: String,
    /// All its bytes.
    pub bytes: Vec<u8>,
}

/// Files in memory. They have room for 128 selected names of 1024 bytes each, and fail at the
/// calls that the caller lists.
#[derive(Drop)]
pub struct MemFiles {
    files: Vec<MemFile>,
    names: Vec<String>,
    // Empty texts, one for each name that can still be selected.
    spare: Vec<String>,
    // The index of the selected file, and how many of its bytes were read.
    selected: Option<usize>,
    at: usize,
    // The most bytes that a read gives.
    most_at_once: usize,
    faults: Faults,
    ghost spares: { All IsSpare spare.items },
    ghost counted: { vec_len names + vec_len spare ≡ FILE_NAMES },
    ghost room: { FILE_NAMES ≤ vec_capacity names },
    ghost found: { ForSome selected (λ i. i < vec_len files) },
}

impl MemFiles {
    ghost use Rattle.std.specs.Prelude.{false};
    ghost use Rattle.tac_io.specs.MemFiles.{files_calls, files_content, files_most, files_names, files_selected};

    /// Returns files, none of which is selected. Of two files with one name, the first is found. A
    /// read gives at most `most_at_once` bytes, and at least one if any is left. `failing` lists
    /// the calls that are to fail; calls of `select` and `read` are counted together, from 1.
    pub fn new(
        alloc: Global,
        files: Vec<MemFile>,
        most_at_once: usize,
        failing: Vec<u64>,
    ) -> Result<MemFiles, AllocError>
        ensures content { IfOk result (λ made. files_content made ≡ content_of files.items) }
        ensures names { IfOk result (λ made. files_names made ≡ []) }
        ensures selected { IfOk result (λ made. files_selected made ≡ false) }
        ensures most { IfOk result (λ made. files_most made ≡ most_at_once) }
        ensures calls { IfOk result (λ made. files_calls made ≡ no_calls_yet failing.items) }
    {
        let spare = spares(alloc)?;
        Ok(MemFiles {
            files,
            names: Vec::with_capacity(alloc, FILE_NAMES)?,
            spare,
            selected: None,
            at: 0,
            most_at_once,
            faults: Faults::new(failing),
        })
    }
}

impl Files for MemFiles {
    ghost use Rattle.std.specs.Prelude.{◌≡◌, ◌⊎◌, ◌↔◌, ◌<◌, ◌≤◌, ◌++◌, ◌∷◌, [], Some, None, IsTrue, IsErr, IfOk, OnOk, OnErr, length, take};
    ghost use Rattle.tac_io.specs.Calls.{IsNextToFail, after_call};
    ghost use Rattle.tac_io.specs.Counts.{HasCause};
    ghost use Rattle.tac_io.specs.MemFiles.{files_calls, files_content, files_left, files_most, files_names, files_selected, files_share};

    ghost state = { λ s. record {
      content = Some (files_content s);
      names = Some (files_names s);
      selected = files_selected s;
      left = Some (files_left s);
      faults = (files_calls s).faults;
    } };

    fn select(&mut self, name: &str) -> Result<(), Failed>
        requires { (length (files_names self.old) < FILE_NAMES) × (length name.now ≤ NAME_BYTES) }
        ensures fails { IsErr result ↔ (IsNextToFail (files_calls self.old) ⊎ (files_content self.old name.now ≡ None)) }
        ensures found { OnOk result (files_content self.old name.now ≡ Some (files_left self.new)) }
        ensures selected { OnOk result (IsTrue (files_selected self.new)) }
        ensures kept { OnErr result (files_left self.new ≡ files_left self.old) }
        ensures kept_selected { OnErr result (files_selected self.new ≡ files_selected self.old) }
        ensures names { files_names self.new ≡ files_names self.old ++ name.now ∷ [] }
        ensures content { files_content self.new ≡ files_content self.old }
        ensures most { files_most self.new ≡ files_most self.old }
        ensures calls { files_calls self.new ≡ after_call (files_calls self.old) result }
        ensures cause { HasCause (files_calls self.old).faults (files_calls self.new).faults result }
    {
        keep(&mut self.names, &mut self.spare, name);
        if self.faults.next_fails() {
            return Err(self.faults.add());
        }
        let Some(place) = place_of(&self.files, name) else {
            return Err(self.faults.add());
        };
        self.selected = Some(place);
        self.at = 0;
        Ok(())
    }

    fn read(&mut self, into: &mut [u8]) -> Result<usize, Failed>
        requires room { 0 < length into.old }
        requires selected { IsTrue (files_selected self.old) }
        ensures fails { IsErr result ↔ IsNextToFail (files_calls self.old) }
        ensures share { IfOk result (λ n. n ≡ files_share self.old (length into.new)) }
        ensures end { IfOk result (λ n. n ≡ 0 → files_left self.old ≡ []) }
        ensures given { IfOk result (λ n. files_left self.old ≡ take n into.new ++ files_left self.new) }
        ensures kept { OnErr result (files_left self.new ≡ files_left self.old) }
        ensures selected { IsTrue (files_selected self.new) }
        ensures names { files_names self.new ≡ files_names self.old }
        ensures content { files_content self.new ≡ files_content self.old }
        ensures most { files_most self.new ≡ files_most self.old }
        ensures calls { files_calls self.new ≡ after_call (files_calls self.old) result }
        ensures cause { HasCause (files_calls self.old).faults (files_calls self.new).faults result }
    {
        if self.faults.next_fails() {
            return Err(self.faults.add());
        }
        let place = self.selected.unwrap();
        Ok(give_from(&self.files, place, &mut self.at, self.most_at_once, into))
    }

    fn faults(&self) -> u64 {
        self.faults.count()
    }
}

// Returns the index of the first file with that name.
fn place_of(files: &[MemFile], name: &str) -> Option<usize>
    ensures { result ≡ position (is_named name.now) files.now }
{
    files.iter().position(|file| file.name.as_str() == name)
}

// Gives the next bytes of a file from the position `at`, and advances `at`.
fn give_from(files: &[MemFile], place: usize, at: &mut usize, most: usize, into: &mut [u8]) -> usize
    requires within { place < length files.now }
    requires room { 0 < length into.old }
    ensures count { result
        ≡ min (length into.new) (min (max 1 most) (length (file_left files.now place at.old))) }
    ensures end { result ≡ 0 → file_left files.now place at.old ≡ [] }
    ensures given { file_left files.now place at.old
        ≡ take result into.new ++ file_left files.now place at.new }
{
    let bytes = files[place].bytes.as_slice();
    let start = (*at).min(bytes.len());
    let (_, left) = bytes.split_at(start);
    let count = give(left, most, into);
    *at = start + count;
    count
}

// Returns empty texts, each with room for a name.
fn spares(alloc: Global) -> Result<Vec<String>, AllocError>
    ensures { IfOk result (λ spares. (vec_len spares ≡ FILE_NAMES) × All IsSpare spares.items) }
{
    let mut spares = Vec::new(alloc);
    for _ in 0..FILE_NAMES {
        spares.push(String::with_capacity(alloc, NAME_BYTES)?)?;
    }
    Ok(spares)
}

// Stores a name in one of the spare texts, which allocates no memory.
fn keep(names: &mut Vec<String>, spare: &mut Vec<String>, name: &str)
    requires one { 0 < vec_len spare.old }
    requires spares { All IsSpare spare.old.items }
    requires room { vec_len names.old < vec_capacity names.old }
    requires short { length name.now ≤ NAME_BYTES }
    ensures kept { map string_bytes names.new.items
        ≡ map string_bytes names.old.items ++ name.now ∷ [] }
    ensures spares { All IsSpare spare.new.items }
    ensures count { vec_len names.new ≡ vec_len names.old + 1 }
    ensures spare_count { vec_len spare.new + 1 ≡ vec_len spare.old }
    ensures capacity { vec_capacity names.old ≤ vec_capacity names.new }
{
    let mut kept = spare.pop().unwrap();
    if kept.push_str(name).is_err() {
        unreachable!()
    }
    if names.push(kept).is_err() {
        unreachable!()
    }
}
