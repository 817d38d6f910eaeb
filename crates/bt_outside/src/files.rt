//! The files of a disk in memory, and how a call changes them.
ghost use Rattle.std.specs.Prelude.{◌≡◌, ◌↔◌, ◌≢◌, ◌<◌, ◌≤◌, ℕ, ◌+◌, [], ◌∷◌, ◌++◌, List, Bool, true, false, length, take, drop, min, max, IfOk, OnOk, OnErr, IfSome, IfNone, IsNone, IsTrue, get_or};
ghost use Rattle.bt_outside.specs.Model.{State, settled, Touched, IsBounded, Chosen, after_write, after_cut, after_sync};
ghost use Rattle.bt_outside.specs.FileStates.{OfFile, lookup, IsPlace};
ghost use Rattle.bt_outside.specs.DiskSteps.{Stayed, CanBe};
ghost use Rattle.bt_outside.specs.DiskImage.{files_of, start_of, IsImageOf};
ghost use Rattle.bt_outside.specs.History.{after_kind, step_of};

use crate::FileList;
use crate::calls::{Call, Kind};
use crate::image::{FileBytes, find_bytes};
use bt_base::{Blob, OutOfMemory, Plain};
use std::alloc::{AllocError, Global};
use std::marker::Model;

#[derive(Drop)]
pub struct FileState {
    number: u64,
    bytes: Vec<u8>,
    stable: Vec<u8>,
    touched: Vec<(u64, u64)>,
    least: u64,
    greatest: u64,
}

impl Model for FileState {
    ghost Value = { OfFile };

    ghost view = { λ f. record {
      number = f.number;
      state = record { bytes = f.bytes.items; stable = f.stable.items; touched = f.touched.items; least = f.least; greatest = f.greatest };
    } };
}

impl FileState {
    /// A file with these bytes, all of them stable.
    fn load(alloc: Global, number: u64, bytes: &[u8]) -> Result<FileState, AllocError>
        ensures { IfOk result (λ file. file ≡ record { number = number; state = settled bytes.now }) }
    {
        Ok(FileState {
            number,
            bytes: bytes.to_vec(alloc)?,
            stable: bytes.to_vec(alloc)?,
            touched: Vec::new(alloc),
            least: bytes.len() as u64,
            greatest: bytes.len() as u64,
        })
    }

    pub fn number(&self) -> u64
        ensures { result ≡ self.now.number }
    {
        self.number
    }

    pub fn bytes(&self) -> &[u8]
        ensures { result.now ≡ self.now.state.bytes }
    {
        &self.bytes
    }

    fn write(&mut self, at: u64, bytes: &[u8], failed: bool) -> Result<(), AllocError>
        requires { at ≤ length self.old.state.bytes }
        ensures ok { OnOk result (self.new ≡ record { number = self.old.number; state = after_write at bytes.now failed self.old.state }) }
        ensures err { OnErr result (self.new ≡ self.old) }
    {
        let held = self.bytes.len() as u64;
        let end = at.min(held) + bytes.len() as u64;
        self.touched.try_reserve(1)?;
        if !failed {
            put(&mut self.bytes, at as usize, bytes)?;
        }
        self.touched.push((at, end))?;
        self.greatest = self.greatest.max(end);
        Ok(())
    }

    fn cut(&mut self, n: u64, failed: bool) -> Result<(), AllocError>
        requires { n ≤ length self.old.state.bytes }
        ensures ok { OnOk result (self.new ≡ record { number = self.old.number; state = after_cut n failed self.old.state }) }
        ensures err { OnErr result (self.new ≡ self.old) }
    {
        self.touched.push((n, u64::MAX))?;
        if !failed {
            self.bytes.truncate(n as usize);
        }
        self.least = self.least.min(n);
        Ok(())
    }

    fn sync(&mut self, alloc: Global, failed: bool) -> Result<(), AllocError>
        ensures ok { OnOk result (self.new ≡ record { number = self.old.number; state = after_sync failed self.old.state }) }
        ensures err { OnErr result (self.new ≡ self.old) }
    {
        if failed {
            return Ok(());
        }
        self.stable = self.bytes.to_vec(alloc)?;
        self.touched.clear();
        self.least = self.bytes.len() as u64;
        self.greatest = self.bytes.len() as u64;
        Ok(())
    }

    /// The bytes that this choice leaves of the file.
    pub fn image(&self, alloc: Global, choice: u8) -> Result<Vec<u8>, AllocError>
        ensures { IsBounded self.now.state → IfOk result (λ bytes. Chosen choice self.now.state bytes.items) }
    {
        let greatest = self.greatest as usize;
        match choice {
            0 => stable_image(alloc, &self.stable, self.least as usize, greatest),
            1 => self.bytes.to_vec(alloc),
            _ => filled_image(alloc, &self.stable, &self.touched, greatest, choice - 1),
        }
    }

    fn apply(&mut self, alloc: Global, kind: &Kind, failed: bool) -> Result<(), AllocError>
        requires { CanBe kind.now self.old.state }
        ensures ok { OnOk result (self.new ≡ record { number = self.old.number; state = after_kind kind.now failed self.old.state }) }
        ensures err { OnErr result (self.new ≡ self.old) }
    {
        match kind {
            Kind::Length => Ok(()),
            Kind::Read(_, _) => Ok(()),
            Kind::Write(at, bytes) => self.write(*at, bytes, failed),
            Kind::Cut(n) => self.cut(*n, failed),
            Kind::Sync => self.sync(alloc, failed),
        }
    }
}

// Writes these bytes from that place on, over what is there and past the end.
fn put(held: &mut Vec<u8>, place: usize, bytes: &[u8]) -> Result<(), AllocError>
    requires { place ≤ length held.old.items }
    ensures ok { OnOk result (held.new.items ≡ take place held.old.items ++ bytes.now ++ drop (place + length bytes.now) held.old.items) }
    ensures err { OnErr result (held.new.items ≡ held.old.items) }
{
    let over = bytes.len().min(held.len() - place);
    held.extend_from_slice(&bytes[over..])?;
    held[place..place + over].copy_from_slice(&bytes[..over]);
    Ok(())
}

// The stable bytes, in the nearest length between these.
fn stable_image(
    alloc: Global,
    stable: &[u8],
    least: usize,
    greatest: usize,
) -> Result<Vec<u8>, AllocError>
    ensures size { least ≤ greatest → IfOk result (λ bytes. length bytes.items ≡ max least (min (length stable.now) greatest)) }
    ensures same { IfOk result (λ bytes. (i : ℕ) → i < length bytes.items → i < length stable.now → get_or bytes.items i 0 ≡ get_or stable.now i 0) }
{
    let mut bytes = stable[..stable.len().min(greatest)].to_vec(alloc)?;
    while bytes.len() < least.min(greatest) {
        bytes.push(0)?;
    }
    Ok(bytes)
}

fn is_touched(ranges: &[(u64, u64)], place: u64) -> bool
    ensures { IsTrue result ↔ Touched ranges.now place }
{
    for range in ranges {
        if range.0 <= place && place < range.1 {
            return true;
        }
    }
    false
}

// The greatest length, and this byte at each place that is not stable.
fn filled_image(
    alloc: Global,
    stable: &[u8],
    touched: &[(u64, u64)],
    greatest: usize,
    fill: u8,
) -> Result<Vec<u8>, AllocError>
    ensures size { IfOk result (λ bytes. length bytes.items ≡ greatest) }
    ensures filled { IfOk result (λ bytes. (i : ℕ) → i < length bytes.items → Touched touched.now i → get_or bytes.items i 0 ≡ fill) }
    ensures same { IfOk result (λ bytes. (i : ℕ) → i < length bytes.items → i < length stable.now → (Touched touched.now i → ⊥) → get_or bytes.items i 0 ≡ get_or stable.now i 0) }
{
    let mut bytes = Vec::new(alloc);
    for i in 0..greatest {
        let byte = if i >= stable.len() || is_touched(touched, i as u64) {
            fill
        } else {
            stable[i]
        };
        bytes.push(byte)?;
    }
    Ok(bytes)
}

// What this choice leaves of these files.
fn changed_of(alloc: Global, files: &[FileState], choice: u8) -> Result<Vec<FileBytes>, OutOfMemory>
    ensures { IfOk result (λ image. IsImageOf choice image.items files.now) }
{
    let mut image = Vec::new(alloc);
    for file in files {
        let bytes = Blob::from_vec(file.image(alloc, choice)?);
        image.push(FileBytes {
            number: file.number(),
            bytes,
        })?;
    }
    Ok(image)
}

// Copies of those that are not among these files.
fn unchanged_of(
    alloc: Global,
    files: &[FileState],
    base: &FileList,
) -> Result<Vec<FileBytes>, OutOfMemory>
    ensures { IfOk result (λ rest. (n : ℕ) → ((k : ℕ) → IsPlace files.now n k → ⊥) → files_of rest.items n ≡ files_of base.now n) }
{
    let mut rest = Vec::new(alloc);
    for file in base.items() {
        if place_of(files, file.number).is_none() {
            rest.push(file.copy(alloc)?)?;
        }
    }
    Ok(rest)
}

/// What this choice leaves of all files: those that were called on, and those of the base.
pub fn image_of(
    alloc: Global,
    files: &[FileState],
    base: &FileList,
    choice: u8,
) -> Result<Vec<FileBytes>, OutOfMemory>
    ensures { ((n : ℕ) → IsBounded (lookup (start_of base.now) files.now n)) → IfOk result (λ image. (n : ℕ) → Chosen choice (lookup (start_of base.now) files.now n) (files_of image.items n)) }
{
    let mut image = changed_of(alloc, files, choice)?;
    let mut rest = unchanged_of(alloc, files, base)?;
    image.append(&mut rest)?;
    Ok(image)
}

// The place of the first one of that number.
fn place_of(files: &[FileState], number: u64) -> Option<usize>
    ensures found { IfSome result (λ place. IsPlace files.now number place) }
    ensures within { IfSome result (λ place. place < length files.now) }
    ensures none { IsNone result → (k : ℕ) → IsPlace files.now number k → ⊥ }
    ensures start { IsNone result → (start : ℕ → State) → lookup start files.now number ≡ start number }
{
    for i in 0..files.len() {
        if files[i].number() == number {
            return Some(i);
        }
    }
    None
}

/// The bytes of the file of that number.
pub fn bytes_of<'a>(files: &'a [FileState], base: &'a FileList, number: u64) -> &'a [u8]
    ensures { result.now ≡ (lookup (start_of base.now) files.now number).bytes }
{
    match place_of(files, number) {
        Some(place) => files[place].bytes(),
        None => find_bytes(base, number),
    }
}

// The place of the first file of that number, which is taken from the base where there is none.
fn place_or_load(
    files: &mut Vec<FileState>,
    base: &FileList,
    alloc: Global,
    number: u64,
) -> Result<usize, AllocError>
    ensures place { IfOk result (λ place. IsPlace files.new.items number place) }
    ensures same { (other : ℕ) → lookup (start_of base.now) files.new.items other ≡ lookup (start_of base.now) files.old.items other }
{
    match place_of(files, number) {
        Some(place) => Ok(place),
        None => {
            let file = FileState::load(alloc, number, find_bytes(base, number))?;
            files.push(file)?;
            Ok(files.len() - 1)
        }
    }
}

/// Makes a call on its file, and keeps it.
pub fn keep(
    files: &mut Vec<FileState>,
    base: &FileList,
    calls: &mut Vec<Call>,
    alloc: Global,
    call: Call,
) -> Result<(), AllocError>
    requires { CanBe call.kind (lookup (start_of base.now) files.old.items call.file) }
    ensures ok { OnOk result ((calls.new.items ≡ calls.old.items ++ call ∷ []) × ((other : ℕ) → lookup (start_of base.now) files.new.items other ≡ step_of call (lookup (start_of base.now) files.old.items) other)) }
    ensures err { OnErr result (Stayed (start_of base.now) files.old.items files.new.items calls.old.items calls.new.items) }
{
    calls.try_reserve(1)?;
    let place = place_or_load(files, base, alloc, call.file)?;
    files[place].apply(alloc, &call.kind, call.failed)?;
    calls.push(call)?;
    Ok(())
}
