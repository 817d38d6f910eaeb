//! Disks in memory: with the files of an image, stopped, and left by a crash.

use bt_base::{OutOfMemory, Plain};
use bt_outside::{DiskImage, MemoryDisk};
use std::alloc::Global;

/// A disk whose files were never written.
pub fn new_disk(alloc: Global) -> MemoryDisk {
    MemoryDisk::new(alloc)
}

/// A disk with these files.
pub fn disk_of(alloc: Global, image: &DiskImage) -> Result<MemoryDisk, OutOfMemory> {
    let image = image.copy(alloc)?;
    Ok(MemoryDisk::from_image(alloc, image))
}

/// Lets each call from this one on fail.
pub fn stop(disk: &mut MemoryDisk, call: u64) {
    disk.stop_at(call);
}

/// Lets this call fail.
pub fn fail(disk: &mut MemoryDisk, call: u64) -> Result<(), OutOfMemory> {
    disk.fail_calls(&[call])
}

/// What a crash leaves, by this choice: at 1 all bytes as they are read.
pub fn image_of(disk: &MemoryDisk, choice: u8) -> Result<DiskImage, OutOfMemory> {
    disk.image(choice)
}

/// The disk that a crash leaves, by this choice.
pub fn left_disk(alloc: Global, disk: &MemoryDisk, choice: u8) -> Result<MemoryDisk, OutOfMemory> {
    let image = image_of(disk, choice)?;
    disk_of(alloc, &image)
}

/// The bytes of a file.
pub fn bytes_of(image: &DiskImage, number: u64) -> &[u8] {
    for file in image.files.items() {
        if file.number == number {
            return file.bytes.bytes();
        }
    }
    &[]
}

// Whether each file that one image lists is the same in the other.
fn has_all(image: &DiskImage, other: &DiskImage) -> bool {
    image
        .files
        .items()
        .iter()
        .all(|file| bytes_of(other, file.number) == file.bytes.bytes())
}

/// Whether two images have the same files.
pub fn are_alike(image: &DiskImage, other: &DiskImage) -> bool {
    has_all(image, other) && has_all(other, image)
}
