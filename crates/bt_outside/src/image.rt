//! What a crash of a disk may leave, as data.
ghost use Rattle.std.specs.Prelude.{◌≡◌};
ghost use Rattle.bt_outside.specs.DiskImage.{files_of};

use crate::FileList;
use bt_base::{Blob, OutOfMemory, Plain};
use std::alloc::Global;

/// The bytes of a file.
#[derive(Debug, Drop)]
pub struct FileBytes {
    pub number: u64,
    pub bytes: Blob,
}

impl Plain for FileBytes {
    fn copy(&self, alloc: Global) -> Result<FileBytes, OutOfMemory> {
        Ok(FileBytes {
            number: self.number,
            bytes: self.bytes.copy(alloc)?,
        })
    }
}

/// The bytes of each file. A file that is not in the list is empty, and of two items of one number
/// the first counts.
#[derive(Debug, Drop)]
pub struct DiskImage {
    pub files: FileList,
}

impl Plain for DiskImage {
    fn copy(&self, alloc: Global) -> Result<DiskImage, OutOfMemory> {
        Ok(DiskImage {
            files: self.files.copy(alloc)?,
        })
    }
}

/// The bytes of the first one of that number.
pub fn find_bytes(files: &FileList, number: u64) -> &[u8]
    ensures { result.now ≡ files_of files.now number }
{
    for file in files.items() {
        if file.number == number {
            return file.bytes.bytes();
        }
    }
    &[]
}
