//! The files that the arguments of a call name.
ghost use Rattle.std.specs.Prelude.{◌≡◌, IfErr, IfOk, IfSome, None};
ghost use Rattle.cachesim.specs.DebugOutput.{KnownFiles};

use std::alloc::Global;

/// As many bytes as a file has at most: 2^30.
pub const MAX_FILE_BYTES: usize = 1 << 30;

/// Why a file gave no bytes.
#[derive(Clone, Copy)]
pub enum FileFault {
    /// The allocation for the bytes failed.
    OutOfMemory,
    /// There is no such file, it cannot be read, or it has over 2^30 bytes.
    NoFile,
}

/// Where the files are.
pub trait Files {
    /// What is known of the bytes of each file.
    ghost known: { Self → KnownFiles };

    /// All bytes of the file at the path. A file whose bytes are known is found.
    fn bytes(&self, alloc: Global, path: &str) -> Result<Vec<u8>, FileFault>
        ensures bytes { IfOk result (λ bytes. IfSome (known self.now path.now) (λ xs. bytes.items ≡ xs)) }
        ensures found { IfErr result (λ fault. fault ≡ FileFault.NoFile → known self.now path.now ≡ None) };
}

/// One file, at a path, and no other.
#[derive(Drop)]
pub struct FileInMemory<'a> {
    pub path: &'a str,
    pub bytes: &'a [u8],
}

impl<'a> Files for FileInMemory<'a> {
    ghost use Rattle.std.specs.Prelude.{if◌then◌else◌, None, Some};
    ghost use Rattle.std.specs.Str.{bytes_eq};

    ghost known = { λ file path. if bytes_eq path file.path.now then Some file.bytes.now else None };

    fn bytes(&self, alloc: Global, path: &str) -> Result<Vec<u8>, FileFault> {
        if path != self.path {
            return Err(FileFault::NoFile);
        }
        match self.bytes.to_vec(alloc) {
            Ok(bytes) => Ok(bytes),
            Err(_) => Err(FileFault::OutOfMemory),
        }
    }
}
