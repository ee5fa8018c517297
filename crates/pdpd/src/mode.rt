//! Modes of files, as the system has them: who can read a file.

/// The bits of a file's mode by which its group and all others can read it.
const OTHERS_READ: u32 = 0o044;

/// Whether others than its owner can read a file of that mode.
pub fn lets_others_read(mode: u32) -> bool {
    mode & OTHERS_READ != 0
}
