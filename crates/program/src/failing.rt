// Failures of reading and writing.
use std::io;

// Tells on standard error what failed, and why. Where that can't be written either, nobody can be told.
pub fn tell(rt: &HostRuntime, what: &str, error: io::Error) {
    let _told = eprintln!(rt; "{what}: {error}");
}
