// Printing. A write that fails is told on standard error.
ghost use Rattle.std.specs.Prelude.{◌≡◌, length};

use crate::failing::tell;

// How many bytes were handed to a write, and whether it failed. No Result, since they were handed to it in both cases.
#[derive(Clone, Copy)]
pub struct Handed {
    pub size: usize,
    pub failed: bool,
}

// Hands the text to a write.
pub fn print(rt: &HostRuntime, text: &[u8]) -> Handed
    ensures { result.size ≡ length text.now }
{
    // a match, since an error is told
    let failed = match rt.write_all(text) {
        Ok(()) => false,
        Err(error) => {
            tell(rt, "standard output", error);
            true
        }
    };
    Handed {
        size: text.len(),
        failed,
    }
}
