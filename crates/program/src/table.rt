// The table's file.
ghost use Rattle.std.specs.Prelude.{◌≤◌, length, IfOk, IfSome};

use crate::failing::tell;
use std::fs::File;
use std::io::{ErrorKind, Read};
use std::{fs, io};

// Reads until the table is full or the file ends; how many bytes that were.
fn read_to_end(file: &mut File, table: &mut [u8]) -> io::Result<usize>
    ensures { IfOk result (λ size. size ≤ length table.new) }
{
    let mut size: usize = 0;
    // no `for`: each read says how far it came
    while size < table.len() {
        match file.read(&mut table[size..])? {
            0 => break,
            more => size += more,
        }
    }
    Ok(size)
}

// "first 32,768 bytes; a missing file is an empty table"
fn read_file(rt: &HostRuntime, table: &mut [u8]) -> io::Result<usize>
    ensures { IfOk result (λ size. size ≤ length table.new) }
{
    match fs::open(rt, "rules.tab") {
        Ok(mut file) => read_to_end(&mut file, table),
        Err(error) if error.kind() == ErrorKind::NotFound => Ok(0),
        Err(error) => Err(error),
    }
}

// The table's file goes to the start of the table; how many bytes it has. One that is there and can't be read is told on standard error.
pub fn read_table(rt: &HostRuntime, table: &mut [u8]) -> Option<usize>
    ensures { IfSome result (λ size. size ≤ length table.new) }
{
    match read_file(rt, table) {
        Ok(size) => Some(size),
        Err(error) => {
            tell(rt, "rules.tab", error);
            None
        }
    }
}
