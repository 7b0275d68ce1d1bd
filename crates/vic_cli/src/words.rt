//! The words of the command line.

use std::alloc::Global;
use std::env::Env;
use std::{env, io};
use vic_dict::NoMemory;

/// The words behind the program's name; none where they aren't all text. It takes memory for them.
pub fn words_of<R: Env + Alloc<A = Global>>(rt: &R) -> Result<Vec<String>, NoMemory> {
    match env::args(rt) {
        Ok(words) => Ok(words.skip(1).collect(rt.alloc())?),
        Err(fault) => {
            if fault.kind() == io::ErrorKind::OutOfMemory {
                Err(NoMemory)
            } else {
                Ok(Vec::new(rt.alloc()))
            }
        }
    }
}
