//! The arguments of a command line.

use std::alloc::AllocError;
use std::env;
use std::io::ErrorKind;

/// Returns the arguments after the name of the program, or an empty list if one of them is not
/// UTF-8.
///
/// # Errors
///
/// `AllocError`: an allocation failed.
pub fn words_of(rt: &(impl std::rt::Env + AllocGlobal)) -> Result<Vec<String>, AllocError> {
    match env::args(rt) {
        Ok(mut words) => {
            words.next();
            words.collect(rt.alloc())
        }
        Err(error) if error.kind() == ErrorKind::OutOfMemory => Err(AllocError),
        Err(_) => Ok(Vec::new(rt.alloc())),
    }
}
