// Books in files. Of what is read from one no contract can speak.
ghost use Rattle.std.specs.Prelude.{◌≤◌, length, IfSome};

use std::rt::{Env, Files};
use std::{env, fs, io};

// The arguments, of which the first is the program's own name.
pub(crate) fn arguments(rt: &(impl Env + AllocGlobal)) -> io::Result<Vec<String>> {
    Ok(env::args(rt)?.collect(rt.alloc())?)
}

// Reads the file of a name, as much of it as fits, and answers how much that is; where it cannot be read, says why on standard error.
pub(crate) fn read(rt: &(impl Files + Eprint + Alloc), name: &str, book: &mut [u8]) -> Option<usize>
    ensures { IfSome result (λ size. size ≤ length book.new) }
{
    match fs::open(rt, name) {
        Err(e) => {
            words::fail(rt, name, &e);
            None
        }
        Ok(mut file) => {
            let size = words::read_full(&mut file, book);
            words::is_whole(rt, &mut file, size, book.len(), name).then_some(size)
        }
    }
}
