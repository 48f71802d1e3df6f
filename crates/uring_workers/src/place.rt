//! Which worker carries out an operation.
ghost use Rattle.std.specs.Prelude.{◌≡◌, ◌<◌};
ghost use Rattle.uring_workers.specs.Work as work;

use uring_entry::Op;
use uring_files::file_asked;

/// The worker, from 0, that carries out this operation, of so many workers and files: file `f` is with worker `f` modulo the number of workers. An operation on no file, or on a descriptor that has none, is worker 0's.
pub fn place_of(op: &Op, workers: u32, files: u32) -> u32
    requires { 0 < workers }
    ensures { result ≡ work.place_of workers files op.now }
{
    match file_asked(op) {
        Some(fd) => place_of_file(fd, workers, files),
        None => 0,
    }
}

/// The worker that has the file of a descriptor.
pub fn place_of_file(fd: i32, workers: u32, files: u32) -> u32
    requires { 0 < workers }
    ensures place { result ≡ work.place_of_file workers files fd }
    ensures within { result < workers }
{
    match u32::try_from(fd) {
        Ok(file) if file < files => file % workers,
        _ => 0,
    }
}
