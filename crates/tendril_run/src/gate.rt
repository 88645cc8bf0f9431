//! Gates: code that runs before each command of a job.

/// Is called before each command of a job, with the command's index. It may wait or count; it can't change the result.
pub trait Gate {
    fn before(&self, command: usize);
}

/// Does nothing.
pub(crate) struct Open;

impl Gate for Open {
    fn before(&self, _command: usize) {}
}
