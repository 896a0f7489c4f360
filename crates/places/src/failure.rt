// Why no whole report was written.
use std::error::Error;
use std::{fmt, io};

#[derive(Clone, Copy, Debug)]
pub(crate) enum Failure {
    Reading(io::Error),
    Writing(io::Error),
}

impl fmt::Display for Failure {
    fn fmt<W: fmt::Write>(&self, f: &mut fmt::Formatter<W>) -> fmt::Result {
        match self {
            Failure::Reading(cause) => write!(f, "cannot read standard input: {cause}"),
            Failure::Writing(cause) => write!(f, "cannot write the report: {cause}"),
        }
    }
}

impl Error for Failure {}
