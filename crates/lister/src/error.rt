use replay::Halt;
use std::error::Error;
use std::{fmt, io};

/// Why a listing was not printed whole.
#[derive(Debug, Drop)]
pub enum ListError {
    /// The script could not be read. Nothing was printed.
    Input(io::Error),
    /// The listing could not be printed. Some of its first bytes may have been.
    Output(io::Error),
    /// The listing ends before its script does. Its whole lines were printed.
    Halted(Halt),
}

impl fmt::Display for ListError {
    fn fmt<W: fmt::Write>(&self, f: &mut fmt::Formatter<W>) -> fmt::Result {
        match self {
            ListError::Input(error) => write!(f, "the script can't be read: {error}"),
            ListError::Output(error) => write!(f, "the listing can't be printed: {error}"),
            ListError::Halted(halt) => {
                let Halt { count, fault } = *halt;
                write!(f, "the listing ends behind {count} bytes: {fault}")
            }
        }
    }
}

impl Error for ListError {}
