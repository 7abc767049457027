//! Why a command line has no plan.

ghost use Rattle.std.specs.Prelude.{◌≡◌};
ghost use Rattle.arrowflow_line.specs.CommandLine.{least_size, most_size, size_name};

use arrow_types::Limits;
use std::alloc::{AllocError, AllocFailed};
use std::fmt;

/// The greatest number of bytes that a stream may be allowed, or that a drill may be asked to
/// deliver: no stream has more.
const MOST_BYTES: u64 = 4_611_686_018_427_387_904;

/// The greatest number of bytes of a piece.
const MOST_PIECE: u64 = 1_073_741_824;

/// Why a command line has no plan.
#[derive(Debug, Drop)]
pub enum ArgFault {
    /// The words are not a command, or ask for help. The error prints itself, help to standard
    /// output and everything else to standard error, and has the exit status: 0 for help, else 2.
    Line(clap::Error),
    /// Something else is wrong with the words. It is to be printed on standard error; the exit
    /// status is 2.
    Misused(Misuse),
    /// An allocation failed.
    Memory,
}

/// What is wrong with words that are a command with its names and options. It prints itself.
#[derive(Clone, Copy, Debug, PartialEq, Eq)]
pub enum Misuse {
    /// The value of this option is not a size within its bounds.
    NoSize(SizeOption),
    /// A copy has no output, and is not in place either.
    NoOutput,
    /// A copy is in place, and has an output too.
    TwoOutputs,
}

/// An option whose value is a size in bytes.
#[derive(Clone, Copy, Debug, PartialEq, Eq)]
pub enum SizeOption {
    /// `--limit-metadata`
    LimitMetadata,
    /// `--limit-body`
    LimitBody,
    /// `--limit-bytes`
    LimitBytes,
    /// `--bytes` of `drill`
    Bytes,
    /// `--piece` of `drill`
    Piece,
}

impl SizeOption {
    /// Its name.
    pub fn name(self) -> &'static str
        ensures { result.now ≡ size_name self }
    {
        match self {
            SizeOption::LimitMetadata => "limit-metadata",
            SizeOption::LimitBody => "limit-body",
            SizeOption::LimitBytes => "limit-bytes",
            SizeOption::Bytes => "bytes",
            SizeOption::Piece => "piece",
        }
    }

    /// The least size that it accepts.
    pub fn least(self) -> u64
        ensures { result ≡ least_size self }
    {
        match self {
            SizeOption::LimitMetadata | SizeOption::LimitBody | SizeOption::Bytes => 0,
            SizeOption::LimitBytes => 0,
            SizeOption::Piece => 1,
        }
    }

    /// The greatest size that it accepts.
    pub fn most(self) -> u64
        ensures { result ≡ most_size self }
    {
        match self {
            SizeOption::LimitMetadata => Limits::METADATA_CEILING,
            SizeOption::LimitBody => Limits::BODY_CEILING,
            SizeOption::LimitBytes => MOST_BYTES,
            SizeOption::Bytes => MOST_BYTES,
            SizeOption::Piece => MOST_PIECE,
        }
    }
}

impl fmt::Display for Misuse {
    fn fmt<W: fmt::Write>(&self, f: &mut fmt::Formatter<W>) -> fmt::Result {
        match self {
            Misuse::NoSize(option) => {
                let (name, least, most) = (option.name(), option.least(), option.most());
                write!(
                    f,
                    "error: the size of '--{name} <N>' is not in {least}..={most}: \
                     sizes are bytes, or as 64K, 1MiB or 1GB"
                )?;
            }
            Misuse::NoOutput => f.write_str(
                "error: the following required arguments were not provided:\n  <OUT>\n\n\
                 Usage: arrowflow copy <IN> <OUT>",
            )?,
            Misuse::TwoOutputs => f.write_str(
                "error: the argument '--in-place' cannot be used with '[OUT]'\n\n\
                 Usage: arrowflow copy --in-place <IN>",
            )?,
        }
        f.write_str("\n\nFor more information, try '--help'.")
    }
}

impl From<Misuse> for ArgFault {
    ghost use Rattle.std.specs.Prelude.{◌≡◌};
    ghost use Rattle.arrowflow_line.specs.declared.fault.ArgFault.TheVariants.{Misused};

    ghost from_gives = { λ m f. f ≡ Misused m };

    fn from(misuse: Misuse) -> ArgFault {
        ArgFault::Misused(misuse)
    }
}

impl From<clap::Error> for ArgFault {
    ghost use Rattle.std.specs.Prelude.{◌≡◌};
    ghost use Rattle.arrowflow_line.specs.declared.fault.ArgFault.TheVariants.{Line};

    ghost from_gives = { λ e f. f ≡ Line e };

    fn from(error: clap::Error) -> ArgFault {
        ArgFault::Line(error)
    }
}

impl From<AllocError> for ArgFault {
    ghost use Rattle.std.specs.Prelude.{◌≡◌};
    ghost use Rattle.arrowflow_line.specs.declared.fault.ArgFault.TheVariants.{Memory};

    ghost from_gives = { λ _ f. f ≡ Memory };

    fn from(_error: AllocError) -> ArgFault {
        ArgFault::Memory
    }
}

impl<T: Drop> From<AllocFailed<T>> for ArgFault {
    ghost use Rattle.std.specs.Prelude.{◌≡◌};
    ghost use Rattle.arrowflow_line.specs.declared.fault.ArgFault.TheVariants.{Memory};

    ghost from_gives = { λ _ f. f ≡ Memory };

    fn from(_error: AllocFailed<T>) -> ArgFault {
        ArgFault::Memory
    }
}
