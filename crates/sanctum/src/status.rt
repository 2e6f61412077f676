//! How the program ends.

ghost use Rattle.std.specs.Prelude.{◌≡◌};
ghost use Rattle.sanctum.specs.Codes.{status_code};
ghost use Rattle.sanctum.specs.Refused.{refused_read, refused_image, refused_script, refused_asm, refused_trace};
ghost use Rattle.sanctum.specs.declared.status.Status.TheVariants as answers;

use image_read::{ImageError, ImageFault};
use llc::{TraceError, TraceFault};
use rv_asm::{AsmError, AsmFault};
use script_read::{ScriptError, ScriptFault};
use sm_ports::ReadError;
use std::alloc::AllocError;

/// How the program ends.
#[derive(Debug, Drop)]
pub enum Status {
    /// The command's output was written whole.
    Ok,
    /// The words are no line of the table of commands.
    Usage,
    /// The image's bytes are outside its grammar or pass a limit; the first fault.
    ImageRefused(ImageFault),
    /// The script's bytes are outside its grammar or pass a limit; the first fault.
    ScriptRefused(ScriptFault),
    /// The depot failed at a file that the words name.
    ReadFault,
    /// The sink failed; it has a proper prefix of what was to be written.
    WriteFault,
    /// There was no memory.
    OutOfMemory,
    /// The assembler text's bytes are outside its grammar or pass a limit; the first fault.
    AsmRefused(AsmFault),
    /// The trace's bytes are outside its grammar or pass a limit; the first fault.
    TraceRefused(TraceFault),
}

impl Status {
    /// The exit status of the program.
    pub fn code(&self) -> u8
        ensures { result ≡ status_code self.now }
    {
        match self {
            Status::Ok => 0,
            Status::Usage => 2,
            Status::ImageRefused(_) => 3,
            Status::ScriptRefused(_) => 4,
            Status::ReadFault => 5,
            Status::WriteFault => 6,
            Status::OutOfMemory => 7,
            Status::AsmRefused(_) => 9,
            Status::TraceRefused(_) => 11,
        }
    }
}

impl From<AllocError> for Status {
    ghost from_gives = { λ _ status. status ≡ answers.OutOfMemory };

    fn from(_error: AllocError) -> Status {
        Status::OutOfMemory
    }
}

impl From<ReadError> for Status {
    ghost from_gives = { λ error status. status ≡ refused_read error };

    fn from(error: ReadError) -> Status {
        match error {
            ReadError::Failed => Status::ReadFault,
            ReadError::Memory => Status::OutOfMemory,
        }
    }
}

impl From<ImageError> for Status {
    ghost from_gives = { λ error status. status ≡ refused_image error };

    fn from(error: ImageError) -> Status {
        match error {
            ImageError::Fault(fault) => Status::ImageRefused(fault),
            ImageError::Read(_) => Status::ReadFault,
            ImageError::Memory => Status::OutOfMemory,
        }
    }
}

impl From<ScriptError> for Status {
    ghost from_gives = { λ error status. status ≡ refused_script error };

    fn from(error: ScriptError) -> Status {
        match error {
            ScriptError::Fault(fault) => Status::ScriptRefused(fault),
            ScriptError::Read(_) => Status::ReadFault,
            ScriptError::Memory => Status::OutOfMemory,
        }
    }
}

impl From<AsmError> for Status {
    ghost from_gives = { λ error status. status ≡ refused_asm error };

    fn from(error: AsmError) -> Status {
        match error {
            AsmError::Fault(fault) => Status::AsmRefused(fault),
            AsmError::Memory => Status::OutOfMemory,
        }
    }
}

impl From<TraceError> for Status {
    ghost from_gives = { λ error status. status ≡ refused_trace error };

    fn from(error: TraceError) -> Status {
        match error {
            TraceError::Fault(fault) => Status::TraceRefused(fault),
            TraceError::Read(_) => Status::ReadFault,
            TraceError::Memory => Status::OutOfMemory,
        }
    }
}
