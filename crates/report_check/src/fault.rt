//! Why a report was not accepted.

use legal_report::ReportFault;
use reader_answers::FileError;

/// Why a report was not accepted.
pub type ReportError = FileError<ReportFault>;
