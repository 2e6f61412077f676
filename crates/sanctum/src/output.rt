//! What the commands make, and its printing.

ghost use Rattle.std.specs.Prelude.{◌≡◌};
ghost use Rattle.hist.specs.Logged.{events_of};
ghost use Rattle.hist.specs.Legal.{Legal};
ghost use Rattle.sm_ports.specs.Causes.{Rose, HasCause};
ghost use Rattle.report.specs.Report.{report_text, HasAllCores};
ghost use Rattle.text_out.specs.Written.{Writes};
ghost use Rattle.sanctum.specs.Outputs.{text_of, IsPrintable};
ghost use Rattle.sanctum.specs.Answers.{Prints};

use crate::status::Status;
use hist::{Finished, legal_run_is_reported};
use image_read::{write_image, write_image_2};
use llc::{Tally, print_tallies};
use mon_types::Image;
use report::report;
use sm_ports::{Failed, Sink};

/// What a command made that is to be printed.
#[derive(Debug, Drop)]
pub enum Output {
    /// A finished run, whose report is printed.
    Report(Finished),
    /// An image, whose text in version 1 is written.
    Image1(Image),
    /// An image, whose text in version 2 is written.
    Image2(Image),
    /// What was counted of each region of a trace.
    Tallies(Vec<Tally>),
}

/// Prints it whole.
pub fn print<K: Sink>(output: &Output, out: &mut K) -> Status
    requires { IsPrintable output.now }
    ensures prints { Prints (K.taken out.old) (K.taken out.new) (text_of output.now) Status.Ok result }
    ensures write_fault { result ≡ Status.WriteFault → Rose (K.faults out.old) (K.faults out.new) }
{
    match put(output, out) {
        Ok(()) => Status::Ok,
        Err(_) => Status::WriteFault,
    }
}

fn put<K: Sink>(output: &Output, out: &mut K) -> Result<(), Failed>
    requires { IsPrintable output.now }
    ensures text { Writes (K.taken out.old) (K.taken out.new) result (text_of output.now) }
    ensures cause { HasCause (K.faults out.old) (K.faults out.new) result }
{
    match output {
        Output::Report(finished) => put_report(finished, out),
        Output::Image1(image) => write_image(image, out),
        Output::Image2(image) => write_image_2(image, out),
        Output::Tallies(tallies) => print_tallies(tallies, out),
    }
}

fn put_report<K: Sink>(finished: &Finished, out: &mut K) -> Result<(), Failed>
    requires cores { HasAllCores finished.now }
    requires legal { Legal finished.now.config (events_of finished.now.logs) }
    ensures text { Writes (K.taken out.old) (K.taken out.new) result (report_text finished.now) }
    ensures cause { HasCause (K.faults out.old) (K.faults out.new) result }
{
    // States that the logs can be merged and printed.
    legal_run_is_reported(finished);
    report(finished, out)
}
