//! What can be asked of the program.

use mon_types::Config;

/// An image, as a word names it.
#[derive(Clone, Copy, Debug, PartialEq, Eq)]
pub enum Source<'a> {
    /// That of the plain machine.
    Plain,
    /// The one in the file of this name.
    File(&'a str),
}

/// What is asked.
#[derive(Clone, Copy, Debug, PartialEq, Eq)]
pub enum Order<'a> {
    /// To run the script of this name on the machine of an image, and print the report.
    Run(Source<'a>, &'a str),
    /// The same by the machine of one core.
    Solo(Source<'a>, &'a str),
    /// To write an image in version 2.
    Convert(Source<'a>),
    /// To assemble the text of this name, and write the image of a machine of this size.
    Pack(&'a str, Config),
    /// To count the hits of the trace of this name, region by region.
    Llc(&'a str),
}
