//! The text of what is counted.

ghost use Rattle.std.specs.Prelude.{◌≡◌, OnOk, OnErr};
ghost use Rattle.std.specs.List.{flat_map};
ghost use Rattle.std.specs.Io.KnownBytes.{Appends};
ghost use Rattle.sm_ports.specs.Causes.{HasCause};
ghost use Rattle.sm_ports.specs.Contents.{AppendsPart};
ghost use Rattle.text_out.specs.Written.{Writes};
ghost use Rattle.llc.specs.Tallies.{tally_line, end_line, tallies_text};

use crate::tally::Tally;
use sm_ports::{Failed, Sink};
use text_out::{Line, put_line, put_piece};

/// The line of a region.
#[tactic(auto, unfolding(crate::specs::Tallies::tally_line))]
fn line_of_tally(tally: &Tally) -> Line
    ensures { result ≡ tally_line tally.now }
{
    let mut line = Line::new();
    line.text("region ");
    line.number(u64::from(tally.region));
    line.text(" accesses ");
    line.number(tally.accesses);
    line.text(" hits ");
    line.number(tally.hits);
    line.text("\n");
    line
}

#[tactic(auto, unfolding(crate::specs::Tallies::end_line))]
fn end() -> &'static [u8]
    ensures { result.now ≡ end_line }
{
    b"end\n"
}

/// Puts the line of each tally.
fn put_tallies<K: Sink>(tallies: &[Tally], out: &mut K) -> Result<(), Failed>
    ensures lines { Writes (K.taken out.old) (K.taken out.new) result (flat_map tally_line tallies.now) }
    ensures cause { HasCause (K.faults out.old) (K.faults out.new) result }
{
    for tally in tallies {
        put_line(&line_of_tally(tally), out)?;
    }
    Ok(())
}

fn put_text<K: Sink>(tallies: &[Tally], out: &mut K) -> Result<(), Failed>
    ensures lines { Writes (K.taken out.old) (K.taken out.new) result (tallies_text tallies.now) }
    ensures cause { HasCause (K.faults out.old) (K.faults out.new) result }
{
    put_tallies(tallies, out)?;
    put_piece(end(), out)
}

/// Writes a line for each tally, `region R accesses A hits H`, and then the line `end`, each line as one piece.
/// Takes no memory. `Failed` comes only where the sink's count of faults rose; the sink has then taken a
/// proper prefix of the text.
pub fn print_tallies<K: Sink>(tallies: &[Tally], out: &mut K) -> Result<(), Failed>
    ensures ok { OnOk result (Appends (K.taken out.old) (K.taken out.new) (tallies_text tallies.now)) }
    ensures err { OnErr result (AppendsPart (K.taken out.old) (K.taken out.new) (tallies_text tallies.now)) }
    ensures cause { HasCause (K.faults out.old) (K.faults out.new) result }
{
    put_text(tallies, out)
}
