//! Texts that are put into a sink.

ghost use Rattle.sm_ports.specs.Causes.{HasCause};
ghost use Rattle.text_out.specs.Written.{Writes};

use crate::line::Line;
use sm_ports::{Failed, Sink, put_all};

/// Puts bytes as one piece, each time again from where the sink cut them.
pub fn put_piece<K: Sink>(bytes: &[u8], out: &mut K) -> Result<(), Failed>
    ensures text { Writes (K.taken out.old) (K.taken out.new) result bytes.now }
    ensures cause { HasCause (K.faults out.old) (K.faults out.new) result }
{
    put_all(out, bytes)
}

/// Puts a line as one piece.
pub fn put_line<K: Sink>(line: &Line, out: &mut K) -> Result<(), Failed>
    ensures text { Writes (K.taken out.old) (K.taken out.new) result line.now }
    ensures cause { HasCause (K.faults out.old) (K.faults out.new) result }
{
    put_piece(line.as_slice(), out)
}
