//! Laws of any call that answers Ok, once over all calls.

ghost use Rattle.mon_model.specs.CallLaws.{AnyCallOnARegion, AnyCallOnModes, AnyCallOnCells, AnyCallOnInside, AnyCallOnStages};

/// A call makes one of six small steps at each region of the machine: which one, and for whom, is told by the
/// call, by the objects that it tried, and by which enclave slots are initialized.
pub fn any_call_on_a_region()
    ensures { AnyCallOnARegion }
{}

/// Of the modes and flush tickets a call changes those of its own core alone, and these as the call tells.
pub fn any_call_on_its_core()
    ensures modes { AnyCallOnModes }
    ensures cells { AnyCallOnCells }
{}

/// Which enclave slots are initialized is told by the calls on them, and no core gets inside a slot past the last.
pub fn any_call_on_slots()
    ensures stages { AnyCallOnStages }
    ensures inside { AnyCallOnInside }
{}
