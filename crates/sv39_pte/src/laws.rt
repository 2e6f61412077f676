//! Laws of the ptes that the monitor writes. No code here runs.

ghost use Rattle.sv39_pte.specs.Laws.{PointerLeads, LeafHasFrame, PointerIsPointer, LeafIsLeaf, LeafIsNotTheOs};

/// The pte of a table leads to the table's page, and the pte of a leaf has its page's frame.
pub fn written_ptes_lead_to_their_pages()
    ensures pointer { PointerLeads }
    ensures leaf { LeafHasFrame }
{}

/// The pte of a table is a pointer for every access and mode.
pub fn pointer_pte_is_a_pointer()
    ensures { PointerIsPointer }
{}

/// The pte of a leaf is a leaf for an enclave's accesses that its permissions allow, a fault for the
/// others, and a fault for the OS.
pub fn leaf_pte_is_a_leaf()
    ensures enclave { LeafIsLeaf }
    ensures os { LeafIsNotTheOs }
{}
