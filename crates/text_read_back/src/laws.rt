//! Laws: functions that do nothing, so that a caller has the law by a call.

ghost use Rattle.ir_core.specs.Module.{Module};
ghost use Rattle.ir_core.specs.WellFormed.{IsModule};
ghost use Rattle.ir_text.specs.Writable.{Writable};
ghost use Rattle.text_read_back.specs.Defining.{IsNumbered};
ghost use Rattle.text_read_back.specs.ReadsBack.{ReadsBack};
ghost use Rattle.text_read_back.specs.RawOf.{raw_of};

/// The canonical text of a writable module is read as what the module says, and as nothing else.
pub fn writable_text_reads_back()
    ensures { (m : Module) → IsModule m → Writable m → ReadsBack m }
{}

/// What it says numbers values and blocks in the order in which they are defined.
pub fn text_is_numbered()
    ensures { (m : Module) → IsModule m → IsNumbered (raw_of m) }
{}
