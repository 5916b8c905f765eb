//! Laws: functions that do nothing, so that a caller has the law by a call.

ghost use Rattle.clif_meaning.specs.Reads.{ReadIsModule};
ghost use Rattle.read_writable.specs.Laws.{MeantIsWritable, ReadIsWritable};

/// What a raw module of a text without a fault means is writable.
pub fn meant_is_writable()
    ensures { MeantIsWritable }
{}

/// What a text is read as is writable.
pub fn read_is_writable()
    ensures { ReadIsWritable }
{}

/// What a text is read as is a module.
pub fn read_is_module()
    ensures { ReadIsModule }
{}
