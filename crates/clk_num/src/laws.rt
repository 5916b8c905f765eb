//! Laws of the definitions: functions without a body, each of which has its law as its contract.
ghost use Rattle.std.specs.Prelude.{List};
ghost use Rattle.clk_num.specs.declared.op.Op.{Op};
ghost use Rattle.clk_num.specs.Examples.{WorkedRows, WorkedArithmetic, WorkedDivision, WorkedBits, WorkedShifts};
ghost use Rattle.clk_num.specs.Examples.{WorkedConversions, WorkedRefusals};
ghost use Rattle.clk_num.specs.Operations.{DataValue};
ghost use Rattle.clk_num.specs.Results.{KeepsRow};

/// The table of operations gives these values on these operands.
pub fn worked_examples()
    ensures rows { WorkedRows }
    ensures arithmetic { WorkedArithmetic }
    ensures division { WorkedDivision }
    ensures bits { WorkedBits }
    ensures shifts { WorkedShifts }
    ensures conversions { WorkedConversions }
    ensures refusals { WorkedRefusals }
{}

/// On operands of its row an operation gives values of the row's types or a trap, and on others it gives none.
pub fn result_types()
    ensures { (op : Op) (xs : List DataValue) → KeepsRow op xs }
{}
