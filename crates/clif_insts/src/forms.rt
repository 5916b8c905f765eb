//! The forms of instructions, told apart by the class of the opcode.

ghost use Rattle.std.specs.Prelude.{◌≡◌, if◌then◌else◌, ℕ, List, ◌<◌, length, IfOk};
ghost use Rattle.grammar.specs.Rules.{heads, member};
ghost use Rattle.clif_words.specs.Classes.{code};
ghost use Rattle.token_reader.specs.declared.stop.Stop.TheVariants.{UnknownOpcode, Syntax};
ghost use Rattle.clif_insts.specs.Grammar.{excepted, words_but};
ghost use Rattle.token_reader.specs.Reading.{Gives, same};
ghost use Rattle.clif_insts.specs.Forms as spec;

use crate::calls::{read_call, read_call_indirect, read_try_call, read_try_call_indirect};
use crate::control::{
    read_br_table, read_brif, read_jump, read_nullary, read_return, read_trap, read_trap_if,
};
use crate::memory::{
    read_func_addr, read_load, read_load_wide, read_stack_load, read_stack_store, read_store,
};
use crate::opening::Opening;
use crate::operations::{
    read_binary, read_binary_imm, read_convert, read_icmp, read_icmp_imm, read_iconst, read_select,
    read_unary,
};
use crate::raw::RawInst;
use clif_words::Class;
use std::alloc::Global;
use token_reader::{Reader, Stop};

/// Why a token of this class begins no instruction behind what stands before it.
fn refuse_opcode(opening: Opening, class: Class) -> Stop
    ensures { result ≡ (if member (code class) (words_but (excepted opening)) then UnknownOpcode else Syntax) }
{
    if opening.refuses(class) {
        Stop::UnknownOpcode
    } else {
        Stop::Syntax
    }
}

/// An instruction whose first token is of this class.
fn read_inst_of(
    alloc: Global,
    reader: &mut Reader<'_>,
    opening: Opening,
    class: Class,
) -> Result<RawInst, Stop>
    requires class { (codes : List ℕ) → member (code class) codes ≡ heads codes reader.old }
    ensures is { Gives same reader.new result (spec.inst_at opening reader.old) }
    ensures shorter { IfOk result (λ _. length reader.new < length reader.old) }
{
    match class {
        Class::Iconst => read_iconst(reader),
        Class::Binary => read_binary(reader),
        Class::Unary => read_unary(reader),
        Class::Icmp => read_icmp(reader),
        Class::Select => read_select(reader),
        Class::Convert => read_convert(reader),
        Class::BinaryImm => read_binary_imm(reader),
        Class::IcmpImm => read_icmp_imm(reader),
        Class::Load => read_load(alloc, reader),
        Class::LoadWide => read_load_wide(alloc, reader),
        Class::Store => read_store(alloc, reader),
        Class::StackLoad => read_stack_load(alloc, reader),
        Class::StackStore => read_stack_store(alloc, reader),
        Class::FuncAddr => read_func_addr(reader),
        Class::Nullary => read_nullary(reader),
        Class::Jump => read_jump(alloc, reader),
        Class::Brif => read_brif(alloc, reader),
        Class::BrTable => read_br_table(alloc, reader),
        Class::Return => read_return(alloc, reader),
        Class::Trap => read_trap(reader),
        Class::TrapIf => read_trap_if(reader),
        Class::Call => read_call(alloc, reader),
        Class::TryCall => read_try_call(alloc, reader),
        Class::CallIndirect => read_call_indirect(alloc, reader),
        Class::TryCallIndirect => read_try_call_indirect(alloc, reader),
        Class::RefusedOpcode => Err(Stop::Unsupported),
        _ => Err(refuse_opcode(opening, class)),
    }
}

/// An instruction behind what stands before it. The values of a `return` are not part of it.
pub fn read_inst(alloc: Global, reader: &mut Reader<'_>, opening: Opening) -> Result<RawInst, Stop>
    ensures is { Gives same reader.new result (spec.inst_at opening reader.old) }
    ensures shorter { IfOk result (λ _. length reader.new < length reader.old) }
{
    match reader.next_class() {
        Some(class) => read_inst_of(alloc, reader, opening, class),
        None => Err(Stop::Syntax),
    }
}
