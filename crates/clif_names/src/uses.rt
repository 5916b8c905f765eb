//! What a function uses: its words by kind, the numbers that it writes, and the operands whose types it asks for.
ghost use Rattle.std.specs.Prelude.{◌≡◌, fold, map};
ghost use Rattle.name_tables.specs.Uses as text;
ghost use Rattle.clif_names.specs.Using as spec;

use crate::limits::{Limit, note, note_maybe, of_number, of_word};
use crate::typing::asks;
use clif_insts::{RawArg, RawEntry, RawInst, RawOperands, RawTarget, RawTrap};
use clif_read::{
    RawBlock, RawBlockParam, RawCalleeSig, RawDecl, RawFuncName, RawFunction, RawLine, RawTag,
};
use ir_core::{Boxed, Ty};
use name_tables::{End, Ends, Names, earlier_spot};
use token_reader::{RawName, RawNumber};

/// The words of a function by kind, with the first faults of its uses.
#[derive(Drop)]
pub struct Uses {
    pub slots: Names,
    pub sigs: Names,
    pub callees: Names,
    pub blocks: Names,
    pub values: Names,
    /// The least spot of a number that is no word of these kinds and does not keep its limit.
    pub outside: Option<usize>,
    /// How many of the values' words are defined so far.
    pub defined: usize,
    /// The least spot of an opcode whose type is not known there.
    pub untyped: Option<usize>,
}

impl Uses {
    fn note_name(&mut self, name: &RawFuncName)
        ensures { self.new ≡ spec.note_name self.old name.now }
    {
        match name {
            RawFuncName::Text { .. } => {}
            RawFuncName::User { space, number } => {
                self.outside = note(self.outside, of_word(Limit::Entity, *space));
                self.outside = note(self.outside, of_number(Limit::Entity, *number));
            }
        }
    }

    fn use_decl(&mut self, decl: &RawDecl)
        ensures { self.new ≡ spec.use_decl self.old decl.now }
    {
        match decl {
            RawDecl::Slot { size, align, .. } => {
                self.outside = note(self.outside, of_number(Limit::SlotSize, *size));
                self.outside = note_maybe(self.outside, Limit::Alignment, *align);
            }
            RawDecl::Sig { .. } => {}
            RawDecl::Callee { name, sig, .. } => {
                if let RawCalleeSig::Declared(sig) = sig {
                    self.sigs.refer(*sig);
                }
                self.note_name(name);
            }
        }
    }

    #[tactic(auto, using(name_tables::proofs::Folds::fold_one))]
    fn use_decls(&mut self, decls: &[RawDecl])
        ensures { self.new ≡ fold spec.use_decl self.old decls.now }
    {
        for decl in decls {
            self.use_decl(decl);
        }
    }

    fn use_tag(&mut self, tag: &RawTag)
        ensures { self.new ≡ spec.use_tag self.old tag.now }
    {
        match tag {
            RawTag::User(number) => {
                self.outside = note(self.outside, of_number(Limit::Entity, *number));
            }
            RawTag::Slot(slot) => self.slots.refer(*slot),
        }
    }

    #[tactic(auto, using(name_tables::proofs::Folds::fold_one))]
    fn use_tags(&mut self, tags: &[RawTag])
        ensures { self.new ≡ fold spec.use_tag self.old tags.now }
    {
        for tag in tags {
            self.use_tag(tag);
        }
    }

    fn use_arg(&mut self, arg: &RawArg)
        ensures { self.new ≡ spec.use_arg self.old arg.now }
    {
        match arg {
            RawArg::Value(value) => self.values.refer(*value),
            RawArg::Ret(word) | RawArg::Exn(word) => {
                self.outside = note(self.outside, of_word(Limit::Entity, *word));
            }
        }
    }

    #[tactic(auto, using(name_tables::proofs::Folds::fold_one))]
    fn use_target(&mut self, target: &RawTarget)
        ensures { self.new ≡ spec.use_target self.old target.now }
    {
        self.blocks.refer(target.block);
        for arg in target.args.as_slice() {
            self.use_arg(arg);
        }
    }

    #[tactic(auto, using(name_tables::proofs::Folds::fold_one))]
    fn use_targets(&mut self, targets: &[RawTarget])
        ensures { self.new ≡ fold spec.use_target self.old targets.now }
    {
        for target in targets {
            self.use_target(target);
        }
    }

    #[tactic(auto, using(name_tables::proofs::Folds::fold_map_more))]
    fn use_table(&mut self, table: &[RawEntry])
        ensures { self.new ≡ fold spec.use_target self.old (map (λ e. e.target) table.now) }
    {
        for entry in table {
            self.use_target(&entry.target);
        }
    }

    fn use_operand_targets(&mut self, operands: &RawOperands)
        ensures { self.new ≡ fold spec.use_target self.old (text.operand_targets operands.now) }
    {
        match operands {
            RawOperands::Jump(target) => self.use_target(target),
            RawOperands::Brif { yes, no, .. } => {
                self.use_target(yes.get());
                self.use_target(no.get());
            }
            RawOperands::BrTable {
                default,
                entries,
                ..
            } => {
                self.use_target(default.get());
                self.use_targets(entries.as_slice());
            }
            RawOperands::TryCall { normal, table, .. }
            | RawOperands::TryCallIndirect { normal, table, .. } => {
                self.use_target(normal.get());
                self.use_table(table.get().as_slice());
            }
            _ => {}
        }
    }

    fn note_offset(&mut self, offset: &Option<Boxed<RawNumber>>)
        ensures { self.new ≡ spec.note_offset self.old offset.now }
    {
        if let Some(number) = offset {
            self.outside = note(self.outside, of_number(Limit::Offset, *number.get()));
        }
    }

    fn note_trap(&mut self, trap: &RawTrap)
        ensures { self.new ≡ spec.note_trap self.old trap.now }
    {
        if let RawTrap::User(word) = trap {
            self.outside = note(self.outside, of_word(Limit::UserTrap, *word));
        }
    }

    fn note_entry(&mut self, entry: &RawEntry)
        ensures { self.new ≡ spec.note_entry self.old entry.now }
    {
        if let Some(tag) = entry.tag {
            self.outside = note(self.outside, of_word(Limit::Entity, tag));
        }
    }

    #[tactic(auto, using(name_tables::proofs::Folds::fold_more))]
    fn note_table(&mut self, table: &[RawEntry])
        ensures { self.new ≡ spec.note_table self.old table.now }
    {
        for entry in table {
            self.note_entry(entry);
        }
    }

    fn note_operands(&mut self, suffix: Option<Ty>, operands: &RawOperands)
        ensures { self.new ≡ spec.note_operands self.old suffix operands.now }
    {
        match operands {
            RawOperands::Number(number) => {
                if let Some(ty) = suffix {
                    self.outside = note(self.outside, of_number(Limit::Constant(ty), *number));
                }
            }
            RawOperands::Load { offset, .. }
            | RawOperands::Store { offset, .. }
            | RawOperands::StackLoad { offset, .. }
            | RawOperands::StackStore { offset, .. } => self.note_offset(offset),
            RawOperands::Trap(code) | RawOperands::TrapIf(_, code) => self.note_trap(code),
            RawOperands::TryCall { table, .. } | RawOperands::TryCallIndirect { table, .. } => {
                self.note_table(table.get().as_slice())
            }
            _ => {}
        }
    }

    fn use_operands(&mut self, operands: &RawOperands)
        ensures { self.new ≡ spec.use_operands self.old operands.now }
    {
        self.slots.refer_slots(operands);
        self.sigs.refer_sigs(operands);
        self.callees.refer_callees(operands);
        self.values.refer_values(operands);
    }

    /// Whether a word stands for a value that isn't defined so far.
    fn is_late(&self, ends: &Ends, word: u64) -> bool
        ensures { result ≡ spec.is_late ends.now self.now word }
    {
        match self.values.words.place(word) {
            None => false,
            Some(place) => match ends.get(place) {
                Some(End::At(end)) => self.defined <= end,
                Some(End::Nowhere | End::Endless) | None => false,
            },
        }
    }

    /// Notes the opcode where the type of a value is asked for that isn't defined so far.
    fn ask_type(&mut self, ends: &Ends, inst: &RawInst)
        ensures { self.new ≡ spec.ask_type ends.now self.old inst.now }
    {
        if let Some(operand) = asks(inst) {
            if self.is_late(ends, operand.number) {
                self.untyped = earlier_spot(self.untyped, inst.opcode.spot);
            }
        }
    }

    /// Takes a definition of a value: its word is defined from here on.
    #[tactic(auto, unfolding(crate::specs::Using::define))]
    fn define(&mut self, name: RawName)
        ensures { self.new ≡ spec.define self.old name }
    {
        match self.values.words.place(name.number) {
            Some(place) if place == self.defined => self.defined = place + 1,
            Some(_) | None => {}
        }
    }

    #[tactic(auto, using(name_tables::proofs::Folds::fold_one))]
    fn define_all(&mut self, names: &[RawName])
        ensures { self.new ≡ fold spec.define self.old names.now }
    {
        for name in names {
            self.define(*name);
        }
    }

    fn use_line(&mut self, ends: &Ends, line: &RawLine)
        ensures { self.new ≡ spec.use_line ends.now self.old line.now }
    {
        match line {
            RawLine::Alias { alias, value, .. } => {
                self.values.refer(*value);
                self.define(*alias);
            }
            RawLine::Inst {
                tags,
                results,
                inst,
                ..
            } => {
                self.ask_type(ends, inst);
                self.use_tags(tags.as_slice());
                self.note_operands(inst.suffix, &inst.operands);
                self.use_operands(&inst.operands);
                self.use_operand_targets(&inst.operands);
                self.define_all(results.as_slice());
            }
        }
    }

    #[tactic(auto, using(name_tables::proofs::Folds::fold_one))]
    fn use_lines(&mut self, ends: &Ends, lines: &[RawLine])
        ensures { self.new ≡ fold (spec.use_line ends.now) self.old lines.now }
    {
        for line in lines {
            self.use_line(ends, line);
        }
    }

    #[tactic(auto, using(name_tables::proofs::Folds::fold_one))]
    fn define_params(&mut self, params: &[RawBlockParam])
        ensures { self.new ≡ fold spec.define_param self.old params.now }
    {
        for param in params {
            self.define(param.value);
        }
    }

    fn use_block(&mut self, ends: &Ends, block: &RawBlock)
        ensures { self.new ≡ spec.use_block ends.now self.old block.now }
    {
        self.define_params(block.params.as_slice());
        self.use_lines(ends, block.lines.as_slice());
    }

    #[tactic(auto, using(name_tables::proofs::Folds::fold_one))]
    fn use_blocks(&mut self, ends: &Ends, blocks: &[RawBlock])
        ensures { self.new ≡ fold (spec.use_block ends.now) self.old blocks.now }
    {
        for block in blocks {
            self.use_block(ends, block);
        }
    }

    /// Takes all uses of a function.
    pub(crate) fn use_function(&mut self, ends: &Ends, func: &RawFunction)
        ensures { self.new ≡ spec.use_function ends.now self.old func.now }
    {
        self.note_name(&func.name);
        self.use_decls(func.decls.as_slice());
        self.use_blocks(ends, func.blocks.as_slice());
    }
}
