//! The words of a function, by kind.
ghost use Rattle.std.specs.Prelude.{◌≡◌, OnOk, fold, flat_map, map};
ghost use Rattle.name_tables.specs.Definitions as text;
ghost use Rattle.name_tables.specs.Defining as spec;

use crate::firsts::{Def, Firsts};
use crate::names::Names;
use clif_read::{RawBlock, RawBlockParam, RawDecl, RawFunction, RawLine};
use std::alloc::{AllocError, Global};
use token_reader::RawName;

/// The words that a function defines, by kind, with the first faults among them.
#[derive(Drop)]
pub struct Tables {
    pub slots: Names,
    pub sigs: Names,
    pub callees: Names,
    pub blocks: Names,
    pub values: Names,
    /// The first definition of each value's word.
    pub firsts: Firsts,
}

impl Tables {
    /// Tables without a word.
    pub fn new(alloc: Global) -> Tables
        ensures { result ≡ spec.no_tables }
    {
        Tables {
            slots: Names::new(alloc),
            sigs: Names::new(alloc),
            callees: Names::new(alloc),
            blocks: Names::new(alloc),
            values: Names::new(alloc),
            firsts: Firsts::new(alloc),
        }
    }

    /// Takes the definitions of a function. Only `AllocError` refuses; some may have been taken then.
    #[inline(never)]
    pub fn define(&mut self, func: &RawFunction) -> Result<(), AllocError>
        ensures { OnOk result (self.new ≡ spec.define self.old func.now) }
    {
        self.define_decls(func.decls.as_slice())?;
        self.define_blocks(func.blocks.as_slice())
    }

    fn define_decl(&mut self, decl: &RawDecl) -> Result<(), AllocError>
        ensures { OnOk result (self.new ≡ spec.define_decl self.old decl.now) }
    {
        match decl {
            RawDecl::Slot { slot, .. } => {
                self.slots.declare(*slot)?;
                Ok(())
            }
            RawDecl::Sig { sig, .. } => {
                self.sigs.declare(*sig)?;
                Ok(())
            }
            RawDecl::Callee { callee, .. } => {
                self.callees.declare(*callee)?;
                Ok(())
            }
        }
    }

    #[tactic(auto, using(crate::proofs::Folds::fold_one))]
    fn define_decls(&mut self, decls: &[RawDecl]) -> Result<(), AllocError>
        ensures { OnOk result (self.new ≡ fold spec.define_decl self.old decls.now) }
    {
        for decl in decls {
            self.define_decl(decl)?;
        }
        Ok(())
    }

    #[tactic(auto, unfolding(crate::specs::Defining::define_value))]
    fn define_value(&mut self, name: RawName, target: Option<RawName>) -> Result<(), AllocError>
        ensures { OnOk result (self.new ≡ spec.define_value self.old (record { name = name; target = target })) }
    {
        if self.values.declare(name)? {
            self.firsts.push(Def { name, target })?;
        }
        Ok(())
    }

    #[tactic(auto, using(crate::proofs::Folds::fold_more))]
    fn define_params(&mut self, params: &[RawBlockParam]) -> Result<(), AllocError>
        ensures { OnOk result (self.new ≡ fold spec.define_value self.old (flat_map text.param_defs params.now)) }
    {
        for param in params {
            self.define_value(param.value, None)?;
        }
        Ok(())
    }

    #[tactic(auto, using(crate::proofs::Folds::fold_map_more))]
    fn define_results(&mut self, results: &[RawName]) -> Result<(), AllocError>
        ensures { OnOk result (self.new ≡ fold spec.define_value self.old (map text.value_def results.now)) }
    {
        for name in results {
            self.define_value(*name, None)?;
        }
        Ok(())
    }

    fn define_line(&mut self, line: &RawLine) -> Result<(), AllocError>
        ensures { OnOk result (self.new ≡ fold spec.define_value self.old (text.line_defs line.now)) }
    {
        match line {
            RawLine::Alias { alias, value, .. } => self.define_value(*alias, Some(*value)),
            RawLine::Inst { results, .. } => self.define_results(results.as_slice()),
        }
    }

    #[tactic(auto, using(crate::proofs::Folds::fold_more))]
    fn define_lines(&mut self, lines: &[RawLine]) -> Result<(), AllocError>
        ensures { OnOk result (self.new ≡ fold spec.define_value self.old (flat_map text.line_defs lines.now)) }
    {
        for line in lines {
            self.define_line(line)?;
        }
        Ok(())
    }

    fn define_block(&mut self, block: &RawBlock) -> Result<(), AllocError>
        ensures { OnOk result (self.new ≡ spec.define_block self.old block.now) }
    {
        self.blocks.declare(block.block)?;
        self.define_params(block.params.as_slice())?;
        self.define_lines(block.lines.as_slice())
    }

    #[tactic(auto, using(crate::proofs::Folds::fold_one))]
    fn define_blocks(&mut self, blocks: &[RawBlock]) -> Result<(), AllocError>
        ensures { OnOk result (self.new ≡ fold spec.define_block self.old blocks.now) }
    {
        for block in blocks {
            self.define_block(block)?;
        }
        Ok(())
    }
}
