//! What no clause says: that memory suffices for a small module, whose text several workers print as one does.
ghost use Rattle.std.specs.Prelude.{◌<◌, IfOk};
ghost use Rattle.ir_core.specs.Sound.{IsWhole};

use clif_numbers::numbering;
use clif_print::print;
use clk_flow::MemSink;
use debug_tags::Tags;
use ir_core::{Conv, Few, Func, FuncName, Inst, InstData, Module, Sig, Values};
use print_workers::{PrintErr, print_with};
use std::alloc::{AllocError, Global};
use std::thread::Threads;

const TEXT: &[u8] = b"function u0:0() fast {\nblock0:\n    return\n}\n\n\
      function u0:1() fast {\nblock0:\n    return\n}\n\nfunction u0:2() fast {\nblock0:\n    return\n}\n";

/// A function that returns at once.
fn returning(alloc: Global, number: u32) -> Result<Func, AllocError>
    ensures { IfOk result (λ func. IsWhole func.function) }
{
    let sig = Sig {
        params: Few::from_vec(Vec::new(alloc)),
        results: Few::from_vec(Vec::new(alloc)),
        conv: Conv::Fast,
    };
    let mut func = Func::new(alloc, FuncName::User(0, number), sig)?;
    let block = func.add_block()?;
    let line = InstData {
        inst: Inst::Return(Values::none()),
        ty: None,
        results: Values::none(),
        tags: Tags::new(Vec::new(alloc)),
    };
    func.add_inst(block, line)?;
    Ok(func)
}

/// Three functions that return at once.
fn three(alloc: Global) -> Result<Module, AllocError> {
    let mut module = Module::new(alloc);
    for number in 0..3 {
        let func = returning(alloc, number)?;
        if module.find(func.name()).is_none() {
            module.push(func)?;
        }
    }
    Ok(module)
}

/// Whether so many workers write the text, and into a sink with less room its beginning.
fn is_printed_by<R: Threads + Sync>(
    rt: &R,
    alloc: Global,
    module: &Module,
    workers: usize,
) -> Result<bool, AllocError>
    requires { 0 < workers }
{
    let mut out = MemSink::new(alloc, Vec::new(alloc), 1000)?;
    let printed = print_with(rt, alloc, module, workers, &mut out);
    if printed != Ok(()) || out.bytes() != TEXT {
        return Ok(false);
    }
    let mut small = MemSink::new(alloc, Vec::new(alloc), 60)?;
    let failed = print_with(rt, alloc, module, workers, &mut small);
    Ok(failed == Err(PrintErr::Failed) && small.bytes() == &TEXT[..60])
}

#[test]
fn workers_print_what_one_prints(rt: HostRuntime) -> Result<(), AllocError> {
    let alloc = rt.alloc();
    let module = three(alloc)?;
    let numbers = numbering(alloc, &module)?;
    let mut out = MemSink::new(alloc, Vec::new(alloc), 1000)?;
    assert!(rt; print(&module, &numbers, &mut out).is_ok());
    assert!(rt; out.bytes() == TEXT);
    for workers in [1, 2, 5] {
        assert!(rt;
            is_printed_by(&rt, alloc, &module, workers)?,
            "{workers} workers"
        );
    }
    Ok(())
}
