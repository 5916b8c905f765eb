//! Functions built by the calls that change them, and a module with one.
ghost use Rattle.std.specs.Prelude.{◌≡◌, ◌≤◌, ◌∷◌, [], IfOk, OnOk};
ghost use Rattle.ir_core.specs.declared.names.FuncName.TheVariants.{Text};
ghost use Rattle.ir_core.specs.Sound.{IsWhole};
ghost use Rattle.ir_core.specs.Viewed.{instruction_of, line_of};
ghost use Rattle.ir_core.specs.Calling as spec;

use debug_tags::Tags;
use exn_tables::{Entry, Table};
use ir_core::{
    Arg, Block, BlockCall, Boxed, Callee, Conv, Ext, Few, Func, FuncName, FuncRef, Inst, InstData,
    List, Module, NameBytes, Param, Purpose, Room, Sig, SigRef, Ty, Value, Values,
};
use std::alloc::{AllocError, Global};
use std::process::Abort;

/// A parameter of a signature, of 64 bits.
pub(crate) const WORD: Param = Param {
    ty: Ty::I64,
    ext: Ext::No,
    purpose: Purpose::Normal,
};

/// A signature of one parameter and no result.
fn one_param(alloc: Global) -> Sig {
    Sig {
        params: Few::one(WORD),
        results: Few::from_vec(Vec::new(alloc)),
        conv: Conv::Fast,
    }
}

/// `(i64) -> i64 fast`
fn one_to_one() -> Sig
    ensures { result ≡ spec.one_to_one }
{
    Sig {
        params: Few::one(WORD),
        results: Few::one(WORD),
        conv: Conv::Fast,
    }
}

/// `%f`, for the letter f.
fn named(alloc: Global, letter: u8) -> Result<FuncName, AllocError>
    ensures { IfOk result (λ name. name ≡ Text (letter ∷ [])) }
{
    Ok(FuncName::Text(NameBytes::from_slice(alloc, &[letter])?))
}

/// A target with one argument.
fn to(block: Block, arg: Arg) -> BlockCall
    ensures { result ≡ spec.to block arg }
{
    BlockCall {
        block,
        args: Few::one(arg),
    }
}

/// An instruction without results and tags.
fn line(alloc: Global, inst: Inst) -> InstData
    ensures { line_of result ≡ spec.line (instruction_of inst) }
{
    InstData {
        inst,
        ty: None,
        results: Values::none(),
        tags: Tags::new(Vec::new(alloc)),
    }
}

/// `return vN`
fn returned(alloc: Global, value: Value) -> InstData
    ensures { line_of result ≡ spec.returned value }
{
    line(alloc, Inst::Return(Values::one(value)))
}

/// `jump blockN(vM)`
fn jump(alloc: Global, block: Block, value: Value) -> InstData
    ensures { line_of result ≡ spec.jump block value }
{
    line(alloc, Inst::Jump(to(block, Arg::Value(value))))
}

/// `try_call fnC(vA), sig0, blockN(ret0), [ tag3: blockH(exn0) ]`
fn tried(
    alloc: Global,
    callee: FuncRef,
    arg: Value,
    normal: Block,
    handler: Block,
) -> Result<InstData, AllocError>
    ensures { IfOk result (λ line. line_of line ≡ spec.tried callee arg normal handler) }
{
    let entry = Entry {
        tag: Some(3),
        target: to(handler, Arg::Exn(0)),
    };
    Ok(line(
        alloc,
        Inst::TryCall {
            callee,
            sig: SigRef::new(0),
            args: Values::one(arg),
            normal: Boxed::new(alloc, to(normal, Arg::Ret(0)))?,
            table: Boxed::new(alloc, Table::new(vec![in alloc; entry]?))?,
        },
    ))
}

/// `block0(v0: i64): return v0`, in a function that has nothing yet.
fn add_returning_block(alloc: Global, func: &mut Func) -> Result<(), AllocError>
    requires values { func.old.function.types ≡ [] }
    requires blocks { func.old.function.blocks ≡ [] }
    ensures named { func.new.function.name ≡ func.old.function.name }
    ensures whole { OnOk result (IsWhole func.new.function) }
{
    let value = func.declare(Ty::I64)?;
    let block = func.add_block()?;
    func.add_param(block, value)?;
    func.add_inst(block, returned(alloc, value))
}

/// A function with one block, which returns its parameter.
fn one_block(alloc: Global, name: FuncName) -> Result<Func, AllocError>
    ensures named { IfOk result (λ func. func.function.name ≡ name) }
    ensures whole { IfOk result (λ func. IsWhole func.function) }
{
    let mut func = Func::new(alloc, name, one_param(alloc))?;
    add_returning_block(alloc, &mut func)?;
    Ok(func)
}

/// A signature and the callee `%g`.
fn declare_callee(alloc: Global, func: &mut Func) -> Result<(), AllocError>
    requires { func.old.function ≡ record spec.declared { sigs = []; callees = []; types = [] } }
    ensures { OnOk result (func.new.function ≡ record spec.declared { types = [] }) }
{
    let sig = func.add_sig(one_to_one())?;
    let name = named(alloc, 103)?;
    func.add_callee(Callee {
        name,
        colocated: false,
        sig,
    })?;
    Ok(())
}

/// Three values.
fn declare_values(func: &mut Func) -> Result<(), AllocError>
    requires { func.old.function ≡ record spec.declared { types = [] } }
    ensures { OnOk result (func.new.function ≡ spec.declared) }
{
    func.declare(Ty::I64)?;
    func.declare(Ty::I64)?;
    func.declare(Ty::I64)?;
    Ok(())
}

/// `%f` with its declarations: a signature, the callee `%g` and three values.
fn declared(alloc: Global) -> Result<Func, AllocError>
    ensures { IfOk result (λ func. func.function ≡ spec.declared) }
{
    let mut func = Func::new(alloc, named(alloc, 102)?, one_to_one())?;
    declare_callee(alloc, &mut func)?;
    declare_values(&mut func)?;
    Ok(func)
}

/// Three blocks, each with one of the values as its parameter.
fn add_blocks(func: &mut Func) -> Result<(), AllocError>
    requires { func.old.function ≡ spec.declared }
    ensures { OnOk result (func.new.function ≡ spec.with_blocks) }
{
    let entry = func.add_block()?;
    func.add_param(entry, Value::new(0))?;
    let normal = func.add_block()?;
    func.add_param(normal, Value::new(1))?;
    let handler = func.add_block()?;
    func.add_param(handler, Value::new(2))
}

/// block0 calls `%g`.
fn add_call(alloc: Global, func: &mut Func) -> Result<(), AllocError>
    requires { func.old.function ≡ spec.with_blocks }
    ensures { OnOk result (func.new.function ≡ record spec.calling
        { blocks = spec.block 0 (spec.tried 0 0 1 2 ∷ []) ∷ spec.block 1 [] ∷ spec.block 2 [] ∷ [] }) }
{
    let call = tried(
        alloc,
        FuncRef::new(0),
        Value::new(0),
        Block::new(1),
        Block::new(2),
    )?;
    func.add_inst(Block::new(0), call)
}

/// block1 returns the result of the call and block2 what was thrown.
fn add_returns(alloc: Global, func: &mut Func) -> Result<(), AllocError>
    requires { func.old.function ≡ record spec.calling
        { blocks = spec.block 0 (spec.tried 0 0 1 2 ∷ []) ∷ spec.block 1 [] ∷ spec.block 2 [] ∷ [] } }
    ensures { OnOk result (func.new.function ≡ spec.calling) }
{
    func.add_inst(Block::new(1), returned(alloc, Value::new(1)))?;
    func.add_inst(Block::new(2), returned(alloc, Value::new(2)))
}

/// What `%f` takes over from `%g`: the callee `%h` and two values.
fn append_declarations(alloc: Global, func: &mut Func) -> Result<(), AllocError>
    requires { func.old.function ≡ spec.calling }
    ensures function { OnOk result (func.new.function ≡ spec.appended) }
    ensures room { OnOk result ((2 ≤ func.new.room.blocks) × (3 ≤ func.new.room.insts)) }
{
    func.reserve(Room {
        slots: 0,
        sigs: 0,
        callees: 1,
        values: 2,
        blocks: 2,
        insts: 3,
    })?;
    let callee = Callee {
        name: named(alloc, 104)?,
        colocated: false,
        sig: SigRef::new(0),
    };
    let callees = List::from_vec(vec![in alloc; callee]?);
    let types = List::from_vec(vec![in alloc; Ty::I64, Ty::I64]?);
    let (slots, sigs) = (
        List::from_vec(Vec::new(alloc)),
        List::from_vec(Vec::new(alloc)),
    );
    func.append(slots, sigs, callees, types);
    Ok(())
}

/// Two blocks behind block0: one for the body of `%g`, and one behind its call.
fn insert_blocks(func: &mut Func)
    requires function { func.old.function ≡ spec.appended }
    requires room { 2 ≤ func.old.room.blocks }
    ensures function { func.new.function ≡ spec.linked }
    ensures room { func.new.room.insts ≡ func.old.room.insts }
{
    let body = func.insert_block(Block::new(0), Values::one(Value::new(3)));
    func.insert_block(body, Values::one(Value::new(4)));
}

/// The call of `%g` is taken away.
fn take_call(func: &mut Func)
    requires { func.old.function ≡ spec.linked }
    ensures function { func.new.function ≡ spec.emptied }
    ensures room { func.new.room ≡ func.old.room }
{
    let _ = func.take_last(Block::new(0));
}

/// In its place comes a jump into the body of `%g`, which calls `%h` and jumps to block1.
fn put_insts(func: &mut Func, enter: InstData, call: InstData, leave: InstData)
    requires function { func.old.function ≡ spec.emptied }
    requires room { 3 ≤ func.old.room.insts }
    requires enter { line_of enter ≡ spec.jump 3 0 }
    requires call { line_of call ≡ spec.tried 1 3 4 2 }
    requires leave { line_of leave ≡ spec.jump 1 4 }
    ensures { func.new.function ≡ spec.inlined }
{
    let entry = Block::new(0);
    func.put_inst(entry, enter);
    func.put_inst(entry, call);
    func.cut(entry, 1, Block::new(3));
    func.put_inst(Block::new(4), leave);
}

/// The call of `%g` is replaced by the instructions of its body.
fn replace_call(alloc: Global, func: &mut Func) -> Result<(), AllocError>
    requires function { func.old.function ≡ spec.linked }
    requires room { 3 ≤ func.old.room.insts }
    ensures { OnOk result (func.new.function ≡ spec.inlined) }
{
    let call = tried(
        alloc,
        FuncRef::new(1),
        Value::new(3),
        Block::new(4),
        Block::new(2),
    )?;
    let enter = jump(alloc, Block::new(3), Value::new(0));
    let leave = jump(alloc, Block::new(1), Value::new(4));
    take_call(func);
    put_insts(func, enter, call, leave);
    Ok(())
}

/// `%f`, which calls `%g`.
fn calling(alloc: Global) -> Result<Func, AllocError>
    ensures { IfOk result (λ func. func.function ≡ spec.calling) }
{
    let mut func = declared(alloc)?;
    add_blocks(&mut func)?;
    add_call(alloc, &mut func)?;
    add_returns(alloc, &mut func)?;
    Ok(func)
}

/// `%f` with its call replaced by the body of `%g`, by the calls that change a function in place.
pub(crate) fn inlined(alloc: Global) -> Result<Func, AllocError>
    ensures { IfOk result (λ func. func.function ≡ spec.inlined) }
{
    let mut func = calling(alloc)?;
    append_declarations(alloc, &mut func)?;
    insert_blocks(&mut func);
    replace_call(alloc, &mut func)?;
    Ok(func)
}

/// The size of a copy of the function.
fn size_of_copy(func: &Func) -> Result<usize, AllocError> {
    let copy = func.copy()?;
    Ok(copy.size())
}

/// Reads a function with one block, and a copy of it.
fn reads_one_block<A: Abort>(rt: &A, func: &Func) -> Result<(), AllocError> {
    assert!(rt; func.whole());
    assert_eq!(rt; func.size(), 4);
    assert_eq!(rt; func.blocks().count(), 1);
    let copied = size_of_copy(func)?;
    assert_eq!(rt; copied, 4);
    Ok(())
}

#[test]
fn reads_back(rt: HostRuntime) -> Result<(), AllocError> {
    let func = one_block(rt.alloc(), FuncName::User(0, 1))?;
    reads_one_block(&rt, &func)
}

#[test]
fn finds_what_was_pushed(rt: HostRuntime) -> Result<(), AllocError> {
    let alloc = rt.alloc();
    let name = FuncName::User(0, 1);
    let func = one_block(alloc, name.clone()?)?;
    let mut module = Module::new(alloc);
    assert_eq!(rt; module.find(&name), None);
    module.push(func)?;
    assert_eq!(rt; module.find(&name), Some(0));
    assert_eq!(rt; module.len(), 1);
    Ok(())
}
