//! That each form of the language is read.

use crate::modules::read;
use clif_read::{RawFunction, RawLine};
use std::test::Fail;

/// Each opcode, each of its forms, each word that may stand in them, each attribute and each declaration.
const EVERYTHING: &str = "test run
set opt_level=none
target x86_64 ; comment
; a comment
function u0:1(i8 uext, i16 sext, i32 vmctx, i64 sret, i128 uext vmctx, i64 sret sext) -> i8, i16 {
    ss0 = explicit_slot 8
    ss1 = explicit_slot 16, align = 8
    sig0 = (i64) -> i64 fast
    sig1 = (i64) -> i64 cold
    sig2 = (i64) -> i64 tail
    sig3 = (i64) -> i64 system_v
    sig4 = (i64) -> i64 windows_fastcall
    sig5 = (i64) -> i64 apple_aarch64
    sig6 = (i64) -> i64 probestack
    sig7 = (i64) -> i64 winch
    sig8 = ()
    fn0 = %g sig0
    fn1 = colocated u0:2 sig1
    fn2 = %h(i64 sext) -> i8 uext tail
block0(v0: i64, v1: i64, v2: i128):
    v10 = iconst.i16 -0x1_f
    v11 = iadd.i32 v0, v1
    v12 = isub v0, v1
    v13 = imul.i64 v0, v1
    v14 = band v0, v1
    v15 = bor.i128 v0, v1
    v16 = bxor v0, v1
    v17 = smin.i8 v0, v1
    v18 = smax v0, v1
    v19 = umin.i16 v0, v1
    v20 = umax v0, v1
    v21 = umulhi.i32 v0, v1
    v22 = smulhi v0, v1
    v23 = udiv.i64 v0, v1
    v24 = urem v0, v1
    v25 = sdiv.i128 v0, v1
    v26 = srem v0, v1
    v27 = ishl.i8 v0, v1
    v28 = ushr v0, v1
    v29 = sshr.i16 v0, v1
    v30 = rotl v0, v1
    v31 = rotr.i32 v0, v1
    v32, v33 = uadd_overflow v0, v1
    v34, v35 = sadd_overflow.i64 v0, v1
    v36, v37 = usub_overflow v0, v1
    v38, v39 = ssub_overflow.i128 v0, v1
    v40 = iconcat v0, v1
    v41 = ineg.i8 v0
    v42 = bnot v0
    v43 = iabs.i16 v0
    v44 = clz v0
    v45 = ctz.i32 v0
    v46 = popcnt v0
    v47 = bitrev.i64 v0
    v48 = bswap v0
    v49, v50 = isplit.i128 v0
    v51 = icmp eq v0, v1
    v52 = icmp.i8 ne v0, v1
    v53 = icmp slt v0, v1
    v54 = icmp.i16 sge v0, v1
    v55 = icmp sgt v0, v1
    v56 = icmp.i32 sle v0, v1
    v57 = icmp ult v0, v1
    v58 = icmp.i64 uge v0, v1
    v59 = icmp ugt v0, v1
    v60 = icmp.i128 ule v0, v1
    v61 = select v0, v1, v2
    v62 = uextend.i8 v0
    v63 = sextend.i16 v0
    v64 = ireduce.i32 v0
    v65 = iadd_imm.i64 v0, 5
    v66 = imul_imm v0, 5
    v67 = band_imm.i128 v0, 5
    v68 = bor_imm v0, 5
    v69 = bxor_imm.i8 v0, 5
    v70 = ishl_imm v0, 5
    v71 = ushr_imm.i16 v0, 5
    v72 = sshr_imm v0, 5
    v73 = icmp_imm.i32 ule v0, +5
    v74 = load.i64 notrap aligned readonly can_move little heap table vmctx v0+8
    v75 = uload8.i128 v0
    v76 = sload8.i8 v0
    v77 = uload16.i16 v0
    v78 = sload16.i32 v0
    v79 = uload32 big v0-8
    v80 = sload32.i64 v0
    store notrap big vmctx big v0, v1+0
    istore8.i64 notrap big vmctx big v0, v1+0
    istore16 notrap big vmctx big v0, v1+0
    istore32.i128 notrap big vmctx big v0, v1+0
    v81 = stack_load.i8 ss0+8
    stack_store v0, ss1
    v82 = func_addr.i64 fn0
    nop
    <7, ss0, -1> sequence_point
    jump block1
    brif.i16 v0, block1(v1, v2), block2()
    br_table v0, block1, [block1, block2(v1)]
    br_table v0, block1, []
    return v0, v1
    return
    trap stk_ovf
    trap int_ovf
    trap heap_oob
    trap int_divz
    trap bad_toint
    trap user7
    trapz v0, user0
    trapnz.i32 v0, user0
    @0a v83, v84 = call fn0(v0, v1)
    @0b <1> return_call fn1()
    try_call fn0(v0), sig0, block1(ret0, v1), [ tag1: block2(exn0, v1), default: block3 ]
    try_call fn0(), sig0, block1, []
    @0c <ss0> v85 = call_indirect sig0, v0(v1, v2)
    return_call_indirect.i64 sig0, v0()
    try_call_indirect v0(v1), sig1, block1(ret1), [default: block2(exn1)]
    try_call_indirect.i64 v0(), sig1, block1, []
    v3 -> v4
    @0d v5 -> v6
block1 cold:
    nop
block2(v7: i8) cold:
block3():
    trap user1
}
function %last() {
block0:
    return
}
";

/// How many lines of a block are aliases, and how many have a location, tags or results.
fn counts(lines: &[RawLine]) -> (usize, usize, usize, usize) {
    let mut aliases: usize = 0;
    let mut located: usize = 0;
    let mut tagged: usize = 0;
    let mut named: usize = 0;
    for line in lines {
        match line {
            RawLine::Alias { location, .. } => {
                aliases = aliases.saturating_add(1);
                located = located.saturating_add(usize::from(location.is_some()));
            }
            RawLine::Inst {
                location,
                tags,
                results,
                ..
            } => {
                located = located.saturating_add(usize::from(location.is_some()));
                tagged = tagged.saturating_add(usize::from(!tags.as_slice().is_empty()));
                named = named.saturating_add(usize::from(!results.as_slice().is_empty()));
            }
        }
    }
    (aliases, located, tagged, named)
}

/// How many parameters, results, declarations and blocks the first of two functions has.
fn parts(functions: &[RawFunction]) -> Option<(usize, usize, usize, usize)> {
    match functions {
        [first, _] => Some((
            first.signature.params.as_slice().len(),
            first.signature.results.as_slice().len(),
            first.decls.as_slice().len(),
            first.blocks.as_slice().len(),
        )),
        _ => None,
    }
}

/// How many parameters and lines the first block of the first function has, and what its lines have.
fn first_counts(functions: &[RawFunction]) -> Option<(usize, usize, (usize, usize, usize, usize))> {
    let block = functions.first()?.blocks.as_slice().first()?;
    let lines = block.lines.as_slice();
    Some((block.params.as_slice().len(), lines.len(), counts(lines)))
}

#[test]
fn reads_every_form(rt: HostRuntime) -> Result<(), Fail> {
    let found = read(&rt, rt.alloc(), EVERYTHING.as_bytes())?;
    assert_eq!(rt; found.headers.as_slice().len(), 3);
    let functions = found.functions.as_slice();
    assert!(rt; parts(functions) == Some((6, 2, 14, 4)));
    assert!(rt; first_counts(functions) == Some((3, 99, (2, 4, 3, 70))));
    Ok(())
}
