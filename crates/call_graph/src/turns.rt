//! The order of pieces: each piece waits for one of those that it calls, until it is ready.
ghost use Rattle.std.specs.Prelude.{◌≡◌, ◌⊎◌, ℕ, ◌<◌, List, [], ◌∷◌, length, replicate, get_or, IfOk, OnOk};
ghost use Rattle.ir_core.specs.Lists.{In, Below};
ghost use Rattle.call_graph.specs.Numbers.{called};
ghost use Rattle.call_graph.specs.Tables.{table};
ghost use Rattle.call_graph.specs.Turns.{Pieced, Ordered};
ghost use Rattle.call_graph.specs.Waiting.{top_placed, first_left, others, Settles, after_place, Keeps};

use crate::calls::Graph;
use crate::ready::Ready;
use crate::stack::Stack;
use std::alloc::{AllocError, Global};

/// What is known of each piece, at its least function.
#[derive(Drop)]
pub(crate) struct Placing {
    /// Its functions.
    members: Vec<Stack>,
    /// The other pieces that it calls, but for some that are placed.
    callees: Vec<Stack>,
    /// Those that wait for it.
    waiting: Vec<Stack>,
    placed: Vec<bool>,
    /// The pieces that wait for none.
    ready: Ready,
    /// The pieces that may have to wait.
    woken: Stack,
    list: Vec<usize>,
}

/// Whether the topmost callee is placed.
fn is_top_placed(placed: &[bool], callees: &Stack) -> bool
    ensures { result ≡ top_placed placed.now callees.now }
{
    match callees.top() {
        Some(callee) => callee < placed.len() && placed[callee],
        None => false,
    }
}

/// Takes away callees up to the first that is not placed.
fn skip_placed(placed: &[bool], callees: &mut Stack)
    ensures { callees.new ≡ first_left placed.now callees.old }
{
    'callees: while is_top_placed(placed, callees) {
        callees.pop();
    }
}

impl Placing {
    /// Puts a piece among those that are ready, or lets it wait for one that it calls.
    fn settle(&mut self, piece: usize) -> Result<(), AllocError>
        requires there { piece < length self.old.callees.items }
        requires within { (q : ℕ) → In q (called self.old.callees.items piece) → q < length self.old.waiting.items }
        ensures { OnOk result (Settles piece (table self.old) (table self.new)) }
    {
        skip_placed(&self.placed, &mut self.callees[piece]);
        match self.callees[piece].top() {
            Some(callee) => self.waiting[callee].push(piece),
            None => self.ready.insert(piece),
        }
    }

    /// Places the functions of a piece, and wakes those that wait for it.
    fn place(&mut self, alloc: Global, piece: usize) -> Result<(), AllocError>
        requires members { piece < length self.old.members.items }
        requires waiting { piece < length self.old.waiting.items }
        requires placed { piece < length self.old.placed.items }
        ensures { OnOk result (table self.new ≡ after_place (table self.old) piece self.old.ready) }
    {
        self.members[piece].pour(&mut self.list)?;
        self.placed[piece] = true;
        self.woken = std::mem::replace(&mut self.waiting[piece], Stack::new(alloc));
        Ok(())
    }
}

/// So many empty stacks.
fn stacks(alloc: Global, count: usize) -> Result<Vec<Stack>, AllocError>
    ensures { IfOk result (λ stacks. stacks.items ≡ replicate count []) }
{
    let mut stacks = Vec::with_capacity(alloc, count)?;
    for _i in 0..count {
        stacks.push(Stack::new(alloc))?;
    }
    Ok(stacks)
}

/// Adds the other pieces that some calls lead to.
fn add_callees(
    callees: &mut Stack,
    piece: &[usize],
    own: usize,
    targets: &[usize],
) -> Result<(), AllocError>
    requires { Below (length piece.now) targets.now }
    ensures { OnOk result (callees.new ≡ others piece.now own targets.now callees.old) }
{
    for target in targets {
        let other = piece[*target];
        if other != own {
            callees.push(other)?;
        }
    }
    Ok(())
}

/// The table before any piece is placed.
fn filled(alloc: Global, graph: &Graph, piece: &[usize]) -> Result<Placing, AllocError>
    requires { Pieced graph.now piece.now }
    ensures { IfOk result (λ placing. Keeps graph.now piece.now (table placing)) }
{
    let count = piece.len();
    let mut members = stacks(alloc, count)?;
    let mut callees = stacks(alloc, count)?;
    let mut woken = Stack::new(alloc);
    let list = Vec::with_capacity(alloc, count)?;
    let mut rest = count;
    'functions: while rest > 0 {
        rest -= 1;
        let own = piece[rest];
        members[own].push(rest)?;
        add_callees(&mut callees[own], piece, own, graph.calls(rest))?;
        wake_least(&mut woken, own, rest)?;
    }
    Ok(Placing {
        members,
        callees,
        waiting: stacks(alloc, count)?,
        placed: vec![in alloc; false; count]?,
        ready: Ready::new(alloc),
        woken,
        list,
    })
}

/// Wakes a piece at its least function.
fn wake_least(woken: &mut Stack, own: usize, func: usize) -> Result<(), AllocError>
    ensures { OnOk result (((own ≡ func) × (woken.new ≡ func ∷ woken.old))
        ⊎ ((own ≡ func → ⊥) × (woken.new ≡ woken.old))) }
{
    if own == func {
        return woken.push(func);
    }
    Ok(())
}

/// The functions of all pieces: of the pieces not placed that wait for none, the one with the least function is next.
pub(crate) fn ordered(
    alloc: Global,
    graph: &Graph,
    piece: &[usize],
) -> Result<Vec<usize>, AllocError>
    requires { Pieced graph.now piece.now }
    ensures { IfOk result (λ list. Ordered graph.now piece.now list.items) }
{
    let mut placing = filled(alloc, graph, piece)?;
    'turns: loop {
        'woken: while let Some(next) = placing.woken.pop() {
            placing.settle(next)?;
        }
        match placing.ready.pop_least() {
            Some(next) => placing.place(alloc, next)?,
            None => break,
        }
    }
    let Placing { list, .. } = placing;
    Ok(list)
}
