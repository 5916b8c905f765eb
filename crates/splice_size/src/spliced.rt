//! The size that a function would have with a call replaced by the body of its callee.
ghost use Rattle.std.specs.Prelude.{◌≡◌, ◌+◌, ◌-◌, ◌*◌, ◌≤◌, length};
ghost use Rattle.ir_core.specs.Size.{total, line_size, sig_size, size_of, capped};
ghost use Rattle.ir_core.specs.Viewed.{line_of};
ghost use Rattle.ir_semantics.specs.Splice.{Splicing, Within, Last, Tries, spliced};
ghost use Rattle.body_import.specs.Imports.{IsImportOf};
ghost use Rattle.splice_size.specs.Counts.{counts_of};
ghost use Rattle.splice_size.specs.SizeAfter.{any_calls, taking_tags, table_size, body_size, put_size, size_after};
ghost use Rattle.splice_size.specs.SizeAfter.{added_size};
ghost use Rattle.splice_size.specs.Laws.{Sited};

use crate::counts::Counts;
use crate::sizes::take_line;
use body_import::Import;
use exn_tables::Entry;
use ir_core::{BlockCall, Inst, InstData, Sig};

/// The size that a function of the size would have with the call replaced by the body of the callee that these are the
/// counts of, which has so many slots and from which the function takes over what the import says. The greatest number
/// of the type where it is greater.
pub fn spliced_size(
    caller_size: usize,
    site: &InstData,
    callee: &Counts,
    slots: usize,
    import: &Import,
) -> usize
    ensures number { result
        ≡ capped (size_after caller_size (line_of site.now) callee.now
        ((slots + length import.now.callees.added) + total sig_size import.now.sigs.added)) }
    ensures splice { (p : Splicing) → Sited p → size_of p.caller ≡ caller_size → p.site ≡ line_of site.now
        → counts_of p.callee ≡ callee.now → length p.callee.slots ≡ slots → IsImportOf p.caller p.callee import.now
        → result ≡ capped (size_of (spliced p)) }
{
    let declared = slots.saturating_add(import.callees.added.as_slice().len());
    let added = declared.saturating_add(sigs_size(import.sigs.added.as_slice()));
    size_with(caller_size, site, callee, added)
}

/// The least that `spliced_size` answers for any import: the size without the signatures and the callee declarations
/// that the function takes over. Time is the length of the call's line.
pub fn least_spliced_size(
    caller_size: usize,
    site: &InstData,
    callee: &Counts,
    slots: usize,
) -> usize
    ensures number { result ≡ capped (size_after caller_size (line_of site.now) callee.now slots) }
    ensures least { (p : Splicing) → Sited p → size_of p.caller ≡ caller_size → p.site ≡ line_of site.now
        → counts_of p.callee ≡ callee.now → length p.callee.slots ≡ slots → result ≤ size_of (spliced p) }
{
    size_with(caller_size, site, callee, slots)
}

/// The size of a function of the size with the body in place of the call, and declarations of the size that come in.
fn size_with(caller_size: usize, site: &InstData, callee: &Counts, added: usize) -> usize
    ensures { result ≡ capped (size_after caller_size (line_of site.now) callee.now added) }
{
    let rest = size_without(caller_size, site);
    rest.saturating_add(put_in_place(site, callee).saturating_add(added))
}

/// The size of what stands in place of a call: the jump to the body, the body, and the block behind it.
fn put_in_place(site: &InstData, callee: &Counts) -> usize
    ensures { result ≡ capped (put_size (line_of site.now) callee.now) }
{
    let tags = site.tags.list().len();
    let results = site.results.as_slice().len();
    match &site.inst {
        Inst::Call { args, .. } | Inst::CallIndirect { args, .. } => {
            plain_call(args.as_slice().len(), tags, results, callee)
        }
        Inst::ReturnCall { args, .. } | Inst::ReturnCallIndirect { args, .. } => {
            let jump = 1usize.saturating_add(args.as_slice().len());
            jump.saturating_add(callee.tagged(tags))
        }
        Inst::TryCall {
            args,
            normal,
            table,
            ..
        }
        | Inst::TryCallIndirect {
            args,
            normal,
            table,
            ..
        } => {
            let jump = 1usize.saturating_add(args.as_slice().len());
            jump.saturating_add(callee.caught(tags, normal.get(), table.get().entries()))
        }
        Inst::Nop
        | Inst::SequencePoint
        | Inst::Const(_)
        | Inst::Pure { .. }
        | Inst::PureImm { .. }
        | Inst::Load { .. }
        | Inst::Store { .. }
        | Inst::StackLoad { .. }
        | Inst::StackStore { .. }
        | Inst::FuncAddr(_)
        | Inst::Jump(_)
        | Inst::Brif { .. }
        | Inst::BrTable { .. }
        | Inst::Return(_)
        | Inst::Trap(_)
        | Inst::Trapz { .. }
        | Inst::Trapnz { .. } => plain_call(0, tags, results, callee),
    }
}

/// The same at a plain call with so many arguments, tags and results.
fn plain_call(args: usize, tags: usize, results: usize, callee: &Counts) -> usize
    ensures { result ≡ capped ((1 + args) + body_size Within tags results callee.now + (1 + results)) }
{
    let line = results.saturating_add(1usize.saturating_add(results));
    let calls = callee.tail_calls.saturating_mul(line);
    let body = callee.tagged(tags).saturating_add(calls);
    let jump = 1usize.saturating_add(args);
    let after = 1usize.saturating_add(results);
    jump.saturating_add(body).saturating_add(after)
}

impl Counts {
    /// The number of calls of any kind.
    fn any_calls(&self) -> usize
        ensures { result ≡ capped (any_calls self.now) }
    {
        self.calls
            .saturating_add(self.tail_calls)
            .saturating_add(self.try_calls)
    }

    /// The tags that a site with so many adds to the body's.
    fn site_tags(&self, tags: usize) -> usize
        ensures { result ≡ capped (taking_tags self.now * tags) }
    {
        self.any_calls()
            .saturating_add(self.sequence_points)
            .saturating_mul(tags)
    }

    /// The size of the blocks with so many tags of the site.
    fn tagged(&self, tags: usize) -> usize
        ensures { result ≡ capped (body_size Last tags 0 self.now) }
    {
        self.blocks
            .saturating_add(self.returned)
            .saturating_add(self.site_tags(tags))
    }

    /// The size of the blocks at a `try_call` with the normal target and the table.
    fn caught(&self, tags: usize, normal: &BlockCall, table: &[Entry<BlockCall>]) -> usize
        ensures { result ≡ capped (body_size (Tries normal.now table.now) tags 0 self.now) }
    {
        let entries = self.any_calls().saturating_mul(entries_size(table));
        let jumps = self.returns.saturating_add(self.tail_calls);
        let targets = jumps.saturating_mul(normal.args.as_slice().len());
        let rests = self.calls.saturating_add(self.results);
        self.blocks
            .saturating_add(self.site_tags(tags))
            .saturating_add(entries)
            .saturating_add(rests)
            .saturating_add(targets)
    }
}

/// The entries of an exception table, each with its arguments.
fn entries_size(entries: &[Entry<BlockCall>]) -> usize
    ensures { result ≡ capped (table_size entries.now) }
{
    let mut size = entries.len();
    for entry in entries {
        size = size.saturating_add(entry.target.args.as_slice().len());
    }
    size
}

/// The size of signatures.
fn sigs_size(sigs: &[Sig]) -> usize
    ensures { result ≡ capped (total sig_size sigs.now) }
{
    let mut size: usize = 0;
    for sig in sigs {
        size = size.saturating_add(signature_size(sig));
    }
    size
}

/// The size of a signature.
fn signature_size(sig: &Sig) -> usize
    ensures { result ≡ capped (sig_size sig.now) }
{
    let params = sig.params.as_slice().len();
    let results = sig.results.as_slice().len();
    1usize.saturating_add(params).saturating_add(results)
}

/// The size of a function without one of its instructions.
fn size_without(size: usize, site: &InstData) -> usize
    ensures { result ≡ size - line_size (line_of site.now) }
{
    match take_line(size, site) {
        Some(rest) => rest,
        None => 0,
    }
}
