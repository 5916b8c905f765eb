//! The lines of a block.

ghost use Rattle.std.specs.Prelude.{◌≡◌, ◌<◌, ◌≤◌, length, IfOk};
ghost use Rattle.grammar.specs.Rules.{heads, firsts, member};
ghost use Rattle.token_reader.specs.Reading.{Gives, same};
ghost use Rattle.clif_words.specs.Classes.{code};
ghost use Rattle.clif_read.specs.ModuleGrammar as grammar;
ghost use Rattle.clif_read.specs.LineValues as meaning;
ghost use Rattle.clif_read.specs.Lines as spec;

use crate::raw::{RawLine, RawTag};
use crate::room::{guess_line_count, make_room, trim};
use crate::tags::read_debug_tags;
use clif_insts::{Opening, RawInst, RawOperands, read_few_more_values, read_inst};
use clif_words::Class;
use ir_core::{Few, List};
use std::alloc::Global;
use token_reader::{RawName, Reader, Stop};

/// An instruction behind the `=` of its results.
#[tactic(auto, unfolding(crate::specs::Lines::made_at))]
fn read_result_inst(alloc: Global, reader: &mut Reader<'_>) -> Result<RawInst, Stop>
    ensures is { Gives same reader.new result (spec.made_at reader.old) }
    ensures shorter { IfOk result (λ _. length reader.new < length reader.old) }
{
    reader.take(Class::Equals)?;
    read_inst(alloc, reader, Opening::AfterResults)
}

/// Whether values may stand behind it: it is a `return`, as yet without values.
fn is_return(inst: &RawInst) -> bool
    ensures { result ≡ spec.returns inst.now.operands }
{
    matches!(inst.operands, RawOperands::Return(_))
}

/// Gives the values to a line, if it is an instruction.
fn give_values(line: &mut RawLine, values: Few<RawName>)
    ensures { line.new ≡ meaning.with_values values line.old }
{
    if let RawLine::Inst { inst, .. } = line {
        inst.operands = RawOperands::Return(values);
    }
}

/// Gives the values to the last line.
fn give_to_last(lines: &mut Vec<RawLine>, values: Few<RawName>)
    ensures { lines.new.items ≡ spec.to_last values lines.old.items }
{
    if let Some(line) = lines.last_mut() {
        give_values(line, values);
    }
}

/// `-> vN`
#[tactic(auto, unfolding(crate::specs::Lines::alias_at))]
fn add_alias(
    reader: &mut Reader<'_>,
    lines: &mut Vec<RawLine>,
    location: Option<usize>,
    alias: RawName,
) -> Result<bool, Stop>
    ensures is { spec.Adds lines.old.items lines.new.items reader.new result
        (spec.whole (spec.alias_at location alias reader.old)) }
    ensures shorter { IfOk result (λ _. length reader.new < length reader.old) }
{
    reader.take(Class::Arrow)?;
    let value = reader.take(Class::Value)?;
    make_room(lines)?;
    lines.push_reserved(RawLine::Alias {
        location,
        alias,
        value,
    });
    Ok(false)
}

/// The results behind the first one, and their instruction.
#[tactic(auto, unfolding(crate::specs::Lines::results_at))]
fn add_results_line(
    alloc: Global,
    reader: &mut Reader<'_>,
    lines: &mut Vec<RawLine>,
    location: Option<usize>,
    first: RawName,
) -> Result<bool, Stop>
    ensures is { spec.Adds lines.old.items lines.new.items reader.new result
        (spec.whole (spec.results_at location first reader.old)) }
    ensures shorter { IfOk result (λ _. length reader.new < length reader.old) }
{
    let results = read_few_more_values(alloc, reader, first)?;
    let inst = read_result_inst(alloc, reader)?;
    let returns = is_return(&inst);
    make_room(lines)?;
    lines.push_reserved(RawLine::Inst {
        location,
        tags: List::from_vec(Vec::new(alloc)),
        results,
        inst,
    });
    Ok(returns)
}

/// What begins with a value: an alias, or results and their instruction.
#[tactic(auto, unfolding(crate::specs::Lines::named_at))]
fn add_named_line(
    alloc: Global,
    reader: &mut Reader<'_>,
    lines: &mut Vec<RawLine>,
    location: Option<usize>,
) -> Result<bool, Stop>
    ensures is { spec.Adds lines.old.items lines.new.items reader.new result
        (spec.whole (spec.named_at location reader.old)) }
    ensures shorter { IfOk result (λ _. length reader.new < length reader.old) }
{
    let first = reader.take(Class::Value)?;
    if reader.next_is(Class::Arrow) {
        add_alias(reader, lines, location, first)
    } else {
        add_results_line(alloc, reader, lines, location, first)
    }
}

/// An instruction without results.
#[tactic(auto, unfolding(crate::specs::Lines::plain_at))]
fn add_plain_line(
    alloc: Global,
    reader: &mut Reader<'_>,
    lines: &mut Vec<RawLine>,
    opening: Opening,
    location: Option<usize>,
    tags: List<RawTag>,
) -> Result<bool, Stop>
    ensures is { spec.Adds lines.old.items lines.new.items reader.new result
        (spec.whole (spec.plain_at opening location tags reader.old)) }
    ensures shorter { IfOk result (λ _. length reader.new < length reader.old) }
{
    let inst = read_inst(alloc, reader, opening)?;
    let returns = is_return(&inst);
    make_room(lines)?;
    lines.push_reserved(RawLine::Inst {
        location,
        tags,
        results: Few::from_vec(Vec::new(alloc)),
        inst,
    });
    Ok(returns)
}

/// Results behind tags, and their instruction.
#[tactic(auto, unfolding(crate::specs::Lines::tagged_results_at, token_reader::specs::Reading::commas_at))]
fn add_tagged_results(
    alloc: Global,
    reader: &mut Reader<'_>,
    lines: &mut Vec<RawLine>,
    location: Option<usize>,
    tags: List<RawTag>,
) -> Result<bool, Stop>
    ensures is { spec.Adds lines.old.items lines.new.items reader.new result
        (spec.whole (spec.tagged_results_at location tags reader.old)) }
    ensures shorter { IfOk result (λ _. length reader.new < length reader.old) }
{
    let first = reader.take(Class::Value)?;
    let results = read_few_more_values(alloc, reader, first)?;
    let inst = read_result_inst(alloc, reader)?;
    let returns = is_return(&inst);
    make_room(lines)?;
    lines.push_reserved(RawLine::Inst {
        location,
        tags,
        results,
        inst,
    });
    Ok(returns)
}

/// What begins with tags.
#[tactic(auto, unfolding(crate::specs::Lines::tagged_at))]
fn add_tagged_line(
    alloc: Global,
    reader: &mut Reader<'_>,
    lines: &mut Vec<RawLine>,
    location: Option<usize>,
) -> Result<bool, Stop>
    ensures is { spec.Adds lines.old.items lines.new.items reader.new result
        (spec.whole (spec.tagged_at location reader.old)) }
    ensures shorter { IfOk result (λ _. length reader.new < length reader.old) }
{
    let tags = List::from_vec(read_debug_tags(alloc, reader)?);
    if reader.next_is(Class::Value) {
        add_tagged_results(alloc, reader, lines, location, tags)
    } else {
        add_plain_line(alloc, reader, lines, Opening::AfterTags, location, tags)
    }
}

/// A line behind its source location.
#[tactic(auto, unfolding(crate::specs::Lines::located_at))]
fn add_located_line(
    alloc: Global,
    reader: &mut Reader<'_>,
    lines: &mut Vec<RawLine>,
    spot: usize,
) -> Result<bool, Stop>
    ensures is { spec.Adds lines.old.items lines.new.items reader.new result
        (spec.whole (spec.located_at spot reader.old)) }
    ensures shorter { IfOk result (λ _. length reader.new < length reader.old) }
{
    if reader.next_is(Class::Value) {
        add_named_line(alloc, reader, lines, Some(spot))
    } else if reader.next_is(Class::Less) {
        add_tagged_line(alloc, reader, lines, Some(spot))
    } else {
        let tags = List::from_vec(Vec::new(alloc));
        add_plain_line(alloc, reader, lines, Opening::AfterTags, Some(spot), tags)
    }
}

/// A line that does not begin with a value.
#[tactic(auto, unfolding(crate::specs::Lines::other_line_at))]
fn add_other_line(
    alloc: Global,
    reader: &mut Reader<'_>,
    lines: &mut Vec<RawLine>,
) -> Result<bool, Stop>
    ensures is { spec.Adds lines.old.items lines.new.items reader.new result
        (spec.whole (spec.other_line_at reader.old)) }
    ensures shorter { IfOk result (λ _. length reader.new < length reader.old) }
{
    if reader.next_is(Class::Less) {
        add_tagged_line(alloc, reader, lines, None)
    } else if reader.next_is(Class::Srcloc) {
        let location = reader.take(Class::Srcloc)?;
        add_located_line(alloc, reader, lines, location.spot)
    } else {
        let tags = List::from_vec(Vec::new(alloc));
        add_plain_line(alloc, reader, lines, Opening::LineStart, None, tags)
    }
}

/// Values, and perhaps the instruction of which they are the results.
#[tactic(auto, unfolding(crate::specs::Lines::opt_made_at))]
fn add_values_or_inst(
    alloc: Global,
    reader: &mut Reader<'_>,
    lines: &mut Vec<RawLine>,
    values: Few<RawName>,
) -> Result<bool, Stop>
    ensures is { spec.Adds lines.old.items lines.new.items reader.new result (spec.opt_made_at values reader.old) }
    ensures shorter { IfOk result (λ _. length reader.new ≤ length reader.old) }
{
    if reader.next_is(Class::Equals) {
        let inst = read_result_inst(alloc, reader)?;
        let returns = is_return(&inst);
        make_room(lines)?;
        lines.push_reserved(RawLine::Inst {
            location: None,
            tags: List::from_vec(Vec::new(alloc)),
            results: values,
            inst,
        });
        Ok(returns)
    } else {
        give_to_last(lines, values);
        Ok(false)
    }
}

/// A first value, and those behind it.
#[tactic(auto, unfolding(crate::specs::Lines::values_or_results_at))]
fn add_values_or_results(
    alloc: Global,
    reader: &mut Reader<'_>,
    lines: &mut Vec<RawLine>,
    first: RawName,
) -> Result<bool, Stop>
    ensures is { spec.Adds lines.old.items lines.new.items reader.new result
        (spec.values_or_results_at first reader.old) }
    ensures shorter { IfOk result (λ _. length reader.new ≤ length reader.old) }
{
    let values = read_few_more_values(alloc, reader, first)?;
    add_values_or_inst(alloc, reader, lines, values)
}

/// What begins with a value behind a `return`.
#[tactic(auto, unfolding(crate::specs::Lines::named_or_values_at))]
fn add_named_or_values(
    alloc: Global,
    reader: &mut Reader<'_>,
    lines: &mut Vec<RawLine>,
) -> Result<bool, Stop>
    ensures is { spec.Adds lines.old.items lines.new.items reader.new result (spec.named_or_values_at reader.old) }
    ensures shorter { IfOk result (λ _. length reader.new < length reader.old) }
{
    let first = reader.take(Class::Value)?;
    if reader.next_is(Class::Arrow) {
        add_alias(reader, lines, None, first)
    } else {
        add_values_or_results(alloc, reader, lines, first)
    }
}

/// Puts a line behind the others, or behind a `return` its values into it. Tells whether the next line may be values:
/// this one is a `return`.
#[tactic(auto, unfolding(crate::specs::Lines::line_at))]
fn add_line(
    alloc: Global,
    reader: &mut Reader<'_>,
    lines: &mut Vec<RawLine>,
    after_return: bool,
) -> Result<bool, Stop>
    ensures is { spec.Adds lines.old.items lines.new.items reader.new result (spec.line_at after_return reader.old) }
    ensures shorter { IfOk result (λ _. length reader.new < length reader.old) }
{
    if !reader.next_is(Class::Value) {
        add_other_line(alloc, reader, lines)
    } else if after_return {
        add_named_or_values(alloc, reader, lines)
    } else {
        add_named_line(alloc, reader, lines, None)
    }
}

/// Whether a token of this class begins a line, or is refused where one begins.
fn may_begin_line(class: Class) -> bool
    ensures { result ≡ member (code class) (firsts grammar.line) }
{
    matches!(class, Class::Value | Class::Less | Class::Srcloc)
        || (Class::Function as u8 <= class as u8 && class as u8 != Class::Block as u8)
}

/// Whether a line begins here.
fn begins_line(reader: &Reader<'_>) -> bool
    ensures { result ≡ heads (firsts grammar.line) reader.now }
{
    match reader.next_class() {
        Some(class) => may_begin_line(class),
        None => false,
    }
}

/// The lines of a block.
pub(crate) fn read_lines(alloc: Global, reader: &mut Reader<'_>) -> Result<Vec<RawLine>, Stop>
    ensures is { Gives (λ x. x.items) reader.new result (spec.lines_at reader.old) }
    ensures shorter { IfOk result (λ _. length reader.new ≤ length reader.old) }
{
    let mut list = Vec::with_capacity(alloc, guess_line_count(reader))?;
    let mut after_return = false;
    'lines: while begins_line(reader) {
        after_return = add_line(alloc, reader, &mut list, after_return)?;
    }
    trim(&mut list);
    Ok(list)
}
