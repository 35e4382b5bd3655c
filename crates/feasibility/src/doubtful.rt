ghost use Rattle.std.specs.Prelude.{◌≡◌, ◌<◌, ◌≤◌, length, not, IfOk};
ghost use Rattle.cov_model.specs.Fits.{FitsModel};
ghost use Rattle.cov_model.specs.believed.Kleene.{body_truth};
ghost use Rattle.cov_model.specs.believed.Sound.{param_at};
ghost use Rattle.cov_model.specs.Sound.{rule_at};
ghost use Rattle.compiled_rules.specs.Codes.{is_yes};
ghost use Rattle.cov_model.specs.believed.Rows.{with_value};
ghost use Rattle.feasibility.specs.Tree.{all_doubtful, all_members, doubtful, doubtful_by, members, no_values};

use crate::values::put_list;
use compiled_rules::CompiledRules;
use cov_model::{Cells, ParamNo, Truth, ValueNo};
use packed_lists::PackedLists;
use std::alloc::Global;
use value_text::NoMemory;

// Whether a constraint is known to hold on the cells.
fn holds(rules: &CompiledRules, rule: u32, cells: &Cells) -> bool
    requires first { 0 < rule }
    requires last { rule ≤ length rules.now.rules }
    requires fits { FitsModel rules.now cells.now }
    ensures { result ≡ is_yes (body_truth rules.now (rule_at rules.now rule).body cells.now) }
{
    match rules.truth(rule, cells) {
        Truth::Yes => true,
        Truth::No | Truth::Unknown => false,
    }
}

// Whether a value of a parameter alone leaves a constraint undecided. The cells give no parameter a
// value, before and after.
fn is_doubtful(rules: &CompiledRules, rule: u32, q: ParamNo, w: ValueNo, cells: &mut Cells) -> bool
    requires first { 0 < rule }
    requires last { rule ≤ length rules.now.rules }
    requires parameter { q < length rules.now.params }
    requires value { w < length (param_at rules.now.params q).values }
    requires none { cells.old ≡ no_values rules.now }
    ensures doubtful { result ≡ not (is_yes (body_truth rules.now (rule_at rules.now rule).body (with_value (no_values rules.now) q w))) }
    ensures same { cells.new ≡ cells.old }
{
    cells.set_cell(q, w);
    let decided = holds(rules, rule, cells);
    cells.clear_cell(q);
    !decided
}

// The values of a parameter that alone leave a constraint undecided. The cells give no parameter a
// value, before and after.
fn doubtful_values(
    alloc: Global,
    rules: &CompiledRules,
    rule: u32,
    q: ParamNo,
    cells: &mut Cells,
) -> Result<Vec<ValueNo>, NoMemory>
    requires first { 0 < rule }
    requires last { rule ≤ length rules.now.rules }
    requires parameter { q < length rules.now.params }
    requires none { cells.old ≡ no_values rules.now }
    ensures list { IfOk result (λ list. list.items ≡ doubtful rules.now (rule_at rules.now rule).body q) }
    ensures same { IfOk result (λ _. cells.new ≡ cells.old) }
{
    let count = rules.model().value_count(q);
    let mut list = Vec::new(alloc);
    for w in 0..count {
        if is_doubtful(rules, rule, q, w, cells) {
            list.push(w)?;
        }
    }
    Ok(list)
}

// These values by each parameter that the constraint names.
fn doubtful_lists(
    alloc: Global,
    rules: &CompiledRules,
    rule: u32,
    named: &[ParamNo],
    cells: &mut Cells,
) -> Result<PackedLists, NoMemory>
    requires first { 0 < rule }
    requires last { rule ≤ length rules.now.rules }
    requires named { named.now ≡ members (length rules.now.params) (rule_at rules.now rule).body }
    requires none { cells.old ≡ no_values rules.now }
    ensures lists { IfOk result (λ lists. lists ≡ doubtful_by rules.now rule) }
    ensures same { IfOk result (λ _. cells.new ≡ cells.old) }
{
    let mut lists = PackedLists::new(alloc);
    for q in named {
        let list = doubtful_values(alloc, rules, rule, *q, cells)?;
        put_list(&mut lists, list)?;
    }
    Ok(lists)
}

// The same of each constraint.
pub(crate) fn all_doubtful(
    alloc: Global,
    rules: &CompiledRules,
    members: &PackedLists,
) -> Result<Vec<PackedLists>, NoMemory>
    requires { members.now ≡ all_members rules.now }
    ensures { IfOk result (λ list. list.items ≡ all_doubtful rules.now) }
{
    let model = rules.model();
    let count = model.rules().len();
    let mut cells = Cells::empty(alloc, model.params().len())?;
    let mut all = Vec::new(alloc);
    for i in 0..count {
        let lists = doubtful_lists(alloc, rules, i as u32 + 1, members.list(i), &mut cells)?;
        all.push(lists)?;
    }
    Ok(all)
}
