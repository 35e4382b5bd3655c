ghost use Rattle.definitions.specs.believed.Demand.{choices, singles};
ghost use Rattle.std.specs.Prelude.{◌++◌, sum_by, OnOk, ◌≡◌, ◌<◌, [], map, length, IfOk};
ghost use Rattle.std.specs.List.{range_with_len};
ghost use Rattle.tuple_index.specs.Counts.{IsRow, group_ways, next_entry, products};
ghost use Rattle.tuple_index.specs.believed.PlanFault.{saturated};

use crate::demand::is_single;
use cov_model::{Group, TestModel};
use std::alloc::Global;
use value_text::NoMemory;

// What the next row has at a place.
fn entry_at(row: &[u64], count: u64, j: usize) -> u64
    requires { j < length row.now }
    ensures { result ≡ next_entry count row.now j }
{
    if j == 0 {
        return 1;
    }
    count.saturating_mul(row[j - 1]).saturating_add(row[j])
}

// The row of one count more.
fn next_row(alloc: Global, row: &[u64], count: u64) -> Result<Vec<u64>, NoMemory>
    ensures { IfOk result (λ next. next.items ≡ map (next_entry count row.now) (range_with_len 0 (length row.now))) }
{
    let mut next = Vec::new(alloc);
    for j in 0..row.len() {
        next.push(entry_at(row, count, j))?;
    }
    Ok(next)
}

// The row of no count.
fn first_row(alloc: Global, k: u32) -> Result<Vec<u64>, NoMemory>
    ensures { IfOk result (λ row. IsRow k [] row.items) }
{
    let mut row = vec![in alloc; 0; k as usize + 1]?;
    row[0] = 1;
    Ok(row)
}

/// The sum of the products of any k of the counts, or 2^64 - 1 where that is less.
///
/// # Errors
///
/// `NoMemory` where there is no room for the sums.
pub fn sum_of_products(alloc: Global, k: u32, counts: &[u64]) -> Result<u64, NoMemory>
    ensures { IfOk result (λ sum. sum ≡ saturated (products k counts.now)) }
{
    let mut row = first_row(alloc, k)?;
    let mut left = counts.len();
    while left > 0 {
        left -= 1;
        row = next_row(alloc, &row, counts[left])?;
    }
    Ok(row[k as usize])
}

/// How many ways there are to take as many members of a group as its order says, or 2^64 - 1 where
/// that is less.
///
/// # Errors
///
/// `NoMemory` where there is no room for counting them.
pub fn count_group(alloc: Global, group: &Group) -> Result<u64, NoMemory>
    ensures { IfOk result (λ count. count ≡ saturated (group_ways group.now)) }
{
    let ones = vec![in alloc; 1; group.members.len()]?;
    sum_of_products(alloc, group.order, ones.as_slice())
}

// Adds the number of ways of each single parameter, which is 1.
fn push_single_counts(model: &TestModel, into: &mut Vec<u64>) -> Result<(), NoMemory>
    ensures { OnOk result (into.new.items ≡ into.old.items ++ map (λ p. 1) (singles model.now)) }
{
    let count = model.params().len() as u16;
    for p in 0..count {
        if is_single(model, p) {
            into.push(1)?;
        }
    }
    Ok(())
}

// The number of ways of each group.
fn group_counts(alloc: Global, groups: &[Group]) -> Result<Vec<u64>, NoMemory>
    ensures { IfOk result (λ counts. counts.items ≡ map (λ group. saturated (group_ways group)) groups.now) }
{
    let mut counts = Vec::new(alloc);
    for group in groups {
        let ways = count_group(alloc, group)?;
        counts.push(ways)?;
    }
    Ok(counts)
}

// The number of subsets of all relations.
fn count_relations(alloc: Global, relations: &[Group]) -> Result<u64, NoMemory>
    ensures { IfOk result (λ count. count ≡ saturated (sum_by group_ways relations.now)) }
{
    let mut count: u64 = 0;
    for relation in relations {
        count = count.saturating_add(count_group(alloc, relation)?);
    }
    Ok(count)
}

/// The number of choices of demanded sets, before equal ones are joined, or 2^64 - 1 where that is
/// less. None is listed.
///
/// # Errors
///
/// `NoMemory` where there is no room for counting them.
pub fn count_choices(alloc: Global, model: &TestModel) -> Result<u64, NoMemory>
    ensures { IfOk result (λ count. count ≡ saturated (length (choices model.now))) }
{
    let demand = model.demand();
    let mut units = group_counts(alloc, demand.subs.as_slice())?;
    push_single_counts(model, &mut units)?;
    let taken = units.len().min(demand.order as usize) as u32;
    let unions = sum_of_products(alloc, taken, &units)?;
    Ok(unions.saturating_add(count_relations(alloc, demand.relations.as_slice())?))
}
