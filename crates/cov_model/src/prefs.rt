ghost use Rattle.std.specs.Prelude.{◌≡◌, ◌<◌, ◌≤◌, [], length, slice_index_or, IfOk, OnOk};
ghost use Rattle.cov_model.specs.believed.Sound.{param_at};
ghost use Rattle.cov_model.specs.Preference.{OrdersValues};
ghost use Rattle.cov_model.specs.believed.Preference.{by_falling_weight, declared_order, generator_of, preference, preferred, shuffled, weight_in};

use crate::model::TestModel;
use crate::parameter::{ParamNo, ValueList, ValueNo};
use rand_core::utils::NextWord;
use rand_pcg::Lcg64Xsh32;
use std::alloc::Global;
use std::cmp::Reverse;
use std::marker::Model;
use value_text::NoMemory;

/// The preference order of the values of each parameter: of values that would serve equally well,
/// the first in this order is taken. Contracts see the list of the orders.
#[derive(Drop)]
pub struct Prefs {
    orders: Vec<Vec<ValueNo>>,
}

impl Model for Prefs {
    ghost use Rattle.std.specs.Prelude.{List, map, ℕ};

    ghost Value = { List (List ℕ) };

    ghost view = { λ prefs. map (λ order. order.items) prefs.orders.items };
}

// Shuffles: for each place from the last down to 1 one word is drawn.
fn shuffle(generator: &mut Lcg64Xsh32, order: &mut [ValueNo])
    ensures { (order.new, generator.new) ≡ shuffled order.old generator.old }
{
    for i in (1..order.len()).rev() {
        let word = generator.next_word() as usize;
        order.swap(i, word % (i + 1));
    }
}

// The weight of a value.
fn weight_of(values: &ValueList, v: ValueNo) -> u32
    ensures { result ≡ weight_in values.now v }
{
    match values.get(v as usize) {
        Some(value) => value.weight,
        None => 0,
    }
}

// The declared order.
fn declared(alloc: Global, values: &ValueList) -> Result<Vec<ValueNo>, NoMemory>
    requires { length values.now ≤ 4095 }
    ensures { IfOk result (λ order. order.items ≡ declared_order values.now) }
{
    let count = values.len() as ValueNo;
    let order = (0..count).collect::<Vec<ValueNo>>(alloc)?;
    Ok(order)
}

// Sorts by falling weight.
fn sort_by_weight(values: &ValueList, order: &mut Vec<ValueNo>) -> Result<(), NoMemory>
    ensures { OnOk result (order.new.items ≡ by_falling_weight (weight_in values.now) order.old.items) }
{
    let key = |v: &ValueNo| -> Reverse<u32>
        ensures { result ≡ record { 0 = weight_in values.entry.now v.now } }
    { Reverse(weight_of(values, *v)) };
    order.sort_by_key(key)?;
    Ok(())
}

// The preference order of one parameter's values.
fn preferred_order(
    alloc: Global,
    values: &ValueList,
    generator: &mut Option<Lcg64Xsh32>,
) -> Result<Vec<ValueNo>, NoMemory>
    requires { length values.now ≤ 4095 }
    ensures { IfOk result (λ order. (order.items, generator.new) ≡ preferred values.now generator.old) }
{
    let mut order = declared(alloc, values)?;
    if let Some(words) = generator {
        shuffle(words, &mut order);
    }
    sort_by_weight(values, &mut order)?;
    Ok(order)
}

impl Prefs {
    /// The preference orders of a model: as declared, shuffled if a number is given, then stably
    /// sorted by falling weight (PICT's guide; the shuffle is this project's rule). The words of
    /// the shuffle are those of `Lcg64Xsh32::new(number, 1)`: for each parameter in order, and for
    /// each place from the last down to 1, one word w is drawn, and places i and `w mod (i + 1)`
    /// swap.
    ///
    /// # Errors
    ///
    /// `NoMemory` where there is no room for the orders.
    pub fn new(alloc: Global, model: &TestModel, shuffle: Option<u64>) -> Result<Prefs, NoMemory>
        ensures orders { IfOk result (λ prefs. prefs ≡ preference model.now shuffle) }
        ensures complete { IfOk result (OrdersValues model.now) }
    {
        let mut generator = match shuffle {
            Some(number) => Some(Lcg64Xsh32::new(number, 1)),
            None => None,
        };
        let mut orders = Vec::new(alloc);
        for param in model.params().as_slice() {
            let order = preferred_order(alloc, &param.values, &mut generator)?;
            orders.push(order)?;
        }
        Ok(Prefs { orders })
    }

    /// The values of a parameter in preference order. Takes no memory.
    pub fn of(&self, p: ParamNo) -> &[ValueNo]
        requires { p < length self.now }
        ensures { result.now ≡ slice_index_or self.now p [] }
    {
        self.orders[p as usize].as_slice()
    }
}
