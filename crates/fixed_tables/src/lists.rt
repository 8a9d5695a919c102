//! Lists as values of SEQUENCE OF.

ghost use Rattle.std.specs.Prelude.{◌≡◌, map, IfOk};
ghost use Rattle.std.specs.Option.{option_copied};
ghost use Rattle.asn1_types.specs.Value as tree;
ghost use Rattle.asn1_types.specs.ValueView.{values_of};
ghost use Rattle.fixed_tables.specs.Values.{items_in};

use asn1_types::{Node, Val};
use osi_base::{ListOf, NoMemory};
use std::alloc::Global;

/// What values of a type say. Each kind of item has a type of this trait.
pub trait InValue {
    /// The items.
    type Item: Drop;

    ghost use Rattle.asn1_types.specs.Value as tree;

    /// What a value says.
    ghost item_in: { tree.Value → Self.Item };

    /// The value that says an item.
    ghost item_value: { Self.Item → tree.Value };

    /// What a value says.
    fn item(alloc: Global, value: &Val) -> Result<Self::Item, NoMemory>
        ensures { IfOk result (λ item. item ≡ item_in value.now) };

    /// The value that says an item.
    fn val(alloc: Global, item: &Self::Item) -> Result<Val, NoMemory>
        ensures { IfOk result (λ v. v ≡ item_value item.now) };
}

/// The items that a SEQUENCE OF says; none where it doesn't stand.
#[tactic(auto, using(crate::proofs::ListValues::values_back))]
pub fn list_in<T: InValue>(alloc: Global, value: Option<&Val>) -> Result<ListOf<T::Item>, NoMemory>
    ensures { IfOk result (λ items. items ≡ map T.item_in (items_in (option_copied value.entry))) }
{
    let Some(value) = value else {
        return Ok(ListOf::new(alloc));
    };
    match &value.node {
        Node::List(values) => read_items::<T>(alloc, values.as_slice()),
        _ => Ok(ListOf::new(alloc)),
    }
}

/// What each value says.
fn read_items<T: InValue>(alloc: Global, values: &[Val]) -> Result<ListOf<T::Item>, NoMemory>
    ensures { IfOk result (λ items. items ≡ map T.item_in values.now) }
{
    let mut items = Vec::new(alloc);
    for value in values {
        items.push(T::item(alloc, value)?)?;
    }
    Ok(ListOf::from_vec(items))
}

/// The SEQUENCE OF that says these items.
pub fn list_of<T: InValue>(alloc: Global, items: &[T::Item]) -> Result<Val, NoMemory>
    ensures { IfOk result (λ v. v ≡ tree.list (values_of (map T.item_value items.now))) }
{
    let mut values = Vec::new(alloc);
    for item in items {
        values.push(T::val(alloc, item)?)?;
    }
    Ok(Val {
        node: Node::List(values),
    })
}
